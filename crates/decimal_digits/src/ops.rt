//! Arithmetic on magnitudes, which are 16-bit integers. Each function computes in a wider type, so none overflows.
ghost use Rattle.std.specs.Prelude.{◌≡◌, ◌+◌, ◌<◌, ◌≤◌, ◌+ℤ◌, ◌-ℤ◌, ◌<ℤ◌, ◌≤ℤ◌, pos, negsuc, IfSome, IfNone};
ghost use Rattle.std.specs.Int.{int_max, int_min, int_gap};

/// Adds two magnitudes, or a magnitude and a difference.
///
/// The sum may be outside of 16 bits: 32767 and 1 give 32768.
#[inline]
pub fn add_magnitudes(a: i16, b: i16) -> i32
    ensures { result ≡ a +ℤ b }
{
    a as i32 + b as i32
}

/// Converts a magnitude to an `i16`.
///
/// Requires -32768 to 32767: `to_magnitude(-5)` is -5.
#[inline]
pub fn to_magnitude(magnitude: i32) -> i16
    requires low { negsuc 32767 ≤ℤ magnitude }
    requires high { magnitude ≤ℤ pos 32767 }
    ensures { result ≡ magnitude }
{
    magnitude as i16
}

/// Returns the magnitude, or 0 if it is negative.
///
/// `at_least_zero(-2)` is 0. Requires at most 32767.
#[inline]
pub fn at_least_zero(magnitude: i32) -> i16
    requires { magnitude ≤ℤ pos 32767 }
    ensures { result ≡ int_max magnitude (pos 0) }
{
    magnitude.max(0) as i16
}

/// Returns the magnitude, or 0 if it is positive.
///
/// `at_most_zero(3)` is 0. Requires at least -32768.
#[inline]
pub fn at_most_zero(magnitude: i32) -> i16
    requires { negsuc 32767 ≤ℤ magnitude }
    ensures { result ≡ int_min magnitude (pos 0) }
{
    magnitude.min(0) as i16
}

/// Counts the magnitudes from `lo` to `hi`, both included.
///
/// `count_between(-2, 0)` is 3, and the greatest count is 65,536. Requires `lo <= hi`.
#[inline]
pub fn count_between(lo: i16, hi: i16) -> u32
    requires { lo ≤ℤ hi }
    ensures { result ≡ int_gap lo hi + 1 }
{
    (hi as i32 - lo as i32 + 1) as u32
}

/// Subtracts a distance from a magnitude.
///
/// `magnitude_below(2, 5)` is -3. Requires a result of at least -32768.
#[inline]
pub fn magnitude_below(magnitude: i16, by: u32) -> i16
    requires { negsuc 32767 ≤ℤ (magnitude -ℤ pos by) }
    ensures { result ≡ magnitude -ℤ pos by }
{
    (magnitude as i64 - by as i64) as i16
}

/// Counts the magnitudes from `position` up to `magnitude`, both included.
///
/// `places_above(-1, 2)` is 4, and `places_above(3, 2)` is 0. None if `position` is above `magnitude + 1`.
#[inline]
pub fn places_above(position: i16, magnitude: i16) -> Option<usize>
    ensures some { IfSome result (λ places. (position +ℤ pos places) ≡ (magnitude +ℤ pos 1)) }
    ensures none { IfNone result ((magnitude +ℤ pos 1) <ℤ position) }
{
    let above = magnitude as i32 + 1;
    let position = position as i32;
    if above < position {
        None
    } else {
        Some((above - position) as usize)
    }
}

/// Counts the magnitudes from `position` up to 32767, both included.
///
/// `max_places_above(32767)` is 1, and `max_places_above(-32768)` is 65,536.
#[inline]
pub fn max_places_above(position: i16) -> usize
    ensures { (position +ℤ pos result) ≡ pos 32768 }
{
    (32768 - position as i32) as usize
}

/// Returns the highest of `places` consecutive magnitudes, of which `position` is the lowest.
///
/// `highest_of(-1, 4)` is 2. Requires at least 1 place, and a result of at most 32767.
#[inline]
pub fn highest_of(position: i16, places: usize) -> i16
    requires some { 0 < places }
    requires in_limits { (position +ℤ pos places) ≤ℤ pos 32768 }
    ensures { (result +ℤ pos 1) ≡ (position +ℤ pos places) }
{
    (position as i64 + places as i64 - 1) as i16
}

/// Returns the magnitude of the digit at an index, where the first digit is at the magnitude `first`.
///
/// `magnitude_of(2, 5)` is -3. Requires a result of at least -32768.
#[inline]
pub fn magnitude_of(first: i16, index: usize) -> i16
    requires { negsuc 32767 ≤ℤ (first -ℤ pos index) }
    ensures { result ≡ first -ℤ pos index }
{
    (first as i64 - index as i64) as i16
}

/// Returns the index of the digit at a magnitude, where the first digit is at the magnitude `first`.
///
/// `index_of(2, -3)` is 5. None if `magnitude` is above `first`.
#[inline]
pub fn index_of(first: i16, magnitude: i16) -> Option<usize>
    ensures some { IfSome result (λ index. (magnitude +ℤ pos index) ≡ first) }
    ensures none { IfNone result (first <ℤ magnitude) }
{
    if magnitude > first {
        None
    } else {
        Some((first as i32 - magnitude as i32) as usize)
    }
}

/// Returns the index of the digit at a magnitude as [`index_of`], and above `first` an index past every list of digits.
///
/// `wrapping_index(2, -3)` is 5, and `wrapping_index(2, 3)` is 2^64 - 1.
#[inline]
pub fn wrapping_index(first: i16, magnitude: i16) -> usize
    ensures within { magnitude ≤ℤ first → (magnitude +ℤ pos result) ≡ first }
    ensures above { first <ℤ magnitude → 65536 < result }
{
    (first as i64 - magnitude as i64).cast_unsigned() as usize
}

/// Subtracts a number of digits from another.
///
/// `subtract_counts(2, 5)` is -3. Requires at most 65,536 digits.
#[inline]
pub fn subtract_counts(a: usize, b: usize) -> i32
    requires first_in { a ≤ 65536 }
    requires second_in { b ≤ 65536 }
    ensures { result ≡ pos a -ℤ pos b }
{
    a as i32 - b as i32
}

/// Adds an exponent to a magnitude.
///
/// `shift_magnitude(2, -5)` is -3. Requires a magnitude and an exponent from -131,072 to 131,072.
#[inline]
pub fn shift_magnitude(magnitude: i32, exponent: i32) -> i32
    requires magnitude_in { (negsuc 131071 ≤ℤ magnitude) × (magnitude ≤ℤ pos 131072) }
    requires exponent_in { (negsuc 131071 ≤ℤ exponent) × (exponent ≤ℤ pos 131072) }
    ensures { result ≡ magnitude +ℤ exponent }
{
    magnitude + exponent
}
