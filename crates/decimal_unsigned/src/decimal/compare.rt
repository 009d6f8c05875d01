//! The order of the numbers of two values.
ghost use Rattle.std.specs.Prelude.{◌≡◌, length};
ghost use Rattle.std.specs.Cmp.Lexicographic.{slice_cmp};
ghost use Rattle.std.specs.Int.Digits.{number_from_digits};
ghost use Rattle.std.specs.Ordering.{nat_cmp};
ghost use Rattle.decimal_digits.specs.Digits.{IsStripped};
ghost use Rattle.decimal_unsigned.specs.Unsigned.{IsValue};

use super::UnsignedOver;
use decimal_digits::digits::DigitStore;
use std::cmp::Ordering;

#[inline]
fn word_of(bytes: &[u8]) -> u64
    requires { length bytes.now ≡ 8 }
    ensures { result ≡ number_from_digits 256 bytes.now }
{
    match bytes.as_array::<8>() {
        Some(word) => u64::from_be_bytes(*word),
        None => 0,
    }
}

fn compare_slices(bytes: &[u8], other: &[u8]) -> Ordering
    ensures { result ≡ slice_cmp nat_cmp bytes.now other.now }
{
    // Equality takes less time than order.
    if bytes == other {
        return Ordering::Equal;
    }
    bytes.cmp(&other)
}

#[inline]
fn compare_bytes(bytes: &[u8], other: &[u8]) -> Ordering
    ensures { result ≡ slice_cmp nat_cmp bytes.now other.now }
{
    let len = bytes.len();
    if len != other.len() || len < 8 || len > 16 {
        return compare_slices(bytes, other);
    }
    if word_of(&bytes[..8]) != word_of(&other[..8]) {
        return compare_slices(bytes, other);
    }
    // The last eight bytes may overlap the first, which are equal.
    word_of(&bytes[len - 8..]).cmp(&word_of(&other[len - 8..]))
}

fn compare_long<D: DigitStore, E: DigitStore>(digits: &D, other: &E) -> Ordering
    requires stripped { IsStripped (D.digits digits.now) }
    requires other_stripped { IsStripped (E.digits other.now) }
    ensures { result ≡ slice_cmp nat_cmp (D.digits digits.now) (E.digits other.now) }
{
    if let (Some(bytes), Some(other_bytes)) = (digits.as_bcd(), other.as_bcd()) {
        return compare_bytes(bytes, other_bytes);
    }
    for index in 0..digits.len().min(other.len()) {
        let digit = digits.get(index);
        let other_digit = other.get(index);
        if digit != other_digit {
            return digit.cmp(&other_digit);
        }
    }
    digits.len().cmp(&other.len())
}

fn compare_digits<D: DigitStore, E: DigitStore>(digits: &D, other: &E) -> Ordering
    requires stripped { IsStripped (D.digits digits.now) }
    requires other_stripped { IsStripped (E.digits other.now) }
    ensures { result ≡ slice_cmp nat_cmp (D.digits digits.now) (E.digits other.now) }
{
    let shortest = digits.len().min(other.len());
    if shortest <= 16 {
        let front = digits.bcd_at(0);
        let other_front = other.bcd_at(0);
        let longest = digits.len().max(other.len());
        if front != other_front || longest <= 16 {
            return front.cmp(&other_front);
        }
    }
    compare_long(digits, other)
}

impl<D: DigitStore> UnsignedOver<D> {
    /// Compares the numbers of two values, over any two lists of digits; the zeros that are shown do not matter.
    ///
    /// `0.5` is less than `2`, and `1.0` and `1` are `Equal`. It is not `Ord`, which has to agree with `==`, the
    /// equality of texts. It does not allocate.
    pub fn compare<E: DigitStore>(&self, other: &UnsignedOver<E>) -> Ordering
        ensures order { result ≡ nat_cmp self.now.number other.now.number }
        ensures valid { IsValue self.now × IsValue other.now }
    {
        let len = self.digits.len();
        let other_len = other.digits.len();
        if len == 0 || other_len == 0 {
            // Only the number 0 has no digits.
            return len.cmp(&other_len);
        }
        if self.magnitude != other.magnitude {
            return self.magnitude.cmp(&other.magnitude);
        }
        compare_digits(&self.digits, &other.digits)
    }
}
