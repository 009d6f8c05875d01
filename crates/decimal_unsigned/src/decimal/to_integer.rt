//! Conversions of values to integers.
ghost use Rattle.std.specs.Prelude.{◌≡◌, ℕ, ◌+◌, ◌*◌, ◌^◌, ◌<◌, ◌≤◌, ◌+ℤ◌, ◌<ℤ◌, pos, List, length, slice_index, IfSome, IfNone};
ghost use Rattle.std.specs.Int.Digits.{number_from_digits, AllBelowBase};
ghost use Rattle.decimal_digits.specs.Remainders.{leading};
ghost use Rattle.decimal_unsigned.specs.ToInteger.{in_range, as_integer};
ghost use Rattle.decimal_unsigned.specs.Unsigned.{IsValue};

use super::UnsignedOver;
use crate::error::IntegerError;
use decimal_digits::digits::DigitStore;

/// Returns the number that digits write in base 10, if they write `number` in base 16: 25 of 0x25.
#[inline]
fn number_of_bcd(number: u64) -> u64
    ensures { (ds : List ℕ) → AllBelowBase 16 ds → length ds ≤ 16 → number ≡ number_from_digits 16 ds
        → result ≡ number_from_digits 10 ds }
{
    // Joins two digits in each byte, four in two bytes, eight in four bytes, and then all sixteen.
    let pairs = number - (16 - 10) * (number >> 4 & 0x0f0f_0f0f_0f0f_0f0f);
    let fours = pairs - (256 - 100) * (pairs >> 8 & 0x00ff_00ff_00ff_00ff);
    let eights = fours - (65_536 - 10_000) * (fours >> 16 & 0x0000_ffff_0000_ffff);
    eights - (4_294_967_296 - 100_000_000) * (eights >> 32)
}

#[inline]
fn power_of_ten(exponent: usize) -> u64
    requires { exponent ≤ 3 }
    ensures { result ≡ 10 ^ exponent }
{
    match exponent {
        0 => 1,
        1 => 10,
        2 => 100,
        _ => 1000,
    }
}

#[inline]
#[tactic(auto, unfolding(decimal_digits::specs::Digits::number_at))]
fn leading_u64<D: DigitStore>(digits: &D, count: usize) -> u64
    requires some { 0 < count }
    requires fits { count ≤ 19 }
    ensures { result ≡ leading count (D.digits digits.now) }
{
    let front = digits.bcd_at(0);
    if count <= 16 {
        return number_of_bcd(front >> (4 * (16 - count)));
    }
    let rest = number_of_bcd(digits.bcd_at(16) >> (4 * (32 - count)));
    number_of_bcd(front) * power_of_ten(count - 16) + rest
}

#[tactic(auto, using(crate::proofs::lemmas::from_bcd::WholeNumbers::to_u128))]
fn leading_u128<D: DigitStore>(digits: &D, count: usize) -> u128
    requires { count ≤ 38 }
    ensures { result ≡ leading count (D.digits digits.now) }
{
    let mut number = 0;
    for index in 0..count {
        number = number * 10 + digits.digit_or_zero(index) as u128;
    }
    number
}

#[tactic(auto, using(crate::proofs::lemmas::from_bcd::WholeNumbers::leading_39))]
fn leading_39_digits<D: DigitStore>(digits: &D) -> Result<u128, IntegerError>
    ensures { result ≡ in_range (2 ^ 128) (leading 39 (D.digits digits.now)) }
{
    let Some(front) = leading_u128(digits, 38).checked_mul(10) else {
        return Err(IntegerError::OutOfRange);
    };
    match front.checked_add(digits.digit_or_zero(38) as u128) {
        Some(number) => Ok(number),
        None => Err(IntegerError::OutOfRange),
    }
}

#[inline]
fn integer_digit_count(magnitude: i16, len: usize) -> Option<usize>
    ensures some { IfSome result (λ count. (pos count ≡ magnitude +ℤ pos 1) × (len ≤ count)) }
    ensures none { IfNone result ((magnitude +ℤ pos 1) <ℤ pos len) }
{
    if magnitude < -1 {
        return None;
    }
    let count = (magnitude as i32 + 1) as usize;
    if count < len { None } else { Some(count) }
}

impl<D: DigitStore> UnsignedOver<D> {
    /// Converts the number to a `u64`, whatever zeros are shown, without an allocation.
    ///
    /// `012.00` gives 12.
    ///
    /// # Errors
    ///
    /// - `NotWhole`: a fraction digit is not 0, as in `1.5`.
    /// - `OutOfRange`: the number is an integer of 2^64 or more.
    pub fn try_to_u64(&self) -> Result<u64, IntegerError>
        ensures value { result ≡ as_integer (2 ^ 64) self.now.number }
        ensures valid { IsValue self.now }
    {
        let Some(count) = integer_digit_count(self.magnitude, self.digits.len()) else {
            return Err(IntegerError::NotWhole);
        };
        if count <= 19 {
            return Ok(leading_u64(&self.digits, count));
        }
        let integer = self.try_to_u128()?;
        if integer > u64::MAX as u128 {
            return Err(IntegerError::OutOfRange);
        }
        Ok(integer as u64)
    }

    /// Converts the number to a `u128`, whatever zeros are shown, without an allocation.
    ///
    /// `012.00` gives 12.
    ///
    /// # Errors
    ///
    /// - `NotWhole`: a fraction digit is not 0, as in `1.5`.
    /// - `OutOfRange`: the number is an integer of 2^128 or more.
    #[inline]
    pub fn try_to_u128(&self) -> Result<u128, IntegerError>
        ensures value { result ≡ as_integer (2 ^ 128) self.now.number }
        ensures valid { IsValue self.now }
    {
        let Some(count) = integer_digit_count(self.magnitude, self.digits.len()) else {
            return Err(IntegerError::NotWhole);
        };
        match count {
            0..=19 => Ok(leading_u64(&self.digits, count) as u128),
            20..=38 => Ok(leading_u128(&self.digits, count)),
            39 => leading_39_digits(&self.digits),
            _ => Err(IntegerError::OutOfRange),
        }
    }
}
