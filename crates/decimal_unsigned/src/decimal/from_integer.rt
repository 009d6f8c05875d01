//! Values of integers.
ghost use Rattle.std.specs.Prelude.{◌≡◌, ℕ, ◌-◌, ◌^◌, ◌<◌, ◌≤◌, length, drop, slice_index, All, IsOk, IfOk, pos, ◌≤ℤ◌};
ghost use Rattle.std.specs.Int.Digits.{digits_of, number_from_digits};
ghost use Rattle.decimal_digits.specs.Number.{size};
ghost use Rattle.decimal_unsigned.specs.Unsigned.{integer_value, one_value};

use super::UnsignedOver;
use decimal_digits::digits::DigitStore;
use decimal_digits::ops::{at_least_zero, subtract_counts};
use decimal_digits::uint_iterator::{IntIterator, MAX_DIGITS, UnsignedInteger};
use std::alloc::{AllocError, Global};

fn write_integer_digits<T: UnsignedInteger>(integer: T, buffer: &mut [u8; MAX_DIGITS]) -> usize
    requires { T.number integer < 2 ^ 128 }
    ensures within { result ≤ length buffer.old }
    ensures digits { drop result buffer.new ≡ digits_of 10 (T.number integer) }
{
    let mut start = buffer.len();
    for digit in IntIterator::new(integer) {
        start -= 1;
        buffer[start] = digit;
    }
    start
}

fn trimmed_len(digits: &[u8]) -> usize
    ensures within { result ≤ length digits.now }
    ensures zeros { (k : ℕ) → result ≤ k → slice_index digits.now k ≡ 0 }
    ensures found { 0 < result → 0 < slice_index digits.now (result - 1) }
{
    for index in (0..digits.len()).rev() {
        if digits[index] != 0 {
            return index + 1;
        }
    }
    0
}

#[tactic(auto, using(crate::proofs::lemmas::from_bcd::Integers::ranges))]
impl<D: DigitStore> UnsignedOver<D> {
    /// Makes the number 1, which prints `1`, without an allocation.
    pub fn one(alloc: Global) -> Self
        ensures { result ≡ one_value }
    {
        Self::from_u8(alloc, 1)
    }

    /// Makes the value of a `u8`, without an allocation: 200 prints `200`.
    ///
    /// Its highest magnitude is at most 2.
    pub fn from_u8(alloc: Global, integer: u8) -> Self
        ensures value { result ≡ integer_value integer }
        ensures range { (result.hi ≤ℤ pos 2) × (result.lo ≡ pos 0) }
    {
        Self::from_u16(alloc, integer as u16)
    }

    /// Makes the value of a `u16`, without an allocation: 65535 prints `65535`.
    ///
    /// Its highest magnitude is at most 4.
    pub fn from_u16(alloc: Global, integer: u16) -> Self
        ensures value { result ≡ integer_value integer }
        ensures range { (result.hi ≤ℤ pos 4) × (result.lo ≡ pos 0) }
    {
        Self::from_integer(alloc, integer).unwrap()
    }

    /// Makes the value of a `u32`: 250 prints `250`. Its highest magnitude is at most 9.
    ///
    /// # Errors
    ///
    /// Out of memory; possible only with more than `L` digits, trailing zeros not counted.
    #[inline]
    pub fn try_from_u32(alloc: Global, integer: u32) -> Result<Self, AllocError>
        ensures value { IfOk result (λ v. v ≡ integer_value integer) }
        ensures range { IfOk result (λ v. (v.hi ≤ℤ pos 9) × (v.lo ≡ pos 0)) }
        ensures succeeds { size (integer_value integer).number ≤ D.L → IsOk result }
    {
        Self::from_integer::<u32>(alloc, integer)
    }

    /// Makes the value of a `u64`: 250 prints `250`. Its highest magnitude is at most 19.
    ///
    /// # Errors
    ///
    /// As for [`Self::try_from_u32`].
    #[inline]
    pub fn try_from_u64(alloc: Global, integer: u64) -> Result<Self, AllocError>
        ensures value { IfOk result (λ v. v ≡ integer_value integer) }
        ensures range { IfOk result (λ v. (v.hi ≤ℤ pos 19) × (v.lo ≡ pos 0)) }
        ensures succeeds { size (integer_value integer).number ≤ D.L → IsOk result }
    {
        Self::from_integer::<u64>(alloc, integer)
    }

    /// Makes the value of a `u128`: 250 prints `250`. Its highest magnitude is at most 38.
    ///
    /// # Errors
    ///
    /// As for [`Self::try_from_u32`].
    #[inline]
    pub fn try_from_u128(alloc: Global, integer: u128) -> Result<Self, AllocError>
        ensures value { IfOk result (λ v. v ≡ integer_value integer) }
        ensures range { IfOk result (λ v. (v.hi ≤ℤ pos 38) × (v.lo ≡ pos 0)) }
        ensures succeeds { size (integer_value integer).number ≤ D.L → IsOk result }
    {
        Self::from_integer::<u128>(alloc, integer)
    }

    /// Makes the value of a `usize`: 250 prints `250`. Its highest magnitude is at most 19.
    ///
    /// # Errors
    ///
    /// As for [`Self::try_from_u32`].
    #[inline]
    pub fn try_from_usize(alloc: Global, integer: usize) -> Result<Self, AllocError>
        ensures value { IfOk result (λ v. v ≡ integer_value integer) }
        ensures range { IfOk result (λ v. (v.hi ≤ℤ pos 19) × (v.lo ≡ pos 0)) }
        ensures succeeds { size (integer_value integer).number ≤ D.L → IsOk result }
    {
        Self::from_integer::<usize>(alloc, integer)
    }

    #[inline]
    fn from_integer<T: UnsignedInteger>(alloc: Global, integer: T) -> Result<Self, AllocError>
        requires { T.number integer < 2 ^ 128 }
        ensures value { IfOk result (λ v. v ≡ integer_value (T.number integer)) }
        ensures succeeds { size (integer_value (T.number integer)).number ≤ D.L → IsOk result }
        ensures fits { length (digits_of 10 (T.number integer)) ≤ D.L → IsOk result }
    {
        let mut buffer = [0; MAX_DIGITS];
        let start = write_integer_digits(integer, &mut buffer);
        let digits = &buffer[start..];
        let nonzero = D::from_digits(alloc, &digits[..trimmed_len(digits)])?;
        let magnitude = at_least_zero(subtract_counts(digits.len(), 1));
        Ok(UnsignedOver {
            digits: nonzero,
            magnitude,
            hi: magnitude,
            lo: 0,
        })
    }
}
