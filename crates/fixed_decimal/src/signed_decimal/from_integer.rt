//! Decimals of machine integers.
//!
//! The constructors that return no `Result` do not allocate.
ghost use Rattle.std.specs.Prelude.{◌≡◌, ◌≤◌, pos, ◌≤ℤ◌, if◌then◌else◌, IsOk, IfOk};
ghost use Rattle.decimal_digits.specs.Number.{size};
ghost use Rattle.fixed_decimal.specs.Decimal.{integer_decimal};

use crate::variations::{Sign, Signed};
use decimal_digits::digits::DigitStore;
use decimal_unsigned::decimal::UnsignedOver;
use std::alloc::{AllocError, Global};

#[inline]
fn negative_if(negative: bool) -> Sign
    ensures { result ≡ (if negative then Sign.Negative else Sign.None) }
{
    if negative { Sign::Negative } else { Sign::None }
}

impl<D: DigitStore> Signed<UnsignedOver<D>> {
    /// Makes the decimal of a `u8`, without a sign and with at most 3 digits: 200 prints `200`.
    pub fn from_u8(alloc: Global, integer: u8) -> Self
        ensures value { result ≡ integer_decimal (pos integer) }
        ensures range { (result.absolute.hi ≤ℤ pos 2) × (result.absolute.lo ≡ pos 0) }
    {
        Self::new(Sign::None, UnsignedOver::from_u8(alloc, integer))
    }

    /// Makes the decimal of a `u16`, without a sign and with at most 5 digits: 65535 prints `65535`.
    pub fn from_u16(alloc: Global, integer: u16) -> Self
        ensures value { result ≡ integer_decimal (pos integer) }
        ensures range { (result.absolute.hi ≤ℤ pos 4) × (result.absolute.lo ≡ pos 0) }
    {
        Self::new(Sign::None, UnsignedOver::from_u16(alloc, integer))
    }

    /// Makes the decimal of an `i8`, with a minus below 0 and with at most 3 digits: -128 prints `-128`.
    pub fn from_i8(alloc: Global, integer: i8) -> Self
        ensures value { result ≡ integer_decimal integer }
        ensures range { (result.absolute.hi ≤ℤ pos 2) × (result.absolute.lo ≡ pos 0) }
    {
        let absolute = UnsignedOver::from_u8(alloc, integer.unsigned_abs());
        Self::new(negative_if(integer < 0), absolute)
    }

    /// Makes the decimal of an `i16`, with a minus below 0 and with at most 5 digits: -32768 prints `-32768`.
    pub fn from_i16(alloc: Global, integer: i16) -> Self
        ensures value { result ≡ integer_decimal integer }
        ensures range { (result.absolute.hi ≤ℤ pos 4) × (result.absolute.lo ≡ pos 0) }
    {
        let absolute = UnsignedOver::from_u16(alloc, integer.unsigned_abs());
        Self::new(negative_if(integer < 0), absolute)
    }

    /// Makes the decimal of a `u32`, without a sign and with at most 10 digits: 250 prints `250`.
    ///
    /// # Errors
    ///
    /// Out of memory, only for more than `L` digits, trailing zeros not counted.
    pub fn try_from_u32(alloc: Global, integer: u32) -> Result<Self, AllocError>
        ensures value { IfOk result (λ v. v ≡ integer_decimal (pos integer)) }
        ensures range { IfOk result (λ v. (v.absolute.hi ≤ℤ pos 9) × (v.absolute.lo ≡ pos 0)) }
        ensures succeeds { size (integer_decimal (pos integer)).absolute.number ≤ D.L → IsOk result }
    {
        let absolute = UnsignedOver::try_from_u32(alloc, integer)?;
        Ok(Self::new(Sign::None, absolute))
    }

    /// Makes the decimal of a `u64`, without a sign and with at most 20 digits: 250 prints `250`.
    ///
    /// # Errors
    ///
    /// As [`try_from_u32`](Self::try_from_u32).
    pub fn try_from_u64(alloc: Global, integer: u64) -> Result<Self, AllocError>
        ensures value { IfOk result (λ v. v ≡ integer_decimal (pos integer)) }
        ensures range { IfOk result (λ v. (v.absolute.hi ≤ℤ pos 19) × (v.absolute.lo ≡ pos 0)) }
        ensures succeeds { size (integer_decimal (pos integer)).absolute.number ≤ D.L → IsOk result }
    {
        let absolute = UnsignedOver::try_from_u64(alloc, integer)?;
        Ok(Self::new(Sign::None, absolute))
    }

    /// Makes the decimal of a `u128`, without a sign and with at most 39 digits: 250 prints `250`.
    ///
    /// # Errors
    ///
    /// As [`try_from_u32`](Self::try_from_u32).
    pub fn try_from_u128(alloc: Global, integer: u128) -> Result<Self, AllocError>
        ensures value { IfOk result (λ v. v ≡ integer_decimal (pos integer)) }
        ensures range { IfOk result (λ v. (v.absolute.hi ≤ℤ pos 38) × (v.absolute.lo ≡ pos 0)) }
        ensures succeeds { size (integer_decimal (pos integer)).absolute.number ≤ D.L → IsOk result }
    {
        let absolute = UnsignedOver::try_from_u128(alloc, integer)?;
        Ok(Self::new(Sign::None, absolute))
    }

    /// Makes the decimal of a `usize`, without a sign and with at most 20 digits: 250 prints `250`.
    ///
    /// # Errors
    ///
    /// As [`try_from_u32`](Self::try_from_u32).
    pub fn try_from_usize(alloc: Global, integer: usize) -> Result<Self, AllocError>
        ensures value { IfOk result (λ v. v ≡ integer_decimal (pos integer)) }
        ensures range { IfOk result (λ v. (v.absolute.hi ≤ℤ pos 19) × (v.absolute.lo ≡ pos 0)) }
        ensures succeeds { size (integer_decimal (pos integer)).absolute.number ≤ D.L → IsOk result }
    {
        let absolute = UnsignedOver::try_from_usize(alloc, integer)?;
        Ok(Self::new(Sign::None, absolute))
    }

    /// Makes the decimal of an `i32`, with a minus below 0 and with at most 10 digits: -250 prints `-250`.
    ///
    /// # Errors
    ///
    /// As [`try_from_u32`](Self::try_from_u32).
    pub fn try_from_i32(alloc: Global, integer: i32) -> Result<Self, AllocError>
        ensures value { IfOk result (λ v. v ≡ integer_decimal integer) }
        ensures range { IfOk result (λ v. (v.absolute.hi ≤ℤ pos 9) × (v.absolute.lo ≡ pos 0)) }
        ensures succeeds { size (integer_decimal integer).absolute.number ≤ D.L → IsOk result }
    {
        let absolute = UnsignedOver::try_from_u32(alloc, integer.unsigned_abs())?;
        Ok(Self::new(negative_if(integer < 0), absolute))
    }

    /// Makes the decimal of an `i64`, with a minus below 0 and with at most 20 digits: -250 prints `-250`.
    ///
    /// # Errors
    ///
    /// As [`try_from_u32`](Self::try_from_u32).
    pub fn try_from_i64(alloc: Global, integer: i64) -> Result<Self, AllocError>
        ensures value { IfOk result (λ v. v ≡ integer_decimal integer) }
        ensures range { IfOk result (λ v. (v.absolute.hi ≤ℤ pos 19) × (v.absolute.lo ≡ pos 0)) }
        ensures succeeds { size (integer_decimal integer).absolute.number ≤ D.L → IsOk result }
    {
        let absolute = UnsignedOver::try_from_u64(alloc, integer.unsigned_abs())?;
        Ok(Self::new(negative_if(integer < 0), absolute))
    }

    /// Makes the decimal of an `i128`, with a minus below 0 and with at most 39 digits: -250 prints `-250`.
    ///
    /// # Errors
    ///
    /// As [`try_from_u32`](Self::try_from_u32).
    pub fn try_from_i128(alloc: Global, integer: i128) -> Result<Self, AllocError>
        ensures value { IfOk result (λ v. v ≡ integer_decimal integer) }
        ensures range { IfOk result (λ v. (v.absolute.hi ≤ℤ pos 38) × (v.absolute.lo ≡ pos 0)) }
        ensures succeeds { size (integer_decimal integer).absolute.number ≤ D.L → IsOk result }
    {
        let absolute = UnsignedOver::try_from_u128(alloc, integer.unsigned_abs())?;
        Ok(Self::new(negative_if(integer < 0), absolute))
    }

    /// Makes the decimal of an `isize`, with a minus below 0 and with at most 20 digits: -250 prints `-250`.
    ///
    /// # Errors
    ///
    /// As [`try_from_u32`](Self::try_from_u32).
    pub fn try_from_isize(alloc: Global, integer: isize) -> Result<Self, AllocError>
        ensures value { IfOk result (λ v. v ≡ integer_decimal integer) }
        ensures range { IfOk result (λ v. (v.absolute.hi ≤ℤ pos 19) × (v.absolute.lo ≡ pos 0)) }
        ensures succeeds { size (integer_decimal integer).absolute.number ≤ D.L → IsOk result }
    {
        let absolute = UnsignedOver::try_from_usize(alloc, integer.unsigned_abs())?;
        Ok(Self::new(negative_if(integer < 0), absolute))
    }
}
