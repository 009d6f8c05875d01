//! `FixedInteger` values of machine integers.
//!
//! The constructors that return no `Result` do not allocate.
ghost use Rattle.std.specs.Prelude.{◌≡◌, ◌≤◌, pos, IsOk, IfOk};
ghost use Rattle.decimal_digits.specs.Number.{size};
ghost use Rattle.fixed_decimal.specs.Decimal.{integer_decimal};

use super::FixedInteger;
use crate::signed_decimal::Decimal;
use decimal_unsigned::decimal::INLINE_DIGITS;
use std::alloc::{AllocError, Global};

impl FixedInteger {
    /// Makes the integer of a `u8`, without a sign: 200 prints `200`.
    pub fn from_u8(alloc: Global, integer: u8) -> Self
        ensures { result ≡ integer_decimal (pos integer) }
    {
        Self::from_u16(alloc, integer.into())
    }

    /// Makes the integer of a `u16`, without a sign: 65535 prints `65535`.
    pub fn from_u16(alloc: Global, integer: u16) -> Self
        ensures { result ≡ integer_decimal (pos integer) }
    {
        FixedInteger(Decimal::from_u16(alloc, integer))
    }

    /// Makes the integer of an `i8`, with a minus below 0: -128 prints `-128`.
    pub fn from_i8(alloc: Global, integer: i8) -> Self
        ensures { result ≡ integer_decimal integer }
    {
        Self::from_i16(alloc, integer.into())
    }

    /// Makes the integer of an `i16`, with a minus below 0: -32768 prints `-32768`.
    pub fn from_i16(alloc: Global, integer: i16) -> Self
        ensures { result ≡ integer_decimal integer }
    {
        FixedInteger(Decimal::from_i16(alloc, integer))
    }

    /// Makes the integer of a `u32`, without a sign: 250 prints `250`.
    ///
    /// # Errors
    ///
    /// Out of memory, only for more than `INLINE_DIGITS` digits, trailing zeros not counted.
    pub fn try_from_u32(alloc: Global, integer: u32) -> Result<Self, AllocError>
        ensures value { IfOk result (λ v. v ≡ integer_decimal (pos integer)) }
        ensures succeeds { size (integer_decimal (pos integer)).absolute.number ≤ INLINE_DIGITS → IsOk result }
    {
        Self::try_from_u64(alloc, integer.into())
    }

    /// Makes the integer of a `u64`, without a sign: 250 prints `250`.
    ///
    /// # Errors
    ///
    /// As [`try_from_u32`](Self::try_from_u32).
    pub fn try_from_u64(alloc: Global, integer: u64) -> Result<Self, AllocError>
        ensures value { IfOk result (λ v. v ≡ integer_decimal (pos integer)) }
        ensures succeeds { size (integer_decimal (pos integer)).absolute.number ≤ INLINE_DIGITS → IsOk result }
    {
        Ok(FixedInteger(Decimal::try_from_u64(alloc, integer)?))
    }

    /// Makes the integer of a `u128`, without a sign: 250 prints `250`.
    ///
    /// # Errors
    ///
    /// As [`try_from_u32`](Self::try_from_u32).
    pub fn try_from_u128(alloc: Global, integer: u128) -> Result<Self, AllocError>
        ensures value { IfOk result (λ v. v ≡ integer_decimal (pos integer)) }
        ensures succeeds { size (integer_decimal (pos integer)).absolute.number ≤ INLINE_DIGITS → IsOk result }
    {
        Ok(FixedInteger(Decimal::try_from_u128(alloc, integer)?))
    }

    /// Makes the integer of a `usize`, without a sign: 250 prints `250`.
    ///
    /// # Errors
    ///
    /// As [`try_from_u32`](Self::try_from_u32).
    pub fn try_from_usize(alloc: Global, integer: usize) -> Result<Self, AllocError>
        ensures value { IfOk result (λ v. v ≡ integer_decimal (pos integer)) }
        ensures succeeds { size (integer_decimal (pos integer)).absolute.number ≤ INLINE_DIGITS → IsOk result }
    {
        Self::try_from_u64(alloc, integer as u64)
    }

    /// Makes the integer of an `i32`, with a minus below 0: -250 prints `-250`.
    ///
    /// # Errors
    ///
    /// As [`try_from_u32`](Self::try_from_u32).
    pub fn try_from_i32(alloc: Global, integer: i32) -> Result<Self, AllocError>
        ensures value { IfOk result (λ v. v ≡ integer_decimal integer) }
        ensures succeeds { size (integer_decimal integer).absolute.number ≤ INLINE_DIGITS → IsOk result }
    {
        Self::try_from_i64(alloc, integer.into())
    }

    /// Makes the integer of an `i64`, with a minus below 0: -250 prints `-250`.
    ///
    /// # Errors
    ///
    /// As [`try_from_u32`](Self::try_from_u32).
    pub fn try_from_i64(alloc: Global, integer: i64) -> Result<Self, AllocError>
        ensures value { IfOk result (λ v. v ≡ integer_decimal integer) }
        ensures succeeds { size (integer_decimal integer).absolute.number ≤ INLINE_DIGITS → IsOk result }
    {
        Ok(FixedInteger(Decimal::try_from_i64(alloc, integer)?))
    }

    /// Makes the integer of an `i128`, with a minus below 0: -250 prints `-250`.
    ///
    /// # Errors
    ///
    /// As [`try_from_u32`](Self::try_from_u32).
    pub fn try_from_i128(alloc: Global, integer: i128) -> Result<Self, AllocError>
        ensures value { IfOk result (λ v. v ≡ integer_decimal integer) }
        ensures succeeds { size (integer_decimal integer).absolute.number ≤ INLINE_DIGITS → IsOk result }
    {
        Ok(FixedInteger(Decimal::try_from_i128(alloc, integer)?))
    }

    /// Makes the integer of an `isize`, with a minus below 0: -250 prints `-250`.
    ///
    /// # Errors
    ///
    /// As [`try_from_u32`](Self::try_from_u32).
    pub fn try_from_isize(alloc: Global, integer: isize) -> Result<Self, AllocError>
        ensures value { IfOk result (λ v. v ≡ integer_decimal integer) }
        ensures succeeds { size (integer_decimal integer).absolute.number ≤ INLINE_DIGITS → IsOk result }
    {
        Self::try_from_i64(alloc, integer as i64)
    }
}
