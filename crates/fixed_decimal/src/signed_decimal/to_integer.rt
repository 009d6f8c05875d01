//! Conversion of decimals to machine integers.
ghost use Rattle.std.specs.Prelude.{◌≡◌, ◌^◌, ◌<◌, ◌≤◌, pos, neg_ℤ};
ghost use Rattle.decimal_unsigned.specs.Unsigned.{IsValue};
ghost use Rattle.fixed_decimal.specs.ToInteger.{signed_in_range, as_unsigned, as_signed};

use crate::variations::{Sign, Signed};
use decimal_digits::digits::DigitStore;
use decimal_unsigned::IntegerError;
use decimal_unsigned::decimal::UnsignedOver;

fn positive(absolute: u128, bound: u128) -> Result<i128, IntegerError>
    requires { bound ≤ 2 ^ 127 }
    ensures { result ≡ signed_in_range bound (pos absolute) }
{
    if absolute >= bound {
        return Err(IntegerError::OutOfRange);
    }
    Ok(absolute as i128)
}

fn negative(absolute: u128, bound: u128) -> Result<i128, IntegerError>
    requires positive { 0 < bound }
    requires in_range { bound ≤ 2 ^ 127 }
    ensures { result ≡ signed_in_range bound (neg_ℤ (pos absolute)) }
{
    if absolute == 0 {
        return Ok(0);
    }
    if absolute > bound {
        return Err(IntegerError::OutOfRange);
    }
    Ok(-1 - (absolute - 1) as i128)
}

impl<D: DigitStore> Signed<UnsignedOver<D>> {
    /// Converts the number to a `u64`, whatever zeros it shows: `+12.00` is 12, and `-0` is 0.
    ///
    /// It does not allocate.
    ///
    /// # Errors
    ///
    /// The first that applies:
    ///
    /// - `NotWhole`: a fraction digit is not 0, as in `-1.5`.
    /// - `OutOfRange`: the number is below 0, or 2^64 or more.
    pub fn try_to_u64(&self) -> Result<u64, IntegerError>
        ensures value { result ≡ as_unsigned (2 ^ 64) self.now }
        ensures valid { IsValue self.now.absolute }
    {
        let integer = self.absolute.try_to_u64()?;
        match self.sign {
            Sign::Negative if integer != 0 => Err(IntegerError::OutOfRange),
            _ => Ok(integer),
        }
    }

    /// Converts the number to a `u128`, as [`try_to_u64`](Self::try_to_u64).
    ///
    /// # Errors
    ///
    /// - `NotWhole`: as there.
    /// - `OutOfRange`: the number is below 0, or 2^128 or more.
    pub fn try_to_u128(&self) -> Result<u128, IntegerError>
        ensures value { result ≡ as_unsigned (2 ^ 128) self.now }
        ensures valid { IsValue self.now.absolute }
    {
        let integer = self.absolute.try_to_u128()?;
        match self.sign {
            Sign::Negative if integer != 0 => Err(IntegerError::OutOfRange),
            _ => Ok(integer),
        }
    }

    /// Converts the number to an `i64`, as [`try_to_u64`](Self::try_to_u64): `-12.00` is -12, and `-0` is 0.
    ///
    /// # Errors
    ///
    /// - `NotWhole`: as there.
    /// - `OutOfRange`: the number is below -2^63, or 2^63 or more.
    pub fn try_to_i64(&self) -> Result<i64, IntegerError>
        ensures value { result ≡ as_signed (2 ^ 63) self.now }
        ensures valid { IsValue self.now.absolute }
    {
        let absolute = self.absolute.try_to_u128()?;
        let integer = match self.sign {
            Sign::Negative => negative(absolute, 1 << 63)?,
            Sign::None | Sign::Positive => positive(absolute, 1 << 63)?,
        };
        Ok(integer as i64)
    }

    /// Converts the number to an `i128`, as [`try_to_i64`](Self::try_to_i64).
    ///
    /// # Errors
    ///
    /// - `NotWhole`: as there.
    /// - `OutOfRange`: the number is below -2^127, or 2^127 or more.
    pub fn try_to_i128(&self) -> Result<i128, IntegerError>
        ensures value { result ≡ as_signed (2 ^ 127) self.now }
        ensures valid { IsValue self.now.absolute }
    {
        let absolute = self.absolute.try_to_u128()?;
        match self.sign {
            Sign::Negative => negative(absolute, 1 << 127),
            Sign::None | Sign::Positive => positive(absolute, 1 << 127),
        }
    }
}
