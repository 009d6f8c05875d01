//! A percentage of an amount, rounded to a multiple of five cents.
ghost use Rattle.std.specs.Prelude.{◌*◌, ◌<◌, IfOk, IfErr};
ghost use Rattle.decimal_digits.specs.Number.{size};
ghost use Rattle.decimal_unsigned.specs.Unsigned.{integer_value};
ghost use Rattle.uses.specs.Cash.{IsCash};

use fixed_decimal::{INLINE_DIGITS, RoundingIncrement, UnsignedDecimal, UnsignedRoundingMode};
use std::alloc::{AllocError, Global};

/// Returns `percent` percent of a number of cents, rounded half-even to a multiple of five cents.
///
/// 1999 cents at 107 percent are `21.40`. Err: out of memory, only if the product of cents and percent has more than
/// `INLINE_DIGITS` digits from the first to the last nonzero one.
pub fn cash_amount(alloc: Global, cents: u64, percent: u32) -> Result<UnsignedDecimal, AllocError>
    ensures cash { IfOk result (λ v. IsCash (cents * percent) v) }
    ensures memory { IfErr result (λ _. INLINE_DIGITS < size (integer_value (cents * percent)).number) }
{
    let product = cents as u128 * percent as u128;
    let mut amount = UnsignedDecimal::try_from_u128(alloc, product)?;
    // At most 29 digits are within the limits, and rounding to multiples of 5 does not allocate.
    amount.multiply_pow10(-4).unwrap();
    amount
        .round_with_mode_and_increment(
            -2,
            UnsignedRoundingMode::HalfEven,
            RoundingIncrement::MultiplesOf5,
        )
        .unwrap();
    Ok(amount)
}
