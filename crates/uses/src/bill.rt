//! An amount split into parts of whole cents whose sum it is.
ghost use Rattle.std.specs.Prelude.{◌≡◌, ℕ, ◌<◌, ◌*◌, IfOk, IfErr};
ghost use Rattle.uses.specs.Bill.{cent, cents_value, IsSplit, SplitFails};

use fixed_decimal::{IntegerError, UnsignedDecimal};
use std::alloc::{AllocError, Global};

/// The error of an amount that is not split.
#[derive(Clone, Copy, Debug, PartialEq, Eq)]
pub enum BillError {
    /// There is no part to split it into.
    NoPart,
    /// The amount has a nonzero digit below the cents.
    PartOfACent,
    /// The amount is 2^64 cents or more, or shows a digit above magnitude 32765.
    TooGreat,
    /// Out of memory for a copy of the amount or for the parts.
    Memory,
}

/// Returns an amount as a number of cents.
fn total_cents(amount: &UnsignedDecimal) -> Result<u64, BillError>
    ensures ok { IfOk result (λ total. amount.now.number ≡ total * cent) }
    ensures err { IfErr result (λ e. (count : ℕ) → 0 < count → SplitFails e amount.now count) }
{
    let Ok(mut cents) = amount.clone() else {
        return Err(BillError::Memory);
    };
    let Ok(()) = cents.multiply_pow10(2) else {
        return Err(BillError::TooGreat);
    };
    match cents.try_to_u64() {
        Ok(total) => Ok(total),
        Err(IntegerError::NotWhole) => Err(BillError::PartOfACent),
        Err(IntegerError::OutOfRange) => Err(BillError::TooGreat),
    }
}

/// Returns an amount of cents, with two fraction digits.
fn cents_value(alloc: Global, cents: u64) -> Result<UnsignedDecimal, AllocError>
    ensures { IfOk result (λ v. v ≡ cents_value cents) }
{
    let mut value = UnsignedDecimal::try_from_u64(alloc, cents)?;
    // At most 20 digits are within the limits.
    value.multiply_pow10(-2).unwrap();
    Ok(value)
}

/// Splits an amount into `count` parts of whole cents whose sum it is, and which differ by at most a cent.
///
/// `100.00` in three parts is `33.34`, `33.33` and `33.33`.
///
/// # Errors
///
/// The first that applies: `NoPart`; `Memory` for a copy of the amount; `TooGreat` for a digit above magnitude 32765;
/// `PartOfACent`; `TooGreat` for 2^64 cents or more; `Memory` for the parts.
pub fn split_bill(
    alloc: Global,
    amount: &UnsignedDecimal,
    count: u32,
) -> Result<Vec<UnsignedDecimal>, BillError>
    ensures split { IfOk result (λ parts. IsSplit amount.now count parts.items) }
    ensures fails_with { IfErr result (λ e. SplitFails e amount.now count) }
{
    if count == 0 {
        return Err(BillError::NoPart);
    }
    let total = total_cents(amount)?;
    let each = total / count as u64;
    let left_over = total % count as u64;
    let mut parts = Vec::new(alloc);
    for part in 0..count as u64 {
        let cents = if part < left_over { each + 1 } else { each };
        let Ok(value) = cents_value(alloc, cents) else {
            return Err(BillError::Memory);
        };
        let Ok(()) = parts.push(value) else {
            return Err(BillError::Memory);
        };
    }
    Ok(parts)
}
