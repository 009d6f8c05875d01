//! What one learns of a decimal as a number.
ghost use Rattle.std.specs.Prelude.{◌≡◌, Ok, IfOk, IfErr, ◌↔◌, IsTrue};
ghost use Rattle.fixed_decimal.specs.DecimalText.{read_decimal};
ghost use Rattle.fixed_decimal_c.specs.Numbers.{error_of_integer, ParsingFails, order_code, sign_number, Compares, Equates, HasSign, HasI64, HasU64};

use crate::error::{FdError, error_of_parsing};
use fixed_decimal::{Decimal, IntegerError, Sign};
use std::alloc::Global;
use std::cmp::Ordering;

/// Reads the text with this number.
pub(crate) fn read(alloc: Global, text: &[u8], at: usize) -> Result<Decimal, FdError>
    ensures found { IfOk result (λ v. read_decimal text.now ≡ Ok v) }
    ensures fails { IfErr result (λ error. ParsingFails error text.now at) }
{
    match Decimal::try_from_utf8(alloc, text) {
        Ok(value) => Ok(value),
        Err(error) => Err(error_of_parsing(error, at)),
    }
}

/// Returns the number of an order.
pub(crate) fn order_number(order: Ordering) -> i64
    ensures { result ≡ order_code order }
{
    match order {
        Ordering::Less => -1,
        Ordering::Equal => 0,
        Ordering::Greater => 1,
    }
}

/// Compares the numbers of two decimals.
pub(crate) fn compare_texts(alloc: Global, left: &[u8], right: &[u8]) -> Result<i64, FdError>
    ensures { Compares result left.now right.now }
{
    let left = read(alloc, left, 0)?;
    let right = read(alloc, right, 1)?;
    Ok(order_number(left.compare(&right)))
}

/// Returns whether two decimals are the same value.
pub(crate) fn equal_texts(alloc: Global, left: &[u8], right: &[u8]) -> Result<i64, FdError>
    ensures { Equates result left.now right.now }
{
    let left = read(alloc, left, 0)?;
    let right = read(alloc, right, 1)?;
    Ok(if left.has_same_text(&right) { 1 } else { 0 })
}

/// Returns the number of the sign of a decimal.
pub(crate) fn sign_of(alloc: Global, text: &[u8]) -> Result<i64, FdError>
    ensures { HasSign result text.now }
{
    let value = read(alloc, text, 0)?;
    Ok(match value.sign() {
        Sign::Negative => -1,
        Sign::None => 0,
        Sign::Positive => 1,
    })
}

/// Returns the error of a conversion to an integer.
pub(crate) fn error_of_integer(error: IntegerError) -> FdError
    ensures { result ≡ error_of_integer error }
{
    match error {
        IntegerError::NotWhole => FdError::NotWhole,
        IntegerError::OutOfRange => FdError::OutOfRange,
    }
}

/// Converts a decimal to a signed integer.
pub(crate) fn to_i64(alloc: Global, text: &[u8]) -> Result<i64, FdError>
    ensures { HasI64 result text.now }
{
    let value = read(alloc, text, 0)?;
    match value.try_to_i64() {
        Ok(integer) => Ok(integer),
        Err(error) => Err(error_of_integer(error)),
    }
}

/// Converts a decimal to an unsigned integer.
pub(crate) fn to_u64(alloc: Global, text: &[u8]) -> Result<u64, FdError>
    ensures { HasU64 result text.now }
{
    let value = read(alloc, text, 0)?;
    match value.try_to_u64() {
        Ok(integer) => Ok(integer),
        Err(error) => Err(error_of_integer(error)),
    }
}
