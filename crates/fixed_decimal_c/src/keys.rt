//! Numbers of decimals as integers, which are compared without their texts.
ghost use Rattle.std.specs.{Prelude.{◌≡◌, IfOk, IfErr, Ok, Err}, Ordering.int_cmp};
ghost use Rattle.fixed_decimal.specs.Decimal.{Decimal, signed_number};
ghost use Rattle.fixed_decimal_c.specs.Keys.{key_units, HasUnits, units_result, HasKey, ComparesKeys, fd_keyed};

use crate::error::FdError;
use crate::numbers::{error_of_integer, order_number, read};
use fixed_decimal::{Decimal, IntegerError};
use std::alloc::Global;
use std::cmp::Ordering;

/// The number of a decimal in units of 10^-18: `high` * 2^64 + `low`.
#[repr(C)]
#[derive(Clone, Copy)]
pub struct FdKey {
    /// The high half.
    pub high: i64,
    /// The low half.
    pub low: u64,
}

/// The result of a function that returns a key.
#[repr(C)]
#[derive(Clone, Copy)]
pub struct FdKeyed {
    /// 0, or the number of the error.
    pub status: u32,
    /// Where the error is.
    pub at: usize,
    /// The key, or that of 0 with an error.
    pub key: FdKey,
}

/// Returns the key of a number of units.
fn key_of_units(units: i128) -> FdKey
    ensures { key_units result ≡ units }
{
    let high = units >> 64;
    FdKey {
        high: high as i64,
        low: (units - high * (1 << 64)) as u64,
    }
}

/// Returns the number of units of a key.
fn units_of(key: &FdKey) -> i128
    ensures { result ≡ key_units key.now }
{
    (key.high as i128) * (1 << 64) + key.low as i128
}

fn key_of_decimal(value: Decimal) -> Result<FdKey, IntegerError>
    ensures ok { IfOk result (λ key. HasUnits value (key_units key)) }
    ensures err { IfErr result (λ error. units_result value ≡ Err error) }
{
    let mut value = value;
    if value.multiply_pow10(18).is_err() {
        return Err(IntegerError::OutOfRange);
    }
    Ok(key_of_units(value.try_to_i128()?))
}

/// Returns the key of the number of a text.
pub(crate) fn key_of(alloc: Global, text: &[u8]) -> Result<FdKey, FdError>
    ensures { HasKey result text.now }
{
    let value = read(alloc, text, 0)?;
    match key_of_decimal(value) {
        Ok(key) => Ok(key),
        Err(error) => Err(error_of_integer(error)),
    }
}

fn order_of_keys(left: &FdKey, right: &FdKey) -> Ordering
    ensures units { result ≡ int_cmp (key_units left.now) (key_units right.now) }
    ensures order { (v w : Decimal) → HasUnits v (key_units left.now) → HasUnits w (key_units right.now)
        → result ≡ int_cmp (signed_number v) (signed_number w) }
{
    units_of(left).cmp(&units_of(right))
}

/// Compares the numbers of two keys.
pub(crate) fn compare_keys(left: &FdKey, right: &FdKey) -> i64
    ensures { ComparesKeys (Ok result) left.now right.now }
{
    order_number(order_of_keys(left, right))
}

pub(crate) fn encode_key(answer: Result<FdKey, FdError>) -> FdKeyed
    ensures { result ≡ fd_keyed answer }
{
    match answer {
        Ok(key) => FdKeyed {
            status: 0,
            at: 0,
            key,
        },
        Err(error) => FdKeyed {
            status: error.status(),
            at: error.place(),
            key: FdKey { high: 0, low: 0 },
        },
    }
}
