//! Decimals for display: numbers of up to 65,536 digits that keep their zeros as written, and runs of calls.
//!
//! A magnitude is a power of ten, from -32768 to 32767. A crate `invoice` that uses this one has the line
//! `invoice: fixed_decimal` in crates.txt:
//!
//! ```
//! use fixed_decimal::{Call, RunError, Sign, Sink, run};
//! use std::alloc::Global;
//!
//! /// Writes a number of cents as an amount that is owed: `250` as `-2.50`.
//! pub fn write_owed<W: Sink>(alloc: Global, cents: &str, sink: &mut W) -> Result<(), RunError> {
//!     let calls = [Call::MultiplyPow10(-2), Call::SetSign(Sign::Negative)];
//!     run(alloc, cents.as_bytes(), &calls, sink)
//! }
//! ```
//!
//! The same by single calls of a `Decimal`:
//!
//! ```
//! let mut amount = Decimal::try_from_str(alloc, "250")?;
//! amount.multiply_pow10(-2)?;
//! amount.set_sign(Sign::Negative);
//! amount.write_to(&mut sink)?; // -2.50
//! ```
#![tactic(auto)]

pub mod compact;
mod error;
pub mod integer;
pub mod laws;
pub mod rounding;
mod runs;
pub mod scientific;
pub mod signed_decimal;
mod split;
pub mod variations;

pub use compact::CompactDecimal;
pub use decimal_digits::digits::{DigitList, DigitStore, PackedDigits, Steps};
pub use decimal_digits::rounding::{RoundError, RoundingIncrement, UnsignedRoundingMode};
pub use decimal_digits::sink::{
    BufferedOut, Closed, Out, Sink, SinkFault, TextBuf, WriteError, Writeable, write_whole,
};
pub use decimal_unsigned::decimal::{
    ByteDecimal, DecimalStore, Digits, INLINE_DIGITS, UnsignedDecimal, UnsignedOver,
};
pub use decimal_unsigned::{ConcatenateError, IntegerError, LimitError, ParseError};
pub use integer::FixedInteger;
pub use rounding::SignedRoundingMode;
pub use runs::{Call, CallError, RunError, apply_calls, run, run_over};
pub use scientific::ScientificDecimal;
pub use signed_decimal::Decimal;
pub use variations::{Sign, SignDisplay, Signed};
