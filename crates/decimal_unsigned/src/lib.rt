//! The unsigned decimal: a number of up to 65,536 digits and the range of magnitudes that it shows.
//!
//! A magnitude is a power of ten, from -32768 to 32767.
#![tactic(auto)]

pub mod decimal;
mod error;
pub mod laws;

pub use error::{ConcatenateError, IntegerError, LimitError, ParseError};
