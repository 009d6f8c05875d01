//! Lists of decimal digits, arithmetic on magnitudes, rounding, and sinks for the text of a number.
//!
//! A magnitude is a power of ten: 0 is that of the ones, -1 that of the tenths.
#![tactic(auto)]

pub mod digits;
mod error;
pub mod laws;
pub mod ops;
pub mod rounding;
pub mod sink;
pub mod uint_iterator;
