//! Which digits of a number are shown: their numbers, the precision, and the rounding.
pub(crate) mod error;
pub(crate) mod options;
pub(crate) mod precision;
pub(crate) mod ranges;
mod round;
pub(crate) mod settings;
