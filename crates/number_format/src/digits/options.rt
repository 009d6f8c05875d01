//! The options that decide which digits of a number are shown.
use crate::digits::precision::Precision;
use crate::digits::ranges::IntegerDigits;
use fixed_decimal::SignedRoundingMode;

/// Whether fraction digits are shown if all of them are 0; ECMA-402's `trailingZeroDisplay`.
#[derive(Clone, Copy, Debug, Default, PartialEq)]
pub enum TrailingZeros {
    /// As many as the precision shows: `2.00`.
    #[default]
    Auto,
    /// None: `2`.
    StripIfInteger,
}

/// Which digits of a number are shown. Every value is valid.
///
/// With at least 2 integer digits, 1 to 2 fraction digits and the mode `HalfExpand`, 2.345 is shown as `02.35`.
#[derive(Clone, Copy, Debug, PartialEq)]
pub struct DigitOptions {
    /// The numbers of integer digits.
    pub integer: IntegerDigits,
    /// To which digit a number is rounded.
    pub precision: Precision,
    /// The mode of the rounding.
    pub mode: SignedRoundingMode,
    /// Whether fraction digits that are all 0 are shown.
    pub trailing_zeros: TrailingZeros,
}
