//! The error of digit options.

/// What is wrong with digit options.
#[derive(Clone, Copy, Debug, PartialEq, Eq)]
pub enum DigitOptionsError {
    /// The numbers of integer digits are out of range, or the least is above the greatest.
    IntegerDigits,
    /// The increment is none of the fifteen.
    Increment,
    /// The numbers of significant digits are out of range, or the least is above the greatest.
    SignificantDigits,
    /// The numbers of fraction digits are out of range, or the least is above the greatest.
    FractionDigits,
    /// An increment and a precision other than fraction digits; ECMA-402 throws a `TypeError` and no `RangeError`.
    IncrementPrecision,
    /// An increment, and a least number of fraction digits that is not the greatest.
    IncrementDigits,
}
