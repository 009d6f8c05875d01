//! The error of symbols, and its messages.

use std::error::Error;
use std::fmt;

/// Why symbols are rejected.
///
/// ```
/// let digits = ['0', '1', '2', '3', '4', '5', '6', '7', '8', '९']; // the last one has three bytes
/// DecimalSymbols::new(digits, ".", ",", minus, plus, sizes) // DigitWidths
/// ```
#[derive(Clone, Copy, Debug, PartialEq, Eq)]
pub enum SymbolsError {
    /// The ten digits do not have one length in UTF-8.
    DigitWidths,
    /// The decimal separator has more than 255 bytes.
    DecimalTooLong,
    /// The grouping separator has more than 255 bytes.
    GroupingTooLong,
    /// The prefix of the minus sign has more than 255 bytes.
    MinusPrefixTooLong,
    /// The suffix of the minus sign has more than 255 bytes.
    MinusSuffixTooLong,
    /// The prefix of the plus sign has more than 255 bytes.
    PlusPrefixTooLong,
    /// The suffix of the plus sign has more than 255 bytes.
    PlusSuffixTooLong,
}

impl SymbolsError {
    fn message(&self) -> &'static str {
        match self {
            SymbolsError::DigitWidths => "The digits differ in length",
            SymbolsError::DecimalTooLong => "The decimal separator has more than 255 bytes",
            SymbolsError::GroupingTooLong => "The grouping separator has more than 255 bytes",
            SymbolsError::MinusPrefixTooLong => {
                "The prefix of the minus sign has more than 255 bytes"
            }
            SymbolsError::MinusSuffixTooLong => {
                "The suffix of the minus sign has more than 255 bytes"
            }
            SymbolsError::PlusPrefixTooLong =>
                "The prefix of the plus sign has more than 255 bytes",
            SymbolsError::PlusSuffixTooLong =>
                "The suffix of the plus sign has more than 255 bytes",
        }
    }
}

impl fmt::Display for SymbolsError {
    /// Writes the message: `The digits differ in length` for `DigitWidths`. Format options are ignored.
    fn fmt<W: fmt::Write>(&self, f: &mut fmt::Formatter<W>) -> fmt::Result {
        f.write_str(self.message())
    }
}

impl Error for SymbolsError {}
