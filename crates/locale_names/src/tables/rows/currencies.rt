//! Currencies, and the patterns of their names.

use super::TextRange;
use locale_data::Name;
use plural_rules::PluralCategory;

/// A currency.
#[derive(Clone, Copy)]
pub struct CurrencyRow {
    /// Its code in lower case.
    pub code: Name,
}

/// How a number and the name of a currency are written.
#[derive(Clone, Copy)]
pub struct NamePattern {
    /// The plural category of the number.
    pub category: PluralCategory,
    /// Whether the number is written before the name.
    pub number_first: bool,
    /// The text between them.
    pub between: TextRange,
}
