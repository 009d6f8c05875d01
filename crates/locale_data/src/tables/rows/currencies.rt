//! Currencies, and what they have in locales.

use super::{Name, TableRange};

/// A currency, and what it has in locales.
#[derive(Clone, Copy)]
pub struct Currency {
    /// Its code in lower case.
    pub code: Name,
    /// The number of fraction digits.
    pub digits: u8,
    /// The number of fraction digits in cash.
    pub cash_digits: u8,
    /// The increment in cash, in units of the last digit; 0 for 1.
    pub cash_increment: u8,
    /// The index of its symbol in root.
    pub symbol: u16,
    /// The index of its narrow symbol in root.
    pub narrow: u16,
    /// The locales that have other symbols.
    pub symbols: TableRange,
    /// The locales that have a pattern for it.
    pub overrides: TableRange,
}

/// The symbols of a currency in a locale, as indices.
#[derive(Clone, Copy)]
pub struct LocaleCurrency {
    /// The tag of the locale.
    pub tag: Name,
    /// The symbol.
    pub symbol: u16,
    /// The narrow symbol.
    pub narrow: u16,
}

/// The pattern of a currency in a locale.
#[derive(Clone, Copy)]
pub struct LocaleOverride {
    /// The tag of the locale.
    pub tag: Name,
    /// The index of the override.
    pub pattern: u8,
}

/// The text of a symbol.
#[derive(Clone, Copy)]
pub struct CurrencyText {
    /// Its bytes.
    pub bytes: TableRange,
    /// Whether a space separates it from a digit before it.
    pub space_before: bool,
    /// Whether a space separates it from a digit after it.
    pub space_after: bool,
}
