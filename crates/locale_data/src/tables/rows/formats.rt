//! The formats of locales, as indices of tables.

use super::{Name, TableRange};

/// What a locale has in the numbering system `latn`, as indices of tables.
#[derive(Clone, Copy)]
pub struct LocaleFormats {
    /// The tag of the locale.
    pub tag: Name,
    /// The pattern of percent.
    pub percent: u8,
    /// The pattern of currencies.
    pub standard: u8,
    /// The pattern of currencies in accounts.
    pub accounting: u8,
    /// The exponent separator, the percent sign and the per mille sign.
    pub signs: u8,
    /// The compact patterns.
    pub compact: u8,
    /// The pattern of percent in compact notation.
    pub unit: u8,
    /// How money is written.
    pub money: u8,
}

/// What a locale has in another numbering system; the rest is that of root there, or else that of the locale in `latn`.
#[derive(Clone, Copy)]
pub struct SystemFormats {
    /// The tag of the locale.
    pub tag: Name,
    /// The pattern of percent.
    pub percent: Option<u8>,
    /// The pattern of currencies.
    pub standard: Option<u8>,
    /// The pattern of currencies in accounts.
    pub accounting: Option<u8>,
    /// The exponent separator, the percent sign and the per mille sign.
    pub signs: Option<u8>,
    /// The compact patterns.
    pub compact: Option<u8>,
}

/// A numbering system in which locales have formats of their own.
#[derive(Clone, Copy)]
pub struct FormatSystem {
    /// Its name in CLDR.
    pub name: Name,
    /// The locales.
    pub rows: TableRange,
    /// What root has.
    pub root: SystemFormats,
}
