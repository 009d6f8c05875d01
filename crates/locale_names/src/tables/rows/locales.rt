//! What a locale has, as indices of tables.

use locale_data::Name;

/// What a locale has.
#[derive(Clone, Copy)]
pub struct LocaleNames {
    /// The tag of the locale.
    pub tag: Name,
    /// The list of long patterns of units.
    pub long: u16,
    /// The list of short patterns of units.
    pub short: u16,
    /// The list of narrow patterns of units.
    pub narrow: u16,
    /// The long pattern of two units.
    pub long_joiner: u8,
    /// The short pattern of two units.
    pub short_joiner: u8,
    /// The narrow pattern of two units.
    pub narrow_joiner: u8,
    /// The list of names of currencies.
    pub names: u16,
    /// The run of the patterns of names.
    pub name_patterns: u32,
}
