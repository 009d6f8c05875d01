//! Compact patterns.

use super::TableRange;
use plural_rules::PluralCategory;

/// Where the compact patterns of a locale and a style are.
#[derive(Clone, Copy)]
pub struct CompactRows {
    /// The index of the powers of ten in the table of exponents.
    pub exponents: u8,
    /// The patterns, as a part of the table of runs.
    pub runs: TableRange,
}

/// The compact patterns of a locale.
#[derive(Clone, Copy)]
pub struct CompactSet {
    /// Short patterns: `1.2M`.
    pub short: CompactRows,
    /// Long patterns: `1.2 million`.
    pub long: CompactRows,
    /// The patterns of currencies: `$1.2M`.
    pub currency: CompactRows,
}

/// Magnitudes that have the same patterns: those up to the run before it.
#[derive(Clone, Copy)]
pub struct CompactRun {
    /// The first magnitude.
    pub first: u8,
    /// The patterns.
    pub patterns: TableRange,
}

/// How a pattern is written.
#[derive(Clone, Copy)]
pub enum CompactForm {
    /// A sign, the prefix, the number and the suffix.
    Number,
    /// The prefix, a sign, the number and the suffix.
    SignLast,
    /// A sign and the prefix, without a number.
    Literal,
    /// As a number that is not in compact notation.
    Plain,
}

/// A prefix or a suffix, as ranges of bytes.
#[derive(Clone, Copy)]
pub struct AffixText {
    /// The text before the currency, or all of it.
    pub before: TableRange,
    /// Whether it has the currency.
    pub has_currency: bool,
    /// The text after the currency.
    pub after: TableRange,
}

/// A compact pattern.
#[derive(Clone, Copy)]
pub struct CompactPattern {
    /// The plural category that it is for, or `None`: the number 1 itself.
    pub count: Option<PluralCategory>,
    /// How it is written.
    pub form: CompactForm,
    /// The text before the number.
    pub prefix: AffixText,
    /// The text after the number.
    pub suffix: AffixText,
}

/// The text around a number in compact notation with its percent sign, as ranges of bytes.
#[derive(Clone, Copy)]
pub struct UnitPattern {
    /// The text before the number.
    pub prefix: TableRange,
    /// The text after the number.
    pub suffix: TableRange,
}

/// How percent is written in compact notation.
#[derive(Clone, Copy)]
pub struct PercentUnit {
    /// The pattern of the plural category `one`.
    pub one: UnitPattern,
    /// The pattern of the other categories.
    pub other: UnitPattern,
}
