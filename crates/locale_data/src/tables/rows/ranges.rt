//! The texts of ranges of numbers.

use super::{Name, TableRange};

/// What is between the two numbers of a range.
#[derive(Clone, Copy, Debug, PartialEq)]
pub enum RangeSeparator {
    Hyphen,
    /// Between two spaces.
    SpacedHyphen,
    FigureDash,
    EnDash,
    /// Between two spaces.
    SpacedEnDash,
    /// Between two thin spaces.
    ThinSpacedEnDash,
    EmDash,
    Tilde,
    FullwidthTilde,
}

/// What is before a number that is not exact.
#[derive(Clone, Copy, Debug, PartialEq)]
pub enum ApproximatelySign {
    Tilde,
    TildeOperator,
    /// `≃`
    AsymptoticallyEqual,
    /// `≈`
    AlmostEqual,
    Hyphen,
    /// `約`
    Yaku,
    /// `ca.`
    Circa,
    /// `dáàṣì`
    Daasi,
    /// `dáàshì`
    Daashi,
}

/// The texts of ranges.
#[derive(Clone, Copy, Debug, PartialEq)]
pub struct RangeFormat {
    /// What is between the two numbers.
    pub separator: RangeSeparator,
    /// What is before a number, where both numbers are shown alike.
    pub approximately: ApproximatelySign,
}

/// The texts of ranges in a locale.
#[derive(Clone, Copy)]
pub struct LocaleRange {
    /// The tag of the locale.
    pub tag: Name,
    /// The texts.
    pub format: RangeFormat,
}

/// A numbering system in which locales have texts of their own.
#[derive(Clone, Copy)]
pub struct RangeSystem {
    /// The name.
    pub name: Name,
    /// The locales, as a range of `RANGES_BY_SYSTEM`.
    pub rows: TableRange,
}
