//! Units, and the patterns of two of them.

use super::TextRange;

/// A unit of CLDR.
#[derive(Clone, Copy)]
pub struct UnitRow {
    /// Its identifier.
    pub name: TextRange,
    /// Its type.
    pub unit_type: TextRange,
    /// Whether ECMA-402 admits the identifier.
    pub is_sanctioned: bool,
    /// Whether the identifier has `-per-`.
    pub is_compound: bool,
}

/// Two units of which a third is made: kilometers, hours, and kilometers per hour. They are indices.
#[derive(Clone, Copy)]
pub struct Compound {
    pub numerator: u8,
    pub denominator: u8,
    pub unit: u8,
}

/// How a unit is written with another one after `per`.
#[derive(Clone, Copy)]
pub struct UnitJoiner {
    /// Whether the first unit is written before the second.
    pub numerator_first: bool,
    /// The text before both.
    pub before: TextRange,
    /// The text between them.
    pub between: TextRange,
    /// The text after both.
    pub after: TextRange,
}
