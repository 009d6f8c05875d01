//! What a stem or an option means.
ghost use Rattle.std.specs.Prelude.{◌≡◌};
ghost use Rattle.number_skeleton.specs.Reading.{is_stem, needs_option};

use crate::choices::{Choice, Exponent};
use crate::counts::Counts;

/// What may follow the bytes that have been read.
#[derive(Clone, Copy)]
pub(crate) enum Expected {
    /// A stem.
    Stem,
    /// Options of an exponent.
    Exponent(Exponent),
    /// The code of a currency.
    Currency,
    /// Numbers of integer digits.
    Integer,
    /// The name of a numbering system.
    System,
    /// A decimal by which the number is multiplied.
    Scale,
    /// An increment.
    Increment,
    /// The identifier of a unit.
    Unit,
    /// The type and the identifier of a unit.
    MeasureUnit,
    /// The same of a unit after `per`.
    PerMeasureUnit,
    /// The name of a usage.
    Usage,
    /// Significant digits beside these fraction digits, or `w`.
    Significant(Counts),
    /// `w`.
    StripIfInteger,
}

impl Expected {
    pub(crate) fn is_stem(self) -> bool
        ensures { result ≡ is_stem self }
    {
        matches!(self, Expected::Stem)
    }

    pub(crate) fn needs_option(self) -> bool
        ensures { result ≡ needs_option self }
    {
        match self {
            Expected::Currency
            | Expected::Integer
            | Expected::System
            | Expected::Scale
            | Expected::Increment
            | Expected::Unit
            | Expected::MeasureUnit
            | Expected::PerMeasureUnit
            | Expected::Usage => true,
            _ => false,
        }
    }
}

/// What a stem or an option chooses, and what may follow it.
#[derive(Clone, Copy)]
pub(crate) struct Meaning {
    pub choice: Choice,
    pub expected: Expected,
}
