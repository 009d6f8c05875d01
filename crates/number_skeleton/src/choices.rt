//! What the stems of a skeleton choose.
ghost use Rattle.std.specs.Prelude.{◌≡◌};
ghost use Rattle.number_skeleton.specs.{Choices.{has, with}, Digits.{unsupported, is_compact}};

use crate::counts::Counts;
use crate::decimal::Decimal;
use crate::error::SkeletonError;
use decimal_format::GroupingStrategy;
use fixed_decimal::{SignDisplay, SignedRoundingMode};
use locale_data::{CurrencySign, Name};
use number_format::{
    CompactLength, CurrencyDisplay, CurrencyUsage, DecimalSeparatorDisplay, ExponentSign,
    GroupSizes, Minimum, RoundingPriority,
};

/// The bytes of a stem, from an offset up to, and without, another.
#[derive(Clone, Copy)]
pub(crate) struct Span {
    pub start: usize,
    pub end: usize,
}

impl Span {
    /// Returns the error of a stem that this library has not.
    pub(crate) fn unsupported(self) -> SkeletonError
        ensures { result ≡ unsupported self }
    {
        SkeletonError::Unsupported {
            start: self.start,
            end: self.end,
        }
    }
}

#[derive(Clone, Copy)]
pub(crate) struct Exponent {
    pub is_engineering: bool,
    pub digits: usize,
    pub sign: ExponentSign,
}

#[derive(Clone, Copy)]
pub(crate) enum ChosenNotation {
    Simple,
    Exponent(Exponent),
    Compact(CompactLength),
}

#[derive(Clone, Copy)]
pub(crate) enum ChosenUnit {
    Base,
    Percent,
    Permille,
    /// The bytes of a code, which need not be letters.
    Currency([u8; 3]),
    /// The indices of a unit and of the one after `-per-`.
    Units((u8, Option<u8>)),
    /// A unit of ICU that this library does not have.
    Other,
}

#[derive(Clone, Copy)]
pub(crate) enum ChosenPerUnit {
    /// A stem of a unit is that of the unit after `per` too.
    InUnit,
    /// The index of a unit.
    Unit(u8),
    /// A unit of ICU that this library does not have.
    Other,
}

/// Fraction and significant digits together.
#[derive(Clone, Copy)]
pub(crate) struct TwoCounts {
    pub fraction: Counts,
    pub significant: Counts,
    pub priority: RoundingPriority,
    pub minimum: Minimum,
}

#[derive(Clone, Copy)]
pub(crate) enum ChosenPrecision {
    Unlimited,
    Fraction(Counts),
    Significant(Counts),
    Both(TwoCounts),
    Currency(CurrencyUsage),
    Increment(Decimal),
}

/// What a stem or its option chooses; `None` is what ICU knows and this library does not.
#[derive(Clone, Copy)]
pub(crate) enum Choice {
    Nothing,
    Notation(ChosenNotation),
    Unit(ChosenUnit),
    /// Percent and a scale of 100.
    PercentTimes100,
    /// A unit, beside which there is none after `per`.
    UnitAlone,
    PerUnit(ChosenPerUnit),
    Usage,
    Precision(ChosenPrecision),
    StripIfInteger,
    Mode(Option<SignedRoundingMode>),
    Grouping(GroupingStrategy, GroupSizes),
    Integer(Counts),
    System(Option<Name>),
    Width(Option<CurrencyDisplay>),
    Sign(SignDisplay, CurrencySign),
    DecimalSeparator(DecimalSeparatorDisplay),
    Scale(Decimal),
}

/// The choices of a skeleton by their groups, each with its stem.
#[derive(Clone, Copy)]
pub(crate) struct Choices {
    pub notation: Option<(ChosenNotation, Span)>,
    pub unit: Option<(ChosenUnit, Span)>,
    pub per_unit: Option<(ChosenPerUnit, Span)>,
    pub usage: Option<Span>,
    pub precision: Option<(ChosenPrecision, Span)>,
    pub strips_if_integer: bool,
    pub mode: Option<(Option<SignedRoundingMode>, Span)>,
    pub grouping: Option<(GroupingStrategy, GroupSizes)>,
    pub integer: Option<(Counts, Span)>,
    pub system: Option<(Option<Name>, Span)>,
    pub width: Option<(Option<CurrencyDisplay>, Span)>,
    pub sign: Option<(SignDisplay, CurrencySign)>,
    pub decimal_separator: Option<DecimalSeparatorDisplay>,
    pub scale: Option<(Decimal, Span)>,
}

impl Choices {
    pub(crate) fn is_compact(&self) -> bool
        ensures { result ≡ is_compact self.now.notation }
    {
        match self.notation {
            Some((ChosenNotation::Compact(_), _)) => true,
            _ => false,
        }
    }

    /// Returns whether the group of a choice has one.
    pub(crate) fn has(&self, choice: Choice) -> bool
        ensures { result ≡ has self.now choice }
    {
        match choice {
            Choice::Nothing | Choice::StripIfInteger => false,
            Choice::Notation(_) => self.notation.is_some(),
            Choice::Unit(_) => self.unit.is_some(),
            Choice::PercentTimes100 => self.scale.is_some() || self.unit.is_some(),
            Choice::UnitAlone => self.unit.is_some() || self.per_unit.is_some(),
            Choice::PerUnit(_) => self.per_unit.is_some(),
            Choice::Usage => self.usage.is_some(),
            Choice::Precision(_) => self.precision.is_some(),
            Choice::Mode(_) => self.mode.is_some(),
            Choice::Grouping(_, _) => self.grouping.is_some(),
            Choice::Integer(_) => self.integer.is_some(),
            Choice::System(_) => self.system.is_some(),
            Choice::Width(_) => self.width.is_some(),
            Choice::Sign(_, _) => self.sign.is_some(),
            Choice::DecimalSeparator(_) => self.decimal_separator.is_some(),
            Choice::Scale(_) => self.scale.is_some(),
        }
    }

    /// Returns the choices with one more, or with another one of its group.
    pub(crate) fn with(self, choice: Choice, stem: Span) -> Self
        ensures { result ≡ with stem choice self }
    {
        let mut all = self;
        match choice {
            Choice::Nothing => {}
            Choice::Notation(notation) => all.notation = Some((notation, stem)),
            Choice::Unit(unit) => all.unit = Some((unit, stem)),
            Choice::PercentTimes100 => {
                all.unit = Some((ChosenUnit::Percent, stem));
                let hundred = Decimal {
                    is_negative: false,
                    digits: 1,
                    power: 2,
                    after_point: None,
                };
                all.scale = Some((hundred, stem));
            }
            Choice::UnitAlone => {
                all.unit = Some((ChosenUnit::Other, stem));
                all.per_unit = Some((ChosenPerUnit::InUnit, stem));
            }
            Choice::PerUnit(per) => all.per_unit = Some((per, stem)),
            Choice::Usage => all.usage = Some(stem),
            Choice::Precision(precision) => all.precision = Some((precision, stem)),
            Choice::StripIfInteger => all.strips_if_integer = true,
            Choice::Mode(mode) => all.mode = Some((mode, stem)),
            Choice::Grouping(strategy, sizes) => all.grouping = Some((strategy, sizes)),
            Choice::Integer(counts) => all.integer = Some((counts, stem)),
            Choice::System(system) => all.system = Some((system, stem)),
            Choice::Width(width) => all.width = Some((width, stem)),
            Choice::Sign(display, sign) => all.sign = Some((display, sign)),
            Choice::DecimalSeparator(display) => all.decimal_separator = Some(display),
            Choice::Scale(scale) => all.scale = Some((scale, stem)),
        }
        all
    }
}
