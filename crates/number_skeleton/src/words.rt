//! The words of skeletons: stems, and the names of numbering systems.
ghost use Rattle.std.specs.Prelude.{◌≡◌};
ghost use Rattle.number_skeleton.specs.Words.{is_name, named, is_algorithmic};

use crate::choices::{
    Choice, ChosenNotation, ChosenPerUnit, ChosenPrecision, ChosenUnit, Exponent,
};
use crate::counts::{Counts, byte_at};
use crate::decimal::Decimal;
use crate::meaning::{Expected, Meaning};
use decimal_format::GroupingStrategy;
use fixed_decimal::{SignDisplay, SignedRoundingMode, UnsignedRoundingMode};
use locale_data::{CurrencySign, Name};
use number_format::CurrencyUsage::{Cash, Standard};
use number_format::{
    CompactLength, CurrencyDisplay, DecimalSeparatorDisplay, ExponentSign, GroupSizes,
};

/// A stem that is a word, and what it means.
#[derive(Clone, Copy)]
pub(crate) struct StemWord {
    /// The word, padded with spaces.
    pub text: [u8; 28],
    pub choice: Choice,
    pub expected: Expected,
}

const ONE_DIGIT: Exponent = Exponent {
    is_engineering: false,
    digits: 1,
    sign: ExponentSign::Auto,
};

const ONE_ENGINEERING_DIGIT: Exponent = Exponent {
    is_engineering: true,
    digits: 1,
    sign: ExponentSign::Auto,
};

pub(crate) const NO_DIGITS: Counts = Counts {
    min: 0,
    max: Some(0),
};

const ONE: Decimal = Decimal {
    is_negative: false,
    digits: 1,
    power: 0,
    after_point: None,
};

macro_rules! stems {
    ($($text:literal $choice:expr, $expected:expr;)*) => {
        [$(StemWord { text: *$text, choice: $choice, expected: $expected }),*]
    };
}

/// The stems that are words.
#[rattlefmt::skip]
static STEMS: [StemWord; 72] = stems! {
    b"notation-simple             " Choice::Notation(ChosenNotation::Simple), Expected::Stem;
    b"compact-short               " Choice::Notation(ChosenNotation::Compact(CompactLength::Short)), Expected::Stem;
    b"K                           " Choice::Notation(ChosenNotation::Compact(CompactLength::Short)), Expected::Stem;
    b"compact-long                " Choice::Notation(ChosenNotation::Compact(CompactLength::Long)), Expected::Stem;
    b"KK                          " Choice::Notation(ChosenNotation::Compact(CompactLength::Long)), Expected::Stem;
    b"scientific                  "
        Choice::Notation(ChosenNotation::Exponent(ONE_DIGIT)), Expected::Exponent(ONE_DIGIT);
    b"engineering                 "
        Choice::Notation(ChosenNotation::Exponent(ONE_ENGINEERING_DIGIT)), Expected::Exponent(ONE_ENGINEERING_DIGIT);
    b"base-unit                   " Choice::Unit(ChosenUnit::Base), Expected::Stem;
    b"percent                     " Choice::Unit(ChosenUnit::Percent), Expected::Stem;
    b"%                           " Choice::Unit(ChosenUnit::Percent), Expected::Stem;
    b"permille                    " Choice::Unit(ChosenUnit::Permille), Expected::Stem;
    b"%x100                       " Choice::PercentTimes100, Expected::Stem;
    b"currency                    " Choice::UnitAlone, Expected::Currency;
    b"measure-unit                " Choice::Unit(ChosenUnit::Other), Expected::MeasureUnit;
    b"per-measure-unit            " Choice::PerUnit(ChosenPerUnit::Other), Expected::PerMeasureUnit;
    b"unit                        " Choice::UnitAlone, Expected::Unit;
    b"usage                       " Choice::Usage, Expected::Usage;
    b"precision-integer           "
        Choice::Precision(ChosenPrecision::Fraction(NO_DIGITS)), Expected::Significant(NO_DIGITS);
    b"precision-unlimited         " Choice::Precision(ChosenPrecision::Unlimited), Expected::StripIfInteger;
    b"precision-currency-standard " Choice::Precision(ChosenPrecision::Currency(Standard)), Expected::StripIfInteger;
    b"precision-currency-cash     " Choice::Precision(ChosenPrecision::Currency(Cash)), Expected::StripIfInteger;
    b"precision-increment         " Choice::Precision(ChosenPrecision::Unlimited), Expected::Increment;
    b"rounding-mode-ceiling       " Choice::Mode(Some(SignedRoundingMode::Ceil)), Expected::Stem;
    b"rounding-mode-floor         " Choice::Mode(Some(SignedRoundingMode::Floor)), Expected::Stem;
    b"rounding-mode-down          "
        Choice::Mode(Some(SignedRoundingMode::Unsigned(UnsignedRoundingMode::Trunc))), Expected::Stem;
    b"rounding-mode-up            "
        Choice::Mode(Some(SignedRoundingMode::Unsigned(UnsignedRoundingMode::Expand))), Expected::Stem;
    b"rounding-mode-half-even     "
        Choice::Mode(Some(SignedRoundingMode::Unsigned(UnsignedRoundingMode::HalfEven))), Expected::Stem;
    b"rounding-mode-half-odd      " Choice::Mode(None), Expected::Stem;
    b"rounding-mode-half-ceiling  " Choice::Mode(Some(SignedRoundingMode::HalfCeil)), Expected::Stem;
    b"rounding-mode-half-floor    " Choice::Mode(Some(SignedRoundingMode::HalfFloor)), Expected::Stem;
    b"rounding-mode-half-down     "
        Choice::Mode(Some(SignedRoundingMode::Unsigned(UnsignedRoundingMode::HalfTrunc))), Expected::Stem;
    b"rounding-mode-half-up       "
        Choice::Mode(Some(SignedRoundingMode::Unsigned(UnsignedRoundingMode::HalfExpand))), Expected::Stem;
    b"rounding-mode-unnecessary   " Choice::Mode(None), Expected::Stem;
    b"group-off                   " Choice::Grouping(GroupingStrategy::Never, GroupSizes::Locale), Expected::Stem;
    b",_                          " Choice::Grouping(GroupingStrategy::Never, GroupSizes::Locale), Expected::Stem;
    b"group-min2                  " Choice::Grouping(GroupingStrategy::Min2, GroupSizes::Locale), Expected::Stem;
    b",?                          " Choice::Grouping(GroupingStrategy::Min2, GroupSizes::Locale), Expected::Stem;
    b"group-auto                  " Choice::Grouping(GroupingStrategy::Auto, GroupSizes::Locale), Expected::Stem;
    b"group-on-aligned            " Choice::Grouping(GroupingStrategy::Always, GroupSizes::Locale), Expected::Stem;
    b",!                          " Choice::Grouping(GroupingStrategy::Always, GroupSizes::Locale), Expected::Stem;
    b"group-thousands             "
        Choice::Grouping(GroupingStrategy::Always, GroupSizes::Thousands), Expected::Stem;
    b"integer-width               " Choice::Integer(NO_DIGITS), Expected::Integer;
    b"integer-width-trunc         " Choice::Integer(NO_DIGITS), Expected::Stem;
    b"latin                       " Choice::System(Some(*b"latn            ")), Expected::Stem;
    b"numbering-system            " Choice::System(None), Expected::System;
    b"unit-width-short            " Choice::Width(Some(CurrencyDisplay::Symbol)), Expected::Stem;
    b"unit-width-narrow           " Choice::Width(Some(CurrencyDisplay::Narrow)), Expected::Stem;
    b"unit-width-iso-code         " Choice::Width(Some(CurrencyDisplay::Code)), Expected::Stem;
    b"unit-width-hidden           " Choice::Width(Some(CurrencyDisplay::Hidden)), Expected::Stem;
    b"unit-width-full-name        " Choice::Width(Some(CurrencyDisplay::Name)), Expected::Stem;
    b"unit-width-formal           " Choice::Width(None), Expected::Stem;
    b"unit-width-variant          " Choice::Width(None), Expected::Stem;
    b"sign-auto                   " Choice::Sign(SignDisplay::Auto, CurrencySign::Standard), Expected::Stem;
    b"sign-always                 " Choice::Sign(SignDisplay::Always, CurrencySign::Standard), Expected::Stem;
    b"+!                          " Choice::Sign(SignDisplay::Always, CurrencySign::Standard), Expected::Stem;
    b"sign-never                  " Choice::Sign(SignDisplay::Never, CurrencySign::Standard), Expected::Stem;
    b"+_                          " Choice::Sign(SignDisplay::Never, CurrencySign::Standard), Expected::Stem;
    b"sign-except-zero            " Choice::Sign(SignDisplay::ExceptZero, CurrencySign::Standard), Expected::Stem;
    b"+?                          " Choice::Sign(SignDisplay::ExceptZero, CurrencySign::Standard), Expected::Stem;
    b"sign-negative               " Choice::Sign(SignDisplay::Negative, CurrencySign::Standard), Expected::Stem;
    b"+-                          " Choice::Sign(SignDisplay::Negative, CurrencySign::Standard), Expected::Stem;
    b"sign-accounting             " Choice::Sign(SignDisplay::Auto, CurrencySign::Accounting), Expected::Stem;
    b"()                          " Choice::Sign(SignDisplay::Auto, CurrencySign::Accounting), Expected::Stem;
    b"sign-accounting-always      " Choice::Sign(SignDisplay::Always, CurrencySign::Accounting), Expected::Stem;
    b"()!                         " Choice::Sign(SignDisplay::Always, CurrencySign::Accounting), Expected::Stem;
    b"sign-accounting-except-zero " Choice::Sign(SignDisplay::ExceptZero, CurrencySign::Accounting), Expected::Stem;
    b"()?                         " Choice::Sign(SignDisplay::ExceptZero, CurrencySign::Accounting), Expected::Stem;
    b"sign-accounting-negative    " Choice::Sign(SignDisplay::Negative, CurrencySign::Accounting), Expected::Stem;
    b"()-                         " Choice::Sign(SignDisplay::Negative, CurrencySign::Accounting), Expected::Stem;
    b"decimal-auto                " Choice::DecimalSeparator(DecimalSeparatorDisplay::Auto), Expected::Stem;
    b"decimal-always              " Choice::DecimalSeparator(DecimalSeparatorDisplay::Always), Expected::Stem;
    b"scale                       " Choice::Scale(ONE), Expected::Scale;
};

/// Returns whether a name that is padded with spaces is a text.
pub(crate) fn is_name(padded: &[u8], text: &[u8]) -> bool
    ensures { result ≡ is_name padded.now text.now }
{
    padded.starts_with(text) && byte_at(padded, text.len()) == b' '
}

/// Returns the meaning of a stem that is a word.
pub(crate) fn named(text: &[u8]) -> Option<Meaning>
    ensures { result ≡ named text.now }
{
    match STEMS.iter().find(|stem| is_name(&stem.text, text)) {
        None => None,
        Some(stem) => Some(Meaning {
            choice: stem.choice,
            expected: stem.expected,
        }),
    }
}

/// The numbering systems of CLDR whose numbers are not digits from 0 to 9.
#[rattlefmt::skip]
static ALGORITHMIC: [Name; 19] = [
    *b"armn            ", *b"armnlow         ", *b"cyrl            ", *b"ethi            ",
    *b"geor            ", *b"grek            ", *b"greklow         ", *b"hanidays        ",
    *b"hans            ", *b"hansfin         ", *b"hant            ", *b"hantfin         ",
    *b"hebr            ", *b"jpan            ", *b"jpanfin         ", *b"jpanyear        ",
    *b"roman           ", *b"romanlow        ", *b"taml            ",
];

/// Returns whether a text is the name of a numbering system without digits.
pub(crate) fn is_algorithmic(text: &[u8]) -> bool
    ensures { result ≡ is_algorithmic text.now }
{
    ALGORITHMIC.iter().any(|name| is_name(name, text))
}
