//! By what a compact pattern is chosen: the magnitude, the plural category, and whether the number is 1.
ghost use Rattle.std.specs.{Prelude.{◌≡◌, pos, ◌+ℤ◌}, Int.int_min};
ghost use Rattle.decimal_digits.specs.Number.{first};
ghost use Rattle.number_format.specs.{CompactReading.is_unit, NumberText.{is_one, compact_magnitude, compact_power}};

use crate::notation::Notation;
use fixed_decimal::{Decimal, DigitStore, Sign, Signed, UnsignedOver};
use locale_data::{CompactPatterns, TableRange};
use plural_rules::{PluralCategory, PluralOperands};

/// By what the compact patterns of a number are chosen.
#[derive(Clone, Copy)]
pub(crate) struct CompactChoice {
    /// The patterns of the magnitude.
    pub(crate) patterns: CompactPatterns,
    /// The plural category of the significand.
    pub(crate) category: PluralCategory,
    /// Whether the significand is 1, without a minus sign.
    pub(crate) is_one: bool,
}

/// The choice of a number without a compact pattern.
pub(crate) const NO_CHOICE: CompactChoice = CompactChoice {
    patterns: CompactPatterns(TableRange(0, 0)),
    category: PluralCategory::Other,
    is_one: false,
};

/// Returns whether a number is 1, as `1` and `1.0` are, without its sign.
pub(crate) fn is_unit<D: DigitStore>(value: &Signed<UnsignedOver<D>>) -> bool
    ensures { result ≡ is_unit value.now.absolute }
{
    let operands = PluralOperands::of_decimal(value);
    operands.i() == Some(1) && operands.w() == 0
}

pub(crate) fn is_one(significand: &Decimal) -> bool
    ensures { result ≡ is_one significand.now }
{
    if matches!(significand.sign, Sign::Negative) {
        return false;
    }
    is_unit(significand)
}

/// Returns the magnitude of the first digit before a number was divided by a power of ten.
pub(crate) fn undivided_magnitude<D: DigitStore>(
    significand: &Signed<UnsignedOver<D>>,
    power: u8,
) -> i16
    ensures { result ≡ int_min (first significand.now.absolute.number +ℤ pos power) (pos 32767) }
{
    let first = significand.absolute.nonzero_magnitude_start();
    (first as i32 + power as i32).min(32767) as i16
}

pub(crate) fn compact_magnitude(notation: &Notation, significand: &Decimal, exponent: i32) -> i16
    ensures { result ≡ compact_magnitude notation.now significand.now exponent }
{
    let power = compact_power(exponent);
    let magnitude = undivided_magnitude(significand, power);
    if notation.exponent_at(magnitude) > power as i32 {
        power as i16
    } else {
        magnitude
    }
}

pub(crate) fn compact_power(exponent: i32) -> u8
    ensures { pos result ≡ compact_power exponent }
{
    exponent.clamp(0, 255) as u8
}
