//! Whether two options are the same.
ghost use Rattle.std.specs.{Prelude.{◌≡◌, ◌↔◌, true}, Option.option_map};
ghost use Rattle.locale_names.specs.Units.{index_of, indices_of};
ghost use Rattle.number_format.specs.{Resolved.counts, declared.digits.precision.Precision.TheVariants.{Multiples, MorePrecision}};
ghost use Rattle.number_skeleton.specs.{Digits.{precision_value, digits_value}, Meaning.{style_value, options_value}};

use locale_names::{Unit, UnitId};
use number_format::{
    BothDigits, CurrencyStyle, DigitOptions, FractionDigits, FractionMultiples, NumberNotation,
    NumberOptions, NumberStyle, NumberingSystem, Precision, SignificantDigits, UnitStyle,
};

fn same_second_unit(first: Option<UnitId>, second: Option<UnitId>) -> bool
    ensures { (result ≡ true) ↔ (option_map index_of first ≡ option_map index_of second) }
{
    match (first, second) {
        (None, None) => true,
        (Some(first), Some(second)) => first.index() == second.index(),
        _ => false,
    }
}

fn same_units(first: Unit, second: Unit) -> bool
    ensures { (result ≡ true) ↔ (indices_of first ≡ indices_of second) }
{
    first.unit.index() == second.unit.index() && same_second_unit(first.per, second.per)
}

fn same_unit_style(first: UnitStyle, second: UnitStyle) -> bool
    ensures { (result ≡ true) ↔ (style_value (NumberStyle.Unit first) ≡ style_value (NumberStyle.Unit second)) }
{
    same_units(first.unit, second.unit)
        && first.display == second.display
        && first.per_display == second.per_display
}

fn same_currency(first: CurrencyStyle, second: CurrencyStyle) -> bool
    ensures { (result ≡ true) ↔ (first ≡ second) }
{
    first == second
}

fn same_style(first: NumberStyle, second: NumberStyle) -> bool
    ensures { (result ≡ true) ↔ (style_value first ≡ style_value second) }
{
    match (first, second) {
        (NumberStyle::Decimal, NumberStyle::Decimal)
        | (NumberStyle::Percent, NumberStyle::Percent)
        | (NumberStyle::Permille, NumberStyle::Permille) => true,
        (NumberStyle::Currency(first), NumberStyle::Currency(second)) => {
            same_currency(first, second)
        }
        (NumberStyle::Unit(first), NumberStyle::Unit(second)) => same_unit_style(first, second),
        _ => false,
    }
}

fn same_notation(first: NumberNotation, second: NumberNotation) -> bool
    ensures { (result ≡ true) ↔ (first ≡ second) }
{
    first == second
}

fn same_fraction(first: FractionDigits, second: FractionDigits) -> bool
    ensures { (result ≡ true) ↔ (counts first.min first.max ≡ counts second.min second.max) }
{
    first.min == second.min && first.max == second.max
}

fn same_significant(first: SignificantDigits, second: SignificantDigits) -> bool
    ensures { (result ≡ true) ↔ (counts first.min first.max ≡ counts second.min second.max) }
{
    first.min == second.min && first.max == second.max
}

fn same_multiples(first: FractionMultiples, second: FractionMultiples) -> bool
    ensures { (result ≡ true) ↔ (precision_value (Multiples first) ≡ precision_value (Multiples second)) }
{
    first.digits == second.digits && first.increment.value() == second.increment.value()
}

fn same_both(first: BothDigits, second: BothDigits) -> bool
    ensures { (result ≡ true) ↔ (precision_value (MorePrecision first) ≡ precision_value (MorePrecision second)) }
{
    same_fraction(first.fraction, second.fraction)
        && same_significant(first.significant, second.significant)
        && first.minimum == second.minimum
}

fn same_precision(first: Precision, second: Precision) -> bool
    ensures { (result ≡ true) ↔ (precision_value first ≡ precision_value second) }
{
    match (first, second) {
        (Precision::Fraction(first), Precision::Fraction(second)) => same_fraction(first, second),
        (Precision::Multiples(first), Precision::Multiples(second)) => {
            same_multiples(first, second)
        }
        (Precision::Significant(first), Precision::Significant(second)) => {
            same_significant(first, second)
        }
        (Precision::MorePrecision(first), Precision::MorePrecision(second)) => {
            same_both(first, second)
        }
        (Precision::LessPrecision(first), Precision::LessPrecision(second)) => {
            same_both(first, second)
        }
        _ => false,
    }
}

fn same_digits(first: DigitOptions, second: DigitOptions) -> bool
    ensures { (result ≡ true) ↔ (digits_value first ≡ digits_value second) }
{
    first.integer.min == second.integer.min
        && first.integer.max == second.integer.max
        && same_precision(first.precision, second.precision)
        && first.mode == second.mode
        && first.trailing_zeros == second.trailing_zeros
}

fn same_digit_options(first: Option<DigitOptions>, second: Option<DigitOptions>) -> bool
    ensures { (result ≡ true) ↔ (option_map digits_value first ≡ option_map digits_value second) }
{
    match (first, second) {
        (None, None) => true,
        (Some(first), Some(second)) => same_digits(first, second),
        _ => false,
    }
}

fn same_system(first: Option<NumberingSystem>, second: Option<NumberingSystem>) -> bool
    ensures { (result ≡ true) ↔ (first ≡ second) }
{
    match (first, second) {
        (None, None) => true,
        (Some(first), Some(second)) => first.as_str() == second.as_str(),
        _ => false,
    }
}

/// Returns whether two options are the same.
pub(crate) fn same_options(first: &NumberOptions, second: &NumberOptions) -> bool
    ensures { (result ≡ true) ↔ (options_value first.now ≡ options_value second.now) }
{
    same_style(first.style, second.style)
        && first.scale == second.scale
        && same_notation(first.notation, second.notation)
        && same_digit_options(first.digits, second.digits)
        && first.sign_display == second.sign_display
        && first.grouping == second.grouping
        && first.group_sizes == second.group_sizes
        && first.decimal_separator == second.decimal_separator
        && same_system(first.numbering_system, second.numbering_system)
}
