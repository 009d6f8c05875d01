//! The options that no skeleton names.
ghost use Rattle.std.specs.{Prelude.◌≡◌, Option.option_map};
ghost use Rattle.number_skeleton.specs.{NoStem.{is_unnamed_notation, hides_accounting, is_unnamed_style, has_other_minimum, is_same_money, is_cash_of, has_other_cash, are_unnamed_digits, is_listed, is_unnamed_system, are_unnamed_groups, has_no_stem}, Digits.{precision_value, digits_value}, Meaning.{style_value, options_value}};

use crate::choices::Span;
use crate::digits::money_precision;
use fixed_decimal::SignDisplay;
use locale_data::{
    CurrencyCode, CurrencySign, NUMBERING_SYSTEMS, NumberingSystem, currency_digits, unpadded,
};
use number_format::{
    CurrencyUsage, DigitOptions, GroupSizes, GroupingStrategy, Minimum, NumberNotation,
    NumberOptions, NumberStyle, Precision,
};

fn is_unnamed_notation(notation: NumberNotation) -> bool
    ensures { result ≡ is_unnamed_notation notation }
{
    match notation {
        NumberNotation::Scientific(exponent) | NumberNotation::Engineering(exponent) => {
            exponent.digits == 0
        }
        _ => false,
    }
}

fn hides_accounting(sign: CurrencySign, display: SignDisplay) -> bool
    ensures { result ≡ hides_accounting sign display }
{
    match (sign, display) {
        (CurrencySign::Accounting, SignDisplay::Never) => true,
        _ => false,
    }
}

fn is_unnamed_style(is_compact: bool, display: SignDisplay, style: NumberStyle) -> bool
    ensures { result ≡ is_unnamed_style is_compact display (style_value style) }
{
    match style {
        NumberStyle::Permille => is_compact,
        NumberStyle::Currency(currency) => hides_accounting(currency.sign, display),
        _ => false,
    }
}

fn has_other_minimum(precision: Precision) -> bool
    ensures { result ≡ has_other_minimum (precision_value precision) }
{
    match precision {
        Precision::MorePrecision(both) | Precision::LessPrecision(both) => match both.minimum {
            Minimum::Both => both.significant.min != 1,
            Minimum::Chosen => false,
        },
        _ => false,
    }
}

fn is_same_money(first: Precision, second: Precision) -> bool
    ensures { result ≡ is_same_money (precision_value first) (precision_value second) }
{
    match (first, second) {
        (Precision::Fraction(first), Precision::Fraction(second)) => {
            first.min == second.min && first.max == second.max
        }
        (Precision::Multiples(first), Precision::Multiples(second)) => {
            first.digits == second.digits && first.increment.value() == second.increment.value()
        }
        _ => false,
    }
}

fn is_cash_of(code: CurrencyCode, precision: Precision) -> bool
    ensures { result ≡ is_cash_of code (precision_value precision) }
{
    let stem = Span { start: 0, end: 0 };
    match money_precision(CurrencyUsage::Cash.digits(currency_digits(code)), stem) {
        Ok(cash) => is_same_money(cash, precision),
        Err(_) => false,
    }
}

fn has_other_cash(style: NumberStyle, precision: Precision) -> bool
    ensures { result ≡ has_other_cash (style_value style) (precision_value precision) }
{
    match style {
        NumberStyle::Currency(currency) => match currency.usage {
            CurrencyUsage::Cash => !is_cash_of(currency.code, precision),
            CurrencyUsage::Standard => false,
        },
        _ => false,
    }
}

fn are_unnamed_digits(style: NumberStyle, digits: Option<DigitOptions>) -> bool
    ensures { result ≡ are_unnamed_digits (style_value style) (option_map digits_value digits) }
{
    match digits {
        None => true,
        Some(digits) => {
            has_other_minimum(digits.precision) || has_other_cash(style, digits.precision)
        }
    }
}

fn is_listed(name: &[u8]) -> bool
    ensures { result ≡ is_listed name.now }
{
    NUMBERING_SYSTEMS
        .iter()
        .any(|system| unpadded(&system.name) == name)
}

fn is_unnamed_system(system: Option<NumberingSystem>) -> bool
    ensures { result ≡ is_unnamed_system system }
{
    match system {
        None => false,
        Some(name) => !is_listed(name.as_str().as_bytes()),
    }
}

fn are_unnamed_groups(sizes: GroupSizes, strategy: GroupingStrategy) -> bool
    ensures { result ≡ are_unnamed_groups sizes strategy }
{
    match (sizes, strategy) {
        (GroupSizes::Locale, _) | (GroupSizes::Thousands, GroupingStrategy::Always) => false,
        _ => true,
    }
}

/// Returns whether one of the options has no stem.
pub(crate) fn has_no_stem(options: &NumberOptions) -> bool
    ensures { result ≡ has_no_stem (options_value options.now) }
{
    is_unnamed_notation(options.notation)
        || is_unnamed_style(options.is_compact(), options.sign_display, options.style)
        || are_unnamed_digits(options.style, options.digits)
        || are_unnamed_groups(options.group_sizes, options.grouping)
        || is_unnamed_system(options.numbering_system)
}
