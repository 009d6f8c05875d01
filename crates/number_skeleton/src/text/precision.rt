//! The stem of a precision.
use crate::text::numbers::{push_decimal, push_run};
use locale_data::currency_digits;
use number_format::{
    BothDigits, CurrencyUsage, DigitOptions, FractionDigits, Minimum, NumberOptions, NumberStyle,
    Precision, SignificantDigits, TrailingZeros,
};
use std::alloc::AllocError;

/// Appends `.00##`, or `.00*` where the greatest number is no limit.
fn push_fraction(text: &mut String, fraction: FractionDigits) -> Result<(), AllocError> {
    match (fraction.min, fraction.max) {
        (0, 0) => text.push_str("precision-integer"),
        (0, 65535) => text.push_str("precision-unlimited"),
        (min, max) => {
            text.push('.')?;
            push_run(text, '0', min as u32)?;
            if max == 65535 {
                return text.push('*');
            }
            push_run(text, '#', (fraction.max - fraction.min) as u32)
        }
    }
}

/// Appends the stem of fraction digits before a slash, where `.*` would be none.
fn push_fraction_beside(text: &mut String, fraction: FractionDigits) -> Result<(), AllocError> {
    if fraction.min == 0 && fraction.max == 65535 {
        text.push('.')?;
        push_run(text, '#', 65535)?;
    } else {
        push_fraction(text, fraction)?;
    }
    text.push('/')
}

/// Appends `@@##`.
fn push_range(text: &mut String, significant: SignificantDigits) -> Result<(), AllocError> {
    push_run(text, '@', significant.min)?;
    push_run(text, '#', significant.max - significant.min)
}

/// Appends `@@##`, or `@@*` where the greatest number is no limit.
fn push_significant(text: &mut String, significant: SignificantDigits) -> Result<(), AllocError> {
    if significant.max == 65536 {
        push_run(text, '@', significant.min)?;
        return text.push('*');
    }
    push_range(text, significant)
}

/// Appends `.00/@@*`, `.00/@##`, or `.00/@@#` and a priority, `r` or `s`.
fn push_both(text: &mut String, both: BothDigits, is_more: bool) -> Result<(), AllocError> {
    push_fraction_beside(text, both.fraction)?;
    match (both.minimum, is_more) {
        (Minimum::Both, true) => {
            push_run(text, '@', both.significant.max)?;
            text.push('*')
        }
        (Minimum::Both, false) => push_range(text, both.significant),
        (Minimum::Chosen, _) => {
            push_range(text, both.significant)?;
            text.push(if is_more { 'r' } else { 's' })
        }
    }
}

fn push_precision(text: &mut String, precision: Precision) -> Result<(), AllocError> {
    match precision {
        Precision::Fraction(fraction) => push_fraction(text, fraction),
        Precision::Multiples(multiples) => {
            text.push_str("precision-increment/")?;
            push_decimal(text, multiples.digits, multiples.increment.value())
        }
        Precision::Significant(significant) => push_significant(text, significant),
        Precision::MorePrecision(both) => push_both(text, both, true),
        Precision::LessPrecision(both) => push_both(text, both, false),
    }
}

/// Returns whether a skeleton without a stem of a precision has this precision.
fn is_default(is_compact: bool, style: NumberStyle, precision: Precision) -> bool {
    match (is_compact, style, precision) {
        (true, _, Precision::MorePrecision(both)) => {
            let (fraction, significant) = (both.fraction, both.significant);
            matches!(both.minimum, Minimum::Chosen)
                && fraction.min == 0
                && fraction.max == 0
                && significant.min == 1
                && significant.max == 2
        }
        (false, NumberStyle::Currency(currency), Precision::Fraction(fraction)) => {
            let digits = currency_digits(currency.code).digits as u16;
            fraction.min == digits && fraction.max == digits
        }
        (false, _, Precision::Fraction(fraction)) => fraction.min == 0 && fraction.max == 6,
        _ => false,
    }
}

fn is_cash(style: NumberStyle) -> bool {
    match style {
        NumberStyle::Currency(currency) => currency.usage == CurrencyUsage::Cash,
        _ => false,
    }
}

/// Appends the stem of a precision, if it is not the default or has `/w`.
pub(crate) fn push_shown_precision(
    text: &mut String,
    options: &NumberOptions,
    digits: DigitOptions,
) -> Result<(), AllocError> {
    let strips = matches!(digits.trailing_zeros, TrailingZeros::StripIfInteger);
    if is_cash(options.style) {
        text.push_str("precision-currency-cash")?;
    } else if strips || !is_default(options.is_compact(), options.style, digits.precision) {
        push_precision(text, digits.precision)?;
    } else {
        return Ok(());
    }
    text.push_str(if strips { "/w " } else { " " })
}
