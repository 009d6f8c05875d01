//! The text of options as a skeleton: a stem for each option that is not the default, in the words and the order of
//! ICU's normal form. Beyond ICU's, `group-auto` is written in compact notation, and stems of default precisions are
//! left out.
mod numbers;
mod precision;

use decimal_format::GroupingStrategy;
use fixed_decimal::{SignDisplay, SignedRoundingMode, UnsignedRoundingMode};
use locale_data::{CurrencyCode, CurrencySign, NumberingSystem};
use locale_names::{Unit, UnitDisplay};
use number_format::{
    CompactLength, CurrencyDisplay, DecimalSeparatorDisplay, ExponentOptions, ExponentSign,
    GroupSizes, IntegerDigits, NumberNotation, NumberOptions, NumberStyle,
};
use numbers::{push_number, push_power, push_run};
use precision::push_shown_precision;
use std::alloc::AllocError;

/// Appends `scientific/*ee/sign-always`.
fn push_exponent(
    text: &mut String,
    stem: &str,
    exponent: ExponentOptions,
) -> Result<(), AllocError> {
    text.push_str(stem)?;
    if exponent.digits != 1 {
        text.push_str("/*")?;
        push_run(text, 'e', exponent.digits as u32)?;
    }
    text.push_str(match exponent.sign {
        ExponentSign::Auto => " ",
        ExponentSign::Always => "/sign-always ",
        ExponentSign::Never => "/sign-never ",
    })
}

fn push_notation(text: &mut String, notation: NumberNotation) -> Result<(), AllocError> {
    match notation {
        NumberNotation::Standard => Ok(()),
        NumberNotation::Scientific(exponent) => push_exponent(text, "scientific", exponent),
        NumberNotation::Engineering(exponent) => push_exponent(text, "engineering", exponent),
        NumberNotation::Compact(CompactLength::Short) => text.push_str("compact-short "),
        NumberNotation::Compact(CompactLength::Long) => text.push_str("compact-long "),
    }
}

fn push_currency(text: &mut String, code: CurrencyCode) -> Result<(), AllocError> {
    text.push_str("currency/")?;
    text.push_str(code.as_str())?;
    text.push(' ')
}

/// Appends `unit/gram-per-second`, or `percent` and `permille` alone.
fn push_units(text: &mut String, unit: Unit) -> Result<(), AllocError> {
    let name = unit.unit.name();
    match unit.per {
        None if name == "percent" || name == "permille" => text.push_str(name)?,
        None => {
            text.push_str("unit/")?;
            text.push_str(name)?;
        }
        Some(second) => {
            text.push_str("unit/")?;
            text.push_str(name)?;
            text.push_str("-per-")?;
            text.push_str(second.name())?;
        }
    }
    text.push(' ')
}

fn push_unit(text: &mut String, style: NumberStyle) -> Result<(), AllocError> {
    match style {
        NumberStyle::Decimal => Ok(()),
        NumberStyle::Percent => text.push_str("percent "),
        NumberStyle::Permille => text.push_str("permille "),
        NumberStyle::Currency(currency) => push_currency(text, currency.code),
        NumberStyle::Unit(style) => push_units(text, style.unit),
    }
}

fn mode_text(mode: SignedRoundingMode) -> &'static str {
    match mode {
        SignedRoundingMode::Ceil => "rounding-mode-ceiling ",
        SignedRoundingMode::Floor => "rounding-mode-floor ",
        SignedRoundingMode::HalfCeil => "rounding-mode-half-ceiling ",
        SignedRoundingMode::HalfFloor => "rounding-mode-half-floor ",
        SignedRoundingMode::Unsigned(mode) => match mode {
            UnsignedRoundingMode::Expand => "rounding-mode-up ",
            UnsignedRoundingMode::Trunc => "rounding-mode-down ",
            UnsignedRoundingMode::HalfExpand => "rounding-mode-half-up ",
            UnsignedRoundingMode::HalfTrunc => "rounding-mode-half-down ",
            UnsignedRoundingMode::HalfEven => "",
        },
    }
}

fn grouping_text(is_compact: bool, sizes: GroupSizes, strategy: GroupingStrategy) -> &'static str {
    if matches!(sizes, GroupSizes::Thousands) {
        return "group-thousands ";
    }
    match (is_compact, strategy) {
        (true, GroupingStrategy::Min2) | (false, GroupingStrategy::Auto) => "",
        (true, GroupingStrategy::Auto) => "group-auto ",
        (false, GroupingStrategy::Min2) => "group-min2 ",
        (_, GroupingStrategy::Never) => "group-off ",
        (_, GroupingStrategy::Always) => "group-on-aligned ",
    }
}

/// Appends `integer-width/*00`, or `integer-width/##00` where there is a greatest number.
fn push_integer(text: &mut String, integer: IntegerDigits) -> Result<(), AllocError> {
    match (integer.min, integer.max) {
        (1, 32768) => return Ok(()),
        (0, 0) => return text.push_str("integer-width-trunc "),
        (_, 32768) => text.push_str("integer-width/*")?,
        (min, max) => {
            text.push_str("integer-width/")?;
            push_run(text, '#', (max - min) as u32)?;
        }
    }
    push_run(text, '0', integer.min as u32)?;
    text.push(' ')
}

fn push_system(text: &mut String, system: Option<NumberingSystem>) -> Result<(), AllocError> {
    let Some(name) = system else {
        return Ok(());
    };
    if name.as_str() == "latn" {
        return text.push_str("latin ");
    }
    text.push_str("numbering-system/")?;
    text.push_str(name.as_str())?;
    text.push(' ')
}

fn width_text(display: CurrencyDisplay) -> &'static str {
    match display {
        CurrencyDisplay::Symbol => "",
        CurrencyDisplay::Narrow => "unit-width-narrow ",
        CurrencyDisplay::Code => "unit-width-iso-code ",
        CurrencyDisplay::Hidden => "unit-width-hidden ",
        CurrencyDisplay::Name => "unit-width-full-name ",
    }
}

fn unit_width_text(display: UnitDisplay) -> &'static str {
    match display {
        UnitDisplay::Short => "",
        UnitDisplay::Narrow => "unit-width-narrow ",
        UnitDisplay::Long => "unit-width-full-name ",
    }
}

fn sign_text(sign: CurrencySign, display: SignDisplay) -> &'static str {
    match (sign, display) {
        (CurrencySign::Standard, SignDisplay::Auto) => "",
        (CurrencySign::Standard, SignDisplay::Always) => "sign-always ",
        (CurrencySign::Standard, SignDisplay::ExceptZero) => "sign-except-zero ",
        (CurrencySign::Standard, SignDisplay::Negative) => "sign-negative ",
        (CurrencySign::Accounting, SignDisplay::Auto) => "sign-accounting ",
        (CurrencySign::Accounting, SignDisplay::Always) => "sign-accounting-always ",
        (CurrencySign::Accounting, SignDisplay::ExceptZero) => "sign-accounting-except-zero ",
        (CurrencySign::Accounting, SignDisplay::Negative) => "sign-accounting-negative ",
        (_, SignDisplay::Never) => "sign-never ",
    }
}

/// Appends the stems of the width of a currency or a unit, and of the sign.
fn push_sign(
    text: &mut String,
    style: NumberStyle,
    display: SignDisplay,
) -> Result<(), AllocError> {
    match style {
        NumberStyle::Currency(currency) => {
            text.push_str(width_text(currency.display))?;
            text.push_str(sign_text(currency.sign, display))
        }
        NumberStyle::Unit(style) => {
            text.push_str(unit_width_text(style.display))?;
            text.push_str(sign_text(CurrencySign::Standard, display))
        }
        _ => text.push_str(sign_text(CurrencySign::Standard, display)),
    }
}

fn decimal_text(display: DecimalSeparatorDisplay) -> &'static str {
    match display {
        DecimalSeparatorDisplay::Auto => "",
        DecimalSeparatorDisplay::Always => "decimal-always ",
    }
}

/// Appends `scale/100` or `scale/0.01`, or where the text would be longer than 510 bytes the exponent, as
/// `scale/1e-200`.
fn push_scale(text: &mut String, scale: i16) -> Result<(), AllocError> {
    if scale == 0 {
        return Ok(());
    }
    text.push_str("scale/")?;
    if (scale.unsigned_abs() as usize) <= 500usize.saturating_sub(text.len()) {
        push_power(text, scale)?;
    } else {
        text.push_str(if scale < 0 { "1e-" } else { "1e" })?;
        push_number(text, scale.unsigned_abs())?;
    }
    text.push(' ')
}

/// Appends the skeleton of options, with a space after each stem.
pub(crate) fn push_skeleton(text: &mut String, options: &NumberOptions) -> Result<(), AllocError> {
    push_notation(text, options.notation)?;
    push_unit(text, options.style)?;
    if let Some(digits) = options.digits {
        push_shown_precision(text, options, digits)?;
        text.push_str(mode_text(digits.mode))?;
    }
    text.push_str(grouping_text(options.is_compact(), options.group_sizes, options.grouping))?;
    if let Some(digits) = options.digits {
        push_integer(text, digits.integer)?;
    }
    push_system(text, options.numbering_system)?;
    push_sign(text, options.style, options.sign_display)?;
    text.push_str(decimal_text(options.decimal_separator))?;
    push_scale(text, options.scale)
}
