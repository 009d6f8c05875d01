//! The options of stems.
ghost use Rattle.std.specs.Prelude.{◌≡◌};
ghost use Rattle.number_skeleton.specs.Options.{last, chosen_exponent_sign, sign_option, changed_exponent, exponent_option, is_code_byte, currency_option, unit_option, is_currency, measure_option, per_option, integer_option, decimal_system, system_option, scale_option, increment_option, both, strip_option, significant_option, option};

use crate::choices::{
    Choice, ChosenNotation, ChosenPerUnit, ChosenPrecision, ChosenUnit, Exponent, TwoCounts,
};
use crate::counts::{Counts, after, byte_at, is_byte, is_wild, run};
use crate::decimal::read_decimal;
use crate::identifiers::is_identifier;
use crate::meaning::{Expected, Meaning};
use crate::units::{hundredth, measured, measured_unit, units_named};
use crate::words::{is_algorithmic, is_name, named};
use fixed_decimal::SignDisplay;
use locale_data::{CurrencySign, NUMBERING_SYSTEMS, Name};
use number_format::RoundingPriority::{self, LessPrecision, MorePrecision};
use number_format::{ExponentSign, Minimum};

fn last(choice: Choice) -> Option<Meaning>
    ensures { result ≡ last choice }
{
    Some(Meaning {
        choice,
        expected: Expected::Stem,
    })
}

fn chosen_exponent_sign(choice: Choice) -> Option<ExponentSign>
    ensures { result ≡ chosen_exponent_sign choice }
{
    match choice {
        Choice::Sign(SignDisplay::Always, CurrencySign::Standard) => Some(ExponentSign::Always),
        Choice::Sign(SignDisplay::Never, CurrencySign::Standard) => Some(ExponentSign::Never),
        Choice::Sign(_, _) => Some(ExponentSign::Auto),
        _ => None,
    }
}

fn sign_option(text: &[u8]) -> Option<ExponentSign>
    ensures { result ≡ sign_option text.now }
{
    chosen_exponent_sign(named(text)?.choice)
}

fn changed_exponent(exponent: Exponent, text: &[u8]) -> Option<Exponent>
    ensures { result ≡ changed_exponent exponent text.now }
{
    let digits = after(text, 1);
    let is_count = byte_at(text, 0) == b'*' || byte_at(text, 0) == b'+';
    if is_count && run(digits, b'e', b'e') == digits.len() {
        return Some(Exponent {
            digits: digits.len(),
            ..exponent
        });
    }
    let sign = sign_option(text)?;
    Some(Exponent { sign, ..exponent })
}

fn exponent_option(exponent: Exponent, text: &[u8]) -> Option<Meaning>
    ensures { result ≡ exponent_option exponent text.now }
{
    let exponent = changed_exponent(exponent, text)?;
    Some(Meaning {
        choice: Choice::Notation(ChosenNotation::Exponent(exponent)),
        expected: Expected::Exponent(exponent),
    })
}

fn is_code_byte(byte: u8) -> bool
    ensures { result ≡ is_code_byte byte }
{
    match byte {
        b'"' | b'%'..=b'.' | b'0'..=b'?' | b'A'..=b'Z' | b'_' | b'a'..=b'z' => true,
        _ => false,
    }
}

fn currency_option(text: &[u8]) -> Option<Meaning>
    ensures { result ≡ currency_option text.now }
{
    let (first, second, third) = (byte_at(text, 0), byte_at(text, 1), byte_at(text, 2));
    if text.len() != 3 || !is_code_byte(first) || !is_code_byte(second) || !is_code_byte(third) {
        return None;
    }
    last(Choice::Unit(ChosenUnit::Currency([first, second, third])))
}

fn unit_option(text: &[u8]) -> Option<Meaning>
    ensures { result ≡ unit_option text.now }
{
    if let Some(unit) = hundredth(text) {
        return last(Choice::Unit(unit));
    }
    match units_named(text) {
        Some(units) => last(Choice::Unit(ChosenUnit::Units(units))),
        None if is_identifier(text) => last(Choice::Unit(ChosenUnit::Other)),
        None => None,
    }
}

fn is_currency(text: &[u8]) -> bool
    ensures { result ≡ is_currency text.now }
{
    text.len() == 12 && text.starts_with(b"currency-")
}

fn measure_option(text: &[u8]) -> Option<Meaning>
    ensures { result ≡ measure_option text.now }
{
    if is_currency(text) {
        return last(Choice::Unit(ChosenUnit::Other));
    }
    match measured(text) {
        Some(unit) => last(Choice::Unit(measured_unit(unit))),
        None => None,
    }
}

fn per_option(text: &[u8]) -> Option<Meaning>
    ensures { result ≡ per_option text.now }
{
    if is_currency(text) {
        return last(Choice::PerUnit(ChosenPerUnit::Other));
    }
    match measured(text) {
        Some(unit) => last(Choice::PerUnit(ChosenPerUnit::Unit(unit.index()))),
        None => None,
    }
}

fn integer_option(text: &[u8]) -> Option<Meaning>
    ensures { result ≡ integer_option text.now }
{
    let is_least = byte_at(text, 0) == b'*' || byte_at(text, 0) == b'+';
    let more = if is_least { 1 } else { run(text, b'#', b'#') };
    let zeros = after(text, more);
    if run(zeros, b'0', b'0') < zeros.len() {
        return None;
    }
    last(Choice::Integer(Counts {
        min: zeros.len(),
        max: if is_least { None } else { Some(text.len()) },
    }))
}

fn decimal_system(text: &[u8]) -> Option<Name>
    ensures { result ≡ decimal_system text.now }
{
    match NUMBERING_SYSTEMS
        .iter()
        .find(|system| is_name(&system.name, text))
    {
        Some(system) => Some(system.name),
        None => None,
    }
}

fn system_option(text: &[u8]) -> Option<Meaning>
    ensures { result ≡ system_option text.now }
{
    let system = decimal_system(text);
    if system.is_none() && !is_algorithmic(text) {
        return None;
    }
    last(Choice::System(system))
}

fn scale_option(text: &[u8]) -> Option<Meaning>
    ensures { result ≡ scale_option text.now }
{
    last(Choice::Scale(read_decimal(text)?))
}

fn increment_option(text: &[u8]) -> Option<Meaning>
    ensures { result ≡ increment_option text.now }
{
    Some(Meaning {
        choice: Choice::Precision(ChosenPrecision::Increment(read_decimal(text)?)),
        expected: Expected::StripIfInteger,
    })
}

fn both(
    fraction: Counts,
    significant: Counts,
    priority: RoundingPriority,
    minimum: Minimum,
) -> Option<Meaning>
    ensures { result ≡ both fraction significant priority minimum }
{
    Some(Meaning {
        choice: Choice::Precision(ChosenPrecision::Both(TwoCounts {
            fraction,
            significant,
            priority,
            minimum,
        })),
        expected: Expected::StripIfInteger,
    })
}

fn strip_option(text: &[u8]) -> Option<Meaning>
    ensures { result ≡ strip_option text.now }
{
    if !is_byte(text, b'w') {
        return None;
    }
    last(Choice::StripIfInteger)
}

fn significant_option(fraction: Counts, text: &[u8]) -> Option<Meaning>
    ensures { result ≡ significant_option fraction text.now }
{
    let least = run(text, b'@', b'@');
    let rest = after(text, least);
    let greatest = least + run(rest, b'#', b'#');
    let priority = after(text, greatest);
    let significant = Counts {
        min: least,
        max: Some(greatest),
    };
    if least == 0 {
        strip_option(text)
    } else if is_wild(rest) {
        let significant = Counts {
            min: 1,
            max: Some(least),
        };
        both(fraction, significant, MorePrecision, Minimum::Both)
    } else if priority.is_empty() && least == 1 {
        both(fraction, significant, LessPrecision, Minimum::Both)
    } else if is_byte(priority, b'r') {
        both(fraction, significant, MorePrecision, Minimum::Chosen)
    } else if is_byte(priority, b's') {
        both(fraction, significant, LessPrecision, Minimum::Chosen)
    } else {
        None
    }
}

/// Returns the meaning of an option, or `None` if it is none of those that are expected.
pub(crate) fn option(expected: Expected, text: &[u8]) -> Option<Meaning>
    ensures { result ≡ option expected text.now }
{
    match expected {
        Expected::Stem => None,
        Expected::Exponent(exponent) => exponent_option(exponent, text),
        Expected::Currency => currency_option(text),
        Expected::Integer => integer_option(text),
        Expected::System => system_option(text),
        Expected::Scale => scale_option(text),
        Expected::Increment => increment_option(text),
        Expected::Unit => unit_option(text),
        Expected::MeasureUnit => measure_option(text),
        Expected::PerMeasureUnit => per_option(text),
        Expected::Usage => last(Choice::Nothing),
        Expected::Significant(fraction) => significant_option(fraction, text),
        Expected::StripIfInteger => strip_option(text),
    }
}
