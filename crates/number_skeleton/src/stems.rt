//! The stems of skeletons: words, and those that are numbers of digits.
ghost use Rattle.std.specs.Prelude.{◌≡◌};
ghost use Rattle.number_skeleton.specs.Stems.{fraction_stem, significant_stem, exponent_sign, exponent_stem, integer_stem, stem};

use crate::choices::{Choice, ChosenNotation, ChosenPrecision, Exponent};
use crate::counts::{Counts, after, byte_at, digit_counts, run};
use crate::meaning::{Expected, Meaning};
use crate::words::{NO_DIGITS, named};
use number_format::ExponentSign;

fn fraction_stem(text: &[u8]) -> Option<Meaning>
    ensures { result ≡ fraction_stem text.now }
{
    let fraction = digit_counts(after(text, 1), b'0', b'#')?;
    if fraction.min == 0 && fraction.max.is_none() {
        return Some(Meaning {
            choice: Choice::Precision(ChosenPrecision::Unlimited),
            expected: Expected::Significant(NO_DIGITS),
        });
    }
    Some(Meaning {
        choice: Choice::Precision(ChosenPrecision::Fraction(fraction)),
        expected: Expected::Significant(fraction),
    })
}

fn significant_stem(text: &[u8]) -> Option<Meaning>
    ensures { result ≡ significant_stem text.now }
{
    let significant = digit_counts(text, b'@', b'#')?;
    Some(Meaning {
        choice: Choice::Precision(ChosenPrecision::Significant(significant)),
        expected: Expected::StripIfInteger,
    })
}

fn exponent_sign(text: &[u8]) -> Option<ExponentSign>
    ensures { result ≡ exponent_sign text.now }
{
    match (byte_at(text, 0), byte_at(text, 1)) {
        (b'+', b'!') => Some(ExponentSign::Always),
        (b'+', b'?') => Some(ExponentSign::Auto),
        _ => None,
    }
}

fn exponent_stem(text: &[u8]) -> Option<Meaning>
    ensures { result ≡ exponent_stem text.now }
{
    let is_engineering = byte_at(text, 1) == b'E';
    let signed = after(text, if is_engineering { 2 } else { 1 });
    let sign = exponent_sign(signed);
    let zeros = after(signed, if sign.is_some() { 2 } else { 0 });
    let digits = run(zeros, b'0', b'0');
    if digits == 0 || digits < zeros.len() {
        return None;
    }
    Some(Meaning {
        choice: Choice::Notation(ChosenNotation::Exponent(Exponent {
            is_engineering,
            digits,
            sign: sign.unwrap_or(ExponentSign::Auto),
        })),
        expected: Expected::Stem,
    })
}

fn integer_stem(text: &[u8]) -> Option<Meaning>
    ensures { result ≡ integer_stem text.now }
{
    if run(text, b'0', b'0') < text.len() {
        return None;
    }
    Some(Meaning {
        choice: Choice::Integer(Counts {
            min: text.len(),
            max: None,
        }),
        expected: Expected::Stem,
    })
}

/// Returns the meaning of a stem.
pub(crate) fn stem(text: &[u8]) -> Option<Meaning>
    ensures { result ≡ stem text.now }
{
    match byte_at(text, 0) {
        b'.' => fraction_stem(text),
        b'@' => significant_stem(text),
        b'E' => exponent_stem(text),
        b'0' => integer_stem(text),
        _ => named(text),
    }
}
