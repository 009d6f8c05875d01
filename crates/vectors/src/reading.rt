//! The parser of each kind of value, and the parts of the values.
use crate::calls::SIGNS;
use decimal_unsigned::decimal::lowest_of;
use fixed_decimal::{
    CompactDecimal, Decimal, DigitStore, FixedInteger, LimitError, ParseError, ScientificDecimal,
    Signed, UnsignedOver,
};
use std::alloc::Global;
use std::convert::TryFrom;
use std::fmt::Display;
use test_support::{
    EightDigits, LimitedStore, Value, all_hold, displays, has_text, named, parse_outcome,
};

/// Whether a value has a text, also for `{}`.
fn is_shown<T: Value + Display>(value: &T, text: &str) -> bool {
    has_text(value, text) & displays(value, text.as_bytes())
}

/// Whether a second value equals the first and has its text.
fn is_again<T: Value + Display>(again: T, value: &T, text: &str) -> bool {
    again.equals(value) & is_shown(&again, text)
}

/// Whether a text was parsed as a value that prints a text, is copied and is parsed again, or failed with a word.
fn is_read_as<T: Value + Display>(
    alloc: Global,
    found: Result<T, ParseError>,
    text: &str,
    wanted: &str,
) -> Option<bool> {
    match found {
        Ok(value) => Some(
            is_shown(&value, wanted)
                & is_again(value.copy().ok()?, &value, wanted)
                & is_again(T::read(alloc, text).ok()?, &value, wanted),
        ),
        error => Some(parse_outcome(error)? == wanted),
    }
}

/// Whether a text and its bytes are parsed as a value that prints a text and is copied, or fail with a word.
fn reads_as<T: Value + Display>(alloc: Global, text: &str, wanted: &str) -> Option<bool> {
    all_hold(&[
        is_read_as(alloc, T::read(alloc, text), text, wanted),
        is_read_as(alloc, T::read_bytes(alloc, text), text, wanted),
    ])
}

/// The magnitudes of a value: the highest shown, the first and the last digit that is not 0, the lowest shown, and
/// `zero` for 0.
fn magnitudes<D: DigitStore>(alloc: Global, value: &UnsignedOver<D>) -> Option<String> {
    let range = value.magnitude_range();
    let (high, low) = (*range.end(), *range.start());
    let first = value.nonzero_magnitude_start();
    let last = value.nonzero_magnitude_end();
    let zero = if value.is_zero() { " zero" } else { "" };
    format!(in alloc; "{high} {first} {last} {low}{zero}").ok()
}

/// Whether the iterator over the shown digits returns those of a text, which it counts.
fn shows_digits<D: DigitStore>(value: &UnsignedOver<D>, text: &str) -> bool {
    let mut shown = value.digits();
    let count = text.len().saturating_sub(usize::from(text.contains('.')));
    if shown.size_hint() != (count, Some(count)) {
        return false;
    }
    for ascii in text.as_bytes() {
        if *ascii != b'.' && shown.next() != ascii.checked_sub(b'0') {
            return false;
        }
    }
    shown.next().is_none()
}

/// Whether the value of a text has magnitudes, and the lowest is also that of the text.
fn has_magnitudes<D: DigitStore>(
    alloc: Global,
    text: &str,
    (shown, wanted): (&str, &str),
) -> Option<bool> {
    let value = UnsignedOver::<D>::try_from_str(alloc, text).ok()?;
    Some(
        (magnitudes(alloc, &value)?.as_str() == wanted)
            & (lowest_of(text.as_bytes()) == Ok(value.lowest()))
            & shows_digits(&value, shown),
    )
}

/// Returns the name of the result of parsing a text over a store.
fn outcome_over<D: DigitStore>(alloc: Global, text: &str) -> Option<&'static str> {
    parse_outcome(UnsignedOver::<D>::try_from_str(alloc, text))
}

/// Whether the lowest magnitude of a text is found; or if it has none, whether that and a store that is out of memory
/// for more than eight digits fail with the word for the text.
fn finds_lowest<D: DigitStore>(alloc: Global, text: &str, wanted: &str) -> Option<bool> {
    let lowest = parse_outcome(lowest_of(text.as_bytes()))?;
    if wanted != "syntax" && wanted != "limit" {
        return Some(lowest == "read");
    }
    Some(
        (lowest == wanted) & (outcome_over::<LimitedStore<D, EightDigits>>(alloc, text)? == wanted),
    )
}

/// Whether an unsigned value is parsed over a store, as a row says.
pub fn reads_unsigned<D: DigitStore>(
    alloc: Global,
    text: &str,
    (wanted, facts): (&str, &str),
) -> Option<bool> {
    let has_magnitudes = if facts.is_empty() {
        Some(true)
    } else {
        has_magnitudes::<D>(alloc, text, (wanted, facts))
    };
    all_hold(&[
        reads_as::<UnsignedOver<D>>(alloc, text, wanted),
        has_magnitudes,
        finds_lowest::<D>(alloc, text, wanted),
    ])
}

/// Whether a decimal is parsed over a store, and has a sign.
pub fn reads_signed<D: DigitStore>(
    alloc: Global,
    text: &str,
    (wanted, facts): (&str, &str),
) -> Option<bool> {
    if !facts.is_empty() {
        let value = Signed::<UnsignedOver<D>>::try_from_str(alloc, text).ok()?;
        if value.sign() != named(SIGNS, facts)? {
            return Some(false);
        }
    }
    reads_as::<Signed<UnsignedOver<D>>>(alloc, text, wanted)
}

/// Whether the decimal of a text becomes an integer that prints a text and becomes a decimal again, or fails with a
/// word.
fn becomes_integer(alloc: Global, text: &str, wanted: &str) -> Option<bool> {
    let decimal = match Decimal::try_from_str(alloc, text) {
        Ok(decimal) => decimal,
        error => return Some(parse_outcome(error)? == wanted),
    };
    match FixedInteger::try_from(decimal) {
        Ok(integer) => {
            Some(has_text(&integer, wanted) & has_text(&Decimal::from(integer), wanted))
        }
        Err(LimitError) => Some(wanted == "limit"),
    }
}

/// Whether a compact value has the parts of its text, if there are any, and is made of them.
fn has_compact_parts(alloc: Global, text: &str, parts: &str) -> Option<bool> {
    if parts.is_empty() {
        return Some(true);
    }
    let (significand, exponent) = parts.split_once(' ')?;
    let exponent = exponent.parse().ok()?;
    let decimal = Decimal::try_from_str(alloc, significand).ok()?;
    let is_made = has_text(
        &CompactDecimal::from_significand_and_exponent(decimal, exponent),
        text,
    );
    let value = CompactDecimal::try_from_str(alloc, text).ok()?;
    Some(
        is_made
            & (value.exponent() == exponent)
            & has_text(value.significand(), significand)
            & has_text(&value.into_significand(), significand),
    )
}

/// Whether a scientific value is made of the parts of its text.
fn is_made_of_parts(
    alloc: Global,
    text: &str,
    (significand, exponent): (&str, &str),
) -> Option<bool> {
    let decimal = Decimal::try_from_str(alloc, significand).ok()?;
    let integer = FixedInteger::try_from_str(alloc, exponent).ok()?;
    Some(has_text(&ScientificDecimal::from(decimal, integer), text))
}

/// Whether a scientific value has the parts of its text, if there are any, and is made of them.
fn has_scientific_parts(alloc: Global, text: &str, parts: &str) -> Option<bool> {
    if parts.is_empty() {
        return Some(true);
    }
    let (significand, exponent) = parts.split_once(' ')?;
    let is_made = is_made_of_parts(alloc, text, (significand, exponent))?;
    let value = ScientificDecimal::try_from_str(alloc, text).ok()?;
    let has_parts = has_text(value.significand(), significand)
        & has_text(value.exponent(), exponent);
    let (first, second) = value.into_parts();
    Some(is_made & has_parts & has_text(&first, significand) & has_text(&second, exponent))
}

/// Whether a text is parsed as an integer that prints a text, or fails with a word; and so is its decimal.
pub fn reads_integer(alloc: Global, text: &str, wanted: &str) -> Option<bool> {
    all_hold(&[
        reads_as::<FixedInteger>(alloc, text, wanted),
        becomes_integer(alloc, text, wanted),
    ])
}

/// Whether a text is parsed as a scientific value that prints a text, or fails with a word, and has parts.
pub fn reads_scientific(alloc: Global, text: &str, (wanted, parts): (&str, &str)) -> Option<bool> {
    all_hold(&[
        reads_as::<ScientificDecimal>(alloc, text, wanted),
        has_scientific_parts(alloc, wanted, parts),
    ])
}

/// Whether a text is parsed as a compact value that prints a text, or fails with a word, and has parts.
pub fn reads_compact(alloc: Global, text: &str, (wanted, parts): (&str, &str)) -> Option<bool> {
    all_hold(&[
        reads_as::<CompactDecimal>(alloc, text, wanted),
        has_compact_parts(alloc, wanted, parts),
    ])
}
