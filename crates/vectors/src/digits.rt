//! The digits of values, and their conversion to integers.
use crate::edited::has_sign;
use crate::integers::are_made;
use fixed_decimal::{DigitStore, IntegerError, Signed, UnsignedOver};
use std::alloc::Global;
use std::str::FromStr;
use test_support::all_hold;

/// Whether a number has these digits, downward from a magnitude.
fn has_each<D: DigitStore>(value: &UnsignedOver<D>, highest: i16, digits: &str) -> bool {
    let mut magnitude = highest;
    for digit in digits.as_bytes() {
        if b'0'.saturating_add(value.digit_at(magnitude)) != *digit {
            return false;
        }
        magnitude = magnitude.saturating_sub(1);
    }
    true
}

/// Whether the number of a text has these digits, downward from a magnitude, one by one and written by one call.
pub fn has_digits<D: DigitStore>(
    alloc: Global,
    text: &str,
    magnitude: &str,
    digits: &str,
) -> Option<bool> {
    let highest = magnitude.parse::<i16>().ok()?;
    if digits.len() > (i32::from(highest) + 32769) as usize {
        return None;
    }
    let value = UnsignedOver::<D>::try_from_str(alloc, text).ok()?;
    let Ok(mut places) = vec![in alloc; b'x'; digits.len()] else {
        return None;
    };
    value.write_digits(highest, places.as_mut_slice());
    Some((places.as_slice() == digits.as_bytes()) & has_each(&value, highest, digits))
}

/// Whether an integer or an error is the one that a word names.
fn is_named<T: FromStr + PartialEq + Drop>(found: Result<T, IntegerError>, word: &str) -> bool
where
    T::Err: Drop,
{
    match (found, word.parse::<T>()) {
        (Ok(found), Ok(wanted)) => found == wanted,
        (Err(IntegerError::OutOfRange), _) => word == "range",
        (Err(IntegerError::NotWhole), _) => word == "whole",
        _ => false,
    }
}

/// Words of integers: of 64 bits, without a sign and with one, and of 128.
type Words<'a> = ((&'a str, &'a str), (&'a str, &'a str));

/// Whether the number of a text converts to these unsigned integers.
fn has_unsigned<D: DigitStore>(
    alloc: Global,
    text: &str,
    (narrow, wide): Words<'_>,
) -> Option<bool> {
    if has_sign(text) {
        return Some(true);
    }
    let value = UnsignedOver::<D>::try_from_str(alloc, text).ok()?;
    Some(is_named(value.try_to_u64(), narrow.0) & is_named(value.try_to_u128(), wide.0))
}

/// Whether the decimal of a text converts to these integers.
fn has_signed<D: DigitStore>(alloc: Global, text: &str, (narrow, wide): Words<'_>) -> Option<bool> {
    let value = Signed::<UnsignedOver<D>>::try_from_str(alloc, text).ok()?;
    Some(
        is_named(value.try_to_u64(), narrow.0)
            & is_named(value.try_to_i64(), narrow.1)
            & is_named(value.try_to_u128(), wide.0)
            & is_named(value.try_to_i128(), wide.1),
    )
}

/// Splits four words.
fn split(words: &str) -> Option<Words<'_>> {
    let (first, words) = words.split_once(' ')?;
    let (second, words) = words.split_once(' ')?;
    let (third, fourth) = words.split_once(' ')?;
    Some(((first, second), (third, fourth)))
}

/// Whether the number of a text converts to the integers of words, of which the widest makes each value again.
pub fn has_integers<D: DigitStore>(alloc: Global, text: &str, words: &str) -> Option<bool> {
    let words = split(words)?;
    let (unsigned, signed) = words.1;
    let widest = if signed == "range" { unsigned } else { signed };
    all_hold(&[
        has_unsigned::<D>(alloc, text, words),
        has_signed::<D>(alloc, text, words),
        are_made::<D>(alloc, widest),
    ])
}
