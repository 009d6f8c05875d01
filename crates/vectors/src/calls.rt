//! The words of calls.
use fixed_decimal::RoundingIncrement::{
    self, MultiplesOf1, MultiplesOf2, MultiplesOf5, MultiplesOf25,
};
use fixed_decimal::SignedRoundingMode::{self, Ceil, Floor, HalfCeil, HalfFloor, Unsigned};
use fixed_decimal::UnsignedRoundingMode::{Expand, HalfEven, HalfExpand, HalfTrunc, Trunc};
use fixed_decimal::{Call, Sign, SignDisplay};
use std::alloc::Global;
use test_support::named;

/// The modes, in the order of the results of a row by each mode.
pub const MODES: &[(&str, SignedRoundingMode)] = &[
    ("ceil", Ceil),
    ("expand", Unsigned(Expand)),
    ("floor", Floor),
    ("trunc", Unsigned(Trunc)),
    ("half-ceil", HalfCeil),
    ("half-expand", Unsigned(HalfExpand)),
    ("half-floor", HalfFloor),
    ("half-trunc", Unsigned(HalfTrunc)),
    ("half-even", Unsigned(HalfEven)),
];

const INCREMENTS: &[(&str, RoundingIncrement)] = &[
    ("1", MultiplesOf1),
    ("2", MultiplesOf2),
    ("5", MultiplesOf5),
    ("25", MultiplesOf25),
];

pub const SIGNS: &[(&str, Sign)] = &[
    ("none", Sign::None),
    ("minus", Sign::Negative),
    ("plus", Sign::Positive),
];

const DISPLAYS: &[(&str, SignDisplay)] = &[
    ("auto", SignDisplay::Auto),
    ("never", SignDisplay::Never),
    ("always", SignDisplay::Always),
    ("except-zero", SignDisplay::ExceptZero),
    ("negative", SignDisplay::Negative),
];

/// Parses a number.
fn number(word: &str) -> Option<i16> {
    word.parse().ok()
}

/// Parses a position, a mode and an increment, separated by colons.
fn rounding<'a>(words: &str) -> Option<Call<'a>> {
    let (position, words) = words.split_once(':')?;
    let (mode, increment) = words.split_once(':')?;
    Some(Call::Round(
        number(position)?,
        named(MODES, mode)?,
        named(INCREMENTS, increment)?,
    ))
}

/// Returns the call with a name and a number.
fn call_by<'a>(name: &str, number: i16) -> Option<Call<'a>> {
    match name {
        "shift" => Some(Call::MultiplyPow10(number)),
        "pad-start" => Some(Call::PadStart(number)),
        "pad-end" => Some(Call::PadEnd(number)),
        "max" => Some(Call::SetMaxPosition(number)),
        _ => None,
    }
}

/// Returns the call with a name and an argument.
fn call<'a>(name: &str, argument: &'a str) -> Option<Call<'a>> {
    match name {
        "trim-start" => Some(Call::TrimStart),
        "trim-end" => Some(Call::TrimEnd),
        "trim-end-if-integer" => Some(Call::TrimEndIfInteger),
        "round" => rounding(argument),
        "sign" => Some(Call::SetSign(named(SIGNS, argument)?)),
        "display" => Some(Call::ApplySignDisplay(named(DISPLAYS, argument)?)),
        "concat" => Some(Call::Concatenate(argument.as_bytes())),
        _ => call_by(name, number(argument)?),
    }
}

/// Parses a word as a call, and whether it is rejected, for which a `!` follows it.
pub fn step(word: &str) -> Option<(Call<'_>, bool)> {
    let word = word.trim_start();
    let (word, is_rejected) = match word.strip_suffix('!') {
        Some(word) => (word, true),
        None => (word, false),
    };
    let (name, argument) = word.split_once(':').unwrap_or((word, ""));
    Some((call(name, argument)?, is_rejected))
}

/// Parses words as calls.
pub fn calls(alloc: Global, words: &str) -> Option<Vec<Call<'_>>> {
    let mut calls = Vec::new(alloc);
    if words.is_empty() {
        return Some(calls);
    }
    for word in words.split(',') {
        calls.push(step(word)?.0).ok()?;
    }
    Some(calls)
}
