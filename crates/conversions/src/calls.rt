//! The call that a word names.
ghost use Rattle.std.specs.{Prelude.◌≡◌, Option.option_map};
ghost use Rattle.conversions.specs.{Parameters.lookup, Calls.{modes, increments, signs, displays, mode_and_increment, rounding, plain_calls, call_with, call_of, copied}};

use crate::parameters::{number, split_parameters};
use fixed_decimal::{
    Call, RoundingIncrement, Sign, SignDisplay, SignedRoundingMode, UnsignedRoundingMode,
};

fn mode(word: &str) -> Option<SignedRoundingMode>
    ensures { result ≡ lookup modes word.now }
{
    match word {
        "ceil" => Some(SignedRoundingMode::Ceil),
        "floor" => Some(SignedRoundingMode::Floor),
        "expand" => Some(SignedRoundingMode::Unsigned(UnsignedRoundingMode::Expand)),
        "trunc" => Some(SignedRoundingMode::Unsigned(UnsignedRoundingMode::Trunc)),
        "half-ceil" => Some(SignedRoundingMode::HalfCeil),
        "half-floor" => Some(SignedRoundingMode::HalfFloor),
        "half-expand" => Some(SignedRoundingMode::Unsigned(UnsignedRoundingMode::HalfExpand)),
        "half-trunc" => Some(SignedRoundingMode::Unsigned(UnsignedRoundingMode::HalfTrunc)),
        "half-even" => Some(SignedRoundingMode::Unsigned(UnsignedRoundingMode::HalfEven)),
        _ => None,
    }
}

fn increment(word: &str) -> Option<RoundingIncrement>
    ensures { result ≡ lookup increments word.now }
{
    match word {
        "1" => Some(RoundingIncrement::MultiplesOf1),
        "2" => Some(RoundingIncrement::MultiplesOf2),
        "5" => Some(RoundingIncrement::MultiplesOf5),
        "25" => Some(RoundingIncrement::MultiplesOf25),
        _ => None,
    }
}

fn sign(word: &str) -> Option<Sign>
    ensures { result ≡ lookup signs word.now }
{
    match word {
        "none" => Some(Sign::None),
        "minus" => Some(Sign::Negative),
        "plus" => Some(Sign::Positive),
        _ => None,
    }
}

fn display(word: &str) -> Option<SignDisplay>
    ensures { result ≡ lookup displays word.now }
{
    match word {
        "auto" => Some(SignDisplay::Auto),
        "never" => Some(SignDisplay::Never),
        "always" => Some(SignDisplay::Always),
        "except-zero" => Some(SignDisplay::ExceptZero),
        "negative" => Some(SignDisplay::Negative),
        _ => None,
    }
}

/// Parses `MODE:INCREMENT`.
fn mode_and_increment(text: &str) -> Option<(SignedRoundingMode, RoundingIncrement)>
    ensures { result ≡ mode_and_increment text.now }
{
    let (mode_word, increment_word) = split_parameters(text);
    Some((mode(mode_word)?, increment(increment_word?)?))
}

/// Parses `POSITION:MODE:INCREMENT`.
fn rounding(text: &str) -> Option<Call<'static>>
    ensures { option_map copied result ≡ rounding text.now }
{
    let (position, words) = split_parameters(text);
    let position = number(position)?;
    let (mode, increment) = mode_and_increment(words?)?;
    Some(Call::Round(position, mode, increment))
}

fn plain_call(name: &str) -> Option<Call<'static>>
    ensures { option_map copied result ≡ lookup plain_calls name.now }
{
    match name {
        "trim-start" => Some(Call::TrimStart),
        "trim-end" => Some(Call::TrimEnd),
        "trim-end-if-integer" => Some(Call::TrimEndIfInteger),
        _ => None,
    }
}

fn call_with(name: &str, parameter: &str) -> Option<Call<'static>>
    ensures { option_map copied result ≡ call_with name.now parameter.now }
{
    match name {
        "shift" => Some(Call::MultiplyPow10(number(parameter)?)),
        "pad-start" => Some(Call::PadStart(number(parameter)?)),
        "pad-end" => Some(Call::PadEnd(number(parameter)?)),
        "max" => Some(Call::SetMaxPosition(number(parameter)?)),
        "round" => rounding(parameter),
        "sign" => Some(Call::SetSign(sign(parameter)?)),
        "display" => Some(Call::ApplySignDisplay(display(parameter)?)),
        _ => None,
    }
}

/// Parses a word as a call.
pub fn call(word: &str) -> Option<Call<'_>>
    ensures { option_map copied result ≡ call_of word.now }
{
    let (name, parameter) = split_parameters(word);
    let Some(parameter) = parameter else {
        return plain_call(name);
    };
    if name == "concat" {
        return Some(Call::Concatenate(parameter.as_bytes()));
    }
    call_with(name, parameter)
}
