//! The identifiers of units that ICU reads, of which this library has only some.
ghost use Rattle.std.specs.{Prelude.◌≡◌, Option.option_map};
ghost use Rattle.number_skeleton.specs.Identifiers.{longer, longest_word, power_length, prefix_length, other_length, unit_length, is_prefixed, after_unit, after_factor, joiner_length, are_units, is_mixed, units_start, is_identifier};

use crate::counts::{after, byte_at};
use crate::units::{PERSON_UNITS, name_at};
use locale_data::{Name, unpadded};
use locale_names::UnitId;

/// The powers of units.
#[rattlefmt::skip]
static POWERS: [Name; 16] = [
    *b"square-         ", *b"cubic-          ", *b"pow2-           ", *b"pow3-           ",
    *b"pow4-           ", *b"pow5-           ", *b"pow6-           ", *b"pow7-           ",
    *b"pow8-           ", *b"pow9-           ", *b"pow10-          ", *b"pow11-          ",
    *b"pow12-          ", *b"pow13-          ", *b"pow14-          ", *b"pow15-          ",
];

/// The prefixes of units, decimal and binary.
#[rattlefmt::skip]
static PREFIXES: [Name; 32] = [
    *b"quecto          ", *b"ronto           ", *b"yocto           ", *b"zepto           ",
    *b"atto            ", *b"femto           ", *b"pico            ", *b"nano            ",
    *b"micro           ", *b"milli           ", *b"centi           ", *b"deci            ",
    *b"deka            ", *b"hecto           ", *b"kilo            ", *b"mega            ",
    *b"giga            ", *b"tera            ", *b"peta            ", *b"exa             ",
    *b"zetta           ", *b"yotta           ", *b"ronna           ", *b"quetta          ",
    *b"kibi            ", *b"mebi            ", *b"gibi            ", *b"tebi            ",
    *b"pebi            ", *b"exbi            ", *b"zebi            ", *b"yobi            ",
];

#[tactic(auto, unfolding(crate::specs::Identifiers::longer))]
fn longer(text: &[u8], longest: usize, word: &[u8]) -> usize
    ensures { result ≡ longer text.now longest word.now }
{
    if text.starts_with(word) {
        longest.max(word.len())
    } else {
        longest
    }
}

/// Returns the length of the longest of some words that a text starts with, or 0.
#[tactic(auto, unfolding(crate::specs::Identifiers::longest_word))]
fn longest_word(words: &[Name], text: &[u8]) -> usize
    ensures { result ≡ longest_word words.now text.now }
{
    let mut longest = 0;
    for word in words {
        longest = longer(text, longest, unpadded(word));
    }
    longest
}

#[tactic(auto, unfolding(crate::specs::Identifiers::power_length))]
fn power_length(text: &[u8]) -> usize
    ensures { result ≡ power_length text.now }
{
    longest_word(&POWERS, text)
}

#[tactic(auto, unfolding(crate::specs::Identifiers::prefix_length))]
fn prefix_length(text: &[u8]) -> usize
    ensures { result ≡ prefix_length text.now }
{
    longest_word(&PREFIXES, text)
}

/// Returns the length of a unit without patterns of its own.
#[tactic(auto, unfolding(crate::specs::Identifiers::other_length))]
fn other_length(text: &[u8]) -> usize
    ensures { result ≡ other_length text.now }
{
    longer(text, longest_word(&PERSON_UNITS, text), b"100-kilometer")
}

/// Returns the length of the longest unit that a text starts with, or 0.
#[tactic(auto, unfolding(crate::specs::Identifiers::unit_length))]
fn unit_length(text: &[u8]) -> usize
    ensures { result ≡ unit_length text.now }
{
    let mut longest = other_length(text);
    for index in 0..255 {
        let Some(unit) = UnitId::from_index(index) else {
            return longest;
        };
        longest = longer(text, longest, name_at(unit).as_bytes());
    }
    longest
}

fn is_prefixed(text: &[u8]) -> bool
    ensures { result ≡ is_prefixed text.now }
{
    let prefix = prefix_length(text);
    prefix > 0 && unit_length(after(text, prefix)) > 0
}

/// Returns what follows the unit that a text starts with, perhaps after one prefix.
fn after_unit(text: &[u8]) -> Option<&[u8]>
    ensures { option_map (λ rest. rest.now) result ≡ after_unit text.now }
{
    let known = unit_length(text);
    let rest = after(text, prefix_length(text));
    if known > 0 {
        return Some(after(text, known));
    }
    if is_prefixed(text) && !is_prefixed(rest) {
        return Some(after(rest, unit_length(rest)));
    }
    None
}

#[tactic(auto, unfolding(crate::specs::Identifiers::after_factor))]
fn after_factor(text: &[u8]) -> Option<&[u8]>
    ensures { option_map (λ rest. rest.now) result ≡ after_factor text.now }
{
    after_unit(after(text, power_length(text)))
}

fn joiner_length(is_mixed: bool, text: &[u8]) -> usize
    ensures { result ≡ joiner_length is_mixed text.now }
{
    if is_mixed {
        if text.starts_with(b"-and-") { 5 } else { 0 }
    } else if text.starts_with(b"-per-") {
        5
    } else if byte_at(text, 0) == b'-' {
        1
    } else {
        0
    }
}

fn is_mixed(text: &[u8]) -> bool
    ensures { result ≡ is_mixed text.now }
{
    match after_factor(text) {
        Some(rest) => rest.starts_with(b"-and-"),
        None => false,
    }
}

fn units_start(text: &[u8]) -> usize
    ensures { result ≡ units_start text.now }
{
    if text.starts_with(b"per-") { 4 } else { 0 }
}

#[tactic(auto, unfolding(crate::specs::Identifiers::are_units))]
fn are_units(is_mixed: bool, count: usize, text: &[u8]) -> bool
    ensures { result ≡ are_units is_mixed count text.now }
{
    let mut units = text;
    for _ in 0..count {
        let Some(rest) = after_factor(units) else {
            return false;
        };
        if rest.is_empty() {
            return true;
        }
        let joiner = joiner_length(is_mixed, rest);
        if joiner == 0 {
            return false;
        }
        units = after(rest, joiner);
    }
    false
}

/// Returns whether a text is the identifier of a unit of ICU.
#[tactic(auto, unfolding(crate::specs::Identifiers::is_identifier))]
pub(crate) fn is_identifier(text: &[u8]) -> bool
    ensures { result ≡ is_identifier text.now }
{
    let units = after(text, units_start(text));
    are_units(is_mixed(units), text.len(), units)
}
