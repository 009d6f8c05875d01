//! What the two numbers of a range have in common.
ghost use Rattle.std.specs.Prelude.{◌≡◌, ◌*◌, ◌≤◌, ◌&&◌, length, IsTrue};
ghost use Rattle.std.specs.Str.{bytes_eq};
ghost use Rattle.number_format.specs.{FormattedRanges.end_of, NumberText.AreParts, RangeText.{are_same_texts, bare_around, both_or_neither, characters, characters_around, without_spaces}, TextParts.parts_text};

use crate::format::affixes::{NumberAffixes, StyleTexts};
use crate::format::compact::CompactChoice;
use crate::format::formatted_number::FormattedNumber;
use crate::format::short_affixes::joined;
use crate::format::text_part::TextPart;
use arrayvec::ArrayString;

impl StyleTexts {
    fn without_spaces(&self) -> StyleTexts
        ensures { result ≡ without_spaces self.now }
    {
        let mut style = self.copied();
        style.currency.space_before = false;
        style.currency.space_after = false;
        style
    }
}

/// Returns the parts around a number in its style without the spaces between a currency and a digit.
fn bare_affixes<'s>(style: &'s StyleTexts, number: &FormattedNumber<'_>) -> NumberAffixes<'s>
    requires { style.now ≡ without_spaces number.now.formatter.now.style }
    ensures { AreParts (bare_around (end_of number.now)) result }
{
    style.affixes(number.value.sign, number.compact_pattern())
}

fn characters(text: &str) -> usize
    ensures value { result ≡ characters text.now }
    ensures at_most { result ≤ length text.now }
{
    text.as_bytes()
        .iter()
        .filter(|byte| **byte / 64 != 2)
        .count()
}

fn parts_characters(parts: &[TextPart<'_>]) -> usize
    requires { length parts.now ≤ 16 }
    ensures value { result ≡ characters (parts_text parts.now) }
    ensures at_most { result ≤ 255 * length parts.now }
{
    let mut total = 0;
    for part in parts {
        total += characters(part.text);
    }
    total
}

/// Returns the number of characters around a number, without the spaces between a currency and a digit.
pub(crate) fn characters_around(number: &FormattedNumber<'_>) -> usize
    ensures { result ≡ characters_around (bare_around (end_of number.now)) }
{
    let style = number.formatter.style.without_spaces();
    let affixes = bare_affixes(&style, number);
    parts_characters(&affixes.prefix) + parts_characters(&affixes.suffix)
}

fn are_same_choices(first: CompactChoice, second: CompactChoice) -> bool
    ensures { IsTrue result → first ≡ second }
{
    first.patterns.0.0 == second.patterns.0.0
        && first.patterns.0.1 == second.patterns.0.1
        && first.category == second.category
        && are_both_or_neither(first.is_one, second.is_one)
}

pub(crate) fn are_both_or_neither(first: bool, second: bool) -> bool
    ensures { result ≡ both_or_neither first second }
{
    if first { second } else { !second }
}

fn are_same_parts(first: &[TextPart<'_>], second: &[TextPart<'_>]) -> bool
    requires first { length first.now ≤ 6 }
    requires second { length second.now ≤ 6 }
    ensures { result ≡ bytes_eq (parts_text first.now) (parts_text second.now) }
{
    let first: ArrayString<1530> = joined(first).unwrap();
    let second: ArrayString<1530> = joined(second).unwrap();
    first.as_str().as_bytes() == second.as_str().as_bytes()
}

fn are_same_affixes(first: &NumberAffixes<'_>, second: &NumberAffixes<'_>) -> bool
    ensures { result ≡ (bytes_eq (parts_text first.now.prefix) (parts_text second.now.prefix)
        && (bytes_eq (parts_text first.now.suffix) (parts_text second.now.suffix)
        && both_or_neither first.now.has_number second.now.has_number)) }
{
    are_same_parts(&first.prefix, &second.prefix)
        && are_same_parts(&first.suffix, &second.suffix)
        && are_both_or_neither(first.has_number, second.has_number)
}

// Not inlined: the texts differ if the signs or the compact patterns do.
#[inline(never)]
fn are_equal_texts(start: &FormattedNumber<'_>, end: &FormattedNumber<'_>) -> bool
    requires { start.now.formatter.now ≡ end.now.formatter.now }
    ensures { result ≡ are_same_texts (bare_around (end_of start.now)) (bare_around (end_of end.now)) }
{
    let style = start.formatter.style.without_spaces();
    let first = bare_affixes(&style, start);
    let second = bare_affixes(&style, end);
    are_same_affixes(&first, &second)
}

/// Returns whether the same texts are around two numbers of one formatter, without the spaces between a currency and a
/// digit. The texts are compared only if the signs differ, or what chooses the compact patterns.
pub(crate) fn have_same_texts(start: &FormattedNumber<'_>, end: &FormattedNumber<'_>) -> bool
    requires { start.now.formatter.now ≡ end.now.formatter.now }
    ensures { result ≡ are_same_texts (bare_around (end_of start.now)) (bare_around (end_of end.now)) }
{
    if start.value.sign == end.value.sign && are_same_choices(start.choice, end.choice) {
        return true;
    }
    are_equal_texts(start, end)
}
