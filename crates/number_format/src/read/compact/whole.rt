//! Whole texts of compact notation: without a number, as `mille`.
ghost use Rattle.std.specs.Prelude.{◌≡◌, ◌≢◌, ◌↔◌, ◌++◌, ◌+◌, ◌*◌, ◌<◌, ℕ, List, IsTrue, MatchOption};
ghost use Rattle.std.specs.List.{Contains};
ghost use Rattle.decimal_format.specs.Readable.{BeginsWithDigit};
ghost use Rattle.number_format.specs.CompactReading.{word_pattern, whole_text, key_at, HasCompactExponents, HasNoDigit, HasNumberOr, HasOneMeaning, HasMeaningOf, HasWordNumbers, HaveNumbersBelow, IsForOneAlone};
ghost use Rattle.number_format.specs.Scaled.{exponent_at};
ghost use Rattle.number_format.specs.declared.read.pattern.NumberPattern.{NumberPattern};

use crate::format::formatter::NumberFormatter;
use crate::read::apart::are_same_powers;
use crate::read::compact::keys::{CompactKey, KEY_COUNT, key_at};
use crate::read::cut::{cut, cut_code};
use crate::read::owned_affixes::is_whole;
use crate::read::pattern::{NumberPattern, pair_text};
use arrayvec::ArrayString;
use decimal_format::DecimalSymbols;
use fixed_decimal::Sign;
use locale_data::{CompactStyle, is_one_alone};
use plural_rules::PluralCategory;

fn begins_with_digit(symbols: &DecimalSymbols<'_>, text: &[u8]) -> bool
    ensures { IsTrue result ↔ BeginsWithDigit symbols.now text.now }
{
    for digit in 0..10 {
        if let Some(_) = cut_code(symbols, digit, text) {
            return true;
        }
    }
    false
}

/// Returns whether no digit is in a text.
pub(crate) fn has_no_digit(symbols: &DecimalSymbols<'_>, text: &[u8]) -> bool
    ensures { IsTrue result ↔ HasNoDigit symbols.now text.now }
{
    if begins_with_digit(symbols, text) {
        return false;
    }
    match text {
        [] => true,
        [_, rest @ ..] => has_no_digit(symbols, rest),
    }
}

fn are_joined(text: &[u8], first: &[u8], second: &[u8]) -> bool
    ensures { IsTrue result ↔ (text.now ≡ first.now ++ second.now) }
{
    let Some(rest) = cut(text, first) else {
        return false;
    };
    match cut(rest, second) {
        Some(end) => end.is_empty(),
        None => false,
    }
}

fn is_whole_text(pattern: &NumberPattern, text: &[u8]) -> bool
    ensures { IsTrue result ↔ (text.now ≡ whole_text pattern.now) }
{
    let affixes = pattern.affixes.texts();
    are_joined(text, affixes.prefix.as_bytes(), affixes.suffix.as_bytes())
}

fn are_same_signs(first: Sign, second: Sign) -> bool
    ensures { IsTrue result ↔ (first ≡ second) }
{
    first == second
}

/// Returns a pattern whose whole text this is.
pub(crate) fn find_whole<'p>(
    patterns: &'p [NumberPattern],
    text: &[u8],
) -> Option<&'p NumberPattern>
    ensures { MatchOption result ((p : NumberPattern) → Contains patterns.now p → text.now ≢ whole_text p)
        (λ p. Contains patterns.now p.now × (text.now ≡ whole_text p.now)) }
{
    match patterns {
        [] => None,
        [first, rest @ ..] => {
            if is_whole_text(first, text) {
                return Some(first);
            }
            find_whole(rest, text)
        }
    }
}

impl NumberFormatter {
    fn whole_text(&self, style: CompactStyle, key: CompactKey) -> ArrayString<5100>
        ensures { result.bytes ≡ whole_text (word_pattern self.now style key) }
    {
        let texts = self.word_texts(style, key);
        pair_text(texts.prefix.as_str(), texts.suffix.as_str())
    }

    fn is_without_digit(&self, style: CompactStyle, key: CompactKey) -> bool
        ensures { IsTrue result ↔ HasNoDigit self.now.style.symbols (whole_text (word_pattern self.now style key)) }
    {
        let text = self.whole_text(style, key);
        has_no_digit(&self.style.symbols, text.as_str().as_bytes())
    }

    fn has_text(&self, style: CompactStyle, key: CompactKey, text: &[u8]) -> bool
        ensures { IsTrue result ↔ (text.now ≡ whole_text (word_pattern self.now style key)) }
    {
        let outer = self.outer_around(key.whole);
        let inner = self.inner_at(style, key);
        is_whole(text, &outer, &inner)
    }

    fn means_the_same(&self, key: CompactKey, other: CompactKey) -> bool
        ensures { IsTrue result ↔ ((key.sign ≡ other.sign)
            × (exponent_at self.now.notation key.magnitude ≡ exponent_at self.now.notation other.magnitude)) }
    {
        let exponent = self.notation.exponent_at(key.magnitude);
        are_same_signs(key.sign, other.sign)
            && are_same_powers(exponent, self.notation.exponent_at(other.magnitude))
    }

    fn has_meaning_of(
        &self,
        style: CompactStyle,
        key: CompactKey,
        text: &[u8],
        other: CompactKey,
    ) -> bool
        requires { text.now ≡ whole_text (word_pattern self.now style key) }
        ensures { IsTrue result ↔ HasMeaningOf self.now style (word_pattern self.now style key) other }
    {
        self.means_the_same(key, other)
            || self.has_number_in(style, other)
            || !self.has_text(style, other, text)
    }

    fn has_one_meaning(&self, style: CompactStyle, key: CompactKey) -> bool
        requires { HasCompactExponents self.now.notation }
        ensures { IsTrue result ↔ HasOneMeaning self.now style (word_pattern self.now style key) }
    {
        let text = self.whole_text(style, key);
        for index in 0..KEY_COUNT {
            if !self.has_meaning_of(style, key, text.as_str().as_bytes(), key_at(index)) {
                return false;
            }
        }
        true
    }

    fn is_for_one_alone(&self, key: CompactKey) -> bool
        ensures { IsTrue result ↔ IsForOneAlone self.now key }
    {
        key.is_single() || matches!(key.category, PluralCategory::One) && is_one_alone(self.rules)
    }

    /// Returns whether the key has a number, or a whole text that can be read.
    pub(crate) fn has_number_or_meaning(&self, style: CompactStyle, key: CompactKey) -> bool
        requires { HasCompactExponents self.now.notation }
        ensures { IsTrue result ↔ HasNumberOr self.now style key }
    {
        if self.has_number_in(style, key) {
            return true;
        }
        if !self.is_for_one_alone(key) {
            return false;
        }
        if !self.is_without_digit(style, key) {
            return false;
        }
        self.has_one_meaning(style, key)
    }

    fn has_number_at(&self, style: CompactStyle, index: usize) -> bool
        requires exponents { HasCompactExponents self.now.notation }
        requires listed { index < 3888 }
        requires before { HaveNumbersBelow self.now style index }
        ensures { IsTrue result ↔ HaveNumbersBelow self.now style (index + 1) }
    {
        self.repeats_in_row(style, index) || self.has_number_or_meaning(style, key_at(index))
    }

    fn have_row_numbers(&self, style: CompactStyle, row: usize) -> bool
        requires exponents { HasCompactExponents self.now.notation }
        requires listed { row < 18 }
        requires before { HaveNumbersBelow self.now style (row * 216) }
        ensures { IsTrue result ↔ HaveNumbersBelow self.now style (row * 216 + 216) }
    {
        let start = row * 216;
        if self.is_same_row(style, start) {
            return true;
        }
        for index in start..start + 216 {
            if !self.has_number_at(style, index) {
                return false;
            }
        }
        true
    }

    /// Returns whether each text has a number, or is one of the number 1 alone that can be read, as `mille`.
    pub(crate) fn has_word_numbers(&self, style: CompactStyle) -> bool
        requires { HasCompactExponents self.now.notation }
        ensures { IsTrue result ↔ HasWordNumbers self.now style }
    {
        for row in 0..18 {
            if !self.have_row_numbers(style, row) {
                return false;
            }
        }
        true
    }
}
