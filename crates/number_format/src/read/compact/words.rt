//! The texts around numbers in compact notation.
ghost use Rattle.std.specs.{Prelude.{◌≡◌, ◌↔◌, ◌<◌, ◌≤◌, ◌+◌, ◌*◌, ◌≤ℤ◌, pos, IsTrue, IfSome, IfOk, OnOk}, Option.option_copied};
ghost use Rattle.locale_data.specs.Compact.{pattern_for, patterns_in, compact_patterns, AreTexts};
ghost use Rattle.number_format.specs.{CompactReading.{inner_at, is_single, has_number_at, word_pattern, key_at, is_of_one, is_of_other, IsSameBefore, RepeatsAnother, HasCompactExponents, AreWordPatterns, AreFirstPatterns}, NumberText.AreParts};

use crate::format::affixes::NumberAffixes;
use crate::format::formatter::NumberFormatter;
use crate::format::short_affixes::ShortAffixes;
use crate::read::apart::are_same_powers;
use crate::read::compact::keys::{CompactKey, key_at};
use crate::read::owned_affixes::OwnedAffixes;
use crate::read::pattern::{NumberPattern, joined_texts};
use locale_data::{CompactForm, CompactPattern, CompactPatterns, CompactStyle};
use plural_rules::PluralCategory;
use std::alloc::{AllocError, Global};

fn are_same_rows(first: CompactPatterns, second: CompactPatterns) -> bool
    ensures { IsTrue result → patterns_in first ≡ patterns_in second }
{
    if first.0.0 != second.0.0 {
        return false;
    }
    first.0.1 == second.0.1
}

fn is_of_other(pattern: Option<&CompactPattern>) -> bool
    ensures { result ≡ is_of_other (option_copied pattern.entry) }
{
    match pattern {
        Some(pattern) => matches!(pattern.count, Some(PluralCategory::Other)),
        None => true,
    }
}

fn is_of_one(pattern: Option<&CompactPattern>) -> bool
    ensures { result ≡ is_of_one (option_copied pattern.entry) }
{
    match pattern {
        Some(pattern) => pattern.count.is_none(),
        None => false,
    }
}

impl NumberFormatter {
    fn words_at(&self, style: CompactStyle, magnitude: i16) -> CompactPatterns
        ensures { patterns_in result ≡ compact_patterns self.now.formats style magnitude }
    {
        self.formats.compact_patterns(style, magnitude)
    }

    pub(crate) fn word(
        &self,
        style: CompactStyle,
        key: CompactKey,
    ) -> Option<&'static CompactPattern>
        ensures value { option_copied result
            ≡ pattern_for key.category (is_single key) (compact_patterns self.now.formats style key.magnitude) }
        ensures texts { IfSome result (λ pattern. AreTexts pattern.now) }
    {
        self.words_at(style, key.magnitude)
            .pattern(key.category, key.is_single())
    }

    pub(crate) fn inner_at(&self, style: CompactStyle, key: CompactKey) -> NumberAffixes<'_>
        ensures { AreParts (inner_at self.now style key) result }
    {
        self.style.affixes(key.sign, self.word(style, key))
    }

    /// Returns whether a number is between the texts of a key, which else are a whole text.
    pub(crate) fn has_number_in(&self, style: CompactStyle, key: CompactKey) -> bool
        ensures { result ≡ has_number_at self.now style key }
    {
        match self.word(style, key) {
            Some(pattern) => !matches!(pattern.form, CompactForm::Literal),
            None => true,
        }
    }

    /// Returns the texts around a number.
    pub(crate) fn word_texts(&self, style: CompactStyle, key: CompactKey) -> ShortAffixes<2550>
        ensures { result ≡ (word_pattern self.now style key).affixes }
    {
        joined_texts(&self.outer_around(key.whole), &self.inner_at(style, key))
    }

    fn is_same_before(&self, style: CompactStyle, magnitude: i16) -> bool
        requires { pos 0 ≤ℤ magnitude }
        ensures { IsTrue result → IsSameBefore self.now style magnitude }
    {
        let before = magnitude - 1;
        if !are_same_rows(
            self.words_at(style, magnitude),
            self.words_at(style, before),
        ) {
            return false;
        }
        let exponent = self.notation.exponent_at(magnitude);
        are_same_powers(exponent, self.notation.exponent_at(before))
    }

    /// Returns whether the texts of a key are those of the one a magnitude below.
    pub(crate) fn is_same_row(&self, style: CompactStyle, index: usize) -> bool
        requires { index < 3888 }
        ensures { IsTrue result → (216 ≤ index) × IsSameBefore self.now style (key_at index).magnitude }
    {
        if index < 216 {
            return false;
        }
        self.is_same_before(style, key_at(index).magnitude)
    }

    /// Returns whether the texts of a key are those of another category, or of the numbers that are not 1.
    pub(crate) fn repeats_in_row(&self, style: CompactStyle, index: usize) -> bool
        requires { index < 3888 }
        ensures { IsTrue result → RepeatsAnother self.now style index }
    {
        if index % 18 >= 3 && !self.has_categories() {
            return true;
        }
        let key = key_at(index);
        let pattern = self.word(style, key);
        if index % 216 >= 18 && is_of_other(pattern) {
            return true;
        }
        index % 36 >= 18 && !is_of_one(pattern)
    }

    /// Returns whether the texts of a key are those of one with a smaller index.
    pub(crate) fn repeats(&self, style: CompactStyle, index: usize) -> bool
        requires { index < 3888 }
        ensures { IsTrue result → RepeatsAnother self.now style index }
    {
        self.is_same_row(style, index) || self.repeats_in_row(style, index)
    }

    fn word_pattern(
        &self,
        alloc: Global,
        style: CompactStyle,
        key: CompactKey,
    ) -> Result<NumberPattern, AllocError>
        ensures { IfOk result (λ p. p ≡ word_pattern self.now style key) }
    {
        let outer = self.outer_around(key.whole);
        let affixes = OwnedAffixes::around(alloc, &outer, &self.inner_at(style, key))?;
        Ok(NumberPattern {
            affixes,
            sign: key.sign,
            category: None,
            exponent: self.notation.exponent_at(key.magnitude),
        })
    }

    fn is_of_kind(&self, style: CompactStyle, has_number: bool, key: CompactKey) -> bool
        ensures { IsTrue result ↔ (has_number_at self.now style key ≡ has_number) }
    {
        let own = self.has_number_in(style, key);
        if has_number {
            return own;
        }
        !own
    }

    fn push_word(
        &self,
        alloc: Global,
        style: CompactStyle,
        has_number: bool,
        index: usize,
        patterns: &mut Vec<NumberPattern>,
    ) -> Result<(), AllocError>
        requires listed { index < 3888 }
        requires before { AreFirstPatterns self.now style has_number index patterns.old.items }
        ensures { OnOk result (AreFirstPatterns self.now style has_number (index + 1) patterns.new.items) }
    {
        if self.repeats_in_row(style, index) {
            return Ok(());
        }
        if !self.is_of_kind(style, has_number, key_at(index)) {
            return Ok(());
        }
        patterns.push(self.word_pattern(alloc, style, key_at(index))?)?;
        Ok(())
    }

    fn push_words(
        &self,
        alloc: Global,
        style: CompactStyle,
        has_number: bool,
        row: usize,
        patterns: &mut Vec<NumberPattern>,
    ) -> Result<(), AllocError>
        requires listed { row < 18 }
        requires before { AreFirstPatterns self.now style has_number (row * 216) patterns.old.items }
        ensures { OnOk result (AreFirstPatterns self.now style has_number (row * 216 + 216) patterns.new.items) }
    {
        let start = row * 216;
        if self.is_same_row(style, start) {
            return Ok(());
        }
        for index in start..start + 216 {
            self.push_word(alloc, style, has_number, index, patterns)?;
        }
        Ok(())
    }

    /// Returns the texts around numbers, or else the whole texts; each of them once.
    pub(crate) fn word_patterns(
        &self,
        alloc: Global,
        style: CompactStyle,
        has_number: bool,
    ) -> Result<Vec<NumberPattern>, AllocError>
        requires { HasCompactExponents self.now.notation }
        ensures { IfOk result (λ patterns. AreWordPatterns self.now style has_number patterns.items) }
    {
        let mut patterns = Vec::new(alloc);
        for row in 0..18 {
            self.push_words(alloc, style, has_number, row, &mut patterns)?;
        }
        Ok(patterns)
    }
}
