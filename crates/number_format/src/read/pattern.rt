//! The texts around a number that a formatter writes, and what they say of the number.
ghost use Rattle.std.specs.Prelude.{◌≡◌, ◌↔◌, ◌≤◌, ◌+◌, ◌*◌, ◌++◌, length, IsTrue, IfOk};
ghost use Rattle.decimal_format.specs.Symbols.{affixes};
ghost use Rattle.number_format.specs.{AffixedTexts.{Allows, name_of}, FormattedNumbers.IsOuter, NumberReading.{outer_at, number_key, number_pattern, pattern_at, keys_by, patterns_of}, TextParts.parts_text};

use crate::format::affixes::NumberAffixes;
use crate::format::formatter::NumberFormatter;
use crate::format::outer::{OuterAround, OuterTexts};
use crate::format::short_affixes::{ShortAffixes, joined};
use crate::format::text_part::TextPart;
use crate::read::owned_affixes::OwnedAffixes;
use crate::read::pattern_name::PatternName;
use arrayvec::ArrayString;
use fixed_decimal::Sign;
use plural_rules::PluralCategory::{self, Few, Many, One, Other, Two, Zero};
use std::alloc::{AllocError, Global};

/// Texts around a number, and what they say of the number.
#[derive(Drop)]
pub(crate) struct NumberPattern {
    /// The text before the number, and the text after it.
    pub(crate) affixes: OwnedAffixes,
    /// The sign that they show.
    pub(crate) sign: Sign,
    /// The plural category of the numbers that they are around; none if they are around every number.
    pub(crate) category: Option<PluralCategory>,
    /// The power of ten that they stand for: 3 of `K`.
    pub(crate) exponent: i32,
}

/// The plural category and the sign of the numbers that a pattern is for.
pub(crate) type PatternKey = (Option<PluralCategory>, Sign);

/// The patterns of a formatter without texts by the plural category.
pub(crate) const SIGN_KEYS: [PatternKey; 3] = [
    (None, Sign::None),
    (None, Sign::Negative),
    (None, Sign::Positive),
];

/// The patterns of a formatter with a unit or the name of a currency.
pub(crate) const CATEGORY_KEYS: [PatternKey; 18] = [
    (Some(Other), Sign::None),
    (Some(Other), Sign::Negative),
    (Some(Other), Sign::Positive),
    (Some(One), Sign::None),
    (Some(One), Sign::Negative),
    (Some(One), Sign::Positive),
    (Some(Few), Sign::None),
    (Some(Few), Sign::Negative),
    (Some(Few), Sign::Positive),
    (Some(Many), Sign::None),
    (Some(Many), Sign::Negative),
    (Some(Many), Sign::Positive),
    (Some(Two), Sign::None),
    (Some(Two), Sign::Negative),
    (Some(Two), Sign::Positive),
    (Some(Zero), Sign::None),
    (Some(Zero), Sign::Negative),
    (Some(Zero), Sign::Positive),
];

impl NumberPattern {
    /// Returns whether numbers of a category may be between the texts; without a category whether any may.
    pub(crate) fn allows(&self, category: Option<PluralCategory>) -> bool
        ensures { IsTrue result ↔ Allows category self.now }
    {
        match (self.category, category) {
            (Some(own), Some(category)) => own == category,
            _ => true,
        }
    }

    /// Returns what the texts say of a number.
    pub(crate) fn name(&self) -> PatternName
        ensures { result ≡ name_of self.now }
    {
        PatternName {
            category: self.category,
            sign: self.sign,
            exponent: self.exponent,
        }
    }
}

/// Joins texts of parts, each of at most 255 bytes.
pub(crate) fn short_text<const CAP: usize>(parts: &[TextPart<'_>]) -> ArrayString<CAP>
    requires { 255 * length parts.now ≤ CAP }
    ensures { result.bytes ≡ parts_text parts.now }
{
    joined(parts).unwrap()
}

/// Joins two texts of at most `CAP` bytes.
pub(crate) fn pair_text<const CAP: usize>(first: &str, second: &str) -> ArrayString<CAP>
    requires { length first.now + length second.now ≤ CAP }
    ensures { result.bytes ≡ first.now ++ second.now }
{
    let mut text = ArrayString::new();
    text.try_push_str(first).unwrap();
    text.try_push_str(second).unwrap();
    text
}

/// Joins what is around a whole text and what is around the number in it.
pub(crate) fn joined_texts(outer: &OuterAround<'_>, inner: &NumberAffixes<'_>) -> ShortAffixes<2550>
    ensures { result ≡ affixes (parts_text outer.now.before ++ parts_text inner.now.prefix)
        (parts_text inner.now.suffix ++ parts_text outer.now.after) }
{
    let before: ArrayString<1020> = short_text(&outer.before);
    let prefix: ArrayString<1530> = short_text(&inner.prefix);
    let suffix: ArrayString<1275> = short_text(&inner.suffix);
    let after: ArrayString<1020> = short_text(&outer.after);
    ShortAffixes {
        prefix: pair_text(before.as_str(), prefix.as_str()),
        suffix: pair_text(suffix.as_str(), after.as_str()),
    }
}

impl NumberFormatter {
    fn outer_at(&self, category: Option<PluralCategory>) -> OuterAround<'_>
        ensures { IsOuter (outer_at self.now category) result }
    {
        match category {
            Some(category) => self.outer_around(category),
            None => OuterAround::none(),
        }
    }

    fn number_key(&self, key: PatternKey) -> PatternKey
        ensures { result ≡ number_key self.now key }
    {
        let outer = self.outer_at(key.0);
        if outer.has_number {
            return key;
        }
        (Some(Other), key.1)
    }

    fn texts_at(&self, key: PatternKey) -> ShortAffixes<2550>
        ensures { result ≡ (pattern_at self.now key).affixes }
    {
        joined_texts(&self.outer_at(key.0), &self.style.affixes(key.1, None))
    }

    /// Returns the texts around a number of a pattern.
    pub(crate) fn pattern_texts(&self, key: PatternKey) -> ShortAffixes<2550>
        ensures { result ≡ (number_pattern self.now key).affixes }
    {
        self.texts_at(self.number_key(key))
    }

    /// Returns what these texts say of a number.
    pub(crate) fn pattern_name(&self, key: PatternKey) -> PatternName
        ensures { result ≡ name_of (number_pattern self.now key) }
    {
        let (category, sign) = self.number_key(key);
        PatternName {
            category,
            sign,
            exponent: 0,
        }
    }

    fn pattern_at(&self, alloc: Global, key: PatternKey) -> Result<NumberPattern, AllocError>
        ensures { IfOk result (λ p. p ≡ pattern_at self.now key) }
    {
        let affixes = OwnedAffixes::around(
            alloc,
            &self.outer_at(key.0),
            &self.style.affixes(key.1, None),
        )?;
        Ok(NumberPattern {
            affixes,
            sign: key.1,
            category: key.0,
            exponent: 0,
        })
    }

    fn pattern(&self, alloc: Global, key: PatternKey) -> Result<NumberPattern, AllocError>
        ensures { IfOk result (λ p. p ≡ number_pattern self.now key) }
    {
        self.pattern_at(alloc, self.number_key(key))
    }

    /// Returns for which plural categories and signs there are patterns.
    pub(crate) fn pattern_keys(&self) -> &'static [PatternKey]
        ensures { result.now ≡ keys_by self.now.outer }
    {
        match self.outer {
            OuterTexts::None => &SIGN_KEYS,
            OuterTexts::Units(_) | OuterTexts::Names(_) => &CATEGORY_KEYS,
        }
    }

    /// Returns the texts around numbers.
    pub(crate) fn number_patterns(&self, alloc: Global) -> Result<Vec<NumberPattern>, AllocError>
        ensures { IfOk result (λ patterns. patterns.items ≡ patterns_of self.now) }
    {
        let keys = self.pattern_keys();
        let mut patterns = Vec::new(alloc);
        for key in keys {
            patterns.push(self.pattern(alloc, *key)?)?;
        }
        Ok(patterns)
    }
}
