//! Words of compact notation as people type them: with other spaces, without periods, in capitals or small letters.
ghost use Rattle.std.specs.{Prelude.{◌≡◌, ◌≢◌, ℕ, [], ◌∷◌, ◌++◌, ◌↔◌, ◌<◌, ◌≤◌, ◌≤ℤ◌, pos, Err, List, length, take, MatchOption, IfSome, IsTrue, true}, Option.option_copied, Bool.{OnTrue, OnFalse}, Str.{chars, IsUtf8}};
ghost use Rattle.decimal_unsigned.specs.declared.error.ParseError.{TheVariants.Syntax};
ghost use Rattle.locale_data.specs.Compact.{has_texts, AreTexts};
ghost use Rattle.number_format.specs.TypedWords.{is_kept, lowered, folded, IsCut, IsSkipped, IsKeptFirst, FollowsWord, IsAfterWord, IsWithoutWord, IsNoneLeft, is_no_word, has_no_word, has_no_word_after, last_text, typed_pattern, word_of, word_before_of, power_of, IsReadLeft, IsReadAfter, IsReadWithout, IsMeaning, Fits, HasOther, HasNoOther, IsOneMeaning, IsReadByWord, typing};

use crate::format::formatter::NumberFormatter;
use crate::format::outer::OuterTexts;
use crate::format::trimmed::{is_trimmed, split_first, split_last};
use crate::read::affix_reader::{AffixReader, shifted};
use crate::read::apart::are_same_powers;
use crate::read::compact::keys::key_at;
use arrayvec::ArrayString;
use decimal_format::internal::Alternative;
use fixed_decimal::{DigitStore, ParseError, Signed, UnsignedOver};
use locale_data::{AffixText, CompactForm, CompactPattern, CompactStyle};
use std::alloc::Global;

fn is_kept(c: char) -> bool
    ensures { result ≡ is_kept c }
{
    !(is_trimmed(c) || c == '.')
}

fn lowered(c: char) -> char
    ensures { result ≡ lowered c }
{
    c.to_lowercase().next().unwrap_or(c)
}

fn is_same_letter(first: char, second: char) -> bool
    ensures { IsTrue result ↔ (lowered first ≡ lowered second) }
{
    lowered(first) == lowered(second)
}

fn skip_left_out(text: &str) -> &str
    ensures { IsSkipped (chars text.now) (chars result.now) }
{
    let mut rest = text;
    while let Some((c, after)) = split_first(rest) {
        if is_kept(c) {
            return rest;
        }
        rest = after;
    }
    rest
}

fn split_kept(text: &str) -> Option<(char, &str)>
    ensures { MatchOption result (folded (chars text.now) ≡ [])
        (λ r. IsKeptFirst (chars text.now) r.0 (chars r.1.now)) }
{
    let (c, after) = split_first(skip_left_out(text))?;
    Some((c, after))
}

fn after_word<'t>(text: &'t str, word: &str) -> Option<&'t str>
    ensures { MatchOption result
        ((rest : List ℕ) → ¬ FollowsWord (folded (chars word.now)) (chars text.now) rest)
        (λ r. FollowsWord (folded (chars word.now)) (chars text.now) (chars r.now) × IsUtf8 r.now) }
{
    let Some((wanted, others)) = split_kept(word) else {
        return Some(skip_left_out(text));
    };
    let (typed, after) = split_kept(text)?;
    if is_same_letter(typed, wanted) {
        let rest = after_word(after, others)?;
        return Some(rest);
    }
    None
}

fn before_tail(text: &str) -> &str
    ensures bound { length result.now ≤ length text.now }
    ensures start { result.now ≡ take (length result.now) text.now }
    ensures cut { (tail : List ℕ) × IsCut text.now (chars result.now) tail }
{
    let mut rest = text;
    while let Some((before, c)) = split_last(rest) {
        if c.is_numeric() {
            return rest;
        }
        rest = before;
    }
    rest
}

fn split_number(text: &str) -> (&str, &str)
    ensures { IsCut text.now (chars result.0.now) (chars result.1.now) }
{
    text.split_at(before_tail(text).len())
}

fn joined_rest(front: &str, rest: &str) -> Option<ArrayString<255>>
    ensures { MatchOption result (255 < length (front.now ++ rest.now)) (λ t. t.bytes ≡ front.now ++ rest.now) }
{
    let mut text = ArrayString::new();
    text.try_push_str(front).ok()?;
    text.try_push_str(rest).ok()?;
    Some(text)
}

fn begins_with_period(text: &str) -> bool
    ensures { IsTrue result ↔ ((cs : List ℕ) × (chars text.now ≡ 46 ∷ cs)) }
{
    match split_first(text) {
        Some((c, _)) => c == '.',
        None => false,
    }
}

fn without_word(front: &str, tail: &str, word: &str) -> Option<ArrayString<255>>
    ensures { MatchOption result
        (IsNoneLeft (chars word.now) (chars front.now) (chars tail.now))
        (λ t. IsWithoutWord (chars word.now) (chars front.now) (chars tail.now) t.bytes) }
{
    split_kept(word)?;
    if begins_with_period(tail) {
        return None;
    }
    let rest = after_word(tail, word)?;
    let left = joined_rest(front, rest)?;
    Some(left)
}

fn after_some_word<'t>(text: &'t str, word: &str) -> Option<&'t str>
    ensures { MatchOption result
        ((left : List ℕ) → ¬ IsAfterWord (chars word.now) (chars text.now) left)
        (λ left. IsAfterWord (chars word.now) (chars text.now) left.now) }
{
    split_kept(word)?;
    let left = after_word(text, word)?;
    Some(left)
}

fn is_no_word(text: &str) -> bool
    ensures { result ≡ is_no_word text.now }
{
    match split_kept(text) {
        Some(_) => false,
        None => true,
    }
}

fn has_no_word(affix: &AffixText) -> bool
    requires { has_texts affix.now ≡ true }
    ensures { result ≡ has_no_word affix.now }
{
    is_no_word(affix.before_text()) && is_no_word(affix.after_text())
}

fn has_no_word_after(pattern: &CompactPattern) -> bool
    requires { has_texts pattern.now.suffix ≡ true }
    ensures { result ≡ has_no_word_after pattern.now }
{
    !matches!(pattern.form, CompactForm::Literal) && has_no_word(&pattern.suffix)
}

fn last_text(affix: &AffixText) -> &'static str
    requires { has_texts affix.now ≡ true }
    ensures { result.now ≡ last_text affix.now }
{
    if affix.has_currency {
        return affix.after_text();
    }
    affix.before_text()
}

/// A typed text, cut after its last digit, and what it is read by: the words of a formatter, and a reader of numbers
/// without words, with what may be around these.
#[derive(Clone, Copy)]
pub(crate) struct TypedText<'t> {
    formatter: &'t NumberFormatter,
    style: CompactStyle,
    plain: &'t AffixReader<'t>,
    alternatives: &'t [Alternative<'t>],
    text: &'t str,
    front: &'t str,
    tail: &'t str,
}

impl TypedText<'_> {
    fn power(&self, index: usize) -> i32
        requires { index < 216 }
        ensures value { result ≡ power_of self.now.formatter.now index }
        ensures range { (pos 0 ≤ℤ result) × (result ≤ℤ pos 255) }
    {
        self.formatter
            .notation
            .exponent_at(key_at(18 * index).magnitude)
    }

    // None beside a unit or a name: `5m` may be meters or millions.
    fn pattern(&self, index: usize) -> Option<&'static CompactPattern>
        requires { index < 216 }
        ensures value { option_copied result ≡ typed_pattern self.now.formatter.now self.now.style index }
        ensures texts { IfSome result (λ p. AreTexts p.now) }
    {
        match &self.formatter.outer {
            OuterTexts::None => self.formatter.word(self.style, key_at(18 * index)),
            _ => None,
        }
    }

    fn word(&self, index: usize) -> &'static str
        requires { index < 216 }
        ensures { result.now ≡ word_of self.now.formatter.now self.now.style index }
    {
        match self.pattern(index) {
            Some(pattern) if has_no_word(&pattern.prefix) => pattern.suffix.before_text(),
            _ => "",
        }
    }

    fn word_before(&self, index: usize) -> &'static str
        requires { index < 216 }
        ensures { result.now ≡ word_before_of self.now.formatter.now self.now.style index }
    {
        match self.pattern(index) {
            Some(pattern) if has_no_word_after(pattern) => last_text(&pattern.prefix),
            _ => "",
        }
    }

    fn read_left<D: DigitStore>(
        &self,
        alloc: Global,
        index: usize,
        left: &str,
    ) -> Result<Signed<UnsignedOver<D>>, ParseError>
        requires { index < 216 }
        ensures { IsReadLeft (typing D.L self.now) index left.now result }
    {
        let read = self.plain.read_typed(alloc, self.alternatives, left);
        shifted(read, self.power(index) as i16)
    }

    fn read_after_word<D: DigitStore>(
        &self,
        alloc: Global,
        index: usize,
    ) -> Result<Signed<UnsignedOver<D>>, ParseError>
        requires { index < 216 }
        ensures { IsReadAfter (typing D.L self.now) index result }
    {
        let Some(left) = after_some_word(self.text, self.word_before(index)) else {
            return Err(ParseError::Syntax);
        };
        self.read_left(alloc, index, left)
    }

    fn read_without_word<D: DigitStore>(
        &self,
        alloc: Global,
        index: usize,
    ) -> Result<Signed<UnsignedOver<D>>, ParseError>
        requires { index < 216 }
        ensures { IsReadWithout (typing D.L self.now) index result }
    {
        let Some(left) = without_word(self.front, self.tail, self.word(index)) else {
            return self.read_after_word(alloc, index);
        };
        self.read_left(alloc, index, left.as_str())
    }

    fn read_meaning<D: DigitStore>(
        &self,
        alloc: Global,
        index: usize,
    ) -> Result<Signed<UnsignedOver<D>>, ParseError>
        requires { index < 216 }
        ensures { IsMeaning (typing D.L self.now) index result }
    {
        if index == 0 {
            return self.plain.read_typed(alloc, self.alternatives, self.text);
        }
        self.read_without_word(alloc, index)
    }

    fn fits<D: DigitStore>(&self, alloc: Global, index: usize) -> bool
        requires { index < 216 }
        ensures yes { OnTrue result (Fits (typing D.L self.now) index) }
        ensures no { OnFalse result (IsMeaning (typing D.L self.now) index (Err Syntax)) }
    {
        match self.read_meaning::<D>(alloc, index) {
            Err(ParseError::Syntax) => false,
            _ => true,
        }
    }

    fn first_fit<D: DigitStore>(&self, alloc: Global) -> Option<usize>
        ensures { MatchOption result
            ((i : ℕ) → i < 216 → IsMeaning (typing D.L self.now) i (Err Syntax))
            (λ i. (i < 216) × Fits (typing D.L self.now) i) }
    {
        for index in 0..216 {
            if self.fits::<D>(alloc, index) {
                return Some(index);
            }
        }
        None
    }

    fn fits_other<D: DigitStore>(&self, alloc: Global, index: usize, power: i32) -> bool
        requires { index < 216 }
        ensures yes { OnTrue result ((power_of self.now.formatter.now index ≢ power)
            × Fits (typing D.L self.now) index) }
        ensures no { OnFalse result (power_of self.now.formatter.now index ≢ power
            → IsMeaning (typing D.L self.now) index (Err Syntax)) }
    {
        if are_same_powers(self.power(index), power) {
            return false;
        }
        self.fits::<D>(alloc, index)
    }

    fn has_other<D: DigitStore>(&self, alloc: Global, power: i32) -> bool
        ensures yes { OnTrue result (HasOther (typing D.L self.now) power) }
        ensures no { OnFalse result (HasNoOther (typing D.L self.now) power) }
    {
        for index in 0..216 {
            if self.fits_other::<D>(alloc, index, power) {
                return true;
            }
        }
        false
    }

    fn read<D: DigitStore>(&self, alloc: Global) -> Result<Signed<UnsignedOver<D>>, ParseError>
        ensures { IsOneMeaning (typing D.L self.now) result }
    {
        let Some(index) = self.first_fit::<D>(alloc) else {
            return Err(ParseError::Syntax);
        };
        if self.has_other::<D>(alloc, self.power(index)) {
            return Err(ParseError::Syntax);
        }
        self.read_meaning(alloc, index)
    }
}

impl NumberFormatter {
    /// Reads a number as people type it, with a word after its last digit, or one that the text begins with, or without
    /// one.
    ///
    /// In the word white space, marks, periods and the case of letters do not matter. A text with two meanings, by
    /// words of different powers of ten, is `Syntax`. So is one whose word belongs to a pattern with another word on
    /// the other side of the number. Beside a unit or the name of a currency no word is typed: `5m` may be 5 meters, or
    /// 5 million.
    pub(crate) fn read_typed_word<D: DigitStore>(
        &self,
        style: CompactStyle,
        plain: &AffixReader<'_>,
        alloc: Global,
        alternatives: &[Alternative<'_>],
        text: &str,
    ) -> Result<Signed<UnsignedOver<D>>, ParseError>
        ensures { IsReadByWord D.L self.now style plain.now alternatives.now text.now result }
    {
        let (front, tail) = split_number(text);
        let typed = TypedText {
            formatter: self,
            style,
            plain,
            alternatives,
            text,
            front,
            tail,
        };
        typed.read(alloc)
    }
}
