//! Which texts of compact notation cannot be told apart, without an allocation.
ghost use Rattle.std.specs.Prelude.{◌≡◌, ◌↔◌, ◌<◌, IsTrue, MatchOption, None, true};
ghost use Rattle.decimal_format.specs.Readable.{IsReadable};
ghost use Rattle.number_format.specs.{AffixedTexts.HasClash, CompactReading.{key_at, AreKeysApart, HasCompactExponents, IsIndexApart, IsPatternOf, AreWordsNamed}, Scaled.exponent_at};

use crate::format::formatter::NumberFormatter;
use crate::read::apart::{Clash, are_told_apart};
use crate::read::compact::keys::{CompactKey, KEY_COUNT, key_at};
use crate::read::pattern_name::PatternName;
use locale_data::CompactStyle;

impl NumberFormatter {
    fn word_name(&self, key: CompactKey) -> PatternName
        ensures { result ≡ record {
          category = None;
          sign = key.sign;
          exponent = exponent_at self.now.notation key.magnitude;
        } }
    {
        PatternName {
            category: None,
            sign: key.sign,
            exponent: self.notation.exponent_at(key.magnitude),
        }
    }

    fn are_pair_told(&self, style: CompactStyle, first: CompactKey, second: CompactKey) -> bool
        requires { IsReadable self.now.style.symbols }
        ensures { IsTrue result ↔ AreKeysApart self.now style first second }
    {
        if !self.has_number_in(style, first) {
            return true;
        }
        if !self.has_number_in(style, second) {
            return true;
        }
        let texts = self.word_texts(style, first);
        let others = self.word_texts(style, second);
        let names = (self.word_name(first), self.word_name(second));
        are_told_apart(&self.style.symbols, texts.texts(), others.texts(), names)
    }

    fn clash_of_index(&self, style: CompactStyle, index: usize) -> Option<Clash>
        requires readable { IsReadable self.now.style.symbols }
        requires listed { index < 3888 }
        ensures { MatchOption result (IsIndexApart self.now style index)
            (HasClash self.now.style.symbols (IsPatternOf self.now style true)) }
    {
        let key = key_at(index);
        for other in 0..KEY_COUNT {
            if self.repeats(style, other) {
                continue;
            }
            let other_key = key_at(other);
            if !self.are_pair_told(style, key, other_key) {
                return Some((self.word_name(key), self.word_name(other_key)));
            }
        }
        None
    }

    /// Returns the names of two texts that are not told apart. It is slow.
    pub(crate) fn clash_of_words(&self, style: CompactStyle) -> Option<Clash>
        requires readable { IsReadable self.now.style.symbols }
        requires exponents { HasCompactExponents self.now.notation }
        ensures { MatchOption result (AreWordsNamed self.now style)
            (HasClash self.now.style.symbols (IsPatternOf self.now style true)) }
    {
        for index in 0..KEY_COUNT {
            if self.repeats(style, index) {
                continue;
            }
            if let Some(clash) = self.clash_of_index(style, index) {
                return Some(clash);
            }
        }
        None
    }
}
