//! Reading of numbers in compact notation.
ghost use Rattle.std.specs.Prelude.{◌≡◌, ◌↔◌, ◌≤ℤ◌, ◌-ℤ◌, pos, Ok, IsTrue, IfSome, IfNone, true, false};
ghost use Rattle.decimal_format.specs.{Readable.IsReadable};
ghost use Rattle.number_format.specs.{AffixedTexts.{AreNamed, shifted}, CompactReading.{word_pattern, magnitude_by, HasCompactExponents, HasTextsAt, HasTextsOf, HasOwnTexts, HasPowerOf, HasWholeCategory, HidesSigns, IsKeyBy, IsOwnPattern, IsOwnOr, IsPatternOf, IsReadByNumber, IsReadShownInWords, IsReadInAnyWords, IsReadOrAny, IsReadInWords, AreWordPatterns}, Scaled.IsOrdered, TypedWords.IsTypedInWords};

mod apart;
pub(crate) mod keys;
mod powers;
mod typed;
pub(crate) mod whole;
mod words;

use crate::format::compact::{compact_power, is_unit, undivided_magnitude};
use crate::format::formatter::NumberFormatter;
use crate::notation::{CompactExponents, Notation};
use crate::read::affix_reader::{AffixReader, shifted};
use crate::read::apart::are_same_powers;
use crate::read::compact::keys::{CompactKey, category_at};
use crate::read::compact::powers::are_by_power;
use crate::read::compact::whole::find_whole;
use crate::read::pattern::NumberPattern;
use decimal_format::internal::Alternative;
use fixed_decimal::{DigitStore, ParseError, SignDisplay, Signed, UnsignedOver};
use locale_data::CompactStyle;
use plural_rules::PluralCategory;
use std::alloc::Global;
use std::marker::Model;

/// Reads the numbers that a formatter writes in compact notation.
#[derive(Drop)]
pub(crate) struct CompactReader {
    formatter: NumberFormatter,
    style: CompactStyle,
    /// Between the texts of all magnitudes, categories and signs.
    reader: AffixReader<'static>,
    /// The whole texts, as `mille`.
    wholes: Vec<NumberPattern>,
    /// Whether the power of ten alone chooses the word, as in `en`, and there are no whole texts.
    is_by_power: bool,
}

impl Model for CompactReader {
    ghost use Rattle.locale_data.specs.declared.compact.CompactStyle.{CompactStyle};
    ghost use Rattle.std.specs.Prelude.{false, IsTrue};
    ghost use Rattle.number_format.specs.{declared.format.formatter.NumberFormatter.NumberFormatter, CompactReading.{AreByPower, AreWordPatterns, IsWordReader}};

    ghost Value = { NumberFormatter × CompactStyle };

    ghost view = { λ s. (s.formatter, s.style) };

    ghost invariant = { λ s. IsWordReader s.formatter s.style s.reader
        × AreWordPatterns s.formatter s.style false s.wholes.items
        × (IsTrue s.is_by_power → AreByPower s.formatter s.style) };
}

fn magnitude_by<D: DigitStore>(value: &Signed<UnsignedOver<D>>, exponent: i32) -> i16
    requires { (pos 0 ≤ℤ exponent) × (exponent ≤ℤ pos 255) }
    ensures { result ≡ magnitude_by value.now.absolute exponent }
{
    if value.absolute.is_zero() {
        return 0;
    }
    undivided_magnitude(value, compact_power(exponent))
}

fn times<D: DigitStore>(
    pattern: &NumberPattern,
    value: Signed<UnsignedOver<D>>,
) -> Result<Signed<UnsignedOver<D>>, ParseError>
    requires { (pos 0 ≤ℤ pattern.now.exponent) × (pattern.now.exponent ≤ℤ pos 255) }
    ensures { result ≡ shifted pattern.now.exponent (Ok value) }
{
    shifted(Ok(value), pattern.exponent as i16)
}

fn hides_signs(formatter: &NumberFormatter) -> bool
    ensures { IsTrue result ↔ HidesSigns formatter.now }
{
    matches!(formatter.options.sign_display, SignDisplay::Never)
}

fn are_ordered(exponents: &CompactExponents) -> bool
    ensures { IsTrue result ↔ IsOrdered (Notation.Compact exponents.now) }
{
    let rows = &exponents.rows;
    for index in 0..16 {
        if rows[index] as usize > index + 3 {
            return false;
        }
        if rows[index] > rows[index + 1] {
            return false;
        }
    }
    rows[16] <= 19
}

/// Returns whether the exponents are those of compact patterns, and none is above its magnitude or above the next one.
pub(crate) fn has_compact_exponents(notation: &Notation) -> bool
    ensures { IsTrue result ↔ HasCompactExponents notation.now }
{
    match notation {
        Notation::Compact(exponents) => are_ordered(exponents),
        _ => false,
    }
}

impl CompactReader {
    /// Makes the reader of a formatter, by the texts of all its keys.
    pub(crate) fn new(
        formatter: NumberFormatter,
        style: CompactStyle,
        patterns: Vec<NumberPattern>,
        wholes: Vec<NumberPattern>,
        shift: i16,
    ) -> Self
        requires readable { IsReadable formatter.style.symbols }
        requires exponents { HasCompactExponents formatter.notation }
        requires patterns { AreWordPatterns formatter style true patterns.items }
        requires wholes { AreWordPatterns formatter style false wholes.items }
        requires named { AreNamed formatter.style.symbols patterns.items }
        requires shift { shift ≡ pos 0 -ℤ formatter.options.scale }
        ensures { result ≡ (formatter, style) }
    {
        let is_by_power = wholes.is_empty() && are_by_power(patterns.as_slice());
        let symbols = formatter.style.symbols.copied();
        let reader = AffixReader::new(symbols, patterns, formatter.rules, shift);
        CompactReader {
            formatter,
            style,
            reader,
            wholes,
            is_by_power,
        }
    }

    fn has_texts(&self, pattern: &NumberPattern, key: CompactKey) -> bool
        ensures { IsTrue result ↔ (pattern.now.affixes ≡ (word_pattern self.now.0 self.now.1 key).affixes) }
    {
        let outer = self.formatter.outer_around(key.whole);
        let inner = self.formatter.inner_at(self.style, key);
        pattern.affixes.is_around(&outer, &inner)
    }

    fn has_whole_category(&self, key: CompactKey) -> bool
        ensures { IsTrue result ↔ HasWholeCategory self.now.0 key }
    {
        if self.formatter.notation.exponent_at(key.magnitude) == 0 {
            return key.whole == key.category;
        }
        !self.formatter.holds_lone_number(key.whole)
    }

    fn has_texts_at(&self, pattern: &NumberPattern, key: CompactKey) -> bool
        ensures { IsTrue result ↔ HasTextsAt self.now.0 self.now.1 pattern.now key }
    {
        self.has_texts(pattern, key) && self.has_whole_category(key)
    }

    fn has_texts_of(&self, pattern: &NumberPattern, key: CompactKey) -> bool
        ensures { IsTrue result ↔ HasTextsOf self.now.0 self.now.1 pattern.now key }
    {
        if !self.formatter.has_number_in(self.style, key) {
            return false;
        }
        for index in 0..6 {
            let own = CompactKey {
                whole: category_at(index),
                ..key
            };
            if self.has_texts_at(pattern, own) {
                return true;
            }
        }
        false
    }

    fn has_power<D: DigitStore>(
        &self,
        pattern: &NumberPattern,
        value: &Signed<UnsignedOver<D>>,
    ) -> bool
        requires exponent { (pos 0 ≤ℤ pattern.now.exponent) × (pattern.now.exponent ≤ℤ pos 255) }
        ensures { IsTrue result ↔ HasPowerOf self.now.0 value.now.absolute pattern.now }
    {
        let magnitude = magnitude_by(value, pattern.exponent);
        are_same_powers(
            self.formatter.notation.exponent_at(magnitude),
            pattern.exponent,
        )
    }

    fn key<D: DigitStore>(
        &self,
        pattern: &NumberPattern,
        value: &Signed<UnsignedOver<D>>,
    ) -> CompactKey
        requires exponent { (pos 0 ≤ℤ pattern.now.exponent) × (pattern.now.exponent ≤ℤ pos 255) }
        requires power { HasPowerOf self.now.0 value.now.absolute pattern.now }
        ensures { IsKeyBy self.now.0 value.now.absolute pattern.now result }
    {
        CompactKey {
            magnitude: magnitude_by(value, pattern.exponent),
            category: self.reader.category(value),
            is_one: is_unit(value),
            whole: PluralCategory::Other,
            sign: pattern.sign,
        }
    }

    fn has_own_texts(&self, pattern: &NumberPattern, key: CompactKey) -> bool
        ensures { IsTrue result ↔ HasOwnTexts self.now.0 self.now.1 pattern.now key }
    {
        if self.has_texts_of(pattern, key) {
            return true;
        }
        let of_negative = CompactKey {
            is_one: false,
            ..key
        };
        hides_signs(&self.formatter) && self.has_texts_of(pattern, of_negative)
    }

    fn is_own<D: DigitStore>(
        &self,
        pattern: &NumberPattern,
        value: &Signed<UnsignedOver<D>>,
    ) -> bool
        requires exponent { (pos 0 ≤ℤ pattern.now.exponent) × (pattern.now.exponent ≤ℤ pos 255) }
        requires sign { pattern.now.sign ≡ value.now.sign }
        requires listed { IsPatternOf self.now.0 self.now.1 true pattern.now }
        ensures { IsTrue result ↔ IsOwnPattern self.now.0 self.now.1 value.now pattern.now }
    {
        if !self.has_power(pattern, value) {
            return false;
        }
        if self.is_by_power {
            return true;
        }
        self.has_own_texts(pattern, self.key(pattern, value))
    }

    fn own<D: DigitStore>(
        &self,
        pattern: &NumberPattern,
        value: Signed<UnsignedOver<D>>,
    ) -> Result<Signed<UnsignedOver<D>>, ParseError>
        requires exponent { (pos 0 ≤ℤ pattern.now.exponent) × (pattern.now.exponent ≤ℤ pos 255) }
        requires sign { pattern.now.sign ≡ value.sign }
        requires listed { IsPatternOf self.now.0 self.now.1 true pattern.now }
        ensures { IsOwnOr self.now.0 self.now.1 pattern.now value result }
    {
        if self.is_own(pattern, &value) {
            return times(pattern, value);
        }
        Err(ParseError::Syntax)
    }

    fn read_any<D: DigitStore>(
        &self,
        alloc: Global,
        text: &[u8],
    ) -> Result<Signed<UnsignedOver<D>>, ParseError>
        ensures { IsReadInAnyWords D.L self.now.0 self.now.1 text.now result }
    {
        let (value, pattern) = self.reader.read_pattern(alloc, text)?;
        times(pattern, value)
    }

    fn read_number<D: DigitStore>(
        &self,
        alloc: Global,
        text: &[u8],
    ) -> Result<Signed<UnsignedOver<D>>, ParseError>
        ensures { IsReadByNumber D.L self.now.0 self.now.1 text.now result }
    {
        let (value, pattern) = self.reader.read_pattern(alloc, text)?;
        self.own(pattern, value)
    }

    fn read_shown<D: DigitStore>(
        &self,
        alloc: Global,
        text: &[u8],
    ) -> Result<Signed<UnsignedOver<D>>, ParseError>
        ensures { IsReadShownInWords D.L self.now.0 self.now.1 text.now result }
    {
        match find_whole(self.wholes.as_slice(), text) {
            Some(pattern) => {
                let one = Signed::new(pattern.sign, UnsignedOver::one(alloc));
                times(pattern, one)
            }
            None => self.read_number(alloc, text),
        }
    }

    fn read_typed<D: DigitStore>(
        &self,
        alloc: Global,
        text: &[u8],
    ) -> Result<Signed<UnsignedOver<D>>, ParseError>
        ensures { IsReadOrAny D.L self.now.0 self.now.1 text.now result }
    {
        match self.read(alloc, text) {
            Ok(value) => Ok(value),
            Err(ParseError::Syntax) => self.reader.undo_scale(self.read_any(alloc, text)),
            Err(ParseError::Limit) => Err(ParseError::Limit),
            Err(ParseError::Memory) => Err(ParseError::Memory),
        }
    }

    /// Reads a number between the texts of compact notation, in exactly one of the forms that a formatter writes.
    ///
    /// The texts are those that the formatter has for the number: of its magnitude and plural category. In `en`,
    /// `1.25M` and `900` are accepted, and `1250K`, `0.5M`, `0K` and `1200` are `Syntax`. In `fr` `mille` is 1000.
    /// Beside a unit `1.2K days` is accepted, and `1.2K day` and `1 days` are `Syntax`.
    ///
    /// # Errors
    ///
    /// - `Syntax`: no decimal has this text, of any number of digits.
    /// - `Limit`: there are more than 32,768 integer or fraction digits, or the power of ten or the shift leaves these
    ///   limits.
    /// - `Memory`: out of memory; possible only with more than `L` digits.
    pub(crate) fn read<D: DigitStore>(
        &self,
        alloc: Global,
        text: &[u8],
    ) -> Result<Signed<UnsignedOver<D>>, ParseError>
        ensures { IsReadInWords D.L self.now.0 self.now.1 text.now result }
    {
        self.reader.undo_scale(self.read_shown(alloc, text))
    }

    /// Reads a number as people type it: as [`read`](Self::read) does, or else between the texts of any magnitude and
    /// category, as `1250K` and `0.5M`, or else with a typed word, as `1.2 k`, or without one by another reader.
    ///
    /// # Errors
    ///
    /// As for [`read`](Self::read).
    pub(crate) fn read_lenient<D: DigitStore>(
        &self,
        plain: &AffixReader<'_>,
        alloc: Global,
        alternatives: &[Alternative<'_>],
        text: &str,
    ) -> Result<Signed<UnsignedOver<D>>, ParseError>
        ensures { IsTypedInWords D.L self.now.0 self.now.1 plain.now alternatives.now text.now result }
    {
        match self.read_typed(alloc, text.as_bytes()) {
            Ok(value) => Ok(value),
            Err(ParseError::Syntax) => plain.undo_scale(
                self.formatter
                    .read_typed_word(self.style, plain, alloc, alternatives, text),
            ),
            Err(ParseError::Limit) => Err(ParseError::Limit),
            Err(ParseError::Memory) => Err(ParseError::Memory),
        }
    }
}
