//! Readers of what formatters write.
ghost use Rattle.std.specs.Prelude.{◌≡◌, ◌↔◌, ◌≤◌, ◌⊎◌, IsTrue, Some, None, ◌∷◌, [], ◌++◌, ◌-ℤ◌, pos, Ok, length, take, map, flat_map, IfOk, IfErr, OnOk, MatchOption};
ghost use Rattle.decimal_format.specs.Readable.{IsReadable};
ghost use Rattle.number_format.specs.{AffixedTexts.{AreNamed, shifted, IsReadTyped}, NumberReading.{KeepsNotation, CanReadExponents, CanReadWords, CanReadOther, CanReadNotation, HasPlainDigits, AreOwnWordsNamed, HasOwnWordClash, words_of, word_formatter, CanRead, CanUndo, CannotRead, percent_name, names_by, form, form_of, form_of_pattern, forms_of_name, patterns_of, number_reader_of, typed_forms, IsReadOrSaid, IsReadBy, IsReadStrictly, IsTypedBy, IsReadLeniently, IsReadInMode}, Scaled.HasNoIncrement, ScientificReading.exponent_form, WholeUnits.{said, IsSaidOr}};

use crate::digits::options::DigitOptions;
use crate::digits::precision::Precision;
use crate::format::formatter::NumberFormatter;
use crate::format::fraction::needs_no_integer;
use crate::format::outer::OuterTexts;
use crate::options::{DecimalSeparatorDisplay, NumberStyle};
use crate::read::affix_reader::AffixReader;
use crate::read::apart::{Clash, find_clash};
use crate::read::compact::{CompactReader, has_compact_exponents};
use crate::read::owned_affixes::OwnedAffixes;
use crate::read::pattern::NumberPattern;
use crate::read::pattern_name::PatternName;
use crate::read::scientific::ExponentForm;
use crate::read::unit_texts::{is_standard, number_said};
use decimal_format::Affixes;
use decimal_format::internal::Alternative;
use fixed_decimal::{DigitStore, ParseError, Sign, Signed, UnsignedOver};
use locale_data::CompactStyle;
use plural_rules::PluralCategory;
use std::alloc::{AllocError, Global};
use std::marker::Model;
use std::str;

/// Why the texts of a formatter cannot be read: the first of these that holds, or out of memory if none does.
#[derive(Clone, Copy, Debug, PartialEq, Eq)]
pub enum NumberReaderError {
    /// The place of the number or of its exponent is not certain:
    ///
    /// - A decimal separator without fraction digits or without integer digits is written.
    /// - In another notation than standard numbers are rounded to multiples of an increment, or integer digits are cut
    ///   off.
    /// - The notation is scientific or engineering, and the sign of the exponent is never written; or the text before
    ///   the exponent begins with a digit or a separator, or one of these with it.
    /// - The notation is compact, and a word is written without a number that is not of 1 alone. `mille` in French and
    ///   in Italian are of 1 alone: the one by its pattern, the other by its plural category. Such a word is read if it
    ///   has no digit, and no other sign or power of ten has the same text.
    Notation,
    /// The unit has a text without a number for numbers of a plural category, and the text is not certain to say one
    /// number.
    ///
    /// In Arabic `يومان` is two days, and -2 days unless no sign is ever written. Such a text is read in standard
    /// notation with [`SignDisplay::Never`](fixed_decimal::SignDisplay::Never), as 1 of the category `one` and as 2 of
    /// `two`. Then the category has no other number, the text has no digit, and it is not that of both categories. In
    /// other notations no text without a number is read.
    NoNumber(PluralCategory),
    /// The scale is -32768, which no scale undoes.
    Scale,
    /// The symbols are not readable: of two digits, separators or prefixes of signs one begins with the other.
    Symbols,
    /// The texts around numbers that have these names cannot be told apart, neither by their prefixes nor by their
    /// suffixes. They are the texts of two signs, of two categories of a unit or a name, or of two powers of ten.
    Affixes(PatternName, PatternName),
    /// Out of memory.
    Memory,
}

/// How strictly a text is read: in `de` both modes read `1.234,5`, and `1234,5` is read by `Lenient` alone.
#[derive(Clone, Copy, Debug, PartialEq)]
pub enum ParseMode {
    /// Exactly as numbers are formatted.
    Strict,
    /// As people type numbers.
    Lenient,
}

/// Texts around a number, and the sign that they show.
type Form = (OwnedAffixes, Sign);

/// Nothing around a number.
const NOTHING: Alternative<'static> = Alternative {
    prefix: "",
    suffix: "",
    sign: Sign::None,
};

fn alternative(form: &Form) -> Alternative<'_>
    ensures { form_of result ≡ form.now }
{
    let Affixes { prefix, suffix } = form.0.texts();
    Alternative {
        prefix,
        suffix,
        sign: form.1,
    }
}

fn push_form(
    forms: &mut Vec<Form>,
    alloc: Global,
    prefix: &[&str],
    suffix: &[&str],
    sign: Sign,
) -> Result<(), AllocError>
    ensures { OnOk result (forms.new.items ≡ forms.old.items
        ++ form (flat_map (λ t. t.now) prefix.now) (flat_map (λ t. t.now) suffix.now) sign ∷ []) }
{
    forms.push((OwnedAffixes::joined(alloc, prefix, suffix)?, sign))?;
    Ok(())
}

fn push_name(forms: &mut Vec<Form>, alloc: Global, name: &str) -> Result<(), AllocError>
    ensures { OnOk result (forms.new.items ≡ forms.old.items ++ forms_of_name name.now) }
{
    push_form(forms, alloc, &[name], &[], Sign::None)?;
    push_form(forms, alloc, &[name, " "], &[], Sign::None)?;
    push_form(forms, alloc, &[], &[name], Sign::None)?;
    push_form(forms, alloc, &[], &[" ", name], Sign::None)?;
    push_form(forms, alloc, &["-", name], &[], Sign::Negative)?;
    push_form(forms, alloc, &["-", name, " "], &[], Sign::Negative)?;
    push_form(forms, alloc, &["+", name], &[], Sign::Positive)?;
    push_form(forms, alloc, &["+", name, " "], &[], Sign::Positive)
}

fn push_patterns(
    forms: &mut Vec<Form>,
    alloc: Global,
    patterns: &[NumberPattern],
) -> Result<(), AllocError>
    ensures { OnOk result (forms.new.items ≡ forms.old.items ++ map form_of_pattern patterns.now) }
{
    for pattern in patterns {
        let Affixes { prefix, suffix } = pattern.affixes.texts();
        push_form(forms, alloc, &[prefix], &[suffix], pattern.sign)?;
    }
    Ok(())
}

fn percent_name(formatter: &NumberFormatter) -> &str
    ensures { result.now ≡ percent_name formatter.now formatter.now.outer }
{
    match formatter.outer {
        OuterTexts::None => formatter.style.percent.text,
        OuterTexts::Units(_) | OuterTexts::Names(_) => "",
    }
}

fn names(formatter: &NumberFormatter) -> (&str, &str, &str)
    ensures { result.0.now ∷ result.1.now ∷ result.2.now ∷ [] ≡ names_by formatter.now formatter.now.options.style }
{
    let currency = &formatter.style.currency;
    match formatter.options.style {
        NumberStyle::Decimal => ("", "", ""),
        NumberStyle::Percent | NumberStyle::Permille | NumberStyle::Unit(_) => {
            (percent_name(formatter), "", "")
        }
        NumberStyle::Currency(_) => (currency.wide, currency.narrow, currency.code.as_str()),
    }
}

fn forms(
    formatter: &NumberFormatter,
    patterns: &[NumberPattern],
    alloc: Global,
) -> Result<Vec<Form>, AllocError>
    requires { patterns.now ≡ patterns_of formatter.now }
    ensures forms { IfOk result (λ forms. forms.items ≡ typed_forms formatter.now) }
    ensures count { IfOk result (λ forms. length forms.items ≤ 44) }
{
    let (symbol, narrow, code) = names(formatter);
    let mut forms = Vec::new(alloc);
    push_patterns(&mut forms, alloc, patterns)?;
    push_form(&mut forms, alloc, &[], &[], Sign::None)?;
    push_form(&mut forms, alloc, &["("], &[")"], Sign::Negative)?;
    push_name(&mut forms, alloc, symbol)?;
    push_name(&mut forms, alloc, narrow)?;
    push_name(&mut forms, alloc, code)?;
    Ok(forms)
}

fn has_no_increment(precision: Precision) -> bool
    ensures { IsTrue result ↔ HasNoIncrement precision }
{
    !matches!(precision, Precision::Multiples(_))
}

fn keeps_notation(digits: &Option<DigitOptions>) -> bool
    ensures { IsTrue result ↔ KeepsNotation digits.now }
{
    match digits {
        Some(options) => options.integer.max == 32768 && has_no_increment(options.precision),
        None => false,
    }
}

fn can_read_exponents(formatter: &NumberFormatter) -> bool
    ensures { IsTrue result ↔ CanReadExponents formatter.now
        (exponent_form formatter.now formatter.now.options.notation) }
{
    match ExponentForm::of(formatter) {
        Some(form) => {
            keeps_notation(&formatter.digits) && form.can_read(&formatter.style.symbols)
        }
        None => false,
    }
}

fn can_read_words_of(formatter: &NumberFormatter, style: CompactStyle) -> bool
    ensures { IsTrue result ↔ CanReadWords formatter.now (Some style) }
{
    if !keeps_notation(&formatter.digits) {
        return false;
    }
    if !has_compact_exponents(&formatter.notation) {
        return false;
    }
    formatter.has_word_numbers(style)
}

fn can_read_words(formatter: &NumberFormatter) -> bool
    ensures { IsTrue result ↔ CanReadWords formatter.now (words_of formatter.now) }
{
    match formatter.options.compact_style() {
        Some(style) => can_read_words_of(formatter, style),
        None => false,
    }
}

fn can_read_other(formatter: &NumberFormatter) -> bool
    ensures { IsTrue result ↔ CanReadOther formatter.now }
{
    can_read_exponents(formatter) || can_read_words(formatter)
}

fn can_read_notation(formatter: &NumberFormatter) -> bool
    ensures { IsTrue result ↔ CanReadNotation formatter.now }
{
    is_standard(formatter.options.notation) || can_read_other(formatter)
}

fn has_plain_digits(formatter: &NumberFormatter) -> bool
    ensures { IsTrue result ↔ HasPlainDigits formatter.now }
{
    match formatter.options.decimal_separator {
        DecimalSeparatorDisplay::Auto => {
            !needs_no_integer(&formatter.digits) && can_read_notation(formatter)
        }
        DecimalSeparatorDisplay::Always => false,
    }
}

fn shift(formatter: &NumberFormatter) -> Result<i16, NumberReaderError>
    ensures value { IfOk result (λ shift. shift ≡ pos 0 -ℤ formatter.now.options.scale) }
    ensures ok { OnOk result (CanUndo formatter.now) }
    ensures err { IfErr result (λ e. CannotRead e formatter.now) }
{
    if !has_plain_digits(formatter) {
        return Err(NumberReaderError::Notation);
    }
    if let Some(category) = formatter.category_without_number() {
        return Err(NumberReaderError::NoNumber(category));
    }
    let scale = formatter.options.scale;
    scale.checked_neg().ok_or(NumberReaderError::Scale)
}

/// Reads the numbers that a [`NumberFormatter`] writes. Making it allocates, reading a short text does not.
///
/// ```
/// let formatter = NumberFormatter::try_new("de", options)?; // EUR
/// let reader = formatter.reader(alloc)?;
/// reader.read(alloc, "-1.234,50\u{a0}€".as_bytes())?; // -1234.50
/// ```
///
/// The texts of a unit or of the name of a currency are read too: `3 Tage` of days in German is 3.
pub struct NumberReader {
    /// The texts of the unit, of which some may have no number.
    units: OuterTexts,
    reader: AffixReader<'static>,
    /// How exponents are written, if the notation has them.
    exponent: Option<ExponentForm<'static>>,
    /// What reads words, if the notation has them.
    words: Option<CompactReader>,
    forms: Vec<Form>,
}

// Not derived: a derived drop is proved again wherever a value is dropped.
impl Drop for NumberReader {
    fn drop(self) {
        let NumberReader {
            units: _,
            reader,
            exponent: _,
            words,
            forms,
        } = self;
        drop(reader);
        drop(words);
        drop(forms);
    }
}

impl Model for NumberReader {
    ghost use Rattle.std.specs.Prelude.{◌≤◌, length, IfSome};
    ghost use Rattle.number_format.specs.{NumberReading.NumberReader, ScientificReading.IsSeparatorApart};

    ghost Value = { NumberReader };

    ghost view = { λ s. record {
      units = s.units;
      texts = s.reader;
      exponent = s.exponent;
      words = s.words;
      forms = s.forms.items;
    } };

    ghost invariant = { λ s. (length s.forms.items ≤ 44)
        × IfSome s.exponent (λ form. IsSeparatorApart s.reader.symbols form.separator.now) };
}

impl NumberFormatter {
    fn clash_of_own_words(&self) -> Option<Clash>
        requires undo { CanUndo self.now }
        requires readable { IsReadable self.now.style.symbols }
        ensures { MatchOption result (AreOwnWordsNamed self.now (words_of self.now))
            (HasOwnWordClash self.now (words_of self.now)) }
    {
        match self.options.compact_style() {
            Some(style) => self.clash_of_words(style),
            None => None,
        }
    }

    fn words(&self, alloc: Global, shift: i16) -> Result<Option<CompactReader>, NumberReaderError>
        requires undo { CanUndo self.now }
        requires readable { IsReadable self.now.style.symbols }
        requires shift { shift ≡ pos 0 -ℤ self.now.options.scale }
        ensures ok { IfOk result (λ words. (words ≡ word_formatter self.now)
            × AreOwnWordsNamed self.now (words_of self.now)) }
        ensures err { IfErr result (λ e. CannotRead e self.now) }
    {
        let Some(style) = self.options.compact_style() else {
            return Ok(None);
        };
        let Ok(patterns) = self.word_patterns(alloc, style, true) else {
            return Err(self.patterns_error());
        };
        if let Some((first, second)) = find_clash(&self.style.symbols, patterns.as_slice()) {
            return Err(NumberReaderError::Affixes(first, second));
        }
        let Ok(wholes) = self.word_patterns(alloc, style, false) else {
            return Err(self.patterns_error());
        };
        Ok(Some(CompactReader::new(self.copied(), style, patterns, wholes, shift)))
    }

    fn patterns_error(&self) -> NumberReaderError
        requires undo { CanUndo self.now }
        requires readable { IsReadable self.now.style.symbols }
        ensures { CannotRead result self.now }
    {
        if let Some((first, second)) = self.clash_of_keys(self.pattern_keys()) {
            return NumberReaderError::Affixes(first, second);
        }
        match self.clash_of_own_words() {
            Some((first, second)) => NumberReaderError::Affixes(first, second),
            None => NumberReaderError::Memory,
        }
    }

    fn named_patterns(&self, alloc: Global) -> Result<Vec<NumberPattern>, NumberReaderError>
        requires undo { CanUndo self.now }
        requires readable { IsReadable self.now.style.symbols }
        ensures ok { IfOk result (λ patterns. (patterns.items ≡ patterns_of self.now)
            × AreNamed self.now.style.symbols patterns.items) }
        ensures err { IfErr result (λ e. CannotRead e self.now) }
    {
        let Ok(patterns) = self.number_patterns(alloc) else {
            return Err(self.patterns_error());
        };
        if let Some((first, second)) = find_clash(&self.style.symbols, patterns.as_slice()) {
            return Err(NumberReaderError::Affixes(first, second));
        }
        Ok(patterns)
    }

    /// Makes the reader of what this formatter writes. The formatter stays.
    ///
    /// # Errors
    ///
    /// - `Memory`: out of memory, though the texts of the formatter can be read.
    /// - Others: the texts of the formatter do not have one meaning each.
    pub fn reader(&self, alloc: Global) -> Result<NumberReader, NumberReaderError>
        ensures ok { IfOk result (λ r. (r ≡ number_reader_of self.now) × CanRead self.now) }
        ensures err { IfErr result (λ e. CannotRead e self.now) }
    {
        let shift = shift(self)?;
        if !self.style.symbols.is_readable() {
            return Err(NumberReaderError::Symbols);
        }
        let patterns = self.named_patterns(alloc)?;
        let words = self.words(alloc, shift)?;
        let Ok(forms) = forms(self, patterns.as_slice(), alloc) else {
            return Err(NumberReaderError::Memory);
        };
        let reader = AffixReader::new(self.style.symbols.copied(), patterns, self.rules, shift);
        let exponent = ExponentForm::of(self);
        Ok(NumberReader {
            units: self.outer,
            reader,
            exponent,
            words,
            forms,
        })
    }
}

impl NumberReader {
    fn alternatives(&self) -> [Alternative<'_>; 44]
        ensures { map form_of (take (length self.now.forms) result) ≡ self.now.forms }
    {
        let forms = self.forms.as_slice();
        let mut alternatives = [NOTHING; 44];
        for index in 0..forms.len() {
            alternatives[index] = alternative(&forms[index]);
        }
        alternatives
    }

    fn said<D: DigitStore>(
        &self,
        alloc: Global,
        number: u8,
    ) -> Result<Signed<UnsignedOver<D>>, ParseError>
        ensures { result ≡ shifted self.now.texts.shift (Ok (said number)) }
    {
        let value = UnsignedOver::from_u8(alloc, number);
        let said = Signed::new(Sign::None, value);
        self.reader.undo_scale(Ok(said))
    }

    fn read_standard<D: DigitStore>(
        &self,
        alloc: Global,
        text: &[u8],
    ) -> Result<Signed<UnsignedOver<D>>, ParseError>
        ensures { IsReadOrSaid D.L self.now.units self.now.texts text.now result }
    {
        match number_said(&self.units, text) {
            Some(number) => self.said(alloc, number),
            None => self.reader.read(alloc, text),
        }
    }

    fn read_words<D: DigitStore>(
        &self,
        alloc: Global,
        text: &[u8],
    ) -> Result<Signed<UnsignedOver<D>>, ParseError>
        ensures { IsReadBy D.L self.now.units self.now.texts None self.now.words text.now result }
    {
        match &self.words {
            Some(words) => words.read(alloc, text),
            None => self.read_standard(alloc, text),
        }
    }

    /// Reads a number in exactly one of the forms that the formatter writes, and undoes its scale: by style `Percent`
    /// and scale 2 `12.5%` is 0.125.
    ///
    /// The number may have all grouping separators, or none. Around it are the texts of its plural category: `1 days`
    /// is `Syntax`. The value is the one that is shown: rounded, and with the sign that is written. A text of a unit
    /// without a number is the number that it says: in Arabic `يومان` is 2.
    ///
    /// In scientific and engineering notation the text has the exponent that the notation has for the number, with its
    /// sign and its least number of digits: `1.2E3` is 1200, and `12E3`, `1E03` and `1200` are `Syntax`. The plural
    /// category is that of the number with its exponent: in `fr` 0.001 is `1E-3 kilomètres`.
    ///
    /// In compact notation it has the words of the number's magnitude and plural category: in `en`, `1.25M` is 1250000,
    /// and `1250K`, `0.5M` and `1200` are `Syntax`. The value is the significand times the power of ten. A word without
    /// a number, as `mille` in French, is 1 times its power of ten. The text of a unit, of the name of a currency or of
    /// percent is that of the number before it was rounded, which the text does not show. After a word it may be that
    /// of any plural category but those of 1 alone and of 2 alone: `1.2K days` is read, and `1.2K day` is `Syntax`.
    ///
    /// # Errors
    ///
    /// - `Syntax`: no decimal has this text, of any number of digits.
    /// - `Limit`: there are more than 32,768 integer or fraction digits, or the exponent or the scale leaves these
    ///   limits.
    /// - `Memory`: out of memory; possible only with more than `L` digits.
    pub fn read<D: DigitStore>(
        &self,
        alloc: Global,
        text: &[u8],
    ) -> Result<Signed<UnsignedOver<D>>, ParseError>
        ensures { IsReadStrictly D.L self.now text.now result }
    {
        match &self.exponent {
            Some(form) => self.reader.read_with_exponent(form, alloc, text),
            None => self.read_words(alloc, text),
        }
    }

    fn read_typed_standard<D: DigitStore>(
        &self,
        alloc: Global,
        alternatives: &[Alternative<'_>],
        text: &str,
    ) -> Result<Signed<UnsignedOver<D>>, ParseError>
        ensures { IsSaidOr self.now.units self.now.texts.shift text.now
            (IsReadTyped D.L self.now.texts alternatives.now text.now) result }
    {
        match number_said(&self.units, text.as_bytes()) {
            Some(number) => self.said(alloc, number),
            None => self.reader.read_lenient(alloc, alternatives, text),
        }
    }

    fn read_typed_words<D: DigitStore>(
        &self,
        alloc: Global,
        alternatives: &[Alternative<'_>],
        text: &str,
    ) -> Result<Signed<UnsignedOver<D>>, ParseError>
        ensures { IsTypedBy D.L self.now.units self.now.texts None self.now.words alternatives.now text.now result }
    {
        match &self.words {
            Some(words) => words.read_lenient(&self.reader, alloc, alternatives, text),
            None => self.read_typed_standard(alloc, alternatives, text),
        }
    }

    fn read_typed<D: DigitStore>(
        &self,
        alloc: Global,
        alternatives: &[Alternative<'_>],
        text: &str,
    ) -> Result<Signed<UnsignedOver<D>>, ParseError>
        ensures { IsTypedBy D.L self.now.units self.now.texts self.now.exponent self.now.words alternatives.now text.now
            result }
    {
        match &self.exponent {
            Some(form) => {
                self.reader
                    .read_lenient_with_exponent(form, alloc, alternatives, text)
            }
            None => self.read_typed_words(alloc, alternatives, text),
        }
    }

    /// Reads a number as people type it, and undoes the scale.
    ///
    /// A text that [`read`](Self::read) accepts has the same value. In compact notation, else the words may be those of
    /// any magnitude and category: `1250K` is 1250000, and `0.5M` is 0500000. Else, if no unit and no name of a
    /// currency is written, a word after the last digit is taken out, and white space after it: `1.2 k` is 1200. If the
    /// formatter writes the word before the number, the text begins with it: `Elfu1.2` is 1200 in `sw`. White space,
    /// direction marks and periods in the word do not matter, nor does the case of each letter. If words of different
    /// powers of ten fit, or a word and none, the text is `Syntax`; so is one of which more than 255 bytes are left
    /// before and after a word.
    ///
    /// Else, or without the word, the number has no exponent, and is as
    /// [`DecimalSymbols::read_lenient`](decimal_format::DecimalSymbols::read_lenient) accepts it. Around it may be what
    /// the formatter writes, of any plural category, nothing, or parentheses for a minus sign; or, on either side and
    /// with a space or without, the symbol, the narrow symbol or the code of the currency, or the percent sign, also
    /// after a sign. Two signs, two symbols and another currency are `Syntax`.
    ///
    /// # Errors
    ///
    /// As for [`read`](Self::read).
    pub fn read_lenient<D: DigitStore>(
        &self,
        alloc: Global,
        text: &str,
    ) -> Result<Signed<UnsignedOver<D>>, ParseError>
        ensures { IsReadLeniently D.L self.now text.now result }
    {
        let alternatives = self.alternatives();
        let count = self.forms.len();
        self.read_typed(alloc, &alternatives[..count], text)
    }

    /// Reads a number in a mode: by [`read`](Self::read), or by [`read_lenient`](Self::read_lenient).
    ///
    /// # Errors
    ///
    /// As for these; leniently, a text that is not UTF-8 is `Syntax`.
    pub fn read_utf8<D: DigitStore>(
        &self,
        alloc: Global,
        mode: ParseMode,
        text: &[u8],
    ) -> Result<Signed<UnsignedOver<D>>, ParseError>
        ensures { IsReadInMode D.L mode self.now text.now result }
    {
        match mode {
            ParseMode::Strict => self.read(alloc, text),
            ParseMode::Lenient => match str::from_utf8(text) {
                Ok(text) => self.read_lenient(alloc, text),
                Err(_) => Err(ParseError::Syntax),
            },
        }
    }
}
