//! A number as a locale writes it.
ghost use Rattle.std.specs.{Prelude.{◌≡◌, ◌↔◌, ◌≤◌, ◌++◌, ℕ, length, None, Some, IsTrue, IfSome, IfNone, IsErrOf, OnOk, OnErr, true, false, []}, Option.option_copied, Io.KnownBytes.Appends};
ghost use Rattle.decimal_digits.specs.AppendsPrefix.{AppendsPrefix};
ghost use Rattle.fixed_decimal.specs.Decimal.{Decimal, displayed_sign};
ghost use Rattle.decimal_format.specs.{Formatted.{formatted_absolute}, declared.grouping.GroupingStrategy.TheVariants.Never};
ghost use Rattle.locale_data.specs.Compact.{AreTexts};
ghost use Rattle.number_format.specs.{FormattedNumbers.{digits_of, hides_zero_of, pattern_of, around_of, outer_of, exponent_text, number_text, number_pieces_if, separator_of, significand_text, around_text, inner_text_if, formatted_number_pieces, formatted_number_text, ChoosesWhole, IsNumberAround, IsOuter, IsShownNumber}, NumberText.{compact_around, exponent_of, shown_number, AreParts, AreNumberPieces, WritingNeedsMemory}, PatternTexts.{around, pattern_around}, TextParts.{pieces_text, Puts, PutsPrefix}, TextSpans.{number_spans_pieces, spans_pieces, spans_text}};

use crate::format::affixes::NumberAffixes;
use crate::format::compact::CompactChoice;
use crate::format::exponent::{exponent_kind, shown_exponent};
use crate::format::formatter::NumberFormatter;
use crate::format::fraction::hides_zero;
use crate::format::number_spans::{InnerSpans, NO_NUMBER, NumberSpans};
use crate::format::outer::{OuterAround, OuterTexts};
use crate::format::parts::{PartSink, push_parts};
use crate::format::text_part::{PartKind, TextPart};
use crate::format::text_span::{DigitSpan, TextSpan};
use crate::notation::scale::ShownNumber;
use crate::options::{DecimalSeparatorDisplay, NumberNotation, NumberStyle};
use decimal_format::internal::{Block, put_to_block};
use decimal_format::{FormattedAbsolute, GroupingStrategy};
use fixed_decimal::{
    Decimal, DecimalStore, RoundError, Sign, SignDisplay, Sink, SinkFault, Writeable,
};
use locale_data::{CompactForm, CompactPattern};
use plural_rules::PluralCategory;
use std::alloc::Global;
use std::fmt;

pub(crate) fn displayed_sign(display: SignDisplay, is_zero: bool, sign: Sign) -> Sign
    ensures { (number : ℕ) → (IsTrue is_zero ↔ (number ≡ 0)) → result ≡ displayed_sign display number sign }
{
    match (display, sign) {
        (SignDisplay::Never, _) => Sign::None,
        (SignDisplay::ExceptZero | SignDisplay::Negative, _) if is_zero => Sign::None,
        (_, Sign::Negative) => sign,
        (SignDisplay::Auto | SignDisplay::Negative, _) => Sign::None,
        (SignDisplay::Always | SignDisplay::ExceptZero, _) => Sign::Positive,
    }
}

/// A number as a locale writes it: 1234.5 in `de` is `1.234,5`. It borrows the formatter.
pub struct FormattedNumber<'f> {
    pub(crate) formatter: &'f NumberFormatter,
    pub(crate) alloc: Global,
    /// The significand, with the sign that is shown.
    pub(crate) value: Decimal,
    pub(crate) exponent: i32,
    pub(crate) choice: CompactChoice,
    /// The plural category of the whole number, by which a unit or a name is chosen.
    pub(crate) whole: PluralCategory,
}

impl<'f> Drop for FormattedNumber<'f> {
    fn drop(self) {
        let FormattedNumber {
            formatter: _,
            alloc: _,
            value,
            exponent: _,
            choice: _,
            whole: _,
        } = self;
        drop(value);
    }
}

/// What is around a number, and its exponent: made once for all spans of the text.
struct NumberAround<'n> {
    outer: OuterAround<'n>,
    affixes: NumberAffixes<'n>,
    /// The exponent that is shown.
    exponent: Option<Decimal>,
}

impl<'n> Drop for NumberAround<'n> {
    fn drop(self) {
        let NumberAround {
            outer: _,
            affixes: _,
            exponent,
        } = self;
        drop(exponent);
    }
}

impl<'f> FormattedNumber<'f> {
    /// Chooses what is written around a significand and its exponent, and sets the sign that is shown.
    pub(crate) fn choose(&mut self, shown: ShownNumber, whole: PluralCategory)
        ensures { (v : Decimal) → IsShownNumber self.old.formatter.now v self.old.value shown
            → ChoosesWhole self.old.formatter.now v whole
            → AreNumberPieces self.old.formatter.now v (formatted_number_pieces self.new) }
    {
        let formatter = self.formatter;
        let display = formatter.options.sign_display;
        self.choice = formatter.choice(&self.value, shown.exponent);
        self.whole = formatter.outer_category(&self.value, whole);
        self.exponent = shown.exponent;
        self.value.sign = displayed_sign(display, shown.is_zero, self.value.sign);
    }

    // The value becomes the significand in place: a copy has to wait until its digits are stored.
    #[inline(never)]
    pub(crate) fn round(&mut self) -> Result<(), RoundError>
        ensures pieces { OnOk result
            (AreNumberPieces self.old.formatter.now self.old.value (formatted_number_pieces self.new)) }
        ensures limit { IsErrOf result RoundError.Limit
            → shown_number self.old.formatter.now self.old.value ≡ None }
        ensures memory { IsErrOf result RoundError.Memory
            → WritingNeedsMemory self.old.formatter.now self.old.value }
    {
        let formatter = self.formatter;
        let whole = formatter.whole_category(&self.value)?;
        let shown = formatter.shown_number(&mut self.value)?;
        self.choose(shown, whole);
        Ok(())
    }

    pub(crate) fn compact_pattern(&self) -> Option<&'static CompactPattern>
        ensures value { option_copied result ≡ pattern_of self.now }
        ensures texts { IfSome result (λ pattern. AreTexts pattern.now) }
    {
        let choice = self.choice;
        match self.formatter.options.compact_style() {
            Some(_) => choice.patterns.pattern(choice.category, choice.is_one),
            None => None,
        }
    }

    pub(crate) fn outer_around(&self) -> OuterAround<'_>
        ensures { IsOuter (outer_of self.now) result }
    {
        self.formatter.outer_around(self.whole)
    }

    #[inline(never)]
    pub(crate) fn shown_exponent(&self) -> Option<Decimal>
        ensures { result ≡ exponent_of self.now.formatter.now.options.notation self.now.exponent }
    {
        match self.formatter.options.notation {
            NumberNotation::Scientific(options) | NumberNotation::Engineering(options) => {
                Some(shown_exponent(self.alloc, options, self.exponent))
            }
            _ => None,
        }
    }

    pub(crate) fn affixes(&self) -> NumberAffixes<'_>
        ensures { AreParts (around_of self.now) result }
    {
        let style = &self.formatter.style;
        style.affixes(self.value.sign, self.compact_pattern())
    }

    #[inline]
    fn digits(&self) -> FormattedAbsolute<'_, DecimalStore>
        ensures { result ≡ formatted_absolute self.now.formatter.now.style.symbols
            self.now.formatter.now.options.grouping self.now.value.absolute }
    {
        let formatter = self.formatter;
        let grouping = formatter.options.grouping;
        FormattedAbsolute::new(&formatter.style.symbols, grouping, &self.value.absolute)
    }

    fn separator(&self) -> &str
        ensures value { result.now ≡ separator_of self.now }
        ensures short { length result.now ≤ 255 }
    {
        let formatter = self.formatter;
        match formatter.options.decimal_separator {
            DecimalSeparatorDisplay::Always if self.value.absolute.lowest() >= 0 => {
                formatter.style.symbols.decimal_separator()
            }
            _ => "",
        }
    }

    fn exponent_digits<'g>(&'g self, exponent: &'g Decimal) -> FormattedAbsolute<'g, DecimalStore>
        ensures { result ≡ formatted_absolute self.now.formatter.now.style.symbols Never exponent.now.absolute }
    {
        let symbols = &self.formatter.style.symbols;
        FormattedAbsolute::new(symbols, GroupingStrategy::Never, &exponent.absolute)
    }

    #[inline(always)]
    fn hides_zero(&self) -> bool
        ensures { result ≡ hides_zero_of self.now }
    {
        let formatter = self.formatter;
        let display = formatter.options.decimal_separator;
        hides_zero(&formatter.digits, display, &self.value.absolute)
    }

    fn push_exponent(&self, exponent: &Decimal, block: &mut Block) -> Result<(), SinkFault>
        ensures { OnOk result
            (block.new.0 ≡ block.old.0 ++ exponent_text self.now.formatter.now (Some exponent.now)) }
    {
        let formatter = self.formatter;
        block.put_bytes(formatter.separator.text.as_bytes())?;
        let sign = formatter.style.symbols.affixes(exponent.sign).prefix;
        block.put_bytes(sign.as_bytes())?;
        put_to_block(&self.exponent_digits(exponent), block)
    }

    /// Appends the digits, but not those of a number that begins with the decimal separator.
    #[inline(always)]
    fn push_digits(&self, block: &mut Block) -> Result<(), SinkFault>
        ensures { OnOk result (block.new.0 ≡ block.old.0 ++ digits_of self.now) }
    {
        if self.hides_zero() {
            return Err(SinkFault);
        }
        put_to_block(&self.digits(), block)
    }

    #[inline(always)]
    fn push_separator(&self, block: &mut Block) -> Result<(), SinkFault>
        ensures { OnOk result (block.new.0 ≡ block.old.0 ++ separator_of self.now) }
    {
        match self.formatter.options.decimal_separator {
            DecimalSeparatorDisplay::Auto => Ok(()),
            DecimalSeparatorDisplay::Always => block.put_bytes(self.separator().as_bytes()),
        }
    }

    #[inline(always)]
    fn push_significand(&self, block: &mut Block) -> Result<(), SinkFault>
        ensures { OnOk result (block.new.0 ≡ block.old.0 ++ significand_text self.now) }
    {
        self.push_digits(block)?;
        self.push_separator(block)
    }

    #[inline(always)]
    fn push_shown_exponent(&self, block: &mut Block) -> Result<(), SinkFault>
        ensures { OnOk result (block.new.0 ≡ block.old.0 ++ exponent_text self.now.formatter.now
            (exponent_of self.now.formatter.now.options.notation self.now.exponent)) }
    {
        match self.formatter.options.notation {
            NumberNotation::Scientific(options) | NumberNotation::Engineering(options) => {
                let exponent = shown_exponent(self.alloc, options, self.exponent);
                self.push_exponent(&exponent, block)
            }
            _ => Ok(()),
        }
    }

    #[inline(always)]
    pub(crate) fn put_digits(&self, block: &mut Block) -> Result<(), SinkFault>
        ensures { OnOk result (block.new.0 ≡ block.old.0 ++ number_text self.now) }
    {
        self.push_significand(block)?;
        self.push_shown_exponent(block)
    }

    fn put_compact(&self, pattern: &CompactPattern, block: &mut Block) -> Result<(), SinkFault>
        requires { AreTexts pattern.now }
        ensures { OnOk result (block.new.0 ≡ block.old.0 ++ around_text self.now
            (compact_around self.now.formatter.now.style self.now.value.sign pattern.now)) }
    {
        let formatter = self.formatter;
        formatter
            .style
            .put_compact_prefix(self.value.sign, pattern, block)?;
        if !matches!(pattern.form, CompactForm::Literal) {
            self.put_digits(block)?;
        }
        formatter.style.put_compact_suffix(&pattern.suffix, block)
    }

    #[inline(always)]
    fn put_pattern(&self, block: &mut Block) -> Result<(), SinkFault>
        ensures { OnOk result (block.new.0 ≡ block.old.0 ++ around_text self.now
            (pattern_around self.now.formatter.now.style self.now.value.sign)) }
    {
        let style = &self.formatter.style;
        style.put_prefix(self.value.sign, block)?;
        self.put_digits(block)?;
        style.put_suffix(self.value.sign, block)
    }

    #[inline(always)]
    pub(crate) fn put_around(&self, block: &mut Block) -> Result<(), SinkFault>
        ensures { OnOk result (block.new.0 ≡ block.old.0 ++ around_text self.now (around_of self.now)) }
    {
        match self.compact_pattern() {
            Some(pattern) if !matches!(pattern.form, CompactForm::Plain) => {
                self.put_compact(pattern, block)
            }
            _ => self.put_pattern(block),
        }
    }

    /// Returns the compact pattern, if it is not written by the pattern of the style.
    #[inline(always)]
    fn compact_affixes(&self) -> Option<&'static CompactPattern>
        ensures texts { IfSome result (λ pattern. AreTexts pattern.now) }
        ensures some { IfSome result (λ pattern. around_of self.now
            ≡ compact_around self.now.formatter.now.style self.now.value.sign pattern.now) }
        ensures none { IfNone result (around_of self.now
            ≡ pattern_around self.now.formatter.now.style self.now.value.sign) }
    {
        match self.compact_pattern() {
            Some(pattern) if !matches!(pattern.form, CompactForm::Plain) => Some(pattern),
            _ => None,
        }
    }

    /// Returns whether the number is written between its affixes.
    pub(crate) fn has_number(&self) -> bool
        ensures { result ≡ (around_of self.now).has_number }
    {
        match self.compact_affixes() {
            Some(pattern) => !matches!(pattern.form, CompactForm::Literal),
            None => true,
        }
    }

    /// Appends what is before the number.
    pub(crate) fn put_prefix(&self, block: &mut Block) -> Result<(), SinkFault>
        ensures { OnOk result (block.new.0 ≡ block.old.0 ++ pieces_text (around_of self.now).prefix) }
    {
        let style = &self.formatter.style;
        match self.compact_affixes() {
            Some(pattern) => style.put_compact_prefix(self.value.sign, pattern, block),
            None => style.put_prefix(self.value.sign, block),
        }
    }

    /// Appends what is after the number.
    pub(crate) fn put_suffix(&self, block: &mut Block) -> Result<(), SinkFault>
        ensures { OnOk result (block.new.0 ≡ block.old.0 ++ pieces_text (around_of self.now).suffix) }
    {
        let style = &self.formatter.style;
        match self.compact_affixes() {
            Some(pattern) => style.put_compact_suffix(&pattern.suffix, block),
            None => style.put_suffix(self.value.sign, block),
        }
    }

    #[inline(always)]
    pub(crate) fn has_outer(&self) -> bool
        ensures { result ≡ false → outer_of self.now ≡ around [] true [] }
    {
        let formatter = self.formatter;
        match (&formatter.outer, formatter.options.style) {
            (OuterTexts::None, NumberStyle::Percent | NumberStyle::Permille) => {
                formatter.options.compact_style().is_some()
            }
            (OuterTexts::None, _) => false,
            _ => true,
        }
    }

    // Not inlined: most numbers have no unit.
    #[inline(never)]
    fn put_around_if(&self, has_number: bool, block: &mut Block) -> Result<(), SinkFault>
        ensures { OnOk result (block.new.0 ≡ block.old.0 ++ inner_text_if self.now has_number) }
    {
        if !has_number {
            return Ok(());
        }
        self.put_around(block)
    }

    fn put_with_outer(&self, block: &mut Block) -> Result<(), SinkFault>
        ensures { OnOk result (block.new.0 ≡ block.old.0 ++ formatted_number_text self.now) }
    {
        let outer = self.outer_around();
        push_parts(&outer.before, block)?;
        self.put_around_if(outer.has_number, block)?;
        push_parts(&outer.after, block)
    }

    #[inline(always)]
    pub(crate) fn put_text(&self, block: &mut Block) -> Result<(), SinkFault>
        ensures { OnOk result (block.new.0 ≡ block.old.0 ++ formatted_number_text self.now) }
    {
        if self.has_outer() {
            return self.put_with_outer(block);
        }
        self.put_around(block)
    }

    /// Returns the spans of the number, if it is written. The exponent is that which is shown.
    pub(crate) fn number_spans<'n>(
        &'n self,
        has_number: bool,
        exponent: &'n Option<Decimal>,
    ) -> NumberSpans<'n>
        requires { exponent.now ≡ exponent_of self.now.formatter.now.options.notation self.now.exponent }
        ensures { number_spans_pieces result ≡ number_pieces_if self.now has_number }
    {
        if !has_number {
            return NO_NUMBER;
        }
        let formatter = self.formatter;
        let symbols = &formatter.style.symbols;
        let digits = TextSpan::Digits(DigitSpan {
            symbols,
            strategy: formatter.options.grouping,
            value: &self.value.absolute,
            whole: PartKind::Integer,
            is_hidden: self.hides_zero(),
        });
        let separator = TextSpan::Part(TextPart::new(PartKind::Decimal, self.separator()));
        let Some(exponent) = exponent else {
            return NumberSpans {
                digits,
                separator,
                ..NO_NUMBER
            };
        };
        let sign = symbols.affixes(exponent.sign).prefix;
        let exponent_sign = TextSpan::Part(TextPart::new(exponent_kind(exponent.sign), sign));
        let separator_text = formatter.separator.text;
        let exponent_separator = TextSpan::Part(TextPart::new(
            PartKind::ExponentSeparator,
            separator_text,
        ));
        let exponent = TextSpan::Digits(DigitSpan {
            symbols,
            strategy: GroupingStrategy::Never,
            value: &exponent.absolute,
            whole: PartKind::ExponentInteger,
            is_hidden: false,
        });
        NumberSpans {
            digits,
            separator,
            exponent_separator,
            exponent_sign,
            exponent,
        }
    }

    /// Returns what is around the number, and its exponent.
    fn around(&self) -> NumberAround<'_>
        ensures { IsNumberAround self.now result }
    {
        let (outer, affixes) = (self.outer_around(), self.affixes());
        NumberAround {
            outer,
            affixes,
            exponent: self.shown_exponent(),
        }
    }

    fn spans<'n>(&'n self, around: &'n NumberAround<'n>) -> [TextSpan<'n>; 9]
        requires { IsNumberAround self.now around.now }
        ensures pieces { spans_pieces result ≡ formatted_number_pieces self.now }
        ensures text { spans_text result ≡ formatted_number_text self.now }
    {
        let (outer, affixes) = (&around.outer, &around.affixes);
        let number = self.number_spans(affixes.has_number, &around.exponent);
        let inner = InnerSpans::between(&affixes.prefix, number, &affixes.suffix);
        let before = TextSpan::joined(outer.kind, &outer.before);
        let after = TextSpan::joined(outer.kind, &outer.after);
        inner.if_shown(outer.has_number).within(before, after)
    }

    #[inline(never)]
    fn write_spans<W: Sink>(&self, sink: &mut W) -> Result<(), SinkFault>
        ensures ok { OnOk result
            (Appends (W.contents sink.old) (W.contents sink.new) (formatted_number_text self.now)) }
        ensures err { OnErr result
            (AppendsPrefix (W.contents sink.old) (W.contents sink.new) (formatted_number_text self.now)) }
        ensures failed { OnErr result (W.has_failed sink.new ≡ true) }
    {
        let around = self.around();
        TextSpan::write_all(&self.spans(&around), sink)
    }

    /// Puts the pieces of the text with their kinds: consecutive pieces of one kind are one part of `formatToParts` of
    /// ECMA-402. It does not allocate.
    ///
    /// # Errors
    ///
    /// The sink rejects a piece; those before it were put.
    pub fn parts<P: PartSink>(&self, sink: &mut P) -> Result<(), SinkFault>
        ensures pieces { OnOk result
            (Puts (P.pieces sink.old) (P.pieces sink.new) (formatted_number_pieces self.now)) }
        ensures text { pieces_text (formatted_number_pieces self.now) ≡ formatted_number_text self.now }
        ensures prefix { OnErr result
            (PutsPrefix (P.pieces sink.old) (P.pieces sink.new) (formatted_number_pieces self.now)) }
        ensures failed { OnErr result (P.has_failed sink.new ≡ true) }
    {
        let around = self.around();
        TextSpan::put_all(&self.spans(&around), sink)
    }
}

impl<'f> Writeable for FormattedNumber<'f> {
    ghost text = { formatted_number_text };

    /// Appends the text.
    ///
    /// # Errors
    ///
    /// As [`Writeable::write_to`].
    #[inline]
    fn write_to<W: Sink>(&self, sink: &mut W) -> Result<(), SinkFault> {
        if sink.failed() {
            return Err(SinkFault);
        }
        let mut block = Block::new();
        match self.put_text(&mut block) {
            Ok(()) => sink.put_bytes(block.as_bytes()),
            Err(SinkFault) => self.write_spans(sink),
        }
    }

    /// Returns the exact number of bytes of the text.
    fn writeable_length_hint(&self) -> usize {
        let around = self.around();
        TextSpan::length_of_all(&self.spans(&around))
    }
}

impl<'f> fmt::Display for FormattedNumber<'f> {
    ghost output = { λ v. Some (formatted_number_text v) };

    ghost styled_output = { λ v _. Some (formatted_number_text v) };

    /// Writes the text that `write_to` appends, and ignores the options of the format.
    ///
    /// # Errors
    ///
    /// The formatter fails.
    fn fmt<W: fmt::Write>(&self, f: &mut fmt::Formatter<W>) -> fmt::Result {
        let around = self.around();
        TextSpan::fmt_all(&self.spans(&around), f)
    }
}
