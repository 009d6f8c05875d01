//! A range of two numbers as a locale writes it.
ghost use Rattle.std.specs.{Prelude.{◌≡◌, ◌≢◌, ◌++◌, Some, OnOk, OnErr, true}, Io.KnownBytes.Appends};
ghost use Rattle.decimal_digits.specs.AppendsPrefix.{AppendsPrefix};
ghost use Rattle.number_format.specs.{declared.range.{form.RangeForm.RangeForm, formatted_range.RangeSegment.RangeSegment}, FormattedRanges.{AreApproximate, formatted_range_pieces, formatted_range_text, inner_range_pieces, numbers_text, one_text, pieces_by, segment_text, source_of, IsRangeAround}, TextParts.{Puts, PutsPrefix, pieces_text}, TextSpans.{inner_spans_pieces, spans_pieces, spans_text}};

use crate::format::formatted_number::FormattedNumber;
use crate::format::number_spans::{InnerSpans, NO_NUMBER, NO_SPANS};
use crate::format::parts::{PartSink, push_parts};
use crate::format::text_span::{NO_SPAN, TextSpan};
use crate::range::affixes::{NO_AFFIXES, WideAffixes};
use crate::range::around::{RangeAround, separator_parts};
use crate::range::form::RangeForm;
use decimal_format::internal::Block;
use fixed_decimal::{Sink, SinkFault, Writeable};
use locale_data::RangeFormat;
use std::fmt;

/// To which number of a range a part of its text belongs, as `formatRangeToParts` of ECMA-402 names it.
#[derive(Clone, Copy, Debug, PartialEq)]
pub enum RangeSource {
    /// To neither: it is written once for both numbers.
    Shared,
    /// To the first number.
    StartRange,
    /// To the second number.
    EndRange,
}

/// A segment of the text of a range. The text is that of the segments, in this order; a segment may be empty.
///
/// In `1,00–2,00 €` the start is `1,00`, the middle `–`, the end `2,00`, and the suffix the space and `€`.
#[derive(Clone, Copy, Debug, PartialEq)]
pub enum RangeSegment {
    /// What is before both numbers.
    Prefix,
    /// The first number, with what is around it alone.
    Start,
    /// The separator; or an approximate number, instead of two numbers.
    Middle,
    /// The second number, with what is around it alone.
    End,
    /// What is after both numbers.
    Suffix,
}

impl RangeSegment {
    /// The segments, in the order of the text.
    pub const ALL: [RangeSegment; 5] = [
        RangeSegment::Prefix,
        RangeSegment::Start,
        RangeSegment::Middle,
        RangeSegment::End,
        RangeSegment::Suffix,
    ];

    /// Returns to which number the parts of a segment belong.
    pub fn source(self) -> RangeSource
        ensures { result ≡ source_of self }
    {
        match self {
            RangeSegment::Start => RangeSource::StartRange,
            RangeSegment::End => RangeSource::EndRange,
            _ => RangeSource::Shared,
        }
    }
}

/// A range of two numbers as a locale writes it. It borrows the formatter.
pub struct FormattedRange<'f> {
    /// The first number, with the plural category of the range.
    pub(crate) start: FormattedNumber<'f>,
    pub(crate) end: FormattedNumber<'f>,
    pub(crate) format: RangeFormat,
    pub(crate) form: RangeForm,
    /// Whether spaces are beside the separator.
    pub(crate) spaced: bool,
}

// Not derived: a derived drop is proved again in each crate that depends on this one.
impl<'f> Drop for FormattedRange<'f> {
    fn drop(self) {
        let FormattedRange {
            start,
            end,
            format: _,
            form: _,
            spaced: _,
        } = self;
        drop(start);
        drop(end);
    }
}

impl<'f> FormattedRange<'f> {
    fn approximate_affixes(&self) -> WideAffixes<'_>
        ensures { self.now.form ≡ RangeForm.Approximate → AreApproximate self.now result }
    {
        match self.form {
            RangeForm::Approximate => self.start.approximate_affixes(self.format.approximately),
            _ => NO_AFFIXES,
        }
    }

    fn around(&self) -> RangeAround<'_>
        ensures { IsRangeAround self.now result }
    {
        RangeAround {
            outer: self.start.outer_around(),
            start: self.start.affixes(),
            start_exponent: self.start.shown_exponent(),
            end: self.end.affixes(),
            end_exponent: self.end.shown_exponent(),
            approximate: self.approximate_affixes(),
            separator: separator_parts(self.format.separator, self.spaced),
        }
    }

    /// Returns the spans of a segment of two numbers between affixes that both have.
    fn common_spans<'r>(
        &'r self,
        around: &'r RangeAround<'r>,
        segment: RangeSegment,
    ) -> InnerSpans<'r>
        requires { IsRangeAround self.now around.now }
        ensures { inner_spans_pieces result ≡ pieces_by self.now RangeForm.Common segment }
    {
        let affixes = &around.start;
        let has_number = affixes.has_number;
        match segment {
            RangeSegment::Prefix => InnerSpans::between(&affixes.prefix, NO_NUMBER, &[]),
            RangeSegment::Start => {
                let number = self.start.number_spans(has_number, &around.start_exponent);
                InnerSpans::between(&[], number, &[])
            }
            RangeSegment::Middle => {
                InnerSpans::between(&around.separator.parts, NO_NUMBER, &[]).if_shown(has_number)
            }
            RangeSegment::End => {
                let number = self.end.number_spans(has_number, &around.end_exponent);
                InnerSpans::between(&[], number, &[])
            }
            RangeSegment::Suffix => InnerSpans::between(&[], NO_NUMBER, &affixes.suffix),
        }
    }

    /// Returns the spans of a segment of two numbers, each with its own affixes.
    fn apart_spans<'r>(
        &'r self,
        around: &'r RangeAround<'r>,
        segment: RangeSegment,
    ) -> InnerSpans<'r>
        requires { IsRangeAround self.now around.now }
        ensures { inner_spans_pieces result ≡ pieces_by self.now RangeForm.Apart segment }
    {
        let (start, end) = (&around.start, &around.end);
        match segment {
            RangeSegment::Start => {
                let number = self
                    .start
                    .number_spans(start.has_number, &around.start_exponent);
                InnerSpans::between(&start.prefix, number, &start.suffix)
            }
            RangeSegment::Middle => InnerSpans::between(&around.separator.parts, NO_NUMBER, &[]),
            RangeSegment::End => {
                let number = self.end.number_spans(end.has_number, &around.end_exponent);
                InnerSpans::between(&end.prefix, number, &end.suffix)
            }
            _ => NO_SPANS,
        }
    }

    /// Returns the spans of an approximate number.
    fn approximate_spans<'r>(&'r self, around: &'r RangeAround<'r>) -> InnerSpans<'r>
        requires around { IsRangeAround self.now around.now }
        requires form { self.now.form ≡ RangeForm.Approximate }
        ensures { inner_spans_pieces result ≡ inner_range_pieces self.now RangeSegment.Middle }
    {
        let affixes = &around.approximate;
        let number = self
            .start
            .number_spans(affixes.has_number, &around.start_exponent);
        InnerSpans::between(&affixes.prefix, number, &affixes.suffix)
    }

    /// Returns the spans of a segment without what is around the whole text.
    fn inner_spans<'r>(
        &'r self,
        around: &'r RangeAround<'r>,
        segment: RangeSegment,
    ) -> InnerSpans<'r>
        requires { IsRangeAround self.now around.now }
        ensures { inner_spans_pieces result ≡ inner_range_pieces self.now segment }
    {
        match (self.form, segment) {
            (RangeForm::Approximate, RangeSegment::Middle) => self.approximate_spans(around),
            (RangeForm::Approximate, _) => NO_SPANS,
            (RangeForm::Common, _) => self.common_spans(around, segment),
            (RangeForm::Apart, _) => self.apart_spans(around, segment),
        }
    }

    /// Returns the spans of a segment.
    fn spans<'r>(&'r self, around: &'r RangeAround<'r>, segment: RangeSegment) -> [TextSpan<'r>; 9]
        requires { IsRangeAround self.now around.now }
        ensures pieces { spans_pieces result ≡ formatted_range_pieces self.now segment }
        ensures text { spans_text result ≡ segment_text self.now segment }
    {
        let outer = &around.outer;
        let inner = self.inner_spans(around, segment);
        match segment {
            RangeSegment::Prefix => {
                let before = TextSpan::joined(outer.kind, &outer.before);
                inner.within(NO_SPAN, before)
            }
            RangeSegment::Suffix => {
                let after = TextSpan::joined(outer.kind, &outer.after);
                inner.if_shown(outer.has_number).within(NO_SPAN, after)
            }
            _ => inner.if_shown(outer.has_number).within(NO_SPAN, NO_SPAN),
        }
    }

    fn put_prefix(&self, block: &mut Block) -> Result<(), SinkFault>
        ensures { OnOk result
            (block.new.0 ≡ block.old.0 ++ pieces_text (inner_range_pieces self.now RangeSegment.Prefix)) }
    {
        match self.form {
            RangeForm::Common => self.start.put_prefix(block),
            _ => Ok(()),
        }
    }

    /// Appends a number, with its affixes if each number has its own.
    #[inline(always)]
    fn put_number(&self, number: &FormattedNumber<'_>, block: &mut Block) -> Result<(), SinkFault>
        ensures { OnOk result (block.new.0 ≡ block.old.0 ++ one_text self.now.form number.now) }
    {
        match self.form {
            RangeForm::Apart => number.put_around(block),
            _ => number.put_digits(block),
        }
    }

    fn put_two_numbers(&self, block: &mut Block) -> Result<(), SinkFault>
        requires { self.now.form ≢ RangeForm.Approximate }
        ensures { OnOk result (block.new.0 ≡ block.old.0 ++ numbers_text self.now) }
    {
        if !self.start.has_number() {
            return Err(SinkFault);
        }
        let separator = separator_parts(self.format.separator, self.spaced);
        self.put_number(&self.start, block)?;
        push_parts(&separator.parts, block)?;
        self.put_number(&self.end, block)
    }

    fn put_approximate(&self, block: &mut Block) -> Result<(), SinkFault>
        requires { self.now.form ≡ RangeForm.Approximate }
        ensures { OnOk result (block.new.0 ≡ block.old.0 ++ numbers_text self.now) }
    {
        let affixes = self.start.approximate_affixes(self.format.approximately);
        if !affixes.has_number {
            return Err(SinkFault);
        }
        push_parts(&affixes.prefix, block)?;
        self.start.put_digits(block)?;
        push_parts(&affixes.suffix, block)
    }

    /// Appends what is between the prefix and the suffix.
    fn put_numbers(&self, block: &mut Block) -> Result<(), SinkFault>
        ensures { OnOk result (block.new.0 ≡ block.old.0 ++ numbers_text self.now) }
    {
        match self.form {
            RangeForm::Approximate => self.put_approximate(block),
            _ => self.put_two_numbers(block),
        }
    }

    fn put_suffix(&self, block: &mut Block) -> Result<(), SinkFault>
        ensures { OnOk result
            (block.new.0 ≡ block.old.0 ++ pieces_text (inner_range_pieces self.now RangeSegment.Suffix)) }
    {
        match self.form {
            RangeForm::Common => self.start.put_suffix(block),
            _ => Ok(()),
        }
    }

    fn put_with_outer(&self, block: &mut Block) -> Result<(), SinkFault>
        ensures { OnOk result (block.new.0 ≡ block.old.0 ++ formatted_range_text self.now) }
    {
        let outer = self.start.outer_around();
        if !outer.has_number {
            return Err(SinkFault);
        }
        self.put_prefix(block)?;
        push_parts(&outer.before, block)?;
        self.put_numbers(block)?;
        self.put_suffix(block)?;
        push_parts(&outer.after, block)
    }

    /// Appends the text, if it is short and has the numbers.
    fn put_text(&self, block: &mut Block) -> Result<(), SinkFault>
        ensures { OnOk result (block.new.0 ≡ block.old.0 ++ formatted_range_text self.now) }
    {
        if self.start.has_outer() {
            return self.put_with_outer(block);
        }
        self.put_prefix(block)?;
        self.put_numbers(block)?;
        self.put_suffix(block)
    }

    #[inline(never)]
    fn write_spans<W: Sink>(&self, sink: &mut W) -> Result<(), SinkFault>
        ensures ok { OnOk result
            (Appends (W.contents sink.old) (W.contents sink.new) (formatted_range_text self.now)) }
        ensures err { OnErr result
            (AppendsPrefix (W.contents sink.old) (W.contents sink.new) (formatted_range_text self.now)) }
        ensures failed { OnErr result (W.has_failed sink.new ≡ true) }
    {
        let around = self.around();
        // `(*self)` lends the range for each segment anew.
        for segment in RangeSegment::ALL {
            TextSpan::write_all(&(*self).spans(&around, segment), sink)?;
        }
        Ok(())
    }

    /// Puts the pieces of a segment of the text with their kinds into a sink, which is any [`PartSink`]. It does not
    /// allocate.
    ///
    /// The segments, one after another, put all pieces of the text. Consecutive pieces of one kind are one part of
    /// `formatRangeToParts` of ECMA-402. The source of a part says to which number it belongs: to the first one, to the
    /// second one, or to neither alone. [`RangeSegment::source`] is the source of the pieces of a segment. A part with
    /// pieces from two sources is shared.
    ///
    /// # Errors
    ///
    /// The sink rejects a piece; those before it were put.
    ///
    /// ```
    /// for segment in RangeSegment::ALL {
    ///     sink.source = segment.source(); // a field of this sink
    ///     range.parts(segment, &mut sink)?; // of `1–2`: integer `1`, literal `–`, integer `2`
    /// }
    /// ```
    pub fn parts<P: PartSink>(&self, segment: RangeSegment, sink: &mut P) -> Result<(), SinkFault>
        ensures pieces { OnOk result
            (Puts (P.pieces sink.old) (P.pieces sink.new) (formatted_range_pieces self.now segment)) }
        ensures prefix { OnErr result
            (PutsPrefix (P.pieces sink.old) (P.pieces sink.new) (formatted_range_pieces self.now segment)) }
        ensures failed { OnErr result (P.has_failed sink.new ≡ true) }
    {
        let around = self.around();
        TextSpan::put_all(&self.spans(&around, segment), sink)
    }
}

impl<'f> Writeable for FormattedRange<'f> {
    ghost text = { formatted_range_text };

    /// Appends the text.
    ///
    /// # Errors
    ///
    /// As [`Writeable::write_to`].
    fn write_to<W: Sink>(&self, sink: &mut W) -> Result<(), SinkFault> {
        if sink.failed() {
            return Err(SinkFault);
        }
        let mut block = Block::new();
        match self.put_text(&mut block) {
            Ok(()) => sink.put_bytes(block.as_bytes()),
            Err(SinkFault) => self.write_spans(sink),
        }
    }

    /// Returns the exact number of bytes of the text.
    fn writeable_length_hint(&self) -> usize {
        let around = self.around();
        let mut total = 0;
        for segment in RangeSegment::ALL {
            total += TextSpan::length_of_all(&(*self).spans(&around, segment));
        }
        total
    }
}

impl<'f> fmt::Display for FormattedRange<'f> {
    ghost output = { λ v. Some (formatted_range_text v) };

    ghost styled_output = { λ v _. Some (formatted_range_text v) };

    /// Writes the text that `write_to` appends, and ignores the options of the format.
    ///
    /// # Errors
    ///
    /// The formatter fails.
    fn fmt<W: fmt::Write>(&self, f: &mut fmt::Formatter<W>) -> fmt::Result {
        let around = self.around();
        for segment in RangeSegment::ALL {
            TextSpan::fmt_all(&(*self).spans(&around, segment), f)?;
        }
        Ok(())
    }
}
