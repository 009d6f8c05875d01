//! Spans of the text of a number, and how they are written to each kind of destination.
ghost use Rattle.std.specs.Prelude.{◌≡◌, ◌≤◌, length, pos, true};

use crate::format::fraction::{fmt_fraction, fraction_length, write_fraction};
use crate::format::parts::{
    PartSink, fmt_parts, parts_length, put, put_digits, put_joined, put_parts, write_parts,
};
use crate::format::text_part::{PartKind, TextPart};
use decimal_format::{DecimalSymbols, FormattedAbsolute, GroupingStrategy};
use fixed_decimal::{DecimalStore, Sink, SinkFault, UnsignedDecimal, Writeable};
use std::fmt;

/// At most ten parts.
#[derive(Clone, Copy)]
pub(crate) struct ShortParts<'n> {
    pub(crate) parts: &'n [TextPart<'n>],
    pub ghost short: { length parts.now ≤ 10 },
}

/// The digits of a value, with separators.
#[derive(Clone, Copy)]
pub(crate) struct DigitSpan<'n> {
    pub(crate) symbols: &'n DecimalSymbols<'static>,
    pub(crate) strategy: GroupingStrategy,
    pub(crate) value: &'n UnsignedDecimal,
    /// The kind of the integer digits.
    pub(crate) whole: PartKind,
    /// Whether the text begins with the decimal separator: the only integer digit is not written.
    pub(crate) is_hidden: bool,
    pub ghost one_digit: { is_hidden ≡ true → value.now.hi ≡ pos 0 },
}

/// A span of the text of a number.
#[derive(Clone, Copy)]
pub(crate) enum TextSpan<'n> {
    /// A part.
    Part(TextPart<'n>),
    /// Parts, each of its kind.
    Parts(ShortParts<'n>),
    /// Texts of one kind, which are one text.
    Joined(PartKind, ShortParts<'n>),
    /// Digits.
    Digits(DigitSpan<'n>),
}

/// An empty span.
pub(crate) const NO_SPAN: TextSpan<'static> = TextSpan::Part(TextPart {
    kind: PartKind::Literal,
    text: "",
});

impl<'n> DigitSpan<'n> {
    ghost use Rattle.std.specs.{Prelude.{◌≡◌, ◌≤◌, length, true, OnOk, OnErr}, Fmt.WritesStyledOnOk, Io.KnownBytes.Appends};
    ghost use Rattle.decimal_digits.specs.AppendsPrefix.{AppendsPrefix};
    ghost use Rattle.decimal_format.specs.Formatted.{formatted_absolute};
    ghost use Rattle.number_format.specs.{TextParts.{Puts, PutsPrefix}, TextSpans.{digit_span_pieces, digit_span_text}};

    fn absolute(&self) -> FormattedAbsolute<'n, DecimalStore>
        ensures { result ≡ formatted_absolute self.now.symbols.now self.now.strategy self.now.value.now }
    {
        FormattedAbsolute::new(self.symbols, self.strategy, self.value)
    }

    fn write<W: Sink>(&self, sink: &mut W) -> Result<(), SinkFault>
        ensures ok { OnOk result (Appends (W.contents sink.old) (W.contents sink.new) (digit_span_text self.now)) }
        ensures err { OnErr result
            (AppendsPrefix (W.contents sink.old) (W.contents sink.new) (digit_span_text self.now)) }
        ensures failed { OnErr result (W.has_failed sink.new ≡ true) }
    {
        if self.is_hidden {
            return write_fraction(&self.absolute(), sink);
        }
        self.absolute().write_to(sink)
    }

    fn fmt<W: fmt::Write>(&self, f: &mut fmt::Formatter<W>) -> fmt::Result
        ensures { WritesStyledOnOk W.write_str_gives f.old result (digit_span_text self.now) f.new }
    {
        if self.is_hidden {
            return fmt_fraction(&self.absolute(), f);
        }
        fmt::Display::fmt(&self.absolute(), f)
    }

    fn length(&self) -> usize
        ensures value { result ≡ length (digit_span_text self.now) }
        ensures at_most { result ≤ 8618239 }
    {
        if self.is_hidden {
            return fraction_length(&self.absolute());
        }
        self.absolute().writeable_length_hint()
    }

    fn put<P: PartSink>(&self, sink: &mut P) -> Result<(), SinkFault>
        ensures ok { OnOk result (Puts (P.pieces sink.old) (P.pieces sink.new) (digit_span_pieces self.now)) }
        ensures err { OnErr result (PutsPrefix (P.pieces sink.old) (P.pieces sink.new) (digit_span_pieces self.now)) }
        ensures failed { OnErr result (P.has_failed sink.new ≡ true) }
    {
        put_digits(&self.absolute(), self.whole, self.is_hidden, sink)
    }
}

impl<'n> TextSpan<'n> {
    ghost use Rattle.std.specs.{Prelude.{◌≡◌, ◌*◌, ◌≤◌, length, true, OnOk, OnErr}, Fmt.WritesStyledOnOk, Io.KnownBytes.Appends};
    ghost use Rattle.decimal_digits.specs.AppendsPrefix.{AppendsPrefix};
    ghost use Rattle.number_format.specs.{TextParts.{parts_pieces, parts_text, pieces_of, Puts, PutsPrefix}, TextSpans.{span_pieces, span_text, spans_pieces, spans_text}};

    /// Returns the span of parts.
    pub(crate) fn of_parts(parts: &'n [TextPart<'n>]) -> Self
        requires { length parts.now ≤ 10 }
        ensures { span_pieces result ≡ parts_pieces parts.now }
    {
        TextSpan::Parts(ShortParts { parts })
    }

    /// Returns the span of texts of one kind, which are one text.
    pub(crate) fn joined(kind: PartKind, parts: &'n [TextPart<'n>]) -> Self
        requires { length parts.now ≤ 10 }
        ensures { span_pieces result ≡ pieces_of kind (parts_text parts.now) }
    {
        TextSpan::Joined(kind, ShortParts { parts })
    }

    fn write<W: Sink>(&self, sink: &mut W) -> Result<(), SinkFault>
        ensures ok { OnOk result (Appends (W.contents sink.old) (W.contents sink.new) (span_text self.now)) }
        ensures err { OnErr result (AppendsPrefix (W.contents sink.old) (W.contents sink.new) (span_text self.now)) }
        ensures failed { OnErr result (W.has_failed sink.new ≡ true) }
    {
        match self {
            TextSpan::Part(part) => sink.put_bytes(part.text.as_bytes()),
            TextSpan::Parts(parts) => write_parts(parts.parts, sink),
            TextSpan::Joined(_, texts) => write_parts(texts.parts, sink),
            TextSpan::Digits(digits) => digits.write(sink),
        }
    }

    fn fmt<W: fmt::Write>(&self, f: &mut fmt::Formatter<W>) -> fmt::Result
        ensures { WritesStyledOnOk W.write_str_gives f.old result (span_text self.now) f.new }
    {
        match self {
            TextSpan::Part(part) => f.write_str(part.text),
            TextSpan::Parts(parts) => fmt_parts(parts.parts, f),
            TextSpan::Joined(_, texts) => fmt_parts(texts.parts, f),
            TextSpan::Digits(digits) => digits.fmt(f),
        }
    }

    fn length(&self) -> usize
        ensures value { result ≡ length (span_text self.now) }
        ensures at_most { result ≤ 8618239 }
    {
        match self {
            TextSpan::Part(part) => part.text.len(),
            TextSpan::Parts(parts) => parts_length(parts.parts),
            TextSpan::Joined(_, texts) => parts_length(texts.parts),
            TextSpan::Digits(digits) => digits.length(),
        }
    }

    fn put<P: PartSink>(&self, sink: &mut P) -> Result<(), SinkFault>
        ensures ok { OnOk result (Puts (P.pieces sink.old) (P.pieces sink.new) (span_pieces self.now)) }
        ensures err { OnErr result (PutsPrefix (P.pieces sink.old) (P.pieces sink.new) (span_pieces self.now)) }
        ensures failed { OnErr result (P.has_failed sink.new ≡ true) }
    {
        match self {
            TextSpan::Part(part) => put(sink, part.kind, part.text),
            TextSpan::Parts(parts) => put_parts(sink, parts.parts),
            TextSpan::Joined(kind, texts) => put_joined(sink, *kind, texts.parts),
            TextSpan::Digits(digits) => digits.put(sink),
        }
    }

    /// Appends the text of spans.
    pub(crate) fn write_all<W: Sink>(spans: &[TextSpan<'_>], sink: &mut W) -> Result<(), SinkFault>
        ensures ok { OnOk result (Appends (W.contents sink.old) (W.contents sink.new) (spans_text spans.now)) }
        ensures err { OnErr result (AppendsPrefix (W.contents sink.old) (W.contents sink.new) (spans_text spans.now)) }
        ensures failed { OnErr result (W.has_failed sink.new ≡ true) }
    {
        for span in spans {
            span.write(sink)?;
        }
        Ok(())
    }

    /// Writes the text of spans.
    pub(crate) fn fmt_all<W: fmt::Write>(
        spans: &[TextSpan<'_>],
        f: &mut fmt::Formatter<W>,
    ) -> fmt::Result
        ensures { WritesStyledOnOk W.write_str_gives f.old result (spans_text spans.now) f.new }
    {
        for span in spans {
            span.fmt(f)?;
        }
        Ok(())
    }

    /// Returns the number of bytes of the text of spans.
    pub(crate) fn length_of_all(spans: &[TextSpan<'_>]) -> usize
        requires { length spans.now ≤ 16 }
        ensures value { result ≡ length (spans_text spans.now) }
        ensures at_most { result ≤ 8618239 * length spans.now }
    {
        let mut total = 0;
        for span in spans {
            total += span.length();
        }
        total
    }

    /// Puts the pieces of spans with their kinds.
    pub(crate) fn put_all<P: PartSink>(
        spans: &[TextSpan<'_>],
        sink: &mut P,
    ) -> Result<(), SinkFault>
        ensures ok { OnOk result (Puts (P.pieces sink.old) (P.pieces sink.new) (spans_pieces spans.now)) }
        ensures err { OnErr result (PutsPrefix (P.pieces sink.old) (P.pieces sink.new) (spans_pieces spans.now)) }
        ensures failed { OnErr result (P.has_failed sink.new ≡ true) }
    {
        for span in spans {
            span.put(sink)?;
        }
        Ok(())
    }
}
