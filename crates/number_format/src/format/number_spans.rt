//! The spans of a number, between its affixes and what is around these.
use crate::format::text_part::TextPart;
use crate::format::text_span::{NO_SPAN, TextSpan};

/// The spans of a number: its digits, a decimal separator that is always written, and an exponent.
#[derive(Clone, Copy)]
pub(crate) struct NumberSpans<'n> {
    pub(crate) digits: TextSpan<'n>,
    pub(crate) separator: TextSpan<'n>,
    pub(crate) exponent_separator: TextSpan<'n>,
    pub(crate) exponent_sign: TextSpan<'n>,
    pub(crate) exponent: TextSpan<'n>,
}

/// The spans of no number.
pub(crate) const NO_NUMBER: NumberSpans<'static> = NumberSpans {
    digits: NO_SPAN,
    separator: NO_SPAN,
    exponent_separator: NO_SPAN,
    exponent_sign: NO_SPAN,
    exponent: NO_SPAN,
};

/// The spans of a number between its affixes.
#[derive(Clone, Copy)]
pub(crate) struct InnerSpans<'n> {
    pub(crate) prefix: TextSpan<'n>,
    pub(crate) number: NumberSpans<'n>,
    pub(crate) suffix: TextSpan<'n>,
}

/// No spans.
pub(crate) const NO_SPANS: InnerSpans<'static> = InnerSpans {
    prefix: NO_SPAN,
    number: NO_NUMBER,
    suffix: NO_SPAN,
};

impl<'n> InnerSpans<'n> {
    ghost use Rattle.std.specs.Prelude.{◌≡◌, ◌≤◌, ◌++◌, length};
    ghost use Rattle.number_format.specs.{RangeText.pieces_if, TextParts.parts_pieces, TextSpans.{inner_spans_pieces, number_spans_pieces, span_pieces, spans_pieces}};

    /// Returns the spans of a number between the parts of its affixes.
    pub(crate) fn between(
        prefix: &'n [TextPart<'n>],
        number: NumberSpans<'n>,
        suffix: &'n [TextPart<'n>],
    ) -> Self
        requires { (length prefix.now ≤ 10) × (length suffix.now ≤ 10) }
        ensures { inner_spans_pieces result
            ≡ parts_pieces prefix.now ++ (number_spans_pieces number.entry ++ parts_pieces suffix.now) }
    {
        let (prefix, suffix) = (TextSpan::of_parts(prefix), TextSpan::of_parts(suffix));
        InnerSpans {
            prefix,
            number,
            suffix,
        }
    }

    /// Returns these spans, or none.
    pub(crate) fn if_shown(self, shown: bool) -> Self
        ensures { inner_spans_pieces result ≡ pieces_if shown (inner_spans_pieces self.entry) }
    {
        if shown { self } else { NO_SPANS }
    }

    /// Returns the spans with one before and one after them.
    pub(crate) fn within(self, before: TextSpan<'n>, after: TextSpan<'n>) -> [TextSpan<'n>; 9]
        ensures { spans_pieces result
            ≡ span_pieces before.entry ++ (inner_spans_pieces self.entry ++ span_pieces after.entry) }
    {
        let number = self.number;
        [
            before,
            self.prefix,
            number.digits,
            number.separator,
            number.exponent_separator,
            number.exponent_sign,
            number.exponent,
            self.suffix,
            after,
        ]
    }
}
