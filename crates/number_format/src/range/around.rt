//! What is around the numbers of a range.
ghost use Rattle.std.specs.Prelude.{◌≡◌};
ghost use Rattle.number_format.specs.{RangeText.{has_spaces, separator_pieces}, TextParts.{parts_pieces, parts_text, pieces_text}};

use crate::format::affixes::NumberAffixes;
use crate::format::outer::OuterAround;
use crate::format::text_part::{PartKind, TextPart};
use crate::range::affixes::WideAffixes;
use fixed_decimal::Decimal;
use locale_data::RangeSeparator;

/// The parts of a separator: the space before it, its text, and the space after it.
#[derive(Clone, Copy)]
pub(crate) struct SeparatorParts<'r> {
    pub(crate) parts: [TextPart<'r>; 3],
}

/// What is around the numbers of a range, and their exponents: made once for all segments.
pub(crate) struct RangeAround<'r> {
    pub(crate) outer: OuterAround<'r>,
    pub(crate) start: NumberAffixes<'r>,
    pub(crate) start_exponent: Option<Decimal>,
    pub(crate) end: NumberAffixes<'r>,
    pub(crate) end_exponent: Option<Decimal>,
    /// The affixes of an approximate number, if the range is one.
    pub(crate) approximate: WideAffixes<'r>,
    pub(crate) separator: SeparatorParts<'r>,
}

impl<'r> Drop for RangeAround<'r> {
    fn drop(self) {
        let RangeAround {
            outer: _,
            start: _,
            start_exponent,
            end: _,
            end_exponent,
            approximate: _,
            separator: _,
        } = self;
        drop(start_exponent);
        drop(end_exponent);
    }
}

fn has_spaces(separator: RangeSeparator) -> bool
    ensures { result ≡ has_spaces separator }
{
    matches!(
        separator,
        RangeSeparator::SpacedHyphen | RangeSeparator::SpacedEnDash
    )
}

/// Returns a separator, with spaces beside it if it needs them and has none.
pub(crate) fn separator_parts(
    separator: RangeSeparator,
    needs_spaces: bool,
) -> SeparatorParts<'static>
    ensures pieces { parts_pieces result.parts ≡ separator_pieces separator needs_spaces }
    ensures text { parts_text result.parts ≡ pieces_text (separator_pieces separator needs_spaces) }
{
    let spaced = needs_spaces && !has_spaces(separator);
    let space = TextPart::new(PartKind::Literal, if spaced { " " } else { "" });
    let text = TextPart::new(PartKind::Literal, separator.text());
    SeparatorParts {
        parts: [space, text, space],
    }
}
