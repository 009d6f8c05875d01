//! What is written around an approximate number.
ghost use Rattle.std.specs.{Prelude.{◌≡◌, ◌++◌, IfSome, true}, Option.option_copied};
ghost use Rattle.locale_data.specs.Compact.{has_texts, AreTexts};
ghost use Rattle.number_format.specs.{FormattedNumbers.pattern_of, FormattedRanges.AreWideAffixes, NumberText.compact_suffix, PatternTexts.{affix_pieces, sign_pieces}, RangeText.{approximately_pieces, approximate_affixes, approximate_around, approximate_compact, approximate_pattern, approximate_piece, is_sign_last, pieces_if}, TextParts.{part_pieces, parts_pieces}};

use crate::format::affixes::{StyleTexts, space_if};
use crate::format::formatted_number::FormattedNumber;
use crate::format::text_part::{PartKind, TextPart};
use fixed_decimal::Sign;
use locale_data::{
    Affix, AffixPair, AffixText, ApproximatelySign, CompactForm, CompactPattern, Piece,
};

/// An empty part.
const NOTHING: TextPart<'static> = TextPart {
    kind: PartKind::Literal,
    text: "",
};

/// The parts before and after a number with an approximately sign.
#[derive(Clone, Copy)]
pub(crate) struct WideAffixes<'f> {
    pub(crate) prefix: [TextPart<'f>; 10],
    pub(crate) has_number: bool,
    pub(crate) suffix: [TextPart<'f>; 10],
}

/// The affixes of no number.
pub(crate) const NO_AFFIXES: WideAffixes<'static> = WideAffixes {
    prefix: [NOTHING; 10],
    has_number: false,
    suffix: [NOTHING; 10],
};

/// A number with an approximately sign: its style, and its signs.
#[derive(Clone, Copy)]
struct ApproximateNumber<'s> {
    style: &'s StyleTexts,
    approximately: ApproximatelySign,
    sign: Sign,
}

fn approximately_part(approximately: ApproximatelySign) -> TextPart<'static>
    ensures { part_pieces result ≡ approximately_pieces approximately }
{
    TextPart::new(PartKind::ApproximatelySign, approximately.text())
}

fn is_sign_last(form: CompactForm) -> bool
    ensures { result ≡ is_sign_last form }
{
    matches!(form, CompactForm::SignLast)
}

impl<'s> ApproximateNumber<'s> {
    /// Returns a piece of a pattern, with the approximately sign before a sign or instead of it.
    fn piece(&self, piece: Piece) -> (TextPart<'s>, TextPart<'s>)
        ensures { part_pieces result.0 ++ part_pieces result.1
            ≡ approximate_piece self.now.style.now self.now.approximately self.now.sign piece }
    {
        let approximately = approximately_part(self.approximately);
        match (self.sign, piece) {
            (Sign::None, Piece::Plus) => (NOTHING, approximately),
            (_, Piece::Minus | Piece::Plus) => (approximately, self.style.pattern_part(piece)),
            _ => (NOTHING, self.style.pattern_part(piece)),
        }
    }

    fn pair(&self) -> AffixPair
        ensures { result ≡ approximate_affixes self.now.style.now.pattern self.now.sign }
    {
        match self.sign {
            Sign::None => self.style.pattern.plus,
            _ => self.style.pattern.affixes(self.sign),
        }
    }

    /// Returns the pieces of an affix between two parts.
    fn parts(&self, before: TextPart<'s>, affix: Affix, after: TextPart<'s>) -> [TextPart<'s>; 10]
        ensures { parts_pieces result ≡ part_pieces before.entry ++ (affix_pieces (approximate_piece
            self.now.style.now self.now.approximately self.now.sign) affix ++ part_pieces after.entry) }
    {
        let one = self.piece(affix.first);
        let two = self.piece(affix.second);
        let three = self.piece(affix.third);
        let four = self.piece(affix.fourth);
        [
            before, one.0, one.1, two.0, two.1, three.0, three.1, four.0, four.1, after,
        ]
    }

    fn pattern_affixes(&self) -> WideAffixes<'s>
        ensures { AreWideAffixes
            (approximate_pattern self.now.style.now self.now.approximately self.now.sign) result }
    {
        let AffixPair { prefix, suffix } = self.pair();
        let after = space_if(self.style.needs_space_after(prefix));
        let before = space_if(self.style.needs_space_before(suffix));
        WideAffixes {
            prefix: self.parts(NOTHING, prefix, after),
            has_number: true,
            suffix: self.parts(before, suffix, NOTHING),
        }
    }

    /// Returns the approximately sign and the sign, if they are shown.
    fn signs(&self, shown: bool) -> (TextPart<'s>, TextPart<'s>)
        ensures { part_pieces result.0 ++ part_pieces result.1
            ≡ pieces_if shown (approximately_pieces self.now.approximately
            ++ sign_pieces self.now.style.now.symbols self.now.sign) }
    {
        if shown {
            let approximately = approximately_part(self.approximately);
            (approximately, self.style.sign_part(self.sign))
        } else {
            (NOTHING, NOTHING)
        }
    }

    fn compact_prefix(&self, pattern: &CompactPattern) -> [TextPart<'s>; 10]
        requires { AreTexts pattern.now }
        ensures { parts_pieces result ≡ (approximate_compact
            self.now.style.now self.now.approximately self.now.sign pattern.now).prefix }
    {
        let prefix = &pattern.prefix;
        let is_last = is_sign_last(pattern.form);
        let one = self.signs(!is_last);
        let before = TextPart::new(PartKind::Compact, prefix.before_text());
        let currency = self.style.currency_if(prefix.has_currency);
        let after = TextPart::new(PartKind::Compact, prefix.after_text());
        let space = space_if(self.style.space_after(prefix));
        let two = self.signs(is_last);
        [
            one.0, one.1, before, currency, after, space, two.0, two.1, NOTHING, NOTHING,
        ]
    }

    fn compact_suffix(&self, suffix: &AffixText) -> [TextPart<'s>; 10]
        requires { has_texts suffix.now ≡ true }
        ensures { parts_pieces result ≡ compact_suffix self.now.style.now suffix.now }
    {
        let space = space_if(self.style.space_before(suffix));
        let before = TextPart::new(PartKind::Compact, suffix.before_text());
        let currency = self.style.currency_if(suffix.has_currency);
        let after = TextPart::new(PartKind::Compact, suffix.after_text());
        [
            space, before, currency, after, NOTHING, NOTHING, NOTHING, NOTHING, NOTHING, NOTHING,
        ]
    }

    fn compact_affixes(&self, pattern: &CompactPattern) -> WideAffixes<'s>
        requires { AreTexts pattern.now }
        ensures { AreWideAffixes (approximate_compact
            self.now.style.now self.now.approximately self.now.sign pattern.now) result }
    {
        WideAffixes {
            prefix: self.compact_prefix(pattern),
            has_number: !matches!(pattern.form, CompactForm::Literal),
            suffix: self.compact_suffix(&pattern.suffix),
        }
    }

    fn affixes(&self, compact: Option<&CompactPattern>) -> WideAffixes<'s>
        requires { IfSome compact (λ pattern. AreTexts pattern.now) }
        ensures { AreWideAffixes (approximate_around
            self.now.style.now self.now.approximately self.now.sign (option_copied compact.entry)) result }
    {
        match compact {
            Some(pattern) if !matches!(pattern.form, CompactForm::Plain) => {
                self.compact_affixes(pattern)
            }
            _ => self.pattern_affixes(),
        }
    }
}

impl FormattedNumber<'_> {
    /// Returns the parts around the number, with an approximately sign.
    pub(crate) fn approximate_affixes(&self, approximately: ApproximatelySign) -> WideAffixes<'_>
        ensures { AreWideAffixes (approximate_around self.now.formatter.now.style approximately
            self.now.value.sign (pattern_of self.now)) result }
    {
        let number = ApproximateNumber {
            style: &self.formatter.style,
            approximately,
            sign: self.value.sign,
        };
        number.affixes(self.compact_pattern())
    }
}
