//! What is written before and after the digits of a number.
ghost use Rattle.std.specs.{Prelude.{◌≡◌, ◌≤◌, ◌&&◌, ◌++◌, length, IfSome, OnOk, true}, Option.option_copied};
ghost use Rattle.locale_data.specs.Compact.{has_texts, text_of, AreTexts};
ghost use Rattle.number_format.specs.{NumberStyles.{ends_with_currency, begins_with_currency}, PatternTexts.{sign_kind, sign_pieces, pattern_kind, pattern_text, pattern_pieces, affix_pieces, pattern_around, space_if}, NumberText.{currency_if, is_empty, first_sign, last_sign, compact_around, compact_suffix, around_by, AreParts}, TextParts.{part_pieces, pieces_text}};

use crate::format::currency::{ShownCurrency, begins_with_currency, ends_with_currency};
use crate::format::parts::put_part;
use crate::format::text_part::{PartKind, TextPart};
use decimal_format::DecimalSymbols;
use decimal_format::internal::Block;
use fixed_decimal::{Sign, Sink, SinkFault};
use locale_data::{Affix, AffixPair, AffixText, CompactForm, CompactPattern, Pattern, Piece};

/// The parts before and after a number.
#[derive(Clone, Copy)]
pub(crate) struct NumberAffixes<'f> {
    pub(crate) prefix: [TextPart<'f>; 6],
    pub(crate) has_number: bool,
    pub(crate) suffix: [TextPart<'f>; 5],
}

/// The pattern of a style in a locale, and the texts of its pieces.
#[derive(Drop)]
pub(crate) struct StyleTexts {
    pub(crate) symbols: DecimalSymbols<'static>,
    pub(crate) pattern: Pattern,
    pub(crate) percent: TextPart<'static>,
    pub(crate) currency: ShownCurrency,
}

pub(crate) fn space_if(condition: bool) -> TextPart<'static>
    ensures { part_pieces result ≡ space_if condition }
{
    let text = if condition { "\u{a0}" } else { "" };
    TextPart::new(PartKind::Literal, text)
}

fn sign_kind(sign: Sign) -> PartKind
    ensures { result ≡ sign_kind sign }
{
    match sign {
        Sign::Positive => PartKind::PlusSign,
        _ => PartKind::MinusSign,
    }
}

impl StyleTexts {
    pub(crate) fn copied(&self) -> Self
        ensures { result ≡ self.now }
    {
        StyleTexts {
            symbols: self.symbols.copied(),
            pattern: self.pattern,
            percent: self.percent,
            currency: self.currency.copied(),
        }
    }

    fn pattern_kind(&self, piece: Piece) -> PartKind
        ensures { result ≡ pattern_kind self.now piece }
    {
        match piece {
            Piece::Minus => PartKind::MinusSign,
            Piece::Plus => PartKind::PlusSign,
            Piece::Percent => self.percent.kind,
            Piece::Currency => PartKind::Currency,
            _ => PartKind::Literal,
        }
    }

    pub(crate) fn sign_part(&self, sign: Sign) -> TextPart<'_>
        ensures { part_pieces result ≡ sign_pieces self.now.symbols sign }
    {
        TextPart::new(sign_kind(sign), self.symbols.affixes(sign).prefix)
    }

    #[inline]
    pub(crate) fn pattern_text(&self, piece: Piece) -> &str
        ensures value { result.now ≡ pattern_text self.now piece }
        ensures short { length result.now ≤ 255 }
    {
        match piece {
            Piece::Minus => self.symbols.affixes(Sign::Negative).prefix,
            Piece::Plus => self.symbols.affixes(Sign::Positive).prefix,
            Piece::Percent => self.percent.text,
            Piece::Currency => self.currency.text(),
            _ => piece.text(),
        }
    }

    pub(crate) fn pattern_part(&self, piece: Piece) -> TextPart<'_>
        ensures { part_pieces result ≡ pattern_pieces self.now piece }
    {
        TextPart::new(self.pattern_kind(piece), self.pattern_text(piece))
    }

    pub(crate) fn currency_if(&self, has_currency: bool) -> TextPart<'_>
        ensures { part_pieces result ≡ currency_if self.now has_currency }
    {
        if has_currency {
            TextPart::new(PartKind::Currency, self.currency.text())
        } else {
            TextPart::new(PartKind::Literal, "")
        }
    }

    #[inline(always)]
    pub(crate) fn needs_space_after(&self, prefix: Affix) -> bool
        ensures { result ≡ (ends_with_currency prefix && self.now.currency.space_after) }
    {
        ends_with_currency(prefix) && self.currency.space_after
    }

    #[inline(always)]
    pub(crate) fn needs_space_before(&self, suffix: Affix) -> bool
        ensures { result ≡ (begins_with_currency suffix && self.now.currency.space_before) }
    {
        begins_with_currency(suffix) && self.currency.space_before
    }

    fn pattern_affixes(&self, sign: Sign) -> NumberAffixes<'_>
        ensures { AreParts (pattern_around self.now sign) result }
    {
        let AffixPair { prefix, suffix } = self.pattern.affixes(sign);
        NumberAffixes {
            prefix: [
                self.pattern_part(prefix.first),
                self.pattern_part(prefix.second),
                self.pattern_part(prefix.third),
                self.pattern_part(prefix.fourth),
                space_if(self.needs_space_after(prefix)),
                TextPart::new(PartKind::Literal, ""),
            ],
            has_number: true,
            suffix: [
                space_if(self.needs_space_before(suffix)),
                self.pattern_part(suffix.first),
                self.pattern_part(suffix.second),
                self.pattern_part(suffix.third),
                self.pattern_part(suffix.fourth),
            ],
        }
    }

    pub(crate) fn first_sign(&self, sign: Sign, form: CompactForm) -> TextPart<'_>
        ensures { part_pieces result ≡ first_sign self.now sign form }
    {
        match form {
            CompactForm::SignLast => TextPart::new(PartKind::Literal, ""),
            _ => self.sign_part(sign),
        }
    }

    pub(crate) fn last_sign(&self, sign: Sign, form: CompactForm) -> TextPart<'_>
        ensures { part_pieces result ≡ last_sign self.now sign form }
    {
        match form {
            CompactForm::SignLast => self.sign_part(sign),
            _ => TextPart::new(PartKind::Literal, ""),
        }
    }

    pub(crate) fn space_after(&self, affix: &AffixText) -> bool
        requires { has_texts affix.now ≡ true }
        ensures { result ≡ (affix.now.has_currency
            && (is_empty (text_of affix.now.after) && self.now.currency.space_after)) }
    {
        affix.has_currency && affix.after_text().is_empty() && self.currency.space_after
    }

    pub(crate) fn space_before(&self, affix: &AffixText) -> bool
        requires { has_texts affix.now ≡ true }
        ensures { result ≡ (affix.now.has_currency
            && (is_empty (text_of affix.now.before) && self.now.currency.space_before)) }
    {
        affix.has_currency && affix.before_text().is_empty() && self.currency.space_before
    }

    fn compact_affixes(&self, sign: Sign, pattern: &CompactPattern) -> NumberAffixes<'_>
        requires { AreTexts pattern.now }
        ensures { AreParts (compact_around self.now sign pattern.now) result }
    {
        let CompactPattern {
            form,
            prefix,
            suffix,
            ..
        } = *pattern;
        NumberAffixes {
            prefix: [
                self.first_sign(sign, form),
                TextPart::new(PartKind::Compact, prefix.before_text()),
                self.currency_if(prefix.has_currency),
                TextPart::new(PartKind::Compact, prefix.after_text()),
                space_if(self.space_after(&prefix)),
                self.last_sign(sign, form),
            ],
            has_number: !matches!(form, CompactForm::Literal),
            suffix: [
                space_if(self.space_before(&suffix)),
                TextPart::new(PartKind::Compact, suffix.before_text()),
                self.currency_if(suffix.has_currency),
                TextPart::new(PartKind::Compact, suffix.after_text()),
                TextPart::new(PartKind::Literal, ""),
            ],
        }
    }

    pub(crate) fn affixes(&self, sign: Sign, compact: Option<&CompactPattern>) -> NumberAffixes<'_>
        requires { IfSome compact (λ pattern. AreTexts pattern.now) }
        ensures { AreParts (around_by self.now sign (option_copied compact.entry)) result }
    {
        match compact {
            Some(pattern) if !matches!(pattern.form, CompactForm::Plain) => {
                self.compact_affixes(sign, pattern)
            }
            _ => self.pattern_affixes(sign),
        }
    }

    // Not inlined: most pieces are empty.
    #[inline(never)]
    #[tactic(auto, using(crate::proofs::lemmas::format::PieceTexts::text_of))]
    fn put_some_piece(&self, piece: Piece, block: &mut Block) -> Result<(), SinkFault>
        ensures { OnOk result (block.new.0 ≡ block.old.0 ++ pieces_text (pattern_pieces self.now piece)) }
    {
        block.put_bytes(self.pattern_text(piece).as_bytes())
    }

    #[inline(always)]
    fn put_piece(&self, piece: Piece, block: &mut Block) -> Result<(), SinkFault>
        ensures { OnOk result (block.new.0 ≡ block.old.0 ++ pieces_text (pattern_pieces self.now piece)) }
    {
        match piece {
            Piece::Empty => Ok(()),
            _ => self.put_some_piece(piece, block),
        }
    }

    #[inline(always)]
    fn put_affix(&self, affix: Affix, block: &mut Block) -> Result<(), SinkFault>
        ensures { OnOk result
            (block.new.0 ≡ block.old.0 ++ pieces_text (affix_pieces (pattern_pieces self.now) affix)) }
    {
        self.put_piece(affix.first, block)?;
        self.put_piece(affix.second, block)?;
        self.put_piece(affix.third, block)?;
        self.put_piece(affix.fourth, block)
    }

    #[inline(always)]
    pub(crate) fn put_prefix(&self, sign: Sign, block: &mut Block) -> Result<(), SinkFault>
        ensures { OnOk result (block.new.0 ≡ block.old.0 ++ pieces_text (pattern_around self.now sign).prefix) }
    {
        let prefix = self.pattern.affixes(sign).prefix;
        self.put_affix(prefix, block)?;
        put_part(space_if(self.needs_space_after(prefix)), block)
    }

    #[inline(always)]
    pub(crate) fn put_suffix(&self, sign: Sign, block: &mut Block) -> Result<(), SinkFault>
        ensures { OnOk result (block.new.0 ≡ block.old.0 ++ pieces_text (pattern_around self.now sign).suffix) }
    {
        let suffix = self.pattern.affixes(sign).suffix;
        put_part(space_if(self.needs_space_before(suffix)), block)?;
        self.put_affix(suffix, block)
    }

    pub(crate) fn put_compact_prefix(
        &self,
        sign: Sign,
        pattern: &CompactPattern,
        block: &mut Block,
    ) -> Result<(), SinkFault>
        requires { AreTexts pattern.now }
        ensures { OnOk result (block.new.0
            ≡ block.old.0 ++ pieces_text (compact_around self.now sign pattern.now).prefix) }
    {
        let affix = &pattern.prefix;
        put_part(self.first_sign(sign, pattern.form), block)?;
        put_part(TextPart::new(PartKind::Compact, affix.before_text()), block)?;
        put_part(self.currency_if(affix.has_currency), block)?;
        put_part(TextPart::new(PartKind::Compact, affix.after_text()), block)?;
        put_part(space_if(self.space_after(affix)), block)?;
        put_part(self.last_sign(sign, pattern.form), block)
    }

    pub(crate) fn put_compact_suffix(
        &self,
        affix: &AffixText,
        block: &mut Block,
    ) -> Result<(), SinkFault>
        requires { has_texts affix.now ≡ true }
        ensures { OnOk result (block.new.0 ≡ block.old.0 ++ pieces_text (compact_suffix self.now affix.now)) }
    {
        put_part(space_if(self.space_before(affix)), block)?;
        put_part(TextPart::new(PartKind::Compact, affix.before_text()), block)?;
        put_part(self.currency_if(affix.has_currency), block)?;
        put_part(TextPart::new(PartKind::Compact, affix.after_text()), block)
    }
}
