//! The texts around numbers, as strings.
ghost use Rattle.std.specs.{Prelude.{◌≡◌, ◌≢◌, ◌↔◌, ◌++◌, ℕ, List, flat_map, IsTrue, IfOk, OnOk, MatchOption}, String.string_bytes};
ghost use Rattle.decimal_format.specs.Symbols.{affixes};
ghost use Rattle.number_format.specs.TextParts.{parts_text};

use crate::format::affixes::NumberAffixes;
use crate::format::outer::OuterAround;
use crate::format::text_part::TextPart;
use crate::read::cut::cut;
use decimal_format::Affixes;
use std::alloc::{AllocError, Global};
use std::marker::Model;

/// The text before a number and the text after it.
#[derive(Drop)]
pub(crate) struct OwnedAffixes {
    prefix: String,
    suffix: String,
}

impl Model for OwnedAffixes {
    ghost use Rattle.std.specs.String.{string_bytes};
    ghost use Rattle.decimal_format.specs.Symbols.{Affixes, affixes};

    ghost Value = { Affixes };

    ghost view = { λ s. affixes (string_bytes s.prefix) (string_bytes s.suffix) };
}

fn push_texts(text: &mut String, parts: &[TextPart<'_>]) -> Result<(), AllocError>
    ensures { OnOk result (string_bytes text.new ≡ string_bytes text.old ++ parts_text parts.now) }
{
    for part in parts {
        text.push_str(part.text)?;
    }
    Ok(())
}

fn joined_parts(
    alloc: Global,
    first: &[TextPart<'_>],
    second: &[TextPart<'_>],
) -> Result<String, AllocError>
    ensures { IfOk result (λ t. string_bytes t ≡ parts_text first.now ++ parts_text second.now) }
{
    let mut text = String::new(alloc);
    push_texts(&mut text, first)?;
    push_texts(&mut text, second)?;
    Ok(text)
}

fn cut_parts<'t>(text: &'t [u8], parts: &[TextPart<'_>]) -> Option<&'t [u8]>
    ensures { MatchOption result ((rest : List ℕ) → text.now ≢ parts_text parts.now ++ rest)
        (λ rest. text.now ≡ parts_text parts.now ++ rest.now) }
{
    let mut rest = text;
    for part in parts {
        rest = cut(rest, part.text.as_bytes())?;
    }
    Some(rest)
}

/// Returns whether a text is that of parts and of others after them.
pub(crate) fn are_joined(text: &[u8], first: &[TextPart<'_>], second: &[TextPart<'_>]) -> bool
    ensures { IsTrue result ↔ (text.now ≡ parts_text first.now ++ parts_text second.now) }
{
    let Some(rest) = cut_parts(text, first) else {
        return false;
    };
    match cut_parts(rest, second) {
        Some(end) => end.is_empty(),
        None => false,
    }
}

/// Returns whether a text is that of what is around a whole text and around the number in it, without a number.
pub(crate) fn is_whole(text: &[u8], outer: &OuterAround<'_>, inner: &NumberAffixes<'_>) -> bool
    ensures { IsTrue result
        ↔ (text.now ≡ (parts_text outer.now.before ++ parts_text inner.now.prefix)
        ++ (parts_text inner.now.suffix ++ parts_text outer.now.after)) }
{
    let Some(rest) = cut_parts(text, &outer.before) else {
        return false;
    };
    match cut_parts(rest, &inner.prefix) {
        Some(end) => are_joined(end, &inner.suffix, &outer.after),
        None => false,
    }
}

impl OwnedAffixes {
    pub(crate) fn joined(
        alloc: Global,
        prefix: &[&str],
        suffix: &[&str],
    ) -> Result<Self, AllocError>
        ensures { IfOk result
            (λ t. t ≡ affixes (flat_map (λ text. text.now) prefix.now) (flat_map (λ text. text.now) suffix.now)) }
    {
        let prefix = prefix.join(alloc, "")?;
        let suffix = suffix.join(alloc, "")?;
        Ok(OwnedAffixes { prefix, suffix })
    }

    /// Joins what is around a whole text and what is around the number in it.
    pub(crate) fn around(
        alloc: Global,
        outer: &OuterAround<'_>,
        inner: &NumberAffixes<'_>,
    ) -> Result<Self, AllocError>
        ensures { IfOk result
            (λ t. t ≡ affixes (parts_text outer.now.before ++ parts_text inner.now.prefix)
            (parts_text inner.now.suffix ++ parts_text outer.now.after)) }
    {
        let prefix = joined_parts(alloc, &outer.before, &inner.prefix)?;
        let suffix = joined_parts(alloc, &inner.suffix, &outer.after)?;
        Ok(OwnedAffixes { prefix, suffix })
    }

    /// Returns whether these are the texts that [`around`](Self::around) joins, without an allocation.
    pub(crate) fn is_around(&self, outer: &OuterAround<'_>, inner: &NumberAffixes<'_>) -> bool
        ensures { IsTrue result
            ↔ (self.now ≡ affixes (parts_text outer.now.before ++ parts_text inner.now.prefix)
            (parts_text inner.now.suffix ++ parts_text outer.now.after)) }
    {
        are_joined(self.prefix.as_bytes(), &outer.before, &inner.prefix)
            && are_joined(self.suffix.as_bytes(), &inner.suffix, &outer.after)
    }

    pub(crate) fn texts(&self) -> Affixes<'_>
        ensures prefix { result.prefix.now ≡ self.now.prefix }
        ensures suffix { result.suffix.now ≡ self.now.suffix }
    {
        Affixes {
            prefix: self.prefix.as_str(),
            suffix: self.suffix.as_str(),
        }
    }
}
