//! The texts before and after a number, in place.
ghost use Rattle.std.specs.Prelude.{◌≡◌, ◌*◌, ◌≤◌, length, IsSome, IfSome};
ghost use Rattle.number_format.specs.TextParts.{parts_text};

use crate::format::text_part::TextPart;
use arrayvec::ArrayString;
use decimal_format::Affixes;
use std::marker::Model;

/// The text before a number and the text after it: each of at most `CAP` bytes, which are in the value itself.
#[derive(Drop)]
pub(crate) struct ShortAffixes<const CAP: usize> {
    pub(crate) prefix: ArrayString<CAP>,
    pub(crate) suffix: ArrayString<CAP>,
}

impl<const CAP: usize> Model for ShortAffixes<CAP> {
    ghost use Rattle.decimal_format.specs.Symbols.{Affixes, affixes};

    ghost Value = { Affixes };

    ghost view = { λ s. affixes s.prefix.bytes s.suffix.bytes };
}

pub(crate) fn joined<const CAP: usize>(parts: &[TextPart<'_>]) -> Option<ArrayString<CAP>>
    ensures value { IfSome result (λ text. text.bytes ≡ parts_text parts.now) }
    ensures some { 255 * length parts.now ≤ CAP → IsSome result }
{
    let mut text = ArrayString::new();
    for part in parts {
        if text.try_push_str(part.text).is_err() {
            return None;
        }
    }
    Some(text)
}

impl<const CAP: usize> ShortAffixes<CAP> {
    ghost use Rattle.decimal_format.specs.Symbols.{affixes};

    /// Returns the texts of parts, if they are short.
    pub(crate) fn joined(prefix: &[TextPart<'_>], suffix: &[TextPart<'_>]) -> Option<Self>
        ensures value { IfSome result (λ t. t ≡ affixes (parts_text prefix.now) (parts_text suffix.now)) }
        ensures some { 255 * length prefix.now ≤ CAP → 255 * length suffix.now ≤ CAP → IsSome result }
    {
        Some(ShortAffixes {
            prefix: joined(prefix)?,
            suffix: joined(suffix)?,
        })
    }

    #[inline]
    pub(crate) fn texts(&self) -> Affixes<'_>
        ensures prefix { result.prefix.now ≡ self.now.prefix }
        ensures suffix { result.suffix.now ≡ self.now.suffix }
    {
        Affixes {
            prefix: self.prefix.as_str(),
            suffix: self.suffix.as_str(),
        }
    }
}
