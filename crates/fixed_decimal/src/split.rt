//! Texts split at a letter.
ghost use Rattle.std.specs.{Prelude.{◌≡◌, Some, None, MatchOption}, List.list_any};
ghost use Rattle.decimal_unsigned.specs.Reading.{is_letter};
ghost use Rattle.fixed_decimal.specs.Split.{split_once};

pub(crate) fn split_once(text: &[u8], letter: u8) -> Option<(&[u8], &[u8])>
    ensures { MatchOption result (split_once letter text.now ≡ None)
        (λ parts. split_once letter text.now ≡ Some (parts.0.now, parts.1.now)) }
{
    for (at, byte) in text.iter().enumerate() {
        if *byte == letter {
            return Some((&text[..at], &text[at + 1..]));
        }
    }
    None
}

pub(crate) fn has_letter(text: &[u8]) -> bool
    ensures { result ≡ list_any is_letter text.now }
{
    text.iter().any(|byte| *byte == b'e' || *byte == b'E')
}
