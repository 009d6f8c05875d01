//! White space and marks at the ends of a text, which are parts of their own.
ghost use Rattle.std.specs.{Prelude.{◌≡◌, ◌-◌, ◌≤◌, ◌++◌, [], ◌∷◌, length, take, drop, reverse, MatchOption}, Str.{chars, IsUtf8, encode_utf8_all}, Char.encode_utf8};
ghost use Rattle.number_format.specs.TrimmedTexts.{is_trimmed, from_kept, trimmed_length, kept_length};

pub(crate) fn is_trimmed(c: char) -> bool
    ensures { result ≡ is_trimmed c }
{
    matches!(
        c,
        '\t' | ' '
            | '\u{a0}'
            | '\u{61c}'
            | '\u{1680}'
            | '\u{180b}'..='\u{180d}'
            | '\u{180f}'
            | '\u{2000}'..='\u{200a}'
            | '\u{200e}'
            | '\u{200f}'
            | '\u{202a}'..='\u{202f}'
            | '\u{205f}'
            | '\u{2066}'..='\u{2069}'
            | '\u{3000}'
            | '\u{fe00}'..='\u{fe0f}'
            | '\u{e0100}'..='\u{e01ef}'
    )
}

pub(crate) fn split_first(text: &str) -> Option<(char, &str)>
    ensures { MatchOption result (chars text.now ≡ []) (λ r. (chars text.now ≡ r.0 ∷ chars r.1.now)
        × (text.now ≡ encode_utf8 r.0 ++ r.1.now)) }
{
    let mut chars = text.chars();
    let c = chars.next()?;
    Some((c, chars.as_str()))
}

pub(crate) fn split_last(text: &str) -> Option<(&str, char)>
    ensures { MatchOption result (chars text.now ≡ []) (λ r. (chars text.now ≡ chars r.0.now ++ r.1 ∷ [])
        × (text.now ≡ r.0.now ++ encode_utf8 r.1)) }
{
    let mut chars = text.chars();
    let c = chars.next_back()?;
    Some((chars.as_str(), c))
}

fn without_start(text: &str) -> &str
    ensures bound { length result.now ≤ length text.now }
    ensures end { result.now ≡ drop (length text.now - length result.now) text.now }
    ensures kept { chars result.now ≡ from_kept (chars text.now) }
{
    let mut rest = text;
    while let Some((c, after)) = split_first(rest) {
        if !is_trimmed(c) {
            return rest;
        }
        rest = after;
    }
    rest
}

fn without_end(text: &str) -> &str
    ensures bound { length result.now ≤ length text.now }
    ensures start { result.now ≡ take (length result.now) text.now }
    ensures kept { reverse (chars result.now) ≡ from_kept (reverse (chars text.now)) }
{
    let mut rest = text;
    while let Some((before, c)) = split_last(rest) {
        if !is_trimmed(c) {
            return rest;
        }
        rest = before;
    }
    rest
}

/// Splits a text before the first character that is not trimmed.
pub(crate) fn split_start(text: &str) -> (&str, &str)
    ensures { (result.0.now ≡ take (trimmed_length text.now) text.now)
        × (result.1.now ≡ drop (trimmed_length text.now) text.now) }
{
    text.split_at(text.len() - without_start(text).len())
}

/// Splits a text after the last character that is not trimmed.
pub(crate) fn split_end(text: &str) -> (&str, &str)
    ensures { (result.0.now ≡ take (kept_length text.now) text.now)
        × (result.1.now ≡ drop (kept_length text.now) text.now) }
{
    text.split_at(without_end(text).len())
}
