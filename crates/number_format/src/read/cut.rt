//! What is left of a text without its start or its end.
ghost use Rattle.std.specs.Prelude.{◌≡◌, ◌≢◌, ℕ, ◌<◌, List, ◌++◌, MatchOption};
ghost use Rattle.decimal_format.specs.Readable.{code};

use decimal_format::DecimalSymbols;

/// Returns what follows a code at the start of a text.
pub(crate) fn cut<'t>(text: &'t [u8], code: &[u8]) -> Option<&'t [u8]>
    ensures { MatchOption result ((rest : List ℕ) → text.now ≢ code.now ++ rest)
        (λ r. text.now ≡ code.now ++ r.now) }
{
    if code.is_empty() {
        return Some(text);
    }
    text.strip_prefix(code)
}

/// Returns what precedes a code at the end of a text.
fn cut_end<'t>(text: &'t [u8], code: &[u8]) -> Option<&'t [u8]>
    ensures { MatchOption result ((front : List ℕ) → text.now ≢ front ++ code.now)
        (λ front. text.now ≡ front.now ++ code.now) }
{
    if code.is_empty() {
        return Some(text);
    }
    text.strip_suffix(code)
}

/// Returns what is between two texts.
pub(crate) fn cut_affixes<'t>(text: &'t [u8], prefix: &[u8], suffix: &[u8]) -> Option<&'t [u8]>
    ensures { MatchOption result ((middle : List ℕ) → text.now ≢ prefix.now ++ (middle ++ suffix.now))
        (λ middle. text.now ≡ prefix.now ++ (middle.now ++ suffix.now)) }
{
    cut_end(cut(text, prefix)?, suffix)
}

/// Returns what follows a digit, or the separator 10 or 11.
pub(crate) fn cut_code<'t>(
    symbols: &DecimalSymbols<'_>,
    index: u8,
    text: &'t [u8],
) -> Option<&'t [u8]>
    requires { index < 12 }
    ensures { MatchOption result ((rest : List ℕ) → text.now ≢ code symbols.now index ++ rest)
        (λ r. text.now ≡ code symbols.now index ++ r.now) }
{
    match index {
        10 => cut(text, symbols.decimal_separator().as_bytes()),
        11 => cut(text, symbols.grouping_separator().as_bytes()),
        _ => {
            let mut buffer = [0; 4];
            cut(
                text,
                symbols.digit(index).encode_utf8(&mut buffer).as_bytes(),
            )
        }
    }
}
