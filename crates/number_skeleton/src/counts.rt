//! Runs of one byte, and the numbers of digits that they are.
ghost use Rattle.std.specs.Prelude.{◌≡◌, ◌≤◌, length, take, drop, slice_index};
ghost use Rattle.number_skeleton.specs.Counts.{is_outside, run, is_byte, is_wild, counts};

/// A least and a greatest number of digits; without a greatest one there is no limit.
#[derive(Clone, Copy)]
pub(crate) struct Counts {
    pub min: usize,
    pub max: Option<usize>,
}

/// Returns the byte at an index, or 0 after the end.
pub(crate) fn byte_at(text: &[u8], index: usize) -> u8
    ensures { result ≡ slice_index text.now index }
{
    match text.get(index) {
        Some(byte) => *byte,
        None => 0,
    }
}

/// Returns the bytes before an index.
pub(crate) fn before(text: &[u8], index: usize) -> &[u8]
    ensures { result.now ≡ take index text.now }
{
    if index < text.len() {
        &text[..index]
    } else {
        text
    }
}

pub(crate) fn after(text: &[u8], index: usize) -> &[u8]
    ensures { result.now ≡ drop index text.now }
{
    if index < text.len() {
        &text[index..]
    } else {
        &[]
    }
}

fn is_outside(byte: u8, low: u8, high: u8) -> bool
    ensures { result ≡ is_outside low high byte }
{
    byte < low || byte > high
}

/// Returns the number of bytes from `low` to `high` that a text begins with.
pub(crate) fn run(text: &[u8], low: u8, high: u8) -> usize
    ensures value { result ≡ run low high text.now }
    ensures within { result ≤ length text.now }
{
    for (index, byte) in text.iter().enumerate() {
        if is_outside(*byte, low, high) {
            return index;
        }
    }
    text.len()
}

pub(crate) fn is_byte(text: &[u8], byte: u8) -> bool
    ensures { result ≡ is_byte byte text.now }
{
    text.len() == 1 && byte_at(text, 0) == byte
}

pub(crate) fn is_wild(text: &[u8]) -> bool
    ensures { result ≡ is_wild text.now }
{
    is_byte(text, b'*') || is_byte(text, b'+')
}

/// Reads `00`, `00*` or `00##`, by these two bytes.
pub(crate) fn digit_counts(text: &[u8], least: u8, more: u8) -> Option<Counts>
    ensures { result ≡ counts least more text.now }
{
    let min = run(text, least, least);
    let rest = after(text, min);
    if is_wild(rest) {
        return Some(Counts { min, max: None });
    }
    let extra = run(rest, more, more);
    if extra < rest.len() {
        return None;
    }
    Some(Counts {
        min,
        max: Some(min + extra),
    })
}
