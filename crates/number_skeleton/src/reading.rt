//! The pieces of a skeleton, one after another.
ghost use Rattle.std.specs.Prelude.{◌≡◌, ◌+◌, ◌<◌, ◌^◌, ◌≤◌, length};
ghost use Rattle.number_skeleton.specs.Reading.{separator_length, no_stems, read_stem, read_piece, at_end, next, choices_of};

use crate::choices::{Choices, Span};
use crate::counts::byte_at;
use crate::error::SkeletonError;
use crate::meaning::Expected;
use crate::options::option;
use crate::stems::stem;

/// What the pieces so far have chosen.
#[derive(Clone, Copy)]
pub(crate) struct Reading {
    pub choices: Choices,
    /// What the next piece may be.
    pub expected: Expected,
    /// The last stem.
    pub stem: Span,
}

impl Reading {
    fn new() -> Self
        ensures { result ≡ no_stems }
    {
        Reading {
            choices: Choices {
                notation: None,
                unit: None,
                per_unit: None,
                usage: None,
                precision: None,
                strips_if_integer: false,
                mode: None,
                grouping: None,
                integer: None,
                system: None,
                width: None,
                sign: None,
                decimal_separator: None,
                scale: None,
            },
            expected: Expected::Stem,
            stem: Span { start: 0, end: 0 },
        }
    }

    fn read_stem(self, stem_span: Span, text: &[u8]) -> Option<Self>
        ensures { result ≡ read_stem self stem_span text.now }
    {
        let meaning = stem(text)?;
        if self.choices.has(meaning.choice) {
            return None;
        }
        Some(Reading {
            choices: self.choices.with(meaning.choice, stem_span),
            expected: meaning.expected,
            stem: stem_span,
        })
    }

    #[tactic(auto, unfolding(crate::specs::Reading::read_piece))]
    fn read_piece(self, start: usize, text: &[u8]) -> Option<Self>
        requires { start + length text.now < 2 ^ 64 }
        ensures { result ≡ read_piece self start text.now }
    {
        if !self.expected.is_stem() {
            if text.is_empty() {
                return None;
            }
            let meaning = option(self.expected, text)?;
            return Some(Reading {
                choices: self.choices.with(meaning.choice, self.stem),
                expected: meaning.expected,
                stem: self.stem,
            });
        }
        if text.is_empty() {
            return Some(self);
        }
        let end = start + text.len();
        self.read_stem(Span { start, end }, text)
    }

    fn at_end(self, ends_in_slash: bool, at: usize) -> Result<Self, SkeletonError>
        ensures { result ≡ at_end ends_in_slash at self }
    {
        if ends_in_slash {
            if self.expected.is_stem() {
                return Err(SkeletonError::Syntax { at });
            }
            return Ok(self);
        }
        if self.expected.needs_option() {
            return Err(SkeletonError::Syntax { at });
        }
        Ok(Reading {
            choices: self.choices,
            expected: Expected::Stem,
            stem: self.stem,
        })
    }

    /// Reads the piece from an offset, which a slash ends, or a white space or the end of the text.
    #[tactic(auto, unfolding(crate::specs::Reading::next))]
    fn next(self, start: usize, text: &[u8], ends_in_slash: bool) -> Result<Self, SkeletonError>
        requires { start + length text.now < 2 ^ 64 }
        ensures { result ≡ next self start text.now ends_in_slash }
    {
        match self.read_piece(start, text) {
            Some(reading) => reading.at_end(ends_in_slash, start + text.len()),
            None => Err(SkeletonError::Syntax { at: start }),
        }
    }
}

/// Returns the number of bytes of the slash or the white space that a text ends in, or 0.
#[tactic(auto, unfolding(crate::specs::Reading::separator_length))]
fn separator_length(text: &[u8]) -> usize
    ensures value { result ≡ separator_length text.now }
    ensures within { result ≤ length text.now }
{
    let len = text.len();
    if len == 0 {
        return 0;
    }
    match text[len - 1] {
        b'\t'..=b'\r' | b' ' | b'/' => 1,
        0x85 if len > 1 && text[len - 2] == 0xc2 => 2,
        0x8e | 0x8f | 0xa8 | 0xa9 if len > 2 && text[len - 2] == 0x80 && text[len - 3] == 0xe2 => 3,
        _ => 0,
    }
}

/// Returns what the stems of a text choose.
pub(crate) fn read_choices(text: &[u8]) -> Result<Choices, SkeletonError>
    ensures { result ≡ choices_of text.now }
{
    let mut reading = Reading::new();
    let mut start = 0;
    for (index, byte) in text.iter().enumerate() {
        let piece = &text[start..index + 1];
        let length = separator_length(piece);
        if length > 0 {
            reading = reading.next(start, &piece[..piece.len() - length], *byte == b'/')?;
            start = index + 1;
        }
    }
    Ok(reading.next(start, &text[start..], false)?.choices)
}
