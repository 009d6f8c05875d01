//! Texts in the tables.
ghost use Rattle.std.specs.Prelude.{◌≡◌, ◌+◌, ◌^◌, ◌<◌, ◌≤◌, length};
ghost use Rattle.locale_names.specs.Texts.{bytes_in, text_or_nothing, text_in, short_bytes, short_text, unit_part, unit_text, name_part, name_text};

use crate::tables::currency_texts::{
    NAME_TEXTS_0, NAME_TEXTS_1, NAME_TEXTS_2, NAME_TEXTS_3, NAME_TEXTS_4, NAME_TEXTS_5,
    NAME_TEXTS_6, NAME_TEXTS_7, NAME_TEXTS_8,
};
use crate::tables::rows::TextRange;
use crate::tables::short_texts::SHORT_TEXTS;
use crate::tables::unit_texts::{
    UNIT_TEXTS_0, UNIT_TEXTS_1, UNIT_TEXTS_2, UNIT_TEXTS_3, UNIT_TEXTS_4,
};
use std::str;

/// The number of bytes of a part of the texts, but for the last.
const PART: usize = 131_072;

/// Returns bytes as a text, and no text where they are none.
pub(crate) fn text_or_nothing(bytes: &[u8]) -> &str
    ensures value { result.now ≡ text_or_nothing bytes.now }
    ensures short { length result.now ≤ length bytes.now }
{
    match str::from_utf8(bytes) {
        Ok(text) => text,
        Err(_) => "",
    }
}

fn bytes_in(bytes: &'static [u8], start: usize, len: u8) -> &'static [u8]
    requires { start + len < 2 ^ 64 }
    ensures value { result.now ≡ bytes_in bytes.now start len }
    ensures short { length result.now ≤ len }
{
    let rest = &bytes[bytes.len().min(start)..];
    &rest[..rest.len().min(len as usize)]
}

fn text_in(bytes: &'static [u8], start: usize, len: u8) -> &'static str
    requires { start + len < 2 ^ 64 }
    ensures value { result.now ≡ text_in bytes.now start len }
    ensures short { length result.now ≤ len }
{
    text_or_nothing(bytes_in(bytes, start, len))
}

/// Returns the bytes of a short text.
pub(crate) fn short_bytes(range: TextRange) -> &'static [u8]
    ensures { result.now ≡ short_bytes range }
{
    bytes_in(&SHORT_TEXTS, range.start as usize, range.len)
}

/// Returns a short text.
pub(crate) fn short_text(range: TextRange) -> &'static str
    ensures value { result.now ≡ short_text range }
    ensures short { length result.now ≤ 255 }
{
    text_in(&SHORT_TEXTS, range.start as usize, range.len)
}

fn unit_part(index: usize) -> &'static [u8]
    ensures { result.now ≡ unit_part index }
{
    if index == 0 {
        &UNIT_TEXTS_0
    } else if index == 1 {
        &UNIT_TEXTS_1
    } else if index == 2 {
        &UNIT_TEXTS_2
    } else if index == 3 {
        &UNIT_TEXTS_3
    } else if index == 4 {
        &UNIT_TEXTS_4
    } else {
        &[]
    }
}

/// Returns a text of the patterns of units.
pub(crate) fn unit_text(start: usize, len: u8) -> &'static str
    ensures value { result.now ≡ unit_text start len }
    ensures short { length result.now ≤ len }
{
    text_in(unit_part(start / PART), start % PART, len)
}

fn name_part(index: usize) -> &'static [u8]
    ensures { result.now ≡ name_part index }
{
    if index == 0 {
        &NAME_TEXTS_0
    } else if index == 1 {
        &NAME_TEXTS_1
    } else if index == 2 {
        &NAME_TEXTS_2
    } else if index == 3 {
        &NAME_TEXTS_3
    } else if index == 4 {
        &NAME_TEXTS_4
    } else if index == 5 {
        &NAME_TEXTS_5
    } else if index == 6 {
        &NAME_TEXTS_6
    } else if index == 7 {
        &NAME_TEXTS_7
    } else if index == 8 {
        &NAME_TEXTS_8
    } else {
        &[]
    }
}

/// Returns a text of the names of currencies.
pub(crate) fn name_text(start: usize, len: u8) -> &'static str
    ensures value { result.now ≡ name_text start len }
    ensures short { length result.now ≤ len }
{
    text_in(name_part(start / PART), start % PART, len)
}
