//! Reading of numbers as people type them.
ghost use Rattle.std.specs.{Prelude.{◌≡◌, ◌≤◌, ℕ, [], ◌∷◌, length, IfSome, MatchOption}, List.list_any, Str.{IsUtf8, chars}};
ghost use Rattle.decimal_format.specs.{Lenient.{is_mark, is_minus, is_plus, is_space, is_apostrophe, is_separator, replacement, replaced, normalized, IsTyped, IsTypedNumeral}, Readable.IsReadable, Reading.IsRead, Scanning.left_of};

use crate::block::Block;
use crate::reader::input::Input;
use crate::symbols::DecimalSymbols;
use fixed_decimal::{DigitStore, ParseError, Sign, Signed, UnsignedOver};
use std::alloc::Global;

fn is_mark(c: char) -> bool
    ensures { result ≡ is_mark c }
{
    c == '\u{200e}' || c == '\u{200f}' || c == '\u{61c}'
}

fn is_minus(c: char) -> bool
    ensures { result ≡ is_minus c }
{
    matches!(
        c,
        '-' | '\u{2212}' | '\u{2010}' | '\u{2011}' | '\u{2012}' | '\u{fe63}' | '\u{ff0d}'
    )
}

fn is_plus(c: char) -> bool
    ensures { result ≡ is_plus c }
{
    matches!(c, '+' | '\u{ff0b}')
}

fn is_space(c: char) -> bool
    ensures { result ≡ is_space c }
{
    matches!(c, ' ' | '\u{a0}' | '\u{202f}' | '\u{2009}')
}

fn is_apostrophe(c: char) -> bool
    ensures { result ≡ is_apostrophe c }
{
    matches!(c, '\'' | '\u{2019}')
}

fn split_first_char(text: &str) -> Option<(char, &str)>
    ensures { MatchOption result (chars text.now ≡ []) (λ r. (chars text.now ≡ r.0 ∷ chars r.1.now) × IsUtf8 r.1.now) }
{
    let mut chars = text.chars();
    let c = chars.next()?;
    Some((c, chars.as_str()))
}

/// The bytes of a normal form that are left to read. They are made as they are read, without memory.
#[derive(Clone, Copy)]
pub(crate) struct Normalized<'t, 'a> {
    symbols: &'t DecimalSymbols<'a>,
    text: &'t str,
    /// The number of bytes of the normal form of `text` that were read.
    read: usize,
    /// The number of bytes that follow at most.
    left: usize,
}

impl<'t, 'a> Normalized<'t, 'a> {
    /// Makes the normal form of a text.
    pub fn new(symbols: &'t DecimalSymbols<'a>, text: &'t str) -> Self
        ensures { left_of result ≡ normalized symbols.now text.now }
    {
        Normalized {
            symbols,
            text,
            read: 0,
            left: usize::MAX,
        }
    }
}

impl<'t, 'a> Input for Normalized<'t, 'a> {
    ghost use Rattle.decimal_format.specs.Scanning.{left_of};

    ghost bytes = { left_of };

    fn is_empty(self) -> bool {
        self.split_first().is_none()
    }

    fn split_first(self) -> Option<(u8, Self)> {
        if self.left == 0 {
            return None;
        }
        let mut text = self.text;
        let mut read = self.read;
        while let Some((c, rest)) = split_first_char(text) {
            let mut buffer = [0; 4];
            let bytes = self.symbols.replacement(c, &mut buffer);
            if read < bytes.len() {
                let after = Normalized {
                    symbols: self.symbols,
                    text,
                    read: read + 1,
                    left: self.left - 1,
                };
                return Some((bytes[read], after));
            }
            read -= bytes.len();
            text = rest;
        }
        None
    }

    fn first(self, count: usize) -> Self {
        Normalized {
            symbols: self.symbols,
            text: self.text,
            read: self.read,
            left: count,
        }
    }

    fn byte_at(self, _index: usize) -> Option<u8> {
        None
    }
}

impl<'a> DecimalSymbols<'a> {
    fn groups_by_space(&self) -> bool
        ensures { result ≡ list_any is_space (chars self.now.grouping) }
    {
        self.grouping_separator().chars().any(|c| is_space(c))
    }

    fn groups_by_apostrophe(&self) -> bool
        ensures { result ≡ list_any is_apostrophe (chars self.now.grouping) }
    {
        self.grouping_separator().chars().any(|c| is_apostrophe(c))
    }

    fn is_separator(&self, c: char) -> bool
        ensures { result ≡ is_separator self.now c }
    {
        is_space(c) && self.groups_by_space() || is_apostrophe(c) && self.groups_by_apostrophe()
    }

    fn replacement<'t>(&'t self, c: char, buffer: &'t mut [u8; 4]) -> &'t [u8]
        ensures { result.now ≡ replacement self.now c }
    {
        if is_mark(c) {
            return &[];
        }
        if is_minus(c) {
            return self.affixes(Sign::Negative).prefix.as_bytes();
        }
        if is_plus(c) {
            return self.affixes(Sign::Positive).prefix.as_bytes();
        }
        if self.is_separator(c) {
            return self.grouping_separator().as_bytes();
        }
        if is_space(c) {
            return b" ";
        }
        if c.is_ascii_digit() {
            let digit = (c as u32 - 48) as u8;
            return self.digit(digit).encode_utf8(buffer).as_bytes();
        }
        c.encode_utf8(buffer).as_bytes()
    }

    pub(crate) fn normal_block(&self, text: &str) -> Option<Block>
        ensures { IfSome result (λ b. (b.0 ≡ replaced self.now text.now) × (length b.0 ≤ 192)) }
    {
        let mut block = Block::new();
        let mut rest = text;
        while let Some((c, after)) = split_first_char(rest) {
            let mut buffer = [0; 4];
            if block.append((&*self).replacement(c, &mut buffer)).is_err() {
                return None;
            }
            rest = after;
        }
        Some(block)
    }

    /// Reads a decimal as people type it.
    ///
    /// A text that [`read`](Self::read) accepts has the same value. In any other text direction marks are ignored, and
    /// characters that people type instead of those of the locale are accepted: ASCII digits, minus signs and hyphens,
    /// spaces if the grouping separator is a space, and apostrophes if it is an apostrophe. Separators are optional, at
    /// the ends of groups: with those of `en`, `1234,567` is 1234567, and `12,34` is `Syntax`. Requires readable
    /// symbols.
    ///
    /// ```
    /// let symbols = locale("fr")?; // 1 234,5 with a narrow no-break space
    /// symbols.read_lenient(alloc, "1 234,5")? // 1234.5: the space of the keyboard is accepted
    /// ```
    ///
    /// # Errors
    ///
    /// As for [`read`](Self::read).
    pub fn read_lenient<D: DigitStore>(
        &self,
        alloc: Global,
        text: &str,
    ) -> Result<Signed<UnsignedOver<D>>, ParseError>
        requires { IsReadable self.now }
        ensures { IsRead D.L (IsTypedNumeral self.now text.now) (λ v. IsTyped self.now v text.now) result }
    {
        match self.read(alloc, text.as_bytes()) {
            Ok(value) => Ok(value),
            Err(ParseError::Syntax) => match self.normal_block(text) {
                Some(block) => self.read_groups(alloc, block.as_bytes(), false),
                None => self.read_groups(alloc, Normalized::new(self, text), false),
            },
            Err(ParseError::Limit) => Err(ParseError::Limit),
            Err(ParseError::Memory) => Err(ParseError::Memory),
        }
    }
}
