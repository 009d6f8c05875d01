//! The codes that a text consists of: digits, separators and the prefixes of signs.
ghost use Rattle.std.specs.Prelude.{◌≡◌, ◌≢◌, ℕ, ◌+◌, ◌<◌, ◌≤◌, List, ◌∷◌, ◌++◌, ◌↔◌, IfSome, IsSomeAnd, MatchOption, IsTrue, true};
ghost use Rattle.decimal_format.specs.{Symbols.{digit_text, sign_affixes}, Readable.{code, BeginsWith, IsOther, IsApart, IsReadable, BeginsWithDigit, EndsWithDigit}, Scanning.ReadsRun};

use crate::reader::input::{Input, count, skip};
use crate::symbols::DecimalSymbols;
use fixed_decimal::Sign;

/// Returns what follows a byte at the start of a text.
#[inline]
pub fn cut_byte<T: Input>(text: T, byte: u8) -> Option<T>
    ensures { MatchOption result ((rest : List ℕ) → T.bytes text ≢ byte ∷ rest)
        (λ r. T.bytes text ≡ byte ∷ T.bytes r) }
{
    let (first, rest) = text.split_first()?;
    if first == byte { Some(rest) } else { None }
}

/// Returns what follows a code at the start of a text. Most codes have one to three bytes.
#[inline]
pub fn cut<T: Input>(text: T, code: &[u8]) -> Option<T>
    ensures { MatchOption result ((rest : List ℕ) → T.bytes text ≢ code.now ++ rest)
        (λ r. T.bytes text ≡ code.now ++ T.bytes r) }
{
    let mut rest = text;
    for byte in code {
        rest = cut_byte(rest, *byte)?;
    }
    Some(rest)
}

/// Returns what precedes a code at the end of a text.
pub fn cut_end<T: Input>(text: T, code: &[u8]) -> Option<T>
    ensures { MatchOption result ((front : List ℕ) → T.bytes text ≢ front ++ code.now)
        (λ r. T.bytes text ≡ T.bytes r ++ code.now) }
{
    if code.is_empty() {
        return Some(text);
    }
    let front = count(text).checked_sub(code.len())?;
    cut(skip(text, front), code)?;
    Some(text.first(front))
}

#[inline(always)]
fn next_ascii_digit<T: Input>(text: T) -> Option<(u8, T)>
    ensures { MatchOption result ((d : ℕ) (rest : List ℕ) → d < 10 → T.bytes text ≢ (48 + d) ∷ rest)
        (λ r. (r.0 < 10) × (T.bytes text ≡ (48 + r.0) ∷ T.bytes r.1)) }
{
    let (byte, rest) = text.split_first()?;
    if byte.is_ascii_digit() {
        Some((byte - b'0', rest))
    } else {
        None
    }
}

impl<'a> DecimalSymbols<'a> {
    fn code<'t>(&'t self, index: u8, buffer: &'t mut [u8; 4]) -> &'t [u8]
        requires { index < 14 }
        ensures { result.now ≡ code self.now index }
    {
        match index {
            10 => self.decimal_separator().as_bytes(),
            11 => self.grouping_separator().as_bytes(),
            12 => self.affixes(Sign::Negative).prefix.as_bytes(),
            13 => self.affixes(Sign::Positive).prefix.as_bytes(),
            _ => self.digit(index).encode_utf8(buffer).as_bytes(),
        }
    }

    fn begins(&self, all: u8, part: u8) -> bool
        requires all_in { all < 14 }
        requires part_in { part < 14 }
        ensures { IsTrue result ↔ BeginsWith (code self.now all) (code self.now part) }
    {
        let mut first = [0; 4];
        let mut second = [0; 4];
        cut(self.code(all, &mut first), self.code(part, &mut second)).is_some()
    }

    fn is_other(&self, all: u8, part: u8) -> bool
        requires all_in { all < 14 }
        requires part_in { part < 14 }
        ensures { IsTrue result ↔ IsOther self.now part all }
    {
        all == part || !self.begins(all, part)
    }

    fn is_apart(&self, part: u8) -> bool
        requires { part < 14 }
        ensures { IsTrue result ↔ IsApart self.now part }
    {
        for all in 0..14 {
            if !self.is_other(all, part) {
                return false;
            }
        }
        true
    }

    /// Returns whether texts with these symbols can be read: no digit, separator or prefix of a sign begins with
    /// another one.
    ///
    /// This holds for all symbols of CLDR. It does not hold if the two separators are equal, or one of them is empty.
    pub fn is_readable(&self) -> bool
        ensures { IsTrue result ↔ IsReadable self.now }
    {
        for part in 0..14 {
            if !self.is_apart(part) {
                return false;
            }
        }
        true
    }

    fn cut_digit<T: Input>(&self, text: T, digit: u8) -> Option<T>
        requires { digit < 10 }
        ensures { MatchOption result ((rest : List ℕ) → T.bytes text ≢ digit_text self.now digit ++ rest)
            (λ r. T.bytes text ≡ digit_text self.now digit ++ T.bytes r) }
    {
        let mut buffer = [0; 4];
        let code = self.digit(digit).encode_utf8(&mut buffer);
        cut(text, code.as_bytes())
    }

    /// Returns the only digit that a text can begin with, if the ten digits are consecutive characters.
    fn likely_digit<T: Input>(&self, text: T) -> Option<u8>
        ensures { IfSome result (λ d. d < 10) }
    {
        let zero = u32::from(self.digit(0));
        let last = text.byte_at(self.digit_width().wrapping_sub(1))?;
        // The last byte of a character has the low six bits of its code point.
        let digit = (u32::from(last) & 0x3f).wrapping_sub(zero & 0x3f);
        if digit < 10 { Some(digit as u8) } else { None }
    }

    #[inline(always)]
    pub(crate) fn next_digit<T: Input>(&self, text: T) -> Option<(u8, T)>
        requires { IsReadable self.now }
        ensures { MatchOption result ((d : ℕ) (rest : List ℕ) → d < 10 → T.bytes text ≢ digit_text self.now d ++ rest)
            (λ r. (r.0 < 10) × (T.bytes text ≡ digit_text self.now r.0 ++ T.bytes r.1)) }
    {
        if self.has_ascii_digits() {
            return next_ascii_digit(text);
        }
        self.next_other_digit(text)
    }

    fn begins_with_separator<T: Input>(&self, text: T) -> bool
        requires { IsReadable self.now }
        ensures { IsTrue result → (d : ℕ) (rest : List ℕ) → d < 10 → T.bytes text ≢ digit_text self.now d ++ rest }
    {
        cut(text, self.grouping_separator().as_bytes()).is_some()
            || cut(text, self.decimal_separator().as_bytes()).is_some()
    }

    #[inline(never)]
    fn next_other_digit<T: Input>(&self, text: T) -> Option<(u8, T)>
        requires { IsReadable self.now }
        ensures { MatchOption result ((d : ℕ) (rest : List ℕ) → d < 10 → T.bytes text ≢ digit_text self.now d ++ rest)
            (λ r. (r.0 < 10) × (T.bytes text ≡ digit_text self.now r.0 ++ T.bytes r.1)) }
    {
        if text.is_empty() {
            return None;
        }
        if let Some(digit) = self.likely_digit(text) {
            if let Some(rest) = self.cut_digit(text, digit) {
                return Some((digit, rest));
            }
        }
        if self.begins_with_separator(text) {
            return None;
        }
        for digit in 0..10 {
            if let Some(rest) = self.cut_digit(text, digit) {
                return Some((digit, rest));
            }
        }
        None
    }

    /// Reads up to `most` digits that follow each other: returns the last sixteen as packed BCD, their number, and what
    /// follows them.
    #[inline(always)]
    pub(crate) fn read_run<T: Input>(&self, most: usize, text: T) -> (u64, usize, T)
        requires { IsReadable self.now }
        ensures { ReadsRun self.now most (T.bytes text) (T.bytes result.2) result.0 result.1 }
    {
        let mut rest = text;
        let mut number = 0;
        let mut count = 0;
        while count < most {
            let Some(next) = self.next_digit(rest) else {
                return (number, count, rest);
            };
            number = (number << 4) + u64::from(next.0);
            count += 1;
            rest = next.1;
        }
        (number, count, rest)
    }

    #[inline(never)]
    fn split_prefix<T: Input>(&self, text: T) -> (Sign, T)
        requires { IsReadable self.now }
        ensures found { T.bytes text ≡ (sign_affixes self.now result.0).prefix ++ T.bytes result.1 }
        ensures unique { (sign : Sign) (rest : List ℕ) → BeginsWithDigit self.now rest
            → T.bytes text ≡ (sign_affixes self.now sign).prefix ++ rest
            → (result.0 ≡ sign) × (T.bytes result.1 ≡ rest) }
    {
        if let Some(rest) = cut(text, self.affixes(Sign::Negative).prefix.as_bytes()) {
            return (Sign::Negative, rest);
        }
        if let Some(rest) = cut(text, self.affixes(Sign::Positive).prefix.as_bytes()) {
            return (Sign::Positive, rest);
        }
        (Sign::None, text)
    }

    #[inline(always)]
    pub(crate) fn split_sign<T: Input>(&self, text: T) -> Option<(Sign, T)>
        requires { IsReadable self.now }
        ensures found { IfSome result (λ r. T.bytes text
            ≡ (sign_affixes self.now r.0).prefix ++ (T.bytes r.1 ++ (sign_affixes self.now r.0).suffix)) }
        ensures unique { (sign : Sign) (number : List ℕ) → BeginsWithDigit self.now number
            → T.bytes text ≡ (sign_affixes self.now sign).prefix ++ (number ++ (sign_affixes self.now sign).suffix)
            → IsSomeAnd result (λ r. (r.0 ≡ sign) × (T.bytes r.1 ≡ number)) }
    {
        // No prefix begins with a digit.
        if self.has_ascii_digits() {
            if let Some((_, _)) = next_ascii_digit(text) {
                return Some((Sign::None, text));
            }
        }
        let (sign, rest) = self.split_prefix(text);
        let number = cut_end(rest, self.affixes(sign).suffix.as_bytes())?;
        Some((sign, number))
    }
}

/// Returns whether a text begins with a digit. Requires readable symbols.
pub fn begins_with_digit(symbols: &DecimalSymbols<'_>, text: &[u8]) -> bool
    requires { IsReadable symbols.now }
    ensures { IsTrue result ↔ BeginsWithDigit symbols.now text.now }
{
    symbols.next_digit(text).is_some()
}

/// Returns whether a text ends with a digit. Requires readable symbols.
pub fn ends_with_digit(symbols: &DecimalSymbols<'_>, text: &[u8]) -> bool
    requires { IsReadable symbols.now }
    ensures { IsTrue result ↔ EndsWithDigit symbols.now text.now }
{
    match text.len().checked_sub(symbols.digit_width()) {
        Some(front) => begins_with_digit(symbols, &text[front..]),
        None => false,
    }
}
