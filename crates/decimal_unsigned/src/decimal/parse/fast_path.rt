//! Plain texts: up to 32 digits, with or without a decimal point, as one packed BCD number.
ghost use Rattle.std.specs.Prelude.{◌≡◌, ℕ, ◌+◌, ◌*◌, ◌%◌, ◌^◌, ◌<◌, ◌≤◌, length, take, IfSome};
ghost use Rattle.std.specs.Char.{is_ascii_digit};
ghost use Rattle.std.specs.List.{prefix_len};
ghost use Rattle.std.specs.Str.Parse.{digits_value_after};
ghost use Rattle.decimal_digits.specs.Nibbles.{wide_leading_bytes};
ghost use Rattle.decimal_unsigned.specs.PlainTexts.{IsReadTo, IsPlainText};
ghost use Rattle.decimal_unsigned.specs.Reading.{read};
ghost use Rattle.decimal_unsigned.specs.ScannedDigits.{IsBcdValue};

use super::plan::{Bounds, to_bounds};
use super::words::read_group;
use decimal_digits::ops::subtract_counts;

/// A text of digits, with or without a decimal point: its numbers of integer and of fraction digits, and the number of
/// all of them in base 16.
#[derive(Clone, Copy)]
pub struct PlainText<N> {
    pub whole: usize,
    pub fraction: usize,
    pub number: N,
}

/// A value: the first `len` nibbles of a packed BCD number of 32 nibbles, and their magnitudes.
#[derive(Clone, Copy)]
pub struct WideBcdValue {
    pub number: u128,
    pub len: usize,
    pub bounds: Bounds,
}

/// A word of packed BCD digits: sixteen in a `u64`, 32 in a `u128`.
pub trait BcdWord: Copy {
    /// The word as a number.
    ghost number: { Self → ℕ };

    /// The number of digits of a word.
    ghost digits: { ℕ };

    /// Returns the word of digits 0.
    fn zero() -> Self
        ensures { number result ≡ 0 };

    /// Appends a digit, and loses the first.
    fn append(self, digit: u64) -> Self
        ensures { number result ≡ (number self * 16 % 2 ^ (4 * digits) + digit) % 2 ^ (4 * digits) };

    /// Appends groups of digits at the front of a text, and returns how many digits.
    fn append_groups(self, text: &[u8]) -> (usize, Self)
        ensures within { result.0 ≤ length text.now }
        ensures digits { IsReadTo (2 ^ (4 * digits)) (number self) text.now result.0 (number result.1) };
}

impl BcdWord for u64 {
    ghost number = { λ n. n };

    ghost digits = { 16 };

    #[inline]
    fn zero() -> u64 {
        0
    }

    #[inline]
    fn append(self, digit: u64) -> u64 {
        self.wrapping_mul(16).wrapping_add(digit)
    }

    /// Appends none: short texts are read faster digit by digit.
    #[inline]
    fn append_groups(self, _text: &[u8]) -> (usize, u64) {
        (0, self)
    }
}

impl BcdWord for u128 {
    ghost number = { λ n. n };

    ghost digits = { 32 };

    #[inline]
    fn zero() -> u128 {
        0
    }

    #[inline]
    fn append(self, digit: u64) -> u128 {
        self.wrapping_mul(16).wrapping_add(digit as u128)
    }

    /// Appends groups of eight.
    #[inline]
    fn append_groups(self, text: &[u8]) -> (usize, u128) {
        let mut number = self;
        let mut rest = text;
        while let Some((bytes, others)) = rest.split_first_chunk::<8>() {
            let Some(group) = read_group(bytes) else {
                return (text.len() - rest.len(), number);
            };
            number = (number << 32).wrapping_add(group as u128);
            rest = others;
        }
        (text.len() - rest.len(), number)
    }
}

#[inline]
fn count_digits<W: BcdWord>(before: W, text: &[u8]) -> (usize, W)
    ensures count { result.0 ≡ prefix_len is_ascii_digit text.now }
    ensures number { W.number result.1
        ≡ digits_value_after 16 (W.number before) (take result.0 text.now) % 2 ^ (4 * W.digits) }
{
    let (groups, mut number) = before.append_groups(text);
    for i in groups..text.len() {
        // In 64 bits at once, not first in eight.
        let digit = u64::from(text[i]).wrapping_sub(u64::from(b'0'));
        if digit > 9 {
            return (i, number);
        }
        number = number.append(digit);
    }
    (text.len(), number)
}

/// Returns the digits of a text of up to `most` digits, with or without a decimal point, or None of any other text.
// Inlined always: returned from a call, the digits would pass through memory.
#[inline(always)]
pub fn plain_text<W: BcdWord>(text: &[u8], most: usize) -> Option<PlainText<W>>
    requires held { most ≤ W.digits }
    requires narrow { W.digits ≤ 32 }
    ensures plain { IfSome result (λ p. IsPlainText text.now p.whole p.fraction (W.number p.number)) }
    ensures few { IfSome result (λ p. p.whole + p.fraction ≤ most) }
{
    if text.len() > most + 1 {
        return None;
    }
    let (whole, number) = count_digits(W::zero(), text);
    if whole > most {
        return None;
    }
    match &text[whole..] {
        [] if whole > 0 => Some(PlainText {
            whole,
            fraction: 0,
            number,
        }),
        [b'.', rest @ ..] => {
            let (fraction, number) = count_digits(number, rest);
            if fraction == 0 || fraction < rest.len() {
                return None;
            }
            Some(PlainText {
                whole,
                fraction,
                number,
            })
        }
        _ => None,
    }
}

/// Makes the value of a text of 17 to 32 digits, counted from the first to the last nonzero one, or returns None.
#[inline]
pub fn wide_bcd_value(text: &[u8]) -> Option<WideBcdValue>
    ensures many { IfSome result (λ b. 16 < b.len) }
    ensures value { IfSome result
        (λ b. IsBcdValue (read text.now) (wide_leading_bytes b.number b.len) b.len b.bounds) }
{
    if text.len() <= 16 {
        return None;
    }
    let plain = plain_text::<u128>(text, 32)?;
    let (whole, fraction, number) = (plain.whole, plain.fraction, plain.number);
    if number == 0 {
        return None;
    }
    let zeros = (number.leading_zeros() / 4) as usize;
    let size = 32 - zeros;
    let len = size - (number.trailing_zeros() / 4) as usize;
    if len <= 16 {
        return None;
    }
    let hi = subtract_counts(whole.max(1), 1);
    let lo = subtract_counts(0, fraction);
    Some(WideBcdValue {
        number: number << (4 * zeros),
        len,
        bounds: to_bounds(subtract_counts(size, fraction + 1), hi, lo),
    })
}
