//! The decimals of `scale/` and `precision-increment/`.
ghost use Rattle.std.specs.Prelude.{◌≡◌, ◌≤◌, ◌<◌, length, pos, negsuc, ◌+ℤ◌, ◌-ℤ◌, ◌≤ℤ◌, IfSome};
ghost use Rattle.number_skeleton.specs.Decimal.{sign_length, no_digits, with_byte, significand, exponent_size, exponent, fraction_length, after_fraction, after_point, scaled, decimal};

use crate::counts::{after, before, byte_at, run};

/// The significant digits of a number, and how many zeros follow them.
#[derive(Clone, Copy)]
pub(crate) struct Significand {
    /// The significant digits as an integer; 100 if they are more than two.
    pub digits: u16,
    pub zeros: usize,
}

/// A decimal of a skeleton: `digits` times 10 to the power of `power`.
#[derive(Clone, Copy)]
pub(crate) struct Decimal {
    pub is_negative: bool,
    /// The significant digits as an integer; 100 if they are more than two.
    pub digits: u16,
    pub power: i128,
    /// The number of bytes after the decimal point, if there is one.
    pub after_point: Option<usize>,
}

impl Significand {
    fn with_byte(self, byte: u8) -> Self
        requires { self.zeros < 18446744073709551615 }
        ensures { result ≡ with_byte self byte }
    {
        let digit = byte.saturating_sub(b'0') as u16;
        let (digits, zeros) = if byte == b'.' {
            (self.digits, self.zeros)
        } else if byte == b'0' {
            (self.digits, self.zeros + 1)
        } else if self.digits == 0 {
            (digit, 0)
        } else if self.digits < 10 && self.zeros == 0 {
            (self.digits * 10 + digit, 0)
        } else {
            (100, 0)
        };
        Significand { digits, zeros }
    }
}

fn significand_of(mantissa: &[u8]) -> Significand
    ensures value { result ≡ significand mantissa.now }
    ensures few { result.zeros ≤ length mantissa.now }
{
    let mut significand = Significand {
        digits: 0,
        zeros: 0,
    };
    for byte in mantissa {
        significand = significand.with_byte(*byte);
    }
    significand
}

fn sign_length(text: &[u8]) -> usize
    ensures { result ≡ sign_length text.now }
{
    match byte_at(text, 0) {
        b'+' | b'-' => 1,
        _ => 0,
    }
}

/// Returns an integer of digits, or 10^9 if it is not less.
fn exponent_size(digits: &[u8]) -> u64
    ensures value { result ≡ exponent_size digits.now }
    ensures at_most { result ≤ 1000000000 }
{
    let mut size: u64 = 0;
    for byte in digits {
        size = (size * 10 + byte.saturating_sub(b'0') as u64).min(1_000_000_000);
    }
    size
}

fn exponent(text: &[u8]) -> Option<i128>
    ensures value { result ≡ exponent text.now }
    ensures small { IfSome result (λ e. (negsuc 999999999 ≤ℤ e) × (e ≤ℤ pos 999999999)) }
{
    if text.is_empty() {
        return Some(0);
    }
    let signed = after(text, 1);
    let digits = after(signed, sign_length(signed));
    let size = exponent_size(digits) as i128;
    if byte_at(text, 0) != b'e' && byte_at(text, 0) != b'E'
        || digits.is_empty()
        || run(digits, b'0', b'9') < digits.len()
        || size == 1_000_000_000
    {
        return None;
    }
    if byte_at(signed, 0) == b'-' {
        return Some(-size);
    }
    Some(size)
}

fn fraction_length(rest: &[u8]) -> usize
    ensures value { result ≡ fraction_length rest.now }
    ensures within { result ≤ length rest.now }
{
    if byte_at(rest, 0) == b'.' {
        return run(after(rest, 1), b'0', b'9');
    }
    0
}

fn after_fraction(rest: &[u8]) -> &[u8]
    ensures { result.now ≡ after_fraction rest.now }
{
    if byte_at(rest, 0) == b'.' {
        return after(rest, fraction_length(rest) + 1);
    }
    rest
}

fn after_point(rest: &[u8]) -> Option<usize>
    ensures { result ≡ after_point rest.now }
{
    if byte_at(rest, 0) == b'.' {
        return Some(after(rest, 1).len());
    }
    None
}

fn scaled(significand: Significand, exponent: i128, is_negative: bool, rest: &[u8]) -> Decimal
    requires at_least { negsuc 999999999 ≤ℤ exponent }
    requires at_most { exponent ≤ℤ pos 999999999 }
    ensures { result ≡ scaled significand exponent is_negative rest.now }
{
    Decimal {
        is_negative,
        digits: significand.digits,
        power: significand.zeros as i128 + exponent - fraction_length(rest) as i128,
        after_point: after_point(rest),
    }
}

/// Reads a decimal, as `0.05`, `+5.` or `1e-2`.
pub(crate) fn read_decimal(text: &[u8]) -> Option<Decimal>
    ensures { result ≡ decimal text.now }
{
    let unsigned = after(text, sign_length(text));
    let integer = run(unsigned, b'0', b'9');
    let rest = after(unsigned, integer);
    let fraction = fraction_length(rest);
    let tail = after_fraction(rest);
    if integer == 0 && fraction == 0 {
        return None;
    }
    let exponent = exponent(tail)?;
    let mantissa = before(unsigned, unsigned.len().saturating_sub(tail.len()));
    let is_negative = byte_at(text, 0) == b'-';
    Some(scaled(significand_of(mantissa), exponent, is_negative, rest))
}
