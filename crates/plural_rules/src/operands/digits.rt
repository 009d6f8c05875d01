//! Some of the digits of a number, as an integer.
ghost use Rattle.std.specs.Prelude.{◌≡◌, ◌+◌, ◌*◌, ◌%◌, ◌^◌, ◌<◌, ◌≤◌, IfSome};
ghost use Rattle.decimal_digits.specs.Number.{offset};
ghost use Rattle.plural_rules.specs.DigitSlice.{digit_slice, IsUpTo};

use decimal_digits::ops::magnitude_below;
use fixed_decimal::{DigitStore, UnsignedOver};
use std::marker::Model;

/// The digits of a value at consecutive magnitudes, from `top` downward.
///
/// Contracts see the integer that they make.
#[derive(Drop)]
pub(super) struct Digits<'a, D: DigitStore> {
    value: &'a UnsignedOver<D>,
    top: i16,
    count: u32,
}

impl<'a, D: DigitStore> Model for Digits<'a, D> {
    ghost use Rattle.std.specs.Prelude.{ℕ, ◌+◌, ◌≤◌};
    ghost use Rattle.decimal_digits.specs.Number.{offset};
    ghost use Rattle.plural_rules.specs.DigitSlice.{digit_slice};

    ghost Value = { ℕ };

    ghost view = { λ s. digit_slice s.value.now.number (offset s.top + 1) s.count };

    ghost invariant = { λ s. s.count ≤ offset s.top + 1 };
}

impl<'a, D: DigitStore> Digits<'a, D> {
    pub(super) fn new(value: &'a UnsignedOver<D>, top: i16, count: u32) -> Self
        requires { count ≤ offset top + 1 }
        ensures { result ≡ digit_slice value.now.number (offset top + 1) count }
    {
        Digits { value, top, count }
    }

    pub(super) fn up_to(&self, most: u64) -> Option<u64>
        ensures { IsUpTo most result self.now }
    {
        digits_up_to(self.value, self.top, self.count, most)
    }

    pub(super) fn modulo(&self, modulus: u64) -> u64
        requires positive { 0 < modulus }
        requires at_most { modulus ≤ 10 ^ 18 }
        ensures { result ≡ self.now % modulus }
    {
        digits_modulo(self.value, self.top, self.count, modulus)
    }
}

fn digit_below<D: DigitStore>(value: &UnsignedOver<D>, top: i16, below: u32) -> u8
    requires { below < offset top + 1 }
    ensures next { digit_slice value.now.number (offset top + 1) (below + 1)
        ≡ digit_slice value.now.number (offset top + 1) below * 10 + result }
    ensures is_digit { result < 10 }
{
    value.digit_at(magnitude_below(top, below))
}

// Reads no digit after the one that exceeds `most`.
fn digits_up_to<D: DigitStore>(
    value: &UnsignedOver<D>,
    top: i16,
    count: u32,
    most: u64,
) -> Option<u64>
    requires in_limits { count ≤ offset top + 1 }
    ensures { IsUpTo most result (digit_slice value.now.number (offset top + 1) count) }
{
    let mut found: u64 = 0;
    for below in 0..count {
        let longer = found as u128 * 10 + digit_below(value, top, below) as u128;
        if longer > most as u128 {
            return None;
        }
        found = longer as u64;
    }
    Some(found)
}

// `None` for other numbers than 10^0 to 10^18.
fn exact_log10(power: u64) -> Option<u32>
    ensures { IfSome result (λ zeros. power ≡ 10 ^ zeros) }
{
    let mut next: u64 = 1;
    for zeros in 0..19 {
        if next == power {
            return Some(zeros);
        }
        next *= 10;
    }
    None
}

// A modulus 10^k reads the last k digits.
fn digits_modulo<D: DigitStore>(value: &UnsignedOver<D>, top: i16, count: u32, modulus: u64) -> u64
    requires positive { 0 < modulus }
    requires at_most { modulus ≤ 10 ^ 18 }
    requires in_limits { count ≤ offset top + 1 }
    ensures { result ≡ digit_slice value.now.number (offset top + 1) count % modulus }
{
    match exact_log10(modulus) {
        Some(0) => 0,
        Some(zeros) if zeros < count => {
            horner_modulo(value, magnitude_below(top, count - zeros), zeros, modulus)
        }
        _ => horner_modulo(value, top, count, modulus),
    }
}

fn horner_modulo<D: DigitStore>(value: &UnsignedOver<D>, top: i16, count: u32, modulus: u64) -> u64
    requires positive { 0 < modulus }
    requires at_most { modulus ≤ 10 ^ 18 }
    requires in_limits { count ≤ offset top + 1 }
    ensures { result ≡ digit_slice value.now.number (offset top + 1) count % modulus }
{
    let mut rest: u64 = 0;
    for below in 0..count {
        rest = (rest * 10 + digit_below(value, top, below) as u64) % modulus;
    }
    rest
}
