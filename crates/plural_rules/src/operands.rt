//! The plural operands of a decimal, at any length.
ghost use Rattle.std.specs.{Prelude.{◌≡◌, ◌+◌, ◌%◌, ◌^◌, ◌<◌, ◌≤◌, ◌+ℤ◌, ◌≤ℤ◌, None, pos, negsuc}, Int.{int_gap, int_max, int_min}};
ghost use Rattle.decimal_unsigned.specs.{Grammar.{Literal, Grammar}, Text.text, Unsigned.Unsigned};
ghost use Rattle.plural_rules.specs.{Operands.{plain, compact, i, v, w, f, t, MatchesDigits, IsIn64Bits}, DigitSlice.IsUpTo};

mod digits;

use decimal_digits::ops::{add_magnitudes, at_most_zero, count_between, places_above};
use digits::Digits;
use fixed_decimal::{CompactDecimal, DecimalStore, DigitStore, Signed, UnsignedOver};
use std::marker::Model;

/// The operands of a formatted number that plural rules compare: UTS 35 part 3, Plural Operand Meanings.
///
/// It borrows a value, and does not allocate. Contracts see the value multiplied by 10^exponent, and the exponent of
/// the compact decimal, which is 0 for every other value. `1.230` has i 1, v 3, w 2, f 230, t 23 and c 0; `1.2c6` has
/// i 1200000, v 0, w 0, f 0, t 0 and c 6.
///
/// ```
/// let operands = PluralOperands::of_decimal(&value); // 2.50
/// operands.i() // Some(2)
/// operands.f() // Some(50)
/// ```
#[derive(Debug, Drop)]
pub struct PluralOperands<'a, D: DigitStore> {
    value: &'a UnsignedOver<D>,
    exponent: u8,
}

impl<'a, D: DigitStore> Model for PluralOperands<'a, D> {
    ghost use Rattle.plural_rules.specs.Operands.{Operands, compact};

    ghost Value = { Operands };

    ghost view = { λ s. compact s.value.now s.exponent };
}

fn fraction_digit_count(last: i16, exponent: u8) -> u32
    ensures { result ≡ int_gap (int_min (last +ℤ pos exponent) (pos 0)) (pos 0) }
{
    let lowest = at_most_zero(add_magnitudes(last, exponent as i16));
    count_between(lowest, 0) - 1
}

fn integer_digit_count(first: i16, exponent: u8) -> u32
    ensures { pos result ≡ int_max (first +ℤ pos (exponent + 1)) (pos 0) }
{
    match places_above(-(exponent as i16), first) {
        None => 0,
        Some(places) => places as u32,
    }
}

fn first_fraction_magnitude(exponent: u8) -> i16
    ensures { result ≡ negsuc exponent }
{
    -1 - exponent as i16
}

impl<'a> PluralOperands<'a, DecimalStore> {
    /// Returns the operands of the absolute value of a compact decimal, its significand times 10^exponent.
    ///
    /// `1.20050c3` has i 1200, v 2, w 1, f 50, t 5 and c 3.
    pub fn of_compact(value: &'a CompactDecimal) -> Self
        ensures { result ≡ compact value.now.significand.absolute value.now.exponent }
    {
        Self::of_scaled(&value.significand().absolute, value.exponent())
    }
}

impl<'a, D: DigitStore> PluralOperands<'a, D> {
    /// Returns the operands of a value.
    ///
    /// `1200.50` has i 1200, v 2, w 1, f 50, t 5 and c 0.
    pub fn of(value: &'a UnsignedOver<D>) -> Self
        ensures value { result ≡ plain value.now }
        // i, v and f are those of the integer and fraction digits of the text, however the grammar splits it.
        ensures by_text { (parts : Literal) → Grammar (text value.now) parts → parts.exponent ≡ None
            → MatchesDigits value.now parts }
    {
        prove!(value.lowest() <= 0);
        PluralOperands { value, exponent: 0 }
    }

    /// Returns the operands of a significand times 10^exponent, as a compact decimal has them.
    pub fn of_scaled(significand: &'a UnsignedOver<D>, exponent: u8) -> Self
        ensures { result ≡ compact significand.now exponent }
    {
        PluralOperands {
            value: significand,
            exponent,
        }
    }

    /// Returns the operands of the absolute value of a decimal: `-1.0` has those of `1.0`.
    pub fn of_decimal(value: &'a Signed<UnsignedOver<D>>) -> Self
        ensures { result ≡ plain value.now.absolute }
    {
        Self::of(&value.absolute)
    }

    /// Returns c, the exponent of a compact decimal: 6 for `1.2c6`, and 0 for `1200000`.
    pub fn c(&self) -> u8
        ensures { result ≡ self.now.exponent }
    {
        self.exponent
    }

    /// Returns v, the number of fraction digits: 2 for `2.50`, at most 32,768.
    pub fn v(&self) -> u32
        ensures value { result ≡ v self.now.value }
        ensures at_most { result + self.now.exponent ≤ 32768 }
    {
        fraction_digit_count(self.value.lowest(), self.exponent)
    }

    /// Returns w, the number of fraction digits without trailing zeros: 1 for `2.50`, at most 32,768.
    pub fn w(&self) -> u32
        ensures value { result ≡ w self.now.value }
        ensures at_most { result + self.now.exponent ≤ 32768 }
    {
        fraction_digit_count(self.value.nonzero_magnitude_end(), self.exponent)
    }

    fn integer_digits(&self) -> Digits<'a, D>
        ensures { result ≡ i self.now.value }
    {
        let first = self.value.nonzero_magnitude_start();
        Digits::new(self.value, first, integer_digit_count(first, self.exponent))
    }

    // The fraction digits of a value with the same number, which has `count` of them.
    fn fraction_digits(&self, count: u32) -> Digits<'a, D>
        requires { count + self.now.exponent ≤ 32768 }
        ensures digits { (x : Unsigned) → x.number ≡ self.now.value.number → x.lo ≤ℤ pos 0 → count ≡ v x
            → result ≡ f x }
        ensures shown { self.now.value.lo ≤ℤ pos 0 }
    {
        Digits::new(self.value, first_fraction_magnitude(self.exponent), count)
    }

    fn fraction(&self) -> Digits<'a, D>
        ensures { result ≡ f self.now.value }
    {
        self.fraction_digits(self.v())
    }

    fn trimmed_fraction(&self) -> Digits<'a, D>
        ensures { result ≡ t self.now.value }
    {
        self.fraction_digits(self.w())
    }

    /// Returns i, the integer digits as an integer: 2 for `2.50`. `None` if it is 2^64 or more.
    pub fn i(&self) -> Option<u64>
        ensures { IsIn64Bits result (i self.now.value) }
    {
        self.i_up_to(u64::MAX)
    }

    /// Returns f, the fraction digits as an integer: 50 for `2.50`. `None` if it is 2^64 or more.
    pub fn f(&self) -> Option<u64>
        ensures { IsIn64Bits result (f self.now.value) }
    {
        self.f_up_to(u64::MAX)
    }

    /// Returns t, the fraction digits without trailing zeros, as an integer: 5 for `2.50`. `None` if it is 2^64 or
    /// more.
    pub fn t(&self) -> Option<u64>
        ensures { IsIn64Bits result (t self.now.value) }
    {
        self.t_up_to(u64::MAX)
    }

    /// Returns the remainder of i by a modulus, at any length of i: 34 for `1234.5` by 100.
    ///
    /// Requires a modulus from 1 to 10^18. A modulus 10^k reads at most k digits.
    pub fn i_modulo(&self, modulus: u64) -> u64
        requires positive { 0 < modulus }
        requires at_most { modulus ≤ 10 ^ 18 }
        ensures { result ≡ i self.now.value % modulus }
    {
        self.integer_digits().modulo(modulus)
    }

    /// Returns the remainder of f by a modulus, at any length of f: 30 for `0.1230` by 100.
    ///
    /// Requires a modulus from 1 to 10^18. A modulus 10^k reads at most k digits.
    pub fn f_modulo(&self, modulus: u64) -> u64
        requires positive { 0 < modulus }
        requires at_most { modulus ≤ 10 ^ 18 }
        ensures { result ≡ f self.now.value % modulus }
    {
        self.fraction().modulo(modulus)
    }

    /// Returns the remainder of t by a modulus, at any length of t: 23 for `0.1230` by 100.
    ///
    /// Requires a modulus from 1 to 10^18. A modulus 10^k reads at most k digits.
    pub fn t_modulo(&self, modulus: u64) -> u64
        requires positive { 0 < modulus }
        requires at_most { modulus ≤ 10 ^ 18 }
        ensures { result ≡ t self.now.value % modulus }
    {
        self.trimmed_fraction().modulo(modulus)
    }

    pub(crate) fn i_up_to(&self, most: u64) -> Option<u64>
        ensures { IsUpTo most result (i self.now.value) }
    {
        self.integer_digits().up_to(most)
    }

    pub(crate) fn f_up_to(&self, most: u64) -> Option<u64>
        ensures { IsUpTo most result (f self.now.value) }
    {
        self.fraction().up_to(most)
    }

    pub(crate) fn t_up_to(&self, most: u64) -> Option<u64>
        ensures { IsUpTo most result (t self.now.value) }
    {
        self.trimmed_fraction().up_to(most)
    }
}
