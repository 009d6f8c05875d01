//! To which digit a number is rounded, and down to which one zeros are shown.
ghost use Rattle.std.specs.{Prelude.{◌≡◌, ◌≤◌, pos, negsuc, ◌+ℤ◌, ◌-ℤ◌, ◌≤ℤ◌, ◌<ℤ◌, IsOk, MatchResult}, Int.int_max};
ghost use Rattle.number_format.specs.ShownDigits.{last_at, fraction_end, zeros_end, position_of, base_of, is_finer, last_shown_of};

use crate::digits::ranges::{FractionDigits, FractionMultiples, SignificantDigits};
use fixed_decimal::{RoundError, RoundingIncrement};

/// Which of two minimums of digits decides how many zeros are shown.
#[derive(Clone, Copy, Debug, PartialEq)]
pub enum Minimum {
    /// That of the rounding that is chosen, as ECMA-402 has it.
    Chosen,
    /// The one that shows more zeros, as ICU has it for a skeleton without a priority, `.00/@@@*`.
    Both,
}

/// Fraction digits and significant digits. A number is rounded by both, and a priority chooses one of the results: of
/// 1234.567 `1234.57`, by at most 2 fraction digits, or `1230`, by at most 3 significant digits.
#[derive(Clone, Copy, Debug, PartialEq)]
pub struct BothDigits {
    /// The numbers of fraction digits.
    pub fraction: FractionDigits,
    /// The numbers of significant digits.
    pub significant: SignificantDigits,
    /// Which least number of digits is shown.
    pub minimum: Minimum,
}

/// To which digit a number is rounded, and down to which one zeros are shown: the rounding type of ECMA-402.
#[derive(Clone, Copy, Debug, PartialEq)]
pub enum Precision {
    /// A range of fraction digits: from 1 to 2 of them, `2.345` becomes `2.35`, and `2` becomes `2.0`.
    Fraction(FractionDigits),
    /// Multiples of an increment: with 2 fraction digits and 25, `2.3` becomes `2.25`.
    Multiples(FractionMultiples),
    /// A range of significant digits: of at most 3, `12345` becomes `12300`.
    Significant(SignificantDigits),
    /// Of two roundings the one that keeps a lower digit, and that to significant digits if both keep the same.
    MorePrecision(BothDigits),
    /// Of two roundings the one that `MorePrecision` does not choose.
    LessPrecision(BothDigits),
}

// These functions take magnitudes of the number, before and after the rounding, and return those of its quotient by
// 10^`exponent`.

fn last_at(count: u32, exponent: u16, first: i16) -> i32
    requires { count ≤ 65536 }
    ensures { result ≡ last_at count (first -ℤ pos exponent) }
{
    first as i32 - exponent as i32 + 1 - count as i32
}

fn fraction_end(count: u16) -> i32
    ensures { result ≡ fraction_end count }
{
    -(count as i32)
}

impl BothDigits {
    fn is_finer(self, exponent: u16, before: i16, after: i16) -> bool
        ensures { result ≡ is_finer self (before -ℤ pos exponent) (after -ℤ pos exponent) }
    {
        let end = fraction_end(self.fraction.max);
        let digits = self.significant.max;
        last_at(digits, exponent, before) < end || last_at(digits, exponent, after) <= end
    }

    fn zeros_end(self, exponent: u16, after: i16, is_significant: bool) -> i32
        ensures { result ≡ zeros_end self self.minimum is_significant (after -ℤ pos exponent) }
    {
        let significant = last_at(self.significant.min, exponent, after);
        let fraction = fraction_end(self.fraction.min);
        match (self.minimum, is_significant) {
            (Minimum::Both, _) => significant.min(fraction),
            (Minimum::Chosen, true) => significant,
            (Minimum::Chosen, false) => fraction,
        }
    }
}

impl Precision {
    #[inline(always)]
    pub(crate) fn base(self) -> RoundingIncrement
        ensures { result ≡ base_of self }
    {
        match self {
            Precision::Multiples(multiples) => multiples.increment.base,
            _ => RoundingIncrement::MultiplesOf1,
        }
    }

    #[inline(always)]
    fn position(self, exponent: u16, first: i16) -> i32
        ensures position { result ≡ position_of self (first -ℤ pos exponent) }
        ensures at_most { result ≤ℤ int_max (first -ℤ pos exponent) (pos 3) }
        ensures at_least { negsuc 163839 ≤ℤ result }
    {
        match self {
            Precision::Fraction(fraction) => fraction_end(fraction.max),
            Precision::Multiples(multiples) => {
                fraction_end(multiples.digits) + multiples.increment.zeros as i32
            }
            Precision::Significant(significant) => last_at(significant.max, exponent, first),
            Precision::MorePrecision(both) => last_at(both.significant.max, exponent, first).min(
                fraction_end(both.fraction.max),
            ),
            Precision::LessPrecision(both) => last_at(both.significant.max, exponent, first).max(
                fraction_end(both.fraction.max),
            ),
        }
    }

    #[inline(always)]
    pub(crate) fn position_at(self, exponent: u16, first: i16) -> Result<i16, RoundError>
        ensures position { MatchResult result
            (λ p. (p ≡ int_max (pos exponent +ℤ position_of self (first -ℤ pos exponent)) (negsuc 32767))
            × ((pos exponent +ℤ position_of self (first -ℤ pos exponent)) ≤ℤ pos 32767))
            (λ e. (e ≡ RoundError.Limit)
            × (pos 32767 <ℤ (pos exponent +ℤ position_of self (first -ℤ pos exponent)))) }
        ensures within { exponent ≡ 0 → IsOk result }
    {
        let position = exponent as i32 + self.position(exponent, first);
        if position > 32767 {
            return Err(RoundError::Limit);
        }
        Ok(position.max(-32768) as i16)
    }

    #[inline(always)]
    pub(crate) fn last_shown(self, exponent: u16, before: i16, after: i16) -> i32
        ensures { result ≡ last_shown_of self (before -ℤ pos exponent) (after -ℤ pos exponent) }
    {
        match self {
            Precision::Fraction(fraction) => fraction_end(fraction.min),
            Precision::Multiples(multiples) => fraction_end(multiples.digits),
            Precision::Significant(significant) => last_at(significant.min, exponent, after),
            Precision::MorePrecision(both) => {
                both.zeros_end(exponent, after, both.is_finer(exponent, before, after))
            }
            Precision::LessPrecision(both) => {
                both.zeros_end(exponent, after, !both.is_finer(exponent, before, after))
            }
        }
    }
}
