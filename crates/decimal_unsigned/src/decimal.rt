//! The unsigned decimals.
ghost use Rattle.std.specs.Prelude.{◌≡◌, ℕ, ◌+◌, ◌%◌, ◌^◌, ◌<◌, ◌≤◌, ◌↔◌, length, IsTrue, ℤ, false};
ghost use Rattle.std.specs.Range.{range_inclusive_start, range_inclusive_end, range_inclusive_exhausted};
ghost use Rattle.decimal_digits.specs.Digits.{number_of, IsStripped};
ghost use Rattle.decimal_digits.specs.Number.{digit, first, last, size, IsFirst, IsLast};
ghost use Rattle.decimal_unsigned.specs.Unsigned.{zero_value, IsValue};

mod clone;
mod compare;
mod concatenate;
mod digits;
mod display;
mod equality;
mod from_bcd;
mod from_integer;
mod parse;
mod round;
mod shift;
mod shown_range;
mod text;
mod to_integer;

use decimal_digits::digits::{DigitList, DigitStore, PackedDigits};
use decimal_digits::ops::{magnitude_of, wrapping_index};
pub use digits::Digits;
pub use parse::{Scan, lowest_of, numeral};
use std::alloc::Global;
use std::default::MadeWith;
use std::marker::Model;
use std::ops::RangeInclusive;

/// A nonnegative decimal number with the range of magnitudes that it shows, over a list of digits.
///
/// Contracts see `number`, in units of 10^-32768, and `hi` and `lo`, the highest and the lowest magnitude that are
/// shown. The range contains magnitude 0 and all nonzero digits, and with them any leading and trailing zeros: the text
/// `0012.3400` has `hi` 3 and `lo` -4.
///
/// A position is between the magnitude of its name and the next lower one, so that 0 is the decimal point:
///
/// ```text
/// digits          1   2 . 3   4
/// magnitudes      1   0  -1  -2
/// positions     2   1   0  -1  -2
/// ```
///
/// ```
/// let mut value = UnsignedDecimal::try_from_str(alloc, "0012.3400")?;
/// value.trim_start(); // 12.3400
/// value.round(-1)?; // 12.3
/// ```
#[derive(Debug)]
pub struct UnsignedOver<D: DigitStore> {
    digits: D,
    magnitude: i16,
    hi: i16,
    lo: i16,
}

// Not derived: a derived drop is proved again in each crate that depends on this one.
impl<D: DigitStore> Drop for UnsignedOver<D> {
    #[inline]
    fn drop(self) {
        let UnsignedOver {
            digits,
            magnitude: _,
            hi: _,
            lo: _,
        } = self;
        drop(digits);
    }
}

/// The list of digits of an unsigned decimal: packed BCD, of which sixteen digits need no allocation.
pub type DecimalStore = PackedDigits;

/// The number of digits, from the first to the last nonzero one, that an unsigned decimal stores without an allocation.
pub const INLINE_DIGITS: usize = <DecimalStore as DigitStore>::L;

const _: () = prove!(INLINE_DIGITS == 16);

/// A decimal without a sign, with the range of magnitudes that it shows: `2.50` is another value than `2.5`.
pub type UnsignedDecimal = UnsignedOver<DecimalStore>;

/// An unsigned decimal with one digit to a byte, of which eight need no allocation.
///
/// It behaves as `UnsignedDecimal` does, except when out of memory.
pub type ByteDecimal = UnsignedOver<DigitList>;

const _: () = prove!(<DigitList as DigitStore>::L == 8);

impl<D: DigitStore> Model for UnsignedOver<D> {
    ghost use Rattle.decimal_digits.specs.Digits.{number_of};
    ghost use Rattle.decimal_unsigned.specs.Unsigned.{Unsigned};
    ghost use Rattle.decimal_unsigned.specs.Stored.{IsStored};

    ghost Value = { Unsigned };

    ghost view = { λ s. record { number = number_of (D.digits s.digits) s.magnitude; hi = s.hi; lo = s.lo } };

    ghost invariant = { λ s. IsStored (D.digits s.digits) s.magnitude s.hi s.lo };
}

impl<D: DigitStore> MadeWith<Global> for UnsignedOver<D> {
    ghost is_made_with = { λ value. value ≡ zero_value };

    /// Makes the number 0, as `zero` does, for `or_default` of a map's entry.
    fn made_with(alloc: Global) -> Self {
        Self::zero(alloc)
    }
}

impl<D: DigitStore> UnsignedOver<D> {
    /// Makes the number 0, which prints `0`, without an allocation.
    #[tactic(auto, using(crate::proofs::lemmas::decimal::Values::number_of_empty))]
    pub fn zero(alloc: Global) -> Self
        ensures { result ≡ zero_value }
    {
        UnsignedOver {
            digits: D::empty(alloc),
            magnitude: 0,
            hi: 0,
            lo: 0,
        }
    }

    /// Returns the digit at a magnitude, which is 0 outside of the range that is shown.
    ///
    /// Of `2.50` the digit at -1 is 5.
    pub fn digit_at(&self, magnitude: i16) -> u8
        ensures value { result ≡ digit self.now.number magnitude }
        ensures valid { IsValue self.now }
    {
        let index = wrapping_index(self.magnitude, magnitude);
        self.digits.digit_or_zero(index)
    }

    /// Returns the magnitudes that are shown, from the lowest to the highest.
    ///
    /// Of `012.340` they are -3 to 2.
    #[inline]
    pub fn magnitude_range(&self) -> RangeInclusive<i16>
        ensures start { range_inclusive_start result ≡ self.now.lo }
        ensures end { range_inclusive_end result ≡ self.now.hi }
        // The iterator has not been advanced.
        ensures fresh { range_inclusive_exhausted result ≡ false }
        // The range contains magnitude 0 and all nonzero digits, and is within the limits.
        ensures valid { IsValue self.now }
    {
        self.lowest()..=self.highest()
    }

    /// Returns the magnitude of the first nonzero digit, or 0 for the number 0.
    ///
    /// Of `012.340` it is 1.
    #[inline]
    pub fn nonzero_magnitude_start(&self) -> i16
        ensures value { result ≡ first self.now.number }
        ensures defined { IsFirst self.now.number result }
        ensures valid { IsValue self.now }
    {
        self.magnitude
    }

    /// Returns the magnitude of the last nonzero digit, or 0 for the number 0.
    ///
    /// Of `012.340` it is -2.
    pub fn nonzero_magnitude_end(&self) -> i16
        ensures value { result ≡ last self.now.number }
        ensures defined { IsLast self.now.number result }
        ensures valid { IsValue self.now }
    {
        let len = self.digits.len();
        if len == 0 {
            0
        } else {
            magnitude_of(self.magnitude, len - 1)
        }
    }

    /// Returns whether the number is 0, whatever zeros are shown.
    ///
    /// True for `0.00`.
    #[inline]
    pub fn is_zero(&self) -> bool
        ensures zero { IsTrue result ↔ (self.now.number ≡ 0) }
        ensures valid { IsValue self.now }
    {
        self.digits.len() == 0
    }

    /// Returns the highest magnitude that is shown: 2 of `012.340`.
    #[inline]
    pub fn highest(&self) -> i16
        ensures value { result ≡ self.now.hi }
        ensures valid { IsValue self.now }
    {
        self.hi
    }

    /// Returns the lowest magnitude that is shown: -3 of `012.340`.
    #[inline]
    pub fn lowest(&self) -> i16
        ensures value { result ≡ self.now.lo }
        ensures valid { IsValue self.now }
    {
        self.lo
    }

    /// Returns the digits from the first to the last nonzero one, most significant first.
    ///
    /// Of `012.340` they are 1, 2, 3 and 4, and the number 0 has none. The first of them is at
    /// `nonzero_magnitude_start`.
    #[inline]
    pub fn store(&self) -> &D
        ensures number { number_of (D.digits result.now) (first self.now.number) ≡ self.now.number }
        ensures length { length (D.digits result.now) ≡ size self.now.number }
        // Neither the first nor the last of them is 0.
        ensures stripped { IsStripped (D.digits result.now) }
        ensures valid { IsValue self.now }
    {
        &self.digits
    }
}
