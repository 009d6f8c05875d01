//! Changes of the range that is shown: trims, pads, and the remainder below a position.
ghost use Rattle.std.specs.Prelude.{◌≡◌, ℕ, ◌<◌, ◌≤◌, length, drop, slice_index, pos, ◌+ℤ◌, ◌≤ℤ◌};
ghost use Rattle.std.specs.Int.{int_gap};
ghost use Rattle.decimal_digits.specs.Number.{first, last};
ghost use Rattle.decimal_unsigned.specs.Unsigned.{IsValue, IsLeastHi, IsGreatestLo};
ghost use Rattle.decimal_unsigned.specs.Edits.{trimmed_start, trimmed_end, trimmed_end_if_integer, padded_start, padded_end, with_max_position};
ghost use Rattle.decimal_unsigned.specs.ValueLaws.{IsShortest, trunced, SplitsAt};

use super::UnsignedOver;
use decimal_digits::digits::DigitStore;
use decimal_digits::ops::{
    add_magnitudes, at_least_zero, magnitude_below, magnitude_of, places_above,
};

impl<D: DigitStore> UnsignedOver<D> {
    #[inline]
    pub(super) fn set_highest(&mut self, hi: i16)
        requires number { first self.old.number ≤ℤ hi }
        requires ones { pos 0 ≤ℤ hi }
        ensures { self.new ≡ record self.old { hi = hi } }
    {
        self.hi = hi;
    }

    #[inline]
    pub(super) fn set_lowest(&mut self, lo: i16)
        requires number { lo ≤ℤ last self.old.number }
        requires ones { lo ≤ℤ pos 0 }
        ensures { self.new ≡ record self.old { lo = lo } }
    {
        self.lo = lo;
    }

    /// Removes the leading zeros above magnitude 0.
    ///
    /// `0012.3400` becomes `12.3400`, and `0.0022` stays. Law: [`crate::laws::trimmed_is_normal_form`].
    pub fn trim_start(&mut self)
        ensures value { self.new ≡ trimmed_start self.old }
        // No value of this number has a lower `hi`.
        ensures least { IsLeastHi self.new }
        // After `trim_end` too, the value has the shortest text of its number.
        ensures shortest { IsShortest (trimmed_end self.new) }
        ensures valid { IsValue self.old }
    {
        let hi = self.nonzero_magnitude_start().max(0);
        self.set_highest(hi);
    }

    /// Removes the trailing zeros below magnitude 0.
    ///
    /// `0012.3400` becomes `0012.34`, and `1000` stays. Law: [`crate::laws::trimmed_is_normal_form`].
    pub fn trim_end(&mut self)
        ensures value { self.new ≡ trimmed_end self.old }
        // No value of this number has a higher `lo`.
        ensures greatest { IsGreatestLo self.new }
        // After `trim_start` too, the value has the shortest text of its number.
        ensures shortest { IsShortest (trimmed_start self.new) }
        ensures valid { IsValue self.old }
    {
        let lo = self.nonzero_magnitude_end().min(0);
        self.set_lowest(lo);
    }

    /// Removes the fraction digits if all of them are 0.
    ///
    /// `123400.00` becomes `123400`, and `0012.3400` stays.
    pub fn trim_end_if_integer(&mut self)
        ensures { self.new ≡ trimmed_end_if_integer self.old }
    {
        if self.nonzero_magnitude_end() >= 0 {
            self.set_lowest(0);
        }
    }

    /// Sets the highest magnitude to the one just below a position, or to that of the first nonzero digit if it is
    /// higher.
    ///
    /// It can remove leading zeros too: at 4 `0.42` becomes `0000.42`, and at 2 `0000.42` becomes `00.42`. A position
    /// (see `UnsignedOver`) of 0 or below changes nothing.
    pub fn pad_start(&mut self, position: i16)
        ensures { self.new ≡ padded_start self.old position }
    {
        if position > 0 {
            let hi = self
                .nonzero_magnitude_start()
                .max(magnitude_below(position, 1));
            self.set_highest(hi);
        }
    }

    /// Sets the lowest magnitude to a position, or to that of the last nonzero digit if it is lower.
    ///
    /// It can remove trailing zeros too: at -6 `123.456` becomes `123.456000`, and at 0 `123.000` becomes `123`. A
    /// position (see `UnsignedOver`) above 0 changes nothing.
    pub fn pad_end(&mut self, position: i16)
        ensures { self.new ≡ padded_end self.old position }
    {
        if position <= 0 {
            let lo = self.nonzero_magnitude_end().min(position);
            self.set_lowest(lo);
        }
    }

    /// Replaces the number by its remainder by 10^`position`, the part below the position.
    ///
    /// The value then shows the magnitudes from the one just below the position (see `UnsignedOver`) down to the lowest
    /// one before, and magnitude 0. `100.01` at 1 becomes `0.01`, `4235.970` at 5 becomes `04235.970`, and `0` at -2
    /// becomes `0.00`.
    pub fn set_max_position(&mut self, position: i16)
        ensures value { self.new ≡ with_max_position self.old position }
        // The part that `trunc` leaves at the position, joined with this one, is the old number.
        ensures splits { SplitsAt self.old position (trunced self.old position) self.new }
    {
        let len = self.digits.len();
        let above = places_above(position, self.magnitude).unwrap_or(0);
        let start = first_nonzero(&self.digits, above.min(len));
        let magnitude = if start < len {
            magnitude_of(self.magnitude, start)
        } else {
            0
        };
        let hi = at_least_zero(add_magnitudes(position, -1));
        let lo = self.lo.min(position);
        drop_front(&mut self.digits, start);
        self.magnitude = magnitude;
        self.hi = hi;
        self.lo = lo;
    }

    /// Trims as `trim_start`, by value: `0012.3400` gives `12.3400`.
    pub fn trimmed_start(mut self) -> Self
        ensures { result ≡ trimmed_start self }
    {
        self.trim_start();
        self
    }

    /// Trims as `trim_end`, by value: `0012.3400` gives `0012.34`.
    pub fn trimmed_end(mut self) -> Self
        ensures { result ≡ trimmed_end self }
    {
        self.trim_end();
        self
    }

    /// Trims as `trim_end_if_integer`, by value: `123400.00` gives `123400`.
    pub fn trimmed_end_if_integer(mut self) -> Self
        ensures { result ≡ trimmed_end_if_integer self }
    {
        self.trim_end_if_integer();
        self
    }

    /// Pads as `pad_start`, by value: `0.42` at 4 gives `0000.42`.
    pub fn padded_start(mut self, position: i16) -> Self
        ensures { result ≡ padded_start self position }
    {
        self.pad_start(position);
        self
    }

    /// Pads as `pad_end`, by value: `123.456` at -6 gives `123.456000`.
    pub fn padded_end(mut self, position: i16) -> Self
        ensures { result ≡ padded_end self position }
    {
        self.pad_end(position);
        self
    }

    /// Returns the remainder as `set_max_position`, by value: `100.01` at 1 gives `0.01`.
    pub fn with_max_position(mut self, position: i16) -> Self
        ensures { result ≡ with_max_position self position }
    {
        self.set_max_position(position);
        self
    }
}

fn first_nonzero<D: DigitStore>(digits: &D, from: usize) -> usize
    requires { from ≤ length (D.digits digits.now) }
    ensures from { from ≤ result }
    ensures within { result ≤ length (D.digits digits.now) }
    ensures zeros { (k : ℕ) → from ≤ k → k < result → slice_index (D.digits digits.now) k ≡ 0 }
    ensures found { result < length (D.digits digits.now) → 0 < slice_index (D.digits digits.now) result }
{
    for index in from..digits.len() {
        if digits.get(index) != 0 {
            return index;
        }
    }
    digits.len()
}

/// Removes the first digits, and moves none if there are none to remove or none to keep.
fn drop_front<D: DigitStore>(digits: &mut D, count: usize)
    requires { count ≤ length (D.digits digits.old) }
    ensures { D.digits digits.new ≡ drop count (D.digits digits.old) }
{
    if count == digits.len() {
        digits.clear();
    } else if count > 0 {
        digits.cut_front(count);
    }
}
