//! An iterator over the digits that a value shows.
ghost use Rattle.std.specs.Prelude.{◌≡◌};
ghost use Rattle.std.specs.Iterator.{YieldsFirst, item_count};
ghost use Rattle.decimal_unsigned.specs.ShownDigits.{shown_digits};
ghost use Rattle.decimal_unsigned.specs.Unsigned.{IsValue};

use super::UnsignedOver;
use decimal_digits::digits::DigitStore;
use decimal_digits::ops::count_between;
use std::iter::FusedIterator;
use std::marker::Model;

/// The digits that a value shows, most significant first.
///
/// Contracts see the digits that are left.
///
/// ```
/// value.digits().len() // 4 of 02.50
/// ```
#[derive(Drop)]
pub struct Digits<'a, D: DigitStore> {
    // The next `ready` digits are the nibbles of `word` from the highest one on, with zeros after them. The `rest`
    // digits that follow are those of `store` from `index` on, with zeros after them.
    word: u64,
    ready: usize,
    store: &'a D,
    index: usize,
    rest: usize,
}

impl<'a, D: DigitStore> Model for Digits<'a, D> {
    ghost use Rattle.std.specs.Prelude.{ℕ, List, ◌++◌, drop};
    ghost use Rattle.decimal_digits.specs.Nibbles.{padded, word_nibbles};
    ghost use Rattle.decimal_unsigned.specs.Stored.{IsReading};

    ghost Value = { List ℕ };

    ghost view = { λ s. padded s.ready (word_nibbles s.word) ++ padded s.rest (drop s.index (D.digits s.store.now)) };

    ghost invariant = { λ s. IsReading s.ready s.index s.rest };
}

impl<'a, D: DigitStore> Iterator for Digits<'a, D> {
    type Item = u8;

    ghost next_gives = { YieldsFirst (λ digits. digits) };

    ghost remaining = { item_count (λ digits. digits) };

    #[inline]
    fn next(&mut self) -> Option<u8> {
        if self.ready > 0 {
            self.ready -= 1;
            let digit = (self.word >> 60) as u8;
            self.word <<= 4;
            return Some(digit);
        }
        if self.rest == 0 {
            return None;
        }
        let word = self.store.bcd_at(self.index);
        let count = self.rest.min(16);
        self.index += 16;
        self.rest -= count;
        self.ready = count - 1;
        self.word = word << 4;
        Some((word >> 60) as u8)
    }

    #[inline]
    fn size_hint(&self) -> (usize, Option<usize>) {
        let len = self.len();
        (len, Some(len))
    }
}

impl<'a, D: DigitStore> ExactSizeIterator for Digits<'a, D> {
    #[inline]
    fn len(&self) -> usize {
        self.ready + self.rest
    }
}

impl<'a, D: DigitStore> FusedIterator for Digits<'a, D> {}

impl<D: DigitStore> UnsignedOver<D> {
    /// Returns the digits that are shown, most significant first.
    ///
    /// # Examples
    ///
    /// Of `02.50` the digits 0, 2, 5 and 0:
    ///
    /// ```
    /// for digit in value.digits() {
    ///     sum += u32::from(digit);
    /// }
    /// ```
    #[inline]
    pub fn digits(&self) -> Digits<'_, D>
        ensures value { result ≡ shown_digits self.now }
        ensures valid { IsValue self.now }
    {
        Digits {
            word: 0,
            ready: count_between(self.magnitude, self.hi) as usize - 1,
            store: &self.digits,
            index: 0,
            rest: count_between(self.lo, self.magnitude) as usize,
        }
    }
}
