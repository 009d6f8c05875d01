//! A list of digits with one digit to a byte.
ghost use Rattle.std.specs.Prelude.{ℕ, ◌-◌, ◌<◌, ◌≤◌, max, List, length, All};

use super::DigitStore;
use smallvec::SmallVec;
use std::alloc::{AllocError, Global};

/// A list of digits with one digit to a byte, of which up to eight need no allocation.
///
/// The list that `from_digits` makes of 2, 5 and 0 has three bytes, and needs no allocation.
///
/// ```
/// let digits = DigitList::from_digits(alloc, &[2, 5, 0])?;
/// digits.get(1) // 5
/// digits.as_bcd() // None
/// ```
#[derive(Debug)]
pub struct DigitList {
    bytes: SmallVec<u8, 8>,
    ghost inline: { 8 ≤ bytes.capacity },
    ghost decimal: { All (λ d. d < 10) bytes.items },
}

// Not derived: a derived drop is proved again in each crate that depends on this one.
impl Drop for DigitList {
    #[inline]
    fn drop(self) {
        let DigitList { bytes } = self;
        drop(bytes);
    }
}

impl DigitStore for DigitList {
    ghost digits = { λ s. s.bytes.items };

    ghost room = { λ s. max 8 s.bytes.capacity - length s.bytes.items };

    ghost L = { 8 };

    const L: usize = 8;

    ghost use Rattle.std.proofs.Common.{arith};

    ghost fits_u16 = { Prim.omega arith };

    ghost room_to_L = { λ s. Prim.omega arith };

    ghost are_digits = { λ s. s.decimal };

    #[inline]
    fn empty(alloc: Global) -> Self {
        let bytes = SmallVec::new(alloc);
        DigitList { bytes }
    }

    fn from_digits(alloc: Global, list: &[u8]) -> Result<Self, AllocError> {
        let bytes = SmallVec::from_slice(alloc, list)?;
        // Proof hint: the capacity is at least eight.
        let _at_least = bytes.capacity();
        Ok(DigitList { bytes })
    }

    fn clone(&self) -> Result<Self, AllocError> {
        Self::from_digits(*self.bytes.allocator(), self.bytes.as_slice())
    }

    #[inline]
    fn len(&self) -> usize {
        self.bytes.len()
    }

    #[inline]
    fn get(&self, index: usize) -> u8 {
        self.bytes.as_slice()[index]
    }

    #[inline]
    fn set(&mut self, index: usize, digit: u8) {
        self.bytes.as_mut_slice()[index] = digit;
    }

    #[inline]
    fn push_in_room(&mut self, digit: u8) {
        self.bytes.push_reserved(digit);
    }

    #[inline]
    fn reserve(&mut self, count: usize) -> Result<(), AllocError> {
        self.bytes.reserve(count)
    }

    fn truncate(&mut self, count: usize) {
        self.bytes.truncate(count);
    }

    fn cut_front(&mut self, count: usize) {
        let left = self.bytes.len() - count;
        self.bytes.as_mut_slice().copy_within(count.., 0);
        self.bytes.truncate(left);
    }

    fn append(&mut self, zeros: usize, other: &Self) -> Result<(), AllocError> {
        let count = zeros.checked_add(other.bytes.len()).ok_or(AllocError)?;
        self.bytes.reserve(count)?;
        for _ in 0..zeros {
            self.bytes.push_reserved(0);
        }
        self.bytes.extend_from_slice(other.bytes.as_slice())
    }

    #[inline]
    fn eq(&self, other: &Self) -> bool {
        self.bytes.as_slice() == other.bytes.as_slice()
    }
}
