//! A list of digits as packed BCD.
ghost use Rattle.std.specs.Prelude.{◌≡◌, ℕ, ◌+◌, ◌-◌, ◌*◌, ◌/◌, ◌≤◌, take};
ghost use Rattle.decimal_digits.specs.Nibbles.{digits_in};
ghost use Rattle.decimal_digits.specs.Packing.{IsPadded};

mod bulk;
mod bytes;
mod dotted;
mod nibbles;
mod words;

use super::DigitStore;
use bulk::{append_text, count_trailing_nibbles, write_text};
use bytes::{
    append_digits, append_word, append_zeros, are_equal, copy_bytes, copy_wide, cut_digits,
    drop_unused, keep_digits, pack_digits, push_digit, reserve_digits, word_at,
};
pub use dotted::dotted_text;
pub(super) use nibbles::unpack;
use nibbles::{byte_count, nibble_at, set_nibble};
use smallvec::SmallVec;
use std::alloc::{AllocError, Global};
pub(super) use words::pack_word;

/// A list of digits as packed BCD, two digits to a byte, of which up to sixteen need no allocation.
///
/// The digit at index `i` is in byte `i / 2`, in the high nibble if `i` is even. There are at least eight bytes, and
/// the nibbles after the digits are 0. The list that `from_digits` makes of 2, 5 and 0 has the byte 0x25 and seven
/// bytes 0x00, and needs no allocation.
///
/// ```
/// let digits = PackedDigits::from_digits(alloc, &[2, 5, 0])?;
/// digits.as_bcd() // the bytes 0x25 and 0x00
/// digits.bcd_at(0) // 0x2500_0000_0000_0000
/// ```
#[derive(Debug)]
pub struct PackedDigits {
    bytes: SmallVec<u8, 8>,
    len: usize,
    ghost inline: { 8 ≤ bytes.capacity },
    ghost padded: { IsPadded bytes.items len },
}

// Not derived: a derived drop is proved again in each crate that depends on this one.
impl Drop for PackedDigits {
    #[inline]
    fn drop(self) {
        let PackedDigits { bytes, len: _ } = self;
        drop(bytes);
    }
}

impl PackedDigits {
    #[inline]
    fn front(&self) -> &[u8]
        ensures { result.now ≡ take ((self.now.len + 1) / 2) self.now.bytes.items }
    {
        &self.bytes.as_slice()[..byte_count(self.len)]
    }
}

#[tactic(auto, using(crate::proofs::lemmas::digits::Packing::packing))]
impl DigitStore for PackedDigits {
    ghost use Rattle.std.proofs.Common.{arith};
    ghost use Rattle.decimal_digits.specs.Packing.{room_to_L};

    ghost digits = { λ s. digits_in s.bytes.items s.len };

    ghost room = { λ s. 2 * s.bytes.capacity - s.len };

    ghost L = { 16 };

    const L: usize = 16;

    ghost fits_u16 = { Prim.omega arith };

    ghost room_to_L = { λ s. room_to_L s.bytes.items s.bytes.capacity s.len s.inline s.padded };

    ghost are_digits = { λ s. s.padded.decimal };

    #[inline]
    fn empty(alloc: Global) -> Self {
        let bytes = SmallVec::from_buf(alloc, [0; 8]);
        PackedDigits { bytes, len: 0 }
    }

    fn from_digits(alloc: Global, list: &[u8]) -> Result<Self, AllocError> {
        let len = list.len();
        let bytes = pack_digits(alloc, list)?;
        Ok(PackedDigits { bytes, len })
    }

    #[inline]
    fn from_padded_bcd(alloc: Global, number: u64, len: usize) -> Result<Self, AllocError> {
        let bytes = SmallVec::from_buf(alloc, number.to_be_bytes());
        Ok(PackedDigits { bytes, len })
    }

    fn from_wide_bcd(alloc: Global, number: u128, len: usize) -> Result<Self, AllocError> {
        let bytes = copy_wide(alloc, number, len)?;
        Ok(PackedDigits { bytes, len })
    }

    #[inline]
    fn bcd_at(&self, start: usize) -> u64 {
        word_at(self.bytes.as_slice(), self.len, start)
    }

    #[inline]
    fn as_bcd(&self) -> Option<&[u8]> {
        Some(self.front())
    }

    fn clone(&self) -> Result<Self, AllocError> {
        let len = self.len;
        let bytes = copy_bytes(&self.bytes)?;
        Ok(PackedDigits { bytes, len })
    }

    #[inline]
    fn len(&self) -> usize {
        self.len
    }

    #[inline]
    fn get(&self, index: usize) -> u8 {
        nibble_at(self.bytes.as_slice(), index)
    }

    #[inline]
    #[tactic(auto, using(crate::proofs::lemmas::digits::Packing::digit_rules))]
    fn digit_or_zero(&self, index: usize) -> u8 {
        // No comparison with the length, since the nibbles after the digits are 0.
        nibble_at(self.bytes.as_slice(), index)
    }

    #[inline]
    fn set(&mut self, index: usize, digit: u8) {
        set_nibble(&mut self.bytes, index, digit);
    }

    #[inline]
    fn push_in_room(&mut self, digit: u8) {
        push_digit(&mut self.bytes, self.len, digit);
        self.len += 1;
    }

    fn push_text(&mut self, text: &[u8]) {
        append_text(&mut self.bytes, self.len, text);
        self.len += text.len();
    }

    fn copy_text(&self, from: usize, buffer: &mut [u8]) {
        write_text(self.bytes.as_slice(), from, buffer);
    }

    fn count_trailing(&self, count: usize, digit: u8) -> usize {
        if digit >= 16 {
            // No nibble is above 15.
            return 0;
        }
        count_trailing_nibbles(self.bytes.as_slice(), count, digit)
    }

    fn reserve(&mut self, count: usize) -> Result<(), AllocError> {
        let total = self.len.checked_add(count).ok_or(AllocError)?;
        reserve_digits(&mut self.bytes, total)
    }

    fn truncate(&mut self, count: usize) {
        let len = self.len;
        self.len = count;
        keep_digits(&mut self.bytes, len, count);
    }

    fn cut_front(&mut self, count: usize) {
        let len = self.len;
        self.len = len - count;
        cut_digits(&mut self.bytes, len, count);
    }

    fn append(&mut self, zeros: usize, other: &Self) -> Result<(), AllocError> {
        let start = self.len.checked_add(zeros).ok_or(AllocError)?;
        let total = start.checked_add(other.len).ok_or(AllocError)?;
        if total <= 16 {
            let more = other.bytes.as_slice();
            append_word(&mut self.bytes, self.len, start, more, other.len);
        } else {
            reserve_digits(&mut self.bytes, total)?;
            drop_unused(&mut self.bytes, self.len);
            append_zeros(&mut self.bytes, self.len, zeros);
            append_digits(&mut self.bytes, start, other.front(), other.len);
        }
        self.len = total;
        Ok(())
    }

    #[inline]
    fn eq(&self, other: &Self) -> bool {
        if self.len != other.len {
            return false;
        }
        are_equal(self.bytes.as_slice(), other.bytes.as_slice())
    }
}
