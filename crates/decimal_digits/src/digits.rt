//! Lists of decimal digits, most significant first, in any representation.
ghost use Rattle.std.specs.Prelude.{◌≡◌, ℕ, ◌+◌, ◌-◌, ◌%◌, ◌<◌, ◌≤◌, ◌≢◌, ◌↔◌, List, [], ◌∷◌, ◌++◌, length, take, drop, map, replicate, slice_set, slice_index, All, IsTrue, IsOk, IfOk, IfSome, IfNone, OnOk, OnErr};
ghost use Rattle.std.specs.Char.{digit_value};
ghost use Rattle.std.specs.Str.Parse.{AllDigits};
ghost use Rattle.decimal_digits.specs.Digits.{text_of};
ghost use Rattle.decimal_digits.specs.Nibbles.{digits_in, leading_bytes, wide_leading_bytes, word_nibbles, bcd_number, IsPacked};

mod counted;
mod list;
mod packed;
mod steps;

pub use counted::Counted;
pub use list::DigitList;
use packed::{pack_word, unpack};
pub use packed::{PackedDigits, dotted_text};
use std::alloc::{AllocError, Global};
pub use steps::Steps;

/// A list of digits 0 to 9, with room for more.
///
/// Contracts see the digits, the room, and `L`, the number of digits that fit without an allocation. `reserve`,
/// `push_in_room` and `push_text` state the room that they leave. After any other call that changes the list, contracts
/// say only that the room is at least `L` minus the length.
///
/// ```
/// let mut digits = PackedDigits::from_digits(alloc, &[2, 5])?;
/// digits.reserve(1)?;
/// digits.push_in_room(9); // 2, 5, 9
/// ```
pub trait DigitStore: Drop {
    /// The digits.
    ghost digits: { Self → List ℕ };

    /// The number of further digits that fit without an allocation.
    ghost room: { Self → ℕ };

    /// The number of digits that fit without an allocation.
    ghost L: { ℕ };

    const L: usize;

    /// Makes the empty list, without an allocation.
    fn empty(alloc: Global) -> Self
        ensures { digits result ≡ [] };

    /// Makes a list of digits.
    ///
    /// Requires digits 0 to 9.
    ///
    /// # Errors
    ///
    /// Out of memory; possible only with more than `L` digits.
    fn from_digits(alloc: Global, list: &[u8]) -> Result<Self, AllocError>
        requires { All (λ d. d < 10) list.now }
        ensures ok { IfOk result (λ s. digits s ≡ list.now) }
        ensures succeeds { length list.now ≤ L → IsOk result };

    /// Makes a list of the first `len` nibbles of a packed BCD number of sixteen nibbles, of which the others are 0.
    ///
    /// Of `0x2500_0000_0000_0000` the first two are 2 and 5. Requires at most sixteen digits 0 to 9.
    ///
    /// # Errors
    ///
    /// As for [`DigitStore::from_digits`].
    #[tactic(auto, unfolding(crate::specs::Nibbles::leading_bytes))]
    fn from_padded_bcd(alloc: Global, number: u64, len: usize) -> Result<Self, AllocError>
        requires packed { IsPacked (leading_bytes number len) len }
        requires padded { drop len (word_nibbles number) ≡ replicate (16 - len) 0 }
        ensures ok { IfOk result (λ s. digits s ≡ digits_in (leading_bytes number len) len) }
        ensures succeeds { len ≤ L → IsOk result }
    {
        Self::from_digits(alloc, &unpack(&number.to_be_bytes(), len)[..len])
    }

    /// Makes a list of the first `len` nibbles of a packed BCD number of 32 nibbles.
    ///
    /// Requires 17 to 32 digits 0 to 9, followed by a nibble 0 if `len` is odd.
    ///
    /// # Errors
    ///
    /// As for [`DigitStore::from_digits`].
    #[tactic(auto, unfolding(crate::specs::Nibbles::wide_leading_bytes))]
    fn from_wide_bcd(alloc: Global, number: u128, len: usize) -> Result<Self, AllocError>
        requires many { 16 < len }
        requires packed { IsPacked (wide_leading_bytes number len) len }
        ensures ok { IfOk result (λ s. digits s ≡ digits_in (wide_leading_bytes number len) len) }
        ensures succeeds { len ≤ L → IsOk result }
    {
        Self::from_digits(alloc, &unpack(&number.to_be_bytes(), len)[..len])
    }

    /// Returns the sixteen digits from index `start` as a packed BCD number, with zeros after fewer digits.
    ///
    /// Of 2 and 5 it is `0x2500_0000_0000_0000` from index 0, and 0 from index 16. Requires a multiple of 16.
    fn bcd_at(&self, start: usize) -> u64
        requires { start % 16 ≡ 0 }
        ensures { result ≡ bcd_number (drop start (digits self.now)) }
    {
        let len = self.len();
        if len <= start {
            return 0;
        }
        let mut text = [b'0'; 16];
        let text = &mut text[..(len - start).min(16)];
        self.copy_text(start, text);
        pack_word(text)
    }

    /// Returns the packed BCD bytes of the digits, if the list stores them so.
    ///
    /// Of 2, 5 and 0 they are 0x25 and 0x00. With an odd number of digits the low nibble of the last byte is 0.
    fn as_bcd(&self) -> Option<&[u8]>
        ensures packed { IfSome result (λ bytes. IsPacked bytes.now (length (digits self.now))) }
        ensures digits { IfSome result (λ bytes. digits_in bytes.now (length (digits self.now)) ≡ digits self.now) }
    {
        None
    }

    /// Makes a second list of the same digits.
    ///
    /// # Errors
    ///
    /// As for [`DigitStore::from_digits`].
    fn clone(&self) -> Result<Self, AllocError>
        ensures ok { IfOk result (λ s. digits s ≡ digits self.now) }
        ensures succeeds { length (digits self.now) ≤ L → IsOk result };

    /// Returns the number of digits.
    fn len(&self) -> usize
        ensures { result ≡ length (digits self.now) };

    /// Returns the digit at an index, where index 0 is the most significant digit.
    ///
    /// Requires `index < len()`.
    fn get(&self, index: usize) -> u8
        requires { index < length (digits self.now) }
        ensures { result ≡ slice_index (digits self.now) index };

    /// Returns the digit at an index, or 0 after the last digit.
    #[inline]
    fn digit_or_zero(&self, index: usize) -> u8
        ensures value { result ≡ slice_index (digits self.now) index }
        ensures is_digit { result < 10 }
    {
        if index < self.len() {
            self.get(index)
        } else {
            0
        }
    }

    /// Writes the digits from index `from` as ASCII, one to each byte of the buffer.
    ///
    /// Requires at least `buffer.len()` digits from that index.
    fn copy_text(&self, from: usize, buffer: &mut [u8])
        requires { from + length buffer.old ≤ length (digits self.now) }
        ensures { buffer.new ≡ text_of (take (length buffer.old) (drop from (digits self.now))) }
    {
        // Proof hint: the index of each digit fits a `usize`.
        let _at_least = self.len();
        for (index, slot) in buffer.iter_mut().enumerate() {
            *slot = b'0' + self.get(from + index);
        }
    }

    /// Counts the digits equal to `digit` at the end of the first `count` digits.
    ///
    /// Requires `count <= len()`. Of 2, 5, 9 and 9 the first three end in one 9.
    fn count_trailing(&self, count: usize, digit: u8) -> usize
        requires { count ≤ length (digits self.now) }
        ensures within { result ≤ count }
        ensures equal { (k : ℕ) → count ≤ k + result → k < count → slice_index (digits self.now) k ≡ digit }
        ensures maximal { result < count → slice_index (digits self.now) (count - result - 1) ≢ digit }
    {
        for index in (0..count).rev() {
            if self.get(index) != digit {
                return count - 1 - index;
            }
        }
        count
    }

    /// Replaces the digit at an index.
    ///
    /// Requires `index < len()` and a digit 0 to 9.
    fn set(&mut self, index: usize, digit: u8)
        requires in_range { index < length (digits self.old) }
        requires is_digit { digit < 10 }
        ensures { digits self.new ≡ slice_set (digits self.old) index digit };

    /// Appends a digit, without an allocation.
    ///
    /// Requires room, as after `reserve`, and a digit 0 to 9. The room shrinks by at most one.
    fn push_in_room(&mut self, digit: u8)
        requires has_room { 0 < room self.old }
        requires is_digit { digit < 10 }
        ensures digits { digits self.new ≡ digits self.old ++ digit ∷ [] }
        ensures room { room self.old ≤ room self.new + 1 };

    /// Appends the digits of an ASCII text, without an allocation.
    ///
    /// Requires room, as after `reserve`, and a text of digits only. The room shrinks by at most the length of the
    /// text. After `push_text(b"25")` the list ends in 2 and 5.
    fn push_text(&mut self, text: &[u8])
        requires has_room { length text.now ≤ room self.old }
        requires are_digits { AllDigits 10 text.now }
        ensures digits { digits self.new ≡ digits self.old ++ map digit_value text.now }
        ensures room { room self.old ≤ room self.new + length text.now }
    {
        for ascii in text {
            self.push_in_room(*ascii - b'0');
        }
    }

    /// Reserves room for `count` more digits.
    ///
    /// # Errors
    ///
    /// Out of memory; possible only with more than `L` digits in all.
    fn reserve(&mut self, count: usize) -> Result<(), AllocError>
        ensures ok { OnOk result (count ≤ room self.new) }
        ensures digits { digits self.new ≡ digits self.old }
        ensures succeeds { length (digits self.old) + count ≤ L → IsOk result };

    /// Keeps the first `count` digits.
    ///
    /// Requires `count <= len()`.
    fn truncate(&mut self, count: usize)
        requires { count ≤ length (digits self.old) }
        ensures { digits self.new ≡ take count (digits self.old) };

    /// Removes the first `count` digits.
    ///
    /// Requires `count <= len()`.
    fn cut_front(&mut self, count: usize)
        requires { count ≤ length (digits self.old) }
        ensures { digits self.new ≡ drop count (digits self.old) };

    /// Removes all digits.
    fn clear(&mut self)
        ensures { digits self.new ≡ [] }
    {
        self.truncate(0);
    }

    /// Appends `zeros` zeros, and then another list.
    ///
    /// # Errors
    ///
    /// As for [`DigitStore::reserve`]. The list is then unchanged.
    fn append(&mut self, zeros: usize, other: &Self) -> Result<(), AllocError>
        ensures ok { OnOk result (digits self.new ≡ (digits self.old ++ replicate zeros 0) ++ digits other.now) }
        ensures err { OnErr result (digits self.new ≡ digits self.old) }
        ensures succeeds { length (digits self.old) + zeros + length (digits other.now) ≤ L → IsOk result };

    /// Returns whether two lists have the same digits.
    fn eq(&self, other: &Self) -> bool
        ensures { IsTrue result ↔ (digits self.now ≡ digits other.now) };

    /// The five digits of the greatest `u16` fit without an allocation.
    ghost fits_u16: { 5 ≤ L };

    /// There is room for up to `L` digits.
    ghost room_to_L: { (s : Self) → L ≤ length (digits s) + room s };

    /// The digits are 0 to 9.
    ghost are_digits: { (s : Self) → All (λ d. d < 10) (digits s) };
}
