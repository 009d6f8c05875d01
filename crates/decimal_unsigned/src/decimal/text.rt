//! The text of a value, and its digits at consecutive magnitudes.
ghost use Rattle.std.specs.Prelude.{◌≡◌, ◌↔◌, ℕ, [], ◌∷◌, ◌+◌, ◌-◌, ◌*◌, ◌/◌, ◌%◌, ◌^◌, ◌+ℤ◌, ◌-ℤ◌, ◌<◌, ◌≤◌, ◌≤ℤ◌, length, take, drop, replicate, slice_index, EachIndex, Ok, OnOk, OnErr, pos, IsTrue, true, false};
ghost use Rattle.std.specs.Int.{int_gap};
ghost use Rattle.std.specs.Io.KnownBytes.{Keeps, Appends};
ghost use Rattle.decimal_digits.specs.Number.{offset, digit};
ghost use Rattle.decimal_digits.specs.AppendsPrefix.{AppendsPrefix};
ghost use Rattle.decimal_unsigned.specs.Unsigned.{IsValue};
ghost use Rattle.decimal_unsigned.specs.Text.{text};
ghost use Rattle.decimal_unsigned.specs.Reading.{read};

use super::UnsignedOver;
use decimal_digits::digits::{DigitStore, dotted_text};
use decimal_digits::ops::{count_between, index_of, magnitude_of};
use decimal_digits::sink::{Sink, SinkFault, Writeable};

/// The number of bytes of a text that are made and written at a time. Most texts are shorter.
pub(super) const BLOCK: usize = 64;

#[tactic(auto, using(crate::proofs::lemmas::decimal::Rules::kept))]
impl<D: DigitStore> UnsignedOver<D> {
    /// Writes the digits at consecutive magnitudes, from `highest` down, one to each byte of the buffer.
    ///
    /// They are ASCII, without a decimal point, and zeros outside of the range that is shown: of `12.5` four digits
    /// from 2 down are `0125`. It does not allocate. Requires magnitudes of at least -32768.
    pub fn write_digits(&self, highest: i16, buffer: &mut [u8])
        requires { pos (length buffer.old) ≤ℤ (highest +ℤ pos 32769) }
        ensures value { EachIndex buffer.new
            (λ k. slice_index buffer.new k ≡ 48 + digit self.now.number (highest -ℤ pos k)) }
        ensures valid { IsValue self.now }
    {
        buffer.fill(b'0');
        self.copy_digits(highest, buffer);
    }

    /// Returns the digits at sixteen consecutive magnitudes, from the highest that is shown down, as packed BCD.
    ///
    /// The first is in the highest nibble: of `012.5` they are `0x0125_0000_0000_0000`. Requires at most sixteen
    /// magnitudes that are shown.
    #[inline]
    pub fn leading_bcd(&self) -> u64
        requires { int_gap self.now.lo self.now.hi < 16 }
        ensures { (k : ℕ) → k < 16
            → result / 2 ^ (4 * (15 - k)) % 16 ≡ digit self.now.number (self.now.hi -ℤ pos k) }
    {
        let zeros = count_between(self.magnitude, self.hi) - 1;
        self.digits.bcd_at(0) >> (4 * zeros)
    }

    /// Writes only the digits that are stored, among the zeros of the buffer.
    #[inline]
    pub(super) fn copy_digits(&self, magnitude: i16, buffer: &mut [u8])
        requires zeros { buffer.old ≡ replicate (length buffer.old) 48 }
        requires in_limits { length buffer.old ≤ offset magnitude + 1 }
        ensures value { EachIndex buffer.new
            (λ k. slice_index buffer.new k ≡ 48 + digit self.now.number (magnitude -ℤ pos k)) }
        ensures valid { IsValue self.now }
    {
        let digits = self.digits.len();
        let from = index_of(self.magnitude, magnitude).unwrap_or(0).min(digits);
        let start = index_of(magnitude, self.magnitude)
            .unwrap_or(0)
            .min(buffer.len());
        let count = (digits - from).min(buffer.len() - start);
        self.digits
            .copy_text(from, &mut buffer[start..start + count]);
    }

    #[inline]
    fn dot(&self) -> usize
        ensures value { result ≡ int_gap (pos 0) self.now.hi + 1 }
        ensures valid { IsValue self.now }
    {
        count_between(0, self.highest()) as usize
    }

    #[inline]
    fn only_byte(&self) -> u8
        requires { length (text self.now) ≡ 1 }
        ensures { result ∷ [] ≡ text self.now }
    {
        b'0' + self.digit_at(0)
    }

    #[inline]
    pub(super) fn is_short(&self) -> bool
        ensures short { IsTrue result ↔ (int_gap self.now.lo self.now.hi < 16) }
        ensures valid { IsValue self.now }
    {
        count_between(self.lowest(), self.highest()) <= 16
    }

    #[inline(always)]
    pub(super) fn short_text(&self) -> [u8; 17]
        requires { int_gap self.now.lo self.now.hi < 16 }
        ensures { take (length (text self.now)) result ≡ text self.now }
    {
        dotted_text(self.leading_bcd(), self.dot())
    }

    #[inline]
    pub(super) fn copy_text(&self, from: usize, buffer: &mut [u8])
        requires zeros { buffer.old ≡ replicate (length buffer.old) 48 }
        requires some { 0 < length buffer.old }
        requires in_text { from + length buffer.old ≤ length (text self.now) }
        ensures { buffer.new ≡ take (length buffer.old) (drop from (text self.now)) }
    {
        let dot = self.dot();
        let hi = self.highest();
        if dot < from {
            self.copy_digits(magnitude_of(hi, from - 1), buffer);
            return;
        }
        let above = buffer.len().min(dot - from);
        let (whole, rest) = buffer.split_at_mut(above);
        self.copy_digits(magnitude_of(hi, from), whole);
        if let Some((point, fraction)) = rest.split_first_mut() {
            *point = b'.';
            self.copy_digits(-1, fraction);
        }
    }
}

impl<D: DigitStore> Writeable for UnsignedOver<D> {
    ghost text = { text };

    /// Appends the text: one digit for each magnitude that is shown, the highest first, and a decimal point before
    /// magnitude -1.
    ///
    /// Parsing the text gives this value again.
    fn write_to<W: Sink>(&self, sink: &mut W) -> Result<(), SinkFault>
        ensures ok { OnOk result (Appends (W.contents sink.old) (W.contents sink.new) (text self.now)) }
        ensures err { OnErr result (AppendsPrefix (W.contents sink.old) (W.contents sink.new) (text self.now)) }
        ensures had_not_failed { OnOk result (W.has_failed sink.old ≡ false) }
        ensures failed { OnErr result (W.has_failed sink.new ≡ true) }
        ensures unchanged { W.has_failed sink.old ≡ true → Keeps (W.contents sink.old) (W.contents sink.new) }
        ensures reads_back { read (text self.now) ≡ Ok self.now }
    {
        let length = self.writeable_length_hint();
        if length == 1 {
            // One digit takes less time than a vector.
            return sink.put_byte(self.only_byte());
        }
        if self.is_short() {
            return sink.put_bytes(&self.short_text()[..length]);
        }
        let mut written = 0;
        while written < length {
            let mut block = [b'0'; BLOCK];
            let piece = &mut block[..BLOCK.min(length - written)];
            self.copy_text(written, piece);
            sink.put_bytes(piece)?;
            written += piece.len();
        }
        Ok(())
    }

    /// Returns the exact number of bytes of the text: 4 for `2.50`.
    fn writeable_length_hint(&self) -> usize
        ensures length { result ≡ length (text self.now) }
        // A text has at most 65,536 digits and a decimal point.
        ensures at_most { result ≤ 65537 }
        ensures valid { IsValue self.now }
    {
        let lo = self.lowest();
        let digits = count_between(lo, self.highest()) as usize;
        if lo < 0 { digits + 1 } else { digits }
    }
}
