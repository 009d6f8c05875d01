//! Operations on many digits at once: conversions from and to text, and counts of equal digits at the end.
#![tactic(auto, using(crate::proofs::lemmas::digits::Nibbles::nibble_rules))]

ghost use Rattle.std.specs.Prelude.{◌≡◌, ℕ, ◌+◌, ◌-◌, ◌*◌, ◌/◌, ◌%◌, ◌^◌, ◌<◌, ◌≤◌, ◌≢◌, ◌++◌, length, map, take, drop, replicate, slice_index};
ghost use Rattle.std.specs.Char.{digit_value};
ghost use Rattle.std.specs.Str.Parse.{AllDigits};
ghost use Rattle.decimal_digits.specs.Digits.{text_of};
ghost use Rattle.decimal_digits.specs.Nibbles.{nibbles, digits_in};
ghost use Rattle.decimal_digits.specs.Packing.{EncodesPadded, IsPadded};

use super::bytes::{drop_unused, set_front};
use super::nibbles::{Bytes, append_pairs, set_nibble};
use super::words::{count_equal_nibbles, front_word, join_nibbles, pack_word};

pub(super) fn append_text(bytes: &mut Bytes, len: usize, text: &[u8])
    requires padded { IsPadded bytes.old.items len }
    requires has_room { length text.now ≤ 2 * bytes.old.capacity - len }
    requires are_digits { AllDigits 10 text.now }
    ensures encodes { EncodesPadded bytes.new.items (len + length text.now)
        (digits_in bytes.old.items len ++ map digit_value text.now) }
    ensures capacity { bytes.old.capacity ≤ bytes.new.capacity }
    ensures fits { len + length text.now < 2 ^ 64 }
{
    if len <= 16 && text.len() <= 16 - len {
        let word = join_nibbles(front_word(bytes.as_slice()), len, pack_word(text));
        set_front(bytes, word);
    } else {
        append_long_text(bytes, len, text);
    }
}

fn append_long_text(bytes: &mut Bytes, len: usize, text: &[u8])
    requires padded { IsPadded bytes.old.items len }
    requires many { 16 < len + length text.now }
    requires has_room { length text.now ≤ 2 * bytes.old.capacity - len }
    requires are_digits { AllDigits 10 text.now }
    ensures encodes { EncodesPadded bytes.new.items (len + length text.now)
        (digits_in bytes.old.items len ++ map digit_value text.now) }
    ensures capacity { bytes.old.capacity ≤ bytes.new.capacity }
    ensures fits { len + length text.now < 2 ^ 64 }
{
    drop_unused(bytes, len);
    let odd = len % 2;
    if odd == 0 {
        append_pairs(bytes, text);
    } else if !text.is_empty() {
        set_nibble(bytes, len, text[0] % 16);
        append_pairs(bytes, &text[odd..]);
    }
}

pub(super) fn write_text(bytes: &[u8], from: usize, buffer: &mut [u8])
    requires { from + length buffer.old ≤ length (nibbles bytes.now) }
    ensures { buffer.new ≡ text_of (take (length buffer.old) (drop from (nibbles bytes.now))) }
{
    let odd = from % 2;
    if odd == 0 {
        write_pairs(&bytes[from / 2..], buffer);
    } else if !buffer.is_empty() {
        buffer[0] = b'0' + bytes[from / 2] % 16;
        write_pairs(&bytes[from / 2 + odd..], &mut buffer[odd..]);
    }
}

fn write_pairs(bytes: &[u8], buffer: &mut [u8])
    requires { length buffer.old ≤ length (nibbles bytes.now) }
    ensures { buffer.new ≡ text_of (take (length buffer.old) (nibbles bytes.now)) }
{
    let pairs = buffer.len() / 2;
    for i in 0..pairs {
        buffer[2 * i] = b'0' + bytes[i] / 16;
        buffer[2 * i + 1] = b'0' + bytes[i] % 16;
    }
    if buffer.len() % 2 == 1 {
        buffer[2 * pairs] = b'0' + bytes[pairs] / 16;
    }
}

pub(super) fn count_trailing_nibbles(bytes: &[u8], count: usize, nibble: u8) -> usize
    requires enough { 8 ≤ length bytes.now }
    requires in_range { count ≤ length (nibbles bytes.now) }
    requires is_nibble { nibble < 16 }
    ensures within { result ≤ count }
    ensures equal { (k : ℕ) → count ≤ k + result → k < count → slice_index (nibbles bytes.now) k ≡ nibble }
    ensures maximal { result < count → slice_index (nibbles bytes.now) (count - result - 1) ≢ nibble }
{
    if count <= 16 {
        return count_equal_nibbles(front_word(bytes), count, nibble);
    }
    let odd = count % 2;
    if odd == 1 && bytes[count / 2] / 16 != nibble {
        return 0;
    }
    let pairs = count / 2;
    let same = count_trailing_bytes(&bytes[..pairs], nibble * 17);
    if same < pairs && bytes[pairs - 1 - same] % 16 == nibble {
        return odd + 2 * same + 1;
    }
    odd + 2 * same
}

fn count_trailing_bytes(bytes: &[u8], byte: u8) -> usize
    ensures within { result ≤ length bytes.now }
    ensures equal { (k : ℕ) → length bytes.now ≤ k + result → k < length bytes.now → slice_index bytes.now k ≡ byte }
    ensures maximal { result < length bytes.now → slice_index bytes.now (length bytes.now - result - 1) ≢ byte }
{
    for index in (0..bytes.len()).rev() {
        if bytes[index] != byte {
            return bytes.len() - 1 - index;
        }
    }
    bytes.len()
}
