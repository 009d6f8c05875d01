//! Packed BCD: lists of digits in bytes, two digits to a byte.
#![tactic(auto, using(crate::proofs::lemmas::digits::Nibbles::nibble_rules))]

ghost use Rattle.std.specs.Prelude.{◌≡◌, ℕ, ◌+◌, ◌-◌, ◌*◌, ◌%◌, ◌^◌, ◌<◌, ◌≤◌, ◌↔◌, [], ◌∷◌, ◌++◌, length, map, take, drop, replicate, All, IsTrue, IsOk, IfOk, IfSome, OnOk};
ghost use Rattle.std.specs.Int.{w64, to_be_bytes};
ghost use Rattle.smallvec.specs.SmallVec.{small_vec_len};
ghost use Rattle.decimal_digits.specs.Nibbles.{digits_in, bcd_number, nibbles, wide_leading_bytes, word_nibbles, IsPacked};
ghost use Rattle.decimal_digits.specs.Packing.{Encodes, EncodesPadded, IsPadded};

use super::nibbles::{
    Bytes, append_nibbles, byte_count, drop_bytes, pack, push_zeros, remove_high_nibble, set_nibble,
};
use super::words::{cut_nibbles, end_word, front_word, join_nibbles, keep_nibbles, pack_word};
use smallvec::SmallVec;
use std::alloc::{AllocError, Global};

#[inline]
pub(super) fn pack_digits(alloc: Global, digits: &[u8]) -> Result<Bytes, AllocError>
    requires { All (λ d. d < 10) digits.now }
    ensures ok { IfOk result (λ bytes. EncodesPadded bytes.items (length digits.now) digits.now) }
    ensures inline { IfOk result (λ bytes. 8 ≤ bytes.capacity) }
    ensures succeeds { length digits.now ≤ 16 → IsOk result }
{
    if digits.len() <= 16 {
        return Ok(SmallVec::from_buf(alloc, pack_word(digits).to_be_bytes()));
    }
    // The copy only allocates; its bytes are overwritten.
    let copy = Vec::from_slice(alloc, &digits[..byte_count(digits.len())])?;
    let mut bytes = SmallVec::from_vec(copy);
    pack(bytes.as_mut_slice(), digits);
    Ok(bytes)
}

#[tactic(auto, unfolding(crate::specs::Nibbles::wide_leading_bytes))]
#[inline]
pub(super) fn copy_wide(alloc: Global, number: u128, len: usize) -> Result<Bytes, AllocError>
    requires many { 16 < len }
    requires packed { IsPacked (wide_leading_bytes number len) len }
    ensures ok { IfOk result (λ bytes. bytes.items ≡ wide_leading_bytes number len) }
    ensures inline { IfOk result (λ bytes. 8 ≤ bytes.capacity) }
{
    let bytes = number.to_be_bytes();
    let copy = Vec::from_slice(alloc, &bytes[..byte_count(len)])?;
    Ok(SmallVec::from_vec(copy))
}

#[inline]
pub(super) fn drop_unused(bytes: &mut Bytes, len: usize)
    requires { IsPadded bytes.old.items len }
    ensures encodes { Encodes bytes.new.items len (digits_in bytes.old.items len) }
    ensures capacity { bytes.new.capacity ≡ bytes.old.capacity }
{
    bytes.truncate(byte_count(len));
}

#[inline]
pub(super) fn copy_bytes(bytes: &Bytes) -> Result<Bytes, AllocError>
    requires { 8 ≤ small_vec_len bytes.now }
    ensures ok { IfOk result (λ copy. copy.items ≡ bytes.now.items) }
    ensures inline { IfOk result (λ copy. 8 ≤ copy.capacity) }
    ensures succeeds { small_vec_len bytes.now ≤ 8 → IsOk result }
{
    let alloc = *bytes.allocator();
    let items = bytes.as_slice();
    match items.as_array::<8>() {
        Some(all) => Ok(SmallVec::from_buf(alloc, *all)),
        None => Ok(SmallVec::from_vec(Vec::from_slice(alloc, items)?)),
    }
}

pub(super) fn reserve_digits(bytes: &mut Bytes, total: usize) -> Result<(), AllocError>
    ensures ok { OnOk result (total ≤ 2 * bytes.new.capacity) }
    ensures items { bytes.new.items ≡ bytes.old.items }
    ensures capacity { bytes.old.capacity ≤ bytes.new.capacity }
    ensures succeeds { total ≤ 2 * bytes.old.capacity → IsOk result }
{
    let old_len = bytes.len();
    bytes.reserve(byte_count(total).saturating_sub(old_len))
}

#[inline]
pub(super) fn push_digit(bytes: &mut Bytes, len: usize, digit: u8)
    requires padded { IsPadded bytes.old.items len }
    requires has_room { len < 2 * bytes.old.capacity }
    requires is_digit { digit < 10 }
    ensures encodes { EncodesPadded bytes.new.items (len + 1) (digits_in bytes.old.items len ++ digit ∷ []) }
    ensures capacity { bytes.new.capacity ≡ bytes.old.capacity }
    ensures fits { len + 1 < 2 ^ 64 }
{
    if len / 2 < bytes.len() {
        set_nibble(bytes, len, digit);
    } else {
        bytes.push_reserved(digit * 16);
    }
}

#[inline]
pub(super) fn set_front(bytes: &mut Bytes, word: u64)
    requires { 8 ≤ small_vec_len bytes.old }
    ensures front { take 8 bytes.new.items ≡ to_be_bytes w64 word }
    ensures items { small_vec_len bytes.old ≡ 8 → bytes.new.items ≡ to_be_bytes w64 word }
    ensures len { small_vec_len bytes.new ≡ small_vec_len bytes.old }
    ensures capacity { bytes.new.capacity ≡ bytes.old.capacity }
{
    let (front, _) = bytes.as_mut_slice().split_at_mut(8);
    front.copy_from_slice(&word.to_be_bytes());
}

#[inline]
pub(super) fn word_at(bytes: &[u8], len: usize, start: usize) -> u64
    requires padded { IsPadded bytes.now len }
    requires block { start % 16 ≡ 0 }
    ensures { result ≡ bcd_number (drop start (digits_in bytes.now len)) }
{
    if start == 0 {
        return front_word(bytes);
    }
    if len <= start {
        return 0;
    }
    let rest = &bytes[start / 2..];
    if rest.len() < 8 {
        return end_word(bytes, rest.len());
    }
    front_word(rest)
}

// As words: byte by byte, a list is loaded in eight parts where a loop compares it with many.
#[inline]
fn equal_words(left: &[u8; 8], right: &[u8; 8]) -> bool
    ensures { IsTrue result ↔ (left.now ≡ right.now) }
{
    u64::from_be_bytes(*left) == u64::from_be_bytes(*right)
}

#[inline]
fn have_equal_fronts(left: &[u8], right: &[u8]) -> bool
    requires left { 8 ≤ length left.now }
    requires right { 8 ≤ length right.now }
    ensures { IsTrue result ↔ (take 8 left.now ≡ take 8 right.now) }
{
    // The slices are of known length, so that nothing is tested.
    match (left[..8].as_array::<8>(), right[..8].as_array::<8>()) {
        (Some(front), Some(other_front)) => equal_words(front, other_front),
        _ => false,
    }
}

#[inline]
fn equal_in_two_words(left: &[u8], right: &[u8]) -> bool
    requires enough { 8 ≤ length left.now }
    requires few { length left.now ≤ 16 }
    requires same_length { length left.now ≡ length right.now }
    ensures { IsTrue result ↔ (left.now ≡ right.now) }
{
    // The last eight bytes may overlap the first.
    let end = left.len() - 8;
    have_equal_fronts(left, right) && have_equal_fronts(&left[end..], &right[end..])
}

// Up to 64 bytes need no call.
#[inline]
pub(super) fn are_equal(left: &[u8], right: &[u8]) -> bool
    requires enough { 8 ≤ length left.now }
    requires same_length { length left.now ≡ length right.now }
    ensures { IsTrue result ↔ (left.now ≡ right.now) }
{
    if left.len() <= 16 {
        return equal_in_two_words(left, right);
    }
    if left.len() > 64 {
        return left == right;
    }
    // The last eight bytes may overlap those before them.
    let end = left.len() - 8;
    let mut start = 0;
    while start < end {
        if !have_equal_fronts(&left[start..], &right[start..]) {
            return false;
        }
        start += 8;
    }
    have_equal_fronts(&left[end..], &right[end..])
}

#[inline]
pub(super) fn keep_digits(bytes: &mut Bytes, len: usize, count: usize)
    requires padded { IsPadded bytes.old.items len }
    requires in_range { count ≤ len }
    ensures encodes { EncodesPadded bytes.new.items count (take count (digits_in bytes.old.items len)) }
    ensures capacity { bytes.new.capacity ≡ bytes.old.capacity }
{
    if len <= 16 {
        let word = keep_nibbles(front_word(bytes.as_slice()), count);
        set_front(bytes, word);
    } else {
        keep_some(bytes, len, count);
    }
}

#[inline(never)]
fn keep_some(bytes: &mut Bytes, len: usize, count: usize)
    requires padded { IsPadded bytes.old.items len }
    requires many { 16 < len }
    requires in_range { count ≤ len }
    ensures encodes { EncodesPadded bytes.new.items count (take count (digits_in bytes.old.items len)) }
    ensures capacity { bytes.new.capacity ≡ bytes.old.capacity }
{
    if count <= 16 {
        let word = keep_nibbles(front_word(bytes.as_slice()), count);
        set_front(bytes, word);
        bytes.truncate(8);
        return;
    }
    if count % 2 == 1 {
        set_nibble(bytes, count, 0);
    }
    bytes.truncate(byte_count(count));
}

#[inline]
pub(super) fn cut_digits(bytes: &mut Bytes, len: usize, count: usize)
    requires padded { IsPadded bytes.old.items len }
    requires in_range { count ≤ len }
    ensures encodes { EncodesPadded bytes.new.items (len - count) (drop count (digits_in bytes.old.items len)) }
    ensures capacity { bytes.new.capacity ≡ bytes.old.capacity }
{
    if len <= 16 {
        let word = cut_nibbles(front_word(bytes.as_slice()), count);
        set_front(bytes, word);
    } else if len - count < 16 {
        cut_to_word(bytes, len, count);
    } else {
        cut_bytes(bytes, len, count);
    }
}

#[inline(never)]
fn cut_to_word(bytes: &mut Bytes, len: usize, count: usize)
    requires padded { IsPadded bytes.old.items len }
    requires many { 16 < len }
    requires in_range { count ≤ len }
    requires few { len - count < 16 }
    ensures encodes { EncodesPadded bytes.new.items (len - count) (drop count (digits_in bytes.old.items len)) }
    ensures capacity { bytes.new.capacity ≡ bytes.old.capacity }
{
    // The last eight bytes hold all digits that are left.
    let word = cut_nibbles(
        end_word(bytes.as_slice(), 8),
        count - 2 * (byte_count(len) - 8),
    );
    set_front(bytes, word);
    bytes.truncate(8);
}

#[inline]
fn cut_bytes(bytes: &mut Bytes, len: usize, count: usize)
    requires padded { IsPadded bytes.old.items len }
    requires in_range { count ≤ len }
    ensures encodes { Encodes bytes.new.items (len - count) (drop count (digits_in bytes.old.items len)) }
    ensures capacity { bytes.new.capacity ≡ bytes.old.capacity }
{
    if count % 2 == 1 {
        remove_high_nibble(bytes.as_mut_slice(), count / 2, 0);
    }
    drop_bytes(bytes, count / 2, byte_count(len - count));
}

#[inline]
pub(super) fn append_word(bytes: &mut Bytes, len: usize, start: usize, other: &[u8], count: usize)
    requires padded { IsPadded bytes.old.items len }
    requires other_padded { IsPadded other.now count }
    requires after { len ≤ start }
    requires few { start + count ≤ 16 }
    ensures encodes { EncodesPadded bytes.new.items (start + count)
        ((digits_in bytes.old.items len ++ replicate (start - len) 0) ++ digits_in other.now count) }
    ensures capacity { bytes.new.capacity ≡ bytes.old.capacity }
{
    let word = join_nibbles(front_word(bytes.as_slice()), start, front_word(other));
    set_front(bytes, word);
}

pub(super) fn append_zeros(bytes: &mut Bytes, len: usize, count: usize)
    requires packed { IsPacked bytes.old.items len }
    requires has_room { len + count ≤ 2 * bytes.old.capacity }
    requires fits { len + count < 2 ^ 64 }
    ensures encodes { Encodes bytes.new.items (len + count) (digits_in bytes.old.items len ++ replicate count 0) }
    ensures capacity { bytes.old.capacity ≤ bytes.new.capacity }
{
    let old_len = bytes.len();
    push_zeros(bytes, byte_count(len + count) - old_len);
}

pub(super) fn append_digits(bytes: &mut Bytes, len: usize, other: &[u8], count: usize)
    requires packed { IsPacked bytes.old.items len }
    requires other_packed { IsPacked other.now count }
    requires has_room { len + count ≤ 2 * bytes.old.capacity }
    ensures encodes { Encodes bytes.new.items (len + count) (digits_in bytes.old.items len
        ++ digits_in other.now count) }
    ensures capacity { bytes.old.capacity ≤ bytes.new.capacity }
{
    if len % 2 == 0 {
        bytes.extend_from_slice(other).unwrap();
    } else {
        append_nibbles(bytes, other, count);
    }
}
