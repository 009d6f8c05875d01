//! Nibbles: access to single ones, and passes over bytes that move them.
#![tactic(auto, using(crate::proofs::lemmas::digits::Nibbles::nibble_rules))]

ghost use Rattle.std.specs.Prelude.{◌≡◌, ℕ, ◌+◌, ◌*◌, ◌/◌, ◌%◌, ◌-◌, ◌^◌, ◌<◌, ◌≤◌, [], ◌∷◌, ◌++◌, length, map, take, drop, replicate, slice_index, slice_set, All};
ghost use Rattle.smallvec.specs.SmallVec.{small_vec_len, HasRoomFor};
ghost use Rattle.decimal_digits.specs.Nibbles.{digits_in, nibbles, IsPacked};

use smallvec::SmallVec;

pub(super) type Bytes = SmallVec<u8, 8>;

#[inline]
pub(super) fn byte_count(digits: usize) -> usize
    ensures { result ≡ (digits + 1) / 2 }
{
    digits / 2 + digits % 2
}

#[inline]
pub(super) fn nibble_at(bytes: &[u8], index: usize) -> u8
    ensures { result ≡ slice_index (nibbles bytes.now) index }
{
    let byte = bytes.get(index / 2).copied().unwrap_or(0);
    // A shift, since a choice by the parity of the index takes longer.
    (byte << (index % 2 * 4)) / 16
}

pub(crate) fn unpack(bytes: &[u8], len: usize) -> [u8; 32]
    requires few { length bytes.now ≤ 16 }
    requires packed { IsPacked (take ((len + 1) / 2) bytes.now) len }
    ensures digits { take len result ≡ digits_in (take ((len + 1) / 2) bytes.now) len }
    ensures at_most { len ≤ 32 }
{
    let mut unpacked = [0; 32];
    for index in 0..len {
        unpacked[index] = nibble_at(bytes, index);
    }
    unpacked
}

#[inline]
pub(super) fn set_nibble(bytes: &mut Bytes, index: usize, nibble: u8)
    requires in_range { index < length (nibbles bytes.old.items) }
    requires is_nibble { nibble < 16 }
    ensures written { nibbles bytes.new.items ≡ slice_set (nibbles bytes.old.items) index nibble }
    ensures capacity { bytes.new.capacity ≡ bytes.old.capacity }
    ensures fits { 2 * small_vec_len bytes.old < 2 ^ 64 }
{
    let byte = &mut bytes.as_mut_slice()[index / 2];
    if index % 2 == 0 {
        *byte = nibble * 16 + *byte % 16;
    } else {
        *byte = *byte / 16 * 16 + nibble;
    }
}

// The low nibble of a digit is the digit, and so is that of its ASCII code.
pub(super) fn pack(bytes: &mut [u8], digits: &[u8])
    requires { length bytes.old ≡ (length digits.now + 1) / 2 }
    ensures { nibbles bytes.new ≡ map (λ d. d % 16) digits.now ++ replicate (length digits.now % 2) 0 }
{
    let pairs = digits.len() / 2;
    let mut rest = digits;
    for i in 0..pairs {
        bytes[i] = rest[0] % 16 * 16 + rest[1] % 16;
        rest = &rest[2..];
    }
    if digits.len() % 2 == 1 {
        bytes[pairs] = rest[0] % 16 * 16;
    }
}

pub(super) fn append_pairs(bytes: &mut Bytes, digits: &[u8])
    requires { (length digits.now + 1) / 2 ≤ bytes.old.capacity - small_vec_len bytes.old }
    ensures appended { nibbles bytes.new.items
        ≡ nibbles bytes.old.items ++ (map (λ d. d % 16) digits.now ++ replicate (length digits.now % 2) 0) }
    ensures capacity { bytes.old.capacity ≤ bytes.new.capacity }
    ensures fits { small_vec_len bytes.new < 2 ^ 63 }
{
    let old_len = bytes.len();
    // The copy only extends the bytes, and is overwritten.
    bytes
        .extend_from_slice(&digits[..byte_count(digits.len())])
        .unwrap();
    pack(&mut bytes.as_mut_slice()[old_len..], digits);
}

// Not inlined: a cut between two bytes does not need it, and saves its registers.
#[inline(never)]
pub(super) fn remove_high_nibble(bytes: &mut [u8], at: usize, last: u8)
    requires in_range { at < length bytes.old }
    requires is_nibble { last < 16 }
    ensures { nibbles bytes.new
        ≡ take (2 * at) (nibbles bytes.old) ++ (drop (2 * at + 1) (nibbles bytes.old) ++ last ∷ []) }
{
    let end = bytes.len() - 1;
    for i in at..end {
        bytes[i] = bytes[i] % 16 * 16 + bytes[i + 1] / 16;
    }
    bytes[end] = bytes[end] % 16 * 16 + last;
}

fn remove_low_nibble(bytes: &mut [u8], at: usize, last: u8)
    requires in_range { at < length bytes.old }
    requires is_nibble { last < 16 }
    ensures { nibbles bytes.new
        ≡ take (2 * at + 1) (nibbles bytes.old) ++ (drop (2 * at + 2) (nibbles bytes.old) ++ last ∷ []) }
{
    let first = bytes[at] / 16;
    remove_high_nibble(bytes, at, last);
    bytes[at] = first * 16 + bytes[at] % 16;
}

static ZEROS: [u8; 64] = [0; 64];

pub(super) fn push_zeros(bytes: &mut Bytes, count: usize)
    requires { HasRoomFor bytes.old count }
    ensures items { bytes.new.items ≡ bytes.old.items ++ replicate count 0 }
    ensures capacity { bytes.old.capacity ≤ bytes.new.capacity }
{
    if count == 0 {
        return;
    }
    for _ in 0..count / 64 {
        bytes.extend_from_slice(&ZEROS).unwrap();
    }
    bytes.extend_from_slice(&ZEROS[..count % 64]).unwrap();
}

pub(super) fn drop_bytes(bytes: &mut Bytes, count: usize, left: usize)
    requires { count + left ≤ small_vec_len bytes.old }
    ensures items { bytes.new.items ≡ drop count (take (count + left) bytes.old.items) }
    ensures capacity { bytes.new.capacity ≡ bytes.old.capacity }
{
    bytes.as_mut_slice().copy_within(count..count + left, 0);
    bytes.truncate(left);
}

pub(super) fn append_nibbles(bytes: &mut Bytes, more: &[u8], count: usize)
    requires some { 0 < small_vec_len bytes.old }
    requires has_room { HasRoomFor bytes.old (count / 2) }
    requires in_range { count ≤ 2 * length more.now }
    ensures joined { nibbles bytes.new.items
        ≡ (take (2 * small_vec_len bytes.old - 1) (nibbles bytes.old.items) ++ take count (nibbles more.now))
        ++ replicate ((count + 1) % 2) 0 }
    ensures capacity { bytes.old.capacity ≤ bytes.new.capacity }
{
    let at = bytes.len() - 1;
    let whole = count / 2;
    bytes.extend_from_slice(&more[..whole]).unwrap();
    let last = if count % 2 == 1 { more[whole] / 16 } else { 0 };
    remove_low_nibble(bytes.as_mut_slice(), at, last);
}
