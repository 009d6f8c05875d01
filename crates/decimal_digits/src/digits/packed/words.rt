//! Words: the first eight bytes of packed BCD as one big-endian number, whose highest nibble is the first digit.
#![tactic(auto, using(crate::proofs::lemmas::digits::Nibbles::nibble_rules))]

ghost use Rattle.std.specs.Prelude.{◌≡◌, ◌≢◌, ℕ, ◌+◌, ◌-◌, ◌*◌, ◌%◌, ◌<◌, ◌≤◌, ◌∷◌, ◌++◌, length, map, take, drop, replicate, slice_index};
ghost use Rattle.decimal_digits.specs.Nibbles.{nibbles, word_nibbles};

#[inline]
pub(super) fn front_word(bytes: &[u8]) -> u64
    requires { 8 ≤ length bytes.now }
    ensures { word_nibbles result ≡ take 16 (nibbles bytes.now) }
{
    // The slice is of known length, so that nothing is tested.
    match bytes[..8].as_array::<8>() {
        Some(front) => u64::from_be_bytes(*front),
        None => 0,
    }
}

#[inline]
pub(super) fn end_word(bytes: &[u8], count: usize) -> u64
    requires enough { 8 ≤ length bytes.now }
    requires few { count ≤ 8 }
    requires some { 0 < count }
    ensures { word_nibbles result
        ≡ drop (2 * (length bytes.now - count)) (nibbles bytes.now) ++ replicate (16 - 2 * count) 0 }
{
    match bytes.last_chunk::<8>() {
        // The bytes before the last `count` are shifted out.
        Some(end) => cut_nibbles(u64::from_be_bytes(*end), 16 - 2 * count),
        None => 0,
    }
}

#[inline]
pub(super) fn keep_nibbles(word: u64, count: usize) -> u64
    requires { count ≤ 16 }
    ensures { word_nibbles result ≡ take count (word_nibbles word) ++ replicate (16 - count) 0 }
{
    if count == 0 {
        return 0;
    }
    let unused = 4 * (16 - count);
    word >> unused << unused
}

#[inline]
pub(super) fn cut_nibbles(word: u64, count: usize) -> u64
    requires { count ≤ 16 }
    ensures { word_nibbles result ≡ drop count (word_nibbles word) ++ replicate count 0 }
{
    if count == 16 {
        return 0;
    }
    word << (4 * count)
}

#[inline]
pub(super) fn join_nibbles(word: u64, start: usize, other: u64) -> u64
    requires in_range { start ≤ 16 }
    requires zeros { drop start (word_nibbles word) ≡ replicate (16 - start) 0 }
    ensures { word_nibbles result ≡ take start (word_nibbles word) ++ take (16 - start) (word_nibbles other) }
{
    if start == 16 {
        return word;
    }
    word + (other >> (4 * start))
}

#[inline]
pub(super) fn count_equal_nibbles(word: u64, count: usize, nibble: u8) -> usize
    requires few { count ≤ 16 }
    requires is_nibble { nibble < 16 }
    ensures within { result ≤ count }
    ensures equal { (k : ℕ) → count ≤ k + result → k < count → slice_index (word_nibbles word) k ≡ nibble }
    ensures maximal { result < count → slice_index (word_nibbles word) (count - result - 1) ≢ nibble }
{
    if count == 0 {
        return 0;
    }
    // A nibble is 0 here if it is equal.
    let others = (word ^ (0x1111_1111_1111_1111 * u64::from(nibble))) >> (4 * (16 - count));
    ((others.trailing_zeros() / 4) as usize).min(count)
}

// The low nibble of a digit is the digit, and so is that of its ASCII code.
#[inline]
pub(crate) fn pack_word(digits: &[u8]) -> u64
    requires { length digits.now ≤ 16 }
    ensures { word_nibbles result
        ≡ map (λ d. d % 16) digits.now ++ replicate (16 - length digits.now) 0 }
{
    if digits.is_empty() {
        return 0;
    }
    let mut number: u64 = 0;
    for digit in digits {
        number = number * 16 + u64::from(*digit % 16);
    }
    number << (4 * (16 - digits.len()))
}
