//! The text of a packed BCD number.
ghost use Rattle.std.specs.Prelude.{◌≡◌, ◌≤◌, ◌∷◌, ◌++◌, take, drop};
ghost use Rattle.decimal_digits.specs.Ascii.{decimal_point};
ghost use Rattle.decimal_digits.specs.Digits.{text_of};
ghost use Rattle.decimal_digits.specs.Nibbles.{word_nibbles};

use std::simd::prelude::*;

#[inline(always)]
fn word_text(word: u64) -> u8x16
    ensures { result ≡ text_of (word_nibbles word) }
{
    let bytes = u64x2::from_array([word, 0]).to_le_bytes();
    let high = bytes / u8x16::splat(16);
    let low = bytes % u8x16::splat(16);
    // The highest byte is the first.
    let all: u8x16 = high.shuffle(
        low,
        [7, 23, 6, 22, 5, 21, 4, 20, 3, 19, 2, 18, 1, 17, 0, 16],
    );
    all + u8x16::splat(b'0')
}

/// Returns the sixteen digits of a packed BCD number as ASCII, with a decimal point after the first `dot` of them.
///
/// Of `0x2500_0000_0000_0000` and 1 the text begins with `2.50`. Requires at most 16 digits before the decimal point.
// The text is stored once: a load of bytes from several stores would wait for them.
#[inline(always)]
pub fn dotted_text(number: u64, dot: usize) -> [u8; 17]
    requires { dot ≤ 16 }
    ensures { result
        ≡ text_of (take dot (word_nibbles number)) ++ decimal_point ∷ text_of (drop dot (word_nibbles number)) }
{
    let digits = word_text(number);
    let places = u8x16::from_array([0, 1, 2, 3, 4, 5, 6, 7, 8, 9, 10, 11, 12, 13, 14, 15]);
    let previous = u8x16::from_array([0, 0, 1, 2, 3, 4, 5, 6, 7, 8, 9, 10, 11, 12, 13, 14]);
    let point = u8x16::splat(dot as u8);
    // A digit after the decimal point moves by one place.
    let moved = digits.swizzle_dyn(places.simd_min(previous.simd_max(point)));
    let front = places.simd_eq(point).select(u8x16::splat(b'.'), moved);
    let mut text = [b'.'; 17];
    front.copy_to_slice(&mut text[..16]);
    if dot < 16 {
        text[16] = digits[15];
    }
    text
}
