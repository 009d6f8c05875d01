//! Eight bytes of a text at once, as a big-endian number.
ghost use Rattle.std.specs.Prelude.{◌≡◌, ℕ, ◌≤◌, List, length, IfSome};
ghost use Rattle.std.specs.Int.Digits.{number_from_digits, AllBelowBase};
ghost use Rattle.std.specs.Str.Parse.{AllDigits, digits_value};
ghost use Rattle.decimal_unsigned.specs.PlainTexts.{bytes_below};

#[inline]
fn flag_bytes(bytes: u64) -> u64
    ensures { result ≡ 0 → bytes_below 10 8 bytes }
{
    // A byte below 16 is below ten if it stays below 16 when 6 is added to it.
    (bytes | bytes.wrapping_add(0x0606_0606_0606_0606)) & 0xf0f0_f0f0_f0f0_f0f0
}

#[inline]
fn pack_bytes(bytes: u64) -> u64
    ensures { (ds : List ℕ) → AllBelowBase 16 ds → length ds ≤ 8 → bytes ≡ number_from_digits 256 ds
        → result ≡ number_from_digits 16 ds }
{
    // Joins two digits in two bytes, four in four bytes, and then all eight.
    let pairs = bytes - (256 - 16) * (bytes >> 8 & 0x00ff_00ff_00ff_00ff);
    let fours = pairs - (65_536 - 256) * (pairs >> 16 & 0x0000_ffff_0000_ffff);
    fours - (4_294_967_296 - 65_536) * (fours >> 32)
}

/// Returns the number in base 16 of eight digits, or None if a byte is not a digit.
#[inline]
pub fn read_group(bytes: &[u8; 8]) -> Option<u64>
    ensures digits { IfSome result (λ n. AllDigits 10 bytes.now) }
    ensures number { IfSome result (λ n. n ≡ digits_value 16 bytes.now) }
{
    let values = u64::from_be_bytes(*bytes).wrapping_sub(0x3030_3030_3030_3030);
    if flag_bytes(values) == 0 {
        Some(pack_bytes(values))
    } else {
        None
    }
}
