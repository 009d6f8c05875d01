//! Exponents.
ghost use Rattle.std.specs.Int.Digits.{number_from_digits};
ghost use Rattle.std.specs.Prelude.{◌≡◌, ◌≢◌, ℕ, ◌<◌, ◌↔◌, List, ◌++◌, length, get_or, pos, ◌≤◌, IfSome, IsSomeAnd, IsTrue};
ghost use Rattle.fixed_decimal.specs.declared.variations.Sign.{Sign};
ghost use Rattle.decimal_format.specs.{Readable.{IsReadable, BeginsWithDigit, BeginsWith}, Symbols.{digit_text, sign_affixes}};
ghost use Rattle.number_format.specs.{NumberText.exponent_sign, ScientificReading.{least_digits, HasLeastDigits, capped, capped_exponent, exponent_number, IsExponent, HasExponent}};

use crate::options::{ExponentOptions, ExponentSign};
use crate::read::cut::cut;
use crate::read::scientific::scan::scan_number;
use decimal_format::DecimalSymbols;
use fixed_decimal::Sign;

/// An exponent.
#[derive(Clone, Copy)]
pub(super) struct Exponent {
    /// The exponent: 40,000 or -40,000 instead of a greater or a lesser one.
    pub(super) number: i32,
    /// The remainder of its absolute value by 3.
    pub(super) remainder: u32,
}

fn split_sign<'t>(symbols: &DecimalSymbols<'_>, text: &'t [u8]) -> (Sign, &'t [u8])
    requires { IsReadable symbols.now }
    ensures found { text.now ≡ (sign_affixes symbols.now result.0).prefix ++ result.1.now }
    ensures unique { (sign : Sign) (rest : List ℕ) → BeginsWithDigit symbols.now rest
        → text.now ≡ (sign_affixes symbols.now sign).prefix ++ rest
        → (result.0 ≡ sign) × (result.1.now ≡ rest) }
{
    if let Some(rest) = cut(text, symbols.affixes(Sign::Negative).prefix.as_bytes()) {
        return (Sign::Negative, rest);
    }
    if let Some(rest) = cut(text, symbols.affixes(Sign::Positive).prefix.as_bytes()) {
        return (Sign::Positive, rest);
    }
    (Sign::None, text)
}

fn begins_with_zero(symbols: &DecimalSymbols<'_>, text: &[u8]) -> bool
    ensures { IsTrue result ↔ BeginsWith text.now (digit_text symbols.now 0) }
{
    let mut buffer = [0; 4];
    cut(text, symbols.digit(0).encode_utf8(&mut buffer).as_bytes()).is_some()
}

fn has_least_digits(options: ExponentOptions, count: u32, begins_with_zero: bool) -> bool
    ensures { (ds : List ℕ) → count ≡ capped (length ds)
        → (0 < length ds → IsTrue begins_with_zero ↔ (get_or ds 0 0 ≡ 0))
        → IsTrue result ↔ HasLeastDigits (least_digits options) ds }
{
    let least = u32::from(options.digits).clamp(1, 32767);
    count == least || count > least && !begins_with_zero
}

fn has_sign(options: ExponentOptions, sign: Sign, number: u32) -> bool
    ensures { (ds : List ℕ) → number ≡ capped (number_from_digits 10 ds)
        → IsTrue result ↔ (sign ≡ exponent_sign options.sign (exponent_number sign ds)) }
{
    match sign {
        Sign::Negative => number > 0 && options.sign != ExponentSign::Never,
        Sign::Positive => options.sign == ExponentSign::Always,
        Sign::None => options.sign != ExponentSign::Always,
    }
}

fn signed(sign: Sign, number: u32) -> i32
    requires { number ≤ 40000 }
    ensures { (ds : List ℕ) → number ≡ capped (number_from_digits 10 ds)
        → result ≡ capped_exponent (exponent_number sign ds) }
{
    match sign {
        Sign::Negative => -(number as i32),
        _ => number as i32,
    }
}

/// Reads an exponent, its sign and its digits, as a formatter writes it.
pub(super) fn read_exponent(
    symbols: &DecimalSymbols<'_>,
    options: ExponentOptions,
    text: &[u8],
) -> Option<Exponent>
    requires { IsReadable symbols.now }
    ensures found { IfSome result (λ r. (sign : Sign) × (ds : List ℕ)
        × IsExponent symbols.now options text.now sign ds × HasExponent r (exponent_number sign ds)) }
    ensures unique { (sign : Sign) (ds : List ℕ) → IsExponent symbols.now options text.now sign ds
        → IsSomeAnd result (λ r. HasExponent r (exponent_number sign ds)) }
{
    let (sign, digits) = split_sign(symbols, text);
    let (scan, rest) = scan_number(symbols, digits);
    if !rest.is_empty() || scan.has_decimal || scan.has_grouping {
        return None;
    }
    if !has_least_digits(options, scan.count, begins_with_zero(symbols, digits)) {
        return None;
    }
    if !has_sign(options, sign, scan.whole) {
        return None;
    }
    Some(Exponent {
        number: signed(sign, scan.whole),
        remainder: scan.remainder,
    })
}
