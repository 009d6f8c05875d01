//! Numbers of digits, as types.

/// A number of digits, as a type.
pub trait DigitLimit: Drop {
    const LIMIT: usize;
}

/// Eight digits.
#[derive(Drop)]
pub struct EightDigits;

/// Sixteen digits.
#[derive(Drop)]
pub struct SixteenDigits;

/// Seventeen digits.
#[derive(Drop)]
pub struct SeventeenDigits;

/// Eighteen digits.
#[derive(Drop)]
pub struct EighteenDigits;

/// Nineteen digits.
#[derive(Drop)]
pub struct NineteenDigits;

/// Twenty-one digits.
#[derive(Drop)]
pub struct TwentyOneDigits;

/// The 65,536 digits of the greatest number.
#[derive(Drop)]
pub struct MaxDigits;

impl DigitLimit for EightDigits {
    const LIMIT: usize = 8;
}

impl DigitLimit for SixteenDigits {
    const LIMIT: usize = 16;
}

impl DigitLimit for SeventeenDigits {
    const LIMIT: usize = 17;
}

impl DigitLimit for EighteenDigits {
    const LIMIT: usize = 18;
}

impl DigitLimit for NineteenDigits {
    const LIMIT: usize = 19;
}

impl DigitLimit for TwentyOneDigits {
    const LIMIT: usize = 21;
}

impl DigitLimit for MaxDigits {
    const LIMIT: usize = 65_536;
}
