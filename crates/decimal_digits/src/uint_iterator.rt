//! The decimal digits of an unsigned integer, least significant first.
ghost use Rattle.std.specs.Prelude.{◌≡◌, ℕ, ◌/◌, ◌%◌, ◌^◌, ◌<◌, ◌≤◌, length, IfNone, IfSome};
ghost use Rattle.std.specs.Iterator.{YieldsFirst, item_count};
ghost use Rattle.decimal_digits.specs.AscendingDigits.{ascending_digits};

use std::marker::Model;

/// The number of decimal digits of the greatest `u128`.
pub const MAX_DIGITS: usize = 39;

/// An unsigned integer type: `u8` to `u128`, and `usize`.
///
/// ```
/// 250_u16.split_last_digit() // Some((0, 25))
/// ```
pub trait UnsignedInteger: Copy {
    /// The integer.
    ghost number: { Self → ℕ };

    /// Divides by ten: returns the remainder, which is the last decimal digit, and the quotient.
    ///
    /// 250 gives 0 and 25. None for 0, which has no digits here.
    fn split_last_digit(self) -> Option<(u8, Self)>
        ensures none { IfNone result (number self ≡ 0) }
        ensures some { IfSome result (λ split. (0 < number self)
            × (split.0 ≡ number self % 10) × (number split.1 ≡ number self / 10)) };
}

/// The decimal digits of an integer, from the last to the first; 0 has none.
///
/// Contracts see the digits that are left. Of 250 they are 0, 5 and 2.
///
/// ```
/// for digit in IntIterator::new(250_u16) {
///     digits.push(digit)?; // 0, 5, 2
/// }
/// ```
#[derive(Drop)]
pub struct IntIterator<T: UnsignedInteger> {
    rest: T,
}

impl<T: UnsignedInteger> Model for IntIterator<T> {
    ghost use Rattle.std.specs.Prelude.{ℕ, List};
    ghost use Rattle.decimal_digits.specs.AscendingDigits.{ascending_digits};

    ghost Value = { List ℕ };

    ghost view = { λ s. ascending_digits (T.number s.rest) };
}

impl<T: UnsignedInteger> IntIterator<T> {
    /// Makes the iterator over the digits of an integer, at most `MAX_DIGITS`.
    ///
    /// Requires an integer below 2^128, as those of each type are.
    pub fn new(integer: T) -> Self
        requires { T.number integer < 2 ^ 128 }
        ensures digits { result ≡ ascending_digits (T.number integer) }
        ensures at_most { length result ≤ MAX_DIGITS }
    {
        IntIterator { rest: integer }
    }
}

impl<T: UnsignedInteger> Iterator for IntIterator<T> {
    type Item = u8;

    ghost next_gives = { YieldsFirst (λ digits. digits) };

    ghost remaining = { item_count (λ digits. digits) };

    fn next(&mut self) -> Option<u8> {
        let (digit, rest) = self.rest.split_last_digit()?;
        self.rest = rest;
        Some(digit)
    }
}

impl UnsignedInteger for u8 {
    ghost number = { λ n. n };

    #[inline]
    fn split_last_digit(self) -> Option<(u8, u8)> {
        (self != 0).then_some((self % 10, self / 10))
    }
}

impl UnsignedInteger for u16 {
    ghost number = { λ n. n };

    #[inline]
    fn split_last_digit(self) -> Option<(u8, u16)> {
        (self != 0).then_some(((self % 10) as u8, self / 10))
    }
}

impl UnsignedInteger for u32 {
    ghost number = { λ n. n };

    #[inline]
    fn split_last_digit(self) -> Option<(u8, u32)> {
        (self != 0).then_some(((self % 10) as u8, self / 10))
    }
}

impl UnsignedInteger for u64 {
    ghost number = { λ n. n };

    #[inline]
    fn split_last_digit(self) -> Option<(u8, u64)> {
        (self != 0).then_some(((self % 10) as u8, self / 10))
    }
}

impl UnsignedInteger for u128 {
    ghost number = { λ n. n };

    #[inline]
    fn split_last_digit(self) -> Option<(u8, u128)> {
        // A division of 64 bits is far faster, and each integer is soon short enough for it.
        if let Ok(short) = u64::try_from(self) {
            let (digit, rest) = short.split_last_digit()?;
            return Some((digit, rest as u128));
        }
        Some(((self % 10) as u8, self / 10))
    }
}

impl UnsignedInteger for usize {
    ghost number = { λ n. n };

    #[inline]
    fn split_last_digit(self) -> Option<(u8, usize)> {
        (self != 0).then_some(((self % 10) as u8, self / 10))
    }
}
