//! Reading of formatted decimals.
ghost use Rattle.std.specs.{Prelude.{◌≡◌, ◌≢◌, ℕ, List, ◌++◌, length, Bool, IfSome, IfNone}, Int.Digits.AllBelowBase};
ghost use Rattle.decimal_format.specs.{Grouping.ends_group, Readable.IsReadable, Reading.{Numeral, digits_text, fraction_text, IsNumeral, IsWritten, IsRead}, Lenient.IsLenientNumeral, Scanning.{separated_if, SkipsSeparator, IsSpelled, ReadsSpelled, ReadsDigits, HasPart, IsScan, IsNumeralBy, IsWrittenBy}};

pub(crate) mod alternatives;
pub(crate) mod codes;
pub(crate) mod input;
mod lenient;
mod value;

use crate::symbols::DecimalSymbols;
use codes::cut;
use fixed_decimal::{DigitStore, ParseError, Sign, Signed, UnsignedOver};
use input::Input;
use std::alloc::Global;

/// Digits of a text: the text that begins with them, their number, and the last sixteen as packed BCD.
#[derive(Clone, Copy)]
struct Part<T> {
    text: T,
    count: usize,
    number: u64,
}

/// What a text says: a sign and digits.
#[derive(Clone, Copy)]
struct Scanned<T> {
    sign: Sign,
    whole: Part<T>,
    fraction: Part<T>,
    /// Whether the text has all grouping separators, or none.
    is_strict: bool,
}

impl<'a> DecimalSymbols<'a> {
    fn skip_separator<T: Input>(&self, possible: bool, text: T) -> (bool, T)
        ensures { SkipsSeparator self.now possible (T.bytes text) (T.bytes result.1) result.0 }
    {
        if !possible {
            return (false, text);
        }
        match cut(text, self.grouping_separator().as_bytes()) {
            Some(rest) => (true, rest),
            None => (false, text),
        }
    }

    /// Reads up to `most` digits, with grouping separators anywhere: returns the last sixteen as packed BCD, their
    /// number, and what follows them.
    #[inline]
    fn read_separated<T: Input>(&self, most: usize, text: T) -> (u64, usize, T)
        requires { IsReadable self.now }
        ensures { (ds : List ℕ) → IsSpelled self.now (T.bytes text) ds
            → ReadsSpelled self.now most (T.bytes result.2) result.0 result.1 ds }
    {
        let mut rest = text;
        let mut number = 0;
        let mut count = 0;
        while count < most {
            if let Some(next) = self.next_digit(rest) {
                number = (number << 4) + u64::from(next.0);
                count += 1;
                rest = next.1;
            } else if let Some(after) = cut(rest, self.grouping_separator().as_bytes()) {
                rest = after;
            } else {
                return (number, count, rest);
            }
        }
        (number, count, rest)
    }

    /// Reads the given number of digits, with separators at any ends of groups, and returns whether all separators are
    /// there, or none, and what follows the digits.
    #[inline]
    fn read_digits<T: Input>(&self, count: usize, text: T) -> Option<(bool, T)>
        requires { IsReadable self.now }
        ensures found { IfSome result (λ r. ReadsDigits self.now (ends_group self.now.sizes) count
            (T.bytes text) (T.bytes r.1) r.0) }
        ensures unique { IfSome result (λ r. (chosen : ℕ → Bool) (ds tail : List ℕ) → length ds ≡ count
            → AllBelowBase 10 ds
            → T.bytes text ≡ digits_text self.now (separated_if (ends_group self.now.sizes) chosen) ds ++ tail
            → T.bytes r.1 ≡ tail) }
        ensures none { IfNone result ((chosen : ℕ → Bool) (ds tail : List ℕ) → length ds ≡ count
            → AllBelowBase 10 ds
            → T.bytes text ≢ digits_text self.now (separated_if (ends_group self.now.sizes) chosen) ds ++ tail) }
    {
        let mut rest = text;
        let mut left = count;
        let mut all = true;
        let mut none = true;
        while left > 0 {
            let (most, possible) = self.sizes().run_to_end(left - 1, left);
            let (_, found, after) = self.read_run(most, rest);
            if found < most {
                return None;
            }
            left -= most;
            let (separated, next) = self.skip_separator(possible, after);
            all &= separated == possible;
            none &= !separated;
            rest = next;
        }
        Some((all | none, rest))
    }

    #[inline]
    fn read_fraction<T: Input>(&self, text: T) -> Option<Part<T>>
        requires { IsReadable self.now }
        ensures found { IfSome result (λ r. (ds : List ℕ) × (T.bytes text ≡ fraction_text self.now ds)
            × HasPart self.now T.bytes r ds) }
        ensures none { IfNone result ((ds : List ℕ) → AllBelowBase 10 ds → T.bytes text ≢ fraction_text self.now ds) }
    {
        if text.is_empty() {
            return Some(Part {
                text,
                count: 0,
                number: 0,
            });
        }
        let digits = cut(text, self.decimal_separator().as_bytes())?;
        let (number, count, rest) = self.read_run(usize::MAX, digits);
        if count == 0 || !rest.is_empty() {
            return None;
        }
        Some(Part {
            text: digits,
            count,
            number,
        })
    }

    #[inline]
    fn scan<T: Input>(&self, text: T) -> Option<Scanned<T>>
        requires { IsReadable self.now }
        ensures found { IfSome result (λ r. (w : Numeral) × IsScan self.now T.bytes (T.bytes text) r w) }
        ensures none { IfNone result ((w : Numeral) → ¬ IsLenientNumeral self.now (T.bytes text) w) }
    {
        let (sign, digits) = self.split_sign(text)?;
        if digits.is_empty() {
            return None;
        }
        let (number, count, _) = self.read_separated(usize::MAX, digits);
        if count == 0 {
            return None;
        }
        let (is_strict, rest) = self.read_digits(count, digits)?;
        let fraction = self.read_fraction(rest)?;
        Some(Scanned {
            sign,
            whole: Part {
                text: digits,
                count,
                number,
            },
            fraction,
            is_strict,
        })
    }

    fn read_groups<T: Input, D: DigitStore>(
        &self,
        alloc: Global,
        text: T,
        is_strict: bool,
    ) -> Result<Signed<UnsignedOver<D>>, ParseError>
        requires { IsReadable self.now }
        ensures { IsRead D.L (IsNumeralBy is_strict self.now (T.bytes text))
            (IsWrittenBy is_strict self.now (T.bytes text)) result }
    {
        let Some(scanned) = self.scan(text) else {
            return Err(ParseError::Syntax);
        };
        if is_strict && !scanned.is_strict {
            return Err(ParseError::Syntax);
        }
        self.value(alloc, &scanned)
    }

    /// Reads a decimal in exactly one of the forms that a formatter with these symbols writes.
    ///
    /// The groups are as `format` writes them by some strategy: all separators, or none. With the symbols of `en`
    /// `-1,234.50` and `-1234.50` are accepted, and `1,23` and `12,34.5` are `Syntax`. The value shows the digits
    /// of the text. Requires readable symbols, which [`is_readable`](Self::is_readable) tests.
    ///
    /// ```
    /// let value: Decimal = DecimalSymbols::ascii().read(alloc, b"-1,234.50")?; // -1234.50
    /// ```
    ///
    /// # Errors
    ///
    /// - `Syntax`: no decimal has this text, of any number of digits.
    /// - `Limit`: there are more than 32,768 integer or fraction digits.
    /// - `Memory`: out of memory; possible only with more than `L` digits.
    pub fn read<D: DigitStore>(
        &self,
        alloc: Global,
        text: &[u8],
    ) -> Result<Signed<UnsignedOver<D>>, ParseError>
        requires { IsReadable self.now }
        ensures { IsRead D.L (IsNumeral self.now text.now) (λ v. IsWritten self.now v text.now) result }
    {
        self.read_groups(alloc, text, true)
    }
}
