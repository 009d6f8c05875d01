//! The errors of values, and their messages.
ghost use Rattle.std.specs.Prelude.{◌≡◌};
ghost use Rattle.decimal_unsigned.specs.ErrorText.{error_text};

use std::alloc::AllocError;
use std::error::Error;
use std::fmt;

/// The error of a value that is beyond the limits of a type, or would be after a shift or a rounding.
///
/// `5.0` has a fraction digit, and is no `FixedInteger`; `10` times 10^32767 would show the magnitude 32768. A value
/// that was to be changed is unchanged.
///
/// ```
/// let mut value = UnsignedDecimal::try_from_str(alloc, "10")?;
/// value.multiply_pow10(32767) // Err(LimitError)
/// ```
#[derive(Clone, Copy, Debug, PartialEq)]
pub struct LimitError;

impl fmt::Display for LimitError {
    ghost use Rattle.std.specs.Prelude.{Some};
    ghost use Rattle.decimal_digits.specs.ErrorText.{limit_text};

    ghost output = { λ _. Some limit_text };

    ghost styled_output = { λ _ _. Some limit_text };

    /// Writes the message of `ParseError::Limit`. Format options are ignored.
    fn fmt<W: fmt::Write>(&self, f: &mut fmt::Formatter<W>) -> fmt::Result {
        f.write_str(ParseError::Limit.message())
    }
}

impl Error for LimitError {}

/// The error of parsing a text.
///
/// ```
/// UnsignedDecimal::try_from_str(alloc, "5.") // Syntax
/// UnsignedDecimal::try_from_str(alloc, "1e32768") // Limit
/// ```
#[derive(Debug, Drop, PartialEq)]
pub enum ParseError {
    /// The value would show digits outside of the magnitudes -32768 to 32767, or its exponent is outside of them.
    Limit,
    /// The text is not in the grammar.
    Syntax,
    /// Out of memory for the digits.
    Memory,
}

impl From<AllocError> for ParseError {
    ghost use Rattle.std.specs.Prelude.{◌≡◌};
    ghost use Rattle.decimal_unsigned.specs.declared.error.ParseError.TheVariants.{Memory};

    ghost from_gives = { λ _ error. error ≡ Memory };

    /// Returns `Memory`.
    fn from(_error: AllocError) -> ParseError {
        ParseError::Memory
    }
}

impl ParseError {
    fn message(&self) -> &'static str
        ensures { result.now ≡ error_text self.now }
    {
        match self {
            ParseError::Limit => "Magnitude or number of digits exceeded",
            ParseError::Syntax => "Failed to parse the input string",
            ParseError::Memory => "Out of memory",
        }
    }
}

impl fmt::Display for ParseError {
    ghost use Rattle.std.specs.Prelude.{Some};
    ghost use Rattle.decimal_unsigned.specs.ErrorText.{error_text};

    ghost output = { λ e. Some (error_text e) };

    ghost styled_output = { λ e _. Some (error_text e) };

    /// Writes the message: `Out of memory` for `Memory`. Format options are ignored.
    fn fmt<W: fmt::Write>(&self, f: &mut fmt::Formatter<W>) -> fmt::Result {
        f.write_str(self.message())
    }
}

impl Error for ParseError {}

/// The error of joining two numbers, with the arguments.
///
/// `concatenate_end` returns the second number in it, `concatenated_end` both. `120` and `25` are
/// `Overlap`: both have a nonzero digit at magnitude 1.
///
/// ```
/// let number = UnsignedDecimal::try_from_str(alloc, "120")?;
/// let fraction = UnsignedDecimal::try_from_str(alloc, "0.25")?;
/// number.concatenated_end(fraction)? // 120.25
/// ```
#[derive(Debug, Drop)]
pub enum ConcatenateError<T> {
    /// Neither number is 0, and the first nonzero digit of the second is at or above the last one of the first.
    Overlap(T),
    /// Out of memory for the joined digits.
    Memory(T),
}

impl<T> fmt::Display for ConcatenateError<T> {
    /// Writes the message, without the arguments: `The numbers overlap`, or `Out of memory`. Format options are
    /// ignored.
    fn fmt<W: fmt::Write>(&self, f: &mut fmt::Formatter<W>) -> fmt::Result {
        f.write_str(match self {
            ConcatenateError::Overlap(_) => "The numbers overlap",
            ConcatenateError::Memory(_) => ParseError::Memory.message(),
        })
    }
}

impl<T: fmt::Debug + Drop> Error for ConcatenateError<T> {}

/// The error of converting a number to an integer type.
///
/// `1.5` is `NotWhole` for each type, and an integer of 300 digits is `OutOfRange`.
///
/// ```
/// UnsignedDecimal::try_from_str(alloc, "1.5")?.try_to_u64() // NotWhole
/// UnsignedDecimal::try_from_str(alloc, "18446744073709551616")?.try_to_u64() // OutOfRange
/// ```
#[derive(Clone, Copy, Debug, PartialEq, Eq)]
pub enum IntegerError {
    /// A fraction digit is not 0.
    NotWhole,
    /// The number is an integer, and outside of the range of the type.
    OutOfRange,
}

impl fmt::Display for IntegerError {
    /// Writes the message: `Not a whole number` for `NotWhole`. Format options are ignored.
    fn fmt<W: fmt::Write>(&self, f: &mut fmt::Formatter<W>) -> fmt::Result {
        f.write_str(match self {
            IntegerError::NotWhole => "Not a whole number",
            IntegerError::OutOfRange => "Integer out of range",
        })
    }
}

impl Error for IntegerError {}
