//! Reading of numbers in scientific and engineering notation.
ghost use Rattle.std.specs.Prelude.{◌≡◌, ◌↔◌, ℕ, List, ℤ, IsTrue, IfSome, IsSomeAnd, IfOk, IfErr, Ok, Err};
ghost use Rattle.std.specs.Int.Digits.{number_from_digits};
ghost use Rattle.decimal_format.specs.{Readable.IsReadable, Reading.IsNumeral};
ghost use Rattle.number_format.specs.{AffixedTexts.shifted, ScientificReading.{exponent_form, step_of, IsInNotation, IsSeparatorApart, CanReadExponent, ScientificNumeral, IsScientificNumeral, IsReadScientific, HasNumbers, HasExponent, capped_exponent, exponent_of, IsSplit, HasParts}};

mod apart;
mod exponent;
mod scan;

use crate::format::formatter::NumberFormatter;
use crate::options::{ExponentOptions, ExponentSign, NumberNotation};
use crate::read::cut::cut;
use crate::read::scientific::apart::is_separator_apart;
use crate::read::scientific::exponent::{Exponent, read_exponent};
use crate::read::scientific::scan::{Scan, scan_number};
use decimal_format::DecimalSymbols;
use decimal_format::internal::begins_with_digit;
use fixed_decimal::{DigitStore, ParseError, Signed, UnsignedOver};
use std::alloc::Global;

/// How exponents are written.
#[derive(Clone, Copy)]
pub(crate) struct ExponentForm<'a> {
    /// The text before an exponent: `E`.
    pub(crate) separator: &'a str,
    /// The sign and the least number of digits.
    pub(crate) options: ExponentOptions,
    /// Whether each exponent is a multiple of 3.
    pub(crate) is_engineering: bool,
}

/// Multiplies a significand by 10^exponent.
pub(crate) fn times_power<D: DigitStore>(
    significand: Signed<UnsignedOver<D>>,
    exponent: i32,
) -> Result<Signed<UnsignedOver<D>>, ParseError>
    ensures { (e : ℤ) → exponent ≡ capped_exponent e → result ≡ shifted e (Ok significand) }
{
    let mut value = significand;
    if exponent < -32768 || exponent > 32767 {
        return Err(ParseError::Limit);
    }
    match value.absolute.multiply_pow10(exponent as i16) {
        Ok(()) => Ok(value),
        Err(_) => Err(ParseError::Limit),
    }
}

impl<'a> ExponentForm<'a> {
    /// Returns how a formatter writes exponents: `None` in standard and in compact notation.
    pub(crate) fn of(formatter: &NumberFormatter) -> Option<ExponentForm<'static>>
        ensures { result ≡ exponent_form formatter.now formatter.now.options.notation }
    {
        let (options, is_engineering) = match formatter.options.notation {
            NumberNotation::Scientific(options) => (options, false),
            NumberNotation::Engineering(options) => (options, true),
            _ => return None,
        };
        Some(ExponentForm {
            separator: formatter.separator.text,
            options,
            is_engineering,
        })
    }

    fn is_in_notation(&self, significand: Scan, exponent: Exponent) -> bool
        ensures { (ds es : List ℕ) (e : ℤ) → HasNumbers significand ds es → HasExponent exponent e
            → IsTrue result
            ↔ IsInNotation (step_of self.now) (number_from_digits 10 ds) (number_from_digits 10 es) e }
    {
        if significand.whole == 0 {
            return significand.fraction == 0 && exponent.number == 0;
        }
        if self.is_engineering {
            return significand.whole < 1000 && exponent.remainder == 0;
        }
        significand.whole < 10
    }

    /// Returns whether the exponents that are written can be read.
    ///
    /// No text may begin with the separator and with a digit or another separator, and minus signs have to be shown: by
    /// `ExponentSign::Never` the texts of 1000 and of 0.001 are `1E3`.
    pub(crate) fn can_read(&self, symbols: &DecimalSymbols<'_>) -> bool
        ensures { IsTrue result ↔ CanReadExponent symbols.now self.now }
    {
        match self.options.sign {
            ExponentSign::Never => false,
            _ => is_separator_apart(symbols, self.separator.as_bytes()),
        }
    }

    /// Returns what precedes the separator, and the exponent.
    fn split<'t>(&self, symbols: &DecimalSymbols<'_>, body: &'t [u8]) -> Option<(&'t [u8], i32)>
        requires readable { IsReadable symbols.now }
        requires separator { IsSeparatorApart symbols.now self.now.separator.now }
        ensures found { IfSome result (λ r. IsSplit symbols.now self.now body.now r.0.now r.1) }
        ensures unique { (w : ScientificNumeral) → IsScientificNumeral symbols.now self.now body.now w
            → IsSomeAnd result (λ r. IsNumeral symbols.now r.0.now w.significand
            × (r.1 ≡ capped_exponent (exponent_of w))) }
    {
        let (digits, rest) = scan_number(symbols, body);
        let significand = &body[..body.len() - rest.len()];
        let text = cut(rest, self.separator.as_bytes())?;
        let exponent = read_exponent(symbols, self.options, text)?;
        if !begins_with_digit(symbols, significand) || !self.is_in_notation(digits, exponent) {
            return None;
        }
        Some((significand, exponent.number))
    }

    /// Reads the significand and the exponent of a number as a formatter in scientific or engineering notation writes
    /// it: 40,000 or -40,000 instead of a greater or a lesser exponent.
    ///
    /// The significand is as [`DecimalSymbols::read`] accepts it, without a sign. The exponent is the one that the
    /// notation has for the number, and it has its sign and its least number of digits. With `E` and `Scientific`,
    /// `1.20E3` and `0E0` are accepted, and `12E3`, `1E03` and `0E1` are `Syntax`.
    ///
    /// # Errors
    ///
    /// - `Syntax`: no decimal has this text, of any number of digits.
    /// - `Limit`: the significand has more than 32,768 integer or fraction digits.
    /// - `Memory`: out of memory; possible only with a significand of more than `L` digits.
    pub(crate) fn read_parts<D: DigitStore>(
        &self,
        symbols: &DecimalSymbols<'_>,
        alloc: Global,
        body: &[u8],
    ) -> Result<(Signed<UnsignedOver<D>>, i32), ParseError>
        requires readable { IsReadable symbols.now }
        requires separator { IsSeparatorApart symbols.now self.now.separator.now }
        ensures ok { IfOk result (λ parts. HasParts symbols.now self.now body.now parts.0 parts.1) }
        ensures err { IfErr result (λ e. IsReadScientific D.L symbols.now self.now body.now (Err e)) }
    {
        let Some((significand, exponent)) = self.split(symbols, body) else {
            return Err(ParseError::Syntax);
        };
        match symbols.read(alloc, significand) {
            Ok(value) => Ok((value, exponent)),
            Err(error) => Err(error),
        }
    }
}
