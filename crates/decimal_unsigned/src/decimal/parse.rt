//! Parsing of a value. `Syntax` and `Limit` are decided before any allocation.
ghost use Rattle.std.specs.Prelude.{◌≡◌, ◌<◌, ◌≤◌, IfSome, IfOk, IfErr, Ok, IsOk, IsOkAnd};
ghost use Rattle.std.specs.Char.{digit_value};
ghost use Rattle.std.specs.Str.Parse.{AllDigits};
ghost use Rattle.decimal_digits.specs.Number.{size};
ghost use Rattle.decimal_unsigned.specs.Reading.{read};
ghost use Rattle.decimal_unsigned.specs.ParseResult.{ParseFails, IsParseResult, Parses};
ghost use Rattle.decimal_unsigned.specs.Parts.{view};
ghost use Rattle.decimal_unsigned.specs.ScannedDigits.{middle, digits_of};

mod fast_path;
mod parts;
mod plan;
mod words;

use super::UnsignedOver;
use crate::ParseError;
use decimal_digits::digits::DigitStore;
use fast_path::{plain_text, wide_bcd_value};
pub use parts::numeral;
use parts::{Parts, split};
use plan::{Plan, planned};
use std::alloc::{AllocError, Global};
use std::marker::Model;

/// The parts of a text, and where its digits are in the value, found without an allocation.
///
/// Contracts see the value that `value` makes. To parse several texts, scan all of them first: every error except out
/// of memory is then reported before a digit is stored. A scan borrows its text.
///
/// ```
/// let scan = Scan::new(b"100e-2")?;
/// scan.lowest() // -2
/// scan.value::<PackedDigits>(alloc)? // 1.00
/// ```
#[derive(Debug, Drop)]
pub struct Scan<'a> {
    parts: Parts<'a>,
    plan: Plan,
}

impl<'a> Model for Scan<'a> {
    ghost use Rattle.decimal_unsigned.specs.Unsigned.{Unsigned};
    ghost use Rattle.decimal_unsigned.specs.Parts as found;
    ghost use Rattle.decimal_unsigned.specs.ScannedDigits.{plan_value, IsScanned};

    ghost Value = { Unsigned };

    ghost view = { λ s. plan_value (found.view s.parts) s.plan };

    ghost invariant = { λ s. IsScanned (found.view s.parts) s.plan };
}

impl<'a> Scan<'a> {
    /// Scans a text, without an allocation.
    ///
    /// `012.50` is accepted, and `5.` is `Syntax`. Law: [`crate::laws::reading_follows_grammar`].
    ///
    /// # Errors
    ///
    /// `Syntax` or `Limit`, as for [`UnsignedOver::try_from_utf8`].
    pub fn new(text: &'a [u8]) -> Result<Scan<'a>, ParseError>
        ensures value { IfOk result (λ s. read text.now ≡ Ok s) }
        ensures rejects { IfErr result (λ e. ParseFails ⊥ e (read text.now)) }
    {
        let Some(parts) = split(text) else {
            return Err(ParseError::Syntax);
        };
        let Some(plan) = planned(&parts) else {
            return Err(ParseError::Limit);
        };
        Ok(Scan { parts, plan })
    }

    /// Returns the lowest magnitude that the value shows.
    ///
    /// Of `1.50` it is -2, of `100e-2` it is -2, of `5.0e1` it is 0.
    #[inline]
    pub fn lowest(&self) -> i16
        ensures { result ≡ self.now.lo }
    {
        self.plan.bounds.lo
    }

    /// Makes the value of the text: that of `012.50` prints `012.50`.
    ///
    /// # Errors
    ///
    /// Out of memory; possible only with more than `L` digits. The scan can be used again.
    pub fn value<D: DigitStore>(&self, alloc: Global) -> Result<UnsignedOver<D>, AllocError>
        ensures value { IfOk result (λ v. v ≡ self.now) }
        ensures succeeds { size self.now.number ≤ D.L → IsOk result }
    {
        let bounds = self.plan.bounds;
        let (whole, fraction) = self.parts.between(self.plan.start, self.plan.end);
        let mut digits = D::empty(alloc);
        digits.reserve(whole.len() + fraction.len())?;
        digits.push_text(whole);
        digits.push_text(fraction);
        Ok(UnsignedOver {
            digits,
            magnitude: bounds.magnitude,
            hi: bounds.hi,
            lo: bounds.lo,
        })
    }
}

/// Returns the lowest magnitude that the value of a text shows, without an allocation.
///
/// Of `1.50` it is -2, of `100e-2` it is -2, of `5.0e1` it is 0.
///
/// # Errors
///
/// `Syntax` or `Limit`, as for [`UnsignedOver::try_from_utf8`].
pub fn lowest_of(text: &[u8]) -> Result<i16, ParseError>
    ensures value { IfOk result (λ lo. IsOkAnd (read text.now) (λ v. v.lo ≡ lo)) }
    ensures rejects { IfErr result (λ e. ParseFails ⊥ e (read text.now)) }
{
    Ok(Scan::new(text)?.lowest())
}

impl<D: DigitStore> UnsignedOver<D> {
    /// Parses a value.
    ///
    /// A text is digits, or digits around a decimal point with at least one fraction digit. Either can be followed by
    /// an `e` or `E` and an integer exponent, with at most one sign, minus or plus. With an exponent the decimal point
    /// needs no digit on either side. All zeros count: `0012.3400` shows magnitudes 3 to -4. With an exponent, leading
    /// zeros are removed if the first nonzero digit is above magnitude 0, and trailing zeros if the last one is below
    /// it: `1.20e0` gives `1.2`, and `1.20e+1` gives `12.0`.
    ///
    /// ```
    /// UnsignedDecimal::try_from_utf8(alloc, b"0012.3400")? // 0012.3400
    /// UnsignedDecimal::try_from_utf8(alloc, b"1.20e+1")? // 12.0
    /// UnsignedDecimal::try_from_utf8(alloc, b"5.") // Syntax
    /// ```
    ///
    /// # Errors
    ///
    /// - `Syntax`: the text has none of these forms.
    /// - `Limit`: there are more than 32,768 integer or fraction digits. Or the number is not 0, and its exponent is
    ///   outside of -32768 to 32767, or moves the range outside of these magnitudes.
    /// - `Memory`: out of memory; possible only with more than `L` digits.
    // Inlined always, for the reason that `from_short_text` gives.
    #[inline(always)]
    pub fn try_from_utf8(alloc: Global, text: &[u8]) -> Result<Self, ParseError>
        ensures { Parses D.L text.now result }
    {
        if let Some(value) = Self::from_short_text(alloc, text) {
            return Ok(value);
        }
        Self::scan_from(alloc, text)
    }

    /// Parses a value, as [`Self::try_from_utf8`] of the bytes.
    #[inline(always)]
    pub fn try_from_str(alloc: Global, text: &str) -> Result<Self, ParseError>
        ensures { Parses D.L text.now result }
    {
        Self::try_from_utf8(alloc, text.as_bytes())
    }

    /// Parses a short text, faster than `try_from_utf8`: up to sixteen digits, with or without a decimal point.
    ///
    /// `012.50` is short. It does not allocate. None if the text is longer, has an exponent or more than `L` digits, or
    /// is not in the grammar: `try_from_utf8` then returns the value or the error.
    // Inlined always: returned from a call, the fields would be stored one by one and copied together, and the
    // processor waits for that.
    #[doc(hidden)]
    #[inline(always)]
    pub fn from_short_text(alloc: Global, text: &[u8]) -> Option<Self>
        ensures { IfSome result (λ v. read text.now ≡ Ok v) }
    {
        let plain = plain_text::<u64>(text, D::L.min(16))?;
        Self::from_bcd_digits(alloc, plain.whole, plain.fraction, plain.number).ok()
    }

    /// Parses any text, as `try_from_utf8`, up to 32 digits in one pass; a short one faster by `from_short_text`.
    ///
    /// # Errors
    ///
    /// As for [`Self::try_from_utf8`].
    // Inlined always: after a test for a short text, the space of the result is filled with zeros only if the test
    // fails. The `Result` is not forwarded as it is: a short value would then be copied through memory too.
    #[doc(hidden)]
    #[inline(always)]
    pub fn scan_from(alloc: Global, text: &[u8]) -> Result<Self, ParseError>
        ensures { IsParseResult (λ v. D.L < size v.number) result (read text.now) }
    {
        let value = Self::scan_any(alloc, text)?;
        Ok(value)
    }

    // Not inlined: it then has its own stack frame, which a short text does not fill with zeros.
    #[inline(never)]
    fn scan_any(alloc: Global, text: &[u8]) -> Result<Self, ParseError>
        ensures { IsParseResult (λ v. D.L < size v.number) result (read text.now) }
    {
        if let Some(bcd) = wide_bcd_value(text) {
            let digits = D::from_wide_bcd(alloc, bcd.number, bcd.len)?;
            let bounds = bcd.bounds;
            return Ok(UnsignedOver {
                digits,
                magnitude: bounds.magnitude,
                hi: bounds.hi,
                lo: bounds.lo,
            });
        }
        Ok(Scan::new(text)?.value(alloc)?)
    }
}
