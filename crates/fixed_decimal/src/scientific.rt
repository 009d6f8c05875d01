//! Decimals in scientific notation: `1.20e-03`.
ghost use Rattle.std.specs.{Prelude.{◌≡◌, ◌≤◌, ◌↔◌, length, true, false, Ok, IsTrue, IsOk, IfOk, OnOk, OnErr, MatchResult}, Io.KnownBytes.{Keeps, Appends}};
ghost use Rattle.decimal_digits.specs.{Number.size, AppendsPrefix.AppendsPrefix};
ghost use Rattle.decimal_unsigned.specs.{Unsigned.IsValue, ParseResult.{ParseFails, IsParseResult}};
ghost use Rattle.fixed_decimal.specs.{Equal.{same_text, same_text_laws}, Scientific.{scientific, scientific_text, split_at_e, read_scientific, ReadsScientific, HasLongField}};

use crate::integer::{FixedInteger, scan_integer};
use crate::signed_decimal::{Decimal, scan_decimal};
use crate::split::{has_letter, split_once};
use decimal_digits::sink::{Sink, SinkFault, Writeable};
use decimal_unsigned::ParseError;
use decimal_unsigned::decimal::INLINE_DIGITS;
use std::alloc::{AllocError, Global};
use std::fmt;
use std::marker::Model;

/// A decimal, the significand, times 10 to the power of an integer, the exponent: `-1.20e+05`.
///
/// Both parts keep their sign and all their zeros. Contracts see the two parts.
///
/// ```
/// let value = ScientificDecimal::try_from_str(alloc, "-1.20e+05")?;
/// value.significand() // -1.20
/// value.exponent() // +05
/// ```
#[derive(Debug)]
pub struct ScientificDecimal {
    significand: Decimal,
    exponent: FixedInteger,
}

// Not derived: a derived drop is proved again in each crate that depends on this one.
impl Drop for ScientificDecimal {
    fn drop(self) {
        let ScientificDecimal {
            significand,
            exponent,
        } = self;
        drop(significand);
        drop(exponent);
    }
}

impl Model for ScientificDecimal {
    ghost use Rattle.fixed_decimal.specs.Scientific.{Scientific, scientific};

    ghost Value = { Scientific };

    ghost view = { λ s. scientific s.significand s.exponent };
}

#[tactic(auto, using(crate::proofs::lemmas::integer::reads), unfolding(crate::specs::Scientific::split_at_e))]
fn split_at_e(text: &[u8]) -> Result<(&[u8], &[u8]), ParseError>
    ensures parts { MatchResult result (λ parts. split_at_e text.now ≡ Ok (parts.0.now, parts.1.now))
        (λ e. ParseFails ⊥ e (split_at_e text.now)) }
    ensures reads { ReadsScientific text.now (read_scientific text.now) }
{
    let Some((significand, exponent)) = split_once(text, b'e') else {
        return Err(ParseError::Syntax);
    };
    if has_letter(significand) || has_letter(exponent) {
        return Err(ParseError::Syntax);
    }
    Ok((significand, exponent))
}

impl ScientificDecimal {
    /// Makes the value of a significand and an exponent: `1.729` and `3` print `1.729e3`.
    pub fn from(significand: Decimal, exponent: FixedInteger) -> Self
        ensures { result ≡ scientific significand exponent }
    {
        ScientificDecimal {
            significand,
            exponent,
        }
    }

    /// Returns the significand: `-1.20` of `-1.20e+05`.
    pub fn significand(&self) -> &Decimal
        ensures { result.now ≡ self.now.significand }
    {
        &self.significand
    }

    /// Returns the exponent: `+05` of `-1.20e+05`.
    pub fn exponent(&self) -> &FixedInteger
        ensures { result.now ≡ self.now.exponent }
    {
        &self.exponent
    }

    /// Returns the significand and the exponent: `-1.20` and `+05` of `-1.20e+05`.
    pub fn into_parts(self) -> (Decimal, FixedInteger)
        ensures { scientific result.0 result.1 ≡ self }
    {
        let ScientificDecimal {
            significand,
            exponent,
        } = self;
        (significand, exponent)
    }

    /// Parses a text that `Decimal` parses, followed by `e` and a text that `FixedInteger` parses.
    ///
    /// `+1.20e-03` prints `+1.20e-03`. Neither part may have an exponent of its own.
    ///
    /// # Errors
    ///
    /// The first that applies; all but `Memory` are found before an allocation:
    ///
    /// - `Syntax`: the text has an `E`, or not exactly one `e`, as `1E5` and `5`.
    /// - `Syntax`, `Limit`: those of `Decimal`, for the text before the `e`.
    /// - `Syntax`, `Limit`: those of `FixedInteger`, for the text after the `e`; so `1e1.0` is `Limit`.
    /// - `Memory`: out of memory, only for more than `INLINE_DIGITS` digits of a part; the other part is dropped.
    pub fn try_from_utf8(alloc: Global, text: &[u8]) -> Result<Self, ParseError>
        ensures parses { IsParseResult (HasLongField INLINE_DIGITS) result (read_scientific text.now) }
        // The result of reading, by the parts of the text.
        ensures reads { ReadsScientific text.now (read_scientific text.now) }
    {
        let (significand, exponent) = split_at_e(text)?;
        let significand = scan_decimal(significand)?;
        let exponent = scan_integer(exponent)?;
        let significand = significand.decimal(alloc)?;
        let exponent = FixedInteger::from_scan(alloc, &exponent)?;
        Ok(ScientificDecimal::from(significand, exponent))
    }

    /// Parses a value, as [`try_from_utf8`](Self::try_from_utf8) of the bytes of the text.
    ///
    /// # Errors
    ///
    /// As there.
    #[tactic(auto, using(crate::proofs::lemmas::integer::ScientificTexts::scientific_reads))]
    pub fn try_from_str(alloc: Global, text: &str) -> Result<Self, ParseError>
        ensures parses { IsParseResult (HasLongField INLINE_DIGITS) result (read_scientific text.now) }
        ensures reads { ReadsScientific text.now (read_scientific text.now) }
    {
        Self::try_from_utf8(alloc, text.as_bytes())
    }

    // Apart from `eq`, whose proof needs these clauses of one result.
    fn has_same_fields(&self, other: &Self) -> bool
        ensures value { IsTrue result ↔ (self.now ≡ other.now) }
        ensures texts { IsTrue result ↔ (scientific_text self.now ≡ scientific_text other.now) }
    {
        self.significand.has_same_text(&other.significand) && self.exponent == other.exponent
    }
}

impl Writeable for ScientificDecimal {
    ghost text = { scientific_text };

    /// Appends the text of the significand, `e`, and the text of the exponent: `1.20e-03`.
    ///
    /// The text parses to an equal value.
    fn write_to<W: Sink>(&self, sink: &mut W) -> Result<(), SinkFault>
        ensures ok { OnOk result (Appends (W.contents sink.old) (W.contents sink.new) (scientific_text self.now)) }
        ensures err { OnErr result
            (AppendsPrefix (W.contents sink.old) (W.contents sink.new) (scientific_text self.now)) }
        ensures had_not_failed { OnOk result (W.has_failed sink.old ≡ false) }
        ensures failed { OnErr result (W.has_failed sink.new ≡ true) }
        ensures unchanged { W.has_failed sink.old ≡ true → Keeps (W.contents sink.old) (W.contents sink.new) }
        ensures reads_back { read_scientific (scientific_text self.now) ≡ Ok self.now }
    {
        prove!(self.exponent.writeable_length_hint() <= 32769);
        self.significand.write_to(sink)?;
        sink.put_byte(b'e')?;
        self.exponent.write_to(sink)
    }

    /// Returns the exact length of the text, in bytes: 8 for `1.20e-03`, and at most 98,308.
    fn writeable_length_hint(&self) -> usize
        ensures exact { result ≡ length (scientific_text self.now) }
        ensures at_most { result ≤ 98308 }
        ensures valid { IsValue self.now.significand.absolute × IsValue self.now.exponent.absolute }
    {
        self.significand.writeable_length_hint() + 1 + self.exponent.writeable_length_hint()
    }
}

impl Clone for ScientificDecimal {
    ghost use Rattle.decimal_unsigned.specs.declared.decimal.TheConstants.{INLINE_DIGITS};

    ghost is_clone = { λ value copy. copy ≡ value };

    ghost is_infallible = { λ value. size value.significand.absolute.number ≤ INLINE_DIGITS
        × size value.exponent.absolute.number ≤ INLINE_DIGITS };

    /// Makes an equal value: the clone of `1.20e05` prints `1.20e05`.
    ///
    /// # Errors
    ///
    /// Out of memory, only for more than `INLINE_DIGITS` digits of a part.
    fn clone(&self) -> Result<Self, AllocError> {
        Ok(ScientificDecimal {
            significand: self.significand.clone()?,
            exponent: self.exponent.clone()?,
        })
    }
}

impl PartialEq for ScientificDecimal {
    ghost eq = { same_text scientific_text };

    ghost laws = { same_text_laws scientific_text };

    /// Returns whether the parts of two values are equal, which is whether their texts are equal.
    ///
    /// `1e2` and `1e+2` are not equal.
    fn eq(&self, other: &Self) -> bool
        ensures same { result ≡ same_text scientific_text self.now other.now }
        ensures value { IsTrue result ↔ (self.now ≡ other.now) }
        ensures texts { IsTrue result ↔ (scientific_text self.now ≡ scientific_text other.now) }
    {
        self.has_same_fields(other)
    }
}

impl fmt::Display for ScientificDecimal {
    ghost use Rattle.std.specs.Prelude.{Some};
    ghost use Rattle.fixed_decimal.specs.Scientific.{scientific_text};

    ghost output = { λ v. Some (scientific_text v) };

    ghost styled_output = { λ v _. Some (scientific_text v) };

    /// Writes the text that `write_to` appends, and ignores the options of the format: `{:12}` writes `1.20e-03` too.
    fn fmt<W: fmt::Write>(&self, f: &mut fmt::Formatter<W>) -> fmt::Result {
        self.significand.fmt(f)?;
        f.write_str("e")?;
        self.exponent.fmt(f)
    }
}
