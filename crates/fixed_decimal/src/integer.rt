//! Decimals without fraction digits.
ghost use Rattle.std.specs.{Prelude.{◌≡◌, ◌<◌, ◌≤◌, ◌↔◌, length, pos, ◌≤ℤ◌, true, false, IsTrue, Ok, OnOk, OnErr, IfOk, IfErr, IsOk}, Io.KnownBytes.{Keeps, Appends}};
ghost use Rattle.decimal_digits.specs.{Number.size, AppendsPrefix.AppendsPrefix};
ghost use Rattle.decimal_unsigned.specs.{Unsigned.IsValue, ParseResult.{ParseFails, IsParseResult}};
ghost use Rattle.fixed_decimal.specs.{Equal.{same_text, same_text_laws}, Decimal.zero_decimal, DecimalText.{decimal_text, IsLong}, Integer.{read_integer, ReadsInteger, IsConverted}};

mod from_integer;

use crate::signed_decimal::{Decimal, scan_decimal};
use crate::variations::Signed;
use decimal_digits::sink::{Sink, SinkFault, Writeable};
use decimal_unsigned::decimal::{INLINE_DIGITS, Scan};
use decimal_unsigned::{LimitError, ParseError};
use std::alloc::{AllocError, Global};
use std::convert::TryFrom;
use std::fmt;
use std::marker::Model;

/// A decimal without fraction digits: `-0120`.
///
/// It is the exponent of a `ScientificDecimal`. Contracts see the decimal.
///
/// ```
/// FixedInteger::try_from_str(alloc, "05")? // 05
/// FixedInteger::try_from_str(alloc, "5.0e1")? // 50
/// FixedInteger::try_from_str(alloc, "5.0") // Limit
/// ```
#[derive(Debug)]
pub struct FixedInteger(Decimal);

// Not derived: a derived drop is proved again in each crate that depends on this one.
impl Drop for FixedInteger {
    fn drop(self) {
        drop(self.into_decimal());
    }
}

impl Model for FixedInteger {
    ghost use Rattle.std.specs.Prelude.{◌≡◌, pos};
    ghost use Rattle.fixed_decimal.specs.Decimal as decimal;

    ghost Value = { decimal.Decimal };

    ghost view = { λ s. s.0 };

    ghost invariant = { λ s. s.0.absolute.lo ≡ pos 0 };
}

pub(crate) fn scan_integer(text: &[u8]) -> Result<Signed<Scan<'_>>, ParseError>
    ensures value { IfOk result (λ scan. read_integer text.now ≡ Ok scan) }
    ensures integer { IfOk result (λ scan. pos 0 ≤ℤ scan.absolute.lo) }
    ensures rejects { IfErr result (λ e. ParseFails ⊥ e (read_integer text.now)) }
{
    let scan = scan_decimal(text)?;
    if scan.absolute.lowest() < 0 {
        return Err(ParseError::Limit);
    }
    Ok(scan)
}

impl FixedInteger {
    /// Makes the integer `0`, without a sign; it does not allocate.
    pub fn zero(alloc: Global) -> Self
        ensures { result ≡ zero_decimal }
    {
        FixedInteger(Decimal::zero(alloc))
    }

    /// Parses a text that `Decimal` parses to a decimal without fraction digits.
    ///
    /// `05` prints `05`; `5.0e1` and `5.0e+1` print `50`.
    ///
    /// # Errors
    ///
    /// The first that applies; all but `Memory` are found before an allocation:
    ///
    /// - `Syntax`, `Limit`: those of `Decimal`.
    /// - `Limit`: the decimal has fraction digits, as that of `5.0` and of `100e-2`.
    /// - `Memory`: out of memory, only for more than `INLINE_DIGITS` digits.
    #[tactic(auto, using(crate::proofs::lemmas::integer::IntegerTexts::integer_reads))]
    pub fn try_from_utf8(alloc: Global, text: &[u8]) -> Result<Self, ParseError>
        ensures parses { IsParseResult (IsLong INLINE_DIGITS) result (read_integer text.now) }
        // The result of reading, by the grammar.
        ensures reads { ReadsInteger text.now (read_integer text.now) }
    {
        let scan = scan_integer(text)?;
        Self::from_scan(alloc, &scan)
    }

    /// Parses an integer, as [`try_from_utf8`](Self::try_from_utf8) of the bytes of the text.
    ///
    /// # Errors
    ///
    /// As there.
    #[tactic(auto, using(crate::proofs::lemmas::integer::IntegerTexts::integer_reads))]
    pub fn try_from_str(alloc: Global, text: &str) -> Result<Self, ParseError>
        ensures parses { IsParseResult (IsLong INLINE_DIGITS) result (read_integer text.now) }
        ensures reads { ReadsInteger text.now (read_integer text.now) }
    {
        Self::try_from_utf8(alloc, text.as_bytes())
    }

    pub(crate) fn from_scan(alloc: Global, scan: &Signed<Scan<'_>>) -> Result<Self, ParseError>
        requires { pos 0 ≤ℤ scan.now.absolute.lo }
        ensures { IsParseResult (IsLong INLINE_DIGITS) result (Ok scan.now) }
    {
        let decimal: Decimal = scan.decimal(alloc)?;
        prove!(decimal.absolute.lowest() == 0);
        Ok(FixedInteger(decimal))
    }
}

impl TryFrom<Decimal> for FixedInteger {
    type Error = LimitError;

    ghost try_from_gives = { IsConverted };

    /// Converts a decimal without fraction digits, unchanged: `-05` prints `-05`.
    ///
    /// # Errors
    ///
    /// The decimal has fraction digits, even if all of them are 0, as `5.0` has. The decimal is then dropped.
    fn try_from(decimal: Decimal) -> Result<Self, LimitError> {
        if decimal.absolute.lowest() < 0 {
            return Err(LimitError);
        }
        Ok(FixedInteger(decimal))
    }
}

impl FixedInteger {
    // Only a method that takes `self` may take apart a value whose type implements `Drop`.
    fn into_decimal(self) -> Decimal
        ensures { result ≡ self }
    {
        let FixedInteger(decimal) = self;
        decimal
    }
}

impl From<FixedInteger> for Decimal {
    ghost from_gives = { λ integer decimal. (decimal ≡ integer) × (integer.absolute.lo ≡ pos 0) };

    /// Returns the integer as a decimal, unchanged: `-05` prints `-05`.
    fn from(integer: FixedInteger) -> Decimal {
        integer.into_decimal()
    }
}

impl Writeable for FixedInteger {
    ghost text = { decimal_text };

    /// Appends the text of the decimal: `-05`.
    ///
    /// The text parses to an equal integer.
    fn write_to<W: Sink>(&self, sink: &mut W) -> Result<(), SinkFault>
        ensures ok { OnOk result (Appends (W.contents sink.old) (W.contents sink.new) (decimal_text self.now)) }
        ensures err { OnErr result
            (AppendsPrefix (W.contents sink.old) (W.contents sink.new) (decimal_text self.now)) }
        ensures had_not_failed { OnOk result (W.has_failed sink.old ≡ false) }
        ensures failed { OnErr result (W.has_failed sink.new ≡ true) }
        ensures unchanged { W.has_failed sink.old ≡ true → Keeps (W.contents sink.old) (W.contents sink.new) }
        ensures reads_back { read_integer (decimal_text self.now) ≡ Ok self.now }
    {
        self.0.write_to(sink)
    }

    /// Returns the exact length of the text, in bytes: 3 for `-05`, and at most 32,769.
    #[tactic(auto, using(crate::proofs::lemmas::signed_decimal::DecimalBytes::integer_lengths))]
    fn writeable_length_hint(&self) -> usize
        ensures exact { result ≡ length (decimal_text self.now) }
        ensures at_most { result ≤ 32769 }
        ensures valid { IsValue self.now.absolute }
        ensures integer { self.now.absolute.lo ≡ pos 0 }
    {
        self.0.writeable_length_hint()
    }
}

impl Clone for FixedInteger {
    ghost use Rattle.decimal_unsigned.specs.declared.decimal.TheConstants.{INLINE_DIGITS};

    ghost is_clone = { λ value copy. copy ≡ value };

    ghost is_infallible = { λ value. size value.absolute.number ≤ INLINE_DIGITS };

    /// Makes an equal integer: the clone of `-05` prints `-05`.
    ///
    /// # Errors
    ///
    /// Out of memory, only for more than `INLINE_DIGITS` digits.
    fn clone(&self) -> Result<Self, AllocError> {
        Ok(FixedInteger(self.0.clone()?))
    }
}

impl PartialEq for FixedInteger {
    ghost eq = { same_text decimal_text };

    ghost laws = { same_text_laws decimal_text };

    /// Returns whether two integers are equal decimals, which is whether their texts are equal: `05` and `5` are not.
    fn eq(&self, other: &Self) -> bool
        ensures same { result ≡ same_text decimal_text self.now other.now }
        ensures value { IsTrue result ↔ (self.now ≡ other.now) }
        ensures texts { IsTrue result ↔ (decimal_text self.now ≡ decimal_text other.now) }
    {
        self.0.has_same_text(&other.0)
    }
}

impl fmt::Display for FixedInteger {
    ghost use Rattle.std.specs.Prelude.{Some};
    ghost use Rattle.fixed_decimal.specs.DecimalText.{decimal_text};

    ghost output = { λ v. Some (decimal_text v) };

    ghost styled_output = { λ v _. Some (decimal_text v) };

    /// Writes the text that `write_to` appends, and ignores the options of the format: `{:8}` writes `-05` too.
    fn fmt<W: fmt::Write>(&self, f: &mut fmt::Formatter<W>) -> fmt::Result {
        self.0.fmt(f)
    }
}
