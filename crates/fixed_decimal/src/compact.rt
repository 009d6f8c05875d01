//! Decimals in compact notation: `1.20c6`.
ghost use Rattle.std.specs.{Prelude.{◌≡◌, ◌≤◌, ◌↔◌, length, take, true, false, Ok, IsTrue, IsOk, IfOk, OnOk, OnErr, MatchResult}, Option.option_copied, Io.KnownBytes.{Keeps, Appends}};
ghost use Rattle.decimal_digits.specs.{Number.size, AppendsPrefix.AppendsPrefix};
ghost use Rattle.decimal_unsigned.specs.{Unsigned.IsValue, ParseResult.{ParseFails, IsParseResult}};
ghost use Rattle.fixed_decimal.specs.{Equal.{same_text, same_text_laws}, Compact.{compact, exponent_text, compact_text, exponent_number_of, split_at_c, read_exponent, read_compact, ReadsCompact, HasLongSignificand}};

use crate::signed_decimal::{Decimal, scan_decimal};
use crate::split::{has_letter, split_once};
use decimal_digits::sink::{Sink, SinkFault, Writeable};
use decimal_unsigned::ParseError;
use decimal_unsigned::decimal::{INLINE_DIGITS, numeral};
use std::alloc::{AllocError, Global};
use std::fmt;
use std::marker::Model;

/// A decimal, the significand, times 10 to the power of an exponent from 0 to 255: `-1.20c6`.
///
/// The significand keeps its sign and all its zeros. Contracts see the two parts.
///
/// UTS 35 part 3, Language Plural Rules, writes samples of compact numbers so.
///
/// ```
/// let value = CompactDecimal::try_from_str(alloc, "-1.20c6")?;
/// value.significand() // -1.20
/// value.exponent() // 6
/// ```
#[derive(Debug)]
pub struct CompactDecimal {
    significand: Decimal,
    exponent: u8,
}

// Not derived: a derived drop is proved again in each crate that depends on this one.
impl Drop for CompactDecimal {
    fn drop(self) {
        drop(self.into_significand());
    }
}

impl Model for CompactDecimal {
    ghost use Rattle.fixed_decimal.specs.Compact.{Compact, compact};

    ghost Value = { Compact };

    ghost view = { λ s. compact s.significand s.exponent };
}

#[tactic(auto, unfolding(crate::specs::Compact::exponent_number_of))]
fn exponent_number(text: &[u8]) -> Result<u8, ParseError>
    ensures { IsParseResult (λ _. ⊥) result (exponent_number_of text.now) }
{
    match text {
        [] | [b'0', ..] => Err(ParseError::Syntax),
        _ => match numeral(text, 256) {
            None => Err(ParseError::Syntax),
            Some(number) if number > 255 => Err(ParseError::Limit),
            Some(number) => Ok(number as u8),
        },
    }
}

fn read_exponent(text: Option<&[u8]>) -> Result<u8, ParseError>
    ensures { IsParseResult (λ _. ⊥) result (read_exponent (option_copied text.entry)) }
{
    match text {
        None => Ok(0),
        Some(text) => exponent_number(text),
    }
}

#[tactic(auto, using(crate::proofs::lemmas::integer::reads), unfolding(crate::specs::Compact::split_at_c))]
fn split_at_c(text: &[u8]) -> Result<(&[u8], Option<&[u8]>), ParseError>
    ensures parts { MatchResult result (λ parts. split_at_c text.now ≡ Ok (parts.0.now, option_copied parts.1))
        (λ e. ParseFails ⊥ e (split_at_c text.now)) }
    ensures reads { ReadsCompact text.now (read_compact text.now) }
{
    if has_letter(text) {
        return Err(ParseError::Syntax);
    }
    match split_once(text, b'c') {
        None => Ok((text, None)),
        Some((significand, exponent)) => Ok((significand, Some(exponent))),
    }
}

/// Returns the text of an exponent in the first bytes of an array, and its length: `c` and digits, or no bytes for 0.
#[tactic(auto, using(crate::proofs::lemmas::integer::CompactTexts::exponents))]
fn exponent_text(exponent: u8) -> ([u8; 4], usize)
    ensures text { take result.1 result.0 ≡ exponent_text exponent }
    ensures at_most { result.1 ≤ 4 }
{
    let hundreds = b'0' + exponent / 100;
    let tens = b'0' + exponent / 10 % 10;
    let ones = b'0' + exponent % 10;
    match exponent {
        0 => ([0; 4], 0),
        1..=9 => ([b'c', ones, 0, 0], 2),
        10..=99 => ([b'c', tens, ones, 0], 3),
        _ => ([b'c', hundreds, tens, ones], 4),
    }
}

impl CompactDecimal {
    /// Makes the value of a significand and an exponent: `1.20` and 6 print `1.20c6`, and `1.20` and 0 print `1.20`.
    pub fn from_significand_and_exponent(significand: Decimal, exponent: u8) -> Self
        ensures { result ≡ compact significand exponent }
    {
        CompactDecimal {
            significand,
            exponent,
        }
    }

    /// Returns the significand: `1.20` of `1.20c6`.
    pub fn significand(&self) -> &Decimal
        ensures { result.now ≡ self.now.significand }
    {
        &self.significand
    }

    /// Returns the significand and drops the exponent: `1.20` of `1.20c6`.
    pub fn into_significand(self) -> Decimal
        ensures { result ≡ self.significand }
    {
        let CompactDecimal {
            significand,
            exponent: _,
        } = self;
        significand
    }

    /// Returns the exponent: 6 of `1.20c6`, and 0 of `1.20`.
    pub fn exponent(&self) -> u8
        ensures { result ≡ self.now.exponent }
    {
        self.exponent
    }

    /// Parses a decimal without an `e`, alone or followed by `c` and a number from 1 to 255 without leading zeros.
    ///
    /// `+1.20c6` prints `+1.20c6`; `1729` has the exponent 0.
    ///
    /// # Errors
    ///
    /// The first that applies; all but `Memory` are found before an allocation:
    ///
    /// - `Syntax`: the text has an `e` or `E`.
    /// - `Syntax`, `Limit`: those of `Decimal`, for the text before the first `c`.
    /// - `Syntax`: the text after that `c` is empty, begins with `0`, or is not all digits, as in `1c01` and `1c1c1`.
    /// - `Limit`: the exponent is above 255.
    /// - `Memory`: out of memory, only for more than `INLINE_DIGITS` digits of the significand.
    pub fn try_from_str(alloc: Global, text: &str) -> Result<Self, ParseError>
        ensures parses { IsParseResult (HasLongSignificand INLINE_DIGITS) result (read_compact text.now) }
        // The result of reading, by the parts of the text.
        ensures reads { ReadsCompact text.now (read_compact text.now) }
    {
        let (significand, exponent) = split_at_c(text.as_bytes())?;
        let significand = scan_decimal(significand)?;
        let exponent = read_exponent(exponent)?;
        let significand = significand.decimal(alloc)?;
        Ok(Self::from_significand_and_exponent(significand, exponent))
    }

    // Apart from `eq`, whose proof needs these clauses of one result.
    fn has_same_fields(&self, other: &Self) -> bool
        ensures value { IsTrue result ↔ (self.now ≡ other.now) }
        ensures texts { IsTrue result ↔ (compact_text self.now ≡ compact_text other.now) }
    {
        let same_exponent = self.exponent == other.exponent;
        self.significand.has_same_text(&other.significand) && same_exponent
    }
}

impl Writeable for CompactDecimal {
    ghost text = { compact_text };

    /// Appends the text of the significand and, if the exponent is not 0, `c` and its digits: `1.20c6`.
    ///
    /// The text parses to an equal value.
    fn write_to<W: Sink>(&self, sink: &mut W) -> Result<(), SinkFault>
        ensures ok { OnOk result (Appends (W.contents sink.old) (W.contents sink.new) (compact_text self.now)) }
        ensures err { OnErr result
            (AppendsPrefix (W.contents sink.old) (W.contents sink.new) (compact_text self.now)) }
        ensures had_not_failed { OnOk result (W.has_failed sink.old ≡ false) }
        ensures failed { OnErr result (W.has_failed sink.new ≡ true) }
        ensures unchanged { W.has_failed sink.old ≡ true → Keeps (W.contents sink.old) (W.contents sink.new) }
        ensures reads_back { read_compact (compact_text self.now) ≡ Ok self.now }
    {
        let (exponent, length) = exponent_text(self.exponent);
        self.significand.write_to(sink)?;
        sink.put_bytes(&exponent[..length])
    }

    /// Returns the exact length of the text, in bytes: 6 for `1.20c6`, and at most 65,542.
    fn writeable_length_hint(&self) -> usize
        ensures exact { result ≡ length (compact_text self.now) }
        ensures at_most { result ≤ 65542 }
        ensures valid { IsValue self.now.significand.absolute }
    {
        self.significand.writeable_length_hint() + exponent_text(self.exponent).1
    }
}

impl Clone for CompactDecimal {
    ghost use Rattle.decimal_unsigned.specs.declared.decimal.TheConstants.{INLINE_DIGITS};

    ghost is_clone = { λ value copy. copy ≡ value };

    ghost is_infallible = { λ value. size value.significand.absolute.number ≤ INLINE_DIGITS };

    /// Makes an equal value: the clone of `1.20c6` prints `1.20c6`.
    ///
    /// # Errors
    ///
    /// Out of memory, only for more than `INLINE_DIGITS` digits of the significand.
    fn clone(&self) -> Result<Self, AllocError> {
        Ok(CompactDecimal {
            significand: self.significand.clone()?,
            exponent: self.exponent,
        })
    }
}

impl PartialEq for CompactDecimal {
    ghost eq = { same_text compact_text };

    ghost laws = { same_text_laws compact_text };

    /// Returns whether the parts of two values are equal, which is whether their texts are equal.
    ///
    /// `1c2` is not equal to `1c3`, nor to `1.0c2`.
    fn eq(&self, other: &Self) -> bool
        ensures same { result ≡ same_text compact_text self.now other.now }
        ensures value { IsTrue result ↔ (self.now ≡ other.now) }
        ensures texts { IsTrue result ↔ (compact_text self.now ≡ compact_text other.now) }
    {
        self.has_same_fields(other)
    }
}

impl fmt::Display for CompactDecimal {
    ghost use Rattle.std.specs.Prelude.{Some};
    ghost use Rattle.fixed_decimal.specs.Compact.{compact_text};

    ghost output = { λ v. Some (compact_text v) };

    ghost styled_output = { λ v _. Some (compact_text v) };

    /// Writes the text that `write_to` appends, and ignores the options of the format: `{:8}` writes `1.20c6` too.
    fn fmt<W: fmt::Write>(&self, f: &mut fmt::Formatter<W>) -> fmt::Result {
        let (exponent, length) = exponent_text(self.exponent);
        self.significand.fmt(f)?;
        // SAFETY: `c` and digits are ASCII.
        f.write_str(unsafe { str::from_utf8_unchecked(&exponent[..length]) })
    }
}
