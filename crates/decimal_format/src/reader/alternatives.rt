//! Reading of numbers between affixes as people type them.
ghost use Rattle.std.specs.Prelude.{◌≡◌, ◌≢◌, ℕ, List, ◌++◌, MatchOption};
ghost use Rattle.decimal_format.specs.{Alternatives.{IsAround, IsNumeralAround, IsWrittenAround, IsNumeralOfFirst, IsWrittenOfFirst}, Lenient.normalized, Readable.IsReadable, Reading.IsRead};

use crate::reader::codes::cut_byte;
use crate::reader::input::{Input, count, skip};
use crate::reader::lenient::Normalized;
use crate::symbols::DecimalSymbols;
use fixed_decimal::{DigitStore, ParseError, Sign, Signed, UnsignedOver};
use std::alloc::Global;

/// Texts that may be around a number, and the sign that they show: of `(` and `)`, `Negative`. With `None` the number
/// may show its own.
///
/// ```
/// let negative = Alternative { prefix: "(", suffix: ")", sign: Sign::Negative };
/// read_alternatives(&symbols, alloc, &[negative], "(1.50)")? // -1.50
/// ```
#[derive(Clone, Copy, Debug)]
pub struct Alternative<'a> {
    /// The text before the number.
    pub prefix: &'a str,
    /// The text after the number.
    pub suffix: &'a str,
    /// The sign.
    pub sign: Sign,
}

fn cut_prefix<T: Input, U: Input>(text: T, prefix: U) -> Option<T>
    ensures { MatchOption result ((rest : List ℕ) → T.bytes text ≢ U.bytes prefix ++ rest)
        (λ rest. T.bytes text ≡ U.bytes prefix ++ T.bytes rest) }
{
    let mut rest = text;
    let mut left = prefix;
    while let Some(next) = left.split_first() {
        rest = cut_byte(rest, next.0)?;
        left = next.1;
    }
    Some(rest)
}

fn cut_suffix<T: Input, U: Input>(text: T, suffix: U) -> Option<T>
    ensures { MatchOption result ((rest : List ℕ) → T.bytes text ≢ rest ++ U.bytes suffix)
        (λ rest. T.bytes text ≡ T.bytes rest ++ U.bytes suffix) }
{
    let front = count(text).checked_sub(count(suffix))?;
    cut_prefix(skip(text, front), suffix)?;
    Some(text.first(front))
}

impl<'a> DecimalSymbols<'a> {
    fn cut_affixes<T: Input>(&self, alternative: &Alternative<'_>, text: T) -> Option<T>
        ensures { MatchOption result
            ((middle : List ℕ) → ¬ IsAround self.now alternative.now (T.bytes text) middle)
            (λ r. IsAround self.now alternative.now (T.bytes text) (T.bytes r)) }
    {
        let rest = cut_prefix(text, Normalized::new(self, alternative.prefix))?;
        cut_suffix(rest, Normalized::new(self, alternative.suffix))
    }

    fn read_around<T: Input, D: DigitStore>(
        &self,
        alloc: Global,
        alternative: &Alternative<'_>,
        text: T,
    ) -> Result<Signed<UnsignedOver<D>>, ParseError>
        requires { IsReadable self.now }
        ensures { IsRead D.L (IsNumeralAround self.now alternative.now (T.bytes text))
            (IsWrittenAround self.now alternative.now (T.bytes text)) result }
    {
        let Some(middle) = self.cut_affixes(alternative, text) else {
            return Err(ParseError::Syntax);
        };
        if let Sign::None = alternative.sign {
            return self.read_groups(alloc, middle, false);
        }
        if let None = self.next_digit(middle) {
            return Err(ParseError::Syntax);
        }
        match self.read_groups(alloc, middle, false) {
            Ok(value) => Ok(value.with_sign(alternative.sign)),
            Err(error) => Err(error),
        }
    }

    fn read_first<T: Input, D: DigitStore>(
        &self,
        alloc: Global,
        alternatives: &[Alternative<'_>],
        text: T,
    ) -> Result<Signed<UnsignedOver<D>>, ParseError>
        requires { IsReadable self.now }
        ensures { IsRead D.L (IsNumeralOfFirst self.now (T.bytes text) alternatives.now)
            (IsWrittenOfFirst self.now (T.bytes text) alternatives.now) result }
    {
        match alternatives {
            [] => Err(ParseError::Syntax),
            [first, rest @ ..] => match self.read_around(alloc, first, text) {
                Ok(value) => Ok(value),
                Err(ParseError::Syntax) => self.read_first(alloc, rest, text),
                Err(ParseError::Limit) => Err(ParseError::Limit),
                Err(ParseError::Memory) => Err(ParseError::Memory),
            },
        }
    }
}

/// Reads a decimal between affixes as people type them: by the first alternative that reads the text.
///
/// The text and the affixes are compared as [`read_lenient`](DecimalSymbols::read_lenient) compares numbers: direction
/// marks are ignored, and the kinds of minus signs, of plus signs and of spaces are not distinguished. Separators are
/// optional. With the alternative `(` and `)` for `Negative`, `(12)` is -12, and `(-12)`, which has two signs, is
/// `Syntax`. Requires readable symbols.
///
/// ```
/// let alternatives = [Alternative { prefix: "$", suffix: "", sign: Sign::None }];
/// read_alternatives(&symbols, alloc, &alternatives, "$1234.5")? // 1234.5
/// ```
///
/// # Errors
///
/// - `Syntax`: no alternative reads the text.
/// - `Limit`: the first that does finds more than 32,768 integer or fraction digits.
/// - `Memory`: out of memory; possible only with more than `L` digits.
pub fn read_alternatives<D: DigitStore>(
    symbols: &DecimalSymbols<'_>,
    alloc: Global,
    alternatives: &[Alternative<'_>],
    text: &str,
) -> Result<Signed<UnsignedOver<D>>, ParseError>
    requires { IsReadable symbols.now }
    ensures { IsRead D.L (IsNumeralOfFirst symbols.now (normalized symbols.now text.now) alternatives.now)
        (IsWrittenOfFirst symbols.now (normalized symbols.now text.now) alternatives.now) result }
{
    match symbols.normal_block(text) {
        Some(block) => symbols.read_first(alloc, alternatives, block.as_bytes()),
        None => symbols.read_first(alloc, alternatives, Normalized::new(symbols, text)),
    }
}
