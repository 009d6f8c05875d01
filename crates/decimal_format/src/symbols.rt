//! The symbols of a locale.
ghost use Rattle.std.specs.Prelude.{◌≡◌, ◌<◌, ◌≤◌, length, slice_index, encode_utf8, IfOk, IfErr, OnOk, true};
ghost use Rattle.decimal_format.specs.Symbols.{HaveWidth};

use crate::error::SymbolsError;
use crate::grouping::GroupingSizes;
use fixed_decimal::Sign;
use std::marker::Model;

/// The greatest number of bytes of a separator, a prefix or a suffix.
const MAX_TEXT: usize = 255;

const ASCII_DIGITS: [char; 10] = ['0', '1', '2', '3', '4', '5', '6', '7', '8', '9'];

/// The texts before and after a number that has a sign.
///
/// ```
/// DecimalSymbols::ascii().affixes(Sign::Negative).prefix // -
/// ```
#[derive(Clone, Copy, Debug)]
pub struct Affixes<'a> {
    /// The text before the number.
    pub prefix: &'a str,
    /// The text after the number.
    pub suffix: &'a str,
}

/// The symbols of a locale: ten digits, two separators, two signs, and the sizes of groups.
///
/// It borrows its texts. `DecimalSymbols` of ICU4X; UTS 35 part 3, Number Symbols.
///
/// ```
/// let symbols = DecimalSymbols::ascii().with_grouping_separator("’");
/// let value: Decimal = symbols.read(alloc, "1’234.50".as_bytes())?; // 1234.50
/// ```
#[derive(Debug, Drop)]
pub struct DecimalSymbols<'a> {
    digits: [char; 10],
    has_ascii_digits: bool,
    decimal: &'a str,
    grouping: &'a str,
    minus: Affixes<'a>,
    plus: Affixes<'a>,
    sizes: GroupingSizes,
}

impl<'a> Model for DecimalSymbols<'a> {
    ghost use Rattle.std.specs.Prelude.{◌≡◌, true};
    ghost use Rattle.decimal_format.specs.{Ascii.ascii_digits, Symbols.{Symbols, symbols, affixes, AreValid}};

    ghost Value = { Symbols };

    ghost view = { λ s. symbols s.digits s.decimal.now s.grouping.now
        (affixes s.minus.prefix.now s.minus.suffix.now) (affixes s.plus.prefix.now s.plus.suffix.now) s.sizes };

    ghost invariant = { λ s. AreValid (symbols s.digits s.decimal.now s.grouping.now
        (affixes s.minus.prefix.now s.minus.suffix.now) (affixes s.plus.prefix.now s.plus.suffix.now) s.sizes)
        × (s.has_ascii_digits ≡ true → s.digits ≡ ascii_digits) };
}

fn check_widths(digits: &[char; 10]) -> Result<(), SymbolsError>
    ensures ok { OnOk result (HaveWidth digits.now (length (encode_utf8 (slice_index digits.now 0)))) }
    ensures err { IfErr result (λ e. (e ≡ SymbolsError.DigitWidths)
        × ¬ HaveWidth digits.now (length (encode_utf8 (slice_index digits.now 0)))) }
{
    for digit in digits {
        if digit.len_utf8() != digits[0].len_utf8() {
            return Err(SymbolsError::DigitWidths);
        }
    }
    Ok(())
}

fn check_length(text: &str, error: SymbolsError) -> Result<(), SymbolsError>
    ensures ok { OnOk result (length text.now ≤ 255) }
    ensures err { IfErr result (λ e. (e ≡ error) × (255 < length text.now)) }
{
    if text.len() > MAX_TEXT {
        return Err(error);
    }
    Ok(())
}

impl<'a> DecimalSymbols<'a> {
    ghost use Rattle.fixed_decimal.specs.{Decimal.Decimal, DecimalText.decimal_text};
    ghost use Rattle.decimal_format.specs.{Symbols.{symbols, affixes, digit_text, sign_affixes, AreValid, Rejects, IsFirst}, Ascii.{ascii_digits, ascii_symbols}, Readable.IsReadable};

    /// Makes the symbols of a locale.
    ///
    /// # Errors
    ///
    /// The ten digits do not have one length in UTF-8, or another text has more than 255 bytes.
    pub fn new(
        digits: [char; 10],
        decimal: &'a str,
        grouping: &'a str,
        minus: Affixes<'a>,
        plus: Affixes<'a>,
        sizes: GroupingSizes,
    ) -> Result<Self, SymbolsError>
        ensures value { IfOk result (λ s. s ≡ symbols digits decimal.entry.now grouping.entry.now
            (affixes minus.entry.prefix.now minus.entry.suffix.now)
            (affixes plus.entry.prefix.now plus.entry.suffix.now) sizes) }
        ensures valid { IfOk result (λ s. AreValid s) }
        ensures rejects { IfErr result (λ e. Rejects e (symbols digits decimal.entry.now grouping.entry.now
            (affixes minus.entry.prefix.now minus.entry.suffix.now)
            (affixes plus.entry.prefix.now plus.entry.suffix.now) sizes)) }
        ensures first { IfErr result (λ e. IsFirst e (symbols digits decimal.entry.now grouping.entry.now
            (affixes minus.entry.prefix.now minus.entry.suffix.now)
            (affixes plus.entry.prefix.now plus.entry.suffix.now) sizes)) }
    {
        check_widths(&digits)?;
        check_length(decimal, SymbolsError::DecimalTooLong)?;
        check_length(grouping, SymbolsError::GroupingTooLong)?;
        check_length(minus.prefix, SymbolsError::MinusPrefixTooLong)?;
        check_length(minus.suffix, SymbolsError::MinusSuffixTooLong)?;
        check_length(plus.prefix, SymbolsError::PlusPrefixTooLong)?;
        check_length(plus.suffix, SymbolsError::PlusSuffixTooLong)?;
        Ok(Self::of_valid(digits, decimal, grouping, minus, plus, sizes))
    }

    /// Makes the symbols of a locale from digits and texts for which [`new`](Self::new) has no error.
    #[inline(always)]
    pub fn of_valid(
        digits: [char; 10],
        decimal: &'a str,
        grouping: &'a str,
        minus: Affixes<'a>,
        plus: Affixes<'a>,
        sizes: GroupingSizes,
    ) -> Self
        requires { AreValid (symbols digits decimal.now grouping.now (affixes minus.prefix.now minus.suffix.now)
            (affixes plus.prefix.now plus.suffix.now) sizes) }
        ensures { result ≡ symbols digits decimal.entry.now grouping.entry.now
            (affixes minus.entry.prefix.now minus.entry.suffix.now)
            (affixes plus.entry.prefix.now plus.entry.suffix.now) sizes }
    {
        DecimalSymbols {
            digits,
            has_ascii_digits: digits == ASCII_DIGITS,
            decimal,
            grouping,
            minus,
            plus,
            sizes,
        }
    }

    /// Returns the symbols of a decimal's own text: `0` to `9`, `.`, `,` between groups of three, `-` and `+`.
    ///
    /// They are readable.
    #[tactic(auto, using(crate::proofs::lemmas::symbols::Apart::ascii_is_readable))]
    pub fn ascii() -> DecimalSymbols<'static>
        ensures value { result ≡ ascii_symbols }
        ensures readable { IsReadable result }
    {
        DecimalSymbols {
            digits: ASCII_DIGITS,
            has_ascii_digits: true,
            decimal: ".",
            grouping: ",",
            minus: Affixes {
                prefix: "-",
                suffix: "",
            },
            plus: Affixes {
                prefix: "+",
                suffix: "",
            },
            sizes: GroupingSizes {
                primary: 3,
                secondary: 0,
                min_grouping: 1,
            },
        }
    }

    /// Returns these symbols once more; both borrow the same texts.
    pub fn copied(&self) -> Self
        ensures { result ≡ self.now }
    {
        DecimalSymbols { ..*self }
    }

    /// Returns the symbols with other sizes of groups.
    #[inline(always)]
    pub fn with_sizes(self, sizes: GroupingSizes) -> Self
        ensures { result ≡ record self.entry { sizes = sizes } }
    {
        DecimalSymbols { sizes, ..self }
    }

    /// Returns the symbols with another decimal separator. Requires one of at most 255 bytes.
    #[inline(always)]
    pub fn with_decimal_separator(self, decimal: &'a str) -> Self
        requires { length decimal.now ≤ 255 }
        ensures { result ≡ record self.entry { decimal = decimal.entry.now } }
    {
        DecimalSymbols { decimal, ..self }
    }

    /// Returns the symbols with another separator of groups. Requires one of at most 255 bytes.
    #[inline(always)]
    pub fn with_grouping_separator(self, grouping: &'a str) -> Self
        requires { length grouping.now ≤ 255 }
        ensures { result ≡ record self.entry { grouping = grouping.entry.now } }
    {
        DecimalSymbols { grouping, ..self }
    }

    /// Returns the character of a digit. Requires a digit below 10.
    #[inline]
    pub fn digit(&self, digit: u8) -> char
        requires { digit < 10 }
        ensures value { encode_utf8 result ≡ digit_text self.now digit }
    {
        self.digits[digit as usize]
    }

    /// Returns the number of bytes of each digit, from 1 to 4.
    #[inline]
    pub fn digit_width(&self) -> usize
        ensures value { HaveWidth self.now.digits result }
        ensures at_most { result ≤ 4 }
    {
        self.digits[0].len_utf8()
    }

    #[inline]
    pub(crate) fn has_ascii_digits(&self) -> bool
        ensures { result ≡ true → self.now.digits ≡ ascii_digits }
    {
        self.has_ascii_digits
    }

    /// Returns the separator before the fraction digits.
    #[inline]
    pub fn decimal_separator(&self) -> &str
        ensures value { result.now ≡ self.now.decimal }
        ensures at_most { length result.now ≤ 255 }
    {
        self.decimal
    }

    /// Returns the separator of groups.
    #[inline]
    pub fn grouping_separator(&self) -> &str
        ensures value { result.now ≡ self.now.grouping }
        ensures at_most { length result.now ≤ 255 }
    {
        self.grouping
    }

    /// Returns the sizes of groups.
    #[inline]
    pub fn sizes(&self) -> GroupingSizes
        ensures { result ≡ self.now.sizes }
    {
        self.sizes
    }

    /// Returns the texts before and after a number with this sign.
    #[inline]
    pub fn affixes(&self, sign: Sign) -> Affixes<'_>
        ensures prefix { result.prefix.now ≡ (sign_affixes self.now sign).prefix }
        ensures suffix { result.suffix.now ≡ (sign_affixes self.now sign).suffix }
        ensures at_most { (length result.prefix.now ≤ 255) × (length result.suffix.now ≤ 255) }
    {
        match sign {
            Sign::None => Affixes {
                prefix: "",
                suffix: "",
            },
            Sign::Negative => self.minus,
            Sign::Positive => self.plus,
        }
    }
}
