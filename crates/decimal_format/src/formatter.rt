//! Formatting of a decimal.
ghost use Rattle.std.specs.Prelude.{◌≡◌, ◌<◌, ◌≤◌, ◌-ℤ◌, pos, [], if◌then◌else◌, encode_utf8, length};
ghost use Rattle.decimal_digits.specs.Number.{digit};
ghost use Rattle.decimal_unsigned.specs.Unsigned.{IsValue};
ghost use Rattle.decimal_format.specs.{Symbols.{digit_text, sign_affixes}, Formatted.{formatter, formatted_by, formatted_absolute, shown_count, separator_before, separator_after}, Scanning.separator_if};

mod display;
mod short;
pub(crate) mod text;

use crate::grouping::GroupingStrategy;
use crate::symbols::DecimalSymbols;
use decimal_digits::ops::{count_between, magnitude_below};
use fixed_decimal::{DigitStore, Sign, Signed, UnsignedOver};
use std::marker::Model;

/// Formats decimals by the symbols of a locale.
///
/// `DecimalFormatter` of ICU4X.
///
/// ```
/// let formatter = DecimalFormatter::new(DecimalSymbols::ascii(), GroupingStrategy::Auto);
/// formatter.format(&value).write_to(&mut sink)?; // -1,234,567.50
/// ```
#[derive(Debug, Drop)]
pub struct DecimalFormatter<'a> {
    symbols: DecimalSymbols<'a>,
    strategy: GroupingStrategy,
}

impl<'a> Model for DecimalFormatter<'a> {
    ghost use Rattle.decimal_format.specs.Formatted.{Formatter, formatter};

    ghost Value = { Formatter };

    ghost view = { λ s. formatter s.symbols s.strategy };
}

/// An absolute value that is written by the symbols of a locale. It borrows the value.
///
/// ```
/// let absolute = FormattedAbsolute::new(&symbols, GroupingStrategy::Auto, &*value); // 1,234,567.50
/// absolute.digit(0) // 1
/// absolute.separator_after(0) // ,
/// ```
#[derive(Debug, Drop)]
pub struct FormattedAbsolute<'f, D: DigitStore> {
    symbols: &'f DecimalSymbols<'f>,
    strategy: GroupingStrategy,
    value: &'f UnsignedOver<D>,
}

impl<'f, D: DigitStore> Model for FormattedAbsolute<'f, D> {
    ghost use Rattle.decimal_format.specs.Formatted.{FormattedAbsolute, formatted_absolute};

    ghost Value = { FormattedAbsolute };

    ghost view = { λ s. formatted_absolute s.symbols.now s.strategy s.value.now };
}

/// A decimal that is written by the symbols of a locale. It borrows the decimal.
///
/// `FormattedDecimal` of ICU4X.
///
/// ```
/// let formatted = formatter.format(&value);
/// formatted.writeable_length_hint() // 13
/// formatted.write_to(&mut sink)?; // -1,234,567.50
/// ```
#[derive(Debug, Drop)]
pub struct FormattedDecimal<'f, D: DigitStore> {
    absolute: FormattedAbsolute<'f, D>,
    sign: Sign,
}

impl<'f, D: DigitStore> Model for FormattedDecimal<'f, D> {
    ghost use Rattle.decimal_format.specs.Formatted.{Formatted, with_sign};

    ghost Value = { Formatted };

    ghost view = { λ s. with_sign s.absolute s.sign };
}

#[inline]
fn grouping_if<'s>(symbols: &'s DecimalSymbols<'_>, separated: bool) -> &'s str
    ensures value { result.now ≡ separator_if symbols.now separated }
    ensures at_most { length result.now ≤ 255 }
{
    if separated {
        symbols.grouping_separator()
    } else {
        ""
    }
}

impl<'a> DecimalFormatter<'a> {
    /// Makes a formatter with the symbols of a locale and a strategy of grouping.
    #[inline]
    pub fn new(symbols: DecimalSymbols<'a>, strategy: GroupingStrategy) -> Self
        ensures { result ≡ formatter symbols.entry strategy }
    {
        DecimalFormatter { symbols, strategy }
    }

    /// Returns the symbols.
    #[inline]
    pub fn symbols(&self) -> &DecimalSymbols<'a>
        ensures { result.now ≡ self.now.symbols }
    {
        &self.symbols
    }

    /// Formats a decimal over any store of digits. It does not allocate.
    ///
    /// It shows the decimal as it is, so it borrows it. `NumberFormatter` of `number_format` rounds, and takes the
    /// number, since it changes it.
    ///
    /// ```
    /// format!(in alloc; "{}", formatter.format(&value))? // -1,234,567.50
    /// ```
    #[inline]
    pub fn format<'f, D: DigitStore>(
        &'f self,
        value: &'f Signed<UnsignedOver<D>>,
    ) -> FormattedDecimal<'f, D>
        ensures { result ≡ formatted_by self.now value.now }
    {
        let absolute = FormattedAbsolute::new(&self.symbols, self.strategy, &value.absolute);
        FormattedDecimal {
            absolute,
            sign: value.sign,
        }
    }
}

impl<'f, D: DigitStore> FormattedAbsolute<'f, D> {
    /// Formats an absolute value over any store of digits. It does not allocate.
    #[inline]
    pub fn new(
        symbols: &'f DecimalSymbols<'f>,
        strategy: GroupingStrategy,
        value: &'f UnsignedOver<D>,
    ) -> Self
        ensures { result ≡ formatted_absolute symbols.now strategy value.now }
    {
        FormattedAbsolute {
            symbols,
            strategy,
            value,
        }
    }

    /// Returns the number of magnitudes that are shown.
    #[inline]
    pub fn shown_count(&self) -> u32
        ensures value { result ≡ shown_count self.now.value }
        ensures at_most { result ≤ 65536 }
    {
        count_between(self.value.lowest(), self.value.highest())
    }

    /// Returns the magnitude that is `below` less than the highest one that is shown. `below` is less than
    /// `shown_count()`.
    #[inline]
    pub fn magnitude(&self, below: u32) -> i16
        requires { below < shown_count self.now.value }
        ensures value { result ≡ self.now.value.hi -ℤ pos below }
        ensures valid { IsValue self.now.value }
    {
        prove!(self.value.lowest() <= 0);
        magnitude_below(self.value.highest(), below)
    }

    #[inline]
    fn has_separator_before(&self, below: u32) -> bool
        requires { below < shown_count self.now.value }
        ensures { (if result then self.now.symbols.decimal else [])
            ≡ separator_before self.now.symbols (self.now.value.hi -ℤ pos below) }
    {
        self.magnitude(below) == -1
    }

    /// Returns the decimal separator if it is before the digit at [`magnitude`](Self::magnitude), else nothing.
    ///
    /// Requires one that is shown.
    #[inline]
    pub fn separator_before(&self, below: u32) -> &str
        requires { below < shown_count self.now.value }
        ensures value { result.now ≡ separator_before self.now.symbols (self.now.value.hi -ℤ pos below) }
        ensures at_most { length result.now ≤ 255 }
    {
        if self.has_separator_before(below) {
            self.symbols.decimal_separator()
        } else {
            ""
        }
    }

    /// Returns the digit at [`magnitude`](Self::magnitude), as the locale writes it. Requires one that is shown.
    #[inline]
    pub fn digit(&self, below: u32) -> char
        requires { below < shown_count self.now.value }
        ensures { encode_utf8 result ≡ digit_text self.now.symbols
            (digit self.now.value.number (self.now.value.hi -ℤ pos below)) }
    {
        let digit = self.value.digit_at(self.magnitude(below));
        self.symbols.digit(digit)
    }

    /// Returns the grouping separator if it is after the digit at [`magnitude`](Self::magnitude), else nothing.
    ///
    /// Requires one that is shown.
    #[inline]
    pub fn separator_after(&self, below: u32) -> &str
        requires { below < shown_count self.now.value }
        ensures value { result.now ≡ separator_after self.now.symbols self.now.strategy self.now.value.hi
            (self.now.value.hi -ℤ pos below) }
        ensures at_most { length result.now ≤ 255 }
    {
        let (hi, magnitude) = (self.value.highest(), self.magnitude(below));
        let separated = self.symbols.sizes().separates(self.strategy, hi, magnitude);
        grouping_if(self.symbols, separated)
    }
}

impl<'f, D: DigitStore> FormattedDecimal<'f, D> {
    #[inline]
    fn prefix(&self) -> &str
        ensures value { result.now ≡ (sign_affixes self.now.symbols self.now.value.sign).prefix }
        ensures at_most { length result.now ≤ 255 }
    {
        self.absolute.symbols.affixes(self.sign).prefix
    }

    #[inline]
    fn suffix(&self) -> &str
        ensures value { result.now ≡ (sign_affixes self.now.symbols self.now.value.sign).suffix }
        ensures at_most { length result.now ≤ 255 }
    {
        self.absolute.symbols.affixes(self.sign).suffix
    }
}
