//! How a number is written: its style, notation, digits, sign and groups, and the digits that ECMA-402 has by default.
ghost use Rattle.std.specs.Prelude.{◌≡◌};
ghost use Rattle.number_format.specs.{DefaultDigits.{shows_all_digits, is_compact, usage_digits, style_digits, increment_by, increment, IsDefaultBy, IsDefault}, NumberText.{compact_style, has_symbol}, NumberStyles.shows_name};

mod constructors;

use crate::digits::options::DigitOptions;
use crate::digits::ranges::{FractionDigits, Increment};
use crate::digits::settings::DigitDefaults;
use decimal_format::GroupingStrategy;
use fixed_decimal::SignDisplay;
use locale_data::{
    CompactStyle, CurrencyCode, CurrencyDigits, CurrencySign, NumberingSystem, UNLISTED_DIGITS,
    currency_digits,
};
use locale_names::{Unit, UnitDisplay};

/// Which symbol of a currency is written, or its name.
#[derive(Clone, Copy, Debug, Default, PartialEq)]
pub enum CurrencyDisplay {
    /// The symbol of the locale, as `US$`.
    #[default]
    Symbol,
    /// The narrow symbol, as `$`.
    Narrow,
    /// The code, as `USD`.
    Code,
    /// None: the digits are those of the currency.
    Hidden,
    /// The name by the plural category of the number, as `US dollars`; of a code that has none the code.
    Name,
}

/// For which use a currency's digits are chosen: 1.23 Swiss francs are `1.25` in cash, whose least coin is 0.05.
#[derive(Clone, Copy, Debug, Default, PartialEq)]
pub enum CurrencyUsage {
    /// The usual digits.
    #[default]
    Standard,
    /// Those of cash, with its increment.
    Cash,
}

/// How an amount of money is written: in `en`, by `CurrencyStyle::new(CurrencyCode::try_from_str("EUR")?)`, as `€1.50`.
#[derive(Clone, Copy, Debug, PartialEq)]
pub struct CurrencyStyle {
    /// The code of the currency; of one that is not listed two digits and the code are shown.
    pub code: CurrencyCode,
    /// Which symbol is written.
    pub display: CurrencyDisplay,
    /// The usual pattern or that of accounts.
    pub sign: CurrencySign,
    /// For which use its digits are chosen.
    pub usage: CurrencyUsage,
}

/// Whether another unit is written after a percentage.
#[derive(Clone, Copy, Debug, PartialEq)]
pub enum PerDisplay {
    /// In short and narrow texts of one number it is not, as `Intl.NumberFormat` has it: `1%` of percent per hour.
    Auto,
    /// It is, as number skeletons of ICU have it: `1%/h`.
    Always,
}

/// How a number of units is written.
#[derive(Clone, Copy, Debug, PartialEq)]
pub struct UnitStyle {
    /// The unit, or two of them: `5 km/h`.
    pub unit: Unit,
    /// How long its text is.
    pub display: UnitDisplay,
    /// Whether another unit is written after a percentage.
    pub per_display: PerDisplay,
}

/// What a number counts.
#[derive(Clone, Copy, Debug, PartialEq)]
pub enum NumberStyle {
    /// A plain number.
    Decimal,
    /// A percentage, `12%` of 12; ECMA-402 has a scale of 2 with it, as [`NumberOptions::percent`].
    Percent,
    /// A number of thousandths, `12‰` of 12.
    Permille,
    /// An amount of money.
    Currency(CurrencyStyle),
    /// A number of units.
    Unit(UnitStyle),
}

/// Where the decimal separator is written.
#[derive(Clone, Copy, Debug, Default, PartialEq)]
pub enum DecimalSeparatorDisplay {
    /// Before fraction digits.
    #[default]
    Auto,
    /// After the integer digits, also if there are no fraction digits: `5.`.
    Always,
}

/// Which groups of integer digits are separated.
#[derive(Clone, Copy, Debug, Default, PartialEq)]
pub enum GroupSizes {
    /// Those of the locale: in `en-IN` `12,34,567`.
    #[default]
    Locale,
    /// Groups of three digits in each locale: `1,234,567`.
    Thousands,
}

/// Which sign an exponent has.
#[derive(Clone, Copy, Debug, Default, PartialEq)]
pub enum ExponentSign {
    /// A minus sign below 0.
    #[default]
    Auto,
    /// A minus sign below 0, and a plus sign else.
    Always,
    /// None.
    Never,
}

/// How an exponent is written.
#[derive(Clone, Copy, Debug, PartialEq)]
pub struct ExponentOptions {
    /// The least number of digits: 0 is as 1, and more than 32,767 are as 32,767.
    pub digits: u16,
    /// Its sign.
    pub sign: ExponentSign,
}

/// How long the words of a number in compact notation are. Of currencies both are short.
#[derive(Clone, Copy, Debug, Default, PartialEq)]
pub enum CompactLength {
    /// `1.2M`
    #[default]
    Short,
    /// `1.2 million`
    Long,
}

/// In which notation a number is written.
#[derive(Clone, Copy, Debug, PartialEq)]
pub enum NumberNotation {
    /// As it is.
    Standard,
    /// With one integer digit and an exponent.
    Scientific(ExponentOptions),
    /// With one to three integer digits and an exponent that is a multiple of 3.
    Engineering(ExponentOptions),
    /// In words for powers of ten, as `1.2K`.
    Compact(CompactLength),
}

/// How a number is written. Every value is valid.
#[derive(Clone, Copy, Debug, PartialEq)]
pub struct NumberOptions {
    /// What the number counts.
    pub style: NumberStyle,
    /// The power of ten by which the number is multiplied first: by 2 and the style `Percent` 0.5 is `50%`.
    pub scale: i16,
    /// Its notation.
    pub notation: NumberNotation,
    /// Which digits are shown. `None`: of a plain number in standard notation all digits, of money those of the
    /// currency, else those of ECMA-402.
    pub digits: Option<DigitOptions>,
    /// Which sign is written: that of the rounded number, also if its integer digits are cut off.
    pub sign_display: SignDisplay,
    /// Where groups are separated: by default as [`NumberNotation::default_grouping`] has it. In compact notation node
    /// takes `Auto` for `Min2`, and ECMA-402 does not.
    pub grouping: GroupingStrategy,
    /// Which groups are separated.
    pub group_sizes: GroupSizes,
    /// Where the decimal separator is written.
    pub decimal_separator: DecimalSeparatorDisplay,
    /// The numbering system. `None`: that of the locale.
    pub numbering_system: Option<NumberingSystem>,
}

impl CurrencyDisplay {
    pub(crate) fn shows_name(self) -> bool
        ensures { result ≡ shows_name self }
    {
        matches!(self, CurrencyDisplay::Name)
    }
}

impl CurrencyUsage {
    /// Returns the number of fraction digits that a currency has for this use, and its increment, 0 if it has none.
    pub fn digits(self, currency: CurrencyDigits) -> (u8, u8)
        ensures { result ≡ usage_digits self currency }
    {
        match self {
            CurrencyUsage::Standard => (currency.digits, 0),
            CurrencyUsage::Cash => (currency.cash_digits, currency.cash_increment),
        }
    }
}

impl NumberOptions {
    /// Returns whether the notation is compact.
    pub fn is_compact(&self) -> bool
        ensures { result ≡ is_compact self.now.notation }
    {
        matches!(self.notation, NumberNotation::Compact(_))
    }

    fn has_symbol(&self) -> bool
        ensures { result ≡ has_symbol self.now.style }
    {
        match self.style {
            NumberStyle::Currency(style) => !style.display.shows_name(),
            _ => false,
        }
    }

    #[inline(always)]
    pub(crate) fn compact_style(&self) -> Option<CompactStyle>
        ensures { result ≡ compact_style self.now.notation self.now.style }
    {
        match self.notation {
            NumberNotation::Compact(_) if self.has_symbol() => Some(CompactStyle::Currency),
            NumberNotation::Compact(CompactLength::Short) => Some(CompactStyle::Short),
            NumberNotation::Compact(CompactLength::Long) => Some(CompactStyle::Long),
            _ => None,
        }
    }

    pub(crate) fn shows_all_digits(&self) -> bool
        ensures { result ≡ shows_all_digits self.now.style self.now.notation }
    {
        let kind = (self.style, self.notation);
        matches!(kind, (NumberStyle::Decimal, NumberNotation::Standard))
    }

    fn currency_digits(&self) -> CurrencyDigits
        ensures { result ≡ style_digits self.now.style }
    {
        match self.style {
            NumberStyle::Currency(style) => currency_digits(style.code),
            _ => UNLISTED_DIGITS,
        }
    }

    pub(crate) fn increment_by(&self, currency: CurrencyDigits) -> u16
        ensures { result ≡ increment_by currency self.now.style (is_compact self.now.notation) }
    {
        match self.style {
            NumberStyle::Currency(style) if !self.is_compact() => {
                let (_, increment) = style.usage.digits(currency);
                match Increment::new(increment as u16) {
                    Ok(increment) => increment.value(),
                    Err(_) => 1,
                }
            }
            _ => 1,
        }
    }

    pub(crate) fn digit_defaults_by(&self, currency: CurrencyDigits) -> DigitDefaults
        ensures { IsDefaultBy currency self.now result }
    {
        let (min, max) = match self.style {
            NumberStyle::Decimal | NumberStyle::Unit(_) => (0, 3),
            NumberStyle::Percent | NumberStyle::Permille => (0, 0),
            NumberStyle::Currency(style) => {
                let (count, _) = style.usage.digits(currency);
                (count, count)
            }
        };
        DigitDefaults {
            fraction: FractionDigits {
                min: min as u16,
                max: max as u16,
            },
            is_compact: self.is_compact(),
        }
    }

    /// Returns the increment of a rounding that no setting gives: that of a currency's cash, else 1.
    pub fn default_increment(&self) -> u16
        ensures { result ≡ increment self.now.style (is_compact self.now.notation) }
    {
        self.increment_by(self.currency_digits())
    }

    /// Returns the numbers of fraction digits that ECMA-402 has for the style and the notation. For money they are
    /// those of the currency in each notation, as in node. ECMA-402 has these in standard notation only.
    pub fn digit_defaults(&self) -> DigitDefaults
        ensures { IsDefault self.now result }
    {
        self.digit_defaults_by(self.currency_digits())
    }
}
