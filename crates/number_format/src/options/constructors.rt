//! Options of numbers, by what they differ in from the default ones.
ghost use Rattle.std.specs.Prelude.{◌≡◌, Some, None, pos, IfOk, IfErr};
ghost use Rattle.number_format.specs.DefaultOptions.{default_grouping, default_options, grouping_after, plain_exponent, currency_style, unit_style, options_of, HasDigitsOf, DigitsFail};

use crate::digits::error::DigitOptionsError;
use crate::digits::options::DigitOptions;
use crate::digits::settings::DigitSettings;
use crate::options::{
    CompactLength, CurrencyDisplay, CurrencyStyle, CurrencyUsage, DecimalSeparatorDisplay,
    ExponentOptions, ExponentSign, GroupSizes, NumberNotation, NumberOptions, NumberStyle,
    PerDisplay, UnitStyle,
};
use decimal_format::GroupingStrategy;
use fixed_decimal::SignDisplay;
use locale_data::{CurrencyCode, CurrencySign, NumberingSystem};
use locale_names::{Unit, UnitDisplay};

impl CurrencyStyle {
    /// Returns the usual style of a currency: its symbol, the usual pattern, and the usual digits.
    pub fn new(code: CurrencyCode) -> CurrencyStyle
        ensures { result ≡ currency_style code }
    {
        CurrencyStyle {
            code,
            display: CurrencyDisplay::Symbol,
            sign: CurrencySign::Standard,
            usage: CurrencyUsage::Standard,
        }
    }

    /// Returns the style with another symbol, or with the name.
    pub fn with_display(self, display: CurrencyDisplay) -> CurrencyStyle
        ensures { result ≡ record self { display = display } }
    {
        CurrencyStyle { display, ..self }
    }

    /// Returns the style with the usual pattern, or with that of accounts.
    pub fn with_sign(self, sign: CurrencySign) -> CurrencyStyle
        ensures { result ≡ record self { sign = sign } }
    {
        CurrencyStyle { sign, ..self }
    }

    /// Returns the style with the digits of another use.
    pub fn with_usage(self, usage: CurrencyUsage) -> CurrencyStyle
        ensures { result ≡ record self { usage = usage } }
    {
        CurrencyStyle { usage, ..self }
    }
}

impl UnitStyle {
    /// Returns the usual style of a unit: its short text.
    pub fn new(unit: Unit) -> UnitStyle
        ensures { result ≡ unit_style unit }
    {
        UnitStyle {
            unit,
            display: UnitDisplay::Short,
            per_display: PerDisplay::Auto,
        }
    }

    /// Returns the style with a text of another length.
    pub fn with_display(self, display: UnitDisplay) -> UnitStyle
        ensures { result ≡ record self { display = display } }
    {
        UnitStyle { display, ..self }
    }

    /// Returns the style that writes another unit after a percentage always, or as `Intl.NumberFormat` does.
    pub fn with_per_display(self, per_display: PerDisplay) -> UnitStyle
        ensures { result ≡ record self { per_display = per_display } }
    {
        UnitStyle {
            per_display,
            ..self
        }
    }
}

impl Default for ExponentOptions {
    ghost is_default = { λ o. o ≡ plain_exponent };

    /// Returns one digit or more, and a minus sign below 0.
    fn default() -> ExponentOptions {
        ExponentOptions {
            digits: 1,
            sign: ExponentSign::Auto,
        }
    }
}

impl NumberNotation {
    /// Returns the grouping strategy that ECMA-402 has by default: `Min2` in compact notation, and else `Auto`.
    pub fn default_grouping(self) -> GroupingStrategy
        ensures { result ≡ default_grouping self }
    {
        match self {
            NumberNotation::Compact(_) => GroupingStrategy::Min2,
            _ => GroupingStrategy::Auto,
        }
    }
}

impl Default for NumberOptions {
    ghost is_default = { λ o. o ≡ default_options };

    /// Returns the options of a plain number in standard notation, which shows all its digits.
    fn default() -> NumberOptions {
        Self::of(NumberStyle::Decimal, 0, NumberNotation::Standard)
    }
}

impl NumberOptions {
    fn of(style: NumberStyle, scale: i16, notation: NumberNotation) -> NumberOptions
        ensures { result ≡ options_of style scale notation }
    {
        NumberOptions {
            style,
            scale,
            notation,
            digits: None,
            sign_display: SignDisplay::Auto,
            grouping: notation.default_grouping(),
            group_sizes: GroupSizes::Locale,
            decimal_separator: DecimalSeparatorDisplay::Auto,
            numbering_system: None,
        }
    }

    /// Returns the options of a percentage, as ECMA-402 has it: the number is multiplied by 100 first, so 0.5 is `50%`.
    pub fn percent() -> NumberOptions
        ensures { result ≡ options_of NumberStyle.Percent (pos 2) NumberNotation.Standard }
    {
        Self::of(NumberStyle::Percent, 2, NumberNotation::Standard)
    }

    /// Returns the options of an amount of money, with the usual symbol, pattern and digits of its currency.
    ///
    /// ```
    /// let euro = CurrencyCode::try_from_str("EUR")?;
    /// let formatter = NumberFormatter::try_new("de", NumberOptions::currency(euro))?;
    /// formatter.format(alloc, value)? // 1.234,57 € of 1234.565
    /// ```
    pub fn currency(code: CurrencyCode) -> NumberOptions
        ensures { result ≡ options_of (NumberStyle.Currency (currency_style code)) (pos 0) NumberNotation.Standard }
    {
        let style = NumberStyle::Currency(CurrencyStyle::new(code));
        Self::of(style, 0, NumberNotation::Standard)
    }

    /// Returns the options of a number of units, with the short text of the unit.
    ///
    /// ```
    /// let speed = Unit::try_from_str("kilometer-per-hour")?;
    /// let formatter = NumberFormatter::try_new("de", NumberOptions::unit(speed))?;
    /// formatter.format(alloc, value)? // 50 km/h
    /// ```
    pub fn unit(unit: Unit) -> NumberOptions
        ensures { result ≡ options_of (NumberStyle.Unit (unit_style unit)) (pos 0) NumberNotation.Standard }
    {
        let style = NumberStyle::Unit(UnitStyle::new(unit));
        Self::of(style, 0, NumberNotation::Standard)
    }

    /// Returns the options of a plain number in compact notation: `1.2M`, or `1.2 million`.
    pub fn compact(length: CompactLength) -> NumberOptions
        ensures { result ≡ options_of NumberStyle.Decimal (pos 0) (NumberNotation.Compact length) }
    {
        Self::of(NumberStyle::Decimal, 0, NumberNotation::Compact(length))
    }

    /// Returns the options of a plain number in scientific notation: `1.235E3`.
    pub fn scientific() -> NumberOptions
        ensures { result ≡ options_of NumberStyle.Decimal (pos 0) (NumberNotation.Scientific plain_exponent) }
    {
        let notation = NumberNotation::Scientific(ExponentOptions::default());
        Self::of(NumberStyle::Decimal, 0, notation)
    }

    /// Returns the options with another style. The scale stays: [`percent`](Self::percent) has 2.
    pub fn with_style(self, style: NumberStyle) -> NumberOptions
        ensures { result ≡ record self { style = style } }
    {
        NumberOptions { style, ..self }
    }

    /// Returns the options with another scale, the power of ten by which the number is multiplied first.
    pub fn with_scale(self, scale: i16) -> NumberOptions
        ensures { result ≡ record self { scale = scale } }
    {
        NumberOptions { scale, ..self }
    }

    /// Returns the options with another notation. If the grouping strategy is the default one of the old notation, it
    /// becomes that of the new one.
    pub fn with_notation(self, notation: NumberNotation) -> NumberOptions
        ensures { result ≡ record self { notation = notation; grouping = grouping_after self notation } }
    {
        let grouping = if self.grouping == self.notation.default_grouping() {
            notation.default_grouping()
        } else {
            self.grouping
        };
        NumberOptions {
            notation,
            grouping,
            ..self
        }
    }

    /// Returns the options with these digits.
    pub fn with_digits(self, digits: DigitOptions) -> NumberOptions
        ensures { result ≡ record self { digits = Some digits } }
    {
        NumberOptions {
            digits: Some(digits),
            ..self
        }
    }

    /// Returns the options with the digits that settings name, by the defaults of the style and the notation.
    ///
    /// The increment of the settings applies: [`default_increment`](Self::default_increment) is that of cash.
    ///
    /// # Errors
    ///
    /// As [`DigitSettings::resolve`].
    ///
    /// ```
    /// let settings = DigitSettings {
    ///     maximum_fraction_digits: Some(0),
    ///     ..DigitSettings::default()
    /// };
    /// NumberOptions::currency(euro).with_digit_settings(&settings)? // 1.235 €
    /// ```
    pub fn with_digit_settings(
        self,
        settings: &DigitSettings,
    ) -> Result<NumberOptions, DigitOptionsError>
        ensures ok { IfOk result (HasDigitsOf self settings.now) }
        ensures err { IfErr result (DigitsFail self settings.now) }
    {
        match settings.resolve(&self.digit_defaults()) {
            Ok(digits) => Ok(self.with_digits(digits)),
            Err(error) => Err(error),
        }
    }

    /// Returns the options with another sign display.
    pub fn with_sign_display(self, sign_display: SignDisplay) -> NumberOptions
        ensures { result ≡ record self { sign_display = sign_display } }
    {
        NumberOptions {
            sign_display,
            ..self
        }
    }

    /// Returns the options with another grouping strategy.
    pub fn with_grouping(self, grouping: GroupingStrategy) -> NumberOptions
        ensures { result ≡ record self { grouping = grouping } }
    {
        NumberOptions { grouping, ..self }
    }

    /// Returns the options with the groups of the locale, or with groups of three digits.
    ///
    /// ```
    /// options
    ///     .with_grouping(GroupingStrategy::Always)
    ///     .with_group_sizes(GroupSizes::Thousands) // 1,234,567 in en-IN
    /// ```
    pub fn with_group_sizes(self, group_sizes: GroupSizes) -> NumberOptions
        ensures { result ≡ record self { group_sizes = group_sizes } }
    {
        NumberOptions {
            group_sizes,
            ..self
        }
    }

    /// Returns the options with a decimal separator before fraction digits only, or after the integer digits too.
    pub fn with_decimal_separator(self, display: DecimalSeparatorDisplay) -> NumberOptions
        ensures { result ≡ record self { decimal_separator = display } }
    {
        NumberOptions {
            decimal_separator: display,
            ..self
        }
    }

    /// Returns the options with a numbering system, whichever the tag of the locale names.
    pub fn with_numbering_system(self, system: NumberingSystem) -> NumberOptions
        ensures { result ≡ record self { numbering_system = Some system } }
    {
        NumberOptions {
            numbering_system: Some(system),
            ..self
        }
    }
}
