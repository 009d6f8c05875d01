//! The options of a number, as C passes them.
ghost use Rattle.std.specs.Prelude.{◌≡◌, slice_get, IfOk, IfErr, IfSome, IfNone};
ghost use Rattle.decimal_format.specs.declared.grouping.GroupingStrategy.{GroupingStrategy};
ghost use Rattle.number_format.specs.declared.{options.{NumberOptions.NumberOptions, NumberStyle.NumberStyle}, digits.settings.DigitSettings.DigitSettings};
ghost use Rattle.fixed_decimal_c.specs.NumberOptions.{grouping_code, grouping_in, system_of, given, notations, style_codes_of, error_of_digits, IsOptionStyle, AreChoices, AreSettings, AreNumberOptions, NumberOptionsFail};

use crate::calls::{display, mode};
use crate::choices::choice;
use crate::error::FdError;
use crate::styles::{StyleCodes, has_sanctioned_unit};
use decimal_format::GroupingStrategy;
use locale_data::{NumberingSystem, unpadded};
use number_format::{
    CompactLength, DecimalSeparatorDisplay, DigitOptionsError, DigitSettings, ExponentOptions,
    ExponentSign, GroupSizes, NumberNotation, NumberOptions, NumberStyle, RoundingPriority,
    TrailingZeros,
};

/// The options of a number: those of ECMA-402, and a scale. A word is its number in the list of its option.
///
/// 65,535 is no number of digits and no increment: what ECMA-402 has for the style and the notation applies.
#[repr(C)]
#[derive(Clone, Copy)]
pub struct FdNumberOptions {
    /// The style: 0 decimal, 1 percent, 2 permille, 3 currency, 4 unit.
    pub style: u8,
    /// The code of the currency, three letters.
    pub currency: [u8; 3],
    /// The name of the numbering system, padded with spaces; if it begins with 0, that of the locale.
    pub numbering_system: [u8; 16],
    /// Which symbol of the currency is written: 0 that of the locale, 1 the narrow one, 2 the code, 3 none; or 4, the
    /// name.
    pub currency_display: u8,
    /// The pattern of an amount: 0 the usual one, 1 that of accounts.
    pub currency_sign: u8,
    /// The use for which the digits of the currency are chosen: 0 the usual one, 1 cash.
    pub currency_usage: u8,
    /// The number of the unit, as `fd_unit` has it.
    pub unit: u8,
    /// The number of the unit after `per`, or 0 for none.
    pub per_unit: u8,
    /// The width of the unit: 0 short, 1 narrow, 2 long.
    pub unit_display: u8,
    /// The notation: 0 standard, 1 scientific, 2 engineering, 3 compact with short words, 4 with long ones.
    pub notation: u8,
    /// The display of the sign of the number that is shown.
    pub sign_display: u8,
    /// Where separators of groups are written.
    pub grouping: u8,
    /// Where the decimal separator is written: 0 before fraction digits, 1 always.
    pub decimal_separator: u8,
    /// The mode of the rounding.
    pub rounding_mode: u8,
    /// Which of two roundings is chosen: 0 by the numbers that are given, 1 the more precise one, 2 the other.
    pub rounding_priority: u8,
    /// Whether fraction digits that are all 0 are shown: 0 yes, 1 no.
    pub trailing_zeros: u8,
    /// The power of ten by which the number is multiplied first.
    pub scale: i16,
    /// The least number of integer digits, 1 to 21.
    pub minimum_integer_digits: u16,
    /// The least number of fraction digits, 0 to 100.
    pub minimum_fraction_digits: u16,
    /// The greatest number of fraction digits, 0 to 100.
    pub maximum_fraction_digits: u16,
    /// The least number of significant digits, 1 to 21.
    pub minimum_significant_digits: u16,
    /// The greatest number of significant digits, 1 to 21.
    pub maximum_significant_digits: u16,
    /// The increment of the rounding: 1, 2 or 5 with up to three zeros, or 25 with up to two.
    pub rounding_increment: u16,
}

const PLAIN: ExponentOptions = ExponentOptions {
    digits: 1,
    sign: ExponentSign::Auto,
};

const PRIORITIES: [RoundingPriority; 3] = [
    RoundingPriority::Auto,
    RoundingPriority::MorePrecision,
    RoundingPriority::LessPrecision,
];

pub(crate) const TRAILING_ZEROS: [TrailingZeros; 2] = [
    TrailingZeros::Auto,
    TrailingZeros::StripIfInteger,
];

pub(crate) const SEPARATORS: [DecimalSeparatorDisplay; 2] = [
    DecimalSeparatorDisplay::Auto,
    DecimalSeparatorDisplay::Always,
];

pub(crate) fn grouping(code: u8) -> Option<GroupingStrategy>
    ensures some { IfSome result (λ g. code ≡ grouping_code g) }
    ensures none { IfNone result ((g : GroupingStrategy) → code ≡ grouping_code g → ⊥) }
{
    match code {
        0 => Some(GroupingStrategy::Auto),
        1 => Some(GroupingStrategy::Never),
        2 => Some(GroupingStrategy::Always),
        3 => Some(GroupingStrategy::Min2),
        _ => None,
    }
}

/// Returns the notation with this number.
pub(crate) fn notation(code: u8, exponent: ExponentOptions) -> Option<NumberNotation>
    ensures { result ≡ slice_get (notations exponent) code }
{
    let notations = [
        NumberNotation::Standard,
        NumberNotation::Scientific(exponent),
        NumberNotation::Engineering(exponent),
        NumberNotation::Compact(CompactLength::Short),
        NumberNotation::Compact(CompactLength::Long),
    ];
    choice(&notations, code)
}

fn grouping_in(notation: NumberNotation, grouping: GroupingStrategy) -> GroupingStrategy
    ensures { result ≡ grouping_in notation grouping }
{
    match grouping {
        GroupingStrategy::Auto => notation.default_grouping(),
        _ => grouping,
    }
}

fn system(bytes: [u8; 16]) -> Option<Option<NumberingSystem>>
    ensures { result ≡ system_of bytes }
{
    if bytes[0] == 0 {
        return Some(None);
    }
    match NumberingSystem::try_from_utf8(unpadded(&bytes)) {
        Ok(system) => Some(Some(system)),
        Err(_) => None,
    }
}

fn given(count: u16) -> Option<u16>
    ensures { result ≡ given count }
{
    match count {
        u16::MAX => None,
        _ => Some(count),
    }
}

impl FdNumberOptions {
    fn style_codes(&self) -> StyleCodes
        ensures { result ≡ style_codes_of self.now }
    {
        StyleCodes {
            style: self.style,
            currency: self.currency,
            currency_display: self.currency_display,
            currency_sign: self.currency_sign,
            currency_usage: self.currency_usage,
            unit: self.unit,
            per_unit: self.per_unit,
            unit_display: self.unit_display,
            per_display: 0,
        }
    }

    fn style(&self) -> Option<NumberStyle>
        ensures some { IfSome result (IsOptionStyle self.now) }
        ensures none { IfNone result ((s : NumberStyle) → IsOptionStyle self.now s → ⊥) }
    {
        let Some(style) = self.style_codes().decode() else {
            return None;
        };
        if has_sanctioned_unit(&style) {
            Some(style)
        } else {
            None
        }
    }

    /// Returns all options but the digits.
    fn choices(&self) -> Option<NumberOptions>
        ensures some { IfSome result (AreChoices self.now) }
        ensures none { IfNone result ((o : NumberOptions) → AreChoices self.now o → ⊥) }
    {
        let notation = notation(self.notation, PLAIN)?;
        Some(NumberOptions {
            style: self.style()?,
            scale: self.scale,
            notation,
            digits: None,
            sign_display: display(self.sign_display)?,
            grouping: grouping_in(notation, grouping(self.grouping)?),
            group_sizes: GroupSizes::Locale,
            decimal_separator: choice(&SEPARATORS, self.decimal_separator)?,
            numbering_system: system(self.numbering_system)?,
        })
    }

    /// Returns the numbers of digits that are given with these options.
    fn settings(&self, options: &NumberOptions) -> Option<DigitSettings>
        ensures some { IfSome result (AreSettings self.now options.now) }
        ensures none { IfNone result ((s : DigitSettings) → AreSettings self.now options.now s → ⊥) }
    {
        Some(DigitSettings {
            minimum_integer_digits: given(self.minimum_integer_digits),
            minimum_fraction_digits: given(self.minimum_fraction_digits),
            maximum_fraction_digits: given(self.maximum_fraction_digits),
            minimum_significant_digits: given(self.minimum_significant_digits),
            maximum_significant_digits: given(self.maximum_significant_digits),
            rounding_increment: given(self.rounding_increment).unwrap_or(
                options.default_increment(),
            ),
            rounding_mode: mode(self.rounding_mode)?,
            rounding_priority: choice(&PRIORITIES, self.rounding_priority)?,
            trailing_zeros: choice(&TRAILING_ZEROS, self.trailing_zeros)?,
        })
    }

    /// Returns the options.
    pub(crate) fn decode(&self) -> Result<NumberOptions, FdError>
        ensures ok { IfOk result (AreNumberOptions self.now) }
        ensures err { IfErr result (λ error. NumberOptionsFail error self.now) }
    {
        let Some(options) = self.choices() else {
            return Err(FdError::UnknownOption);
        };
        let Some(settings) = self.settings(&options) else {
            return Err(FdError::UnknownOption);
        };
        match options.with_digit_settings(&settings) {
            Ok(options) => Ok(options),
            Err(error) => Err(error_of_digits(error)),
        }
    }
}

fn error_of_digits(error: DigitOptionsError) -> FdError
    ensures { result ≡ error_of_digits error }
{
    let at = match error {
        DigitOptionsError::IntegerDigits => 0,
        DigitOptionsError::Increment => 1,
        DigitOptionsError::SignificantDigits => 2,
        DigitOptionsError::FractionDigits => 3,
        DigitOptionsError::IncrementPrecision => 4,
        DigitOptionsError::IncrementDigits => 5,
    };
    FdError::DigitOptions { at }
}
