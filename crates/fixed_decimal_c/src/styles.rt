//! The styles of numbers, as C has them.
ghost use Rattle.std.specs.Prelude.{◌≡◌, slice_get, Some, IfSome, IfNone};
ghost use Rattle.locale_data.specs.Codes.{code_of};
ghost use Rattle.number_format.specs.declared.options.{CurrencyStyle.CurrencyStyle, NumberStyle.NumberStyle, UnitStyle.UnitStyle};
ghost use Rattle.fixed_decimal_c.specs.Styles.{displays, signs, usages, unit_displays, per_displays, IsAmount, IsUnitStyle, IsStyle, has_sanctioned_unit};

use crate::choices::choice;
use crate::units::{per_number, unit_number, unit_with};
use locale_data::{CurrencyCode, CurrencySign};
use locale_names::UnitDisplay;
use number_format::{
    CurrencyDisplay, CurrencyStyle, CurrencyUsage, NumberStyle, PerDisplay, UnitStyle,
};

/// The numbers of a style. Those that the style does not use are ignored; the library makes them 0.
#[derive(Clone, Copy)]
pub struct StyleCodes {
    /// The style, as in `FdNumberOptions`.
    pub style: u8,
    /// The code of the currency.
    pub currency: [u8; 3],
    /// Which symbol of the currency is written, or its name.
    pub currency_display: u8,
    /// The pattern of an amount.
    pub currency_sign: u8,
    /// The use for which the digits of the currency are chosen.
    pub currency_usage: u8,
    /// The number of the unit.
    pub unit: u8,
    /// The number of the unit after `per`.
    pub per_unit: u8,
    /// The width of the unit.
    pub unit_display: u8,
    /// Whether another unit is written after a percentage.
    pub per_display: u8,
}

const DISPLAYS: [CurrencyDisplay; 5] = [
    CurrencyDisplay::Symbol,
    CurrencyDisplay::Narrow,
    CurrencyDisplay::Code,
    CurrencyDisplay::Hidden,
    CurrencyDisplay::Name,
];

const SIGNS: [CurrencySign; 2] = [CurrencySign::Standard, CurrencySign::Accounting];

const USAGES: [CurrencyUsage; 2] = [CurrencyUsage::Standard, CurrencyUsage::Cash];

const UNIT_DISPLAYS: [UnitDisplay; 3] = [
    UnitDisplay::Short,
    UnitDisplay::Narrow,
    UnitDisplay::Long,
];

const PER_DISPLAYS: [PerDisplay; 2] = [PerDisplay::Auto, PerDisplay::Always];

/// The numbers of a plain number.
const PLAIN: StyleCodes = StyleCodes {
    style: 0,
    currency: [0; 3],
    currency_display: 0,
    currency_sign: 0,
    currency_usage: 0,
    unit: 0,
    per_unit: 0,
    unit_display: 0,
    per_display: 0,
};

// ---- The style with numbers.

impl StyleCodes {
    fn amount(&self) -> Option<CurrencyStyle>
        ensures some { IfSome result (IsAmount self.now) }
        ensures none { IfNone result ((m : CurrencyStyle) → IsAmount self.now m → ⊥) }
    {
        let Ok(code) = CurrencyCode::try_from_utf8(&self.currency) else {
            return None;
        };
        Some(CurrencyStyle {
            code,
            display: choice(&DISPLAYS, self.currency_display)?,
            sign: choice(&SIGNS, self.currency_sign)?,
            usage: choice(&USAGES, self.currency_usage)?,
        })
    }

    fn unit(&self) -> Option<UnitStyle>
        ensures some { IfSome result (IsUnitStyle self.now) }
        ensures none { IfNone result ((u : UnitStyle) → IsUnitStyle self.now u → ⊥) }
    {
        let Some(unit) = unit_with(self.unit, self.per_unit) else {
            return None;
        };
        Some(UnitStyle {
            unit,
            display: choice(&UNIT_DISPLAYS, self.unit_display)?,
            per_display: choice(&PER_DISPLAYS, self.per_display)?,
        })
    }

    /// Returns the style.
    pub(crate) fn decode(&self) -> Option<NumberStyle>
        ensures some { IfSome result (IsStyle self.now) }
        ensures none { IfNone result ((s : NumberStyle) → IsStyle self.now s → ⊥) }
    {
        match self.style {
            0 => Some(NumberStyle::Decimal),
            1 => Some(NumberStyle::Percent),
            2 => Some(NumberStyle::Permille),
            3 => match self.amount() {
                Some(amount) => Some(NumberStyle::Currency(amount)),
                None => None,
            },
            4 => match self.unit() {
                Some(unit) => Some(NumberStyle::Unit(unit)),
                None => None,
            },
            _ => None,
        }
    }
}

/// Returns whether ECMA-402 has the unit of a style, if it has one.
pub(crate) fn has_sanctioned_unit(style: &NumberStyle) -> bool
    ensures { result ≡ has_sanctioned_unit style.now }
{
    match style {
        NumberStyle::Unit(style) => style.unit.is_sanctioned(),
        _ => true,
    }
}

// ---- The numbers of a style.

fn display_number(display: CurrencyDisplay) -> u8
    ensures { slice_get displays result ≡ Some display }
{
    display as u8
}

fn sign_number(sign: CurrencySign) -> u8
    ensures { slice_get signs result ≡ Some sign }
{
    sign as u8
}

fn usage_number(usage: CurrencyUsage) -> u8
    ensures { slice_get usages result ≡ Some usage }
{
    usage as u8
}

fn unit_display_number(display: UnitDisplay) -> u8
    ensures { slice_get unit_displays result ≡ Some display }
{
    match display {
        UnitDisplay::Short => 0,
        UnitDisplay::Narrow => 1,
        UnitDisplay::Long => 2,
    }
}

fn per_display_number(display: PerDisplay) -> u8
    ensures { slice_get per_displays result ≡ Some display }
{
    display as u8
}

fn code_bytes(code: &CurrencyCode) -> [u8; 3]
    ensures { code_of result ≡ Some code.now }
{
    code.to_bytes()
}

impl StyleCodes {
    /// Returns the numbers of a style.
    pub(crate) fn encode(style: NumberStyle) -> StyleCodes
        ensures { IsStyle result style }
    {
        match style {
            NumberStyle::Decimal => PLAIN,
            NumberStyle::Percent => StyleCodes { style: 1, ..PLAIN },
            NumberStyle::Permille => StyleCodes { style: 2, ..PLAIN },
            NumberStyle::Currency(amount) => StyleCodes {
                style: 3,
                currency: code_bytes(&amount.code),
                currency_display: display_number(amount.display),
                currency_sign: sign_number(amount.sign),
                currency_usage: usage_number(amount.usage),
                ..PLAIN
            },
            NumberStyle::Unit(style) => StyleCodes {
                style: 4,
                unit: unit_number(style.unit.unit),
                per_unit: per_number(style.unit.per),
                unit_display: unit_display_number(style.display),
                per_display: per_display_number(style.per_display),
                ..PLAIN
            },
        }
    }
}
