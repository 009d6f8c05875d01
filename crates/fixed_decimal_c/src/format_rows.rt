//! The rows of a formatter in the library's tables, as C keeps them.
ghost use Rattle.std.specs.Prelude.{◌≡◌, ◌≤◌, ◌^◌, replicate, Some, IfSome, IfNone};
ghost use Rattle.locale_data.specs.{declared.number_formats.NumberFormats.{NumberFormats}, Formats.format_rows};
ghost use Rattle.number_format.specs.declared.format.{ids.FormatterIds.FormatterIds, outer.OuterTexts.OuterTexts};
ghost use Rattle.fixed_decimal_c.specs.{Locales.index_of, FormatRows.{formats_in, currency_in, units_in, outer_in, AreRows}};

use crate::locales::{number_of_rows, number_of_rules, rows_of_number, rules_of_number};
use locale_data::{CurrencyId, FormatRows, NumberFormats};
use locale_names::{CurrencyNames, PerPatterns, UnitPatterns};
use number_format::{FormatterIds, OuterTexts};

/// The rows of what is written around the whole number: of a unit, or of the name of a currency.
///
/// Fields that the kind does not use are ignored; the library makes them 0.
#[repr(C)]
#[derive(Clone, Copy)]
pub struct FdOuterRows {
    /// What is written: 0 nothing, 1 a unit, 2 a unit and another one after `per`, 3 the name of a currency.
    pub kind: u32,
    /// The run of the patterns of the unit, or of the names of the currency.
    pub texts: u32,
    /// The run of the patterns of the second unit, or of those of numbers with names.
    pub patterns: u32,
    /// The index of the pattern of two units.
    pub joiner: u8,
    /// The code of the currency in upper case.
    pub code: [u8; 3],
}

/// The rows of a locale, a currency and a unit in the library's tables.
#[repr(C)]
#[derive(Clone, Copy)]
pub struct FdFormatRows {
    /// The number of the locale, as `fd_locale` has it.
    pub locale: u64,
    /// The number of the plural rules, as `fd_plural_rules` has it.
    pub plural_rules: u32,
    /// The number of the currency, or 0 for none.
    pub currency: u32,
    /// The row of its symbol.
    pub symbol: u16,
    /// The row of its narrow symbol.
    pub narrow_symbol: u16,
    /// The number of the pattern that the locale has for the currency, or 0 for none.
    pub currency_pattern: u16,
    /// The row of the pattern of percent.
    pub percent: u8,
    /// The row of the pattern of money.
    pub standard: u8,
    /// The row of the pattern of money in accounts.
    pub accounting: u8,
    /// The row of the percent sign, the per mille sign and the exponent separator.
    pub signs: u8,
    /// The row of the compact patterns.
    pub compact: u8,
    /// The row of what is written around a percentage in compact notation.
    pub percent_unit: u8,
    /// The row of the separators and the pattern of a region's money.
    pub money: u8,
    /// Zeros.
    pub reserved: [u8; 3],
    /// The rows of a unit, or of the name of a currency.
    pub outer: FdOuterRows,
}

/// The rows with all fields 0, which are those of nothing.
const NO_OUTER: FdOuterRows = FdOuterRows {
    kind: 0,
    texts: 0,
    patterns: 0,
    joiner: 0,
    code: [0; 3],
};

/// The rows with all fields 0, which are none.
pub(crate) const NO_ROWS: FdFormatRows = FdFormatRows {
    locale: 0,
    plural_rules: 0,
    currency: 0,
    symbol: 0,
    narrow_symbol: 0,
    currency_pattern: 0,
    percent: 0,
    standard: 0,
    accounting: 0,
    signs: 0,
    compact: 0,
    percent_unit: 0,
    money: 0,
    reserved: [0; 3],
    outer: NO_OUTER,
};

fn number_of_pattern(pattern: Option<u8>) -> u16
    ensures value { index_of result ≡ pattern }
    ensures at_most { result ≤ 2 ^ 8 }
{
    match pattern {
        Some(index) => index as u16 + 1,
        None => 0,
    }
}

fn index_of_pattern(number: u16) -> Option<u8>
    requires { number ≤ 2 ^ 8 }
    ensures { result ≡ index_of number }
{
    match number {
        0 => None,
        _ => Some((number - 1) as u8),
    }
}

impl FdOuterRows {
    fn units(&self) -> UnitPatterns
        ensures { result ≡ units_in self.now }
    {
        UnitPatterns {
            unit: self.texts,
            per: match self.kind {
                2 => Some(PerPatterns {
                    unit: self.patterns,
                    joiner: self.joiner,
                }),
                _ => None,
            },
        }
    }

    fn decode(&self) -> Option<OuterTexts>
        ensures { result ≡ outer_in self.now }
    {
        match self.kind {
            0 => Some(OuterTexts::None),
            1 | 2 => Some(OuterTexts::Units(self.units())),
            3 => Some(OuterTexts::Names(CurrencyNames {
                code: self.code,
                names: self.texts,
                patterns: self.patterns,
            })),
            _ => None,
        }
    }

    fn of_units(units: UnitPatterns) -> FdOuterRows
        ensures { outer_in result ≡ Some (OuterTexts.Units units) }
    {
        match units.per {
            None => FdOuterRows {
                kind: 1,
                texts: units.unit,
                ..NO_OUTER
            },
            Some(per) => FdOuterRows {
                kind: 2,
                texts: units.unit,
                patterns: per.unit,
                joiner: per.joiner,
                ..NO_OUTER
            },
        }
    }

    fn encode(outer: OuterTexts) -> FdOuterRows
        ensures { outer_in result ≡ Some outer }
    {
        match outer {
            OuterTexts::None => NO_OUTER,
            OuterTexts::Units(units) => Self::of_units(units),
            OuterTexts::Names(names) => {
                let code = names.code;
                FdOuterRows {
                    kind: 3,
                    texts: names.names,
                    patterns: names.patterns,
                    code,
                    ..NO_OUTER
                }
            }
        }
    }
}

impl FdFormatRows {
    fn formats(&self) -> Option<NumberFormats>
        ensures some { IfSome result (λ formats. format_rows formats ≡ formats_in self.now) }
        ensures none { IfNone result ((formats : NumberFormats) → format_rows formats ≡ formats_in self.now → ⊥) }
    {
        NumberFormats::at(FormatRows {
            percent: self.percent,
            standard: self.standard,
            accounting: self.accounting,
            signs: self.signs,
            compact: self.compact,
            unit: self.percent_unit,
            money: self.money,
        })
    }

    fn currency(&self) -> Option<Option<CurrencyId>>
        ensures { result ≡ currency_in self.now }
    {
        if self.currency == 0 {
            return Some(None);
        }
        if self.currency > 65_536 || self.currency_pattern > 256 {
            return None;
        }
        Some(Some(CurrencyId {
            currency: (self.currency - 1) as u16,
            wide: self.symbol,
            narrow: self.narrow_symbol,
            pattern: index_of_pattern(self.currency_pattern),
        }))
    }

    /// Returns the rows.
    pub(crate) fn decode(&self) -> Option<FormatterIds>
        ensures some { IfSome result (AreRows self.now) }
        ensures none { IfNone result ((ids : FormatterIds) → AreRows self.now ids → ⊥) }
    {
        if self.reserved != [0; 3] {
            return None;
        }
        let Some(formats) = self.formats() else {
            return None;
        };
        Some(FormatterIds {
            symbols: rows_of_number(self.locale)?,
            formats,
            rules: rules_of_number(self.plural_rules as u64)?,
            currency: self.currency()?,
            outer: self.outer.decode()?,
        })
    }

    fn of_currency(currency: Option<CurrencyId>) -> FdFormatRows
        ensures currency { currency_in result ≡ Some currency }
        ensures reserved { result.reserved ≡ replicate 3 0 }
    {
        let Some(id) = currency else {
            return NO_ROWS;
        };
        FdFormatRows {
            currency: id.currency as u32 + 1,
            symbol: id.wide,
            narrow_symbol: id.narrow,
            currency_pattern: number_of_pattern(id.pattern),
            ..NO_ROWS
        }
    }

    /// Returns rows as C keeps them.
    pub(crate) fn encode(ids: &FormatterIds) -> FdFormatRows
        ensures { AreRows result ids.now }
    {
        let formats = ids.formats.rows();
        let currency = Self::of_currency(ids.currency);
        FdFormatRows {
            locale: number_of_rows(ids.symbols),
            plural_rules: number_of_rules(ids.rules) as u32,
            percent: formats.percent,
            standard: formats.standard,
            accounting: formats.accounting,
            signs: formats.signs,
            compact: formats.compact,
            percent_unit: formats.unit,
            money: formats.money,
            outer: FdOuterRows::encode(ids.outer),
            ..currency
        }
    }
}
