//! The rows of the formats of numbers, as integers.
ghost use Rattle.std.specs.Prelude.{◌≡◌, nat_lt, length, IfSome, IfNone};
ghost use Rattle.locale_data.specs.{declared.number_formats.NumberFormats.NumberFormats, Formats.{are_listed, format_rows}};

use crate::number_formats::NumberFormats;
use crate::tables::compact::{COMPACT_SETS, PERCENT_UNITS};
use crate::tables::formats::{MONEY_FORMATS, NUMBER_SIGNS, PATTERNS};

/// The rows of [`NumberFormats`], as integers. They are the same as long as the tables are.
///
/// ```
/// let rows = formats_of("de", "latn").rows();
/// NumberFormats::at(rows)?.percent() // 12 %
/// ```
#[derive(Clone, Copy, Debug, PartialEq)]
pub struct FormatRows {
    /// The pattern of percent.
    pub percent: u8,
    /// The pattern of money.
    pub standard: u8,
    /// The pattern of money in accounts.
    pub accounting: u8,
    /// The percent sign, the per mille sign and the exponent separator.
    pub signs: u8,
    /// The compact patterns.
    pub compact: u8,
    /// What is written around a percentage in compact notation.
    pub unit: u8,
    /// The separators and the pattern of a region's money.
    pub money: u8,
}

fn has_row<T>(rows: &[T], index: u8) -> bool
    ensures { result ≡ nat_lt index (length rows.now) }
{
    (index as usize) < rows.len()
}

fn are_listed(rows: FormatRows) -> bool
    ensures { result ≡ are_listed rows }
{
    has_row(&PATTERNS, rows.percent)
        && has_row(&PATTERNS, rows.standard)
        && has_row(&PATTERNS, rows.accounting)
        && has_row(&NUMBER_SIGNS, rows.signs)
        && has_row(&COMPACT_SETS, rows.compact)
        && has_row(&PERCENT_UNITS, rows.unit)
        && has_row(&MONEY_FORMATS, rows.money)
}

impl NumberFormats {
    /// Makes the formats of rows, and returns `None` if a table has no such row.
    ///
    /// ```
    /// NumberFormats::at(formats_of("de", "latn").rows()) // the formats of de
    /// ```
    pub fn at(rows: FormatRows) -> Option<NumberFormats>
        ensures some { IfSome result (λ formats. format_rows formats ≡ rows) }
        ensures none { IfNone result ((formats : NumberFormats) → format_rows formats ≡ rows → ⊥) }
    {
        if !are_listed(rows) {
            return None;
        }
        Some(NumberFormats {
            percent: rows.percent,
            standard: rows.standard,
            accounting: rows.accounting,
            signs: rows.signs,
            compact: rows.compact,
            unit: rows.unit,
            money: rows.money,
        })
    }

    /// Returns the rows.
    pub fn rows(&self) -> FormatRows
        ensures { result ≡ format_rows self.now }
    {
        FormatRows {
            percent: self.percent,
            standard: self.standard,
            accounting: self.accounting,
            signs: self.signs,
            compact: self.compact,
            unit: self.unit,
            money: self.money,
        }
    }
}
