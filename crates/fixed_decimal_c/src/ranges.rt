//! Ranges of two decimals, by a formatter that C keeps.
ghost use Rattle.std.specs.Prelude.{◌≡◌, Some, None, Ok, IfOk, IfErr, IfSome, IfNone};
ghost use Rattle.fixed_decimal.specs.DecimalText.{read_decimal};
ghost use Rattle.locale_data.specs.Locales.{symbols_at};
ghost use Rattle.number_format.specs.{Formatters.system_text, RangeText.IsRangeText};
ghost use Rattle.fixed_decimal_c.specs.{NumberTexts.error_of_format, Ranges.{EndsFail, FormatsRange, IsNoRangeFormatter, IsRangeFormatterIn, RangeFails, WritesRange, place_of_end}, Texts.WritesTo};

use crate::error::FdError;
use crate::format::error_of_format;
use crate::formatter::FdFormatter;
use crate::numbers::read;
use crate::texts::write_by_block;
use fixed_decimal::Decimal;
use locale_data::{LocaleId, NumberingSystem, system_name_at, unpadded};
use number_format::{NumberFormatter, RangeFormatError, RangeTexts};
use std::alloc::Global;
use std::str;

/// Returns the name of a numbering system, or else that of rows, and `None` if there are no such rows.
fn system_text(id: LocaleId, name: &Option<NumberingSystem>) -> Option<&str>
    ensures some { IfSome result (λ system. system_text id name.now ≡ Some system.now) }
    ensures none { IfNone result (symbols_at id ≡ None) }
{
    match name {
        Some(name) => Some(name.as_str()),
        None => {
            let own = system_name_at(id)?;
            Some(own)
        }
    }
}

impl FdFormatter {
    /// Returns the formatter of ranges of the rows and the options, and what its locale writes of ranges.
    pub(crate) fn decode_range(&self) -> Option<(NumberFormatter, RangeTexts<'_>)>
        ensures some { IfSome result (λ found. IsRangeFormatterIn self.now found.0 found.1) }
        ensures none { IfNone result (IsNoRangeFormatter self.now) }
    {
        let Some((ids, options)) = self.ids_and_options() else {
            return None;
        };
        let Some(formatter) = NumberFormatter::ranges_at(&ids, &options) else {
            return None;
        };
        let Some(system) = system_text(ids.symbols, &options.numbering_system) else {
            return None;
        };
        let Ok(tag) = str::from_utf8(unpadded(&self.tag)) else {
            return None;
        };
        match RangeTexts::in_system(tag, system) {
            Some(texts) => Some((formatter, texts)),
            None => None,
        }
    }
}

/// Reads the two decimals of a range.
pub(crate) fn read_ends(
    alloc: Global,
    start: &[u8],
    end: &[u8],
) -> Result<(Decimal, Decimal), FdError>
    ensures ok { IfOk result (λ ends. (read_decimal start.now ≡ Ok ends.0) × (read_decimal end.now ≡ Ok ends.1)) }
    ensures err { IfErr result (λ error. EndsFail error start.now end.now) }
{
    let first = read(alloc, start, 0)?;
    let second = read(alloc, end, 1)?;
    Ok((first, second))
}

/// Returns the error of a range that is not formatted: an overflow is that of the first number, 0, or of the second, 1.
pub(crate) fn error_of_range(failed: &RangeFormatError) -> FdError
    ensures { result ≡ error_of_format failed.now.error (place_of_end failed.now.at_end) }
{
    error_of_format(failed.error, if failed.at_end { 1 } else { 0 })
}

/// Writes the range of two decimals by a formatter.
fn write_range(
    alloc: Global,
    formatter: &NumberFormatter,
    texts: &RangeTexts<'_>,
    start: Decimal,
    end: Decimal,
    buffer: &mut [u8],
) -> Result<usize, FdError>
    ensures { WritesTo (IsRangeText formatter.now texts.now start end) (RangeFails formatter.now start end) result
        buffer.old buffer.new }
{
    match formatter.format_range(alloc, texts, start, end) {
        Ok(range) => write_by_block(&range, buffer),
        Err(failed) => Err(error_of_range(&failed)),
    }
}

/// Reads two decimals, and writes their range by a formatter.
fn format_texts(
    alloc: Global,
    formatter: &NumberFormatter,
    texts: &RangeTexts<'_>,
    start: &[u8],
    end: &[u8],
    buffer: &mut [u8],
) -> Result<usize, FdError>
    ensures { WritesRange formatter.now texts.now result start.now end.now buffer.old buffer.new }
{
    let (start, end) = read_ends(alloc, start, end)?;
    write_range(alloc, formatter, texts, start, end, buffer)
}

/// Reads two decimals, and writes their range by the formatter that C keeps.
pub(crate) fn format_range(
    alloc: Global,
    kept: &FdFormatter,
    start: &[u8],
    end: &[u8],
    buffer: &mut [u8],
) -> Result<usize, FdError>
    ensures { FormatsRange result kept.now start.now end.now buffer.old buffer.new }
{
    match kept.decode_range() {
        Some((formatter, texts)) => format_texts(alloc, &formatter, &texts, start, end, buffer),
        None => Err(FdError::Formatter),
    }
}
