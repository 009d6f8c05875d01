//! Numbers as a locale writes them by options or a number skeleton, read.
ghost use Rattle.std.specs.Prelude.{◌≡◌, IfOk, IfErr};
ghost use Rattle.number_format.specs.NumberReading.{CanRead, number_reader_of};
ghost use Rattle.fixed_decimal_c.specs.{KeptFormatters.ReadsKept, NumberReadings.{error_of_reader, HasNoReader, parse_mode, WritesRead, ReadsText}};

use crate::error::{FdError, error_of_parsing};
use crate::formatter::FdFormatter;
use crate::texts::write_value;
use fixed_decimal::{Decimal, ParseError};
use number_format::{NumberFormatter, NumberReader, NumberReaderError, ParseMode};
use std::alloc::Global;

fn error_of_reader(error: NumberReaderError) -> FdError
    ensures { result ≡ error_of_reader error }
{
    match error {
        NumberReaderError::Memory => FdError::Memory,
        NumberReaderError::Notation
        | NumberReaderError::NoNumber(_)
        | NumberReaderError::Scale
        | NumberReaderError::Symbols
        | NumberReaderError::Affixes(_, _) => FdError::UnreadableFormat,
    }
}

pub(crate) fn number_reader(
    alloc: Global,
    formatter: &NumberFormatter,
) -> Result<NumberReader, FdError>
    ensures ok { IfOk result (λ r. (r ≡ number_reader_of formatter.now) × CanRead formatter.now) }
    ensures err { IfErr result (λ error. HasNoReader error formatter.now) }
{
    match formatter.reader(alloc) {
        Ok(reader) => Ok(reader),
        Err(error) => Err(error_of_reader(error)),
    }
}

fn parse_mode(lenient: bool) -> ParseMode
    ensures { result ≡ parse_mode lenient }
{
    if lenient {
        ParseMode::Lenient
    } else {
        ParseMode::Strict
    }
}

/// Writes a decimal that was read.
fn write_read(read: Result<Decimal, ParseError>, buffer: &mut [u8]) -> Result<usize, FdError>
    ensures { WritesRead read result buffer.old buffer.new }
{
    match read {
        Ok(value) => write_value(&value, buffer),
        Err(error) => Err(error_of_parsing(error, 0)),
    }
}

/// Reads a text as a formatter writes it, and writes the decimal.
fn read_text(
    alloc: Global,
    formatter: &NumberFormatter,
    text: &[u8],
    lenient: bool,
    buffer: &mut [u8],
) -> Result<usize, FdError>
    ensures { ReadsText formatter.now lenient result text.now buffer.old buffer.new }
{
    let reader = number_reader(alloc, formatter)?;
    let read = reader.read_utf8(alloc, parse_mode(lenient), text);
    write_read(read, buffer)
}

/// Reads a text as the formatter that C keeps writes it, and writes the decimal.
pub(crate) fn read_number(
    alloc: Global,
    kept: &FdFormatter,
    text: &[u8],
    lenient: bool,
    buffer: &mut [u8],
) -> Result<usize, FdError>
    ensures { ReadsKept result kept.now text.now lenient buffer.old buffer.new }
{
    match kept.decode() {
        Some(formatter) => read_text(alloc, &formatter, text, lenient, buffer),
        None => Err(FdError::Formatter),
    }
}
