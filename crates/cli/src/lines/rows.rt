//! The filter of all rows of an input.
ghost use Rattle.std.specs.{Prelude.{◌≡◌, ◌<◌, Ok, Err, Some, true, IfErr, IfOk, IfSome, OnOk}, Io.KnownBytes.IsAtEnd};
ghost use Rattle.decimal_digits.specs.AppendsPrefix.{AppendsPrefix};
ghost use Rattle.cli.specs.{Filter.{IsErrorOfReading, with_error, FiltersNext}, Input.bytes_left, Lines.{Filters, IsConsumed}};

use crate::lines::filter::Filter;
use crate::lines::input::LineReader;
use crate::lines::rejection::{Ended, filter_line};
use crate::program::diagnostics::Diagnostics;
use crate::program::error::ProgramError;
use fixed_decimal::Sink;
use std::alloc::Global;
use std::io::{ErrorKind, Read};

/// A row of an input that was filtered: a line, or a record of CSV.
#[derive(Clone, Copy)]
pub struct FilteredRow {
    /// Whether it has a text.
    pub has_text: bool,
    /// The number of its lines.
    pub lines: u64,
}

pub fn error_of_reading(line: u64, kind: ErrorKind) -> ProgramError
    ensures { IsErrorOfReading line (Some kind) result }
{
    if kind == ErrorKind::OutOfMemory {
        ProgramError::LongLine { line }
    } else {
        ProgramError::Input
    }
}

/// Filters the next row. None: there is none. A record, or a line that is not whole in the block of the reader, is
/// copied into `copy` first.
#[inline]
fn filter_next<R: Read, W: Sink, D: Diagnostics<ProgramError>>(
    alloc: Global,
    filter: &Filter<'_>,
    number: u64,
    copy: &mut Vec<u8>,
    input: &mut LineReader<R>,
    out: &mut W,
    diagnostics: &mut D,
    ended: &mut ProgramError,
) -> Result<Option<FilteredRow>, Ended>
    ensures filtered { FiltersNext D.reports filter.now number (record {
      input = record { before = bytes_left R.remaining input.old; after = bytes_left R.remaining input.new };
      failure = input.new.1;
      output = record { before = W.contents out.old; after = W.contents out.new };
      diagnostics = record { before = diagnostics.old; after = diagnostics.new };
    }) (with_error ended.new result) }
    ensures some_lines { IfOk result (λ next. IfSome next (λ row. 0 < row.lines)) }
    ensures failed { with_error ended.new result ≡ Err ProgramError.Output → W.has_failed out.new ≡ true }
{
    let Some(end) = filter.end_in_block(input.block()) else {
        return match input.read_row(filter.has_records, copy) {
            Ok(true) => {
                let row = copy.as_slice();
                let Ok(has_text) = filter_line(alloc, filter, number, row, out, diagnostics, ended)
                else {
                    return Err(Ended);
                };
                Ok(Some(FilteredRow {
                    has_text,
                    lines: filter.lines_of_row(row),
                }))
            }
            Ok(false) => Ok(None),
            Err(kind) => {
                *ended = error_of_reading(number, kind);
                Err(Ended)
            }
        };
    };
    let filtered = filter_line(
        alloc,
        filter,
        number,
        &input.block()[..end],
        out,
        diagnostics,
        ended,
    );
    input.consume(end + 1);
    Ok(Some(FilteredRow {
        has_text: filtered?,
        lines: 1,
    }))
}

/// Makes the calls on each line of the input, and returns whether each line has a text.
///
/// The texts are written to `out`, each with a line feed. `first` is the number of the first line that is read. A line
/// is all bytes up to a line feed. If there are bytes after the last line feed, these are a line too. If the filter has
/// records, each record is handled as one line, whose number is that of its first line. A header is copied. With `Skip`
/// and `Keep` the error of a line is reported, and an empty line (`Skip`) or the line itself (`Keep`) is written.
///
/// # Errors
///
/// - `Line`: with `Stop`, the conversion of a line fails; with `Skip` or `Keep`, it is out of memory.
/// - `LongLine`: the reader has failed, out of memory for the line.
/// - `Input`: the reader has failed otherwise, or there are more lines than a `u64` counts.
/// - `Output`: the sink failed, after a prefix of the texts of some lines.
///
/// After any error but `Output`, the texts of all lines before the error are in `out`.
pub fn filter_lines<R: Read, W: Sink, D: Diagnostics<ProgramError>>(
    alloc: Global,
    filter: &Filter<'_>,
    first: u64,
    input: &mut LineReader<R>,
    out: &mut W,
    diagnostics: &mut D,
) -> Result<bool, ProgramError>
    ensures filtered { Filters AppendsPrefix D.reports filter.now first (record {
      input = record { before = bytes_left R.remaining input.old; after = bytes_left R.remaining input.new };
      failure = input.new.1;
      output = record { before = W.contents out.old; after = W.contents out.new };
      diagnostics = record { before = diagnostics.old; after = diagnostics.new };
    }) result }
    ensures silent { result ≡ Ok true → diagnostics.new ≡ diagnostics.old }
    ensures failed { result ≡ Err ProgramError.Output → W.has_failed out.new ≡ true }
    ensures consumed { IfErr result (IsConsumed filter.now first
        (record { before = bytes_left R.remaining input.old; after = bytes_left R.remaining input.new })) }
    ensures at_end { OnOk result (IfSome (bytes_left R.remaining input.old)
        (λ _. IsAtEnd (bytes_left R.remaining input.new))) }
{
    let mut copy = Vec::new(alloc);
    let mut have_texts = true;
    let mut number = first;
    let mut ended = ProgramError::Output;
    'rows: loop {
        let Ok(next) = filter_next(
            alloc,
            filter,
            number,
            &mut copy,
            input,
            out,
            diagnostics,
            &mut ended,
        ) else {
            return Err(ended);
        };
        let Some(row) = next else {
            return Ok(have_texts);
        };
        have_texts = have_texts & row.has_text;
        let Some(after) = number.checked_add(row.lines) else {
            return Err(ProgramError::Input);
        };
        number = after;
    }
}
