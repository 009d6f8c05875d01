//! What a filter does at a row that fails.
ghost use Rattle.std.specs.Prelude.{◌≡◌, ◌≢◌, Err, true};
ghost use Rattle.cli.specs.Filter.{RowFails, with_error, FiltersLine};

use crate::lines::filter::{Filter, copy_line};
use crate::program::diagnostics::Diagnostics;
use crate::program::error::{LineError, ProgramError};
use crate::words::options::OnError;
use conversions::OperationError;
use fixed_decimal::Sink;
use std::alloc::Global;

/// A filter ends. Its error is in a place of the caller, so that no row carries one.
#[derive(Clone, Copy)]
pub struct Ended;

/// Reports the error of a row, and writes an empty line or the row itself; or ends.
#[inline(never)]
fn reject<W: Sink, D: Diagnostics<ProgramError>>(
    filter: &Filter<'_>,
    number: u64,
    line: &[u8],
    error: LineError,
    out: &mut W,
    diagnostics: &mut D,
    ended: &mut ProgramError,
) -> Result<bool, Ended>
    requires fails { RowFails filter.now number line.now error }
    requires other { error.error ≢ OperationError.Output }
    ensures filtered { FiltersLine D.reports filter.now number line.now
        (record { before = W.contents out.old; after = W.contents out.new })
        (record { before = diagnostics.old; after = diagnostics.new }) (with_error ended.new result) }
    ensures failed { with_error ended.new result ≡ Err ProgramError.Output → W.has_failed out.new ≡ true }
{
    let is_rejected = error.error.status() == 1;
    let error = ProgramError::Line {
        line: number,
        error,
    };
    if filter.on_error == OnError::Stop || !is_rejected {
        *ended = error;
        return Err(Ended);
    }
    diagnostics.report(&error);
    match copy_line(filter.replacement(line), out) {
        Ok(()) => Ok(false),
        Err(_) => {
            *ended = ProgramError::Output;
            Err(Ended)
        }
    }
}

/// Writes the text of a line and a line feed, and returns whether it has a text. With `Skip` and `Keep` an error of the
/// conversion is reported, and an empty line or the line itself is written.
#[inline(always)]
pub fn filter_line<W: Sink, D: Diagnostics<ProgramError>>(
    alloc: Global,
    filter: &Filter<'_>,
    number: u64,
    line: &[u8],
    out: &mut W,
    diagnostics: &mut D,
    ended: &mut ProgramError,
) -> Result<bool, Ended>
    ensures filtered { FiltersLine D.reports filter.now number line.now
        (record { before = W.contents out.old; after = W.contents out.new })
        (record { before = diagnostics.old; after = diagnostics.new }) (with_error ended.new result) }
    ensures failed { with_error ended.new result ≡ Err ProgramError.Output → W.has_failed out.new ≡ true }
{
    let mut field = None;
    match filter.print_row(alloc, number, line, out, &mut field) {
        Ok(()) => Ok(true),
        Err(OperationError::Output) => {
            *ended = ProgramError::Output;
            Err(Ended)
        }
        Err(error) => {
            let error = LineError { field, error };
            reject(filter, number, line, error, out, diagnostics, ended)
        }
    }
}
