//! The fields of a line that are replaced by their conversions.
ghost use Rattle.std.specs.Prelude.{◌≡◌, ◌≢◌, ◌<◌, ◌++◌, List, ℕ, true, false, Ok, None, IfOk, IfErr};
ghost use Rattle.cli.specs.{Edits.{IsEdit, EditFails, IsEditedLine, EditingFails, first_error}, Error.line_error, Fields.{within, bytes_of, IsCursor}};

use crate::lines::field_conversion::append_converted;
use crate::lines::fields::{Cursor, Field};
use crate::program::error::FieldLabel;
use conversions::{Conversion, OperationError};
use fixed_decimal::{Sink, TextBuf};
use std::alloc::Global;

/// A field of each line, and its conversion.
#[derive(Drop)]
pub struct FieldConversion<'a> {
    /// Its 0-based index.
    pub index: usize,
    /// The number of fields that words name before it.
    pub rank: usize,
    /// How an error names it. None: it names no field.
    pub label: Option<FieldLabel>,
    /// Its conversion.
    pub conversion: &'a Conversion<'a>,
}

/// The error of a field.
#[derive(Clone, Copy)]
struct FieldError {
    /// The number of fields that words name before it.
    rank: usize,
    /// How the error names it.
    label: Option<FieldLabel>,
    error: OperationError,
}

/// Returns the error of the field that words name first.
fn first_error(found: Option<FieldError>, error: FieldError) -> FieldError
    ensures { result ≡ first_error found error }
{
    match found {
        Some(found) if found.rank <= error.rank => found,
        _ => error,
    }
}

/// Returns the bytes from a start up to an end, as far as there are any.
#[inline]
pub fn within(bytes: &[u8], bounds: (usize, usize)) -> &[u8]
    ensures { result.now ≡ within bytes.now bounds }
{
    let rest = &bytes[bounds.0.min(bytes.len())..];
    let len = bounds.1.saturating_sub(bounds.0);
    &rest[..len.min(rest.len())]
}

impl FieldConversion<'_> {
    /// Appends the bytes of a line from `copied` up to the field, and its conversion. Returns the end of the field.
    #[inline(always)]
    fn append(
        &self,
        alloc: Global,
        trims: bool,
        line: &[u8],
        copied: usize,
        base: &Field<'_>,
        cursor: &mut Cursor,
        text: &mut TextBuf,
    ) -> Result<usize, OperationError>
        requires { IsCursor base.now line.now cursor.now }
        ensures ok { IfOk result (λ end. (start : ℕ) × (bytes : List ℕ)
            × IsEdit trims base.now line.now self.now (start, end) bytes
            × (text.new.0 ≡ (text.old.0 ++ within line.now (copied, start)) ++ bytes_of base.now bytes)) }
        ensures err { IfErr result (EditFails trims base.now line.now self.now) }
        ensures no_output { IfErr result (λ error. error ≢ OperationError.Output) }
        ensures cursor { IsCursor base.now line.now cursor.new }
    {
        let bounds = base.locate(self.index, line, cursor)?;
        if let Err(_) = text.put_bytes(within(line, (copied, bounds.0))) {
            return Err(OperationError::Memory);
        }
        let bytes = &line[bounds.0..bounds.1];
        append_converted(alloc, trims, self.conversion, base, bytes, text)?;
        Ok(bounds.1)
    }
}

/// Returns a line with the conversion of each of these fields instead of it. If some fail, it returns the error of the
/// one that words name first, and `failed` becomes its label.
#[inline(always)]
pub fn edited(
    alloc: Global,
    trims: bool,
    base: &Field<'_>,
    fields: &[FieldConversion<'_>],
    line: &[u8],
    failed: &mut Option<FieldLabel>,
) -> Result<TextBuf, OperationError>
    ensures ok { IfOk result (λ text. IsEditedLine trims base.now line.now fields.now (Ok text.0)) }
    ensures err { IfErr result (λ error. EditingFails trims base.now line.now fields.now
        (line_error failed.new error)) }
    ensures no_output { IfErr result (λ error. error ≢ OperationError.Output) }
{
    let mut cursor = base.first(line);
    let mut text = TextBuf::new(alloc);
    let mut copied = 0;
    let mut found = None;
    for field in fields {
        match field.append(alloc, trims, line, copied, base, &mut cursor, &mut text) {
            Ok(end) => copied = end,
            Err(error) => {
                found = Some(first_error(
                    found,
                    FieldError {
                        rank: field.rank,
                        label: field.label,
                        error,
                    },
                ));
            }
        }
    }
    if let Some(first) = found {
        *failed = first.label;
        return Err(first.error);
    }
    match text.put_bytes(within(line, (copied, line.len()))) {
        Ok(()) => Ok(text),
        Err(_) => Err(OperationError::Memory),
    }
}
