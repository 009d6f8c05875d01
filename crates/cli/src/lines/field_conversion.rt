//! The conversion of a field, and of a whole line that is trimmed.
ghost use Rattle.std.specs.{Prelude.{◌≡◌, ◌≢◌, ◌≤◌, ◌++◌, length, Ok, Err, true, IfOk, IfErr, OnOk, OnErr}, Io.KnownBytes.Appends};
ghost use Rattle.decimal_digits.specs.AppendsPrefix.{AppendsPrefix};
ghost use Rattle.cli.specs.{Fields.{within, replaced, bytes_of}, FieldConversion.{IsTextResult, is_trimmed, IsFieldResult, HasFieldText, HasLineText, LineFails}, Trim.with_text_of};

use crate::lines::fields::Field;
use crate::lines::trim::{text_of, trimmed_bounds};
use conversions::{Conversion, OperationError, convert};
use fixed_decimal::{Sink, SinkFault, TextBuf};
use std::alloc::Global;

/// Returns the error of a conversion to a sink in memory, which fails only if out of memory.
fn error_in_memory(error: OperationError) -> OperationError
    ensures output { error ≡ OperationError.Output → result ≡ OperationError.Memory }
    ensures other { error ≢ OperationError.Output → result ≡ error }
    ensures no_output { result ≢ OperationError.Output }
{
    match error {
        OperationError::Output => OperationError::Memory,
        error => error,
    }
}

/// Writes bytes with others between these bounds.
pub fn write_replaced<W: Sink>(
    bytes: &[u8],
    bounds: (usize, usize),
    others: &[u8],
    sink: &mut W,
) -> Result<(), SinkFault>
    requires ordered { bounds.0 ≤ bounds.1 }
    requires inside { bounds.1 ≤ length bytes.now }
    ensures ok { OnOk result (Appends (W.contents sink.old) (W.contents sink.new)
        (replaced bytes.now bounds others.now)) }
    ensures err { OnErr result (AppendsPrefix (W.contents sink.old) (W.contents sink.new)
        (replaced bytes.now bounds others.now)) }
    ensures failed { OnErr result (W.has_failed sink.new ≡ true) }
{
    if bounds.0 == 0 && bounds.1 == bytes.len() {
        return sink.put_bytes(others);
    }
    sink.put_bytes(&bytes[..bounds.0])?;
    sink.put_bytes(others)?;
    sink.put_bytes(&bytes[bounds.1..])
}

#[inline(always)]
fn convert_in_memory(
    alloc: Global,
    conversion: &Conversion<'_>,
    text: &[u8],
) -> Result<TextBuf, OperationError>
    ensures ok { IfOk result (λ written. IsTextResult conversion.now text.now (Ok written.0)) }
    ensures err { IfErr result (λ error. error ≢ OperationError.Memory
        → IsTextResult conversion.now text.now (Err error)) }
    ensures no_output { IfErr result (λ error. error ≢ OperationError.Output) }
{
    let mut written = TextBuf::new(alloc);
    match convert(alloc, conversion, text, &mut written) {
        Ok(()) => Ok(written),
        Err(error) => Err(error_in_memory(error)),
    }
}

/// Returns the bytes with another text between the blanks and tabs around their text.
#[inline(never)]
fn with_text_between(alloc: Global, bytes: &[u8], text: &[u8]) -> Result<TextBuf, OperationError>
    ensures ok { IfOk result (λ written. written.0 ≡ with_text_of true bytes.now text.now) }
    ensures err { IfErr result (λ error. error ≡ OperationError.Memory) }
{
    let mut written = TextBuf::new(alloc);
    match write_replaced(bytes, trimmed_bounds(bytes), text, &mut written) {
        Ok(()) => Ok(written),
        Err(_) => Err(OperationError::Memory),
    }
}

#[inline]
fn is_trimmed(trims: bool, field: &Field<'_>, bytes: &[u8]) -> bool
    ensures { result ≡ is_trimmed trims field.now bytes.now }
{
    trims && !field.is_quoted(bytes)
}

/// Converts the text of a field.
#[inline(always)]
fn converted(
    alloc: Global,
    trims: bool,
    conversion: &Conversion<'_>,
    field: &Field<'_>,
    bytes: &[u8],
) -> Result<TextBuf, OperationError>
    ensures ok { IfOk result (λ text. IsFieldResult trims field.now conversion.now bytes.now (Ok text.0)) }
    ensures err { IfErr result (λ error. error ≢ OperationError.Memory →
        IsFieldResult trims field.now conversion.now bytes.now (Err error)) }
    ensures no_output { IfErr result (λ error. error ≢ OperationError.Output) }
{
    let text = match field.text(alloc, bytes) {
        Ok(Some(text)) => text,
        Ok(None) => return Err(OperationError::Quote),
        Err(_) => return Err(OperationError::Memory),
    };
    let is_trimmed = is_trimmed(trims, field, bytes);
    let written = convert_in_memory(alloc, conversion, text_of(is_trimmed, text.as_slice()))?;
    if is_trimmed {
        return with_text_between(alloc, text.as_slice(), written.as_bytes());
    }
    Ok(written)
}

/// Appends the conversion of the text of a field, as the bytes of a field.
#[inline(always)]
pub fn append_converted(
    alloc: Global,
    trims: bool,
    conversion: &Conversion<'_>,
    field: &Field<'_>,
    bytes: &[u8],
    line: &mut TextBuf,
) -> Result<(), OperationError>
    ensures ok { OnOk result (HasFieldText trims field.now conversion.now bytes.now
        (λ text. line.new.0 ≡ line.old.0 ++ bytes_of field.now text)) }
    ensures err { IfErr result (λ error. error ≢ OperationError.Memory →
        IsFieldResult trims field.now conversion.now bytes.now (Err error)) }
    ensures no_output { IfErr result (λ error. error ≢ OperationError.Output) }
{
    if !trims && !field.is_csv {
        return match convert(alloc, conversion, bytes, line) {
            Ok(()) => Ok(()),
            Err(error) => Err(error_in_memory(error)),
        };
    }
    let text = converted(alloc, trims, conversion, field, bytes)?;
    match field.write(text.as_bytes(), line) {
        Ok(()) => Ok(()),
        Err(_) => Err(OperationError::Memory),
    }
}

/// Converts what a line has between these bounds, without the blanks and tabs around it, and writes the line with the
/// result instead.
#[inline(never)]
pub fn convert_trimmed<W: Sink>(
    alloc: Global,
    conversion: &Conversion<'_>,
    line: &[u8],
    body: (usize, usize),
    sink: &mut W,
) -> Result<(), OperationError>
    requires ordered { body.0 ≤ body.1 }
    requires inside { body.1 ≤ length line.now }
    ensures printed { OnOk result (HasLineText true conversion.now (within line.now body)
        (λ text. Appends (W.contents sink.old) (W.contents sink.new) (replaced line.now body text))) }
    ensures fails_with { IfErr result (λ error. error ≢ OperationError.Output
        → LineFails true conversion.now (within line.now body) error) }
    ensures unchanged_on_error { IfErr result (λ error. error ≢ OperationError.Output → sink.new ≡ sink.old) }
    ensures failed { result ≡ Err OperationError.Output → W.has_failed sink.new ≡ true }
    ensures prefix { result ≡ Err OperationError.Output → HasLineText true conversion.now (within line.now body)
        (λ text. AppendsPrefix (W.contents sink.old) (W.contents sink.new) (replaced line.now body text)) }
{
    let mut text = TextBuf::new(alloc);
    let bytes = text_of(true, &line[body.0..body.1]);
    match convert(alloc, conversion, bytes, &mut text) {
        Ok(()) => {}
        Err(error) => return Err(error_in_memory(error)),
    }
    write_replaced(line, body, text.as_bytes(), sink)?;
    Ok(())
}
