//! A column: each line of a text is converted, in one call.
ghost use Rattle.std.specs.Prelude.{◌≡◌, ◌+◌, ◌<◌, ◌≤◌, ◌∷◌, length, take, drop, slice_set, IfOk, IfErr, OnOk, OnErr};
ghost use Rattle.conversions.specs.Lines.{lines_of};
ghost use Rattle.fixed_decimal_c.specs.{KeptFormatters.FormatsColumn, Lines.{IsLineWritten, LineStops, ConvertsLines, ConvertsColumnBy, ConvertsColumn}};

use crate::answer::{FdColumn, NO_LINE, Progress, encode_column};
use crate::calls::{FdCall, INLINE_CALLS, calls_in, decode_calls};
use crate::convert::Forms;
use crate::error::FdError;
use crate::formatter::FdFormatter;
use crate::forms::FdForms;
use conversions::LocaleFormatter;
use fixed_decimal::Call;
use memchr::memchr;
use std::alloc::Global;

/// The first line of some bytes.
#[derive(Clone, Copy)]
struct FirstLine {
    /// The number of its bytes.
    len: usize,
    /// The number of its bytes and its line feed, if it has one.
    consumed: usize,
}

fn first_line(bytes: &[u8]) -> FirstLine
    requires { 0 < length bytes.now }
    ensures line { lines_of bytes.now ≡ take result.len bytes.now ∷ lines_of (drop result.consumed bytes.now) }
    ensures at_most { result.len ≤ result.consumed }
    ensures some { 0 < result.consumed }
    ensures inside { result.consumed ≤ length bytes.now }
{
    match memchr(b'\n', bytes) {
        Some(len) => FirstLine {
            len,
            consumed: len + 1,
        },
        None => FirstLine {
            len: bytes.len(),
            consumed: bytes.len(),
        },
    }
}

/// The output of a line.
#[derive(Clone, Copy)]
struct LineOutput {
    /// The number of its bytes.
    count: usize,
    /// The number of lines that have no text: 0 or 1.
    failed: usize,
}

/// Writes the line feed after the text of a line, if it fits.
fn end_line(count: usize, failed: usize, buffer: &mut [u8]) -> Result<LineOutput, FdError>
    requires { count ≤ length buffer.old }
    ensures ok { OnOk result ((count < length buffer.old) × (buffer.new ≡ slice_set buffer.old count 10)) }
    ensures output { IfOk result (λ out. (out.count ≡ count + 1) × (out.failed ≡ failed)) }
    ensures err { IfErr result (λ error. error ≡ FdError.BufferTooSmall (count + 1)) }
    ensures full { OnErr result (length buffer.old ≤ count) }
    ensures unchanged { OnErr result (buffer.new ≡ buffer.old) }
{
    if count >= buffer.len() {
        return Err(FdError::BufferTooSmall { needed: count + 1 });
    }
    buffer[count] = b'\n';
    Ok(LineOutput {
        count: count + 1,
        failed,
    })
}

impl Forms {
    /// Converts a line, and writes its text and a line feed. With `skip` a line that fails is an empty line.
    fn convert_line(
        &self,
        alloc: Global,
        line: &[u8],
        calls: &[Call<'_>],
        skip: bool,
        buffer: &mut [u8],
    ) -> Result<LineOutput, FdError>
        ensures ok { IfOk result (λ out.
            IsLineWritten self.now calls.now skip line.now out.failed out.count buffer.old buffer.new) }
        ensures at_most { IfOk result (λ out. out.failed ≤ 1) }
        ensures err { IfErr result (LineStops self.now calls.now skip line.now buffer.old) }
        ensures unchanged { OnErr result (buffer.new ≡ buffer.old) }
    {
        let room = buffer.len().saturating_sub(1);
        let error = match self.convert(alloc, line, calls, &mut buffer[..room]) {
            Ok(count) => return end_line(count, 0, buffer),
            Err(error) => error,
        };
        if !skip {
            return Err(error);
        }
        if !error.is_of_line() {
            return Err(error);
        }
        end_line(0, 1, buffer)
    }

    /// Converts lines up to the one that ends the column.
    fn convert_lines(
        &self,
        alloc: Global,
        input: &[u8],
        calls: &[Call<'_>],
        skip: bool,
        buffer: &mut [u8],
    ) -> (Progress, Result<(), FdError>)
        ensures { ConvertsLines self.now calls.now skip input.now result.0 result.1 buffer.old buffer.new }
    {
        let mut done = NO_LINE;
        while done.read < input.len() {
            let rest = &input[done.read..];
            let first = first_line(rest);
            let line = &rest[..first.len];
            let room = &mut buffer[done.written..];
            match self.convert_line(alloc, line, calls, skip, room) {
                Ok(output) => {
                    done.written += output.count;
                    done.failed += output.failed;
                }
                Err(error) => return (done, Err(error)),
            }
            done.lines += 1;
            done.read += first.consumed;
        }
        (done, Ok(()))
    }

    /// Converts each line, with the calls that C passes.
    fn convert_column(
        &self,
        alloc: Global,
        input: &[u8],
        skip: bool,
        calls: &[FdCall],
        texts: &[u8],
        buffer: &mut [u8],
    ) -> FdColumn
        ensures { ConvertsColumnBy self.now result input.now skip calls.now texts.now buffer.old buffer.new }
    {
        let mut short = [Call::TrimStart; INLINE_CALLS];
        let decoded = decode_calls(alloc, calls, texts, &mut short);
        match &decoded {
            Ok(long) => {
                let calls = calls_in(long, &short, calls.len());
                let (done, result) = self.convert_lines(alloc, input, calls, skip, buffer);
                encode_column(done, result)
            }
            Err(error) => encode_column(NO_LINE, Err(*error)),
        }
    }
}

/// Formats each line by the formatter that C keeps.
pub(crate) fn format_column(
    alloc: Global,
    kept: &FdFormatter,
    input: &[u8],
    skip: bool,
    buffer: &mut [u8],
) -> FdColumn
    ensures { FormatsColumn result kept.now input.now skip buffer.old buffer.new }
{
    match kept.decode() {
        Some(formatter) => {
            let forms = Forms {
                reader: None,
                formatter: Some(LocaleFormatter::Skeleton(formatter)),
            };
            let (done, result) = forms.convert_lines(alloc, input, &[], skip, buffer);
            encode_column(done, result)
        }
        None => encode_column(NO_LINE, Err(FdError::Formatter)),
    }
}

/// Converts each line by the forms and the calls that C passes.
pub(crate) fn convert_column(
    alloc: Global,
    input: &[u8],
    skip: bool,
    forms: &FdForms,
    calls: &[FdCall],
    texts: &[u8],
    buffer: &mut [u8],
) -> FdColumn
    ensures { ConvertsColumn result input.now skip forms.now calls.now texts.now buffer.old buffer.new }
{
    let decoded = Forms::decode(alloc, forms, texts);
    match &decoded {
        Ok(forms) => forms.convert_column(alloc, input, skip, calls, texts, buffer),
        Err(error) => encode_column(NO_LINE, Err(*error)),
    }
}
