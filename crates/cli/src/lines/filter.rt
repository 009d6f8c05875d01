//! What a filter writes for a row of an input: a line, or a record of CSV.
ghost use Rattle.std.specs.{Prelude.{◌≡◌, ◌≢◌, ◌<◌, ◌∷◌, ◌++◌, [], Err, Some, None, true, false, IsSome, IfErr, IfSome, OnOk, OnErr}, Io.KnownBytes.Appends};
ghost use Rattle.cli.specs.{Edits.{HasEditedText, EditingFails}, Error.line_error, FieldConversion.{HasLineText, LineFails}, Fields.replaced, Trim.body_bounds, Filter.{IsHeader, body_of, replacement, HasConvertedLine, ConvertingFails, HasText, ConversionFails, HasRowText, RowFails, lines_of_row}};
ghost use Rattle.decimal_digits.specs.AppendsPrefix.{AppendsPrefix};
ghost use Rattle.memchr.specs.Find.{IsFirstByte, is_byte};

use crate::lines::edits::{FieldConversion, edited};
use crate::lines::field_conversion::{convert_trimmed, write_replaced};
use crate::lines::fields::Field;
use crate::lines::records::{is_broken, lines_in};
use crate::lines::trim::body_bounds;
use crate::program::error::FieldLabel;
use crate::words::options::OnError;
use conversions::{Conversion, OperationError, convert};
use fixed_decimal::{Sink, SinkFault};
use memchr::memchr;
use std::alloc::Global;
use std::slice;

/// What is converted of each line, and how.
#[derive(Drop)]
pub enum Target<'a> {
    /// The line.
    Line(&'a Conversion<'a>),
    /// One field, whose delimiter and quotes are those of this one.
    Field(Field<'a>, FieldConversion<'a>),
    /// Fields, in the order of a line. Each has the delimiter and the quotes of this one.
    Fields(Field<'a>, Vec<FieldConversion<'a>>),
}

/// What a filter does to each line of an input.
#[derive(Drop)]
pub struct Filter<'a> {
    /// What it does at a line whose conversion fails.
    pub on_error: OnError,
    /// What is converted of each line, and how.
    pub target: Target<'a>,
    /// Whether the first line is a header, which is copied.
    pub has_header: bool,
    /// Whether a line goes on while a quote is open, as in RFC 4180: the rows that are converted are records of CSV.
    pub has_records: bool,
    /// Whether blanks and tabs around a text, a carriage return at the end of a line and a byte order mark at the start
    /// of the input are not converted. All but blanks and tabs around a whole line are copied.
    pub trims: bool,
}

impl Filter<'_> {
    /// Returns what is written instead of the text of a line that has none.
    pub fn replacement<'a>(&self, line: &'a [u8]) -> &'a [u8]
        ensures { result.now ≡ replacement self.now.on_error line.now }
    {
        match self.on_error {
            OnError::Keep => line,
            OnError::Stop | OnError::Skip => &[],
        }
    }

    #[inline(always)]
    fn is_header(&self, number: u64) -> bool
        ensures yes { result ≡ true → IsHeader self.now number }
        ensures no { result ≡ false → ¬ IsHeader self.now number }
    {
        self.has_header && number == 1
    }

    #[inline(always)]
    fn convert_line<W: Sink>(
        &self,
        alloc: Global,
        conversion: &Conversion<'_>,
        number: u64,
        line: &[u8],
        sink: &mut W,
    ) -> Result<(), OperationError>
        ensures printed { OnOk result
            (HasLineText self.now.trims conversion.now (body_of self.now number line.now)
            (λ text. Appends (W.contents sink.old) (W.contents sink.new)
            (replaced line.now (body_bounds self.now.trims number line.now) text))) }
        ensures fails_with { IfErr result (λ error. error ≢ OperationError.Output →
            LineFails self.now.trims conversion.now (body_of self.now number line.now) error) }
        ensures unchanged_on_error { IfErr result (λ error. error ≢ OperationError.Output → sink.new ≡ sink.old) }
        ensures failed { result ≡ Err OperationError.Output → W.has_failed sink.new ≡ true }
        ensures prefix { result ≡ Err OperationError.Output →
            HasLineText self.now.trims conversion.now (body_of self.now number line.now)
            (λ text. AppendsPrefix (W.contents sink.old) (W.contents sink.new)
            (replaced line.now (body_bounds self.now.trims number line.now) text)) }
    {
        if !self.trims {
            return convert(alloc, conversion, line, sink);
        }
        let body = body_bounds(true, number, line);
        convert_trimmed(alloc, conversion, line, body, sink)
    }

    /// Converts fields. `failed` becomes the field that fails.
    #[inline(never)]
    fn convert_fields<W: Sink>(
        &self,
        alloc: Global,
        base: &Field<'_>,
        fields: &[FieldConversion<'_>],
        number: u64,
        line: &[u8],
        sink: &mut W,
        failed: &mut Option<FieldLabel>,
    ) -> Result<(), OperationError>
        ensures printed { OnOk result
            (HasEditedText self.now.trims base.now (body_of self.now number line.now) fields.now
            (λ text. Appends (W.contents sink.old) (W.contents sink.new)
            (replaced line.now (body_bounds self.now.trims number line.now) text))) }
        ensures fails_with { IfErr result (λ error. error ≢ OperationError.Output →
            EditingFails self.now.trims base.now (body_of self.now number line.now) fields.now
            (line_error failed.new error)) }
        ensures unchanged_on_error { IfErr result (λ error. error ≢ OperationError.Output → sink.new ≡ sink.old) }
        ensures failed { result ≡ Err OperationError.Output → W.has_failed sink.new ≡ true }
        ensures prefix { result ≡ Err OperationError.Output →
            HasEditedText self.now.trims base.now (body_of self.now number line.now) fields.now
            (λ text. AppendsPrefix (W.contents sink.old) (W.contents sink.new)
            (replaced line.now (body_bounds self.now.trims number line.now) text)) }
    {
        let body = body_bounds(self.trims, number, line);
        let bytes = &line[body.0..body.1];
        let text = edited(alloc, self.trims, base, fields, bytes, failed)?;
        write_replaced(line, body, text.as_bytes(), sink)?;
        Ok(())
    }

    #[inline(always)]
    fn convert<W: Sink>(
        &self,
        alloc: Global,
        number: u64,
        line: &[u8],
        sink: &mut W,
        failed: &mut Option<FieldLabel>,
    ) -> Result<(), OperationError>
        requires { failed.now ≡ None }
        ensures printed { OnOk result (HasConvertedLine self.now number line.now
            (Appends (W.contents sink.old) (W.contents sink.new))) }
        ensures fails_with { IfErr result (λ error. error ≢ OperationError.Output
            → ConvertingFails self.now number line.now (line_error failed.new error)) }
        ensures unchanged_on_error { IfErr result (λ error. error ≢ OperationError.Output → sink.new ≡ sink.old) }
        ensures failed { result ≡ Err OperationError.Output → W.has_failed sink.new ≡ true }
        ensures prefix { result ≡ Err OperationError.Output → HasConvertedLine self.now number line.now
            (AppendsPrefix (W.contents sink.old) (W.contents sink.new)) }
    {
        match &self.target {
            Target::Line(conversion) => self.convert_line(alloc, conversion, number, line, sink),
            Target::Field(base, field) => {
                let fields = slice::from_ref(field);
                self.convert_fields(alloc, base, fields, number, line, sink, failed)
            }
            Target::Fields(base, fields) => {
                self.convert_fields(alloc, base, fields.as_slice(), number, line, sink, failed)
            }
        }
    }

    #[inline(always)]
    fn print<W: Sink>(
        &self,
        alloc: Global,
        number: u64,
        line: &[u8],
        sink: &mut W,
        failed: &mut Option<FieldLabel>,
    ) -> Result<(), OperationError>
        requires { failed.now ≡ None }
        ensures printed { OnOk result (HasText self.now number line.now
            (λ text. Appends (W.contents sink.old) (W.contents sink.new) (text ++ 10 ∷ []))) }
        ensures fails_with { IfErr result (λ error. error ≢ OperationError.Output
            → ConversionFails self.now number line.now (line_error failed.new error)) }
        ensures unchanged_on_error { IfErr result (λ error. error ≢ OperationError.Output → sink.new ≡ sink.old) }
        ensures failed { result ≡ Err OperationError.Output → W.has_failed sink.new ≡ true }
        ensures prefix { result ≡ Err OperationError.Output → HasText self.now number line.now
            (λ text. AppendsPrefix (W.contents sink.old) (W.contents sink.new) (text ++ 10 ∷ [])) }
    {
        if self.is_header(number) {
            copy_line(line, sink)?;
            return Ok(());
        }
        self.convert(alloc, number, line, sink, failed)?;
        sink.put_byte(b'\n')?;
        Ok(())
    }

    /// Writes the text of the row that begins at the line with this number, and a line feed. If a field fails, `failed`
    /// becomes its label.
    #[inline(always)]
    pub fn print_row<W: Sink>(
        &self,
        alloc: Global,
        number: u64,
        row: &[u8],
        sink: &mut W,
        failed: &mut Option<FieldLabel>,
    ) -> Result<(), OperationError>
        requires { failed.now ≡ None }
        ensures printed { OnOk result (HasRowText self.now number row.now
            (λ text. Appends (W.contents sink.old) (W.contents sink.new) (text ++ 10 ∷ []))) }
        ensures fails_with { IfErr result (λ error. error ≢ OperationError.Output
            → RowFails self.now number row.now (line_error failed.new error)) }
        ensures unchanged_on_error { IfErr result (λ error. error ≢ OperationError.Output → sink.new ≡ sink.old) }
        ensures failed { result ≡ Err OperationError.Output → W.has_failed sink.new ≡ true }
        ensures prefix { result ≡ Err OperationError.Output → HasRowText self.now number row.now
            (λ text. AppendsPrefix (W.contents sink.old) (W.contents sink.new) (text ++ 10 ∷ [])) }
    {
        if self.has_records && is_broken(row) {
            return Err(OperationError::Quote);
        }
        self.print(alloc, number, row, sink, failed)
    }

    /// Returns where the first line of a block ends. None: it is not whole in it, or it may be a part of a record.
    #[inline(always)]
    pub fn end_in_block(&self, block: &[u8]) -> Option<usize>
        ensures end { self.now.has_records ≡ false → IsFirstByte (is_byte 10) block.now result }
        ensures is_line { IsSome result → self.now.has_records ≡ false }
    {
        if self.has_records {
            return None;
        }
        memchr(b'\n', block)
    }

    /// Returns the number of lines of a row.
    pub fn lines_of_row(&self, row: &[u8]) -> u64
        ensures value { result ≡ lines_of_row self.now row.now }
        ensures some { 0 < result }
    {
        if self.has_records { lines_in(row) } else { 1 }
    }
}

/// Writes a line and a line feed.
pub fn copy_line<W: Sink>(line: &[u8], sink: &mut W) -> Result<(), SinkFault>
    ensures ok { OnOk result (Appends (W.contents sink.old) (W.contents sink.new) (line.now ++ 10 ∷ [])) }
    ensures err { OnErr result (AppendsPrefix (W.contents sink.old) (W.contents sink.new) (line.now ++ 10 ∷ [])) }
    ensures failed { OnErr result (W.has_failed sink.new ≡ true) }
{
    sink.put_bytes(line)?;
    sink.put_byte(b'\n')
}
