//! The filter that words name, and its run on an input whose header has the names of fields.
ghost use Rattle.std.specs.Prelude.{◌≡◌, ℕ, List, Option, Ok, Err, true, false, IfOk, IfErr};
ghost use Rattle.decimal_digits.specs.AppendsPrefix.{AppendsPrefix};
ghost use Rattle.cli.specs.{Filter.IsNextRow, Input.bytes_left, Lines.Filters, Targets.have_names, NamedFilter.{is_broken_header, filter_of, ArePlaced, PlacesFail, IsFilter, HeaderFails, FiltersNamed}};

use crate::lines::edits::FieldConversion;
use crate::lines::fields::Field;
use crate::lines::filter::{Filter, Target};
use crate::lines::headers::Header;
use crate::lines::input::LineReader;
use crate::lines::records::is_broken;
use crate::lines::rejection::filter_line;
use crate::lines::rows::{error_of_reading, filter_lines};
use crate::lines::trim::body_bounds;
use crate::program::diagnostics::Diagnostics;
use crate::program::error::{HeaderError, ProgramError};
use crate::words::options::Options;
use crate::words::targets::{NamedField, NamedTarget};
use fixed_decimal::Sink;
use std::alloc::Global;
use std::io::Read;

/// The filter that words name.
#[derive(Drop)]
pub struct NamedFilter<'a> {
    /// The options.
    pub options: Options<'a>,
    /// What is converted of each line.
    pub target: NamedTarget<'a>,
}

impl<'a> Options<'a> {
    /// Returns the filter with these options.
    fn filter(self, target: Target<'a>) -> Filter<'a>
        ensures { result ≡ filter_of self.entry target.entry }
    {
        Filter {
            on_error: self.on_error,
            target,
            has_header: self.has_header,
            has_records: self.has_records,
            trims: self.trims,
        }
    }

    /// Returns whether a header has no fields.
    fn is_broken_header(self, field: &Field<'_>, header: &[u8]) -> bool
        ensures { result ≡ is_broken_header self.entry field.now header.now }
    {
        (self.has_records && is_broken(header)) || field.has_open_quote(header)
    }

    /// Returns the fields that words name in a header.
    fn fields(
        self,
        alloc: Global,
        field: Field<'a>,
        named: &'a [NamedField<'a>],
        header: &'a [u8],
    ) -> Result<Vec<FieldConversion<'a>>, HeaderError>
        ensures ok { IfOk result (λ fields. ArePlaced self.entry field.entry named.now header.now
            fields.items) }
        ensures err { IfErr result (PlacesFail self.entry field.entry named.now header.now) }
    {
        if self.is_broken_header(&field, header) {
            return Err(HeaderError::Quote);
        }
        let body = body_bounds(true, 1, header);
        let record = field.record(&header[body.0..body.1]);
        let Ok(header) = Header::of(alloc, self.trims, field, record) else {
            return Err(HeaderError::Memory);
        };
        header.named_fields(alloc, named)
    }
}

impl<'a> NamedFilter<'a> {
    /// Returns the filter, with a header.
    fn filter(&'a self, alloc: Global, header: &'a [u8]) -> Result<Filter<'a>, HeaderError>
        ensures ok { IfOk result (IsFilter self.now header.now) }
        ensures err { IfErr result (HeaderFails self.now header.now) }
    {
        match &self.target {
            NamedTarget::One(None, conversion) => {
                Ok(self.options.filter(Target::Line(conversion)))
            }
            NamedTarget::One(Some(field), conversion) => {
                let only = FieldConversion {
                    index: field.index,
                    rank: 0,
                    label: None,
                    conversion,
                };
                Ok(self.options.filter(Target::Field(*field, only)))
            }
            NamedTarget::Fields(field, named) => {
                let fields = self
                    .options
                    .fields(alloc, *field, named.as_slice(), header)?;
                Ok(self.options.filter(Target::Fields(*field, fields)))
            }
        }
    }
}

/// Filters the first row of an input, which was read, and the others.
fn filter_rows<R: Read, W: Sink, D: Diagnostics<ProgramError>>(
    alloc: Global,
    filter: &Filter<'_>,
    row: &[u8],
    input: &mut LineReader<R>,
    out: &mut W,
    diagnostics: &mut D,
) -> Result<bool, ProgramError>
    ensures filtered { (before : Option (List ℕ))
        → IsNextRow filter.now (record { before = before; after = bytes_left R.remaining input.old }) row.now
        → Filters AppendsPrefix D.reports filter.now 1 (record {
          input = record { before = before; after = bytes_left R.remaining input.new };
          failure = input.new.1;
          output = record { before = W.contents out.old; after = W.contents out.new };
          diagnostics = record { before = diagnostics.old; after = diagnostics.new };
        }) result }
    ensures silent { result ≡ Ok true → diagnostics.new ≡ diagnostics.old }
    ensures failed { result ≡ Err ProgramError.Output → W.has_failed out.new ≡ true }
{
    let mut ended = ProgramError::Output;
    let Ok(has_text) = filter_line(alloc, filter, 1, row, out, diagnostics, &mut ended) else {
        return Err(ended);
    };
    let Some(number) = filter.lines_of_row(row).checked_add(1) else {
        return Err(ProgramError::Input);
    };
    let have_texts = filter_lines(alloc, filter, number, input, out, diagnostics)?;
    Ok(has_text & have_texts)
}

/// Filters an input as words without names say.
fn filter_by_numbers<R: Read, W: Sink, D: Diagnostics<ProgramError>>(
    alloc: Global,
    named: &NamedFilter<'_>,
    input: &mut LineReader<R>,
    out: &mut W,
    diagnostics: &mut D,
) -> Result<bool, ProgramError>
    requires { have_names named.now.target ≡ false }
    ensures filtered { FiltersNamed D.reports AppendsPrefix named.now (record {
      input = record { before = bytes_left R.remaining input.old; after = bytes_left R.remaining input.new };
      failure = input.new.1;
      output = record { before = W.contents out.old; after = W.contents out.new };
      diagnostics = record { before = diagnostics.old; after = diagnostics.new };
    }) result }
    ensures silent { result ≡ Ok true → diagnostics.new ≡ diagnostics.old }
    ensures failed { result ≡ Err ProgramError.Output → W.has_failed out.new ≡ true }
{
    match named.filter(alloc, &[]) {
        Ok(filter) => filter_lines(alloc, &filter, 1, input, out, diagnostics),
        Err(error) => Err(ProgramError::Header(error)),
    }
}

/// Filters an input as words say. If a field has a name, the first row is read before a filter is made, and written as
/// any header; an input with no row has no header, and no error.
///
/// # Errors
///
/// Those of [`filter_lines`], and `Header`: the header does not have the fields; nothing is written, and the lines
/// after the header are not read.
pub fn filter_input<R: Read, W: Sink, D: Diagnostics<ProgramError>>(
    alloc: Global,
    named: &NamedFilter<'_>,
    input: &mut LineReader<R>,
    out: &mut W,
    diagnostics: &mut D,
) -> Result<bool, ProgramError>
    ensures filtered { FiltersNamed D.reports AppendsPrefix named.now (record {
      input = record { before = bytes_left R.remaining input.old; after = bytes_left R.remaining input.new };
      failure = input.new.1;
      output = record { before = W.contents out.old; after = W.contents out.new };
      diagnostics = record { before = diagnostics.old; after = diagnostics.new };
    }) result }
    ensures silent { result ≡ Ok true → diagnostics.new ≡ diagnostics.old }
    ensures failed { result ≡ Err ProgramError.Output → W.has_failed out.new ≡ true }
{
    if !named.target.has_names() {
        return filter_by_numbers(alloc, named, input, out, diagnostics);
    }
    let mut header = Vec::new(alloc);
    match input.read_row(named.options.has_records, &mut header) {
        Ok(true) => {}
        Ok(false) => return Ok(true),
        Err(kind) => return Err(error_of_reading(1, kind)),
    }
    let row = header.as_slice();
    match named.filter(alloc, row) {
        Ok(filter) => filter_rows(alloc, &filter, row, input, out, diagnostics),
        Err(error) => Err(ProgramError::Header(error)),
    }
}
