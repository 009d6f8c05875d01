//! Conversions: a text is read in one form, changed, and written in another.
ghost use Rattle.std.specs.Prelude.{IfOk, IfErr};
ghost use Rattle.fixed_decimal_c.specs.{Formats.WritesBy, Conversions.{AreForms, FormsFail, Converts, ConvertsDecoded, ConvertsCalls, RunAnswers, Runs}};

use crate::calls::{FdCall, INLINE_CALLS, calls_in, decode_calls};
use crate::error::{FdError, error_of_run};
use crate::format::write_number;
use crate::forms::{FdForms, formatter, reader};
use crate::texts::write_value;
use conversions::{LocaleFormatter, LocaleReader, converted};
use fixed_decimal::{Call, Decimal, RunError, apply_calls};
use std::alloc::Global;

/// How a text is read, and how the result is written; `None` is a decimal's own text.
pub(crate) struct Forms {
    pub(crate) reader: Option<LocaleReader<'static>>,
    pub(crate) formatter: Option<LocaleFormatter<'static>>,
}

// Not derived: a derived drop is proved again wherever a value is dropped.
impl Drop for Forms {
    fn drop(self) {
        let Forms {
            reader,
            formatter: _,
        } = self;
        drop(reader);
    }
}

impl Forms {
    pub(crate) fn decode(alloc: Global, forms: &FdForms, texts: &[u8]) -> Result<Forms, FdError>
        ensures ok { IfOk result (AreForms forms.now texts.now) }
        ensures err { IfErr result (λ error. FormsFail error forms.now texts.now) }
    {
        let reader = match reader(alloc, &forms.read, texts) {
            Ok(reader) => reader,
            Err(error) => return Err(error),
        };
        match formatter(&forms.format, texts) {
            Ok(formatter) => Ok(Forms { reader, formatter }),
            Err(error) => Err(error),
        }
    }

    /// Writes a decimal after `at` calls.
    fn write(
        &self,
        alloc: Global,
        value: Decimal,
        at: usize,
        buffer: &mut [u8],
    ) -> Result<usize, FdError>
        ensures { WritesBy self.now.formatter value at result buffer.old buffer.new }
    {
        match &self.formatter {
            None => write_value(&value, buffer),
            Some(LocaleFormatter::AllDigits(formatter)) => write_value(
                &formatter.format(&value),
                buffer,
            ),
            Some(LocaleFormatter::Skeleton(formatter)) => write_number(
                alloc, formatter, value, at, buffer,
            ),
        }
    }

    /// Converts a text, and writes the result.
    pub(crate) fn convert(
        &self,
        alloc: Global,
        text: &[u8],
        calls: &[Call<'_>],
        buffer: &mut [u8],
    ) -> Result<usize, FdError>
        ensures { Converts self.now calls.now text.now result buffer.old buffer.new }
    {
        match converted(alloc, &self.reader, calls, text) {
            Ok(value) => self.write(alloc, value, calls.len(), buffer),
            Err(error) => Err(error_of_run(error)),
        }
    }

    /// Converts a text, with the calls that C passes.
    fn convert_decoded(
        &self,
        alloc: Global,
        text: &[u8],
        calls: &[FdCall],
        texts: &[u8],
        buffer: &mut [u8],
    ) -> Result<usize, FdError>
        ensures { ConvertsDecoded self.now result text.now calls.now texts.now buffer.old buffer.new }
    {
        let mut short = [Call::TrimStart; INLINE_CALLS];
        let decoded = decode_calls(alloc, calls, texts, &mut short);
        match &decoded {
            Ok(long) => self.convert(alloc, text, calls_in(long, &short, calls.len()), buffer),
            Err(error) => Err(*error),
        }
    }
}

/// Makes calls on the decimal that a text writes, and writes the text of the result.
///
/// It is [`Forms::convert`] without forms, in less time: a value of `Forms` has more than a thousand bytes.
#[inline]
fn run_calls(
    alloc: Global,
    start: &[u8],
    calls: &[Call<'_>],
    buffer: &mut [u8],
) -> Result<usize, FdError>
    ensures { RunAnswers start.now calls.now result buffer.old buffer.new }
{
    let mut value = match Decimal::try_from_utf8(alloc, start) {
        Ok(value) => value,
        Err(error) => return Err(error_of_run(RunError::Start(error))),
    };
    if let Err(error) = apply_calls(alloc, &mut value, calls) {
        return Err(error_of_run(RunError::from(error)));
    }
    write_value(&value, buffer)
}

/// Makes the calls that C passes on the decimal that a text writes, and writes the text of the result.
pub(crate) fn run(
    alloc: Global,
    start: &[u8],
    calls: &[FdCall],
    texts: &[u8],
    buffer: &mut [u8],
) -> Result<usize, FdError>
    ensures { Runs result start.now calls.now texts.now buffer.old buffer.new }
{
    let mut short = [Call::TrimStart; INLINE_CALLS];
    let decoded = decode_calls(alloc, calls, texts, &mut short);
    match &decoded {
        Ok(long) => run_calls(alloc, start, calls_in(long, &short, calls.len()), buffer),
        Err(error) => Err(*error),
    }
}

/// Reads a text in one form, makes the calls that C passes, and writes the text of the result in another form.
pub(crate) fn convert(
    alloc: Global,
    text: &[u8],
    forms: &FdForms,
    calls: &[FdCall],
    texts: &[u8],
    buffer: &mut [u8],
) -> Result<usize, FdError>
    ensures { ConvertsCalls result text.now forms.now calls.now texts.now buffer.old buffer.new }
{
    let decoded = Forms::decode(alloc, forms, texts);
    match &decoded {
        Ok(forms) => forms.convert_decoded(alloc, text, calls, texts, buffer),
        Err(error) => Err(*error),
    }
}
