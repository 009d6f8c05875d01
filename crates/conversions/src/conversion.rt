//! Conversions: a text is read, calls are made on its decimal, and the text of the result is written.
ghost use Rattle.std.specs.{Prelude.{◌≡◌, ◌≢◌, Ok, Err, true, IfOk, IfErr, OnOk, OnErr}, Io.KnownBytes.Appends};
ghost use Rattle.decimal_digits.specs.AppendsPrefix.{AppendsPrefix};
ghost use Rattle.conversions.specs.{Conversion.{IsReadBy, ReadingByFails, HasTextBy, WritingFails, HasOutcome, OperationsFail, IsLast, LastFails, is_plain}, Error.error_of_run};

use crate::error::OperationError;
use crate::locale_formatter::{LocaleFormatter, write_number, write_text};
use crate::reader::LocaleReader;
use fixed_decimal::{Call, Decimal, ParseError, RunError, Sink, apply_calls, run};
use std::alloc::Global;

/// How a text is read, what is done to its decimal, and how the result is written: by `read:de`, `shift:1` and
/// `format:fr` the text `1,5` becomes `15`.
pub struct Conversion<'a> {
    /// Reads the text in the form of a locale. `None`: the text is a decimal's own.
    pub reader: Option<LocaleReader<'a>>,
    /// The calls on the decimal, in order.
    pub calls: Vec<Call<'a>>,
    /// Writes the result in the form of a locale. `None`: it is written as its own text.
    pub formatter: Option<LocaleFormatter<'a>>,
}

// Not derived: a derived drop is proved again wherever a value is dropped.
impl<'a> Drop for Conversion<'a> {
    fn drop(self) {
        let Conversion {
            reader,
            calls,
            formatter: _,
        } = self;
        drop(reader);
        drop(calls);
    }
}

#[inline]
fn read(
    alloc: Global,
    reader: &Option<LocaleReader<'_>>,
    text: &[u8],
) -> Result<Decimal, ParseError>
    ensures found { IfOk result (λ v. IsReadBy reader.now text.now (Ok v)) }
    ensures fails_with { IfErr result (ReadingByFails reader.now text.now) }
{
    match reader {
        Some(reader) => reader.read(alloc, text),
        None => Decimal::try_from_utf8(alloc, text),
    }
}

/// Reads a text, and makes calls on its decimal: of `1,5`, read by `de`, `MultiplyPow10(1)` makes 15.
///
/// # Errors
///
/// The first error of the text and the calls, as in [`fixed_decimal::run`].
#[inline]
pub fn converted(
    alloc: Global,
    reader: &Option<LocaleReader<'_>>,
    calls: &[Call<'_>],
    text: &[u8],
) -> Result<Decimal, RunError>
    ensures last { IfOk result (λ v. IsLast reader.now calls.now text.now (Ok v)) }
    ensures fails_with { IfErr result (λ error. LastFails (error_of_run error) reader.now calls.now text.now) }
{
    let mut value = match read(alloc, reader, text) {
        Ok(value) => value,
        Err(error) => return Err(RunError::Start(error)),
    };
    if let Err(error) = apply_calls(alloc, &mut value, calls) {
        return Err(RunError::from(error));
    }
    Ok(value)
}

impl Conversion<'_> {
    #[inline]
    fn is_plain(&self) -> bool
        ensures { result ≡ is_plain self.now }
    {
        self.reader.is_none() && self.formatter.is_none()
    }

    fn write<W: Sink>(
        &self,
        alloc: Global,
        value: Decimal,
        sink: &mut W,
    ) -> Result<(), OperationError>
        ensures written { OnOk result (HasTextBy self.now.formatter value
            (Appends (W.contents sink.old) (W.contents sink.new))) }
        ensures fails_with { IfErr result (λ error. WritingFails error self.now.formatter value) }
        ensures unchanged_on_error { IfErr result (λ error. error ≢ OperationError.Output → sink.new ≡ sink.old) }
        ensures failed { result ≡ Err OperationError.Output → W.has_failed sink.new ≡ true }
        ensures prefix { IfErr result (λ error. error ≡ OperationError.Output
            → HasTextBy self.now.formatter value (AppendsPrefix (W.contents sink.old) (W.contents sink.new))) }
    {
        match &self.formatter {
            Some(LocaleFormatter::Skeleton(formatter)) => write_number(
                alloc, formatter, value, sink,
            ),
            Some(LocaleFormatter::AllDigits(formatter)) => write_text(
                &formatter.format(&value),
                sink,
            ),
            None => write_text(&value, sink),
        }
    }

    fn convert_by_forms<W: Sink>(
        &self,
        alloc: Global,
        text: &[u8],
        sink: &mut W,
    ) -> Result<(), OperationError>
        ensures written { OnOk result (HasOutcome self.now text.now
            (Appends (W.contents sink.old) (W.contents sink.new))) }
        ensures fails_with { IfErr result (λ error. OperationsFail error self.now text.now) }
        ensures unchanged_on_error { IfErr result (λ error. error ≢ OperationError.Output → sink.new ≡ sink.old) }
        ensures failed { result ≡ Err OperationError.Output → W.has_failed sink.new ≡ true }
        ensures prefix { result ≡ Err OperationError.Output → HasOutcome self.now text.now
            (AppendsPrefix (W.contents sink.old) (W.contents sink.new)) }
    {
        match converted(alloc, &self.reader, self.calls.as_slice(), text) {
            Ok(value) => self.write(alloc, value, sink),
            Err(error) => Err(OperationError::from(error)),
        }
    }
}

/// Converts a text, and appends the text of the result to a sink. Without a reader and a formatter this is
/// [`fixed_decimal::run`].
///
/// With a reader of `de` in mode `Strict`, the call `Round(-2, HalfEven, MultiplesOf1)` and a formatter of `en-IN` with
/// `Auto`, `1.234,565` appends `1,234.56`.
///
/// # Errors
///
/// The first error; except for `Output`, the sink is unchanged:
///
/// - `Start`: the text is rejected.
/// - `Operand`, `Overlap`, `Overflow`: a call fails, as in [`fixed_decimal::run`].
/// - `FormatOverflow`: the number that a skeleton shows is beyond the limits.
/// - `Memory`: out of memory.
/// - `Output`: the sink has failed, and it has taken a prefix of the text.
pub fn convert<W: Sink>(
    alloc: Global,
    conversion: &Conversion<'_>,
    text: &[u8],
    sink: &mut W,
) -> Result<(), OperationError>
    ensures written { OnOk result (HasOutcome conversion.now text.now
        (Appends (W.contents sink.old) (W.contents sink.new))) }
    ensures fails_with { IfErr result (λ error. OperationsFail error conversion.now text.now) }
    ensures unchanged_on_error { IfErr result (λ error. error ≢ OperationError.Output → sink.new ≡ sink.old) }
    ensures failed { result ≡ Err OperationError.Output → W.has_failed sink.new ≡ true }
    ensures prefix { result ≡ Err OperationError.Output → HasOutcome conversion.now text.now
        (AppendsPrefix (W.contents sink.old) (W.contents sink.new)) }
{
    if !conversion.is_plain() {
        return conversion.convert_by_forms(alloc, text, sink);
    }
    match run(alloc, text, conversion.calls.as_slice(), sink) {
        Ok(()) => Ok(()),
        Err(error) => Err(OperationError::from(error)),
    }
}
