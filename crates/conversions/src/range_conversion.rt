//! Conversions of ranges: two texts are read, the same calls are made on both decimals, and the text of the range of
//! both results is written.
ghost use Rattle.std.specs.{Prelude.{◌≡◌, ◌≢◌, Err, true, IfErr, OnOk}, Io.KnownBytes.Appends};
ghost use Rattle.decimal_digits.specs.AppendsPrefix.{AppendsPrefix};
ghost use Rattle.conversions.specs.RangeConversion.{HasRangeOutcome, RangeFails, IsErrorOfEnd};

use crate::conversion::converted;
use crate::error::{OperationError, RangeError};
use crate::range_formatter::RangeFormatter;
use crate::reader::LocaleReader;
use fixed_decimal::{Call, Sink};
use std::alloc::Global;

/// How the texts of a range are read, what is done to both decimals, and how the range of the results is written.
pub struct RangeConversion<'a> {
    /// Reads both texts in the form of a locale. `None`: they are decimals' own.
    pub reader: Option<LocaleReader<'a>>,
    /// The calls on each of both decimals, in order.
    pub calls: Vec<Call<'a>>,
    /// Writes the range in the form of a locale.
    pub formatter: RangeFormatter<'a>,
}

// Not derived: a derived drop is proved again wherever a value is dropped.
impl<'a> Drop for RangeConversion<'a> {
    fn drop(self) {
        let RangeConversion {
            reader,
            calls,
            formatter,
        } = self;
        drop(reader);
        drop(calls);
        drop(formatter);
    }
}

fn error_of_end(error: OperationError) -> RangeError
    ensures { IsErrorOfEnd error result }
{
    match error {
        OperationError::Memory => RangeError::Operation(error),
        error => RangeError::End(error),
    }
}

/// Converts the texts of the start and of the end of a range, and appends the text of the range to a sink.
///
/// With a reader of `de` in mode `Strict`, no calls and the formatter that `format:de:currency/EUR` names, `3` and `5`
/// append `3,00–5,00 €`.
///
/// # Errors
///
/// The first error, of the start before the end; except for `Output`, the sink is unchanged:
///
/// - `Operation`: that of [`convert`](crate::convert) for the start, or for the text of the range.
/// - `End`: the text of the end is rejected, or a call on its number fails.
pub fn convert_range<W: Sink>(
    alloc: Global,
    conversion: &RangeConversion<'_>,
    start: &[u8],
    end: &[u8],
    sink: &mut W,
) -> Result<(), RangeError>
    ensures written { OnOk result (HasRangeOutcome conversion.now start.now end.now
        (Appends (W.contents sink.old) (W.contents sink.new))) }
    ensures fails_with { IfErr result (λ error. RangeFails error conversion.now start.now end.now) }
    ensures unchanged_on_error { IfErr result
        (λ error. error ≢ RangeError.Operation OperationError.Output → sink.new ≡ sink.old) }
    ensures failed { result ≡ Err (RangeError.Operation OperationError.Output) → W.has_failed sink.new ≡ true }
    ensures prefix { result ≡ Err (RangeError.Operation OperationError.Output)
        → HasRangeOutcome conversion.now start.now end.now (AppendsPrefix (W.contents sink.old) (W.contents sink.new)) }
{
    let calls = conversion.calls.as_slice();
    let first = match converted(alloc, &conversion.reader, calls, start) {
        Ok(value) => value,
        Err(error) => return Err(RangeError::Operation(OperationError::from(error))),
    };
    let second = match converted(alloc, &conversion.reader, calls, end) {
        Ok(value) => value,
        Err(error) => return Err(error_of_end(OperationError::from(error))),
    };
    match conversion.formatter.write(alloc, first, second, sink) {
        Ok(()) => Ok(()),
        Err(error) => Err(RangeError::Operation(error)),
    }
}
