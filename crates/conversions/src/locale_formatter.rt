//! Writing of decimals in the form of a locale.
ghost use Rattle.std.specs.{Prelude.{◌≡◌, ◌≢◌, Some, Err, true, IfErr, OnOk, OnErr}, Io.KnownBytes.Appends};
ghost use Rattle.decimal_digits.specs.AppendsPrefix.{AppendsPrefix};
ghost use Rattle.conversions.specs.{Conversion.{HasTextBy, WritingFails}, declared.locale_formatter.LocaleFormatter.TheVariants.Skeleton};

use crate::error::OperationError;
use decimal_format::DecimalFormatter;
use fixed_decimal::{Decimal, RoundError, Sink, Writeable};
use number_format::{NumberFormatter, NumberWriteError};
use std::alloc::Global;

/// Writes decimals in the form of a locale, as `format:de` and `format:de:percent` name it.
#[derive(Drop)]
pub enum LocaleFormatter<'a> {
    /// With all digits.
    AllDigits(DecimalFormatter<'a>),
    /// As a number skeleton has them.
    Skeleton(NumberFormatter),
}

/// Formats a decimal, and appends the text to a sink.
///
/// # Errors
///
/// - `FormatOverflow`: the number that is shown is beyond the limits; the sink is unchanged.
/// - `Memory`: out of memory; the sink is unchanged.
/// - `Output`: the sink has failed, and it has taken a prefix of the text.
pub fn write_number<W: Sink>(
    alloc: Global,
    formatter: &NumberFormatter,
    value: Decimal,
    sink: &mut W,
) -> Result<(), OperationError>
    ensures written { OnOk result (HasTextBy (Some (Skeleton formatter.now)) value
        (Appends (W.contents sink.old) (W.contents sink.new))) }
    ensures fails_with { IfErr result (λ error. WritingFails error (Some (Skeleton formatter.now)) value) }
    ensures unchanged_on_error { IfErr result (λ error. error ≢ OperationError.Output → sink.new ≡ sink.old) }
    ensures failed { result ≡ Err OperationError.Output → W.has_failed sink.new ≡ true }
    ensures prefix { IfErr result (λ error. error ≡ OperationError.Output
        → HasTextBy (Some (Skeleton formatter.now)) value (AppendsPrefix (W.contents sink.old) (W.contents sink.new))) }
{
    match formatter.write(alloc, value, sink) {
        Ok(()) => Ok(()),
        Err(NumberWriteError::Format(RoundError::Limit)) => Err(OperationError::FormatOverflow),
        Err(NumberWriteError::Format(RoundError::Memory)) => Err(OperationError::Memory),
        Err(NumberWriteError::Sink) => Err(OperationError::Output),
    }
}

/// Appends the text of a value to a sink.
///
/// # Errors
///
/// `Output`: the sink has failed, and it has taken a prefix of the text.
pub fn write_text<T: Writeable, W: Sink>(value: &T, sink: &mut W) -> Result<(), OperationError>
    ensures written { OnOk result (Appends (W.contents sink.old) (W.contents sink.new) (T.text value.now)) }
    ensures fails_with { IfErr result (λ error. error ≡ OperationError.Output) }
    ensures failed { OnErr result (W.has_failed sink.new ≡ true) }
    ensures prefix { OnErr result (AppendsPrefix (W.contents sink.old) (W.contents sink.new) (T.text value.now)) }
{
    value.write_to(sink)?;
    Ok(())
}
