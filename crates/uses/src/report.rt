//! A run of calls that reports its first error in words.
ghost use Rattle.std.specs.{Prelude.{◌≡◌, ℕ, List, Err, OnOk, true}, Io.KnownBytes.Appends};
ghost use Rattle.decimal_digits.specs.AppendsPrefix.{AppendsPrefix};
ghost use Rattle.fixed_decimal.specs.ErrorText.{run_error_text};
ghost use Rattle.uses.specs.Report.{MayFail, IsTextOrReport};

use fixed_decimal::{Call, RunError, Sink, SinkFault, run};
use std::alloc::Global;

/// The error of a run of which nothing, or not all, was written.
#[derive(Clone, Copy, Debug, PartialEq, Eq)]
pub enum ReportError {
    /// Out of memory for the sentence. Nothing was written.
    Memory,
    /// The sink failed, now or before, and has a prefix of the text.
    Sink,
}

/// Writes the sentence of an error.
fn write_error<W: Sink>(alloc: Global, error: &RunError, sink: &mut W) -> Result<(), ReportError>
    ensures reported { OnOk result (Appends (W.contents sink.old) (W.contents sink.new) (run_error_text error.now)) }
    ensures unchanged_on_error { result ≡ Err ReportError.Memory → sink.new ≡ sink.old }
    ensures prefix { result ≡ Err ReportError.Sink
        → AppendsPrefix (W.contents sink.old) (W.contents sink.new) (run_error_text error.now) }
    ensures failed { result ≡ Err ReportError.Sink → W.has_failed sink.new ≡ true }
{
    let Ok(sentence) = format!(in alloc; "{error}") else {
        return Err(ReportError::Memory);
    };
    match sink.put_bytes(sentence.as_bytes()) {
        Ok(()) => Ok(()),
        Err(SinkFault) => Err(ReportError::Sink),
    }
}

/// Makes a run, and writes its text, or the sentence of its error.
///
/// From `1e5` the call `MultiplyPow10(-2)` writes `1000.00`, and from `1,5` any calls write
/// `Start: Failed to parse the input string`.
///
/// # Errors
///
/// See `ReportError`; `Memory` only if the run returns an error.
pub fn write_or_report<W: Sink>(
    alloc: Global,
    start: &[u8],
    calls: &[Call<'_>],
    sink: &mut W,
) -> Result<(), ReportError>
    ensures reported { OnOk result ((output : List ℕ) × IsTextOrReport start.now calls.now output
        × Appends (W.contents sink.old) (W.contents sink.new) output) }
    ensures memory { result ≡ Err ReportError.Memory → MayFail start.now calls.now }
    ensures unchanged_on_error { result ≡ Err ReportError.Memory → sink.new ≡ sink.old }
    ensures prefix { result ≡ Err ReportError.Sink → (output : List ℕ) × IsTextOrReport start.now calls.now output
        × AppendsPrefix (W.contents sink.old) (W.contents sink.new) output }
    ensures failed { result ≡ Err ReportError.Sink → W.has_failed sink.new ≡ true }
{
    let Err(error) = run(alloc, start, calls, sink) else {
        return Ok(());
    };
    match error {
        RunError::Sink => Err(ReportError::Sink),
        _ => write_error(alloc, &error, sink),
    }
}
