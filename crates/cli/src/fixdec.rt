//! `fixdec TEXT [to:END] [read:LOCALE] [CALL].. [format:LOCALE]`: reads a decimal, makes the calls in order, and prints
//! the text of the result; or the text of a range of two decimals.
ghost use Rattle.std.specs.{Prelude.{◌≡◌, ◌≢◌, ◌≤◌, ◌<◌, Bool, true, false, None, Result, Err, IfOk, IfErr, IfSome, OnOk}, Process.exit_status};
ghost use Rattle.cli.specs.{declared.program.{error.ProgramError.ProgramError, help.Program.TheVariants.Fixdec}, Error.status_of, Fixdec.{of_text, HasError, Converts, HasTextRun, HasRangeRun, HasErrorOfText, HasErrorOfRange, PrintsLine, PrintsLinePrefix, Prints, PrintsPrefix}, Arguments.Ends, Diagnostics.{Concludes, ReportsLine}};
ghost use Rattle.conversions.specs.Conversion.{OperationsFail};

use crate::program::arguments::start;
use crate::program::diagnostics::{Diagnostics, ErrorLines, conclude};
use crate::program::error::{ProgramError, WordsError};
use crate::program::help::Program;
use crate::words::conversion::parse_conversion;
use crate::words::range::{RangeWords, parse_range, range_words};
use conversions::{Conversion, OperationError, convert, convert_range};
use fixed_decimal::{Closed, Out, Sink};
use std::alloc::Global;
use std::env::Args;
use std::io::{BufWriter, Write};
use std::process::ExitCode;
use std::{env, io};

/// The number of bytes of the buffer before the output.
const BUFFER: usize = 65_536;

/// Converts a text, and writes the text of the result and a line feed to a sink.
#[inline]
pub fn print_line<W: Sink>(
    alloc: Global,
    conversion: &Conversion<'_>,
    text: &[u8],
    sink: &mut W,
) -> Result<(), OperationError>
    ensures printed { OnOk result
        (PrintsLine (W.contents sink.old) (W.contents sink.new) (of_text conversion.now text.now)) }
    ensures fails_with { IfErr result (λ error. OperationsFail error conversion.now text.now) }
    ensures unchanged_on_error { IfErr result (λ error. error ≢ OperationError.Output → sink.new ≡ sink.old) }
    ensures failed { result ≡ Err OperationError.Output → W.has_failed sink.new ≡ true }
    ensures prefix { result ≡ Err OperationError.Output →
        PrintsLinePrefix (W.contents sink.old) (W.contents sink.new) (of_text conversion.now text.now) }
{
    convert(alloc, conversion, text, sink)?;
    sink.put_byte(b'\n')?;
    Ok(())
}

/// Prints the conversion of a text.
fn print_text<W: Sink>(
    alloc: Global,
    text: &[u8],
    words: &[String],
    sink: &mut W,
) -> Result<(), ProgramError>
    ensures printed { OnOk result
        (HasTextRun text.now words.now (PrintsLine (W.contents sink.old) (W.contents sink.new))) }
    ensures fails_with { IfErr result (HasErrorOfText text.now words.now) }
    ensures unchanged_on_error { IfErr result (λ error. error ≢ ProgramError.Output → sink.new ≡ sink.old) }
    ensures failed { result ≡ Err ProgramError.Output → W.has_failed sink.new ≡ true }
    ensures prefix { result ≡ Err ProgramError.Output →
        HasTextRun text.now words.now (PrintsLinePrefix (W.contents sink.old) (W.contents sink.new)) }
{
    let conversion = match parse_conversion(alloc, words) {
        Ok(conversion) => conversion,
        Err(why) => return Err(ProgramError::setup(Program::Fixdec, why)),
    };
    print_line(alloc, &conversion, text, sink)?;
    Ok(())
}

/// Prints the conversion of a range.
fn print_range<W: Sink>(
    alloc: Global,
    start: &[u8],
    words: &RangeWords<'_>,
    sink: &mut W,
) -> Result<(), ProgramError>
    ensures printed { OnOk result
        (HasRangeRun start.now words.now (PrintsLine (W.contents sink.old) (W.contents sink.new))) }
    ensures fails_with { IfErr result (HasErrorOfRange start.now words.now) }
    ensures unchanged_on_error { IfErr result (λ error. error ≢ ProgramError.Output → sink.new ≡ sink.old) }
    ensures failed { result ≡ Err ProgramError.Output → W.has_failed sink.new ≡ true }
    ensures prefix { result ≡ Err ProgramError.Output →
        HasRangeRun start.now words.now (PrintsLinePrefix (W.contents sink.old) (W.contents sink.new)) }
{
    let conversion = match parse_range(alloc, words) {
        Ok(conversion) => conversion,
        Err(why) => return Err(ProgramError::setup(Program::Fixdec, why)),
    };
    convert_range(alloc, &conversion, start, words.end.as_bytes(), sink)?;
    sink.put_byte(b'\n')?;
    Ok(())
}

fn print_run<W: Sink>(alloc: Global, words: &[String], sink: &mut W) -> Result<(), ProgramError>
    ensures printed { OnOk result (Prints words.now (W.contents sink.old) (W.contents sink.new)) }
    ensures fails_with { IfErr result (HasError words.now) }
    ensures unchanged_on_error { IfErr result (λ error. error ≢ ProgramError.Output → sink.new ≡ sink.old) }
    ensures failed { result ≡ Err ProgramError.Output → W.has_failed sink.new ≡ true }
    ensures prefix { result ≡ Err ProgramError.Output →
        PrintsPrefix words.now (W.contents sink.old) (W.contents sink.new) }
{
    let Some((text, others)) = words.split_first() else {
        return Err(ProgramError::setup(Program::Fixdec, WordsError::NoText));
    };
    match range_words(others) {
        None => print_text(alloc, text.as_bytes(), others, sink),
        Some(range) => print_range(alloc, text.as_bytes(), &range, sink),
    }
}

fn print<O: Write>(alloc: Global, words: &[String], out: &mut Out<O>) -> Result<bool, ProgramError>
    ensures printed { IfOk result (λ texts. (texts ≡ true)
        × Prints words.now (O.contents out.old.0) (O.contents out.new.0)) }
    ensures has_not_failed { OnOk result (out.new.1 ≡ false) }
    ensures error { IfErr result (HasError words.now) }
    ensures unchanged_on_error { IfErr result (λ error. error ≢ ProgramError.Output → out.new ≡ out.old) }
    ensures failed { result ≡ Err ProgramError.Output → out.new.1 ≡ true }
    ensures prefix { result ≡ Err ProgramError.Output →
        PrintsPrefix words.now (O.contents out.old.0) (O.contents out.new.0) }
{
    print_run(alloc, words, out)?;
    out.flush()?;
    Ok(true)
}

/// Runs the program on the words after its name, and returns the exit status.
///
/// The first word is the text, whatever it holds. The others are a `to:`, a `read:`, calls and a `format:`, as the text
/// of `--help` has them. The words `250` and `shift:-2` print `2.50`, and `3`, `to:5` and `format:de:currency/EUR`
/// print `3,00–5,00 €`.
///
/// # Errors
///
/// The error is reported as a line of `err`, which is one write where `err` takes it whole:
///
/// - Status 1: the run fails with `start: syntax`, `call 7: overlap` and others of [`OperationError`], or with `end:
///   syntax`, `end: call 7: overlap` and others of [`RangeError`](conversions::RangeError).
/// - Status 2: no text, a word that names nothing, or `unknown locale`.
/// - Status 3: `memory`, or `output` where a write or the flush of `out` fails.
pub fn program<O: Write, E: Write>(
    alloc: Global,
    words: &[String],
    out: &mut Out<O>,
    err: &mut E,
) -> u8
    ensures at_most { result ≤ 3 }
    ensures printed { result ≡ 0 → Prints words.now (O.contents out.old.0) (O.contents out.new.0) }
    ensures has_not_failed { result ≡ 0 → out.new.1 ≡ false }
    ensures silent { result ≡ 0 → err.new ≡ err.old }
    ensures reported { 0 < result → (error : ProgramError) × (result ≡ status_of error) × HasError words.now error
        × ReportsLine (E.contents err.old) (E.contents err.new)
        × (error ≢ ProgramError.Output → out.new ≡ out.old)
        × (error ≡ ProgramError.Output → (out.new.1 ≡ true)
        × PrintsPrefix words.now (O.contents out.old.0) (O.contents out.new.0)) }
    ensures unchanged_on_error { 0 < result → result < 3 → out.new ≡ out.old }
{
    let mut lines = ErrorLines::new(err);
    conclude(print(alloc, words, out), None, &mut lines)
}

/// Does what `program` does on the arguments of the process, with a buffer before `out`, which is returned after its
/// last call.
/// The only word `--help` or `-h` prints the help and the version.
pub fn run_arguments<O: Write + Drop, D: Diagnostics<ProgramError>>(
    alloc: Global,
    arguments: io::Result<Args>,
    out: O,
    diagnostics: &mut D,
) -> (u8, Option<Closed<O>>)
    ensures at_most { result.0 ≤ 3 }
    ensures silent { result.0 ≡ 0 → diagnostics.new ≡ diagnostics.old }
    ensures ends { (done : Result Bool ProgramError)
        × Ends Fixdec O.contents arguments out (Converts O.contents out) done result.1
        × Concludes D.reports done None result.0 diagnostics.old diagnostics.new }
    ensures unchanged_on_error { 0 < result.0 → result.0 < 3 → IfSome result.1 (λ closed. closed ≡ (out, false)) }
{
    let (words, out) = match start(alloc, Program::Fixdec, arguments, out) {
        Ok(started) => started,
        Err((ended, back)) => return (conclude(ended, None, diagnostics), back),
    };
    let Ok(buffer) = BufWriter::with_capacity(alloc, BUFFER, out) else {
        let no_memory = ProgramError::setup(Program::Fixdec, WordsError::Memory);
        return (conclude(Err(no_memory), None, diagnostics), None);
    };
    let mut buffered = Out::new(buffer);
    if let Err(error) = print(alloc, words.as_slice(), &mut buffered) {
        return (
            conclude(Err(error), None, diagnostics),
            Some(buffered.abandon()),
        );
    }
    let closed = buffered.close();
    if closed.has_failed() {
        let failed = Err(ProgramError::Output);
        return (conclude(failed, None, diagnostics), Some(closed));
    }
    (0, Some(closed))
}

/// Runs the process: `run_arguments` on its arguments, standard output and standard error.
pub fn execute(rt: HostRuntime) -> ExitCode
    ensures at_most { exit_status result ≤ 3 }
{
    let mut err = rt.stderr();
    let mut diagnostics = ErrorLines::new(&mut err);
    let (status, _out) = run_arguments(rt.alloc(), env::args(&rt), rt.stdout(), &mut diagnostics);
    ExitCode::from(status)
}
