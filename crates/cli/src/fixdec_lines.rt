//! `fixdec_lines [OPTION].. [read:LOCALE] [CALL].. [format:LOCALE]`: makes the same calls on each line of its input, or
//! on a field of it, and writes a line for each.
ghost use Rattle.std.specs.{Prelude.{◌≡◌, ◌≤◌, Bool, true, false, Result, Ok, IfOk, IfErr, IfSome}, Process.exit_status};
ghost use Rattle.cli.specs.{declared.program.{error.ProgramError.ProgramError, help.Program.TheVariants.FixdecLines}, Arguments.{HaveWords, IsRequest, Ends}, Diagnostics.ConcludesWith, FixdecLines.{NamesFilter, FilterFails, IsEarly, Process, LinesEnd}, Input.bytes_left};

use crate::lines::input::LineReader;
use crate::lines::named_filter::{NamedFilter, filter_input};
use crate::program::arguments::start;
use crate::program::diagnostics::{Diagnostics, Ended, ErrorLines, conclude, conclude_ended};
use crate::program::error::{ProgramError, WordsError};
use crate::program::help::Program;
use crate::words::options::split_options;
use crate::words::targets::parse_target;
use fixed_decimal::{BufferedOut, Closed};
use std::alloc::Global;
use std::env::Args;
use std::io::{Read, Write};
use std::process::ExitCode;
use std::{env, io};

fn parse_filter(alloc: Global, words: &[String]) -> Result<NamedFilter<'_>, WordsError>
    ensures some { IfOk result (NamesFilter words.now) }
    ensures err { IfErr result (FilterFails words.now) }
{
    let (options, words) = split_options(words);
    let first = options.field()?;
    let target = parse_target(alloc, first, words)?;
    if target.has_names() && !options.has_header {
        return Err(WordsError::NoHeader);
    }
    Ok(NamedFilter { options, target })
}

/// Runs the filter that the words name, with a block before the writer.
fn filter_words<R: Read, O: Write + Drop, D: Diagnostics<ProgramError>>(
    alloc: Global,
    words: &[String],
    input: &mut LineReader<R>,
    out: O,
    diagnostics: &mut D,
) -> Ended<O>
    ensures filtered { LinesEnd D.reports (record {
      input = record { before = bytes_left R.remaining input.old; after = bytes_left R.remaining input.new };
      failure = input.new.1;
      writer = out;
      contents = O.contents;
      diagnostics = record { before = diagnostics.old; after = diagnostics.new };
    }) words.now result.0 result.1 }
    ensures silent { result.0 ≡ Ok true → diagnostics.new ≡ diagnostics.old }
    ensures unchanged_on_error { IfErr result.0 (λ error. IsEarly error
        → (input.new ≡ input.old) × (diagnostics.new ≡ diagnostics.old)) }
{
    let Ok(mut buffered) = BufferedOut::open(alloc, out) else {
        let no_memory = ProgramError::setup(Program::FixdecLines, WordsError::Memory);
        return (Err(no_memory), None);
    };
    let filter = match parse_filter(alloc, words) {
        Ok(filter) => filter,
        Err(why) => {
            let error = ProgramError::setup(Program::FixdecLines, why);
            return (Err(error), Some(buffered.abandon()));
        }
    };
    let filtered = filter_input(alloc, &filter, input, &mut buffered, diagnostics);
    let closed = buffered.close();
    if closed.has_failed() {
        return (Err(ProgramError::Output), Some(closed));
    }
    (filtered, Some(closed))
}

/// Runs the program on the arguments of the process, over any diagnostics, with a block before `out`, which is returned
/// after its last call. With `skip` the lines that fail are reported, and the status is 1.
///
/// # Errors
///
/// The last report is the error, but for `output` to a closed pipe:
///
/// - Status 1: `line 3: call 1: overflow` and others of [`ProgramError::Operation`].
/// - Status 2: a word names nothing, or `unknown locale`; nothing is read.
/// - Status 3: `memory`, `line 7: memory`, `input`, or `output` where a write or the flush of `out` fails.
pub fn run_arguments<R: Read, O: Write + Drop, D: Diagnostics<ProgramError>>(
    alloc: Global,
    arguments: io::Result<Args>,
    input: &mut LineReader<R>,
    out: O,
    diagnostics: &mut D,
) -> (u8, Option<Closed<O>>)
    ensures at_most { result.0 ≤ 3 }
    ensures silent { result.0 ≡ 0 → diagnostics.new ≡ diagnostics.old }
    ensures ends { let process : D → Process O D = λ last. record {
      input = record { before = bytes_left R.remaining input.old; after = bytes_left R.remaining input.new };
      failure = input.new.1;
      writer = out;
      contents = O.contents;
      diagnostics = record { before = diagnostics.old; after = last };
    } in
        (done : Result Bool ProgramError) × (last : D)
        × Ends FixdecLines O.contents arguments out (LinesEnd D.reports (process last)) done result.1
        × IfErr done (λ error. IsEarly error → (input.new ≡ input.old) × (last ≡ diagnostics.old))
        × ConcludesWith D.reports done result.1 result.0 last diagnostics.new }
    ensures unread_for_request { HaveWords arguments (IsRequest FixdecLines) → input.new ≡ input.old }
    ensures unchanged_on_error { result.0 ≡ 2 → (input.new ≡ input.old)
        × IfSome result.1 (λ closed. closed ≡ (out, false)) }
{
    match start(alloc, Program::FixdecLines, arguments, out) {
        Ok((words, out)) => {
            let ended = filter_words(alloc, words.as_slice(), input, out, diagnostics);
            conclude_ended(ended, diagnostics)
        }
        Err(ended) => conclude_ended(ended, diagnostics),
    }
}

/// Runs the process: `run_arguments` on its arguments, standard input and both outputs.
pub fn execute(rt: HostRuntime) -> ExitCode
    ensures at_most { exit_status result ≤ 3 }
{
    let mut err = rt.stderr();
    let mut diagnostics = ErrorLines::new(&mut err);
    let Ok(mut input) = LineReader::open(rt.alloc(), rt.stdin()) else {
        let no_memory = ProgramError::setup(Program::FixdecLines, WordsError::Memory);
        return ExitCode::from(conclude(Err(no_memory), None, &mut diagnostics));
    };
    let arguments = env::args(&rt);
    let (status, _out) = run_arguments(
        rt.alloc(),
        arguments,
        &mut input,
        rt.stdout(),
        &mut diagnostics,
    );
    ExitCode::from(status)
}
