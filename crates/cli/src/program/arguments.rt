//! The words of a command line.
ghost use Rattle.std.specs.Prelude.{◌≡◌, IfOk, IfErr, IfSome, IfNone};
ghost use Rattle.cli.specs.Arguments.{HaveWords, AreUnreadable, Asks, IsRequest, EndsBeforeWork};

use crate::program::diagnostics::Ended;
use crate::program::error::{ProgramError, WordsError};
use crate::program::help::{Program, Request};
use fixed_decimal::Closed;
use std::alloc::Global;
use std::env::Args;
use std::io;
use std::io::{ErrorKind, Write};

fn words(alloc: Global, arguments: io::Result<Args>) -> Result<Vec<String>, WordsError>
    ensures words { IfOk result (λ words. HaveWords arguments (λ all. words.items ≡ all)) }
    ensures err { IfErr result (AreUnreadable arguments) }
{
    let arguments = match arguments {
        Ok(arguments) => arguments,
        Err(error) if error.kind() == ErrorKind::OutOfMemory => return Err(WordsError::Memory),
        Err(_) => return Err(WordsError::NotText),
    };
    match arguments.skip(1).collect(alloc) {
        Ok(words) => Ok(words),
        Err(_) => Err(WordsError::Memory),
    }
}

fn request(program: Program, words: &[String]) -> Option<Request>
    ensures some { IfSome result (Asks program words.now) }
    ensures none { IfNone result (¬ IsRequest program words.now) }
{
    let [word] = words else {
        return None;
    };
    match (program, word.as_str()) {
        (_, "--help" | "-h") => Some(Request::Help),
        (Program::FixdecLines | Program::Plural, "--version") => Some(Request::Version),
        (Program::FixdecLines, "--locales") => Some(Request::Locales),
        _ => None,
    }
}

/// Reads the words of a program.
///
/// # Errors
///
/// The program has ended before its work: what its only word asks for was printed, or there is an error.
pub fn start<O: Write>(
    alloc: Global,
    program: Program,
    arguments: io::Result<Args>,
    mut out: O,
) -> Result<(Vec<String>, O), Ended<O>>
    ensures words { IfOk result (λ started. HaveWords arguments
        (λ all. (started.0.items ≡ all) × ¬ IsRequest program started.0.items)) }
    ensures out { IfOk result (λ started. started.1 ≡ out) }
    ensures ended { IfErr result (λ ended. EndsBeforeWork program O.contents arguments out ended.0 ended.1) }
{
    let words = match words(alloc, arguments) {
        Ok(words) => words,
        Err(why) => return Err((
            Err(ProgramError::setup(program, why)),
            Some(Closed::new(out, None)),
        )),
    };
    let Some(request) = request(program, words.as_slice()) else {
        return Ok((words, out));
    };
    match program.print(request, &mut out) {
        Ok(()) => Err((Ok(true), Some(Closed::new(out, None)))),
        Err(error) => Err((
            Err(ProgramError::setup(program, WordsError::Output)),
            Some(Closed::new(out, Some(error))),
        )),
    }
}
