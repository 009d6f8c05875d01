//! Reports of errors.
ghost use Rattle.std.specs.Prelude.{◌≡◌, ◌≤◌, None, Ok, true, is_some};
ghost use Rattle.cli.specs.Diagnostics.{IsErrorLine, Reports, is_closed_pipe, IsFailure, Concludes, ConcludesWith};

use crate::program::error::ProgramError;
use arrayvec::ArrayString;
use fixed_decimal::{Closed, WriteError, write_whole};
use std::fmt::{Display, InlineText};
use std::io::{ErrorKind, Write};

/// A line of at most 120 bytes and its line feed. The longest text of an error has 104 bytes.
type Line = ArrayString<121>;

/// How a program ends: whether each of its texts has a result, or with an error; and its writer after the last call,
/// which is none where the block before it cannot be allocated. The errors of texts without a result are reported.
pub type Ended<O> = (Result<bool, ProgramError>, Option<Closed<O>>);

/// Where errors are reported.
///
/// A caller that is generic in `D` can prove `D.reports old error new` only by one call of `report` with that error.
pub trait Diagnostics<E> {
    /// The relation of the diagnostics before a report, the error, and the diagnostics after it.
    ghost reports: { Self → E → Self → Type 0 };

    /// Reports an error. A failure to do so is not returned.
    fn report(&mut self, error: &E)
        ensures { reports self.old error.now self.new };
}

fn error_line<E: Display>(error: &E) -> Line
    ensures { IsErrorLine (E.output error.now) result.bytes }
{
    let text = InlineText::<120>::of(error);
    let mut line = Line::new();
    line.push_str(text.as_str());
    line.push_str("\n");
    line
}

/// Reports errors as lines of a writer, each in one write where the writer takes it whole.
///
/// After a failed write the writer is not called again.
#[derive(Drop)]
pub struct ErrorLines<'a, W> {
    pub(crate) writer: &'a mut W,
    pub(crate) error: Option<WriteError<W>>,
}

impl<'a, W> ErrorLines<'a, W> {
    /// Reports to a writer.
    pub fn new(writer: &'a mut W) -> Self
        ensures { result ≡ record { writer = writer.entry; error = None } }
    {
        ErrorLines {
            writer,
            error: None,
        }
    }
}

impl<W: Write, E: Display> Diagnostics<E> for ErrorLines<'_, W> {
    ghost reports = { λ old error new. (new.writer.ghost_name ≡ old.writer.ghost_name)
        × Reports (E.output error) (W.contents old.writer.now) (is_some old.error)
        (W.contents new.writer.now) (is_some new.error) };

    fn report(&mut self, error: &E) {
        let line = error_line(error);
        if self.error.is_some() {
            return;
        }
        self.error = write_whole(self.writer, line.as_bytes()).err();
    }
}

fn is_closed_pipe(kind: Option<ErrorKind>) -> bool
    ensures { result ≡ is_closed_pipe kind }
{
    kind == Some(ErrorKind::BrokenPipe)
}

fn failure<O>(back: &Option<Closed<O>>) -> Option<ErrorKind>
    ensures { IsFailure back.now result }
{
    match back {
        Some(closed) => closed.error(),
        None => None,
    }
}

/// Reports the error, if there is one, and returns the exit status. A failed output is not reported if its failure is
/// that of a closed pipe.
pub fn conclude<D: Diagnostics<ProgramError>>(
    done: Result<bool, ProgramError>,
    failure: Option<ErrorKind>,
    diagnostics: &mut D,
) -> u8
    ensures at_most { result ≤ 3 }
    ensures silent { result ≡ 0 → (done ≡ Ok true) × (diagnostics.new ≡ diagnostics.old) }
    ensures concludes { Concludes D.reports done failure result diagnostics.old diagnostics.new }
{
    match done {
        Ok(true) => 0,
        Ok(false) => 1,
        Err(error) => {
            let is_silent = is_closed_pipe(failure) && error.is_output();
            if !is_silent {
                diagnostics.report(&error);
            }
            error.status()
        }
    }
}

/// Concludes with the failure of the writer that is returned, if it failed.
pub fn conclude_ended<O, D: Diagnostics<ProgramError>>(
    ended: Ended<O>,
    diagnostics: &mut D,
) -> (u8, Option<Closed<O>>)
    ensures at_most { result.0 ≤ 3 }
    ensures silent { result.0 ≡ 0 → (ended.0 ≡ Ok true) × (diagnostics.new ≡ diagnostics.old) }
    ensures back { result.1 ≡ ended.1 }
    ensures concludes { ConcludesWith D.reports ended.0 ended.1 result.0 diagnostics.old diagnostics.new }
{
    let (done, back) = ended;
    (conclude(done, failure(&back), diagnostics), back)
}
