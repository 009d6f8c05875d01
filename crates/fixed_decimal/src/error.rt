//! The errors of calls and of runs as texts, and the first as the second.
ghost use Rattle.std.specs.{Option.option_map, Fmt.DisplaysOnOk};
ghost use Rattle.fixed_decimal.specs.ErrorText.{call_text};

use crate::runs::{CallError, RunError};
use decimal_digits::rounding::RoundError;
use decimal_digits::sink::SinkFault;
use decimal_unsigned::LimitError;
use std::error::Error;
use std::fmt;

impl From<CallError> for RunError {
    ghost use Rattle.std.specs.Prelude.{◌≡◌};
    ghost use Rattle.fixed_decimal.specs.Errors.{run_error};

    ghost from_gives = { λ error run. run ≡ run_error error };

    /// Returns the error of a run that ends with this one.
    fn from(error: CallError) -> RunError {
        match error {
            CallError::Operand { at, fault } => RunError::Operand { at, fault },
            CallError::Overlap { at } => RunError::Overlap { at },
            CallError::Limit { at } => RunError::Limit { at },
            CallError::Memory { at } => RunError::Memory { at },
        }
    }
}

fn write_call<W: fmt::Write, E: fmt::Display>(
    f: &mut fmt::Formatter<W>,
    at: usize,
    error: &E,
) -> fmt::Result
    ensures { DisplaysOnOk W.write_str_gives f.old result (option_map (call_text at) (E.output error.now)) f.new }
{
    write!(f, "Call {at}: {error}")
}

impl fmt::Display for CallError {
    /// Writes the text of the [`RunError`]: `Call 0: The numbers overlap`.
    fn fmt<W: fmt::Write>(&self, f: &mut fmt::Formatter<W>) -> fmt::Result {
        match self {
            CallError::Operand { at, fault } => write_call(f, *at, fault),
            CallError::Overlap { at } => write!(f, "Call {at}: The numbers overlap"),
            CallError::Limit { at } => write_call(f, *at, &LimitError),
            CallError::Memory { at } => write_call(f, *at, &RoundError::Memory),
        }
    }
}

impl Error for CallError {}

impl fmt::Display for RunError {
    ghost use Rattle.std.specs.Prelude.{Some};
    ghost use Rattle.fixed_decimal.specs.ErrorText.{run_error_text};

    ghost output = { λ e. Some (run_error_text e) };

    /// Writes what failed and why: `Start: Out of memory`, `Call 0: The numbers overlap`.
    fn fmt<W: fmt::Write>(&self, f: &mut fmt::Formatter<W>) -> fmt::Result {
        match self {
            RunError::Start(fault) => write!(f, "Start: {fault}"),
            RunError::Operand { at, fault } => write_call(f, *at, fault),
            RunError::Overlap { at } => write!(f, "Call {at}: The numbers overlap"),
            RunError::Limit { at } => write_call(f, *at, &LimitError),
            RunError::Memory { at } => write_call(f, *at, &RoundError::Memory),
            RunError::Sink => SinkFault.fmt(f),
        }
    }
}

impl Error for RunError {}
