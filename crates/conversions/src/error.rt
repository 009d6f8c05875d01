//! The errors of words that name forms, and of conversions.
ghost use Rattle.std.specs.Prelude.{◌≡◌, ◌<◌, ◌≤◌};
ghost use Rattle.conversions.specs.Error.{status_of_operation, status_of_range};

use crate::shown_word::ShownWord;
use fixed_decimal::{ParseError, RunError, SinkFault};
use std::{error, fmt};
use thiserror::Error;

/// Why a word names no reader and no formatter: of `format:xx` it is `UnknownLocale`.
#[derive(Clone, Copy, Debug)]
pub enum FormError {
    /// The option of this word is empty.
    NoSuchWord(ShownWord),
    /// The locale with this tag is unknown.
    UnknownLocale(ShownWord),
    /// A text is no skeleton, from the byte with this 0-based index.
    SkeletonSyntax { at: usize },
    /// A text is a skeleton, but this stem is none of the library.
    SkeletonUnsupported(ShownWord),
    /// The texts of the skeleton do not have one meaning each.
    NoReader,
    /// Out of memory for the texts of the skeleton.
    Memory,
}

/// The reason for which a text or rules are rejected.
#[derive(Clone, Copy, Debug, PartialEq, Error)]
pub enum Reason {
    /// It is not in the grammar.
    #[error("syntax")]
    Syntax,
    /// It is in the grammar, and a number of it is beyond the limits.
    #[error("limit")]
    Limit,
}

/// The error of a text, or of the line that it is a field of. Calls have 0-based numbers: if the result of the first
/// call is beyond the limits, the error is `call 0: overflow`.
#[derive(Clone, Copy, Debug, PartialEq, Error)]
pub enum OperationError {
    /// The line has fewer fields.
    #[error("field")]
    Field,
    /// A quote of the line is in the wrong place.
    #[error("quote")]
    Quote,
    /// The text is rejected.
    #[error("start: {0}")]
    Start(Reason),
    /// The operand of this call is rejected.
    #[error("call {at}: {reason}")]
    Operand { at: usize, reason: Reason },
    /// The numbers that this call concatenates overlap.
    #[error("call {at}: overlap")]
    Overlap { at: usize },
    /// The result of this call is beyond the limits.
    #[error("call {at}: overflow")]
    Overflow { at: usize },
    /// The number is scaled or rounded to be formatted, and is beyond the limits.
    #[error("format: overflow")]
    FormatOverflow,
    /// Out of memory.
    #[error("memory")]
    Memory,
    /// A write or the flush of the output failed.
    #[error("output")]
    Output,
}

/// The error of a range of two texts. The same calls are made on both numbers.
#[derive(Clone, Copy, Debug, PartialEq)]
pub enum RangeError {
    /// The error of the start, of the text of the range, or of the output; or out of memory.
    Operation(OperationError),
    /// The text of the end is rejected, or a call on its number fails.
    End(OperationError),
}

impl OperationError {
    /// Returns the exit status.
    pub fn status(&self) -> u8
        ensures status { result ≡ status_of_operation self.now }
        ensures positive { 0 < result }
        ensures at_most { result ≤ 3 }
    {
        match self {
            OperationError::Field
            | OperationError::Quote
            | OperationError::Start(_)
            | OperationError::Operand { .. }
            | OperationError::Overlap { .. }
            | OperationError::Overflow { .. }
            | OperationError::FormatOverflow => 1,
            OperationError::Memory | OperationError::Output => 3,
        }
    }
}

impl From<RunError> for OperationError {
    ghost use Rattle.conversions.specs.Error.{error_of_run};

    ghost from_gives = { λ error result. result ≡ error_of_run error };

    fn from(error: RunError) -> OperationError {
        match error {
            RunError::Start(ParseError::Syntax) => OperationError::Start(Reason::Syntax),
            RunError::Start(ParseError::Limit) => OperationError::Start(Reason::Limit),
            RunError::Operand {
                at,
                fault: ParseError::Syntax,
            } => OperationError::Operand {
                at,
                reason: Reason::Syntax,
            },
            RunError::Operand {
                at,
                fault: ParseError::Limit,
            } => OperationError::Operand {
                at,
                reason: Reason::Limit,
            },
            RunError::Overlap { at } => OperationError::Overlap { at },
            RunError::Limit { at } => OperationError::Overflow { at },
            RunError::Start(ParseError::Memory)
            | RunError::Operand {
                fault: ParseError::Memory,
                ..
            }
            | RunError::Memory { .. } => OperationError::Memory,
            RunError::Sink => OperationError::Output,
        }
    }
}

impl From<SinkFault> for OperationError {
    ghost use Rattle.conversions.specs.declared.error.OperationError.TheVariants.{Output};

    ghost from_gives = { λ _ result. result ≡ Output };

    fn from(_error: SinkFault) -> OperationError {
        OperationError::Output
    }
}

impl RangeError {
    /// Returns the exit status.
    pub fn status(&self) -> u8
        ensures status { result ≡ status_of_range self.now }
        ensures positive { 0 < result }
        ensures at_most { result ≤ 3 }
    {
        match self {
            RangeError::Operation(error) | RangeError::End(error) => error.status(),
        }
    }
}

impl fmt::Display for RangeError {
    fn fmt<W: fmt::Write>(&self, f: &mut fmt::Formatter<W>) -> fmt::Result {
        match self {
            RangeError::Operation(error) => write!(f, "{error}"),
            RangeError::End(OperationError::Start(reason)) => write!(f, "end: {reason}"),
            RangeError::End(error) => write!(f, "end: {error}"),
        }
    }
}

impl error::Error for RangeError {}
