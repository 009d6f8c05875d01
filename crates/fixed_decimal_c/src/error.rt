//! The errors of the exports.
ghost use Rattle.std.specs.Prelude.{◌≡◌};
ghost use Rattle.fixed_decimal_c.specs.Errors.{status_of, place_of, needed_of, error_of_run, error_of_parsing, error_of_operand, is_of_line};

use fixed_decimal::{ParseError, RunError};

/// Why a function of the C library fails. A text has the number 0, and the second text of a comparison 1.
#[derive(Clone, Copy)]
pub enum FdError {
    /// The text with this number is not in the grammar.
    Syntax { at: usize },
    /// The text with this number has too many digits.
    Limit { at: usize },
    /// Out of memory.
    Memory,
    /// The operand of this call is not in the grammar.
    OperandSyntax { at: usize },
    /// The operand of this call has too many digits.
    OperandLimit { at: usize },
    /// The numbers that this call concatenates overlap.
    Overlap { at: usize },
    /// The result of this call is beyond the limits.
    Overflow { at: usize },
    /// The text does not fit the buffer.
    BufferTooSmall { needed: usize },
    /// This call has an unknown number, or an operand outside the texts.
    UnknownCall { at: usize },
    /// The locale or its numbering system is unknown.
    UnknownLocale,
    /// The mode or the strategy is unknown.
    UnknownOption,
    /// A fraction digit is not 0.
    NotWhole,
    /// The integer type does not hold the number.
    OutOfRange,
    /// The text is not rules, from this byte on.
    RulesSyntax { at: usize },
    /// The number at this byte of rules is too great.
    RulesLimit { at: usize },
    /// The text is no skeleton, from this byte on.
    SkeletonSyntax { at: usize },
    /// The library has no such option as the stem at this byte of the skeleton.
    SkeletonUnsupported { at: usize },
    /// The numbering system of the skeleton is unknown.
    UnknownNumberingSystem,
    /// The formatter has no reader: it writes words, exponents that are not certain, or a text of its unit without a
    /// number; its scale cannot be undone, its symbols have no reader, or the affixes of a number and of its negative
    /// are not apart.
    UnreadableFormat,
    /// The numbers of digits in the options are none of ECMA-402's, by the reason with this number.
    DigitOptions { at: usize },
    /// No number skeleton has these options.
    NoSkeleton,
    /// The bytes are no formatter.
    Formatter,
    /// The parts of the text do not fit their array.
    PartsTooSmall,
    /// ECMA-402 has no unit with this name.
    UnknownUnit,
}

impl FdError {
    pub(crate) fn status(self) -> u32
        ensures { result ≡ status_of self }
    {
        match self {
            FdError::Syntax { .. } => 1,
            FdError::Limit { .. } => 2,
            FdError::Memory => 3,
            FdError::OperandSyntax { .. } => 4,
            FdError::OperandLimit { .. } => 5,
            FdError::Overlap { .. } => 6,
            FdError::Overflow { .. } => 7,
            FdError::BufferTooSmall { .. } => 8,
            FdError::UnknownCall { .. } => 9,
            FdError::UnknownLocale => 10,
            FdError::UnknownOption => 11,
            FdError::NotWhole => 12,
            FdError::OutOfRange => 13,
            FdError::RulesSyntax { .. } => 14,
            FdError::RulesLimit { .. } => 15,
            FdError::SkeletonSyntax { .. } => 16,
            FdError::SkeletonUnsupported { .. } => 17,
            FdError::UnknownNumberingSystem => 18,
            FdError::UnreadableFormat => 19,
            FdError::DigitOptions { .. } => 20,
            FdError::NoSkeleton => 21,
            FdError::Formatter => 22,
            FdError::PartsTooSmall => 23,
            FdError::UnknownUnit => 24,
        }
    }

    pub(crate) fn place(self) -> usize
        ensures { result ≡ place_of self }
    {
        match self {
            FdError::Syntax { at }
            | FdError::Limit { at }
            | FdError::OperandSyntax { at }
            | FdError::OperandLimit { at }
            | FdError::Overlap { at }
            | FdError::Overflow { at }
            | FdError::UnknownCall { at }
            | FdError::RulesSyntax { at }
            | FdError::RulesLimit { at }
            | FdError::SkeletonSyntax { at }
            | FdError::SkeletonUnsupported { at }
            | FdError::DigitOptions { at } => at,
            _ => 0,
        }
    }

    pub(crate) fn needed(self) -> usize
        ensures { result ≡ needed_of self }
    {
        match self {
            FdError::BufferTooSmall { needed } => needed,
            _ => 0,
        }
    }

    /// Returns whether a line has it, and no other line need have it.
    pub(crate) fn is_of_line(self) -> bool
        ensures { result ≡ is_of_line self }
    {
        !matches!(self, FdError::Memory | FdError::BufferTooSmall { .. })
    }
}

pub(crate) fn error_of_run(error: RunError) -> FdError
    ensures { result ≡ error_of_run error }
{
    match error {
        RunError::Start(error) => error_of_parsing(error, 0),
        RunError::Operand { at, fault } => error_of_operand(fault, at),
        RunError::Overlap { at } => FdError::Overlap { at },
        RunError::Limit { at } => FdError::Overflow { at },
        RunError::Memory { .. } | RunError::Sink => FdError::Memory,
    }
}

pub(crate) fn error_of_parsing(error: ParseError, at: usize) -> FdError
    ensures { result ≡ error_of_parsing error at }
{
    match error {
        ParseError::Syntax => FdError::Syntax { at },
        ParseError::Limit => FdError::Limit { at },
        ParseError::Memory => FdError::Memory,
    }
}

fn error_of_operand(error: ParseError, at: usize) -> FdError
    ensures { result ≡ error_of_operand error at }
{
    match error {
        ParseError::Syntax => FdError::OperandSyntax { at },
        ParseError::Limit => FdError::OperandLimit { at },
        ParseError::Memory => FdError::Memory,
    }
}
