//! The lines of statuses, as the programs print them.
ghost use Rattle.std.specs.{Prelude.{◌≡◌, ◌++◌, ◌≤◌, length, slice_get}, Option.option_map};
ghost use Rattle.fixed_decimal_c.specs.StatusTexts.{errors_at, around, line_with, line_of, status_line, WritesLine};

use crate::error::FdError;
use crate::texts::write_value;
use fixed_decimal::{Sink, SinkFault, Writeable};
use itoa::Buffer;

/// The errors of the statuses, starting at status 1, at a place.
fn errors_at(at: usize) -> [FdError; 24]
    ensures { result ≡ errors_at at }
{
    [
        FdError::Syntax { at },
        FdError::Limit { at },
        FdError::Memory,
        FdError::OperandSyntax { at },
        FdError::OperandLimit { at },
        FdError::Overlap { at },
        FdError::Overflow { at },
        FdError::BufferTooSmall { needed: 0 },
        FdError::UnknownCall { at },
        FdError::UnknownLocale,
        FdError::UnknownOption,
        FdError::NotWhole,
        FdError::OutOfRange,
        FdError::RulesSyntax { at },
        FdError::RulesLimit { at },
        FdError::SkeletonSyntax { at },
        FdError::SkeletonUnsupported { at },
        FdError::UnknownNumberingSystem,
        FdError::UnreadableFormat,
        FdError::DigitOptions { at },
        FdError::NoSkeleton,
        FdError::Formatter,
        FdError::PartsTooSmall,
        FdError::UnknownUnit,
    ]
}

fn error_at(at: usize, index: usize) -> Option<FdError>
    ensures { result ≡ slice_get (errors_at at) index }
{
    match errors_at(at).get(index) {
        Some(error) => Some(*error),
        None => None,
    }
}

/// A line: a text, a number or nothing, and another text.
#[derive(Clone, Copy)]
struct StatusLine {
    before: &'static str,
    number: Option<usize>,
    after: &'static str,
    ghost before_is_short: { length before.now ≤ 32 },
    ghost after_is_short: { length after.now ≤ 32 },
}

fn plain(line: &'static str) -> StatusLine
    requires { length line.now ≤ 32 }
    ensures { line_with result.before.now result.number result.after.now ≡ line.now }
{
    StatusLine {
        before: line,
        number: None,
        after: "",
    }
}

fn placed(before: &'static str, at: usize, after: &'static str) -> StatusLine
    requires before { length before.now ≤ 32 }
    requires after { length after.now ≤ 32 }
    ensures { line_with result.before.now result.number result.after.now ≡ around before.now at after.now }
{
    StatusLine {
        before,
        number: Some(at),
        after,
    }
}

fn line_of(calls: usize, error: FdError) -> StatusLine
    ensures { line_with result.before.now result.number result.after.now ≡ line_of calls error }
{
    match error {
        FdError::Syntax { at: 0 } => plain("start: syntax"),
        FdError::Syntax { .. } => plain("end: syntax"),
        FdError::Limit { at: 0 } => plain("start: limit"),
        FdError::Limit { .. } => plain("end: limit"),
        FdError::Memory => plain("memory"),
        FdError::OperandSyntax { at } => placed("call ", at, ": syntax"),
        FdError::OperandLimit { at } => placed("call ", at, ": limit"),
        FdError::Overlap { at } => placed("call ", at, ": overlap"),
        FdError::Overflow { at } if at < calls => placed("call ", at, ": overflow"),
        FdError::Overflow { .. } => plain("format: overflow"),
        FdError::BufferTooSmall { .. } => plain("buffer too small"),
        FdError::UnknownCall { at } => placed("no such call: ", at, ""),
        FdError::UnknownLocale => plain("unknown locale"),
        FdError::UnknownOption => plain("unknown option"),
        FdError::NotWhole => plain("not a whole number"),
        FdError::OutOfRange => plain("out of range"),
        FdError::RulesSyntax { at } => placed("rules: syntax at ", at, ""),
        FdError::RulesLimit { at } => placed("rules: limit at ", at, ""),
        FdError::SkeletonSyntax { at } => placed("skeleton: syntax at ", at, ""),
        FdError::SkeletonUnsupported { at } => placed("skeleton: unsupported at ", at, ""),
        FdError::UnknownNumberingSystem => plain("unknown numbering system"),
        FdError::UnreadableFormat => plain("skeleton: no reader"),
        FdError::DigitOptions { .. } => plain("no such numbers of digits"),
        FdError::NoSkeleton => plain("no such skeleton"),
        FdError::Formatter => plain("no formatter"),
        FdError::PartsTooSmall => plain("too few parts"),
        FdError::UnknownUnit => plain("unknown unit"),
    }
}

/// The text of a line, with its number.
#[derive(Clone, Copy)]
struct LineText<'a> {
    before: &'static str,
    number: &'a str,
    after: &'static str,
    ghost before_is_short: { length before.now ≤ 32 },
    ghost number_is_short: { length number.now ≤ 40 },
    ghost after_is_short: { length after.now ≤ 32 },
}

impl Writeable for LineText<'_> {
    ghost text = { λ line. line.before.now ++ (line.number.now ++ line.after.now) };

    fn write_to<W: Sink>(&self, sink: &mut W) -> Result<(), SinkFault> {
        sink.put_bytes(self.before.as_bytes())?;
        sink.put_bytes(self.number.as_bytes())?;
        sink.put_bytes(self.after.as_bytes())
    }

    fn writeable_length_hint(&self) -> usize {
        self.before.len() + self.number.len() + self.after.len()
    }
}

/// Returns the line of a status, if there is such a status; that of no error is empty.
fn status_line(status: u32, at: usize, calls: usize) -> Option<StatusLine>
    ensures { option_map (λ line. line_with line.before.now line.number line.after.now) result
        ≡ status_line status at calls }
{
    if status == 0 {
        return Some(plain(""));
    }
    match error_at(at, (status - 1) as usize) {
        Some(error) => Some(line_of(calls, error)),
        None => None,
    }
}

/// Writes the line of a status.
pub(crate) fn write_status(
    status: u32,
    at: usize,
    calls: usize,
    buffer: &mut [u8],
) -> Result<usize, FdError>
    ensures { WritesLine (status_line status at calls) result buffer.old buffer.new }
{
    let Some(line) = status_line(status, at, calls) else {
        return Err(FdError::UnknownOption);
    };
    let mut digits = Buffer::new();
    let number = match line.number {
        Some(at) => digits.format(at),
        None => "",
    };
    let text = LineText {
        before: line.before,
        number,
        after: line.after,
    };
    write_value(&text, buffer)
}
