//! What `{}` writes of the errors whose texts no clause states, by itself or with options.
use fixed_decimal::{CallError, ConcatenateError, IntegerError, ParseError, RunError};
use test_support::displays;

const OPERAND: &[u8] = b"Call 0: Magnitude or number of digits exceeded";

const OVERLAP: &[u8] = b"Call 1: The numbers overlap";

const LIMIT: &[u8] = b"Call 18446744073709551615: Magnitude or number of digits exceeded";

const MEMORY: &[u8] = b"Call 12: Out of memory";

fn calls_are_displayed() -> bool {
    let (at, fault) = (0, ParseError::Limit);
    displays(&CallError::Operand { at, fault }, OPERAND)
        && displays(&CallError::Overlap { at: 1 }, OVERLAP)
        && displays(&CallError::Limit { at: usize::MAX }, LIMIT)
        && displays(&CallError::Memory { at: 12 }, MEMORY)
}

fn runs_are_displayed() -> bool {
    let (at, fault) = (0, ParseError::Limit);
    displays(
        &RunError::Start(ParseError::Syntax),
        b"Start: Failed to parse the input string",
    ) && displays(&RunError::Operand { at, fault }, OPERAND)
        && displays(&RunError::Overlap { at: 1 }, OVERLAP)
        && displays(&RunError::Limit { at: usize::MAX }, LIMIT)
        && displays(&RunError::Memory { at: 12 }, MEMORY)
        && displays(&RunError::Sink, b"The sink refused a byte")
}

pub fn are_displayed() -> bool {
    calls_are_displayed()
        && runs_are_displayed()
        && displays(&ConcatenateError::Overlap(5u8), b"The numbers overlap")
        && displays(&ConcatenateError::Memory(5u8), b"Out of memory")
        && displays(&IntegerError::NotWhole, b"Not a whole number")
        && displays(&IntegerError::OutOfRange, b"Integer out of range")
}
