//! The longest lines of errors.
use cli::{
    Diagnostics, ErrorLines, FieldLabel, LineError, OperationError, Program, ProgramError, Reason,
    ShownWord, WordsError,
};
use test_support::{FailingWriter, WriteFailure};

/// Whether an error is reported by this line, in one write.
fn is_reported(error: &ProgramError, line: &str) -> bool {
    let failure = WriteFailure::StorageFull;
    let mut err = FailingWriter::new(line.as_bytes(), usize::MAX, failure).with_width(usize::MAX);
    ErrorLines::new(&mut err).report(error);
    err.has_all() && err.writes() == 1
}

/// An overflow in the last line of an input.
fn overflow(field: FieldLabel) -> ProgramError {
    ProgramError::Line {
        line: u64::MAX,
        error: LineError {
            field: Some(field),
            error: OperationError::Overflow { at: usize::MAX },
        },
    }
}

fn shown_word() -> ShownWord {
    ShownWord::of("0123456789\u{1b}123456789\u{9b}123456789\n123456789+")
}

pub fn are_reported() -> bool {
    let lines = [
        (
            ProgramError::setup(Program::FixdecLines, WordsError::Misplaced(shown_word())),
            "fixdec_lines: 0123456789?123456789?123456789?123456789 is not in its place (--help lists all)\n",
        ),
        (
            overflow(FieldLabel::Index(usize::MAX - 1)),
            "line 18446744073709551615: field 18446744073709551615: call 18446744073709551615: overflow\n",
        ),
        (
            overflow(FieldLabel::Name(shown_word())),
            "line 18446744073709551615: 0123456789?123456789?123456789?123456789: \
             call 18446744073709551615: overflow\n",
        ),
        (
            ProgramError::Text {
                number: usize::MAX,
                reason: Reason::Limit,
            },
            "text 18446744073709551615: limit\n",
        ),
    ];
    for (error, line) in lines {
        if !is_reported(&error, line) {
            return false;
        }
    }
    true
}
