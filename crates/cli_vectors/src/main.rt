//! Checks what the programs write, and their statuses; and skeletons that options are printed as.
//!
//! Each line of standard input is a row. One of two fields, with a tab between them, is of a skeleton, as
//! `tests/rows.py` says: the options of the skeleton have to be printed as one. All others have six fields; empty last
//! ones may be left out:
//!
//! 1. `fixdec`, `lines` (`fixdec_lines`) or `plural`, and after a blank perhaps what fails: `read` (each read after the
//!    input), `memory` (the same, out of memory), `flush` (of a closed pipe), `no-words` (out of memory) or `not-utf8`.
//! 2. The words, with bars between them.
//! 3. Standard input.
//! 4. The status.
//! 5. and 6. Standard output and standard error. A bar ends the bytes for which there is room.
//!
//! `\n`, `\r`, `\t` and `\xff` are bytes. A row is checked with several sizes of reads and writes, and several failures
//! of a writer without room; one of `fixdec` also by `program`. Blank lines, and lines that start with `#` and have no
//! tab, are not rows. Each row that fails is printed with its line number; the last line counts the rows. To add a row,
//! write it into `rows/programs.tsv`, run `cat crates/cli_vectors/rows/* tests/rows/*skeletons.tsv >
//! crates/cli_vectors/stdin`, and raise the count in `stdout`.
#![tactic(auto)]

mod blocks;
mod formats;
mod input;
mod longest_lines;
mod row;
mod skeletons;

use cli::{ErrorLines, LineReader, Program, fixdec, fixdec_lines, plural};
use fixed_decimal::{Closed, Out};
use input::ChunkReader;
use row::{Expected, Fault, Row, unescaped};
use std::alloc::Global;
use std::env::Args;
use std::io;
use std::process::ExitCode;
use test_support::{FailingWriter, WriteFailure, check_rows};

/// The most bytes of a read and of a write, and how a writer without room fails.
type Chunking = (usize, usize, WriteFailure);

const CHUNKINGS: &[Chunking] = &[
    (1, usize::MAX, WriteFailure::StorageFull),
    (2, 1, WriteFailure::Zero),
    (5, 1, WriteFailure::StorageFull),
    (100, usize::MAX, WriteFailure::Zero),
];

const CLOSED_PIPE: &[Chunking] = &[(100, 1, WriteFailure::Flush)];

/// Runs `fixdec_lines` on arguments and an input.
fn run_lines<'a>(
    alloc: Global,
    arguments: io::Result<Args>,
    input: &mut ChunkReader<'_>,
    out: FailingWriter<'a>,
    err: &mut FailingWriter<'_>,
) -> Option<(u8, Option<Closed<FailingWriter<'a>>>)> {
    let mut reader = LineReader::open(alloc, input).ok()?;
    let mut lines = ErrorLines::new(err);
    Some(fixdec_lines::run_arguments(alloc, arguments, &mut reader, out, &mut lines))
}

/// Whether a row holds. With status 2 the input is not read. Errors are one write a line, where a write takes a line.
fn holds_by(
    alloc: Global,
    row: &Row<'_>,
    text: &[u8],
    output: &Expected,
    errors: &Expected,
    (most, width, failure): Chunking,
) -> Option<bool> {
    let arguments = row.arguments(alloc)?;
    let mut input = ChunkReader {
        text,
        most,
        fault: row.fault,
        is_read: false,
    };
    let out = output.writer(failure).with_width(width);
    let mut err = errors.writer(failure).with_width(width);
    let (status, back) = match row.program {
        Program::Fixdec => {
            fixdec::run_arguments(alloc, arguments, out, &mut ErrorLines::new(&mut err))
        }
        Program::FixdecLines => run_lines(alloc, arguments, &mut input, out, &mut err)?,
        Program::Plural => {
            plural::run_arguments(alloc, arguments, out, &mut ErrorLines::new(&mut err))
        }
    };
    let Some(closed) = back else {
        return Some(false);
    };
    let out = closed.into_writer();
    let is_block = row.program != Program::Fixdec || output.is_in_one_write(&out);
    let is_whole = width == 1 || (errors.is_in_lines(&err) && is_block);
    let is_unread = status != 2 || !input.is_read;
    let are_written = output.is_in(&out) && errors.is_in(&err);
    Some(status == row.status && are_written && is_whole && is_unread)
}

/// Whether `program` of `fixdec`, which has no help, does what a row says of the words, with no buffer for the output.
fn holds_of_words(
    alloc: Global,
    row: &Row<'_>,
    output: &Expected,
    errors: &Expected,
    (_, width, failure): Chunking,
) -> Option<bool> {
    if row.program != Program::Fixdec || row.is_of_arguments() {
        return Some(true);
    }
    let words = row.words(alloc)?;
    let mut out = Out::new(output.writer(failure).with_width(width));
    let mut err = errors.writer(failure).with_width(width);
    let status = fixdec::program(alloc, words.as_slice(), &mut out, &mut err);
    Some(status == row.status && output.is_in(&out.into_writer()) && errors.is_in(&err))
}

/// Whether a row of a program holds with each size of reads and writes.
fn holds_of_program(alloc: Global, line: &str) -> Option<bool> {
    let row = Row::parse(line)?;
    let input = unescaped(alloc, row.input)?;
    let output = Expected::parse(alloc, row.output)?;
    let errors = Expected::parse(alloc, row.errors)?;
    let chunkings = match row.fault {
        Fault::Flush => CLOSED_PIPE,
        _ => CHUNKINGS,
    };
    for chunking in chunkings {
        let holds = holds_by(alloc, &row, input.as_slice(), &output, &errors, *chunking)?
            && holds_of_words(alloc, &row, &output, &errors, *chunking)?;
        if !holds {
            return Some(false);
        }
    }
    Some(true)
}

/// Whether a row of a line holds.
fn holds(alloc: Global, line: &str) -> Option<bool> {
    match line.split_once('\t') {
        Some((skeleton, expected)) if !expected.contains('\t') => {
            skeletons::holds(alloc, skeleton, expected)
        }
        _ => holds_of_program(alloc, line),
    }
}

/// Returns what does not hold, of what is no row of texts.
fn failing(alloc: Global) -> Option<&'static str> {
    if !longest_lines::are_reported() {
        return Some("the longest lines of errors are not reported");
    }
    if blocks::are_written(alloc) != Some(true) {
        return Some("the longest number is not written in blocks");
    }
    if formats::hold(alloc) != Some(true) {
        return Some("formats that are made by calls have other texts");
    }
    None
}

fn main(rt: HostRuntime) -> ExitCode {
    if let Some(message) = failing(rt.alloc()) {
        let _ = println!(rt; "{message}");
        return ExitCode::FAILURE;
    }
    check_rows(&rt, &[], |alloc, row, _| holds(alloc, row))
}
