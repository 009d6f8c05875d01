//! The output of the longest number in blocks: how often the writer is called, and when no longer.
use crate::row::Row;
use cli::{ErrorLines, fixdec};
use std::alloc::Global;
use std::io;
use test_support::{FailingWriter, WriteFailure};

/// A number of 65,536 digits: with the decimal point and the line feed 65,538 bytes.
const LONGEST: &str = "fixdec\t1e32767|pad-end:-32768\t\t0";

/// The number of bytes that the writer takes, in calls of any number, the status, and the number of its calls.
const ROWS: &[(usize, u8, usize)] = &[(65_538, 0, 2), (65_537, 3, 3), (16_384, 3, 2), (0, 3, 1)];

pub fn are_written(alloc: Global) -> Option<bool> {
    let row = Row::parse(LONGEST)?;
    for (room, status, writes) in ROWS {
        let out = FailingWriter::new(b"", *room, WriteFailure::StorageFull).with_width(usize::MAX);
        let arguments = row.arguments(alloc)?;
        let mut err = io::sink();
        let mut lines = ErrorLines::new(&mut err);
        let (found, back) = fixdec::run_arguments(alloc, arguments, out, &mut lines);
        if found != *status || back?.into_writer().writes() != *writes {
            return Some(false);
        }
    }
    Some(true)
}
