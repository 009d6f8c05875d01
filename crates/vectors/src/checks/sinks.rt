//! How often sinks call their writers, and when no longer.
use decimal_digits::sink::{BufferedOut, Out, Sink, SinkFault};
use std::alloc::{AllocError, Global};
use std::io::{ErrorKind, Write};
use test_support::FailingWriter;
use test_support::WriteFailure::{self, Flush, Interrupted, StorageFull, Zero};

/// The text that is put into sinks.
const TEXT: &[u8] = b"-1234.50";

/// A writer that takes `room` bytes, one a write, and how it then fails; and what a sink makes of it: the number of
/// bytes that are taken, the kind of the error, and the numbers of writes and flushes.
#[derive(Clone, Copy)]
struct Row {
    room: usize,
    failure: WriteFailure,
    taken: usize,
    error: Option<ErrorKind>,
    writes: usize,
    flushes: usize,
}

/// The row of a writer that is not called again after its first failure.
fn failing(room: usize, failure: WriteFailure, error: ErrorKind) -> Row {
    Row {
        room,
        failure,
        taken: room,
        error: Some(error),
        writes: room.saturating_add(1),
        flushes: 0,
    }
}

/// The row of a writer that has taken the whole text, and is then flushed.
fn taking(room: usize, failure: WriteFailure, error: Option<ErrorKind>, writes: usize) -> Row {
    Row {
        room,
        failure,
        taken: TEXT.len(),
        error,
        writes,
        flushes: 1,
    }
}

/// Whether a writer has taken its bytes, and was called so often.
fn is_called(writer: &FailingWriter<'_>, row: Row) -> bool {
    writer.has_taken(row.taken) && writer.writes() == row.writes && writer.flushes() == row.flushes
}

/// Puts the text and flushes, up to the first error.
fn put<W: Write>(out: &mut Out<W>) -> Result<(), SinkFault> {
    out.put_bytes(b"")?;
    out.put_byte(TEXT[0])?;
    out.put_bytes(&TEXT[1..])?;
    out.flush()
}

/// Whether each call of a sink fails.
fn rejects_all<W: Write>(out: &mut Out<W>) -> bool {
    out.put_byte(b'0').is_err() && out.put_bytes(b"0").is_err() && out.flush().is_err()
}

/// Whether a sink calls its writer so often, and no more after an error.
fn calls(row: Row) -> bool {
    let mut out = Out::new(FailingWriter::new(TEXT, row.room, row.failure));
    let is_right = match put(&mut out) {
        Ok(()) => row.error.is_none(),
        Err(SinkFault) => row.error.is_some() && rejects_all(&mut out),
    };
    is_right && is_called(&out.into_writer(), row)
}

/// The same of a sink that writes in blocks, with the kind of the error.
fn calls_when_closed(alloc: Global, row: Row) -> Result<bool, AllocError> {
    let mut sink = BufferedOut::open(alloc, FailingWriter::new(TEXT, row.room, row.failure))?;
    let is_taken = sink.put_bytes(TEXT).is_ok();
    let closed = sink.close();
    let is_kind = closed.error() == row.error;
    Ok(is_taken && is_kind && is_called(&closed.into_writer(), row))
}

/// Whether both sinks do what a row says.
fn call(alloc: Global, row: Row) -> bool {
    calls(row) && calls_when_closed(alloc, row) == Ok(true)
}

/// Whether a write that is interrupted is a failure of a sink that makes one write a byte, and is repeated by one that
/// writes in blocks.
fn is_interrupted(alloc: Global, room: usize) -> bool {
    calls(failing(room, Interrupted, ErrorKind::Interrupted))
        && calls_when_closed(alloc, taking(room, Interrupted, None, 9)) == Ok(true)
}

/// Whether writers are called so often, with each failure after each number of bytes.
fn are_called(alloc: Global) -> bool {
    for room in 0..TEXT.len() {
        if !call(alloc, failing(room, Zero, ErrorKind::WriteZero))
            || !call(alloc, failing(room, StorageFull, ErrorKind::StorageFull))
            || !is_interrupted(alloc, room)
        {
            return false;
        }
    }
    call(alloc, taking(8, Flush, Some(ErrorKind::BrokenPipe), 8))
        && call(alloc, taking(8, Zero, None, 8))
}

/// The sizes of slices, and the number of writes to a writer that takes any number of bytes a call.
const WRITES: &[(&[usize], usize)] = &[
    (&[], 0),
    (&[0], 0),
    (&[1, 1, 1], 1),
    (&[65_536], 1),
    (&[65_536, 1], 2),
    (&[65_535, 2], 2),
    (&[65_537], 1),
    (&[1, 65_537, 1], 3),
];

/// Returns the number of writes of slices of these sizes.
fn writes_of(alloc: Global, bytes: &[u8], sizes: &[usize]) -> Result<usize, AllocError> {
    let writer = FailingWriter::new(b"", usize::MAX, Zero).with_width(usize::MAX);
    let mut sink = BufferedOut::open(alloc, writer)?;
    for size in sizes {
        let _ = sink.put_bytes(&bytes[..bytes.len().min(*size)]);
    }
    Ok(sink.close().into_writer().writes())
}

pub fn hold(alloc: Global) -> Option<bool> {
    let bytes = vec![in alloc; b'7'; 65_537].ok()?;
    for (sizes, writes) in WRITES {
        if writes_of(alloc, bytes.as_slice(), sizes).ok()? != *writes {
            return Some(false);
        }
    }
    Some(are_called(alloc))
}
