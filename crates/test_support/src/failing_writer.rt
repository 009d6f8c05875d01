//! A writer that fails after a number of bytes, and counts its calls.
ghost use Rattle.std.specs.Prelude.{◌≡◌, IfOk};

use crate::expected_text::ExpectedText;
use std::io;
use std::io::Write;

/// How a writer fails when it has no room left.
#[derive(Clone, Copy)]
pub enum WriteFailure {
    /// It returns 0, now and later.
    Zero,
    /// It returns an error, now and later.
    StorageFull,
    /// It returns the error `Interrupted` once, and takes all later bytes.
    Interrupted,
    /// It returns 0, and an error when it is flushed.
    Flush,
}

/// A writer that takes `room` bytes, compares them with a text, and then fails. It counts its calls.
#[derive(Drop)]
pub struct FailingWriter<'a> {
    expected: ExpectedText<'a>,
    room: usize,
    width: usize,
    failure: WriteFailure,
    writes: usize,
    flushes: usize,
}

impl<'a> FailingWriter<'a> {
    /// Makes a writer that takes `room` bytes, one a call, and expects a prefix of a text.
    pub fn new(text: &'a [u8], room: usize, failure: WriteFailure) -> Self {
        FailingWriter {
            expected: ExpectedText::new(text),
            room,
            width: 1,
            failure,
            writes: 0,
            flushes: 0,
        }
    }

    /// Makes it take up to `width` bytes a call.
    pub fn with_width(mut self, width: usize) -> Self {
        self.width = width;
        self
    }

    /// Whether the bytes taken are exactly the first `count` of the text.
    pub fn has_taken(&self, count: usize) -> bool {
        self.expected.matches_prefix(count)
    }

    /// Whether the bytes taken are exactly the text.
    pub fn has_all(&self) -> bool {
        self.expected.is_whole()
    }

    /// Returns the number of writes, failed ones included.
    pub fn writes(&self) -> usize {
        self.writes
    }

    /// Returns the number of flushes.
    pub fn flushes(&self) -> usize {
        self.flushes
    }

    /// Returns the result of a write without room.
    fn fail(&mut self) -> io::Result<usize>
        ensures { IfOk result (λ taken. taken ≡ 0) }
    {
        match self.failure {
            WriteFailure::Zero | WriteFailure::Flush => Ok(0),
            WriteFailure::StorageFull => Err(io::Error::from(io::ErrorKind::StorageFull)),
            WriteFailure::Interrupted => {
                self.room = usize::MAX;
                Err(io::Error::from(io::ErrorKind::Interrupted))
            }
        }
    }
}

impl Write for FailingWriter<'_> {
    fn write(&mut self, bytes: &[u8]) -> io::Result<usize> {
        self.writes = self.writes.saturating_add(1);
        let room = self.room.saturating_sub(self.expected.taken());
        let taken = bytes.len().min(self.width).min(room);
        if taken == 0 {
            return self.fail();
        }
        self.expected.take(&bytes[..taken]);
        Ok(taken)
    }

    fn flush(&mut self) -> io::Result<()> {
        self.flushes = self.flushes.saturating_add(1);
        match self.failure {
            WriteFailure::Flush => Err(io::Error::from(io::ErrorKind::BrokenPipe)),
            _ => Ok(()),
        }
    }
}
