//! A sink that fails after a number of bytes.
ghost use Rattle.std.specs.Prelude.{None};

use crate::expected_text::ExpectedText;
use decimal_digits::sink::{Sink, SinkFault, Writeable};
use std::fmt;
use std::fmt::Write;

/// A sink that takes `room` bytes, compares them with a text, and then fails.
#[derive(Drop)]
pub struct LimitedSink<'a> {
    expected: ExpectedText<'a>,
    room: usize,
    failed: bool,
}

impl<'a> LimitedSink<'a> {
    /// Makes a sink that takes `room` bytes, and expects a prefix of a text.
    pub fn new(text: &'a [u8], room: usize) -> Self {
        LimitedSink {
            expected: ExpectedText::new(text),
            room,
            failed: false,
        }
    }

    /// Whether the bytes taken are exactly the first `count` of the text.
    pub fn has_taken(&self, count: usize) -> bool {
        self.expected.matches_prefix(count)
    }

    /// Whether the bytes taken are exactly the text.
    pub fn has_all(&self) -> bool {
        self.expected.is_whole()
    }
}

impl Sink for LimitedSink<'_> {
    ghost contents = { λ _. None };

    ghost has_failed = { λ s. s.failed };

    fn put_byte(&mut self, byte: u8) -> Result<(), SinkFault> {
        if self.failed || self.expected.taken() >= self.room {
            self.failed = true;
            return Err(SinkFault);
        }
        self.expected.take(&[byte]);
        Ok(())
    }

    fn failed(&self) -> bool {
        self.failed
    }
}

impl fmt::Write for LimitedSink<'_> {
    fn write_str(&mut self, text: &str) -> fmt::Result {
        match self.put_bytes(text.as_bytes()) {
            Ok(()) => Ok(()),
            Err(SinkFault) => Err(fmt::Error),
        }
    }
}

/// Whether a value has this text. Does not allocate.
pub fn shows<T: Writeable>(value: &T, text: &[u8]) -> bool {
    let mut sink = LimitedSink::new(text, usize::MAX);
    value.write_to(&mut sink).is_ok() & sink.has_all()
}

/// Whether `{}` writes this text of a value, also with options. Does not allocate.
pub fn displays<T: fmt::Display>(value: &T, text: &[u8]) -> bool {
    let mut plain = LimitedSink::new(text, usize::MAX);
    let mut sink = LimitedSink::new(text, usize::MAX);
    write!(plain, "{value}").is_ok()
        & plain.has_all()
        & write!(sink, "{value:<090.1}").is_ok()
        & sink.has_all()
}

/// Whether writing a value fails with sinks that have room for a prefix of its text: with each one, or for a long text
/// with some. Each takes the prefix.
pub fn fails_without_room<T: Writeable>(value: &T, text: &[u8]) -> bool {
    for room in (0..text.len()).step_by(text.len() / 128 + 1) {
        let mut sink = LimitedSink::new(text, room);
        let failed = value.write_to(&mut sink).is_err();
        if !(failed & sink.failed() & sink.has_taken(room)) {
            return false;
        }
    }
    true
}
