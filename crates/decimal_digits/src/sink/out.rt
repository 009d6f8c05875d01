//! A sink over a writer.
ghost use Rattle.std.specs.Prelude.{◌≡◌, ℕ, List, OnOk, OnErr, Bool, true, false, is_some};
ghost use Rattle.std.specs.Io.KnownBytes.{Keeps, append_known};
ghost use Rattle.std.specs.Io.Buffered.{writer_contents, writer_inner};

use super::write_error::{flush, keep_error, write_byte, write_whole};
use super::{Closed, Sink, SinkFault, WriteError};
use std::io::{BufWriter, Write};
use std::marker::Model;

/// A sink over a writer, by one write for each byte.
///
/// A write that fails, is interrupted, or takes no byte is a failure of the sink, after which the writer is not called
/// again. Contracts see the writer, and whether the sink has failed.
///
/// ```
/// let mut sink = Out::new(Vec::new(alloc));
/// value.write_to(&mut sink)?;
/// sink.into_writer() // the bytes of the text
/// ```
#[derive(Debug, Drop)]
pub struct Out<W: Write> {
    writer: W,
    error: Option<WriteError<W>>,
}

impl<W: Write> Model for Out<W> {
    ghost Value = { W × Bool };

    ghost view = { λ s. (s.writer, is_some s.error) };
}

impl<W: Write> Out<W> {
    /// Makes a sink over a writer. The contents of the writer are those of the sink.
    pub fn new(writer: W) -> Self
        ensures { result ≡ (writer, false) }
    {
        Out {
            writer,
            error: None,
        }
    }

    /// Flushes the writer. The contents are unchanged.
    ///
    /// # Errors
    ///
    /// - The sink has failed before. The writer is not called.
    /// - The flush of the writer fails. The sink has then failed.
    pub fn flush(&mut self) -> Result<(), SinkFault>
        ensures keeps { Keeps (W.contents self.old.0) (W.contents self.new.0) }
        ensures had_not_failed { OnOk result (self.old.1 ≡ false) }
        ensures has_not_failed { OnOk result (self.new.1 ≡ false) }
        ensures failed { OnErr result (self.new.1 ≡ true) }
    {
        if self.error.is_some() {
            return Err(SinkFault);
        }
        keep_error(flush(&mut self.writer), &mut self.error)
    }

    /// Returns the writer, whether or not the sink has failed.
    pub fn into_writer(self) -> W
        ensures { result ≡ self.0 }
    {
        let Out { writer, error: _ } = self;
        writer
    }
}

impl<W: Write + Drop> Out<BufWriter<W>> {
    /// Drops what the buffer holds, and does not call the writer.
    pub fn abandon(self) -> Closed<W>
        ensures { result ≡ (writer_inner self.0, self.1) }
    {
        let Out { writer, error } = self;
        let (writer, _unwritten) = writer.into_parts();
        match error {
            Some(error) => Closed::new(writer, Some(error.into_inner())),
            None => Closed::new(writer, None),
        }
    }

    /// Writes what the buffer holds, and does not flush the writer. After a failed call the writer is not called again.
    pub fn close(self) -> Closed<W>
        ensures written { result.1 ≡ false → Keeps (writer_contents W.contents self.0) (W.contents result.0) }
        ensures prefix { (missing : List ℕ)
            × Keeps (writer_contents W.contents self.0) (append_known (W.contents result.0) missing) }
        ensures stays_failed { self.1 ≡ true → result.1 ≡ true }
    {
        if self.error.is_some() {
            return self.abandon();
        }
        let (mut writer, unwritten) = self.into_writer().into_parts();
        match write_whole(&mut writer, unwritten.as_slice()) {
            Ok(()) => Closed::new(writer, None),
            Err(error) => Closed::new(writer, Some(error)),
        }
    }
}

impl<W: Write> Sink for Out<W> {
    ghost contents = { λ s. W.contents s.0 };

    ghost has_failed = { λ s. s.1 };

    fn put_byte(&mut self, byte: u8) -> Result<(), SinkFault> {
        if self.error.is_some() {
            return Err(SinkFault);
        }
        keep_error(write_byte(&mut self.writer, byte), &mut self.error)
    }

    fn failed(&self) -> bool {
        self.error.is_some()
    }
}
