//! A sink that writes to a writer in blocks.
ghost use Rattle.std.specs.Prelude.{◌≡◌, ◌+◌, ◌≤◌, ℕ, List, [], ◌++◌, length, drop, OnOk, OnErr, IfOk, Bool, true, false, is_some, vec_len, vec_capacity};
ghost use Rattle.std.specs.Io.KnownBytes.{Keeps, Appends, append_known};
ghost use Rattle.decimal_digits.specs.AppendsPrefix.{AppendsPrefix};
ghost use Rattle.decimal_digits.specs.Buffered.{Buffered, buffered_contents};

use super::write_error::{flush, keep_error, write_whole};
use super::{Closed, Sink, SinkFault, WriteError};
use std::alloc::{AllocError, Global};
use std::io::{ErrorKind, Write};
use std::marker::Model;

/// The number of bytes of a block.
const BLOCK: usize = 65_536;

/// A sink that writes to a writer in blocks of 64 KiB, and slices that are longer at once.
///
/// The contents are those of the writer and then the bytes in the block, which `close` writes. A write that is
/// interrupted is repeated. A call of the writer that fails otherwise or takes no byte is a failure of the sink, after
/// which the writer is not called again.
///
/// ```
/// let mut sink = BufferedOut::open(alloc, rt.stdout())?;
/// value.write_to(&mut sink)?;
/// sink.close().error() // None, unless a call of standard output failed
/// ```
#[derive(Drop)]
pub struct BufferedOut<W: Write> {
    writer: W,
    block: Vec<u8>,
    error: Option<WriteError<W>>,
}

impl<W: Write> Model for BufferedOut<W> {
    ghost Value = { Buffered W };

    ghost view = { λ s. record { writer = s.writer; block = s.block.items; has_failed = is_some s.error } };
}

impl<W: Write + Drop> BufferedOut<W> {
    /// Returns a sink over `writer` that collects bytes in a block, which it allocates.
    ///
    /// # Errors
    ///
    /// Out of memory; the writer is dropped.
    pub fn open(alloc: Global, writer: W) -> Result<Self, AllocError>
        ensures opened { IfOk result (λ sink. sink ≡ record { writer = writer; block = []; has_failed = false }) }
        ensures contents { IfOk result (λ sink. buffered_contents W.contents sink ≡ W.contents writer) }
    {
        let block = Vec::with_capacity(alloc, BLOCK)?;
        Ok(BufferedOut {
            writer,
            block,
            error: None,
        })
    }

    /// Returns the kind of the error of the call that failed.
    pub fn error(&self) -> Option<ErrorKind>
        ensures { is_some result ≡ self.now.has_failed }
    {
        Some(self.error.as_ref()?.kind())
    }

    /// Drops the block, and does not call the writer.
    pub fn abandon(self) -> Closed<W>
        ensures { result ≡ (self.writer, self.has_failed) }
    {
        let BufferedOut { writer, error, .. } = self;
        Closed::new(writer, error)
    }

    /// Writes what the block holds, and flushes. After a failed call the writer is not called again.
    pub fn close(mut self) -> Closed<W>
        ensures written { result.1 ≡ false → Keeps (buffered_contents W.contents self) (W.contents result.0) }
        ensures prefix { (missing : List ℕ)
            × Keeps (buffered_contents W.contents self) (append_known (W.contents result.0) missing) }
        ensures stays_failed { self.has_failed ≡ true → result.1 ≡ true }
    {
        if self.error.is_some() || self.write_block().is_err() {
            return self.abandon();
        }
        let BufferedOut { mut writer, .. } = self;
        let error = flush(&mut writer).err();
        Closed::new(writer, error)
    }
}

impl<W: Write> BufferedOut<W> {
    fn write_block(&mut self) -> Result<(), SinkFault>
        ensures keeps { Keeps (buffered_contents W.contents self.old) (buffered_contents W.contents self.new) }
        ensures written { OnOk result (self.new.block ≡ []) }
        ensures has_not_failed { OnOk result (self.new.has_failed ≡ self.old.has_failed) }
        ensures failed { OnErr result (self.new.has_failed ≡ true) }
    {
        match write_whole(&mut self.writer, self.block.as_slice()) {
            Ok(()) => {
                self.block.clear();
                Ok(())
            }
            Err(error) => {
                remove_front(&mut self.block, error.written());
                self.error = Some(error);
                Err(SinkFault)
            }
        }
    }

    #[cold]
    #[inline(never)]
    fn put_after_block(&mut self, bytes: &[u8]) -> Result<(), SinkFault>
        ensures ok { OnOk result
            (Appends (buffered_contents W.contents self.old) (buffered_contents W.contents self.new) bytes.now) }
        ensures err { OnErr result
            (AppendsPrefix (buffered_contents W.contents self.old) (buffered_contents W.contents self.new) bytes.now) }
        ensures keeps { OnErr result (length bytes.now ≡ 1
            → Keeps (buffered_contents W.contents self.old) (buffered_contents W.contents self.new)) }
        ensures has_not_failed { OnOk result (self.new.has_failed ≡ self.old.has_failed) }
        ensures failed { OnErr result (self.new.has_failed ≡ true) }
    {
        self.write_block()?;
        if bytes.len() > self.block.capacity() {
            return keep_error(write_whole(&mut self.writer, bytes), &mut self.error);
        }
        append(&mut self.block, bytes);
        Ok(())
    }
}

impl<W: Write> Sink for BufferedOut<W> {
    ghost contents = { buffered_contents W.contents };

    ghost has_failed = { λ s. s.has_failed };

    #[inline(always)]
    fn put_byte(&mut self, byte: u8) -> Result<(), SinkFault> {
        if self.error.is_some() {
            return Err(SinkFault);
        }
        if self.block.len() == self.block.capacity() {
            return self.put_after_block(&[byte]);
        }
        self.block.push_reserved(byte);
        Ok(())
    }

    #[inline(always)]
    fn put_bytes(&mut self, bytes: &[u8]) -> Result<(), SinkFault> {
        if self.error.is_some() {
            return Err(SinkFault);
        }
        if bytes.len() > self.block.capacity() - self.block.len() {
            return self.put_after_block(bytes);
        }
        append(&mut self.block, bytes);
        Ok(())
    }

    fn failed(&self) -> bool {
        self.error.is_some()
    }
}

#[inline(always)]
fn append(block: &mut Vec<u8>, bytes: &[u8])
    requires { vec_len block.old + length bytes.now ≤ vec_capacity block.old }
    ensures { block.new.items ≡ block.old.items ++ bytes.now }
{
    let Ok(()) = block.extend_from_slice(bytes) else {
        unreachable!()
    };
}

fn remove_front(block: &mut Vec<u8>, count: usize)
    requires { count ≤ vec_len block.old }
    ensures { block.new.items ≡ drop count block.old.items }
{
    let len = block.len();
    block.as_mut_slice().copy_within(count..len, 0);
    block.truncate(len - count);
}
