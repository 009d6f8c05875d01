//! Calls of a writer, and the error of one that failed.
ghost use Rattle.std.specs.Prelude.{◌≡◌, ◌≢◌, ◌<◌, ◌≤◌, ℕ, [], ◌∷◌, length, take, IsSome, IsOk, IsErr, OnOk, OnErr, IfOk, IfErr};
ghost use Rattle.std.specs.Io.KnownBytes.{Keeps, Appends};

use super::SinkFault;
use std::io::{BufWriter, ErrorKind, Write};
use std::marker::{Model, PhantomData};

/// The error of a call of a `W` that failed.
///
/// Only a failed call makes one. Contracts see the number of bytes that were written before it failed.
///
/// ```
/// if let Err(error) = write_whole(&mut writer, b"2.50\n") {
///     error.written() // the number of bytes that the writer took before
/// }
/// ```
#[derive(Debug, Drop)]
pub struct WriteError<W> {
    kind: ErrorKind,
    written: usize,
    writer: PhantomData<W>,
}

impl<W> Model for WriteError<W> {
    ghost Value = { ℕ };

    ghost view = { λ s. s.written };
}

impl<W> WriteError<W> {
    /// Returns the kind of the error; `WriteZero` for a write that took no byte.
    pub fn kind(&self) -> ErrorKind {
        self.kind
    }

    /// Returns the number of bytes that were written.
    pub fn written(&self) -> usize
        ensures { result ≡ self.now }
    {
        self.written
    }

    fn new(kind: ErrorKind, written: usize) -> Self
        ensures { result ≡ written }
    {
        WriteError {
            kind,
            written,
            writer: PhantomData,
        }
    }
}

impl<W: Write + Drop> WriteError<BufWriter<W>> {
    /// Returns the error of the writer behind a buffer. A call of the buffer fails only with one of the writer.
    pub fn into_inner(self) -> WriteError<W> {
        WriteError::new(self.kind, 0)
    }
}

/// Writes a byte, by one call of the writer: a call that is interrupted fails.
pub(super) fn write_byte<W: Write>(writer: &mut W, byte: u8) -> Result<(), WriteError<W>>
    ensures ok { OnOk result (Appends (W.contents writer.old) (W.contents writer.new) (byte ∷ [])) }
    ensures err { IfErr result (λ written. written ≡ 0) }
    ensures keeps { OnErr result (Keeps (W.contents writer.old) (W.contents writer.new)) }
{
    match writer.write(&[byte]) {
        Ok(0) => Err(WriteError::new(ErrorKind::WriteZero, 0)),
        Ok(_) => Ok(()),
        Err(error) => Err(WriteError::new(error.kind(), 0)),
    }
}

/// Writes some bytes, by a call of the writer that is repeated while it is interrupted.
fn write_some<W: Write>(writer: &mut W, bytes: &[u8]) -> Result<usize, ErrorKind>
    ensures at_most { IfOk result (λ count. count ≤ length bytes.now) }
    ensures ok { IfOk result (λ count.
        Appends (W.contents writer.old) (W.contents writer.new) (take count bytes.now)) }
    ensures err { OnErr result (Keeps (W.contents writer.old) (W.contents writer.new)) }
    ensures repeated { IfErr result (λ kind. kind ≢ ErrorKind.Interrupted) }
{
    for _ in 0..u64::MAX {
        match writer.write(bytes) {
            Ok(count) => return Ok(count),
            Err(error) => {
                let kind = error.kind();
                if kind != ErrorKind::Interrupted {
                    return Err(kind);
                }
            }
        }
    }
    Err(ErrorKind::Other)
}

/// Calls a writer until it has taken all bytes.
///
/// A call that is interrupted is repeated. After a call that fails otherwise, or takes no byte, the writer is not
/// called again.
///
/// ```
/// write_whole(&mut writer, b"2.50\n")?;
/// ```
///
/// # Errors
///
/// The error of the call that failed, or took no byte. The writer has taken a prefix of the bytes, whose length is in
/// the error.
pub fn write_whole<W: Write>(writer: &mut W, bytes: &[u8]) -> Result<(), WriteError<W>>
    ensures ok { OnOk result (Appends (W.contents writer.old) (W.contents writer.new) bytes.now) }
    ensures err { IfErr result (λ written.
        Appends (W.contents writer.old) (W.contents writer.new) (take written bytes.now)) }
    ensures written { IfErr result (λ written. written < length bytes.now) }
{
    let mut written = 0;
    while written < bytes.len() {
        match write_some(writer, &bytes[written..]) {
            Ok(0) => return Err(WriteError::new(ErrorKind::WriteZero, written)),
            Ok(count) => written += count,
            Err(kind) => return Err(WriteError::new(kind, written)),
        }
    }
    Ok(())
}

pub fn flush<W: Write>(writer: &mut W) -> Result<(), WriteError<W>>
    ensures { Keeps (W.contents writer.old) (W.contents writer.new) }
{
    match writer.flush() {
        Ok(()) => Ok(()),
        Err(error) => Err(WriteError::new(error.kind(), 0)),
    }
}

pub(super) fn keep_error<W>(
    called: Result<(), WriteError<W>>,
    error: &mut Option<WriteError<W>>,
) -> Result<(), SinkFault>
    ensures ok { OnOk result (error.new ≡ error.old) }
    ensures is_ok { OnOk result (IsOk called) }
    ensures err { OnErr result (IsSome error.new) }
    ensures is_err { OnErr result (IsErr called) }
{
    match called {
        Ok(()) => Ok(()),
        Err(failure) => {
            *error = Some(failure);
            Err(SinkFault)
        }
    }
}
