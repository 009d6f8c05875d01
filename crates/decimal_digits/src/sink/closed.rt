//! A writer after its last call.
ghost use Rattle.std.specs.Prelude.{◌≡◌, Bool, true, false, is_some};

use super::WriteError;
use std::io::ErrorKind;
use std::marker::Model;

/// A writer after its last call, with the error of the call that failed, if one did.
///
/// ```
/// let closed = sink.close();
/// closed.has_failed() // false, if the writer took every byte
/// closed.into_writer() // the writer of the sink
/// ```
#[derive(Drop)]
pub struct Closed<W> {
    writer: W,
    error: Option<WriteError<W>>,
}

impl<W> Model for Closed<W> {
    ghost Value = { W × Bool };

    ghost view = { λ s. (s.writer, is_some s.error) };
}

impl<W> Closed<W> {
    /// Makes one of a writer and the error of its call that failed, if one did.
    pub fn new(writer: W, error: Option<WriteError<W>>) -> Self
        ensures { result ≡ (writer, is_some error) }
    {
        Closed { writer, error }
    }

    /// Returns whether a call of the writer failed.
    pub fn has_failed(&self) -> bool
        ensures { result ≡ self.now.1 }
    {
        self.error.is_some()
    }

    /// Returns the kind of the error of the call that failed.
    pub fn error(&self) -> Option<ErrorKind>
        ensures { is_some result ≡ self.now.1 }
    {
        Some(self.error.as_ref()?.kind())
    }

    /// Returns the writer.
    pub fn into_writer(self) -> W
        ensures { result ≡ self.0 }
    {
        let Closed { writer, error: _ } = self;
        writer
    }
}
