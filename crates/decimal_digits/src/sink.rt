//! Sinks for the bytes of a text, and values that have a text.
ghost use Rattle.std.specs.Prelude.{◌≡◌, ℕ, List, [], ◌∷◌, length, Option, IsErr, OnOk, OnErr, Bool, true, false};
ghost use Rattle.std.specs.Io.KnownBytes.{Keeps, Appends};
ghost use Rattle.decimal_digits.specs.AppendsPrefix.{AppendsPrefix};

mod buffered_out;
mod closed;
mod out;
mod text_buf;
mod write_error;

pub use buffered_out::BufferedOut;
pub use closed::Closed;
pub use out::Out;
pub use text_buf::TextBuf;
pub use write_error::{WriteError, write_whole};

/// The error of a sink that rejects a byte.
///
/// ```
/// match value.write_to(&mut sink) {
///     Ok(()) => {} // the whole text is in the sink
///     Err(SinkFault) => {} // a prefix of the text is
/// }
/// ```
#[derive(Clone, Copy, Debug, PartialEq)]
pub struct SinkFault;

/// A destination of bytes.
///
/// Contracts see its contents, if they are observable, and whether a write has failed.
///
/// ```
/// let mut sink = TextBuf::new(alloc);
/// sink.put_bytes(b"2.")?;
/// sink.put_byte(b'5')?; // 2.5
/// ```
pub trait Sink {
    /// The bytes that were written, or None for a sink whose contents are not observable.
    ghost contents: { Self → Option (List ℕ) };

    /// Whether a write has failed.
    ghost has_failed: { Self → Bool };

    /// Appends one byte.
    ///
    /// # Errors
    ///
    /// The sink rejects the byte, or has failed before; the contents are unchanged.
    fn put_byte(&mut self, byte: u8) -> Result<(), SinkFault>
        ensures appends { OnOk result (Appends (contents self.old) (contents self.new) (byte ∷ [])) }
        ensures had_not_failed { OnOk result (has_failed self.old ≡ false) }
        ensures has_not_failed { OnOk result (has_failed self.new ≡ false) }
        ensures keeps { OnErr result (Keeps (contents self.old) (contents self.new)) }
        ensures failed { OnErr result (has_failed self.new ≡ true) };

    /// Returns whether a write has failed.
    fn failed(&self) -> bool
        ensures { result ≡ has_failed self.now };

    /// Appends bytes, in order.
    ///
    /// # Errors
    ///
    /// - The sink rejects a byte; the bytes before it are appended.
    /// - The sink has failed before, even if there are no bytes to append; the contents are unchanged.
    fn put_bytes(&mut self, bytes: &[u8]) -> Result<(), SinkFault>
        ensures appends { OnOk result (Appends (contents self.old) (contents self.new) bytes.now) }
        ensures had_not_failed { OnOk result (has_failed self.old ≡ false) }
        ensures has_not_failed { OnOk result (has_failed self.new ≡ false) }
        ensures prefix { OnErr result (AppendsPrefix (contents self.old) (contents self.new) bytes.now) }
        ensures failed { OnErr result (has_failed self.new ≡ true) }
        ensures unchanged { has_failed self.old ≡ true → Keeps (contents self.old) (contents self.new) }
    {
        if self.failed() {
            return Err(SinkFault);
        }
        for byte in bytes {
            self.put_byte(*byte)?;
        }
        Ok(())
    }
}

/// A value that has a text.
///
/// ```
/// value.write_to(&mut sink)?; // -2.50
/// value.writeable_length_hint() // 5
/// ```
pub trait Writeable {
    /// The bytes of the text.
    ghost text: { Self → List ℕ };

    /// Appends the text to a sink.
    ///
    /// # Errors
    ///
    /// - The sink rejects a byte; a prefix of the text is appended.
    /// - The sink has failed before; the contents are unchanged.
    fn write_to<W: Sink>(&self, sink: &mut W) -> Result<(), SinkFault>
        ensures ok { OnOk result (Appends (W.contents sink.old) (W.contents sink.new) (text self.now)) }
        ensures err { OnErr result (AppendsPrefix (W.contents sink.old) (W.contents sink.new) (text self.now)) }
        ensures had_not_failed { OnOk result (W.has_failed sink.old ≡ false) }
        ensures failed { OnErr result (W.has_failed sink.new ≡ true) }
        ensures unchanged { W.has_failed sink.old ≡ true → Keeps (W.contents sink.old) (W.contents sink.new) };

    /// Returns the exact number of bytes of the text.
    fn writeable_length_hint(&self) -> usize
        ensures { result ≡ length (text self.now) };
}
