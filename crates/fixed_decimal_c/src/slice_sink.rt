//! A sink over a slice.
ghost use Rattle.std.specs.Prelude.{◌≡◌, ◌∷◌, ◌++◌, ◌+◌, ◌≤◌, length, take, nat_lt, Some};

use fixed_decimal::{Sink, SinkFault, Writeable};

/// A sink that writes to a slice. When more bytes are put than the slice holds, it keeps the first ones and fails.
#[derive(Drop)]
pub(crate) struct SliceSink<'a> {
    pub(crate) bytes: &'a mut [u8],
    /// The number of bytes that were put; after a failure one more than the slice holds.
    pub(crate) len: usize,
}

impl<'a> SliceSink<'a> {
    #[inline]
    pub(crate) fn new(bytes: &'a mut [u8]) -> SliceSink<'a>
        ensures same_slice { result.bytes.ghost_name ≡ bytes.entry.ghost_name }
        ensures bytes { result.bytes.now ≡ bytes.old }
        ensures empty { result.len ≡ 0 }
    {
        SliceSink { bytes, len: 0 }
    }

    /// Fills the slice with the text of a value, which has its length.
    #[inline]
    pub(crate) fn fill<T: Writeable>(&mut self, value: &T)
        requires fits { length self.old.bytes.now ≡ length (T.text value.now) }
        requires empty { self.old.len ≡ 0 }
        ensures same_slice { self.new.bytes.ghost_name ≡ self.old.bytes.ghost_name }
        ensures text { self.new.bytes.now ≡ T.text value.now }
    {
        let _ = value.write_to(self);
    }
}

fn copy_at(buffer: &mut [u8], at: usize, bytes: &[u8])
    requires { at + length bytes.now ≤ length buffer.old }
    ensures bytes { take (at + length bytes.now) buffer.new ≡ take at buffer.old ++ bytes.now }
    ensures length { length buffer.new ≡ length buffer.old }
{
    buffer[at..at + bytes.len()].copy_from_slice(bytes);
}

impl Sink for SliceSink<'_> {
    // They begin with which slice it is, and with its length: a write changes neither.
    ghost contents = { λ s. Some (s.bytes.ghost_name ∷ length s.bytes.now ∷ take s.len s.bytes.now) };

    ghost has_failed = { λ s. nat_lt (length s.bytes.now) s.len };

    #[inline]
    fn put_byte(&mut self, byte: u8) -> Result<(), SinkFault> {
        if self.len >= self.bytes.len() {
            self.len = self.bytes.len() + 1;
            return Err(SinkFault);
        }
        self.bytes[self.len] = byte;
        self.len += 1;
        Ok(())
    }

    #[inline]
    fn put_bytes(&mut self, bytes: &[u8]) -> Result<(), SinkFault> {
        let capacity = self.bytes.len();
        if self.len > capacity {
            return Err(SinkFault);
        }
        let count = bytes.len().min(capacity - self.len);
        copy_at(self.bytes, self.len, &bytes[..count]);
        if count < bytes.len() {
            self.len = capacity + 1;
            return Err(SinkFault);
        }
        self.len += count;
        Ok(())
    }

    fn failed(&self) -> bool {
        self.len > self.bytes.len()
    }
}
