//! A sink in memory.
ghost use Rattle.std.specs.Prelude.{◌≡◌, ℕ, ◌+◌, ◌≤◌, List, [], ◌++◌, Some, OnOk, OnErr, Bool, true, false, vec_len, vec_capacity};

use super::{Sink, SinkFault};
use std::alloc::{AllocError, Global};
use std::marker::Model;

/// The number of bytes that the first growth reserves: more than most texts have, so that these take one allocation.
const MIN_CAPACITY: usize = 64;

/// A sink that keeps the bytes in memory. It fails only if out of memory.
///
/// Contracts see the bytes and whether the sink has failed.
///
/// ```
/// let mut text = TextBuf::new(alloc);
/// value.write_to(&mut text)?;
/// text.as_bytes() // b"-2.50"
/// ```
#[derive(Debug, Drop)]
pub struct TextBuf {
    bytes: Vec<u8>,
    failed: bool,
}

impl Model for TextBuf {
    ghost Value = { List ℕ × Bool };

    ghost view = { λ s. (s.bytes.items, s.failed) };
}

impl TextBuf {
    /// Makes an empty sink, without an allocation.
    pub fn new(alloc: Global) -> Self
        ensures { result ≡ ([], false) }
    {
        TextBuf {
            bytes: Vec::new(alloc),
            failed: false,
        }
    }

    /// Returns the bytes that were written, in order.
    pub fn as_bytes(&self) -> &[u8]
        ensures { result.now ≡ self.now.0 }
    {
        self.bytes.as_slice()
    }
}

// A growth reserves room for at least as much as there is.
fn reserve_amortized(bytes: &mut Vec<u8>, count: usize) -> Result<(), AllocError>
    ensures items { bytes.new.items ≡ bytes.old.items }
    ensures room { OnOk result (vec_len bytes.new + count ≤ vec_capacity bytes.new) }
{
    if count <= bytes.capacity() - bytes.len() {
        return Ok(());
    }
    bytes.reserve(count.max(bytes.len()).max(MIN_CAPACITY))
}

fn append(bytes: &mut Vec<u8>, more: &[u8]) -> Result<(), AllocError>
    ensures ok { OnOk result (bytes.new.items ≡ bytes.old.items ++ more.now) }
    ensures err { OnErr result (bytes.new.items ≡ bytes.old.items) }
{
    reserve_amortized(bytes, more.len())?;
    bytes.extend_from_slice(more)
}

impl Sink for TextBuf {
    ghost contents = { λ s. Some s.0 };

    ghost has_failed = { λ s. s.1 };

    fn put_byte(&mut self, byte: u8) -> Result<(), SinkFault> {
        if self.failed || reserve_amortized(&mut self.bytes, 1).is_err() {
            self.failed = true;
            return Err(SinkFault);
        }
        self.bytes.push_reserved(byte);
        Ok(())
    }

    fn put_bytes(&mut self, bytes: &[u8]) -> Result<(), SinkFault> {
        if self.failed || append(&mut self.bytes, bytes).is_err() {
            self.failed = true;
            return Err(SinkFault);
        }
        Ok(())
    }

    fn failed(&self) -> bool {
        self.failed
    }
}
