//! A sink of a fixed size, on the stack.
ghost use Rattle.std.specs.Prelude.{◌≡◌, ℕ, List, [], ◌∷◌, ◌++◌, ◌+◌, ◌-◌, ◌<◌, ◌≤◌, ◌↔◌, IsTrue, length, take, Some, OnOk, OnErr, Bool, true, false, if◌then◌else◌};
ghost use Rattle.decimal_digits.specs.AppendsPrefix.{AppendsPrefix};
ghost use Rattle.decimal_format.specs.Blocks.{DoNotFit};

use fixed_decimal::{Sink, SinkFault};
use std::marker::Model;

/// The number of bytes that a block holds.
const SIZE: usize = 192;

/// A sink that holds up to 192 bytes. When more are put into it, it keeps the first 192 and fails.
///
/// ```
/// let mut block = Block::new();
/// block.put_bytes(b"2.50")?;
/// block.as_bytes() // b"2.50"
/// ```
#[derive(Drop)]
pub struct Block {
    bytes: [u8; SIZE],
    len: usize,
    failed: bool,
}

impl Model for Block {
    ghost Value = { List ℕ × Bool };

    ghost view = { λ s. (take s.len s.bytes, s.failed) };

    ghost invariant = { λ s. (s.len ≤ 192) × (s.failed ≡ true → s.len ≡ 192) };
}

impl Block {
    /// Makes an empty block.
    #[inline]
    pub fn new() -> Self
        ensures { result ≡ ([], false) }
    {
        Block {
            bytes: [0; SIZE],
            len: 0,
            failed: false,
        }
    }

    /// Returns the bytes that were put, in order: 192 if the block has failed.
    #[inline]
    pub fn as_bytes(&self) -> &[u8]
        ensures value { result.now ≡ self.now.0 }
        ensures at_most { length self.now.0 ≤ 192 }
        ensures full { self.now.1 ≡ true → length self.now.0 ≡ 192 }
    {
        &self.bytes[..self.len]
    }

    #[inline]
    pub(crate) fn has_room(&self, count: usize) -> bool
        ensures { IsTrue result ↔ (length self.now.0 + count ≤ 192) }
    {
        count <= SIZE - self.len
    }

    #[inline]
    pub(crate) fn push_if(&mut self, bytes: &[u8], condition: bool)
        requires { length self.old.0 + length bytes.now ≤ 192 }
        ensures value { self.new ≡ (self.old.0 ++ (if condition then bytes.now else []), self.old.1) }
        ensures at_most { length self.new.0 ≤ length self.old.0 + length bytes.now }
    {
        if !condition {
            return;
        }
        let end = self.len + bytes.len();
        match bytes {
            [] => {}
            [byte] => self.bytes[self.len] = *byte,
            [first, second] => {
                self.bytes[self.len] = *first;
                self.bytes[self.len + 1] = *second;
            }
            [first, second, third] => {
                self.bytes[self.len] = *first;
                self.bytes[self.len + 1] = *second;
                self.bytes[self.len + 2] = *third;
            }
            _ => self.bytes[self.len..end].copy_from_slice(bytes),
        }
        self.len = end;
    }

    #[inline(never)]
    fn fail(&mut self, bytes: &[u8])
        requires { 192 ≤ length self.old.0 + length bytes.now }
        ensures { self.new ≡ (self.old.0 ++ take (192 - length self.old.0) bytes.now, true) }
    {
        let room = SIZE - self.len;
        self.push_if(&bytes[..room], true);
        self.failed = true;
    }

    #[inline]
    pub(crate) fn append(&mut self, bytes: &[u8]) -> Result<(), SinkFault>
        ensures ok { OnOk result (self.new ≡ (self.old.0 ++ bytes.now, false)) }
        ensures had_not_failed { OnOk result (self.old.1 ≡ false) }
        ensures at_most { OnOk result (length self.new.0 ≤ 192) }
        ensures unchanged { self.old.1 ≡ true → self.new.0 ≡ self.old.0 }
        ensures err { OnErr result (DoNotFit self.old self.new bytes.now) }
    {
        if self.failed || !self.has_room(bytes.len()) {
            self.fail(bytes);
            return Err(SinkFault);
        }
        self.push_if(bytes, true);
        Ok(())
    }
}

impl Sink for Block {
    ghost contents = { λ s. Some s.0 };

    ghost has_failed = { λ s. s.1 };

    fn put_byte(&mut self, byte: u8) -> Result<(), SinkFault>
        ensures ok { OnOk result (self.new ≡ (self.old.0 ++ byte ∷ [], false)) }
        ensures had_not_failed { OnOk result (self.old.1 ≡ false) }
        ensures keeps { OnErr result (self.new ≡ (self.old.0, true)) }
        ensures err { OnErr result (DoNotFit self.old self.new (byte ∷ [])) }
    {
        self.append(&[byte])
    }

    #[inline]
    fn put_bytes(&mut self, bytes: &[u8]) -> Result<(), SinkFault>
        ensures ok { OnOk result (self.new ≡ (self.old.0 ++ bytes.now, false)) }
        ensures had_not_failed { OnOk result (self.old.1 ≡ false) }
        ensures prefix { OnErr result (AppendsPrefix (Some self.old.0) (Some self.new.0) bytes.now) }
        ensures unchanged { self.old.1 ≡ true → self.new.0 ≡ self.old.0 }
        ensures err { OnErr result (DoNotFit self.old self.new bytes.now) }
    {
        self.append(bytes)
    }

    fn failed(&self) -> bool {
        self.failed
    }
}
