//! Standard input in pieces.
use crate::row::Fault;
use std::io;
use std::io::Read;

/// A reader of a text, with at most `most` bytes a read, which may fail after the text.
#[derive(Drop)]
pub struct ChunkReader<'a> {
    pub text: &'a [u8],
    pub most: usize,
    pub fault: Fault,
    /// Whether the reader was called.
    pub is_read: bool,
}

impl Read for ChunkReader<'_> {
    fn read(&mut self, buf: &mut [u8]) -> io::Result<usize> {
        self.is_read = true;
        if let Fault::Read(kind) = self.fault
            && self.text.is_empty()
        {
            return Err(io::Error::from(kind));
        }
        let count = self.most.min(buf.len()).min(self.text.len());
        let (taken, rest) = self.text.split_at(count);
        buf[..count].copy_from_slice(taken);
        self.text = rest;
        Ok(count)
    }
}
