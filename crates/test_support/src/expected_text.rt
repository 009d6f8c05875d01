//! A text that is expected.

/// A text that is expected, and the part that has been received.
#[derive(Clone, Copy)]
pub struct ExpectedText<'a> {
    rest: &'a [u8],
    taken: usize,
    is_other: bool,
}

impl<'a> ExpectedText<'a> {
    /// Makes an expected text of which nothing has been received.
    pub fn new(text: &'a [u8]) -> Self {
        ExpectedText {
            rest: text,
            taken: 0,
            is_other: false,
        }
    }

    /// Receives bytes, whether they are the next of the text or not.
    pub fn take(&mut self, bytes: &[u8]) {
        self.taken = self.taken.saturating_add(bytes.len());
        match self.rest.strip_prefix(bytes) {
            Some(rest) => self.rest = rest,
            None => self.is_other = true,
        }
    }

    /// Returns the number of bytes received.
    pub fn taken(&self) -> usize {
        self.taken
    }

    /// Whether the bytes received are exactly the first `count` of the text.
    pub fn matches_prefix(&self, count: usize) -> bool {
        !self.is_other & (self.taken == count)
    }

    /// Whether the bytes received are exactly the text.
    pub fn is_whole(&self) -> bool {
        !self.is_other & self.rest.is_empty()
    }
}
