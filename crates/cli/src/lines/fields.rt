//! The fields of a line.
ghost use Rattle.std.specs.{Prelude.{◌≡◌, ◌≢◌, ◌≤◌, ◌<◌, ◌+◌, ◌++◌, ℕ, List, [], length, slice_get, IfSome, IfOk, Ok, None, OnOk, OnErr, true}, List.list_any, Cow.cow_slice_items, Io.KnownBytes.Appends};
ghost use Rattle.decimal_digits.specs.AppendsPrefix.{AppendsPrefix};
ghost use Rattle.cli.specs.Fields.{is_quote, are_closed, is_outside, at_index, delimiter_after, start_of, bounds, has_open_quote, IsAt, IsCursor, double, doubled, between_quotes, quoted, Holds, is_quoted, is_special, needs_quotes, bytes_of, record_of, located};

use crate::lines::trim::without_return;
use conversions::OperationError;
use decimal_digits::sink::{Sink, SinkFault};
use std::alloc::{AllocError, Global};
use std::borrow::CowSlice;

/// A field of each line.
#[derive(Clone, Copy, Debug)]
pub struct Field<'a> {
    /// Its 0-based index.
    pub index: usize,
    /// The bytes between two fields.
    pub delimiter: &'a [u8],
    /// Whether a field may be in quotes, as in RFC 4180.
    pub is_csv: bool,
}

/// A field of a line, from which the search for later ones goes on.
#[derive(Clone, Copy)]
pub struct Cursor {
    /// Whether a quote of the line is left open.
    is_open: bool,
    /// The index of the field.
    index: usize,
    /// Its start.
    start: usize,
    /// The index of the delimiter after it. None: it is the last one.
    delimiter: Option<usize>,
}

/// Returns whether each quote that opens is closed.
pub fn are_closed(bytes: &[u8]) -> bool
    ensures { result ≡ are_closed bytes.now }
{
    bytes.iter().filter(|byte| **byte == b'"').count() % 2 == 0
}

fn has_quote(bytes: &[u8]) -> bool
    ensures { result ≡ list_any is_quote bytes.now }
{
    bytes.iter().any(|byte| *byte == b'"')
}

fn has_special(text: &[u8]) -> bool
    ensures { result ≡ list_any is_special text.now }
{
    text.iter()
        .any(|byte| *byte == b'"' || *byte == b'\r' || *byte == b'\n')
}

fn between_quotes(bytes: &[u8]) -> Option<&[u8]>
    ensures some { IfSome result (λ inner. bytes.now ≡ between_quotes inner.now) }
    ensures none { result ≡ None → (inner : List ℕ) → bytes.now ≢ between_quotes inner }
{
    let len = bytes.len();
    if len < 2 || bytes[0] != b'"' || bytes[len - 1] != b'"' {
        return None;
    }
    Some(&bytes[1..len - 1])
}

/// Returns the text that bytes hold with two quotes for one. None: a quote is alone.
fn undoubled(alloc: Global, bytes: &[u8]) -> Result<Option<Vec<u8>>, AllocError>
    ensures some { IfOk result (λ found. IfSome found (λ text. bytes.now ≡ doubled text.items)) }
    ensures none { result ≡ Ok None → (text : List ℕ) → bytes.now ≢ doubled text }
{
    let mut text = Vec::with_capacity(alloc, bytes.len())?;
    let mut is_open = false;
    for byte in bytes {
        let is_quote = *byte == b'"';
        if is_quote == is_open {
            text.push_reserved(*byte);
            is_open = false;
            continue;
        }
        if is_open {
            return Ok(None);
        }
        is_open = true;
    }
    if is_open {
        return Ok(None);
    }
    Ok(Some(text))
}

fn write_byte<W: Sink>(byte: u8, sink: &mut W) -> Result<(), SinkFault>
    ensures ok { OnOk result (Appends (W.contents sink.old) (W.contents sink.new) (double byte)) }
    ensures err { OnErr result (AppendsPrefix (W.contents sink.old) (W.contents sink.new) (double byte)) }
    ensures failed { OnErr result (W.has_failed sink.new ≡ true) }
{
    if byte == b'"' {
        sink.put_bytes(b"\"\"")
    } else {
        sink.put_bytes(&[byte])
    }
}

/// Writes a text in quotes.
pub fn write_quoted<W: Sink>(text: &[u8], sink: &mut W) -> Result<(), SinkFault>
    ensures ok { OnOk result (Appends (W.contents sink.old) (W.contents sink.new) (quoted text.now)) }
    ensures err { OnErr result (AppendsPrefix (W.contents sink.old) (W.contents sink.new) (quoted text.now)) }
    ensures failed { OnErr result (W.has_failed sink.new ≡ true) }
{
    sink.put_byte(b'"')?;
    for byte in text {
        write_byte(*byte, sink)?;
    }
    sink.put_byte(b'"')
}

impl Field<'_> {
    /// Returns whether what follows these bytes is outside of quotes, where `outside` says so of the bytes themselves.
    fn is_outside_after(&self, outside: bool, bytes: &[u8]) -> bool
        ensures { (before : List ℕ) → outside ≡ is_outside self.now before
            → result ≡ is_outside self.now (before ++ bytes.now) }
    {
        !self.is_csv || outside == are_closed(bytes)
    }

    /// Returns the index of the delimiter after the field that starts here. None: it is the last one.
    #[inline(always)]
    fn delimiter_after(&self, line: &[u8], start: usize) -> Option<usize>
        ensures { result ≡ delimiter_after self.now line.now start }
    {
        let (first, rest) = self.delimiter.split_first()?;
        let mut outside = true;
        for index in start..line.len() {
            if outside && line[index] == *first && line[index + 1..].starts_with(rest) {
                return Some(index);
            }
            outside = self.is_outside_after(outside, &line[index..index + 1]);
        }
        None
    }

    /// Returns the field with an index.
    pub fn at(self, index: usize) -> Self
        ensures { result ≡ at_index self.entry index }
    {
        Field { index, ..self }
    }

    /// Returns a cursor at the first field of a line.
    #[inline(always)]
    pub fn first(&self, line: &[u8]) -> Cursor
        ensures { IsCursor self.now line.now result }
    {
        Cursor {
            is_open: self.has_open_quote(line),
            index: 0,
            start: 0,
            delimiter: self.delimiter_after(self.record(line), 0),
        }
    }

    /// Returns the start and the end of the field with an index, to which the cursor moves.
    #[inline(always)]
    fn seek(&self, index: usize, line: &[u8], cursor: &mut Cursor) -> Option<(usize, usize)>
        requires { IsAt self.now line.now cursor.now }
        ensures value { result ≡ bounds self.now line.now index }
        ensures ordered { IfSome result (λ bounds. bounds.0 ≤ bounds.1) }
        ensures inside { IfSome result (λ bounds. bounds.1 ≤ length line.now) }
        ensures cursor { IsAt self.now line.now cursor.new }
        ensures is_open { cursor.new.is_open ≡ cursor.old.is_open }
    {
        let mut found = *cursor;
        if index < found.index {
            found = Cursor {
                index: 0,
                start: 0,
                delimiter: self.delimiter_after(line, 0),
                ..found
            };
        }
        while found.index < index {
            let start = found.delimiter? + self.delimiter.len();
            found = Cursor {
                index: found.index + 1,
                start,
                delimiter: self.delimiter_after(line, start),
                ..found
            };
        }
        *cursor = found;
        Some((found.start, found.delimiter.unwrap_or(line.len())))
    }

    /// Returns the start and the end of each field of a line.
    pub fn all_bounds(&self, alloc: Global, line: &[u8]) -> Result<Vec<(usize, usize)>, AllocError>
        ensures { IfOk result (λ all. (index : ℕ) → bounds self.now line.now index ≡ slice_get all.items index) }
    {
        let mut all = Vec::new(alloc);
        let mut start = 0;
        while let Some(end) = self.delimiter_after(line, start) {
            all.push((start, end))?;
            start = end + self.delimiter.len();
        }
        all.push((start, line.len()))?;
        Ok(all)
    }

    /// Returns whether a quote of a line is left open, which only CSV has.
    #[inline]
    pub fn has_open_quote(&self, line: &[u8]) -> bool
        ensures { result ≡ has_open_quote self.now line.now }
    {
        self.is_csv && !are_closed(line)
    }

    /// Returns the bytes of a line that its fields are in.
    pub fn record<'a>(&self, line: &'a [u8]) -> &'a [u8]
        ensures { result.now ≡ record_of self.now line.now }
    {
        if self.is_csv {
            without_return(line)
        } else {
            line
        }
    }

    /// Returns the start and the end of the field with an index in a line, to which the cursor moves.
    ///
    /// # Errors
    ///
    /// - `Quote`: in CSV a quote is left open.
    /// - `Field`: the line has fewer fields.
    #[inline(always)]
    pub fn locate(
        &self,
        index: usize,
        line: &[u8],
        cursor: &mut Cursor,
    ) -> Result<(usize, usize), OperationError>
        requires { IsCursor self.now line.now cursor.now }
        ensures value { result ≡ located self.now line.now index }
        ensures ordered { IfOk result (λ bounds. bounds.0 ≤ bounds.1) }
        ensures inside { IfOk result (λ bounds. bounds.1 ≤ length line.now) }
        ensures cursor { IsCursor self.now line.now cursor.new }
    {
        if cursor.is_open {
            return Err(OperationError::Quote);
        }
        match self.seek(index, self.record(line), cursor) {
            Some(bounds) => Ok(bounds),
            None => Err(OperationError::Field),
        }
    }

    /// Returns the text that the bytes of a field hold. None: a quote is in the wrong place.
    #[inline(always)]
    pub fn text<'a>(
        &self,
        alloc: Global,
        bytes: &'a [u8],
    ) -> Result<Option<CowSlice<'a, u8>>, AllocError>
        ensures some { IfOk result (λ found. IfSome found (λ text. Holds self.now bytes.now (cow_slice_items text))) }
        ensures none { result ≡ Ok None → (text : List ℕ) → ¬ Holds self.now bytes.now text }
    {
        if !self.is_quoted(bytes) {
            return Ok(Some(CowSlice::Borrowed(bytes)));
        }
        let Some(inner) = between_quotes(bytes) else {
            return Ok(None);
        };
        if !has_quote(inner) {
            return Ok(Some(CowSlice::Borrowed(inner)));
        }
        match undoubled(alloc, inner)? {
            Some(text) => Ok(Some(CowSlice::Owned(text))),
            None => Ok(None),
        }
    }

    /// Returns whether the bytes of a field have quotes, which only CSV has.
    pub fn is_quoted(&self, bytes: &[u8]) -> bool
        ensures { result ≡ is_quoted self.now bytes.now }
    {
        self.is_csv && has_quote(bytes)
    }

    #[inline(always)]
    fn needs_quotes(&self, text: &[u8]) -> bool
        ensures { result ≡ needs_quotes self.now text.now }
    {
        self.is_csv && (self.delimiter_after(text, 0).is_some() || has_special(text))
    }

    /// Writes a text as the field.
    #[inline(always)]
    pub fn write<W: Sink>(&self, text: &[u8], sink: &mut W) -> Result<(), SinkFault>
        ensures ok { OnOk result (Appends (W.contents sink.old) (W.contents sink.new) (bytes_of self.now text.now)) }
        ensures err { OnErr result (AppendsPrefix (W.contents sink.old) (W.contents sink.new)
            (bytes_of self.now text.now)) }
        ensures failed { OnErr result (W.has_failed sink.new ≡ true) }
    {
        if self.needs_quotes(text) {
            write_quoted(text, sink)
        } else {
            sink.put_bytes(text)
        }
    }
}
