//! Input in blocks.
ghost use Rattle.std.specs.{Prelude.{◌≡◌, ◌<◌, [], length, Ok, Some, None, true, false, OnOk, IfOk, IfErr, IfSome}, Io.{StartsWith, BufRead.{DropsConsumable, strip_last}, Buffered.{reader_buffer, reader_inner}}};
ghost use Rattle.cli.specs.Input.{bytes_left, IsRead, IsAppended, IsRecordRead, IsRowRead};

use crate::lines::fields::are_closed;
use crate::lines::records::LONGEST_RECORD;
use std::alloc::{AllocError, Global};
use std::io::{BufRead, BufReader, ErrorKind, Read};
use std::marker::Model;

/// The number of bytes of a block.
const BLOCK: usize = 65_536;

/// Reads lines from a reader in blocks.
///
/// It keeps the kind of the first error, and does not call the reader after it.
#[derive(Drop)]
pub struct LineReader<R: Read> {
    reader: BufReader<R>,
    error: Option<ErrorKind>,
}

impl<R: Read> Model for LineReader<R> {
    ghost use Rattle.std.specs.{Prelude.Option, declared.{alloc.Global.Global, io.{ErrorKind.ErrorKind, buffered.BufReader.BufReader}}};

    ghost Value = { BufReader R Global × Option ErrorKind };

    ghost view = { λ s. (s.reader, s.error) };
}

fn pop_line_feed(line: &mut Vec<u8>)
    ensures { line.new.items ≡ strip_last 10 line.old.items }
{
    let len = line.len();
    if len > 0 && line[len - 1] == b'\n' {
        line.truncate(len - 1);
    }
}

impl<R: Read> LineReader<R> {
    /// Returns a reader of lines from `reader` that takes bytes into a block, which it allocates.
    ///
    /// # Errors
    ///
    /// Out of memory; the reader is dropped.
    pub fn open(alloc: Global, reader: R) -> Result<Self, AllocError>
    where
        R: Drop,
        ensures inner { IfOk result (λ lines. reader_inner lines.0 ≡ reader) }
        ensures remaining { IfOk result (λ lines. bytes_left R.remaining lines ≡ R.remaining reader) }
        ensures has_not_failed { IfOk result (λ lines. lines.1 ≡ None) }
    {
        match BufReader::with_capacity(alloc, BLOCK, reader) {
            Ok(reader) => Ok(LineReader {
                reader,
                error: None,
            }),
            Err(_) => Err(AllocError),
        }
    }

    /// Returns the kind of the first error.
    pub fn error(&self) -> Option<ErrorKind>
        ensures { result ≡ self.now.1 }
    {
        self.error
    }

    /// Returns the bytes that were read and not yet consumed.
    pub fn block(&self) -> &[u8]
        ensures { result.now ≡ reader_buffer self.now.0 }
    {
        self.reader.buffer()
    }

    /// Consumes the first bytes of the block.
    pub fn consume(&mut self, amount: usize)
        ensures bytes { DropsConsumable (bytes_left R.remaining self.old) (bytes_left R.remaining self.new)
            (Some (length (reader_buffer self.old.0))) amount }
        ensures error { self.new.1 ≡ self.old.1 }
    {
        self.reader.consume(amount);
    }

    /// Reads the next line into `line`, without its line feed, and returns whether there is one.
    ///
    /// # Errors
    ///
    /// The kind of the first error, which is `OutOfMemory` where `line` has no room for the line.
    pub fn read_line(&mut self, line: &mut Vec<u8>) -> Result<bool, ErrorKind>
        ensures read { IfOk result (λ is_line. IfSome (bytes_left R.remaining self.old)
            (λ bytes. IsRead is_line bytes line.new.items (bytes_left R.remaining self.new))) }
        ensures has_not_failed { OnOk result (self.new.1 ≡ None) }
        ensures failed { IfErr result (λ kind. self.new.1 ≡ Some kind) }
    {
        line.clear();
        let is_line = self.append_line(line)?;
        pop_line_feed(line);
        Ok(is_line)
    }

    /// Reads the next record into `row`, without a line feed at its end, and returns whether there is one.
    ///
    /// # Errors
    ///
    /// The kind of the first error, which is `OutOfMemory` where `row` has no room for the record.
    fn read_record(&mut self, row: &mut Vec<u8>) -> Result<bool, ErrorKind>
        ensures read { IfOk result (λ some. IfSome (bytes_left R.remaining self.old)
            (λ bytes. IsRecordRead some bytes row.new.items (bytes_left R.remaining self.new))) }
        ensures has_not_failed { OnOk result (self.new.1 ≡ None) }
        ensures failed { IfErr result (λ kind. self.new.1 ≡ Some kind) }
    {
        row.clear();
        let some = self.append_record(row)?;
        pop_line_feed(row);
        Ok(some)
    }

    /// Appends the lines of the next record, with their line feeds, and returns whether there is one.
    fn append_record(&mut self, row: &mut Vec<u8>) -> Result<bool, ErrorKind>
        requires { row.old.items ≡ [] }
        ensures read { IfOk result (λ some. IfSome (bytes_left R.remaining self.old)
            (λ bytes. IsRecordRead some bytes (strip_last 10 row.new.items) (bytes_left R.remaining self.new))) }
        ensures has_not_failed { OnOk result (self.new.1 ≡ None) }
        ensures failed { IfErr result (λ kind. self.new.1 ≡ Some kind) }
    {
        if !self.append_line(row)? {
            return Ok(false);
        }
        let mut is_closed = are_closed(row.as_slice());
        while !is_closed && row.len() <= LONGEST_RECORD {
            let start = row.len();
            if !self.append_line(row)? {
                return Ok(true);
            }
            is_closed = !are_closed(&row[start..]);
        }
        Ok(true)
    }

    /// Reads the next row, a line or a record, into `row`, and returns whether there is one.
    ///
    /// # Errors
    ///
    /// The kind of the first error, which is `OutOfMemory` where `row` has no room for the row.
    pub fn read_row(&mut self, is_record: bool, row: &mut Vec<u8>) -> Result<bool, ErrorKind>
        ensures read { IfOk result (λ some. IfSome (bytes_left R.remaining self.old)
            (λ bytes. IsRowRead is_record some bytes row.new.items (bytes_left R.remaining self.new))) }
        ensures has_not_failed { OnOk result (self.new.1 ≡ None) }
        ensures failed { IfErr result (λ kind. self.new.1 ≡ Some kind) }
    {
        if is_record {
            self.read_record(row)
        } else {
            self.read_line(row)
        }
    }

    /// Appends the next line, with its line feed, and returns whether there is one.
    fn append_line(&mut self, bytes: &mut Vec<u8>) -> Result<bool, ErrorKind>
        ensures read { IfOk result (λ is_line. IfSome (bytes_left R.remaining self.old)
            (λ left. IsAppended is_line left bytes.old.items bytes.new.items (bytes_left R.remaining self.new))) }
        ensures longer { result ≡ Ok true → length bytes.old.items < length bytes.new.items }
        ensures appends { StartsWith bytes.new.items bytes.old.items }
        ensures has_not_failed { OnOk result (self.new.1 ≡ None) }
        ensures failed { IfErr result (λ kind. self.new.1 ≡ Some kind) }
    {
        if let Some(kind) = self.error {
            return Err(kind);
        }
        match self.reader.read_until(b'\n', bytes) {
            Ok(count) => Ok(count > 0),
            Err(error) => {
                let kind = error.kind();
                self.error = Some(kind);
                Err(kind)
            }
        }
    }
}
