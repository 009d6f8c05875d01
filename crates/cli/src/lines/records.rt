//! Records of CSV: rows that go on to the next line while a quote is open.
ghost use Rattle.std.specs.Prelude.{◌≡◌, ◌<◌, count_by};
ghost use Rattle.cli.specs.Records.{is_line_feed, is_broken, lines_in};

use crate::lines::fields::are_closed;

/// The number of bytes of the longest record.
pub const LONGEST_RECORD: usize = 1_048_576;

fn line_feeds(bytes: &[u8]) -> usize
    ensures { result ≡ count_by is_line_feed bytes.now }
{
    bytes.iter().filter(|byte| **byte == b'\n').count()
}

/// Returns whether a record has no fields: a quote is left open, or it is longer than 1 MiB.
pub fn is_broken(row: &[u8]) -> bool
    ensures { result ≡ is_broken row.now }
{
    !are_closed(row) || row.len() > LONGEST_RECORD
}

/// Returns the number of lines of a record.
pub fn lines_in(row: &[u8]) -> u64
    ensures value { result ≡ lines_in row.now }
    ensures some { 0 < result }
{
    line_feeds(row) as u64 + 1
}
