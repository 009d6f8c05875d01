//! The text of a range with its parts.
ghost use Rattle.std.specs.Prelude.{◌≡◌, ◌<◌, ◌^◌, ◌&&◌, nat_le, length, map};
ghost use Rattle.number_format.specs.{FormattedRanges.{formatted_range_pieces, shown_range}, RangeText.range_pieces, TextParts.{Puts, pieces_text}};
ghost use Rattle.fixed_decimal_c.specs.{Parts.{counts_of, no_part, parts_of, WritesParts}, RangeParts.{bounds_of, lies_in, parted_range, pieces_of_range, source_in, with_source, FormatsRangeParts, Taken, WritesRangePartsOf, WritesRangeParts}};

use crate::error::FdError;
use crate::formatter::FdFormatter;
use crate::parts::{FdPart, FdParted, NO_COUNTS, PartCounts, PartList, encode_parted};
use crate::ranges::{error_of_range, read_ends};
use crate::texts::fill;
use fixed_decimal::{Decimal, Writeable};
use number_format::{FormattedRange, NumberFormatter, RangeSegment, RangeTexts};
use std::alloc::Global;

/// Where the two numbers of a range are in its text.
#[derive(Clone, Copy)]
pub struct RangeBounds {
    /// Where the first number begins.
    pub start: usize,
    /// Where it ends, and the separator begins.
    pub middle: usize,
    /// Where the second number begins.
    pub end: usize,
    /// Where it ends.
    pub after: usize,
}

fn lies_in(from: usize, to: usize, part: FdPart) -> bool
    ensures { result ≡ lies_in from to part }
{
    from <= part.start && part.end <= to
}

impl RangeBounds {
    fn with_source(self, part: FdPart) -> FdPart
        ensures { result ≡ with_source self part }
    {
        let source = if lies_in(self.start, self.middle, part) {
            1
        } else if lies_in(self.end, self.after, part) {
            2
        } else {
            0
        };
        FdPart { source, ..part }
    }

    fn set_sources(self, parts: &mut [FdPart])
        ensures { parts.new ≡ map (with_source self) parts.old }
    {
        for index in 0..parts.len() {
            parts[index] = self.with_source(parts[index]);
        }
    }
}

impl<'a> PartList<'a> {
    fn take_segment(&mut self, range: &FormattedRange<'_>, segment: RangeSegment)
        ensures { Puts (Taken self.old) (Taken self.new) (formatted_range_pieces range.now segment) }
    {
        let _ = range.parts(segment, self);
    }

    /// Takes the pieces of a range, before which it has taken none.
    fn take_range(&mut self, range: &FormattedRange<'_>) -> RangeBounds
        requires counted { length (pieces_text (pieces_of_range range.now)) < 2 ^ 64 }
        requires empty { self.old.count ≡ 0 }
        requires first { self.old.last ≡ no_part }
        ensures same_array { self.new.parts.ghost_name ≡ self.old.parts.ghost_name }
        ensures count { self.new.count ≡ length (parts_of (pieces_of_range range.now)) }
        ensures parts { length self.old.parts.now ≡ length (parts_of (pieces_of_range range.now))
            → self.new.parts.now ≡ parts_of (pieces_of_range range.now) }
        ensures bounds { result ≡ bounds_of (range_pieces (shown_range range.now)) }
    {
        self.take_segment(range, RangeSegment::Prefix);
        let start = self.last.end;
        self.take_segment(range, RangeSegment::Start);
        let middle = self.last.end;
        self.take_segment(range, RangeSegment::Middle);
        let end = self.last.end;
        self.take_segment(range, RangeSegment::End);
        let after = self.last.end;
        self.take_segment(range, RangeSegment::Suffix);
        RangeBounds {
            start,
            middle,
            end,
            after,
        }
    }
}

/// Returns the number of parts of the text of a range.
fn count_parts(range: &FormattedRange<'_>) -> usize
    requires { length (pieces_text (pieces_of_range range.now)) < 2 ^ 64 }
    ensures { result ≡ length (parted_range (range_pieces (shown_range range.now))).parts }
{
    let mut none = [];
    let mut list = PartList::new(&mut none);
    let _ = list.take_range(range);
    list.count
}

/// Writes the parts of the text of a range to an array of their number.
fn fill_parts(range: &FormattedRange<'_>, parts: &mut [FdPart])
    requires counted { length (pieces_text (pieces_of_range range.now)) < 2 ^ 64 }
    requires fits { length parts.old ≡ length (parted_range (range_pieces (shown_range range.now))).parts }
    ensures { parts.new ≡ (parted_range (range_pieces (shown_range range.now))).parts }
{
    let mut list = PartList::new(parts);
    let bounds = list.take_range(range);
    bounds.set_sources(parts);
}

/// Writes the text of a range and its parts, if both fit.
fn write_parts(
    range: &FormattedRange<'_>,
    buffer: &mut [u8],
    parts: &mut [FdPart],
) -> (PartCounts, Result<(), FdError>)
    ensures counts { result.0 ≡ counts_of (parted_range (range_pieces (shown_range range.now))) }
    ensures written { WritesParts result.1 (parted_range (range_pieces (shown_range range.now))) buffer.old buffer.new
        parts.old parts.new }
{
    let counts = PartCounts {
        count: range.writeable_length_hint(),
        parts: count_parts(range),
    };
    if let Err(error) = counts.fit(buffer, parts) {
        return (counts, Err(error));
    }
    fill(range, &mut buffer[..counts.count]);
    fill_parts(range, &mut parts[..counts.parts]);
    (counts, Ok(()))
}

/// Writes the range of two decimals by a formatter, with its parts.
fn write_range_parts(
    alloc: Global,
    formatter: &NumberFormatter,
    texts: &RangeTexts<'_>,
    start: Decimal,
    end: Decimal,
    buffer: &mut [u8],
    parts: &mut [FdPart],
) -> (PartCounts, Result<(), FdError>)
    ensures { WritesRangePartsOf formatter.now texts.now start end result.0 result.1 buffer.old buffer.new parts.old
        parts.new }
{
    match formatter.format_range(alloc, texts, start, end) {
        Ok(range) => write_parts(&range, buffer, parts),
        Err(failed) => (NO_COUNTS, Err(error_of_range(&failed))),
    }
}

/// Reads two decimals, and writes their range by a formatter, with its parts.
fn format_texts(
    alloc: Global,
    formatter: &NumberFormatter,
    texts: &RangeTexts<'_>,
    start: &[u8],
    end: &[u8],
    buffer: &mut [u8],
    parts: &mut [FdPart],
) -> (PartCounts, Result<(), FdError>)
    ensures { WritesRangeParts formatter.now texts.now result.0 result.1 start.now end.now buffer.old buffer.new
        parts.old parts.new }
{
    match read_ends(alloc, start, end) {
        Ok((start, end)) => write_range_parts(alloc, formatter, texts, start, end, buffer, parts),
        Err(error) => (NO_COUNTS, Err(error)),
    }
}

/// Reads two decimals, and writes their range by the formatter that C keeps, with its parts.
pub(crate) fn format_range_parts(
    alloc: Global,
    kept: &FdFormatter,
    start: &[u8],
    end: &[u8],
    buffer: &mut [u8],
    parts: &mut [FdPart],
) -> FdParted
    ensures { FormatsRangeParts result kept.now start.now end.now buffer.old buffer.new parts.old parts.new }
{
    match kept.decode_range() {
        Some((formatter, texts)) => {
            let (counts, answer) = format_texts(
                alloc, &formatter, &texts, start, end, buffer, parts,
            );
            encode_parted(counts, answer)
        }
        None => encode_parted(NO_COUNTS, Err(FdError::Formatter)),
    }
}
