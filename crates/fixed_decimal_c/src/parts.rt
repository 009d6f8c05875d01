//! The text of a number with its parts.
ghost use Rattle.std.specs.Prelude.{◌≡◌, ◌+◌, ◌-◌, ◌^◌, ◌<◌, ◌≤◌, ◌∷◌, ◌⊎◌, List, length, slice_set, false, IfOk, IfErr};
ghost use Rattle.number_format.specs.{FormattedNumbers.formatted_number_pieces, TextParts.pieces_text, declared.format.text_part.PartKind.PartKind};
ghost use Rattle.fixed_decimal_c.specs.{declared.parts.FdPart.FdPart, Parts.{kind_code, with_bytes, parted, parts_of, last_of, no_part, counts_of, HasTaken, HaveNoRoom, WritesParts, WritesPartsOf, FormatsParts, FormatsPartsKept, fd_parted}};

use crate::error::FdError;
use crate::format::error_of_format;
use crate::formatter::FdFormatter;
use crate::numbers::read;
use crate::texts::fill;
use fixed_decimal::{Decimal, SinkFault, Writeable};
use number_format::{FormattedNumber, NumberFormatter, PartKind, PartSink};
use std::alloc::Global;

/// A part of a text.
#[repr(C)]
#[derive(Clone, Copy)]
pub struct FdPart {
    /// The number of its kind.
    pub kind: u32,
    /// To which number of a range it belongs: 1 to the first, 2 to the second, and 0 to neither. Of one number it is 0.
    pub source: u32,
    /// Where it begins in the text.
    pub start: usize,
    /// Where it ends.
    pub end: usize,
}

/// The result of a function that writes a text and its parts.
#[repr(C)]
#[derive(Clone, Copy)]
pub struct FdParted {
    /// 0, or the number of the error.
    pub status: u32,
    /// Where the error is.
    pub at: usize,
    /// The number of bytes of the text, also if they do not fit.
    pub count: usize,
    /// The number of its parts, also if they do not fit.
    pub parts: usize,
}

/// The numbers of bytes and of parts of a text.
#[derive(Clone, Copy)]
pub struct PartCounts {
    /// The number of bytes.
    pub count: usize,
    /// The number of parts.
    pub parts: usize,
}

impl PartCounts {
    /// Returns whether a buffer and an array have room for the text and its parts, or which of them has not.
    pub(crate) fn fit(self, buffer: &[u8], parts: &[FdPart]) -> Result<(), FdError>
        ensures ok { IfOk result (λ _. (self.count ≤ length buffer.now) × (self.parts ≤ length parts.now)) }
        ensures err { IfErr result (λ error. HaveNoRoom error self (length buffer.now) (length parts.now)) }
    {
        if buffer.len() < self.count {
            let needed = self.count;
            return Err(FdError::BufferTooSmall { needed });
        }
        if parts.len() < self.parts {
            return Err(FdError::PartsTooSmall);
        }
        Ok(())
    }
}

/// Those of no text.
pub(crate) const NO_COUNTS: PartCounts = PartCounts { count: 0, parts: 0 };

const NO_PART: FdPart = FdPart {
    kind: 0,
    source: 0,
    start: 0,
    end: 0,
};

fn kind_number(kind: PartKind) -> u32
    ensures { result ≡ kind_code kind }
{
    kind as u32
}

/// Returns the number of parts and the last part after bytes of a kind.
fn with_bytes(count: usize, last: FdPart, kind: u32, len: usize) -> (usize, FdPart)
    ensures { (parts : List FdPart) → count ≡ length parts → last ≡ last_of parts → count ≤ last.end
        → last.end + len < 2 ^ 64 → (result.0 ≡ length (with_bytes len kind parts))
        × (result.1 ≡ last_of (with_bytes len kind parts)) }
{
    if len == 0 {
        return (count, last);
    }
    let end = last.end.wrapping_add(len);
    if count > 0 && last.kind == kind {
        return (count, FdPart { end, ..last });
    }
    let next = FdPart {
        kind,
        source: 0,
        start: last.end,
        end,
    };
    (count.wrapping_add(1), next)
}

/// Sets the part before `count`, if the array has it.
fn set_last(parts: &mut [FdPart], count: usize, last: FdPart)
    ensures length { length parts.new ≡ length parts.old }
    ensures set { 0 < count → count ≤ length parts.old → parts.new ≡ slice_set parts.old (count - 1) last }
{
    if count > 0 && count <= parts.len() {
        parts[count - 1] = last;
    }
}

/// The parts of pieces. It counts all, and lists those for which an array has room.
#[derive(Drop)]
pub(crate) struct PartList<'a> {
    pub(crate) parts: &'a mut [FdPart],
    pub(crate) count: usize,
    pub(crate) last: FdPart,
}

impl PartSink for PartList<'_> {
    ghost pieces = { λ s pieces. HasTaken s.parts.ghost_name s.parts.now s.count s.last pieces };

    ghost has_failed = { λ _. false };

    fn put(&mut self, kind: PartKind, text: &str) -> Result<(), SinkFault> {
        let (count, last) = with_bytes(self.count, self.last, kind_number(kind), text.len());
        set_last(self.parts, count, last);
        self.count = count;
        self.last = last;
        Ok(())
    }
}

impl<'a> PartList<'a> {
    pub(crate) fn new(parts: &'a mut [FdPart]) -> PartList<'a>
        ensures same_array { result.parts.ghost_name ≡ parts.entry.ghost_name }
        ensures array { result.parts.now ≡ parts.old }
        ensures count { result.count ≡ 0 }
        ensures last { result.last ≡ no_part }
    {
        PartList {
            parts,
            count: 0,
            last: NO_PART,
        }
    }

    /// Takes the pieces of a number, before which it has taken none.
    fn take(&mut self, number: &FormattedNumber<'_>)
        requires counted { length (pieces_text (formatted_number_pieces number.now)) < 2 ^ 64 }
        requires empty { self.old.count ≡ 0 }
        requires first { self.old.last ≡ no_part }
        ensures same_array { self.new.parts.ghost_name ≡ self.old.parts.ghost_name }
        ensures count { self.new.count ≡ length (parts_of (formatted_number_pieces number.now)) }
        ensures parts { length self.old.parts.now ≡ length (parts_of (formatted_number_pieces number.now))
            → self.new.parts.now ≡ parts_of (formatted_number_pieces number.now) }
    {
        let _ = number.parts(self);
    }
}

/// Returns the number of parts of a text.
fn count_parts(number: &FormattedNumber<'_>) -> usize
    requires { length (pieces_text (formatted_number_pieces number.now)) < 2 ^ 64 }
    ensures { result ≡ length (parts_of (formatted_number_pieces number.now)) }
{
    let mut none = [];
    let mut list = PartList::new(&mut none);
    list.take(number);
    list.count
}

/// Writes the parts of a text to an array of their number.
fn fill_parts(number: &FormattedNumber<'_>, parts: &mut [FdPart])
    requires counted { length (pieces_text (formatted_number_pieces number.now)) < 2 ^ 64 }
    requires fits { length parts.old ≡ length (parts_of (formatted_number_pieces number.now)) }
    ensures { parts.new ≡ parts_of (formatted_number_pieces number.now) }
{
    let mut list = PartList::new(parts);
    list.take(number);
}

/// Writes the text of a number and its parts, if both fit.
fn write_parts(
    number: &FormattedNumber<'_>,
    buffer: &mut [u8],
    parts: &mut [FdPart],
) -> (PartCounts, Result<(), FdError>)
    ensures counts { result.0 ≡ counts_of (parted (formatted_number_pieces number.now)) }
    ensures written { WritesParts result.1 (parted (formatted_number_pieces number.now)) buffer.old buffer.new parts.old
        parts.new }
{
    let counts = PartCounts {
        count: number.writeable_length_hint(),
        parts: count_parts(number),
    };
    if let Err(error) = counts.fit(buffer, parts) {
        return (counts, Err(error));
    }
    fill(number, &mut buffer[..counts.count]);
    fill_parts(number, &mut parts[..counts.parts]);
    (counts, Ok(()))
}

/// Writes a decimal by a formatter, with its parts.
fn write_parts_of(
    alloc: Global,
    formatter: &NumberFormatter,
    value: Decimal,
    buffer: &mut [u8],
    parts: &mut [FdPart],
) -> (PartCounts, Result<(), FdError>)
    ensures { WritesPartsOf formatter.now value result.0 result.1 buffer.old buffer.new parts.old parts.new }
{
    match formatter.format(alloc, value) {
        Ok(number) => write_parts(&number, buffer, parts),
        Err(failed) => (NO_COUNTS, Err(error_of_format(failed.error, 0))),
    }
}

/// Reads a decimal, and writes it by a formatter, with its parts.
fn format_text(
    alloc: Global,
    formatter: &NumberFormatter,
    text: &[u8],
    buffer: &mut [u8],
    parts: &mut [FdPart],
) -> (PartCounts, Result<(), FdError>)
    ensures { FormatsParts formatter.now result.0 result.1 text.now buffer.old buffer.new parts.old parts.new }
{
    match read(alloc, text, 0) {
        Ok(value) => write_parts_of(alloc, formatter, value, buffer, parts),
        Err(error) => (NO_COUNTS, Err(error)),
    }
}

pub(crate) fn encode_parted(counts: PartCounts, answer: Result<(), FdError>) -> FdParted
    ensures { result ≡ fd_parted counts answer }
{
    let (status, at) = match answer {
        Ok(()) => (0, 0),
        Err(error) => (error.status(), error.place()),
    };
    FdParted {
        status,
        at,
        count: counts.count,
        parts: counts.parts,
    }
}

/// Reads a decimal, and writes it by the formatter that C keeps, with its parts.
pub(crate) fn format_parts(
    alloc: Global,
    kept: &FdFormatter,
    text: &[u8],
    buffer: &mut [u8],
    parts: &mut [FdPart],
) -> FdParted
    ensures { FormatsPartsKept result kept.now text.now buffer.old buffer.new parts.old parts.new }
{
    match kept.decode() {
        Some(formatter) => {
            let (counts, answer) = format_text(alloc, &formatter, text, buffer, parts);
            encode_parted(counts, answer)
        }
        None => encode_parted(NO_COUNTS, Err(FdError::Formatter)),
    }
}
