//! Searches in tables whose rows are sorted by name.
ghost use Rattle.std.specs.{Prelude.{◌≡◌, ◌≤◌, ◌<◌, ℕ, List, length, take, set, slice_get, Some, true, false, IfSome}, Option.option_copied, Str.bytes_eq};
ghost use Rattle.locale_data.specs.{Tag.compared, Rows.{part, unpadded, row_at, row_named, IsRowOf}, SortedRows.{key, IsPadded, is_table, ends_at, IsFar, HasNoLonger}};

use crate::tables::rows::{Name, TableRange};
use crate::tag::tag_byte;

/// A row of a table that is sorted by name.
///
/// ```
/// index_named(&NUMBERING_SYSTEMS, b"latn") // the index of the row whose name is latn
/// ```
pub trait Row {
    ghost name: { Self → List ℕ };

    /// Returns the name by which the table is sorted.
    fn name(&self) -> Name
        ensures { result ≡ name self.now };
}

/// Returns the part of a table in a range, as far as the table goes.
pub fn part<T>(table: &[T], range: TableRange) -> &[T]
    ensures { result.now ≡ part table.now range }
{
    let rest = &table[table.len().min(range.0 as usize)..];
    let count = range.1.saturating_sub(range.0) as usize;
    &rest[..count.min(rest.len())]
}

/// Returns the row with an index.
pub fn indexed_row<R>(rows: &[R], index: usize) -> &R
    requires { index < length rows.now }
    ensures { slice_get rows.now index ≡ Some result.now }
{
    &rows[index]
}

/// Returns a name without the spaces after it.
///
/// ```
/// unpadded(b"de-ch           ") // b"de-ch"
/// ```
pub fn unpadded(padded: &[u8]) -> &[u8]
    ensures { result.now ≡ unpadded padded.now }
{
    for (index, byte) in padded.iter().enumerate() {
        if *byte == b' ' {
            return &padded[..index];
        }
    }
    padded
}

/// Writes a byte of a name, if it is one of the first 16.
fn set_byte(padded: &mut Name, index: usize, byte: u8)
    ensures { padded.new ≡ set padded.old index byte }
{
    if index < 16 {
        padded[index] = byte;
    }
}

/// Returns the bytes of a name as they are compared, with spaces after them: of more than 16, the first 16.
fn padded(name: &[u8]) -> Name
    ensures { IsPadded result (compared name.now) }
{
    let mut padded = [b' '; 16];
    for index in 0..name.len() {
        set_byte(&mut padded, index, tag_byte(name[index]));
    }
    padded
}

/// Returns whether a name is this text. Of texts with one key, those of one length are equal.
fn is_named(padded: &[u8], text: &[u8]) -> bool
    requires key { key (unpadded padded.now) ≡ key (compared text.now) }
    requires short { length padded.now ≤ 16 }
    ensures { result ≡ bytes_eq (unpadded padded.now) (compared text.now) }
{
    unpadded(padded).len() == text.len()
}

/// Returns whether the key of the row at an index is less than 256^(16 - end) above another.
fn is_near<R: Row>(rows: &[R], index: usize, key: u128, end: usize) -> bool
    ensures { result ≡ false → IsFar R.name rows.now index key end }
{
    if end == 0 || end >= 16 {
        return true;
    }
    match rows.get(index) {
        Some(row) => {
            u128::from_be_bytes(row.name()).saturating_sub(key) < 1u128 << (8 * (16 - end))
        }
        None => false,
    }
}

/// What a search for a part of a tag finds.
#[derive(Clone, Copy)]
struct Found {
    /// The index of the row that it names.
    row: Option<usize>,
    /// Whether a longer part may name a row.
    may_be_longer: bool,
}

/// Searches for the row that the first bytes of a tag name, which are passed padded too.
fn search<R: Row>(rows: &[R], tag: &[u8], end: usize, padded: Name) -> Found
    requires table { is_table R.name rows.now ≡ true }
    requires inside { end ≤ length tag.now }
    requires ends { ends_at tag.now end ≡ true }
    requires padded { IsPadded padded (compared (take end tag.now)) }
    ensures row { row_at rows.now result.row ≡ row_named R.name rows.now (compared (take end tag.now)) }
    ensures inside { IfSome result.row (λ i. i < length rows.now) }
    ensures longer { result.may_be_longer ≡ false → HasNoLonger R.name rows.now tag.now end }
{
    let name = &tag[..end];
    let key = u128::from_be_bytes(padded);
    match rows.binary_search_by_key(&key, |row| u128::from_be_bytes(row.name())) {
        Ok(index) => Found {
            row: is_named(&rows[index].name(), name).then_some(index),
            may_be_longer: is_near(rows, index + 1, key, end),
        },
        Err(index) => Found {
            row: None,
            may_be_longer: is_near(rows, index, key, end),
        },
    }
}

/// Returns the index of the row with a name.
pub fn index_named<R: Row>(rows: &[R], name: &[u8]) -> Option<usize>
    requires { is_table R.name rows.now ≡ true }
    ensures value { row_at rows.now result ≡ row_named R.name rows.now (compared name.now) }
    ensures inside { IfSome result (λ i. i < length rows.now) }
{
    search(rows, name, name.len(), padded(name)).row
}

/// Returns the row with a name.
pub fn row_named<'a, R: Row>(rows: &'a [R], name: &[u8]) -> Option<&'a R>
    requires { is_table R.name rows.now ≡ true }
    ensures { option_copied result ≡ row_named R.name rows.now (compared name.now) }
{
    match index_named(rows, name) {
        Some(index) => Some(indexed_row(rows, index)),
        None => None,
    }
}

/// Returns the index of the row that [`row_of`] finds.
pub fn row_index<R: Row>(rows: &[R], tag: &[u8]) -> Option<usize>
    requires { is_table R.name rows.now ≡ true }
    ensures value { IsRowOf R.name rows.now tag.now (row_at rows.now result) }
    ensures inside { IfSome result (λ i. i < length rows.now) }
{
    let mut found = None;
    let mut padded = [b' '; 16];
    for end in 0..tag.len() {
        let byte = tag_byte(tag[end]);
        if byte != b'-' {
            set_byte(&mut padded, end, byte);
            continue;
        }
        let part = search(rows, tag, end, padded);
        found = part.row.or(found);
        if !part.may_be_longer {
            return found;
        }
        set_byte(&mut padded, end, byte);
    }
    search(rows, tag, tag.len(), padded).row.or(found)
}

/// Returns what [`row_of`] does, of a part of a table.
pub fn row_in<'a, R: Row>(table: &'a [R], range: TableRange, tag: &[u8]) -> Option<&'a R>
    requires { is_table R.name (part table.now range) ≡ true }
    ensures { IsRowOf R.name (part table.now range) tag.now (option_copied result) }
{
    row_of(part(table, range), tag)
}

/// Returns the row with the longest name that is `tag`, or with which `tag` begins before a hyphen: `de` for `de-AT`.
pub fn row_of<'a, R: Row>(rows: &'a [R], tag: &[u8]) -> Option<&'a R>
    requires { is_table R.name rows.now ≡ true }
    ensures { IsRowOf R.name rows.now tag.now (option_copied result) }
{
    match row_index(rows, tag) {
        Some(index) => Some(indexed_row(rows, index)),
        None => None,
    }
}
