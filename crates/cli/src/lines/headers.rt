//! The fields that words name, in a header.
ghost use Rattle.std.specs.Prelude.{◌≡◌, ◌≢◌, ◌<◌, ◌≤◌, ℕ, None, true, false, [], length, vec_len, IfSome, IfOk, IfErr, OnOk};
ghost use Rattle.cli.specs.{Fields.{within, quoted}, Headers.{HoldsName, HasName, NoneHas, IsHeaderOf, HasBounds, IsIndexOf, HasNoIndex, has_index, count_before, IsPlaced, AddsField, FieldFails, AreFields, FieldsFail}};

use crate::lines::edits::{FieldConversion, within};
use crate::lines::fields::{Field, write_quoted};
use crate::lines::trim::text_of;
use crate::program::error::{FieldLabel, HeaderError};
use crate::words::columns::Column;
use crate::words::targets::NamedField;
use conversions::ShownWord;
use fixed_decimal::TextBuf;
use std::alloc::{AllocError, Global};

/// A header, and where its fields are.
#[derive(Drop)]
pub struct Header<'a> {
    /// Whether blanks and tabs around a name are no part of it.
    pub trims: bool,
    /// The first field of each line.
    pub field: Field<'a>,
    /// The bytes that the fields are in.
    pub bytes: &'a [u8],
    /// The start and the end of each field.
    pub bounds: Vec<(usize, usize)>,
}

fn has_index(fields: &[FieldConversion<'_>], index: usize) -> bool
    ensures { result ≡ has_index fields.now index }
{
    fields.iter().any(|field| field.index == index)
}

/// Returns the field with an index, with the conversion of its words.
fn placed<'a>(index: usize, rank: usize, named: &'a NamedField<'a>) -> FieldConversion<'a>
    ensures { IsPlaced index rank named.now result }
{
    FieldConversion {
        index,
        rank,
        label: Some(named.label),
        conversion: &named.conversion,
    }
}

fn count_before(fields: &[FieldConversion<'_>], index: usize) -> usize
    ensures value { result ≡ count_before fields.now index }
    ensures inside { result ≤ length fields.now }
{
    fields.iter().filter(|field| field.index < index).count()
}

impl<'a> Header<'a> {
    /// Finds the fields of a header.
    pub fn of(
        alloc: Global,
        trims: bool,
        field: Field<'a>,
        bytes: &'a [u8],
    ) -> Result<Self, AllocError>
        ensures value { IfOk result (IsHeaderOf trims field.entry bytes.now) }
        ensures bounds { IfOk result HasBounds }
    {
        let bounds = field.all_bounds(alloc, bytes)?;
        Ok(Header {
            trims,
            field,
            bytes,
            bounds,
        })
    }

    /// Returns whether the bytes of a field hold a name, which is also given in quotes.
    fn holds_name(&self, bytes: &[u8], name: &[u8], in_quotes: &[u8]) -> bool
        requires { in_quotes.now ≡ quoted name.now }
        ensures yes { result ≡ true → HoldsName self.now.trims self.now.field bytes.now name.now }
        ensures no { result ≡ false → ¬ HoldsName self.now.trims self.now.field bytes.now name.now }
    {
        if self.field.is_quoted(bytes) {
            bytes == in_quotes
        } else {
            text_of(self.trims, bytes) == name
        }
    }

    /// Returns the index of the next field with a name, from an index on.
    fn next_named(&self, from: usize, name: &[u8], in_quotes: &[u8]) -> Option<usize>
        requires bounds { HasBounds self.now }
        requires quoted { in_quotes.now ≡ quoted name.now }
        ensures some { IfSome result (λ index. (from ≤ index)
            × HasName self.now.trims self.now.field self.now.bytes.now name.now index) }
        ensures inside { IfSome result (λ index. index < vec_len self.now.bounds) }
        ensures before { IfSome result (NoneHas self.now.trims self.now.field self.now.bytes.now name.now from) }
        ensures none { result ≡ None → (index : ℕ) → from ≤ index
            → ¬ HasName self.now.trims self.now.field self.now.bytes.now name.now index }
    {
        for index in from..self.bounds.len() {
            if self.holds_name(within(self.bytes, self.bounds[index]), name, in_quotes) {
                return Some(index);
            }
        }
        None
    }

    fn index_of_name(&self, alloc: Global, name: &str) -> Result<usize, HeaderError>
        requires { HasBounds self.now }
        ensures ok { IfOk result (IsIndexOf self.now.trims self.now.field self.now.bytes.now (Column.Name name.entry)) }
        ensures err { IfErr result (λ error. error ≢ HeaderError.Memory
            → HasNoIndex self.now.trims self.now.field self.now.bytes.now (Column.Name name.entry) error) }
    {
        let mut quoted = TextBuf::new(alloc);
        if let Err(_) = write_quoted(name.as_bytes(), &mut quoted) {
            return Err(HeaderError::Memory);
        }
        let Some(index) = self.next_named(0, name.as_bytes(), quoted.as_bytes()) else {
            return Err(HeaderError::NoField(ShownWord::of(name)));
        };
        match self.next_named(index + 1, name.as_bytes(), quoted.as_bytes()) {
            Some(_) => Err(HeaderError::TwoFields(ShownWord::of(name))),
            None => Ok(index),
        }
    }

    /// Returns the index of what a word names.
    fn index_of(&self, alloc: Global, column: Column<'_>) -> Result<usize, HeaderError>
        requires { HasBounds self.now }
        ensures ok { IfOk result (IsIndexOf self.now.trims self.now.field self.now.bytes.now column.entry) }
        ensures err { IfErr result (λ error. error ≢ HeaderError.Memory
            → HasNoIndex self.now.trims self.now.field self.now.bytes.now column.entry error) }
    {
        match column {
            Column::Index(index) => Ok(index),
            Column::Name(name) => self.index_of_name(alloc, name),
        }
    }

    /// Adds the field that words name, in the order of a line.
    fn push_named(
        &self,
        alloc: Global,
        named: &'a NamedField<'a>,
        fields: &mut Vec<FieldConversion<'a>>,
    ) -> Result<(), HeaderError>
        requires { HasBounds self.now }
        ensures ok { OnOk result (AddsField self.now.trims self.now.field self.now.bytes.now named.now
            fields.old.items fields.new.items) }
        ensures err { IfErr result (λ error. error ≢ HeaderError.Memory → FieldFails self.now.trims self.now.field
            self.now.bytes.now fields.old.items named.now error) }
    {
        let index = self.index_of(alloc, named.column)?;
        if has_index(fields.as_slice(), index) {
            return Err(HeaderError::SameField(FieldLabel::Index(index)));
        }
        let before = count_before(fields.as_slice(), index);
        let placed = placed(index, fields.len(), named);
        if let Err(_) = fields.insert(before, placed) {
            return Err(HeaderError::Memory);
        }
        Ok(())
    }

    /// Returns the fields that words name, up to the first one that fails.
    pub fn named_fields(
        &self,
        alloc: Global,
        named: &'a [NamedField<'a>],
    ) -> Result<Vec<FieldConversion<'a>>, HeaderError>
        requires { HasBounds self.now }
        ensures ok { IfOk result (λ all. AreFields self.now.trims self.now.field self.now.bytes.now
            [] named.now all.items) }
        ensures err { IfErr result (λ error. error ≢ HeaderError.Memory → FieldsFail self.now.trims self.now.field
            self.now.bytes.now [] named.now error) }
    {
        let mut fields = Vec::new(alloc);
        for field in named {
            self.push_named(alloc, field, &mut fields)?;
        }
        Ok(fields)
    }
}
