//! What is converted of each line: the line, or the fields that words name.
ghost use Rattle.std.specs.Prelude.{◌≡◌, ◌<◌, ◌≤◌, length, position, is_some, option_map, IfSome, IfOk, IfErr, OnOk};
ghost use Rattle.cli.specs.{Columns.{copied, column_of, names_field}, Options.copied_first, Targets.{own_words, other_words, field_words, first_field, any_name, has_column, have_names, only_index, AddsNamed, FieldFails, HasMore, MoreFail, NamesTarget, NameNoTarget}};

use crate::lines::fields::Field;
use crate::program::error::{FieldLabel, WordsError};
use crate::words::columns::Column;
use crate::words::conversion::parse_conversion;
use conversions::{Conversion, ShownWord};
use std::alloc::Global;

/// A field that words name, and its conversion.
#[derive(Drop)]
pub struct NamedField<'a> {
    /// What its word names.
    pub column: Column<'a>,
    /// How an error names it.
    pub label: FieldLabel,
    /// Its conversion.
    pub conversion: Conversion<'a>,
}

/// What words name.
#[derive(Drop)]
pub enum NamedTarget<'a> {
    /// The line, or one field of it by its number.
    One(Option<Field<'a>>, Conversion<'a>),
    /// Several fields, or fields by name, in the order of their words. Each has the delimiter and the quotes of this
    /// one.
    Fields(Field<'a>, Vec<NamedField<'a>>),
}

impl<'a> NamedField<'a> {
    ghost use Rattle.cli.specs.Columns.{IsLabel};

    fn new(column: Column<'a>, conversion: Conversion<'a>) -> Self
        ensures column { result.column ≡ column.entry }
        ensures label { IsLabel (copied column.entry) result.label }
        ensures conversion { result.conversion ≡ conversion.entry }
    {
        NamedField {
            column,
            label: column.label(),
            conversion,
        }
    }
}

/// A word that names a field, the words up to the next one, and the others.
#[derive(Clone, Copy)]
struct Group<'a> {
    word: &'a str,
    column: Column<'a>,
    own: &'a [String],
    others: &'a [String],
}

impl NamedTarget<'_> {
    /// Returns whether a field has a name.
    pub fn has_names(&self) -> bool
        ensures { result ≡ have_names self.now }
    {
        match self {
            NamedTarget::One(_, _) => false,
            NamedTarget::Fields(_, fields) => any_name(fields.as_slice()),
        }
    }
}

fn names_field(word: &str) -> bool
    ensures { result ≡ is_some (column_of word.now) }
{
    match Column::of(word) {
        Some(_) => true,
        None => false,
    }
}

fn first_name(words: &[String]) -> Option<usize>
    ensures value { result ≡ position names_field words.now }
    ensures bound { IfSome result (λ index. index < length words.now) }
{
    words.iter().position(|word| names_field(word.as_str()))
}

/// Splits words before the first one that names a field.
fn split_fields(words: &[String]) -> (&[String], &[String])
    ensures own { result.0.now ≡ own_words words.now }
    ensures others { result.1.now ≡ other_words words.now }
    ensures within { length result.1.now ≤ length words.now }
{
    match first_name(words) {
        Some(index) => words.split_at(index),
        None => words.split_at(words.len()),
    }
}

fn any_name(fields: &[NamedField<'_>]) -> bool
    ensures { result ≡ any_name fields.now }
{
    fields.iter().any(|field| field.column.is_name())
}

fn has_column(fields: &[NamedField<'_>], column: Column<'_>) -> bool
    ensures { result ≡ has_column fields.now (copied column.entry) }
{
    fields.iter().any(|field| field.column.is_same(column))
}

/// Returns the index of a field by its number, if no other field follows.
fn only_index(column: Column<'_>, others: &[String]) -> Option<usize>
    ensures { result ≡ only_index (copied column.entry) others.now }
{
    match column {
        Column::Index(index) if others.is_empty() => Some(index),
        _ => None,
    }
}

/// Splits off the words of the first field. None: the first word names no field.
fn first_group(words: &[String]) -> Option<Group<'_>>
    ensures value { option_map field_words result ≡ first_field words.now }
    ensures shorter { IfSome result (λ group. length group.others.now < length words.now) }
{
    let (first, rest) = words.split_first()?;
    let word = first.as_str();
    let column = Column::of(word)?;
    let (own, others) = split_fields(rest);
    Some(Group {
        word,
        column,
        own,
        others,
    })
}

/// Adds the field that words name, with its conversion.
fn push_named<'a>(
    alloc: Global,
    group: Group<'a>,
    fields: &mut Vec<NamedField<'a>>,
) -> Result<(), WordsError>
    ensures ok { OnOk result (AddsNamed (field_words group.entry) fields.old.items fields.new.items) }
    ensures err { IfErr result (λ error. FieldFails fields.old.items error (field_words group.entry)) }
{
    if has_column(fields.as_slice(), group.column) {
        return Err(WordsError::Misplaced(ShownWord::of(group.word)));
    }
    let conversion = parse_conversion(alloc, group.own)?;
    if let Err(_) = fields.push(NamedField::new(group.column, conversion)) {
        return Err(WordsError::Memory);
    }
    Ok(())
}

/// Parses the words of more fields.
fn parse_more<'a>(
    alloc: Global,
    words: &'a [String],
    fields: &mut Vec<NamedField<'a>>,
) -> Result<(), WordsError>
    ensures ok { OnOk result (HasMore words.now fields.old.items fields.new.items) }
    ensures err { IfErr result (MoreFail words.now fields.old.items) }
{
    let mut left = words;
    while let Some(group) = first_group(left) {
        push_named(alloc, group, fields)?;
        left = group.others;
    }
    Ok(())
}

/// Parses the words after the options, which name the first field.
///
/// # Errors
///
/// Of several wrong words the first one decides: that of [`parse_conversion`] for the words of a field, or `Misplaced`
/// for a word that names a field again. `Memory`: out of memory for the list of the fields.
pub fn parse_target<'a>(
    alloc: Global,
    first: Option<(Column<'a>, Field<'a>)>,
    words: &'a [String],
) -> Result<NamedTarget<'a>, WordsError>
    ensures ok { IfOk result (NamesTarget (option_map copied_first first.entry) words.now) }
    ensures err { IfErr result (NameNoTarget (option_map copied_first first.entry) words.now) }
{
    let Some((column, field)) = first else {
        return Ok(NamedTarget::One(None, parse_conversion(alloc, words)?));
    };
    let (own, others) = split_fields(words);
    let conversion = parse_conversion(alloc, own)?;
    if let Some(index) = only_index(column, others) {
        return Ok(NamedTarget::One(Some(field.at(index)), conversion));
    }
    let mut fields = Vec::new(alloc);
    if let Err(_) = fields.push(NamedField::new(column, conversion)) {
        return Err(WordsError::Memory);
    }
    parse_more(alloc, others, &mut fields)?;
    Ok(NamedTarget::Fields(field, fields))
}
