//! The fields that words name: by a number, or by a name in the header.
ghost use Rattle.std.specs.{Prelude.{◌≡◌, option_map}, Char.is_ascii_digit, List.list_all};
ghost use Rattle.conversions.specs.Parameters.{number};
ghost use Rattle.cli.specs.Columns.{copied, by_number, by_name, column_of};

use crate::program::error::FieldLabel;
use crate::words::parameters::parameter_of;
use conversions::ShownWord;
use conversions::parameters::number;

/// What a word `field:..` names.
#[derive(Clone, Copy)]
pub enum Column<'a> {
    /// `field:N`: the field with this 0-based index.
    Index(usize),
    /// `field:NAME`: the field with this name in the header.
    Name(&'a str),
}

fn by_number(text: &str) -> Option<Column<'_>>
    ensures { option_map copied result ≡ by_number (number text.now) }
{
    match number(text) {
        Some(number) if number > 0 => Some(Column::Index(number as usize - 1)),
        _ => None,
    }
}

fn are_digits(text: &str) -> bool
    ensures { result ≡ list_all is_ascii_digit text.now }
{
    text.as_bytes().iter().all(|byte| byte.is_ascii_digit())
}

fn by_name(text: &str) -> Option<Column<'_>>
    ensures { option_map copied result ≡ by_name text.now }
{
    if let Some(name) = text.strip_prefix('=') {
        return Some(Column::Name(name));
    }
    if are_digits(text) {
        return None;
    }
    Some(Column::Name(text))
}

impl<'a> Column<'a> {
    ghost use Rattle.cli.specs.Columns.{is_same, is_name, IsLabel};

    /// Returns what a word names.
    pub fn of(word: &'a str) -> Option<Self>
        ensures { option_map copied result ≡ column_of word.now }
    {
        let text = parameter_of("field", word)?;
        if let Some(column) = by_number(text) {
            return Some(column);
        }
        by_name(text)
    }

    /// Returns whether both have the same number or the same name.
    pub fn is_same(self, other: Column<'_>) -> bool
        ensures { result ≡ is_same self.entry (copied other.entry) }
    {
        match (self, other) {
            (Column::Index(index), Column::Index(other)) => index == other,
            (Column::Name(name), Column::Name(other)) => name == other,
            _ => false,
        }
    }

    /// Returns whether it is a name.
    pub fn is_name(self) -> bool
        ensures { result ≡ is_name self.entry }
    {
        match self {
            Column::Index(_) => false,
            Column::Name(_) => true,
        }
    }

    /// Returns how an error names it.
    pub fn label(self) -> FieldLabel
        ensures { IsLabel (copied self.entry) result }
    {
        match self {
            Column::Index(index) => FieldLabel::Index(index),
            Column::Name(name) => FieldLabel::Name(ShownWord::of(name)),
        }
    }
}
