//! The options that the first words of `fixdec_lines` name.
ghost use Rattle.std.specs.{Prelude.{◌≡◌, option_map, option_copied}, Result.result_map_both};
ghost use Rattle.cli.specs.Options.{none, copied_options, with_on_error, delimiter_of, with_parameter, with_word, is_option, options_after, options_of, delimiter_bytes, copied_first, field_of};

use crate::lines::fields::Field;
use crate::program::error::WordsError;
use crate::words::columns::Column;
use crate::words::parameters::parameter_of;

/// What a filter does at a line whose conversion fails.
#[derive(Clone, Copy, Debug, PartialEq)]
pub enum OnError {
    /// It ends.
    Stop,
    /// It reports the error, writes an empty line, and goes on.
    Skip,
    /// It reports the error, copies the line, and goes on.
    Keep,
}

/// The options of a filter, each of which a word names at most once.
#[derive(Clone, Copy)]
pub struct Options<'a> {
    /// `skip` or `keep`: what the filter does at a line that fails.
    pub on_error: OnError,
    /// `field:N` or `field:NAME`: the first field.
    pub column: Option<Column<'a>>,
    /// `delimiter:C`: the bytes between two fields.
    pub delimiter: Option<&'a [u8]>,
    /// `csv`: whether fields may be in quotes.
    pub is_csv: bool,
    /// `header`: whether the first line is copied.
    pub has_header: bool,
    /// `records`: whether a field may have line feeds in quotes.
    pub has_records: bool,
    /// `trim`: whether what is around a text and around a line is no part of them.
    pub trims: bool,
}

fn delimiter(word: &str) -> Option<&[u8]>
    ensures { option_copied result ≡ delimiter_of word.now }
{
    let text = parameter_of("delimiter", word)?;
    if text.chars().count() != 1 {
        return None;
    }
    Some(text.as_bytes())
}

impl<'a> Options<'a> {
    ghost use Rattle.cli.specs.Columns.{column_of};

    /// Returns the options of no words.
    pub fn none() -> Self
        ensures { result ≡ none }
    {
        Options {
            on_error: OnError::Stop,
            column: None,
            delimiter: None,
            is_csv: false,
            has_header: false,
            has_records: false,
            trims: false,
        }
    }

    fn with_on_error(self, on_error: OnError) -> Option<Options<'a>>
        ensures { option_map copied_options result ≡ with_on_error on_error (copied_options self.entry) }
    {
        match self.on_error {
            OnError::Stop => Some(Options { on_error, ..self }),
            OnError::Skip | OnError::Keep => None,
        }
    }

    fn with_parameter(self, word: &'a str) -> Option<Options<'a>>
        ensures { option_map copied_options result
            ≡ with_parameter (column_of word.now) (delimiter_of word.now) (copied_options self.entry) }
    {
        if let Some(column) = Column::of(word) {
            return match self.column {
                Some(_) => None,
                None => Some(Options {
                    column: Some(column),
                    ..self
                }),
            };
        }
        let delimiter = delimiter(word)?;
        match self.delimiter {
            Some(_) => None,
            None => Some(Options {
                delimiter: Some(delimiter),
                ..self
            }),
        }
    }

    /// Returns the options with that of a word. None: the word names no option, or one that is there.
    fn with(self, word: &'a str) -> Option<Options<'a>>
        ensures { option_map copied_options result ≡ with_word word.now (copied_options self.entry) }
    {
        match word {
            "skip" => self.with_on_error(OnError::Skip),
            "keep" => self.with_on_error(OnError::Keep),
            "csv" if self.is_csv => None,
            "csv" => Some(Options {
                is_csv: true,
                ..self
            }),
            "header" if self.has_header => None,
            "header" => Some(Options {
                has_header: true,
                ..self
            }),
            "records" if self.has_records => None,
            "records" => Some(Options {
                has_records: true,
                ..self
            }),
            "trim" if self.trims => None,
            "trim" => Some(Options {
                trims: true,
                ..self
            }),
            _ => self.with_parameter(word),
        }
    }

    fn delimiter_bytes(self) -> &'a [u8]
        ensures { result.now ≡ delimiter_bytes (copied_options self.entry) }
    {
        match self.delimiter {
            Some(delimiter) => delimiter,
            None if self.is_csv => b",",
            None => b"\t",
        }
    }

    /// Returns what the first field is, and the first field of each line, which has the delimiter and the quotes of
    /// all. None: no word names a field.
    ///
    /// # Errors
    ///
    /// - `NoCsv`: `records` has no `csv`.
    /// - `NoField`: a delimiter or `csv` has no field.
    /// - `QuoteDelimiter`: the delimiter of CSV is a quote.
    pub fn field(self) -> Result<Option<(Column<'a>, Field<'a>)>, WordsError>
        ensures { result_map_both (option_map copied_first) (λ error. error) result
            ≡ field_of (copied_options self.entry) }
    {
        if self.has_records && !self.is_csv {
            return Err(WordsError::NoCsv);
        }
        let Some(column) = self.column else {
            return if self.delimiter.is_some() || self.is_csv {
                Err(WordsError::NoField)
            } else {
                Ok(None)
            };
        };
        let delimiter = self.delimiter_bytes();
        if self.is_csv && delimiter == b"\"".as_slice() {
            return Err(WordsError::QuoteDelimiter);
        }
        let field = Field {
            index: 0,
            delimiter,
            is_csv: self.is_csv,
        };
        Ok(Some((column, field)))
    }
}

/// Returns whether a word names an option.
pub fn is_option(word: &str) -> bool
    ensures { result ≡ is_option word.now }
{
    match Options::none().with(word) {
        Some(_) => true,
        None => false,
    }
}

fn split_after<'a>(options: Options<'a>, words: &'a [String]) -> (Options<'a>, &'a [String])
    ensures { (copied_options result.0, result.1.now) ≡ options_after (copied_options options.entry) words.now }
{
    let Some((first, rest)) = words.split_first() else {
        return (options, words);
    };
    match options.with(first.as_str()) {
        Some(more) => split_after(more, rest),
        None => (options, words),
    }
}

/// Splits off the words of options.
pub fn split_options(words: &[String]) -> (Options<'_>, &[String])
    ensures { (copied_options result.0, result.1.now) ≡ options_of words.now }
{
    split_after(Options::none(), words)
}
