//! The errors of the programs: a line on standard error and an exit status each.
ghost use Rattle.std.specs.Prelude.{◌≡◌, ◌<◌, ◌≤◌};
ghost use Rattle.cli.specs.Error.{status_of_words, status_of_header, status_of, is_output, setup_error};

use crate::program::help::Program;
use conversions::{FormError, NamedRulesError, OperationError, RangeError, Reason, ShownWord};
use fixed_decimal::SinkFault;
use plural_rules::RulesError;
use std::{error, fmt};
use thiserror::Error;

/// Why a program ends before its work.
#[derive(Clone, Copy, Debug)]
pub enum WordsError {
    /// A word is not UTF-8.
    NotText,
    /// `fixdec` has no TEXT; or `plural` has none, or no rules.
    NoText,
    /// The word names nothing.
    NoSuchWord(ShownWord),
    /// The word is an option or `read:LOCALE`, and follows a call.
    AfterCall(ShownWord),
    /// The word is an option, `read:LOCALE` or `format:LOCALE`, and is not in its place.
    Misplaced(ShownWord),
    /// `csv` or `delimiter:C` has no `field:N`.
    NoField,
    /// `records` has no `csv`.
    NoCsv,
    /// `field:NAME` has no `header`.
    NoHeader,
    /// A quote is the delimiter of CSV.
    QuoteDelimiter,
    /// The locale with this tag is unknown.
    UnknownLocale(ShownWord),
    /// No type of plural rules has this name.
    UnknownType(ShownWord),
    /// A text is no skeleton, from the byte with this 0-based index.
    SkeletonSyntax { at: usize },
    /// A text is a skeleton, but this stem is none of the library.
    SkeletonUnsupported(ShownWord),
    /// The texts of the skeleton that `read:` names do not have one meaning each.
    NoReader,
    /// Out of memory for the words, for the calls or rules that they name, or for the block.
    Memory,
    /// A write of the help failed.
    Output,
}

impl From<FormError> for WordsError {
    ghost use Rattle.cli.specs.Error.{words_error};

    ghost from_gives = { λ error result. result ≡ words_error error };

    fn from(error: FormError) -> WordsError {
        match error {
            FormError::NoSuchWord(word) => WordsError::NoSuchWord(word),
            FormError::UnknownLocale(tag) => WordsError::UnknownLocale(tag),
            FormError::SkeletonSyntax { at } => WordsError::SkeletonSyntax { at },
            FormError::SkeletonUnsupported(stem) => WordsError::SkeletonUnsupported(stem),
            FormError::NoReader => WordsError::NoReader,
            FormError::Memory => WordsError::Memory,
        }
    }
}

/// The error of a program before its work.
#[derive(Clone, Copy, Debug)]
pub struct SetupError {
    pub program: Program,
    pub why: WordsError,
}

impl fmt::Display for SetupError {
    fn fmt<W: fmt::Write>(&self, f: &mut fmt::Formatter<W>) -> fmt::Result {
        let name = self.program.name();
        match self.why {
            WordsError::UnknownLocale(tag) => write!(f, "unknown locale: {tag}"),
            WordsError::SkeletonSyntax { at } => write!(f, "skeleton: syntax at {at}"),
            WordsError::SkeletonUnsupported(stem) => write!(f, "skeleton: unsupported {stem}"),
            WordsError::NoReader => f.write_str("skeleton: no reader"),
            WordsError::Memory => f.write_str("memory"),
            WordsError::Output => f.write_str("output"),
            _ if self.program == Program::Fixdec => f.write_str(self.program.usage()),
            WordsError::NotText => write!(f, "{name}: a word is not UTF-8"),
            WordsError::UnknownType(word) => write!(f, "{name}: no such type: {word}"),
            WordsError::NoText => write!(f, "{name}: no TEXT"),
            WordsError::NoSuchWord(word) => {
                write!(f, "{name}: no such word: {word} (--help lists all)")
            }
            WordsError::AfterCall(word) => write!(f, "{name}: {word} stands after a call"),
            WordsError::Misplaced(word) => {
                write!(f, "{name}: {word} is not in its place (--help lists all)")
            }
            WordsError::NoField => write!(f, "{name}: csv and delimiter:C need field:N"),
            WordsError::NoCsv => write!(f, "{name}: records needs csv"),
            WordsError::NoHeader => write!(f, "{name}: field:NAME needs header"),
            WordsError::QuoteDelimiter => write!(f, "{name}: a quote is no delimiter of csv"),
        }
    }
}

impl error::Error for SetupError {}

impl WordsError {
    fn status(&self) -> u8
        ensures status { result ≡ status_of_words self.now }
        ensures positive { 0 < result }
        ensures at_most { result ≤ 3 }
    {
        match self {
            WordsError::Memory | WordsError::Output => 3,
            _ => 2,
        }
    }
}

/// How an error names a field.
#[derive(Clone, Copy, Debug)]
pub enum FieldLabel {
    /// By its 0-based index.
    Index(usize),
    /// By its name in the header.
    Name(ShownWord),
}

impl fmt::Display for FieldLabel {
    fn fmt<W: fmt::Write>(&self, f: &mut fmt::Formatter<W>) -> fmt::Result {
        match self {
            FieldLabel::Index(index) => write!(f, "field {}", index.saturating_add(1)),
            FieldLabel::Name(name) => write!(f, "{name}"),
        }
    }
}

/// The error of a line, or of a field of it.
#[derive(Clone, Copy, Debug)]
pub struct LineError {
    /// The field, if it has a name or is one of several, and the error is that of a field.
    pub field: Option<FieldLabel>,
    /// The error.
    pub error: OperationError,
}

impl fmt::Display for LineError {
    fn fmt<W: fmt::Write>(&self, f: &mut fmt::Formatter<W>) -> fmt::Result {
        let error = self.error;
        match self.field {
            Some(field) => write!(f, "{field}: {error}"),
            None => write!(f, "{error}"),
        }
    }
}

impl error::Error for LineError {}

impl From<OperationError> for LineError {
    ghost use Rattle.cli.specs.Error.{error_of_line};

    ghost from_gives = { λ error result. result ≡ error_of_line error };

    fn from(error: OperationError) -> LineError {
        LineError { field: None, error }
    }
}

/// Why a header does not have the fields that words name.
#[derive(Clone, Copy, Debug, Error)]
pub enum HeaderError {
    /// No field has this name.
    #[error("no field {0}")]
    NoField(ShownWord),
    /// Several fields have this name.
    #[error("two fields {0}")]
    TwoFields(ShownWord),
    /// Two words name this field, one by its number and one by its name.
    #[error("two words for {0}")]
    SameField(FieldLabel),
    /// A quote is left open, or the header is a record that is too long.
    #[error("quote")]
    Quote,
    /// Out of memory.
    #[error("memory")]
    Memory,
}

impl HeaderError {
    fn status(&self) -> u8
        ensures status { result ≡ status_of_header self.now }
        ensures positive { 0 < result }
        ensures at_most { result ≤ 3 }
    {
        match self {
            HeaderError::NoField(_)
            | HeaderError::TwoFields(_)
            | HeaderError::SameField(_)
            | HeaderError::Quote => 1,
            HeaderError::Memory => 3,
        }
    }
}

/// The error of a program. Lines and texts have 1-based numbers.
#[derive(Clone, Copy, Debug, Error)]
pub enum ProgramError {
    /// The program ends before its work.
    #[error(transparent)]
    Setup(SetupError),
    /// The conversion of the text fails.
    #[error(transparent)]
    Operation(OperationError),
    /// The conversion of the range fails.
    #[error(transparent)]
    Range(RangeError),
    /// The conversion of this line fails.
    #[error("line {line}: {error}")]
    Line { line: u64, error: LineError },
    /// The header does not have the fields that words name.
    #[error("line 1: {0}")]
    Header(HeaderError),
    /// Out of memory to hold this line.
    #[error("line {line}: memory")]
    LongLine { line: u64 },
    /// A read of the input failed.
    #[error("input")]
    Input,
    /// The plural rules are rejected at the byte with this 0-based index.
    #[error("rules: {reason} at {at}")]
    Rules { at: usize, reason: Reason },
    /// The text with this number is rejected.
    #[error("text {number}: {reason}")]
    Text { number: usize, reason: Reason },
    /// A write or the flush of the output failed.
    #[error("output")]
    Output,
}

impl ProgramError {
    /// Returns the error of a program before its work.
    pub fn setup(program: Program, why: WordsError) -> Self
        ensures { result ≡ setup_error program why }
    {
        ProgramError::Setup(SetupError { program, why })
    }

    /// Returns whether a write or the flush of the output failed.
    pub fn is_output(&self) -> bool
        ensures { result ≡ is_output self.now }
    {
        match self {
            ProgramError::Output => true,
            ProgramError::Setup(error) => matches!(error.why, WordsError::Output),
            _ => false,
        }
    }

    /// Returns the exit status.
    pub fn status(&self) -> u8
        ensures status { result ≡ status_of self.now }
        ensures positive { 0 < result }
        ensures at_most { result ≤ 3 }
    {
        match self {
            ProgramError::Setup(error) => error.why.status(),
            ProgramError::Operation(error) => error.status(),
            ProgramError::Range(error) => error.status(),
            ProgramError::Line { error, .. } => error.error.status(),
            ProgramError::Header(error) => error.status(),
            ProgramError::Rules { .. } | ProgramError::Text { .. } => 1,
            ProgramError::LongLine { .. } | ProgramError::Input | ProgramError::Output => 3,
        }
    }
}

impl From<OperationError> for ProgramError {
    ghost use Rattle.cli.specs.Error.{conversion_error};

    ghost from_gives = { λ error result. result ≡ conversion_error error };

    fn from(error: OperationError) -> ProgramError {
        match error {
            OperationError::Output => ProgramError::Output,
            error => ProgramError::Operation(error),
        }
    }
}

impl From<RangeError> for ProgramError {
    ghost use Rattle.cli.specs.Error.{range_error};

    ghost from_gives = { λ error result. result ≡ range_error error };

    fn from(error: RangeError) -> ProgramError {
        match error {
            RangeError::Operation(OperationError::Output) => ProgramError::Output,
            error => ProgramError::Range(error),
        }
    }
}

impl From<NamedRulesError> for ProgramError {
    ghost use Rattle.cli.specs.Error.{error_of_rules};

    ghost from_gives = { λ error result. result ≡ error_of_rules error };

    fn from(error: NamedRulesError) -> ProgramError {
        let (at, reason) = match error {
            NamedRulesError::Rules(RulesError::Syntax { at }) => (at, Reason::Syntax),
            NamedRulesError::Rules(RulesError::Limit { at }) => (at, Reason::Limit),
            NamedRulesError::Rules(RulesError::Memory) => {
                return ProgramError::setup(Program::Plural, WordsError::Memory);
            }
            NamedRulesError::UnknownLocale(tag) => {
                return ProgramError::setup(Program::Plural, WordsError::UnknownLocale(tag));
            }
            NamedRulesError::UnknownType(letters) => {
                return ProgramError::setup(Program::Plural, WordsError::UnknownType(letters));
            }
        };
        ProgramError::Rules { at, reason }
    }
}

impl From<SinkFault> for ProgramError {
    ghost use Rattle.cli.specs.declared.program.error.ProgramError.TheVariants.{Output};

    ghost from_gives = { λ _ result. result ≡ Output };

    fn from(_error: SinkFault) -> ProgramError {
        ProgramError::Output
    }
}
