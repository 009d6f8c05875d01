//! The work of the programs `fixdec`, `fixdec_lines` and `plural`.
//!
//! Each module of a program has `execute`, the body of its `main`.
#![tactic(auto)]

pub mod fixdec;
pub mod fixdec_lines;
mod lines;
pub mod plural;
mod program;
mod words;

pub use conversions::{Conversion, OperationError, RangeError, Reason, ShownWord, convert};
pub use lines::edits::FieldConversion;
pub use lines::fields::Field;
pub use lines::filter::{Filter, Target};
pub use lines::input::LineReader;
pub use lines::rows::filter_lines;
pub use program::diagnostics::{Diagnostics, ErrorLines};
pub use program::error::{
    FieldLabel, HeaderError, LineError, ProgramError, SetupError, WordsError,
};
pub use program::help::Program;
pub use words::calls::parse_calls;
pub use words::options::OnError;
