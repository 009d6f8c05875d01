//! Conversions of texts: a number is read, calls are made on it, and the result is written, in the forms of locales.
//!
//! A form is that of a locale, as `1.234,5` in `de`, or that of a number skeleton of ICU in a locale. A word names a
//! call, as `shift:2`, a form, as `read:de` and `format:de:currency/EUR`, or plural rules, as `ru`.
#![tactic(auto)]

mod calls;
mod conversion;
mod error;
mod format_word;
pub mod laws;
mod locale_formatter;
mod named_rules;
pub mod parameters;
mod range_conversion;
mod range_formatter;
mod range_word;
mod read_word;
mod reader;
mod shown_word;

pub use calls::call;
pub use conversion::{Conversion, convert, converted};
pub use error::{FormError, OperationError, RangeError, Reason};
pub use format_word::{parse_formatter, parse_strategy};
pub use locale_formatter::LocaleFormatter;
pub use named_rules::{NamedRulesError, locale_and_type, parse_rules};
pub use range_conversion::{RangeConversion, convert_range};
pub use range_formatter::{RangeFormatter, RangeNumbers, SignedFormatters};
pub use range_word::parse_range_formatter;
pub use read_word::{parse_reader, split_mode};
pub use reader::{DecimalReader, LocaleReader};
pub use shown_word::ShownWord;
