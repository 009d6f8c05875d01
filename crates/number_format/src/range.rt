//! Ranges of two numbers.
mod affixes;
mod around;
mod common;
pub(crate) mod form;
pub(crate) mod format_range;
pub(crate) mod formatted_range;
pub(crate) mod range_texts;
