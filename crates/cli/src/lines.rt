//! The filter of the lines of an input: rows are read, fields are converted, and rows that fail are reported.
pub mod edits;
pub mod field_conversion;
pub mod fields;
pub mod filter;
pub mod headers;
pub mod input;
pub mod named_filter;
pub mod records;
pub mod rejection;
pub mod rows;
mod trim;
