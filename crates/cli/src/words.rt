//! What the words of a command line name: options, fields, and conversions.
pub mod calls;
pub mod columns;
pub mod conversion;
pub mod options;
pub mod parameters;
pub mod range;
pub mod targets;
