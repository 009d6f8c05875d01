//! What `number_format` uses of this crate. It is public for the crates of this repository only.

pub use crate::block::Block;
pub use crate::formatter::text::put_to_block;
pub use crate::reader::alternatives::{Alternative, read_alternatives};
pub use crate::reader::codes::{begins_with_digit, ends_with_digit};
