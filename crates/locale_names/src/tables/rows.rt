//! The types of rows.
//!
//! Runs and entries are numbers. A run names entries of a table: `run % 8` of them, from the index `run / 8` on. The
//! last three bits of an entry are its kind: 0 for the plural category `other`, 1 to 5 for `zero`, `one`, `two`, `few`
//! and `many`, and 6 for the pattern of a unit after `per`. The bits before name a text. An entry of a unit has 32 bits
//! for where its text starts, 8 for its length, 8 for how much of it precedes the number, 8 for whether there is a
//! number, and 8 for its kind. An entry of a name has 21, 8 and 3 bits for start, length and kind.

pub mod currencies;
pub mod locales;
pub mod units;

/// The range of a short text in `SHORT_TEXTS`.
#[derive(Clone, Copy)]
pub struct TextRange {
    /// Where it starts.
    pub start: u16,
    /// Its length.
    pub len: u8,
}
