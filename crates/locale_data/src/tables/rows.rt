//! The types of rows.

pub mod compact;
pub mod currencies;
pub mod formats;
pub mod patterns;
pub mod plurals;
pub mod ranges;
pub mod symbols;

/// A name in lower case, or the tag of a locale, padded with spaces: `de-ch`.
pub type Name = [u8; 16];

/// The part of a table from an index up to, and without, another.
#[derive(Clone, Copy)]
pub struct TableRange(pub u16, pub u16);
