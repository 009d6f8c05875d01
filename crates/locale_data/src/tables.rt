//! The tables of CLDR 48 for numbers, and the types of their rows. They have no code. An item that `lib.rt` does not
//! export is public for contracts only.

pub mod compact;
pub mod currencies;
pub mod formats;
pub mod plural_ranges;
pub mod plurals;
pub mod ranges;
pub mod rows;
pub mod symbols;
