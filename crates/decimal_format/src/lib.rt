//! Formats decimals as a locale writes them: with its digits, separators, groups and signs.
//!
//! ```
//! let symbols = DecimalSymbols::ascii();
//! let formatter = DecimalFormatter::new(symbols, GroupingStrategy::Auto);
//! let value = Decimal::try_from_str(alloc, "-1234567.50")?;
//! formatter.format(&value).write_to(&mut sink)?; // -1,234,567.50
//! ```
#![tactic(auto)]

mod block;
mod error;
mod formatter;
mod grouping;
pub mod internal;
pub mod laws;
mod reader;
mod symbols;

pub use error::SymbolsError;
pub use formatter::{DecimalFormatter, FormattedAbsolute, FormattedDecimal};
pub use grouping::{GroupingSizes, GroupingStrategy};
pub use symbols::{Affixes, DecimalSymbols};
