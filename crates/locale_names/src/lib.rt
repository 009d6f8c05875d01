//! What each locale of CLDR 48 calls units and currencies: the patterns of units, alone and joined by `per`, and the
//! names of currencies with the patterns of numbers before or after them.
//!
//! ```
//! let unit = Unit::try_from_str("kilometer-per-hour")?;
//! unit_patterns("de", unit, UnitDisplay::Short).pattern(PluralCategory::Other) // 5 km/h
//! currency_names("de", *b"CHF").name(PluralCategory::Other) // Schweizer Franken
//! ```
#![tactic(auto)]

mod entries;
mod error;
mod locale_currencies;
mod locale_row;
mod locale_units;
mod tables;
mod texts;
mod unit_id;
mod units;

pub use locale_currencies::{CurrencyNames, currency_names};
pub use locale_units::{PerPatterns, UnitDisplay, UnitPattern, UnitPatterns, unit_patterns};
pub use tables::rows::TextRange;
pub use tables::rows::currencies::NamePattern;
pub use unit_id::{Unit, UnitError, UnitId};
pub use units::split_per;
