//! Number skeletons of ICU: texts that name the options of a number's format.
//!
//! - [`parse`] returns the options that a skeleton names.
//! - [`to_skeleton`] returns a skeleton of options, in the words of ICU's normal form.
//!
//! ```
//! let options = number_skeleton::parse("currency/EUR .00")?;
//! let formatter = NumberFormatter::try_new("de", options)?;
//! number_skeleton::to_skeleton(&options, alloc)? // Some("currency/EUR")
//! ```
#![tactic(auto)]

mod choices;
mod counts;
mod decimal;
mod digits;
mod error;
mod identifiers;
mod meaning;
mod no_stem;
mod options;
mod parser;
mod printer;
mod reading;
mod resolve;
mod same;
mod stems;
mod text;
mod units;
mod words;

pub use error::SkeletonError;
pub use parser::parse;
pub use printer::to_skeleton;
