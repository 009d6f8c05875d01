//! CLDR plural rules, exact at any length: the plural category of a formatted number.
//!
//! In English `1` has the category `one`, and `1.0` the category `other`.
#![tactic(auto)]

mod operands;
mod parse;
mod rules;

pub use operands::PluralOperands;
pub use parse::RulesError;
pub use rules::category::relation_holds;
pub use rules::{Modulus, Operand, PluralCategory, PluralRules, Range};
