//! Small callers of `fixed_decimal` to copy from, one to a module.
//!
//! Each has a clause on its whole result. The proofs use only the public contracts of the library, and of its lemmas
//! those of `fixed_decimal/proofs/Calling.antt`.
//!
//! | Module | Use |
//! |---|---|
//! | `price` | a percentage of an amount, printed |
//! | `cash` | a percentage of an amount, rounded to a multiple of five cents |
//! | `bill` | an amount split into parts of whole cents whose sum it is |
//! | `measurement` | a measured value with a limited number of fraction digits |
//! | `column` | a column of amounts, parsed and written in normal form |
//! | `report` | a run of calls that reports its first error in words |
//! | `absolute` | changes of the absolute value of a decimal, through `DerefMut` |
#![tactic(auto)]

pub mod absolute;
pub mod bill;
pub mod cash;
pub mod column;
pub mod measurement;
pub mod price;
pub mod report;
