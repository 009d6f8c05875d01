//! What the programs share: arguments, errors and their reports, and help.
pub mod arguments;
pub mod diagnostics;
pub mod error;
pub mod help;
mod locale_list;
