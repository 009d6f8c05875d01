//! Reading of what a formatter writes.
mod affix_reader;
mod apart;
mod compact;
mod cut;
pub(crate) mod number_reader;
mod owned_affixes;
pub(crate) mod pattern;
pub(crate) mod pattern_name;
mod scientific;
mod unit_texts;
