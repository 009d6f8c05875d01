//! The tables of CLDR 48 for units and names of currencies, and the types of their rows. They have no code.

pub mod currencies;
pub mod currency_texts;
pub mod locales;
pub mod rows;
pub mod short_texts;
pub mod unit_texts;
pub mod units;
