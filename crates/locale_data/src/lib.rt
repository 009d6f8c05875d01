//! What each locale of CLDR 48 has for numbers: numbering systems, symbols, patterns, compact patterns, currencies and
//! plural rules, and of ranges the plural categories and the texts. Units other than percent are not included.
//!
//! ```
//! let symbols = locale("hi-u-nu-deva").ok_or(UnknownLocale)?;
//! let formatter = DecimalFormatter::new(symbols, GroupingStrategy::Auto);
//! formatter.format(&value).write_to(&mut sink)?; // 12,34,567.5 in the digits of Devanagari
//! ```
#![tactic(auto)]

mod compact;
mod currency;
mod currency_code;
mod format_rows;
mod formats;
pub mod laws;
mod local_currency;
mod locales;
mod number_formats;
mod numbering_system;
mod plural_ranges;
mod plural_rows;
mod plurals;
mod range_formats;
mod search;
mod symbols;
mod tables;
mod tag;
mod texts;

pub use compact::{CompactPatterns, CompactStyle, UnitAffixes};
pub use currency::{
    CurrencyId, CurrencyPattern, CurrencySign, UNLISTED_DIGITS, currency_at, currency_digits,
    currency_id, currency_pattern,
};
pub use currency_code::{CurrencyCode, CurrencyCodeError};
pub use format_rows::FormatRows;
pub use formats::formats_of;
pub use local_currency::{CurrencyDigits, CurrencySymbol, LocalCurrency};
pub use locales::{LocaleId, locale, locale_id, locale_id_in, symbols_at, system_name_at};
pub use number_formats::NumberFormats;
pub use numbering_system::{NumberingSystem, NumberingSystemError};
pub use plural_ranges::plural_range_category;
pub use plurals::{
    PluralRuleType, PluralRulesError, PluralRulesId, holds_alone, is_one_alone, plural_category_at,
    plural_rules_at, plural_rules_id, plural_rules_of, plural_rules_text, rules_text_at,
};
pub use range_formats::range_format;
pub use search::{Row, index_named, indexed_row, row_of, unpadded};
pub use tables::rows::compact::{AffixText, CompactForm, CompactPattern};
pub use tables::rows::patterns::{Affix, AffixPair, NumberSigns, Pattern, Piece};
pub use tables::rows::ranges::{ApproximatelySign, RangeFormat, RangeSeparator};
pub use tables::rows::symbols::LocaleSymbols;
pub use tables::rows::{Name, TableRange};
pub use tables::symbols::{LOCALES, NUMBERING_SYSTEMS};
