//! The names of currencies in a locale.
ghost use Rattle.std.specs.{Prelude.{◌≡◌, ◌<◌, ◌≤◌, length, IfSome}, Option.option_copied};
ghost use Rattle.locale_names.specs.{declared.tables.currencies.TheConstants.CURRENCY_CODES, LocaleCurrencies.{run_at, IsIndexOf, AreNamesOf, listed_name, name_for, pattern_of, pattern_for}, Texts.short_text};

use crate::entries::{entries_in, entry_for, kind_of, run_in};
use crate::locale_row::row_for;
use crate::tables::currencies::{CURRENCY_CODES, NAME_ENTRIES, NAME_PATTERNS, NAME_RUNS};
use crate::tables::rows::currencies::{CurrencyRow, NamePattern};
use crate::texts::{name_text, short_text, text_or_nothing};
use locale_data::{Name, Row, index_named};
use plural_rules::PluralCategory;

impl Row for CurrencyRow {
    ghost name = { λ currency. currency.code };

    fn name(&self) -> Name {
        self.code
    }
}

/// The names of a currency in a locale, as rows of tables. They are the same as long as the tables are.
///
/// ```
/// let names = currency_names("de", *b"EUR");
/// names.name(PluralCategory::Other) // Euro
/// names.pattern(PluralCategory::Other)?.number_first // true: 2 Euro
/// ```
#[derive(Clone, Copy)]
pub struct CurrencyNames {
    /// The code in upper case.
    pub code: [u8; 3],
    /// The run of the names.
    pub names: u32,
    /// The run of the patterns of numbers with names.
    pub patterns: u32,
}

fn index_of(code: [u8; 3]) -> Option<usize>
    ensures index { IsIndexOf code result }
    ensures inside { IfSome result (λ index. index < length CURRENCY_CODES) }
{
    index_named(&CURRENCY_CODES, &code)
}

fn run_at(list: u16, index: Option<usize>) -> u32
    requires { IfSome index (λ i. i < length CURRENCY_CODES) }
    ensures { result ≡ run_at list index }
{
    let Some(index) = index else {
        return 0;
    };
    run_in(&NAME_RUNS, list as usize * CURRENCY_CODES.len() + index)
}

/// Returns the names of a currency in a locale.
///
/// They are those of the listed locale with the longest tag that is `tag` or has a hyphen after it there, and without
/// one those of root.
///
/// ```
/// let names = currency_names("en", *b"usd");
/// names.name(PluralCategory::One) // US dollar
/// names.name(PluralCategory::Other) // US dollars
/// ```
pub fn currency_names(tag: &str, code: [u8; 3]) -> CurrencyNames
    ensures { AreNamesOf tag.now code result }
{
    let locale = row_for(tag.as_bytes());
    let mut upper = code;
    upper.make_ascii_uppercase();
    CurrencyNames {
        code: upper,
        names: run_at(locale.names, index_of(code)),
        patterns: locale.name_patterns,
    }
}

fn listed_name(names: u32, category: PluralCategory) -> Option<&'static str>
    ensures value { option_copied result ≡ listed_name names category }
    ensures short { IfSome result (λ name. length name.now ≤ 255) }
{
    match entry_for(entries_in(&NAME_ENTRIES, names), category) {
        Some(entry) => Some(name_text(
            (*entry / (1 << 11)) as usize,
            (*entry / (1 << 3) % 256) as u8,
        )),
        None => None,
    }
}

fn pattern_of(patterns: &[NamePattern], category: PluralCategory) -> Option<&NamePattern>
    ensures { option_copied result ≡ pattern_of category patterns.now }
{
    for pattern in patterns {
        if kind_of(pattern.category) == kind_of(category) {
            return Some(pattern);
        }
    }
    None
}

impl NamePattern {
    /// Returns the text between a number and the name.
    pub fn between_text(&self) -> &'static str
        ensures value { result.now ≡ short_text self.now.between }
        ensures short { length result.now ≤ 255 }
    {
        short_text(self.between)
    }
}

impl CurrencyNames {
    /// Returns the name for a plural category: that of the locale, or else that for `other`, or else the code in upper
    /// case.
    pub fn name(&self, category: PluralCategory) -> &str
        ensures value { result.now ≡ name_for self.now category }
        ensures short { length result.now ≤ 255 }
    {
        match listed_name(self.names, category) {
            Some(name) => name,
            None => text_or_nothing(&self.code),
        }
    }

    /// Returns how a number of a plural category and the name are written: as the locale says for this category, or
    /// else for `other`.
    ///
    /// UTS 35 part 3, Currencies: `unitPattern`.
    pub fn pattern(&self, category: PluralCategory) -> Option<&'static NamePattern>
        ensures { option_copied result ≡ pattern_for self.now category }
    {
        let patterns = entries_in(&NAME_PATTERNS, self.patterns);
        pattern_of(patterns, category).or(pattern_of(patterns, PluralCategory::Other))
    }
}
