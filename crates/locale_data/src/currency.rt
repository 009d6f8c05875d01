//! The symbols, digits and patterns of currencies.
ghost use Rattle.std.specs.{Prelude.{◌≡◌, ◌<◌, ◌↔◌, length, Contains, Some, None, IsNone, IfSome, IfNone, IsTrue}, Option.{option_and_then, option_copied}};
ghost use Rattle.locale_data.specs.{declared.tables.{currencies.TheConstants.{CURRENCIES, CURRENCY_TEXTS}, formats.TheConstants.CURRENCY_OVERRIDES}, Currencies.{currency_with, digits_of, symbol_index, IsSymbol, IsSymbolAt, IsSymbolRow, IsOverrideRow, IsOverride, IsCurrencyId, IsCurrencyAt, LacksCurrency, overridden, pattern_index, IsCurrencyPattern}};

use crate::currency_code::CurrencyCode;
use crate::local_currency::{CurrencyDigits, CurrencySymbol, LocalCurrency};
use crate::number_formats::{NumberFormats, pattern_at};
use crate::search::{Row, index_named, indexed_row, row_in, row_named};
use crate::tables::currencies::{
    CURRENCIES, CURRENCY_BYTES, CURRENCY_SYMBOLS, CURRENCY_TEXTS, OVERRIDES_BY_CURRENCY,
};
use crate::tables::formats::{CURRENCY_OVERRIDES, MONEY_FORMATS};
use crate::tables::rows::Name;
use crate::tables::rows::currencies::{Currency, CurrencyText, LocaleCurrency, LocaleOverride};
use crate::tables::rows::patterns::{MoneySeparator, Pattern};
use crate::texts::text_in;

impl Row for Currency {
    ghost name = { λ currency. currency.code };

    fn name(&self) -> Name {
        self.code
    }
}

impl Row for LocaleCurrency {
    ghost name = { λ locale. locale.tag };

    fn name(&self) -> Name {
        self.tag
    }
}

impl Row for LocaleOverride {
    ghost name = { λ locale. locale.tag };

    fn name(&self) -> Name {
        self.tag
    }
}

fn currencies() -> &'static [Currency]
    ensures { result.now ≡ CURRENCIES }
{
    &CURRENCIES
}

fn currency_with(code: CurrencyCode) -> Option<&'static Currency>
    ensures { option_copied result ≡ currency_with code }
{
    row_named(currencies(), code.as_str().as_bytes())
}

fn digits_of(currency: &Currency) -> CurrencyDigits
    ensures { result ≡ digits_of (Some currency.now) }
{
    CurrencyDigits {
        digits: currency.digits,
        cash_digits: currency.cash_digits,
        cash_increment: currency.cash_increment,
    }
}

/// The numbers of digits of a currency that is not listed: 2, 2 and 0.
pub const UNLISTED_DIGITS: CurrencyDigits = CurrencyDigits {
    digits: 2,
    cash_digits: 2,
    cash_increment: 0,
};

/// Returns the numbers of digits of a currency, and `UNLISTED_DIGITS` of a code that is not listed.
///
/// ```
/// currency_digits(CurrencyCode::try_from_str("CHF")?) // 2, in cash 2 and multiples of 5
/// ```
pub fn currency_digits(code: CurrencyCode) -> CurrencyDigits
    ensures { result ≡ digits_of (currency_with code) }
{
    match currency_with(code) {
        Some(found) => digits_of(found),
        None => UNLISTED_DIGITS,
    }
}

/// Which symbol of a currency.
#[derive(Clone, Copy, Debug, PartialEq)]
pub enum SymbolWidth {
    /// The symbol that is not that of another currency: `US$`.
    Wide,
    /// A shorter symbol: `$`.
    Narrow,
}

fn own_symbols(currency: &Currency, tag: &[u8]) -> Option<&'static LocaleCurrency>
    requires { Contains CURRENCIES currency.now }
    ensures { IsSymbolRow currency.now tag.now (option_copied result) }
{
    row_in(&CURRENCY_SYMBOLS, currency.symbols, tag)
}

fn symbol_index(currency: &Currency, own: Option<&LocaleCurrency>, width: SymbolWidth) -> u16
    ensures { result ≡ symbol_index currency.now (option_copied own.entry) width }
{
    match (own, width) {
        (Some(own), SymbolWidth::Wide) => own.symbol,
        (Some(own), SymbolWidth::Narrow) => own.narrow,
        (None, SymbolWidth::Wide) => currency.symbol,
        (None, SymbolWidth::Narrow) => currency.narrow,
    }
}

#[inline(always)]
fn symbol_of(text: &CurrencyText) -> CurrencySymbol
    requires { Contains CURRENCY_TEXTS text.now }
    ensures { IsSymbol text.now result }
{
    CurrencySymbol {
        text: text_in(&CURRENCY_BYTES, text.bytes),
        space_before: text.space_before,
        space_after: text.space_after,
    }
}

#[inline(always)]
fn symbol_at(index: u16) -> Option<CurrencySymbol>
    ensures { IsSymbolAt index result }
{
    match CURRENCY_TEXTS.get(index as usize) {
        Some(text) => Some(symbol_of(text)),
        None => None,
    }
}

/// The rows of a currency for a tag. They are the same as long as the tables are.
///
/// ```
/// let id = currency_id("en", CurrencyCode::try_from_str("CAD")?)?;
/// currency_at(id)?.wide.text // CA$
/// ```
#[derive(Clone, Copy)]
pub struct CurrencyId {
    /// The currency in `CURRENCIES`.
    pub currency: u16,
    /// The symbol in `CURRENCY_TEXTS`.
    pub wide: u16,
    /// The narrow symbol in `CURRENCY_TEXTS`.
    pub narrow: u16,
    /// The pattern in `CURRENCY_OVERRIDES`, if the locale has one for this currency.
    pub pattern: Option<u8>,
}

fn override_row(currency: &Currency, tag: &[u8]) -> Option<&'static LocaleOverride>
    requires { Contains CURRENCIES currency.now }
    ensures { IsOverrideRow currency.now tag.now (option_copied result) }
{
    row_in(&OVERRIDES_BY_CURRENCY, currency.overrides, tag)
}

fn override_of(currency: &Currency, tag: &[u8]) -> Option<u8>
    requires { Contains CURRENCIES currency.now }
    ensures value { IsOverride currency.now tag.now result }
    ensures listed { IfSome result (λ index. index < length CURRENCY_OVERRIDES) }
{
    match override_row(currency, tag) {
        Some(row) => Some(row.pattern),
        None => None,
    }
}

/// Returns the rows of a currency for a tag, as `locale` has it, of which [`currency_at`] makes its symbols and digits.
///
/// Each is that of the listed locale with the longest tag that is `tag` or has a hyphen after it there, and without one
/// that of root. Returns `None` for a code that is not listed, whose symbol is the code.
///
/// ```
/// let dollar = CurrencyCode::try_from_str("USD")?;
/// currency_at(currency_id("de-AT", dollar)?)?.wide // $
/// currency_at(currency_id("en-AU", dollar)?)?.wide // USD
/// ```
pub fn currency_id(tag: &str, code: CurrencyCode) -> Option<CurrencyId>
    ensures found { IfSome result (IsCurrencyId tag.now code) }
    ensures rows { IfSome result (λ id. ¬ LacksCurrency id) }
    ensures unlisted { IsNone result ↔ (currency_with code ≡ None) }
{
    let rows = currencies();
    let index = index_named(rows, code.as_str().as_bytes())?;
    let currency = indexed_row(rows, index);
    let tag = tag.as_bytes();
    let own = own_symbols(currency, tag);
    Some(CurrencyId {
        currency: index as u16,
        wide: symbol_index(currency, own, SymbolWidth::Wide),
        narrow: symbol_index(currency, own, SymbolWidth::Narrow),
        pattern: override_of(currency, tag),
    })
}

fn is_override(pattern: Option<u8>) -> bool
    ensures { IsTrue result ↔ IfSome pattern (λ index. index < length CURRENCY_OVERRIDES) }
{
    match pattern {
        Some(index) => (index as usize) < CURRENCY_OVERRIDES.len(),
        None => true,
    }
}

/// Returns what a locale has for a currency from its rows, and `None` if there are no such rows.
///
/// ```
/// let id = currency_id("en", CurrencyCode::try_from_str("CAD")?)?;
/// currency_at(id)?.narrow.text // $
/// ```
#[inline(always)]
pub fn currency_at(id: CurrencyId) -> Option<LocalCurrency>
    ensures found { IfSome result (IsCurrencyAt id) }
    ensures lacks { IfNone result (LacksCurrency id) }
{
    let currency = currencies().get(id.currency as usize)?;
    let wide = symbol_at(id.wide)?;
    let narrow = symbol_at(id.narrow)?;
    if !is_override(id.pattern) {
        return None;
    }
    Some(LocalCurrency {
        digits: digits_of(currency),
        wide,
        narrow,
        pattern: id.pattern,
    })
}

/// The pattern of a currency that is chosen: `currencySign` of ECMA-402.
///
/// ```
/// let formats = formats_of("en", "latn");
/// currency_pattern(&formats, None, CurrencySign::Standard) // -XXX 1.00
/// currency_pattern(&formats, None, CurrencySign::Accounting) // (XXX 1.00)
/// ```
#[derive(Clone, Copy, Debug, PartialEq)]
pub enum CurrencySign {
    /// The usual one.
    Standard,
    /// That of accounts, which may have parentheses in place of a minus sign.
    Accounting,
}

/// How a currency is written.
///
/// UTS 35 part 3, Number Patterns and Number Symbols.
///
/// ```
/// let formats = formats_of("de-AT", "latn"); // 1 234,5, but money: € 1.234,50
/// currency_pattern(&formats, None, CurrencySign::Standard).grouping // Some: .
/// ```
#[derive(Clone, Copy)]
pub struct CurrencyPattern {
    /// The pattern.
    pub pattern: Pattern,
    /// The decimal separator, if it is not that of other numbers.
    pub decimal: Option<MoneySeparator>,
    /// The grouping separator, if it is not that of other numbers.
    pub grouping: Option<MoneySeparator>,
}

#[inline(always)]
fn overridden(index: u8) -> CurrencyPattern
    requires { index < length CURRENCY_OVERRIDES }
    ensures { overridden index ≡ Some result }
{
    let replaced = indexed_row(&CURRENCY_OVERRIDES, index as usize);
    CurrencyPattern {
        pattern: *pattern_at(replaced.pattern),
        decimal: Some(replaced.decimal),
        grouping: Some(replaced.grouping),
    }
}

fn pattern_index(formats: &NumberFormats, sign: CurrencySign) -> u8
    ensures { result ≡ pattern_index formats.now sign }
{
    match sign {
        CurrencySign::Standard => formats.standard,
        CurrencySign::Accounting => formats.accounting,
    }
}

#[inline(always)]
fn own_pattern(currency: Option<LocalCurrency>) -> Option<u8>
    ensures value { result ≡ option_and_then (λ c. c.pattern) currency }
    ensures listed { IfSome result (λ index. index < length CURRENCY_OVERRIDES) }
{
    match currency {
        Some(currency) => currency.pattern,
        None => None,
    }
}

/// Returns the pattern by which a locale writes amounts of a currency.
///
/// `formats` are those of the locale, and `currency` is what the locale has for the currency, if its code is listed.
/// The pattern is the first of these three that there is: the one that the locale has for this currency; that of the
/// region's currency, which ICU uses for all currencies there; the pattern of the formats. A code that is not listed
/// has the pattern of other currencies.
///
/// ```
/// currency_pattern(&formats_of("de", "latn"), currency_at(euro), CurrencySign::Standard) // 1,00 €
/// currency_pattern(&formats_of("en", "latn"), None, CurrencySign::Accounting) // (XXX 1.00)
/// ```
#[inline(always)]
pub fn currency_pattern(
    formats: &NumberFormats,
    currency: Option<LocalCurrency>,
    sign: CurrencySign,
) -> CurrencyPattern
    ensures { IsCurrencyPattern formats.now currency sign result }
{
    let money = indexed_row(&MONEY_FORMATS, formats.money as usize);
    match own_pattern(currency).or(money.replaced) {
        Some(index) => overridden(index),
        None => CurrencyPattern {
            pattern: *pattern_at(pattern_index(formats, sign)),
            decimal: money.decimal,
            grouping: money.grouping,
        },
    }
}
