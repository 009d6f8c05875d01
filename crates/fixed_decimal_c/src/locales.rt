//! Numbers of locales and of plural rules, as C keeps them.
ghost use Rattle.std.specs.Prelude.{◌≡◌, ◌≤◌, ◌^◌, Some, IfSome, IfNone};
ghost use Rattle.decimal_format.specs.Readable.{IsReadable};
ghost use Rattle.locale_data.specs.declared.plurals.PluralRuleType.{PluralRuleType};
ghost use Rattle.fixed_decimal_c.specs.Locales.{index_of, rows_of, symbols_of_number, IsLocaleNumber, rule_type_code, rules_of, IsRulesNumber, IsNamedRulesNumber};

use crate::error::FdError;
use conversions::locale_and_type;
use decimal_format::DecimalSymbols;
use locale_data::{LocaleId, PluralRuleType, PluralRulesId};
use std::str;

/// The number of values of 16 bits.
const SIZE: u64 = 65_536;

/// Returns a number for an index: one more, or 0 for none.
fn number_of_index(index: Option<u16>) -> u64
    ensures value { index_of result ≡ index }
    ensures at_most { result ≤ 2 ^ 16 }
{
    match index {
        Some(index) => index as u64 + 1,
        None => 0,
    }
}

/// Returns the index with a number.
fn index_of_number(number: u64) -> Option<u16>
    requires { number ≤ 2 ^ 16 }
    ensures { result ≡ index_of number }
{
    match number {
        0 => None,
        _ => Some((number - 1) as u16),
    }
}

/// Returns the number of rows.
pub(crate) fn number_of_rows(rows: LocaleId) -> u64
    ensures { rows_of result ≡ Some rows }
{
    let own = number_of_index(rows.own);
    1 + rows.locale as u64 + SIZE * (rows.system as u64 + SIZE * own)
}

/// Returns the rows with a number.
pub(crate) fn rows_of_number(number: u64) -> Option<LocaleId>
    ensures { result ≡ rows_of number }
{
    if number == 0 || number > (SIZE + 1) * SIZE * SIZE {
        return None;
    }
    let rest = number - 1;
    Some(LocaleId {
        locale: (rest % SIZE) as u16,
        system: (rest / SIZE % SIZE) as u16,
        own: index_of_number(rest / (SIZE * SIZE)),
    })
}

/// Returns the symbols of the locale with a number.
pub(crate) fn symbols_of_number(number: u64) -> Option<DecimalSymbols<'static>>
    ensures value { result ≡ symbols_of_number number }
    ensures readable { IfSome result (λ s. IsReadable s) }
{
    match rows_of_number(number) {
        Some(rows) => locale_data::symbols_at(rows),
        None => None,
    }
}

/// Returns the number of the locale of a tag.
pub(crate) fn number_of_locale(tag: &[u8]) -> Result<u64, FdError>
    ensures { IsLocaleNumber result tag.now }
{
    let Ok(tag) = str::from_utf8(tag) else {
        return Err(FdError::UnknownLocale);
    };
    match locale_data::locale_id(tag) {
        Some(rows) => Ok(number_of_rows(rows)),
        None => Err(FdError::UnknownLocale),
    }
}

/// Returns the type of plural rules with a code.
fn rule_type(code: u32) -> Option<PluralRuleType>
    ensures some { IfSome result (λ t. code ≡ rule_type_code t) }
    ensures none { IfNone result ((t : PluralRuleType) → code ≡ rule_type_code t → ⊥) }
{
    match code {
        0 => Some(PluralRuleType::Cardinal),
        1 => Some(PluralRuleType::Ordinal),
        _ => None,
    }
}

/// Returns the number of plural rules.
pub(crate) fn number_of_rules(rules: PluralRulesId) -> u64
    ensures value { rules_of result ≡ Some rules }
    ensures at_most { result ≤ 2 ^ 18 }
{
    let rule_type = match rules.rule_type {
        PluralRuleType::Cardinal => 0,
        PluralRuleType::Ordinal => 1,
    };
    1 + rule_type + 2 * number_of_index(rules.language)
}

/// Returns the plural rules with a number.
pub(crate) fn rules_of_number(number: u64) -> Option<PluralRulesId>
    ensures { result ≡ rules_of number }
{
    if number == 0 || number > (SIZE + 1) * 2 {
        return None;
    }
    let rule_type = if (number - 1) % 2 == 0 {
        PluralRuleType::Cardinal
    } else {
        PluralRuleType::Ordinal
    };
    Some(PluralRulesId {
        language: index_of_number((number - 1) / 2),
        rule_type,
    })
}

/// Returns the number of the plural rules of a tag.
pub(crate) fn number_of_plural_rules(tag: &[u8], code: u32) -> Result<u64, FdError>
    ensures { IsRulesNumber result tag.now code }
{
    let Some(rule_type) = rule_type(code) else {
        return Err(FdError::UnknownOption);
    };
    let Ok(tag) = str::from_utf8(tag) else {
        return Err(FdError::UnknownLocale);
    };
    match locale_data::plural_rules_id(tag, rule_type) {
        Some(rules) => Ok(number_of_rules(rules)),
        None => Err(FdError::UnknownLocale),
    }
}

/// Returns the number of the plural rules of the locale that a word names, or 0 if it names none.
pub(crate) fn number_of_named_rules(word: &[u8]) -> Result<u64, FdError>
    ensures { IsNamedRulesNumber result word.now }
{
    let Ok(word) = str::from_utf8(word) else {
        return Ok(0);
    };
    let Some((tag, rule_type)) = locale_and_type(word) else {
        return Ok(0);
    };
    match locale_data::plural_rules_id(tag, rule_type) {
        Some(rules) => Ok(number_of_rules(rules)),
        None => Err(FdError::UnknownLocale),
    }
}
