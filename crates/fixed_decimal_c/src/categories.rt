//! Plural categories.
ghost use Rattle.std.specs.Prelude.{◌≡◌, pos, IfSome, IfNone};
ghost use Rattle.fixed_decimal_c.specs.{Categories.{category_code, HasCategoryIn, HasCategory, HasCategoryOf}, Ranges.{IsNoCategory, IsRangeCategory}};

use crate::error::FdError;
use crate::locales::rules_of_number;
use crate::numbers::read;
use locale_data::{
    PluralRuleType, plural_category_at, plural_range_category, plural_rules_id, rules_text_at,
};
use plural_rules::{PluralCategory, PluralOperands, PluralRules, RulesError};
use std::alloc::Global;
use std::str;

/// Returns the number of a category.
fn category_number(category: PluralCategory) -> i64
    ensures { result ≡ category_code category }
{
    category as i64
}

/// Returns the number of the plural category of a decimal by rules.
fn category_in(alloc: Global, rules: &PluralRules, text: &[u8]) -> Result<i64, FdError>
    ensures { HasCategoryIn result rules.now text.now }
{
    let value = read(alloc, text, 0)?;
    let category = rules.category(&PluralOperands::of_decimal(&value));
    Ok(category_number(category))
}

/// Returns the number of the plural category of a decimal by the text of rules.
pub(crate) fn category_of(alloc: Global, rules: &[u8], text: &[u8]) -> Result<i64, FdError>
    ensures { HasCategory result rules.now text.now }
{
    match PluralRules::try_from_utf8(alloc, rules) {
        Ok(rules) => category_in(alloc, &rules, text),
        Err(RulesError::Syntax { at }) => Err(FdError::RulesSyntax { at }),
        Err(RulesError::Limit { at }) => Err(FdError::RulesLimit { at }),
        Err(RulesError::Memory) => Err(FdError::Memory),
    }
}

/// Returns the number of the plural category of a decimal by the rules with a number.
pub(crate) fn category_by(alloc: Global, number: u64, text: &[u8]) -> Result<i64, FdError>
    ensures { HasCategoryOf result number text.now }
{
    let Some(rules) = rules_of_number(number) else {
        return Err(FdError::UnknownLocale);
    };
    if rules_text_at(rules).is_none() {
        return Err(FdError::UnknownLocale);
    }
    let value = read(alloc, text, 0)?;
    match plural_category_at(rules, &PluralOperands::of_decimal(&value)) {
        Some(category) => Ok(category_number(category)),
        None => Err(FdError::UnknownLocale),
    }
}

/// Returns the category with a number.
fn category_with(number: u32) -> Option<PluralCategory>
    ensures some { IfSome result (λ category. pos number ≡ category_code category) }
    ensures none { IfNone result (IsNoCategory number) }
{
    match number {
        0 => Some(PluralCategory::Zero),
        1 => Some(PluralCategory::One),
        2 => Some(PluralCategory::Two),
        3 => Some(PluralCategory::Few),
        4 => Some(PluralCategory::Many),
        5 => Some(PluralCategory::Other),
        _ => None,
    }
}

/// Returns the number of the plural category of a range in the language of a tag, by the numbers of the categories of
/// its start and its end.
pub(crate) fn range_category(tag: &[u8], start: u32, end: u32) -> Result<i64, FdError>
    ensures { IsRangeCategory result tag.now start end }
{
    let Some(start) = category_with(start) else {
        return Err(FdError::UnknownOption);
    };
    let Some(end) = category_with(end) else {
        return Err(FdError::UnknownOption);
    };
    let Ok(tag) = str::from_utf8(tag) else {
        return Err(FdError::UnknownLocale);
    };
    match plural_rules_id(tag, PluralRuleType::Cardinal) {
        Some(_) => Ok(category_number(plural_range_category(tag, start, end))),
        None => Err(FdError::UnknownLocale),
    }
}
