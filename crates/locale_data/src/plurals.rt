//! The plural rules of a tag.
ghost use Rattle.std.specs.{Prelude.{◌≡◌, ◌↔◌, None, IfSome, IfNone, IsSomeAnd, IsTrue}, Option.option_copied};
ghost use Rattle.locale_data.specs.Plurals.{set_of, set_at, rules_text_at, IsRulesText, HasNoRules, IsRulesAt, IsCategoryAt, IsRulesOf, HoldsAlone, HasOneAlone};

use crate::locales::locales;
use crate::plural_rows::{are_alone_in, category_in};
use crate::search::{Row, part, row_index};
use crate::tables::plurals::{OTHER, PLURAL_RULES, PLURAL_RULES_TEXTS};
use crate::tables::rows::Name;
use crate::tables::rows::plurals::{LanguageRules, RuleSet};
use fixed_decimal::DigitStore;
use plural_rules::{PluralCategory, PluralOperands, PluralRules};
use std::alloc::Global;

/// The kind of numbers that plural rules are for: `type` of `Intl.PluralRules` in ECMA-402.
///
/// ```
/// let rules = plural_rules_id("en", PluralRuleType::Ordinal)?;
/// plural_category_at(rules, &PluralOperands::of_decimal(&two)) // Some(Two): 2nd
/// ```
#[derive(Clone, Copy, Debug, PartialEq)]
pub enum PluralRuleType {
    /// Numbers of things: `2 days`.
    Cardinal,
    /// Places in an order: `2nd day`.
    Ordinal,
}

/// The plural rules of a tag: the index of its language in `PLURAL_RULES`, and the type.
///
/// A tag that has symbols and no rules has no index: its rules are `other:`.
///
/// ```
/// let rules = plural_rules_id("ru", PluralRuleType::Cardinal)?;
/// plural_category_at(rules, &PluralOperands::of_decimal(&two)) // Some(Few)
/// ```
#[derive(Clone, Copy)]
pub struct PluralRulesId {
    /// The index of the language.
    pub language: Option<u16>,
    /// What the rules are for.
    pub rule_type: PluralRuleType,
}

impl Row for LanguageRules {
    ghost name = { λ language. language.tag };

    fn name(&self) -> Name {
        self.tag
    }
}

fn set_of(language: &LanguageRules, rule_type: PluralRuleType) -> RuleSet
    ensures { result ≡ set_of language.now rule_type }
{
    match rule_type {
        PluralRuleType::Cardinal => language.cardinal,
        PluralRuleType::Ordinal => language.ordinal,
    }
}

fn languages() -> &'static [LanguageRules]
    ensures { result.now ≡ PLURAL_RULES }
{
    &PLURAL_RULES
}

/// Returns the plural rules of a tag, as [`rules_text_at`] and [`plural_rules_at`] take them.
///
/// Returns `None` where [`plural_rules_text`] does.
///
/// ```
/// plural_rules_id("en-GB", PluralRuleType::Cardinal) // Some
/// plural_rules_id("tlh", PluralRuleType::Cardinal) // None
/// ```
pub fn plural_rules_id(tag: &str, rule_type: PluralRuleType) -> Option<PluralRulesId>
    ensures found { IfSome result (λ id. IsSomeAnd (rules_text_at id) (IsRulesText tag.now rule_type)) }
    ensures unknown { IfNone result (HasNoRules tag.now) }
{
    let tag = tag.as_bytes();
    if let Some(index) = row_index(languages(), tag) {
        return Some(PluralRulesId {
            language: Some(index as u16),
            rule_type,
        });
    }
    match row_index(locales(), tag) {
        Some(_) => Some(PluralRulesId {
            language: None,
            rule_type,
        }),
        None => None,
    }
}

fn set_at(id: PluralRulesId) -> Option<RuleSet>
    ensures { result ≡ set_at id }
{
    let Some(index) = id.language else {
        return Some(OTHER);
    };
    match languages().get(index as usize) {
        Some(language) => Some(set_of(language, id.rule_type)),
        None => None,
    }
}

/// Returns the text of plural rules, and `None` if no language has the index.
///
/// ```
/// rules_text_at(plural_rules_id("en", PluralRuleType::Cardinal)?) // one: i = 1 and v = 0
/// ```
pub fn rules_text_at(id: PluralRulesId) -> Option<&'static [u8]>
    ensures { option_copied result ≡ rules_text_at id }
{
    match set_at(id) {
        Some(set) => Some(part(&PLURAL_RULES_TEXTS, set.text)),
        None => None,
    }
}

/// Returns the text of the plural rules of a tag, as `PluralRules` parses it.
///
/// The rules are those of the listed language with the longest tag that is `tag` or has a hyphen after it there.
/// Letters may be of either case, and `_`, `.` and `@` are hyphens. A tag that has no rules but symbols, for which
/// `locale` returns some, has the rules `other:`. Returns `None` for other tags.
///
/// ```
/// plural_rules_text("en-GB", PluralRuleType::Cardinal) // one: i = 1 and v = 0
/// ```
pub fn plural_rules_text(tag: &str, rule_type: PluralRuleType) -> Option<&'static [u8]>
    ensures found { IfSome result (λ text. IsRulesText tag.now rule_type text.now) }
    ensures unknown { IfNone result (HasNoRules tag.now) }
{
    match plural_rules_id(tag, rule_type) {
        Some(id) => rules_text_at(id),
        None => None,
    }
}

/// Why a tag has no plural rules.
///
/// ```
/// plural_rules_of(alloc, "tlh", PluralRuleType::Cardinal) // UnknownLocale
/// ```
#[derive(Clone, Copy, Debug, PartialEq)]
pub enum PluralRulesError {
    /// The tag has neither rules nor symbols.
    UnknownLocale,
    /// Out of memory.
    Memory,
}

/// Returns plural rules: those of `rules_text_at`.
///
/// ```
/// let rules = plural_rules_at(alloc, plural_rules_id("ru", PluralRuleType::Cardinal)?)?;
/// rules.category(&PluralOperands::of_decimal(&two)) // Few
/// ```
///
/// # Errors
///
/// No language has the index, or the program is out of memory.
pub fn plural_rules_at(alloc: Global, id: PluralRulesId) -> Result<PluralRules, PluralRulesError>
    ensures { IsRulesAt id result }
{
    let Some(text) = rules_text_at(id) else {
        return Err(PluralRulesError::UnknownLocale);
    };
    match PluralRules::try_from_utf8(alloc, text) {
        Ok(rules) => Ok(rules),
        // The texts of the table are rules.
        Err(_) => Err(PluralRulesError::Memory),
    }
}

/// Returns the plural category of a number by the rules of `rules_text_at`, and `None` if no language has the index.
///
/// It does not allocate.
///
/// ```
/// let rules = plural_rules_id("ru", PluralRuleType::Cardinal)?;
/// plural_category_at(rules, &PluralOperands::of_decimal(&two)) // Some(Few)
/// ```
pub fn plural_category_at<D: DigitStore>(
    rules: PluralRulesId,
    number: &PluralOperands<'_, D>,
) -> Option<PluralCategory>
    ensures some { IfSome result (λ category. IsCategoryAt rules number.now category) }
    ensures none { IfNone result (rules_text_at rules ≡ None) }
{
    match set_at(rules) {
        Some(set) => Some(category_in(set.rules, number)),
        None => None,
    }
}

/// Returns whether a category is that of one number alone, by what the rules ask for: of 1 `n = 1`, or `i = 1` and
/// `v = 0`.
///
/// It is false of `other`, and also if no language has the index.
///
/// ```
/// holds_alone(plural_rules_id("ar", PluralRuleType::Cardinal)?, PluralCategory::Two, 2) // true
/// holds_alone(plural_rules_id("sl", PluralRuleType::Cardinal)?, PluralCategory::Two, 2) // false: 102 is `two` too
/// ```
pub fn holds_alone(rules: PluralRulesId, category: PluralCategory, number: u64) -> bool
    ensures { IsTrue result ↔ HoldsAlone rules category number }
{
    match set_at(rules) {
        Some(set) => are_alone_in(category, number, set.rules),
        None => false,
    }
}

/// Returns whether `one` is the category of the number 1 alone, as [`holds_alone`] does.
///
/// ```
/// is_one_alone(plural_rules_id("it", PluralRuleType::Cardinal)?) // true
/// is_one_alone(plural_rules_id("fr", PluralRuleType::Cardinal)?) // false: 0 and 1.5 are `one` too
/// ```
pub fn is_one_alone(rules: PluralRulesId) -> bool
    ensures { IsTrue result ↔ HasOneAlone rules }
{
    holds_alone(rules, PluralCategory::One, 1)
}

/// Returns the plural rules of a tag: those of `plural_rules_text`.
///
/// # Errors
///
/// The locale is unknown, or the program is out of memory.
///
/// ```
/// let rules = plural_rules_of(alloc, "ru", PluralRuleType::Cardinal)?;
/// rules.category(&PluralOperands::of_decimal(&two)) // few
/// ```
pub fn plural_rules_of(
    alloc: Global,
    tag: &str,
    rule_type: PluralRuleType,
) -> Result<PluralRules, PluralRulesError>
    ensures { IsRulesOf tag.now rule_type result }
{
    match plural_rules_id(tag, rule_type) {
        Some(id) => plural_rules_at(alloc, id),
        None => Err(PluralRulesError::UnknownLocale),
    }
}
