//! Plural rules.

use super::{Name, TableRange};
use plural_rules::{Operand, PluralCategory};

/// Plural rules, as a text and as rows.
#[derive(Clone, Copy)]
pub struct RuleSet {
    /// The range of the text in `PLURAL_RULES_TEXTS`.
    pub text: TableRange,
    /// The range of the rules in `PLURAL_RULE_ROWS`.
    pub rules: TableRange,
}

/// The plural rules of a language.
#[derive(Clone, Copy)]
pub struct LanguageRules {
    /// The tag of the language.
    pub tag: Name,
    /// The rules of numbers of things.
    pub cardinal: RuleSet,
    /// The rules of places in an order.
    pub ordinal: RuleSet,
}

/// A relation.
#[derive(Clone, Copy)]
pub struct RelationRow {
    /// The operand.
    pub operand: Operand,
    /// The modulus, or 0 if there is none.
    pub modulus: u64,
    /// True for `=`, and false for `!=`.
    pub is_equal: bool,
    /// The ranges, as a range of `PLURAL_RANGES`.
    pub ranges: TableRange,
}

/// A rule.
#[derive(Clone, Copy)]
pub struct RuleRow {
    /// The category.
    pub category: PluralCategory,
    /// The alternatives of the condition, as a range of `PLURAL_ALTERNATIVES`.
    pub alternatives: TableRange,
}

/// A language that has categories of ranges.
#[derive(Clone, Copy)]
pub struct RangeLanguage {
    /// The language.
    pub tag: Name,
    /// The categories of its ranges, as a range of `RANGE_CATEGORIES`.
    pub ranges: TableRange,
}

/// The category of a range of numbers, by those of its ends.
#[derive(Clone, Copy)]
pub struct RangeCategory {
    /// The category of the start.
    pub start: PluralCategory,
    /// The category of the end.
    pub end: PluralCategory,
    /// The category of the range.
    pub category: PluralCategory,
}
