//! Plural categories by the rows of plural rules.
ghost use Rattle.std.specs.{Prelude.{◌≡◌, List, map}, List.{list_any, list_all}};
ghost use Rattle.plural_rules.specs.Rules.{holds, is_met, category_of};
ghost use Rattle.locale_data.specs.{PluralRows.{relation_of, relations_in, rule_of, rules_in}, Plurals.{operand_is, is_just, is_equation, ask_for, category_is, asks_for, are_alone}, Rows.part};
ghost use Rattle.locale_data.specs.declared.tables.plurals.TheConstants.{PLURAL_ALTERNATIVES};

use crate::search::part;
use crate::tables::plurals::{
    PLURAL_ALTERNATIVES, PLURAL_RANGES, PLURAL_RELATIONS, PLURAL_RULE_ROWS,
};
use crate::tables::rows::TableRange;
use crate::tables::rows::plurals::{RelationRow, RuleRow};
use fixed_decimal::DigitStore;
use plural_rules::{Modulus, Operand, PluralCategory, PluralOperands, Range, relation_holds};

fn holds<D: DigitStore>(relation: &RelationRow, number: &PluralOperands<'_, D>) -> bool
    ensures { result ≡ holds number.now (relation_of relation.now) }
{
    let modulus = Modulus::new(relation.modulus);
    let ranges = part(&PLURAL_RANGES, relation.ranges);
    relation_holds(number, relation.operand, modulus, relation.is_equal, ranges)
}

fn all_hold<D: DigitStore>(relations: TableRange, number: &PluralOperands<'_, D>) -> bool
    ensures { result ≡ list_all (holds number.now) (relations_in relations) }
{
    let rows = part(&PLURAL_RELATIONS, relations);
    for relation in rows {
        if !holds(relation, number) {
            return false;
        }
    }
    true
}

fn is_met<D: DigitStore>(rule: &RuleRow, number: &PluralOperands<'_, D>) -> bool
    ensures { result ≡ is_met number.now (rule_of rule.now) }
{
    let rows = part(&PLURAL_ALTERNATIVES, rule.alternatives);
    for relations in rows {
        if all_hold(*relations, number) {
            return true;
        }
    }
    false
}

/// Returns the category of a number by the rules in a range of `PLURAL_RULE_ROWS`.
pub(crate) fn category_in<D: DigitStore>(
    rules: TableRange,
    number: &PluralOperands<'_, D>,
) -> PluralCategory
    ensures { result ≡ category_of (rules_in rules) number.now }
{
    let rows = part(&PLURAL_RULE_ROWS, rules);
    for rule in rows {
        if is_met(rule, number) {
            return rule.category;
        }
    }
    PluralCategory::Other
}

fn operand_is(wanted: Operand, operand: Operand) -> bool
    ensures { result ≡ operand_is wanted operand }
{
    matches!(
        (wanted, operand),
        (Operand::N, Operand::N) | (Operand::I, Operand::I) | (Operand::V, Operand::V)
    )
}

fn is_just(number: u64, ranges: &[Range]) -> bool
    ensures { result ≡ is_just number ranges.now }
{
    match ranges {
        [range] => range.low == number && range.high == number,
        _ => false,
    }
}

fn is_equation(operand: Operand, number: u64, relation: &RelationRow) -> bool
    ensures { result ≡ is_equation operand number (relation_of relation.now) }
{
    if !operand_is(operand, relation.operand) {
        return false;
    }
    if Modulus::new(relation.modulus).is_some() {
        return false;
    }
    if !relation.is_equal {
        return false;
    }
    is_just(number, part(&PLURAL_RANGES, relation.ranges))
}

fn have_equation(operand: Operand, number: u64, relations: TableRange) -> bool
    ensures { result ≡ list_any (is_equation operand number) (relations_in relations) }
{
    part(&PLURAL_RELATIONS, relations)
        .iter()
        .any(|relation| is_equation(operand, number, relation))
}

fn ask_for(number: u64, relations: TableRange) -> bool
    ensures { result ≡ ask_for number (relations_in relations) }
{
    have_equation(Operand::N, number, relations)
        || have_equation(Operand::I, number, relations) && have_equation(Operand::V, 0, relations)
}

fn all_ask_for(number: u64, alternatives: TableRange) -> bool
    ensures { result ≡ list_all (ask_for number) (map relations_in (part PLURAL_ALTERNATIVES alternatives)) }
{
    part(&PLURAL_ALTERNATIVES, alternatives)
        .iter()
        .all(|relations| ask_for(number, *relations))
}

fn category_is(wanted: PluralCategory, category: PluralCategory) -> bool
    ensures { result ≡ category_is wanted category }
{
    matches!(
        (wanted, category),
        (PluralCategory::Zero, PluralCategory::Zero)
            | (PluralCategory::One, PluralCategory::One)
            | (PluralCategory::Two, PluralCategory::Two)
            | (PluralCategory::Few, PluralCategory::Few)
            | (PluralCategory::Many, PluralCategory::Many)
            | (PluralCategory::Other, PluralCategory::Other)
    )
}

fn asks_for(category: PluralCategory, number: u64, rule: &RuleRow) -> bool
    ensures { result ≡ asks_for category number (rule_of rule.now) }
{
    if category_is(category, rule.category) {
        return all_ask_for(number, rule.alternatives);
    }
    true
}

fn all_rules_ask_for(category: PluralCategory, number: u64, rules: TableRange) -> bool
    ensures { result ≡ list_all (asks_for category number) (rules_in rules) }
{
    part(&PLURAL_RULE_ROWS, rules)
        .iter()
        .all(|rule| asks_for(category, number, rule))
}

/// Returns whether each rule of a category in a range of `PLURAL_RULE_ROWS` asks for a number; false of `other`.
pub(crate) fn are_alone_in(category: PluralCategory, number: u64, rules: TableRange) -> bool
    ensures { result ≡ are_alone category number (rules_in rules) }
{
    !category_is(PluralCategory::Other, category) && all_rules_ask_for(category, number, rules)
}
