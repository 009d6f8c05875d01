//! The parser of plural rules, and plural categories of samples as CLDR writes them.
use fixed_decimal::{CompactDecimal, Decimal, UnsignedOver};
use plural_rules::{PluralOperands, PluralRules, RulesError};
use std::alloc::Global;
use test_support::CountingStore;

/// Whether a text is parsed as rules, or fails with the error that a word names, at an offset.
pub fn reads(alloc: Global, text: &str, (word, at): (&str, &str)) -> Option<bool> {
    let (found, offset) = match PluralRules::try_from_str(alloc, text) {
        Ok(_) => return Some(word == "read"),
        Err(RulesError::Syntax { at }) => ("syntax", at),
        Err(RulesError::Limit { at }) => ("limit", at),
        Err(RulesError::Memory) => return None,
    };
    Some((word == found) & (at.parse::<usize>().ok()? == offset))
}

/// Whether the category of a text over a store that counts is found by this number of digits accessed.
pub fn accesses<S: CountingStore>(
    alloc: Global,
    rules: &str,
    text: &str,
    count: &str,
) -> Option<bool> {
    let rules = PluralRules::try_from_str(alloc, rules).ok()?;
    let value = UnsignedOver::<S>::try_from_str(alloc, text).ok()?;
    value.store().restart();
    let _ = rules.category(&PluralOperands::of(&value));
    Some(value.store().accessed()? == count.parse::<usize>().ok()?)
}

/// Whether a text has a category. One with a `c` is a compact decimal.
pub fn takes(alloc: Global, rules: &PluralRules, text: &str, category: &str) -> Option<bool> {
    if text.contains('c') {
        let number = CompactDecimal::try_from_str(alloc, text).ok()?;
        return Some(rules.category(&PluralOperands::of_compact(&number)).name() == category);
    }
    let number = Decimal::try_from_str(alloc, text).ok()?;
    Some(rules.category(&PluralOperands::of_decimal(&number)).name() == category)
}

/// The digits of a text as one number: 15 of `1.5`.
fn units_of(alloc: Global, text: &str) -> Option<u64> {
    let digits = text.replace(alloc, ".", "").ok()?;
    digits.as_str().parse::<u64>().ok()
}

/// The text of a number of tenths, or of ones: `1.5` of 15 tenths.
fn text_of(alloc: Global, count: u64, has_tenths: bool) -> Option<String> {
    if has_tenths {
        format!(in alloc; "{}.{}", count / 10, count % 10).ok()
    } else {
        format!(in alloc; "{count}").ok()
    }
}

/// Whether each number from one to another has a category: whole numbers, or numbers with one fraction digit.
fn range_takes(
    alloc: Global,
    rules: &PluralRules,
    (first, last): (&str, &str),
    category: &str,
) -> Option<bool> {
    let has_tenths = first.contains('.');
    let (low, high) = (units_of(alloc, first)?, units_of(alloc, last)?);
    let mut all = (low < high)
        & takes(alloc, rules, first, category)?
        & takes(alloc, rules, last, category)?;
    for count in low..=high {
        let text = text_of(alloc, count, has_tenths)?;
        all &= takes(alloc, rules, text.as_str(), category)?;
    }
    Some(all)
}

/// Whether all samples of a list have a category by some rules: each of the numbers that a sample stands for.
pub fn take(alloc: Global, rules: &str, category: &str, samples: &str) -> Option<bool> {
    let rules = PluralRules::try_from_str(alloc, rules).ok()?;
    let mut all = true;
    for sample in samples.split(',') {
        let sample = sample.trim();
        all &= match sample.split_once('~') {
            Some(ends) => range_takes(alloc, &rules, ends, category)?,
            None => takes(alloc, &rules, sample, category)?,
        };
    }
    Some(all)
}
