//! Whether the power of ten alone chooses the word of compact notation, in any plural category.
ghost use Rattle.std.specs.Prelude.{IsTrue, All};
ghost use Rattle.number_format.specs.CompactReading.{HasOneText};

use crate::read::apart::{are_same, are_same_powers};
use crate::read::pattern::NumberPattern;

fn has_one_text(first: &NumberPattern, second: &NumberPattern) -> bool
    ensures { IsTrue result → HasOneText first.now second.now }
{
    if first.sign != second.sign {
        return true;
    }
    if !are_same_powers(first.exponent, second.exponent) {
        return true;
    }
    are_same(first.affixes.texts(), second.affixes.texts())
}

fn have_one_text(first: &NumberPattern, others: &[NumberPattern]) -> bool
    ensures { IsTrue result → All (HasOneText first.now) others.now }
{
    for other in others {
        if !has_one_text(first, other) {
            return false;
        }
    }
    true
}

/// Returns whether all patterns of one sign and one power of ten have the same texts.
pub(crate) fn are_by_power(patterns: &[NumberPattern]) -> bool
    ensures { IsTrue result → All (λ p. All (HasOneText p) patterns.now) patterns.now }
{
    for pattern in patterns {
        if !have_one_text(pattern, patterns) {
            return false;
        }
    }
    true
}
