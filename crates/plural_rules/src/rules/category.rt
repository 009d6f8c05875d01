//! The plural category of a number by rules.
ghost use Rattle.std.specs.{Prelude.{◌≡◌, ℕ, ◌%◌, ◌^◌, ◌<◌, ◌≤◌}, List.{list_any, list_all}};
ghost use Rattle.plural_rules.specs.{DigitSlice.IsUpTo, Rules.{operand_value, in_range, is_integer, relation, holds, is_met, category_of}};

use super::{Modulus, Operand, PluralCategory, PluralRules, Range, Relation, Rule};
use crate::operands::PluralOperands;
use fixed_decimal::DigitStore;

fn operand_up_to<D: DigitStore>(
    number: &PluralOperands<'_, D>,
    operand: Operand,
    most: u64,
) -> Option<u64>
    ensures { IsUpTo most result (operand_value number.now operand) }
{
    match operand {
        Operand::N | Operand::I => number.i_up_to(most),
        Operand::V => Some(number.v() as u64),
        Operand::W => Some(number.w() as u64),
        Operand::F => number.f_up_to(most),
        Operand::T => number.t_up_to(most),
        Operand::C => Some(number.c() as u64),
    }
}

fn operand_modulo<D: DigitStore>(
    number: &PluralOperands<'_, D>,
    operand: Operand,
    modulus: u64,
) -> u64
    requires positive { 0 < modulus }
    requires at_most { modulus ≤ 10 ^ 18 }
    ensures { result ≡ operand_value number.now operand % modulus }
{
    match operand {
        Operand::N | Operand::I => number.i_modulo(modulus),
        Operand::V => number.v() as u64 % modulus,
        Operand::W => number.w() as u64 % modulus,
        Operand::F => number.f_modulo(modulus),
        Operand::T => number.t_modulo(modulus),
        Operand::C => number.c() as u64 % modulus,
    }
}

impl Range {
    fn contains(&self, number: Option<u64>) -> bool
        ensures { (n : ℕ) → IsUpTo self.now.high number n → result ≡ in_range n self.now }
    {
        match number {
            None => false,
            Some(number) => self.low <= number && number <= self.high,
        }
    }
}

fn is_integer<D: DigitStore>(number: &PluralOperands<'_, D>, operand: Operand) -> bool
    ensures { result ≡ is_integer number.now operand }
{
    operand != Operand::N || number.w() == 0
}

fn operand_is_in<D: DigitStore>(
    number: &PluralOperands<'_, D>,
    operand: Operand,
    ranges: &[Range],
) -> bool
    ensures { result ≡ list_any (in_range (operand_value number.now operand)) ranges.now }
{
    for range in ranges {
        if range.contains(operand_up_to(number, operand, range.high)) {
            return true;
        }
    }
    false
}

fn remainder_is_in(remainder: u64, ranges: &[Range]) -> bool
    ensures { result ≡ list_any (in_range remainder) ranges.now }
{
    for range in ranges {
        if range.low <= remainder && remainder <= range.high {
            return true;
        }
    }
    false
}

/// Returns whether a relation holds: an operand, or its remainder by a modulus, is in one of the ranges, or for `!=` in
/// none of them.
///
/// If `n` is not an integer, it is in no range. UTS 35 part 3, Relations.
///
/// ```
/// // `n % 10 = 2..4`, which holds for 22, and for 23.0 too:
/// relation_holds(&number, Operand::N, Modulus::new(10), true, &[Range { low: 2, high: 4 }]) // true
/// ```
pub fn relation_holds<D: DigitStore>(
    number: &PluralOperands<'_, D>,
    operand: Operand,
    modulus: Option<Modulus>,
    is_equal: bool,
    ranges: &[Range],
) -> bool
    ensures { result ≡ holds number.now (relation operand modulus is_equal ranges.now) }
{
    if !is_integer(number, operand) {
        return !is_equal;
    }
    let is_in = match modulus {
        None => operand_is_in(number, operand, ranges),
        Some(modulus) => {
            remainder_is_in(operand_modulo(number, operand, modulus.divisor()), ranges)
        }
    };
    is_in == is_equal
}

impl Relation {
    fn holds<D: DigitStore>(&self, number: &PluralOperands<'_, D>) -> bool
        ensures { result ≡ holds number.now self.now }
    {
        relation_holds(
            number,
            self.operand,
            self.modulus,
            self.is_equal,
            &self.ranges,
        )
    }
}

fn all_hold<D: DigitStore>(relations: &[Relation], number: &PluralOperands<'_, D>) -> bool
    ensures { result ≡ list_all (holds number.now) relations.now }
{
    for relation in relations {
        if !relation.holds(number) {
            return false;
        }
    }
    true
}

impl Rule {
    fn is_met<D: DigitStore>(&self, number: &PluralOperands<'_, D>) -> bool
        ensures { result ≡ is_met number.now self.now }
    {
        let alternatives = self.alternatives.as_slice();
        for relations in alternatives {
            if all_hold(relations, number) {
                return true;
            }
        }
        false
    }
}

impl PluralRules {
    /// Returns the category of the first rule, in the order of the text, whose condition the number meets.
    ///
    /// By `one: i = 1 and v = 0`, `1` is `One`, and `1.0` is `Other`, as is each number that meets no condition. Exact
    /// at any length of the number; does not allocate.
    pub fn category<D: DigitStore>(&self, number: &PluralOperands<'_, D>) -> PluralCategory
        ensures { result ≡ category_of self.now number.now }
    {
        let rules = self.rules.as_slice();
        for rule in rules {
            if rule.is_met(number) {
                return rule.category;
            }
        }
        PluralCategory::Other
    }
}
