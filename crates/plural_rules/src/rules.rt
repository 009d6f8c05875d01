//! Plural rules as a value: a list of categories, each with its condition.
ghost use Rattle.std.specs.Prelude.{◌≡◌, ◌<◌, ◌≤◌, ◌^◌, map};
ghost use Rattle.plural_rules.specs.Rules.{name_of, modulus_of, relation, rule};

pub(crate) mod category;

use std::marker::Model;

/// A plural category, by which a language selects the words for a number.
///
/// The six names are those of UTS 35 part 3, Language Plural Rules. Each language defines what they mean.
///
/// ```
/// PluralCategory::Few.name() // few
/// ```
#[derive(Clone, Copy, Debug, PartialEq, Eq)]
pub enum PluralCategory {
    /// In Arabic, the category of `0`.
    Zero,
    /// In English, the category of `1`.
    One,
    /// In Arabic, the category of `2`.
    Two,
    /// In Russian, the category of `2`.
    Few,
    /// In Russian, the category of `5`.
    Many,
    /// All other numbers; the only category that every language has.
    Other,
}

impl PluralCategory {
    /// Returns the name of the category in the syntax of rules: `few`.
    pub fn name(self) -> &'static str
        ensures { result.now ≡ name_of self }
    {
        match self {
            PluralCategory::Zero => "zero",
            PluralCategory::One => "one",
            PluralCategory::Two => "two",
            PluralCategory::Few => "few",
            PluralCategory::Many => "many",
            PluralCategory::Other => "other",
        }
    }
}

/// An operand of a number, which a relation compares.
///
/// UTS 35 part 3, Plural Operand Meanings.
///
/// ```
/// // `n % 10 = 2..4`, which holds for 22:
/// relation_holds(&number, Operand::N, Modulus::new(10), true, &[Range { low: 2, high: 4 }]) // true
/// ```
#[derive(Clone, Copy, Debug, PartialEq, Eq)]
pub enum Operand {
    /// The number itself, if it is an integer.
    N,
    /// The integer digits, as an integer.
    I,
    /// The number of fraction digits.
    V,
    /// The number of fraction digits without trailing zeros.
    W,
    /// The fraction digits, as an integer.
    F,
    /// The fraction digits without trailing zeros, as an integer.
    T,
    /// The exponent of a compact decimal; rules also call it `e`.
    C,
}

/// A range of integers, both ends included: `2..4`. It is empty if the first is above the last.
///
/// ```
/// // `n = 2..4`, which holds for 3:
/// relation_holds(&number, Operand::N, None, true, &[Range { low: 2, high: 4 }]) // true
/// ```
#[derive(Clone, Copy, Debug, PartialEq, Eq)]
pub struct Range {
    /// The first.
    pub low: u64,
    /// The last.
    pub high: u64,
}

/// The greatest modulus.
pub const MAX_MODULUS: u64 = 1_000_000_000_000_000_000;

/// A modulus, from 1 to 10^18.
///
/// ```
/// Modulus::new(100)?.divisor() // 100
/// Modulus::new(0) // None
/// ```
#[derive(Clone, Copy, Debug)]
pub struct Modulus {
    divisor: u64,
}

impl Model for Modulus {
    ghost use Rattle.std.specs.Prelude.{ℕ, ◌<◌, ◌≤◌, ◌^◌};

    ghost Value = { ℕ };

    ghost view = { λ s. s.divisor };

    ghost inverse = { λ n. record { divisor = n } };

    ghost invariant = { λ s. (0 < s.divisor) × (s.divisor ≤ 10 ^ 18) };
}

impl Modulus {
    /// Makes a modulus of a divisor from 1 to 10^18; `None` for every other divisor.
    pub fn new(divisor: u64) -> Option<Modulus>
        ensures { result ≡ modulus_of divisor }
    {
        if divisor == 0 || divisor > MAX_MODULUS {
            None
        } else {
            Some(Modulus { divisor })
        }
    }

    /// Returns the divisor.
    pub fn divisor(self) -> u64
        ensures value { result ≡ self }
        ensures positive { 0 < result }
        ensures at_most { result ≤ 10 ^ 18 }
    {
        self.divisor
    }
}

/// A relation: an operand, or its remainder by a modulus, is in one of the ranges, or in none of them: `i % 10 = 2..4`.
#[derive(Debug)]
pub struct Relation {
    operand: Operand,
    modulus: Option<Modulus>,
    is_equal: bool,
    ranges: Vec<Range>,
}

// Not derived, since a derived drop is proved again in each dependent crate.
impl Drop for Relation {
    fn drop(self) {
        let Relation {
            operand: _,
            modulus: _,
            is_equal: _,
            ranges,
        } = self;
        drop(ranges);
    }
}

impl Model for Relation {
    ghost use Rattle.plural_rules.specs.Rules.{RelationValue, relation};

    ghost Value = { RelationValue };

    ghost view = { λ s. relation s.operand s.modulus s.is_equal s.ranges.items };
}

impl Relation {
    /// Makes a relation of its parts; `is_equal` is true for `=`, and false for `!=`.
    pub fn new(
        operand: Operand,
        modulus: Option<Modulus>,
        is_equal: bool,
        ranges: Vec<Range>,
    ) -> Self
        ensures { result ≡ relation operand modulus is_equal ranges.items }
    {
        Relation {
            operand,
            modulus,
            is_equal,
            ranges,
        }
    }
}

/// A category and its condition: all relations of one alternative hold. With no alternatives it never holds.
#[derive(Debug)]
pub struct Rule {
    category: PluralCategory,
    alternatives: Vec<Vec<Relation>>,
}

// Not derived, since a derived drop is proved again in each dependent crate.
impl Drop for Rule {
    fn drop(self) {
        let Rule {
            category: _,
            alternatives,
        } = self;
        drop(alternatives);
    }
}

impl Model for Rule {
    ghost use Rattle.std.specs.Prelude.{map};
    ghost use Rattle.plural_rules.specs.Rules.{RuleValue, rule};

    ghost Value = { RuleValue };

    ghost view = { λ s. rule s.category (map (λ relations. relations.items) s.alternatives.items) };
}

impl Rule {
    /// Makes a rule of a category and its condition.
    pub fn new(category: PluralCategory, alternatives: Vec<Vec<Relation>>) -> Self
        ensures { result ≡ rule category (map (λ relations. relations.items) alternatives.items) }
    {
        Rule {
            category,
            alternatives,
        }
    }
}

/// Plural rules: categories in order, each with its condition.
///
/// Contracts see the list of the rules. UTS 35 part 3, Plural Rules Syntax.
///
/// ```
/// let rules = PluralRules::try_from_str(alloc, "one: i = 1 and v = 0; other:")?;
/// rules.category(&PluralOperands::of_decimal(&one)) // One
/// rules.category(&PluralOperands::of_decimal(&one_point_zero)) // Other
/// ```
#[derive(Debug)]
pub struct PluralRules {
    rules: Vec<Rule>,
}

// Not derived: a derived drop is proved again in each crate that depends on this one.
impl Drop for PluralRules {
    fn drop(self) {
        let PluralRules { rules } = self;
        drop(rules);
    }
}

impl Model for PluralRules {
    ghost use Rattle.std.specs.Prelude.{List};
    ghost use Rattle.plural_rules.specs.Rules.{RuleValue};

    ghost Value = { List RuleValue };

    ghost view = { λ s. s.rules.items };
}

impl PluralRules {
    pub(crate) fn new(rules: Vec<Rule>) -> Self
        ensures { result ≡ rules.items }
    {
        PluralRules { rules }
    }
}
