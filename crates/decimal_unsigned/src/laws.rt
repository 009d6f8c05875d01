//! Laws of parsing, trimming, concatenation and rounding. The functions do nothing; their contracts are the laws, for
//! every value.
ghost use Rattle.std.specs.Prelude.{ℕ, List, ℤ, negsuc, ◌≤ℤ◌};
ghost use Rattle.decimal_digits.specs.declared.rounding.UnsignedRoundingMode.{UnsignedRoundingMode};
ghost use Rattle.decimal_unsigned.specs.ConcatenationLaws.{ConcatenationIsAssociative};
ghost use Rattle.decimal_unsigned.specs.Rounded.{Rounding};
ghost use Rattle.decimal_unsigned.specs.ValueLaws.{TrimmedIsNormalForm, trunced, TruncationsCompose, ExpansionsCompose, RoundingIsMonotone};
ghost use Rattle.decimal_unsigned.specs.Reading.{FollowsGrammar};
ghost use Rattle.decimal_unsigned.specs.Unsigned.{Unsigned, IsValue};

/// A text in the grammar has the value of its parts, and any other text is a syntax error.
#[tactic(auto, using(crate::proofs::lemmas::parse::ReadingGrammar::follows_grammar))]
pub fn reading_follows_grammar()
    ensures { (text : List ℕ) → FollowsGrammar text }
{}

/// Two values have the same number if and only if they are equal after both trims.
#[tactic(auto, using(crate::proofs::lemmas::laws::ValueLaws::trimmed_is_normal_form))]
pub fn trimmed_is_normal_form()
    ensures { (v w : Unsigned) → TrimmedIsNormalForm v w }
{}

/// Concatenation is associative: three values joined from either side give the same value, or overlap.
#[tactic(auto, using(crate::proofs::lemmas::laws::ConcatenationLaws::concatenation_is_associative))]
pub fn concatenation_is_associative()
    ensures { (u v w : Unsigned) → IsValue u → IsValue v → IsValue w → ConcatenationIsAssociative u v w }
{}

/// Rounding is monotone: of two numbers, the greater one is rounded to no less than the other. After an error the
/// number is unchanged.
#[tactic(auto, using(crate::proofs::lemmas::shift::RoundingLaws::rounding_is_monotone))]
pub fn rounding_is_monotone()
    ensures { (v w : Unsigned) → (rounding : Rounding UnsignedRoundingMode) → RoundingIsMonotone v w rounding }
{}

/// Expanding at two positions gives the number of expanding at the higher one, and fails exactly if that fails.
#[tactic(auto, using(crate::proofs::lemmas::shift::RoundingLaws::expansions_compose))]
pub fn expansions_compose()
    ensures { (v : Unsigned) → (position : ℤ) → negsuc 32767 ≤ℤ position → ExpansionsCompose v position }
{}

/// Truncating at two positions gives the number of truncating at the higher one, and its range too if the second
/// position is the higher one.
#[tactic(auto, using(crate::proofs::lemmas::shift::RoundingLaws::truncations_compose))]
pub fn truncations_compose()
    ensures { (v : Unsigned) → (position : ℤ) → IsValue v → negsuc 32767 ≤ℤ position
        → TruncationsCompose v position (trunced v position) }
{}
