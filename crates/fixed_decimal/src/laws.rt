//! Laws of decimals and of runs: the contract of each function states a law.
//!
//! Those of absolute values are here too: of reading, trims and concatenation, and in [`unsigned`] of rounding.
ghost use Rattle.std.specs.{Prelude.{◌≡◌, ℤ}, Io.KnownBytes.Appends, Ordering.nat_cmp};
ghost use Rattle.decimal_digits.specs.declared.rounding.UnsignedRoundingMode.TheVariants.{Expand, Trunc};
ghost use Rattle.decimal_unsigned.specs.{Unsigned.IsValue, Rounded.Rounding};
ghost use Rattle.fixed_decimal.specs.{Decimal.Decimal, Orders.signed_rank, Outcome.outcome, RunLaws.{IsDecided, text_or_none, RoundsOnce, NeverExceedsLimit}, SignedRounding.{RoundingCommutesWithNegation, RoundingIsMonotone, IsPosition, TruncationsCompose, ExpansionsCompose}, declared.rounding.SignedRoundingMode.SignedRoundingMode};

use crate::rounding::SignedRoundingMode as Mode;
use crate::runs::{Call, RunError, run_over};
use decimal_digits::digits::DigitStore;
use decimal_digits::sink::Sink;
pub use decimal_unsigned::laws as unsigned;
pub use decimal_unsigned::laws::{
    concatenation_is_associative, reading_follows_grammar, trimmed_is_normal_form,
};
use std::alloc::Global;
use std::cmp::Ordering;

/// Rounding commutes with negation: with the opposite sign and up and down exchanged, the rounded absolute value is the
/// same, range included.
#[tactic(auto, using(crate::proofs::lemmas::signed_decimal::SignedRoundings::rounding_commutes_with_negation))]
pub fn rounding_commutes_with_negation()
    ensures { (v : Decimal) (rounding : Rounding SignedRoundingMode) → RoundingCommutesWithNegation v rounding }
{}

/// Rounding is monotone: if one number is at most another, so it is after both are rounded.
///
/// A number whose rounding fails with `Limit` is unchanged.
#[tactic(auto, using(crate::proofs::lemmas::signed_decimal::SignedRoundings::rounding_is_monotone))]
pub fn rounding_is_monotone()
    ensures { (v w : Decimal) (rounding : Rounding SignedRoundingMode) → RoundingIsMonotone v w rounding }
{}

/// Two truncations give the number of one truncation at the greater position.
#[tactic(auto, using(crate::proofs::lemmas::runs::RunLaws::truncations_compose))]
pub fn truncations_compose()
    ensures { (v : Decimal) (p q : ℤ) → IsValue v.absolute → IsPosition p → IsPosition q → TruncationsCompose v p q }
{}

/// Two expansions give the number of one expansion at the greater position; one of them fails if and only if that one
/// does.
#[tactic(auto, using(crate::proofs::lemmas::runs::RunLaws::expansions_compose))]
pub fn expansions_compose()
    ensures { (v : Decimal) (p q : ℤ) → IsPosition p → IsPosition q → ExpansionsCompose v p q }
{}

/// Successive roundings, all toward zero or all away from zero, give the number of one rounding at their greatest
/// position; one of them fails if and only if that one does.
#[tactic(auto, using(crate::proofs::lemmas::runs::RunLaws::roundings_compose))]
pub fn roundings_compose()
    ensures toward_zero { RoundsOnce Trunc }
    // A rounding toward zero never fails.
    ensures within_limit { NeverExceedsLimit Trunc }
    ensures away_from_zero { RoundsOnce Expand }
{}

/// Runs of the same calls from the same start return the same over any two stores, and append the same text to any two
/// sinks. This holds unless one of the runs is out of memory, or its sink fails.
pub fn runs_agree<D: DigitStore, E: DigitStore, V: Sink, W: Sink>(
    alloc: Global,
    start: &[u8],
    calls: &[Call<'_>],
    left: &mut V,
    right: &mut W,
) -> (Result<(), RunError>, Result<(), RunError>)
    ensures agree { IsDecided result.0 → IsDecided result.1 → result.0 ≡ result.1 }
    ensures appended_left { IsDecided result.0
        → Appends (V.contents left.old) (V.contents left.new) (text_or_none (outcome start.now calls.now)) }
    ensures appended_right { IsDecided result.1
        → Appends (W.contents right.old) (W.contents right.new) (text_or_none (outcome start.now calls.now)) }
{
    let left = run_over::<D, V>(alloc, start, calls, left);
    let right = run_over::<E, W>(alloc, start, calls, right);
    (left, right)
}

/// Modes are ordered as they are declared, those of absolute values first.
pub fn signed_order(left: Mode, right: Mode) -> Ordering
    ensures { result ≡ nat_cmp (signed_rank left) (signed_rank right) }
{
    left.cmp(&right)
}
