//! The rounding of a list at a position.
ghost use Rattle.std.specs.Prelude.{◌≡◌, ◌≢◌, ◌+◌, ◌*◌, ◌<◌, ◌≤◌, ◌↔◌, length, pos, ◌+ℤ◌, ◌≤ℤ◌, IsErrOf, IfOk, IfErr, OnErr};
ghost use Rattle.decimal_digits.specs.Counted.{list_of, accesses_of, Continues, OnlyReads};
ghost use Rattle.decimal_digits.specs.Number.{offset, weight};
ghost use Rattle.decimal_digits.specs.Digits.{number_of, IsStripped};
ghost use Rattle.decimal_digits.specs.Rounding.{unit_at, rounded_number, DigitRoundingFails};
ghost use Rattle.decimal_digits.specs.RoundedDigits.{Represents, NoDigitsBelow};
ghost use Rattle.decimal_digits.specs.Remainders.{leading, SplitsAs};

use super::remainder::Remainder;
use super::round_digits::{remainder_after, round_leading};
use super::{RoundError, RoundingIncrement, UnsignedRoundingMode};
use crate::digits::{Counted, DigitStore};
use crate::ops::{highest_of, max_places_above, places_above};

fn split_at_position<D: DigitStore>(
    counted: &mut Counted<'_, D>,
    magnitude: i16,
    position: i16,
) -> (usize, Remainder)
    requires some { 0 < length (D.digits (list_of counted.old)) }
    requires stripped { IsStripped (D.digits (list_of counted.old)) }
    requires fits { length (D.digits (list_of counted.old)) ≤ offset magnitude + 1 }
    ensures splits_as { let digits = D.digits (list_of counted.old) in
        SplitsAs (number_of digits magnitude) (weight position) (leading result.0 digits) result.1 }
    ensures exact { (result.1 ≡ Remainder.Zero) ↔ (length (D.digits (list_of counted.old)) ≤ result.0) }
    ensures at_most { result.0 ≤ 65536 }
    ensures below_limit { 0 < result.0 → offset position + result.0 ≤ 65536 }
    ensures reads { OnlyReads 1 counted.old counted.new }
{
    match places_above(position, magnitude) {
        Some(keep) => (keep, remainder_after(counted, keep)),
        None => (0, Remainder::BelowHalf),
    }
}

fn magnitude_after<D: DigitStore>(counted: &Counted<'_, D>, position: i16, places: usize) -> i16
    requires stripped { IsStripped (D.digits (list_of counted.now)) }
    requires fits { length (D.digits (list_of counted.now)) ≤ places }
    requires in_limits { (position +ℤ pos places) ≤ℤ pos 32768 }
    ensures represents { Represents (D.digits (list_of counted.now)) result
        (leading places (D.digits (list_of counted.now)) * weight position) }
    ensures above { NoDigitsBelow position (D.digits (list_of counted.now)) result }
{
    if counted.len() == 0 {
        0
    } else {
        highest_of(position, places)
    }
}

/// Rounds the number of a list of digits at a position, and returns the magnitude of its first digit afterwards.
///
/// `magnitude` is that of the first digit. The list has no leading and no trailing zeros, before and after. The result
/// is 0 if no digit is left. The law [`rounded_number_is_named`](crate::laws::rounded_number_is_named) says which
/// multiple the number is. In the example 1.25 becomes 1.2.
///
/// There are at most 7 digit accesses, and one for each digit that is removed; with `Limit` there are at most 7, and
/// one for each digit.
///
/// ```
/// let mut counted = Counted::new(&mut digits, &mut steps); // 1, 2, 5
/// let (mode, increment) = (UnsignedRoundingMode::HalfEven, RoundingIncrement::MultiplesOf1);
/// round(&mut counted, 0, -1, mode, increment)? // 0, and the digits are 1, 2
/// ```
///
/// # Errors
///
/// After either error the list is unchanged.
///
/// - `Limit`: the rounded number is 10^32768 or more.
/// - `Memory`: out of memory for one more digit; possible only by `MultiplesOf25`, with a rounded number below that
///   limit, and a list of at least `L` digits.
pub fn round<D: DigitStore>(
    counted: &mut Counted<'_, D>,
    magnitude: i16,
    position: i16,
    mode: UnsignedRoundingMode,
    increment: RoundingIncrement,
) -> Result<i16, RoundError>
    requires stripped { IsStripped (D.digits (list_of counted.old)) }
    requires fits { length (D.digits (list_of counted.old)) ≤ offset magnitude + 1 }
    ensures ok { let number = number_of (D.digits (list_of counted.old)) magnitude in
        IfOk result (λ first. Represents (D.digits (list_of counted.new)) first
        (rounded_number mode (unit_at increment position) number)) }
    ensures above { IfOk result (NoDigitsBelow position (D.digits (list_of counted.new))) }

    ensures err { OnErr result (D.digits (list_of counted.new) ≡ D.digits (list_of counted.old)) }
    ensures fails_with { let number = number_of (D.digits (list_of counted.old)) magnitude in
        IfErr result (λ e. DigitRoundingFails e increment (length (D.digits (list_of counted.old)))
        (rounded_number mode (unit_at increment position) number) D.L) }
    ensures succeeds { increment ≢ RoundingIncrement.MultiplesOf25 → IsErrOf result RoundError.Memory → ⊥ }

    ensures accesses { (IsErrOf result RoundError.Limit → ⊥)
        → accesses_of counted.new + length (D.digits (list_of counted.new))
        ≤ accesses_of counted.old + length (D.digits (list_of counted.old)) + 7 }
    ensures limit_accesses { IsErrOf result RoundError.Limit
        → accesses_of counted.new ≤ accesses_of counted.old + length (D.digits (list_of counted.old)) + 7 }
    ensures borrows { Continues counted.old counted.new }
{
    if counted.len() == 0 {
        return Ok(0);
    }
    let (keep, remainder) = split_at_position(counted, magnitude, position);
    let max_places = max_places_above(position);
    let places = round_leading(counted, keep, max_places, remainder, mode, increment)?;
    Ok(magnitude_after(counted, position, places))
}
