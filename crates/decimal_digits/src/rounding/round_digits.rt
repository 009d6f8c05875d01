//! Rounding of the digits that are kept, by those that follow.
ghost use Rattle.std.specs.Prelude.{◌≡◌, ◌+◌, ◌-◌, ◌%◌, ◌^◌, ◌<◌, ◌≤◌, ◌==◌, ◌↔◌, length, slice_index, IsErrOf, IfOk, IfErr, IfSome, IfNone, OnErr};
ghost use Rattle.decimal_digits.specs.Counted.{list_of, accesses_of, Continues, OnlyReads};
ghost use Rattle.decimal_digits.specs.Digits.{IsStripped};
ghost use Rattle.decimal_digits.specs.Rounding.{step_of};
ghost use Rattle.decimal_digits.specs.Remainders.{leading, RemainderByDigit, RoundsTo, RoundLeadingFails};

use super::carry::{add_one, carry_out, strip_trailing_zeros};
use super::last_two::{last_of, last_two_of, write_last_two, write_number};
use super::remainder::{Remainder, round_last_two, rounds_up};
use super::{RoundError, RoundingIncrement, UnsignedRoundingMode};
use crate::digits::{Counted, DigitStore};

// One digit decides, since the list has no trailing zeros.
pub fn remainder_after<D: DigitStore>(counted: &mut Counted<'_, D>, keep: usize) -> Remainder
    ensures remainder { RemainderByDigit result keep (D.digits (list_of counted.old)) }
    ensures exact { (result ≡ Remainder.Zero) ↔ (length (D.digits (list_of counted.old)) ≤ keep) }
    ensures reads { OnlyReads 1 counted.old counted.new }
{
    let len = counted.len();
    if len <= keep {
        return Remainder::Zero;
    }
    match counted.get(keep) {
        0..=4 => Remainder::BelowHalf,
        5 if keep + 1 == len => Remainder::Half,
        _ => Remainder::AboveHalf,
    }
}

#[inline]
fn keep_leading<D: DigitStore>(counted: &mut Counted<'_, D>, keep: usize, last: u8)
    requires fewer { keep < length (D.digits (list_of counted.old)) }
    requires last { 0 < keep → last ≡ slice_index (D.digits (list_of counted.old)) (keep - 1) }
    requires front { 0 < slice_index (D.digits (list_of counted.old)) 0 }
    ensures value { leading keep (D.digits (list_of counted.new)) ≡ leading keep (D.digits (list_of counted.old)) }
    ensures length { length (D.digits (list_of counted.new)) ≤ keep }
    ensures stripped { IsStripped (D.digits (list_of counted.new)) }
    ensures accesses { accesses_of counted.new + length (D.digits (list_of counted.new))
        ≤ accesses_of counted.old + length (D.digits (list_of counted.old)) }
    ensures borrows { Continues counted.old counted.new }
{
    counted.truncate(keep);
    if keep > 0 && last == 0 {
        strip_trailing_zeros(counted);
    }
}

fn round_by_one<D: DigitStore>(
    counted: &mut Counted<'_, D>,
    keep: usize,
    max_places: usize,
    remainder: Remainder,
    mode: UnsignedRoundingMode,
) -> Option<usize>
    requires exact { (remainder ≡ Remainder.Zero) ↔ (length (D.digits (list_of counted.old)) ≤ keep) }
    requires fits { keep ≤ max_places }
    requires bounded { max_places ≤ 65536 }
    requires stripped { IsStripped (D.digits (list_of counted.old)) }
    ensures value { IfSome result (λ places. RoundsTo mode 1 remainder
        (leading keep (D.digits (list_of counted.old))) (leading places (D.digits (list_of counted.new)))) }
    ensures max_places { IfSome result (λ places. places ≤ max_places) }
    ensures length { IfSome result (λ places. length (D.digits (list_of counted.new)) ≤ places) }
    ensures stripped { IfSome result (λ places. IsStripped (D.digits (list_of counted.new))) }
    ensures accesses { IfSome result (λ places. accesses_of counted.new + length (D.digits (list_of counted.new))
        ≤ accesses_of counted.old + length (D.digits (list_of counted.old)) + 6) }
    ensures up { IfNone result (RoundsTo mode 1 remainder (leading keep (D.digits (list_of counted.old)))
        (leading keep (D.digits (list_of counted.old)) + 1)) }
    ensures full { IfNone result (10 ^ max_places ≤ leading keep (D.digits (list_of counted.old)) + 1) }
    ensures reads { IfNone result (OnlyReads (length (D.digits (list_of counted.old)) + 1) counted.old counted.new) }
    ensures borrows { Continues counted.old counted.new }
{
    if matches!(remainder, Remainder::Zero) {
        return Some(keep);
    }
    let last = last_of(counted, keep);
    if !rounds_up(mode, remainder, last % 2 == 1) {
        keep_leading(counted, keep, last);
        return Some(keep);
    }
    if keep == 0 {
        return carry_out(counted, keep, max_places);
    }
    if last == 9 {
        return add_one(counted, keep, max_places);
    }
    counted.truncate(keep);
    counted.set(keep - 1, last + 1);
    Some(keep)
}

pub fn round_leading<D: DigitStore>(
    counted: &mut Counted<'_, D>,
    keep: usize,
    max_places: usize,
    remainder: Remainder,
    mode: UnsignedRoundingMode,
    increment: RoundingIncrement,
) -> Result<usize, RoundError>
    requires exact { (remainder ≡ Remainder.Zero) ↔ (length (D.digits (list_of counted.old)) ≤ keep) }
    requires fits { keep ≤ max_places }
    requires bounded { max_places ≤ 65536 }
    requires stripped { IsStripped (D.digits (list_of counted.old)) }
    ensures value { IfOk result (λ places. RoundsTo mode (step_of increment) remainder
        (leading keep (D.digits (list_of counted.old))) (leading places (D.digits (list_of counted.new)))) }
    ensures max_places { IfOk result (λ places. places ≤ max_places) }
    ensures length { IfOk result (λ places. length (D.digits (list_of counted.new)) ≤ places) }
    ensures stripped { IfOk result (λ places. IsStripped (D.digits (list_of counted.new))) }
    ensures err { OnErr result (D.digits (list_of counted.new) ≡ D.digits (list_of counted.old)) }
    ensures fails_with { IfErr result (λ e. RoundLeadingFails e mode increment D.L max_places keep
        (D.digits (list_of counted.old)) remainder) }
    ensures accesses { (IsErrOf result RoundError.Limit → ⊥)
        → accesses_of counted.new + length (D.digits (list_of counted.new))
        ≤ accesses_of counted.old + length (D.digits (list_of counted.old)) + 6 }
    ensures limit_accesses { IsErrOf result RoundError.Limit
        → accesses_of counted.new ≤ accesses_of counted.old + length (D.digits (list_of counted.old)) + 6 }
    ensures borrows { Continues counted.old counted.new }
{
    if matches!(increment, RoundingIncrement::MultiplesOf1) {
        return round_by_one(counted, keep, max_places, remainder, mode).ok_or(RoundError::Limit);
    }
    let last_two = last_two_of(counted, keep);
    let rounded = round_last_two(last_two, remainder, mode, increment);
    if rounded == last_two {
        if !matches!(remainder, Remainder::Zero) {
            keep_leading(counted, keep, last_two % 10);
        }
        return Ok(keep);
    }
    if keep <= 2 {
        let Some(places) = write_number(counted, rounded, max_places) else {
            return Err(RoundError::Limit);
        };
        return Ok(places);
    }
    if rounded == 100 {
        let Some(places) = add_one(counted, keep - 2, max_places - 2) else {
            return Err(RoundError::Limit);
        };
        return Ok(places + 2);
    }
    if rounded == 0 {
        counted.truncate(keep - 2);
        strip_trailing_zeros(counted);
        return Ok(keep);
    }
    match write_last_two(counted, keep, rounded) {
        Ok(()) => Ok(keep),
        Err(_) => Err(RoundError::Memory),
    }
}
