//! The last two of the digits that are kept, as a number below 100.
ghost use Rattle.std.specs.Prelude.{◌≡◌, ◌+◌, ◌-◌, ◌*◌, ◌%◌, ◌^◌, ◌<◌, ◌≤◌, [], ◌∷◌, ◌++◌, length, take, slice_index, IfSome, IfNone, OnOk, OnErr};
ghost use Rattle.decimal_digits.specs.Counted.{list_of, accesses_of, Continues, OnlyReads};
ghost use Rattle.decimal_digits.specs.Digits.{IsStripped};
ghost use Rattle.decimal_digits.specs.Remainders.{leading};

use super::carry::replace_by_digit;
use crate::digits::{Counted, DigitStore};
use std::alloc::AllocError;

pub fn last_of<D: DigitStore>(counted: &mut Counted<'_, D>, keep: usize) -> u8
    ensures value { leading keep (D.digits (list_of counted.old))
        ≡ 10 * leading (keep - 1) (D.digits (list_of counted.old)) + result }
    ensures last { 0 < keep → result ≡ slice_index (D.digits (list_of counted.old)) (keep - 1) }
    ensures is_digit { result < 10 }
    ensures reads { OnlyReads 1 counted.old counted.new }
{
    if 0 < keep && keep <= counted.len() {
        counted.get(keep - 1)
    } else {
        0
    }
}

pub fn last_two_of<D: DigitStore>(counted: &mut Counted<'_, D>, keep: usize) -> u8
    ensures last_two { result < 100 }
    ensures value { leading keep (D.digits (list_of counted.old))
        ≡ 100 * leading (keep - 2) (D.digits (list_of counted.old)) + result }
    ensures last { 0 < keep → result % 10 ≡ slice_index (D.digits (list_of counted.old)) (keep - 1) }
    ensures past { length (D.digits (list_of counted.old)) < keep → result % 10 ≡ 0 }
    ensures none { length (D.digits (list_of counted.old)) + 2 ≤ keep → result ≡ 0 }
    ensures reads { OnlyReads 2 counted.old counted.new }
{
    let ones = last_of(counted, keep);
    10 * last_of(counted, keep.saturating_sub(1)) + ones
}

fn truncate_and_push<D: DigitStore>(
    counted: &mut Counted<'_, D>,
    index: usize,
    digit: u8,
) -> Result<(), AllocError>
    requires in_range { index ≤ length (D.digits (list_of counted.old)) }
    requires is_digit { digit < 10 }
    ensures ok { OnOk result (D.digits (list_of counted.new)
        ≡ take index (D.digits (list_of counted.old)) ++ digit ∷ []) }
    ensures err { OnErr result (D.digits (list_of counted.new) ≡ D.digits (list_of counted.old)) }
    ensures at_end { OnErr result (index ≡ length (D.digits (list_of counted.old))) }
    ensures full { OnErr result (D.L ≤ length (D.digits (list_of counted.old))) }
    ensures accesses { accesses_of counted.new ≤ accesses_of counted.old + 1 }
    ensures borrows { Continues counted.old counted.new }
{
    if index < counted.len() {
        counted.truncate(index + 1);
        counted.set(index, digit);
    } else {
        counted.reserve(1)?;
        counted.push_in_room(digit);
    }
    Ok(())
}

pub fn write_last_two<D: DigitStore>(
    counted: &mut Counted<'_, D>,
    keep: usize,
    number: u8,
) -> Result<(), AllocError>
    requires in_front { 3 ≤ keep }
    requires in_range { keep ≤ length (D.digits (list_of counted.old)) + 1 }
    requires above { 0 < number }
    requires below { number < 100 }
    requires first { 0 < slice_index (D.digits (list_of counted.old)) 0 }
    ensures value { OnOk result (leading keep (D.digits (list_of counted.new))
        ≡ 100 * leading (keep - 2) (D.digits (list_of counted.old)) + number) }
    ensures length { OnOk result (length (D.digits (list_of counted.new)) ≤ keep) }
    ensures some { OnOk result (0 < length (D.digits (list_of counted.new))) }
    ensures stripped { OnOk result (IsStripped (D.digits (list_of counted.new))) }
    ensures err { OnErr result (D.digits (list_of counted.new) ≡ D.digits (list_of counted.old)) }
    ensures at_end { OnErr result (keep ≡ length (D.digits (list_of counted.old)) + 1) }
    ensures ones { OnErr result (0 < number % 10) }
    ensures full { OnErr result (D.L ≤ length (D.digits (list_of counted.old))) }
    ensures accesses { accesses_of counted.new ≤ accesses_of counted.old + 2 }
    ensures borrows { Continues counted.old counted.new }
{
    if number % 10 == 0 {
        counted.truncate(keep - 1);
        counted.set(keep - 2, number / 10);
        return Ok(());
    }
    truncate_and_push(counted, keep - 1, number % 10)?;
    counted.set(keep - 2, number / 10);
    Ok(())
}

#[tactic(auto, unfolding(crate::specs::Digits::number_at))]
pub fn write_number<D: DigitStore>(
    counted: &mut Counted<'_, D>,
    number: u8,
    max_places: usize,
) -> Option<usize>
    requires { number ≤ 100 }
    ensures value { IfSome result (λ places. leading places (D.digits (list_of counted.new)) ≡ number) }
    ensures max_places { IfSome result (λ places. places ≤ max_places) }
    ensures length { IfSome result (λ places. length (D.digits (list_of counted.new)) ≤ places) }
    ensures stripped { IfSome result (λ places. IsStripped (D.digits (list_of counted.new))) }
    ensures accesses { IfSome result (λ places. accesses_of counted.new + length (D.digits (list_of counted.new))
        ≤ accesses_of counted.old + 4) }
    ensures full { IfNone result (10 ^ max_places ≤ number) }
    ensures reads { IfNone result (OnlyReads 0 counted.old counted.new) }
    ensures borrows { Continues counted.old counted.new }
{
    let places = digit_count(number);
    if places > max_places {
        return None;
    }
    match number {
        0 => counted.clear(),
        1..=9 => replace_by_digit(counted, number),
        10..=99 => {
            replace_by_digit(counted, number / 10);
            if number % 10 != 0 {
                counted.push_in_room(number % 10);
            }
        }
        _ => replace_by_digit(counted, 1),
    }
    Some(places)
}

fn digit_count(number: u8) -> usize
    requires { number ≤ 100 }
    ensures least { 0 < result → 10 ^ (result - 1) ≤ number }
    ensures none { number ≡ 0 → result ≡ 0 }
    ensures one { 0 < number → number < 10 → result ≡ 1 }
    ensures two_digits { 10 ≤ number → number < 100 → result ≡ 2 }
    ensures three { number ≡ 100 → result ≡ 3 }
{
    match number {
        0 => 0,
        1..=9 => 1,
        10..=99 => 2,
        _ => 3,
    }
}
