//! Which digits are stored, and their magnitudes.
ghost use Rattle.std.specs.Prelude.{◌≡◌, ◌≤◌, ◌++◌, length, Err, Some, IfSome, IfNone, pos, negsuc, ◌≤ℤ◌, int_lt, if◌then◌else◌};
ghost use Rattle.std.specs.Int.{int_max, int_min};
ghost use Rattle.std.specs.Str.Parse.{AllDigits};
ghost use Rattle.decimal_unsigned.specs.ScannedDigits.{digits_of, IsNonzeroRange, IsPlan};
ghost use Rattle.decimal_unsigned.specs.Reading.{value_of, limit};
ghost use Rattle.decimal_unsigned.specs.Parts.{view, IsSaturated};

use super::parts::Parts;
use decimal_digits::ops::{
    at_least_zero, at_most_zero, shift_magnitude, subtract_counts, to_magnitude,
};

/// The magnitude of the first digit, and the highest and the lowest magnitude that are shown.
#[derive(Clone, Copy, Debug)]
pub struct Bounds {
    pub magnitude: i16,
    pub hi: i16,
    pub lo: i16,
}

fn highest_shown(first: i32, hi: i32) -> i16
    requires first_in { first ≤ℤ pos 32767 }
    requires hi_in { hi ≤ℤ pos 32767 }
    ensures { result ≡ (if int_lt (pos 0) first then first else int_max hi (pos 0)) }
{
    if first > 0 {
        to_magnitude(first)
    } else {
        at_least_zero(hi)
    }
}

fn lowest_shown(last: i32, lo: i32) -> i16
    requires last_in { negsuc 32767 ≤ℤ last }
    requires lo_in { negsuc 32767 ≤ℤ lo }
    ensures { result ≡ (if int_lt last (pos 0) then last else int_min lo (pos 0)) }
{
    if last < 0 {
        to_magnitude(last)
    } else {
        at_most_zero(lo)
    }
}

#[inline]
pub fn to_bounds(magnitude: i32, hi: i32, lo: i32) -> Bounds
    requires magnitude_in { (negsuc 32767 ≤ℤ magnitude) × (magnitude ≤ℤ pos 32767) }
    requires hi_in { (negsuc 32767 ≤ℤ hi) × (hi ≤ℤ pos 32767) }
    requires lo_in { (negsuc 32767 ≤ℤ lo) × (lo ≤ℤ pos 32767) }
    ensures magnitude { result.magnitude ≡ magnitude }
    ensures hi { result.hi ≡ hi }
    ensures lo { result.lo ≡ lo }
{
    Bounds {
        magnitude: to_magnitude(magnitude),
        hi: to_magnitude(hi),
        lo: to_magnitude(lo),
    }
}

/// The index of the first stored digit and the one after the last, and their magnitudes.
#[derive(Clone, Copy, Debug)]
pub struct Plan {
    pub start: usize,
    pub end: usize,
    pub bounds: Bounds,
}

fn plan_with_exponent(parts: &Parts<'_>, start: usize, end: usize, exponent: i32) -> Option<Plan>
    requires digits { AllDigits 10 (parts.now.whole.now ++ parts.now.fraction.now) }
    requires whole { length parts.now.whole.now ≤ 32768 }
    requires fraction { length parts.now.fraction.now ≤ 32768 }
    requires kept { IsNonzeroRange (digits_of (view parts.now)) start end }
    requires exponent { parts.now.exponent ≡ Some exponent }
    requires saturated { IsSaturated exponent }
    ensures none { IfNone result (value_of (view parts.now) ≡ Err limit) }
    ensures some { IfSome result (IsPlan (view parts.now)) }
{
    let whole = parts.whole.len();
    let hi = shift_magnitude(subtract_counts(whole.max(1), 1), exponent);
    let lo = shift_magnitude(subtract_counts(0, parts.fraction.len()), exponent);
    let first = shift_magnitude(subtract_counts(whole, start + 1), exponent);
    let last = shift_magnitude(subtract_counts(whole, end), exponent);
    if hi > 32767 || lo < -32768 {
        return None;
    }
    let bounds = Bounds {
        magnitude: to_magnitude(first),
        hi: highest_shown(first, hi),
        lo: lowest_shown(last, lo),
    };
    Some(Plan { start, end, bounds })
}

#[tactic(auto, using(std::proofs::lemmas::Int::ints, std::proofs::lemmas::Int::clamps))]
pub fn planned(parts: &Parts<'_>) -> Option<Plan>
    requires digits { AllDigits 10 (parts.now.whole.now ++ parts.now.fraction.now) }
    requires exponent { IfSome parts.now.exponent IsSaturated }
    ensures none { IfNone result (value_of (view parts.now) ≡ Err limit) }
    ensures some { IfSome result (IsPlan (view parts.now)) }
{
    let whole = parts.whole.len();
    if whole > 32768 {
        return None;
    }
    let fraction = parts.fraction.len();
    if fraction > 32768 {
        return None;
    }
    let hi = subtract_counts(whole.max(1), 1);
    let lo = subtract_counts(0, fraction);
    let Some((start, end)) = parts.nonzero_range() else {
        return Some(Plan {
            start: 0,
            end: 0,
            bounds: to_bounds(0, hi, lo),
        });
    };
    match parts.exponent {
        None => Some(Plan {
            start,
            end,
            bounds: to_bounds(subtract_counts(whole, start + 1), hi, lo),
        }),
        Some(exponent) => plan_with_exponent(parts, start, end, exponent),
    }
}
