//! Remainders, and how the modes round by them.
ghost use Rattle.std.specs.Prelude.{◌≡◌, ℕ, ◌+◌, ◌*◌, ◌/◌, ◌%◌, ◌<◌, ◌≤◌, ◌==◌};
ghost use Rattle.decimal_digits.specs.Rounding.{step_of};
ghost use Rattle.decimal_digits.specs.Remainders.{RemainderIs, RoundsTo, rounds_up_of};

use super::{RoundingIncrement, UnsignedRoundingMode};

/// A remainder, compared with half of the unit.
///
/// The discriminants are quarters of the unit; 1 and 3 stand for all between 0, half and the whole unit.
#[derive(Clone, Copy)]
pub enum Remainder {
    Zero = 0,
    BelowHalf = 1,
    Half = 2,
    AboveHalf = 3,
}

// Each increment has its own division: one by a constant is far faster than one by a variable.
#[inline]
fn split_by(increment: RoundingIncrement, number: u8) -> (u8, u8, bool)
    ensures step { result.0 ≡ step_of increment }
    ensures rest { result.1 ≡ number % step_of increment }
    ensures odd { result.2 ≡ (number / step_of increment % 2 == 1) }
{
    match increment {
        RoundingIncrement::MultiplesOf1 => (1, 0, number % 2 == 1),
        RoundingIncrement::MultiplesOf2 => (2, number % 2, number / 2 % 2 == 1),
        RoundingIncrement::MultiplesOf5 => (5, number % 5, number / 5 % 2 == 1),
        RoundingIncrement::MultiplesOf25 => (25, number % 25, number / 25 % 2 == 1),
    }
}

fn combine_remainders(step: u8, rest: u8, remainder: Remainder) -> Remainder
    requires small { step ≤ 25 }
    requires rest { rest < step }
    ensures { (r unit : ℕ) → 0 < unit → RemainderIs remainder r unit
        → RemainderIs result (rest * unit + r) (step * unit) }
{
    let quarters = 4 * rest + remainder as u8;
    if quarters == 0 {
        Remainder::Zero
    } else if quarters < 2 * step {
        Remainder::BelowHalf
    } else if quarters == 2 * step {
        Remainder::Half
    } else {
        Remainder::AboveHalf
    }
}

pub fn rounds_up(mode: UnsignedRoundingMode, left: Remainder, odd: bool) -> bool
    ensures { result ≡ rounds_up_of mode left odd }
{
    match left {
        Remainder::Zero => false,
        Remainder::BelowHalf => matches!(mode, UnsignedRoundingMode::Expand),
        Remainder::Half => match mode {
            UnsignedRoundingMode::Expand | UnsignedRoundingMode::HalfExpand => true,
            UnsignedRoundingMode::Trunc | UnsignedRoundingMode::HalfTrunc => false,
            UnsignedRoundingMode::HalfEven => odd,
        },
        Remainder::AboveHalf => !matches!(mode, UnsignedRoundingMode::Trunc),
    }
}

// The digits above do not matter, since 100 is an even multiple of each increment.
pub fn round_last_two(
    last_two: u8,
    remainder: Remainder,
    mode: UnsignedRoundingMode,
    increment: RoundingIncrement,
) -> u8
    requires { last_two < 100 }
    ensures at_most { result ≤ 100 }
    ensures rounds { (hundreds n m : ℕ) → n ≡ 100 * hundreds + last_two → m ≡ 100 * hundreds + result
        → RoundsTo mode (step_of increment) remainder n m }
    ensures unchanged { remainder ≡ Remainder.Zero → last_two % step_of increment ≡ 0 → result ≡ last_two }
{
    let (step, rest, odd) = split_by(increment, last_two);
    if rounds_up(mode, combine_remainders(step, rest, remainder), odd) {
        last_two - rest + step
    } else {
        last_two - rest
    }
}
