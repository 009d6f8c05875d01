//! The order of the modes, and the defaults of signs and of increments.
ghost use Rattle.std.specs.Prelude.{◌≡◌, true};

use fixed_decimal::SignedRoundingMode::{Ceil, Floor, HalfCeil, HalfFloor, Unsigned};
use fixed_decimal::UnsignedRoundingMode::{self, Expand, HalfEven, HalfExpand, HalfTrunc, Trunc};
use fixed_decimal::{RoundingIncrement, Sign, SignDisplay};
use std::cmp::Ordering;

/// The modes are ordered as they are written.
fn modes_in_order(mode: UnsignedRoundingMode) -> bool
    ensures { result ≡ true }
{
    Unsigned(mode) < Ceil && Ceil < Floor && Floor < HalfCeil && HalfCeil < HalfFloor
}

fn unsigned_modes_in_order() -> bool
    ensures { result ≡ true }
{
    Expand < Trunc
        && Trunc < HalfExpand
        && HalfExpand < HalfTrunc
        && HalfTrunc < HalfEven
        && HalfEven.cmp(&Expand) == Ordering::Greater
}

fn have_defaults() -> bool
    ensures { result ≡ true }
{
    Sign::default() == Sign::None
        && SignDisplay::default() == SignDisplay::Auto
        && RoundingIncrement::default() == RoundingIncrement::MultiplesOf1
}

pub fn are_ordered() -> bool {
    modes_in_order(Trunc) && unsigned_modes_in_order() && have_defaults()
}
