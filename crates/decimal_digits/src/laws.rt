//! Laws of what the contracts cite, and of what is derived: the contract of each function is the law.
ghost use Rattle.std.specs.Prelude.{◌≡◌, ℕ, ◌<◌};
ghost use Rattle.std.specs.Ordering.{nat_cmp};
ghost use Rattle.decimal_digits.specs.Orders.{unsigned_rank};
ghost use Rattle.decimal_digits.specs.Rounding.{Named, rounded_number};
ghost use Rattle.decimal_digits.specs.declared.rounding.UnsignedRoundingMode.{UnsignedRoundingMode};

use crate::rounding::UnsignedRoundingMode as Mode;
use std::cmp::Ordering;

/// The number that is computed by a remainder is the multiple that the mode chooses among all multiples of the unit.
#[tactic(auto, using(crate::proofs::lemmas::rounding::Naming::rounded_number_is_named))]
pub fn rounded_number_is_named()
    ensures { (mode : UnsignedRoundingMode) (unit number : ℕ) → 0 < unit
        → Named mode unit number (rounded_number mode unit number) }
{}

/// The unsigned modes are ordered as they are declared.
pub fn unsigned_order(left: Mode, right: Mode) -> Ordering
    ensures { result ≡ nat_cmp (unsigned_rank left) (unsigned_rank right) }
{
    left.cmp(&right)
}
