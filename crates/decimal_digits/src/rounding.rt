//! Rounding of digits: the modes, the increments, and the rounding of a list.
mod at_position;
mod carry;
mod last_two;
mod remainder;
mod round_digits;

pub use at_position::round;

/// The rule by which a number between two multiples of a unit is rounded to one of them.
///
/// 2.5 becomes 3, 2, 3, 2 and 2, in the order of the modes.
///
/// ECMA-402, abstract operation GetUnsignedRoundingMode: `infinity`, `zero`, `half-infinity`, `half-zero`, `half-even`.
///
/// ```
/// value.round_with_mode(0, UnsignedRoundingMode::HalfExpand)?; // 2.5 becomes 3
/// value.round_with_mode(0, UnsignedRoundingMode::HalfEven)?; // 2.5 becomes 2
/// ```
#[derive(Clone, Copy, Debug, PartialEq, Eq, PartialOrd, Ord)]
pub enum UnsignedRoundingMode {
    /// Rounds to the multiple above.
    Expand,
    /// Rounds to the multiple below.
    Trunc,
    /// Rounds to the nearest multiple, ties to the greater one.
    HalfExpand,
    /// Rounds to the nearest multiple, ties to the smaller one.
    HalfTrunc,
    /// Rounds to the nearest multiple, ties to the one with an even quotient by the unit.
    HalfEven,
}

/// The increment of a rounding, in units of the position: each result is a multiple of it.
///
/// 9.75 is rounded at position -1, half-expand, to 9.8 by 1 and by 2, to 10.0 by 5 and to 10.0 by 25.
///
/// ```
/// let (mode, increment) = (UnsignedRoundingMode::HalfExpand, RoundingIncrement::MultiplesOf5);
/// value.round_with_mode_and_increment(-1, mode, increment)?; // 9.75 becomes 10.0
/// ```
#[derive(Clone, Copy, Debug, Default, PartialEq, Eq)]
pub enum RoundingIncrement {
    /// The digit at the position is 0 to 9.
    #[default]
    MultiplesOf1,
    /// The digit at the position is even.
    MultiplesOf2,
    /// The digit at the position is 0 or 5.
    MultiplesOf5,
    /// The digit at the position and the one above it are 00, 25, 50 or 75.
    MultiplesOf25,
}

/// The error of a rounding, which leaves the value unchanged.
///
/// ```
/// // 7 · 10^32767 would become 10^32768.
/// let (mode, increment) = (UnsignedRoundingMode::Expand, RoundingIncrement::MultiplesOf5);
/// value.round_with_mode_and_increment(32767, mode, increment) // Err(Limit)
/// ```
#[derive(Clone, Copy, Debug, PartialEq)]
pub enum RoundError {
    /// The rounded number is 10^32768 or more.
    Limit,
    /// Out of memory for one more digit.
    Memory,
}
