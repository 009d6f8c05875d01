//! Rounding modes of signed numbers.

use decimal_digits::rounding::UnsignedRoundingMode;

/// How a signed number is rounded.
///
/// `Ceil` rounds -3.9 to -3, and `Floor` rounds -3.1 to -4; `HalfCeil` rounds -2.5 to -2, and `HalfFloor` to -3.
///
/// Together with the modes of `Unsigned` these are the nine values of the option `roundingMode` of ECMA-402.
///
/// ```
/// let mut value = Decimal::try_from_str(alloc, "-2.5")?;
/// value.round_with_mode(0, SignedRoundingMode::HalfCeil)?; // -2
/// ```
#[derive(Clone, Copy, Debug, PartialEq, Eq, PartialOrd, Ord)]
pub enum SignedRoundingMode {
    /// Rounds the absolute value.
    Unsigned(UnsignedRoundingMode),
    /// Rounds up, toward plus infinity.
    Ceil,
    /// Rounds down, toward minus infinity.
    Floor,
    /// Rounds to the nearest multiple, ties toward plus infinity.
    HalfCeil,
    /// Rounds to the nearest multiple, ties toward minus infinity.
    HalfFloor,
}
