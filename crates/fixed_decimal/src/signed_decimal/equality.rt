//! Clones and equality of decimals.
ghost use Rattle.std.specs.Prelude.{◌≡◌, ◌≤◌, ◌↔◌, IsTrue};
ghost use Rattle.decimal_digits.specs.Number.{size};
ghost use Rattle.decimal_unsigned.specs.Unsigned.{IsValue};
ghost use Rattle.fixed_decimal.specs.DecimalText.{decimal_text};

use crate::variations::Signed;
use decimal_digits::digits::DigitStore;
use decimal_unsigned::decimal::UnsignedOver;
use std::alloc::AllocError;

impl<D: DigitStore> Clone for Signed<UnsignedOver<D>> {
    ghost is_clone = { λ value copy. copy ≡ value };

    ghost is_infallible = { λ value. size value.absolute.number ≤ D.L };

    /// Makes an equal decimal: the clone of `-01.50` prints `-01.50`.
    ///
    /// # Errors
    ///
    /// Out of memory, only for more than `L` digits.
    fn clone(&self) -> Result<Self, AllocError> {
        let absolute = self.absolute.clone()?;
        Ok(Self::new(self.sign, absolute))
    }
}

impl<D: DigitStore> Signed<UnsignedOver<D>> {
    /// Returns `self == other`, which is whether the texts are equal.
    ///
    /// `-0` and `0` have different texts, and so have `1.0` and `1`.
    pub fn has_same_text(&self, other: &Self) -> bool
        ensures value { IsTrue result ↔ (self.now ≡ other.now) }
        ensures texts { IsTrue result ↔ (decimal_text self.now ≡ decimal_text other.now) }
        ensures valid { IsValue self.now.absolute × IsValue other.now.absolute }
    {
        prove!(self.absolute.lowest() <= 0);
        prove!(other.absolute.lowest() <= 0);
        self == other
    }
}
