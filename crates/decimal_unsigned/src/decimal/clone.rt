//! Copies of a value.
ghost use Rattle.std.specs.Prelude.{◌≡◌, ◌≤◌};
ghost use Rattle.decimal_digits.specs.Number.{size};

use super::UnsignedOver;
use decimal_digits::digits::DigitStore;
use std::alloc::AllocError;

impl<D: DigitStore> Clone for UnsignedOver<D> {
    ghost is_clone = { λ value cloned. cloned ≡ value };

    ghost is_infallible = { λ value. size value.number ≤ D.L };

    /// Makes a second, equal value: that of `01.50` prints `01.50`.
    ///
    /// # Errors
    ///
    /// Out of memory; possible only with more than `L` digits.
    fn clone(&self) -> Result<Self, AllocError> {
        let digits = self.digits.clone()?;
        Ok(UnsignedOver {
            digits,
            magnitude: self.magnitude,
            hi: self.hi,
            lo: self.lo,
        })
    }
}
