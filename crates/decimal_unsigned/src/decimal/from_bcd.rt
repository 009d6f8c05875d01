//! Values of packed BCD digits.
ghost use Rattle.std.specs.Prelude.{◌≡◌, ℕ, ◌+◌, ◌≤◌, List, IsOk, IfOk};
ghost use Rattle.decimal_digits.specs.Number.{size};
ghost use Rattle.decimal_unsigned.specs.DigitValues.{IsBcd, value_of_first};

use super::UnsignedOver;
use decimal_digits::digits::DigitStore;
use decimal_digits::ops::{subtract_counts, to_magnitude};
use std::alloc::{AllocError, Global};

impl<D: DigitStore> UnsignedOver<D> {
    /// Makes the value of up to sixteen digits, first `whole` integer digits, and then `fraction` fraction digits.
    ///
    /// `number` is the digits as packed BCD: of 0x125 and one integer digit it makes `1.25`.
    ///
    /// # Errors
    ///
    /// Out of memory; possible only with more than `L` digits.
    // Inlined always: returned from a call, the fields would be stored one by one and copied together, and the
    // processor waits for that.
    #[doc(hidden)]
    #[inline(always)]
    pub fn from_bcd_digits(
        alloc: Global,
        whole: usize,
        fraction: usize,
        number: u64,
    ) -> Result<Self, AllocError>
        requires digits { (ds : List ℕ) × IsBcd number (whole + fraction) ds }
        requires at_most { whole + fraction ≤ 16 }
        ensures value { IfOk result
            (λ v. (ds : List ℕ) → IsBcd number (whole + fraction) ds → v ≡ value_of_first whole ds) }
        ensures succeeds { (ds : List ℕ) → IsBcd number (whole + fraction) ds
            → size (value_of_first whole ds).number ≤ D.L → IsOk result }
    {
        let hi = to_magnitude(subtract_counts(whole.max(1), 1));
        let lo = to_magnitude(subtract_counts(0, fraction));
        if number == 0 {
            return Ok(UnsignedOver {
                digits: D::empty(alloc),
                magnitude: 0,
                hi,
                lo,
            });
        }
        // A digit takes four bits. There are `size` digits without the leading zeros, and `len` also without the
        // trailing ones.
        let zeros = (number.leading_zeros() / 4) as usize;
        let size = 16 - zeros;
        let len = size - (number.trailing_zeros() / 4) as usize;
        let digits = D::from_padded_bcd(alloc, number << (4 * zeros), len)?;
        let magnitude = to_magnitude(subtract_counts(size, fraction + 1));
        Ok(UnsignedOver {
            digits,
            magnitude,
            hi,
            lo,
        })
    }
}
