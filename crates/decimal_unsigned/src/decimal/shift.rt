//! Shifts: multiplication by powers of ten.
ghost use Rattle.std.specs.Prelude.{◌≡◌, ◌<◌, ◌⊎◌, pos, negsuc, ◌+ℤ◌, ◌≤ℤ◌, ◌<ℤ◌, Some, None, IsFalse, IsOk, IfOk, IfErr, IfSome, IfNone, OnOk, OnErr, ◌↔◌};
ghost use Rattle.std.specs.Int.{int_max, int_min};
ghost use Rattle.decimal_unsigned.specs.Edits.{leaves_limits, multiplied, multiplied_pow10};

use super::UnsignedOver;
use crate::error::LimitError;
use decimal_digits::digits::DigitStore;
use decimal_digits::ops::{add_magnitudes, at_least_zero, at_most_zero, to_magnitude};

impl<D: DigitStore> UnsignedOver<D> {
    /// Multiplies by 10^`delta`, exactly.
    ///
    /// The range is moved by `delta`, and magnitude 0 remains shown. `250` by -2 is `2.50`, and `0` by 3 is `0000`.
    ///
    /// # Errors
    ///
    /// The moved range leaves the magnitudes -32768 to 32767, as that of `10` by 32767. The value is unchanged, with
    /// its range.
    pub fn multiply_pow10(&mut self, delta: i16) -> Result<(), LimitError>
        ensures ok { OnOk result (multiplied_pow10 self.old delta ≡ Some self.new) }
        ensures limit { OnErr result (multiplied_pow10 self.old delta ≡ None) }
        ensures err { OnErr result (self.new ≡ self.old) }
        ensures fits { IsOk result ↔ IsFalse (leaves_limits self.old delta) }
        ensures moved { OnOk result (self.new ≡ multiplied self.old delta) }
    {
        let Some((hi, lo)) = moved_range(self.hi, self.lo, delta) else {
            return Err(LimitError);
        };
        let magnitude = if self.digits.len() == 0 {
            0
        } else {
            to_magnitude(add_magnitudes(self.magnitude, delta))
        };
        self.magnitude = magnitude;
        self.hi = hi;
        self.lo = lo;
        Ok(())
    }

    /// Multiplies as `multiply_pow10`, by value: `250` by -2 gives `2.50`.
    ///
    /// # Errors
    ///
    /// The value, unchanged, if the moved range leaves the magnitudes -32768 to 32767.
    pub fn multiplied_pow10(mut self, delta: i16) -> Result<Self, Self>
        ensures ok { IfOk result (λ v. multiplied_pow10 self delta ≡ Some v) }
        ensures limit { OnErr result (multiplied_pow10 self delta ≡ None) }
        ensures err { IfErr result (λ v. v ≡ self) }
        ensures fits { IsOk result ↔ IsFalse (leaves_limits self delta) }
        ensures moved { IfOk result (λ v. v ≡ multiplied self delta) }
    {
        match self.multiply_pow10(delta) {
            Ok(()) => Ok(self),
            Err(LimitError) => Err(self),
        }
    }
}

#[inline]
fn moved_range(hi: i16, lo: i16, delta: i16) -> Option<(i16, i16)>
    requires highest { pos 0 ≤ℤ hi }
    requires lowest { lo ≤ℤ pos 0 }
    ensures hi { IfSome result (λ range. range.0 ≡ int_max (hi +ℤ delta) (pos 0)) }
    ensures lo { IfSome result (λ range. range.1 ≡ int_min (lo +ℤ delta) (pos 0)) }
    ensures fits { IfSome result (λ _. ((hi +ℤ delta) ≤ℤ pos 32767) × (negsuc 32767 ≤ℤ (lo +ℤ delta))) }
    ensures none { IfNone result ((pos 32767 <ℤ (hi +ℤ delta)) ⊎ ((lo +ℤ delta) <ℤ negsuc 32767)) }
{
    if delta < 0 {
        let lower = add_magnitudes(lo, delta);
        if lower < -32768 {
            return None;
        }
        return Some((
            at_least_zero(add_magnitudes(hi, delta)),
            to_magnitude(lower),
        ));
    }
    let upper = add_magnitudes(hi, delta);
    if upper > 32767 {
        return None;
    }
    Some((to_magnitude(upper), at_most_zero(add_magnitudes(lo, delta))))
}
