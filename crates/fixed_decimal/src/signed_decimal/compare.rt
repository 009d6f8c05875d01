//! Comparison of decimals by their numbers.
ghost use Rattle.std.specs.{Prelude.◌≡◌, Ordering.int_cmp};
ghost use Rattle.decimal_unsigned.specs.Unsigned.{IsValue};
ghost use Rattle.fixed_decimal.specs.Decimal.{signed_number};

use crate::variations::{Sign, Signed};
use decimal_digits::digits::DigitStore;
use decimal_unsigned::decimal::UnsignedOver;
use std::cmp::Ordering;

impl<D: DigitStore> Signed<UnsignedOver<D>> {
    /// Compares two decimals by their signed numbers, over any two stores.
    ///
    /// `-2` is less than `-1.5`; `1.0`, `1` and `+1` are `Equal`, and so are `-0` and `0`. This is not `Ord`, which
    /// would have to agree with `==`, the equality of texts. It does not allocate.
    pub fn compare<E: DigitStore>(&self, other: &Signed<UnsignedOver<E>>) -> Ordering
        ensures order { result ≡ int_cmp (signed_number self.now) (signed_number other.now) }
        ensures valid { IsValue self.now.absolute × IsValue other.now.absolute }
    {
        let is_zero = self.absolute.is_zero();
        let other_is_zero = other.absolute.is_zero();
        let is_negative = matches!(self.sign, Sign::Negative);
        let other_is_negative = matches!(other.sign, Sign::Negative);
        match (is_negative, other_is_negative) {
            (false, false) => self.absolute.compare(&other.absolute),
            (true, true) => other.absolute.compare(&self.absolute),
            _ if is_zero && other_is_zero => Ordering::Equal,
            (true, false) => Ordering::Less,
            (false, true) => Ordering::Greater,
        }
    }
}
