//! The equality of values.
ghost use Rattle.std.specs.Prelude.{◌≡◌, ◌↔◌, IsTrue};
ghost use Rattle.decimal_unsigned.specs.Text.{text};
ghost use Rattle.decimal_unsigned.specs.Unsigned.{same, same_laws, IsValue};

use super::UnsignedOver;
use decimal_digits::digits::DigitStore;

impl<D: DigitStore> PartialEq for UnsignedOver<D> {
    ghost eq = { same };

    ghost laws = { same_laws };

    /// Returns whether two values have the same number and show the same magnitudes, so that their texts are equal.
    ///
    /// `1.0` and `1` are not equal.
    fn eq(&self, other: &Self) -> bool
        ensures same { result ≡ same self.now other.now }
        ensures value { IsTrue result ↔ (self.now ≡ other.now) }
        ensures texts { IsTrue result ↔ (text self.now ≡ text other.now) }
        ensures valid { IsValue self.now × IsValue other.now }
    {
        if self.magnitude != other.magnitude {
            return false;
        }
        if self.hi != other.hi {
            return false;
        }
        if self.lo != other.lo {
            return false;
        }
        self.digits.eq(&other.digits)
    }
}
