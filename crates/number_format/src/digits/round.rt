//! Rounds a decimal to the digits that options show.
ghost use Rattle.std.specs.Prelude.{◌≡◌, ◌+◌, ◌%◌, ◌≤◌, pos, IfErr, IsErrOf, OnOk, MatchResult};
ghost use Rattle.decimal_digits.specs.{Number.{weight, size}, Rounding.unit_at};
ghost use Rattle.decimal_unsigned.specs.Rounded.{ChangesInPlace};
ghost use Rattle.number_format.specs.ShownDigits.{base_of, rounded_with, rounded_whole, stripped, shown, shown_whole, NeedsMemory, IsApplied, ApplyFails, IsRoundedAt, RoundingFailsAt};

use crate::digits::options::{DigitOptions, TrailingZeros};
use fixed_decimal::{DigitStore, RoundError, Signed, Steps, UnsignedOver};

impl DigitOptions {
    /// Returns the position at which [`apply`](Self::apply) rounds: the unit is the increment times its power of ten.
    pub fn position_of<D: DigitStore>(&self, value: &Signed<UnsignedOver<D>>) -> i16
        ensures unit { (rounded_with self.now 0 value.now).unit ≡ unit_at (base_of self.now.precision) result }
    {
        let first = value.absolute.nonzero_magnitude_start();
        match self.precision.position_at(0, first) {
            Ok(position) => position,
            Err(_) => 32767,
        }
    }

    /// Rounds a decimal, and shows the digits of the rounded number that the options show.
    ///
    /// `FormatNumericToString` of ECMA-402, on a number of any length. The sign is kept, and the zeros that the value
    /// showed before have no effect: by 1 to 3 significant digits, `0012345.60` becomes `12300`.
    ///
    /// # Errors
    ///
    /// The value is then unchanged:
    ///
    /// - `Limit`: the rounded number is 10^32768 or more.
    /// - `Memory`: out of memory for one digit more, only by 25, 250 or 2500, and only if the number has at least `L`
    ///   digits.
    pub fn apply<D: DigitStore>(
        &self,
        value: &mut Signed<UnsignedOver<D>>,
    ) -> Result<(), RoundError>
        ensures applies { ChangesInPlace (λ v. IsApplied self.now value.old v)
            (λ e. ApplyFails D.L e self.now value.old) value.old value.new result }
    {
        self.apply_counted(value, &mut Steps::new())
    }

    #[tactic(auto, using(crate::proofs::lemmas::digits::Applied::apply_fails))]
    fn apply_counted<D: DigitStore>(
        &self,
        value: &mut Signed<UnsignedOver<D>>,
        steps: &mut Steps,
    ) -> Result<(), RoundError>
        ensures applies { ChangesInPlace (λ v. IsApplied self.now value.old v)
            (λ e. ApplyFails D.L e self.now value.old) value.old value.new result }
        ensures accesses { (IsErrOf result RoundError.Limit → ⊥)
            → steps.new.count + size value.new.absolute.number
            ≤ steps.old.count + size value.old.absolute.number + 7 }
        ensures limit_accesses { IsErrOf result RoundError.Limit
            → steps.new.count ≤ steps.old.count + size value.old.absolute.number + 7 }
        ensures count_nondecreasing { steps.old.count ≤ steps.new.count }
    {
        let last = self.round_at(value, 0, steps)?;
        self.cut_and_pad(&mut value.absolute, last);
        Ok(())
    }

    #[inline(always)]
    pub(crate) fn round_at<D: DigitStore>(
        &self,
        value: &mut Signed<UnsignedOver<D>>,
        exponent: u16,
        steps: &mut Steps,
    ) -> Result<i32, RoundError>
        ensures rounds { MatchResult result (λ last. IsRoundedAt self.now exponent value.old value.new last)
            (λ e. RoundingFailsAt D.L e self.now exponent value.old × (value.new ≡ value.old)) }
        ensures accesses { (IsErrOf result RoundError.Limit → ⊥)
            → steps.new.count + size value.new.absolute.number
            ≤ steps.old.count + size value.old.absolute.number + 7 }
        ensures limit_accesses { IsErrOf result RoundError.Limit
            → steps.new.count ≤ steps.old.count + size value.old.absolute.number + 7 }
        ensures count_nondecreasing { steps.old.count ≤ steps.new.count }
    {
        let before = value.absolute.nonzero_magnitude_start();
        let position = self.precision.position_at(exponent, before)?;
        if let Err(error) = value.round_counted(position, self.mode, self.precision.base(), steps) {
            return Err(error);
        }
        let after = value.absolute.nonzero_magnitude_start();
        Ok(self.precision.last_shown(exponent, before, after))
    }

    fn cut_integer_digits<D: DigitStore>(&self, value: &mut UnsignedOver<D>)
        ensures number { value.new.number ≡ value.old.number % weight (pos self.now.integer.max) }
        ensures size { size value.new.number ≤ size value.old.number }
    {
        // Proof hint: the value satisfies its invariant.
        let _range = value.magnitude_range();
        if self.integer.max == 32768 {
            return;
        }
        value.set_max_position(self.integer.max as i16);
    }

    #[inline(always)]
    pub(crate) fn cut_and_pad<D: DigitStore>(&self, value: &mut UnsignedOver<D>, last: i32)
        ensures value { value.new ≡ shown self.now value.old.number last }
        ensures size { size value.new.number ≤ size value.old.number }
    {
        self.cut_integer_digits(value);
        value.pad_start(self.integer.min.max(1) as i16);
        value.pad_end(last.clamp(-32768, 0) as i16);
        self.trailing_zeros.strip(value);
    }

    /// Rounds a decimal as in standard notation, and cuts no integer digit off; beyond a limit the value is unchanged.
    pub(crate) fn round_whole<D: DigitStore>(
        &self,
        value: &mut Signed<UnsignedOver<D>>,
    ) -> Result<(), RoundError>
        ensures ok { OnOk result (value.new.absolute ≡ rounded_whole self.now value.old) }
        ensures err { IfErr result
            (λ e. (e ≡ RoundError.Memory) × NeedsMemory D.L self.now value.old.sign 0 value.old.absolute.number) }
    {
        match self.round_at(value, 0, &mut Steps::new()) {
            Ok(last) => {
                self.pad_whole(&mut value.absolute, last);
                Ok(())
            }
            Err(RoundError::Limit) => Ok(()),
            Err(RoundError::Memory) => Err(RoundError::Memory),
        }
    }

    fn pad_whole<D: DigitStore>(&self, value: &mut UnsignedOver<D>, last: i32)
        ensures { value.new ≡ shown_whole self.now value.old.number last }
    {
        value.pad_start(1);
        value.pad_end(last.clamp(-32768, 0) as i16);
        self.trailing_zeros.strip(value);
    }
}

impl TrailingZeros {
    fn strip<D: DigitStore>(self, value: &mut UnsignedOver<D>)
        ensures { value.new ≡ stripped self value.old }
    {
        if let TrailingZeros::StripIfInteger = self {
            value.trim_end_if_integer();
        }
    }
}
