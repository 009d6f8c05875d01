//! Rounding at a position.
ghost use Rattle.std.specs.Prelude.{◌≡◌, ◌≢◌, ◌+◌, ◌≤◌, pos, ◌-ℤ◌, ◌≤ℤ◌, Some, ◌<ℤ◌, IsErrOf, IsOk, IfErr, OnOk};
ghost use Rattle.std.specs.Int.{int_max};
ghost use Rattle.decimal_digits.specs.Number.{size};
ghost use Rattle.decimal_unsigned.specs.Edits.{with_max_position};
ghost use Rattle.decimal_unsigned.specs.Rounded.{rounding, rounding_by_1, IsRounded, rounded, UpdatesInPlace, UpdatesByValue, RoundsInPlace, RoundsByValue, IsBelowLimit, HasCapacity};
ghost use Rattle.decimal_unsigned.specs.ValueLaws.{SplitsAt};

use super::UnsignedOver;
use crate::error::LimitError;
use decimal_digits::digits::{Counted, DigitStore, Steps};
use decimal_digits::ops::magnitude_below;
use decimal_digits::rounding::{RoundError, RoundingIncrement, UnsignedRoundingMode, round};

fn highest_after(hi: i16, position: i16, first: i16) -> i16
    requires { pos 0 ≤ℤ hi }
    ensures { result ≡ int_max (int_max hi (position -ℤ pos 1)) first }
{
    if position > hi {
        magnitude_below(position, 1).max(first)
    } else {
        hi.max(first)
    }
}

#[tactic(auto, using(crate::proofs::lemmas::decimal::Rules::kept))]
impl<D: DigitStore> UnsignedOver<D> {
    /// Rounds to a multiple of an increment at a position, and counts the digit accesses.
    ///
    /// The unit is the increment times 10^`position` (see `UnsignedOver`). The mode chooses one of all multiples of the
    /// unit, which becomes the number. The lowest magnitude shown is the position, or 0 if that is lower. The highest
    /// one is the greatest of three: the highest one before, the one just below the position, and that of the first
    /// digit. `9.75` at -1, half-even by 5, becomes `10.0`. `99.999` at 4, half-expand, becomes `0000`, since 0 is
    /// nearer than 10000.
    ///
    /// There are at most 7 digit accesses, and one for each digit that is removed; with `Limit` there are at most 7,
    /// and one for each digit. Law: [`crate::laws::rounding_is_monotone`].
    ///
    /// # Errors
    ///
    /// After either error the value is unchanged, with its range.
    ///
    /// - `Limit`: the multiple is 10^32768 or more, as that of 7 times 10^32767 at 32767, expand by 5. It does not
    ///   occur if no digit is shown at 32767, except by 25 at 32767.
    /// - `Memory`: out of memory for one more digit; possible only by `MultiplesOf25`, with a multiple below that
    ///   limit, and a number of at least `L` digits.
    pub fn round_counted(
        &mut self,
        position: i16,
        mode: UnsignedRoundingMode,
        increment: RoundingIncrement,
        steps: &mut Steps,
    ) -> Result<(), RoundError>
        ensures rounds { RoundsInPlace D.L self.old (rounding position mode increment) self.new result }
        ensures succeeds { increment ≢ RoundingIncrement.MultiplesOf25 → IsErrOf result RoundError.Memory → ⊥ }
        // If no digit is shown at 32767, each multiple is below the limit, but for those of 25 times 10^32767.
        ensures no_limit { IsBelowLimit self.old position increment → IsErrOf result RoundError.Limit → ⊥ }
        ensures fits { IsBelowLimit self.old position increment → HasCapacity D.L self.old increment → IsOk result }

        // The same rounding again changes neither the number nor the range.
        ensures idempotent { OnOk result (rounded self.new (rounding position mode increment) ≡ Some self.new) }

        ensures accesses { (IsErrOf result RoundError.Limit → ⊥)
            → steps.new.count + size self.new.number ≤ steps.old.count + size self.old.number + 7 }
        ensures limit_accesses { IsErrOf result RoundError.Limit
            → steps.new.count ≤ steps.old.count + size self.old.number + 7 }
        ensures count_nondecreasing { steps.old.count ≤ steps.new.count }
    {
        let magnitude = self.magnitude;
        let mut counted = Counted::new(&mut self.digits, steps);
        let first = round(&mut counted, magnitude, position, mode, increment)?;
        self.hi = highest_after(self.hi, position, first);
        self.lo = position.min(0);
        self.magnitude = first;
        Ok(())
    }

    /// Rounds to a multiple of an increment at a position: `9.75` at -1, half-even by 5, becomes `10.0`.
    ///
    /// [`Self::round_counted`] describes the number, the range and the errors.
    pub fn round_with_mode_and_increment(
        &mut self,
        position: i16,
        mode: UnsignedRoundingMode,
        increment: RoundingIncrement,
    ) -> Result<(), RoundError>
        ensures rounds { RoundsInPlace D.L self.old (rounding position mode increment) self.new result }
        ensures succeeds { increment ≢ RoundingIncrement.MultiplesOf25 → IsErrOf result RoundError.Memory → ⊥ }
        // If no digit is shown at 32767, each multiple is below the limit, but for those of 25 times 10^32767.
        ensures no_limit { IsBelowLimit self.old position increment → IsErrOf result RoundError.Limit → ⊥ }
        ensures fits { IsBelowLimit self.old position increment → HasCapacity D.L self.old increment → IsOk result }
    {
        self.round_counted(position, mode, increment, &mut Steps::new())
    }

    /// Rounds to a multiple of 10^`position`: `2.51` at 0, half-trunc, becomes `3`.
    ///
    /// # Errors
    ///
    /// The multiple is 10^32768 or more, which is possible only if a digit is shown at 32767. The value is unchanged,
    /// with its range.
    pub fn round_with_mode(
        &mut self,
        position: i16,
        mode: UnsignedRoundingMode,
    ) -> Result<(), LimitError>
        ensures rounds { UpdatesInPlace (IsRounded self.old (rounding_by_1 position mode)) self.old self.new result }
        // If no digit is shown at 32767, each multiple is below the limit.
        ensures fits { self.old.hi <ℤ pos 32767 → IsOk result }
    {
        self.round_with_mode_and_increment(position, mode, RoundingIncrement::MultiplesOf1)
            .map_err(|_| LimitError)
    }

    /// Rounds to a multiple of 10^`position`, ties to even: `1.5` at 0 becomes `2`, and so does `2.5`.
    ///
    /// # Errors
    ///
    /// As for [`Self::round_with_mode`].
    pub fn round(&mut self, position: i16) -> Result<(), LimitError>
        ensures rounds { UpdatesInPlace (IsRounded self.old (rounding_by_1 position UnsignedRoundingMode.HalfEven))
            self.old self.new result }
        ensures fits { self.old.hi <ℤ pos 32767 → IsOk result }
    {
        self.round_with_mode(position, UnsignedRoundingMode::HalfEven)
    }

    /// Rounds away from zero to a multiple of 10^`position`: `99.999` at 4 becomes `10000`.
    ///
    /// Law: [`crate::laws::expansions_compose`].
    ///
    /// # Errors
    ///
    /// As for [`Self::round_with_mode`].
    pub fn expand(&mut self, position: i16) -> Result<(), LimitError>
        ensures rounds { UpdatesInPlace (IsRounded self.old (rounding_by_1 position UnsignedRoundingMode.Expand))
            self.old self.new result }
        ensures fits { self.old.hi <ℤ pos 32767 → IsOk result }
    {
        self.round_with_mode(position, UnsignedRoundingMode::Expand)
    }

    /// Rounds toward zero to a multiple of 10^`position`: `1234.56` at -1 becomes `1234.5`.
    ///
    /// It never fails, since the multiple is at most the number. Law: [`crate::laws::truncations_compose`].
    pub fn trunc(&mut self, position: i16)
        ensures rounds { IsRounded self.old (rounding_by_1 position UnsignedRoundingMode.Trunc) (Some self.new) }
        // This part, joined with the one that `set_max_position` leaves at the position, is the old number.
        ensures splits { SplitsAt self.old position self.new (with_max_position self.old position) }
    {
        self.round_with_mode(position, UnsignedRoundingMode::Trunc)
            .unwrap();
    }

    /// Rounds as `round_with_mode_and_increment`, by value: `9.75` at -1, half-even by 5, gives `10.0`.
    ///
    /// # Errors
    ///
    /// As for [`Self::round_counted`], with the value, unchanged.
    pub fn rounded_with_mode_and_increment(
        mut self,
        position: i16,
        mode: UnsignedRoundingMode,
        increment: RoundingIncrement,
    ) -> Result<Self, (Self, RoundError)>
        ensures rounds { RoundsByValue D.L self (rounding position mode increment) result }
        ensures succeeds { increment ≢ RoundingIncrement.MultiplesOf25
            → IfErr result (λ e. e.1 ≡ RoundError.Memory → ⊥) }
        ensures no_limit { IsBelowLimit self position increment → IfErr result (λ e. e.1 ≡ RoundError.Limit → ⊥) }
        ensures fits { IsBelowLimit self position increment → HasCapacity D.L self increment → IsOk result }
    {
        match self.round_with_mode_and_increment(position, mode, increment) {
            Ok(()) => Ok(self),
            Err(error) => Err((self, error)),
        }
    }

    /// Rounds as `round_with_mode`, by value: `2.51` at 0, half-trunc, gives `3`.
    ///
    /// # Errors
    ///
    /// The value, unchanged, if the multiple is 10^32768 or more.
    pub fn rounded_with_mode(
        mut self,
        position: i16,
        mode: UnsignedRoundingMode,
    ) -> Result<Self, Self>
        ensures rounds { UpdatesByValue (IsRounded self (rounding_by_1 position mode)) self result }
        ensures fits { self.hi <ℤ pos 32767 → IsOk result }
    {
        match self.round_with_mode(position, mode) {
            Ok(()) => Ok(self),
            Err(LimitError) => Err(self),
        }
    }

    /// Rounds as `round`, by value: `1.5` at 0 gives `2`.
    ///
    /// # Errors
    ///
    /// As for [`Self::rounded_with_mode`].
    pub fn rounded(self, position: i16) -> Result<Self, Self>
        ensures rounds { UpdatesByValue (IsRounded self (rounding_by_1 position UnsignedRoundingMode.HalfEven))
            self result }
        ensures fits { self.hi <ℤ pos 32767 → IsOk result }
    {
        self.rounded_with_mode(position, UnsignedRoundingMode::HalfEven)
    }

    /// Rounds as `expand`, by value: `99.999` at 4 gives `10000`.
    ///
    /// # Errors
    ///
    /// As for [`Self::rounded_with_mode`].
    pub fn expanded(self, position: i16) -> Result<Self, Self>
        ensures rounds { UpdatesByValue (IsRounded self (rounding_by_1 position UnsignedRoundingMode.Expand))
            self result }
        ensures fits { self.hi <ℤ pos 32767 → IsOk result }
    {
        self.rounded_with_mode(position, UnsignedRoundingMode::Expand)
    }

    /// Rounds as `trunc`, by value: `1234.56` at -1 gives `1234.5`.
    pub fn trunced(mut self, position: i16) -> Self
        ensures { IsRounded self (rounding_by_1 position UnsignedRoundingMode.Trunc) (Some result) }
    {
        self.trunc(position);
        self
    }
}
