//! Joining one number to the end of another.
ghost use Rattle.std.specs.Int.{int_max, int_min};
ghost use Rattle.std.specs.Prelude.{◌≡◌, ◌≢◌, ◌<◌, ◌≤◌, ◌<ℤ◌, ◌+ℤ◌, pos, ◌+◌, ◌↔◌, IsTrue, IsFalse, Ok, Err, IsOk, IfOk, IfErr, OnOk, OnErr};
ghost use Rattle.decimal_digits.specs.Number.{first, last};
ghost use Rattle.decimal_unsigned.specs.Concatenation.{overlaps, concatenated_end, concatenated_size, ConcatenationNeedsMemory, returned};

use super::UnsignedOver;
use crate::ConcatenateError;
use decimal_digits::digits::DigitStore;
use decimal_digits::ops::count_between;
use std::alloc::AllocError;

impl<D: DigitStore> UnsignedOver<D> {
    /// Joins another number to the end of this one: adds the numbers, and shows the magnitudes of both.
    ///
    /// `123000` and `456` give `123456`, `5` and `0.00` give `5.00`. If this number is 0, the digits of the other are
    /// moved, without an allocation. Law: [`crate::laws::concatenation_is_associative`].
    ///
    /// # Errors
    ///
    /// Either error returns the other number, and this value is unchanged.
    ///
    /// - `Overlap`: neither number is 0, and the last nonzero digit of this one is at or below the first of the other,
    ///   as in `120` and `25`.
    /// - `Memory`: out of memory; possible only if neither number is 0, and the joined digits, with the zeros between
    ///   them, are more than `L`.
    pub fn concatenate_end(&mut self, other: Self) -> Result<(), ConcatenateError<Self>>
        ensures ok { OnOk result (self.new ≡ concatenated_end self.old other) }
        ensures overlap { (result ≡ Err (ConcatenateError.Overlap other))
            ↔ IsTrue (overlaps self.old other) }
        ensures memory { (result ≡ Err (ConcatenateError.Memory other))
            → ConcatenationNeedsMemory D.L self.old other }
        ensures succeeds { IsFalse (overlaps self.old other)
            → ¬ ConcatenationNeedsMemory D.L self.old other → IsOk result }
        // If the first nonzero digit of the second is below the last one of the first, they do not overlap.
        ensures disjoint { first other.number <ℤ last self.old.number
            → result ≢ Err (ConcatenateError.Overlap other) }
        ensures fits { first other.number <ℤ last self.old.number
            → concatenated_size self.old other ≤ D.L → IsOk result }
        ensures err { OnErr result (self.new ≡ self.old) }
        ensures returned { IfErr result (λ e. returned e ≡ other) }
    {
        if self.overlaps(&other) {
            return Err(ConcatenateError::Overlap(other));
        }
        if self.is_zero() {
            self.take_digits(other);
            return Ok(());
        }
        if other.is_zero() {
            self.widen(&other);
            return Ok(());
        }
        match self.append(&other) {
            Ok(()) => Ok(()),
            Err(AllocError) => Err(ConcatenateError::Memory(other)),
        }
    }

    /// Joins another number to the end of this one, as `concatenate_end`, by value.
    ///
    /// # Errors
    ///
    /// As for [`Self::concatenate_end`], with both values, unchanged, this one first.
    pub fn concatenated_end(mut self, other: Self) -> Result<Self, ConcatenateError<(Self, Self)>>
        ensures ok { IfOk result (λ v. v ≡ concatenated_end self other) }
        ensures overlap { (result ≡ Err (ConcatenateError.Overlap (self, other)))
            ↔ IsTrue (overlaps self other) }
        ensures memory { (result ≡ Err (ConcatenateError.Memory (self, other)))
            → ConcatenationNeedsMemory D.L self other }
        ensures succeeds { IsFalse (overlaps self other)
            → ¬ ConcatenationNeedsMemory D.L self other → IsOk result }
        ensures disjoint { first other.number <ℤ last self.number
            → result ≢ Err (ConcatenateError.Overlap (self, other)) }
        ensures fits { first other.number <ℤ last self.number → concatenated_size self other ≤ D.L → IsOk result }
        ensures returned { IfErr result (λ e. returned e ≡ (self, other)) }
    {
        match self.concatenate_end(other) {
            Ok(()) => Ok(self),
            Err(ConcatenateError::Overlap(other)) => Err(ConcatenateError::Overlap((self, other))),
            Err(ConcatenateError::Memory(other)) => Err(ConcatenateError::Memory((self, other))),
        }
    }

    #[tactic(auto, unfolding(crate::specs::Concatenation::overlaps))]
    fn overlaps(&self, other: &Self) -> bool
        ensures { result ≡ overlaps self.now other.now }
    {
        if self.is_zero() || other.is_zero() {
            return false;
        }
        self.nonzero_magnitude_end() <= other.nonzero_magnitude_start()
    }

    fn take_digits(&mut self, other: Self)
        requires { self.old.number ≡ 0 }
        ensures { self.new ≡ concatenated_end self.old other }
    {
        self.widen(&other);
        let UnsignedOver {
            digits,
            magnitude,
            hi: _,
            lo: _,
        } = other;
        self.digits = digits;
        self.magnitude = magnitude;
    }

    fn append(&mut self, other: &Self) -> Result<(), AllocError>
        requires first_is_nonzero { 0 < self.old.number }
        requires second_is_nonzero { 0 < other.now.number }
        requires disjoint { first other.now.number <ℤ last self.old.number }
        ensures ok { OnOk result (self.new ≡ concatenated_end self.old other.now) }
        ensures err { OnErr result (self.new ≡ self.old) }
        ensures succeeds { concatenated_size self.old other.now ≤ D.L → IsOk result }
    {
        let start = other.nonzero_magnitude_start();
        let zeros = count_between(start, self.nonzero_magnitude_end()) as usize - 2;
        let hi = self.hi.max(other.hi);
        let lo = self.lo.min(other.lo);
        self.digits.append(zeros, &other.digits)?;
        self.hi = hi;
        self.lo = lo;
        Ok(())
    }

    fn widen(&mut self, other: &Self)
        ensures { self.new ≡ record self.old
            { hi = int_max self.old.hi other.now.hi; lo = int_min self.old.lo other.now.lo } }
    {
        let hi = self.hi.max(other.hi);
        let lo = self.lo.min(other.lo);
        self.hi = hi;
        self.lo = lo;
    }
}
