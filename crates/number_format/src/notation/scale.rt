//! The significand and the exponent of a number.
ghost use Rattle.std.specs.{Prelude.{◌≡◌, ◌↔◌, ◌+◌, ◌*◌, ◌/◌, ◌^◌, ◌≤◌, Some, None, IsTrue, IfOk, OnOk, OnErr, IfErr, IsErrOf, pos, ◌+ℤ◌, ◌-ℤ◌, ◌≤ℤ◌, ◌<ℤ◌, negsuc, unsigned_abs}, Int.int_min};
ghost use Rattle.decimal_digits.specs.Number.{first, last};
ghost use Rattle.number_format.specs.Scaled.{exponent_from_0, base_exponent, raised, settled, rounded_number, ScalingNeedsMemory, scaled_value, scaled};

use crate::digits::options::DigitOptions;
use crate::notation::Notation;
use fixed_decimal::{DigitStore, RoundError, Signed, Steps, UnsignedOver};
use std::marker::Model;

/// A significand and an exponent: the significand times 10 to the power of the exponent. In engineering notation 12345
/// is 12.345 with the exponent 3.
#[derive(Debug)]
pub struct Scaled<D: DigitStore> {
    significand: Signed<UnsignedOver<D>>,
    exponent: i32,
}

impl<D: DigitStore> Model for Scaled<D> {
    ghost use Rattle.number_format.specs.Scaled.{ScaledValue, scaled_value};

    ghost Value = { ScaledValue };

    ghost view = { λ s. scaled_value s.significand s.exponent };
}

// Not derived: a derived drop is proved again in each crate that depends on this one.
impl<D: DigitStore> Drop for Scaled<D> {
    fn drop(self) {
        let Scaled {
            significand,
            exponent: _,
        } = self;
        drop(significand);
    }
}

/// A rounded number, besides its significand.
#[derive(Clone, Copy)]
pub(crate) struct ShownNumber {
    pub(crate) exponent: i32,
    /// Whether it is 0 before integer digits are cut off.
    pub(crate) is_zero: bool,
}

fn halves(exponent: i32) -> (u16, u16)
    requires { negsuc 32769 ≤ℤ exponent }
    ensures sum { result.0 + result.1 ≡ unsigned_abs (int_min (pos 0) exponent) }
    ensures few { (result.0 ≤ 16385) × (result.1 ≤ 16385) }
{
    let count = (-exponent.min(0)) as u16;
    (count / 2, count - count / 2)
}

fn raise<D: DigitStore>(value: &mut UnsignedOver<D>, count: u16)
    requires few { count ≤ 16385 }
    requires low { (first value.old.number +ℤ pos count) ≤ℤ pos 32767 }
    ensures { value.new.number ≡ value.old.number * 10 ^ count }
{
    if count == 0 {
        return;
    }
    value.trim_start();
    value.multiply_pow10(count as i16).unwrap();
}

fn lower<D: DigitStore>(value: &mut UnsignedOver<D>, count: u16) -> Result<(), RoundError>
    requires { count ≤ 32767 }
    ensures ok { OnOk result (value.new.number ≡ value.old.number / 10 ^ count) }
    ensures fits { OnOk result (negsuc 32767 ≤ℤ (last value.old.number -ℤ pos count)) }
    ensures err { IfErr result (λ e. (e ≡ RoundError.Limit) × ((last value.old.number -ℤ pos count) <ℤ negsuc 32767)) }
{
    if count == 0 {
        // Proof hint: the last digit is within the limits.
        let _last = value.nonzero_magnitude_end();
        return Ok(());
    }
    value.trim_end();
    match value.multiply_pow10(-(count as i16)) {
        Ok(()) => Ok(()),
        Err(_) => Err(RoundError::Limit),
    }
}

impl DigitOptions {
    #[inline(always)]
    pub(crate) fn round_in_place<D: DigitStore>(
        &self,
        value: &mut Signed<UnsignedOver<D>>,
    ) -> Result<ShownNumber, RoundError>
        ensures ok { IfOk result
            (λ s. scaled Notation.Standard self.now value.old ≡ Some (scaled_value value.new s.exponent)) }
        ensures zero { IfOk result
            (λ s. IsTrue s.is_zero ↔ (rounded_number Notation.Standard self.now value.old ≡ 0)) }
        ensures unchanged { OnErr result (value.new ≡ value.old) }
        ensures limit { IsErrOf result RoundError.Limit → scaled Notation.Standard self.now value.old ≡ None }
        ensures memory { IsErrOf result RoundError.Memory → ScalingNeedsMemory D.L Notation.Standard self.now
            value.old.sign (raised Notation.Standard value.old.absolute.number) }
    {
        let last = self.round_at(value, 0, &mut Steps::new())?;
        let is_zero = value.absolute.is_zero();
        self.cut_and_pad(&mut value.absolute, last);
        Ok(ShownNumber {
            exponent: 0,
            is_zero,
        })
    }
}

impl Notation {
    #[inline(always)]
    fn raise<D: DigitStore>(&self, value: &mut UnsignedOver<D>) -> i32
        ensures exponent { result ≡ base_exponent self.now value.old.number }
        ensures number { value.new.number ≡ value.old.number * 10 ^ unsigned_abs result }
        ensures at_least { negsuc 32769 ≤ℤ result }
        ensures at_most { result ≤ℤ pos 0 }
    {
        let exponent = self.exponent_at(value.nonzero_magnitude_start());
        let (half, rest) = halves(exponent);
        raise(value, half);
        raise(value, rest);
        exponent.min(0)
    }

    fn exponent_from_0(&self, magnitude: i16) -> u16
        ensures value { result ≡ exponent_from_0 self.now magnitude }
        ensures at_most { result ≤ 32767 }
    {
        self.exponent_at(magnitude).max(0) as u16
    }

    // An increment may carry the first digit up by more than 1.
    fn carried_exponent(&self, first: i16, carried: i16) -> u16
        ensures value { result ≡ exponent_from_0 self.now (int_min (first +ℤ pos 1) carried) }
        ensures at_most { result ≤ 32767 }
    {
        self.exponent_from_0(if carried > first { first + 1 } else { carried })
    }

    #[inline(always)]
    fn settle<D: DigitStore>(
        &self,
        options: &DigitOptions,
        value: &mut Signed<UnsignedOver<D>>,
    ) -> Result<(u16, i32), RoundError>
        ensures settles { IfOk result (λ r. settled self.now options.now value.old.sign value.old.absolute.number
            ≡ Some (record { exponent = r.0; number = value.new.absolute.number; last_shown = r.1 })) }
        ensures limit { IsErrOf result RoundError.Limit
            → settled self.now options.now value.old.sign value.old.absolute.number ≡ None }
        ensures memory { IsErrOf result RoundError.Memory
            → ScalingNeedsMemory D.L self.now options.now value.old.sign value.old.absolute.number }
        ensures sign { OnOk result (value.new.sign ≡ value.old.sign) }
        ensures at_most { IfOk result (λ r. r.0 ≤ 32767) }
    {
        let first = value.absolute.nonzero_magnitude_start();
        let exponent = self.exponent_from_0(first);
        let last = options.round_at(value, exponent, &mut Steps::new())?;
        let next = self.carried_exponent(first, value.absolute.nonzero_magnitude_start());
        if next > exponent {
            let last = options.round_at(value, next, &mut Steps::new())?;
            return Ok((next, last));
        }
        Ok((exponent, last))
    }

    #[inline(always)]
    pub(crate) fn scale_in_place<D: DigitStore>(
        &self,
        options: &DigitOptions,
        value: &mut Signed<UnsignedOver<D>>,
    ) -> Result<ShownNumber, RoundError>
        ensures ok { IfOk result
            (λ s. scaled self.now options.now value.old ≡ Some (scaled_value value.new s.exponent)) }
        ensures zero { IfOk result
            (λ s. IsTrue s.is_zero ↔ (rounded_number self.now options.now value.old ≡ 0)) }
        ensures limit { IsErrOf result RoundError.Limit → scaled self.now options.now value.old ≡ None }
        ensures memory { IsErrOf result RoundError.Memory
            → ScalingNeedsMemory D.L self.now options.now value.old.sign (raised self.now value.old.absolute.number) }
    {
        let base = self.raise(&mut value.absolute);
        let (exponent, last) = self.settle(options, value)?;
        let is_zero = value.absolute.is_zero();
        lower(&mut value.absolute, exponent)?;
        options.cut_and_pad(&mut value.absolute, last);
        Ok(ShownNumber {
            exponent: base + exponent as i32,
            is_zero,
        })
    }

    /// Returns the significand and the exponent that the notation writes for a decimal, with the digits of options.
    ///
    /// The exponent is that of the decimal's magnitude. If the rounding carries the number to a higher magnitude and
    /// the next magnitude has a greater exponent, it is that one, and the rounded number is rounded again: by at most 2
    /// significant digits `999999` is `1` and 6. `ComputeExponent` of ECMA-402.
    ///
    /// # Errors
    ///
    /// - `Limit`: the rounded number or the increment would be 10^32768 or more, or a digit of the significand would be
    ///   below 10^-32768.
    /// - `Memory`: as [`DigitOptions::apply`], in one of the two roundings.
    pub fn scale<D: DigitStore>(
        &self,
        options: &DigitOptions,
        mut value: Signed<UnsignedOver<D>>,
    ) -> Result<Scaled<D>, RoundError>
        ensures ok { IfOk result (λ s. scaled self.now options.now value ≡ Some s) }
        ensures limit { IsErrOf result RoundError.Limit → scaled self.now options.now value ≡ None }
        ensures memory { IsErrOf result RoundError.Memory
            → ScalingNeedsMemory D.L self.now options.now value.sign (raised self.now value.absolute.number) }
    {
        let shown = self.scale_in_place(options, &mut value)?;
        Ok(Scaled {
            significand: value,
            exponent: shown.exponent,
        })
    }
}

impl<D: DigitStore> Scaled<D> {
    /// Returns the exponent: 6 of 1,200,000 in scientific notation.
    pub fn exponent(&self) -> i32
        ensures { result ≡ self.now.exponent }
    {
        self.exponent
    }

    /// Returns the significand, `1.2` of 1,200,000 in scientific notation, and drops the exponent.
    pub fn into_significand(self) -> Signed<UnsignedOver<D>>
        ensures { result ≡ self.significand }
    {
        let Scaled {
            significand,
            exponent: _,
        } = self;
        significand
    }
}
