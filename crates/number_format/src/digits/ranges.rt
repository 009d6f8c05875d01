//! Numbers of digits, and the increments of a rounding.
ghost use Rattle.std.specs.Prelude.{◌≡◌, ◌*◌, ◌^◌, ◌<◌, ◌≤◌, ◌⊎◌, true, false, IfOk, IfErr};
ghost use Rattle.decimal_digits.specs.Rounding.{step_of};
ghost use Rattle.number_format.specs.Increments.{is_increment};

use crate::digits::error::DigitOptionsError;
use fixed_decimal::RoundingIncrement;

/// The least and the greatest number of integer digits.
///
/// The least is at most 32,767; by 0 no integer digit has to be shown, so that 0.5 is `.5`. Digits above the greatest
/// are cut off after the rounding; by 32,768 none is.
#[derive(Clone, Copy, Debug, PartialEq)]
pub struct IntegerDigits {
    /// The least number of integer digits that is shown.
    pub min: u16,
    /// The greatest number of integer digits that is shown.
    pub max: u16,
    pub ghost few: { min ≤ 32767 },
    pub ghost ordered: { min ≤ max },
    pub ghost at_most: { max ≤ 32768 },
}

/// The least and the greatest number of fraction digits.
///
/// The least is at most 32,768. The greatest is at most 65,535, by which no number is rounded in any notation.
#[derive(Clone, Copy, Debug, PartialEq)]
pub struct FractionDigits {
    /// The least number of fraction digits that is shown.
    pub min: u16,
    /// The number of fraction digits to which a number is rounded.
    pub max: u16,
    pub ghost ordered: { min ≤ max },
    pub ghost few: { min ≤ 32768 },
}

/// The least and the greatest number of significant digits, 1 to 65,536.
#[derive(Clone, Copy, Debug, PartialEq)]
pub struct SignificantDigits {
    /// The least number of significant digits that is shown.
    pub min: u32,
    /// The number of significant digits to which a number is rounded; by 65,536 no number is rounded.
    pub max: u32,
    pub ghost some: { 0 < min },
    pub ghost ordered: { min ≤ max },
    pub ghost at_most: { max ≤ 65536 },
}

/// The increment of a rounding: 1, 2 or 5 with up to three zeros, or 25 with up to two.
#[derive(Clone, Copy, Debug, PartialEq)]
pub struct Increment {
    /// The increment without its zeros.
    pub base: RoundingIncrement,
    /// The number of zeros.
    pub zeros: u8,
    pub ghost few_zeros: { zeros ≤ 3 },
    pub ghost at_most: { step_of base * 10 ^ zeros ≤ 5000 },
}

/// A number of fraction digits, at most 32,768, and an increment in units of the last of them.
///
/// With 2 digits and the increment 5 a number is rounded to a multiple of 0.05.
#[derive(Clone, Copy, Debug, PartialEq)]
pub struct FractionMultiples {
    /// The number of fraction digits.
    pub digits: u16,
    /// The increment.
    pub increment: Increment,
    pub ghost at_most: { digits ≤ 32768 },
}

impl IntegerDigits {
    /// Makes a range of numbers of integer digits.
    ///
    /// # Errors
    ///
    /// `IntegerDigits`: the least number is above the greatest, or above 32,767; or the greatest is above 32,768.
    pub fn new(min: u16, max: u16) -> Result<IntegerDigits, DigitOptionsError>
        ensures ok { IfOk result (λ digits. (digits.min ≡ min) × (digits.max ≡ max)) }
        ensures err { IfErr result (λ e. (e ≡ DigitOptionsError.IntegerDigits)
            × ((max < min) ⊎ ((32767 < min) ⊎ (32768 < max)))) }
    {
        if min > max || min > 32767 || max > 32768 {
            return Err(DigitOptionsError::IntegerDigits);
        }
        Ok(IntegerDigits { min, max })
    }
}

impl FractionDigits {
    /// Makes a range of numbers of fraction digits.
    ///
    /// # Errors
    ///
    /// `FractionDigits`: the least number is above the greatest, or above 32,768.
    pub fn new(min: u16, max: u16) -> Result<FractionDigits, DigitOptionsError>
        ensures ok { IfOk result (λ digits. (digits.min ≡ min) × (digits.max ≡ max)) }
        ensures err { IfErr result (λ e. (e ≡ DigitOptionsError.FractionDigits) × ((max < min) ⊎ (32768 < min))) }
    {
        if min > max || min > 32768 {
            return Err(DigitOptionsError::FractionDigits);
        }
        Ok(FractionDigits { min, max })
    }
}

impl SignificantDigits {
    /// Makes a range of numbers of significant digits.
    ///
    /// # Errors
    ///
    /// `SignificantDigits`: the least number is 0 or above the greatest, or the greatest is above 65,536.
    pub fn new(min: u32, max: u32) -> Result<SignificantDigits, DigitOptionsError>
        ensures ok { IfOk result (λ digits. (digits.min ≡ min) × (digits.max ≡ max)) }
        ensures err { IfErr result (λ e. (e ≡ DigitOptionsError.SignificantDigits)
            × ((min ≡ 0) ⊎ ((max < min) ⊎ (65536 < max)))) }
    {
        if min == 0 || min > max || max > 65536 {
            return Err(DigitOptionsError::SignificantDigits);
        }
        Ok(SignificantDigits { min, max })
    }
}

impl Increment {
    /// Makes the increment of an integer: 1, 2, 5, 10, 20, 25, 50, 100, 200, 250, 500, 1000, 2000, 2500 or 5000.
    ///
    /// # Errors
    ///
    /// `Increment`: the integer is none of these.
    pub fn new(increment: u16) -> Result<Increment, DigitOptionsError>
        ensures ok { IfOk result (λ i. (step_of i.base * 10 ^ i.zeros ≡ increment) × (is_increment increment ≡ true)) }
        ensures err { IfErr result (λ e. (e ≡ DigitOptionsError.Increment) × (is_increment increment ≡ false)) }
    {
        let (base, zeros) = match increment {
            1 => (RoundingIncrement::MultiplesOf1, 0),
            2 => (RoundingIncrement::MultiplesOf2, 0),
            5 => (RoundingIncrement::MultiplesOf5, 0),
            10 => (RoundingIncrement::MultiplesOf1, 1),
            20 => (RoundingIncrement::MultiplesOf2, 1),
            25 => (RoundingIncrement::MultiplesOf25, 0),
            50 => (RoundingIncrement::MultiplesOf5, 1),
            100 => (RoundingIncrement::MultiplesOf1, 2),
            200 => (RoundingIncrement::MultiplesOf2, 2),
            250 => (RoundingIncrement::MultiplesOf25, 1),
            500 => (RoundingIncrement::MultiplesOf5, 2),
            1000 => (RoundingIncrement::MultiplesOf1, 3),
            2000 => (RoundingIncrement::MultiplesOf2, 3),
            2500 => (RoundingIncrement::MultiplesOf25, 2),
            5000 => (RoundingIncrement::MultiplesOf5, 3),
            _ => return Err(DigitOptionsError::Increment),
        };
        Ok(Increment { base, zeros })
    }

    /// Returns the increment as an integer.
    pub fn value(self) -> u16
        ensures value { result ≡ step_of self.base * 10 ^ self.zeros }
        ensures at_most { result ≤ 5000 }
    {
        let base: u16 = match self.base {
            RoundingIncrement::MultiplesOf1 => 1,
            RoundingIncrement::MultiplesOf2 => 2,
            RoundingIncrement::MultiplesOf5 => 5,
            RoundingIncrement::MultiplesOf25 => 25,
        };
        match self.zeros {
            0 => base,
            1 => base * 10,
            2 => base * 100,
            _ => base * 1000,
        }
    }
}

impl FractionMultiples {
    /// Makes the precision of a number of fraction digits and an increment.
    ///
    /// # Errors
    ///
    /// `FractionDigits`: more than 32,768 digits.
    pub fn new(digits: u16, increment: Increment) -> Result<FractionMultiples, DigitOptionsError>
        ensures ok { IfOk result (λ m. (m.digits ≡ digits) × (m.increment ≡ increment)) }
        ensures err { IfErr result (λ e. (e ≡ DigitOptionsError.FractionDigits) × (32768 < digits)) }
    {
        if digits > 32768 {
            return Err(DigitOptionsError::FractionDigits);
        }
        Ok(FractionMultiples { digits, increment })
    }
}
