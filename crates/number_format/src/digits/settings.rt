//! The numbers of digits as ECMA-402 reads them.
ghost use Rattle.std.specs.Prelude.{◌≡◌, true, false, not, ◌||◌, ◌&&◌, Some, None, IfOk, MatchResult};
ghost use Rattle.number_format.specs.{DefaultDigits.no_settings, Resolved.{counts, needs_significant, needs_fraction, significant_of, fraction_of, are_within, are_fraction, IsNamed, IsResolved, first_error, increment_tests, resolve_error}, ShownDigits.increment_of};

use crate::digits::error::DigitOptionsError;
use crate::digits::options::{DigitOptions, TrailingZeros};
use crate::digits::precision::{BothDigits, Minimum, Precision};
use crate::digits::ranges::{
    FractionDigits, FractionMultiples, Increment, IntegerDigits, SignificantDigits,
};
use fixed_decimal::{SignedRoundingMode, UnsignedRoundingMode};

/// Which of two roundings is chosen; ECMA-402's `roundingPriority`.
#[derive(Clone, Copy, Debug, Default)]
pub enum RoundingPriority {
    /// That to significant digits if a number of significant digits is given.
    #[default]
    Auto,
    /// The one that keeps a lower digit.
    MorePrecision,
    /// The other one.
    LessPrecision,
}

/// The numbers of digits that are given, by their names in ECMA-402.
#[derive(Clone, Copy, Debug)]
pub struct DigitSettings {
    /// `minimumIntegerDigits`, 1 by default.
    pub minimum_integer_digits: Option<u16>,
    /// `minimumFractionDigits`.
    pub minimum_fraction_digits: Option<u16>,
    /// `maximumFractionDigits`.
    pub maximum_fraction_digits: Option<u16>,
    /// `minimumSignificantDigits`.
    pub minimum_significant_digits: Option<u16>,
    /// `maximumSignificantDigits`.
    pub maximum_significant_digits: Option<u16>,
    /// `roundingIncrement`.
    pub rounding_increment: u16,
    /// `roundingMode`.
    pub rounding_mode: SignedRoundingMode,
    /// `roundingPriority`.
    pub rounding_priority: RoundingPriority,
    /// `trailingZeroDisplay`.
    pub trailing_zeros: TrailingZeros,
}

/// What applies where no number of fraction digits is given.
#[derive(Clone, Copy, Debug)]
pub struct DigitDefaults {
    /// The numbers of fraction digits: 0 and 3 of a decimal, 0 and 0 of a percentage, those of a currency.
    pub fraction: FractionDigits,
    /// Whether the notation is compact.
    pub is_compact: bool,
}

impl Default for DigitSettings {
    ghost is_default = { λ s. s ≡ no_settings 1 };

    /// Returns the settings of ECMA-402 where none is given: no numbers of digits, and the increment 1.
    fn default() -> DigitSettings {
        DigitSettings {
            minimum_integer_digits: None,
            minimum_fraction_digits: None,
            maximum_fraction_digits: None,
            minimum_significant_digits: None,
            maximum_significant_digits: None,
            rounding_increment: 1,
            rounding_mode: SignedRoundingMode::Unsigned(UnsignedRoundingMode::HalfExpand),
            rounding_priority: RoundingPriority::Auto,
            trailing_zeros: TrailingZeros::Auto,
        }
    }
}

impl DigitSettings {
    fn needs_significant(&self) -> bool
        ensures { result ≡ needs_significant self.now }
    {
        !matches!(self.rounding_priority, RoundingPriority::Auto)
            || self.minimum_significant_digits.is_some()
            || self.maximum_significant_digits.is_some()
    }

    fn needs_fraction(&self, defaults: &DigitDefaults) -> bool
        ensures { result ≡ needs_fraction self.now defaults.now }
    {
        let has_fraction = self.minimum_fraction_digits.is_some()
            || self.maximum_fraction_digits.is_some();
        !matches!(self.rounding_priority, RoundingPriority::Auto)
            || !(self.needs_significant() || (defaults.is_compact && !has_fraction))
    }

    fn significant(&self) -> Result<SignificantDigits, DigitOptionsError>
        ensures { MatchResult result
            (λ x. (are_within 1 21 (significant_of self.now) ≡ true) × (counts x.min x.max ≡ significant_of self.now))
            (λ e. (are_within 1 21 (significant_of self.now) ≡ false) × (e ≡ DigitOptionsError.SignificantDigits)) }
    {
        if !self.needs_significant() {
            return Ok(SignificantDigits { min: 1, max: 2 });
        }
        let min = self.minimum_significant_digits.unwrap_or(1) as u32;
        let max = self.maximum_significant_digits.unwrap_or(21) as u32;
        if min == 0 || min > max || max > 21 {
            return Err(DigitOptionsError::SignificantDigits);
        }
        Ok(SignificantDigits { min, max })
    }

    fn fraction(&self, defaults: &DigitDefaults) -> Result<FractionDigits, DigitOptionsError>
        ensures { MatchResult result
            (λ x. (are_fraction self.now defaults.now ≡ true)
            × (counts x.min x.max ≡ fraction_of self.now defaults.now))
            (λ e. (are_fraction self.now defaults.now ≡ false) × (e ≡ DigitOptionsError.FractionDigits)) }
    {
        if !self.needs_fraction(defaults) {
            return Ok(FractionDigits { min: 0, max: 0 });
        }
        let (given_min, given_max) = (self.minimum_fraction_digits, self.maximum_fraction_digits);
        if given_min.unwrap_or(0) > 100 || given_max.unwrap_or(0) > 100 {
            return Err(DigitOptionsError::FractionDigits);
        }
        let least = defaults.fraction.min;
        let most = match self.rounding_increment {
            1 => defaults.fraction.max,
            _ => least,
        };
        let min = given_min.unwrap_or(least.min(given_max.unwrap_or(least)));
        let max = given_max.unwrap_or(most.max(min));
        FractionDigits::new(min, max)
    }

    fn precision(
        &self,
        defaults: &DigitDefaults,
        both: BothDigits,
        increment: Increment,
    ) -> Result<Precision, DigitOptionsError>
        requires fraction { counts both.fraction.min both.fraction.max ≡ fraction_of self.now defaults.now }
        requires significant { counts both.significant.min both.significant.max ≡ significant_of self.now }
        requires minimum { both.minimum ≡ Minimum.Chosen }
        requires increment { increment_of increment ≡ self.now.rounding_increment }
        ensures { MatchResult result
            (λ p. (first_error (increment_tests self.now defaults.now) ≡ None)
            × IsNamed (fraction_of self.now defaults.now) (significant_of self.now) self.now.rounding_increment
            self.now.rounding_priority (needs_significant self.now) (needs_fraction self.now defaults.now) p)
            (λ e. first_error (increment_tests self.now defaults.now) ≡ Some e) }
    {
        let digits = both.fraction;
        if self.rounding_increment != 1 {
            if self.needs_significant() || !self.needs_fraction(defaults) {
                return Err(DigitOptionsError::IncrementPrecision);
            }
            if digits.min != digits.max {
                return Err(DigitOptionsError::IncrementDigits);
            }
            return Ok(Precision::Multiples(FractionMultiples {
                digits: digits.max,
                increment,
            }));
        }
        Ok(match self.rounding_priority {
            RoundingPriority::MorePrecision => Precision::MorePrecision(both),
            RoundingPriority::LessPrecision => Precision::LessPrecision(both),
            RoundingPriority::Auto if self.needs_significant() => Precision::Significant(
                both.significant,
            ),
            RoundingPriority::Auto if self.needs_fraction(defaults) => Precision::Fraction(digits),
            RoundingPriority::Auto => Precision::MorePrecision(both),
        })
    }

    /// Returns the options that the numbers name: `SetNumberFormatDigitOptions` of ECMA-402.
    ///
    /// # Errors
    ///
    /// The first that applies:
    ///
    /// - `IntegerDigits`: the number of integer digits is not from 1 to 21.
    /// - `Increment`: the increment is none of the fifteen.
    /// - `SignificantDigits`: significant digits apply, and are out of 1 to 21, or the least is above the greatest.
    /// - `FractionDigits`: fraction digits apply, and are above 100, or the least is above the greatest.
    /// - `IncrementPrecision`: with an increment not only fraction digits apply.
    /// - `IncrementDigits`: with an increment the two numbers of fraction digits differ.
    pub fn resolve(&self, defaults: &DigitDefaults) -> Result<DigitOptions, DigitOptionsError>
        ensures ok { IfOk result (λ o. IsResolved self.now defaults.now o) }
        ensures error { MatchResult result (λ o. resolve_error self.now defaults.now ≡ None)
            (λ e. resolve_error self.now defaults.now ≡ Some e) }
    {
        let min = self.minimum_integer_digits.unwrap_or(1);
        if min == 0 || min > 21 {
            return Err(DigitOptionsError::IntegerDigits);
        }
        let increment = Increment::new(self.rounding_increment)?;
        let significant = self.significant()?;
        let fraction = self.fraction(defaults)?;
        let both = BothDigits {
            fraction,
            significant,
            minimum: Minimum::Chosen,
        };
        Ok(DigitOptions {
            integer: IntegerDigits { min, max: 32768 },
            precision: self.precision(defaults, both, increment)?,
            mode: self.rounding_mode,
            trailing_zeros: self.trailing_zeros,
        })
    }
}
