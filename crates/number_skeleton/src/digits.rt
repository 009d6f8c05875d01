//! The digits that the choices of a skeleton show, by ICU's defaults.
ghost use Rattle.std.specs.Prelude.{◌≡◌, ◌≤◌, pos, negsuc, ◌≤ℤ◌, Ok, Err, MatchResult};
ghost use Rattle.number_format.specs.ShownDigits.{increment_of};
ghost use Rattle.number_skeleton.specs.Digits.{digits_of_code, currency_digits_of, fraction_of, significant_of, fraction_digits, unit_of, multiples_of, increment_of_decimal, money_precision, both_of, currency_of, chosen_precision, precision_of, precision_value, integer_of, mode_of, digits_of, digits_value};

use crate::choices::{Choices, ChosenPrecision, ChosenUnit, Span, TwoCounts};
use crate::counts::Counts;
use crate::decimal::Decimal;
use crate::error::SkeletonError;
use fixed_decimal::{SignedRoundingMode, UnsignedRoundingMode};
use locale_data::{CurrencyCode, CurrencyDigits, UNLISTED_DIGITS, currency_digits};
use number_format::{
    BothDigits, CurrencyUsage, DigitOptions, FractionDigits, FractionMultiples, Increment,
    IntegerDigits, Minimum, Precision, RoundingPriority, SignificantDigits, TrailingZeros,
};

fn digits_of_code(bytes: [u8; 3]) -> CurrencyDigits
    ensures { result ≡ digits_of_code bytes }
{
    match CurrencyCode::try_from_utf8(&bytes) {
        Ok(code) => currency_digits(code),
        Err(_) => UNLISTED_DIGITS,
    }
}

fn fraction(counts: Counts, stem: Span) -> Result<FractionDigits, SkeletonError>
    ensures { MatchResult result (λ f. fraction_of counts stem ≡ Ok (f.min, f.max))
        (λ e. fraction_of counts stem ≡ Err e) }
{
    let min = counts.min.min(65535) as u16;
    let max = counts.max.unwrap_or(65535).min(65535) as u16;
    match FractionDigits::new(min, max) {
        Ok(fraction) => Ok(fraction),
        Err(_) => Err(stem.unsupported()),
    }
}

fn significant(counts: Counts, stem: Span) -> Result<SignificantDigits, SkeletonError>
    ensures { MatchResult result (λ s. significant_of counts stem ≡ Ok (s.min, s.max))
        (λ e. significant_of counts stem ≡ Err e) }
{
    let min = counts.min.min(65537) as u32;
    let max = counts.max.unwrap_or(65536).min(65536) as u32;
    match SignificantDigits::new(min, max) {
        Ok(significant) => Ok(significant),
        Err(_) => Err(stem.unsupported()),
    }
}

/// Returns the number of fraction digits of an increment as it is written.
fn fraction_digits(power: i128, after_point: Option<usize>) -> u16
    requires { negsuc 32767 ≤ℤ power }
    ensures { result ≡ fraction_digits power after_point }
{
    match after_point {
        Some(bytes) => bytes.min(65535) as u16,
        None if power < 0 => (-power) as u16,
        None => 0,
    }
}

/// Returns 10 to the power of the zeros of an increment, or 0 if it has none of the increments.
fn unit_of(power: i128, fraction: u16) -> u16
    requires at_least { negsuc 32767 ≤ℤ power }
    requires at_most { power ≤ℤ pos 3 }
    ensures value { result ≡ unit_of power fraction }
    ensures at_most { result ≤ 1000 }
{
    match power + fraction as i128 {
        0 => 1,
        1 => 10,
        2 => 100,
        3 => 1000,
        _ => 0,
    }
}

fn multiples_of(digits: u16, increment: u16, stem: Span) -> Result<FractionMultiples, SkeletonError>
    ensures { MatchResult result (λ m. multiples_of digits increment stem ≡ Ok (m.digits, increment_of m.increment))
        (λ e. multiples_of digits increment stem ≡ Err e) }
{
    match Increment::new(increment) {
        Ok(increment) => match FractionMultiples::new(digits, increment) {
            Ok(multiples) => Ok(multiples),
            Err(_) => Err(stem.unsupported()),
        },
        Err(_) => Err(stem.unsupported()),
    }
}

fn increment(decimal: Decimal, stem: Span) -> Result<FractionMultiples, SkeletonError>
    ensures { MatchResult result (λ m. increment_of_decimal decimal stem ≡ Ok (m.digits, increment_of m.increment))
        (λ e. increment_of_decimal decimal stem ≡ Err e) }
{
    if decimal.is_negative || decimal.digits > 25 || decimal.power < -32768 || decimal.power > 3 {
        return Err(stem.unsupported());
    }
    let digits = fraction_digits(decimal.power, decimal.after_point);
    multiples_of(
        digits,
        decimal.digits * unit_of(decimal.power, digits),
        stem,
    )
}

/// Returns a number of fraction digits and an increment, 0 for none, without a zero at the end of the increment.
pub(crate) fn money_precision(digits: (u8, u8), stem: Span) -> Result<Precision, SkeletonError>
    ensures { MatchResult result (λ p. money_precision digits stem ≡ Ok (precision_value p))
        (λ e. money_precision digits stem ≡ Err e) }
{
    let (count, increment) = (digits.0 as u16, digits.1 as u16);
    if increment == 0 {
        return Ok(Precision::Fraction(FractionDigits {
            min: count,
            max: count,
        }));
    }
    if increment % 10 == 0 && count > 0 {
        return Ok(Precision::Multiples(multiples_of(count - 1, increment / 10, stem)?));
    }
    Ok(Precision::Multiples(multiples_of(count, increment, stem)?))
}

fn both(both: TwoCounts, stem: Span) -> Result<Precision, SkeletonError>
    ensures { MatchResult result (λ p. both_of both stem ≡ Ok (precision_value p)) (λ e. both_of both stem ≡ Err e) }
{
    let digits = BothDigits {
        fraction: fraction(both.fraction, stem)?,
        significant: significant(both.significant, stem)?,
        minimum: both.minimum,
    };
    match both.priority {
        RoundingPriority::LessPrecision => Ok(Precision::LessPrecision(digits)),
        _ => Ok(Precision::MorePrecision(digits)),
    }
}

impl Choices {
    fn rounding_mode(&self) -> Result<SignedRoundingMode, SkeletonError>
        ensures { result ≡ mode_of self.now.mode }
    {
        match self.mode {
            Some((Some(mode), _)) => Ok(mode),
            Some((None, stem)) => Err(stem.unsupported()),
            None => Ok(SignedRoundingMode::Unsigned(UnsignedRoundingMode::HalfEven)),
        }
    }

    fn integer_digits(&self) -> Result<IntegerDigits, SkeletonError>
        ensures { MatchResult result (λ i. integer_of self.now.integer ≡ Ok (i.min, i.max))
            (λ e. integer_of self.now.integer ≡ Err e) }
    {
        let Some((counts, stem)) = self.integer else {
            return Ok(IntegerDigits { min: 1, max: 32768 });
        };
        let min = counts.min.min(65535) as u16;
        let max = counts.max.unwrap_or(32768).min(32768) as u16;
        match IntegerDigits::new(min, max) {
            Ok(digits) => Ok(digits),
            Err(_) => Err(stem.unsupported()),
        }
    }

    fn currency_digits(&self) -> CurrencyDigits
        ensures { result ≡ currency_digits_of self.now.unit }
    {
        match self.unit {
            Some((ChosenUnit::Currency(bytes), _)) => digits_of_code(bytes),
            _ => UNLISTED_DIGITS,
        }
    }

    fn currency_precision(
        &self,
        usage: CurrencyUsage,
        stem: Span,
    ) -> Result<Precision, SkeletonError>
        ensures { MatchResult result (λ p. currency_of self.now.unit usage stem ≡ Ok (precision_value p))
            (λ e. currency_of self.now.unit usage stem ≡ Err e) }
    {
        money_precision(usage.digits(self.currency_digits()), stem)
    }

    fn chosen_precision(
        &self,
        precision: ChosenPrecision,
        stem: Span,
    ) -> Result<Precision, SkeletonError>
        ensures { MatchResult result (λ p. chosen_precision self.now.unit precision stem ≡ Ok (precision_value p))
            (λ e. chosen_precision self.now.unit precision stem ≡ Err e) }
    {
        match precision {
            ChosenPrecision::Unlimited => Ok(Precision::Fraction(FractionDigits {
                min: 0,
                max: 65535,
            })),
            ChosenPrecision::Fraction(counts) => Ok(Precision::Fraction(fraction(counts, stem)?)),
            ChosenPrecision::Significant(counts) => Ok(Precision::Significant(significant(
                counts, stem,
            )?)),
            ChosenPrecision::Both(counts) => both(counts, stem),
            ChosenPrecision::Currency(usage) => self.currency_precision(usage, stem),
            ChosenPrecision::Increment(decimal) => Ok(Precision::Multiples(increment(
                decimal, stem,
            )?)),
        }
    }

    /// Returns the precision: without a stem two significant digits or the integer digits in compact notation, the
    /// digits of a currency, and else six fraction digits.
    #[tactic(auto, unfolding(crate::specs::Digits::precision_of))]
    fn number_precision(&self) -> Result<Precision, SkeletonError>
        ensures { MatchResult result (λ p. precision_of self.now ≡ Ok (precision_value p))
            (λ e. precision_of self.now ≡ Err e) }
    {
        match (self.precision, self.unit) {
            (Some((precision, stem)), _) => self.chosen_precision(precision, stem),
            (None, _) if self.is_compact() => Ok(Precision::MorePrecision(BothDigits {
                fraction: FractionDigits { min: 0, max: 0 },
                significant: SignificantDigits { min: 1, max: 2 },
                minimum: Minimum::Chosen,
            })),
            (None, Some((ChosenUnit::Currency(_), stem))) => {
                self.currency_precision(CurrencyUsage::Standard, stem)
            }
            _ => Ok(Precision::Fraction(FractionDigits { min: 0, max: 6 })),
        }
    }

    /// Returns the digits that are shown.
    #[tactic(auto, unfolding(crate::specs::Digits::digits_of))]
    pub(crate) fn digit_options(&self) -> Result<DigitOptions, SkeletonError>
        ensures { MatchResult result (λ d. digits_of self.now ≡ Ok (digits_value d)) (λ e. digits_of self.now ≡ Err e) }
    {
        Ok(DigitOptions {
            integer: self.integer_digits()?,
            precision: self.number_precision()?,
            mode: self.rounding_mode()?,
            trailing_zeros: if self.strips_if_integer {
                TrailingZeros::StripIfInteger
            } else {
                TrailingZeros::Auto
            },
        })
    }
}
