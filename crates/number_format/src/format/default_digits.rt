//! The digits that are shown where the options give none.
ghost use Rattle.std.specs.Prelude.{◌≡◌, ℕ, true};
ghost use Rattle.number_format.specs.{DefaultDigits.{AreDefaultDigits, IsDefaultPrecision}, Increments.is_increment};

use crate::digits::options::{DigitOptions, TrailingZeros};
use crate::digits::precision::{BothDigits, Minimum, Precision};
use crate::digits::ranges::{
    FractionDigits, FractionMultiples, Increment, IntegerDigits, SignificantDigits,
};
use crate::digits::settings::DigitDefaults;
use crate::options::NumberOptions;
use fixed_decimal::{SignedRoundingMode, UnsignedRoundingMode};
use locale_data::CurrencyDigits;

#[inline(always)]
fn compact_precision() -> Precision
    ensures { (n : ℕ) (d : DigitDefaults) → d.is_compact ≡ true → IsDefaultPrecision n d result }
{
    Precision::MorePrecision(BothDigits {
        fraction: FractionDigits { min: 0, max: 0 },
        significant: SignificantDigits { min: 1, max: 2 },
        minimum: Minimum::Chosen,
    })
}

#[inline(always)]
fn default_precision(defaults: &DigitDefaults, increment: u16) -> Precision
    requires valid { is_increment increment ≡ true }
    requires compact { defaults.now.is_compact ≡ true → increment ≡ 1 }
    ensures { IsDefaultPrecision increment defaults.now result }
{
    if defaults.is_compact {
        return compact_precision();
    }
    if increment == 1 {
        return Precision::Fraction(defaults.fraction);
    }
    match Increment::new(increment) {
        Ok(increment) => Precision::Multiples(FractionMultiples {
            digits: defaults.fraction.min,
            increment,
        }),
        Err(_) => unreachable!(),
    }
}

/// Returns the digits that are shown where the options give none, by those of the currency.
///
/// They are those that `DigitSettings::resolve` makes of no settings, and are made in less time.
#[inline(always)]
pub(crate) fn default_digits(
    options: &NumberOptions,
    currency: CurrencyDigits,
) -> Option<DigitOptions>
    ensures { AreDefaultDigits currency options.now result }
{
    if options.shows_all_digits() {
        return None;
    }
    let defaults = options.digit_defaults_by(currency);
    Some(DigitOptions {
        integer: IntegerDigits { min: 1, max: 32768 },
        precision: default_precision(&defaults, options.increment_by(currency)),
        mode: SignedRoundingMode::Unsigned(UnsignedRoundingMode::HalfExpand),
        trailing_zeros: TrailingZeros::Auto,
    })
}
