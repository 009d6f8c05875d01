//! An exponent as it is shown.
ghost use Rattle.std.specs.Prelude.{◌≡◌, ◌⊎◌, ◌<ℤ◌, ◌-ℤ◌, pos, negsuc, None, IfSome, IfNone};
ghost use Rattle.locale_data.specs.Plurals.{IsCategoryAt, rules_text_at};
ghost use Rattle.number_format.specs.NumberText.{exponent_sign, exponent_kind, exponent_operand, operands_with, shown_exponent};

use crate::format::text_part::PartKind;
use crate::options::{ExponentOptions, ExponentSign};
use fixed_decimal::{Decimal, DigitStore, Sign, UnsignedDecimal, UnsignedOver};
use locale_data::{PluralRulesId, plural_category_at};
use plural_rules::{PluralCategory, PluralOperands};
use std::alloc::Global;

fn exponent_sign(sign: ExponentSign, exponent: i32) -> Sign
    ensures { result ≡ exponent_sign sign exponent }
{
    match sign {
        ExponentSign::Never => Sign::None,
        _ if exponent < 0 => Sign::Negative,
        ExponentSign::Auto => Sign::None,
        ExponentSign::Always => Sign::Positive,
    }
}

pub(crate) fn shown_exponent(alloc: Global, options: ExponentOptions, exponent: i32) -> Decimal
    ensures { result ≡ shown_exponent options exponent }
{
    let mut absolute = UnsignedDecimal::try_from_u32(alloc, exponent.unsigned_abs()).unwrap();
    absolute.pad_start(options.digits.min(32767) as i16);
    Decimal::new(exponent_sign(options.sign, exponent), absolute)
}

pub(crate) fn exponent_kind(sign: Sign) -> PartKind
    ensures { result ≡ exponent_kind sign }
{
    match sign {
        Sign::Positive => PartKind::ExponentPlusSign,
        _ => PartKind::ExponentMinusSign,
    }
}

/// Returns the operand c of an exponent, which plural rules compare.
fn exponent_operand(exponent: i32) -> u8
    ensures { result ≡ exponent_operand exponent }
{
    if exponent < 0 {
        255
    } else {
        exponent.min(255) as u8
    }
}

/// Returns the power of ten by which a significand is multiplied, so that its exponent becomes the operand; `None`
/// beyond 16 bits.
fn exponent_shift(exponent: i32) -> Option<i16>
    ensures some { IfSome result (λ shift. shift ≡ exponent -ℤ pos (exponent_operand exponent)) }
    ensures none { IfNone result (((exponent -ℤ pos (exponent_operand exponent)) <ℤ negsuc 32767)
        ⊎ (pos 32767 <ℤ (exponent -ℤ pos (exponent_operand exponent)))) }
{
    let shift = exponent as i64 - exponent_operand(exponent) as i64;
    if shift < -32768 || shift > 32767 {
        None
    } else {
        Some(shift as i16)
    }
}

/// Returns the plural category of a significand with an exponent; `None` if the rules are not listed.
pub(crate) fn category_with<D: DigitStore>(
    rules: PluralRulesId,
    significand: &mut UnsignedOver<D>,
    exponent: i32,
) -> Option<PluralCategory>
    ensures some { IfSome result (IsCategoryAt rules (operands_with significand.old exponent)) }
    ensures none { IfNone result (rules_text_at rules ≡ None) }
{
    // Proof hint: the value satisfies its invariant.
    let _range = significand.magnitude_range();
    let Some(shift) = exponent_shift(exponent) else {
        return plural_category_at(rules, &PluralOperands::of(significand));
    };
    match significand.multiply_pow10(shift) {
        Ok(()) => {
            let power = exponent_operand(exponent);
            plural_category_at(rules, &PluralOperands::of_scaled(significand, power))
        }
        Err(_) => plural_category_at(rules, &PluralOperands::of(significand)),
    }
}
