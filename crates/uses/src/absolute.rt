//! Changes of the absolute value of a decimal, through `DerefMut`.
ghost use Rattle.std.specs.Prelude.{◌≡◌, negsuc, None, Some, option_map, IfOk, IfErr};
ghost use Rattle.decimal_unsigned.specs.{Edits.{multiplied_pow10, trimmed_end}, Rounded.UpdatesInPlace};
ghost use Rattle.fixed_decimal.specs.Decimal.{with_absolute};

use fixed_decimal::{Decimal, DigitStore, LimitError, Sign, Signed, UnsignedDecimal, UnsignedOver};

/// Divides by 100 and trims the zeros at the end, over any store. Err: beyond the limits, and the value is unchanged.
pub fn divide_by_hundred<D: DigitStore>(
    value: &mut Signed<UnsignedOver<D>>,
) -> Result<(), LimitError>
    ensures { UpdatesInPlace (λ made. with_absolute value.old
        (option_map trimmed_end (multiplied_pow10 value.old.absolute (negsuc 1))) ≡ made) value.old value.new result }
{
    value.multiply_pow10(-2)?;
    value.trim_end();
    Ok(())
}

/// Returns a hundredth, by a reference to the absolute value. Err: beyond the limits.
pub fn hundredth(mut value: Decimal) -> Result<Decimal, LimitError>
    ensures ok { IfOk result (λ v. with_absolute value (multiplied_pow10 value.absolute (negsuc 1)) ≡ Some v) }
    ensures limit { IfErr result (λ _. multiplied_pow10 value.absolute (negsuc 1) ≡ None) }
{
    let inside: &mut UnsignedDecimal = &mut *value;
    inside.multiply_pow10(-2)?;
    Ok(value)
}

/// Replaces the absolute value, of any type, and keeps the sign.
pub fn replace<T: Drop>(value: &mut Signed<T>, next: T)
    ensures { value.new ≡ record value.old { absolute = next } }
{
    **value = next;
}

/// Returns a hundredth with a minus sign. Err: beyond the limits.
pub fn negative_hundredth(mut value: Decimal) -> Result<Decimal, LimitError>
    ensures ok { IfOk result (λ v. with_absolute (record value { sign = Sign.Negative })
        (multiplied_pow10 value.absolute (negsuc 1)) ≡ Some v) }
    ensures limit { IfErr result (λ _. multiplied_pow10 value.absolute (negsuc 1) ≡ None) }
{
    value.set_sign(Sign::Negative);
    value.multiply_pow10(-2)?;
    Ok(value)
}
