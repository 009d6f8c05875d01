//! A measured value with a limited number of fraction digits.
ghost use Rattle.std.specs.Prelude.{◌≡◌, pos, neg_ℤ, ◌<ℤ◌, int_lt, IsOk, OnOk};
ghost use Rattle.decimal_unsigned.specs.Rounded.{UpdatesInPlace};
ghost use Rattle.uses.specs.Measurement.{shortened, IsNear};

use fixed_decimal::{Decimal, LimitError};

fn position_of(decimals: u8) -> i16
    ensures { result ≡ neg_ℤ (pos decimals) }
{
    -(decimals as i16)
}

fn shows_more(value: &Decimal, position: i16) -> bool
    ensures { result ≡ int_lt value.now.absolute.lo position }
{
    value.lowest() < position
}

/// Rounds a measured value half-even to at most `decimals` fraction digits.
///
/// With two, `-0.125` becomes `-0.12`, and `0.5` and `0.50` are unchanged. Err: the rounded number is 10^32768 or more,
/// which is possible only if the value shows a digit at magnitude 32767; the value is unchanged.
pub fn limit_decimals(value: &mut Decimal, decimals: u8) -> Result<(), LimitError>
    ensures rounds { UpdatesInPlace
        (λ made. shortened value.old (neg_ℤ (pos decimals)) ≡ made) value.old value.new result }
    ensures near { OnOk result (IsNear value.old (neg_ℤ (pos decimals)) value.new) }
    ensures fits { value.old.absolute.hi <ℤ pos 32767 → IsOk result }
{
    let position = position_of(decimals);
    if shows_more(value, position) {
        return value.round(position);
    }
    Ok(())
}
