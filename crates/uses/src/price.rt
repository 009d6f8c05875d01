//! A percentage of an amount, printed.
ghost use Rattle.std.specs.{Prelude.{◌≡◌, ◌<◌, ◌*◌, Err, OnOk, OnErr, IsSomeAnd, codes, true}, Io.KnownBytes.Appends};
ghost use Rattle.decimal_digits.specs.{Number.size, AppendsPrefix.AppendsPrefix};
ghost use Rattle.decimal_unsigned.specs.{Text.text, Unsigned.integer_value};
ghost use Rattle.uses.specs.Price.{price};

use fixed_decimal::{INLINE_DIGITS, Sink, SinkFault, UnsignedDecimal, Writeable};
use std::alloc::Global;

/// The error of a price that is not printed.
#[derive(Debug, Drop, PartialEq)]
pub enum PriceError {
    /// Out of memory for the digits. Nothing was printed.
    Memory,
    /// The sink failed, now or before, and has a prefix of the price.
    Sink,
}

/// Prints `percent` percent of a number of cents, rounded half-even to a cent.
///
/// 1250 cents at 5 percent print `0.62`. Err: `Memory` only if the product of cents and percent has more than
/// `INLINE_DIGITS` digits from the first to the last nonzero one; `Sink` if the sink failed. No price exceeds the
/// limits of a decimal: the product of 64 bits of cents and 32 bits of percent has at most 29 digits.
pub fn write_price<W: Sink>(
    alloc: Global,
    cents: u64,
    percent: u32,
    sink: &mut W,
) -> Result<(), PriceError>
    ensures written { OnOk result (IsSomeAnd (price cents percent)
        (λ value. Appends (W.contents sink.old) (W.contents sink.new) (text value))) }
    ensures memory { result ≡ Err PriceError.Memory
        → INLINE_DIGITS < size (integer_value (cents * percent)).number }
    ensures unchanged_on_error { result ≡ Err PriceError.Memory → sink.new ≡ sink.old }
    ensures prefix { result ≡ Err PriceError.Sink
        → IsSomeAnd (price cents percent)
        (λ value. AppendsPrefix (W.contents sink.old) (W.contents sink.new) (text value)) }
    ensures failed { result ≡ Err PriceError.Sink → W.has_failed sink.new ≡ true }
{
    let product = cents as u128 * percent as u128;
    let Ok(mut value) = UnsignedDecimal::try_from_u128(alloc, product) else {
        return Err(PriceError::Memory);
    };
    // At most 29 digits are within the limits.
    value.multiply_pow10(-4).unwrap();
    value.round(-2).unwrap();
    match value.write_to(sink) {
        Ok(()) => Ok(()),
        Err(_) => Err(PriceError::Sink),
    }
}

/// Prints the fee for shipping, `4.90`.
///
/// Err: the sink failed, and has a prefix of the text.
pub fn write_shipping_fee<W: Sink>(alloc: Global, sink: &mut W) -> Result<(), SinkFault>
    ensures written { OnOk result (Appends (W.contents sink.old) (W.contents sink.new) (codes "4.90")) }
    ensures prefix { OnErr result (AppendsPrefix (W.contents sink.old) (W.contents sink.new) (codes "4.90")) }
    ensures failed { OnErr result (W.has_failed sink.new ≡ true) }
{
    let mut fee = UnsignedDecimal::from_u16(alloc, 490);
    // Three digits are within the limits.
    fee.multiply_pow10(-2).unwrap();
    fee.write_to(sink)
}
