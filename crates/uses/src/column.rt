//! A column of amounts, parsed and written in normal form.
ghost use Rattle.std.specs.{Prelude.{◌≡◌, Err, OnOk, IfErr, IsOkAnd, true}, Io.KnownBytes.Appends};
ghost use Rattle.decimal_digits.specs.AppendsPrefix.{AppendsPrefix};
ghost use Rattle.decimal_unsigned.specs.Reading.{read};
ghost use Rattle.uses.specs.Column.{normal_form, column_text, HasUniqueForm, AmountFails, Stops};

use fixed_decimal::{ParseError, Sink, UnsignedDecimal, Writeable};
use std::alloc::Global;

/// The error of an amount that is not written.
#[derive(Debug, Drop, PartialEq)]
pub enum ColumnError {
    /// The text cannot be parsed. Nothing of it was written.
    Amount(ParseError),
    /// The sink failed, now or before, and has a prefix of the text.
    Sink,
}

/// Writes an amount in normal form, without leading zeros and trailing zeros of the fraction: `007.50` as `7.5`.
///
/// Two amounts are the same number exactly if they have the same normal form. Errors: see `ColumnError`.
pub fn write_normal_form<W: Sink>(
    alloc: Global,
    amount: &str,
    sink: &mut W,
) -> Result<(), ColumnError>
    ensures written { OnOk result (IsOkAnd (normal_form amount.now)
        (Appends (W.contents sink.old) (W.contents sink.new))) }
    ensures reported { OnOk result (IsOkAnd (read amount.now) HasUniqueForm) }
    ensures fails_with { IfErr result (λ e. AmountFails e amount.now) }
    ensures unchanged_on_error { IfErr result (λ e. (e ≡ ColumnError.Sink → ⊥) → sink.new ≡ sink.old) }
    ensures prefix { result ≡ Err ColumnError.Sink → IsOkAnd (normal_form amount.now)
        (AppendsPrefix (W.contents sink.old) (W.contents sink.new)) }
    ensures failed { result ≡ Err ColumnError.Sink → W.has_failed sink.new ≡ true }
{
    let mut value = match UnsignedDecimal::try_from_str(alloc, amount) {
        Ok(value) => value,
        Err(fault) => return Err(ColumnError::Amount(fault)),
    };
    value.trim_start();
    value.trim_end();
    match value.write_to(sink) {
        Ok(()) => Ok(()),
        Err(_) => Err(ColumnError::Sink),
    }
}

/// Writes amounts in normal form, a line each, up to the first that is rejected.
///
/// `007.50` and `1e2` are written as `7.5` and `100`. Err: the first amount is rejected, and the lines before it were
/// written; or the sink failed, and has a prefix of the lines.
pub fn write_column<W: Sink>(
    alloc: Global,
    amounts: &[&str],
    sink: &mut W,
) -> Result<(), ColumnError>
    ensures written { OnOk result (IsOkAnd (column_text amounts.now)
        (Appends (W.contents sink.old) (W.contents sink.new))) }
    ensures stops { IfErr result (Stops amounts.now (W.contents sink.old) (W.contents sink.new)) }
    ensures failed { result ≡ Err ColumnError.Sink → W.has_failed sink.new ≡ true }
{
    for amount in amounts {
        write_normal_form(alloc, amount, sink)?;
        let Ok(()) = sink.put_byte(b'\n') else {
            return Err(ColumnError::Sink);
        };
    }
    Ok(())
}
