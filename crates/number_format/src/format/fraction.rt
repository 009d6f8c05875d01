//! Numbers that begin with the decimal separator: `.5`.
ghost use Rattle.std.specs.{Prelude.{◌≡◌, ◌↔◌, ◌<◌, ◌≤◌, ◌-ℤ◌, ℕ, pos, length, true, IsTrue, OnOk, OnErr}, Fmt.WritesStyledOnOk, Io.KnownBytes.Appends};
ghost use Rattle.decimal_digits.specs.AppendsPrefix.{AppendsPrefix};
ghost use Rattle.decimal_format.specs.Formatted.{shown_count};
ghost use Rattle.number_format.specs.{FormattedNumbers.{visible_text, fraction_magnitude}, NumberText.{has_no_integer, hides_zero, is_always, is_significant_zero, needs_no_integer}, TextParts.digit_if};

use crate::digits::options::DigitOptions;
use crate::digits::precision::Precision;
use crate::format::parts::is_shown;
use crate::options::DecimalSeparatorDisplay;
use decimal_format::FormattedAbsolute;
use fixed_decimal::{DecimalStore, Sink, SinkFault, UnsignedDecimal, Writeable};
use std::fmt;

/// Returns whether no integer digit has to be shown.
#[inline(always)]
pub(crate) fn needs_no_integer(digits: &Option<DigitOptions>) -> bool
    ensures { result ≡ needs_no_integer digits.now }
{
    match digits {
        Some(digits) => digits.integer.min == 0,
        None => false,
    }
}

fn has_no_integer(value: &UnsignedDecimal) -> bool
    ensures { result ≡ has_no_integer value.now }
{
    value.highest() == 0 && value.digit_at(0) == 0
}

fn is_significant_zero(digits: &Option<DigitOptions>, is_zero: bool) -> bool
    ensures { (n : ℕ) → (IsTrue is_zero ↔ (n ≡ 0)) → result ≡ is_significant_zero digits.now n }
{
    match digits {
        Some(digits) => is_zero && matches!(digits.precision, Precision::Significant(_)),
        None => false,
    }
}

fn is_always(display: DecimalSeparatorDisplay) -> bool
    ensures { result ≡ is_always display }
{
    matches!(display, DecimalSeparatorDisplay::Always)
}

/// Returns whether a value is written without its integer digit, a zero.
#[inline(always)]
pub(crate) fn hides_zero(
    digits: &Option<DigitOptions>,
    display: DecimalSeparatorDisplay,
    value: &UnsignedDecimal,
) -> bool
    ensures { result ≡ hides_zero digits.now display value.now }
{
    needs_no_integer(digits)
        && has_no_integer(value)
        && (value.lowest() < 0 || is_always(display))
        && !is_significant_zero(digits, value.is_zero())
}

fn write_digit<W: Sink>(
    digits: &FormattedAbsolute<'_, DecimalStore>,
    below: u32,
    sink: &mut W,
) -> Result<(), SinkFault>
    requires { below < shown_count digits.now.value }
    ensures ok { OnOk result (Appends (W.contents sink.old) (W.contents sink.new)
        (digit_if true digits.now.symbols digits.now.value.number (digits.now.value.hi -ℤ pos below))) }
    ensures err { OnErr result (AppendsPrefix (W.contents sink.old) (W.contents sink.new)
        (digit_if true digits.now.symbols digits.now.value.number (digits.now.value.hi -ℤ pos below))) }
    ensures failed { OnErr result (W.has_failed sink.new ≡ true) }
{
    if !is_shown(true, digits.magnitude(below)) {
        return Ok(());
    }
    let mut buffer = [0; 4];
    let digit = digits.digit(below).encode_utf8(&mut buffer);
    sink.put_bytes(digit.as_bytes())
}

fn write_magnitude<W: Sink>(
    digits: &FormattedAbsolute<'_, DecimalStore>,
    below: u32,
    sink: &mut W,
) -> Result<(), SinkFault>
    requires { below < shown_count digits.now.value }
    ensures ok { OnOk result (Appends (W.contents sink.old) (W.contents sink.new)
        (fraction_magnitude digits.now.symbols digits.now.strategy digits.now.value
        (digits.now.value.hi -ℤ pos below))) }
    ensures err { OnErr result (AppendsPrefix (W.contents sink.old) (W.contents sink.new)
        (fraction_magnitude digits.now.symbols digits.now.strategy digits.now.value
        (digits.now.value.hi -ℤ pos below))) }
    ensures failed { OnErr result (W.has_failed sink.new ≡ true) }
{
    sink.put_bytes(digits.separator_before(below).as_bytes())?;
    write_digit(digits, below, sink)?;
    sink.put_bytes(digits.separator_after(below).as_bytes())
}

/// Appends the text without the integer digits.
pub(crate) fn write_fraction<W: Sink>(
    digits: &FormattedAbsolute<'_, DecimalStore>,
    sink: &mut W,
) -> Result<(), SinkFault>
    ensures ok { OnOk result (Appends (W.contents sink.old) (W.contents sink.new)
        (visible_text true digits.now.symbols digits.now.strategy digits.now.value)) }
    ensures err { OnErr result (AppendsPrefix (W.contents sink.old) (W.contents sink.new)
        (visible_text true digits.now.symbols digits.now.strategy digits.now.value)) }
    ensures failed { OnErr result (W.has_failed sink.new ≡ true) }
{
    for below in 0..digits.shown_count() {
        write_magnitude(digits, below, sink)?;
    }
    Ok(())
}

fn fmt_digit<W: fmt::Write>(
    digits: &FormattedAbsolute<'_, DecimalStore>,
    below: u32,
    f: &mut fmt::Formatter<W>,
) -> fmt::Result
    requires { below < shown_count digits.now.value }
    ensures { WritesStyledOnOk W.write_str_gives f.old result
        (digit_if true digits.now.symbols digits.now.value.number (digits.now.value.hi -ℤ pos below)) f.new }
{
    if !is_shown(true, digits.magnitude(below)) {
        return Ok(());
    }
    let mut buffer = [0; 4];
    let digit = digits.digit(below).encode_utf8(&mut buffer);
    f.write_str(digit)
}

fn fmt_magnitude<W: fmt::Write>(
    digits: &FormattedAbsolute<'_, DecimalStore>,
    below: u32,
    f: &mut fmt::Formatter<W>,
) -> fmt::Result
    requires { below < shown_count digits.now.value }
    ensures { WritesStyledOnOk W.write_str_gives f.old result (fraction_magnitude digits.now.symbols
        digits.now.strategy digits.now.value (digits.now.value.hi -ℤ pos below)) f.new }
{
    f.write_str(digits.separator_before(below))?;
    fmt_digit(digits, below, f)?;
    f.write_str(digits.separator_after(below))
}

/// Writes the text without the integer digits.
pub(crate) fn fmt_fraction<W: fmt::Write>(
    digits: &FormattedAbsolute<'_, DecimalStore>,
    f: &mut fmt::Formatter<W>,
) -> fmt::Result
    ensures { WritesStyledOnOk W.write_str_gives f.old result
        (visible_text true digits.now.symbols digits.now.strategy digits.now.value) f.new }
{
    for below in 0..digits.shown_count() {
        fmt_magnitude(digits, below, f)?;
    }
    Ok(())
}

/// Returns the number of bytes of the text without the integer digit.
pub(crate) fn fraction_length(digits: &FormattedAbsolute<'_, DecimalStore>) -> usize
    requires { digits.now.value.hi ≡ pos 0 }
    ensures value { result ≡ length (visible_text true digits.now.symbols digits.now.strategy digits.now.value) }
    ensures at_most { result ≤ 8618239 }
{
    let mut buffer = [0; 4];
    let zero = digits.digit(0).encode_utf8(&mut buffer);
    digits.writeable_length_hint() - zero.len()
}
