//! Writing of ranges of two decimals in the form of a locale.
ghost use Rattle.std.specs.{Prelude.{◌≡◌, ◌≢◌, Err, true, IfOk, IfErr, OnOk}, Io.KnownBytes.Appends};
ghost use Rattle.decimal_digits.specs.AppendsPrefix.{AppendsPrefix};
ghost use Rattle.number_format.specs.FormattedRanges.{formatted_range_text};
ghost use Rattle.conversions.specs.RangeText.{shown_signs, formatter_by, system_of, FormattingFails, HasRangeTextBy, IsRangeTextBy, RangeWritingFails};

use crate::error::OperationError;
use crate::locale_formatter::write_text;
use fixed_decimal::{Decimal, RoundError, Sign, SignDisplay, Sink};
use number_format::{FormattedRange, NumberFormatter, NumberingSystem, RangeTexts};
use std::alloc::Global;

/// Formatters of a locale that show all digits, by which signs they show.
#[derive(Drop)]
pub struct SignedFormatters {
    /// Minus signs.
    pub auto: NumberFormatter,
    /// A sign of each number.
    pub always: NumberFormatter,
    /// A sign of each number but zero.
    pub except_zero: NumberFormatter,
}

/// How the numbers of a range are written.
#[derive(Drop)]
pub enum RangeNumbers {
    /// With all digits, and with the signs that the decimals have.
    AllDigits(SignedFormatters),
    /// As a number skeleton has them.
    Skeleton(NumberFormatter),
}

/// Writes ranges of decimals in the form of a locale.
#[derive(Drop)]
pub struct RangeFormatter<'a> {
    /// How the numbers are written.
    pub numbers: RangeNumbers,
    /// What the locale writes of ranges.
    pub texts: RangeTexts<'a>,
}

/// Returns how the signs of two numbers are shown as they are. If one has a plus sign and the other one no sign, each
/// number but zero has a sign.
fn shown_signs(start: Sign, end: Sign) -> SignDisplay
    ensures { result ≡ shown_signs start end }
{
    match (start, end) {
        (Sign::Positive, Sign::None) | (Sign::None, Sign::Positive) => SignDisplay::ExceptZero,
        (Sign::None, _) | (_, Sign::None) => SignDisplay::Auto,
        _ => SignDisplay::Always,
    }
}

impl RangeNumbers {
    fn formatter_by(&self, start: Sign, end: Sign) -> &NumberFormatter
        ensures { result.now ≡ formatter_by self.now start end }
    {
        match self {
            RangeNumbers::Skeleton(formatter) => formatter,
            RangeNumbers::AllDigits(formatters) => match shown_signs(start, end) {
                SignDisplay::Always => &formatters.always,
                SignDisplay::ExceptZero => &formatters.except_zero,
                _ => &formatters.auto,
            },
        }
    }

    /// Returns the numbering system, if it is not that of the locale.
    pub fn numbering_system(&self) -> Option<NumberingSystem>
        ensures { result ≡ system_of self.now }
    {
        match self {
            RangeNumbers::Skeleton(formatter) => formatter.resolved_options().numbering_system,
            RangeNumbers::AllDigits(_) => None,
        }
    }
}

impl RangeFormatter<'_> {
    fn format(
        &self,
        alloc: Global,
        start: Decimal,
        end: Decimal,
    ) -> Result<FormattedRange<'_>, RoundError>
        ensures text { IfOk result (λ range. IsRangeTextBy self.now start end (formatted_range_text range)) }
        ensures fails { IfErr result (λ why. FormattingFails why self.now start end) }
    {
        let formatter = self.numbers.formatter_by(start.sign, end.sign);
        match formatter.format_range(alloc, &self.texts, start, end) {
            Ok(range) => Ok(range),
            Err(failed) => Err(failed.error),
        }
    }

    /// Appends the text of the range of two decimals to a sink.
    ///
    /// # Errors
    ///
    /// - `FormatOverflow`: a number that is shown is beyond the limits; the sink is unchanged.
    /// - `Memory`: out of memory; the sink is unchanged.
    /// - `Output`: the sink has failed, and it has taken a prefix of the text.
    pub fn write<W: Sink>(
        &self,
        alloc: Global,
        start: Decimal,
        end: Decimal,
        sink: &mut W,
    ) -> Result<(), OperationError>
        ensures written { OnOk result (HasRangeTextBy self.now start end
            (Appends (W.contents sink.old) (W.contents sink.new))) }
        ensures fails_with { IfErr result (λ error. RangeWritingFails error self.now start end) }
        ensures unchanged_on_error { IfErr result (λ error. error ≢ OperationError.Output → sink.new ≡ sink.old) }
        ensures failed { result ≡ Err OperationError.Output → W.has_failed sink.new ≡ true }
        ensures prefix { IfErr result (λ error. error ≡ OperationError.Output
            → HasRangeTextBy self.now start end (AppendsPrefix (W.contents sink.old) (W.contents sink.new))) }
    {
        match self.format(alloc, start, end) {
            Ok(range) => write_text(&range, sink),
            Err(RoundError::Limit) => Err(OperationError::FormatOverflow),
            Err(RoundError::Memory) => Err(OperationError::Memory),
        }
    }
}
