//! Formatting of a number.
ghost use Rattle.std.specs.{Prelude.{◌≡◌, ◌≢◌, ◌++◌, None, true, IfOk, IfErr, IsErrOf, OnOk, MatchOption}, Io.KnownBytes.Appends};
ghost use Rattle.decimal_digits.specs.AppendsPrefix.{AppendsPrefix};
ghost use Rattle.number_format.specs.{FormattedNumbers.{formatted_number_pieces, formatted_number_text}, NumberText.{shown_number, AreNumberPieces, IsNumberText, HasNumberText, WritingNeedsMemory, FormattingNeedsMemory}};

use crate::format::compact::NO_CHOICE;
use crate::format::formatted_number::FormattedNumber;
use crate::format::formatter::NumberFormatter;
use decimal_format::internal::Block;
use fixed_decimal::{Decimal, RoundError, Sink, SinkFault, Writeable};
use plural_rules::PluralCategory;
use std::alloc::Global;

/// Why a number is not formatted, and the number, unchanged.
///
/// As a percentage 10^32767 would be 10^32769: the error is `Limit`.
#[derive(Drop)]
pub struct FormatError {
    /// The error.
    pub error: RoundError,
    /// The number.
    pub value: Decimal,
}

/// Why a number is not written: of 10^32767 as a percentage it is `Format(RoundError::Limit)`.
#[derive(Clone, Copy, Debug, PartialEq)]
pub enum NumberWriteError {
    /// It is not formatted, as in [`NumberFormatter::format`]. The sink is unchanged.
    Format(RoundError),
    /// The sink has failed, and has taken a prefix of the text.
    Sink,
}

impl NumberFormatter {
    #[inline(always)]
    fn number(&self, alloc: Global, value: Decimal) -> FormattedNumber<'_>
        ensures formatter { result.formatter.now ≡ self.now }
        ensures value { result.value ≡ value }
    {
        FormattedNumber {
            formatter: self,
            alloc,
            value,
            exponent: 0,
            choice: NO_CHOICE,
            whole: PluralCategory::Other,
        }
    }

    /// Formats a number: rounds it, and writes it as the formatter's options have it.
    ///
    /// It takes the number, since it rounds it in place, and so needs no memory for another one. On error the number is
    /// returned. `DecimalFormatter` of `decimal_format`, which does not round, borrows the decimal.
    ///
    /// # Errors
    ///
    /// The number, unchanged:
    ///
    /// - `Limit`: a digit of the scaled or of the rounded number is above 10^32767 or below 10^-32768.
    /// - `Memory`: out of memory, for one digit more as in [`Notation::scale`], or for a copy of a number of more than
    ///   `INLINE_DIGITS` digits. In standard notation without a scale the number is not copied.
    // Inlined, so that the number is not copied twice more.
    #[inline(always)]
    pub fn format(
        &self,
        alloc: Global,
        mut value: Decimal,
    ) -> Result<FormattedNumber<'_>, FormatError>
        ensures pieces { IfOk result (λ t. AreNumberPieces self.now value (formatted_number_pieces t)) }
        ensures text { IfOk result (λ t. IsNumberText self.now value (formatted_number_text t)) }
        ensures unchanged { IfErr result (λ e. e.value ≡ value) }
        ensures limit { IfErr result (λ e. e.error ≡ RoundError.Limit → shown_number self.now value ≡ None) }
        ensures memory { IfErr result (λ e. e.error ≡ RoundError.Memory → FormattingNeedsMemory self.now value) }
    {
        let whole = match self.whole_category(&value) {
            Ok(whole) => whole,
            Err(error) => return Err(FormatError { error, value }),
        };
        match self.shown_number_or_unchanged(&mut value) {
            Ok(shown) => {
                let mut number = self.number(alloc, value);
                number.choose(shown, whole);
                Ok(number)
            }
            Err(error) => Err(FormatError { error, value }),
        }
    }

    /// Formats a number, and appends the text to a sink: in less time than [`format`](Self::format) and
    /// [`Writeable::write_to`], since the number is not kept.
    ///
    /// # Errors
    ///
    /// As [`NumberWriteError`] describes. The number is copied only for the plural category of a unit, of the name of a
    /// currency or of a percent sign, and not in standard notation. Else `Memory` is only for one digit more, as in
    /// [`Notation::scale`].
    #[inline(always)]
    pub fn write<W: Sink>(
        &self,
        alloc: Global,
        value: Decimal,
        sink: &mut W,
    ) -> Result<(), NumberWriteError>
        ensures written { OnOk result
            (HasNumberText self.now value (Appends (W.contents sink.old) (W.contents sink.new))) }
        ensures unchanged { IfErr result (λ e. e ≢ NumberWriteError.Sink → sink.new ≡ sink.old) }
        ensures limit { IsErrOf result (NumberWriteError.Format RoundError.Limit) → shown_number self.now value ≡ None }
        ensures memory { IsErrOf result (NumberWriteError.Format RoundError.Memory)
            → WritingNeedsMemory self.now value }
        ensures failed { IsErrOf result NumberWriteError.Sink → W.has_failed sink.new ≡ true }
        ensures prefix { IsErrOf result NumberWriteError.Sink
            → HasNumberText self.now value (AppendsPrefix (W.contents sink.old) (W.contents sink.new)) }
    {
        let mut number = self.number(alloc, value);
        if let Err(error) = number.round() {
            return Err(NumberWriteError::Format(error));
        }
        match number.write_to(sink) {
            Ok(()) => Ok(()),
            Err(SinkFault) => Err(NumberWriteError::Sink),
        }
    }

    /// Formats a number, and appends the text to a block. If the text does not fit, the formatted number is returned.
    ///
    /// It is public for the crates of this repository only.
    ///
    /// # Errors
    ///
    /// The number is not formatted, as in [`write`](Self::write).
    #[inline(always)]
    pub fn write_to_block(
        &self,
        alloc: Global,
        value: Decimal,
        block: &mut Block,
    ) -> Result<Option<FormattedNumber<'_>>, RoundError>
        ensures ok { IfOk result (λ r. MatchOption r
            (HasNumberText self.now value (λ text. block.new.0 ≡ block.old.0 ++ text))
            (λ t. IsNumberText self.now value (formatted_number_text t))) }
        ensures limit { IsErrOf result RoundError.Limit → shown_number self.now value ≡ None }
        ensures memory { IsErrOf result RoundError.Memory → WritingNeedsMemory self.now value }
    {
        let mut number = self.number(alloc, value);
        number.round()?;
        match number.put_text(block) {
            Ok(()) => Ok(None),
            Err(SinkFault) => Ok(Some(number)),
        }
    }
}
