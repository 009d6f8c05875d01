//! Formatting of a range of two numbers.
ghost use Rattle.std.specs.Prelude.{◌≡◌, None, IfOk, IfErr};
ghost use Rattle.number_format.specs.{FormattedRanges.{IsFormattedEnd, IsShownBy, end_of, formatted_range_text, shown_range}, NumberText.{outer_by, shown_number, is_negative, FormattingNeedsMemory}, RangeText.{are_equal, have_same_sign, needs_spaces, range_category, IsRange, IsRangeText, RangeFormattingFails}};

use crate::format::format_number::FormatError;
use crate::format::formatted_number::{FormattedNumber, displayed_sign};
use crate::format::formatter::NumberFormatter;
use crate::range::common::{are_both_or_neither, characters_around};
use crate::range::form::{RangeForm, form_by, needs_spaces};
use crate::range::formatted_range::FormattedRange;
use crate::range::range_texts::RangeTexts;
use fixed_decimal::{Decimal, RoundError, Sign};
use locale_data::plural_range_category;
use plural_rules::PluralCategory;
use std::alloc::Global;

/// Why a range is not formatted, and its numbers, unchanged.
///
/// As percentages the range from 1 to 10^32767 is the error `Limit`: the second number would be 10^32769.
#[derive(Drop)]
pub struct RangeFormatError {
    /// The error.
    pub error: RoundError,
    /// Whether it is the error of the second number. If it is not, the second number may have one too.
    pub at_end: bool,
    /// The first number.
    pub start: Decimal,
    /// The second number.
    pub end: Decimal,
}

fn is_negative(sign: Sign) -> bool
    ensures { result ≡ is_negative sign }
{
    matches!(sign, Sign::Negative)
}

fn are_equal(start: &Decimal, end: &Decimal) -> bool
    ensures { result ≡ are_equal start.now end.now }
{
    start.compare(end).is_eq()
}

fn have_same_sign(start: &Decimal, end: &Decimal) -> bool
    ensures { result ≡ have_same_sign start.now end.now }
{
    are_both_or_neither(is_negative(start.sign), is_negative(end.sign))
}

/// Returns a plural category by which the same is around the whole text as by that of the range.
fn range_category(
    formatter: &NumberFormatter,
    tag: &str,
    form: RangeForm,
    start: PluralCategory,
    end: PluralCategory,
) -> PluralCategory
    ensures { outer_by formatter.now result ≡ outer_by formatter.now (range_category tag.now form start end) }
{
    if !formatter.has_categories() {
        return start;
    }
    match form {
        RangeForm::Approximate => start,
        _ => plural_range_category(tag, start, end),
    }
}

fn range_by<'f>(
    texts: &RangeTexts<'_>,
    form: RangeForm,
    spaced: bool,
    mut start: FormattedNumber<'f>,
    end: FormattedNumber<'f>,
) -> FormattedRange<'f>
    requires { spaced ≡ needs_spaces form (end_of start) }
    ensures { IsShownBy texts.now form start.entry end.entry (shown_range result) }
{
    start.whole = range_category(start.formatter, texts.tag, form, start.whole, end.whole);
    FormattedRange {
        start,
        end,
        format: texts.format,
        form,
        spaced,
    }
}

impl NumberFormatter {
    fn range_end(
        &self,
        alloc: Global,
        mut value: Decimal,
    ) -> Result<FormattedNumber<'_>, FormatError>
        ensures end { IfOk result (IsFormattedEnd self.now value) }
        ensures unchanged { IfErr result (λ e. e.value ≡ value) }
        ensures limit { IfErr result (λ e. e.error ≡ RoundError.Limit → shown_number self.now value ≡ None) }
        ensures memory { IfErr result (λ e. e.error ≡ RoundError.Memory → FormattingNeedsMemory self.now value) }
    {
        let whole = match self.whole_category(&value) {
            Ok(whole) => whole,
            Err(error) => return Err(FormatError { error, value }),
        };
        let shown = match self.shown_number_or_unchanged(&mut value) {
            Ok(shown) => shown,
            Err(error) => return Err(FormatError { error, value }),
        };
        let choice = self.choice(&value, shown.exponent);
        let whole = self.outer_category(&value, whole);
        let display = self.options.sign_display;
        value.sign = displayed_sign(display, shown.is_zero, value.sign);
        Ok(FormattedNumber {
            formatter: self,
            alloc,
            value,
            exponent: shown.exponent,
            choice,
            whole,
        })
    }

    /// Formats the range of two numbers, in any order: `1–2`. Two numbers that are equal, or have one sign and are
    /// rounded to the same digits, are written as one with the approximately sign, `~1`, if the same texts are around
    /// both and the same exponents are written.
    ///
    /// `texts` should be those of the formatter's locale; with others the text has their separator.
    /// [`for_ranges`](NumberFormatter::for_ranges) makes the formatter.
    /// Both numbers are rounded as by [`format`](Self::format). What both have around them is written once if it has
    /// more than one character, as ICU does: `1,00–2,00 €`, but `$1.00 – $2.00`. `formatRange` of ECMA-402.
    ///
    /// # Errors
    ///
    /// Both numbers, unchanged, and the error of [`format`](Self::format) of the first one, or else of the second one.
    /// The first number is copied before: `Memory` is also for a copy of more than `INLINE_DIGITS` digits.
    ///
    /// ```
    /// let formatter = NumberFormatter::for_ranges("en", options)?;
    /// let texts = RangeTexts::of("en", &options.numbering_system)?;
    /// formatter.format_range(alloc, &texts, start, end)? // $1.00 – $2.00
    /// ```
    pub fn format_range(
        &self,
        alloc: Global,
        texts: &RangeTexts<'_>,
        start: Decimal,
        end: Decimal,
    ) -> Result<FormattedRange<'_>, RangeFormatError>
        ensures range { IfOk result (λ r. IsRange self.now texts.now start end (shown_range r)) }
        ensures text { IfOk result (λ r. IsRangeText self.now texts.now start end (formatted_range_text r)) }
        ensures unchanged { IfErr result (λ e. (e.start ≡ start) × (e.end ≡ end)) }
        ensures fails { IfErr result (λ e. RangeFormattingFails self.now start end e.at_end e.error) }
    {
        let Ok(kept) = start.clone() else {
            return Err(RangeFormatError {
                error: RoundError::Memory,
                at_end: false,
                start,
                end,
            });
        };
        let equal = are_equal(&start, &end);
        let same_sign = have_same_sign(&start, &end);
        let first = match self.range_end(alloc, start) {
            Ok(number) => number,
            Err(FormatError { error, value }) => {
                return Err(RangeFormatError {
                    error,
                    at_end: false,
                    start: value,
                    end,
                });
            }
        };
        let second = match self.range_end(alloc, end) {
            Ok(number) => number,
            Err(FormatError { error, value }) => {
                return Err(RangeFormatError {
                    error,
                    at_end: true,
                    start: kept,
                    end: value,
                });
            }
        };
        let characters = characters_around(&first);
        let form = form_by(characters, equal, same_sign, &first, &second);
        let spaced = needs_spaces(form, characters, &first);
        Ok(range_by(texts, form, spaced, first, second))
    }
}
