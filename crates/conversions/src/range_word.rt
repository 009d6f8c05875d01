//! The formatter of ranges that `format:LOCALE[:GROUPING|:SKELETON]` names.
ghost use Rattle.std.specs.Prelude.{◌≡◌, IfOk, IfErr};
ghost use Rattle.number_format.specs.Formatters.{IsFormatter};
ghost use Rattle.conversions.specs.FormatWord.{NumberFormatterFails};
ghost use Rattle.conversions.specs.RangeWord.{all_digits, AllDigitsFail, AreSignedFormatters, NamesRangeNumbers, IsRangeNumberFormatter, NamesRangeFormatter, RangeFormatterFails};

use crate::error::FormError;
use crate::format_word::{error_of_formatter, error_of_skeleton, parse_strategy};
use crate::parameters::{parameters, split_parameters};
use crate::range_formatter::{RangeFormatter, RangeNumbers, SignedFormatters};
use crate::shown_word::ShownWord;
use decimal_format::GroupingStrategy;
use fixed_decimal::SignDisplay;
use number_format::{NumberFormatter, NumberOptions, RangeTexts};

fn all_digits_formatter(
    tag: &str,
    strategy: GroupingStrategy,
    display: SignDisplay,
) -> Result<NumberFormatter, FormError>
    ensures ok { IfOk result (IsFormatter tag.now (all_digits strategy display)) }
    ensures err { IfErr result (AllDigitsFail tag.now) }
{
    let options = NumberOptions::default()
        .with_grouping(strategy)
        .with_sign_display(display);
    match NumberFormatter::try_new(tag, options) {
        Ok(formatter) => Ok(formatter),
        Err(error) => Err(error_of_formatter(tag, error)),
    }
}

fn range_number_formatter(tag: &str, skeleton: &str) -> Result<NumberFormatter, FormError>
    ensures ok { IfOk result (IsRangeNumberFormatter tag.now skeleton.now) }
    ensures err { IfErr result (NumberFormatterFails tag.now skeleton.now) }
{
    let options = match number_skeleton::parse(skeleton) {
        Ok(options) => options,
        Err(error) => return Err(error_of_skeleton(skeleton, error)),
    };
    match NumberFormatter::for_ranges(tag, options) {
        Ok(formatter) => Ok(formatter),
        Err(error) => Err(error_of_formatter(tag, error)),
    }
}

fn signed_formatters(tag: &str, strategy: GroupingStrategy) -> Result<SignedFormatters, FormError>
    ensures ok { IfOk result (AreSignedFormatters tag.now strategy) }
    ensures err { IfErr result (AllDigitsFail tag.now) }
{
    Ok(SignedFormatters {
        auto: all_digits_formatter(tag, strategy, SignDisplay::Auto)?,
        always: all_digits_formatter(tag, strategy, SignDisplay::Always)?,
        except_zero: all_digits_formatter(tag, strategy, SignDisplay::ExceptZero)?,
    })
}

fn range_numbers(word: &str) -> Result<RangeNumbers, FormError>
    ensures ok { IfOk result (NamesRangeNumbers word.now) }
    ensures err { IfErr result (RangeFormatterFails word.now) }
{
    let (tag, option) = split_parameters(parameters(word));
    if let Some(strategy) = parse_strategy(option) {
        let formatters = signed_formatters(tag, strategy)?;
        return Ok(RangeNumbers::AllDigits(formatters));
    }
    match option {
        Some(skeleton) if !skeleton.is_empty() => {
            let formatter = range_number_formatter(tag, skeleton)?;
            Ok(RangeNumbers::Skeleton(formatter))
        }
        _ => Err(FormError::NoSuchWord(ShownWord::of(word))),
    }
}

/// Returns the formatter of ranges that a word names.
///
/// # Errors
///
/// As [`parse_formatter`].
pub fn parse_range_formatter(word: &str) -> Result<RangeFormatter<'_>, FormError>
    ensures ok { IfOk result (NamesRangeFormatter word.now) }
    ensures err { IfErr result (RangeFormatterFails word.now) }
{
    let (tag, _) = split_parameters(parameters(word));
    let numbers = range_numbers(word)?;
    match RangeTexts::of(tag, &numbers.numbering_system()) {
        Some(texts) => Ok(RangeFormatter { numbers, texts }),
        None => Err(FormError::UnknownLocale(ShownWord::of(tag))),
    }
}
