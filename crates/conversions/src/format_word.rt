//! The formatter that `format:LOCALE[:GROUPING|:SKELETON]` names.
ghost use Rattle.std.specs.{Prelude.{◌≡◌, IfOk, IfErr}, Option.option_copied};
ghost use Rattle.decimal_format.specs.declared.grouping.GroupingStrategy.{GroupingStrategy};
ghost use Rattle.locale_data.specs.Locales.{IsLocale};
ghost use Rattle.conversions.specs.{FormatWord.{strategy_of, stem_bytes, IsErrorOfSkeleton, IsErrorOfFormatter, IsNumberFormatter, NumberFormatterFails, IsUnknownLocale, NamesFormatter, FormatterFails}, ShownWord.IsShown};

use crate::error::FormError;
use crate::locale_formatter::LocaleFormatter;
use crate::parameters::{parameters, split_parameters};
use crate::shown_word::ShownWord;
use decimal_format::{DecimalFormatter, GroupingStrategy};
use locale_data::locale;
use number_format::{NumberFormatError, NumberFormatter};
use number_skeleton::SkeletonError;
use std::str;

/// Parses the option of `format:` as a grouping strategy.
pub fn parse_strategy(option: Option<&str>) -> Option<GroupingStrategy>
    ensures { result ≡ strategy_of (option_copied option.entry) }
{
    match option {
        None | Some("auto") => Some(GroupingStrategy::Auto),
        Some("never") => Some(GroupingStrategy::Never),
        Some("always") => Some(GroupingStrategy::Always),
        Some("min2") => Some(GroupingStrategy::Min2),
        Some(_) => None,
    }
}

/// Shows the bytes of a stem, and none if they are no text.
fn shown_stem(skeleton: &str, start: usize, end: usize) -> ShownWord
    ensures { IsShown (stem_bytes skeleton.now start end) result }
{
    let bytes = skeleton.as_bytes();
    let rest = &bytes[start.min(bytes.len())..];
    match str::from_utf8(&rest[..end.saturating_sub(start).min(rest.len())]) {
        Ok(stem) => ShownWord::of(stem),
        Err(_) => ShownWord::of(""),
    }
}

pub(crate) fn error_of_skeleton(skeleton: &str, error: SkeletonError) -> FormError
    ensures { IsErrorOfSkeleton skeleton.now error result }
{
    match error {
        SkeletonError::Syntax { at } => FormError::SkeletonSyntax { at },
        SkeletonError::Unsupported { start, end } => {
            FormError::SkeletonUnsupported(shown_stem(skeleton, start, end))
        }
    }
}

pub(crate) fn error_of_formatter(tag: &str, error: NumberFormatError) -> FormError
    ensures { IsErrorOfFormatter tag.now error result }
{
    match error {
        NumberFormatError::UnknownLocale => FormError::UnknownLocale(ShownWord::of(tag)),
        NumberFormatError::UnknownNumberingSystem => {
            FormError::SkeletonUnsupported(ShownWord::of("numbering-system"))
        }
    }
}

/// Returns the formatter of a locale by a skeleton.
pub fn number_formatter(tag: &str, skeleton: &str) -> Result<NumberFormatter, FormError>
    ensures ok { IfOk result (IsNumberFormatter tag.now skeleton.now) }
    ensures err { IfErr result (NumberFormatterFails tag.now skeleton.now) }
{
    let options = match number_skeleton::parse(skeleton) {
        Ok(options) => options,
        Err(error) => return Err(error_of_skeleton(skeleton, error)),
    };
    match NumberFormatter::try_new(tag, options) {
        Ok(formatter) => Ok(formatter),
        Err(error) => Err(error_of_formatter(tag, error)),
    }
}

fn decimal_formatter(
    tag: &str,
    strategy: GroupingStrategy,
) -> Result<DecimalFormatter<'static>, FormError>
    ensures ok { IfOk result (λ f. (f.strategy ≡ strategy) × IsLocale tag.now f.symbols) }
    ensures err { IfErr result (IsUnknownLocale tag.now) }
{
    match locale(tag) {
        Some(symbols) => Ok(DecimalFormatter::new(symbols, strategy)),
        None => Err(FormError::UnknownLocale(ShownWord::of(tag))),
    }
}

/// Returns the formatter that a word names.
///
/// # Errors
///
/// - `NoSuchWord`: the option is empty.
/// - `SkeletonSyntax`, `SkeletonUnsupported`: the option is no strategy and no skeleton, or none of the library.
/// - `UnknownLocale`: the locale is unknown.
pub fn parse_formatter(word: Option<&str>) -> Result<Option<LocaleFormatter<'static>>, FormError>
    ensures some { IfOk result (NamesFormatter (option_copied word.entry)) }
    ensures err { IfErr result (FormatterFails (option_copied word.entry)) }
{
    let Some(word) = word else {
        return Ok(None);
    };
    let (tag, option) = split_parameters(parameters(word));
    if let Some(strategy) = parse_strategy(option) {
        let formatter = decimal_formatter(tag, strategy)?;
        return Ok(Some(LocaleFormatter::AllDigits(formatter)));
    }
    match option {
        Some(skeleton) if !skeleton.is_empty() => {
            let formatter = number_formatter(tag, skeleton)?;
            Ok(Some(LocaleFormatter::Skeleton(formatter)))
        }
        _ => Err(FormError::NoSuchWord(ShownWord::of(word))),
    }
}
