//! The reader that `read:LOCALE[:lenient][:SKELETON]` names.
ghost use Rattle.std.specs.{Prelude.{◌≡◌, IfOk, IfErr}, Option.option_copied};
ghost use Rattle.locale_data.specs.Locales.{IsLocale};
ghost use Rattle.number_format.specs.NumberReading.{CanRead, number_reader_of};
ghost use Rattle.conversions.specs.{FormatWord.IsUnknownLocale, ReadWord.{read_option, IsErrorOfReader, IsNumberReader, SkeletonReaderFails, NamesReader, ReaderFails}};

use crate::error::FormError;
use crate::format_word::number_formatter;
use crate::parameters::{parameters, split_parameters};
use crate::reader::{DecimalReader, LocaleReader};
use crate::shown_word::ShownWord;
use locale_data::locale;
use number_format::{NumberFormatter, NumberReader, NumberReaderError, ParseMode};
use std::alloc::Global;

/// Splits the option of `read:` into the mode and the skeleton.
pub fn split_mode(option: Option<&str>) -> (ParseMode, Option<&str>)
    ensures { (result.0, option_copied result.1) ≡ read_option (option_copied option.entry) }
{
    let Some(text) = option else {
        return (ParseMode::Strict, None);
    };
    let (mode, skeleton) = split_parameters(text);
    if mode == "lenient" {
        (ParseMode::Lenient, skeleton)
    } else {
        (ParseMode::Strict, Some(text))
    }
}

fn number_reader(alloc: Global, formatter: NumberFormatter) -> Result<NumberReader, FormError>
    ensures ok { IfOk result (λ r. (r ≡ number_reader_of formatter) × CanRead formatter) }
    ensures err { IfErr result (IsErrorOfReader formatter) }
{
    match formatter.reader(alloc) {
        Ok(reader) => Ok(reader),
        Err(NumberReaderError::Memory) => Err(FormError::Memory),
        Err(_) => Err(FormError::NoReader),
    }
}

fn skeleton_reader(alloc: Global, tag: &str, skeleton: &str) -> Result<NumberReader, FormError>
    ensures ok { IfOk result (IsNumberReader tag.now skeleton.now) }
    ensures err { IfErr result (SkeletonReaderFails tag.now skeleton.now) }
{
    let formatter = number_formatter(tag, skeleton)?;
    number_reader(alloc, formatter)
}

fn decimal_reader(tag: &str, mode: ParseMode) -> Result<DecimalReader<'static>, FormError>
    ensures ok { IfOk result (λ r. (r.mode ≡ mode) × IsLocale tag.now r.symbols) }
    ensures err { IfErr result (IsUnknownLocale tag.now) }
{
    match locale(tag) {
        Some(symbols) => Ok(DecimalReader { symbols, mode }),
        None => Err(FormError::UnknownLocale(ShownWord::of(tag))),
    }
}

/// Returns the reader that a word names.
///
/// # Errors
///
/// - `NoSuchWord`: the skeleton is empty.
/// - `SkeletonSyntax`, `SkeletonUnsupported`: the option is no mode and no skeleton, or none of the library.
/// - `UnknownLocale`: the locale is unknown.
/// - `NoReader`: the texts of the skeleton do not have one meaning each.
/// - `Memory`: out of memory for the texts of the skeleton.
pub fn parse_reader(
    alloc: Global,
    word: Option<&str>,
) -> Result<Option<LocaleReader<'static>>, FormError>
    ensures some { IfOk result (NamesReader (option_copied word.entry)) }
    ensures err { IfErr result (ReaderFails (option_copied word.entry)) }
{
    let Some(word) = word else {
        return Ok(None);
    };
    let (tag, option) = split_parameters(parameters(word));
    let (mode, skeleton) = split_mode(option);
    let Some(skeleton) = skeleton else {
        let reader = decimal_reader(tag, mode)?;
        return Ok(Some(LocaleReader::Decimals(reader)));
    };
    if skeleton.is_empty() {
        return Err(FormError::NoSuchWord(ShownWord::of(word)));
    }
    let reader = skeleton_reader(alloc, tag, skeleton)?;
    Ok(Some(LocaleReader::Numbers(reader, mode)))
}
