//! The forms in which a text is read and written: a locale's, or the decimal's own.
ghost use Rattle.std.specs.Prelude.{◌≡◌, IfSome, IfNone, IfOk, IfErr};
ghost use Rattle.decimal_format.specs.Readable.{IsReadable};
ghost use Rattle.number_format.specs.declared.read.number_reader.ParseMode.{ParseMode};
ghost use Rattle.fixed_decimal_c.specs.Forms.{reading_code, IsLocaleAt, HasNoLocale, AreSymbolsOf, HasNoSymbols, IsReaderOf, FormFails, IsSkeletonReader, SkeletonReaderFails, ReaderFails, IsSkeletonFormatter, SkeletonFormFails, IsFormatterOf, FormatFormFails};

use crate::calls::part;
use crate::error::FdError;
use crate::formatter::formatter_by_skeleton;
use crate::locales::symbols_of_number;
use crate::number_options::grouping;
use crate::read::number_reader;
use conversions::{DecimalReader, LocaleFormatter, LocaleReader};
use decimal_format::{DecimalFormatter, DecimalSymbols};
use locale_data::locale;
use number_format::{NumberFormatter, NumberReader, ParseMode};
use std::alloc::Global;
use std::str;

/// The form of a text: that of a locale, or with neither a number nor a tag the decimal's own.
///
/// With a skeleton the locale is that of the tag.
#[repr(C)]
#[derive(Clone, Copy)]
pub struct FdForm {
    /// The number of the locale, or 0.
    pub locale: u64,
    /// Where the tag of the locale begins in the texts, if its number is 0.
    pub start: usize,
    /// The number of bytes of the tag.
    pub count: usize,
    /// Where the number skeleton begins in the texts.
    pub skeleton_start: usize,
    /// The number of bytes of the skeleton, or 0.
    pub skeleton_count: usize,
    /// How strictly a text is read, or where separators are written.
    pub option: u8,
}

/// The form with all fields 0.
pub(crate) const NO_FORM: FdForm = FdForm {
    locale: 0,
    start: 0,
    count: 0,
    skeleton_start: 0,
    skeleton_count: 0,
    option: 0,
};

/// The forms of a conversion.
#[repr(C)]
#[derive(Clone, Copy)]
pub struct FdForms {
    /// The form that the text is read in.
    pub read: FdForm,
    /// The form that the result is written in.
    pub format: FdForm,
}

fn reading(code: u8) -> Option<ParseMode>
    ensures some { IfSome result (λ m. code ≡ reading_code m) }
    ensures none { IfNone result ((m : ParseMode) → code ≡ reading_code m → ⊥) }
{
    match code {
        0 => Some(ParseMode::Strict),
        1 => Some(ParseMode::Lenient),
        _ => None,
    }
}

/// Returns the symbols of the locale whose tag is a part of the texts.
fn symbols_of_tag(texts: &[u8], start: usize, count: usize) -> Option<DecimalSymbols<'static>>
    ensures some { IfSome result (IsLocaleAt texts.now start count) }
    ensures readable { IfSome result (λ s. IsReadable s) }
    ensures none { IfNone result (HasNoLocale texts.now start count) }
{
    let Some(tag) = part(texts, start, count) else {
        return None;
    };
    match str::from_utf8(tag) {
        Ok(tag) => locale(tag),
        Err(_) => None,
    }
}

/// Returns the symbols of the locale of a form, if it has one.
fn symbols(form: &FdForm, texts: &[u8]) -> Result<Option<DecimalSymbols<'static>>, FdError>
    ensures ok { IfOk result (AreSymbolsOf form.now texts.now) }
    ensures readable { IfOk result (λ symbols. IfSome symbols (λ s. IsReadable s)) }
    ensures err { IfErr result (λ error. (error ≡ FdError.UnknownLocale) × HasNoSymbols form.now texts.now) }
{
    if form.locale == 0 && form.count == 0 {
        return Ok(None);
    }
    let found = if form.locale == 0 {
        symbols_of_tag(texts, form.start, form.count)
    } else {
        symbols_of_number(form.locale)
    };
    match found {
        Some(symbols) => Ok(Some(symbols)),
        None => Err(FdError::UnknownLocale),
    }
}

fn skeleton_reader(
    alloc: Global,
    form: &FdForm,
    texts: &[u8],
) -> Result<(NumberReader, ParseMode), FdError>
    ensures ok { IfOk result (λ found. IsSkeletonReader form.now texts.now found.0 found.1) }
    ensures err { IfErr result (λ error. SkeletonReaderFails error form.now texts.now) }
{
    let formatter = skeleton_formatter(form, texts)?;
    let Some(mode) = reading(form.option) else {
        return Err(FdError::UnknownOption);
    };
    match number_reader(alloc, &formatter) {
        Ok(reader) => Ok((reader, mode)),
        Err(error) => Err(error),
    }
}

/// Returns the reader of a form, if it has one.
pub(crate) fn reader(
    alloc: Global,
    form: &FdForm,
    texts: &[u8],
) -> Result<Option<LocaleReader<'static>>, FdError>
    ensures ok { IfOk result (IsReaderOf form.now texts.now) }
    ensures err { IfErr result (λ error. ReaderFails error form.now texts.now) }
{
    if form.skeleton_count > 0 {
        let (reader, mode) = skeleton_reader(alloc, form, texts)?;
        return Ok(Some(LocaleReader::Numbers(reader, mode)));
    }
    let Some(symbols) = symbols(form, texts)? else {
        return Ok(None);
    };
    match reading(form.option) {
        Some(mode) => Ok(Some(LocaleReader::Decimals(DecimalReader { symbols, mode }))),
        None => Err(FdError::UnknownOption),
    }
}

/// Returns the formatter by the tag and the skeleton of a form.
fn skeleton_formatter(form: &FdForm, texts: &[u8]) -> Result<NumberFormatter, FdError>
    ensures ok { IfOk result (IsSkeletonFormatter form.now texts.now) }
    ensures err { IfErr result (λ error. SkeletonFormFails error form.now texts.now) }
{
    let Some(skeleton) = part(texts, form.skeleton_start, form.skeleton_count) else {
        return Err(FdError::SkeletonSyntax { at: 0 });
    };
    let Some(tag) = part(texts, form.start, form.count) else {
        return Err(FdError::UnknownLocale);
    };
    formatter_by_skeleton(tag, skeleton)
}

/// Returns the formatter of a form, if it has one.
pub(crate) fn formatter(
    form: &FdForm,
    texts: &[u8],
) -> Result<Option<LocaleFormatter<'static>>, FdError>
    ensures ok { IfOk result (IsFormatterOf form.now texts.now) }
    ensures err { IfErr result (λ error. FormatFormFails error form.now texts.now) }
{
    if form.skeleton_count == 0 {
        let Some(symbols) = symbols(form, texts)? else {
            return Ok(None);
        };
        let Some(strategy) = grouping(form.option) else {
            return Err(FdError::UnknownOption);
        };
        let formatter = DecimalFormatter::new(symbols, strategy);
        return Ok(Some(LocaleFormatter::AllDigits(formatter)));
    }
    let formatter = skeleton_formatter(form, texts)?;
    Ok(Some(LocaleFormatter::Skeleton(formatter)))
}
