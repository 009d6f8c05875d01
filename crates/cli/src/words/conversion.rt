//! The conversion that words name: `[read:LOCALE[:lenient][:SKELETON]] [CALL].. [format:LOCALE[:GROUPING|:SKELETON]]`.
ghost use Rattle.std.specs.{Prelude.{◌≡◌, IfOk, IfErr}, Option.option_copied};
ghost use Rattle.cli.specs.Words.{split_read, split_format, NamesConversion, ConversionFails};

use crate::program::error::WordsError;
use crate::words::calls::parse_calls;
use crate::words::parameters::has_name;
use conversions::{Conversion, parse_formatter, parse_reader};
use std::alloc::Global;

pub(super) fn split_read(words: &[String]) -> (Option<&str>, &[String])
    ensures { (option_copied result.0, result.1.now) ≡ split_read words.now }
{
    let Some((first, rest)) = words.split_first() else {
        return (None, words);
    };
    let word = first.as_str();
    if has_name("read", word) {
        return (Some(word), rest);
    }
    (None, words)
}

pub(super) fn split_format(words: &[String]) -> (Option<&str>, &[String])
    ensures { (option_copied result.0, result.1.now) ≡ split_format words.now }
{
    let Some((last, rest)) = words.split_last() else {
        return (None, words);
    };
    let word = last.as_str();
    if has_name("format", word) {
        return (Some(word), rest);
    }
    (None, words)
}

/// Parses words as a conversion.
///
/// # Errors
///
/// Of several wrong words the first one decides:
///
/// - `NoSuchWord`: a word names no call, or its option is empty.
/// - `SkeletonSyntax`, `SkeletonUnsupported`: an option of `read:` or `format:` is no skeleton, or none of the library.
/// - `NoReader`: the texts of the skeleton of `read:` do not have one meaning each.
/// - `AfterCall`, `Misplaced`: an option of a filter or `read:` is not before the calls, or `format:` not after them.
/// - `UnknownLocale`: the locale of `read:` or `format:` is unknown.
/// - `Memory`: out of memory for the list of the calls, and no word is wrong; or for the texts of the skeleton of
///   `read:`.
pub fn parse_conversion(alloc: Global, words: &[String]) -> Result<Conversion<'_>, WordsError>
    ensures some { IfOk result (NamesConversion words.now) }
    ensures err { IfErr result (ConversionFails words.now) }
{
    let (read, words) = split_read(words);
    let (format, words) = split_format(words);
    let reader = parse_reader(alloc, read)?;
    match parse_calls(alloc, words) {
        Ok(calls) => Ok(Conversion {
            reader,
            calls,
            formatter: parse_formatter(format)?,
        }),
        Err(WordsError::Memory) => {
            parse_formatter(format)?;
            Err(WordsError::Memory)
        }
        Err(error) => Err(error),
    }
}
