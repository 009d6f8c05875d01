//! The conversion of a range that words name: `to:END [read:LOCALE[..]] [CALL].. format:LOCALE[..]`.
ghost use Rattle.std.specs.{Prelude.{◌≡◌, IfOk, IfErr}, Option.option_map};
ghost use Rattle.cli.specs.RangeWords.{range_words, NamesRangeConversion, RangeConversionFails};

use crate::program::error::WordsError;
use crate::words::calls::parse_calls;
use crate::words::conversion::{split_format, split_read};
use crate::words::parameters::parameter_of;
use conversions::{RangeConversion, parse_range_formatter, parse_reader};
use std::alloc::Global;
use std::marker::Model;

/// The words of a range: `to:END`, `format:LOCALE`, and those between them.
#[derive(Drop)]
pub struct RangeWords<'a> {
    pub end: &'a str,
    format: &'a str,
    others: &'a [String],
}

impl<'a> Model for RangeWords<'a> {
    ghost use Rattle.cli.specs.RangeWords.{RangeWordsValue};

    ghost Value = { RangeWordsValue };

    ghost view = { λ s. record { end = s.end.now; format = s.format.now; others = s.others.now } };
}

/// Returns the words of a range, if the first of these words is `to:END` and the last one is `format:LOCALE`.
#[inline]
pub fn range_words(words: &[String]) -> Option<RangeWords<'_>>
    ensures { result ≡ range_words words.now }
{
    let (first, rest) = words.split_first()?;
    let end = parameter_of("to", first.as_str())?;
    let (format, others) = split_format(rest);
    Some(RangeWords {
        end,
        format: format?,
        others,
    })
}

/// Parses words as a conversion of a range.
///
/// # Errors
///
/// As [`parse_conversion`](crate::words::conversion::parse_conversion).
pub fn parse_range<'a>(
    alloc: Global,
    words: &RangeWords<'a>,
) -> Result<RangeConversion<'a>, WordsError>
    ensures some { IfOk result (NamesRangeConversion words.now) }
    ensures err { IfErr result (RangeConversionFails words.now) }
{
    let (read, calls) = split_read(words.others);
    let reader = parse_reader(alloc, read)?;
    match parse_calls(alloc, calls) {
        Ok(calls) => Ok(RangeConversion {
            reader,
            calls,
            formatter: parse_range_formatter(words.format)?,
        }),
        Err(WordsError::Memory) => {
            parse_range_formatter(words.format)?;
            Err(WordsError::Memory)
        }
        Err(error) => Err(error),
    }
}
