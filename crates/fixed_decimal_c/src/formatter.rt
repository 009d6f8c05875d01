//! Formatters that C keeps: plain data, which names rows of tables and options.
ghost use Rattle.std.specs.Prelude.{◌≡◌, IfOk, IfErr, IfSome, IfNone};
ghost use Rattle.fixed_decimal_c.specs.{NumberTexts.{OptionsFail, IsFormatterFor, FormatterFails}, FormatOptions.AreFormatOptions, FormatRows.AreRows, KeptFormatters.{IsFormatterIn, IsNoFormatter, IsResolved, FormatsKept, Keeps, MakesByOptions, MakesBySkeleton, fd_made, fd_resolution}};

use crate::error::FdError;
use crate::format::{error_of_formatter, format_text, options};
use crate::format_options::{FdFormatOptions, NO_OPTIONS, padded_name};
use crate::format_rows::{FdFormatRows, NO_ROWS};
use crate::kept_tag::kept_tag;
use crate::number_options::FdNumberOptions;
use locale_data::system_name_at;
use number_format::{FormatterIds, NumberFormatter, NumberOptions};
use std::alloc::Global;
use std::str;

/// A formatter: plain data, to be copied and shared between threads. It is valid in this process.
#[repr(C)]
#[derive(Clone, Copy)]
pub struct FdFormatter {
    /// The rows of its locale and its currency.
    pub rows: FdFormatRows,
    /// Its options.
    pub options: FdFormatOptions,
    /// The tag of its locale, padded with spaces; of a longer one its first subtags. Ranges alone use it.
    pub tag: [u8; 16],
}

/// The result of a function that makes a formatter.
#[repr(C)]
#[derive(Clone, Copy)]
pub struct FdMade {
    /// 0, or the number of the error.
    pub status: u32,
    /// Where the error is.
    pub at: usize,
    /// The formatter, with all fields 0 on an error.
    pub formatter: FdFormatter,
}

/// The result of a function that returns the options of a formatter.
#[repr(C)]
#[derive(Clone, Copy)]
pub struct FdResolution {
    /// 0, or the number of the error.
    pub status: u32,
    /// The options, with all fields 0 on an error.
    pub options: FdFormatOptions,
}

impl FdFormatter {
    /// Finds the rows of a tag and options.
    fn of(tag: &[u8], options: &NumberOptions) -> Result<FdFormatter, FdError>
        ensures ok { IfOk result (Keeps tag.now options.now) }
        ensures err { IfErr result (λ error. OptionsFail error tag.now options.now) }
    {
        let kept = kept_tag(tag);
        let Ok(tag) = str::from_utf8(tag) else {
            return Err(FdError::UnknownLocale);
        };
        match FormatterIds::of(tag, options) {
            Ok(ids) => Ok(FdFormatter {
                rows: FdFormatRows::encode(&ids),
                options: FdFormatOptions::encode(options),
                tag: kept,
            }),
            Err(error) => Err(error_of_formatter(error)),
        }
    }

    /// Makes the formatter of a tag and the options that C passes.
    pub(crate) fn by_options(tag: &[u8], options: &FdNumberOptions) -> Result<FdFormatter, FdError>
        ensures { MakesByOptions result tag.now options.now }
    {
        match options.decode() {
            Ok(options) => Self::of(tag, &options),
            Err(error) => Err(error),
        }
    }

    /// Makes the formatter of a tag and a number skeleton.
    pub(crate) fn by_skeleton(tag: &[u8], skeleton: &[u8]) -> Result<FdFormatter, FdError>
        ensures { MakesBySkeleton result tag.now skeleton.now }
    {
        match options(skeleton) {
            Ok(options) => Self::of(tag, &options),
            Err(error) => Err(error),
        }
    }

    /// Returns the rows and the options.
    #[inline(always)]
    pub(crate) fn ids_and_options(&self) -> Option<(FormatterIds, NumberOptions)>
        ensures some { IfSome result
            (λ found. AreRows self.now.rows found.0 × AreFormatOptions self.now.options found.1) }
        ensures none { IfNone result (IsNoFormatter self.now) }
    {
        Some((self.rows.decode()?, self.options.decode()?))
    }

    /// Returns the formatter of the rows and the options.
    pub(crate) fn decode(&self) -> Option<NumberFormatter>
        ensures some { IfSome result (IsFormatterIn self.now) }
        ensures none { IfNone result (IsNoFormatter self.now) }
    {
        let Some((ids, options)) = self.ids_and_options() else {
            return None;
        };
        NumberFormatter::at(&ids, &options)
    }

    /// Reads a decimal, and writes it by the formatter.
    pub(crate) fn format(
        &self,
        alloc: Global,
        text: &[u8],
        buffer: &mut [u8],
    ) -> Result<usize, FdError>
        ensures { FormatsKept result self.now text.now buffer.old buffer.new }
    {
        let Some((ids, options)) = self.ids_and_options() else {
            return Err(FdError::Formatter);
        };
        let outer = ids.outer_of_one(&options);
        let Some(formatter) = NumberFormatter::with_outer(&ids, outer, &options) else {
            return Err(FdError::Formatter);
        };
        format_text(alloc, &formatter, text, buffer)
    }

    /// Returns the options with their defaults, and the name of the numbering system.
    pub(crate) fn resolved(&self) -> Result<FdFormatOptions, FdError>
        ensures { IsResolved result self.now }
    {
        let Some((ids, options)) = self.ids_and_options() else {
            return Err(FdError::Formatter);
        };
        let Some(formatter) = NumberFormatter::at(&ids, &options) else {
            return Err(FdError::Formatter);
        };
        let Some(system) = system_name_at(ids.symbols) else {
            return Err(FdError::Formatter);
        };
        let options = FdFormatOptions::encode(&formatter.resolved_options());
        let numbering_system = padded_name(system);
        Ok(FdFormatOptions {
            numbering_system,
            has_numbering_system: 1,
            ..options
        })
    }
}

/// Returns the formatter of a tag and a number skeleton, from what C keeps of it.
pub(crate) fn formatter_by_skeleton(tag: &[u8], skeleton: &[u8]) -> Result<NumberFormatter, FdError>
    ensures ok { IfOk result (IsFormatterFor tag.now skeleton.now) }
    ensures err { IfErr result (λ error. FormatterFails error tag.now skeleton.now) }
{
    match FdFormatter::by_skeleton(tag, skeleton) {
        Ok(kept) => match kept.decode() {
            Some(formatter) => Ok(formatter),
            None => Err(FdError::Formatter),
        },
        Err(error) => Err(error),
    }
}

pub(crate) fn encode_resolution(answer: Result<FdFormatOptions, FdError>) -> FdResolution
    ensures { result ≡ fd_resolution answer }
{
    match answer {
        Ok(options) => FdResolution { status: 0, options },
        Err(error) => FdResolution {
            status: error.status(),
            options: NO_OPTIONS,
        },
    }
}

pub(crate) fn encode_made(answer: Result<FdFormatter, FdError>) -> FdMade
    ensures { result ≡ fd_made answer }
{
    match answer {
        Ok(formatter) => FdMade {
            status: 0,
            at: 0,
            formatter,
        },
        Err(error) => FdMade {
            status: error.status(),
            at: error.place(),
            formatter: FdFormatter {
                rows: NO_ROWS,
                options: NO_OPTIONS,
                tag: [0; 16],
            },
        },
    }
}
