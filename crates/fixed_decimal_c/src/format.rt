//! Numbers as a locale writes them, by options or a number skeleton.
ghost use Rattle.std.specs.Prelude.{◌≡◌, Some, IfOk, IfErr};
ghost use Rattle.conversions.specs.declared.locale_formatter.LocaleFormatter.TheVariants.{Skeleton};
ghost use Rattle.fixed_decimal_c.specs.{NumberTexts.{error_of_skeleton, error_of_formatter, error_of_format, AreOptionsOf, SkeletonFails, WritesSkeleton}, Formats.{WritesBy, FormatsText}};

use crate::error::FdError;
use crate::number_options::FdNumberOptions;
use crate::numbers::read;
use crate::texts::{deliver, write_value};
use decimal_format::internal::Block;
use fixed_decimal::{Decimal, RoundError};
use number_format::{NumberFormatError, NumberFormatter, NumberOptions};
use number_skeleton::SkeletonError;
use std::alloc::Global;
use std::str;

fn error_of_skeleton(error: SkeletonError) -> FdError
    ensures { result ≡ error_of_skeleton error }
{
    match error {
        SkeletonError::Syntax { at } => FdError::SkeletonSyntax { at },
        SkeletonError::Unsupported { start, .. } => FdError::SkeletonUnsupported { at: start },
    }
}

pub(crate) fn error_of_formatter(error: NumberFormatError) -> FdError
    ensures { result ≡ error_of_formatter error }
{
    match error {
        NumberFormatError::UnknownLocale => FdError::UnknownLocale,
        NumberFormatError::UnknownNumberingSystem => FdError::UnknownNumberingSystem,
    }
}

pub(crate) fn error_of_format(error: RoundError, at: usize) -> FdError
    ensures { result ≡ error_of_format error at }
{
    match error {
        RoundError::Limit => FdError::Overflow { at },
        RoundError::Memory => FdError::Memory,
    }
}

/// Returns the options of a skeleton.
pub(crate) fn options(skeleton: &[u8]) -> Result<NumberOptions, FdError>
    ensures ok { IfOk result (AreOptionsOf skeleton.now) }
    ensures err { IfErr result (λ error. SkeletonFails error skeleton.now) }
{
    let skeleton = match str::from_utf8(skeleton) {
        Ok(skeleton) => skeleton,
        Err(error) => {
            return Err(FdError::SkeletonSyntax {
                at: error.valid_up_to(),
            });
        }
    };
    match number_skeleton::parse(skeleton) {
        Ok(options) => Ok(options),
        Err(error) => Err(error_of_skeleton(error)),
    }
}

/// Writes a skeleton of the options that C passes.
pub(crate) fn write_skeleton(
    alloc: Global,
    options: &FdNumberOptions,
    buffer: &mut [u8],
) -> Result<usize, FdError>
    ensures { WritesSkeleton result options.now buffer.old buffer.new }
{
    let options = match options.decode() {
        Ok(options) => options,
        Err(error) => return Err(error),
    };
    match number_skeleton::to_skeleton(&options, alloc) {
        Ok(Some(text)) => deliver(text.as_bytes(), buffer),
        Ok(None) => Err(FdError::NoSkeleton),
        Err(_) => Err(FdError::Memory),
    }
}

/// Writes a decimal by a formatter. A number beyond the limits is the overflow of call `at`.
pub(crate) fn write_number(
    alloc: Global,
    formatter: &NumberFormatter,
    value: Decimal,
    at: usize,
    buffer: &mut [u8],
) -> Result<usize, FdError>
    ensures { WritesBy (Some (Skeleton formatter.now)) value at result buffer.old buffer.new }
{
    // A short text is written to a block first, since its length takes more time than the text.
    let mut block = Block::new();
    match formatter.write_to_block(alloc, value, &mut block) {
        Ok(None) => deliver(block.as_bytes(), buffer),
        Ok(Some(number)) => write_value(&number, buffer),
        Err(error) => Err(error_of_format(error, at)),
    }
}

/// Reads a decimal, and writes it by a formatter.
pub(crate) fn format_text(
    alloc: Global,
    formatter: &NumberFormatter,
    text: &[u8],
    buffer: &mut [u8],
) -> Result<usize, FdError>
    ensures { FormatsText formatter.now result text.now buffer.old buffer.new }
{
    let value = read(alloc, text, 0)?;
    write_number(alloc, formatter, value, 0, buffer)
}
