//! The C interface of decimals for display: `fixed_decimal.h` declares each export.
//!
//! A value crosses as its text, which reads back as the value: so no call keeps anything for the caller, and there is
//! nothing to free. Each text is a pointer and a number of bytes, which need not be UTF-8 nor end in a zero byte.
#![tactic(auto)]

ghost use Rattle.std.specs.Prelude.{◌≡◌, nat_lt};
ghost use Rattle.fixed_decimal_c.specs.{Encodings.{Encodes, EncodesNumber, EncodesUnsigned}, Conversions.{Runs, ConvertsCalls}, Lines.ConvertsColumn, Numbers.{Compares, Equates, HasSign, HasI64, HasU64}, Locales.{IsLocaleNumber, IsRulesNumber, IsNamedRulesNumber}, Categories.{HasCategory, HasCategoryOf}, Formats.{FormatsNumber, FormatsBySkeleton}, NumberReadings.{ReadsNumber, ReadsBySkeleton}, NumberTexts.WritesSkeleton, KeptFormatters.{EncodesMade, MakesByOptions, MakesBySkeleton, FormatsKept, FormatsColumn, ReadsKept, EncodesResolution, IsResolved}, Units.{EncodesUnits, IsUnitNamed, WritesUnitName}, Parts.FormatsPartsKept, Ranges.{FormatsRange, IsRangeCategory}, RangeParts.FormatsRangeParts, StatusTexts.{WritesLine, status_line}, Keys.{EncodesKey, HasKey, ComparesKeys}, Words.IsWord};

mod answer;
mod calls;
mod categories;
mod choices;
mod convert;
mod error;
mod format;
mod format_options;
mod format_rows;
mod formatter;
mod forms;
mod kept_tag;
mod keys;
pub mod laws;
mod lines;
mod locales;
mod number_options;
mod numbers;
mod parts;
mod range_parts;
mod ranges;
mod read;
mod slice_sink;
mod status_text;
mod styles;
mod texts;
mod units;
mod words;

pub use answer::{FdColumn, FdNumber, FdResult, FdUnsigned, Progress};
use answer::{encode, encode_number, encode_unsigned};
pub use calls::FdCall;
use categories::{category_by, category_of, range_category};
use convert::{convert, run};
pub use error::FdError;
use format::write_skeleton;
pub use format_options::FdFormatOptions;
pub use format_rows::{FdFormatRows, FdOuterRows};
pub use formatter::{FdFormatter, FdMade, FdResolution};
use formatter::{encode_made, encode_resolution};
pub use forms::{FdForm, FdForms};
use keys::{compare_keys, encode_key, key_of};
pub use keys::{FdKey, FdKeyed};
use lines::{convert_column, format_column};
use locales::{number_of_locale, number_of_named_rules, number_of_plural_rules};
pub use number_options::FdNumberOptions;
use numbers::{compare_texts, equal_texts, sign_of, to_i64, to_u64};
use parts::format_parts;
pub use parts::{FdPart, FdParted, PartCounts};
pub use range_parts::RangeBounds;
use range_parts::format_range_parts;
use ranges::format_range;
use read::read_number;
use status_text::write_status;
use std::alloc::Global;
pub use styles::StyleCodes;
pub use units::FdUnits;
use units::{encode_units, unit_named, write_name};
pub use words::FdWord;
use words::parse_word;

/// Returns the version of the interface. It grows when a number, a struct or a meaning changes.
pub fn fd_version() -> u32
    ensures { result ≡ 8 }
{
    8
}

/// Makes calls in order on the decimal that `start` writes, and writes the text of the result.
///
/// The operand of a concatenation is a part of `texts`.
pub fn fd_run(
    alloc: Global,
    start: &[u8],
    calls: &[FdCall],
    texts: &[u8],
    buffer: &mut [u8],
) -> FdResult
    ensures { Encodes result (λ answer. Runs answer start.now calls.now texts.now buffer.old buffer.new) }
{
    encode(run(alloc, start, calls, texts, buffer))
}

/// Reads a text in one form, makes calls in order on its decimal, and writes the text of the result in another form.
///
/// The operands and the tags of the forms are parts of `texts`.
pub fn fd_convert(
    alloc: Global,
    text: &[u8],
    forms: &FdForms,
    calls: &[FdCall],
    texts: &[u8],
    buffer: &mut [u8],
) -> FdResult
    ensures { Encodes result
        (λ answer. ConvertsCalls answer text.now forms.now calls.now texts.now buffer.old buffer.new) }
{
    encode(convert(alloc, text, forms, calls, texts, buffer))
}

/// Converts each line as [`fd_convert`] does, and writes the text of each with a line feed.
///
/// A line that fails ends the column; with `skip` it is an empty line, except when out of memory. A line whose output
/// does not fit the buffer ends it too: the next call begins at `read`.
pub fn fd_lines(
    alloc: Global,
    lines: &[u8],
    skip: u32,
    forms: &FdForms,
    calls: &[FdCall],
    texts: &[u8],
    buffer: &mut [u8],
) -> FdColumn
    ensures { ConvertsColumn result lines.now (nat_lt 0 skip) forms.now calls.now texts.now buffer.old buffer.new }
{
    convert_column(alloc, lines, skip > 0, forms, calls, texts, buffer)
}

/// Formats a decimal as `Intl.NumberFormat` does, by the locale of a tag and its options.
///
/// The errors, the first that holds: `UnknownOption`; `DigitOptions`, if ECMA-402 has an error for the numbers of
/// digits; `UnknownLocale`; `UnknownNumberingSystem`; of the text; `Overflow`, if the number that is shown is beyond
/// the limits; `BufferTooSmall`.
pub fn fd_format_number(
    alloc: Global,
    text: &[u8],
    locale: &[u8],
    options: &FdNumberOptions,
    buffer: &mut [u8],
) -> FdResult
    ensures { Encodes result
        (λ answer. FormatsNumber answer text.now locale.now options.now buffer.old buffer.new) }
{
    match FdFormatter::by_options(locale, options) {
        Ok(formatter) => fd_format(alloc, &formatter, text, buffer),
        Err(error) => encode(Err(error)),
    }
}

/// Reads a number that [`fd_format_number`] writes by this tag and these options, and writes the own text of the value
/// that is shown. With `lenient` the number may be as people type it.
///
/// The errors, the first that holds: as `fd_format_number` of the options and the locale; `UnreadableFormat`, if the
/// formatter has no reader; of the text; `BufferTooSmall`.
pub fn fd_read_number(
    alloc: Global,
    text: &[u8],
    locale: &[u8],
    options: &FdNumberOptions,
    lenient: u32,
    buffer: &mut [u8],
) -> FdResult
    ensures { Encodes result
        (λ answer. ReadsNumber answer text.now locale.now options.now (nat_lt 0 lenient) buffer.old buffer.new) }
{
    match FdFormatter::by_options(locale, options) {
        Ok(formatter) => fd_read(alloc, &formatter, text, lenient, buffer),
        Err(error) => encode(Err(error)),
    }
}

/// As [`fd_format_number`], by a number skeleton of ICU.
///
/// The errors: as there, but of the options those of the skeleton, with its byte.
pub fn fd_format_by_skeleton(
    alloc: Global,
    text: &[u8],
    locale: &[u8],
    skeleton: &[u8],
    buffer: &mut [u8],
) -> FdResult
    ensures { Encodes result
        (λ answer. FormatsBySkeleton answer text.now locale.now skeleton.now buffer.old buffer.new) }
{
    match FdFormatter::by_skeleton(locale, skeleton) {
        Ok(formatter) => fd_format(alloc, &formatter, text, buffer),
        Err(error) => encode(Err(error)),
    }
}

/// As [`fd_read_number`], by a number skeleton of ICU.
///
/// The errors: as there, of the skeleton as `fd_format_by_skeleton`.
pub fn fd_read_by_skeleton(
    alloc: Global,
    text: &[u8],
    locale: &[u8],
    skeleton: &[u8],
    lenient: u32,
    buffer: &mut [u8],
) -> FdResult
    ensures { Encodes result
        (λ answer. ReadsBySkeleton answer text.now locale.now skeleton.now (nat_lt 0 lenient) buffer.old buffer.new) }
{
    match FdFormatter::by_skeleton(locale, skeleton) {
        Ok(formatter) => fd_read(alloc, &formatter, text, lenient, buffer),
        Err(error) => encode(Err(error)),
    }
}

/// Returns the numbers of the unit that a text names, for [`FdNumberOptions`]: one of the 45 units of ECMA-402, or two
/// of them with `-per-` between them. They are the same in this process.
///
/// The error: `UnknownUnit`.
pub fn fd_unit(text: &[u8]) -> FdUnits
    ensures { EncodesUnits result (λ answer. IsUnitNamed answer text.now) }
{
    encode_units(unit_named(text))
}

/// Writes the name of the unit with a number: that of [`fd_unit`], or of the options of a formatter.
///
/// The errors: `UnknownOption`, if no unit has the number; `BufferTooSmall`.
pub fn fd_unit_name(number: u32, buffer: &mut [u8]) -> FdResult
    ensures { Encodes result (λ answer. WritesUnitName answer number buffer.old buffer.new) }
{
    encode(write_name(number, buffer))
}

/// Makes the formatter of a tag and options, so that they are looked up once.
///
/// The errors: as `fd_format_number` of the options and the locale.
pub fn fd_formatter_by_options(locale: &[u8], options: &FdNumberOptions) -> FdMade
    ensures { EncodesMade result (λ answer. MakesByOptions answer locale.now options.now) }
{
    encode_made(FdFormatter::by_options(locale, options))
}

/// As [`fd_formatter_by_options`], by a number skeleton of ICU.
///
/// The errors: as `fd_format_by_skeleton` of the skeleton and the locale.
pub fn fd_formatter_by_skeleton(locale: &[u8], skeleton: &[u8]) -> FdMade
    ensures { EncodesMade result (λ answer. MakesBySkeleton answer locale.now skeleton.now) }
{
    encode_made(FdFormatter::by_skeleton(locale, skeleton))
}

/// Formats a decimal by a formatter. Any bytes are allowed in it.
///
/// The errors, the first that holds: `Formatter`, if the bytes are none; of the text; `Overflow`, if the number that is
/// shown is beyond the limits; `BufferTooSmall`.
pub fn fd_format(alloc: Global, formatter: &FdFormatter, text: &[u8], buffer: &mut [u8]) -> FdResult
    ensures { Encodes result (λ answer. FormatsKept answer formatter.now text.now buffer.old buffer.new) }
{
    encode(formatter.format(alloc, text, buffer))
}

/// Formats each line as [`fd_format`] does, and writes the text of each with a line feed.
///
/// A line that fails ends the column; with `skip` it is an empty line, except when out of memory. A line whose output
/// does not fit the buffer ends it too: the next call begins at `read`.
pub fn fd_format_column(
    alloc: Global,
    formatter: &FdFormatter,
    lines: &[u8],
    skip: u32,
    buffer: &mut [u8],
) -> FdColumn
    ensures { FormatsColumn result formatter.now lines.now (nat_lt 0 skip) buffer.old buffer.new }
{
    format_column(alloc, formatter, lines, skip > 0, buffer)
}

/// Formats a decimal as [`fd_format`] does, and writes the parts of the text to an array: consecutive bytes of one kind
/// are one part.
///
/// The errors: as there, and then `PartsTooSmall`. On an error the buffer and the array are as they were.
pub fn fd_format_parts(
    alloc: Global,
    formatter: &FdFormatter,
    text: &[u8],
    buffer: &mut [u8],
    parts: &mut [FdPart],
) -> FdParted
    ensures { FormatsPartsKept result formatter.now text.now buffer.old buffer.new parts.old parts.new }
{
    format_parts(alloc, formatter, text, buffer, parts)
}

/// Formats the range of two decimals by a formatter, in any order: `1–2`, or `~1` of two that are shown alike.
///
/// The errors, the first that holds: `Formatter`; of the text of the first one, and then of the second one, by its
/// place 1; `Overflow`, if the number that is shown is beyond the limits, with the same places; `BufferTooSmall`.
pub fn fd_format_range(
    alloc: Global,
    formatter: &FdFormatter,
    start: &[u8],
    end: &[u8],
    buffer: &mut [u8],
) -> FdResult
    ensures { Encodes result (λ answer. FormatsRange answer formatter.now start.now end.now buffer.old buffer.new) }
{
    encode(format_range(alloc, formatter, start, end, buffer))
}

/// Formats the range of two decimals as [`fd_format_range`] does, and writes the parts of the text to an array as
/// [`fd_format_parts`] does. The source of a part is 1 if all of it belongs to the first number, 2 if to the second
/// one, and else 0.
///
/// The errors: as there, and then `PartsTooSmall`. On an error the buffer and the array are as they were.
pub fn fd_format_range_parts(
    alloc: Global,
    formatter: &FdFormatter,
    start: &[u8],
    end: &[u8],
    buffer: &mut [u8],
    parts: &mut [FdPart],
) -> FdParted
    ensures { FormatsRangeParts result formatter.now start.now end.now buffer.old buffer.new parts.old parts.new }
{
    format_range_parts(alloc, formatter, start, end, buffer, parts)
}

/// Reads a number that [`fd_format`] writes, and writes the own text of the value that is shown. With `lenient` the
/// number may be as people type it.
///
/// The errors, the first that holds: `Formatter`; `UnreadableFormat`, if the formatter has no reader; of the text;
/// `BufferTooSmall`.
pub fn fd_read(
    alloc: Global,
    formatter: &FdFormatter,
    text: &[u8],
    lenient: u32,
    buffer: &mut [u8],
) -> FdResult
    ensures { Encodes result
        (λ answer. ReadsKept answer formatter.now text.now (nat_lt 0 lenient) buffer.old buffer.new) }
{
    encode(read_number(alloc, formatter, text, lenient > 0, buffer))
}

/// Returns the options of a formatter with their defaults, and the name of its numbering system.
///
/// The error is `Formatter`.
pub fn fd_resolved(formatter: &FdFormatter) -> FdResolution
    ensures { EncodesResolution result (λ answer. IsResolved answer formatter.now) }
{
    encode_resolution(formatter.resolved())
}

/// Writes the line of a status, as the programs print it. An error of a text after the first is that of the end of a
/// range. An overflow at the number of calls, which is 0 for a function without calls, or above is that of the format.
///
/// The errors: `UnknownOption`, if there is no such status; `BufferTooSmall`.
pub fn fd_status_text(status: u32, at: usize, calls: usize, buffer: &mut [u8]) -> FdResult
    ensures { Encodes result (λ answer. WritesLine (status_line status at calls) answer buffer.old buffer.new) }
{
    encode(write_status(status, at, calls, buffer))
}

/// Writes a number skeleton that reads as the options of a number.
///
/// The errors, the first that holds: `UnknownOption`; `DigitOptions`; `NoSkeleton`; `BufferTooSmall`.
pub fn fd_skeleton(alloc: Global, options: &FdNumberOptions, buffer: &mut [u8]) -> FdResult
    ensures { Encodes result (λ answer. WritesSkeleton answer options.now buffer.old buffer.new) }
{
    encode(write_skeleton(alloc, options, buffer))
}

/// Compares the numbers of two decimals: -1, 0 or 1.
pub fn fd_compare(alloc: Global, left: &[u8], right: &[u8]) -> FdNumber
    ensures { EncodesNumber result (λ answer. Compares answer left.now right.now) }
{
    encode_number(compare_texts(alloc, left, right))
}

/// Returns the key of the number of a decimal: the number in units of 10^-18.
///
/// The errors: of the text; `NotWhole`, if the number has more than 18 fraction digits; `OutOfRange`, if it has more
/// than 128 bits in these units, or the decimal shows so many leading zeros that it cannot be shifted by 18.
pub fn fd_key_of(alloc: Global, text: &[u8]) -> FdKeyed
    ensures { EncodesKey result (λ answer. HasKey answer text.now) }
{
    encode_key(key_of(alloc, text))
}

/// Compares the numbers of two keys: -1, 0 or 1. There is no error.
pub fn fd_compare_keys(left: &FdKey, right: &FdKey) -> FdNumber
    ensures { EncodesNumber result (λ answer. ComparesKeys answer left.now right.now) }
{
    encode_number(Ok(compare_keys(left, right)))
}

/// Returns 1 if two decimals are the same value, with the same sign and range, and else 0.
pub fn fd_equal(alloc: Global, left: &[u8], right: &[u8]) -> FdNumber
    ensures { EncodesNumber result (λ answer. Equates answer left.now right.now) }
{
    encode_number(equal_texts(alloc, left, right))
}

/// Returns the sign that a decimal shows: -1 a minus, 0 none, 1 a plus.
pub fn fd_sign(alloc: Global, text: &[u8]) -> FdNumber
    ensures { EncodesNumber result (λ answer. HasSign answer text.now) }
{
    encode_number(sign_of(alloc, text))
}

/// Converts a decimal to a signed integer.
pub fn fd_to_i64(alloc: Global, text: &[u8]) -> FdNumber
    ensures { EncodesNumber result (λ answer. HasI64 answer text.now) }
{
    encode_number(to_i64(alloc, text))
}

/// Converts a decimal to an unsigned integer.
pub fn fd_to_u64(alloc: Global, text: &[u8]) -> FdUnsigned
    ensures { EncodesUnsigned result (λ answer. HasU64 answer text.now) }
{
    encode_unsigned(to_u64(alloc, text))
}

/// Returns the plural category of a decimal by rules in CLDR's syntax: 0 zero, 1 one, 2 two, 3 few, 4 many, 5 other.
pub fn fd_category(alloc: Global, rules: &[u8], text: &[u8]) -> FdNumber
    ensures { EncodesNumber result (λ answer. HasCategory answer rules.now text.now) }
{
    encode_number(category_of(alloc, rules, text))
}

/// Returns the number of the locale of a tag, for the forms of [`fd_convert`] and [`fd_lines`]: at least 1, and the
/// same in this process.
pub fn fd_locale(tag: &[u8]) -> FdUnsigned
    ensures { EncodesUnsigned result (λ answer. IsLocaleNumber answer tag.now) }
{
    encode_unsigned(number_of_locale(tag))
}

/// Returns the number of the plural rules of a tag, for [`fd_category_of`]: at least 1, and the same in this process.
/// `rule_type` is 0 for numbers of things and 1 for places in an order.
pub fn fd_plural_rules(tag: &[u8], rule_type: u32) -> FdUnsigned
    ensures { EncodesUnsigned result (λ answer. IsRulesNumber answer tag.now rule_type) }
{
    encode_unsigned(number_of_plural_rules(tag, rule_type))
}

/// Returns the number of the plural rules that a word names, for [`fd_category_of`], if it is a tag, or a tag with
/// `:cardinal` or `:ordinal`: as `fd_plural_rules`. For each other word, which is a text of rules or none, it is 0.
pub fn fd_rules(word: &[u8]) -> FdUnsigned
    ensures { EncodesUnsigned result (λ answer. IsNamedRulesNumber answer word.now) }
{
    encode_unsigned(number_of_named_rules(word))
}

/// Returns the plural category of a decimal, as [`fd_category`], by the rules with a number.
pub fn fd_category_of(alloc: Global, rules: u64, text: &[u8]) -> FdNumber
    ensures { EncodesNumber result (λ answer. HasCategoryOf answer rules text.now) }
{
    encode_number(category_by(alloc, rules, text))
}

/// Returns the plural category of a range of numbers in the language of a tag, by the categories of its first and of
/// its second number: that of `1–5 days`. Cardinal and ordinal numbers have the same ones.
///
/// The errors, the first that holds: `UnknownOption`, if there is no such category; `UnknownLocale`.
pub fn fd_category_range(tag: &[u8], start: u32, end: u32) -> FdNumber
    ensures { EncodesNumber result (λ answer. IsRangeCategory answer tag.now start end) }
{
    encode_number(range_category(tag, start, end))
}

/// Reads a word as the programs do: `read:LOCALE[:lenient][:SKELETON]`, a call, or
/// `format:LOCALE[:GROUPING|:SKELETON]`. Offsets in the call and in the form count from the first byte of the word.
///
/// The errors: `UnknownCall`, if it is no word; `UnknownLocale`, if the tag is empty and there is no skeleton.
pub fn fd_parse_word(word: &[u8]) -> FdWord
    ensures { IsWord word.now result }
{
    parse_word(word)
}
