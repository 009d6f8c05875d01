//! The exports of the C library: `c/fixed_decimal.h` declares each, and `fixed_decimal_c` says what it does.
#![tactic(auto)]

ghost use Rattle.std.specs.Prelude.{◌≡◌, nat_lt};
ghost use Rattle.fixed_decimal_c.specs.{Encodings.{Encodes, EncodesNumber, EncodesUnsigned}, Conversions.{Runs, ConvertsCalls}, Lines.ConvertsColumn, Numbers.{Compares, Equates, HasSign, HasI64, HasU64}, Locales.{IsLocaleNumber, IsRulesNumber, IsNamedRulesNumber}, Categories.{HasCategory, HasCategoryOf}, Formats.{FormatsNumber, FormatsBySkeleton}, NumberReadings.{ReadsNumber, ReadsBySkeleton}, NumberTexts.WritesSkeleton, KeptFormatters.{EncodesMade, MakesByOptions, MakesBySkeleton, FormatsKept, FormatsColumn, ReadsKept, EncodesResolution, IsResolved}, Units.{EncodesUnits, IsUnitNamed, WritesUnitName}, Parts.FormatsPartsKept, Ranges.{FormatsRange, IsRangeCategory}, RangeParts.FormatsRangeParts, StatusTexts.{WritesLine, status_line}, Keys.{EncodesKey, HasKey, ComparesKeys}, Words.IsWord};

use fixed_decimal_c::{
    FdCall, FdColumn, FdFormatter, FdForms, FdKey, FdKeyed, FdMade, FdNumber, FdNumberOptions,
    FdPart, FdParted, FdResolution, FdResult, FdUnits, FdUnsigned, FdWord,
};
use std::alloc::Global;

#[unsafe(no_mangle)]
pub extern "C" fn fd_version() -> u32
    ensures { result ≡ 8 }
{
    fixed_decimal_c::fd_version()
}

#[unsafe(no_mangle)]
pub extern "C" fn fd_run(
    alloc: Global,
    start: &[u8],
    calls: &[FdCall],
    texts: &[u8],
    buffer: &mut [u8],
) -> FdResult
    ensures { Encodes result (λ answer. Runs answer start.now calls.now texts.now buffer.old buffer.new) }
{
    fixed_decimal_c::fd_run(alloc, start, calls, texts, buffer)
}

#[unsafe(no_mangle)]
pub extern "C" fn fd_convert(
    alloc: Global,
    text: &[u8],
    forms: &FdForms,
    calls: &[FdCall],
    texts: &[u8],
    buffer: &mut [u8],
) -> FdResult
    ensures { Encodes result
        (λ answer. ConvertsCalls answer text.now forms.now calls.now texts.now buffer.old buffer.new) }
{
    fixed_decimal_c::fd_convert(alloc, text, forms, calls, texts, buffer)
}

#[unsafe(no_mangle)]
pub extern "C" fn fd_lines(
    alloc: Global,
    lines: &[u8],
    skip: u32,
    forms: &FdForms,
    calls: &[FdCall],
    texts: &[u8],
    buffer: &mut [u8],
) -> FdColumn
    ensures { ConvertsColumn result lines.now (nat_lt 0 skip) forms.now calls.now texts.now buffer.old buffer.new }
{
    fixed_decimal_c::fd_lines(alloc, lines, skip, forms, calls, texts, buffer)
}

#[unsafe(no_mangle)]
pub extern "C" fn fd_format_number(
    alloc: Global,
    text: &[u8],
    locale: &[u8],
    options: &FdNumberOptions,
    buffer: &mut [u8],
) -> FdResult
    ensures { Encodes result
        (λ answer. FormatsNumber answer text.now locale.now options.now buffer.old buffer.new) }
{
    fixed_decimal_c::fd_format_number(alloc, text, locale, options, buffer)
}

#[unsafe(no_mangle)]
pub extern "C" fn fd_read_number(
    alloc: Global,
    text: &[u8],
    locale: &[u8],
    options: &FdNumberOptions,
    lenient: u32,
    buffer: &mut [u8],
) -> FdResult
    ensures { Encodes result
        (λ answer. ReadsNumber answer text.now locale.now options.now (nat_lt 0 lenient) buffer.old buffer.new) }
{
    fixed_decimal_c::fd_read_number(alloc, text, locale, options, lenient, buffer)
}

#[unsafe(no_mangle)]
pub extern "C" fn fd_format_by_skeleton(
    alloc: Global,
    text: &[u8],
    locale: &[u8],
    skeleton: &[u8],
    buffer: &mut [u8],
) -> FdResult
    ensures { Encodes result
        (λ answer. FormatsBySkeleton answer text.now locale.now skeleton.now buffer.old buffer.new) }
{
    fixed_decimal_c::fd_format_by_skeleton(alloc, text, locale, skeleton, buffer)
}

#[unsafe(no_mangle)]
pub extern "C" fn fd_read_by_skeleton(
    alloc: Global,
    text: &[u8],
    locale: &[u8],
    skeleton: &[u8],
    lenient: u32,
    buffer: &mut [u8],
) -> FdResult
    ensures { Encodes result
        (λ answer. ReadsBySkeleton answer text.now locale.now skeleton.now (nat_lt 0 lenient) buffer.old buffer.new) }
{
    fixed_decimal_c::fd_read_by_skeleton(alloc, text, locale, skeleton, lenient, buffer)
}

#[unsafe(no_mangle)]
pub extern "C" fn fd_unit(text: &[u8]) -> FdUnits
    ensures { EncodesUnits result (λ answer. IsUnitNamed answer text.now) }
{
    fixed_decimal_c::fd_unit(text)
}

#[unsafe(no_mangle)]
pub extern "C" fn fd_unit_name(number: u32, buffer: &mut [u8]) -> FdResult
    ensures { Encodes result (λ answer. WritesUnitName answer number buffer.old buffer.new) }
{
    fixed_decimal_c::fd_unit_name(number, buffer)
}

#[unsafe(no_mangle)]
pub extern "C" fn fd_formatter_by_options(locale: &[u8], options: &FdNumberOptions) -> FdMade
    ensures { EncodesMade result (λ answer. MakesByOptions answer locale.now options.now) }
{
    fixed_decimal_c::fd_formatter_by_options(locale, options)
}

#[unsafe(no_mangle)]
pub extern "C" fn fd_formatter_by_skeleton(locale: &[u8], skeleton: &[u8]) -> FdMade
    ensures { EncodesMade result (λ answer. MakesBySkeleton answer locale.now skeleton.now) }
{
    fixed_decimal_c::fd_formatter_by_skeleton(locale, skeleton)
}

#[unsafe(no_mangle)]
pub extern "C" fn fd_format(
    alloc: Global,
    formatter: &FdFormatter,
    text: &[u8],
    buffer: &mut [u8],
) -> FdResult
    ensures { Encodes result (λ answer. FormatsKept answer formatter.now text.now buffer.old buffer.new) }
{
    fixed_decimal_c::fd_format(alloc, formatter, text, buffer)
}

#[unsafe(no_mangle)]
pub extern "C" fn fd_format_column(
    alloc: Global,
    formatter: &FdFormatter,
    lines: &[u8],
    skip: u32,
    buffer: &mut [u8],
) -> FdColumn
    ensures { FormatsColumn result formatter.now lines.now (nat_lt 0 skip) buffer.old buffer.new }
{
    fixed_decimal_c::fd_format_column(alloc, formatter, lines, skip, buffer)
}

#[unsafe(no_mangle)]
pub extern "C" fn fd_format_parts(
    alloc: Global,
    formatter: &FdFormatter,
    text: &[u8],
    buffer: &mut [u8],
    parts: &mut [FdPart],
) -> FdParted
    ensures { FormatsPartsKept result formatter.now text.now buffer.old buffer.new parts.old parts.new }
{
    fixed_decimal_c::fd_format_parts(alloc, formatter, text, buffer, parts)
}

#[unsafe(no_mangle)]
pub extern "C" fn fd_format_range(
    alloc: Global,
    formatter: &FdFormatter,
    start: &[u8],
    end: &[u8],
    buffer: &mut [u8],
) -> FdResult
    ensures { Encodes result (λ answer. FormatsRange answer formatter.now start.now end.now buffer.old buffer.new) }
{
    fixed_decimal_c::fd_format_range(alloc, formatter, start, end, buffer)
}

#[unsafe(no_mangle)]
pub extern "C" fn fd_format_range_parts(
    alloc: Global,
    formatter: &FdFormatter,
    start: &[u8],
    end: &[u8],
    buffer: &mut [u8],
    parts: &mut [FdPart],
) -> FdParted
    ensures { FormatsRangeParts result formatter.now start.now end.now buffer.old buffer.new parts.old parts.new }
{
    fixed_decimal_c::fd_format_range_parts(alloc, formatter, start, end, buffer, parts)
}

#[unsafe(no_mangle)]
pub extern "C" fn fd_read(
    alloc: Global,
    formatter: &FdFormatter,
    text: &[u8],
    lenient: u32,
    buffer: &mut [u8],
) -> FdResult
    ensures { Encodes result
        (λ answer. ReadsKept answer formatter.now text.now (nat_lt 0 lenient) buffer.old buffer.new) }
{
    fixed_decimal_c::fd_read(alloc, formatter, text, lenient, buffer)
}

#[unsafe(no_mangle)]
pub extern "C" fn fd_resolved(formatter: &FdFormatter) -> FdResolution
    ensures { EncodesResolution result (λ answer. IsResolved answer formatter.now) }
{
    fixed_decimal_c::fd_resolved(formatter)
}

#[unsafe(no_mangle)]
pub extern "C" fn fd_status_text(
    status: u32,
    at: usize,
    calls: usize,
    buffer: &mut [u8],
) -> FdResult
    ensures { Encodes result (λ answer. WritesLine (status_line status at calls) answer buffer.old buffer.new) }
{
    fixed_decimal_c::fd_status_text(status, at, calls, buffer)
}

#[unsafe(no_mangle)]
pub extern "C" fn fd_skeleton(
    alloc: Global,
    options: &FdNumberOptions,
    buffer: &mut [u8],
) -> FdResult
    ensures { Encodes result (λ answer. WritesSkeleton answer options.now buffer.old buffer.new) }
{
    fixed_decimal_c::fd_skeleton(alloc, options, buffer)
}

#[unsafe(no_mangle)]
pub extern "C" fn fd_compare(alloc: Global, left: &[u8], right: &[u8]) -> FdNumber
    ensures { EncodesNumber result (λ answer. Compares answer left.now right.now) }
{
    fixed_decimal_c::fd_compare(alloc, left, right)
}

#[unsafe(no_mangle)]
pub extern "C" fn fd_key_of(alloc: Global, text: &[u8]) -> FdKeyed
    ensures { EncodesKey result (λ answer. HasKey answer text.now) }
{
    fixed_decimal_c::fd_key_of(alloc, text)
}

#[unsafe(no_mangle)]
pub extern "C" fn fd_compare_keys(left: &FdKey, right: &FdKey) -> FdNumber
    ensures { EncodesNumber result (λ answer. ComparesKeys answer left.now right.now) }
{
    fixed_decimal_c::fd_compare_keys(left, right)
}

#[unsafe(no_mangle)]
pub extern "C" fn fd_equal(alloc: Global, left: &[u8], right: &[u8]) -> FdNumber
    ensures { EncodesNumber result (λ answer. Equates answer left.now right.now) }
{
    fixed_decimal_c::fd_equal(alloc, left, right)
}

#[unsafe(no_mangle)]
pub extern "C" fn fd_sign(alloc: Global, text: &[u8]) -> FdNumber
    ensures { EncodesNumber result (λ answer. HasSign answer text.now) }
{
    fixed_decimal_c::fd_sign(alloc, text)
}

#[unsafe(no_mangle)]
pub extern "C" fn fd_to_i64(alloc: Global, text: &[u8]) -> FdNumber
    ensures { EncodesNumber result (λ answer. HasI64 answer text.now) }
{
    fixed_decimal_c::fd_to_i64(alloc, text)
}

#[unsafe(no_mangle)]
pub extern "C" fn fd_to_u64(alloc: Global, text: &[u8]) -> FdUnsigned
    ensures { EncodesUnsigned result (λ answer. HasU64 answer text.now) }
{
    fixed_decimal_c::fd_to_u64(alloc, text)
}

#[unsafe(no_mangle)]
pub extern "C" fn fd_category(alloc: Global, rules: &[u8], text: &[u8]) -> FdNumber
    ensures { EncodesNumber result (λ answer. HasCategory answer rules.now text.now) }
{
    fixed_decimal_c::fd_category(alloc, rules, text)
}

#[unsafe(no_mangle)]
pub extern "C" fn fd_locale(tag: &[u8]) -> FdUnsigned
    ensures { EncodesUnsigned result (λ answer. IsLocaleNumber answer tag.now) }
{
    fixed_decimal_c::fd_locale(tag)
}

#[unsafe(no_mangle)]
pub extern "C" fn fd_plural_rules(tag: &[u8], rule_type: u32) -> FdUnsigned
    ensures { EncodesUnsigned result (λ answer. IsRulesNumber answer tag.now rule_type) }
{
    fixed_decimal_c::fd_plural_rules(tag, rule_type)
}

#[unsafe(no_mangle)]
pub extern "C" fn fd_rules(word: &[u8]) -> FdUnsigned
    ensures { EncodesUnsigned result (λ answer. IsNamedRulesNumber answer word.now) }
{
    fixed_decimal_c::fd_rules(word)
}

#[unsafe(no_mangle)]
pub extern "C" fn fd_category_of(alloc: Global, rules: u64, text: &[u8]) -> FdNumber
    ensures { EncodesNumber result (λ answer. HasCategoryOf answer rules text.now) }
{
    fixed_decimal_c::fd_category_of(alloc, rules, text)
}

#[unsafe(no_mangle)]
pub extern "C" fn fd_category_range(tag: &[u8], start: u32, end: u32) -> FdNumber
    ensures { EncodesNumber result (λ answer. IsRangeCategory answer tag.now start end) }
{
    fixed_decimal_c::fd_category_range(tag, start, end)
}

#[unsafe(no_mangle)]
pub extern "C" fn fd_parse_word(word: &[u8]) -> FdWord
    ensures { IsWord word.now result }
{
    fixed_decimal_c::fd_parse_word(word)
}
