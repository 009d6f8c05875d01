//! The plural category of a text: of a number, or of a range between two numbers in a locale.
ghost use Rattle.std.specs.{Prelude.{◌≡◌, Ok, IfOk, IfErr}, Option.{option_copied, option_map}, List.list_any};
ghost use Rattle.decimal_unsigned.specs.ParseResult.{ParseFails};
ghost use Rattle.fixed_decimal.specs.Letters.{is_c};
ghost use Rattle.cli.specs.TextCategory.{text_rules, ends_of, read_number, IsLongNumber, read_range, HasLongEnd, read_category, IsLongText};

use fixed_decimal::{CompactDecimal, Decimal, ParseError};
use locale_data::plural_range_category;
use plural_rules::{PluralCategory, PluralOperands, PluralRules};
use std::alloc::Global;
use std::marker::Model;

/// Plural rules, and the tag of the locale that they are those of, if a locale was named.
#[derive(Drop)]
pub struct TextRules<'a> {
    rules: PluralRules,
    tag: Option<&'a str>,
}

impl<'a> Model for TextRules<'a> {
    ghost use Rattle.std.specs.Option.{option_copied};
    ghost use Rattle.cli.specs.TextCategory.{TextRulesValue, text_rules};

    ghost Value = { TextRulesValue };

    ghost view = { λ s. text_rules s.rules (option_copied s.tag) };
}

impl<'a> TextRules<'a> {
    pub fn new(rules: PluralRules, tag: Option<&'a str>) -> Self
        ensures { result ≡ text_rules rules (option_copied tag.entry) }
    {
        TextRules { rules, tag }
    }
}

fn has_c(text: &str) -> bool
    ensures { result ≡ list_any is_c text.now }
{
    text.as_bytes().iter().any(|byte| *byte == b'c')
}

/// Returns the category of a number by rules; a text with a `c` is a compact decimal, and any other a decimal.
fn number_category(
    alloc: Global,
    rules: &PluralRules,
    text: &str,
) -> Result<PluralCategory, ParseError>
    ensures found { IfOk result (λ category. read_number rules.now text.now ≡ Ok category) }
    ensures fails_with { IfErr result
        (λ error. ParseFails (IsLongNumber text.now) error (read_number rules.now text.now)) }
{
    if has_c(text) {
        let number = CompactDecimal::try_from_str(alloc, text)?;
        return Ok(rules.category(&PluralOperands::of_compact(&number)));
    }
    let number = Decimal::try_from_str(alloc, text)?;
    Ok(rules.category(&PluralOperands::of_decimal(&number)))
}

/// Splits a text at its first `..`.
fn split_ends(text: &str) -> Option<(&str, &str)>
    ensures { option_map (λ ends. (ends.0.now, ends.1.now)) result ≡ ends_of text.now }
{
    text.split_once("..")
}

/// Returns the category of a range in a locale.
fn range_category(
    alloc: Global,
    rules: &PluralRules,
    tag: &str,
    ends: (&str, &str),
) -> Result<PluralCategory, ParseError>
    ensures found { IfOk result
        (λ category. read_range rules.now tag.now (ends.entry.0.now, ends.entry.1.now) ≡ Ok category) }
    ensures fails_with { IfErr result (λ error. ParseFails
        (HasLongEnd rules.now (ends.entry.0.now, ends.entry.1.now)) error
        (read_range rules.now tag.now (ends.entry.0.now, ends.entry.1.now))) }
{
    let start = number_category(alloc, rules, ends.0)?;
    let end = number_category(alloc, rules, ends.1)?;
    Ok(plural_range_category(tag, start, end))
}

/// Returns the category of a text: of a range if it has a `..` and a locale was named, and else of a number.
pub fn category(
    alloc: Global,
    rules: &TextRules<'_>,
    text: &str,
) -> Result<PluralCategory, ParseError>
    ensures found { IfOk result (λ category. read_category rules.now text.now ≡ Ok category) }
    ensures fails_with { IfErr result
        (λ error. ParseFails (IsLongText rules.now text.now) error (read_category rules.now text.now)) }
{
    let Some(tag) = rules.tag else {
        return number_category(alloc, &rules.rules, text);
    };
    match split_ends(text) {
        Some(ends) => range_category(alloc, &rules.rules, tag, ends),
        None => number_category(alloc, &rules.rules, text),
    }
}
