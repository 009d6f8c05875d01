//! What is written around the whole text of a number, its sign included: the text of a unit, or the name of a currency.
ghost use Rattle.std.specs.Prelude.{◌≡◌, ◌≤◌, ◌++◌, [], length, true};
ghost use Rattle.locale_names.specs.LocaleUnits.{joined_texts, around_number, AreShort};
ghost use Rattle.number_format.specs.{FormattedNumbers.IsOuter, NumberStyles.{hides_per, is_percentage, outer_alone, outer_for, shows_name, AreNameTexts, AreOuterTexts, AreUnitTexts}, NumberText.{around_texts, name_texts, place_of, with_number}, PatternTexts.around, TextParts.parts_text};
ghost use Rattle.locale_names.specs.LocaleCurrencies.{name_for, pattern_for};

use crate::format::text_part::{PartKind, TextPart};
use crate::options::{CurrencyStyle, NumberNotation, NumberStyle, PerDisplay, UnitStyle};
use locale_data::UnitAffixes;
use locale_names::{CurrencyNames, UnitDisplay, UnitPatterns, currency_names, unit_patterns};
use plural_rules::PluralCategory;

/// What is written around the whole text, as rows of tables: the patterns of kilometers for `-1.5 km`, and the names of
/// the euro for `1.50 euros`.
#[derive(Clone, Copy)]
pub enum OuterTexts {
    /// Nothing but the percent sign of compact notation.
    None,
    /// The patterns of a unit. In percent per another unit only ranges are written by them, unless both always are.
    Units(UnitPatterns),
    /// The names of a currency.
    Names(CurrencyNames),
}

/// Texts of one kind around a whole text, or instead of it.
#[derive(Clone, Copy)]
pub(crate) struct OuterAround<'f> {
    pub(crate) kind: PartKind,
    pub(crate) before: [TextPart<'f>; 4],
    pub(crate) has_number: bool,
    pub(crate) after: [TextPart<'f>; 4],
}

fn is_percentage(style: UnitStyle, notation: NumberNotation) -> bool
    ensures { result ≡ is_percentage style notation }
{
    match notation {
        NumberNotation::Compact(_) => false,
        _ => {
            style.unit.unit.name().as_bytes() == b"percent".as_slice()
                && !matches!(style.display, UnitDisplay::Long)
        }
    }
}

/// Returns whether the unit after `per` is not written beside one number: it is `1%` of percent per hour.
fn hides_per(style: UnitStyle, notation: NumberNotation) -> bool
    ensures { result ≡ hides_per style notation }
{
    style.unit.per.is_some()
        && matches!(style.per_display, PerDisplay::Auto)
        && is_percentage(style, notation)
}

impl OuterTexts {
    /// Returns the texts that a style has: those of a unit or of a currency.
    #[inline(always)]
    pub(crate) fn in_style(self, style: NumberStyle) -> OuterTexts
        ensures { result ≡ outer_for style self }
    {
        match style {
            NumberStyle::Unit(_) | NumberStyle::Currency(_) => self,
            _ => OuterTexts::None,
        }
    }

    /// Returns the texts around one number, of those around a range.
    #[inline(always)]
    pub(crate) fn alone(self, style: NumberStyle, notation: NumberNotation) -> OuterTexts
        ensures { result ≡ outer_alone style notation self }
    {
        match style {
            NumberStyle::Unit(unit) if hides_per(unit, notation) => OuterTexts::None,
            _ => self,
        }
    }

    /// Finds the texts of a style in a locale.
    pub(crate) fn of(tag: &str, style: NumberStyle, notation: NumberNotation) -> OuterTexts
        ensures { AreOuterTexts tag.now style notation result }
    {
        match style {
            NumberStyle::Unit(unit) => {
                let has_none = unit.unit.per.is_none() && is_percentage(unit, notation);
                Self::of_unit(tag, unit, has_none)
            }
            NumberStyle::Currency(style) => Self::of_currency(tag, style),
            _ => OuterTexts::None,
        }
    }

    fn of_unit(tag: &str, style: UnitStyle, is_percentage: bool) -> OuterTexts
        ensures { AreUnitTexts is_percentage tag.now style result }
    {
        if is_percentage {
            return OuterTexts::None;
        }
        OuterTexts::Units(unit_patterns(tag, style.unit, style.display))
    }

    fn of_currency(tag: &str, style: CurrencyStyle) -> OuterTexts
        ensures { AreNameTexts (shows_name style.display) tag.now style.code result }
    {
        if style.display.shows_name() {
            return OuterTexts::Names(currency_names(tag, style.code.to_bytes()));
        }
        OuterTexts::None
    }
}

fn is_number_first(names: &CurrencyNames, category: PluralCategory) -> bool
    ensures { result ≡ (place_of (pattern_for names.now category)).0 }
{
    match names.pattern(category) {
        Some(pattern) => pattern.number_first,
        None => true,
    }
}

fn between_text(names: &CurrencyNames, category: PluralCategory) -> &str
    ensures value { result.now ≡ (place_of (pattern_for names.now category)).1 }
    ensures short { length result.now ≤ 255 }
{
    match names.pattern(category) {
        Some(pattern) => pattern.between_text(),
        None => "",
    }
}

fn no_texts(kind: PartKind) -> [TextPart<'static>; 4]
    ensures { parts_text result ≡ [] }
{
    [TextPart::new(kind, ""); 4]
}

fn texts_before<'f>(kind: PartKind, texts: [&'f str; 3], last: &'f str) -> [TextPart<'f>; 4]
    requires texts { AreShort texts }
    requires last { length last.now ≤ 255 }
    ensures { parts_text result ≡ joined_texts texts.entry ++ last.now }
{
    [
        TextPart::new(kind, texts[0]),
        TextPart::new(kind, texts[1]),
        TextPart::new(kind, texts[2]),
        TextPart::new(kind, last),
    ]
}

fn texts_after<'f>(kind: PartKind, first: &'f str, texts: [&'f str; 3]) -> [TextPart<'f>; 4]
    requires texts { AreShort texts }
    requires first { length first.now ≤ 255 }
    ensures { parts_text result ≡ first.now ++ joined_texts texts.entry }
{
    [
        TextPart::new(kind, first),
        TextPart::new(kind, texts[0]),
        TextPart::new(kind, texts[1]),
        TextPart::new(kind, texts[2]),
    ]
}

fn two_texts<'f>(kind: PartKind, first: &'f str, second: &'f str) -> [TextPart<'f>; 4]
    requires first { length first.now ≤ 255 }
    requires second { length second.now ≤ 255 }
    ensures { parts_text result ≡ first.now ++ second.now }
{
    [
        TextPart::new(kind, first),
        TextPart::new(kind, second),
        TextPart::new(kind, ""),
        TextPart::new(kind, ""),
    ]
}

impl OuterAround<'static> {
    pub(crate) fn none() -> Self
        ensures { IsOuter (around [] true []) result }
    {
        let none = no_texts(PartKind::Literal);
        OuterAround {
            kind: PartKind::Literal,
            before: none,
            has_number: true,
            after: none,
        }
    }

    pub(crate) fn of_affixes(unit: UnitAffixes) -> Self
        requires prefix { length unit.prefix.now ≤ 255 }
        requires suffix { length unit.suffix.now ≤ 255 }
        ensures { IsOuter (around_texts PartKind.Unit (with_number unit.prefix.now unit.suffix.now)) result }
    {
        let before = two_texts(PartKind::Unit, unit.prefix, "");
        let after = two_texts(PartKind::Unit, unit.suffix, "");
        OuterAround {
            kind: PartKind::Unit,
            before,
            has_number: true,
            after,
        }
    }

    pub(crate) fn of_unit(rows: UnitPatterns, category: PluralCategory) -> Self
        ensures { IsOuter (around_texts PartKind.Unit (around_number rows category)) result }
    {
        let pattern = rows.pattern(category);
        let before = texts_before(PartKind::Unit, pattern.before, pattern.prefix);
        let after = texts_after(PartKind::Unit, pattern.suffix, pattern.after);
        OuterAround {
            kind: PartKind::Unit,
            before,
            has_number: pattern.has_number,
            after,
        }
    }
}

impl<'f> OuterAround<'f> {
    fn of_texts(name: &'f str, after_name: &'f str, before_name: &'f str, last: &'f str) -> Self
        requires before { (length name.now ≤ 255) × (length after_name.now ≤ 255) }
        requires after { (length before_name.now ≤ 255) × (length last.now ≤ 255) }
        ensures { IsOuter (around_texts PartKind.Currency
            (with_number (name.now ++ after_name.now) (before_name.now ++ last.now))) result }
    {
        let before = two_texts(PartKind::Currency, name, after_name);
        let after = two_texts(PartKind::Currency, before_name, last);
        OuterAround {
            kind: PartKind::Currency,
            before,
            has_number: true,
            after,
        }
    }

    fn named(name: &'f str, number_first: bool, between: &'f str) -> Self
        requires name { length name.now ≤ 255 }
        requires between { length between.now ≤ 255 }
        ensures { IsOuter (around_texts PartKind.Currency (name_texts name.now (number_first, between.now))) result }
    {
        if number_first {
            Self::of_texts("", "", between, name)
        } else {
            Self::of_texts(name, between, "", "")
        }
    }

    pub(crate) fn of_name(names: &'f CurrencyNames, category: PluralCategory) -> Self
        ensures { IsOuter (around_texts PartKind.Currency
            (name_texts (name_for names.now category) (place_of (pattern_for names.now category)))) result }
    {
        let name = names.name(category);
        let between = between_text(names, category);
        Self::named(name, is_number_first(names, category), between)
    }
}
