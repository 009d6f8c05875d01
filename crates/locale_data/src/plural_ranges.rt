//! The plural categories of ranges of numbers.
ghost use Rattle.std.specs.{Prelude.{◌≡◌, find}, Option.option_copied};
ghost use Rattle.locale_data.specs.PluralRanges.{is_same, is_of, ranges_of, plural_range_category};

use crate::search::{Row, part, row_named};
use crate::tables::plural_ranges::{RANGE_CATEGORIES, RANGE_LANGUAGES};
use crate::tables::rows::Name;
use crate::tables::rows::plurals::{RangeCategory, RangeLanguage};
use crate::tag::first_subtag;
use plural_rules::PluralCategory;

impl Row for RangeLanguage {
    ghost name = { λ language. language.tag };

    fn name(&self) -> Name {
        self.tag
    }
}

fn is_same(first: PluralCategory, second: PluralCategory) -> bool
    ensures { result ≡ is_same first second }
{
    first == second
}

fn is_of(range: &RangeCategory, start: PluralCategory, end: PluralCategory) -> bool
    ensures { result ≡ is_of start end range.now }
{
    is_same(range.start, start) && is_same(range.end, end)
}

fn ranges_of(tag: &[u8]) -> &'static [RangeCategory]
    ensures { result.now ≡ ranges_of tag.now }
{
    match row_named(&RANGE_LANGUAGES, first_subtag(tag)) {
        Some(language) => part(&RANGE_CATEGORIES, language.ranges),
        None => &[],
    }
}

fn range_with(
    ranges: &[RangeCategory],
    start: PluralCategory,
    end: PluralCategory,
) -> Option<&RangeCategory>
    ensures { option_copied result ≡ find (is_of start end) ranges.now }
{
    ranges.iter().find(|range| is_of(*range, start, end))
}

/// Returns the plural category of a range of numbers, as `1–5 days`, by those of its start and its end.
///
/// It is the category that CLDR lists for the two in the language of `tag`, which is the part before the first hyphen.
/// Letters may be of either case, and `_`, `.` and `@` are hyphens. For two categories that are not listed it is
/// `Other`. Cardinal and ordinal numbers have the same table. (UTS 35, part 3, Plural Ranges.)
///
/// ```
/// plural_range_category("ru-RU", PluralCategory::One, PluralCategory::Many) // many
/// plural_range_category("en", PluralCategory::One, PluralCategory::Other) // other
/// ```
#[tactic(auto, unfolding(crate::specs::PluralRanges::plural_range_category))]
pub fn plural_range_category(
    tag: &str,
    start: PluralCategory,
    end: PluralCategory,
) -> PluralCategory
    ensures { result ≡ plural_range_category tag.now start end }
{
    match range_with(ranges_of(tag.as_bytes()), start, end) {
        Some(range) => range.category,
        None => PluralCategory::Other,
    }
}
