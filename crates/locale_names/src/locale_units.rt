//! The patterns of units in a locale.
ghost use Rattle.std.specs.{Prelude.{◌≡◌, ◌≤◌, ◌/◌, ◌%◌, ◌^◌, find, length, slice_get}, Option.option_copied};
ghost use Rattle.locale_names.specs.LocaleUnits.{as_one_unit, is_pair, list_of, joiner_of, run_at, AreRowsOf, pattern_of, entries_of, unit_pattern, singular, denominator, joined, joined_texts, outer_pattern, outer_of, around_number, around_inner, IsAround, AreShort, AreShortAround};

use crate::entries::{PER, entries_in, entry_for, entry_of, run_in};
use crate::locale_row::row_for;
use crate::tables::rows::locales::LocaleNames;
use crate::tables::rows::units::{Compound, UnitJoiner};
use crate::tables::units::{COMPOUNDS, UNIT_ENTRIES, UNIT_JOINERS, UNIT_RUNS, UNITS};
use crate::texts::{short_text, unit_text};
use crate::unit_id::Unit;
use plural_rules::PluralCategory;

/// The width of a unit: `unitDisplay` of ECMA-402, and UTS 35 part 2, Unit Elements.
///
/// ```
/// let day = Unit::try_from_str("day")?;
/// unit_patterns("en", day, UnitDisplay::Narrow).pattern(PluralCategory::Other) // 2d
/// ```
#[derive(Clone, Copy, Debug, PartialEq)]
pub enum UnitDisplay {
    /// `5 kilometers per hour`
    Long,
    /// `5 km/h`
    Short,
    /// `5km/h`
    Narrow,
}

/// The patterns of a unit in a locale, as rows of tables. They are the same as long as the tables are.
///
/// ```
/// let speed = Unit::try_from_str("kilometer-per-hour")?;
/// unit_patterns("de", speed, UnitDisplay::Short).pattern(PluralCategory::Other) // 5 km/h
/// ```
#[derive(Clone, Copy)]
pub struct UnitPatterns {
    /// The run of the patterns of the unit, or of the first of two.
    pub unit: u32,
    /// The rows of the second unit.
    pub per: Option<PerPatterns>,
}

/// The patterns of a unit after `per`, as rows of tables.
///
/// ```
/// let unit = Unit::try_from_str("gram-per-second")?;
/// unit_patterns("de", unit, UnitDisplay::Long).per // Some: the patterns of `pro Sekunde`
/// ```
#[derive(Clone, Copy)]
pub struct PerPatterns {
    /// The run of its patterns.
    pub unit: u32,
    /// The index of the pattern of two units.
    pub joiner: u8,
}

/// What is written around a number of a unit, its sign included: texts one after another, of at most 255 bytes each.
///
/// ```
/// let day = Unit::try_from_str("day")?;
/// unit_patterns("en", day, UnitDisplay::Long).pattern(PluralCategory::Other).suffix // " days"
/// ```
#[derive(Clone, Copy)]
pub struct UnitPattern {
    /// The texts before the unit, if there is a second one.
    pub before: [&'static str; 3],
    /// The text of the unit before the number.
    pub prefix: &'static str,
    /// Whether the number is written at all.
    pub has_number: bool,
    /// The text of the unit after the number.
    pub suffix: &'static str,
    /// The texts after the unit, if there is a second one.
    pub after: [&'static str; 3],
}

/// The pattern of one unit.
#[derive(Clone, Copy)]
struct InnerPattern {
    prefix: &'static str,
    has_number: bool,
    suffix: &'static str,
}

/// What is written around a unit before `per`.
#[derive(Clone, Copy)]
struct OuterPattern {
    before: [&'static str; 3],
    after: [&'static str; 3],
}

/// Nothing around a unit.
const NO_OUTER: OuterPattern = OuterPattern {
    before: ["", "", ""],
    after: ["", "", ""],
};

fn list_of(locale: &LocaleNames, display: UnitDisplay) -> u16
    ensures { result ≡ list_of locale.now display }
{
    match display {
        UnitDisplay::Long => locale.long,
        UnitDisplay::Short => locale.short,
        UnitDisplay::Narrow => locale.narrow,
    }
}

fn joiner_of(locale: &LocaleNames, display: UnitDisplay) -> u8
    ensures { result ≡ joiner_of locale.now display }
{
    match display {
        UnitDisplay::Long => locale.long_joiner,
        UnitDisplay::Short => locale.short_joiner,
        UnitDisplay::Narrow => locale.narrow_joiner,
    }
}

fn run_at(list: u16, unit: u8) -> u32
    ensures { result ≡ run_at list unit }
{
    run_in(&UNIT_RUNS, list as usize * UNITS.len() + unit as usize)
}

fn pair_in(compounds: &[Compound], numerator: u8, denominator: u8) -> Option<&Compound>
    ensures { option_copied result ≡ find (is_pair numerator denominator) compounds.now }
{
    for compound in compounds {
        if compound.numerator == numerator && compound.denominator == denominator {
            return Some(compound);
        }
    }
    None
}

fn as_one_unit(unit: u8, per: Option<u8>) -> (u8, Option<u8>)
    ensures { result ≡ as_one_unit unit per }
{
    let Some(denominator) = per else {
        return (unit, None);
    };
    match pair_in(&COMPOUNDS, unit, denominator) {
        Some(compound) => (compound.unit, None),
        None => (unit, per),
    }
}

/// Returns the patterns of a unit in a locale.
///
/// They are those of the listed locale with the longest tag that is `tag` or has a hyphen after it there, and without
/// one those of root. CLDR falls back from long and narrow patterns to short ones; the tables have what it finds.
///
/// ```
/// let unit = Unit::try_from_str("day")?;
/// unit_patterns("de", unit, UnitDisplay::Long).pattern(PluralCategory::One) // 1 Tag
/// ```
pub fn unit_patterns(tag: &str, unit: Unit, display: UnitDisplay) -> UnitPatterns
    ensures { AreRowsOf tag.now unit display result }
{
    let locale = row_for(tag.as_bytes());
    let list = list_of(&locale, display);
    let per = match unit.per {
        Some(per) => Some(per.index()),
        None => None,
    };
    let (unit, per) = as_one_unit(unit.unit.index(), per);
    UnitPatterns {
        unit: run_at(list, unit),
        per: match per {
            Some(per) => Some(PerPatterns {
                unit: run_at(list, per),
                joiner: joiner_of(&locale, display),
            }),
            None => None,
        },
    }
}

fn start_of(entry: u64) -> usize
    ensures { result ≡ entry / 2 ^ 32 }
{
    (entry / (1 << 32)) as usize
}

fn len_of(entry: u64) -> u8
    ensures { result ≡ entry / 2 ^ 24 % 256 }
{
    (entry / (1 << 24) % 256) as u8
}

fn place_of(entry: u64) -> u8
    ensures { result ≡ entry / 2 ^ 16 % 256 }
{
    (entry / (1 << 16) % 256) as u8
}

fn pattern_of(entry: u64) -> InnerPattern
    ensures value { around_inner result ≡ pattern_of entry }
    ensures short { (length result.prefix.now ≤ 255) × (length result.suffix.now ≤ 255) }
{
    let (start, place) = (start_of(entry), place_of(entry));
    InnerPattern {
        prefix: unit_text(start, place),
        has_number: entry / (1 << 8) % 256 == 1,
        suffix: unit_text(start + place as usize, len_of(entry).saturating_sub(place)),
    }
}

fn entries_of(run: u32) -> &'static [u64]
    ensures { result.now ≡ entries_of run }
{
    entries_in(&UNIT_ENTRIES, run)
}

fn unit_pattern(run: u32, category: PluralCategory) -> InnerPattern
    ensures value { around_inner result ≡ unit_pattern run category }
    ensures short { (length result.prefix.now ≤ 255) × (length result.suffix.now ≤ 255) }
{
    match entry_for(entries_of(run), category) {
        Some(entry) => pattern_of(*entry),
        None => InnerPattern {
            prefix: "",
            has_number: true,
            suffix: "",
        },
    }
}

fn singular(run: u32) -> &'static str
    ensures value { result.now ≡ singular run }
    ensures short { length result.now ≤ 255 }
{
    match entry_for(entries_of(run), PluralCategory::One) {
        Some(entry) => unit_text(start_of(*entry), len_of(*entry)),
        None => "",
    }
}

fn denominator(run: u32) -> &'static str
    ensures value { result.now ≡ denominator run }
    ensures short { length result.now ≤ 255 }
{
    singular(run).trim()
}

fn joined(joiner: &UnitJoiner, second: &'static str) -> OuterPattern
    requires { length second.now ≤ 255 }
    ensures before { joined_texts result.before ≡ (joined joiner.now second.now).prefix }
    ensures after { joined_texts result.after ≡ (joined joiner.now second.now).suffix }
    ensures short { AreShort result.before × AreShort result.after }
{
    let before = short_text(joiner.before);
    let between = short_text(joiner.between);
    let after = short_text(joiner.after);
    if joiner.numerator_first {
        OuterPattern {
            before: ["", "", before],
            after: [between, second, after],
        }
    } else {
        OuterPattern {
            before: [before, second, between],
            after: ["", "", after],
        }
    }
}

fn joiner_at(joiners: &[UnitJoiner], index: u8) -> Option<&UnitJoiner>
    ensures { option_copied result ≡ slice_get joiners.now index }
{
    joiners.get(index as usize)
}

fn outer_pattern(per: PerPatterns) -> OuterPattern
    ensures before { joined_texts result.before ≡ (outer_pattern per).prefix }
    ensures after { joined_texts result.after ≡ (outer_pattern per).suffix }
    ensures short { AreShort result.before × AreShort result.after }
{
    if let Some(entry) = entry_of(entries_of(per.unit), PER) {
        let pattern = pattern_of(*entry);
        return OuterPattern {
            before: ["", "", pattern.prefix],
            after: ["", "", pattern.suffix],
        };
    }
    match joiner_at(&UNIT_JOINERS, per.joiner) {
        Some(joiner) => joined(joiner, denominator(per.unit)),
        None => NO_OUTER,
    }
}

impl UnitPatterns {
    fn outer(self) -> OuterPattern
        ensures before { joined_texts result.before ≡ (outer_of self).prefix }
        ensures after { joined_texts result.after ≡ (outer_of self).suffix }
        ensures short { AreShort result.before × AreShort result.after }
    {
        match self.per {
            Some(per) => outer_pattern(per),
            None => NO_OUTER,
        }
    }

    /// Returns what is written around a number of a plural category.
    ///
    /// The pattern is that of the unit for this category, or else for `other`. The second of two units has the pattern
    /// that its locale has for it after `per`, and otherwise its text for the category `one`.
    ///
    /// UTS 35 part 2, Compound Units.
    pub fn pattern(self, category: PluralCategory) -> UnitPattern
        ensures value { IsAround (around_number self category) result }
        ensures short { AreShortAround result }
    {
        let outer = self.outer();
        let inner = unit_pattern(self.unit, category);
        UnitPattern {
            before: outer.before,
            prefix: inner.prefix,
            has_number: inner.has_number,
            suffix: inner.suffix,
            after: outer.after,
        }
    }
}
