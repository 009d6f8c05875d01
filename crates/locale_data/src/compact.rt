//! The compact patterns of locales.
ghost use Rattle.std.specs.{Prelude.{◌≡◌, ◌≤◌, length, slice_get, Some, IfSome, true}, Option.option_copied};
ghost use Rattle.locale_data.specs.{declared.tables.compact.TheConstants.{COMPACT_RUNS, COMPACT_SETS}, Rows.part, Texts.is_text, Compact.{count_code, rows_of, run_at, pattern_with, pattern_for, patterns_in, compact_patterns, needs_category, text_of, has_texts, has_unit_texts, AreTexts, IsRun, AreExponents, unit_for, IsUnitText, IsUnit}};

use crate::number_formats::NumberFormats;
use crate::search::{indexed_row, part};
use crate::tables::compact::{
    COMPACT_BYTES, COMPACT_EXPONENTS, COMPACT_PATTERNS, COMPACT_RUNS, COMPACT_SETS, PERCENT_UNITS,
};
use crate::tables::rows::TableRange;
use crate::tables::rows::compact::{
    AffixText, CompactPattern, CompactRows, CompactRun, CompactSet, PercentUnit, UnitPattern,
};
use crate::texts::text_in;
use plural_rules::PluralCategory;

fn count_code(count: Option<PluralCategory>) -> u8
    ensures { result ≡ count_code count }
{
    match count {
        None => 0,
        Some(PluralCategory::Zero) => 1,
        Some(PluralCategory::One) => 2,
        Some(PluralCategory::Two) => 3,
        Some(PluralCategory::Few) => 4,
        Some(PluralCategory::Many) => 5,
        Some(PluralCategory::Other) => 6,
    }
}

/// A kind of compact patterns.
///
/// UTS 35 part 3, Compact Number Formats; `compactDisplay` of ECMA-402.
///
/// ```
/// let millions = formats_of("de", "latn").compact_patterns(CompactStyle::Long, 6);
/// millions.pattern(PluralCategory::Other, false) // 2 Millionen
/// ```
#[derive(Clone, Copy, Debug, PartialEq)]
pub enum CompactStyle {
    /// `1.2M`
    Short,
    /// `1.2 million`
    Long,
    /// `$1.2M`
    Currency,
}

/// The compact patterns of a magnitude, as a part of the table of patterns.
///
/// ```
/// let millions = formats_of("en", "latn").compact_patterns(CompactStyle::Short, 6);
/// millions.pattern(PluralCategory::Other, false) // 2M
/// ```
#[derive(Clone, Copy)]
pub struct CompactPatterns(pub TableRange);

/// What is written around a number in compact notation with its percent sign.
///
/// ```
/// formats_of("de", "latn").percent_unit(PluralCategory::Other).suffix // " %"
/// ```
#[derive(Clone, Copy)]
pub struct UnitAffixes {
    /// The text before the number; at most 255 bytes.
    pub prefix: &'static str,
    /// The text after the number; at most 255 bytes.
    pub suffix: &'static str,
}

fn rows_of(set: &CompactSet, style: CompactStyle) -> CompactRows
    ensures { result ≡ rows_of set.now style }
{
    match style {
        CompactStyle::Short => set.short,
        CompactStyle::Long => set.long,
        CompactStyle::Currency => set.currency,
    }
}

fn runs_of(set: &CompactSet, style: CompactStyle) -> &'static [CompactRun]
    ensures { result.now ≡ part COMPACT_RUNS (rows_of set.now style).runs }
{
    part(&COMPACT_RUNS, rows_of(set, style).runs)
}

fn run_at(runs: &[CompactRun], magnitude: i16) -> Option<&CompactRun>
    ensures { option_copied result ≡ run_at runs.now magnitude }
{
    for run in runs {
        if run.first as i16 <= magnitude {
            return Some(run);
        }
    }
    None
}

fn pattern_with(
    patterns: &[CompactPattern],
    count: Option<PluralCategory>,
) -> Option<&CompactPattern>
    ensures { option_copied result ≡ pattern_with count patterns.now }
{
    for pattern in patterns {
        if count_code(pattern.count) == count_code(count) {
            return Some(pattern);
        }
    }
    None
}

fn pattern_for(
    patterns: &[CompactPattern],
    category: PluralCategory,
    is_one: bool,
) -> Option<&CompactPattern>
    ensures { option_copied result ≡ pattern_for category is_one patterns.now }
{
    let exact = if is_one {
        pattern_with(patterns, None)
    } else {
        None
    };
    exact
        .or(pattern_with(patterns, Some(category)))
        .or(pattern_with(patterns, Some(PluralCategory::Other)))
}

fn needs_category(patterns: &[CompactPattern]) -> bool
    ensures { result ≡ needs_category patterns.now }
{
    match patterns {
        [] => false,
        [pattern] => count_code(pattern.count) != count_code(Some(PluralCategory::Other)),
        _ => true,
    }
}

fn compact_text(range: TableRange) -> &'static str
    requires { is_text COMPACT_BYTES range ≡ true }
    ensures value { result.now ≡ text_of range }
    ensures short { length result.now ≤ 255 }
{
    text_in(&COMPACT_BYTES, range)
}

impl AffixText {
    /// Returns the text before the currency, or all of it.
    pub fn before_text(&self) -> &'static str
        requires { has_texts self.now ≡ true }
        ensures value { result.now ≡ text_of self.now.before }
        ensures short { length result.now ≤ 255 }
    {
        compact_text(self.before)
    }

    /// Returns the text after the currency.
    pub fn after_text(&self) -> &'static str
        requires { has_texts self.now ≡ true }
        ensures value { result.now ≡ text_of self.now.after }
        ensures short { length result.now ≤ 255 }
    {
        compact_text(self.after)
    }
}

impl CompactPatterns {
    fn patterns(self) -> &'static [CompactPattern]
        ensures { result.now ≡ patterns_in self }
    {
        part(&COMPACT_PATTERNS, self.0)
    }

    /// Returns whether [`pattern`](Self::pattern) depends on `category` or `is_one`.
    ///
    /// ```
    /// formats_of("en", "latn").compact_patterns(CompactStyle::Short, 4).needs_category() // false: 12K
    /// ```
    pub fn needs_category(self) -> bool
        ensures { result ≡ needs_category (patterns_in self) }
    {
        needs_category(self.patterns())
    }

    /// Returns the pattern for a number, if there is one.
    ///
    /// `category` is the plural category of the divided number, and `is_one` whether it is 1 without a sign.
    ///
    /// ```
    /// let patterns = formats_of("de", "latn").compact_patterns(CompactStyle::Long, 6);
    /// patterns.pattern(PluralCategory::One, true) // 1 Million
    /// ```
    pub fn pattern(self, category: PluralCategory, is_one: bool) -> Option<&'static CompactPattern>
        ensures value { option_copied result ≡ pattern_for category is_one (patterns_in self) }
        ensures texts { IfSome result (λ pattern. AreTexts pattern.now) }
    {
        pattern_for(self.patterns(), category, is_one)
    }
}

fn unit_of(unit: &UnitPattern) -> UnitAffixes
    requires { has_unit_texts unit.now ≡ true }
    ensures value { IsUnitText unit.now result }
    ensures short { (length result.prefix.now ≤ 255) × (length result.suffix.now ≤ 255) }
{
    UnitAffixes {
        prefix: compact_text(unit.prefix),
        suffix: compact_text(unit.suffix),
    }
}

fn unit_for(unit: &PercentUnit, category: PluralCategory) -> &UnitPattern
    ensures { result.now ≡ unit_for unit.now category }
{
    match category {
        PluralCategory::One => &unit.one,
        _ => &unit.other,
    }
}

impl NumberFormats {
    fn compact_set(&self) -> &'static CompactSet
        ensures { slice_get COMPACT_SETS self.now.compact ≡ Some result.now }
    {
        indexed_row(&COMPACT_SETS, self.compact as usize)
    }

    fn run(&self, style: CompactStyle, magnitude: i16) -> Option<&'static CompactRun>
        ensures { IsRun self.now style magnitude (option_copied result) }
    {
        run_at(runs_of(self.compact_set(), style), magnitude)
    }

    /// Returns the powers of ten by which numbers are divided in compact notation, for the magnitudes 3 to 19 of their
    /// first digit. That of a magnitude without patterns is 0.
    ///
    /// `ComputeExponentForMagnitude` of ECMA-402.
    ///
    /// ```
    /// formats_of("en", "latn").compact_exponents(CompactStyle::Short)[1] // 3: 12K
    /// ```
    pub fn compact_exponents(&self, style: CompactStyle) -> [u8; 17]
        ensures { AreExponents self.now style result }
    {
        let rows = rows_of(self.compact_set(), style);
        *indexed_row(&COMPACT_EXPONENTS, rows.exponents as usize)
    }

    /// Returns the compact patterns of a number whose first digit is at a magnitude before it is divided.
    ///
    /// Some magnitudes have none, as those below 3.
    pub fn compact_patterns(&self, style: CompactStyle, magnitude: i16) -> CompactPatterns
        ensures { patterns_in result ≡ compact_patterns self.now style magnitude }
    {
        match self.run(style, magnitude) {
            Some(run) => CompactPatterns(run.patterns),
            None => CompactPatterns(TableRange(0, 0)),
        }
    }

    /// Returns what is written around a number in compact notation with its percent sign.
    ///
    /// `category` is the plural category of the number that is not divided.
    pub fn percent_unit(&self, category: PluralCategory) -> UnitAffixes
        ensures value { IsUnit self.now category result }
        ensures short { (length result.prefix.now ≤ 255) × (length result.suffix.now ≤ 255) }
    {
        let unit = indexed_row(&PERCENT_UNITS, self.unit as usize);
        unit_of(unit_for(unit, category))
    }
}
