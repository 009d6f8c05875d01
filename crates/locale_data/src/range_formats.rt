//! How a locale writes ranges of numbers.
ghost use Rattle.std.specs.Prelude.{◌≡◌};
ghost use Rattle.locale_data.specs.{declared.tables.ranges.TheConstants.LOCALE_RANGES, Rows.IsRowOf, RangeFormats.{separator_text, sign_text, rows_in, IsRangeFormat}};

use crate::search::{Row, row_in, row_named, row_of};
use crate::tables::ranges::{LOCALE_RANGES, RANGE_SYSTEMS, RANGES_BY_SYSTEM, ROOT_RANGE};
use crate::tables::rows::Name;
use crate::tables::rows::ranges::{
    ApproximatelySign, LocaleRange, RangeFormat, RangeSeparator, RangeSystem,
};

impl RangeSeparator {
    /// Returns the text, with its spaces.
    pub fn text(self) -> &'static str
        ensures { result.now ≡ separator_text self }
    {
        match self {
            RangeSeparator::Hyphen => "-",
            RangeSeparator::SpacedHyphen => " - ",
            RangeSeparator::FigureDash => "\u{2012}",
            RangeSeparator::EnDash => "\u{2013}",
            RangeSeparator::SpacedEnDash => " \u{2013} ",
            RangeSeparator::ThinSpacedEnDash => "\u{2009}\u{2013}\u{2009}",
            RangeSeparator::EmDash => "\u{2014}",
            RangeSeparator::Tilde => "~",
            RangeSeparator::FullwidthTilde => "\u{ff5e}",
        }
    }
}

impl ApproximatelySign {
    /// Returns the text.
    pub fn text(self) -> &'static str
        ensures { result.now ≡ sign_text self }
    {
        match self {
            ApproximatelySign::Tilde => "~",
            ApproximatelySign::TildeOperator => "\u{223c}",
            ApproximatelySign::AsymptoticallyEqual => "\u{2243}",
            ApproximatelySign::AlmostEqual => "\u{2248}",
            ApproximatelySign::Hyphen => "-",
            ApproximatelySign::Yaku => "\u{7d04}",
            ApproximatelySign::Circa => "ca.",
            ApproximatelySign::Daasi => "d\u{e1}\u{e0}\u{1e63}\u{ec}",
            ApproximatelySign::Daashi => "d\u{e1}\u{e0}sh\u{ec}",
        }
    }
}

impl Row for LocaleRange {
    ghost name = { λ locale. locale.tag };

    fn name(&self) -> Name {
        self.tag
    }
}

impl Row for RangeSystem {
    ghost name = { λ system. system.name };

    fn name(&self) -> Name {
        self.name
    }
}

fn row_in_system(system: &[u8], tag: &[u8]) -> Option<LocaleRange>
    ensures { IsRowOf (λ l. l.tag) (rows_in system.now) tag.now result }
{
    match row_named(&RANGE_SYSTEMS, system) {
        Some(system) => row_in(&RANGES_BY_SYSTEM, system.rows, tag).copied(),
        None => None,
    }
}

fn row_in_latin(tag: &[u8]) -> Option<LocaleRange>
    ensures { IsRowOf (λ l. l.tag) LOCALE_RANGES tag.now result }
{
    row_of(&LOCALE_RANGES, tag).copied()
}

/// Returns how a tag, as `locale` has it, writes ranges in a numbering system, as `latn`.
///
/// The listed locale with the longest tag that is `tag` or has a hyphen after it there decides: by its texts in the
/// numbering system, or else by those in `latn`, or else by those of root. Every tag and every system have texts;
/// [`locale`](crate::locale) decides which are known. (UTS 35, part 3, Number Symbols and Miscellaneous Patterns:
/// `approximatelySign` and `range`.)
///
/// ```
/// range_format("de", "latn").separator.text() // –
/// range_format("ja", "latn").approximately.text() // 約
/// ```
pub fn range_format(tag: &str, system: &str) -> RangeFormat
    ensures { IsRangeFormat tag.now system.now result }
{
    let tag = tag.as_bytes();
    let own = row_in_system(system.as_bytes(), tag);
    match own.or(row_in_latin(tag)) {
        Some(locale) => locale.format,
        None => ROOT_RANGE,
    }
}
