//! What a locale writes of ranges.
ghost use Rattle.std.specs.Prelude.{◌≡◌, Some, IfSome, IfNone};
ghost use Rattle.locale_data.specs.Locales.{IsUnknown};
ghost use Rattle.number_format.specs.FormattedRanges.{AreRangeTexts};

use crate::format::ids::system_text;
use locale_data::{NumberingSystem, RangeFormat, locale_id, range_format};

/// What a locale writes of ranges: the separator, the approximately sign, and the plural categories of the language.
#[derive(Clone, Copy)]
pub struct RangeTexts<'t> {
    /// The tag, whose language has the plural categories.
    pub(crate) tag: &'t str,
    /// The texts.
    pub(crate) format: RangeFormat,
}

impl<'t> RangeTexts<'t> {
    /// Returns what a locale writes of ranges, by the tag and the numbering system of the formatter.
    ///
    /// A tag is as [`locale`](locale_data::locale) has it. If the options name no numbering system, the texts are those
    /// of the tag's own one. Returns `None` where `locale` does. It does not allocate.
    ///
    /// ```
    /// let formatter = NumberFormatter::for_ranges("de", options)?;
    /// let texts = RangeTexts::of("de", &options.numbering_system)?;
    /// formatter.format_range(alloc, &texts, start, end)? // 1–2
    /// ```
    pub fn of(tag: &'t str, name: &Option<NumberingSystem>) -> Option<RangeTexts<'t>>
        ensures some { IfSome result (AreRangeTexts tag.now name.now) }
        ensures none { IfNone result (IsUnknown tag.now) }
    {
        let id = locale_id(tag)?;
        let system = match system_text(id, name) {
            Some(system) => system,
            None => unreachable!(),
        };
        Some(RangeTexts {
            tag,
            format: range_format(tag, system),
        })
    }

    /// Returns what a locale writes of ranges in the numbering system with a name, as [`of`](Self::of) finds it.
    ///
    /// ```
    /// let texts = RangeTexts::in_system("de", "latn")?;
    /// ```
    pub fn in_system(tag: &'t str, system: &str) -> Option<RangeTexts<'t>>
        ensures some { IfSome result (AreRangeTexts tag.now (Some system.now)) }
        ensures none { IfNone result (IsUnknown tag.now) }
    {
        let _id = locale_id(tag)?;
        let format = range_format(tag, system);
        Some(RangeTexts { tag, format })
    }
}
