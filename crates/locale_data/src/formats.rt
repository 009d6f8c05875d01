//! The formats of numbers in a locale and a numbering system.
ghost use Rattle.std.specs.Prelude.{◌≡◌, Contains};
ghost use Rattle.locale_data.specs.{declared.tables.formats.TheConstants.FORMAT_SYSTEMS, Formats.{chosen, format_system, IsOwnFormats, IsLatinFormats, AreOfSystem, AreFormatsOf}};

use crate::number_formats::NumberFormats;
use crate::search::{Row, row_in, row_named, row_of};
use crate::tables::formats::{FORMAT_SYSTEMS, FORMATS_BY_SYSTEM, LOCALE_FORMATS, ROOT_FORMATS};
use crate::tables::rows::Name;
use crate::tables::rows::formats::{FormatSystem, LocaleFormats, SystemFormats};

impl Row for LocaleFormats {
    ghost name = { λ locale. locale.tag };

    fn name(&self) -> Name {
        self.tag
    }
}

impl Row for SystemFormats {
    ghost name = { λ locale. locale.tag };

    fn name(&self) -> Name {
        self.tag
    }
}

impl Row for FormatSystem {
    ghost name = { λ system. system.name };

    fn name(&self) -> Name {
        self.name
    }
}

/// No formats: each is that of `latn`.
const NO_FORMATS: SystemFormats = SystemFormats {
    tag: *b"                ",
    percent: None,
    standard: None,
    accounting: None,
    signs: None,
    compact: None,
};

fn chosen(own: Option<u8>, root: Option<u8>, latin: u8) -> u8
    ensures { result ≡ chosen own root latin }
{
    own.or(root).unwrap_or(latin)
}

fn own_formats(system: &FormatSystem, tag: &[u8]) -> SystemFormats
    requires { Contains FORMAT_SYSTEMS system.now }
    ensures { IsOwnFormats tag.now system.now result }
{
    match row_in(&FORMATS_BY_SYSTEM, system.rows, tag) {
        Some(own) => *own,
        None => NO_FORMATS,
    }
}

fn latin_formats(tag: &[u8]) -> LocaleFormats
    ensures { IsLatinFormats tag.now result }
{
    match row_of(&LOCALE_FORMATS, tag) {
        Some(locale) => *locale,
        None => ROOT_FORMATS,
    }
}

fn system_formats(tag: &[u8], system: &[u8]) -> (SystemFormats, SystemFormats)
    ensures { AreOfSystem (format_system system.now) tag.now result.0 result.1 }
{
    match row_named(&FORMAT_SYSTEMS, system) {
        Some(system) => (own_formats(system, tag), system.root),
        None => (NO_FORMATS, NO_FORMATS),
    }
}

/// Returns the formats of a tag, as `locale` has it, in a numbering system, as `latn`.
///
/// Each format is that of the listed locale with the longest tag that is `tag` or has a hyphen after it there, and
/// without such a locale that of root. It is the one in the numbering system, or else in `latn`. Every tag and every
/// system have formats; [`locale`](crate::locale) decides which are known.
///
/// ```
/// formats_of("de", "latn").percent() // 12 %
/// formats_of("fa", "arabext").signs().percent.text() // ٪
/// ```
pub fn formats_of(tag: &str, system: &str) -> NumberFormats
    ensures { AreFormatsOf tag.now system.now result }
{
    let (tag, system) = (tag.as_bytes(), system.as_bytes());
    let latin = latin_formats(tag);
    let (own, root) = system_formats(tag, system);
    NumberFormats {
        percent: chosen(own.percent, root.percent, latin.percent),
        standard: chosen(own.standard, root.standard, latin.standard),
        accounting: chosen(own.accounting, root.accounting, latin.accounting),
        signs: chosen(own.signs, root.signs, latin.signs),
        compact: chosen(own.compact, root.compact, latin.compact),
        unit: latin.unit,
        money: latin.money,
    }
}
