//! The list of `--locales`.
ghost use Rattle.std.specs.{Prelude.{◌≡◌, OnOk}, Io.KnownBytes.Appends};
ghost use Rattle.cli.specs.LocaleList.{tag_line, tag_lines, locales_text};

use fixed_decimal::{WriteError, write_whole};
use locale_data::{LOCALES, LocaleSymbols, unpadded};
use std::io::Write;

fn print_tag<W: Write>(locale: &LocaleSymbols, out: &mut W) -> Result<(), WriteError<W>>
    ensures { OnOk result (Appends (W.contents out.old) (W.contents out.new) (tag_line locale.now)) }
{
    write_whole(out, unpadded(&locale.tag))?;
    write_whole(out, b"\n")
}

/// Writes the tags of locales, one a line.
fn print_tags<W: Write>(locales: &[LocaleSymbols], out: &mut W) -> Result<(), WriteError<W>>
    ensures { OnOk result (Appends (W.contents out.old) (W.contents out.new) (tag_lines locales.now)) }
{
    for locale in locales {
        print_tag(locale, out)?;
    }
    Ok(())
}

/// Writes the tags of the listed locales, one a line.
#[tactic(auto, unfolding(crate::specs::LocaleList::locales_text))]
pub fn print_locales<W: Write>(out: &mut W) -> Result<(), WriteError<W>>
    ensures { OnOk result (Appends (W.contents out.old) (W.contents out.new) locales_text) }
{
    print_tags(&LOCALES, out)
}
