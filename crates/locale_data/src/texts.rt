//! Texts as ranges of a table of bytes.
ghost use Rattle.std.specs.Prelude.{◌≡◌, ◌≤◌, length, true};
ghost use Rattle.locale_data.specs.{Rows.part, Texts.is_text};

use crate::search::part;
use crate::tables::rows::TableRange;

/// Returns the text in a range of bytes.
pub(crate) fn text_in(bytes: &'static [u8], range: TableRange) -> &'static str
    requires { is_text bytes.now range ≡ true }
    ensures value { result.now ≡ part bytes.now range }
    ensures short { length result.now ≤ 255 }
{
    // The bytes are a text.
    unsafe { str::from_utf8_unchecked(part(bytes, range)) }
}
