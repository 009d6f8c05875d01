//! What a locale has.
ghost use Rattle.std.specs.Prelude.{◌≡◌};
ghost use Rattle.locale_names.specs.LocaleRow.{IsLocaleRow};

use crate::tables::locales::{LOCALES, ROOT};
use crate::tables::rows::locales::LocaleNames;
use locale_data::{Name, Row, row_of};

impl Row for LocaleNames {
    ghost name = { λ locale. locale.tag };

    fn name(&self) -> Name {
        self.tag
    }
}

/// Returns the row of a tag: that of the longest tag that is a prefix of it, or else that of root.
pub(crate) fn row_for(tag: &[u8]) -> LocaleNames
    ensures { IsLocaleRow tag.now result }
{
    match row_of(&LOCALES, tag) {
        Some(locale) => *locale,
        None => ROOT,
    }
}
