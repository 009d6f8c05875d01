//! What a locale and a numbering system have, as indices of tables.
ghost use Rattle.std.specs.Prelude.{◌≡◌, ◌<◌, length, slice_get, Some};
ghost use Rattle.locale_data.specs.{declared.tables.{compact.TheConstants.{COMPACT_SETS, PERCENT_UNITS}, formats.TheConstants.{PATTERNS, NUMBER_SIGNS, MONEY_FORMATS}}, Patterns.affixes_of};

use crate::search::indexed_row;
use crate::tables::formats::{NUMBER_SIGNS, PATTERNS};
use crate::tables::rows::patterns::{AffixPair, NumberSigns, Pattern};
use fixed_decimal::Sign;

/// The formats of numbers in a locale and a numbering system.
///
/// ```
/// let formats = formats_of("de", "latn");
/// formats.percent() // 12 %
/// formats.signs().exponent.text() // E
/// ```
#[derive(Clone, Copy)]
pub struct NumberFormats {
    pub(crate) percent: u8,
    pub(crate) standard: u8,
    pub(crate) accounting: u8,
    pub(crate) signs: u8,
    pub(crate) compact: u8,
    pub(crate) unit: u8,
    pub(crate) money: u8,
    pub ghost percent_listed: { percent < length PATTERNS },
    pub ghost standard_listed: { standard < length PATTERNS },
    pub ghost accounting_listed: { accounting < length PATTERNS },
    pub ghost signs_listed: { signs < length NUMBER_SIGNS },
    pub ghost compact_listed: { compact < length COMPACT_SETS },
    pub ghost unit_listed: { unit < length PERCENT_UNITS },
    pub ghost money_listed: { money < length MONEY_FORMATS },
}

impl Pattern {
    /// Returns the affixes of a number that is shown with a sign.
    pub fn affixes(&self, sign: Sign) -> AffixPair
        ensures { result ≡ affixes_of self.now sign }
    {
        match sign {
            Sign::None => self.positive,
            Sign::Negative => self.negative,
            Sign::Positive => self.plus,
        }
    }
}

pub(crate) fn pattern_at(index: u8) -> &'static Pattern
    requires { index < length PATTERNS }
    ensures { slice_get PATTERNS index ≡ Some result.now }
{
    indexed_row(&PATTERNS, index as usize)
}

impl NumberFormats {
    /// Returns the pattern of percent.
    pub fn percent(&self) -> &'static Pattern
        ensures { slice_get PATTERNS self.now.percent ≡ Some result.now }
    {
        pattern_at(self.percent)
    }

    /// Returns the exponent separator, the percent sign and the per mille sign.
    pub fn signs(&self) -> NumberSigns
        ensures { slice_get NUMBER_SIGNS self.now.signs ≡ Some result }
    {
        *indexed_row(&NUMBER_SIGNS, self.signs as usize)
    }
}
