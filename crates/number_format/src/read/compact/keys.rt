//! By what the texts around a number in compact notation are chosen.
ghost use Rattle.std.specs.Prelude.{◌≡◌, ◌<◌};
ghost use Rattle.number_format.specs.CompactReading.{category_at, sign_at, key_at, is_single};

use fixed_decimal::Sign;
use plural_rules::PluralCategory::{self, Few, Many, One, Other, Two, Zero};

/// By what the texts around a number are chosen.
#[derive(Clone, Copy)]
pub(crate) struct CompactKey {
    /// The magnitude of the first digit before the number is divided.
    pub(crate) magnitude: i16,
    /// The plural category of the significand.
    pub(crate) category: PluralCategory,
    /// Whether the significand is 1.
    pub(crate) is_one: bool,
    /// The plural category of the whole number, by which a unit, a name or a percent sign is chosen.
    pub(crate) whole: PluralCategory,
    /// The sign that is shown.
    pub(crate) sign: Sign,
}

impl CompactKey {
    /// Returns whether the pattern for 1 itself is chosen, as it is for 1 without a minus sign.
    pub(crate) fn is_single(self) -> bool
        ensures { result ≡ is_single self }
    {
        self.is_one && !matches!(self.sign, Sign::Negative)
    }
}

/// The number of keys whose texts are all that there are: 18 magnitudes, 6 categories, 2, 6 categories
/// and 3 signs.
pub(crate) const KEY_COUNT: usize = 3888;

/// Returns a category: the first one is `Other`.
pub(crate) fn category_at(index: usize) -> PluralCategory
    ensures { result ≡ category_at index }
{
    match index {
        0 => Other,
        1 => One,
        2 => Two,
        3 => Few,
        4 => Many,
        _ => Zero,
    }
}

fn sign_at(index: usize) -> Sign
    ensures { result ≡ sign_at index }
{
    match index {
        0 => Sign::None,
        1 => Sign::Negative,
        _ => Sign::Positive,
    }
}

/// Returns the key with an index: of the magnitudes 2 to 19.
pub(crate) fn key_at(index: usize) -> CompactKey
    requires { index < 3888 }
    ensures { result ≡ key_at index }
{
    CompactKey {
        magnitude: (index / 216) as i16 + 2,
        category: category_at(index % 216 / 36),
        is_one: index % 36 / 18 == 1,
        whole: category_at(index % 18 / 3),
        sign: sign_at(index % 3),
    }
}
