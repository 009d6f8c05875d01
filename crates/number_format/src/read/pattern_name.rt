//! What the texts around a number say of it.

use fixed_decimal::Sign;
use plural_rules::PluralCategory;

/// What the texts around a number say of it: in `de` ` Tage` follows numbers of the plural category `other`.
///
/// Two of them name the texts that cannot be told apart. In `vec` in compact notation both 1 and 1000 have the text
/// `1`:
///
/// ```
/// let error = formatter.reader(alloc).unwrap_err();
/// let one = PatternName {
///     category: None,
///     sign: Sign::None,
///     exponent: 0,
/// };
/// error == NumberReaderError::Affixes(one, PatternName { exponent: 3, ..one }) // true
/// ```
#[derive(Clone, Copy, Debug, PartialEq, Eq)]
pub struct PatternName {
    /// The plural category by which a unit or a name is chosen; none without one, and in compact notation.
    pub category: Option<PluralCategory>,
    /// The sign that is shown.
    pub sign: Sign,
    /// The power of ten that a word of compact notation stands for: 3 of `K`; 0 without a word.
    pub exponent: i32,
}
