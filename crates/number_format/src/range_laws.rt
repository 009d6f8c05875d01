//! Laws of ranges: the contract of each function states a law.
ghost use Rattle.std.specs.Prelude.{◌≡◌, ◌≢◌, ◌++◌, [], true};
ghost use Rattle.fixed_decimal.specs.Decimal.{Decimal};
ghost use Rattle.number_format.specs.{NumberText.{HasNumberText, outer_by}, PatternTexts.around, RangeText.{HasBoth, IsRange, ShownRange, end_around, end_number, range_pieces, separator_pieces, text_of_pieces}, TextParts.pieces_text};

use crate::format::formatter::NumberFormatter;
use crate::range::form::RangeForm;
use crate::range::range_texts::RangeTexts;
use plural_rules::PluralCategory;

/// The range of a number and itself is approximate.
pub fn equal_numbers_are_approximate()
    ensures { (f : NumberFormatter) (t : RangeTexts) (v : Decimal) (r : ShownRange) → IsRange f t v v r
        → r.form ≡ RangeForm.Approximate }
{}

/// Of two numbers that have no affixes in common, and nothing around the whole text, the text is that of the first
/// number, the separator with its spaces, and the text of the second number.
pub fn numbers_apart_are_written_as_alone()
    ensures { (f : NumberFormatter) (t : RangeTexts) (v w : Decimal) (r : ShownRange)
        → ((c : PluralCategory) → outer_by f c ≡ around [] true []) → IsRange f t v w r → r.form ≡ RangeForm.Apart
        → HasNumberText f v (λ start. HasNumberText f w (λ end. text_of_pieces (range_pieces r)
        ≡ start ++ (pieces_text (separator_pieces r.format.separator r.spaced) ++ end))) }
{}

/// The text of a range that is not approximate has the digits of the first number, with their separators and an
/// exponent, and after them those of the second number, as each is written alone. This holds where no text without a
/// number is written.
pub fn both_numbers_are_written()
    ensures { (f : NumberFormatter) (t : RangeTexts) (v w : Decimal) (r : ShownRange) → IsRange f t v w r
        → r.form ≢ RangeForm.Approximate → (outer_by f r.category).has_number ≡ true
        → (end_around r.start).has_number ≡ true → (end_around r.end).has_number ≡ true
        → HasBoth (text_of_pieces (range_pieces r)) (pieces_text (end_number r.start))
        (pieces_text (end_number r.end)) }
{}
