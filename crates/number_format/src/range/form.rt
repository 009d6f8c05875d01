//! How the two numbers of a range are written.
ghost use Rattle.std.specs.Prelude.{◌≡◌};
ghost use Rattle.number_format.specs.{FormattedRanges.end_of, RangeText.{bare_around, characters_around, form_by, has_exponent, is_apart, needs_spaces, written_exponent}};

use crate::format::formatted_number::FormattedNumber;
use crate::options::NumberNotation;
use crate::range::common::have_same_texts;

/// How the two numbers of a range are written.
#[derive(Clone, Copy, Debug, PartialEq)]
pub(crate) enum RangeForm {
    /// As one number with an approximately sign.
    Approximate,
    /// Between the affixes that both have.
    Common,
    /// Each with its own affixes.
    Apart,
}

fn has_exponent(notation: NumberNotation) -> bool
    ensures { result ≡ has_exponent notation }
{
    matches!(
        notation,
        NumberNotation::Scientific(_) | NumberNotation::Engineering(_)
    )
}

fn written_exponent(number: &FormattedNumber<'_>) -> i32
    ensures { result ≡ written_exponent (end_of number.now) }
{
    if has_exponent(number.formatter.options.notation) {
        number.exponent
    } else {
        0
    }
}

/// Returns how two numbers are written, given the number of characters around the first one, whether they are equal
/// before they are rounded, and whether both or neither are negative.
pub(crate) fn form_by(
    characters: usize,
    are_equal: bool,
    have_same_sign: bool,
    start: &FormattedNumber<'_>,
    end: &FormattedNumber<'_>,
) -> RangeForm
    requires characters { characters ≡ characters_around (bare_around (end_of start.now)) }
    requires formatter { start.now.formatter.now ≡ end.now.formatter.now }
    ensures { result ≡ form_by are_equal have_same_sign (end_of start.now) (end_of end.now) }
{
    if !have_same_texts(start, end) {
        return RangeForm::Apart;
    }
    if written_exponent(start) == written_exponent(end)
        && (are_equal || (have_same_sign && start.value.absolute == end.value.absolute))
    {
        return RangeForm::Approximate;
    }
    if characters > 1 {
        RangeForm::Common
    } else {
        RangeForm::Apart
    }
}

fn is_apart(form: RangeForm) -> bool
    ensures { result ≡ is_apart form }
{
    matches!(form, RangeForm::Apart)
}

/// Returns whether the separator has spaces beside it, given the number of characters around the first number.
pub(crate) fn needs_spaces(form: RangeForm, characters: usize, start: &FormattedNumber<'_>) -> bool
    requires { characters ≡ characters_around (bare_around (end_of start.now)) }
    ensures { result ≡ needs_spaces form (end_of start.now) }
{
    has_exponent(start.formatter.options.notation) || (is_apart(form) && characters > 0)
}
