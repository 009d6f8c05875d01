//! The options that a skeleton names.
ghost use Rattle.std.specs.Prelude.{◌≡◌, Ok, Err, MatchResult};
ghost use Rattle.number_skeleton.specs.Meaning.{skeleton_options, options_value};

use crate::error::SkeletonError;
use crate::reading::read_choices;
use number_format::NumberOptions;

/// Reads a number skeleton of ICU, with ICU's defaults: half-even, and without a stem six fraction digits, or those
/// of the currency or of compact notation. `.+` keeps all digits.
///
/// # Errors
///
/// - `Syntax`: the text is no skeleton.
/// - `Unsupported`: it is, but one of its stems is none of this library, or has more digits than the options can.
///
/// ```
/// number_skeleton::parse("currency/EUR .00")
/// number_skeleton::parse("K group-auto")
/// number_skeleton::parse("percent/w") // Syntax { at: 7 }
/// ```
pub fn parse(text: &str) -> Result<NumberOptions, SkeletonError>
    ensures { MatchResult result (λ o. skeleton_options text.now ≡ Ok (options_value o))
        (λ e. skeleton_options text.now ≡ Err e) }
{
    read_choices(text.as_bytes())?.options()
}
