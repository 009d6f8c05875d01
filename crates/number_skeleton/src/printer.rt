//! A skeleton of options.
ghost use Rattle.std.specs.Prelude.{◌≡◌, true, Ok, None, IfOk, IfSome, string_bytes};
ghost use Rattle.number_skeleton.specs.{Meaning.{skeleton_options, options_value}, NoStem.has_no_stem};

use crate::no_stem::has_no_stem;
use crate::parser::parse;
use crate::same::same_options;
use crate::text::push_skeleton;
use number_format::NumberOptions;
use std::alloc::{AllocError, Global};

/// Returns a skeleton that reads as these options, or `None` if an option has no stem.
///
/// The stems are those of ICU's normal form, and `group-auto` in compact notation.
///
/// # Errors
///
/// Out of memory.
pub fn to_skeleton(options: &NumberOptions, alloc: Global) -> Result<Option<String>, AllocError>
    ensures reads { IfOk result (λ found. IfSome found
        (λ text. skeleton_options (string_bytes text) ≡ Ok (options_value options.now))) }
    ensures none { has_no_stem (options_value options.now) ≡ true → result ≡ Ok None }
{
    if has_no_stem(options) {
        return Ok(None);
    }
    let mut text = String::new(alloc);
    push_skeleton(&mut text, options)?;
    text.pop();
    match parse(text.as_str()) {
        Ok(read) if same_options(options, &read) => Ok(Some(text)),
        _ => Ok(None),
    }
}
