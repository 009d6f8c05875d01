//! The parameter of a word: what follows its name and a colon.
ghost use Rattle.std.specs.{Prelude.◌≡◌, Option.option_copied};
ghost use Rattle.cli.specs.Parameters.{parameter_of, has_name};

use conversions::parameters::split_parameters;

/// Returns what follows this name and the first colon of a word.
pub fn parameter_of<'a>(name: &str, word: &'a str) -> Option<&'a str>
    ensures { option_copied result ≡ parameter_of name.now word.now }
{
    let (first, parameter) = split_parameters(word);
    if first == name { parameter } else { None }
}

/// Returns whether a word is this name, a colon and a text.
pub fn has_name(name: &str, word: &str) -> bool
    ensures { result ≡ has_name name.now word.now }
{
    match parameter_of(name, word) {
        Some(_) => true,
        None => false,
    }
}
