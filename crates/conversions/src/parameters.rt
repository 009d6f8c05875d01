//! The parameters of a word, after its first colon, and numbers.
ghost use Rattle.std.specs.{Prelude.◌≡◌, Option.option_copied};
ghost use Rattle.conversions.specs.Parameters.{tag_of, option_of, parameters_of, number};

/// Splits a text at its first colon.
pub fn split_parameters(parameters: &str) -> (&str, Option<&str>)
    ensures tag { result.0.now ≡ tag_of parameters.now }
    ensures option { option_copied result.1 ≡ option_of parameters.now }
{
    match parameters.split_once(':') {
        Some((tag, option)) => (tag, Some(option)),
        None => (parameters, None),
    }
}

/// Returns the bytes after the first colon of a word.
pub fn parameters(word: &str) -> &str
    ensures { result.now ≡ parameters_of word.now }
{
    match split_parameters(word).1 {
        Some(parameters) => parameters,
        None => "",
    }
}

/// Parses a number of one to six digits.
pub fn number(word: &str) -> Option<i16>
    ensures { result ≡ number word.now }
{
    let digits = word.strip_prefix('-').unwrap_or(word);
    if digits.len() > 6 || digits.starts_with('+') {
        return None;
    }
    word.parse().ok()
}
