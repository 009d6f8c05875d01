//! The calls that words name, and the error of a word that names none.
ghost use Rattle.std.specs.Prelude.{◌≡◌, map, Ok, IfOk, IfErr, IfSome, IsErrAnd, IfNone, IsOk};
ghost use Rattle.conversions.specs.Calls.{copied};
ghost use Rattle.cli.specs.Calls.{calls_of, is_first, IsErrorOfWord, CallsFail};

use crate::program::error::WordsError;
use crate::words::options::is_option;
use crate::words::parameters::has_name;
use conversions::{ShownWord, call};
use fixed_decimal::Call;
use std::alloc::Global;

fn is_first(word: &str) -> bool
    ensures { result ≡ is_first word.now }
{
    is_option(word) || has_name("read", word)
}

/// Returns the error of a word that names no call, after this number of calls.
fn error_of_word(calls: usize, word: &str) -> WordsError
    ensures { IsErrorOfWord calls word.now result }
{
    let shown = ShownWord::of(word);
    if has_name("format", word) {
        return WordsError::Misplaced(shown);
    }
    if !is_first(word) {
        return WordsError::NoSuchWord(shown);
    }
    if calls == 0 {
        WordsError::Misplaced(shown)
    } else {
        WordsError::AfterCall(shown)
    }
}

/// Returns the error of the first word that names no call.
fn first_error(words: &[String]) -> Option<WordsError>
    ensures some { IfSome result
        (λ error. IsErrAnd (calls_of words.now) (λ wrong. IsErrorOfWord wrong.0 wrong.1 error)) }
    ensures none { IfNone result (IsOk (calls_of words.now)) }
{
    for (index, word) in words.iter().enumerate() {
        let Some(_) = call(word.as_str()) else {
            return Some(error_of_word(index, word.as_str()));
        };
    }
    None
}

/// Parses words as calls, in order.
///
/// # Errors
///
/// That of the first word that names no call, or `Memory`: out of memory for the list, and each word names a call.
pub fn parse_calls<'a>(alloc: Global, words: &'a [String]) -> Result<Vec<Call<'a>>, WordsError>
    ensures some { IfOk result (λ calls. calls_of words.now ≡ Ok (map copied calls.items)) }
    ensures err { IfErr result (CallsFail words.now) }
{
    let Ok(mut calls) = Vec::with_capacity(alloc, words.len()) else {
        if let Some(error) = first_error(words) {
            return Err(error);
        }
        return Err(WordsError::Memory);
    };
    for (index, word) in words.iter().enumerate() {
        let Some(call) = call(word.as_str()) else {
            return Err(error_of_word(index, word.as_str()));
        };
        calls.push_reserved(call);
    }
    Ok(calls)
}
