//! The plural rules that a word names: those of a locale, or those that the word is the text of.
ghost use Rattle.std.specs.{Prelude.{◌≡◌, ℕ, List, IfOk, IfErr, IfSome, IfNone}, Option.{option_copied, option_map}, List.list_all, Char.is_ascii_alphabetic};
ghost use Rattle.conversions.specs.{Parameters.tag_of, NamedRules.{is_tag_byte, is_tag, type_of, named_type, HasUnknownType, NamesRules, NamesNoRules}};

use crate::parameters::split_parameters;
use crate::shown_word::ShownWord;
use locale_data::{PluralRuleType, PluralRulesError, plural_rules_of};
use plural_rules::{PluralRules, RulesError};
use std::alloc::Global;

/// Why a word names no plural rules: of `xx` it is `UnknownLocale`, and of `de:nominal` `UnknownType`.
#[derive(Clone, Copy, Debug)]
pub enum NamedRulesError {
    /// The locale with this tag is unknown.
    UnknownLocale(ShownWord),
    /// The word has the form of a locale and a type, and no type has this name.
    UnknownType(ShownWord),
    /// The word is rejected as the text of rules, or out of memory.
    Rules(RulesError),
}

fn is_tag_byte(byte: u8) -> bool
    ensures { result ≡ is_tag_byte byte }
{
    byte.is_ascii_alphanumeric() || matches!(byte, b'-' | b'_' | b'.' | b'@')
}

fn are_tag_bytes(bytes: &[u8]) -> bool
    ensures { result ≡ list_all is_tag_byte bytes.now }
{
    bytes.iter().all(|byte| is_tag_byte(*byte))
}

fn is_tag(text: &str) -> bool
    ensures { result ≡ is_tag text.now }
{
    match text.as_bytes().split_first() {
        Some((first, rest)) => first.is_ascii_alphabetic() && are_tag_bytes(rest),
        None => false,
    }
}

fn parse_type(option: Option<&str>) -> Option<PluralRuleType>
    ensures { result ≡ type_of (option_copied option.entry) }
{
    match option {
        None | Some("cardinal") => Some(PluralRuleType::Cardinal),
        Some("ordinal") => Some(PluralRuleType::Ordinal),
        Some(_) => None,
    }
}

/// Splits `LOCALE`, `LOCALE:cardinal` or `LOCALE:ordinal`. Returns `None` for other words.
pub fn locale_and_type(word: &str) -> Option<(&str, PluralRuleType)>
    ensures tag { IfSome result (λ found. found.0.now ≡ tag_of word.now) }
    ensures rule_type { option_map (λ found. found.1) result ≡ named_type word.now }
{
    let (tag, option) = split_parameters(word);
    if !is_tag(tag) {
        return None;
    }
    Some((tag, parse_type(option)?))
}

fn are_letters(text: &str) -> bool
    ensures { result ≡ list_all is_ascii_alphabetic text.now }
{
    text.as_bytes()
        .iter()
        .all(|byte| byte.is_ascii_alphabetic())
}

/// Returns the letters after the colon of a word such as `en:ordnial`, if no type has this name.
fn unknown_type(word: &str) -> Option<&str>
    ensures some { IfSome result (λ letters. HasUnknownType word.now letters.now) }
    ensures none { IfNone result ((letters : List ℕ) → ¬ HasUnknownType word.now letters) }
{
    let (tag, option) = split_parameters(word);
    let Some(letters) = option else {
        return None;
    };
    if !is_tag(tag) || letters.is_empty() || !are_letters(letters) {
        return None;
    }
    match parse_type(option) {
        Some(_) => None,
        None => Some(letters),
    }
}

/// Returns the plural rules that a word names.
///
/// The tag of a locale, alone or followed by `:cardinal` or `:ordinal`, names the rules of the locale, which
/// [`plural_rules_of`] returns. Any other word is parsed as the text of rules.
///
/// ```
/// parse_rules(alloc, "ru")? // the cardinal rules of Russian
/// parse_rules(alloc, "en:ordinal")? // those of 1st, 2nd, 3rd
/// parse_rules(alloc, "one: n = 1; other:")? // these rules
/// ```
///
/// # Errors
///
/// - `UnknownLocale`: the word has the form of a locale, and the locale is unknown.
/// - `UnknownType`: the word has the form of a locale, a colon and a type, and no type has this name.
/// - `Rules`: the word has another form, and is rejected as the text of rules; or out of memory.
pub fn parse_rules(alloc: Global, word: &str) -> Result<PluralRules, NamedRulesError>
    ensures ok { IfOk result (NamesRules word.now) }
    ensures err { IfErr result (NamesNoRules word.now) }
{
    let Some((tag, rule_type)) = locale_and_type(word) else {
        if let Some(letters) = unknown_type(word) {
            return Err(NamedRulesError::UnknownType(ShownWord::of(letters)));
        }
        return match PluralRules::try_from_str(alloc, word) {
            Ok(rules) => Ok(rules),
            Err(error) => Err(NamedRulesError::Rules(error)),
        };
    };
    match plural_rules_of(alloc, tag, rule_type) {
        Ok(rules) => Ok(rules),
        Err(PluralRulesError::UnknownLocale) => {
            Err(NamedRulesError::UnknownLocale(ShownWord::of(tag)))
        }
        Err(PluralRulesError::Memory) => Err(NamedRulesError::Rules(RulesError::Memory)),
    }
}
