//! Whether the texts around numbers can be told apart.
ghost use Rattle.std.specs.{Prelude.{◌≡◌, ◌↔◌, ◌⊎◌, IsTrue, All, MatchOption, map}, List.Contains};
ghost use Rattle.decimal_format.specs.{Readable.IsReadable, Symbols.affixes};
ghost use Rattle.number_format.specs.{AffixedTexts.{ArePrefixesApart, AreSuffixesApart, ArePairApart, AreToldApart, AreNamed, ClashesWith, HasClash}, NumberReading.number_pattern};

use crate::format::formatter::NumberFormatter;
use crate::read::pattern::{NumberPattern, PatternKey};
use crate::read::pattern_name::PatternName;
use decimal_format::internal::{begins_with_digit, ends_with_digit};
use decimal_format::{Affixes, DecimalSymbols};

fn are_prefixes_apart(symbols: &DecimalSymbols<'_>, first: &str, second: &str) -> bool
    requires { IsReadable symbols.now }
    ensures { IsTrue result ↔ ArePrefixesApart symbols.now first.now second.now }
{
    match first.strip_prefix(second).or(second.strip_prefix(first)) {
        Some(rest) => !rest.is_empty() && !begins_with_digit(symbols, rest.as_bytes()),
        None => true,
    }
}

fn are_suffixes_apart(symbols: &DecimalSymbols<'_>, first: &str, second: &str) -> bool
    requires { IsReadable symbols.now }
    ensures { IsTrue result ↔ AreSuffixesApart symbols.now first.now second.now }
{
    match first.strip_suffix(second).or(second.strip_suffix(first)) {
        Some(rest) => !rest.is_empty() && !ends_with_digit(symbols, rest.as_bytes()),
        None => true,
    }
}

fn are_pair_apart(symbols: &DecimalSymbols<'_>, first: Affixes<'_>, second: Affixes<'_>) -> bool
    requires { IsReadable symbols.now }
    ensures { IsTrue result ↔ ArePairApart symbols.now (affixes first.entry.prefix.now first.entry.suffix.now)
        (affixes second.entry.prefix.now second.entry.suffix.now) }
{
    are_prefixes_apart(symbols, first.prefix, second.prefix)
        || are_suffixes_apart(symbols, first.suffix, second.suffix)
}

pub(crate) fn are_same(first: Affixes<'_>, second: Affixes<'_>) -> bool
    ensures { IsTrue result ↔ (affixes first.entry.prefix.now first.entry.suffix.now
        ≡ affixes second.entry.prefix.now second.entry.suffix.now) }
{
    first.prefix == second.prefix && first.suffix == second.suffix
}

pub(crate) fn are_same_powers(first: i32, second: i32) -> bool
    ensures { IsTrue result ↔ (first ≡ second) }
{
    first == second
}

/// The names of two patterns that are not told apart.
pub(crate) type Clash = (PatternName, PatternName);

pub(crate) fn are_told_apart(
    symbols: &DecimalSymbols<'_>,
    first: Affixes<'_>,
    second: Affixes<'_>,
    names: (PatternName, PatternName),
) -> bool
    requires { IsReadable symbols.now }
    ensures { let a = affixes first.entry.prefix.now first.entry.suffix.now in
        let b = affixes second.entry.prefix.now second.entry.suffix.now in
        IsTrue result ↔ (((a ≡ b) × (names.0.sign ≡ names.1.sign) × (names.0.exponent ≡ names.1.exponent))
        ⊎ ArePairApart symbols.now a b) }
{
    if names.0.sign == names.1.sign
        && are_same_powers(names.0.exponent, names.1.exponent)
        && are_same(first, second)
    {
        return true;
    }
    are_pair_apart(symbols, first, second)
}

impl NumberPattern {
    fn find_clash(&self, symbols: &DecimalSymbols<'_>, others: &[NumberPattern]) -> Option<Clash>
        requires { IsReadable symbols.now }
        ensures { MatchOption result (All (AreToldApart symbols.now self.now) others.now)
            (ClashesWith symbols.now self.now (Contains others.now)) }
    {
        let texts = self.affixes.texts();
        for other in others {
            let names = (self.name(), other.name());
            if !are_told_apart(symbols, texts, other.affixes.texts(), names) {
                return Some(names);
            }
        }
        None
    }
}

/// Returns the names of two patterns that are not told apart.
pub(crate) fn find_clash(symbols: &DecimalSymbols<'_>, patterns: &[NumberPattern]) -> Option<Clash>
    requires { IsReadable symbols.now }
    ensures { MatchOption result (AreNamed symbols.now patterns.now) (HasClash symbols.now (Contains patterns.now)) }
{
    for pattern in patterns {
        if let Some(clash) = pattern.find_clash(symbols, patterns) {
            return Some(clash);
        }
    }
    None
}

impl NumberFormatter {
    fn clash_of_key(&self, key: PatternKey, keys: &[PatternKey]) -> Option<Clash>
        requires { IsReadable self.now.style.symbols }
        ensures { MatchOption result
            (All (λ k. AreToldApart self.now.style.symbols (number_pattern self.now key) (number_pattern self.now k))
            keys.now)
            (ClashesWith self.now.style.symbols (number_pattern self.now key)
            (Contains (map (number_pattern self.now) keys.now))) }
    {
        let symbols = &self.style.symbols;
        let texts = self.pattern_texts(key);
        for other in keys {
            let others = self.pattern_texts(*other);
            let names = (self.pattern_name(key), self.pattern_name(*other));
            if !are_told_apart(symbols, texts.texts(), others.texts(), names) {
                return Some(names);
            }
        }
        None
    }

    /// Returns the names of two patterns that are not told apart. It does not allocate, and is slow.
    pub(crate) fn clash_of_keys(&self, keys: &[PatternKey]) -> Option<Clash>
        requires { IsReadable self.now.style.symbols }
        ensures { MatchOption result (AreNamed self.now.style.symbols (map (number_pattern self.now) keys.now))
            (HasClash self.now.style.symbols (Contains (map (number_pattern self.now) keys.now))) }
    {
        for key in keys {
            if let Some(clash) = self.clash_of_key(*key, keys) {
                return Some(clash);
            }
        }
        None
    }
}
