//! The parser of rules.
ghost use Rattle.std.specs.Prelude.{◌≡◌, List};
ghost use Rattle.plural_rules.specs.{Rules.RuleValue, RulesGrammar.Grammar, RulesParseResult.IsParseResult};

mod builder;
mod numbers;
mod state;

use crate::rules::PluralRules;
use builder::Builder;
use numbers::Numbers;
use state::{Categories, State};
use std::alloc::Global;

fn read(alloc: Global, text: &[u8]) -> Result<PluralRules, RulesError>
    ensures { IsParseResult text.now result }
{
    let mut state = State::Category;
    let mut seen = Categories::none();
    let mut numbers = Numbers::Fit {
        number: 0,
        is_modulus: false,
        begin: 0,
    };
    let mut builder = Builder::new(alloc);
    let mut is_built = true;
    for (at, byte) in text.iter().enumerate() {
        let Some((next, event)) = state.next(seen, *byte) else {
            return Err(RulesError::Syntax { at });
        };
        numbers = numbers.after(at, event);
        is_built = builder.take_if(is_built, numbers, event);
        seen = seen.after(event);
        state = next;
    }
    let Some(event) = state.at_end() else {
        return Err(RulesError::Syntax { at: text.len() });
    };
    if let Numbers::TooLarge(at) = numbers {
        return Err(RulesError::Limit { at });
    }
    if !builder.take_if(is_built, numbers, event) {
        return Err(RulesError::Memory);
    }
    Ok(builder.into_rules())
}

/// The reason for which a text of rules is rejected.
///
/// ```
/// PluralRules::try_from_str(alloc, "one: n =") // Syntax { at: 8 }
/// PluralRules::try_from_str(alloc, "one: n % 0 = 1") // Syntax { at: 10 }
/// PluralRules::try_from_str(alloc, "one: n = 18446744073709551616") // Limit { at: 9 }
/// ```
#[derive(Clone, Copy, Debug, PartialEq)]
pub enum RulesError {
    /// The text is not rules: `at` is the offset of the first byte that cannot follow those before it, or the length of
    /// the text if it may continue as rules.
    Syntax { at: usize },
    /// The text is rules, but has a number of 2^64 or more, or a modulus above 10^18: `at` is the offset of the first
    /// such number.
    Limit { at: usize },
    /// Out of memory.
    Memory,
}

impl PluralRules {
    /// Parses rules in CLDR's syntax: a category, a colon and a condition, with semicolons between the rules.
    ///
    /// `one: i = 1 and v = 0; other: @integer 0, 2~16` are two rules. Samples, from an `@` to the next semicolon, are
    /// skipped.
    ///
    /// # Errors
    ///
    /// - `Syntax`: the text is not rules.
    /// - `Limit`: it is, but a number is too great.
    /// - `Memory`: out of memory; the text is rules whose numbers fit.
    pub fn try_from_utf8(alloc: Global, text: &[u8]) -> Result<Self, RulesError>
        ensures parses { IsParseResult text.now result }
        // The grammar is unambiguous.
        ensures unique { (first second : List RuleValue) → Grammar text.now first → Grammar text.now second
            → first ≡ second }
    {
        read(alloc, text)
    }

    /// Parses rules as `try_from_utf8` does.
    pub fn try_from_str(alloc: Global, text: &str) -> Result<Self, RulesError>
        ensures { IsParseResult text.now result }
    {
        PluralRules::try_from_utf8(alloc, text.as_bytes())
    }
}
