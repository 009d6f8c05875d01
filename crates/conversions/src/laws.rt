//! Laws of conversions: the contract of each function states a law.
ghost use Rattle.std.specs.Prelude.{◌≡◌, ℕ, List, Result, None};
ghost use Rattle.conversions.specs.{Conversion.{ConversionError, IsOutcome, IsRunFormatted}, declared.conversion.Conversion.Conversion, NamedRules.HasUnknownType};
ghost use Rattle.plural_rules.specs.{Rules.RuleValue, RulesGrammar.Grammar};

/// A conversion without a reader is the run of its calls, formatted: both write the same last decimal.
#[tactic(auto, using(crate::proofs::lemmas::conversion::Conversions::conversion_is_run_formatted))]
pub fn conversion_is_run_formatted()
    ensures { (c : Conversion) (text : List ℕ) (result : Result (List ℕ) ConversionError) → c.reader ≡ None
        → IsOutcome c text result → IsRunFormatted c text result }
{}

/// A word with an unknown type, such as `en:ordnial`, is no text of rules: no rules are lost to its error.
pub fn rules_have_no_unknown_type()
    ensures { (word letters : List ℕ) (rules : List RuleValue) → Grammar word rules → ¬ HasUnknownType word letters }
{}
