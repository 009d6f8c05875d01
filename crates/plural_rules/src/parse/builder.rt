//! Builds rules from the events of the parser.
ghost use Rattle.std.specs.Prelude.{◌≡◌, ◌≤◌, ◌^◌, true, OnOk};
ghost use Rattle.plural_rules.specs.{declared.parse.state.Categories.Categories, RulesBuilder.{partial, IsSmall}};
ghost use Rattle.plural_rules.specs.RulesReader as reader;

use crate::parse::numbers::Numbers;
use crate::parse::state::Event;
use crate::rules::{Modulus, Operand, PluralCategory, PluralRules, Range, Relation, Rule};
use std::alloc::{AllocError, Global};
use std::mem;

/// The complete rules, and the parts of the rule that is being read.
#[derive(Drop)]
pub struct Builder {
    alloc: Global,
    rules: Vec<Rule>,
    category: PluralCategory,
    alternatives: Vec<Vec<Relation>>,
    relations: Vec<Relation>,
    operand: Operand,
    is_divided: bool,
    modulus: Option<Modulus>,
    is_equal: bool,
    ranges: Vec<Range>,
    low: Option<u64>,
    number: u64,
}

fn modulus_read(is_divided: bool, number: u64) -> Option<Modulus>
    requires { is_divided ≡ true → number ≤ 10 ^ 18 }
    ensures { result ≡ reader.modulus_read is_divided number }
{
    if is_divided {
        Modulus::new(number)
    } else {
        None
    }
}

impl Builder {
    pub fn new(alloc: Global) -> Self
        ensures { partial reader.no_categories result ≡ reader.no_rules }
    {
        Builder {
            alloc,
            rules: Vec::new(alloc),
            category: PluralCategory::Other,
            alternatives: Vec::new(alloc),
            relations: Vec::new(alloc),
            operand: Operand::N,
            is_divided: false,
            modulus: None,
            is_equal: true,
            ranges: Vec::new(alloc),
            low: None,
            number: 0,
        }
    }

    pub fn into_rules(self) -> PluralRules
        ensures { (seen : Categories) → result ≡ (partial seen self).rules }
    {
        PluralRules::new(self.rules)
    }

    fn begin_rule(&mut self, category: PluralCategory)
        ensures { (seen : Categories) → partial (reader.with seen category) self.new
            ≡ reader.after (Event.Category category) (partial seen self.old) }
    {
        self.category = category;
        self.alternatives = Vec::new(self.alloc);
        self.relations = Vec::new(self.alloc);
    }

    fn begin_relation(&mut self, operand: Operand)
        ensures { (seen : Categories)
            → partial seen self.new ≡ reader.after (Event.Operand operand) (partial seen self.old) }
    {
        self.operand = operand;
        self.is_divided = false;
        self.ranges = Vec::new(self.alloc);
    }

    fn begin_ranges(&mut self, is_equal: bool)
        requires { IsSmall (Event.Equal is_equal) self.old.number self.old.is_divided }
        ensures { (seen : Categories)
            → partial seen self.new ≡ reader.after (Event.Equal is_equal) (partial seen self.old) }
    {
        self.is_equal = is_equal;
        self.modulus = modulus_read(self.is_divided, self.number);
        self.is_divided = false;
        self.low = None;
    }

    fn end_range(&mut self) -> Result<(), AllocError>
        ensures { OnOk result ((seen : Categories) → partial seen self.new ≡ reader.end_range (partial seen self.old)) }
    {
        let high = self.number;
        let low = self.low.unwrap_or(high);
        self.ranges.push(Range { low, high })?;
        self.low = None;
        Ok(())
    }

    fn end_relation(&mut self) -> Result<(), AllocError>
        ensures { OnOk result ((seen : Categories)
            → partial seen self.new ≡ reader.end_relation (partial seen self.old)) }
    {
        let ranges = mem::replace(&mut self.ranges, Vec::new(self.alloc));
        let relation = Relation::new(self.operand, self.modulus, self.is_equal, ranges);
        self.relations.push(relation)?;
        Ok(())
    }

    fn end_alternative(&mut self) -> Result<(), AllocError>
        ensures { OnOk result ((seen : Categories)
            → partial seen self.new ≡ reader.end_alternative (partial seen self.old)) }
    {
        let relations = mem::replace(&mut self.relations, Vec::new(self.alloc));
        self.alternatives.push(relations)?;
        Ok(())
    }

    fn end_rule(&mut self) -> Result<(), AllocError>
        ensures { OnOk result ((seen : Categories) → partial seen self.new ≡ reader.end_rule (partial seen self.old)) }
    {
        let alternatives = mem::replace(&mut self.alternatives, Vec::new(self.alloc));
        self.rules.push(Rule::new(self.category, alternatives))?;
        Ok(())
    }

    fn take(&mut self, event: Event) -> Result<(), AllocError>
        requires { IsSmall event self.old.number self.old.is_divided }
        ensures { OnOk result ((seen : Categories) → partial (reader.seen_after event seen) self.new
            ≡ reader.after event (partial seen self.old)) }
    {
        match event {
            Event::Nothing => Ok(()),
            Event::Category(category) => {
                self.begin_rule(category);
                Ok(())
            }
            Event::Operand(operand) => {
                self.begin_relation(operand);
                Ok(())
            }
            Event::Percent => {
                self.is_divided = true;
                self.number = 0;
                Ok(())
            }
            Event::First(digit) => {
                self.number = digit as u64;
                Ok(())
            }
            Event::Digit(digit) => {
                self.number = self.number * 10 + digit as u64;
                Ok(())
            }
            Event::Equal(is_equal) => {
                self.begin_ranges(is_equal);
                Ok(())
            }
            Event::To => {
                self.low = Some(self.number);
                Ok(())
            }
            Event::Comma => self.end_range(),
            Event::And => {
                self.end_range()?;
                self.end_relation()
            }
            Event::Or => {
                self.end_range()?;
                self.end_relation()?;
                self.end_alternative()
            }
            Event::End => {
                self.end_range()?;
                self.end_relation()?;
                self.end_alternative()?;
                self.end_rule()
            }
            Event::EndOther => self.end_rule(),
        }
    }

    /// Takes an event if the rules so far were built and their numbers fit. False if not, or out of memory.
    pub fn take_if(&mut self, is_built: bool, numbers: Numbers, event: Event) -> bool
        requires { is_built ≡ true → reader.all_fit numbers ≡ true → IsSmall event self.old.number self.old.is_divided }
        ensures { result ≡ true → (is_built ≡ true) × ((seen : Categories)
            → partial (reader.seen_after event seen) self.new ≡ reader.after event (partial seen self.old)) }
    {
        is_built && numbers.all_fit() && self.take(event).is_ok()
    }
}
