//! The states of the parser of rules, and the transition on each byte.

ghost use Rattle.std.specs.Prelude.{◌≡◌};
ghost use Rattle.plural_rules.specs.{RulesGrammar.is_blank, Rules.name_of};
ghost use Rattle.plural_rules.specs.RulesReader as reader;

use crate::rules::{Operand, PluralCategory};

/// What may follow the bytes that have been read.
#[derive(Clone, Copy)]
pub enum State {
    /// A rule, by its category.
    Category,
    /// The rest of `one` or of `other`, after the first letter.
    One,
    /// The letters of a category's name, starting at this index, or the colon after them.
    Letters(PluralCategory, usize),
    /// The condition of `other`, or none.
    OtherCondition,
    /// An operand.
    Operand,
    /// A percent sign, or a comparison.
    Percent,
    /// A modulus.
    Modulus,
    /// More of a modulus, of which all digits were 0.
    Zeros,
    /// More digits of a modulus, or a comparison.
    ModulusDigits,
    /// A comparison.
    Comparison,
    /// The second byte of `!=`.
    NotEqual,
    /// The number that a range begins with.
    Low,
    /// More digits of it, or what follows it.
    LowDigits,
    /// Two dots, or what follows a range.
    AfterLow,
    /// The second dot.
    Dot,
    /// The number that a range ends with.
    High,
    /// More digits of it, or what follows a range.
    HighDigits,
    /// What follows a range.
    AfterHigh,
    /// The last two letters of `and`.
    And,
    /// The last letter of `and`.
    AndEnd,
    /// The last letter of `or`.
    OrEnd,
    /// The blank after `and` or `or`.
    Blank,
    /// Samples, which are skipped.
    Samples,
}

/// The effect of a byte on the rules.
#[derive(Clone, Copy)]
pub enum Event {
    /// No effect yet.
    Nothing,
    /// A category was read, and its colon.
    Category(PluralCategory),
    /// A relation begins.
    Operand(Operand),
    /// A modulus begins.
    Percent,
    /// The first digit of a number.
    First(u8),
    /// A further digit of a number.
    Digit(u8),
    /// The ranges begin, after `=` if true and after `!=` if false.
    Equal(bool),
    /// The second number of a range begins.
    To,
    /// A range ends.
    Comma,
    /// A relation ends.
    And,
    /// An alternative ends.
    Or,
    /// A condition ends, and its rule.
    End,
    /// A rule ends that has no condition.
    EndOther,
}

/// The categories that rules have been read for.
#[derive(Clone, Copy)]
pub struct Categories {
    pub zero: bool,
    pub one: bool,
    pub two: bool,
    pub few: bool,
    pub many: bool,
    pub other: bool,
}

impl Categories {
    #[inline]
    pub fn none() -> Self
        ensures { result ≡ reader.no_categories }
    {
        Categories {
            zero: false,
            one: false,
            two: false,
            few: false,
            many: false,
            other: false,
        }
    }

    #[inline]
    fn has(self, category: PluralCategory) -> bool
        ensures { result ≡ reader.has self category }
    {
        match category {
            PluralCategory::Zero => self.zero,
            PluralCategory::One => self.one,
            PluralCategory::Two => self.two,
            PluralCategory::Few => self.few,
            PluralCategory::Many => self.many,
            PluralCategory::Other => self.other,
        }
    }

    #[inline]
    fn with(mut self, category: PluralCategory) -> Self
        ensures { result ≡ reader.with self category }
    {
        match category {
            PluralCategory::Zero => self.zero = true,
            PluralCategory::One => self.one = true,
            PluralCategory::Two => self.two = true,
            PluralCategory::Few => self.few = true,
            PluralCategory::Many => self.many = true,
            PluralCategory::Other => self.other = true,
        }
        self
    }

    #[inline]
    pub fn after(self, event: Event) -> Self
        ensures { result ≡ reader.seen_after event self }
    {
        match event {
            Event::Category(category) => self.with(category),
            _ => self,
        }
    }

    #[inline]
    fn is_full(self) -> bool
        ensures { result ≡ reader.is_full self }
    {
        self.zero && self.one && self.two && self.few && self.many && self.other
    }
}

/// The state after a byte and the event of the byte; `None` if no rules continue with the byte.
type Transition = Option<(State, Event)>;

#[inline]
fn is_blank(byte: u8) -> bool
    ensures { result ≡ is_blank byte }
{
    byte == b' ' || byte == b'\t' || byte == b'\n' || byte == b'\r'
}

#[inline]
fn skip(state: State, byte: u8, otherwise: Transition) -> Transition
    ensures { result ≡ reader.skip state byte otherwise }
{
    if is_blank(byte) {
        Some((state, Event::Nothing))
    } else {
        otherwise
    }
}

#[inline]
fn new_category(seen: Categories, category: PluralCategory) -> Transition
    ensures { result ≡ reader.new_category seen category }
{
    (!seen.has(category)).then_some((State::Letters(category, 1), Event::Nothing))
}

// Both `one` and `other` begin with `o`.
#[inline]
fn category_letter(seen: Categories, byte: u8) -> Transition
    ensures { result ≡ reader.category_letter seen byte }
{
    match byte {
        b'z' => new_category(seen, PluralCategory::Zero),
        b'o' if seen.one && seen.other => None,
        b'o' => Some((State::One, Event::Nothing)),
        b't' => new_category(seen, PluralCategory::Two),
        b'f' => new_category(seen, PluralCategory::Few),
        b'm' => new_category(seen, PluralCategory::Many),
        _ => None,
    }
}

#[inline]
fn second_letter(seen: Categories, byte: u8) -> Transition
    ensures { result ≡ reader.second_letter seen byte }
{
    match byte {
        b'n' if !seen.one => Some((State::Letters(PluralCategory::One, 2), Event::Nothing)),
        b't' if !seen.other => Some((State::Letters(PluralCategory::Other, 2), Event::Nothing)),
        _ => None,
    }
}

#[inline]
fn condition_of(category: PluralCategory) -> State
    ensures { result ≡ reader.condition_of category }
{
    match category {
        PluralCategory::Other => State::OtherCondition,
        _ => State::Operand,
    }
}

#[inline]
fn operand(byte: u8) -> Transition
    ensures { result ≡ reader.operand byte }
{
    let operand = match byte {
        b'n' => Operand::N,
        b'i' => Operand::I,
        b'v' => Operand::V,
        b'w' => Operand::W,
        b'f' => Operand::F,
        b't' => Operand::T,
        b'c' | b'e' => Operand::C,
        _ => return None,
    };
    Some((State::Percent, Event::Operand(operand)))
}

#[inline]
fn rule_end(seen: Categories, byte: u8, event: Event) -> Transition
    ensures { result ≡ reader.rule_end seen byte event }
{
    match byte {
        b';' if !seen.is_full() => Some((State::Category, event)),
        b'@' => Some((State::Samples, event)),
        _ => None,
    }
}

#[inline]
fn comparison(byte: u8) -> Transition
    ensures { result ≡ reader.comparison byte }
{
    match byte {
        b'=' => Some((State::Low, Event::Equal(true))),
        b'!' => Some((State::NotEqual, Event::Nothing)),
        _ => None,
    }
}

#[inline]
fn follows_range(seen: Categories, byte: u8) -> Transition
    ensures { result ≡ reader.follows_range seen byte }
{
    match byte {
        b',' => Some((State::Low, Event::Comma)),
        b'a' => Some((State::And, Event::And)),
        b'o' => Some((State::OrEnd, Event::Or)),
        _ => rule_end(seen, byte, Event::End),
    }
}

#[inline]
fn after_low(seen: Categories, byte: u8) -> Transition
    ensures { result ≡ reader.after_low seen byte }
{
    let dot_or_end = if byte == b'.' {
        Some((State::Dot, Event::Nothing))
    } else {
        follows_range(seen, byte)
    };
    skip(State::AfterLow, byte, dot_or_end)
}

#[inline]
fn after_high(seen: Categories, byte: u8) -> Transition
    ensures { result ≡ reader.after_high seen byte }
{
    skip(State::AfterHigh, byte, follows_range(seen, byte))
}

#[inline]
fn only(wanted: u8, byte: u8, state: State, event: Event) -> Transition
    ensures { result ≡ reader.only wanted byte state event }
{
    (byte == wanted).then_some((state, event))
}

#[inline]
fn letter(category: PluralCategory, read: usize, byte: u8) -> Transition
    ensures { result ≡ reader.letter category read byte }
{
    let word = category.name().as_bytes();
    if read < word.len() {
        let next = State::Letters(category, read + 1);
        only(word[read], byte, next, Event::Nothing)
    } else {
        let event = Event::Category(category);
        let colon = only(b':', byte, condition_of(category), event);
        skip(State::Letters(category, read), byte, colon)
    }
}

#[inline]
fn first(byte: u8, state: State) -> Transition
    ensures { result ≡ reader.first byte state }
{
    if byte.is_ascii_digit() {
        Some((state, Event::First(byte - b'0')))
    } else {
        None
    }
}

#[inline]
fn digit(byte: u8, state: State, otherwise: Transition) -> Transition
    ensures { result ≡ reader.digit byte state otherwise }
{
    if byte.is_ascii_digit() {
        Some((state, Event::Digit(byte - b'0')))
    } else {
        otherwise
    }
}

#[inline]
fn modulus_state(byte: u8) -> State
    ensures { result ≡ reader.modulus_state byte }
{
    if byte == b'0' {
        State::Zeros
    } else {
        State::ModulusDigits
    }
}

#[inline]
fn percent(byte: u8) -> Transition
    ensures { result ≡ reader.next reader.no_categories State.Percent byte }
{
    let rest = if byte == b'%' {
        Some((State::Modulus, Event::Percent))
    } else {
        comparison(byte)
    };
    skip(State::Percent, byte, rest)
}

#[inline]
fn other_condition(seen: Categories, byte: u8) -> Transition
    ensures { result ≡ reader.next seen State.OtherCondition byte }
{
    let rest = if byte == b';' || byte == b'@' {
        rule_end(seen, byte, Event::EndOther)
    } else {
        operand(byte)
    };
    skip(State::OtherCondition, byte, rest)
}

#[inline]
fn sample(seen: Categories, byte: u8) -> Transition
    ensures { result ≡ reader.next seen State.Samples byte }
{
    match byte {
        b';' if seen.is_full() => None,
        b';' => Some((State::Category, Event::Nothing)),
        _ => Some((State::Samples, Event::Nothing)),
    }
}

impl State {
    #[inline]
    pub fn next(self, seen: Categories, byte: u8) -> Option<(State, Event)>
        ensures { result ≡ reader.next seen self byte }
    {
        match self {
            State::Category => skip(self, byte, category_letter(seen, byte)),
            State::One => second_letter(seen, byte),
            State::Letters(category, read) => letter(category, read, byte),
            State::OtherCondition => other_condition(seen, byte),
            State::Operand => skip(self, byte, operand(byte)),
            State::Percent => percent(byte),
            State::Modulus => skip(self, byte, first(byte, modulus_state(byte))),
            State::Zeros => digit(byte, modulus_state(byte), None),
            State::ModulusDigits => {
                let rest = skip(State::Comparison, byte, comparison(byte));
                digit(byte, self, rest)
            }
            State::Comparison => skip(self, byte, comparison(byte)),
            State::NotEqual => only(b'=', byte, State::Low, Event::Equal(false)),
            State::Low => skip(self, byte, first(byte, State::LowDigits)),
            State::LowDigits => digit(byte, self, after_low(seen, byte)),
            State::AfterLow => after_low(seen, byte),
            State::Dot => only(b'.', byte, State::High, Event::To),
            State::High => skip(self, byte, first(byte, State::HighDigits)),
            State::HighDigits => digit(byte, self, after_high(seen, byte)),
            State::AfterHigh => after_high(seen, byte),
            State::And => only(b'n', byte, State::AndEnd, Event::Nothing),
            State::AndEnd => only(b'd', byte, State::Blank, Event::Nothing),
            State::OrEnd => only(b'r', byte, State::Blank, Event::Nothing),
            State::Blank => skip(State::Operand, byte, None),
            State::Samples => sample(seen, byte),
        }
    }

    #[inline]
    pub fn at_end(self) -> Option<Event>
        ensures { result ≡ reader.at_end self }
    {
        match self {
            State::LowDigits | State::AfterLow | State::HighDigits | State::AfterHigh => {
                Some(Event::End)
            }
            State::OtherCondition => Some(Event::EndOther),
            State::Samples => Some(Event::Nothing),
            _ => None,
        }
    }
}
