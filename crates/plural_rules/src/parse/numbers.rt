//! The numbers in a text of rules, and whether they fit.
ghost use Rattle.std.specs.Prelude.{◌≡◌};
ghost use Rattle.plural_rules.specs.RulesReader as reader;

use crate::parse::state::Event;
use crate::rules::MAX_MODULUS;

/// The numbers of the bytes that have been read.
#[derive(Clone, Copy)]
pub enum Numbers {
    /// All of them fit: the last one as far as it was read, whether it is a modulus, and its offset.
    Fit {
        number: u64,
        is_modulus: bool,
        begin: usize,
    },
    /// The offset of the first one that is too great.
    TooLarge(usize),
}

#[inline]
fn limit(is_modulus: bool) -> u64
    ensures { result ≡ reader.limit is_modulus }
{
    if is_modulus { MAX_MODULUS } else { u64::MAX }
}

#[inline]
fn checked_number(is_modulus: bool, begin: usize, number: u128) -> Numbers
    ensures { result ≡ reader.checked_number is_modulus begin number }
{
    if number <= limit(is_modulus) as u128 {
        Numbers::Fit {
            number: number as u64,
            is_modulus,
            begin,
        }
    } else {
        Numbers::TooLarge(begin)
    }
}

impl Numbers {
    #[inline]
    pub fn after(self, at: usize, event: Event) -> Self
        ensures { result ≡ reader.numbers_after self at event }
    {
        let Numbers::Fit {
            number,
            is_modulus,
            begin,
        } = self
        else {
            return self;
        };
        match event {
            Event::First(digit) => checked_number(is_modulus, at, digit as u128),
            Event::Digit(digit) => {
                checked_number(is_modulus, begin, number as u128 * 10 + digit as u128)
            }
            Event::Percent => Numbers::Fit {
                number: 0,
                is_modulus: true,
                begin,
            },
            Event::Equal(_) | Event::Operand(_) => Numbers::Fit {
                number,
                is_modulus: false,
                begin,
            },
            _ => self,
        }
    }

    #[inline]
    pub fn all_fit(self) -> bool
        ensures { result ≡ reader.all_fit self }
    {
        matches!(self, Numbers::Fit { .. })
    }
}
