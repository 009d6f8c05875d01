//! Digits and separators at the start of a text.
ghost use Rattle.std.specs.Prelude.{◌≡◌, ◌≢◌, ℕ, ◌<◌, List, ◌++◌, MatchOption};
ghost use Rattle.decimal_format.specs.Readable.{code, IsReadable};
ghost use Rattle.number_format.specs.ScientificReading.{capped, with_digit, with_code, IsScan};

use crate::read::cut::cut_code;
use decimal_format::DecimalSymbols;

/// The numbers that integer digits and fraction digits write: 40,000 instead of a greater one.
#[derive(Clone, Copy)]
pub(super) struct Scan {
    /// The number of integer digits.
    pub(super) count: u32,
    pub(super) whole: u32,
    /// The remainder of the integer part by 3.
    pub(super) remainder: u32,
    pub(super) fraction: u32,
    pub(super) has_decimal: bool,
    pub(super) has_grouping: bool,
}

fn next_code<'t>(symbols: &DecimalSymbols<'_>, text: &'t [u8]) -> Option<(u8, &'t [u8])>
    ensures { MatchOption result ((k : ℕ) (rest : List ℕ) → k < 12 → text.now ≢ code symbols.now k ++ rest)
        (λ r. (r.0 < 12) × (text.now ≡ code symbols.now r.0 ++ r.1.now)) }
{
    for index in 0..12 {
        if let Some(rest) = cut_code(symbols, index, text) {
            return Some((index, rest));
        }
    }
    None
}

fn capped(number: u32) -> u32
    ensures { result ≡ capped number }
{
    number.min(40000)
}

impl Scan {
    fn with_digit(self, digit: u8) -> Self
        requires few { digit < 10 }
        requires fraction { self.fraction < 40001 }
        requires count { self.count < 40001 }
        requires whole { self.whole < 40001 }
        requires remainder { self.remainder < 3 }
        ensures { result ≡ with_digit self digit }
    {
        let digit = u32::from(digit);
        if self.has_decimal {
            return Scan {
                fraction: capped(self.fraction * 10 + digit),
                ..self
            };
        }
        Scan {
            count: capped(self.count + 1),
            whole: capped(self.whole * 10 + digit),
            remainder: (self.remainder * 10 + digit) % 3,
            ..self
        }
    }

    fn with_code(self, code: u8) -> Self
        requires few { code < 12 }
        requires fraction { self.fraction < 40001 }
        requires count { self.count < 40001 }
        requires whole { self.whole < 40001 }
        requires remainder { self.remainder < 3 }
        ensures { result ≡ with_code self code }
    {
        match code {
            10 => Scan {
                has_decimal: true,
                ..self
            },
            11 => Scan {
                has_grouping: true,
                ..self
            },
            _ => self.with_digit(code),
        }
    }
}

/// Scans the digits and the separators at the start of a text, and returns what follows them.
pub(super) fn scan_number<'t>(symbols: &DecimalSymbols<'_>, text: &'t [u8]) -> (Scan, &'t [u8])
    requires { IsReadable symbols.now }
    ensures { IsScan symbols.now text.now result.1.now result.0 }
{
    let mut scan = Scan {
        count: 0,
        whole: 0,
        remainder: 0,
        fraction: 0,
        has_decimal: false,
        has_grouping: false,
    };
    let mut rest = text;
    while let Some(next) = next_code(symbols, rest) {
        scan = scan.with_code(next.0);
        rest = next.1;
    }
    (scan, rest)
}
