//! Whether the separator of exponents is apart from digits and from other separators.
ghost use Rattle.std.specs.Prelude.{◌≡◌, ◌↔◌, ◌<◌, IsTrue};
ghost use Rattle.decimal_format.specs.Readable.{code, BeginsWith};
ghost use Rattle.number_format.specs.ScientificReading.{AreApart, IsSeparatorApart};

use crate::read::cut::{cut, cut_code};
use decimal_format::DecimalSymbols;

fn begins_code(symbols: &DecimalSymbols<'_>, index: u8, text: &[u8]) -> bool
    requires { index < 12 }
    ensures { IsTrue result ↔ BeginsWith (code symbols.now index) text.now }
{
    match index {
        10 => cut(symbols.decimal_separator().as_bytes(), text).is_some(),
        11 => cut(symbols.grouping_separator().as_bytes(), text).is_some(),
        _ => {
            let mut buffer = [0; 4];
            cut(
                symbols.digit(index).encode_utf8(&mut buffer).as_bytes(),
                text,
            )
            .is_some()
        }
    }
}

fn is_code_apart(symbols: &DecimalSymbols<'_>, index: u8, separator: &[u8]) -> bool
    requires { index < 12 }
    ensures { IsTrue result ↔ AreApart separator.now (code symbols.now index) }
{
    cut_code(symbols, index, separator).is_none() && !begins_code(symbols, index, separator)
}

pub(super) fn is_separator_apart(symbols: &DecimalSymbols<'_>, separator: &[u8]) -> bool
    ensures { IsTrue result ↔ IsSeparatorApart symbols.now separator.now }
{
    for index in 0..12 {
        if !is_code_apart(symbols, index, separator) {
            return false;
        }
    }
    true
}
