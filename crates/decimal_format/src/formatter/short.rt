//! The text of a few digits, by short separators.
ghost use Rattle.std.specs.Prelude.{◌≡◌, ◌+◌, ◌≤◌, ◌<◌, ◌++◌, length, true};
ghost use Rattle.decimal_format.specs.{Formatted.{shown_count, absolute_text}, Parts.HasShortSeparators, Symbols.digit_text};

use super::FormattedAbsolute;
use crate::block::Block;
use crate::symbols::DecimalSymbols;
use fixed_decimal::DigitStore;

/// The greatest number of digits of a short text: those of a word of packed BCD.
pub(super) const SHORT: u32 = 16;

/// The number of bytes that a short text has room in: eight for each digit, and four.
pub(super) const SHORT_ROOM: usize = 132;

/// The greatest number of bytes of a digit and of a short separator.
const WIDTH: usize = 4;

#[inline]
fn push_digit(symbols: &DecimalSymbols<'_>, digit: u8, block: &mut Block)
    requires digit { digit < 10 }
    requires room { length block.old.0 + 4 ≤ 192 }
    ensures value { block.new ≡ (block.old.0 ++ digit_text symbols.now digit, block.old.1) }
    ensures at_most { length (digit_text symbols.now digit) ≤ 4 }
{
    if symbols.has_ascii_digits() {
        return block.push_if(&[b'0' + digit], true);
    }
    let mut buffer = [0; WIDTH];
    let text = symbols.digit(digit).encode_utf8(&mut buffer);
    block.push_if(text.as_bytes(), true);
}

impl<'f, D: DigitStore> FormattedAbsolute<'f, D> {
    #[inline]
    pub(super) fn has_short_separators(&self) -> bool
        ensures { result ≡ true → HasShortSeparators self.now.symbols }
    {
        let symbols = self.symbols;
        symbols.decimal_separator().len() <= WIDTH && symbols.grouping_separator().len() <= WIDTH
    }

    #[inline]
    pub(super) fn push_digits(&self, block: &mut Block)
        requires few { shown_count self.now.value ≤ 16 }
        requires short { HasShortSeparators self.now.symbols }
        requires room { length block.old.0 + 132 ≤ 192 }
        ensures { block.new ≡ (
          block.old.0
              ++ absolute_text self.now.symbols self.now.strategy self.now.value,
          block.old.1,
        ) }
    {
        let symbols = self.symbols;
        let sizes = symbols.sizes();
        let is_grouped = sizes.is_grouped(self.strategy, self.value.highest());
        let decimal = symbols.decimal_separator().as_bytes();
        let grouping = symbols.grouping_separator().as_bytes();
        let digits = self.value.leading_bcd();
        for below in 0..self.shown_count() {
            let digit = (digits >> (4 * (15 - below))) % 16;
            let begins_fraction = self.has_separator_before(below);
            let ends_group = sizes.separates_if(is_grouped, self.magnitude(below));
            block.push_if(decimal, begins_fraction);
            push_digit(symbols, digit as u8, block);
            block.push_if(grouping, ends_group);
        }
    }
}
