//! The formatted value, for `{}`.
ghost use Rattle.std.specs.Prelude.{Some};
ghost use Rattle.decimal_unsigned.specs.Text.{text};

use super::UnsignedOver;
use super::text::BLOCK;
use decimal_digits::digits::DigitStore;
use decimal_digits::sink::Writeable;
use std::fmt;

impl<D: DigitStore> fmt::Display for UnsignedOver<D> {
    ghost output = { λ v. Some (text v) };

    ghost styled_output = { λ v _. Some (text v) };

    /// Writes the text that `write_to` appends. Format options are ignored: `{:8}` also writes `2.50`.
    fn fmt<W: fmt::Write>(&self, f: &mut fmt::Formatter<W>) -> fmt::Result {
        let length = self.writeable_length_hint();
        if self.is_short() {
            let text = self.short_text();
            // SAFETY: digits and a decimal point are ASCII, which is proved here.
            return f.write_str(unsafe { str::from_utf8_unchecked(&text[..length]) });
        }
        let mut written = 0;
        while written < length {
            let mut block = [b'0'; BLOCK];
            let piece = &mut block[..BLOCK.min(length - written)];
            self.copy_text(written, piece);
            // SAFETY: digits and a decimal point are ASCII, which is proved here.
            f.write_str(unsafe { str::from_utf8_unchecked(piece) })?;
            written += piece.len();
        }
        Ok(())
    }
}
