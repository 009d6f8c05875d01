//! Formatting of a formatted decimal by `{}`.
ghost use Rattle.std.specs.{Prelude.{◌<◌, Some}, Fmt.WritesStyledOnOk};
ghost use Rattle.decimal_format.specs.Formatted.{shown_count, nth_text, formatted_absolute_text, formatted_text};

use super::{FormattedAbsolute, FormattedDecimal};
use fixed_decimal::DigitStore;
use std::fmt;

impl<'f, D: DigitStore> FormattedAbsolute<'f, D> {
    fn fmt_nth<W: fmt::Write>(&self, below: u32, f: &mut fmt::Formatter<W>) -> fmt::Result
        requires { below < shown_count self.now.value }
        ensures { WritesStyledOnOk W.write_str_gives f.old result
            (nth_text self.now.symbols self.now.strategy self.now.value below) f.new }
    {
        f.write_str(self.separator_before(below))?;
        f.write_char(self.digit(below))?;
        f.write_str(self.separator_after(below))
    }
}

impl<'f, D: DigitStore> fmt::Display for FormattedAbsolute<'f, D> {
    ghost output = { λ v. Some (formatted_absolute_text v) };

    ghost styled_output = { λ v _. Some (formatted_absolute_text v) };

    /// Writes the text that `write_to` appends, and ignores the options of the format.
    ///
    /// # Errors
    ///
    /// The formatter fails.
    fn fmt<W: fmt::Write>(&self, f: &mut fmt::Formatter<W>) -> fmt::Result {
        for below in 0..self.shown_count() {
            self.fmt_nth(below, f)?;
        }
        Ok(())
    }
}

impl<'f, D: DigitStore> fmt::Display for FormattedDecimal<'f, D> {
    ghost output = { λ v. Some (formatted_text v) };

    ghost styled_output = { λ v _. Some (formatted_text v) };

    /// Writes the text that `write_to` appends, and ignores the options of the format.
    ///
    /// # Errors
    ///
    /// The formatter fails.
    fn fmt<W: fmt::Write>(&self, f: &mut fmt::Formatter<W>) -> fmt::Result {
        f.write_str(self.prefix())?;
        self.absolute.fmt(f)?;
        f.write_str(self.suffix())
    }
}
