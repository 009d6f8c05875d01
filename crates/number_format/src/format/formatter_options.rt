//! The options of a formatter with their defaults.
ghost use Rattle.std.specs.Prelude.{◌≡◌};

use crate::format::formatter::NumberFormatter;
use crate::options::NumberOptions;

impl NumberFormatter {
    /// Returns the options, with the digits that are shown where they give none.
    pub fn resolved_options(&self) -> NumberOptions
        ensures { result ≡ record self.now.options { digits = self.now.digits } }
    {
        NumberOptions {
            digits: self.digits,
            ..self.options
        }
    }
}
