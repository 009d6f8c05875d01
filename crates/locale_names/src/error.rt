//! The messages of the error of a unit.
ghost use Rattle.std.specs.Prelude.{◌≡◌};
ghost use Rattle.locale_names.specs.Units.{error_text};

use crate::unit_id::UnitError;
use std::error::Error;
use std::fmt;

impl UnitError {
    fn text(&self) -> &'static str
        ensures { result.now ≡ error_text self.now }
    {
        match self {
            UnitError::Unknown => "The text is no unit",
            UnitError::Numerator => "The text before -per- is no unit",
            UnitError::Denominator => "The text after -per- is no unit",
        }
    }
}

impl fmt::Display for UnitError {
    ghost use Rattle.std.specs.Prelude.{Some};
    ghost use Rattle.locale_names.specs.Units.{error_text};

    ghost output = { λ e. Some (error_text e) };

    ghost styled_output = { λ e _. Some (error_text e) };

    /// Writes the message: `The text is no unit` for `Unknown`. Format options are ignored.
    fn fmt<W: fmt::Write>(&self, f: &mut fmt::Formatter<W>) -> fmt::Result {
        f.write_str(self.text())
    }
}

impl Error for UnitError {}
