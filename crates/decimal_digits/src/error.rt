//! The messages of the errors.
ghost use Rattle.std.specs.Prelude.{◌≡◌};
ghost use Rattle.decimal_digits.specs.ErrorText.{round_error_text};

use crate::rounding::RoundError;
use crate::sink::SinkFault;
use std::error::Error;
use std::fmt;

impl RoundError {
    fn text(&self) -> &'static str
        ensures { result.now ≡ round_error_text self.now }
    {
        match self {
            RoundError::Limit => "Magnitude or number of digits exceeded",
            RoundError::Memory => "Out of memory",
        }
    }
}

impl fmt::Display for RoundError {
    ghost use Rattle.std.specs.Prelude.{Some};
    ghost use Rattle.decimal_digits.specs.ErrorText.{round_error_text};

    ghost output = { λ e. Some (round_error_text e) };

    ghost styled_output = { λ e _. Some (round_error_text e) };

    /// Writes the message: `Out of memory` for `Memory`. Format options are ignored.
    fn fmt<W: fmt::Write>(&self, f: &mut fmt::Formatter<W>) -> fmt::Result {
        f.write_str(self.text())
    }
}

impl Error for RoundError {}

impl fmt::Display for SinkFault {
    ghost use Rattle.std.specs.Prelude.{Some};
    ghost use Rattle.decimal_digits.specs.ErrorText.{sink_text};

    ghost output = { λ _. Some sink_text };

    ghost styled_output = { λ _ _. Some sink_text };

    /// Writes the message `The sink refused a byte`. Format options are ignored.
    fn fmt<W: fmt::Write>(&self, f: &mut fmt::Formatter<W>) -> fmt::Result {
        f.write_str("The sink refused a byte")
    }
}

impl Error for SinkFault {}
