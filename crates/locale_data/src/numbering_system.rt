//! Names of numbering systems.
ghost use Rattle.std.specs.Prelude.{◌≡◌, Some, None, MatchResult, IfErr};
ghost use Rattle.locale_data.specs.Codes.{are_alphanumeric, system_name, IsSystemName, IsSystemError};

use crate::search::unpadded;
use std::marker::Model;
use std::str;

/// Why a text is no name of a numbering system.
///
/// ```
/// NumberingSystem::try_from_str("la") // Length
/// NumberingSystem::try_from_str("latn-x") // Letters
/// ```
#[derive(Clone, Copy, Debug, PartialEq, Eq)]
pub enum NumberingSystemError {
    /// The text has fewer than three bytes, or more than eight.
    Length,
    /// The text has three to eight bytes, and one of them is neither a letter nor a digit of ASCII.
    Letters,
}

/// The name of a numbering system, such as `latn`.
///
/// It has three to eight letters and digits of ASCII. This is the form of CLDR's names and of the keyword `nu` of a
/// tag (UTS 35, part 3, Numbering Systems). Letters are kept in lower case.
///
/// The name need not be listed: a formatter of a name that is not is an error.
///
/// ```
/// NumberingSystem::try_from_str("deva")?.as_str() // deva
/// ```
#[derive(Clone, Copy, Debug, PartialEq, Eq)]
pub struct NumberingSystem {
    /// The name, and spaces after it.
    bytes: [u8; 8],
}

impl Model for NumberingSystem {
    ghost use Rattle.std.specs.Prelude.{ℕ, List};
    ghost use Rattle.std.proofs.Common.{sym, ap};
    ghost use Rattle.locale_data.specs.{Codes.{padded, IsPaddedName}, Rows.unpadded};

    ghost Value = { List ℕ };

    ghost view = { λ s. unpadded s.bytes };

    ghost inverse = { λ name. record { bytes = padded name } };

    ghost inverse_ok = { λ s h. ap (λ b. record { bytes = b }) (sym h.padded_is) };

    ghost invariant = { λ s. IsPaddedName s.bytes };
}

fn are_alphanumeric(text: &[u8]) -> bool
    ensures { result ≡ are_alphanumeric text.now }
{
    text.iter().all(|byte| byte.is_ascii_alphanumeric())
}

impl NumberingSystem {
    /// Returns the numbering system that a text names. Letters may be of either case.
    ///
    /// # Errors
    ///
    /// - `Length`: the text has fewer than three bytes, or more than eight.
    /// - `Letters`: it does not, and a byte is neither a letter nor a digit of ASCII.
    ///
    /// ```
    /// NumberingSystem::try_from_str("arab")?
    /// NumberingSystem::try_from_str("arab-x") // Letters
    /// ```
    pub fn try_from_str(text: &str) -> Result<NumberingSystem, NumberingSystemError>
        ensures value { MatchResult result (λ name. system_name text.now ≡ Some name)
            (λ e. system_name text.now ≡ None) }
        ensures err { IfErr result (IsSystemError text.now) }
    {
        Self::try_from_utf8(text.as_bytes())
    }

    /// Returns the numbering system that bytes name, as [`try_from_str`](Self::try_from_str) does of a text.
    ///
    /// # Errors
    ///
    /// As for [`try_from_str`](Self::try_from_str).
    pub fn try_from_utf8(text: &[u8]) -> Result<NumberingSystem, NumberingSystemError>
        ensures value { MatchResult result (λ name. system_name text.now ≡ Some name)
            (λ e. system_name text.now ≡ None) }
        ensures err { IfErr result (IsSystemError text.now) }
    {
        if text.len() < 3 || text.len() > 8 {
            return Err(NumberingSystemError::Length);
        }
        if !are_alphanumeric(text) {
            return Err(NumberingSystemError::Letters);
        }
        let mut bytes = [b' '; 8];
        bytes[..text.len()].copy_from_slice(text);
        bytes.make_ascii_lowercase();
        Ok(NumberingSystem { bytes })
    }

    /// Returns the name, in lower case.
    #[inline]
    pub fn as_str(&self) -> &str
        ensures value { result.now ≡ self.now }
        ensures name { IsSystemName result.now }
    {
        // Letters and digits of ASCII are UTF-8.
        unsafe { str::from_utf8_unchecked(unpadded(&self.bytes)) }
    }
}
