//! Codes of currencies.
ghost use Rattle.std.specs.Prelude.{◌≡◌, Some, None, MatchResult, IfErr, codes};
ghost use Rattle.locale_data.specs.Codes.{are_letters, code_of, IsCode, IsCodeError};

use std::marker::Model;
use std::str;

/// Why a text is no code of a currency.
///
/// ```
/// CurrencyCode::try_from_str("EURO") // Length
/// CurrencyCode::try_from_str("E1R") // Letters
/// ```
#[derive(Clone, Copy, Debug, PartialEq, Eq)]
pub enum CurrencyCodeError {
    /// The text does not have three bytes.
    Length,
    /// The text has three bytes, and one of them is no letter of ASCII.
    Letters,
}

/// The code of a currency, as ISO 4217 has them: three letters of ASCII, which are kept in capitals.
///
/// The code need not be listed: of a code that is not, two fraction digits and the code itself are shown.
///
/// ```
/// CurrencyCode::try_from_str("eur")?.as_str() // EUR
/// ```
#[derive(Clone, Copy, Debug, PartialEq, Eq)]
pub struct CurrencyCode {
    letters: [u8; 3],
}

impl Model for CurrencyCode {
    ghost use Rattle.std.specs.Prelude.{ℕ, List};
    ghost use Rattle.locale_data.specs.Codes.{IsCode};

    ghost Value = { List ℕ };

    ghost view = { λ s. s.letters };

    ghost inverse = { λ letters. record { letters = letters } };

    ghost invariant = { λ s. IsCode s.letters };
}

fn are_letters(text: &[u8]) -> bool
    ensures { result ≡ are_letters text.now }
{
    text.iter().all(|byte| byte.is_ascii_alphabetic())
}

impl CurrencyCode {
    /// Returns the code `XXX`, which ISO 4217 has for transactions without a currency.
    #[inline]
    pub fn none() -> CurrencyCode
        ensures { result ≡ codes "XXX" }
    {
        CurrencyCode { letters: *b"XXX" }
    }

    /// Parses the code of a currency: three letters of ASCII, of either case.
    ///
    /// # Errors
    ///
    /// - `Length`: the text does not have three bytes.
    /// - `Letters`: it does, and one is no letter of ASCII.
    ///
    /// ```
    /// CurrencyCode::try_from_str("EUR")?
    /// CurrencyCode::try_from_str("EURO") // Length
    /// CurrencyCode::try_from_str("E1R") // Letters
    /// ```
    pub fn try_from_str(text: &str) -> Result<CurrencyCode, CurrencyCodeError>
        ensures value { MatchResult result (λ code. code_of text.now ≡ Some code) (λ e. code_of text.now ≡ None) }
        ensures err { IfErr result (IsCodeError text.now) }
    {
        Self::try_from_utf8(text.as_bytes())
    }

    /// Returns the code that bytes are, as [`try_from_str`](Self::try_from_str) does of a text.
    ///
    /// # Errors
    ///
    /// As for [`try_from_str`](Self::try_from_str).
    pub fn try_from_utf8(text: &[u8]) -> Result<CurrencyCode, CurrencyCodeError>
        ensures value { MatchResult result (λ code. code_of text.now ≡ Some code) (λ e. code_of text.now ≡ None) }
        ensures err { IfErr result (IsCodeError text.now) }
    {
        let Ok(mut letters) = <[u8; 3]>::try_from(text) else {
            return Err(CurrencyCodeError::Length);
        };
        if !are_letters(text) {
            return Err(CurrencyCodeError::Letters);
        }
        letters.make_ascii_uppercase();
        Ok(CurrencyCode { letters })
    }

    /// Returns the three letters, in capitals, as bytes.
    #[inline]
    pub fn to_bytes(&self) -> [u8; 3]
        ensures value { result ≡ self.now }
        ensures code { IsCode result }
    {
        self.letters
    }

    /// Returns the three letters, in capitals.
    #[inline]
    pub fn as_str(&self) -> &str
        ensures value { result.now ≡ self.now }
        ensures code { IsCode result.now }
    {
        // Letters of ASCII are UTF-8.
        unsafe { str::from_utf8_unchecked(&self.letters) }
    }
}
