//! Reading of decimals in the form of a locale.
ghost use Rattle.std.specs.Prelude.{◌≡◌, Ok, IfOk, IfErr};
ghost use Rattle.decimal_format.specs.Readable.{IsReadable};

use decimal_format::DecimalSymbols;
use fixed_decimal::{Decimal, ParseError};
use number_format::{NumberReader, ParseMode};
use std::alloc::Global;
use std::str;

/// Reads decimals by the symbols of a locale: in `de` 1234.5 from `1.234,5`.
#[derive(Debug, Drop)]
pub struct DecimalReader<'a> {
    /// The symbols of the locale.
    pub symbols: DecimalSymbols<'a>,
    /// How strictly a text is read.
    pub mode: ParseMode,
    /// The symbols can be told apart.
    pub ghost readable: { IsReadable symbols },
}

impl<'a> DecimalReader<'a> {
    ghost use Rattle.conversions.specs.Reader.{IsReadIn, ReadingFailsIn};

    /// Reads a decimal.
    ///
    /// # Errors
    ///
    /// - `Syntax`: no decimal, of any number of digits, has this text in this mode.
    /// - `Limit`: there are more than 32,768 integer or fraction digits.
    /// - `Memory`: out of memory.
    pub fn read(&self, alloc: Global, text: &[u8]) -> Result<Decimal, ParseError>
        ensures found { IfOk result (λ v. IsReadIn self.now.mode self.now.symbols text.now (Ok v)) }
        ensures fails_with { IfErr result (ReadingFailsIn self.now.mode self.now.symbols text.now) }
    {
        match self.mode {
            ParseMode::Strict => self.symbols.read(alloc, text),
            ParseMode::Lenient => match str::from_utf8(text) {
                Ok(text) => self.symbols.read_lenient(alloc, text),
                Err(_) => Err(ParseError::Syntax),
            },
        }
    }
}

/// Reads decimals in the form of a locale, as `read:de` and `read:de:percent` name it.
pub enum LocaleReader<'a> {
    /// With all digits.
    Decimals(DecimalReader<'a>),
    /// As a formatter of numbers writes them, with their unit.
    Numbers(NumberReader, ParseMode),
}

// Not derived: a derived drop is proved again wherever a value is dropped.
impl<'a> Drop for LocaleReader<'a> {
    fn drop(self) {
        match self {
            LocaleReader::Decimals(_) => {}
            LocaleReader::Numbers(reader, _) => drop(reader),
        }
    }
}

impl<'a> LocaleReader<'a> {
    ghost use Rattle.std.specs.Prelude.{Some};
    ghost use Rattle.conversions.specs.Conversion.{IsReadBy, ReadingByFails};

    /// Reads a decimal.
    ///
    /// # Errors
    ///
    /// - `Syntax`: no decimal, of any number of digits, has this text in this mode.
    /// - `Limit`: there are more than 32,768 integer or fraction digits, or a scale leaves these limits.
    /// - `Memory`: out of memory; possible only with more than 16 digits.
    #[inline]
    pub fn read(&self, alloc: Global, text: &[u8]) -> Result<Decimal, ParseError>
        ensures found { IfOk result (λ v. IsReadBy (Some self.now) text.now (Ok v)) }
        ensures fails_with { IfErr result (ReadingByFails (Some self.now) text.now) }
    {
        match self {
            LocaleReader::Decimals(reader) => reader.read(alloc, text),
            LocaleReader::Numbers(reader, mode) => reader.read_utf8(alloc, *mode, text),
        }
    }
}
