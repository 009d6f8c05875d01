//! Reading of numbers between the texts of patterns.
ghost use Rattle.std.specs.{Prelude.{◌≡◌, ◌≢◌, ℕ, List, ◌++◌, MatchOption, IfOk, IfErr, IsSome, None, Ok, Err}};
ghost use Rattle.decimal_format.specs.{Readable.IsReadable, Reading.IsRead};
ghost use Rattle.locale_data.specs.Plurals.{IsCategoryAt, rules_text_at};
ghost use Rattle.number_format.specs.{AffixedTexts.{AreNamed, Allows, shifted, IsWritten, IsWrittenBy, IsNumeral, IsBetween, IsSplit, IsOwn, IsReadShown, IsReadExactly, IsReadWith, IsReadTyped}, ScientificReading.{IsSeparatorApart, HasParts}, NumberText.operands_with, AffixedExponents.{IsReadShownExponent, IsReadWithExponent, IsTypedWithExponent}};
ghost use Rattle.number_format.specs.declared.read.pattern.NumberPattern.{NumberPattern};
ghost use Rattle.plural_rules.specs.Operands.{plain};

use crate::format::exponent::category_with;
use crate::read::cut::cut_affixes;
use crate::read::pattern::NumberPattern;
use crate::read::scientific::{ExponentForm, times_power};
use decimal_format::DecimalSymbols;
use decimal_format::internal::{
    Alternative, begins_with_digit, ends_with_digit, read_alternatives,
};
use fixed_decimal::{DigitStore, ParseError, Signed, UnsignedOver};
use locale_data::{PluralRulesId, plural_category_at};
use plural_rules::{PluralCategory, PluralOperands};
use std::alloc::Global;
use std::marker::Model;

/// Reads numbers between the texts of patterns, and multiplies them by 10^shift: by -2 `12.5%` is 0.125.
#[derive(Drop)]
pub(crate) struct AffixReader<'a> {
    symbols: DecimalSymbols<'a>,
    patterns: Vec<NumberPattern>,
    rules: PluralRulesId,
    shift: i16,
    pub ghost rules_listed: { IsSome (rules_text_at rules) },
}

impl<'a> Model for AffixReader<'a> {
    ghost use Rattle.decimal_format.specs.Readable.{IsReadable};
    ghost use Rattle.number_format.specs.AffixedTexts.{Reader, AreNamed};

    ghost Value = { Reader };

    ghost view = { λ s. record {
      symbols = s.symbols;
      patterns = s.patterns.items;
      rules = s.rules;
      shift = s.shift;
    } };

    ghost invariant = { λ s. IsReadable s.symbols × AreNamed s.symbols s.patterns.items };
}

fn between<'t>(
    symbols: &DecimalSymbols<'_>,
    pattern: &NumberPattern,
    text: &'t [u8],
) -> Option<&'t [u8]>
    requires { IsReadable symbols.now }
    ensures { MatchOption result ((middle : List ℕ) → ¬ IsBetween symbols.now text.now pattern.now middle)
        (λ r. IsBetween symbols.now text.now pattern.now r.now) }
{
    let affixes = pattern.affixes.texts();
    let middle = cut_affixes(text, affixes.prefix.as_bytes(), affixes.suffix.as_bytes())?;
    if ends_with_digit(symbols, middle) && begins_with_digit(symbols, middle) {
        return Some(middle);
    }
    None
}

fn between_if<'t>(
    symbols: &DecimalSymbols<'_>,
    pattern: &NumberPattern,
    category: Option<PluralCategory>,
    text: &'t [u8],
) -> Option<&'t [u8]>
    requires { IsReadable symbols.now }
    ensures { MatchOption result
        ((middle : List ℕ) → Allows category pattern.now → ¬ IsBetween symbols.now text.now pattern.now middle)
        (λ r. Allows category pattern.now × IsBetween symbols.now text.now pattern.now r.now) }
{
    if pattern.allows(category) {
        return between(symbols, pattern, text);
    }
    None
}

fn split<'p, 't>(
    symbols: &DecimalSymbols<'_>,
    patterns: &'p [NumberPattern],
    category: Option<PluralCategory>,
    text: &'t [u8],
) -> Option<(&'p NumberPattern, &'t [u8])>
    requires { IsReadable symbols.now }
    ensures { MatchOption result
        ((p : NumberPattern) (middle : List ℕ) → ¬ IsSplit symbols.now patterns.now category text.now p middle)
        (λ r. IsSplit symbols.now patterns.now category text.now r.0.now r.1.now) }
{
    for pattern in patterns {
        if let Some(middle) = between_if(symbols, pattern, category, text) {
            return Some((pattern, middle));
        }
    }
    None
}

/// Multiplies what was read by 10^shift.
pub(crate) fn shifted<D: DigitStore>(
    read: Result<Signed<UnsignedOver<D>>, ParseError>,
    shift: i16,
) -> Result<Signed<UnsignedOver<D>>, ParseError>
    ensures { result ≡ shifted shift read }
{
    let mut value = read?;
    match value.absolute.multiply_pow10(shift) {
        Ok(()) => Ok(value),
        Err(_) => Err(ParseError::Limit),
    }
}

impl<'a> AffixReader<'a> {
    ghost use Rattle.decimal_unsigned.specs.Unsigned.{IsValue};

    pub(crate) fn new(
        symbols: DecimalSymbols<'a>,
        patterns: Vec<NumberPattern>,
        rules: PluralRulesId,
        shift: i16,
    ) -> Self
        requires readable { IsReadable symbols }
        requires named { AreNamed symbols patterns.items }
        requires listed { IsSome (rules_text_at rules) }
        ensures { result ≡ record {
          symbols = symbols.entry;
          patterns = patterns.items;
          rules = rules;
          shift = shift;
        } }
    {
        AffixReader {
            symbols,
            patterns,
            rules,
            shift,
        }
    }

    pub(crate) fn category<D: DigitStore>(&self, value: &Signed<UnsignedOver<D>>) -> PluralCategory
        ensures { IsCategoryAt self.now.rules (plain value.now.absolute) result }
    {
        match plural_category_at(self.rules, &PluralOperands::of_decimal(value)) {
            Some(category) => category,
            // The rules of a reader are listed.
            None => PluralCategory::Other,
        }
    }

    fn own<D: DigitStore>(
        &self,
        pattern: &NumberPattern,
        value: Signed<UnsignedOver<D>>,
        text: &[u8],
    ) -> Result<Signed<UnsignedOver<D>>, ParseError>
        requires valid { IsValue value.absolute }
        requires written { IsWrittenBy self.now text.now value pattern.now }
        ensures { IsOwn self.now text.now (Ok value) result }
    {
        if let None = pattern.category {
            return Ok(value);
        }
        let category = self.category(&value);
        match split(
            &self.symbols,
            self.patterns.as_slice(),
            Some(category),
            text,
        ) {
            Some(_) => Ok(value),
            None => Err(ParseError::Syntax),
        }
    }

    fn read_by<D: DigitStore>(
        &self,
        alloc: Global,
        pattern: &NumberPattern,
        middle: &[u8],
        text: &[u8],
    ) -> Result<Signed<UnsignedOver<D>>, ParseError>
        requires { IsSplit self.now.symbols self.now.patterns None text.now pattern.now middle.now }
        ensures read { IsRead D.L (IsNumeral self.now text.now) (IsWritten self.now text.now) result }
        ensures by { IfOk result (λ v. IsWrittenBy self.now text.now v pattern.now) }
    {
        match self.symbols.read(alloc, middle) {
            Ok(value) => Ok(value.with_sign(pattern.sign)),
            Err(error) => Err(error),
        }
    }

    /// Reads a number between the texts of a pattern of any category, and returns the pattern too.
    pub(crate) fn read_pattern<D: DigitStore>(
        &self,
        alloc: Global,
        text: &[u8],
    ) -> Result<(Signed<UnsignedOver<D>>, &NumberPattern), ParseError>
        ensures ok { IfOk result (λ r. IsWrittenBy self.now text.now r.0 r.1.now
            × IsRead D.L (IsNumeral self.now text.now) (IsWritten self.now text.now) (Ok r.0)) }
        ensures err { IfErr result
            (λ e. IsRead D.L (IsNumeral self.now text.now) (IsWritten self.now text.now) (Err e)) }
    {
        let Some((pattern, middle)) = split(&self.symbols, self.patterns.as_slice(), None, text)
        else {
            return Err(ParseError::Syntax);
        };
        match self.read_by(alloc, pattern, middle, text) {
            Ok(value) => Ok((value, pattern)),
            Err(error) => Err(error),
        }
    }

    fn read_shown<D: DigitStore>(
        &self,
        alloc: Global,
        text: &[u8],
    ) -> Result<Signed<UnsignedOver<D>>, ParseError>
        ensures { IsReadShown D.L self.now text.now result }
    {
        let (value, pattern) = self.read_pattern(alloc, text)?;
        self.own(pattern, value, text)
    }

    /// Multiplies what was read by 10^shift.
    pub(crate) fn undo_scale<D: DigitStore>(
        &self,
        read: Result<Signed<UnsignedOver<D>>, ParseError>,
    ) -> Result<Signed<UnsignedOver<D>>, ParseError>
        ensures { result ≡ shifted self.now.shift read }
    {
        shifted(read, self.shift)
    }

    /// Reads a number between the texts of a pattern, in exactly one of the forms that a formatter writes.
    ///
    /// The number is as [`DecimalSymbols::read`] accepts it: with all grouping separators, or none. Its plural category
    /// is that of the pattern, if the pattern has one.
    ///
    /// # Errors
    ///
    /// - `Syntax`: no decimal has this text, of any number of digits.
    /// - `Limit`: there are more than 32,768 integer or fraction digits, or the shift leaves these limits.
    /// - `Memory`: out of memory; possible only with more than `L` digits.
    pub(crate) fn read<D: DigitStore>(
        &self,
        alloc: Global,
        text: &[u8],
    ) -> Result<Signed<UnsignedOver<D>>, ParseError>
        ensures { IsReadExactly D.L self.now text.now result }
    {
        self.undo_scale(self.read_shown(alloc, text))
    }

    fn category_with<D: DigitStore>(
        &self,
        significand: &mut UnsignedOver<D>,
        exponent: i32,
    ) -> PluralCategory
        ensures { IsCategoryAt self.now.rules (operands_with significand.old exponent) result }
    {
        match category_with(self.rules, significand, exponent) {
            Some(category) => category,
            // The rules of a reader are listed.
            None => PluralCategory::Other,
        }
    }

    fn own_exponent<D: DigitStore>(
        &self,
        form: &ExponentForm<'_>,
        pattern: &NumberPattern,
        middle: &[u8],
        significand: Signed<UnsignedOver<D>>,
        exponent: i32,
        text: &[u8],
    ) -> Result<Signed<UnsignedOver<D>>, ParseError>
        requires separator { IsSeparatorApart self.now.symbols form.now.separator.now }
        requires split { IsSplit self.now.symbols self.now.patterns None text.now pattern.now middle.now }
        requires parts { HasParts self.now.symbols form.now middle.now significand exponent }
        ensures { IsReadShownExponent D.L self.now form.now text.now result }
    {
        let symbols = &self.symbols;
        let Ok(mut copy) = significand.clone() else {
            return Err(ParseError::Memory);
        };
        let value = match times_power(significand, exponent) {
            Ok(value) => value,
            Err(error) => return Err(error),
        };
        let category = Some(self.category_with(&mut copy.absolute, exponent));
        let Some(_) = split(symbols, self.patterns.as_slice(), category, text) else {
            return Err(ParseError::Syntax);
        };
        Ok(value.with_sign(pattern.sign))
    }

    fn read_exponent<D: DigitStore>(
        &self,
        form: &ExponentForm<'_>,
        alloc: Global,
        pattern: &NumberPattern,
        middle: &[u8],
        text: &[u8],
    ) -> Result<Signed<UnsignedOver<D>>, ParseError>
        requires separator { IsSeparatorApart self.now.symbols form.now.separator.now }
        requires split { IsSplit self.now.symbols self.now.patterns None text.now pattern.now middle.now }
        ensures { IsReadShownExponent D.L self.now form.now text.now result }
    {
        let (significand, exponent) = match form.read_parts(&self.symbols, alloc, middle) {
            Ok(parts) => parts,
            Err(fault) => return Err(fault),
        };
        match pattern.category {
            Some(_) => self.own_exponent(form, pattern, middle, significand, exponent, text),
            None => match times_power(significand, exponent) {
                Ok(shown) => Ok(shown.with_sign(pattern.sign)),
                Err(error) => Err(error),
            },
        }
    }

    fn read_shown_exponent<D: DigitStore>(
        &self,
        form: &ExponentForm<'_>,
        alloc: Global,
        text: &[u8],
    ) -> Result<Signed<UnsignedOver<D>>, ParseError>
        requires { IsSeparatorApart self.now.symbols form.now.separator.now }
        ensures { IsReadShownExponent D.L self.now form.now text.now result }
    {
        let Some((pattern, middle)) = split(&self.symbols, self.patterns.as_slice(), None, text)
        else {
            return Err(ParseError::Syntax);
        };
        self.read_exponent(form, alloc, pattern, middle, text)
    }

    /// Reads a number with an exponent between the texts of a pattern, in exactly one of the forms that a formatter
    /// writes.
    ///
    /// # Errors
    ///
    /// As for [`read`](Self::read); `Limit` also if the exponent leaves the limits.
    pub(crate) fn read_with_exponent<D: DigitStore>(
        &self,
        form: &ExponentForm<'_>,
        alloc: Global,
        text: &[u8],
    ) -> Result<Signed<UnsignedOver<D>>, ParseError>
        requires { IsSeparatorApart self.now.symbols form.now.separator.now }
        ensures { IsReadWithExponent D.L self.now form.now text.now result }
    {
        self.undo_scale(self.read_shown_exponent(form, alloc, text))
    }

    /// Reads the number that is shown as people type it: as [`read_lenient`](Self::read_lenient) before it multiplies.
    pub(crate) fn read_typed<D: DigitStore>(
        &self,
        alloc: Global,
        alternatives: &[Alternative<'_>],
        text: &str,
    ) -> Result<Signed<UnsignedOver<D>>, ParseError>
        ensures { IsReadWith D.L self.now alternatives.now text.now result }
    {
        match self.read_shown(alloc, text.as_bytes()) {
            Ok(value) => Ok(value),
            Err(ParseError::Syntax) => read_alternatives(&self.symbols, alloc, alternatives, text),
            Err(ParseError::Limit) => Err(ParseError::Limit),
            Err(ParseError::Memory) => Err(ParseError::Memory),
        }
    }

    /// Reads a number as people type it: between the texts of a pattern, or by the first alternative that
    /// [reads](read_alternatives) the text.
    ///
    /// A text that [`read`](Self::read) accepts has the same value.
    ///
    /// # Errors
    ///
    /// As for [`read`](Self::read).
    pub(crate) fn read_lenient<D: DigitStore>(
        &self,
        alloc: Global,
        alternatives: &[Alternative<'_>],
        text: &str,
    ) -> Result<Signed<UnsignedOver<D>>, ParseError>
        ensures { IsReadTyped D.L self.now alternatives.now text.now result }
    {
        self.undo_scale(self.read_typed(alloc, alternatives, text))
    }

    /// Reads a number as people type it: as [`read_with_exponent`](Self::read_with_exponent) does, or else without an
    /// exponent as [`read_lenient`](Self::read_lenient) does.
    ///
    /// # Errors
    ///
    /// As for these.
    pub(crate) fn read_lenient_with_exponent<D: DigitStore>(
        &self,
        form: &ExponentForm<'_>,
        alloc: Global,
        alternatives: &[Alternative<'_>],
        text: &str,
    ) -> Result<Signed<UnsignedOver<D>>, ParseError>
        requires { IsSeparatorApart self.now.symbols form.now.separator.now }
        ensures { IsTypedWithExponent D.L self.now form.now alternatives.now text.now result }
    {
        match self.read_with_exponent(form, alloc, text.as_bytes()) {
            Ok(value) => Ok(value),
            Err(ParseError::Syntax) => self.read_lenient(alloc, alternatives, text),
            Err(ParseError::Limit) => Err(ParseError::Limit),
            Err(ParseError::Memory) => Err(ParseError::Memory),
        }
    }
}
