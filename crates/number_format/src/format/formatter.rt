//! The formatter of numbers: made by a locale and options, it rounds a number and chooses what is written around it.
ghost use Rattle.std.specs.{Prelude.{◌≡◌, ◌↔◌, ◌⊎◌, Some, None, pos, IsTrue, IsSome, IfSome, IfNone, IfOk, IfErr, IsErrOf, OnOk, OnErr}, Option.ForSome};
ghost use Rattle.locale_data.specs.Plurals.{rules_text_at};

use crate::digits::options::DigitOptions;
use crate::format::affixes::StyleTexts;
use crate::format::compact::{CompactChoice, NO_CHOICE, compact_magnitude, is_one};
use crate::format::exponent::category_with;
use crate::format::ids::{FormatterIds, NumberFormatError, currency_by};
use crate::format::outer::{OuterAround, OuterTexts};
use crate::format::style::{
    notation_of, percent_kind, percent_text, shown_digits, style_of, style_sizes, with_separators,
};
use crate::format::text_part::{PartKind, TextPart};
use crate::notation::Notation;
use crate::notation::scale::ShownNumber;
use crate::options::{NumberNotation, NumberOptions, NumberStyle};
use fixed_decimal::{Decimal, DecimalStore, RoundError};
use locale_data::{
    NumberFormats, PluralRulesId, UnitAffixes, plural_category_at, rules_text_at, symbols_at,
};
use plural_rules::{PluralCategory, PluralOperands};

/// Formats numbers as `Intl.NumberFormat` of ECMA-402 does, with the data of CLDR 48, on decimals of any length.
#[derive(Drop)]
pub struct NumberFormatter {
    pub(crate) style: StyleTexts,
    /// What is written before an exponent.
    pub(crate) separator: TextPart<'static>,
    pub(crate) outer: OuterTexts,
    pub(crate) formats: NumberFormats,
    pub(crate) rules: PluralRulesId,
    pub(crate) options: NumberOptions,
    pub(crate) notation: Notation,
    pub(crate) digits: Option<DigitOptions>,
    pub ghost rules_listed: { IsSome (rules_text_at rules) },
}

impl NumberFormatter {
    ghost use Rattle.decimal_unsigned.specs.declared.decimal.TheConstants.{INLINE_DIGITS};
    ghost use Rattle.fixed_decimal.specs.DecimalText.{IsLong};
    ghost use Rattle.locale_data.specs.Plurals.{IsCategoryAt};
    ghost use Rattle.plural_rules.specs.Operands.{plain};
    ghost use Rattle.number_format.specs.{FormattedNumbers.{ChoosesOuter, ChoosesPattern, ChoosesWhole, IsOuter, IsShownNumber}, Formatters.{LacksRows, IsFormatterAt, IsFormatterWith, IsFormatter, IsFormatterError, IsRangeFormatter, IsRangeFormatterAt}, NumberText.{compact_style, has_categories, operands_with, outer_by, outer_texts, shown_number, rounded_in, rounded_by, whole_number, RoundingNeedsMemory, NeedsMemory, WholeRoundingNeedsMemory, WritingNeedsMemory, FormattingNeedsMemory}, Scaled.{ScaledValue, scaled_value}};
    ghost use Rattle.fixed_decimal.specs.Decimal.{Decimal};

    /// Makes the formatter of a locale and options. It does not allocate.
    ///
    /// `tag` is a tag as [`locale`](locale_data::locale) has it.
    ///
    /// # Errors
    ///
    /// - `UnknownLocale`: `locale` returns `None`.
    /// - `UnknownNumberingSystem`: it returns symbols, and no numbering system has the name that the options have.
    pub fn try_new(tag: &str, options: NumberOptions) -> Result<NumberFormatter, NumberFormatError>
        ensures ok { IfOk result (IsFormatter tag.now options) }
        ensures err { IfErr result (λ e. IsFormatterError tag.now options.numbering_system e) }
    {
        let ids = FormatterIds::of(tag, &options)?;
        match Self::at(&ids, &options) {
            Some(formatter) => Ok(formatter),
            None => unreachable!(),
        }
    }

    /// Makes the formatter of a locale and options for [`format_range`](Self::format_range). It does not allocate.
    ///
    /// It is that of [`try_new`](Self::try_new), but for percent per another unit: of `percent-per-hour`, short or
    /// narrow and not in compact notation, `Intl.NumberFormat` writes `1%` of one number, but `1–2%/h` of a range.
    ///
    /// # Errors
    ///
    /// As [`NumberFormatter::try_new`].
    ///
    /// ```
    /// let formatter = NumberFormatter::for_ranges("en", options)?;
    /// let texts = RangeTexts::of("en", &options.numbering_system)?;
    /// formatter.format_range(alloc, &texts, start, end)? // 1–2%/h
    /// ```
    pub fn for_ranges(
        tag: &str,
        options: NumberOptions,
    ) -> Result<NumberFormatter, NumberFormatError>
        ensures ok { IfOk result (IsRangeFormatter tag.now options) }
        ensures err { IfErr result (λ e. IsFormatterError tag.now options.numbering_system e) }
    {
        let ids = FormatterIds::of(tag, &options)?;
        match Self::ranges_at(&ids, &options) {
            Some(formatter) => Ok(formatter),
            None => unreachable!(),
        }
    }

    /// Makes the formatter of rows of tables and options, without a search. Returns `None` if there are no such rows.
    ///
    /// ```
    /// let ids = FormatterIds::of("de", &options)?;
    /// NumberFormatter::at(&ids, &options) // the formatter of de
    /// ```
    // Inlined, so that the formatter is copied once less.
    #[inline(always)]
    pub fn at(ids: &FormatterIds, options: &NumberOptions) -> Option<NumberFormatter>
        ensures some { IfSome result (IsFormatterAt ids.now options.now) }
        ensures none { IfNone result (LacksRows ids.now) }
    {
        Self::with_outer(ids, ids.outer_of_one(options), options)
    }

    /// Makes the formatter of rows of tables and options for [`format_range`](Self::format_range), as
    /// [`for_ranges`](Self::for_ranges) does. Returns `None` if there are no such rows.
    ///
    /// ```
    /// let ids = FormatterIds::of("de", &options)?;
    /// NumberFormatter::ranges_at(&ids, &options) // the formatter of ranges of de
    /// ```
    pub fn ranges_at(ids: &FormatterIds, options: &NumberOptions) -> Option<NumberFormatter>
        ensures some { IfSome result (IsRangeFormatterAt ids.now options.now) }
        ensures none { IfNone result (LacksRows ids.now) }
    {
        Self::with_outer(ids, ids.outer, options)
    }

    /// Makes the formatter of rows of tables, of texts around the whole text instead of those of the rows, and of
    /// options. Returns `None` if there are no such rows. With [`FormatterIds::outer_of_one`] it is [`at`](Self::at) in
    /// less time, since the formatter is not copied.
    ///
    /// ```
    /// let outer = ids.outer_of_one(&options);
    /// NumberFormatter::with_outer(&ids, outer, &options) // the formatter of de
    /// ```
    #[inline(always)]
    pub fn with_outer(
        ids: &FormatterIds,
        texts: OuterTexts,
        options: &NumberOptions,
    ) -> Option<NumberFormatter>
        ensures some { IfSome result (IsFormatterWith ids.now texts options.now) }
        ensures none { IfNone result (LacksRows ids.now) }
    {
        let symbols = symbols_at(ids.symbols)?;
        let _rules = rules_text_at(ids.rules)?;
        let currency = currency_by(ids.currency)?;
        let own = symbols.sizes();
        let outer = texts.in_style(options.style);
        let formats = &ids.formats;
        let (written, shown) = style_of(ids.symbols, own, formats, currency, &outer, options);
        let strategy = options.grouping;
        let sizes = style_sizes(&written.pattern, options.group_sizes, strategy, own);
        let signs = formats.signs();
        let percent = percent_text(options.style, signs);
        let style = StyleTexts {
            symbols: with_separators(symbols, &written).with_sizes(sizes),
            pattern: written.pattern,
            percent: TextPart::new(percent_kind(options.style), percent),
            currency: shown,
        };
        Some(NumberFormatter {
            style,
            separator: TextPart::new(PartKind::ExponentSeparator, signs.exponent.text()),
            outer,
            formats: ids.formats,
            rules: ids.rules,
            options: *options,
            notation: notation_of(options, formats),
            digits: shown_digits(options, currency),
        })
    }

    /// Returns this formatter once more.
    pub(crate) fn copied(&self) -> Self
        ensures { result ≡ self.now }
    {
        NumberFormatter {
            style: self.style.copied(),
            separator: self.separator,
            outer: self.outer,
            formats: self.formats,
            rules: self.rules,
            options: self.options,
            notation: self.notation,
            digits: self.digits,
        }
    }

    #[inline(always)]
    fn rounded(&self, value: &mut Decimal) -> Result<ShownNumber, RoundError>
        ensures ok { IfOk result (λ s. rounded_in self.now.notation self.now.digits value.old
            ≡ Some (scaled_value value.new s.exponent)) }
        ensures zero { IfOk result (λ s. IsTrue s.is_zero
            ↔ (rounded_by self.now.notation self.now.digits value.old ≡ 0)) }
        ensures limit { IsErrOf result RoundError.Limit
            → rounded_in self.now.notation self.now.digits value.old ≡ None }
        ensures memory { IsErrOf result RoundError.Memory
            → RoundingNeedsMemory self.now.notation self.now.digits value.old }
        ensures unchanged { self.now.notation ≡ Notation.Standard → OnErr result (value.new ≡ value.old) }
    {
        let Some(digits) = &self.digits else {
            return Ok(ShownNumber {
                exponent: 0,
                is_zero: value.absolute.is_zero(),
            });
        };
        match &self.notation {
            Notation::Standard => digits.round_in_place(value),
            notation => notation.scale_in_place(digits, value),
        }
    }

    pub(crate) fn shown_number(&self, value: &mut Decimal) -> Result<ShownNumber, RoundError>
        ensures ok { IfOk result (IsShownNumber self.now value.old value.new) }
        ensures limit { IsErrOf result RoundError.Limit → shown_number self.now value.old ≡ None }
        ensures memory { IsErrOf result RoundError.Memory → NeedsMemory self.now value.old }
        ensures unchanged { self.now.notation ≡ Notation.Standard → self.now.options.scale ≡ pos 0
            → OnErr result (value.new ≡ value.old) }
    {
        if self.options.scale == 0 {
            // Proof hint: the value satisfies its invariant.
            let _range = value.absolute.magnitude_range();
            return self.rounded(value);
        }
        self.scaled(value)
    }

    // Not inlined: most numbers are not scaled.
    #[inline(never)]
    fn scaled(&self, value: &mut Decimal) -> Result<ShownNumber, RoundError>
        ensures ok { IfOk result (IsShownNumber self.now value.old value.new) }
        ensures limit { IsErrOf result RoundError.Limit → shown_number self.now value.old ≡ None }
        ensures memory { IsErrOf result RoundError.Memory → NeedsMemory self.now value.old }
    {
        if let Err(_) = value.absolute.multiply_pow10(self.options.scale) {
            return Err(RoundError::Limit);
        }
        self.rounded(value)
    }

    pub(crate) fn shown_number_or_unchanged(
        &self,
        value: &mut Decimal,
    ) -> Result<ShownNumber, RoundError>
        ensures ok { IfOk result (IsShownNumber self.now value.old value.new) }
        ensures unchanged { OnErr result (value.new ≡ value.old) }
        ensures limit { IsErrOf result RoundError.Limit → shown_number self.now value.old ≡ None }
        ensures memory { IsErrOf result RoundError.Memory → FormattingNeedsMemory self.now value.old }
    {
        if matches!(self.notation, Notation::Standard) && self.options.scale == 0 {
            return self.shown_number(value);
        }
        let Ok(kept) = value.clone() else {
            return Err(RoundError::Memory);
        };
        match self.shown_number(value) {
            Ok(shown) => Ok(shown),
            Err(error) => {
                *value = kept;
                Err(error)
            }
        }
    }

    fn category(&self, number: &PluralOperands<'_, DecimalStore>) -> PluralCategory
        ensures { IsCategoryAt self.now.rules number.now result }
    {
        match plural_category_at(self.rules, number) {
            Some(category) => category,
            // The rules of a formatter are listed.
            None => PluralCategory::Other,
        }
    }

    pub(crate) fn choice(&self, significand: &Decimal, exponent: i32) -> CompactChoice
        ensures { ChoosesPattern self.now significand.now exponent result }
    {
        let Some(style) = self.options.compact_style() else {
            return NO_CHOICE;
        };
        let magnitude = compact_magnitude(&self.notation, significand, exponent);
        let patterns = self.formats.compact_patterns(style, magnitude);
        if !patterns.needs_category() {
            return CompactChoice {
                patterns,
                ..NO_CHOICE
            };
        }
        let category = self.category(&PluralOperands::of_decimal(significand));
        CompactChoice {
            patterns,
            category,
            is_one: is_one(significand),
        }
    }

    fn compact_outer(&self, category: PluralCategory) -> OuterAround<'static>
        ensures { IsOuter (outer_texts self.now.formats OuterTexts.None
            (compact_style self.now.options.notation self.now.options.style) self.now.options.style category) result }
    {
        match (self.options.compact_style(), self.options.style) {
            (Some(_), NumberStyle::Percent) => {
                OuterAround::of_affixes(self.formats.percent_unit(category))
            }
            (Some(_), NumberStyle::Permille) => OuterAround::of_affixes(UnitAffixes {
                prefix: "",
                suffix: "\u{2030}",
            }),
            _ => OuterAround::none(),
        }
    }

    /// Returns what is written around the whole text of a number of a plural category.
    pub(crate) fn outer_around(&self, category: PluralCategory) -> OuterAround<'_>
        ensures { IsOuter (outer_by self.now category) result }
    {
        match &self.outer {
            OuterTexts::Units(rows) => OuterAround::of_unit(*rows, category),
            OuterTexts::Names(names) => OuterAround::of_name(names, category),
            OuterTexts::None => self.compact_outer(category),
        }
    }

    /// Returns whether what is around the whole text depends on the plural category.
    #[inline(always)]
    pub(crate) fn has_categories(&self) -> bool
        ensures { result ≡ has_categories self.now }
    {
        match (&self.outer, self.options.style) {
            (OuterTexts::None, NumberStyle::Percent) => self.options.compact_style().is_some(),
            (OuterTexts::None, _) => false,
            _ => true,
        }
    }

    #[inline(always)]
    pub(crate) fn whole_category(&self, value: &Decimal) -> Result<PluralCategory, RoundError>
        ensures ok { IfOk result (ChoosesWhole self.now value.now) }
        ensures limit { IsErrOf result RoundError.Limit → shown_number self.now value.now ≡ None }
        ensures memory { IsErrOf result RoundError.Memory → WritingNeedsMemory self.now value.now }
    {
        if !self.has_categories() {
            return Ok(PluralCategory::Other);
        }
        match self.options.notation {
            NumberNotation::Standard => Ok(PluralCategory::Other),
            NumberNotation::Compact(_) => self.undivided_category(value),
            _ => self.exponent_category(value),
        }
    }

    /// Returns the category of the significand in standard notation, and else that of the whole number.
    #[inline(always)]
    pub(crate) fn outer_category(
        &self,
        significand: &Decimal,
        whole: PluralCategory,
    ) -> PluralCategory
        ensures { (v : Decimal) (number : ScaledValue) → shown_number self.now v ≡ Some number
            → number.significand ≡ significand.now → ChoosesWhole self.now v whole
            → ChoosesOuter self.now v number result }
    {
        match self.options.notation {
            NumberNotation::Standard if self.has_categories() => {
                self.category(&PluralOperands::of_decimal(significand))
            }
            _ => whole,
        }
    }

    fn category_with(&self, significand: &mut Decimal, exponent: i32) -> PluralCategory
        ensures { IsCategoryAt self.now.rules (operands_with significand.old.absolute exponent) result }
    {
        match category_with(self.rules, &mut significand.absolute, exponent) {
            Some(category) => category,
            // The rules of a formatter are listed.
            None => PluralCategory::Other,
        }
    }

    // Not inlined: only units and names need it.
    #[inline(never)]
    fn exponent_category(&self, value: &Decimal) -> Result<PluralCategory, RoundError>
        ensures ok { IfOk result (λ c. (number : ScaledValue) → shown_number self.now value.now ≡ Some number
            → IsCategoryAt self.now.rules (operands_with number.significand.absolute number.exponent) c) }
        ensures limit { IsErrOf result RoundError.Limit → shown_number self.now value.now ≡ None }
        ensures memory { IsErrOf result RoundError.Memory
            → IsLong INLINE_DIGITS value.now ⊎ NeedsMemory self.now value.now }
    {
        let Ok(mut number) = value.clone() else {
            return Err(RoundError::Memory);
        };
        let shown = self.shown_number(&mut number)?;
        Ok(self.category_with(&mut number, shown.exponent))
    }

    fn round_whole(&self, value: &mut Decimal) -> Result<(), RoundError>
        ensures ok { OnOk result (value.new.absolute ≡ whole_number self.now value.old) }
        ensures err { IfErr result (λ e. (e ≡ RoundError.Memory) × WholeRoundingNeedsMemory self.now value.old) }
    {
        let scale = self.options.scale;
        if let Err(_) = value.absolute.multiply_pow10(scale) {
            return Ok(());
        }
        match &self.digits {
            Some(digits) => digits.round_whole(value),
            None => Ok(()),
        }
    }

    // Not inlined: only percent, units and names in compact notation need it.
    #[inline(never)]
    pub(crate) fn undivided_category(&self, value: &Decimal) -> Result<PluralCategory, RoundError>
        ensures ok { IfOk result (IsCategoryAt self.now.rules (plain (whole_number self.now value.now))) }
        ensures err { IfErr result (λ e. (e ≡ RoundError.Memory)
            × (IsLong INLINE_DIGITS value.now ⊎ WholeRoundingNeedsMemory self.now value.now)) }
    {
        let Ok(mut whole) = value.clone() else {
            return Err(RoundError::Memory);
        };
        self.round_whole(&mut whole)?;
        Ok(self.category(&PluralOperands::of_decimal(&whole)))
    }
}
