//! The rows of tables of which a formatter is made.
ghost use Rattle.std.specs.{Prelude.{◌≡◌, None, IfOk, IfErr, IfSome, IfNone, IsSomeAnd}, Option.option_copied};
ghost use Rattle.locale_data.specs.{Currencies.LacksCurrency, Locales.{symbols_at, IsUnknown}};
ghost use Rattle.number_format.specs.{Formatters.{system_text, LacksRows, IsCurrencyBy, IsCurrencyRow, AreSymbolsOf, AreIdsOf, IsFormatterError}, NumberStyles.outer_alone};

use crate::format::outer::OuterTexts;
use crate::options::{NumberOptions, NumberStyle};
use locale_data::{
    CurrencyId, LocalCurrency, LocaleId, NumberFormats, NumberingSystem, PluralRuleType,
    PluralRulesId, currency_at, currency_id, formats_of, locale_id, locale_id_in, plural_rules_id,
    system_name_at,
};

/// Why there is no formatter: of `xx` it is `UnknownLocale`.
#[derive(Clone, Copy, Debug, PartialEq)]
pub enum NumberFormatError {
    /// No tag of the locale is listed, or the numbering system that it names is not.
    UnknownLocale,
    /// The locale is known, and the numbering system of the options is not listed.
    UnknownNumberingSystem,
}

/// The rows of tables of which a formatter is made, as [`of`](FormatterIds::of) finds those of `de` and options. They
/// are the same as long as the tables are.
#[derive(Clone, Copy)]
pub struct FormatterIds {
    /// The symbols and the numbering system.
    pub symbols: LocaleId,
    /// The patterns.
    pub formats: NumberFormats,
    /// The plural rules.
    pub rules: PluralRulesId,
    /// The currency of the style, if it is listed.
    pub currency: Option<CurrencyId>,
    /// The texts around the whole text: of a unit, or the names of a currency.
    pub outer: OuterTexts,
}

/// Returns the name of the numbering system: that of the options, or else that of the symbols.
pub(crate) fn system_text(id: LocaleId, name: &Option<NumberingSystem>) -> Option<&str>
    ensures value { option_copied result ≡ system_text id name.now }
    ensures none { IfNone result (symbols_at id ≡ None) }
{
    match name {
        Some(name) => Some(name.as_str()),
        None => system_name_at(id),
    }
}

/// Returns what a row has for a currency, if there is one, and `None` if the tables lack it.
#[inline(always)]
pub(crate) fn currency_by(row: Option<CurrencyId>) -> Option<Option<LocalCurrency>>
    ensures found { IfSome result (IsCurrencyBy row) }
    ensures lacks { IfNone result (IsSomeAnd row LacksCurrency) }
{
    match row {
        Some(id) => Some(Some(currency_at(id)?)),
        None => Some(None),
    }
}

fn symbols_of(tag: &str, name: &Option<NumberingSystem>) -> Result<LocaleId, NumberFormatError>
    ensures known { IfOk result (λ id. ¬ IsUnknown tag.now) }
    ensures ok { IfOk result (AreSymbolsOf tag.now name.now) }
    ensures err { IfErr result (λ e. IsFormatterError tag.now name.now e) }
{
    let Some(own) = locale_id(tag) else {
        return Err(NumberFormatError::UnknownLocale);
    };
    match name {
        None => Ok(own),
        Some(name) => match locale_id_in(tag, name.as_str()) {
            Some(id) => Ok(id),
            None => Err(NumberFormatError::UnknownNumberingSystem),
        },
    }
}

fn currency_row(tag: &str, style: NumberStyle) -> Option<CurrencyId>
    ensures row { IsCurrencyRow tag.now style result }
    ensures exists { IfSome result (λ id. ¬ LacksCurrency id) }
{
    match style {
        NumberStyle::Currency(style) => currency_id(tag, style.code),
        _ => None,
    }
}

impl FormatterIds {
    /// Returns the texts around one number, of those around a range.
    #[inline(always)]
    pub fn outer_of_one(&self, options: &NumberOptions) -> OuterTexts
        ensures { result ≡ outer_alone options.now.style options.now.notation self.now.outer }
    {
        self.outer.alone(options.style, options.notation)
    }

    /// Finds the rows of a locale and options.
    ///
    /// # Errors
    ///
    /// As [`NumberFormatter::try_new`](crate::NumberFormatter::try_new).
    pub fn of(tag: &str, options: &NumberOptions) -> Result<FormatterIds, NumberFormatError>
        ensures ok { IfOk result (AreIdsOf tag.now options.now) }
        ensures exist { IfOk result (λ ids. ¬ LacksRows ids) }
        ensures err { IfErr result (λ e. IsFormatterError tag.now options.now.numbering_system e) }
    {
        let symbols = symbols_of(tag, &options.numbering_system)?;
        let Some(rules) = plural_rules_id(tag, PluralRuleType::Cardinal) else {
            return Err(NumberFormatError::UnknownLocale);
        };
        let system = match system_text(symbols, &options.numbering_system) {
            Some(system) => system,
            None => unreachable!(),
        };
        Ok(FormatterIds {
            symbols,
            formats: formats_of(tag, system),
            rules,
            currency: currency_row(tag, options.style),
            outer: OuterTexts::of(tag, options.style, options.notation),
        })
    }
}
