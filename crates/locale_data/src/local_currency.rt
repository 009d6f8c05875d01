//! What a locale has for a currency.
ghost use Rattle.std.specs.{Prelude.{◌<◌, ◌≤◌, length}, Option.ForSome};
ghost use Rattle.locale_data.specs.declared.tables.formats.TheConstants.{CURRENCY_OVERRIDES};

/// The numbers of digits of a currency.
///
/// UTS 35 part 3, Supplemental Currency Data.
///
/// ```
/// let franc = CurrencyCode::try_from_str("CHF")?;
/// currency_digits(franc).digits // 2
/// currency_digits(franc).cash_increment // 5: cash is a multiple of 0.05
/// ```
#[derive(Clone, Copy)]
pub struct CurrencyDigits {
    /// The number of fraction digits.
    pub digits: u8,
    /// The number of fraction digits in cash.
    pub cash_digits: u8,
    /// The increment in cash, in units of the last digit; 0 for 1.
    pub cash_increment: u8,
}

/// A symbol of a currency.
///
/// ```
/// let currency = currency_at(currency_id("en", CurrencyCode::try_from_str("CHF")?)?)?;
/// currency.wide.text // CHF
/// currency.wide.space_after // true: CHF 1.00
/// ```
#[derive(Clone, Copy)]
pub struct CurrencySymbol {
    /// Its text, of at most 255 bytes.
    pub text: &'static str,
    /// Whether a space separates it from a digit before it, by the rule of CLDR, Currency Spacing.
    pub space_before: bool,
    /// Whether a space separates it from a digit after it.
    pub space_after: bool,
    pub ghost short: { length text.now ≤ 255 },
}

/// What a locale has for a currency.
///
/// ```
/// let currency = currency_at(currency_id("en", CurrencyCode::try_from_str("CAD")?)?)?;
/// currency.wide.text // CA$
/// currency.narrow.text // $
/// ```
#[derive(Clone, Copy)]
pub struct LocalCurrency {
    /// The numbers of its digits.
    pub digits: CurrencyDigits,
    /// Its symbol.
    pub wide: CurrencySymbol,
    /// Its narrow symbol.
    pub narrow: CurrencySymbol,
    pub(crate) pattern: Option<u8>,
    pub ghost pattern_listed: { ForSome pattern (λ index. index < length CURRENCY_OVERRIDES) },
}
