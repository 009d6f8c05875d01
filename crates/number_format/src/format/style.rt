//! What a locale has for the options: the pattern, separators and currency of the style, and the exponents.
ghost use Rattle.std.specs.Prelude.{◌≡◌, ◌≤◌, ℕ, List, Some, length};
ghost use Rattle.number_format.specs.{Formatters.{style_sizes, system_text, currency_sign, with_separators, has_percent_pattern, IsWithoutCurrency, IsNumberPattern, IsMoney, IsStyle, IsNotationBy, digits_by, AreShownDigits}, NumberText.compact_style, NumberStyles.{before, plain_pattern, percent_text, percent_kind, is_own, money_pattern}};

use crate::digits::options::DigitOptions;
use crate::format::currency::ShownCurrency;
use crate::format::default_digits::default_digits;
use crate::format::outer::OuterTexts;
use crate::format::text_part::PartKind;
use crate::notation::{CompactExponents, Notation};
use crate::options::{
    CurrencyDisplay, CurrencyStyle, GroupSizes, NumberNotation, NumberOptions, NumberStyle,
};
use decimal_format::{DecimalSymbols, GroupingSizes, GroupingStrategy};
use fixed_decimal::SignDisplay;
use locale_data::{
    Affix, AffixPair, CurrencyDigits, CurrencyPattern, CurrencySign, LocalCurrency, LocaleId,
    NumberFormats, NumberSigns, Pattern, Piece, UNLISTED_DIGITS, currency_pattern,
};

const NO_PIECES: Affix = Affix {
    first: Piece::Empty,
    second: Piece::Empty,
    third: Piece::Empty,
    fourth: Piece::Empty,
};

#[inline(always)]
fn before(piece: Piece) -> AffixPair
    ensures { result ≡ before piece }
{
    AffixPair {
        prefix: Affix {
            first: piece,
            ..NO_PIECES
        },
        suffix: NO_PIECES,
    }
}

#[inline(always)]
fn plain_pattern(sizes: GroupingSizes) -> Pattern
    ensures { result ≡ plain_pattern sizes }
{
    Pattern {
        positive: before(Piece::Empty),
        negative: before(Piece::Minus),
        plus: before(Piece::Plus),
        primary: sizes.primary,
        secondary: sizes.secondary,
    }
}

#[inline(always)]
pub(crate) fn percent_text(style: NumberStyle, signs: NumberSigns) -> &'static str
    ensures value { result.now ≡ percent_text style signs }
    ensures short { length result.now ≤ 255 }
{
    match style {
        NumberStyle::Permille => signs.permille.text(),
        _ => signs.percent.text(),
    }
}

#[inline(always)]
pub(crate) fn percent_kind(style: NumberStyle) -> PartKind
    ensures { result ≡ percent_kind style }
{
    match style {
        NumberStyle::Unit(_) => PartKind::Unit,
        _ => PartKind::PercentSign,
    }
}

#[inline(always)]
pub(crate) fn style_sizes(
    pattern: &Pattern,
    sizes: GroupSizes,
    strategy: GroupingStrategy,
    own: GroupingSizes,
) -> GroupingSizes
    ensures { result ≡ style_sizes pattern.now sizes strategy own }
{
    let (primary, secondary) = match (sizes, strategy) {
        (GroupSizes::Thousands, _) => (3, 3),
        (GroupSizes::Locale, GroupingStrategy::Always) if pattern.primary == 0 => {
            (3, pattern.secondary)
        }
        (GroupSizes::Locale, _) => (pattern.primary, pattern.secondary),
    };
    GroupingSizes {
        primary,
        secondary,
        ..own
    }
}

#[inline(always)]
pub(crate) fn with_separators(
    symbols: DecimalSymbols<'static>,
    pattern: &CurrencyPattern,
) -> DecimalSymbols<'static>
    ensures { result ≡ with_separators symbols.entry pattern.now }
{
    let symbols = match pattern.decimal {
        Some(separator) => symbols.with_decimal_separator(separator.text()),
        None => symbols,
    };
    match pattern.grouping {
        Some(separator) => symbols.with_grouping_separator(separator.text()),
        None => symbols,
    }
}

// Node differs from ECMA-402: without a sign the pattern of accounts is not used.
fn currency_sign(display: SignDisplay, sign: CurrencySign) -> CurrencySign
    ensures { result ≡ currency_sign display sign }
{
    match display {
        SignDisplay::Never => CurrencySign::Standard,
        _ => sign,
    }
}

#[inline(always)]
fn without_currency(pattern: Pattern) -> (CurrencyPattern, ShownCurrency)
    ensures { IsWithoutCurrency pattern result.0 result.1 }
{
    let written = CurrencyPattern {
        pattern,
        decimal: None,
        grouping: None,
    };
    (written, ShownCurrency::none())
}

fn is_own(pattern: &CurrencyPattern) -> bool
    ensures { result ≡ is_own pattern.now }
{
    pattern.decimal.is_some() && pattern.grouping.is_some()
}

#[inline(always)]
fn money_pattern(
    display: CurrencyDisplay,
    sizes: GroupingSizes,
    pattern: CurrencyPattern,
) -> CurrencyPattern
    ensures { result ≡ money_pattern display sizes pattern }
{
    if display.shows_name() && !is_own(&pattern) {
        return CurrencyPattern {
            pattern: plain_pattern(sizes),
            ..pattern
        };
    }
    pattern
}

#[inline(always)]
fn money(
    symbols: LocaleId,
    sizes: GroupingSizes,
    formats: &NumberFormats,
    currency: Option<LocalCurrency>,
    options: &NumberOptions,
    style: &CurrencyStyle,
) -> (CurrencyPattern, ShownCurrency)
    ensures { (system : List ℕ) → system_text symbols options.now.numbering_system ≡ Some system
        → IsMoney system sizes formats.now currency options.now.sign_display style.now result.0 result.1 }
{
    let sign = currency_sign(options.sign_display, style.sign);
    let written = currency_pattern(formats, currency, sign);
    (
        money_pattern(style.display, sizes, written),
        ShownCurrency::of(currency, style).in_system(symbols, &options.numbering_system),
    )
}

fn has_percent_pattern(notation: NumberNotation, style: NumberStyle, texts: &OuterTexts) -> bool
    ensures { result ≡ has_percent_pattern notation style texts.now }
{
    match (notation, style, texts) {
        (NumberNotation::Compact(_), _, _) => false,
        (_, NumberStyle::Percent | NumberStyle::Permille, _) => true,
        (_, NumberStyle::Unit(_), OuterTexts::None) => true,
        _ => false,
    }
}

#[inline(always)]
fn number_pattern(
    is_percent: bool,
    sizes: GroupingSizes,
    formats: &NumberFormats,
) -> (CurrencyPattern, ShownCurrency)
    ensures { IsNumberPattern is_percent sizes formats.now result.0 result.1 }
{
    if is_percent {
        without_currency(*formats.percent())
    } else {
        without_currency(plain_pattern(sizes))
    }
}

#[inline(always)]
pub(crate) fn style_of(
    symbols: LocaleId,
    sizes: GroupingSizes,
    formats: &NumberFormats,
    currency: Option<LocalCurrency>,
    texts: &OuterTexts,
    options: &NumberOptions,
) -> (CurrencyPattern, ShownCurrency)
    ensures { (system : List ℕ) → system_text symbols options.now.numbering_system ≡ Some system
        → IsStyle options.now.style options.now.notation texts.now system sizes formats.now currency
        options.now.sign_display result.0 result.1 }
{
    match options.style {
        NumberStyle::Currency(style) => {
            money(symbols, sizes, formats, currency, options, &style)
        }
        style => {
            let is_percent = has_percent_pattern(options.notation, style, texts);
            number_pattern(is_percent, sizes, formats)
        }
    }
}

fn digits_by(currency: Option<LocalCurrency>) -> CurrencyDigits
    ensures { result ≡ digits_by currency }
{
    match currency {
        Some(currency) => currency.digits,
        None => UNLISTED_DIGITS,
    }
}

/// Returns the digits that the options have, or else the default ones.
#[inline(always)]
pub(crate) fn shown_digits(
    options: &NumberOptions,
    currency: Option<LocalCurrency>,
) -> Option<DigitOptions>
    ensures { AreShownDigits currency options.now result }
{
    match options.digits {
        Some(digits) => Some(digits),
        None => default_digits(options, digits_by(currency)),
    }
}

#[inline(always)]
pub(crate) fn notation_of(options: &NumberOptions, formats: &NumberFormats) -> Notation
    ensures { IsNotationBy formats.now options.now.notation
        (compact_style options.now.notation options.now.style) result }
{
    match (options.notation, options.compact_style()) {
        (_, Some(style)) => Notation::Compact(CompactExponents {
            rows: formats.compact_exponents(style),
        }),
        (NumberNotation::Scientific(_), None) => Notation::Scientific,
        (NumberNotation::Engineering(_), None) => Notation::Engineering,
        _ => Notation::Standard,
    }
}
