//! A currency as it is shown.
ghost use Rattle.std.specs.Prelude.{◌≡◌, ◌≤◌, ℕ, List, [], false, None, Some, length};
ghost use Rattle.number_format.specs.NumberStyles.{symbol_text, wide_symbol, narrow_symbol, currency_text, piece_or, ends_with_currency, begins_with_currency, keeps_spaces, in_system, IsShownBy, IsShownWith, IsShownCurrency};
ghost use Rattle.number_format.specs.Formatters.{system_text};

use crate::format::ids::system_text;
use crate::format::text_part::{PartKind, TextPart};
use crate::options::{CurrencyDisplay, CurrencyStyle};
use locale_data::{
    Affix, CurrencyCode, CurrencySymbol, LocalCurrency, LocaleId, NumberingSystem, Piece,
};

/// A currency as it is shown.
#[derive(Clone, Copy)]
pub(crate) struct ShownCurrency {
    pub(crate) symbol: TextPart<'static>,
    pub(crate) code: CurrencyCode,
    pub(crate) shows_code: bool,
    pub(crate) space_before: bool,
    pub(crate) space_after: bool,
    pub(crate) wide: &'static str,
    pub(crate) narrow: &'static str,
}

fn symbol_text(symbol: Option<CurrencySymbol>) -> &'static str
    ensures { result.now ≡ symbol_text symbol }
{
    match symbol {
        Some(symbol) => symbol.text,
        None => "",
    }
}

fn wide_symbol(currency: Option<LocalCurrency>) -> Option<CurrencySymbol>
    ensures { result ≡ wide_symbol currency }
{
    match currency {
        Some(currency) => Some(currency.wide),
        None => None,
    }
}

fn narrow_symbol(currency: Option<LocalCurrency>) -> Option<CurrencySymbol>
    ensures { result ≡ narrow_symbol currency }
{
    match currency {
        Some(currency) => Some(currency.narrow),
        None => None,
    }
}

// Not inlined: most symbols have no spaces.
#[inline(never)]
fn keeps_spaces(symbols: LocaleId, name: &Option<NumberingSystem>) -> bool
    ensures { (system : List ℕ) → system_text symbols name.now ≡ Some system → result ≡ keeps_spaces system }
{
    match system_text(symbols, name) {
        Some(system) => system.as_bytes() != b"hanidec".as_slice(),
        None => true,
    }
}

impl ShownCurrency {
    pub(crate) fn copied(&self) -> Self
        ensures { result ≡ self.now }
    {
        ShownCurrency {
            symbol: self.symbol,
            code: self.code,
            shows_code: self.shows_code,
            space_before: self.space_before,
            space_after: self.space_after,
            wide: self.wide,
            narrow: self.narrow,
        }
    }

    pub(crate) fn text(&self) -> &str
        ensures value { result.now ≡ currency_text self.now }
        ensures short { length result.now ≤ 255 }
    {
        if self.shows_code {
            self.code.as_str()
        } else {
            self.symbol.text
        }
    }

    #[inline(always)]
    pub(crate) fn none() -> Self
        ensures shown { IsShownBy [] false false result }
        ensures symbol { result.shows_code ≡ false }
    {
        ShownCurrency {
            symbol: TextPart::new(PartKind::Literal, ""),
            code: CurrencyCode::none(),
            shows_code: false,
            space_before: false,
            space_after: false,
            wide: "",
            narrow: "",
        }
    }

    #[inline(always)]
    fn with_symbol(&self, symbol: Option<CurrencySymbol>) -> Self
        ensures shown { IsShownWith symbol result }
        ensures code { result.code ≡ self.now.code }
        ensures names { (result.wide ≡ self.now.wide) × (result.narrow ≡ self.now.narrow) }
    {
        match symbol {
            Some(symbol) => ShownCurrency {
                symbol: TextPart::new(PartKind::Currency, symbol.text),
                shows_code: false,
                space_before: symbol.space_before,
                space_after: symbol.space_after,
                ..*self
            },
            None => ShownCurrency {
                shows_code: true,
                space_before: true,
                space_after: true,
                ..*self
            },
        }
    }

    /// Returns the currency as it is shown in the numbering system of the options, or else of the symbols.
    #[inline(always)]
    pub(crate) fn in_system(&self, symbols: LocaleId, name: &Option<NumberingSystem>) -> Self
        ensures { (system : List ℕ) → system_text symbols name.now ≡ Some system
            → result ≡ in_system system self.now }
    {
        let has_spaces = self.space_before || self.space_after;
        let spaced = has_spaces && keeps_spaces(symbols, name);
        ShownCurrency {
            space_before: self.space_before && spaced,
            space_after: self.space_after && spaced,
            ..*self
        }
    }

    #[inline(always)]
    pub(crate) fn of(currency: Option<LocalCurrency>, style: &CurrencyStyle) -> Self
        ensures { IsShownCurrency currency style.now result }
    {
        let wide = wide_symbol(currency);
        let narrow = narrow_symbol(currency);
        let named = ShownCurrency {
            code: style.code,
            wide: symbol_text(wide),
            narrow: symbol_text(narrow),
            ..Self::none()
        };
        match style.display {
            CurrencyDisplay::Symbol | CurrencyDisplay::Name => named.with_symbol(wide),
            CurrencyDisplay::Narrow => named.with_symbol(narrow),
            CurrencyDisplay::Code => named.with_symbol(None),
            CurrencyDisplay::Hidden => named,
        }
    }
}

fn piece_or(piece: Piece, other: Piece) -> Piece
    ensures { result ≡ piece_or piece other }
{
    match piece {
        Piece::Empty => other,
        _ => piece,
    }
}

pub(crate) fn ends_with_currency(affix: Affix) -> bool
    ensures { result ≡ ends_with_currency affix }
{
    let third = piece_or(affix.third, piece_or(affix.second, affix.first));
    matches!(piece_or(affix.fourth, third), Piece::Currency)
}

pub(crate) fn begins_with_currency(affix: Affix) -> bool
    ensures { result ≡ begins_with_currency affix }
{
    let second = piece_or(affix.second, piece_or(affix.third, affix.fourth));
    matches!(piece_or(affix.first, second), Piece::Currency)
}
