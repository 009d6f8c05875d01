//! Numbering systems, and the symbols of locales.

use super::{Name, TableRange};
use decimal_format::GroupingSizes;

/// A separator, or the text before a number with a sign.
#[derive(Clone, Copy)]
pub enum Symbol {
    Period,
    Comma,
    NoBreakSpace,
    NarrowNoBreakSpace,
    RightQuote,
    Apostrophe,
    ArabicComma,
    ReversedComma,
    ArabicDecimal,
    ArabicThousands,
    Hyphen,
    Minus,
    Plus,
    /// After an Arabic letter mark, as the next two.
    ArabicHyphen,
    ArabicMinus,
    ArabicPlus,
    /// After a left-to-right mark, as the next two.
    LeftHyphen,
    LeftMinus,
    LeftPlus,
    /// After a right-to-left mark, as the next.
    RightHyphen,
    RightPlus,
    /// Between two left-to-right marks, as the next two.
    EnclosedHyphen,
    EnclosedMinus,
    EnclosedPlus,
    /// Before a left-to-right mark.
    PlusLeft,
}

/// The symbols around the digits. In CLDR 48 no locale writes a sign after them.
#[derive(Clone, Copy)]
pub struct SymbolSet {
    /// The decimal separator.
    pub decimal: Symbol,
    /// The grouping separator.
    pub grouping: Symbol,
    /// The text before a number with a minus sign.
    pub minus: Symbol,
    /// The text before a number with a plus sign.
    pub plus: Symbol,
}

/// A decimal numbering system.
#[derive(Clone, Copy)]
pub struct DecimalSystem {
    /// Its name in CLDR: `latn`.
    pub name: Name,
    /// The digits from 0 to 9.
    pub digits: [char; 10],
    /// Its symbols, or those of the locale.
    pub symbols: Option<SymbolSet>,
    /// The locales that have symbols of their own in it.
    pub rows: TableRange,
}

/// The symbols of a locale in a numbering system.
#[derive(Clone, Copy)]
pub struct LocaleSymbols {
    /// The tag of the locale: `de-ch`.
    pub tag: Name,
    /// The index of the numbering system in `NUMBERING_SYSTEMS`.
    pub system: u8,
    /// The symbols.
    pub symbols: SymbolSet,
    /// The sizes of groups.
    pub sizes: GroupingSizes,
}
