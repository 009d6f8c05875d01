//! The patterns of percent and of currencies, and the symbols that only these have.

/// A piece of a prefix or a suffix.
#[derive(Clone, Copy)]
pub enum Piece {
    /// Nothing.
    Empty,
    /// The minus sign.
    Minus,
    /// The plus sign.
    Plus,
    /// The percent sign.
    Percent,
    /// The symbol of the currency.
    Currency,
    OpenParenthesis,
    CloseParenthesis,
    NoBreakSpace,
    NarrowNoBreakSpace,
    /// U+061C, which is not shown.
    ArabicMark,
    /// U+200E, which is not shown.
    LeftMark,
    /// U+200F, which is not shown.
    RightMark,
}

/// A prefix or a suffix: four pieces, one after another.
#[derive(Clone, Copy)]
pub struct Affix {
    pub first: Piece,
    pub second: Piece,
    pub third: Piece,
    pub fourth: Piece,
}

/// A prefix and a suffix.
#[derive(Clone, Copy)]
pub struct AffixPair {
    /// The text before the number.
    pub prefix: Affix,
    /// The text after the number.
    pub suffix: Affix,
}

/// How percent or a currency is written.
///
/// `prefix, number, suffix` of UTS 35 part 3, Number Patterns, for each sign that is shown. A negative number may have
/// parentheses in place of a minus sign.
#[derive(Clone, Copy)]
pub struct Pattern {
    /// The affixes of a number without a sign.
    pub positive: AffixPair,
    /// The affixes of a number with a minus sign.
    pub negative: AffixPair,
    /// The affixes of a number with a plus sign.
    pub plus: AffixPair,
    /// The size of the last group of integer digits; 0 for no groups.
    pub primary: u8,
    /// The size of every other group; 0 for the primary size.
    pub secondary: u8,
}

/// A separator of money.
#[derive(Clone, Copy)]
pub enum MoneySeparator {
    Period,
    Comma,
    NoBreakSpace,
    NarrowNoBreakSpace,
    Dollar,
}

/// A pattern that a locale has for a single currency, in each numbering system.
#[derive(Clone, Copy)]
pub struct CurrencyOverride {
    /// The index of its pattern.
    pub pattern: u8,
    /// The decimal separator.
    pub decimal: MoneySeparator,
    /// The grouping separator.
    pub grouping: MoneySeparator,
}

/// How a locale writes money, in each numbering system.
#[derive(Clone, Copy)]
pub struct MoneyFormat {
    /// The decimal separator, if it is not that of other numbers.
    pub decimal: Option<MoneySeparator>,
    /// The grouping separator, if it is not that of other numbers.
    pub grouping: Option<MoneySeparator>,
    /// The index of the override that replaces the patterns of all currencies.
    pub replaced: Option<u8>,
}

/// The text between a significand and its exponent.
#[derive(Clone, Copy)]
pub enum ExponentSeparator {
    LatinCapitalE,
    LatinSmallE,
    Caret,
    TimesTen,
    DotTen,
    TimesArabicTen,
    ArabicHamza,
    ArabicAlef,
    CyrillicIe,
    AdlamMiim,
}

/// A percent sign.
#[derive(Clone, Copy)]
pub enum PercentSign {
    Percent,
    Arabic,
    ArabicBeforeArabicMark,
    ArabicBeforeRightMark,
    /// Between two left-to-right marks.
    Enclosed,
    Tilde,
}

/// A per mille sign.
#[derive(Clone, Copy)]
pub enum PermilleSign {
    Permille,
    Arabic,
    ArabicBeforeRightMark,
    /// `0/00`
    Ascii,
}

/// The symbols of a numbering system that plain decimals do not have.
#[derive(Clone, Copy)]
pub struct NumberSigns {
    /// The text between a significand and its exponent.
    pub exponent: ExponentSeparator,
    /// The percent sign.
    pub percent: PercentSign,
    /// The per mille sign.
    pub permille: PermilleSign,
}
