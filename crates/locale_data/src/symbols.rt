//! The texts of symbols, separators and signs.
ghost use Rattle.std.specs.Prelude.{◌≡◌};
ghost use Rattle.locale_data.specs.{Symbol.symbol_text, Patterns.{literal_text, separator_text, exponent_text, percent_text, permille_text}};

use crate::tables::rows::patterns::{
    ExponentSeparator, MoneySeparator, PercentSign, PermilleSign, Piece,
};
use crate::tables::rows::symbols::Symbol;

impl Symbol {
    /// Returns the text.
    pub fn text(self) -> &'static str
        ensures { result.now ≡ symbol_text self }
    {
        match self {
            Symbol::Period => ".",
            Symbol::Comma => ",",
            Symbol::NoBreakSpace => "\u{a0}",
            Symbol::NarrowNoBreakSpace => "\u{202f}",
            Symbol::RightQuote => "\u{2019}",
            Symbol::Apostrophe => "'",
            Symbol::ArabicComma => "\u{60c}",
            Symbol::ReversedComma => "\u{2e41}",
            Symbol::ArabicDecimal => "\u{66b}",
            Symbol::ArabicThousands => "\u{66c}",
            Symbol::Hyphen => "-",
            Symbol::Minus => "\u{2212}",
            Symbol::Plus => "+",
            Symbol::ArabicHyphen => "\u{61c}-",
            Symbol::ArabicMinus => "\u{61c}\u{2212}",
            Symbol::ArabicPlus => "\u{61c}+",
            Symbol::LeftHyphen => "\u{200e}-",
            Symbol::LeftMinus => "\u{200e}\u{2212}",
            Symbol::LeftPlus => "\u{200e}+",
            Symbol::RightHyphen => "\u{200f}-",
            Symbol::RightPlus => "\u{200f}+",
            Symbol::EnclosedHyphen => "\u{200e}-\u{200e}",
            Symbol::EnclosedMinus => "\u{200e}\u{2212}\u{200e}",
            Symbol::EnclosedPlus => "\u{200e}+\u{200e}",
            Symbol::PlusLeft => "+\u{200e}",
        }
    }
}

impl Piece {
    /// Returns the text of a piece that is the same in each locale, and no text of a sign or a symbol.
    pub fn text(self) -> &'static str
        ensures { result.now ≡ literal_text self }
    {
        match self {
            Piece::OpenParenthesis => "(",
            Piece::CloseParenthesis => ")",
            Piece::NoBreakSpace => "\u{a0}",
            Piece::NarrowNoBreakSpace => "\u{202f}",
            Piece::ArabicMark => "\u{61c}",
            Piece::LeftMark => "\u{200e}",
            Piece::RightMark => "\u{200f}",
            Piece::Empty | Piece::Minus | Piece::Plus | Piece::Percent | Piece::Currency => "",
        }
    }
}

impl MoneySeparator {
    /// Returns the text.
    pub fn text(self) -> &'static str
        ensures { result.now ≡ separator_text self }
    {
        match self {
            MoneySeparator::Period => ".",
            MoneySeparator::Comma => ",",
            MoneySeparator::NoBreakSpace => "\u{a0}",
            MoneySeparator::NarrowNoBreakSpace => "\u{202f}",
            MoneySeparator::Dollar => "$",
        }
    }
}

impl ExponentSeparator {
    /// Returns the text.
    pub fn text(self) -> &'static str
        ensures { result.now ≡ exponent_text self }
    {
        match self {
            ExponentSeparator::LatinCapitalE => "E",
            ExponentSeparator::LatinSmallE => "e",
            ExponentSeparator::Caret => "^",
            ExponentSeparator::TimesTen => "\u{d7}10^",
            ExponentSeparator::DotTen => "\u{b7}10^",
            ExponentSeparator::TimesArabicTen => "\u{d7}\u{6f1}\u{6f0}^",
            ExponentSeparator::ArabicHamza => "\u{623}\u{633}",
            ExponentSeparator::ArabicAlef => "\u{627}\u{633}",
            ExponentSeparator::CyrillicIe => "\u{415}",
            ExponentSeparator::AdlamMiim => "\u{1e909}",
        }
    }
}

impl PercentSign {
    /// Returns the text.
    pub fn text(self) -> &'static str
        ensures { result.now ≡ percent_text self }
    {
        match self {
            PercentSign::Percent => "%",
            PercentSign::Arabic => "\u{66a}",
            PercentSign::ArabicBeforeArabicMark => "\u{66a}\u{61c}",
            PercentSign::ArabicBeforeRightMark => "\u{66a}\u{200f}",
            PercentSign::Enclosed => "\u{200e}%\u{200e}",
            PercentSign::Tilde => "~",
        }
    }
}

impl PermilleSign {
    /// Returns the text.
    pub fn text(self) -> &'static str
        ensures { result.now ≡ permille_text self }
    {
        match self {
            PermilleSign::Permille => "\u{2030}",
            PermilleSign::Arabic => "\u{609}",
            PermilleSign::ArabicBeforeRightMark => "\u{609}\u{200f}",
            PermilleSign::Ascii => "0/00",
        }
    }
}
