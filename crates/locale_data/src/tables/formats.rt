//! The formats of numbers in locales.
// Written by tools/locales/make_tables.py from data of CLDR 48; their license is tools/locales/LICENSE. Do not edit.
use super::rows::TableRange;
use super::rows::formats::{FormatSystem, LocaleFormats, SystemFormats};
use super::rows::patterns::ExponentSeparator::*;
use super::rows::patterns::Piece::*;
use super::rows::patterns::{
    Affix, AffixPair, CurrencyOverride, MoneyFormat, MoneySeparator, NumberSigns, Pattern,
    PercentSign, PermilleSign,
};

macro_rules! patterns {
    ($($a:ident $b:ident $c:ident $d:ident $e:ident $f:ident $primary:literal $secondary:literal;)*) => {
        [$(Pattern {
            positive: AffixPair { prefix: $a, suffix: $b },
            negative: AffixPair { prefix: $c, suffix: $d },
            plus: AffixPair { prefix: $e, suffix: $f },
            primary: $primary,
            secondary: $secondary,
        }),*]
    };
}

macro_rules! locales {
    ($($tag:literal $percent:literal $standard:literal $accounting:literal $signs:literal $compact:literal
       $unit:literal $money:literal;)*) => {
        [$(LocaleFormats {
            tag: *$tag,
            percent: $percent,
            standard: $standard,
            accounting: $accounting,
            signs: $signs,
            compact: $compact,
            unit: $unit,
            money: $money,
        }),*]
    };
}

macro_rules! in_system {
    ($($tag:literal, $percent:expr, $standard:expr, $accounting:expr, $signs:expr, $compact:expr;)*) => {
        [$(SystemFormats {
            tag: *$tag,
            percent: $percent,
            standard: $standard,
            accounting: $accounting,
            signs: $signs,
            compact: $compact,
        }),*]
    };
}

macro_rules! systems {
    ($($name:literal $start:literal $end:literal $root:ident;)*) => {
        [$(FormatSystem { name: *$name, rows: TableRange($start, $end), root: $root }),*]
    };
}

#[rattlefmt::skip]
const A0: Affix = Affix { first: Empty, second: Empty, third: Empty, fourth: Empty };

#[rattlefmt::skip]
const A1: Affix = Affix { first: Percent, second: Empty, third: Empty, fourth: Empty };

#[rattlefmt::skip]
const A2: Affix = Affix { first: Minus, second: Empty, third: Empty, fourth: Empty };

#[rattlefmt::skip]
const A3: Affix = Affix { first: Plus, second: Empty, third: Empty, fourth: Empty };

#[rattlefmt::skip]
const A4: Affix = Affix { first: Currency, second: NoBreakSpace, third: Empty, fourth: Empty };

#[rattlefmt::skip]
const A5: Affix = Affix { first: Minus, second: Currency, third: NoBreakSpace, fourth: Empty };

#[rattlefmt::skip]
const A6: Affix = Affix { first: Plus, second: Currency, third: NoBreakSpace, fourth: Empty };

#[rattlefmt::skip]
const A7: Affix = Affix { first: Currency, second: Empty, third: Empty, fourth: Empty };

#[rattlefmt::skip]
const A8: Affix = Affix { first: Minus, second: Currency, third: Empty, fourth: Empty };

#[rattlefmt::skip]
const A9: Affix = Affix { first: Plus, second: Currency, third: Empty, fourth: Empty };

#[rattlefmt::skip]
const A10: Affix = Affix { first: OpenParenthesis, second: Currency, third: Empty, fourth: Empty };

#[rattlefmt::skip]
const A11: Affix = Affix { first: CloseParenthesis, second: Empty, third: Empty, fourth: Empty };

#[rattlefmt::skip]
const A12: Affix = Affix { first: RightMark, second: Empty, third: Empty, fourth: Empty };

#[rattlefmt::skip]
const A13: Affix = Affix { first: NoBreakSpace, second: Currency, third: Empty, fourth: Empty };

#[rattlefmt::skip]
const A14: Affix = Affix { first: RightMark, second: Minus, third: Empty, fourth: Empty };

#[rattlefmt::skip]
const A15: Affix = Affix { first: RightMark, second: Plus, third: Empty, fourth: Empty };

#[rattlefmt::skip]
const A16: Affix = Affix { first: ArabicMark, second: Empty, third: Empty, fourth: Empty };

#[rattlefmt::skip]
const A17: Affix = Affix { first: OpenParenthesis, second: ArabicMark, third: Empty, fourth: Empty };

#[rattlefmt::skip]
const A18: Affix = Affix { first: Currency, second: CloseParenthesis, third: Empty, fourth: Empty };

#[rattlefmt::skip]
const A19: Affix = Affix { first: Plus, second: ArabicMark, third: Empty, fourth: Empty };

#[rattlefmt::skip]
const A20: Affix = Affix { first: NoBreakSpace, second: Percent, third: Empty, fourth: Empty };

#[rattlefmt::skip]
const A21: Affix = Affix { first: OpenParenthesis, second: Empty, third: Empty, fourth: Empty };

#[rattlefmt::skip]
const A22: Affix = Affix { first: NoBreakSpace, second: Currency, third: CloseParenthesis, fourth: Empty };

#[rattlefmt::skip]
const A23: Affix = Affix { first: Percent, second: NoBreakSpace, third: Empty, fourth: Empty };

#[rattlefmt::skip]
const A24: Affix = Affix { first: Percent, second: NoBreakSpace, third: Minus, fourth: Empty };

#[rattlefmt::skip]
const A25: Affix = Affix { first: Percent, second: NoBreakSpace, third: Plus, fourth: Empty };

#[rattlefmt::skip]
const A26: Affix = Affix { first: Currency, second: NoBreakSpace, third: Minus, fourth: Empty };

#[rattlefmt::skip]
const A27: Affix = Affix { first: Currency, second: NoBreakSpace, third: Plus, fourth: Empty };

#[rattlefmt::skip]
const A28: Affix = Affix { first: NarrowNoBreakSpace, second: Currency, third: Empty, fourth: Empty };

#[rattlefmt::skip]
const A29: Affix = Affix { first: NarrowNoBreakSpace, second: Currency, third: CloseParenthesis, fourth: Empty };

#[rattlefmt::skip]
const A30: Affix = Affix { first: Minus, second: Percent, third: NoBreakSpace, fourth: Empty };

#[rattlefmt::skip]
const A31: Affix = Affix { first: Plus, second: Percent, third: NoBreakSpace, fourth: Empty };

#[rattlefmt::skip]
const A32: Affix = Affix { first: LeftMark, second: Currency, third: NoBreakSpace, fourth: Empty };

#[rattlefmt::skip]
const A33: Affix = Affix { first: Minus, second: LeftMark, third: Currency, fourth: NoBreakSpace };

#[rattlefmt::skip]
const A34: Affix = Affix { first: Plus, second: LeftMark, third: Currency, fourth: NoBreakSpace };

#[rattlefmt::skip]
const A35: Affix = Affix { first: LeftMark, second: OpenParenthesis, third: Currency, fourth: NoBreakSpace };

#[rattlefmt::skip]
const A36: Affix = Affix { first: OpenParenthesis, second: Currency, third: NoBreakSpace, fourth: Empty };

#[rattlefmt::skip]
const A37: Affix = Affix { first: NoBreakSpace, second: RightMark, third: Currency, fourth: Empty };

#[rattlefmt::skip]
const A38: Affix = Affix { first: Currency, second: Minus, third: Empty, fourth: Empty };

#[rattlefmt::skip]
const A39: Affix = Affix { first: Currency, second: Plus, third: Empty, fourth: Empty };

#[rattlefmt::skip]
const A40: Affix = Affix { first: Minus, second: Percent, third: Empty, fourth: Empty };

#[rattlefmt::skip]
const A41: Affix = Affix { first: Plus, second: Percent, third: Empty, fourth: Empty };

#[rattlefmt::skip]
const A42: Affix = Affix { first: Currency, second: Minus, third: NoBreakSpace, fourth: Empty };

#[rattlefmt::skip]
const A43: Affix = Affix { first: Currency, second: Plus, third: NoBreakSpace, fourth: Empty };

#[rattlefmt::skip]
const A44: Affix = Affix { first: NarrowNoBreakSpace, second: Percent, third: Empty, fourth: Empty };

#[rattlefmt::skip]
const A45: Affix = Affix { first: Minus, second: RightMark, third: Empty, fourth: Empty };

#[rattlefmt::skip]
const A46: Affix = Affix { first: Plus, second: RightMark, third: Empty, fourth: Empty };

#[rattlefmt::skip]
const A47: Affix = Affix { first: LeftMark, second: Currency, third: Empty, fourth: Empty };

#[rattlefmt::skip]
const A48: Affix = Affix { first: Minus, second: LeftMark, third: Currency, fourth: Empty };

#[rattlefmt::skip]
const A49: Affix = Affix { first: Plus, second: LeftMark, third: Currency, fourth: Empty };

/// The patterns of percent and of currencies.
#[rattlefmt::skip]
pub static PATTERNS: [Pattern; 39] = patterns! {
    A0 A1 A2 A1 A3 A1 3 0; A4 A0 A5 A0 A6 A0 3 0; A7 A0 A8 A0 A9 A0 3 0; A7 A0 A10 A11 A9 A0 3 0;
    A0 A7 A2 A7 A3 A7 3 0; A12 A13 A14 A13 A15 A13 3 0; A16 A7 A17 A18 A19 A7 3 0; A0 A1 A2 A1 A3 A1 3 2;
    A4 A0 A5 A0 A6 A0 3 2; A0 A13 A2 A13 A3 A13 3 0; A0 A20 A2 A20 A3 A20 3 0; A0 A13 A21 A22 A3 A13 3 0;
    A23 A0 A24 A0 A25 A0 2 0; A4 A0 A26 A0 A27 A0 3 0; A0 A7 A2 A7 A3 A7 3 2; A0 A7 A21 A18 A3 A7 3 2;
    A0 A20 A2 A20 A3 A20 3 2; A7 A0 A8 A0 A9 A0 3 2; A0 A28 A2 A28 A3 A28 3 0; A0 A28 A21 A29 A3 A28 3 0;
    A23 A0 A30 A0 A31 A0 3 0; A32 A0 A33 A0 A34 A0 3 0; A32 A0 A35 A11 A34 A0 3 0; A4 A0 A4 A2 A4 A3 3 0;
    A4 A0 A36 A11 A6 A0 3 0; A7 A0 A10 A11 A9 A0 3 2; A12 A37 A14 A37 A15 A37 3 0; A7 A0 A38 A0 A39 A0 3 0;
    A0 A7 A21 A18 A3 A7 3 0; A1 A0 A40 A0 A41 A0 3 0; A7 A0 A42 A0 A43 A0 3 0; A0 A44 A2 A44 A3 A44 3 0;
    A7 A0 A8 A0 A9 A0 2 0; A4 A0 A38 A0 A39 A0 3 0; A4 A0 A35 A11 A6 A0 3 0; A0 A1 A2 A1 A3 A1 0 0;
    A4 A0 A5 A0 A6 A0 0 0; A12 A13 A45 A13 A46 A13 3 0; A47 A0 A48 A0 A49 A0 3 0;
};

/// The patterns of single currencies.
#[rattlefmt::skip]
pub static CURRENCY_OVERRIDES: [CurrencyOverride; 9] = [
    CurrencyOverride { pattern: 1, decimal: MoneySeparator::Comma, grouping: MoneySeparator::Period },
    CurrencyOverride { pattern: 2, decimal: MoneySeparator::Period, grouping: MoneySeparator::Comma },
    CurrencyOverride { pattern: 9, decimal: MoneySeparator::Dollar, grouping: MoneySeparator::NoBreakSpace },
    CurrencyOverride { pattern: 2, decimal: MoneySeparator::Comma, grouping: MoneySeparator::Period },
    CurrencyOverride { pattern: 9, decimal: MoneySeparator::Period, grouping: MoneySeparator::Comma },
    CurrencyOverride { pattern: 9, decimal: MoneySeparator::Comma, grouping: MoneySeparator::Period },
    CurrencyOverride { pattern: 9, decimal: MoneySeparator::Period, grouping: MoneySeparator::NoBreakSpace },
    CurrencyOverride { pattern: 9, decimal: MoneySeparator::Comma, grouping: MoneySeparator::NarrowNoBreakSpace },
    CurrencyOverride { pattern: 9, decimal: MoneySeparator::Dollar, grouping: MoneySeparator::Comma },
];

/// How locales write money.
#[rattlefmt::skip]
pub static MONEY_FORMATS: [MoneyFormat; 7] = [
    MoneyFormat { decimal: None, grouping: None, replaced: None },
    MoneyFormat { decimal: None, grouping: Some(MoneySeparator::Period), replaced: None },
    MoneyFormat { decimal: None, grouping: None, replaced: Some(0) },
    MoneyFormat { decimal: None, grouping: None, replaced: Some(1) },
    MoneyFormat { decimal: Some(MoneySeparator::Period), grouping: None, replaced: None },
    MoneyFormat { decimal: None, grouping: None, replaced: Some(2) },
    MoneyFormat { decimal: None, grouping: None, replaced: Some(3) },
];

/// The exponent separators, percent signs and per mille signs.
#[rattlefmt::skip]
pub static NUMBER_SIGNS: [NumberSigns; 21] = [
    NumberSigns { exponent: LatinCapitalE, percent: PercentSign::Percent,
        permille: PermilleSign::Permille },
    NumberSigns { exponent: LatinCapitalE, percent: PercentSign::Enclosed,
        permille: PermilleSign::Permille },
    NumberSigns { exponent: LatinCapitalE, percent: PercentSign::Arabic,
        permille: PermilleSign::Permille },
    NumberSigns { exponent: LatinSmallE, percent: PercentSign::Percent,
        permille: PermilleSign::Permille },
    NumberSigns { exponent: TimesTen, percent: PercentSign::Percent,
        permille: PermilleSign::Permille },
    NumberSigns { exponent: DotTen, percent: PercentSign::Percent,
        permille: PermilleSign::Permille },
    NumberSigns { exponent: CyrillicIe, percent: PercentSign::Percent,
        permille: PermilleSign::Permille },
    NumberSigns { exponent: LatinCapitalE, percent: PercentSign::Percent,
        permille: PermilleSign::Ascii },
    NumberSigns { exponent: AdlamMiim, percent: PercentSign::Percent,
        permille: PermilleSign::Permille },
    NumberSigns { exponent: ArabicAlef, percent: PercentSign::ArabicBeforeArabicMark,
        permille: PermilleSign::Arabic },
    NumberSigns { exponent: ArabicHamza, percent: PercentSign::ArabicBeforeArabicMark,
        permille: PermilleSign::Arabic },
    NumberSigns { exponent: ArabicAlef, percent: PercentSign::Arabic,
        permille: PermilleSign::Arabic },
    NumberSigns { exponent: LatinCapitalE, percent: PercentSign::Arabic,
        permille: PermilleSign::Arabic },
    NumberSigns { exponent: Caret, percent: PercentSign::Percent,
        permille: PermilleSign::Permille },
    NumberSigns { exponent: ArabicAlef, percent: PercentSign::ArabicBeforeRightMark,
        permille: PermilleSign::Arabic },
    NumberSigns { exponent: Caret, percent: PercentSign::ArabicBeforeArabicMark,
        permille: PermilleSign::Arabic },
    NumberSigns { exponent: LatinCapitalE, percent: PercentSign::ArabicBeforeArabicMark,
        permille: PermilleSign::Arabic },
    NumberSigns { exponent: TimesArabicTen, percent: PercentSign::ArabicBeforeArabicMark,
        permille: PermilleSign::ArabicBeforeRightMark },
    NumberSigns { exponent: TimesArabicTen, percent: PercentSign::Arabic,
        permille: PermilleSign::Arabic },
    NumberSigns { exponent: TimesArabicTen, percent: PercentSign::Tilde,
        permille: PermilleSign::Arabic },
    NumberSigns { exponent: TimesArabicTen, percent: PercentSign::Percent,
        permille: PermilleSign::Permille },
];

/// The formats of a tag that is not listed.
#[rattlefmt::skip]
pub const ROOT_FORMATS: LocaleFormats = LocaleFormats {
    tag: *b"                ", percent: 0, standard: 1, accounting: 1, signs: 0, compact: 0, unit: 0, money: 0,
};

#[rattlefmt::skip]
const ROOT_0: SystemFormats = SystemFormats {
    tag: *b"                ", percent: None, standard: None, accounting: None, signs: None, compact: None,
};

#[rattlefmt::skip]
const ROOT_1: SystemFormats = SystemFormats {
    tag: *b"                ", percent: Some(0), standard: Some(9), accounting: Some(9), signs: Some(9), compact: None,
};

#[rattlefmt::skip]
const ROOT_2: SystemFormats = SystemFormats {
    tag: *b"                ", percent: None, standard: None, accounting: None, signs: Some(18), compact: None,
};

/// The formats of locales in `latn`.
#[rattlefmt::skip]
pub static LOCALE_FORMATS: [LocaleFormats; 336] = locales! {
    b"af              " 0 2 3 0 1 0 0; b"agq             " 0 4 4 0 0 0 0; b"ak              " 0 2 3 0 2 0 0;
    b"am              " 0 2 3 0 3 0 0; b"ar              " 0 5 6 1 4 1 0; b"ar-sa           " 0 5 6 2 4 1 0;
    b"ar-so           " 0 5 6 2 4 1 0; b"ars             " 0 5 6 2 4 1 0; b"as              " 7 8 3 0 5 0 0;
    b"asa             " 0 9 9 0 0 0 0; b"ast             " 0 9 9 0 6 0 0; b"az              " 0 9 9 0 7 0 0;
    b"az-cyrl         " 0 9 9 0 0 0 0; b"ba              " 0 9 9 0 8 0 0; b"bas             " 10 9 9 0 0 0 0;
    b"be              " 10 9 9 0 9 2 0; b"bem             " 0 2 3 0 0 0 0; b"bez             " 0 4 4 0 0 0 0;
    b"bg              " 0 9 11 0 10 0 0; b"bho             " 0 2 2 0 0 0 0; b"blo             " 12 13 13 0 11 3 0;
    b"bm              " 0 2 3 0 0 0 0; b"bn              " 7 14 15 0 12 0 0; b"bn-in           " 7 17 25 0 12 0 0;
    b"br              " 10 9 11 0 13 2 0; b"brx             " 7 8 3 0 14 0 0; b"bs              " 0 9 9 0 15 0 0;
    b"bs-cyrl         " 0 9 9 0 135 0 0; b"bua             " 10 9 9 0 0 0 0; b"ca              " 10 9 11 0 16 2 0;
    b"ccp             " 7 14 15 0 17 0 0; b"ce              " 10 9 9 0 18 0 0; b"ceb             " 0 2 3 0 19 0 0;
    b"cgg             " 0 2 2 0 0 0 0; b"chr             " 0 2 3 0 20 0 0; b"cs              " 10 9 9 0 21 2 0;
    b"cv              " 10 9 11 0 22 2 0; b"cy              " 0 2 3 0 23 0 0; b"da              " 10 9 9 0 24 4 0;
    b"dav             " 0 2 3 0 0 0 0; b"de              " 10 9 9 0 25 2 0; b"de-at           " 10 1 1 0 25 2 1;
    b"de-ch           " 0 33 33 0 136 2 0; b"de-li           " 0 1 1 0 25 2 0; b"dje             " 0 4 4 0 0 0 0;
    b"doi             " 0 2 2 0 0 0 0; b"dsb             " 10 9 9 0 26 2 0; b"dua             " 10 9 9 0 0 0 0;
    b"dyo             " 0 9 9 0 0 0 0; b"dz              " 16 17 17 0 27 0 0; b"ebu             " 0 2 3 0 0 0 0;
    b"ee              " 0 2 3 0 28 0 0; b"el              " 0 9 9 3 29 0 0; b"en              " 0 2 3 0 30 0 0;
    b"en-150          " 0 9 9 0 30 0 0; b"en-at           " 10 1 1 0 30 0 2; b"en-au           " 0 2 3 3 30 0 0;
    b"en-be           " 0 9 9 0 30 0 3; b"en-ch           " 0 33 33 0 30 0 0; b"en-cz           " 0 9 9 0 30 0 0;
    b"en-de           " 10 9 9 0 30 0 3; b"en-dk           " 10 9 9 0 30 0 0; b"en-ee           " 0 9 9 0 30 0 3;
    b"en-es           " 0 9 9 0 30 0 3; b"en-fi           " 10 9 9 0 30 0 3; b"en-fr           " 0 9 9 0 30 0 3;
    b"en-gb           " 0 2 3 0 137 0 0; b"en-ge           " 0 9 9 0 30 0 0; b"en-hu           " 0 9 9 0 30 0 0;
    b"en-in           " 7 17 3 0 138 0 0; b"en-it           " 0 9 9 0 30 0 3; b"en-lt           " 0 9 9 0 30 0 3;
    b"en-lv           " 0 9 9 0 30 0 3; b"en-mv           " 0 1 1 0 30 0 0; b"en-nl           " 0 13 24 0 30 0 3;
    b"en-no           " 10 9 9 0 30 0 0; b"en-pl           " 0 9 11 0 30 0 0; b"en-pt           " 0 9 11 0 30 0 3;
    b"en-ro           " 0 9 11 0 30 0 0; b"en-se           " 10 9 9 4 30 0 0; b"en-si           " 0 9 11 3 30 0 3;
    b"en-sk           " 0 9 11 3 30 0 3; b"en-ua           " 0 9 9 0 30 0 0; b"en-us-posix     " 35 36 3 7 30 0 0;
    b"en-us-u-va-posix" 35 36 3 7 30 0 0; b"eo              " 0 18 19 0 31 5 0; b"es              " 10 9 9 0 32 6 0;
    b"es-419          " 0 2 2 0 139 6 0; b"es-ar           " 0 1 24 0 139 6 0; b"es-bo           " 0 2 2 0 139 6 0;
    b"es-br           " 0 2 2 0 139 6 0; b"es-bz           " 0 2 2 0 139 6 0; b"es-cl           " 0 27 27 0 139 6 0;
    b"es-co           " 0 1 1 0 139 6 0; b"es-cr           " 0 2 2 0 139 6 0; b"es-cu           " 0 2 2 0 139 6 0;
    b"es-do           " 0 2 3 0 139 6 0; b"es-ec           " 0 27 27 0 139 6 0; b"es-gq           " 10 2 2 0 32 6 0;
    b"es-gt           " 0 2 2 0 140 6 0; b"es-hn           " 0 2 2 0 139 6 0; b"es-mx           " 0 2 2 0 141 6 0;
    b"es-ni           " 0 2 2 0 139 6 0; b"es-pa           " 0 2 2 0 139 6 0; b"es-pe           " 0 1 1 0 142 6 0;
    b"es-pr           " 0 2 2 0 139 6 0; b"es-py           " 0 13 13 0 139 6 0; b"es-sv           " 0 2 2 0 139 6 0;
    b"es-us           " 0 2 2 0 143 6 0; b"es-uy           " 0 1 24 0 139 6 0;
    b"es-ve           " 0 27 27 0 139 6 0; b"et              " 0 9 11 4 33 0 0;
    b"eu              " 20 9 11 0 34 7 0; b"ewo             " 0 9 9 0 0 0 0; b"fa              " 0 21 22 0 35 1 0;
    b"fa-af           " 0 1 34 0 35 1 0; b"ff              " 0 9 9 0 0 0 0; b"ff-adlm         " 0 1 1 0 144 0 0;
    b"fi              " 10 9 9 0 36 2 0; b"fil             " 0 2 3 0 37 0 0; b"fo              " 10 9 11 0 38 2 0;
    b"fr              " 10 9 11 0 39 2 0; b"fr-ca           " 10 9 11 0 145 6 0;
    b"fr-ch           " 0 9 11 0 39 2 4; b"fy              " 0 23 24 0 40 0 0; b"ga              " 0 2 3 0 41 0 0;
    b"gd              " 0 2 3 0 42 0 0; b"gl              " 10 9 11 0 43 2 0; b"gsw             " 10 9 9 0 44 0 0;
    b"gu              " 7 17 25 0 45 0 0; b"guz             " 0 2 3 0 0 0 0; b"gv              " 0 2 2 0 0 0 0;
    b"ha              " 0 1 1 0 46 0 0; b"haw             " 0 2 3 0 0 0 0; b"he              " 0 26 26 0 47 0 0;
    b"hi              " 7 17 17 0 48 0 0; b"hi-latn         " 7 17 17 0 138 0 0;
    b"hr              " 10 9 9 0 49 2 0; b"hsb             " 10 9 9 0 50 2 0; b"hu              " 0 9 9 0 51 0 0;
    b"hy              " 0 9 9 0 52 0 0; b"ia              " 0 1 24 0 53 0 0; b"id              " 0 2 2 0 54 0 0;
    b"ie              " 0 13 13 0 0 0 0; b"ig              " 0 2 3 0 55 0 0; b"in              " 0 2 2 0 54 0 0;
    b"is              " 0 9 9 0 56 8 0; b"it              " 0 9 9 0 57 0 0; b"it-ch           " 0 33 33 0 57 0 0;
    b"iw              " 0 26 26 0 47 0 0; b"ja              " 0 2 3 0 58 0 0; b"jmc             " 0 2 2 0 0 0 0;
    b"jv              " 0 1 1 0 59 0 0; b"ka              " 0 9 9 0 60 0 0; b"kab             " 0 4 4 0 61 0 0;
    b"kam             " 0 2 3 0 0 0 0; b"kde             " 0 2 3 0 0 0 0; b"kea             " 0 9 11 0 62 0 0;
    b"kea-cv          " 0 9 11 0 62 0 5; b"kgp             " 0 1 1 0 63 0 0; b"khq             " 0 4 4 0 0 0 0;
    b"ki              " 0 2 3 0 0 0 0; b"kk              " 0 9 9 0 64 0 0; b"kk-arab         " 0 1 1 0 146 0 0;
    b"kk-cn           " 0 1 1 0 146 0 0; b"kl              " 10 27 27 0 0 0 0; b"kln             " 0 2 3 0 0 0 0;
    b"km              " 0 4 28 0 65 0 0; b"kn              " 0 2 3 0 66 0 0; b"ko              " 0 2 3 0 67 0 0;
    b"kok             " 0 17 17 0 68 0 0; b"kok-latn        " 0 17 17 0 147 0 0; b"ks              " 0 2 2 0 0 0 0;
    b"ks-deva         " 0 1 1 0 0 0 0; b"ksb             " 0 4 4 0 0 0 0; b"ksf             " 0 9 9 0 0 0 0;
    b"ksh             " 10 9 9 4 69 0 0; b"ku              " 29 9 11 0 70 3 0; b"kw              " 0 2 2 0 0 0 0;
    b"kxv             " 0 17 3 0 71 0 0; b"kxv-deva        " 0 17 17 0 0 0 0; b"kxv-orya        " 0 17 17 0 0 0 0;
    b"kxv-telu        " 0 17 17 0 0 0 0; b"ky              " 0 9 9 0 72 0 0; b"lb              " 10 9 9 0 73 0 0;
    b"lg              " 0 4 4 0 0 0 0; b"lij             " 0 9 9 0 0 0 0; b"ln              " 0 9 9 0 0 0 0;
    b"lo              " 0 27 27 0 74 0 0; b"lt              " 10 9 9 4 75 2 0; b"lu              " 0 4 4 0 0 0 0;
    b"luo             " 0 4 4 0 0 0 0; b"luy             " 0 30 30 0 0 0 0; b"lv              " 0 9 9 0 76 0 0;
    b"mas             " 0 2 3 0 0 0 0; b"mer             " 0 2 3 0 0 0 0; b"mg              " 0 1 2 0 0 0 0;
    b"mk              " 10 9 9 0 77 2 0; b"ml              " 0 2 3 0 78 0 0; b"mn              " 0 1 1 0 79 0 0;
    b"mo              " 10 9 11 0 80 0 0; b"mr              " 0 2 3 0 81 0 0; b"ms              " 0 2 3 0 82 0 0;
    b"ms-bn           " 0 1 3 0 82 0 0; b"ms-id           " 0 2 2 0 82 0 0; b"mt              " 0 2 2 0 0 0 0;
    b"mua             " 0 2 3 0 0 0 0; b"my              " 0 9 1 0 83 0 0; b"naq             " 0 2 2 0 0 0 0;
    b"nb              " 10 9 24 0 84 2 0; b"nd              " 0 2 3 0 0 0 0; b"nds             " 10 9 9 0 0 0 0;
    b"ne              " 0 8 8 0 85 0 0; b"nl              " 0 13 24 0 86 0 0; b"nmg             " 0 9 9 0 0 0 0;
    b"nn              " 10 9 24 0 87 2 0; b"no              " 10 9 24 0 84 2 0; b"nso             " 0 1 2 0 0 0 0;
    b"nus             " 0 2 3 0 0 0 0; b"nyn             " 0 2 2 0 0 0 0; b"oc              " 31 4 4 0 0 0 0;
    b"om              " 0 2 2 0 88 0 0; b"or              " 0 2 3 0 89 0 0; b"pa              " 7 17 1 0 90 0 0;
    b"pa-arab         " 0 1 1 0 0 0 0; b"pa-pk           " 0 1 1 0 0 0 0; b"pcm             " 0 2 2 0 91 0 0;
    b"pl              " 0 9 11 0 92 0 0; b"pms             " 0 9 9 0 0 0 0; b"prg             " 0 9 9 0 0 0 0;
    b"ps              " 0 1 3 0 93 0 0; b"pt              " 0 1 1 0 94 0 0; b"pt-ao           " 0 9 11 0 148 0 0;
    b"pt-ch           " 0 9 11 0 148 0 0; b"pt-cv           " 0 9 11 0 148 0 5;
    b"pt-gq           " 0 9 11 0 148 0 0; b"pt-gw           " 0 9 11 0 148 0 0;
    b"pt-lu           " 0 9 11 0 148 0 0; b"pt-mo           " 0 9 11 0 148 0 0;
    b"pt-mz           " 0 9 11 0 148 0 0; b"pt-pt           " 0 9 11 0 148 0 0;
    b"pt-st           " 0 9 11 0 148 0 0; b"pt-tl           " 0 9 11 0 148 0 0; b"qu              " 10 1 1 0 0 0 0;
    b"rm              " 0 2 3 0 95 0 0; b"rn              " 10 4 4 0 0 0 0; b"ro              " 10 9 11 0 80 0 0;
    b"rof             " 0 2 2 0 0 0 0; b"ru              " 10 9 9 0 96 2 0; b"rwk             " 0 4 4 0 0 0 0;
    b"sa              " 7 17 1 0 0 0 0; b"sah             " 0 9 9 0 97 0 0; b"saq             " 0 2 3 0 0 0 0;
    b"sat             " 0 1 1 0 98 0 0; b"sbp             " 0 4 4 0 0 0 0; b"sc              " 0 9 11 0 99 0 0;
    b"scn             " 0 1 1 0 100 0 0; b"sd              " 0 1 3 0 101 0 0; b"sd-deva         " 0 1 1 0 0 0 0;
    b"sd-in           " 0 1 1 0 0 0 0; b"se              " 10 9 9 5 102 0 0; b"se-fi           " 10 9 9 5 149 0 0;
    b"seh             " 0 4 4 0 0 0 0; b"ses             " 0 4 4 0 0 0 0; b"sg              " 0 27 27 0 0 0 0;
    b"sh              " 0 9 11 0 15 0 0; b"shi             " 0 4 4 0 0 0 0; b"shn             " 0 1 1 0 103 0 0;
    b"si              " 0 2 3 0 104 0 0; b"sk              " 10 9 11 3 105 2 0;
    b"sl              " 10 9 11 3 106 2 0; b"smn             " 10 9 9 0 107 0 0; b"sn              " 0 2 3 0 0 0 0;
    b"so              " 0 2 3 0 108 0 0; b"sq              " 0 9 11 0 109 0 0; b"sr              " 0 9 11 0 110 0 0;
    b"sr-latn         " 0 9 11 0 15 0 0; b"sr-me           " 0 9 11 0 15 0 0; b"st              " 0 2 2 0 0 0 0;
    b"su              " 0 2 2 0 0 0 0; b"sv              " 10 9 9 4 111 2 0; b"sw              " 0 1 1 0 112 9 0;
    b"sw-ke           " 0 1 1 0 150 9 0; b"szl             " 0 9 9 0 0 0 0; b"ta              " 7 17 3 0 113 0 0;
    b"ta-my           " 0 1 3 0 113 0 0; b"ta-sg           " 0 1 3 0 113 0 0; b"te              " 0 17 3 0 114 0 0;
    b"teo             " 0 2 3 0 0 0 0; b"tg              " 0 9 9 0 115 0 0; b"th              " 0 2 3 0 116 0 0;
    b"ti              " 0 2 2 0 117 0 0; b"tk              " 10 9 9 0 118 0 0; b"tl              " 0 2 3 0 37 0 0;
    b"tn              " 0 2 2 0 0 0 0; b"to              " 0 1 1 0 119 10 0; b"tok             " 0 32 32 0 0 0 0;
    b"tr              " 29 2 3 0 120 3 0; b"tr-tr           " 29 2 3 0 120 3 6;
    b"tt              " 10 9 9 0 121 0 0; b"twq             " 0 4 4 0 0 0 0; b"tzm             " 0 9 9 0 0 0 0;
    b"ug              " 0 2 3 0 122 0 0; b"uk              " 0 9 9 6 123 2 0; b"ur              " 0 2 3 0 124 0 0;
    b"uz              " 0 9 3 0 125 0 0; b"uz-af           " 0 1 1 0 0 0 0; b"uz-arab         " 0 1 1 0 0 0 0;
    b"uz-cyrl         " 0 9 9 0 151 0 0; b"vai             " 0 2 3 0 0 0 0; b"vec             " 0 18 18 0 126 0 0;
    b"vi              " 0 9 9 0 127 0 0; b"vmw             " 0 9 9 0 0 0 0; b"vun             " 0 2 2 0 0 0 0;
    b"wo              " 0 1 1 0 128 0 0; b"xh              " 0 2 2 0 55 0 0; b"xnr             " 7 17 17 0 129 0 0;
    b"xog             " 0 9 9 0 0 0 0; b"yav             " 0 9 11 0 0 0 0; b"yo              " 0 2 3 0 130 0 0;
    b"yo-bj           " 0 2 3 0 152 0 0; b"yrl             " 0 1 1 0 131 0 0; b"yrl-co          " 0 1 1 0 153 0 0;
    b"yrl-ve          " 0 1 1 0 153 0 0; b"yue             " 0 2 3 0 132 0 0; b"yue-cn          " 0 2 3 0 154 0 0;
    b"yue-hans        " 0 2 3 0 154 0 0; b"zgh             " 10 4 4 0 0 0 0; b"zh              " 0 2 3 0 133 0 0;
    b"zh-hant         " 0 2 3 0 155 0 0; b"zh-hant-hk      " 0 2 3 0 156 0 0; b"zh-hant-mo      " 0 2 3 0 156 0 0;
    b"zh-hk           " 0 2 3 0 156 0 0; b"zh-mo           " 0 2 3 0 156 0 0; b"zh-tw           " 0 2 3 0 155 0 0;
    b"zu              " 0 2 3 0 134 0 0;
};

/// The formats that locales have in other numbering systems.
#[rattlefmt::skip]
pub static FORMATS_BY_SYSTEM: [SystemFormats; 145] = in_system! {
    b"ba              ", None, Some(9), Some(11), None, None; b"bs              ", Some(10), None, None, None, None;
    b"bs-cyrl         ", Some(0), None, None, None, None; b"ff-adlm         ", None, None, None, Some(8), None;
    b"ba              ", None, Some(9), Some(11), None, None;
    b"ar              ", None, Some(37), Some(37), Some(10), None;
    b"ars             ", None, Some(37), Some(37), Some(10), None;
    b"ast             ", None, None, None, Some(11), None; b"az              ", None, None, None, Some(11), None;
    b"az-cyrl         ", None, None, None, Some(9), None; b"br              ", Some(10), None, None, None, None;
    b"ckb             ", Some(10), None, None, Some(11), None;
    b"cv              ", Some(10), Some(9), Some(11), Some(9), None;
    b"eu              ", None, None, None, Some(9), None;
    b"fa              ", None, Some(38), Some(38), Some(12), None;
    b"fr              ", None, None, None, Some(9), None;
    b"fr-ch           ", None, Some(9), Some(9), Some(9), None;
    b"gd              ", None, None, None, Some(11), None; b"ha              ", None, None, None, Some(13), None;
    b"ig              ", Some(10), Some(2), Some(2), Some(14), None;
    b"ko              ", None, None, None, Some(9), None;
    b"nb              ", Some(10), Some(1), Some(1), Some(9), None;
    b"nl              ", Some(10), None, None, None, None;
    b"nn              ", Some(10), Some(1), Some(1), Some(9), None;
    b"no              ", Some(10), Some(1), Some(1), Some(9), None;
    b"pa              ", None, Some(17), Some(17), Some(0), None;
    b"pa-arab         ", None, Some(9), Some(9), Some(9), None;
    b"pa-pk           ", None, Some(9), Some(9), Some(9), None;
    b"ps              ", None, None, None, Some(15), None; b"so              ", None, None, None, Some(16), None;
    b"sv              ", None, None, None, Some(17), None; b"to              ", None, None, None, Some(9), None;
    b"ur              ", None, None, None, Some(16), None; b"uz              ", None, None, None, Some(15), None;
    b"uz-af           ", None, None, None, Some(9), None; b"uz-arab         ", None, None, None, Some(9), None;
    b"uz-cyrl         ", None, None, None, Some(9), None; b"zh              ", None, Some(2), Some(2), None, None;
    b"zh-hant         ", None, Some(9), Some(9), Some(9), None;
    b"zh-hk           ", None, Some(9), Some(9), Some(9), None;
    b"zh-mo           ", None, Some(9), Some(9), Some(9), None;
    b"zh-tw           ", None, Some(9), Some(9), Some(9), None;
    b"ar              ", None, None, None, Some(18), None; b"ars             ", None, None, None, Some(18), None;
    b"az              ", None, None, None, Some(19), None; b"az-cyrl         ", None, None, None, Some(18), None;
    b"ba              ", None, Some(9), Some(11), None, None; b"bs              ", Some(10), None, None, None, None;
    b"bs-cyrl         ", Some(0), None, None, None, None; b"cv              ", None, None, None, Some(18), None;
    b"fa              ", None, Some(38), Some(22), Some(18), None;
    b"fa-af           ", None, Some(1), Some(34), Some(18), None;
    b"gd              ", None, None, None, Some(18), None; b"ha              ", None, None, None, Some(13), None;
    b"ks-deva         ", None, Some(2), Some(2), None, None;
    b"nb              ", None, Some(1), Some(1), Some(18), None;
    b"nn              ", None, Some(1), Some(1), Some(18), None;
    b"no              ", None, Some(1), Some(1), Some(18), None;
    b"pa              ", None, None, None, Some(18), None; b"sd-deva         ", Some(35), None, None, None, None;
    b"sd-in           ", Some(35), None, None, None, None; b"so              ", None, None, None, Some(12), None;
    b"sv              ", None, None, None, Some(18), None; b"tk              ", None, None, None, Some(18), None;
    b"ur              ", None, None, None, Some(20), None; b"uz              ", None, None, None, Some(18), None;
    b"zh-hant         ", None, None, None, Some(18), None; b"zh-hk           ", None, None, None, Some(18), None;
    b"zh-mo           ", None, None, None, Some(18), None; b"zh-tw           ", None, None, None, Some(18), None;
    b"ba              ", None, Some(9), Some(11), None, None; b"bs              ", Some(10), None, None, None, None;
    b"bs-cyrl         ", Some(0), None, None, None, None; b"nb              ", None, Some(1), Some(1), None, None;
    b"nn              ", None, Some(1), Some(1), None, None;
    b"no              ", None, Some(1), Some(1), None, None; b"so              ", None, None, None, Some(0), None;
    b"ba              ", None, Some(9), Some(11), None, None; b"bn              ", Some(0), None, None, None, None;
    b"bs              ", Some(10), None, None, None, None; b"bs-cyrl         ", Some(0), None, None, None, None;
    b"nb              ", None, Some(1), Some(1), None, None;
    b"nn              ", None, Some(1), Some(1), None, None;
    b"no              ", None, Some(1), Some(1), None, None;
    b"ba              ", None, Some(9), Some(11), None, None; b"bs              ", Some(10), None, None, None, None;
    b"bs-cyrl         ", Some(0), None, None, None, None; b"nb              ", None, Some(1), Some(1), None, None;
    b"nn              ", None, Some(1), Some(1), None, None;
    b"no              ", None, Some(1), Some(1), None, None;
    b"ba              ", None, Some(9), Some(11), None, None; b"bs              ", Some(10), None, None, None, None;
    b"bs-cyrl         ", Some(0), None, None, None, None; b"ccp             ", Some(0), None, None, None, None;
    b"nb              ", None, Some(1), Some(1), None, None;
    b"nn              ", None, Some(1), Some(1), None, None;
    b"no              ", None, Some(1), Some(1), None, None;
    b"ba              ", None, Some(9), Some(11), None, None; b"bs              ", Some(10), None, None, None, None;
    b"bs-cyrl         ", Some(0), None, None, None, None; b"kok             ", None, None, None, Some(0), None;
    b"nb              ", None, Some(1), Some(1), None, None; b"ne              ", Some(7), None, None, None, None;
    b"nn              ", None, Some(1), Some(1), None, None;
    b"no              ", None, Some(1), Some(1), None, None; b"sd-deva         ", Some(35), None, None, None, None;
    b"sd-in           ", Some(35), None, None, None, None; b"ba              ", None, Some(9), Some(11), None, None;
    b"bs              ", Some(10), None, None, None, None; b"bs-cyrl         ", Some(0), None, None, None, None;
    b"so              ", None, None, None, Some(0), None; b"ba              ", None, Some(9), Some(11), None, None;
    b"bs              ", Some(10), None, None, None, None; b"bs-cyrl         ", Some(0), None, None, None, None;
    b"ba              ", None, Some(9), Some(11), None, None; b"bs              ", Some(10), None, None, None, None;
    b"bs-cyrl         ", Some(0), None, None, None, None;
    b"gu              ", Some(0), Some(2), Some(25), None, None;
    b"nb              ", None, Some(1), Some(1), None, None;
    b"nn              ", None, Some(1), Some(1), None, None;
    b"no              ", None, Some(1), Some(1), None, None;
    b"ba              ", None, Some(9), Some(11), None, None; b"bs              ", Some(10), None, None, None, None;
    b"bs-cyrl         ", Some(0), None, None, None, None; b"lo              ", None, None, None, None, Some(157);
    b"nb              ", None, Some(1), Some(1), None, None;
    b"nn              ", None, Some(1), Some(1), None, None;
    b"no              ", None, Some(1), Some(1), None, None;
    b"ba              ", None, Some(9), Some(11), None, None; b"bs              ", Some(10), None, None, None, None;
    b"bs-cyrl         ", Some(0), None, None, None, None; b"nb              ", None, Some(1), Some(1), None, None;
    b"nn              ", None, Some(1), Some(1), None, None;
    b"no              ", None, Some(1), Some(1), None, None; b"so              ", None, None, None, Some(0), None;
    b"ta              ", None, Some(2), Some(3), None, None;
    b"ba              ", None, Some(9), Some(11), None, None; b"bo              ", None, None, None, Some(0), None;
    b"bs              ", Some(10), None, None, None, None; b"bs-cyrl         ", Some(0), None, None, None, None;
    b"dz              ", None, None, None, Some(0), None; b"nb              ", None, Some(1), Some(1), None, None;
    b"nn              ", None, Some(1), Some(1), None, None;
    b"no              ", None, Some(1), Some(1), None, None; b"so              ", None, None, None, Some(0), None;
};

/// The numbering systems in which locales have formats of their own.
#[rattlefmt::skip]
pub static FORMAT_SYSTEMS: [FormatSystem; 76] = systems! {
    b"adlm            " 0 4 ROOT_0; b"ahom            " 4 5 ROOT_0; b"arab            " 5 42 ROOT_1;
    b"arabext         " 42 70 ROOT_2; b"bali            " 70 77 ROOT_0; b"beng            " 77 84 ROOT_0;
    b"bhks            " 4 5 ROOT_0; b"brah            " 84 90 ROOT_0; b"cakm            " 90 97 ROOT_0;
    b"cham            " 70 77 ROOT_0; b"deva            " 97 107 ROOT_0; b"diak            " 4 5 ROOT_0;
    b"fullwide        " 70 77 ROOT_0; b"gara            " 4 5 ROOT_0; b"gong            " 107 111 ROOT_0;
    b"gonm            " 111 114 ROOT_0; b"gujr            " 114 121 ROOT_0; b"gukh            " 4 5 ROOT_0;
    b"guru            " 84 90 ROOT_0; b"hanidec         " 84 90 ROOT_0; b"hmng            " 4 5 ROOT_0;
    b"hmnp            " 4 5 ROOT_0; b"java            " 84 90 ROOT_0; b"kali            " 70 77 ROOT_0;
    b"kawi            " 4 5 ROOT_0; b"khmr            " 84 90 ROOT_0; b"knda            " 70 77 ROOT_0;
    b"krai            " 4 5 ROOT_0; b"lana            " 70 77 ROOT_0; b"lanatham        " 70 77 ROOT_0;
    b"laoo            " 121 128 ROOT_0; b"lepc            " 70 77 ROOT_0; b"limb            " 70 77 ROOT_0;
    b"mathbold        " 4 5 ROOT_0; b"mathdbl         " 4 5 ROOT_0; b"mathmono        " 4 5 ROOT_0;
    b"mathsanb        " 4 5 ROOT_0; b"mathsans        " 4 5 ROOT_0; b"mlym            " 84 90 ROOT_0;
    b"modi            " 4 5 ROOT_0; b"mong            " 70 77 ROOT_0; b"mroo            " 4 5 ROOT_0;
    b"mtei            " 84 90 ROOT_0; b"mymr            " 70 77 ROOT_0; b"mymrepka        " 4 5 ROOT_0;
    b"mymrpao         " 4 5 ROOT_0; b"mymrshan        " 70 77 ROOT_0; b"mymrtlng        " 4 5 ROOT_0;
    b"nagm            " 4 5 ROOT_0; b"newa            " 4 5 ROOT_0; b"nkoo            " 84 90 ROOT_0;
    b"olck            " 84 90 ROOT_0; b"onao            " 4 5 ROOT_0; b"orya            " 84 90 ROOT_0;
    b"osma            " 70 77 ROOT_0; b"outlined        " 4 5 ROOT_0; b"rohg            " 111 114 ROOT_0;
    b"saur            " 84 90 ROOT_0; b"segment         " 4 5 ROOT_0; b"shrd            " 84 90 ROOT_0;
    b"sind            " 4 5 ROOT_0; b"sinh            " 4 5 ROOT_0; b"sora            " 84 90 ROOT_0;
    b"sund            " 70 77 ROOT_0; b"sunu            " 4 5 ROOT_0; b"takr            " 70 77 ROOT_0;
    b"talu            " 70 77 ROOT_0; b"tamldec         " 128 136 ROOT_0; b"telu            " 70 77 ROOT_0;
    b"thai            " 70 77 ROOT_0; b"tibt            " 136 145 ROOT_0; b"tirh            " 4 5 ROOT_0;
    b"tnsa            " 4 5 ROOT_0; b"vaii            " 70 77 ROOT_0; b"wara            " 4 5 ROOT_0;
    b"wcho            " 4 5 ROOT_0;
};
