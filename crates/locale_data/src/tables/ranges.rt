//! The texts of ranges of numbers.
// Written by tools/locales/make_tables.py from data of CLDR 48; their license is tools/locales/LICENSE. Do not edit.
use super::rows::TableRange;
use super::rows::ranges::{
    ApproximatelySign, LocaleRange, RangeFormat, RangeSeparator, RangeSystem,
};

macro_rules! ranges {
    ($($tag:literal $separator:ident $approximately:ident;)*) => {
        [$(LocaleRange {
            tag: *$tag,
            format: RangeFormat {
                separator: RangeSeparator::$separator,
                approximately: ApproximatelySign::$approximately,
            },
        }),*]
    };
}

/// The texts of root.
pub const ROOT_RANGE: RangeFormat = RangeFormat {
    separator: RangeSeparator::EnDash,
    approximately: ApproximatelySign::Tilde,
};

/// The locales with other texts than the locale that their tags begin with.
#[rattlefmt::skip]
pub static LOCALE_RANGES: [LocaleRange; 63] = ranges! {
    b"be              " EnDash AlmostEqual;
    b"bg              " SpacedEnDash Tilde;
    b"bs              " SpacedEnDash AlmostEqual;
    b"bs-cyrl         " EnDash Tilde;
    b"ca              " Hyphen Tilde;
    b"da              " Hyphen Tilde;
    b"de              " EnDash AlmostEqual;
    b"dsb             " EnDash AlmostEqual;
    b"eo              " EnDash AlmostEqual;
    b"es              " Hyphen Tilde;
    b"et              " FigureDash AlmostEqual;
    b"eu              " Hyphen Tilde;
    b"fil             " Hyphen Tilde;
    b"fr              " EnDash AsymptoticallyEqual;
    b"fr-ca           " EnDash AlmostEqual;
    b"fy              " Hyphen Tilde;
    b"gu              " Hyphen Tilde;
    b"hr              " SpacedEnDash Tilde;
    b"hsb             " EnDash AlmostEqual;
    b"it              " Hyphen Tilde;
    b"ja              " FullwidthTilde Yaku;
    b"jv              " SpacedEnDash Tilde;
    b"ka              " Hyphen AlmostEqual;
    b"kea             " SpacedEnDash Tilde;
    b"ko              " Tilde Tilde;
    b"lij             " Hyphen Tilde;
    b"lt              " EnDash TildeOperator;
    b"mk              " ThinSpacedEnDash AlmostEqual;
    b"ml              " Hyphen Tilde;
    b"mo              " SpacedHyphen Tilde;
    b"my              " SpacedHyphen Tilde;
    b"nb              " EnDash Circa;
    b"nl              " Hyphen Tilde;
    b"nn              " EnDash AlmostEqual;
    b"no              " EnDash Circa;
    b"oc-es           " Hyphen Tilde;
    b"pt-ao           " SpacedHyphen Tilde;
    b"pt-ch           " SpacedHyphen Tilde;
    b"pt-cv           " SpacedHyphen Tilde;
    b"pt-gq           " SpacedHyphen Tilde;
    b"pt-gw           " SpacedHyphen Tilde;
    b"pt-lu           " SpacedHyphen Tilde;
    b"pt-mo           " SpacedHyphen Tilde;
    b"pt-mz           " SpacedHyphen Tilde;
    b"pt-pt           " SpacedHyphen Tilde;
    b"pt-st           " SpacedHyphen Tilde;
    b"pt-tl           " SpacedHyphen Tilde;
    b"rm              " EnDash AlmostEqual;
    b"ro              " SpacedHyphen Tilde;
    b"ru              " EnDash AlmostEqual;
    b"sk              " SpacedEnDash Tilde;
    b"sq              " Hyphen AlmostEqual;
    b"th              " Hyphen Tilde;
    b"tl              " Hyphen Tilde;
    b"to              " EmDash Tilde;
    b"tt              " Hyphen Tilde;
    b"vec             " Hyphen Tilde;
    b"vi              " Hyphen Tilde;
    b"wo              " EnDash Hyphen;
    b"yo              " EnDash Daasi;
    b"yo-bj           " EnDash Daashi;
    b"yue             " Hyphen Tilde;
    b"zh              " Hyphen Tilde;
};

/// The locales that have texts of their own in a numbering system.
#[rattlefmt::skip]
pub static RANGES_BY_SYSTEM: [LocaleRange; 46] = ranges! {
    b"be              " EnDash Tilde;
    b"bs              " SpacedEnDash Tilde;
    b"bs-cyrl         " EnDash Tilde;
    b"de              " EnDash Tilde;
    b"dsb             " EnDash Tilde;
    b"eo              " EnDash Tilde;
    b"et              " FigureDash Tilde;
    b"fr              " EnDash Tilde;
    b"hsb             " EnDash Tilde;
    b"ja              " FullwidthTilde Tilde;
    b"ka              " Hyphen Tilde;
    b"lt              " EnDash Tilde;
    b"mk              " ThinSpacedEnDash Tilde;
    b"nb              " EnDash Tilde;
    b"nn              " EnDash Tilde;
    b"no              " EnDash Tilde;
    b"rm              " EnDash Tilde;
    b"ru              " EnDash Tilde;
    b"sq              " Hyphen Tilde;
    b"uz              " EnDash AlmostEqual;
    b"uz-af           " EnDash Tilde;
    b"uz-arab         " EnDash Tilde;
    b"uz-cyrl         " EnDash Tilde;
    b"wo              " EnDash Tilde;
    b"yo              " EnDash Tilde;
    b"be              " EnDash Tilde;
    b"bs              " SpacedEnDash Tilde;
    b"bs-cyrl         " EnDash Tilde;
    b"de              " EnDash Tilde;
    b"dsb             " EnDash Tilde;
    b"eo              " EnDash Tilde;
    b"et              " FigureDash Tilde;
    b"fr              " EnDash Tilde;
    b"hsb             " EnDash Tilde;
    b"ja              " FullwidthTilde Tilde;
    b"ka              " Hyphen Tilde;
    b"lt              " EnDash Tilde;
    b"mk              " ThinSpacedEnDash Tilde;
    b"nb              " EnDash Tilde;
    b"nn              " EnDash Tilde;
    b"no              " EnDash Tilde;
    b"rm              " EnDash Tilde;
    b"ru              " EnDash Tilde;
    b"sq              " Hyphen Tilde;
    b"wo              " EnDash Tilde;
    b"yo              " EnDash Tilde;
};

/// The numbering systems in which locales have texts of their own.
#[rattlefmt::skip]
pub static RANGE_SYSTEMS: [RangeSystem; 2] = [
    RangeSystem { name: *b"arab            ", rows: TableRange(0, 25) },
    RangeSystem { name: *b"arabext         ", rows: TableRange(25, 46) },
];
