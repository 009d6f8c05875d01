//! Formats and reads numbers as `Intl.NumberFormat` of ECMA-402 does, with the data of CLDR, on decimals of any length.
//!
//! - [`NumberFormatter`] writes a number in a locale by [`NumberOptions`]: plain numbers, percent, permille, money and
//!   units, in standard, scientific, engineering and compact notation.
//! - [`NumberFormatter::format_range`] writes a range of two numbers: `3–5 km`.
//! - [`NumberReader`] reads what a formatter writes.
//! - [`DigitOptions`] and [`Notation`] decide which digits are shown, and the exponent:
//!   `SetNumberFormatDigitOptions`, `FormatNumericToString` and `ComputeExponent` of ECMA-402.
//!
//! ```
//! let digits = SignificantDigits::new(1, 3)?;
//! let options = DigitOptions {
//!     integer: IntegerDigits::new(1, 32768)?,
//!     precision: Precision::Significant(digits),
//!     mode: SignedRoundingMode::Unsigned(UnsignedRoundingMode::HalfExpand),
//!     trailing_zeros: TrailingZeros::Auto,
//! };
//! let mut value = Decimal::try_from_str(alloc, "1234567.891")?;
//! options.apply(&mut value)?; // 1230000
//! ```
#![tactic(auto)]

mod digits;
mod format;
pub mod laws;
mod notation;
mod options;
mod range;
pub mod range_laws;
mod read;

pub use digits::error::DigitOptionsError;
pub use digits::options::{DigitOptions, TrailingZeros};
pub use digits::precision::{BothDigits, Minimum, Precision};
pub use digits::ranges::{
    FractionDigits, FractionMultiples, Increment, IntegerDigits, SignificantDigits,
};
pub use digits::settings::{DigitDefaults, DigitSettings, RoundingPriority};
pub use format::format_number::{FormatError, NumberWriteError};
pub use format::formatted_number::FormattedNumber;
pub use format::formatter::NumberFormatter;
pub use format::ids::{FormatterIds, NumberFormatError};
pub use format::outer::OuterTexts;
pub use format::parts::PartSink;
pub use format::text_part::{PartKind, TextPart};
pub use notation::scale::Scaled;
pub use notation::{CompactExponents, Notation};
pub use options::{
    CompactLength, CurrencyDisplay, CurrencyStyle, CurrencyUsage, DecimalSeparatorDisplay,
    ExponentOptions, ExponentSign, GroupSizes, NumberNotation, NumberOptions, NumberStyle,
    PerDisplay, UnitStyle,
};
pub use range::format_range::RangeFormatError;
pub use range::formatted_range::{FormattedRange, RangeSegment, RangeSource};
pub use range::range_texts::RangeTexts;
pub use read::number_reader::{NumberReader, NumberReaderError, ParseMode};
pub use read::pattern_name::PatternName;

// What the options and the functions above mention, so that a caller needs no other crate.
pub use decimal_format::GroupingStrategy;
pub use fixed_decimal::{
    Decimal, ParseError, RoundError, RoundingIncrement, Sign, SignDisplay, SignedRoundingMode,
    UnsignedRoundingMode,
};
pub use locale_data::{
    CurrencyCode, CurrencyCodeError, CurrencySign, NumberingSystem, NumberingSystemError,
};
pub use locale_names::{Unit, UnitDisplay, UnitError, UnitId};
pub use plural_rules::PluralCategory;
