//! The options of a formatter, as C keeps them.
ghost use Rattle.std.specs.Prelude.{◌≡◌, ◌<◌, Option, replicate, slice_get, Some, IfSome, IfNone};
ghost use Rattle.number_format.specs.declared.{digits.{options.DigitOptions.DigitOptions, precision.{BothDigits.BothDigits, Precision.Precision}, ranges.{FractionDigits.FractionDigits, FractionMultiples.FractionMultiples, IntegerDigits.IntegerDigits, SignificantDigits.SignificantDigits}}, options.{NumberNotation.NumberNotation, NumberOptions.NumberOptions, NumberStyle.NumberStyle}};
ghost use Rattle.number_format.specs.ShownDigits.{increment_of};
ghost use Rattle.locale_data.specs.{Codes.system_name, Rows.unpadded};
ghost use Rattle.fixed_decimal_c.specs.{NumberOptions.{trailing_zeros, separators, grouping_code}, Styles.IsStyle, FormatOptions.{padded_name, exponent_signs, minimums, group_sizes, style_codes_in, notation_with, system_with, AreFraction, AreSignificant, AreBoth, IsPrecision, AreShownDigits, AreDigits, AreFormatOptions}};

use crate::calls::{display, display_code, mode, mode_code};
use crate::choices::choice;
use crate::number_options::{SEPARATORS, TRAILING_ZEROS, grouping, notation};
use crate::styles::StyleCodes;
use decimal_format::GroupingStrategy;
use locale_data::{NumberingSystem, unpadded};
use number_format::{
    BothDigits, CompactLength, DecimalSeparatorDisplay, DigitOptions, ExponentOptions,
    ExponentSign, FractionDigits, FractionMultiples, GroupSizes, Increment, IntegerDigits, Minimum,
    NumberNotation, NumberOptions, NumberStyle, Precision, SignificantDigits, TrailingZeros,
};

/// All options of a formatter. A word is its number in the list of its option.
///
/// Fields that the style, the notation or the precision does not use are ignored; the library makes them 0.
#[repr(C)]
#[derive(Clone, Copy)]
pub struct FdFormatOptions {
    /// The least number of significant digits.
    pub minimum_significant_digits: u32,
    /// The number of significant digits to which a number is rounded.
    pub maximum_significant_digits: u32,
    /// The power of ten by which the number is multiplied first.
    pub scale: i16,
    /// The least number of digits of an exponent.
    pub exponent_digits: u16,
    /// The least number of integer digits.
    pub minimum_integer_digits: u16,
    /// The greatest number of integer digits.
    pub maximum_integer_digits: u16,
    /// The least number of fraction digits.
    pub minimum_fraction_digits: u16,
    /// The number of fraction digits to which a number is rounded.
    pub maximum_fraction_digits: u16,
    /// The increment of the rounding, in units of the last fraction digit.
    pub rounding_increment: u16,
    /// The style, as in `FdNumberOptions`.
    pub style: u8,
    /// The code of the currency.
    pub currency: [u8; 3],
    /// The name of the numbering system, padded with spaces.
    pub numbering_system: [u8; 16],
    /// Which symbol of the currency is written, or its name, as in `FdNumberOptions`.
    pub currency_display: u8,
    /// The pattern of an amount, as in `FdNumberOptions`.
    pub currency_sign: u8,
    /// The use for which the digits of the currency are chosen, as in `FdNumberOptions`.
    pub currency_usage: u8,
    /// The number of the unit, as `fd_unit` has it.
    pub unit: u8,
    /// The number of the unit after `per`, or 0 for none.
    pub per_unit: u8,
    /// The width of the unit, as in `FdNumberOptions`.
    pub unit_display: u8,
    /// The notation, as in `FdNumberOptions`.
    pub notation: u8,
    /// The sign of an exponent: 0 a minus sign below 0, 1 also a plus sign else, 2 none.
    pub exponent_sign: u8,
    /// The display of the sign of the number that is shown.
    pub sign_display: u8,
    /// Where separators of groups are written.
    pub grouping: u8,
    /// Where the decimal separator is written, as in `FdNumberOptions`.
    pub decimal_separator: u8,
    /// Which numbers of digits are used: 0 none, 1 of fraction digits, 2 of fraction digits and the increment, 3 of
    /// significant digits, 4 both with the more precise rounding, 5 both with the other one.
    pub precision: u8,
    /// Which zeros are shown by both: 0 those of the rounding that is chosen, 1 those of both.
    pub zeros: u8,
    /// The mode of the rounding.
    pub rounding_mode: u8,
    /// Whether fraction digits that are all 0 are shown: 0 yes, 1 no.
    pub trailing_zeros: u8,
    /// Whether the numbering system is given: 0 no, it is that of the locale, 1 yes.
    pub has_numbering_system: u8,
    /// Which groups are separated: 0 those of the locale, 1 groups of three digits.
    pub group_sizes: u8,
    /// Whether another unit is written after a percentage: 0 as `Intl.NumberFormat` does, 1 always.
    pub per_display: u8,
    /// Zeros.
    pub reserved: [u8; 28],
}

/// The options with all fields 0.
pub(crate) const NO_OPTIONS: FdFormatOptions = FdFormatOptions {
    minimum_significant_digits: 0,
    maximum_significant_digits: 0,
    scale: 0,
    exponent_digits: 0,
    minimum_integer_digits: 0,
    maximum_integer_digits: 0,
    minimum_fraction_digits: 0,
    maximum_fraction_digits: 0,
    rounding_increment: 0,
    style: 0,
    currency: [0; 3],
    numbering_system: [0; 16],
    currency_display: 0,
    currency_sign: 0,
    currency_usage: 0,
    unit: 0,
    per_unit: 0,
    unit_display: 0,
    notation: 0,
    exponent_sign: 0,
    sign_display: 0,
    grouping: 0,
    decimal_separator: 0,
    precision: 0,
    zeros: 0,
    rounding_mode: 0,
    trailing_zeros: 0,
    has_numbering_system: 0,
    group_sizes: 0,
    per_display: 0,
    reserved: [0; 28],
};

const EXPONENT_SIGNS: [ExponentSign; 3] = [
    ExponentSign::Auto,
    ExponentSign::Always,
    ExponentSign::Never,
];

const MINIMUMS: [Minimum; 2] = [Minimum::Chosen, Minimum::Both];

const GROUP_SIZES: [GroupSizes; 2] = [GroupSizes::Locale, GroupSizes::Thousands];

// ---- The options that C has.

impl FdFormatOptions {
    fn style_codes(&self) -> StyleCodes
        ensures { result ≡ style_codes_in self.now }
    {
        StyleCodes {
            style: self.style,
            currency: self.currency,
            currency_display: self.currency_display,
            currency_sign: self.currency_sign,
            currency_usage: self.currency_usage,
            unit: self.unit,
            per_unit: self.per_unit,
            unit_display: self.unit_display,
            per_display: self.per_display,
        }
    }

    fn style(&self) -> Option<NumberStyle>
        ensures some { IfSome result (IsStyle (style_codes_in self.now)) }
        ensures none { IfNone result ((s : NumberStyle) → IsStyle (style_codes_in self.now) s → ⊥) }
    {
        self.style_codes().decode()
    }

    fn notation(&self) -> Option<NumberNotation>
        ensures { result ≡ notation_with self.now.notation self.now.exponent_digits self.now.exponent_sign }
    {
        let exponent = ExponentOptions {
            digits: self.exponent_digits,
            sign: choice(&EXPONENT_SIGNS, self.exponent_sign)?,
        };
        notation(self.notation, exponent)
    }

    fn integer(&self) -> Option<IntegerDigits>
        ensures some { IfSome result (λ d. (d.min ≡ self.now.minimum_integer_digits)
            × (d.max ≡ self.now.maximum_integer_digits)) }
        ensures none { IfNone result ((d : IntegerDigits) → d.min ≡ self.now.minimum_integer_digits
            → d.max ≡ self.now.maximum_integer_digits → ⊥) }
    {
        match IntegerDigits::new(self.minimum_integer_digits, self.maximum_integer_digits) {
            Ok(digits) => Some(digits),
            Err(_) => None,
        }
    }

    fn fraction(&self) -> Option<FractionDigits>
        ensures some { IfSome result (AreFraction self.now) }
        ensures none { IfNone result ((d : FractionDigits) → AreFraction self.now d → ⊥) }
    {
        match FractionDigits::new(self.minimum_fraction_digits, self.maximum_fraction_digits) {
            Ok(digits) => Some(digits),
            Err(_) => None,
        }
    }

    fn significant(&self) -> Option<SignificantDigits>
        ensures some { IfSome result (AreSignificant self.now) }
        ensures none { IfNone result ((d : SignificantDigits) → AreSignificant self.now d → ⊥) }
    {
        let (min, max) = (
            self.minimum_significant_digits,
            self.maximum_significant_digits,
        );
        match SignificantDigits::new(min, max) {
            Ok(digits) => Some(digits),
            Err(_) => None,
        }
    }

    fn multiples(&self) -> Option<FractionMultiples>
        ensures some { IfSome result (λ m. (m.digits ≡ self.now.maximum_fraction_digits)
            × (increment_of m.increment ≡ self.now.rounding_increment)) }
        ensures none { IfNone result ((m : FractionMultiples) → m.digits ≡ self.now.maximum_fraction_digits
            → increment_of m.increment ≡ self.now.rounding_increment → ⊥) }
    {
        let Ok(increment) = Increment::new(self.rounding_increment) else {
            return None;
        };
        match FractionMultiples::new(self.maximum_fraction_digits, increment) {
            Ok(multiples) => Some(multiples),
            Err(_) => None,
        }
    }

    fn both(&self) -> Option<BothDigits>
        ensures some { IfSome result (AreBoth self.now) }
        ensures none { IfNone result ((b : BothDigits) → AreBoth self.now b → ⊥) }
    {
        let Some(fraction) = self.fraction() else {
            return None;
        };
        let Some(significant) = self.significant() else {
            return None;
        };
        Some(BothDigits {
            fraction,
            significant,
            minimum: choice(&MINIMUMS, self.zeros)?,
        })
    }

    fn precision(&self) -> Option<Precision>
        ensures some { IfSome result (IsPrecision self.now) }
        ensures none { IfNone result ((p : Precision) → IsPrecision self.now p → ⊥) }
    {
        match self.precision {
            1 => match self.fraction() {
                Some(fraction) => Some(Precision::Fraction(fraction)),
                None => None,
            },
            2 => Some(Precision::Multiples(self.multiples()?)),
            3 => match self.significant() {
                Some(significant) => Some(Precision::Significant(significant)),
                None => None,
            },
            4 => Some(Precision::MorePrecision(self.both()?)),
            5 => Some(Precision::LessPrecision(self.both()?)),
            _ => None,
        }
    }

    fn shown_digits(&self) -> Option<DigitOptions>
        ensures some { IfSome result (AreShownDigits self.now) }
        ensures none { IfNone result ((d : DigitOptions) → AreShownDigits self.now d → ⊥) }
    {
        let Some(integer) = self.integer() else {
            return None;
        };
        let Some(precision) = self.precision() else {
            return None;
        };
        Some(DigitOptions {
            integer,
            precision,
            mode: mode(self.rounding_mode)?,
            trailing_zeros: choice(&TRAILING_ZEROS, self.trailing_zeros)?,
        })
    }

    fn digits(&self) -> Option<Option<DigitOptions>>
        ensures some { IfSome result (AreDigits self.now) }
        ensures none { IfNone result ((d : Option DigitOptions) → AreDigits self.now d → ⊥) }
    {
        match self.precision {
            0 => Some(None),
            _ => match self.shown_digits() {
                Some(digits) => Some(Some(digits)),
                None => None,
            },
        }
    }

    fn system(&self) -> Option<Option<NumberingSystem>>
        ensures { result ≡ system_with self.now.has_numbering_system self.now.numbering_system }
    {
        match self.has_numbering_system {
            0 => Some(None),
            1 => match NumberingSystem::try_from_utf8(unpadded(&self.numbering_system)) {
                Ok(system) => Some(Some(system)),
                Err(_) => None,
            },
            _ => None,
        }
    }

    /// Returns the options.
    pub(crate) fn decode(&self) -> Option<NumberOptions>
        ensures some { IfSome result (AreFormatOptions self.now) }
        ensures none { IfNone result ((o : NumberOptions) → AreFormatOptions self.now o → ⊥) }
    {
        if self.reserved != [0; 28] {
            return None;
        }
        let Some(style) = self.style() else {
            return None;
        };
        let Some(digits) = self.digits() else {
            return None;
        };
        let Some(numbering_system) = self.system() else {
            return None;
        };
        Some(NumberOptions {
            style,
            scale: self.scale,
            notation: self.notation()?,
            digits,
            sign_display: display(self.sign_display)?,
            grouping: grouping(self.grouping)?,
            group_sizes: choice(&GROUP_SIZES, self.group_sizes)?,
            decimal_separator: choice(&SEPARATORS, self.decimal_separator)?,
            numbering_system,
        })
    }
}

// ---- The options, as C keeps them.

fn exponent_sign_number(sign: ExponentSign) -> u8
    ensures { slice_get exponent_signs result ≡ Some sign }
{
    sign as u8
}

/// Returns the number of a notation, and the digits and the number of the sign of its exponent.
fn notation_codes(notation: NumberNotation) -> (u8, u16, u8)
    ensures { notation_with result.0 result.1 result.2 ≡ Some notation }
{
    match notation {
        NumberNotation::Standard => (0, 0, 0),
        NumberNotation::Scientific(exponent) => {
            (1, exponent.digits, exponent_sign_number(exponent.sign))
        }
        NumberNotation::Engineering(exponent) => {
            (2, exponent.digits, exponent_sign_number(exponent.sign))
        }
        NumberNotation::Compact(CompactLength::Short) => (3, 0, 0),
        NumberNotation::Compact(CompactLength::Long) => (4, 0, 0),
    }
}

fn grouping_number(grouping: GroupingStrategy) -> u8
    ensures { result ≡ grouping_code grouping }
{
    grouping as u8
}

fn sizes_number(sizes: GroupSizes) -> u8
    ensures { slice_get group_sizes result ≡ Some sizes }
{
    sizes as u8
}

fn separator_number(separator: DecimalSeparatorDisplay) -> u8
    ensures { slice_get separators result ≡ Some separator }
{
    separator as u8
}

fn minimum_number(minimum: Minimum) -> u8
    ensures { slice_get minimums result ≡ Some minimum }
{
    minimum as u8
}

fn zeros_number(zeros: TrailingZeros) -> u8
    ensures { slice_get trailing_zeros result ≡ Some zeros }
{
    zeros as u8
}

/// Returns a name padded with spaces to 16 bytes.
pub(crate) fn padded_name(name: &str) -> [u8; 16]
    ensures { result ≡ padded_name name.now }
{
    let mut padded = [b' '; 16];
    let len = name.len().min(16);
    padded[..len].copy_from_slice(&name.as_bytes()[..len]);
    padded
}

fn system_bytes(system: &NumberingSystem) -> [u8; 16]
    ensures { system_name (unpadded result) ≡ Some system.now }
{
    padded_name(system.as_str())
}

/// Returns a numbering system's number, and its name padded with spaces.
fn system_codes(system: &Option<NumberingSystem>) -> (u8, [u8; 16])
    ensures { system_with result.0 result.1 ≡ Some system.now }
{
    match system {
        None => (0, [0; 16]),
        Some(system) => (1, system_bytes(system)),
    }
}

fn both_options(precision: u8, both: BothDigits) -> FdFormatOptions
    ensures precision { result.precision ≡ precision }
    ensures both { AreBoth result both }
    ensures reserved { result.reserved ≡ replicate 28 0 }
{
    FdFormatOptions {
        minimum_significant_digits: both.significant.min,
        maximum_significant_digits: both.significant.max,
        minimum_fraction_digits: both.fraction.min,
        maximum_fraction_digits: both.fraction.max,
        rounding_increment: 1,
        precision,
        zeros: minimum_number(both.minimum),
        ..NO_OPTIONS
    }
}

fn precision_options(precision: Precision) -> FdFormatOptions
    ensures precision { IsPrecision result precision }
    ensures reserved { result.reserved ≡ replicate 28 0 }
{
    match precision {
        Precision::Fraction(fraction) => FdFormatOptions {
            minimum_fraction_digits: fraction.min,
            maximum_fraction_digits: fraction.max,
            rounding_increment: 1,
            precision: 1,
            ..NO_OPTIONS
        },
        Precision::Multiples(multiples) => FdFormatOptions {
            minimum_fraction_digits: multiples.digits,
            maximum_fraction_digits: multiples.digits,
            rounding_increment: multiples.increment.value(),
            precision: 2,
            ..NO_OPTIONS
        },
        Precision::Significant(significant) => FdFormatOptions {
            minimum_significant_digits: significant.min,
            maximum_significant_digits: significant.max,
            rounding_increment: 1,
            precision: 3,
            ..NO_OPTIONS
        },
        Precision::MorePrecision(both) => both_options(4, both),
        Precision::LessPrecision(both) => both_options(5, both),
    }
}

fn digit_options(digits: Option<DigitOptions>) -> FdFormatOptions
    ensures digits { AreDigits result digits }
    ensures reserved { result.reserved ≡ replicate 28 0 }
{
    match digits {
        None => NO_OPTIONS,
        Some(digits) => {
            let precision = precision_options(digits.precision);
            FdFormatOptions {
                minimum_integer_digits: digits.integer.min,
                maximum_integer_digits: digits.integer.max,
                rounding_mode: mode_code(digits.mode),
                trailing_zeros: zeros_number(digits.trailing_zeros),
                ..precision
            }
        }
    }
}

impl FdFormatOptions {
    /// Returns options as C keeps them.
    pub(crate) fn encode(options: &NumberOptions) -> FdFormatOptions
        ensures { AreFormatOptions result options.now }
    {
        let digits = digit_options(options.digits);
        let style = StyleCodes::encode(options.style);
        let currency = style.currency;
        let (notation, exponent_digits, exponent_sign) = notation_codes(options.notation);
        let (has_numbering_system, numbering_system) = system_codes(&options.numbering_system);
        FdFormatOptions {
            scale: options.scale,
            exponent_digits,
            style: style.style,
            currency,
            numbering_system,
            currency_display: style.currency_display,
            currency_sign: style.currency_sign,
            currency_usage: style.currency_usage,
            unit: style.unit,
            per_unit: style.per_unit,
            unit_display: style.unit_display,
            notation,
            exponent_sign,
            sign_display: display_code(options.sign_display),
            grouping: grouping_number(options.grouping),
            decimal_separator: separator_number(options.decimal_separator),
            has_numbering_system,
            group_sizes: sizes_number(options.group_sizes),
            per_display: style.per_display,
            ..digits
        }
    }
}
