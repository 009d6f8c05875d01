//! Laws of digit options, of notations and of texts: the contract of each function states a law.
ghost use Rattle.std.specs.{Prelude.{◌≡◌, ◌≢◌, ◌*◌, ◌^◌, ◌<◌, ◌≤◌, ◌⊎◌, ℕ, ℤ, List, [], Option, Some, false, suc, pos, negsuc, unsigned_abs, Result, Ok, Err, MatchResult}, List.Contains};
ghost use Rattle.decimal_unsigned.specs.Unsigned.{Unsigned, IsValue};
ghost use Rattle.fixed_decimal.specs.Decimal.{Decimal, with_sign_display};
ghost use Rattle.decimal_format.specs.{Formatted.formatted, Readable.IsReadable, Symbols.{Symbols, sign_affixes}};
ghost use Rattle.number_format.specs.{declared.read.{pattern.NumberPattern.NumberPattern, scientific.ExponentForm.ExponentForm}, FormattedNumbers.{hides_zero_of, number_text}, AffixedTexts.{Reader, AreNamed, between, IsWritten, IsShown, shifted, IsReadExactly}, Formatters.{plain_options, IsFormatterBy, IsFormatterAt, IsFormatter}, CompactReading.{IsReadInWords, IsSaid}, NumberReading.{IsStandard, words_of, reader_of, CanRead, IsReadOrSaid, IsShownAs}, NumberText.IsNumberText, ScientificReading.{CanReadExponent, exponent_form, HasExponentOf, notation_of, scientific_text, IsReadScientific}, AffixedExponents.{IsReadWithExponent, IsOfExponent}, ShownDigits.{rounded_with, applied, IsFractional, KeepsDigits}, Scaled.{KeepsExponent, KeepsValueOf}, WholeUnits.IsSaidOf};

use crate::digits::options::DigitOptions;
use crate::digits::ranges::FractionDigits;
use crate::format::formatted_number::FormattedNumber;
use crate::format::formatter::NumberFormatter;
use crate::format::ids::FormatterIds;
use crate::format::outer::OuterTexts;
use crate::notation::Notation;
use crate::options::{DecimalSeparatorDisplay, NumberNotation, NumberOptions};
use decimal_format::GroupingStrategy;
use fixed_decimal::{ParseError, Sign, SignDisplay};
use locale_data::{CompactStyle, LocalCurrency};

/// By `Precision::Fraction` a number with no more than the greatest number of fraction digits is kept, and the whole
/// value if it shows the digits that the options show.
pub fn fraction_digits_are_kept()
    ensures { (o : DigitOptions) (f : FractionDigits) (v : Decimal) → KeepsDigits o f v }
{}

/// By fraction digits or an increment the greater of two absolute values is rounded to no less.
#[tactic(auto, using(crate::proofs::lemmas::digits::DigitLaws::is_monotone))]
pub fn fraction_digits_are_monotone()
    ensures { (o : DigitOptions) (v w : Decimal) → IsFractional o.precision → v.sign ≡ w.sign
        → v.absolute.number ≤ w.absolute.number → (rounded_with o 0 v).number ≤ (rounded_with o 0 w).number }
{}

/// By fraction digits or an increment applying twice is applying once, if no integer digit is cut off.
///
/// Where one is cut off, the rest need not be a multiple of the increment: by 25 with one integer digit 75 becomes 5,
/// and then 0. By `LessPrecision` zero may show fewer zeros than a number that becomes zero: by 1 fraction digit and 1
/// significant digit 0.004 becomes `0.0`, and then `0`.
pub fn applying_is_idempotent()
    ensures { (o : DigitOptions) (v w : Decimal) → IsFractional o.precision → o.integer.max ≡ 32768
        → applied o v ≡ Some w → applied o w ≡ Some w }
{}

/// Without an increment the exponent of a notation is that of the first digit of the result, also if the rounding
/// carries. One rounding with this exponent makes the same number. The exponent is another one than that of the decimal
/// only after a carry to a power of ten.
///
/// Of compact exponents this holds if they are ordered: none is above its magnitude or the exponent of the next one.
pub fn the_exponent_is_of_the_rounded_number()
    ensures { (notation : Notation) (o : DigitOptions) (v : Decimal) → KeepsExponent notation o v }
{}

/// The significand times 10 to the power of the exponent is the rounded number, if no integer digit is cut off.
#[tactic(auto, using(crate::proofs::lemmas::notation::Scales::keeps_value_of))]
pub fn the_value_is_the_rounded_number()
    ensures { (notation : Notation) (o : DigitOptions) (v : Decimal) → KeepsValueOf notation o v }
{}

/// By plain options the text is that of `decimal_format` by the symbols of the locale, if these have the minus sign
/// before the number; by each strategy but `Always`, which may group where the locale does not.
pub fn plain_texts_are_decimals()
    ensures { (system : List ℕ) (own : Symbols) (currency : Option LocalCurrency) (texts : OuterTexts)
        (g : GroupingStrategy) (name : Option (List ℕ)) (f : NumberFormatter) (v : Decimal) (text : List ℕ)
        → IsFormatterBy own system currency texts (plain_options g name) f
        → g ≢ GroupingStrategy.Always → IsValue v.absolute
        → (sign_affixes own (with_sign_display v SignDisplay.Auto).sign).suffix ≡ []
        → IsNumberText f v text → text ≡ formatted own g (with_sign_display v SignDisplay.Auto) }
{}

/// If the symbols are readable, and the patterns are told apart, two values have different texts. This holds also for
/// patterns of other plural categories than theirs.
pub fn affixed_texts_are_unique()
    ensures { (r : Reader) (text : List ℕ) (v w : Decimal) → IsReadable r.symbols
        → AreNamed r.symbols r.patterns → IsValue v.absolute → IsValue w.absolute
        → IsWritten r text v → IsWritten r text w → v ≡ w }
{}

/// The text of a value, by a pattern of its category and any strategy, reads back as that value if there is no shift.
pub fn texts_read_back()
    ensures { (inline : ℕ) (r : Reader) (text : List ℕ) (v : Decimal) (result : Result Decimal ParseError)
        → IsValue v.absolute → r.shift ≡ pos 0 → IsShown r text v → IsReadExactly inline r text result
        → MatchResult result (λ w. w ≡ v) (λ e. e ≡ ParseError.Memory) }
{}

/// The text of 10^n times a number, read with the shift -n, is that number with its sign: `50%` is 0.50.
pub fn scaled_texts_read_back()
    ensures { (inline : ℕ) (r : Reader) (text : List ℕ) (n : ℕ) (v u w : Decimal) → IsValue u.absolute
        → r.shift ≡ negsuc n → u.sign ≡ v.sign → u.absolute.number ≡ v.absolute.number * 10 ^ suc n
        → IsShown r text u → IsReadExactly inline r text (Ok w)
        → (w.sign ≡ v.sign) × (w.absolute.number ≡ v.absolute.number) }
{}

/// What a formatter writes of a value in standard notation is read back by its reader as the number that is shown,
/// rounded and with the sign that is written, with the scale undone. A text of a unit without a number, as `يومان` for
/// two days in Arabic, is written of `2` and of `2.00`, and read as `2`.
pub fn formatted_texts_read_back()
    ensures { (inline : ℕ) (f : NumberFormatter) (v u : Decimal) (text : List ℕ) (result : Result Decimal ParseError)
        → IsStandard f → CanRead f → IsValue v.absolute → IsNumberText f v text → IsShownAs f v u
        → IsReadOrSaid inline f.outer (reader_of f) text result
        → (w : Decimal) × IsSaidOf f.outer text u w
        × ((result ≡ shifted (reader_of f).shift (Ok w)) ⊎ (result ≡ Err ParseError.Memory)) }
{}

/// Two numbers that are shown have different texts, if the formatter is in standard notation and its texts are read.
/// Only a text without a number may be that of several: of 1, or of 2, with other zeros.
pub fn formatted_texts_are_unique()
    ensures { (f : NumberFormatter) (v w x y : Decimal) (text : List ℕ) → IsStandard f → CanRead f
        → IsValue v.absolute → IsValue w.absolute → IsNumberText f v text → IsNumberText f w text
        → IsShownAs f v x → IsShownAs f w y
        → (z : Decimal) × IsSaidOf f.outer text x z × IsSaidOf f.outer text y z }
{}

/// A formatter by options with the notation `Standard` writes no words and no exponent, as reading needs it.
pub fn standard_notation_is_read()
    ensures { (tag : List ℕ) (o : NumberOptions) (f : NumberFormatter) → IsFormatter tag o f
        → o.notation ≡ NumberNotation.Standard → IsStandard f }
{}

/// The text of a significand and of the exponent that the notation has for it reads as the significand times the power
/// of ten: that of `1.20E3` as 1200.
pub fn scientific_texts_read_back()
    ensures { (inline : ℕ) (s : Symbols) (f : ExponentForm) (g : GroupingStrategy) (v : Unsigned) (e : ℤ)
        (result : Result Decimal ParseError) → CanReadExponent s f → IsValue v → unsigned_abs e < 2 ^ 32
        → HasExponentOf (notation_of f) v.number e → IsReadScientific inline s f (scientific_text s f g v e) result
        → (result ≡ shifted e (Ok (record { sign = Sign.None; absolute = v }))) ⊎ (result ≡ Err ParseError.Memory) }
{}

/// The same between the texts of a pattern reads as that number with the sign of the pattern, times 10^shift:
/// `-1.20E3%` as -12.00. If the pattern is of a plural category, it is that of the significand with the exponent.
pub fn affixed_exponents_read_back()
    ensures { (inline : ℕ) (r : Reader) (f : ExponentForm) (g : GroupingStrategy) (p : NumberPattern) (v : Unsigned)
        (e : ℤ) (result : Result Decimal ParseError) → Contains r.patterns p → CanReadExponent r.symbols f → IsValue v
        → unsigned_abs e < 2 ^ 32 → HasExponentOf (notation_of f) v.number e → IsOfExponent r.rules v e p
        → IsReadWithExponent inline r f (between p (scientific_text r.symbols f g v e)) result
        → (result ≡ shifted r.shift (shifted e (Ok (record { sign = p.sign; absolute = v }))))
        ⊎ (result ≡ Err ParseError.Memory) }
{}

/// What a formatter writes of a value with an exponent is read back by its reader as the number that is shown times the
/// power of ten, with the scale undone. The number is rounded and has the sign that is written. The result is `Limit`
/// if a digit that is written is below 10^-32768: the zero of `70E-32769`.
pub fn formatted_exponents_read_back()
    ensures { (inline : ℕ) (ids : FormatterIds) (o : NumberOptions) (f : NumberFormatter) (form : ExponentForm)
        (v u : Decimal) (text : List ℕ) (result : Result Decimal ParseError) → IsFormatterAt ids o f
        → exponent_form f f.options.notation ≡ Some form → CanRead f → IsValue v.absolute → IsNumberText f v text
        → (shown : IsShownAs f v u) → IsReadWithExponent inline (reader_of f) form text result
        → (result ≡ shifted (reader_of f).shift (shifted shown.number.exponent (Ok u)))
        ⊎ (result ≡ Err ParseError.Memory) }
{}

/// Of a formatter that writes exponents and whose texts are read two numbers that are shown have different texts.
pub fn formatted_exponents_are_unique()
    ensures { (ids : FormatterIds) (o : NumberOptions) (f : NumberFormatter) (form : ExponentForm) (v w x y : Decimal)
        (text : List ℕ) → IsFormatterAt ids o f → exponent_form f f.options.notation ≡ Some form → CanRead f
        → IsValue v.absolute → IsValue w.absolute → IsNumberText f v text → IsNumberText f w text
        → (p : IsShownAs f v x) (q : IsShownAs f w y) → (x ≡ y) × (p.number.exponent ≡ q.number.exponent) }
{}

/// The reader of a formatter reads what it writes of a value in compact notation. It returns the number that is shown
/// times the power of ten, with the scale undone. The number is rounded and has the sign that is written. A text
/// without a number, as `mille` in French, is written of `1` and of `1.00`, and read as `1`.
pub fn formatted_words_read_back()
    ensures { (inline : ℕ) (f : NumberFormatter) (style : CompactStyle) (v u : Decimal) (text : List ℕ)
        (result : Result Decimal ParseError) → words_of f ≡ Some style → CanRead f → IsValue v.absolute
        → IsNumberText f v text → (shown : IsShownAs f v u) → IsReadInWords inline f style text result
        → (w : Decimal) × IsSaid f style text u w
        × ((result ≡ shifted (reader_of f).shift (shifted shown.number.exponent (Ok w)))
        ⊎ (result ≡ Err ParseError.Memory)) }
{}

/// Of a formatter in compact notation whose texts are read two numbers that are shown have different texts, except 1
/// with other zeros if its text has no number.
pub fn formatted_words_are_unique()
    ensures { (f : NumberFormatter) (style : CompactStyle) (v w x y : Decimal) (text : List ℕ)
        → words_of f ≡ Some style → CanRead f → IsValue v.absolute → IsValue w.absolute → IsNumberText f v text
        → IsNumberText f w text → (p : IsShownAs f v x) (q : IsShownAs f w y)
        → (z : Decimal) × IsSaid f style text x z × IsSaid f style text y z
        × (p.number.exponent ≡ q.number.exponent) }
{}

/// The digits and the exponent that a formatter writes are a text by its form of exponents. This holds if no decimal
/// separator is written after an integer, and an integer digit is written.
pub fn exponents_are_written_by_their_form()
    ensures { (n : FormattedNumber) (f : ExponentForm)
        → exponent_form n.formatter.now n.formatter.now.options.notation ≡ Some f
        → n.formatter.now.options.decimal_separator ≡ DecimalSeparatorDisplay.Auto → hides_zero_of n ≡ false
        → number_text n ≡ scientific_text n.formatter.now.style.symbols f n.formatter.now.options.grouping
        n.value.absolute n.exponent }
{}
