//! The value of digits that were scanned.
ghost use Rattle.std.specs.Prelude.{◌≡◌, ℕ, ◌+◌, ◌<◌, ◌≤◌, List, [], ◌++◌, pos, ◌-ℤ◌, OnOk, OnErr, IfOk};
ghost use Rattle.decimal_digits.specs.Number.{size};
ghost use Rattle.decimal_unsigned.specs.DigitValues.{IsBcd, value_of_first};
ghost use Rattle.decimal_format.specs.{Readable.IsReadable, Reading.Numeral, Scanning.{HoldsDigits, HasPart, IsScan, IsValueOf}};

use super::input::Input;
use super::{Part, Scanned};
use crate::symbols::DecimalSymbols;
use decimal_digits::ops::{subtract_counts, to_magnitude};
use fixed_decimal::{ConcatenateError, DigitStore, LimitError, ParseError, Signed, UnsignedOver};
use std::alloc::{AllocError, Global};

/// The greatest number of digits of a word of packed BCD.
const WORD: usize = 16;

/// The greatest number of integer digits, and of fraction digits, of a value.
const MAX_DIGITS: usize = 32768;

fn zero_with_digits<D: DigitStore>(alloc: Global, integer_digits: usize) -> UnsignedOver<D>
    requires { integer_digits ≤ 32768 }
    ensures { result ≡ value_of_first integer_digits [] }
{
    let mut zero = UnsignedOver::zero(alloc);
    zero.multiply_pow10(integer_digits.saturating_sub(1) as i16)
        .unwrap();
    zero
}

fn last_magnitude(whole: usize, count: usize) -> i16
    requires { (0 < count) × (whole ≤ 32768) × (count ≤ whole + 32768) }
    ensures { result ≡ pos whole -ℤ pos count }
{
    to_magnitude(subtract_counts(whole, count))
}

fn append<D: DigitStore>(
    value: &mut UnsignedOver<D>,
    alloc: Global,
    whole: usize,
    written: usize,
    count: usize,
    number: u64,
) -> Result<(), AllocError>
    requires { (0 < count) × (count ≤ 16) × (whole ≤ 32768) × (written + count ≤ whole + 32768)
        × ((es : List ℕ) × IsBcd number count es) }
    ensures ok { OnOk result ((ds es : List ℕ) → HoldsDigits whole written value.old ds → IsBcd number count es
        → value.new ≡ value_of_first whole (ds ++ es)) }
    ensures memory { OnErr result ((ds es : List ℕ) → HoldsDigits whole written value.old ds → IsBcd number count es
        → D.L < size (value_of_first whole (ds ++ es)).number) }
{
    let position = last_magnitude(whole, written + count);
    let mut next = UnsignedOver::from_bcd_digits(alloc, count, 0, number)?;
    if let Err(LimitError) = next.multiply_pow10(position) {
        return Ok(());
    }
    match value.concatenate_end(next) {
        Ok(()) => Ok(()),
        Err(ConcatenateError::Overlap(_next)) => Ok(()),
        Err(ConcatenateError::Memory(_next)) => Err(AllocError),
    }
}

impl<'a> DecimalSymbols<'a> {
    fn append_digits<T: Input, D: DigitStore>(
        &self,
        value: &mut UnsignedOver<D>,
        alloc: Global,
        whole: usize,
        written: usize,
        digits: &Part<T>,
    ) -> Result<(), AllocError>
        requires readable { IsReadable self.now }
        requires in_limits { (whole ≤ 32768) × (written + digits.now.count ≤ whole + 32768) }
        requires digits { (ds es : List ℕ) × HoldsDigits whole written value.old ds
            × HasPart self.now T.bytes digits.now es }
        ensures ok { OnOk result ((ds es : List ℕ) → HoldsDigits whole written value.old ds
            → HasPart self.now T.bytes digits.now es → value.new ≡ value_of_first whole (ds ++ es)) }
        ensures memory { OnErr result ((ds es : List ℕ) → HoldsDigits whole written value.old ds
            → HasPart self.now T.bytes digits.now es → D.L < size (value_of_first whole (ds ++ es)).number) }
    {
        let mut rest = digits.text;
        let mut done = 0;
        while done < digits.count {
            let (number, count, after) = self.read_separated(WORD, rest);
            append(value, alloc, whole, written + done, count, number)?;
            done += count;
            rest = after;
        }
        Ok(())
    }

    #[inline]
    fn absolute<T: Input, D: DigitStore>(
        &self,
        alloc: Global,
        whole: &Part<T>,
        fraction: &Part<T>,
    ) -> Result<UnsignedOver<D>, AllocError>
        requires readable { IsReadable self.now }
        requires in_limits { (whole.now.count ≤ 32768) × (fraction.now.count ≤ 32768) }
        requires some { 0 < whole.now.count }
        requires digits { (ds es : List ℕ) × HasPart self.now T.bytes whole.now ds
            × HasPart self.now T.bytes fraction.now es }
        ensures ok { IfOk result (λ v. (ds es : List ℕ) → HasPart self.now T.bytes whole.now ds
            → HasPart self.now T.bytes fraction.now es → v ≡ value_of_first whole.now.count (ds ++ es)) }
        ensures memory { OnErr result ((ds es : List ℕ) → HasPart self.now T.bytes whole.now ds
            → HasPart self.now T.bytes fraction.now es
            → D.L < size (value_of_first whole.now.count (ds ++ es)).number) }
    {
        if whole.count + fraction.count <= WORD {
            let number = (whole.number << (4 * fraction.count)) + fraction.number;
            return UnsignedOver::from_bcd_digits(alloc, whole.count, fraction.count, number);
        }
        let mut value = zero_with_digits(alloc, whole.count);
        self.append_digits(&mut value, alloc, whole.count, 0, whole)?;
        self.append_digits(&mut value, alloc, whole.count, whole.count, fraction)?;
        Ok(value)
    }

    #[inline]
    pub(super) fn value<T: Input, D: DigitStore>(
        &self,
        alloc: Global,
        scanned: &Scanned<T>,
    ) -> Result<Signed<UnsignedOver<D>>, ParseError>
        requires readable { IsReadable self.now }
        requires scanned { (text : List ℕ) × (w : Numeral) × IsScan self.now T.bytes text scanned.now w }
        ensures { (text : List ℕ) (w : Numeral) → IsScan self.now T.bytes text scanned.now w → IsValueOf D.L w result }
    {
        let Scanned {
            sign,
            whole,
            fraction,
            is_strict: _,
        } = scanned;
        if whole.count > MAX_DIGITS || fraction.count > MAX_DIGITS {
            return Err(ParseError::Limit);
        }
        let absolute = self.absolute(alloc, whole, fraction)?;
        Ok(Signed::new(*sign, absolute))
    }
}
