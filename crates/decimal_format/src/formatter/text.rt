//! The text of a formatted decimal.
ghost use Rattle.std.specs.{Prelude.{◌≡◌, ◌+◌, ◌*◌, ◌<◌, ◌≤◌, ◌<ℤ◌, ◌≤ℤ◌, ◌-◌, pos, [], ◌++◌, length, slice_index, EachIndex, OnOk, OnErr, true, false}, Int.int_gap, Io.KnownBytes.{Keeps, Appends}};
ghost use Rattle.decimal_digits.specs.AppendsPrefix.{AppendsPrefix};
ghost use Rattle.decimal_unsigned.specs.Unsigned.{IsValue};
ghost use Rattle.decimal_format.specs.{Blocks.{Fills, DoesNotFit}, Formatted.{shown_count, separator_before, separator_after, absolute_text, formatted_absolute_text, formatted_text}, Parts.{magnitude_of, part_text, AreDigits, IsRun, digits_text, run_text, separators_below}};

use super::short::{SHORT, SHORT_ROOM};
use super::{FormattedAbsolute, FormattedDecimal, grouping_if};
use crate::block::Block;
use crate::symbols::DecimalSymbols;
use fixed_decimal::{DigitStore, Sink, SinkFault, Writeable};

/// The greatest number of digits of a part, which is written to a block before it is put into the sink.
const PART: u32 = 32;

/// Digits with no separator between them: their number, and the separators before and after them, which may be empty.
#[derive(Clone, Copy)]
struct Run<'s> {
    count: u32,
    before: &'s str,
    after: &'s str,
}

fn write_digits<W: Sink>(
    symbols: &DecimalSymbols<'_>,
    digits: &[u8],
    sink: &mut W,
) -> Result<(), SinkFault>
    requires { EachIndex digits.now (λ k. (48 ≤ slice_index digits.now k) × (slice_index digits.now k < 58)) }
    ensures ok { OnOk result
        (Appends (W.contents sink.old) (W.contents sink.new) (digits_text symbols.now digits.now)) }
    ensures err { OnErr result
        (AppendsPrefix (W.contents sink.old) (W.contents sink.new) (digits_text symbols.now digits.now)) }
    ensures failed { OnErr result (W.has_failed sink.new ≡ true) }
{
    if symbols.has_ascii_digits() {
        return sink.put_bytes(digits);
    }
    for digit in digits {
        let mut buffer = [0; 4];
        let text = symbols.digit(*digit - b'0').encode_utf8(&mut buffer);
        sink.put_bytes(text.as_bytes())?;
    }
    Ok(())
}

impl<'f, D: DigitStore> FormattedAbsolute<'f, D> {
    #[inline]
    fn run_at(&self, below: u32, most: u32) -> Run<'_>
        requires some { 0 < most }
        requires shown { below + most ≤ shown_count self.now.value }
        ensures some { 0 < result.count }
        ensures at_most { result.count ≤ most }
        ensures run { IsRun self.now below result.count }
        ensures before { result.before.now ≡ separator_before self.now.symbols (magnitude_of self.now below) }
        ensures after { result.after.now ≡ separator_after self.now.symbols self.now.strategy self.now.value.hi
            (magnitude_of self.now (below + result.count - 1)) }
    {
        let magnitude = self.magnitude(below);
        if magnitude < 0 {
            let before = self.separator_before(below);
            return Run {
                count: most,
                before,
                after: "",
            };
        }
        let symbols = self.symbols;
        let (count, separated) = symbols.sizes().run_from(
            self.strategy,
            self.value.highest(),
            magnitude as u32,
            most,
        );
        let after = grouping_if(symbols, separated);
        Run {
            count,
            before: "",
            after,
        }
    }

    #[inline]
    fn write_run<W: Sink>(&self, run: Run<'_>, digits: &[u8], sink: &mut W) -> Result<(), SinkFault>
        requires { EachIndex digits.now (λ k. (48 ≤ slice_index digits.now k) × (slice_index digits.now k < 58)) }
        ensures ok { OnOk result (Appends (W.contents sink.old) (W.contents sink.new)
            (run_text self.now.symbols run.entry.before.now run.entry.after.now digits.now)) }
        ensures err { OnErr result (AppendsPrefix (W.contents sink.old) (W.contents sink.new)
            (run_text self.now.symbols run.entry.before.now run.entry.after.now digits.now)) }
        ensures failed { OnErr result (W.has_failed sink.new ≡ true) }
    {
        sink.put_bytes(run.before.as_bytes())?;
        write_digits(self.symbols, digits, sink)?;
        sink.put_bytes(run.after.as_bytes())
    }

    #[inline]
    fn copy_digits(&self, below: u32, buffer: &mut [u8])
        requires some { 0 < length buffer.old }
        requires shown { below + length buffer.old ≤ shown_count self.now.value }
        ensures { AreDigits self.now below buffer.new }
    {
        self.value.write_digits(self.magnitude(below), buffer);
    }

    fn write_part<W: Sink>(&self, below: u32, count: u32, sink: &mut W) -> Result<(), SinkFault>
        requires some { 0 < count }
        requires at_most { count ≤ 32 }
        requires shown { below + count ≤ shown_count self.now.value }
        requires in_limits { below + count ≤ 65536 }
        ensures ok { OnOk result
            (Appends (W.contents sink.old) (W.contents sink.new) (part_text self.now below count)) }
        ensures err { OnErr result
            (AppendsPrefix (W.contents sink.old) (W.contents sink.new) (part_text self.now below count)) }
        ensures failed { OnErr result (W.has_failed sink.new ≡ true) }
    {
        let mut buffer = [b'0'; PART as usize];
        let digits = &mut buffer[..count as usize];
        self.copy_digits(below, digits);
        let mut written = 0;
        while written < count {
            let run = self.run_at(below + written, count - written);
            let end = written + run.count;
            self.write_run(run, &digits[written as usize..end as usize], sink)?;
            written = end;
        }
        Ok(())
    }

    /// Appends the text of up to 32 magnitudes at once, if it fits a block.
    fn put_part<W: Sink>(&self, below: u32, count: u32, sink: &mut W) -> Result<(), SinkFault>
        requires some { 0 < count }
        requires at_most { count ≤ 32 }
        requires shown { below + count ≤ shown_count self.now.value }
        requires in_limits { below + count ≤ 65536 }
        ensures ok { OnOk result
            (Appends (W.contents sink.old) (W.contents sink.new) (part_text self.now below count)) }
        ensures err { OnErr result
            (AppendsPrefix (W.contents sink.old) (W.contents sink.new) (part_text self.now below count)) }
        ensures failed { OnErr result (W.has_failed sink.new ≡ true) }
    {
        let mut block = Block::new();
        match self.write_part(below, count, &mut block) {
            Ok(()) => sink.put_bytes(block.as_bytes()),
            Err(SinkFault) => self.write_part(below, count, sink),
        }
    }

    #[inline]
    fn put_absolute(&self, block: &mut Block) -> Result<(), SinkFault>
        requires { shown_count self.now.value ≤ 32 }
        ensures ok { OnOk result (block.new.0
            ≡ block.old.0 ++ absolute_text self.now.symbols self.now.strategy self.now.value) }
        ensures err { OnErr result (Fills block.old block.new
            (absolute_text self.now.symbols self.now.strategy self.now.value)) }
    {
        let count = self.shown_count();
        if count <= SHORT && block.has_room(SHORT_ROOM) && self.has_short_separators() {
            self.push_digits(block);
            return Ok(());
        }
        match self.write_part(0, count, block) {
            Ok(()) => Ok(()),
            Err(SinkFault) => {
                // Proof hint: a block that has failed is full.
                let _bytes = block.as_bytes();
                Err(SinkFault)
            }
        }
    }

    fn write_absolute<W: Sink>(&self, sink: &mut W) -> Result<(), SinkFault>
        ensures ok { OnOk result (Appends (W.contents sink.old) (W.contents sink.new)
            (absolute_text self.now.symbols self.now.strategy self.now.value)) }
        ensures err { OnErr result (AppendsPrefix (W.contents sink.old) (W.contents sink.new)
            (absolute_text self.now.symbols self.now.strategy self.now.value)) }
        ensures failed { OnErr result (W.has_failed sink.new ≡ true) }
    {
        let count = self.shown_count();
        let mut written = 0;
        while written < count {
            let part = PART.min(count - written);
            self.put_part(written, part, sink)?;
            written += part;
        }
        Ok(())
    }
}

impl<'f, D: DigitStore> FormattedAbsolute<'f, D> {
    fn fraction_separator(&self) -> &str
        ensures fraction { self.now.value.lo <ℤ pos 0 → result.now ≡ self.now.symbols.decimal }
        ensures whole { pos 0 ≤ℤ self.now.value.lo → result.now ≡ [] }
        ensures at_most { length result.now ≤ 255 }
        ensures valid { IsValue self.now.value }
    {
        if self.value.lowest() < 0 {
            self.symbols.decimal_separator()
        } else {
            ""
        }
    }

    fn separators_length(&self) -> usize
        ensures value { result ≡ separators_below self.now.strategy self.now.symbols.sizes self.now.value.hi
            (int_gap (pos 0) self.now.value.hi + 1) * length self.now.symbols.grouping }
        ensures at_most { result ≤ 8355840 }
    {
        let symbols = self.symbols;
        let count = symbols
            .sizes()
            .separator_count(self.strategy, self.value.highest());
        count as usize * symbols.grouping_separator().len()
    }
}

impl<'f, D: DigitStore> Writeable for FormattedAbsolute<'f, D> {
    ghost text = { formatted_absolute_text };

    /// Appends the text: the digits of the locale with its separators, without a sign.
    ///
    /// # Errors
    ///
    /// As [`Writeable::write_to`].
    fn write_to<W: Sink>(&self, sink: &mut W) -> Result<(), SinkFault> {
        if sink.failed() {
            return Err(SinkFault);
        }
        if self.shown_count() <= PART {
            let mut block = Block::new();
            if let Ok(()) = self.put_absolute(&mut block) {
                return sink.put_bytes(block.as_bytes());
            }
        }
        self.write_absolute(sink)
    }

    /// Returns the exact number of bytes of the text, in constant time: 11 for `1,234,567.5`.
    fn writeable_length_hint(&self) -> usize
        ensures value { result ≡ length (formatted_absolute_text self.now) }
        ensures at_most { result ≤ 8618239 }
    {
        let digits = self.shown_count() as usize * self.symbols.digit_width();
        digits + self.separators_length() + self.fraction_separator().len()
    }
}

/// Appends the text without the sign, if it fits the block and has at most 32 digits.
///
/// # Errors
///
/// - There are more than 32 digits; the block is unchanged.
/// - The text does not fit, or the block has failed before; the block is full.
#[inline]
pub fn put_to_block<D: DigitStore>(
    number: &FormattedAbsolute<'_, D>,
    block: &mut Block,
) -> Result<(), SinkFault>
    ensures ok { OnOk result (block.new.0 ≡ block.old.0 ++ formatted_absolute_text number.now) }
    ensures err { OnErr result (DoesNotFit number.now block.old block.new) }
{
    if number.shown_count() > PART {
        return Err(SinkFault);
    }
    number.put_absolute(block)
}

impl<'f, D: DigitStore> FormattedDecimal<'f, D> {
    #[inline]
    fn write_short(&self, block: &mut Block) -> Result<(), SinkFault>
        requires { shown_count self.now.value.absolute ≤ 32 }
        ensures { OnOk result (block.new.0 ≡ block.old.0 ++ formatted_text self.now) }
    {
        block.put_bytes(self.prefix().as_bytes())?;
        self.absolute.put_absolute(block)?;
        block.put_bytes(self.suffix().as_bytes())
    }
}

impl<'f, D: DigitStore> Writeable for FormattedDecimal<'f, D> {
    ghost text = { formatted_text };

    /// Appends the text: the digits of the locale with its separators, between the prefix and the suffix of the sign.
    ///
    /// # Errors
    ///
    /// As [`Writeable::write_to`].
    fn write_to<W: Sink>(&self, sink: &mut W) -> Result<(), SinkFault> {
        if self.absolute.shown_count() <= PART {
            let mut block = Block::new();
            if let Ok(()) = self.write_short(&mut block) {
                return sink.put_bytes(block.as_bytes());
            }
        }
        sink.put_bytes(self.prefix().as_bytes())?;
        self.absolute.write_absolute(sink)?;
        sink.put_bytes(self.suffix().as_bytes())
    }

    /// Returns the exact number of bytes of the text, in constant time: 12 for `-1,234,567.5`.
    fn writeable_length_hint(&self) -> usize
        ensures value { result ≡ length (formatted_text self.now) }
        ensures at_most { result ≤ 8618749 }
    {
        self.prefix().len() + self.absolute.writeable_length_hint() + self.suffix().len()
    }
}
