//! Texts of parts, one after another, and the destination of pieces.
ghost use Rattle.std.specs.{Prelude.{◌≡◌, ◌*◌, ◌<◌, ◌≤◌, ◌-ℤ◌, [], ◌∷◌, ◌++◌, length, List, Option, Bool, true, false, pos, OnOk, OnErr}, Fmt.WritesStyledOnOk, Io.KnownBytes.Appends};
ghost use Rattle.decimal_digits.specs.AppendsPrefix.{AppendsPrefix};
ghost use Rattle.decimal_format.specs.Formatted.{shown_count};
ghost use Rattle.number_format.specs.TextParts.{Piece, Puts, PutsPrefix, is_shown, is_whole, piece_of, pieces_of, pieces_to_end, trimmed_pieces, part_pieces, parts_pieces, parts_text, pieces_text, digit_if, digit_kind, magnitude_pieces, digit_pieces};

use crate::format::short_affixes::joined;
use crate::format::text_part::{PartKind, TextPart};
use crate::format::trimmed::{split_end, split_start};
use arrayvec::ArrayString;
use decimal_format::FormattedAbsolute;
use decimal_format::internal::Block;
use fixed_decimal::{DecimalStore, Sink, SinkFault};
use std::fmt;

#[inline(always)]
#[tactic(auto, using(crate::proofs::lemmas::format::PieceTexts::text_of))]
pub(crate) fn put_part(part: TextPart<'_>, block: &mut Block) -> Result<(), SinkFault>
    ensures { OnOk result (block.new.0 ≡ block.old.0 ++ pieces_text (part_pieces part.entry)) }
{
    // Most parts are empty: without this test a compact number takes a tenth longer.
    if part.text.is_empty() {
        return Ok(());
    }
    block.put_bytes(part.text.as_bytes())
}

pub(crate) fn push_parts(parts: &[TextPart<'_>], block: &mut Block) -> Result<(), SinkFault>
    ensures { OnOk result (block.new.0 ≡ block.old.0 ++ parts_text parts.now) }
{
    for part in parts {
        put_part(*part, block)?;
    }
    Ok(())
}

pub(crate) fn write_parts<W: Sink>(parts: &[TextPart<'_>], sink: &mut W) -> Result<(), SinkFault>
    ensures ok { OnOk result (Appends (W.contents sink.old) (W.contents sink.new) (parts_text parts.now)) }
    ensures err { OnErr result (AppendsPrefix (W.contents sink.old) (W.contents sink.new) (parts_text parts.now)) }
    ensures failed { OnErr result (W.has_failed sink.new ≡ true) }
{
    for part in parts {
        sink.put_bytes(part.text.as_bytes())?;
    }
    Ok(())
}

pub(crate) fn fmt_parts<W: fmt::Write>(
    parts: &[TextPart<'_>],
    f: &mut fmt::Formatter<W>,
) -> fmt::Result
    ensures { WritesStyledOnOk W.write_str_gives f.old result (parts_text parts.now) f.new }
{
    for part in parts {
        f.write_str(part.text)?;
    }
    Ok(())
}

pub(crate) fn parts_length(parts: &[TextPart<'_>]) -> usize
    requires { length parts.now ≤ 16 }
    ensures value { result ≡ length (parts_text parts.now) }
    ensures at_most { result ≤ 255 * length parts.now }
{
    let mut total = 0;
    for part in parts {
        total += part.text.len();
    }
    total
}

/// A destination of the pieces of the text of a number: consecutive pieces of one kind are one part.
///
/// The pieces of `1,234.5` are `1` of the kind `Integer`, `,` of `Group`, `234` of `Integer`, `.` of `Decimal` and `5`
/// of `Fraction`. A part may come in several pieces.
pub trait PartSink {
    /// Whether these may be the pieces that were put. Of a sink that keeps only their parts these are all pieces with
    /// these parts, and of a sink whose pieces are not observable any pieces.
    ghost pieces: { Self → List Piece → Type 0 };

    /// Whether the last piece was rejected.
    ghost has_failed: { Self → Bool };

    /// Puts a piece, which is not empty.
    ///
    /// # Errors
    ///
    /// The sink rejects the piece; the pieces that were put are unchanged.
    fn put(&mut self, kind: PartKind, text: &str) -> Result<(), SinkFault>
        ensures puts { OnOk result
            (Puts (pieces self.old) (pieces self.new) (record { kind = kind; text = text.now } ∷ [])) }
        ensures has_not_failed { OnOk result (has_failed self.new ≡ false) }
        ensures keeps { OnErr result (Puts (pieces self.old) (pieces self.new) []) }
        ensures failed { OnErr result (has_failed self.new ≡ true) };
}

fn put_piece<P: PartSink>(sink: &mut P, kind: PartKind, text: &str) -> Result<(), SinkFault>
    ensures ok { OnOk result (Puts (P.pieces sink.old) (P.pieces sink.new) (piece_of kind text.now)) }
    ensures err { OnErr result (PutsPrefix (P.pieces sink.old) (P.pieces sink.new) (piece_of kind text.now)) }
    ensures failed { OnErr result (P.has_failed sink.new ≡ true) }
{
    if text.is_empty() {
        return Ok(());
    }
    sink.put(kind, text)
}

fn put_to_end<P: PartSink>(sink: &mut P, kind: PartKind, text: &str) -> Result<(), SinkFault>
    ensures ok { OnOk result (Puts (P.pieces sink.old) (P.pieces sink.new) (pieces_to_end kind text.now)) }
    ensures err { OnErr result (PutsPrefix (P.pieces sink.old) (P.pieces sink.new) (pieces_to_end kind text.now)) }
    ensures failed { OnErr result (P.has_failed sink.new ≡ true) }
{
    let (kept, after) = split_end(text);
    put_piece(sink, kind, kept)?;
    put_piece(sink, PartKind::Literal, after)
}

fn put_trimmed<P: PartSink>(sink: &mut P, kind: PartKind, text: &str) -> Result<(), SinkFault>
    ensures ok { OnOk result (Puts (P.pieces sink.old) (P.pieces sink.new) (trimmed_pieces kind text.now)) }
    ensures err { OnErr result (PutsPrefix (P.pieces sink.old) (P.pieces sink.new) (trimmed_pieces kind text.now)) }
    ensures failed { OnErr result (P.has_failed sink.new ≡ true) }
{
    let (before, rest) = split_start(text);
    put_piece(sink, PartKind::Literal, before)?;
    put_to_end(sink, kind, rest)
}

fn is_whole(kind: PartKind) -> bool
    ensures { result ≡ is_whole kind }
{
    matches!(
        kind,
        PartKind::Integer
            | PartKind::Group
            | PartKind::Fraction
            | PartKind::Literal
            | PartKind::ExponentInteger
    )
}

pub(crate) fn put<P: PartSink>(sink: &mut P, kind: PartKind, text: &str) -> Result<(), SinkFault>
    ensures ok { OnOk result (Puts (P.pieces sink.old) (P.pieces sink.new) (pieces_of kind text.now)) }
    ensures err { OnErr result (PutsPrefix (P.pieces sink.old) (P.pieces sink.new) (pieces_of kind text.now)) }
    ensures failed { OnErr result (P.has_failed sink.new ≡ true) }
{
    if text.is_empty() {
        return Ok(());
    }
    if is_whole(kind) {
        return sink.put(kind, text);
    }
    put_trimmed(sink, kind, text)
}

pub(crate) fn put_parts<P: PartSink>(sink: &mut P, parts: &[TextPart<'_>]) -> Result<(), SinkFault>
    ensures ok { OnOk result (Puts (P.pieces sink.old) (P.pieces sink.new) (parts_pieces parts.now)) }
    ensures err { OnErr result (PutsPrefix (P.pieces sink.old) (P.pieces sink.new) (parts_pieces parts.now)) }
    ensures failed { OnErr result (P.has_failed sink.new ≡ true) }
{
    for part in parts {
        put(sink, part.kind, part.text)?;
    }
    Ok(())
}

/// Puts texts of one kind as one piece.
pub(crate) fn put_joined<P: PartSink>(
    sink: &mut P,
    kind: PartKind,
    texts: &[TextPart<'_>],
) -> Result<(), SinkFault>
    requires { length texts.now ≤ 10 }
    ensures ok { OnOk result (Puts (P.pieces sink.old) (P.pieces sink.new) (pieces_of kind (parts_text texts.now))) }
    ensures err { OnErr result
        (PutsPrefix (P.pieces sink.old) (P.pieces sink.new) (pieces_of kind (parts_text texts.now))) }
    ensures failed { OnErr result (P.has_failed sink.new ≡ true) }
{
    let text: ArrayString<2550> = joined(texts).unwrap();
    put(sink, kind, text.as_str())
}

fn digit_kind(whole: PartKind, magnitude: i16) -> PartKind
    ensures { result ≡ digit_kind whole magnitude }
{
    if magnitude < 0 {
        PartKind::Fraction
    } else {
        whole
    }
}

/// Returns whether the digit of a magnitude is shown, where integer digits may be hidden.
pub(crate) fn is_shown(is_hidden: bool, magnitude: i16) -> bool
    ensures { result ≡ is_shown is_hidden magnitude }
{
    if !is_hidden || magnitude < 0 {
        return true;
    }
    false
}

fn put_digit<P: PartSink>(
    digits: &FormattedAbsolute<'_, DecimalStore>,
    whole: PartKind,
    is_hidden: bool,
    below: u32,
    sink: &mut P,
) -> Result<(), SinkFault>
    requires { below < shown_count digits.now.value }
    ensures ok { OnOk result (Puts (P.pieces sink.old) (P.pieces sink.new)
        (pieces_of (digit_kind whole (digits.now.value.hi -ℤ pos below))
        (digit_if is_hidden digits.now.symbols digits.now.value.number (digits.now.value.hi -ℤ pos below)))) }
    ensures err { OnErr result (PutsPrefix (P.pieces sink.old) (P.pieces sink.new)
        (pieces_of (digit_kind whole (digits.now.value.hi -ℤ pos below))
        (digit_if is_hidden digits.now.symbols digits.now.value.number (digits.now.value.hi -ℤ pos below)))) }
    ensures failed { OnErr result (P.has_failed sink.new ≡ true) }
{
    let magnitude = digits.magnitude(below);
    if !is_shown(is_hidden, magnitude) {
        return Ok(());
    }
    let mut buffer = [0; 4];
    let digit = digits.digit(below).encode_utf8(&mut buffer);
    put(sink, digit_kind(whole, magnitude), digit)
}

fn put_magnitude<P: PartSink>(
    digits: &FormattedAbsolute<'_, DecimalStore>,
    whole: PartKind,
    is_hidden: bool,
    below: u32,
    sink: &mut P,
) -> Result<(), SinkFault>
    requires { below < shown_count digits.now.value }
    ensures ok { OnOk result (Puts (P.pieces sink.old) (P.pieces sink.new) (magnitude_pieces is_hidden whole
        digits.now.symbols digits.now.strategy digits.now.value (digits.now.value.hi -ℤ pos below))) }
    ensures err { OnErr result (PutsPrefix (P.pieces sink.old) (P.pieces sink.new) (magnitude_pieces is_hidden whole
        digits.now.symbols digits.now.strategy digits.now.value (digits.now.value.hi -ℤ pos below))) }
    ensures failed { OnErr result (P.has_failed sink.new ≡ true) }
{
    put(sink, PartKind::Decimal, digits.separator_before(below))?;
    put_digit(digits, whole, is_hidden, below, sink)?;
    put(sink, PartKind::Group, digits.separator_after(below))
}

/// Puts the digits, of which the integer digits may be hidden.
pub(crate) fn put_digits<P: PartSink>(
    digits: &FormattedAbsolute<'_, DecimalStore>,
    whole: PartKind,
    is_hidden: bool,
    sink: &mut P,
) -> Result<(), SinkFault>
    ensures ok { OnOk result (Puts (P.pieces sink.old) (P.pieces sink.new)
        (digit_pieces is_hidden whole digits.now.symbols digits.now.strategy digits.now.value)) }
    ensures err { OnErr result (PutsPrefix (P.pieces sink.old) (P.pieces sink.new)
        (digit_pieces is_hidden whole digits.now.symbols digits.now.strategy digits.now.value)) }
    ensures failed { OnErr result (P.has_failed sink.new ≡ true) }
{
    for below in 0..digits.shown_count() {
        put_magnitude(digits, whole, is_hidden, below, sink)?;
    }
    Ok(())
}
