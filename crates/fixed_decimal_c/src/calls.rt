//! Calls, as C passes them.
ghost use Rattle.std.specs.Prelude.{◌≡◌, List, ℕ, ◌≤◌, ◌<◌, length, take, IfSome, IfNone, IfOk, IfErr, OnOk};
ghost use Rattle.fixed_decimal.specs.declared.{runs.Call.Call, rounding.SignedRoundingMode.SignedRoundingMode, variations.{Sign.Sign, SignDisplay.SignDisplay}};
ghost use Rattle.decimal_digits.specs.declared.rounding.RoundingIncrement.{RoundingIncrement};
ghost use Rattle.fixed_decimal_c.specs.Calls.{mode_code, increment_code, sign_code, display_code, IsPart, IsCall, AreCalls, calls_in, IsUnknown, DecodeFails, positioned, optional, fd_call_of};

use crate::error::FdError;
use fixed_decimal::{
    Call, RoundingIncrement, Sign, SignDisplay, SignedRoundingMode, UnsignedRoundingMode,
};
use std::alloc::Global;

/// The number of calls that a list holds without an allocation.
pub(crate) const INLINE_CALLS: usize = 8;

/// A call of a run, with its arguments. Arguments that the call does not have are ignored.
#[repr(C)]
#[derive(Clone, Copy)]
pub struct FdCall {
    /// The number of the call.
    pub kind: u8,
    /// The mode of a rounding, the sign, or the display of a sign.
    pub option: u8,
    /// The increment of a rounding: 1, 2, 5 or 25.
    pub increment: u8,
    /// The position, or the distance of a shift.
    pub position: i16,
    /// Where the operand of a concatenation begins in the texts.
    pub text_start: usize,
    /// The number of bytes of that operand.
    pub text_count: usize,
}

/// The call with all fields 0.
pub(crate) const NO_CALL: FdCall = FdCall {
    kind: 0,
    option: 0,
    increment: 0,
    position: 0,
    text_start: 0,
    text_count: 0,
};

/// Returns the mode of a rounding with this number.
pub(crate) fn mode(code: u8) -> Option<SignedRoundingMode>
    ensures some { IfSome result (λ m. code ≡ mode_code m) }
    ensures none { IfNone result ((m : SignedRoundingMode) → code ≡ mode_code m → ⊥) }
{
    match code {
        0 => Some(SignedRoundingMode::Ceil),
        1 => Some(SignedRoundingMode::Floor),
        2 => Some(SignedRoundingMode::Unsigned(UnsignedRoundingMode::Expand)),
        3 => Some(SignedRoundingMode::Unsigned(UnsignedRoundingMode::Trunc)),
        4 => Some(SignedRoundingMode::HalfCeil),
        5 => Some(SignedRoundingMode::HalfFloor),
        6 => Some(SignedRoundingMode::Unsigned(UnsignedRoundingMode::HalfExpand)),
        7 => Some(SignedRoundingMode::Unsigned(UnsignedRoundingMode::HalfTrunc)),
        8 => Some(SignedRoundingMode::Unsigned(UnsignedRoundingMode::HalfEven)),
        _ => None,
    }
}

/// Returns the increment of a rounding that is this number.
fn increment(code: u8) -> Option<RoundingIncrement>
    ensures some { IfSome result (λ i. code ≡ increment_code i) }
    ensures none { IfNone result ((i : RoundingIncrement) → code ≡ increment_code i → ⊥) }
{
    match code {
        1 => Some(RoundingIncrement::MultiplesOf1),
        2 => Some(RoundingIncrement::MultiplesOf2),
        5 => Some(RoundingIncrement::MultiplesOf5),
        25 => Some(RoundingIncrement::MultiplesOf25),
        _ => None,
    }
}

/// Returns the sign with this number.
fn sign(code: u8) -> Option<Sign>
    ensures some { IfSome result (λ s. code ≡ sign_code s) }
    ensures none { IfNone result ((s : Sign) → code ≡ sign_code s → ⊥) }
{
    match code {
        0 => Some(Sign::None),
        1 => Some(Sign::Negative),
        2 => Some(Sign::Positive),
        _ => None,
    }
}

/// Returns the display of a sign with this number.
pub(crate) fn display(code: u8) -> Option<SignDisplay>
    ensures some { IfSome result (λ d. code ≡ display_code d) }
    ensures none { IfNone result ((d : SignDisplay) → code ≡ display_code d → ⊥) }
{
    match code {
        0 => Some(SignDisplay::Auto),
        1 => Some(SignDisplay::Never),
        2 => Some(SignDisplay::Always),
        3 => Some(SignDisplay::ExceptZero),
        4 => Some(SignDisplay::Negative),
        _ => None,
    }
}

/// Returns a part of the texts.
pub(crate) fn part(texts: &[u8], start: usize, count: usize) -> Option<&[u8]>
    ensures some { IfSome result (λ t. IsPart texts.now start count t.now) }
    ensures none { IfNone result ((t : List ℕ) → IsPart texts.now start count t → ⊥) }
{
    if texts.len() < start || texts.len() - start < count {
        return None;
    }
    Some(&texts[start..start + count])
}

/// Returns the call that C passes.
fn decode<'t>(call: &FdCall, texts: &'t [u8]) -> Option<Call<'t>>
    ensures some { IfSome result (IsCall call.now texts.now) }
    ensures none { IfNone result ((c : Call) → IsCall call.now texts.now c → ⊥) }
{
    match call.kind {
        0 => Some(Call::MultiplyPow10(call.position)),
        1 => Some(Call::TrimStart),
        2 => Some(Call::TrimEnd),
        3 => Some(Call::TrimEndIfInteger),
        4 => Some(Call::PadStart(call.position)),
        5 => Some(Call::PadEnd(call.position)),
        6 => Some(Call::SetMaxPosition(call.position)),
        7 => match (mode(call.option), increment(call.increment)) {
            (Some(mode), Some(increment)) => Some(Call::Round(call.position, mode, increment)),
            _ => None,
        },
        8 => match sign(call.option) {
            Some(sign) => Some(Call::SetSign(sign)),
            None => None,
        },
        9 => match display(call.option) {
            Some(display) => Some(Call::ApplySignDisplay(display)),
            None => None,
        },
        10 => match part(texts, call.text_start, call.text_count) {
            Some(text) => Some(Call::Concatenate(text)),
            None => None,
        },
        _ => None,
    }
}

pub(crate) fn mode_code(mode: SignedRoundingMode) -> u8
    ensures { result ≡ mode_code mode }
{
    match mode {
        SignedRoundingMode::Ceil => 0,
        SignedRoundingMode::Floor => 1,
        SignedRoundingMode::Unsigned(UnsignedRoundingMode::Expand) => 2,
        SignedRoundingMode::Unsigned(UnsignedRoundingMode::Trunc) => 3,
        SignedRoundingMode::HalfCeil => 4,
        SignedRoundingMode::HalfFloor => 5,
        SignedRoundingMode::Unsigned(UnsignedRoundingMode::HalfExpand) => 6,
        SignedRoundingMode::Unsigned(UnsignedRoundingMode::HalfTrunc) => 7,
        SignedRoundingMode::Unsigned(UnsignedRoundingMode::HalfEven) => 8,
    }
}

fn increment_code(increment: RoundingIncrement) -> u8
    ensures { result ≡ increment_code increment }
{
    match increment {
        RoundingIncrement::MultiplesOf1 => 1,
        RoundingIncrement::MultiplesOf2 => 2,
        RoundingIncrement::MultiplesOf5 => 5,
        RoundingIncrement::MultiplesOf25 => 25,
    }
}

fn sign_code(sign: Sign) -> u8
    ensures { result ≡ sign_code sign }
{
    sign as u8
}

pub(crate) fn display_code(display: SignDisplay) -> u8
    ensures { result ≡ display_code display }
{
    display as u8
}

fn positioned(kind: u8, position: i16) -> FdCall
    ensures { result ≡ positioned kind position }
{
    FdCall {
        kind,
        position,
        ..NO_CALL
    }
}

fn optional(kind: u8, option: u8) -> FdCall
    ensures { result ≡ optional kind option }
{
    FdCall {
        kind,
        option,
        ..NO_CALL
    }
}

/// Returns the call as C passes it, with the word `concat:..` of a concatenation as the texts.
pub(crate) fn encode_call(call: Call) -> FdCall
    ensures { result ≡ fd_call_of call.entry }
{
    match call {
        Call::MultiplyPow10(distance) => positioned(0, distance),
        Call::TrimStart => optional(1, 0),
        Call::TrimEnd => optional(2, 0),
        Call::TrimEndIfInteger => optional(3, 0),
        Call::PadStart(position) => positioned(4, position),
        Call::PadEnd(position) => positioned(5, position),
        Call::SetMaxPosition(position) => positioned(6, position),
        Call::Round(position, mode, increment) => FdCall {
            kind: 7,
            option: mode_code(mode),
            increment: increment_code(increment),
            position,
            ..NO_CALL
        },
        Call::SetSign(sign) => optional(8, sign_code(sign)),
        Call::ApplySignDisplay(display) => optional(9, display_code(display)),
        Call::Concatenate(text) => FdCall {
            kind: 10,
            text_start: "concat:".len(),
            text_count: text.len(),
            ..NO_CALL
        },
    }
}

/// Decodes up to eight calls, into the first of a list.
fn decode_short<'t>(
    calls: &[FdCall],
    texts: &'t [u8],
    list: &mut [Call<'t>; INLINE_CALLS],
) -> Result<(), FdError>
    requires { length calls.now ≤ 8 }
    ensures ok { OnOk result (AreCalls calls.now texts.now (take (length calls.now) list.new)) }
    ensures room { length list.new ≡ 8 }
    ensures err { IfErr result (λ error. IsUnknown error calls.now texts.now) }
{
    for (at, call) in calls.iter().enumerate() {
        match decode(call, texts) {
            Some(call) => list[at] = call,
            None => return Err(FdError::UnknownCall { at }),
        }
    }
    Ok(())
}

/// Decodes more than eight calls.
fn decode_long<'t>(
    alloc: Global,
    calls: &[FdCall],
    texts: &'t [u8],
) -> Result<Vec<Call<'t>>, FdError>
    requires { 8 < length calls.now }
    ensures ok { IfOk result (λ list. AreCalls calls.now texts.now list.items) }
    ensures err { IfErr result (λ error. DecodeFails error calls.now texts.now) }
{
    let Ok(mut list) = Vec::with_capacity(alloc, calls.len()) else {
        return Err(FdError::Memory);
    };
    for (at, call) in calls.iter().enumerate() {
        let Some(call) = decode(call, texts) else {
            return Err(FdError::UnknownCall { at });
        };
        list.push_reserved(call);
    }
    Ok(list)
}

/// Decodes the calls that C passes: up to eight into the first of a list, and more into a list in memory.
#[inline]
pub(crate) fn decode_calls<'t>(
    alloc: Global,
    calls: &[FdCall],
    texts: &'t [u8],
    short: &mut [Call<'t>; INLINE_CALLS],
) -> Result<Option<Vec<Call<'t>>>, FdError>
    ensures ok { IfOk result
        (λ long. AreCalls calls.now texts.now (calls_in long (take (length calls.now) short.new))) }
    ensures room { length short.new ≡ 8 }
    ensures err { IfErr result (λ error. DecodeFails error calls.now texts.now) }
{
    if calls.len() > INLINE_CALLS {
        let list = decode_long(alloc, calls, texts)?;
        return Ok(Some(list));
    }
    decode_short(calls, texts, short)?;
    Ok(None)
}

/// Returns the calls in memory, or else the first of the others.
#[inline]
pub(crate) fn calls_in<'l, 't>(
    long: &'l Option<Vec<Call<'t>>>,
    short: &'l [Call<'t>],
    count: usize,
) -> &'l [Call<'t>]
    ensures { result.now ≡ calls_in long.now (take count short.now) }
{
    match long {
        Some(calls) => calls.as_slice(),
        None => &short[..count.min(short.len())],
    }
}
