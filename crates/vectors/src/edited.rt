//! Calls on values with a sign and without, in place and by value, and the digits that they access.
use crate::calls::step;
use crate::runs;
use decimal_digits::digits::DigitStore;
use decimal_digits::rounding::RoundError;
use decimal_digits::rounding::RoundingIncrement::{self, MultiplesOf1, MultiplesOf25};
use decimal_unsigned::ConcatenateError;
use decimal_unsigned::decimal::UnsignedOver;
use fixed_decimal::{Call, Signed, SignedRoundingMode};
use std::alloc::{AllocError, Global};
use test_support::{
    Counting, CountingStore, Counts, RoundedResult, RoundingMethod, Value, all_hold, has_text,
    rounded, rounding_methods,
};

/// A value after a call, and whether the call was made or rejected, or was out of memory. `None`: there is no such
/// call, or its operand was not read.
type CallResult<T> = Option<(T, Result<bool, AllocError>)>;

/// A type of values on which calls are made.
pub trait Edited: Drop {
    /// Makes a call in a way.
    fn called(self, alloc: Global, method: RoundingMethod, call: Call<'_>) -> CallResult<Self>;
}

/// Whether calls are made in place.
fn is_in_place(method: RoundingMethod) -> bool {
    matches!(
        method,
        RoundingMethod::Counted
            | RoundingMethod::ByIncrement
            | RoundingMethod::ByMode
            | RoundingMethod::ByName
    )
}

/// Returns the result of a rounding.
fn of_rounding<T: Drop>(left: RoundedResult<T>) -> CallResult<T> {
    match left {
        Ok(value) => Some((value, Ok(true))),
        Err((value, RoundError::Limit)) => Some((value, Ok(false))),
        Err((value, RoundError::Memory)) => Some((value, Err(AllocError))),
    }
}

/// Makes an edit in place; `None` if the call is not an edit.
fn edited_in_place<D: DigitStore>(
    value: UnsignedOver<D>,
    call: Call<'_>,
) -> CallResult<UnsignedOver<D>> {
    let mut value = value;
    let mut is_made = true;
    match call {
        Call::MultiplyPow10(delta) => is_made = value.multiply_pow10(delta).is_ok(),
        Call::TrimStart => value.trim_start(),
        Call::TrimEnd => value.trim_end(),
        Call::TrimEndIfInteger => value.trim_end_if_integer(),
        Call::PadStart(position) => value.pad_start(position),
        Call::PadEnd(position) => value.pad_end(position),
        Call::SetMaxPosition(position) => value.set_max_position(position),
        _ => return None,
    }
    Some((value, Ok(is_made)))
}

/// Makes an edit by value.
fn edited_by_value<D: DigitStore>(
    value: UnsignedOver<D>,
    call: Call<'_>,
) -> CallResult<UnsignedOver<D>> {
    let value = match call {
        Call::MultiplyPow10(delta) => match value.multiplied_pow10(delta) {
            Ok(value) => value,
            Err(value) => return Some((value, Ok(false))),
        },
        Call::TrimStart => value.trimmed_start(),
        Call::TrimEnd => value.trimmed_end(),
        Call::TrimEndIfInteger => value.trimmed_end_if_integer(),
        Call::PadStart(position) => value.padded_start(position),
        Call::PadEnd(position) => value.padded_end(position),
        Call::SetMaxPosition(position) => value.with_max_position(position),
        _ => return None,
    };
    Some((value, Ok(true)))
}

/// A concatenation, or the error with both values.
type Joined<T> = Result<T, ConcatenateError<(T, T)>>;

/// Concatenates by value, or in place, and returns the values that this leaves.
fn concatenated<D: DigitStore>(
    value: UnsignedOver<D>,
    other: UnsignedOver<D>,
    method: RoundingMethod,
) -> Joined<UnsignedOver<D>> {
    if !is_in_place(method) {
        return value.concatenated_end(other);
    }
    let mut value = value;
    match value.concatenate_end(other) {
        Ok(()) => Ok(value),
        Err(ConcatenateError::Overlap(other)) => Err(ConcatenateError::Overlap((value, other))),
        Err(ConcatenateError::Memory(other)) => Err(ConcatenateError::Memory((value, other))),
    }
}

/// Returns the result of a concatenation that failed: it counts as one that was made, if it returns another number than
/// that of a text.
fn not_joined<D: DigitStore>(
    value: UnsignedOver<D>,
    other: UnsignedOver<D>,
    text: &str,
    is_made: Result<bool, AllocError>,
) -> CallResult<UnsignedOver<D>> {
    if has_text(&other, text) {
        Some((value, is_made))
    } else {
        Some((value, Ok(true)))
    }
}

/// Concatenates the number of a text.
fn joined<D: DigitStore>(
    alloc: Global,
    value: UnsignedOver<D>,
    method: RoundingMethod,
    operand: &[u8],
) -> CallResult<UnsignedOver<D>> {
    let text = str::from_utf8(operand).ok()?;
    let other = UnsignedOver::<D>::try_from_utf8(alloc, operand).ok()?;
    match concatenated(value, other, method) {
        Ok(value) => Some((value, Ok(true))),
        Err(ConcatenateError::Overlap((value, other))) => not_joined(value, other, text, Ok(false)),
        Err(ConcatenateError::Memory((value, other))) => {
            not_joined(value, other, text, Err(AllocError))
        }
    }
}

impl<D: DigitStore> Edited for UnsignedOver<D> {
    fn called(self, alloc: Global, method: RoundingMethod, call: Call<'_>) -> CallResult<Self> {
        match call {
            Call::Round(position, SignedRoundingMode::Unsigned(mode), increment) => {
                of_rounding(rounded(self, method, (position, mode, increment)))
            }
            Call::Concatenate(operand) => joined(alloc, self, method, operand),
            _ if is_in_place(method) => edited_in_place(self, call),
            _ => edited_by_value(self, call),
        }
    }
}

/// Sets the sign in place, by a sign or by a display; `None` if the call is another one.
fn set_sign<D: DigitStore>(
    value: Signed<UnsignedOver<D>>,
    call: Call<'_>,
) -> CallResult<Signed<UnsignedOver<D>>> {
    let mut value = value;
    match call {
        Call::SetSign(sign) => value.set_sign(sign),
        Call::ApplySignDisplay(display) => value.apply_sign_display(display),
        _ => return None,
    }
    Some((value, Ok(true)))
}

impl<D: DigitStore> Edited for Signed<UnsignedOver<D>> {
    fn called(self, alloc: Global, method: RoundingMethod, call: Call<'_>) -> CallResult<Self> {
        match call {
            Call::Round(position, mode, increment) => {
                of_rounding(rounded(self, method, (position, mode, increment)))
            }
            Call::SetSign(_) | Call::ApplySignDisplay(_) if is_in_place(method) => {
                set_sign(self, call)
            }
            Call::SetSign(sign) => Some((self.with_sign(sign), Ok(true))),
            Call::ApplySignDisplay(display) => Some((self.with_sign_display(display), Ok(true))),
            _ => {
                let Signed { sign, absolute } = self;
                let (absolute, is_made) = absolute.called(alloc, method, call)?;
                Some((Signed { sign, absolute }, is_made))
            }
        }
    }
}

/// The ways to make a call that does not round.
const EDITS: &[RoundingMethod] = &[
    RoundingMethod::ByIncrement,
    RoundingMethod::ByIncrementOnValue,
];

/// Returns the ways to make calls: if each rounding is to multiples of 1, all those of a rounding.
fn methods_of(words: &str) -> &'static [RoundingMethod] {
    let mut found = EDITS;
    for word in words.split(',') {
        if let Some((Call::Round(_, _, increment), _)) = step(word) {
            if increment != MultiplesOf1 {
                return rounding_methods(increment);
            }
            found = rounding_methods(increment);
        }
    }
    found
}

/// Returns a value after a call, and whether it was made or rejected. One that is out of memory is made again, on the
/// value that it left.
fn left_by<T: Edited>(
    alloc: Global,
    value: T,
    method: RoundingMethod,
    call: Call<'_>,
) -> Option<(T, bool)> {
    let (value, is_made) = match value.called(alloc, method, call)? {
        (value, Err(AllocError)) => value.called(alloc, method, call)?,
        made => made,
    };
    Some((value, is_made.ok()?))
}

/// Whether a value has a text after calls, and each was made or rejected as it has to be.
fn leaves_by<T: Value + Edited>(
    alloc: Global,
    value: T,
    method: RoundingMethod,
    (words, all_rejected): (&str, bool),
    wanted: &str,
) -> Option<bool> {
    let (mut value, mut is_right) = (value, true);
    for word in words.split(',') {
        let (call, is_rejected) = step(word)?;
        let (next, is_made) = left_by(alloc, value, method, call)?;
        is_right &= is_made != (is_rejected | all_rejected);
        value = next;
    }
    Some(is_right & has_text(&value, wanted))
}

/// Whether a value has a text after calls, in each way; `!` if each of them is rejected.
fn leaves<T: Value + Edited>(
    alloc: Global,
    start: &str,
    words: &str,
    wanted: &str,
) -> Option<bool> {
    let value = T::read(alloc, start).ok()?;
    let all_rejected = wanted == "!";
    let wanted = if all_rejected { start } else { wanted };
    let mut all = true;
    for method in methods_of(words) {
        let copy = value.copy().ok()?;
        all &= leaves_by(alloc, copy, *method, (words, all_rejected), wanted)?;
    }
    Some(all)
}

/// Whether a rounding of a list of `length` digits stays within its bounds: it accesses at most `length` + 7 digits,
/// those counted that it leaves, or exactly as many as the row says, and allocates by 25 only.
fn rounds_within<S: CountingStore>(
    store: &S,
    increment: RoundingIncrement,
    (length, exact): (usize, Option<usize>),
    is_made: bool,
) -> bool {
    let left = if is_made { store.len() } else { 0 };
    let requests = if increment == MultiplesOf25 { 1 } else { 0 };
    match store.accessed() {
        Some(accessed) => {
            (accessed == exact.unwrap_or(accessed))
                & (accessed.saturating_add(left) <= length.saturating_add(7))
                & (store.allocations() <= requests)
        }
        None => false,
    }
}

/// Whether a concatenation to a list of `length` digits stays within its bounds: to 0 it moves the other list, which
/// was made by one call that may allocate; where it adds no digit, or is rejected, it does not allocate.
fn joins_within<S: CountingStore>(store: &S, length: usize, is_made: bool) -> bool {
    if is_made && length == 0 {
        return store.accessed().is_none() & (store.allocations() <= 1);
    }
    (is_made && store.len() > length) || store.has_not_allocated()
}

/// Whether a call on a list of a number of digits stays within its bounds: an edit does not allocate.
fn is_within<S: CountingStore>(
    store: &S,
    call: Call<'_>,
    counts: (usize, Option<usize>),
    is_made: bool,
) -> bool {
    match call {
        Call::Round(_, _, increment) => rounds_within(store, increment, counts, is_made),
        Call::Concatenate(_) => joins_within(store, counts.0, is_made),
        _ => store.has_not_allocated(),
    }
}

/// Whether two values are equal, unless the comparison makes a call that may allocate.
fn equals_in_place<T: Value + Counts>(left: &T, right: &T) -> Option<bool> {
    left.counted().restart();
    right.counted().restart();
    let is_equal = left.equals(right);
    if left.counted().has_not_allocated() & right.counted().has_not_allocated() {
        Some(is_equal)
    } else {
        None
    }
}

/// The number of digits for which a call gets memory: none, if it is rejected or must not allocate.
fn memory_of(call: Call<'_>, is_rejected: bool, count: &str) -> usize {
    match call {
        Call::Round(_, _, MultiplesOf25) | Call::Concatenate(_)
            if !is_rejected && count != "in place" => usize::MAX,
        _ => 0,
    }
}

/// A call, the number of digits for which it gets memory, and the number of digits that it accesses, if a row says it.
type Limits<'a> = (Call<'a>, usize, Option<usize>);

/// Whether a call on a value stays within its bounds in a way, and comparisons with its copies do not allocate.
fn call_stays_within<T: Value + Edited + Counts>(
    alloc: Global,
    value: &T,
    method: RoundingMethod,
    (call, memory, exact): Limits<'_>,
) -> Option<bool> {
    let copy = value.copy().ok()?;
    let is_copy = equals_in_place(&copy, value)?;
    let length = copy.counted().len();
    copy.counted().bound(memory);
    copy.counted().restart();
    let (left, is_made) = copy.called(alloc, method, call)?;
    let is_within = is_within(left.counted(), call, (length, exact), is_made.ok()?);
    Some(is_copy & is_within & equals_in_place(&left, value).is_some())
}

/// The same in each way.
fn calls_stay_within<T: Value + Edited + Counts>(
    alloc: Global,
    value: &T,
    methods: &[RoundingMethod],
    limits: Limits<'_>,
) -> Option<bool> {
    let mut all = true;
    for method in methods {
        all &= call_stays_within(alloc, value, *method, limits)?;
    }
    Some(all)
}

/// Whether a call that is the only one of a row stays within its bounds in each way.
fn stays_within<T: Value + Edited + Counts>(
    alloc: Global,
    start: &str,
    words: &str,
    (wanted, count): (&str, &str),
) -> Option<bool> {
    if words.contains(',') {
        return Some(true);
    }
    let (call, is_rejected) = step(words)?;
    let memory = memory_of(call, is_rejected | (wanted == "!"), count);
    let limits = (call, memory, count.parse().ok());
    let value = T::read(alloc, start).ok()?;
    calls_stay_within(alloc, &value, methods_of(words), limits)
}

/// Whether a text has a sign.
pub fn has_sign(text: &str) -> bool {
    text.starts_with(['-', '+'])
}

/// Whether calls need a value with a sign.
fn needs_sign(start: &str, words: &str) -> bool {
    for word in words.split(',') {
        match step(word) {
            Some((Call::Round(_, SignedRoundingMode::Unsigned(_), _), _)) => {}
            Some((Call::Round(_, _, _) | Call::SetSign(_) | Call::ApplySignDisplay(_), _)) => {
                return true;
            }
            _ => {}
        }
    }
    has_sign(start)
}

/// A row: the text and the calls, and the text that is wanted and a count.
type Row<'a> = ((&'a str, &'a str), (&'a str, &'a str));

/// Whether a value over a store has a text after calls, with a sign, and without one if none is needed.
fn leave<D: DigitStore>(
    alloc: Global,
    ((start, words), (wanted, _)): Row<'_>,
    is_signed: bool,
) -> Option<bool> {
    let leaves_signed = leaves::<Signed<UnsignedOver<D>>>(alloc, start, words, wanted);
    if is_signed {
        return leaves_signed;
    }
    all_hold(&[
        leaves_signed,
        leaves::<UnsignedOver<D>>(alloc, start, words, wanted),
    ])
}

/// Whether the only call of a row stays within its bounds, with a sign, and without one if none is needed.
fn stay<S: CountingStore>(
    alloc: Global,
    ((start, words), expected): Row<'_>,
    is_signed: bool,
) -> Option<bool> {
    let signed_stays = stays_within::<Signed<UnsignedOver<S>>>(alloc, start, words, expected);
    if is_signed {
        return signed_stays;
    }
    all_hold(&[
        signed_stays,
        stays_within::<UnsignedOver<S>>(alloc, start, words, expected),
    ])
}

/// Whether a value over a store has a text after calls, in each way and in a run; `!` if each of them is rejected.
pub fn holds<D: DigitStore>(alloc: Global, row: Row<'_>) -> Option<bool> {
    let ((start, words), (wanted, _)) = row;
    let is_signed = needs_sign(start, words);
    let hold = all_hold(&[
        leave::<D>(alloc, row, is_signed),
        stay::<Counting<D>>(alloc, row, is_signed),
    ]);
    if words.contains('!') || wanted == "!" {
        return hold;
    }
    all_hold(&[hold, runs::has_outcome::<D>(alloc, start, words, wanted)])
}
