//! Whole runs.
use crate::calls::calls;
use fixed_decimal::{Call, DigitStore, ParseError, RunError, Sink, TextBuf, run, run_over};
use std::alloc::{AllocError, Global};
use test_support::{
    Counting, DigitLimit, EightDigits, EighteenDigits, LimitedSink, LimitedStore, NineteenDigits,
    SeventeenDigits, SixteenDigits, TwentyOneDigits, all_hold,
};

/// Returns the word of an error of a text.
fn parse_word(error: &ParseError) -> &'static str {
    match error {
        ParseError::Limit => "limit",
        ParseError::Syntax => "syntax",
        ParseError::Memory => "memory",
    }
}

/// Returns the words of an error.
fn words_of(alloc: Global, error: &RunError) -> Result<String, AllocError> {
    let (at, word) = match error {
        RunError::Start(fault) => {
            let word = parse_word(fault);
            return format!(in alloc; "start: {word}");
        }
        RunError::Operand { at, fault } => (*at, parse_word(fault)),
        RunError::Overlap { at } => (*at, "overlap"),
        RunError::Limit { at } => (*at, "overflow"),
        RunError::Memory { at } => (*at, "memory"),
        RunError::Sink => return format!(in alloc; "sink"),
    };
    format!(in alloc; "call {at}: {word}")
}

/// Whether an error has these words; `None` if it is one of memory that has others.
fn is_error(alloc: Global, error: &RunError, wanted: &str) -> Option<bool> {
    let words = words_of(alloc, error).ok()?;
    let is_same = words.as_str() == wanted;
    if !is_same && words.as_str().ends_with("memory") {
        return None;
    }
    Some(is_same)
}

/// Whether a run over a store writes a text, or writes nothing and fails with the error of the text. It fails with the
/// sink, which has room for `room` bytes and takes these, if the text has more.
fn has_outcome_over<D: DigitStore>(
    alloc: Global,
    (start, calls): (&str, &[Call<'_>]),
    wanted: &str,
    room: usize,
) -> Option<bool> {
    let mut sink = LimitedSink::new(wanted.as_bytes(), room);
    match run_over::<D, LimitedSink<'_>>(alloc, start.as_bytes(), calls, &mut sink) {
        Ok(()) => Some(sink.has_all()),
        Err(RunError::Sink) => Some((room < wanted.len()) & sink.failed() & sink.has_taken(room)),
        Err(error) if sink.has_taken(0) & !sink.failed() => is_error(alloc, &error, wanted),
        Err(_) => Some(false),
    }
}

/// The same over a store that is out of memory for more than `M` digits.
fn has_outcome_within<D: DigitStore, M: DigitLimit>(
    alloc: Global,
    (start, words): (&str, &str),
    wanted: &str,
) -> Option<bool> {
    let calls = calls(alloc, words)?;
    has_outcome_over::<LimitedStore<D, M>>(alloc, (start, calls.as_slice()), wanted, usize::MAX)
}

/// The same over a store that is out of memory for more than `most` digits, if it keeps fewer in place.
pub fn has_limited_outcome<D: DigitStore>(
    alloc: Global,
    most: usize,
    run: (&str, &str),
    wanted: &str,
) -> Option<bool> {
    match most {
        _ if most < D::L => Some(true),
        8 => has_outcome_within::<D, EightDigits>(alloc, run, wanted),
        16 => has_outcome_within::<D, SixteenDigits>(alloc, run, wanted),
        17 => has_outcome_within::<D, SeventeenDigits>(alloc, run, wanted),
        18 => has_outcome_within::<D, EighteenDigits>(alloc, run, wanted),
        19 => has_outcome_within::<D, NineteenDigits>(alloc, run, wanted),
        21 => has_outcome_within::<D, TwentyOneDigits>(alloc, run, wanted),
        _ => None,
    }
}

/// Whether a sink that cannot grow has failed: it keeps a prefix of a text, and takes nothing more.
fn has_failed(sink: &mut TextBuf, text: &str) -> bool {
    let length = sink.as_bytes().len();
    let takes_nothing = sink.put_byte(b'x').is_err() & sink.put_bytes(b"").is_err();
    let is_kept = (sink.as_bytes().len() == length) & text.as_bytes().starts_with(sink.as_bytes());
    sink.failed() & takes_nothing & is_kept
}

/// The same into a sink in memory; `None` if the sink fails as it has to.
fn has_outcome_in_memory(
    alloc: Global,
    (start, calls): (&str, &[Call<'_>]),
    wanted: &str,
) -> Option<bool> {
    let mut sink = TextBuf::new(alloc);
    match run(alloc, start.as_bytes(), calls, &mut sink) {
        Ok(()) => Some(!sink.failed() & (sink.as_bytes() == wanted.as_bytes())),
        Err(RunError::Sink) if has_failed(&mut sink, wanted) => None,
        Err(error) if sink.as_bytes().is_empty() & !sink.failed() => {
            is_error(alloc, &error, wanted)
        }
        Err(_) => Some(false),
    }
}

/// The same into sinks with room for a prefix of the text: for each one, or of a long text for some.
fn has_outcome_without_room<D: DigitStore>(
    alloc: Global,
    run: (&str, &[Call<'_>]),
    wanted: &str,
) -> Option<bool> {
    for room in (0..wanted.len()).step_by(wanted.len() / 16 + 1) {
        if !has_outcome_over::<D>(alloc, run, wanted, room)? {
            return Some(false);
        }
    }
    Some(true)
}

/// The same into a sink in memory, over a store and over one that counts, and into sinks without room for the text.
pub fn has_outcome<D: DigitStore>(
    alloc: Global,
    start: &str,
    words: &str,
    wanted: &str,
) -> Option<bool> {
    let calls = calls(alloc, words)?;
    let run = (start, calls.as_slice());
    all_hold(&[
        has_outcome_in_memory(alloc, run, wanted),
        has_outcome_over::<D>(alloc, run, wanted, usize::MAX),
        has_outcome_over::<Counting<D>>(alloc, run, wanted, usize::MAX),
        has_outcome_without_room::<D>(alloc, run, wanted),
    ])
}
