//! Long texts, written in parts.
use std::alloc::{AllocError, Global};

/// Splits a part into its text and its number of repetitions.
fn cut(part: &str) -> (&str, usize) {
    match part.split_once('*') {
        Some((text, count)) => (text, count.parse::<usize>().unwrap_or(0)),
        None => (part, 1),
    }
}

/// Returns the text of parts, which spaces separate: each is a text, or a text, a star and its number of repetitions.
///
/// `9*3 .5` is `999.5`. Err: out of memory.
pub fn expand_runs(alloc: Global, runs: &str) -> Result<String, AllocError> {
    let mut text = String::new(alloc);
    for part in runs.split(' ') {
        let (piece, count) = cut(part);
        text.push_str(piece.repeat(alloc, count)?.as_str())?;
    }
    Ok(text)
}
