//! Skeletons that options are printed as.
use number_format::NumberOptions;
use number_skeleton::SkeletonError;
use std::alloc::{AllocError, Global};

/// Returns the text of a skeleton without escapes and repetitions.
fn expanded(alloc: Global, escaped: &str) -> Result<String, AllocError> {
    let mut text = String::new(alloc);
    for part in escaped.split('«') {
        let (repeated, rest) = part.split_once('»').unwrap_or(("*1", part));
        let (piece, count) = repeated.rsplit_once('*').unwrap_or((repeated, "1"));
        text.push_str(piece.repeat(alloc, count.parse().unwrap_or(1))?.as_str())?;
        for character in rest.chars() {
            text.push(match character {
                '␉' => '\t',
                '␊' => '\n',
                '␍' => '\r',
                _ => character,
            })?;
        }
    }
    Ok(text)
}

/// Whether the options of a skeleton are printed as a skeleton, and as the one that is expected after a `>`.
fn is_printed(alloc: Global, options: &NumberOptions, expected: &str) -> Option<bool> {
    let printed = number_skeleton::to_skeleton(options, alloc).ok()??;
    match expected.strip_prefix('>') {
        Some(normal) => Some(printed.as_str() == expanded(alloc, normal).ok()?.as_str()),
        None => Some(expected.contains('=')),
    }
}

/// Whether the options of a skeleton are printed, or the stem is named that is not supported. `tests/rows.py` checks
/// which options these are, and where an error is.
pub fn holds(alloc: Global, skeleton: &str, expected: &str) -> Option<bool> {
    let skeleton = expanded(alloc, skeleton).ok()?;
    match number_skeleton::parse(skeleton.as_str()) {
        Ok(options) => is_printed(alloc, &options, expected),
        Err(SkeletonError::Syntax { at: _ }) => Some(expected.starts_with("syntax ")),
        Err(SkeletonError::Unsupported { start, end }) => {
            let Some(stem) = expected.strip_prefix("unsupported ") else {
                return Some(expected.starts_with('='));
            };
            let stem = expanded(alloc, stem).ok()?;
            Some(skeleton.as_str().get(start..end) == Some(stem.as_str()))
        }
    }
}
