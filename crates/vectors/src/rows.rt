//! Rows by their kinds.
use crate::{checks, comparing, digits, edited, plural, reading, runs};
use fixed_decimal::{
    CompactDecimal, DigitList, DigitStore, FixedInteger, PackedDigits, ScientificDecimal,
};
use std::alloc::{AllocError, Global};
use test_support::{Counting, all_hold, expand_runs, named};

/// The kind of a row.
#[derive(Clone, Copy)]
pub enum Kind {
    Unsigned,
    Signed,
    Integer,
    Scientific,
    Compact,
    Decimal,
    Run,
    LimitedRun(usize),
    Order,
    DecimalPair,
    IntegerPair,
    ScientificPair,
    CompactPair,
    Integers,
    Digits,
    Plural,
    Rules,
    Accesses,
    Check,
}

const KINDS: &[(&str, Kind)] = &[
    ("unsigned", Kind::Unsigned),
    ("signed", Kind::Signed),
    ("integer", Kind::Integer),
    ("scientific", Kind::Scientific),
    ("compact", Kind::Compact),
    ("decimal", Kind::Decimal),
    ("run", Kind::Run),
    ("run 8", Kind::LimitedRun(8)),
    ("run 16", Kind::LimitedRun(16)),
    ("run 17", Kind::LimitedRun(17)),
    ("run 18", Kind::LimitedRun(18)),
    ("run 19", Kind::LimitedRun(19)),
    ("run 21", Kind::LimitedRun(21)),
    ("order", Kind::Order),
    ("pair decimal", Kind::DecimalPair),
    ("pair integer", Kind::IntegerPair),
    ("pair scientific", Kind::ScientificPair),
    ("pair compact", Kind::CompactPair),
    ("integers", Kind::Integers),
    ("digits", Kind::Digits),
    ("plural", Kind::Plural),
    ("rules", Kind::Rules),
    ("accesses", Kind::Accesses),
    ("check", Kind::Check),
];

/// Returns the text of a field, which is in parts if it has a star.
fn text_of(alloc: Global, field: &str) -> Result<String, AllocError> {
    if field.contains('*') {
        expand_runs(alloc, field)
    } else {
        String::from_str(alloc, field)
    }
}

/// A row: its kind, and three fields, the last of which may be empty.
type Row<'a> = (&'a str, &'a str, &'a str, &'a str);

/// Splits a row.
fn split(row: &str) -> Option<Row<'_>> {
    let (kind, fields) = row.split_once(" | ")?;
    let (first, fields) = fields.split_once(" | ")?;
    let (second, third) = fields.split_once(" | ").unwrap_or((fields, ""));
    Some((kind, first, second, third))
}

/// Whether the fields of a row of a kind hold over a store.
fn holds_over<D: DigitStore>(
    alloc: Global,
    kind: Kind,
    (first, second, third): (&str, &str, &str),
    count: &str,
) -> Option<bool> {
    match kind {
        Kind::Unsigned => reading::reads_unsigned::<D>(alloc, first, (second, third)),
        Kind::Signed => reading::reads_signed::<D>(alloc, first, (second, third)),
        Kind::Decimal => edited::holds::<D>(alloc, ((first, second), (third, count))),
        Kind::Run => runs::has_outcome::<D>(alloc, first, second, third),
        Kind::LimitedRun(most) => {
            runs::has_limited_outcome::<D>(alloc, most, (first, second), third)
        }
        Kind::Order => comparing::are_ordered::<D>(alloc, (first, second), third),
        Kind::DecimalPair => comparing::are_decimals::<D>(alloc, (first, second), third),
        Kind::Integers => digits::has_integers::<D>(alloc, first, second),
        Kind::Digits => digits::has_digits::<D>(alloc, first, second, third),
        Kind::Accesses => plural::accesses::<Counting<D>>(alloc, first, second, third),
        _ => None,
    }
}

/// Whether the fields of a row of a kind hold, over each store where the kind has one.
fn holds_by_kind(alloc: Global, kind: Kind, row: (&str, &str, &str), count: &str) -> Option<bool> {
    let (first, second, third) = row;
    match kind {
        Kind::Integer => reading::reads_integer(alloc, first, second),
        Kind::Scientific => reading::reads_scientific(alloc, first, (second, third)),
        Kind::Compact => reading::reads_compact(alloc, first, (second, third)),
        Kind::IntegerPair => comparing::is_pair::<FixedInteger>(alloc, (first, second), third),
        Kind::ScientificPair => {
            comparing::is_pair::<ScientificDecimal>(alloc, (first, second), third)
        }
        Kind::CompactPair => comparing::is_pair::<CompactDecimal>(alloc, (first, second), third),
        Kind::Plural => plural::take(alloc, first, second, third),
        Kind::Rules => plural::reads(alloc, first, (second, third)),
        Kind::Check => checks::hold(alloc, first),
        _ => all_hold(&[
            holds_over::<DigitList>(alloc, kind, row, count),
            holds_over::<PackedDigits>(alloc, kind, row, count),
        ]),
    }
}

/// Whether a row of a kind holds.
fn holds_as(alloc: Global, kind: Kind, (first, second, third): (&str, &str, &str)) -> Option<bool> {
    let (third, count) = match kind {
        Kind::Decimal => third.split_once(" | ").unwrap_or((third, "")),
        _ => (third, ""),
    };
    let first = text_of(alloc, first).ok()?;
    let second = text_of(alloc, second).ok()?;
    let third = text_of(alloc, third).ok()?;
    let fields = (first.as_str(), second.as_str(), third.as_str());
    holds_by_kind(alloc, kind, fields, count)
}

/// Whether a row holds, or does not if its kind begins with `not`.
pub fn holds(alloc: Global, row: &str) -> Option<bool> {
    let (word, first, second, third) = split(row)?;
    let kind = word.strip_prefix("not ").unwrap_or(word);
    let holds = holds_as(alloc, named(KINDS, kind)?, (first, second, third));
    if kind.len() == word.len() {
        holds
    } else {
        Some(holds != Some(true))
    }
}
