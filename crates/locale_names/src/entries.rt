//! Runs of entries, as the tables have them.
ghost use Rattle.std.specs.{Prelude.{◌≡◌, ℕ}, Option.option_copied};
ghost use Rattle.locale_names.specs.Entries.{kind_of, entries_in, entry_of, entry_for, run_in};

use plural_rules::PluralCategory;

/// An entry of a table: a number, whose last three bits are its kind.
pub(crate) trait Entry {
    ghost number: { Self → ℕ };

    fn number(&self) -> u64
        ensures { result ≡ number self.now };
}

impl Entry for u32 {
    ghost number = { λ entry. entry };

    fn number(&self) -> u64 {
        *self as u64
    }
}

impl Entry for u64 {
    ghost number = { λ entry. entry };

    fn number(&self) -> u64 {
        *self
    }
}

/// The kind of the pattern of a unit after `per`.
pub(crate) const PER: u64 = 6;

pub(crate) fn kind_of(category: PluralCategory) -> u64
    ensures { result ≡ kind_of category }
{
    match category {
        PluralCategory::Other => 0,
        PluralCategory::Zero => 1,
        PluralCategory::One => 2,
        PluralCategory::Two => 3,
        PluralCategory::Few => 4,
        PluralCategory::Many => 5,
    }
}

/// Returns the entries of a run, as far as the table goes.
pub(crate) fn entries_in<E>(table: &[E], run: u32) -> &[E]
    ensures { result.now ≡ entries_in table.now run }
{
    let rest = &table[table.len().min((run / 8) as usize)..];
    &rest[..rest.len().min((run % 8) as usize)]
}

/// Returns the entry of a kind.
pub(crate) fn entry_of<E: Entry>(entries: &[E], kind: u64) -> Option<&E>
    ensures { option_copied result ≡ entry_of E.number kind entries.now }
{
    for entry in entries {
        if entry.number() % 8 == kind {
            return Some(entry);
        }
    }
    None
}

/// Returns the entry of a category, or else that of `other`.
pub(crate) fn entry_for<E: Entry>(entries: &[E], category: PluralCategory) -> Option<&E>
    ensures { option_copied result ≡ entry_for E.number category entries.now }
{
    entry_of(entries, kind_of(category)).or(entry_of(entries, 0))
}

/// Returns the run with an index, and one without entries where there is none.
pub(crate) fn run_in(runs: &[u32], index: usize) -> u32
    ensures { result ≡ run_in runs.now index }
{
    match runs.get(index) {
        Some(run) => *run,
        None => 0,
    }
}
