//! Checks test vectors over every store of digits: texts, calls, and their expected results.
//!
//! Each line of standard input is a row of fields with ` | ` between them. Blank lines, and lines that start with `#`
//! and have no tab, are not rows. Each row that fails is printed with its line number; the last line counts the rows.
//!
//! The rows are in `rows/`, in a file for each kind. The file `stdin` has all of them. To add a row, write it into a
//! file of `rows/`, run `cat crates/vectors/rows/* > crates/vectors/stdin`, and raise the count in `stdout`. Rows of
//! numbers in locales are in `tests/rows`, and `tests/rows.py` checks them.
//!
//! ```text
//! unsigned | TEXT | RESULT                  TEXT is read as a value that prints RESULT, or fails with
//! unsigned | TEXT | RESULT | MAGNITUDES     `syntax` or `limit`. MAGNITUDES: the highest shown, the first and
//!                                           the last digit that is not 0, the lowest shown; `zero` for 0.
//! signed | TEXT | RESULT [| SIGN]           SIGN: `none`, `minus` or `plus`.
//! integer | TEXT | RESULT
//! compact | TEXT | RESULT [| PARTS]         PARTS: the significand and the exponent.
//! scientific | TEXT | RESULT [| PARTS]
//! decimal | TEXT | CALLS | RESULT [| COUNT] The calls, in place and by value. `!` after a call: it is rejected
//!                                           and changes nothing. RESULT `!`: so is each of them. COUNT: the
//!                                           number of digits accessed, or `in place` if it allocates nothing.
//! run | TEXT | CALLS | RESULT               RESULT: a text, or an error, as `start: syntax`, `call 0: overlap`.
//! run 16 | TEXT | CALLS | RESULT            With memory for 16 digits: 8, 16, 17, 18, 19 or 21.
//! order | TEXT | TEXT | ORDER               ORDER: `<`, `=` or `>`.
//! pair KIND | TEXT | TEXT | EQUALITY        EQUALITY: `equal`, `trimmed` (after both trims) or `different`.
//! integers | TEXT | U64 I64 U128 I128       Each an integer, of which values are made, or the error: `range`, `whole`.
//! digits | TEXT | MAGNITUDE | DIGITS        The digits from the magnitude down.
//! plural | RULES | CATEGORY | SAMPLES       The plural category of each sample, as CLDR writes rules and samples.
//! rules | TEXT | RESULT [| OFFSET]          TEXT is `read` as plural rules, or fails with `syntax` or `limit`.
//! accesses | RULES | TEXT | COUNT           The number of digits accessed to find the category.
//! check | NAME | WHAT                       What is no row of texts, by its name in the module `checks`.
//! ```
//!
//! Runs that write a text are made once more into sinks with room for a prefix of it, which have to take the prefix.
//!
//! Rows of `decimal`, `order`, `pair decimal` and `integers` are checked on values with a sign, and where their texts
//! have none on values without one too. Roundings are made by each call that makes them, and the digits that a single
//! call accesses are counted; one that is rejected or does not allocate gets no memory. The calls are those of
//! `fixdec`, separated by commas. A field with a `*` is written in parts, separated by spaces: `9*3 .5` is `999.5`. A
//! line with `*N` is a row for each length up to 200, and for each hundredth up to 5,000; one with the mode `each` is a
//! row for each mode, with a result for each. A row whose kind begins with `not`, as `not run`, has a wrong result, and
//! holds where the check rejects it.
#![tactic(auto)]

mod calls;
mod checks;
mod comparing;
mod digits;
mod edited;
mod integers;
mod plural;
mod reading;
mod rows;
mod runs;

use calls::MODES;
use std::alloc::Global;
use std::process::ExitCode;
use test_support::check_rows;

/// Lines that are a row for each mode, and for each length.
const REPEATED: &[(&str, u32)] = &[(":each:", 9), ("*N", 248)];

/// Returns the lengths for `*N`: each up to 200, and then each hundredth up to 5,000.
fn length(index: u32) -> u32 {
    if index < 200 {
        index.saturating_add(1)
    } else {
        index.saturating_sub(197).saturating_mul(100)
    }
}

/// Returns the row of a line with a length.
fn of_length(alloc: Global, line: &str, length: u32) -> Option<String> {
    let length = format!(in alloc; "*{length}").ok()?;
    line.replace(alloc, "*N", length.as_str()).ok()
}

/// Returns the row of a mode, of the text before the mode, and the text after it.
fn of_mode(alloc: Global, (front, back): (&str, &str), index: u32) -> Option<String> {
    let (increment, results) = back.split_once(" | ")?;
    let (mode, _) = MODES.get(index as usize)?;
    let result = results.split(" | ").nth(index as usize)?;
    format!(in alloc; "{front}:{mode}:{increment} | {result}").ok()
}

/// Whether a row of a line holds.
fn holds(alloc: Global, line: &str, index: u32) -> Option<bool> {
    let row = match line.split_once(":each:") {
        Some(parts) => of_mode(alloc, parts, index)?,
        None => of_length(alloc, line, length(index))?,
    };
    rows::holds(alloc, row.as_str())
}

fn main(rt: HostRuntime) -> ExitCode {
    check_rows(
        &rt,
        REPEATED,
        |alloc, line, index| holds(alloc, line, index),
    )
}
