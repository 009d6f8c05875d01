//! Tables of rows on standard input, and of words.
use std::alloc::Global;
use std::io;
use std::process::ExitCode;

/// Returns the value of a word in a table.
pub fn named<T: Copy>(table: &[(&str, T)], word: &str) -> Option<T> {
    for (name, value) in table {
        if *name == word {
            return Some(*value);
        }
    }
    None
}

/// Whether all parts of a row hold: `Some(false)` if one does not, otherwise `None` if a call of one failed.
pub fn all_hold(parts: &[Option<bool>]) -> Option<bool> {
    let mut all = Some(true);
    for part in parts {
        match part {
            Some(true) => {}
            Some(false) => return Some(false),
            None => all = None,
        }
    }
    all
}

/// Returns the number of rows of a line: none if it is blank, or starts with `#` and has no tab; else that of the first
/// text of a table that it contains, or 1.
fn rows_of(line: &str, repeated: &[(&str, u32)]) -> u32 {
    if line.is_empty() || (line.starts_with('#') && !line.contains('\t')) {
        return 0;
    }
    for (text, count) in repeated {
        if line.contains(*text) {
            return *count;
        }
    }
    1
}

/// Whether a row holds; one with a call that should not have failed is checked once more.
fn row_holds<F: Fn(Global, &str, u32) -> Option<bool>>(
    alloc: Global,
    line: &str,
    row: u32,
    holds: &F,
) -> bool
    requires { F.IsAlwaysCallable holds.now }
{
    match holds(alloc, line, row) {
        Some(is_held) => is_held,
        None => holds(alloc, line, row) == Some(true),
    }
}

/// Prints a row that fails.
fn report<R: Print>(rt: &R, index: usize, row: u32, line: &str) {
    let _ = println!(rt; "line {}, row {row}: {line}", index.saturating_add(1));
}

/// Prints the numbers of rows, and returns the status.
fn conclude<R: Print>(rt: &R, hold: u64, fail: u64) -> ExitCode {
    if println!(rt; "{hold} rows hold, {fail} fail").is_ok() && fail == 0 {
        ExitCode::SUCCESS
    } else {
        ExitCode::FAILURE
    }
}

/// Prints the rows of a text that fail, with their line numbers, and in a last line the numbers of rows.
fn check_lines<R: AllocGlobal + Print, F: Fn(Global, &str, u32) -> Option<bool>>(
    rt: &R,
    text: &str,
    repeated: &[(&str, u32)],
    holds: &F,
) -> ExitCode
    requires { F.IsAlwaysCallable holds.now }
{
    let (mut hold, mut fail) = (0u64, 0u64);
    for (index, line) in text.lines().enumerate() {
        for row in 0..rows_of(line, repeated) {
            if row_holds(rt.alloc(), line, row, holds) {
                hold = hold.saturating_add(1);
            } else {
                fail = fail.saturating_add(1);
                report(rt, index, row, line);
            }
        }
    }
    conclude(rt, hold, fail)
}

/// Checks the rows of each line of standard input: by the table `repeated` lines with a text are a number of rows, and
/// the others one.
///
/// `holds` returns for a line and a 0-based index whether the row holds, and `None` if a call failed that should not
/// have, as where it is out of memory: such a row is checked once more, and then fails unless it holds.
pub fn check_rows<R: AllocGlobal + Print + Input, F: Fn(Global, &str, u32) -> Option<bool>>(
    rt: &R,
    repeated: &[(&str, u32)],
    holds: F,
) -> ExitCode
    requires { F.IsAlwaysCallable holds }
{
    match io::read_to_string(rt.alloc(), rt.reader()) {
        Ok(text) => check_lines(rt, text.as_str(), repeated, &holds),
        Err(_) => ExitCode::FAILURE,
    }
}
