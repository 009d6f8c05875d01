//! `fixdec TEXT [to:END] [read:LOCALE] [CALL].. [format:LOCALE]` reads a decimal, makes the calls in order, and prints
//! the result, or the range to another decimal.
//!
//! `fixdec 250 shift:-2` prints `2.50`.
#![tactic(auto)]

use cli::fixdec::execute;
use std::process::ExitCode;

fn main(rt: HostRuntime) -> ExitCode {
    execute(rt)
}
