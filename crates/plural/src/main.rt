//! `plural LOCALE[:TYPE] TEXT..` or `plural RULES TEXT..` prints the plural category of each text on a line.
//!
//! `plural 'one: i = 1 and v = 0' 1 1.0 1c6` prints `one`, `other` and `other`.
#![tactic(auto)]

use cli::plural::execute;
use std::process::ExitCode;

fn main(rt: HostRuntime) -> ExitCode {
    execute(rt)
}
