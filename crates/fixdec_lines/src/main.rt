//! `fixdec_lines [OPTION].. [read:LOCALE] [CALL].. [format:LOCALE]` makes the same calls on each line of standard
//! input, or on a field of it.
//!
//! `printf '250\n7\n' | fixdec_lines shift:-2` prints `2.50` and `0.07`.
#![tactic(auto)]

use cli::fixdec_lines::execute;
use std::process::ExitCode;

fn main(rt: HostRuntime) -> ExitCode {
    execute(rt)
}
