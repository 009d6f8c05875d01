//! Test doubles: a store that is out of memory beyond a bound, and counts its accesses; a sink and a writer that fail
//! after a number of bytes; traits over the types of values and their rounding calls; and long texts.
//!
//! The store, the sink and the writer do not allocate. Only tests, and programs that are tests, depend on this crate.
#![tactic(auto)]

mod counts;
mod digit_limit;
mod expected_text;
mod failing_writer;
mod limited_sink;
mod limited_store;
mod rounds;
mod rows;
mod runs;
mod value;

pub use counts::Counts;
pub use digit_limit::{
    DigitLimit, EightDigits, EighteenDigits, MaxDigits, NineteenDigits, SeventeenDigits,
    SixteenDigits, TwentyOneDigits,
};
pub use failing_writer::{FailingWriter, WriteFailure};
pub use limited_sink::{LimitedSink, displays, fails_without_room};
pub use limited_store::{Counting, CountingStore, LimitedStore};
pub use rounds::{RoundedResult, Rounding, RoundingMethod, Rounds, rounded, rounding_methods};
pub use rows::{all_hold, check_rows, named};
pub use runs::expand_runs;
pub use value::{Value, has_text, parse_outcome};
