//! What no clause says of lists of digits: which lends its bytes, and that a count of accesses is no data.
use decimal_digits::digits::{DigitList, DigitStore, PackedDigits, Steps};
use std::alloc::Global;
use std::mem::size_of;

/// Whether the empty list lends its bytes.
fn lends<D: DigitStore>(alloc: Global) -> bool {
    D::empty(alloc).as_bcd().is_some()
}

pub fn hold(alloc: Global) -> bool {
    lends::<PackedDigits>(alloc) && !lends::<DigitList>(alloc) && size_of::<Steps>() == 0
}
