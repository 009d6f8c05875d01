//! What is no row of texts: how often writers are called, texts of errors, and orders.
use std::alloc::Global;

mod errors;
mod modes;
mod sinks;
mod stores;

/// Whether the check of a name holds; `None` if there is none, or it is out of memory.
pub fn hold(alloc: Global, name: &str) -> Option<bool> {
    match name {
        "errors" => Some(errors::are_displayed()),
        "modes" => Some(modes::are_ordered()),
        "sinks" => sinks::hold(alloc),
        "stores" => Some(stores::hold(alloc)),
        _ => None,
    }
}
