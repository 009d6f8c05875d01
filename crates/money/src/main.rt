//! Prints an amount of money as Germany writes it: `1.234,57 €`.
#![tactic(auto)]

use number_format::{CurrencyCode, Decimal, NumberFormatter, NumberOptions};
use std::alloc::Global;
use std::io;

/// Writes an amount in euros, rounded to a cent, half away from zero.
fn amount(alloc: Global, number: &str) -> Option<String> {
    let euro = CurrencyCode::try_from_str("EUR").ok()?;
    let formatter = NumberFormatter::try_new("de", NumberOptions::currency(euro)).ok()?;
    let number = Decimal::try_from_str(alloc, number).ok()?;
    let amount = formatter.format(alloc, number).ok()?;
    format!(in alloc; "{amount}").ok()
}

fn main(rt: HostRuntime) -> io::Result<()> {
    match amount(rt.alloc(), "1234.565") {
        Some(amount) => println!(rt; "{amount}"),
        None => eprintln!(rt; "no amount"),
    }
}
