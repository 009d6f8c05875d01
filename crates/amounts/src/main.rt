//! Reads amounts in cents, a line each, and prints them as Switzerland writes amounts in francs.
#![tactic(auto)]

use decimal_format::{DecimalFormatter, GroupingStrategy};
use fixed_decimal::Decimal;
use locale_data::locale;
use std::alloc::Global;
use std::io;

/// Reads a number of cents, and rounds it half-even to a whole cent: `-1999.5` becomes `-20.00`.
fn amount(alloc: Global, cents: &str) -> Option<Decimal> {
    let mut amount = Decimal::try_from_str(alloc, cents).ok()?;
    amount.multiply_pow10(-2).ok()?;
    amount.round(-2).ok()?;
    Some(amount)
}

fn main(rt: HostRuntime) -> io::Result<()> {
    let Some(symbols) = locale("de-CH") else {
        return eprintln!(rt; "unknown locale");
    };
    let formatter = DecimalFormatter::new(symbols, GroupingStrategy::Auto);
    for line in rt.lines(rt.alloc()) {
        match amount(rt.alloc(), line?.as_str()) {
            Some(amount) => println!(rt; "{}", formatter.format(&amount))?,
            None => println!(rt; "not a number of cents")?,
        }
    }
    Ok(())
}
