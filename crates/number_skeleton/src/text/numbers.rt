//! Runs of a character, and numbers.
use std::alloc::AllocError;

pub(crate) fn push_run(text: &mut String, character: char, count: u32) -> Result<(), AllocError> {
    for _ in 0..count {
        text.push(character)?;
    }
    Ok(())
}

/// Appends the last digits of a number, at most four.
fn push_last_digits(text: &mut String, number: u16, count: u16) -> Result<(), AllocError> {
    for (place, digits) in [
        (4, number / 1000),
        (3, number / 100),
        (2, number / 10),
        (1, number),
    ] {
        if place <= count {
            text.push((b'0' + (digits % 10) as u8) as char)?;
        }
    }
    Ok(())
}

/// Appends a number without leading zeros.
pub(crate) fn push_number(text: &mut String, number: u16) -> Result<(), AllocError> {
    let count = match number {
        0..=9 => 1,
        10..=99 => 2,
        100..=999 => 3,
        1000..=9999 => 4,
        _ => {
            text.push((b'0' + (number / 10_000) as u8) as char)?;
            4
        }
    };
    push_last_digits(text, number, count)
}

/// Appends a number below 10,000 in units of the last of a number of fraction digits: `0.05` of 2 and 5.
pub(crate) fn push_decimal(text: &mut String, digits: u16, number: u16) -> Result<(), AllocError> {
    push_number(
        text,
        match digits {
            0 => number,
            1 => number / 10,
            2 => number / 100,
            3 => number / 1000,
            _ => 0,
        },
    )?;
    if digits == 0 {
        return Ok(());
    }
    text.push('.')?;
    push_run(text, '0', digits.saturating_sub(4) as u32)?;
    push_last_digits(text, number, digits)
}

/// Appends `100` or `0.01`.
pub(crate) fn push_power(text: &mut String, power: i16) -> Result<(), AllocError> {
    if power >= 0 {
        text.push('1')?;
        return push_run(text, '0', power.unsigned_abs() as u32);
    }
    text.push_str("0.")?;
    push_run(text, '0', (power.unsigned_abs() - 1) as u32)?;
    text.push('1')
}
