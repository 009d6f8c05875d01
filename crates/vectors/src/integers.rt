//! Values made of integers.
use fixed_decimal::{DigitStore, FixedInteger, Signed, UnsignedOver};
use std::alloc::{AllocError, Global};
use std::str::FromStr;
use test_support::{Value, all_hold, has_text};

/// Returns the integer of a text, or 0 if the text is none of the type, and whether it is one.
fn integer_of<I: FromStr + Copy>(text: &str, zero: I) -> (I, bool)
where
    I::Err: Drop,
{
    let integer = text.parse::<I>().ok();
    (integer.unwrap_or(zero), integer.is_some())
}

/// Whether all before holds, and if a text is of the type of an integer, the value that was made of it has this text,
/// and equals the value that the text writes.
fn and_is_made<T: Value>(
    all: Option<bool>,
    alloc: Global,
    made: Result<T, AllocError>,
    (text, is_of_type): (&str, bool),
) -> Option<bool> {
    let value = made.ok()?;
    if !is_of_type {
        return all;
    }
    let is_value = has_text(&value, text) & value.equals(&T::read(alloc, text).ok()?);
    Some(all? & is_value)
}

/// Whether each call, of those that do not allocate and of others, makes the value of an integer, if it is of the type.
macro_rules! makes {
    ($alloc:expr, $text:expr, $value:ty, $($small:ident $integer:ty),*; $($call:ident $wide:ty),*) => {{
        let all = Some(true);
        $(
            let (integer, is_of_type) = integer_of::<$integer>($text, 0);
            let made = Ok(<$value>::$small($alloc, integer));
            let all = and_is_made(all, $alloc, made, ($text, is_of_type));
        )*
        $(
            let (integer, is_of_type) = integer_of::<$wide>($text, 0);
            let made = <$value>::$call($alloc, integer);
            let all = and_is_made(all, $alloc, made, ($text, is_of_type));
        )*
        all
    }};
}

/// Whether unsigned values are made of an integer.
fn makes_unsigned<D: DigitStore>(alloc: Global, text: &str) -> Option<bool> {
    makes!(alloc, text, UnsignedOver::<D>, from_u8 u8, from_u16 u16;
        try_from_u32 u32, try_from_u64 u64, try_from_u128 u128, try_from_usize usize)
}

/// Whether decimals are made of an integer.
fn makes_decimals<D: DigitStore>(alloc: Global, text: &str) -> Option<bool> {
    makes!(alloc, text, Signed::<UnsignedOver<D>>, from_u8 u8, from_i8 i8, from_u16 u16, from_i16 i16;
        try_from_u32 u32, try_from_i32 i32, try_from_u64 u64, try_from_i64 i64, try_from_u128 u128,
        try_from_i128 i128, try_from_usize usize, try_from_isize isize)
}

/// Whether fixed integers are made of an integer.
fn makes_integers(alloc: Global, text: &str) -> Option<bool> {
    makes!(alloc, text, FixedInteger, from_u8 u8, from_i8 i8, from_u16 u16, from_i16 i16;
        try_from_u32 u32, try_from_i32 i32, try_from_u64 u64, try_from_i64 i64, try_from_u128 u128,
        try_from_i128 i128, try_from_usize usize, try_from_isize isize)
}

/// Whether values of each type are made of an integer.
pub fn are_made<D: DigitStore>(alloc: Global, text: &str) -> Option<bool> {
    all_hold(&[
        makes_unsigned::<D>(alloc, text),
        makes_decimals::<D>(alloc, text),
        makes_integers(alloc, text),
    ])
}
