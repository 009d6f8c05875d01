//! The order of two values, and which are equal.
use crate::edited::{Edited, has_sign};
use fixed_decimal::{Call, DigitList, DigitStore, Signed, UnsignedOver};
use std::alloc::Global;
use std::cmp::Ordering;
use test_support::{RoundingMethod, Value, all_hold, named};

/// Whether the values without a sign of two texts over two stores have an order, and the reverse one when exchanged.
fn have_unsigned_order<D: DigitStore, E: DigitStore>(
    alloc: Global,
    (left, right): (&str, &str),
    order: Ordering,
) -> Option<bool> {
    let left = UnsignedOver::<D>::try_from_str(alloc, left).ok()?;
    let right = UnsignedOver::<E>::try_from_str(alloc, right).ok()?;
    Some((left.compare(&right) == order) & (right.compare(&left) == order.reverse()))
}

/// The same of the decimals.
fn have_signed_order<D: DigitStore, E: DigitStore>(
    alloc: Global,
    (left, right): (&str, &str),
    order: Ordering,
) -> Option<bool> {
    let left = Signed::<UnsignedOver<D>>::try_from_str(alloc, left).ok()?;
    let right = Signed::<UnsignedOver<E>>::try_from_str(alloc, right).ok()?;
    Some((left.compare(&right) == order) & (right.compare(&left) == order.reverse()))
}

/// Whether one of two texts has a sign.
fn have_sign((left, right): (&str, &str)) -> bool {
    has_sign(left) | has_sign(right)
}

/// The same of the decimals, and if neither text has a sign of the values without one.
fn have_order<D: DigitStore, E: DigitStore>(
    alloc: Global,
    texts: (&str, &str),
    order: Ordering,
) -> Option<bool> {
    let have_signed = have_signed_order::<D, E>(alloc, texts, order);
    if have_sign(texts) {
        return have_signed;
    }
    all_hold(&[
        have_signed,
        have_unsigned_order::<D, E>(alloc, texts, order),
    ])
}

const ORDERS: &[(&str, Ordering)] = &[
    ("<", Ordering::Less),
    ("=", Ordering::Equal),
    (">", Ordering::Greater),
];

/// Whether the values of two texts have an order, both over a store, and one over it and the other over a list.
pub fn are_ordered<D: DigitStore>(alloc: Global, texts: (&str, &str), word: &str) -> Option<bool> {
    let order = named(ORDERS, word)?;
    all_hold(&[
        have_order::<D, D>(alloc, texts, order),
        have_order::<D, DigitList>(alloc, texts, order),
    ])
}

/// Words, and whether two values are equal, and are so after both trims.
const EQUALITIES: &[(&str, (bool, bool))] = &[
    ("equal", (true, true)),
    ("trimmed", (false, true)),
    ("different", (false, false)),
];

/// Whether the values of two texts are equal or different, as a word says.
pub fn is_pair<T: Value>(alloc: Global, (left, right): (&str, &str), word: &str) -> Option<bool> {
    let (is_equal, _) = named(EQUALITIES, word)?;
    let (left, right) = (T::read(alloc, left).ok()?, T::read(alloc, right).ok()?);
    Some(left.equals(&right) == is_equal)
}

/// A value after both trims.
fn trimmed<T: Edited>(alloc: Global, value: T) -> Option<T> {
    let (value, _) = value.called(alloc, RoundingMethod::ByIncrement, Call::TrimStart)?;
    let (value, _) = value.called(alloc, RoundingMethod::ByIncrement, Call::TrimEnd)?;
    Some(value)
}

/// Whether the values of two texts are equal or not, now and after both trims.
fn are_equal_trimmed<T: Value + Edited>(
    alloc: Global,
    (left, right): (&str, &str),
    equality: (bool, bool),
) -> Option<bool> {
    let (left, right) = (T::read(alloc, left).ok()?, T::read(alloc, right).ok()?);
    let is_right = left.equals(&right) == equality.0;
    let (left, right) = (trimmed(alloc, left)?, trimmed(alloc, right)?);
    Some(is_right & (left.equals(&right) == equality.1))
}

/// Whether two texts write decimals with the same text or not.
fn have_same_text<D: DigitStore>(
    alloc: Global,
    (left, right): (&str, &str),
    is_same: bool,
) -> Option<bool> {
    let left = Signed::<UnsignedOver<D>>::try_from_str(alloc, left).ok()?;
    let right = Signed::<UnsignedOver<D>>::try_from_str(alloc, right).ok()?;
    Some(left.has_same_text(&right) == is_same)
}

/// Whether the decimals of two texts over a store are as equal as a word says, now and after both trims, with a sign
/// and, where the texts have none, without one.
pub fn are_decimals<D: DigitStore>(alloc: Global, texts: (&str, &str), word: &str) -> Option<bool> {
    let equality = named(EQUALITIES, word)?;
    let are_signed = all_hold(&[
        have_same_text::<D>(alloc, texts, equality.0),
        are_equal_trimmed::<Signed<UnsignedOver<D>>>(alloc, texts, equality),
    ]);
    if have_sign(texts) {
        return are_signed;
    }
    all_hold(&[
        are_signed,
        are_equal_trimmed::<UnsignedOver<D>>(alloc, texts, equality),
    ])
}
