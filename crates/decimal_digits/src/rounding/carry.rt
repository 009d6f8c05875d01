//! The two passes over the end of a list. Both stop at the first digit that is kept, so for each access but the last a
//! digit is removed. If adding one exceeds the limit, no digit is removed, and each one is read at most once.
ghost use Rattle.std.specs.Prelude.{◌≡◌, ℕ, ◌+◌, ◌^◌, ◌<◌, ◌≤◌, [], ◌∷◌, length, slice_index, IfSome, IfNone};
ghost use Rattle.decimal_digits.specs.Counted.{list_of, accesses_of, Continues, OnlyReads};
ghost use Rattle.decimal_digits.specs.Digits.{IsStripped};
ghost use Rattle.decimal_digits.specs.Remainders.{leading};

use crate::digits::{Counted, DigitStore};

#[inline(never)]
pub fn strip_trailing_zeros<D: DigitStore>(counted: &mut Counted<'_, D>)
    requires { 0 < slice_index (D.digits (list_of counted.old)) 0 }
    ensures value { let places = length (D.digits (list_of counted.old)) in
        leading places (D.digits (list_of counted.new)) ≡ leading places (D.digits (list_of counted.old)) }
    ensures length { length (D.digits (list_of counted.new)) ≤ length (D.digits (list_of counted.old)) }
    ensures some { 0 < length (D.digits (list_of counted.new)) }
    ensures stripped { IsStripped (D.digits (list_of counted.new)) }
    ensures accesses { accesses_of counted.new + length (D.digits (list_of counted.new))
        ≤ accesses_of counted.old + length (D.digits (list_of counted.old)) + 1 }
    ensures borrows { Continues counted.old counted.new }
{
    let len = counted.len();
    let zeros = counted.count_trailing(len, 0);
    counted.truncate(len - zeros);
}

// The first digit is overwritten: to clear the list and append a digit takes longer.
#[inline]
pub fn replace_by_digit<D: DigitStore>(counted: &mut Counted<'_, D>, digit: u8)
    requires { digit < 10 }
    ensures digits { D.digits (list_of counted.new) ≡ digit ∷ [] }
    ensures accesses { accesses_of counted.new ≡ accesses_of counted.old + 1 }
    ensures borrows { Continues counted.old counted.new }
{
    if counted.len() == 0 {
        counted.push_in_room(digit);
    } else {
        counted.truncate(1);
        counted.set(0, digit);
    }
}

#[inline]
pub fn carry_out<D: DigitStore>(
    counted: &mut Counted<'_, D>,
    places: usize,
    max_places: usize,
) -> Option<usize>
    requires nines { (k : ℕ) → k < places → slice_index (D.digits (list_of counted.old)) k ≡ 9 }
    requires fits { places ≤ max_places }
    requires bounded { max_places ≤ 65536 }
    ensures value { IfSome result (λ new. leading new (D.digits (list_of counted.new))
        ≡ leading places (D.digits (list_of counted.old)) + 1) }
    ensures max_places { IfSome result (λ new. new ≤ max_places) }
    ensures length { IfSome result (λ new. length (D.digits (list_of counted.new)) ≤ new) }
    ensures stripped { IfSome result (λ new. IsStripped (D.digits (list_of counted.new))) }
    ensures accesses { IfSome result (λ new. accesses_of counted.new + length (D.digits (list_of counted.new))
        ≤ accesses_of counted.old + 2) }
    ensures full { IfNone result (10 ^ max_places ≤ leading places (D.digits (list_of counted.old)) + 1) }
    ensures reads { IfNone result (OnlyReads 0 counted.old counted.new) }
    ensures borrows { Continues counted.old counted.new }
{
    if places == max_places {
        return None;
    }
    replace_by_digit(counted, 1);
    Some(places + 1)
}

pub fn add_one<D: DigitStore>(
    counted: &mut Counted<'_, D>,
    places: usize,
    max_places: usize,
) -> Option<usize>
    requires within { places ≤ length (D.digits (list_of counted.old)) }
    requires fits { places ≤ max_places }
    requires bounded { max_places ≤ 65536 }
    requires front { 0 < slice_index (D.digits (list_of counted.old)) 0 }
    ensures value { IfSome result (λ new. leading new (D.digits (list_of counted.new))
        ≡ leading places (D.digits (list_of counted.old)) + 1) }
    ensures max_places { IfSome result (λ new. new ≤ max_places) }
    ensures length { IfSome result (λ new. length (D.digits (list_of counted.new)) ≤ new) }
    ensures stripped { IfSome result (λ new. IsStripped (D.digits (list_of counted.new))) }
    ensures accesses { IfSome result (λ new. accesses_of counted.new + length (D.digits (list_of counted.new))
        ≤ accesses_of counted.old + places + 3) }
    ensures full { IfNone result (10 ^ max_places ≤ leading places (D.digits (list_of counted.old)) + 1) }
    ensures reads { IfNone result (OnlyReads places counted.old counted.new) }
    ensures borrows { Continues counted.old counted.new }
{
    let nines = counted.count_trailing(places, 9);
    if nines == places {
        return carry_out(counted, places, max_places);
    }
    let last = places - nines - 1;
    let digit = counted.get(last);
    counted.truncate(places - nines);
    counted.set(last, digit + 1);
    Some(places)
}
