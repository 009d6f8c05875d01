//! A list of digits whose accesses are counted.
ghost use Rattle.std.specs.Prelude.{◌≡◌, ℕ, ◌+◌, ◌-◌, ◌<◌, ◌≤◌, ◌≢◌, ◌↔◌, min, [], ◌∷◌, ◌++◌, length, take, slice_index, slice_set, IsOk, IsTrue, OnOk};
ghost use Rattle.decimal_digits.specs.Counted.{list_of, accesses_of, Borrows, Continues};

use super::{DigitStore, Steps};
use std::alloc::AllocError;

/// A borrowed list of digits, with the `Steps` that count its digit accesses.
///
/// `get`, `set` and `push_in_room` are one digit access each, and `count_trailing` is one for each digit that it reads.
/// The other calls pass no digit to or from the list, and are not counted. What the list does inside a call is not
/// counted either. The list and the count are changed in place. Contracts see the list, the accesses so far, and that
/// both are still those that were borrowed.
///
/// ```
/// let mut steps = Steps::new();
/// let mut counted = Counted::new(&mut digits, &mut steps);
/// counted.set(0, 7); // one digit access
/// ```
#[derive(Drop)]
pub struct Counted<'a, D: DigitStore> {
    list: &'a mut D,
    steps: &'a mut Steps,
}

impl<'a, D: DigitStore> Counted<'a, D> {
    /// Borrows a list and a count, and changes neither.
    pub fn new(list: &'a mut D, steps: &'a mut Steps) -> Self
        ensures list { list_of result ≡ list.old }
        ensures accesses { accesses_of result ≡ steps.old.count }
        ensures borrows { Borrows list.entry steps.entry result }
    {
        Counted { list, steps }
    }

    /// Returns the number of digits.
    #[inline]
    pub fn len(&self) -> usize
        ensures { result ≡ length (D.digits (list_of self.now)) }
    {
        self.list.len()
    }

    /// Returns the digit at an index: one digit access.
    ///
    /// Requires `index < len()`.
    #[inline]
    pub fn get(&mut self, index: usize) -> u8
        requires { index < length (D.digits (list_of self.old)) }
        ensures value { result ≡ slice_index (D.digits (list_of self.old)) index }
        ensures list { list_of self.new ≡ list_of self.old }
        ensures accesses { accesses_of self.new ≡ accesses_of self.old + 1 }
        ensures borrows { Continues self.old self.new }
    {
        self.steps.tick();
        self.list.get(index)
    }

    /// Counts the digits equal to `digit` at the end of the first `count`: one access for each digit that is read.
    ///
    /// Requires `count <= len()`. The first other digit from the end is read too.
    #[inline]
    pub fn count_trailing(&mut self, count: usize, digit: u8) -> usize
        requires { count ≤ length (D.digits (list_of self.old)) }
        ensures within { result ≤ count }
        ensures equal { (k : ℕ) → count ≤ k + result → k < count
            → slice_index (D.digits (list_of self.old)) k ≡ digit }
        ensures maximal { result < count
            → slice_index (D.digits (list_of self.old)) (count - result - 1) ≢ digit }
        ensures list { list_of self.new ≡ list_of self.old }
        ensures accesses { accesses_of self.new ≡ accesses_of self.old + min (result + 1) count }
        ensures borrows { Continues self.old self.new }
    {
        let equal = self.list.count_trailing(count, digit);
        let read = if equal < count { equal + 1 } else { count };
        self.steps.tick_by(read);
        equal
    }

    /// Replaces the digit at an index: one digit access.
    ///
    /// Requires `index < len()` and a digit 0 to 9.
    #[inline]
    pub fn set(&mut self, index: usize, digit: u8)
        requires in_range { index < length (D.digits (list_of self.old)) }
        requires is_digit { digit < 10 }
        ensures digits { D.digits (list_of self.new)
            ≡ slice_set (D.digits (list_of self.old)) index digit }
        ensures accesses { accesses_of self.new ≡ accesses_of self.old + 1 }
        ensures borrows { Continues self.old self.new }
    {
        self.steps.tick();
        self.list.set(index, digit);
    }

    /// Appends a digit, without an allocation: one digit access.
    ///
    /// Requires room, as after `reserve`, and a digit 0 to 9.
    #[inline]
    pub fn push_in_room(&mut self, digit: u8)
        requires has_room { 0 < D.room (list_of self.old) }
        requires is_digit { digit < 10 }
        ensures digits { D.digits (list_of self.new) ≡ D.digits (list_of self.old) ++ digit ∷ [] }
        ensures room { D.room (list_of self.old) ≤ D.room (list_of self.new) + 1 }
        ensures accesses { accesses_of self.new ≡ accesses_of self.old + 1 }
        ensures borrows { Continues self.old self.new }
    {
        self.steps.tick();
        self.list.push_in_room(digit);
    }

    /// Reserves room for `count` more digits.
    ///
    /// # Errors
    ///
    /// As for [`DigitStore::reserve`].
    pub fn reserve(&mut self, count: usize) -> Result<(), AllocError>
        ensures ok { OnOk result (count ≤ D.room (list_of self.new)) }
        ensures digits { D.digits (list_of self.new) ≡ D.digits (list_of self.old) }
        ensures succeeds { length (D.digits (list_of self.old)) + count ≤ D.L → IsOk result }
        ensures accesses { accesses_of self.new ≡ accesses_of self.old }
        ensures borrows { Continues self.old self.new }
    {
        self.list.reserve(count)
    }

    /// Keeps the first `count` digits, and accesses none.
    ///
    /// Requires `count <= len()`.
    #[inline]
    pub fn truncate(&mut self, count: usize)
        requires { count ≤ length (D.digits (list_of self.old)) }
        ensures digits { D.digits (list_of self.new) ≡ take count (D.digits (list_of self.old)) }
        ensures accesses { accesses_of self.new ≡ accesses_of self.old }
        ensures borrows { Continues self.old self.new }
    {
        self.list.truncate(count);
    }

    /// Removes all digits, and accesses none.
    pub fn clear(&mut self)
        ensures digits { D.digits (list_of self.new) ≡ [] }
        ensures accesses { accesses_of self.new ≡ accesses_of self.old }
        ensures borrows { Continues self.old self.new }
    {
        self.list.clear();
    }
}
