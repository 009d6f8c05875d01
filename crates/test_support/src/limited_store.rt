//! A store of digits that is out of memory beyond a bound, and counts its accesses and allocating calls.
ghost use Rattle.std.specs.Prelude.{◌≤◌, IsTrue};

use crate::digit_limit::{DigitLimit, MaxDigits};
use decimal_digits::digits::DigitStore;
use std::alloc::{AllocError, Global};
use std::cell::Cell;
use std::marker::PhantomData;

/// A store of digits that is out of memory for more than `LIMIT` digits, unless `bound` sets another limit.
///
/// So each growth of a run can be made to fail, one limit after the other: with 16 that to more than 16 digits, with 17
/// that to more than 17.
///
/// It counts the digits that are read, written, compared or copied, and the calls that may allocate, for any number of
/// digits: `from_digits`, `clone`, `reserve` and `append`.
///
/// It is also an example of a store: the ghost members name the list of a value, the number of digits that still fit
/// and the number that is stored without an allocation, and each method meets the contract of the trait.
pub struct LimitedStore<D: DigitStore, M: DigitLimit> {
    list: D,
    most: Cell<usize>,
    accessed: Cell<usize>,
    allocations: Cell<usize>,
    is_restarted: Cell<bool>,
    first: PhantomData<M>,
}

/// A store that counts, with memory for every number.
pub type Counting<D> = LimitedStore<D, MaxDigits>;

// Not derived, since a derived drop is proved again in each dependent crate.
impl<D: DigitStore, M: DigitLimit> Drop for LimitedStore<D, M> {
    fn drop(self) {
        let LimitedStore {
            list,
            most: _,
            accessed: _,
            allocations: _,
            is_restarted: _,
            first: _,
        } = self;
        drop(list);
    }
}

/// A store that counts its accesses and allocating calls.
pub trait CountingStore: DigitStore {
    /// Sets the limit of this list to `most` digits.
    fn bound(&self, most: usize);

    /// Sets all counts to 0.
    fn restart(&self);

    /// Returns the number of digits accessed since the last `restart`; `None` if this list was made after it.
    fn accessed(&self) -> Option<usize>;

    /// Returns the number of calls that may allocate since the last `restart`, or since this list was made.
    fn allocations(&self) -> usize;

    /// Whether this very list was counted by the last `restart`, with no call since that may allocate.
    fn has_not_allocated(&self) -> bool;
}

impl<D: DigitStore, M: DigitLimit> CountingStore for LimitedStore<D, M> {
    fn bound(&self, most: usize) {
        self.most.set(most);
    }

    fn restart(&self) {
        self.accessed.set(0);
        self.allocations.set(0);
        self.is_restarted.set(true);
    }

    fn accessed(&self) -> Option<usize> {
        if self.is_restarted.get() {
            Some(self.accessed.get())
        } else {
            None
        }
    }

    fn allocations(&self) -> usize {
        self.allocations.get()
    }

    fn has_not_allocated(&self) -> bool {
        self.is_restarted.get() && self.allocations.get() == 0
    }
}

impl<D: DigitStore, M: DigitLimit> LimitedStore<D, M> {
    /// Counts `count` more digits.
    fn count_access(&self, count: usize) {
        self.accessed.set(self.accessed.get().saturating_add(count));
    }

    /// Counts a call that may allocate.
    fn count_allocation(&self) {
        self.allocations
            .set(self.allocations.get().saturating_add(1));
    }

    /// Whether there is memory for `count` digits.
    fn fits(&self, count: usize) -> bool
        ensures { count ≤ D.L → IsTrue result }
    {
        count <= D::L || count <= self.most.get()
    }
}

impl<D: DigitStore, M: DigitLimit> DigitStore for LimitedStore<D, M> {
    ghost digits = { λ s. D.digits s.list };

    ghost room = { λ s. D.room s.list };

    ghost L = { D.L };

    const L: usize = D::L;

    fn empty(alloc: Global) -> Self {
        LimitedStore {
            list: D::empty(alloc),
            most: Cell::new(M::LIMIT),
            accessed: Cell::new(0),
            allocations: Cell::new(0),
            is_restarted: Cell::new(false),
            first: PhantomData,
        }
    }

    fn from_digits(alloc: Global, list: &[u8]) -> Result<Self, AllocError> {
        if list.len() > D::L && list.len() > M::LIMIT {
            return Err(AllocError);
        }
        Ok(LimitedStore {
            list: D::from_digits(alloc, list)?,
            most: Cell::new(M::LIMIT),
            accessed: Cell::new(list.len()),
            allocations: Cell::new(1),
            is_restarted: Cell::new(false),
            first: PhantomData,
        })
    }

    fn clone(&self) -> Result<Self, AllocError> {
        self.count_access(self.list.len());
        self.count_allocation();
        if !self.fits(self.list.len()) {
            return Err(AllocError);
        }
        Ok(LimitedStore {
            list: self.list.clone()?,
            most: Cell::new(self.most.get()),
            accessed: Cell::new(self.accessed.get()),
            allocations: Cell::new(self.allocations.get()),
            is_restarted: Cell::new(self.is_restarted.get()),
            first: PhantomData,
        })
    }

    fn len(&self) -> usize {
        self.list.len()
    }

    fn get(&self, index: usize) -> u8 {
        self.count_access(1);
        self.list.get(index)
    }

    fn set(&mut self, index: usize, digit: u8) {
        self.count_access(1);
        self.list.set(index, digit);
    }

    fn push_in_room(&mut self, digit: u8) {
        self.count_access(1);
        self.list.push_in_room(digit);
    }

    fn reserve(&mut self, count: usize) -> Result<(), AllocError> {
        self.count_allocation();
        let total = self.list.len().saturating_add(count);
        if !self.fits(total) {
            return Err(AllocError);
        }
        self.list.reserve(count)
    }

    fn truncate(&mut self, count: usize) {
        self.list.truncate(count);
    }

    fn cut_front(&mut self, count: usize) {
        self.list.cut_front(count);
    }

    fn clear(&mut self) {
        self.list.clear();
    }

    fn append(&mut self, zeros: usize, other: &Self) -> Result<(), AllocError> {
        self.count_access(zeros.saturating_add(other.list.len()));
        self.count_allocation();
        let start = self.list.len().saturating_add(zeros);
        let total = start.saturating_add(other.list.len());
        if !self.fits(total) {
            return Err(AllocError);
        }
        self.list.append(zeros, &other.list)
    }

    fn eq(&self, other: &Self) -> bool {
        self.count_access(self.list.len().saturating_add(other.list.len()));
        self.list.eq(&other.list)
    }

    ghost fits_u16 = { D.fits_u16 };

    ghost room_to_L = { λ s. D.room_to_L s.list };

    ghost are_digits = { λ s. D.are_digits s.list };
}
