//! A count of digit accesses that only contracts see.
ghost use Rattle.std.specs.Prelude.{◌≡◌, ℕ, ◌+◌};
ghost use Rattle.std.specs.Borrow.{ftrue};

use std::marker::Model;

/// A count of digit accesses. A digit access is one read or one write of a single digit by a rounding.
///
/// Contracts see `count`; at run time it has no bytes. `tick` adds one, and `tick_by` the given number. No other call
/// changes a `Steps`, but its owner may replace it by a new one.
///
/// ```
/// let mut steps = Steps::new();
/// steps.tick();
/// steps.tick_by(6); // contracts see a count of 7
/// ```
#[derive(Debug, Drop)]
pub struct Steps {
    pub ghost count: { ℕ },
}

impl Model for Steps {
    ghost also_owns = { λ _. ftrue };
}

impl Steps {
    /// Makes a count of 0.
    #[inline]
    pub fn new() -> Steps
        ensures { result.count ≡ 0 }
    {
        Steps {}
    }

    /// Adds one digit access.
    #[inline]
    pub fn tick(&mut self)
        ensures { self.new.count ≡ self.old.count + 1 }
    {
        *self = self.after();
    }

    /// Adds the given number of digit accesses.
    ///
    /// The loop is there for the proof only: it has no effect at run time, and a compiler may remove it.
    #[inline]
    pub fn tick_by(&mut self, accesses: usize)
        ensures { self.new.count ≡ self.old.count + accesses }
    {
        for _ in 0..accesses {
            self.tick();
        }
    }

    #[inline]
    fn after(&self) -> Steps
        ensures { result.count ≡ self.now.count + 1 }
    {
        Steps {}
    }
}
