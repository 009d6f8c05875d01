//! Bytes that are read from left to right.
ghost use Rattle.std.specs.Prelude.{◌≡◌, ◌≢◌, ℕ, ◌^◌, ◌<◌, ◌≤◌, List, [], ◌∷◌, length, take, drop, true, false, MatchOption};

/// A sequence of bytes that is read from left to right.
pub trait Input: Copy {
    ghost bytes: { Self → List ℕ };

    /// Returns whether there are no bytes.
    fn is_empty(self) -> bool
        ensures yes { result ≡ true → bytes self ≡ [] }
        ensures no { result ≡ false → bytes self ≢ [] }
        ensures at_most { length (bytes self) < 2 ^ 64 };

    /// Returns the first byte, and what follows it.
    fn split_first(self) -> Option<(u8, Self)>
        ensures { MatchOption result (bytes self ≡ []) (λ r. bytes self ≡ r.0 ∷ bytes r.1) };

    /// Returns the given number of bytes at the start.
    fn first(self, count: usize) -> Self
        requires { count ≤ length (bytes self) }
        ensures { bytes result ≡ take count (bytes self) };

    /// Returns the byte at an index, or `None` if that takes a search.
    fn byte_at(self, index: usize) -> Option<u8>;
}

impl Input for &[u8] {
    ghost bytes = { λ s. s.now };

    #[inline(always)]
    fn is_empty(self) -> bool {
        self.len() == 0
    }

    #[inline(always)]
    fn split_first(self) -> Option<(u8, Self)> {
        match self {
            [first, rest @ ..] => Some((*first, rest)),
            [] => None,
        }
    }

    fn first(self, count: usize) -> Self {
        &self[..count]
    }

    #[inline]
    fn byte_at(self, index: usize) -> Option<u8> {
        self.get(index).copied()
    }
}

/// Returns the number of bytes.
pub fn count<T: Input>(text: T) -> usize
    ensures { result ≡ length (T.bytes text) }
{
    if text.is_empty() {
        return 0;
    }
    let mut rest = text;
    let mut count = 0;
    while let Some(next) = rest.split_first() {
        count += 1;
        rest = next.1;
    }
    count
}

/// Returns what follows the given number of bytes.
pub fn skip<T: Input>(text: T, count: usize) -> T
    ensures { T.bytes result ≡ drop count (T.bytes text) }
{
    let mut rest = text;
    for _ in 0..count {
        let Some(next) = rest.split_first() else {
            return rest;
        };
        rest = next.1;
    }
    rest
}
