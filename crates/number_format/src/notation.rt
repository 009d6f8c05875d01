//! The exponent that a notation writes for a magnitude.
ghost use Rattle.std.specs.{Prelude.{◌≡◌, pos, ◌≤ℤ◌, ◌-ℤ◌}, Int.{int_max, int_min}};
ghost use Rattle.number_format.specs.Scaled.{compact_exponent, exponent_at};

pub(crate) mod scale;

/// The exponents of a locale's compact patterns, for the magnitudes 3 to 19.
///
/// A pattern with `n` integer digits for the magnitude `m` has the exponent `m + 1 - n`: that of `00K` is 3 for the
/// magnitude 4. Where a locale has no pattern the exponent is 0. Below 3 it is 0, and above 19 that of 19.
#[derive(Clone, Copy, Debug)]
pub struct CompactExponents {
    /// The exponents, from the magnitude 3 up.
    pub rows: [u8; 17],
}

/// How a number is written as a significand and an exponent.
#[derive(Clone, Copy, Debug)]
pub enum Notation {
    /// Without an exponent: `1234567`.
    Standard,
    /// One integer digit: `1.234567E6`.
    Scientific,
    /// An exponent that is a multiple of 3: `12.34567E6` of `12345670`.
    Engineering,
    /// The exponents of a locale's compact patterns: `1.2M`.
    Compact(CompactExponents),
}

impl CompactExponents {
    fn at(&self, magnitude: i16) -> u8
        ensures { pos result ≡ compact_exponent self.now magnitude }
    {
        if magnitude < 3 {
            return 0;
        }
        self.rows[(magnitude.clamp(3, 19) - 3) as usize]
    }
}

impl Notation {
    /// Returns the exponent of a number whose first digit is at a magnitude.
    ///
    /// `ComputeExponentForMagnitude` of ECMA-402; by `Engineering` the greatest multiple of 3 up to the magnitude.
    pub fn exponent_at(&self, magnitude: i16) -> i32
        ensures value { result ≡ exponent_at self.now magnitude }
        ensures at_least { int_min (magnitude -ℤ pos 2) (pos 0) ≤ℤ result }
        ensures at_most { result ≤ℤ int_max magnitude (pos 255) }
    {
        match self {
            Notation::Standard => 0,
            Notation::Scientific => magnitude as i32,
            Notation::Engineering => magnitude as i32 - (magnitude as i32).rem_euclid(3),
            Notation::Compact(exponents) => exponents.at(magnitude) as i32,
        }
    }
}
