//! The groups of the integer digits.
ghost use Rattle.std.specs.{Prelude.{◌≡◌, ℕ, ◌+◌, ◌-◌, ◌%◌, ◌^◌, ◌<◌, ◌≤◌, ◌≤ℤ◌, ◌&&◌, pos, false}, Int.int_gap};
ghost use Rattle.decimal_format.specs.{Grouping.{reaches, is_grouped, secondary_size, ends_group, separates}, Parts.{ends_group_at, separators_below}};

/// When the integer digits are grouped.
///
/// `GroupingStrategy` of ICU4X, `useGrouping` of ECMA-402.
///
/// If the primary size is 0, as that of the locale `en-US-u-va-posix`, no strategy groups;
/// ICU groups by threes there under `Always`.
///
/// ```
/// DecimalFormatter::new(locale("es")?, GroupingStrategy::Auto).format(&value) // 1234
/// DecimalFormatter::new(locale("es")?, GroupingStrategy::Always).format(&value) // 1.234
/// ```
#[derive(Clone, Copy, Debug, PartialEq, Eq)]
pub enum GroupingStrategy {
    /// As the locale does, which may require more than one digit before the first separator.
    Auto,
    /// Never.
    Never,
    /// Wherever there is a digit before the first separator.
    Always,
    /// As the locale does, with at least two digits before the first separator.
    Min2,
}

/// The number of digits in each group.
///
/// `12,34,567` has 3 and 2, `1,234,567` has 3 and 3, or 3 and 0. `GroupingSizes` of ICU4X; UTS 35 part 3, Number
/// Patterns.
///
/// ```
/// let sizes = GroupingSizes { primary: 3, secondary: 2, min_grouping: 1 };
/// let symbols = DecimalSymbols::ascii().with_sizes(sizes);
/// DecimalFormatter::new(symbols, GroupingStrategy::Auto).format(&value) // -12,34,567.50
/// ```
#[derive(Clone, Copy, Debug, PartialEq, Eq)]
pub struct GroupingSizes {
    /// The size of the last group of integer digits; 0 for no groups.
    pub primary: u8,
    /// The size of every other group; 0 for the primary size.
    pub secondary: u8,
    /// The least number of digits before the first separator; 0 for 1.
    pub min_grouping: u8,
}

/// Returns the remainder of a division. By 2 and 3, the usual sizes, it needs no division.
#[inline]
fn remainder(dividend: usize, divisor: usize) -> usize
    requires { 0 < divisor }
    ensures { result ≡ dividend % divisor }
{
    match divisor {
        2 => dividend % 2,
        3 => dividend % 3,
        _ => dividend % divisor,
    }
}

impl GroupingSizes {
    #[inline]
    fn reaches(self, least: u8, hi: i16) -> bool
        ensures { result ≡ reaches self least hi }
    {
        self.primary as i32 + least as i32 <= hi as i32 + 1
    }

    #[inline]
    pub(crate) fn is_grouped(self, strategy: GroupingStrategy, hi: i16) -> bool
        ensures { result ≡ is_grouped strategy self hi }
    {
        match strategy {
            GroupingStrategy::Auto => self.reaches(self.min_grouping.max(1), hi),
            GroupingStrategy::Never => false,
            GroupingStrategy::Always => self.reaches(1, hi),
            GroupingStrategy::Min2 => self.reaches(self.min_grouping.max(2), hi),
        }
    }

    #[inline]
    pub(crate) fn secondary_size(self) -> u8
        ensures { result ≡ secondary_size self }
    {
        if self.secondary == 0 {
            self.primary
        } else {
            self.secondary
        }
    }

    /// Returns whether a separator is after the digit at a magnitude, where the highest magnitude shown is `hi`.
    ///
    /// In groups of 3 one is after the magnitudes 3, 6, 9 and so on.
    #[inline]
    pub fn separates(self, strategy: GroupingStrategy, hi: i16, magnitude: i16) -> bool
        ensures { result ≡ separates strategy self hi magnitude }
    {
        self.separates_if(self.is_grouped(strategy, hi), magnitude)
    }

    #[inline]
    pub(crate) fn separates_if(self, is_grouped: bool, magnitude: i16) -> bool
        ensures { result ≡ (is_grouped && ends_group_at self magnitude) }
    {
        let primary = self.primary as i16;
        if !is_grouped || primary == 0 || magnitude < primary {
            return false;
        }
        let secondary = self.secondary_size();
        remainder((magnitude - primary) as usize, secondary as usize) == 0
    }

    /// Returns a number of digits, from an integer magnitude down, with no end of a group between them, and whether one
    /// is after them: the digits to the next end of a group, or to magnitude 0, or `most`.
    ///
    /// In groups of 3 it is 1 from magnitude 3, and 3 from magnitude 5.
    #[inline]
    pub(crate) fn run_to_end(self, magnitude: usize, most: usize) -> (usize, bool)
        requires in_range { magnitude + 1 < 2 ^ 64 }
        requires some { 0 < most }
        ensures some { 0 < result.0 }
        ensures at_most { result.0 ≤ most }
        ensures within { result.0 ≤ magnitude + 1 }
        ensures none_between { (k : ℕ) → k + 1 < result.0 → ends_group self (magnitude - k) ≡ false }
        ensures last { ends_group self (magnitude - (result.0 - 1)) ≡ result.1 }
    {
        let primary = self.primary as usize;
        if primary == 0 || magnitude < primary {
            return (most.min(magnitude + 1), false);
        }
        let before_last = remainder(magnitude - primary, self.secondary_size() as usize);
        if before_last >= most {
            return (most, false);
        }
        (before_last + 1, true)
    }

    /// Returns a number of digits, from an integer magnitude down, with no separator between them, and whether a
    /// separator is after them: the digits to the next separator, or to magnitude 0, or `most`.
    #[inline]
    pub(crate) fn run_from(
        self,
        strategy: GroupingStrategy,
        hi: i16,
        magnitude: u32,
        most: u32,
    ) -> (u32, bool)
        requires in_range { magnitude < 2 ^ 16 }
        requires some { 0 < most }
        ensures some { 0 < result.0 }
        ensures at_most { result.0 ≤ most }
        ensures within { result.0 ≤ magnitude + 1 }
        ensures none_between { (k : ℕ) → k + 1 < result.0
            → separates strategy self hi (pos (magnitude - k)) ≡ false }
        ensures last { separates strategy self hi (pos (magnitude - (result.0 - 1))) ≡ result.1 }
    {
        if !self.is_grouped(strategy, hi) {
            return (most.min(magnitude + 1), false);
        }
        let (count, ends) = self.run_to_end(magnitude as usize, most as usize);
        (count as u32, ends)
    }

    #[inline]
    pub(crate) fn separator_count(self, strategy: GroupingStrategy, hi: i16) -> u32
        requires { pos 0 ≤ℤ hi }
        ensures value { result ≡ separators_below strategy self hi (int_gap (pos 0) hi + 1) }
        ensures at_most { result ≤ 32768 }
    {
        if self.primary == 0 || !self.is_grouped(strategy, hi) {
            return 0;
        }
        (hi as u32 - self.primary as u32) / self.secondary_size() as u32 + 1
    }
}
