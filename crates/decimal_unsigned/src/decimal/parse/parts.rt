//! The parts of a text.
ghost use Rattle.std.specs.Prelude.{◌≡◌, ℕ, ◌+◌, ◌++◌, ◌-◌, ◌<◌, ◌≤◌, min, length, drop, map, option_map, pos, slice_index, IfSome, IfNone};
ghost use Rattle.std.specs.Str.Parse.{AllDigits};
ghost use Rattle.decimal_unsigned.specs.ScannedDigits.{digits_of, middle, IsNonzeroRange};
ghost use Rattle.std.specs.Char.{is_ascii_digit, digit_value};
ghost use Rattle.std.specs.List.{prefix_len};
ghost use Rattle.std.specs.Str.{all_ascii_digits};
ghost use Rattle.decimal_unsigned.specs.Reading as read;
ghost use Rattle.decimal_unsigned.specs.Parts.{view, views, saturated, IsSaturated, saturated_parts};

/// The integer digits, the fraction digits and the exponent.
#[derive(Clone, Copy, Debug)]
pub struct Parts<'a> {
    pub whole: &'a [u8],
    pub fraction: &'a [u8],
    pub exponent: Option<i32>,
}

/// The number of bytes that are tested at once.
const GROUP: usize = 16;

/// Returns whether all bytes are digits. Each one is tested, without a branch, so that a processor tests many at once.
#[inline]
fn are_digits(group: &[u8]) -> bool
    ensures { result ≡ all_ascii_digits group.now }
{
    let mut all = true;
    for byte in group {
        all &= byte.is_ascii_digit();
    }
    all
}

#[inline(never)]
fn grouped_digit_count(text: &[u8]) -> usize
    ensures within { result ≤ length text.now }
    ensures digits { prefix_len is_ascii_digit text.now ≡ result + prefix_len is_ascii_digit (drop result text.now) }
{
    let mut count = 0;
    while text.len() - count >= GROUP && are_digits(&text[count..count + GROUP]) {
        count += GROUP;
    }
    count
}

#[inline]
fn count_digits(text: &[u8]) -> usize
    ensures { result ≡ prefix_len is_ascii_digit text.now }
{
    let grouped = grouped_digit_count(text);
    for i in grouped..text.len() {
        if !text[i].is_ascii_digit() {
            return i;
        }
    }
    text.len()
}

#[inline]
fn split_digits(text: &[u8]) -> (&[u8], &[u8])
    ensures digits { result.0.now ≡ read.leading_digits text.now }
    ensures rest { result.1.now ≡ read.after_digits text.now }
{
    text.split_at(count_digits(text))
}

/// Returns the number of a text of digits, or `most` if it is greater.
///
/// With 255, `0012` gives 12, and `123456` gives 255. None if the text is empty, or has a byte that is no digit.
#[tactic(auto, unfolding(crate::specs::Reading::numeral_of))]
pub fn numeral(text: &[u8], most: u32) -> Option<u32>
    ensures { result ≡ option_map (min most) (read.numeral_of text.now) }
{
    if text.is_empty() {
        return None;
    }
    let mut value: u32 = 0;
    for byte in text {
        if !byte.is_ascii_digit() {
            return None;
        }
        value = value
            .saturating_mul(10)
            .saturating_add(u32::from(*byte - b'0'))
            .min(most);
    }
    Some(value)
}

#[tactic(auto, unfolding(crate::specs::Reading::exponent_of))]
fn exponent(text: &[u8]) -> Option<i32>
    ensures { result ≡ option_map saturated (read.exponent_of text.now) }
{
    match text {
        [b'-', rest @ ..] => Some(-(numeral(rest, 70_000)? as i32)),
        [b'+', rest @ ..] => Some(numeral(rest, 70_000)? as i32),
        _ => Some(numeral(text, 70_000)? as i32),
    }
}

#[inline]
#[tactic(auto, unfolding(crate::specs::Reading::with_exponent))]
fn with_exponent<'a>(whole: &'a [u8], fraction: &'a [u8], text: &[u8]) -> Option<Parts<'a>>
    ensures { views result ≡ option_map saturated_parts (read.with_exponent whole.now fraction.now text.now) }
{
    let exponent = exponent(text)?;
    Some(Parts {
        whole,
        fraction,
        exponent: Some(exponent),
    })
}

#[inline]
#[tactic(auto, unfolding(crate::specs::Reading::after_fraction))]
fn after_fraction<'a>(whole: &'a [u8], fraction: &'a [u8], text: &[u8]) -> Option<Parts<'a>>
    ensures { views result ≡ option_map saturated_parts (read.after_fraction whole.now fraction.now text.now) }
{
    match text {
        [] if !fraction.is_empty() => Some(Parts {
            whole,
            fraction,
            exponent: None,
        }),
        [b'e' | b'E', rest @ ..] => with_exponent(whole, fraction, rest),
        _ => None,
    }
}

#[inline]
#[tactic(auto, unfolding(crate::specs::Reading::after_whole))]
fn after_whole<'a>(whole: &'a [u8], text: &'a [u8]) -> Option<Parts<'a>>
    ensures { views result ≡ option_map saturated_parts (read.after_whole whole.now text.now) }
{
    match text {
        [] if !whole.is_empty() => Some(Parts {
            whole,
            fraction: &text[..0],
            exponent: None,
        }),
        [b'.', rest @ ..] => {
            let (fraction, rest) = split_digits(rest);
            after_fraction(whole, fraction, rest)
        }
        [b'e' | b'E', rest @ ..] if !whole.is_empty() => with_exponent(whole, &text[..0], rest),
        _ => None,
    }
}

#[tactic(auto, unfolding(crate::specs::Reading::parts_of))]
pub fn split(text: &[u8]) -> Option<Parts<'_>>
    ensures parts { views result ≡ option_map saturated_parts (read.parts_of text.now) }
    ensures digits { IfSome result (λ p. AllDigits 10 (p.whole.now ++ p.fraction.now)) }
    ensures exponent { IfSome result (λ p. IfSome p.exponent IsSaturated) }
{
    let (whole, rest) = split_digits(text);
    after_whole(whole, rest)
}

impl Parts<'_> {
    pub fn len(&self) -> usize
        ensures { result ≡ length (digits_of (view self.now)) }
    {
        self.whole.len() + self.fraction.len()
    }

    fn byte(&self, index: usize) -> u8
        requires { index < length (self.now.whole.now ++ self.now.fraction.now) }
        ensures { result ≡ slice_index (self.now.whole.now ++ self.now.fraction.now) index }
    {
        if index < self.whole.len() {
            self.whole[index]
        } else {
            self.fraction[index - self.whole.len()]
        }
    }

    fn digit(&self, index: usize) -> u8
        requires in_range { index < length (digits_of (view self.now)) }
        requires digits { AllDigits 10 (self.now.whole.now ++ self.now.fraction.now) }
        ensures { result ≡ slice_index (digits_of (view self.now)) index }
    {
        self.byte(index) - b'0'
    }

    pub fn between(&self, start: usize, end: usize) -> (&[u8], &[u8])
        requires digits { AllDigits 10 (self.now.whole.now ++ self.now.fraction.now) }
        requires ordered { start ≤ end }
        requires within { end ≤ length (digits_of (view self.now)) }
        ensures whole { AllDigits 10 result.0.now }
        ensures fraction { AllDigits 10 result.1.now }
        ensures value { map digit_value result.0.now ++ map digit_value result.1.now
            ≡ middle start end (digits_of (view self.now)) }
    {
        let dot = self.whole.len();
        let whole = &self.whole[start.min(dot)..end.min(dot)];
        let fraction = &self.fraction[start.saturating_sub(dot)..end.saturating_sub(dot)];
        (whole, fraction)
    }

    pub fn nonzero_range(&self) -> Option<(usize, usize)>
        requires { AllDigits 10 (self.now.whole.now ++ self.now.fraction.now) }
        ensures none { IfNone result ((k : ℕ) → slice_index (digits_of (view self.now)) k ≡ 0) }
        ensures some { IfSome result (λ r. IsNonzeroRange (digits_of (view self.now)) r.0 r.1) }
    {
        let mut end = self.len();
        while end > 0 && self.digit(end - 1) == 0 {
            end -= 1;
        }
        for start in 0..end {
            if self.digit(start) != 0 {
                return Some((start, end));
            }
        }
        None
    }
}
