//! Texts of units without a number: in Arabic `يومان` is two days.
ghost use Rattle.std.specs.Prelude.{◌≡◌, ◌↔◌, IsTrue, MatchOption};
ghost use Rattle.number_format.specs.{CompactReading.{HasNoDigit, IsAlone}, FormattedNumbers.IsOuter, NumberText.outer_by, WholeUnits.{unit_around, unit_text, AreCategoriesRead, AreUnitsApart, IsCategoryRead, IsCategoryUnread, IsUnitRead, IsUnitText, SaysNone, SaysNumber}};

use crate::format::formatter::NumberFormatter;
use crate::format::outer::{OuterAround, OuterTexts};
use crate::options::{NumberNotation, NumberOptions};
use crate::read::compact::keys::category_at;
use crate::read::compact::whole::has_no_digit;
use crate::read::owned_affixes::are_joined;
use crate::read::pattern::{pair_text, short_text};
use arrayvec::ArrayString;
use fixed_decimal::SignDisplay;
use locale_data::holds_alone;
use plural_rules::PluralCategory::{self, Few, Many, One, Other, Two, Zero};

fn unit_around(texts: &OuterTexts, category: PluralCategory) -> OuterAround<'static>
    ensures { IsOuter (unit_around texts.now category) result }
{
    match texts {
        OuterTexts::Units(rows) => OuterAround::of_unit(*rows, category),
        OuterTexts::Names(_) | OuterTexts::None => OuterAround::none(),
    }
}

fn unit_text(texts: &OuterTexts, category: PluralCategory) -> ArrayString<2040>
    ensures { result.bytes ≡ unit_text texts.now category }
{
    let around = unit_around(texts, category);
    let before: ArrayString<1020> = short_text(&around.before);
    let after: ArrayString<1020> = short_text(&around.after);
    pair_text(before.as_str(), after.as_str())
}

fn is_unit_text(texts: &OuterTexts, category: PluralCategory, text: &[u8]) -> bool
    ensures { IsTrue result ↔ IsUnitText texts.now text.now category }
{
    let around = unit_around(texts, category);
    if around.has_number {
        return false;
    }
    are_joined(text, &around.before, &around.after)
}

fn are_units_apart(texts: &OuterTexts) -> bool
    ensures { IsTrue result ↔ AreUnitsApart texts.now }
{
    let one = unit_around(texts, One);
    if one.has_number {
        return true;
    }
    let text = unit_text(texts, One);
    if is_unit_text(texts, Two, text.as_str().as_bytes()) {
        return false;
    }
    true
}

pub(crate) fn is_standard(notation: NumberNotation) -> bool
    ensures { IsTrue result ↔ (notation ≡ NumberNotation.Standard) }
{
    matches!(notation, NumberNotation::Standard)
}

fn is_never(display: SignDisplay) -> bool
    ensures { IsTrue result ↔ (display ≡ SignDisplay.Never) }
{
    matches!(display, SignDisplay::Never)
}

fn is_unsigned(options: &NumberOptions) -> bool
    ensures { IsTrue result
        ↔ ((options.now.notation ≡ NumberNotation.Standard) × (options.now.sign_display ≡ SignDisplay.Never)) }
{
    is_standard(options.notation) && is_never(options.sign_display)
}

/// Returns the number that a text says without writing it.
pub(crate) fn number_said(texts: &OuterTexts, text: &[u8]) -> Option<u8>
    ensures { MatchOption result (SaysNone texts.now text.now) (λ n. SaysNumber texts.now text.now n) }
{
    if is_unit_text(texts, One, text) {
        return Some(1);
    }
    if is_unit_text(texts, Two, text) {
        return Some(2);
    }
    None
}

impl NumberFormatter {
    /// Returns whether the category is that of 1 alone, or of 2 alone.
    pub(crate) fn holds_lone_number(&self, category: PluralCategory) -> bool
        ensures { IsTrue result ↔ IsAlone self.now category }
    {
        match category {
            One => holds_alone(self.rules, One, 1),
            Two => holds_alone(self.rules, Two, 2),
            Zero | Few | Many | Other => false,
        }
    }

    fn is_unit_without_digit(&self, category: PluralCategory) -> bool
        ensures { IsTrue result ↔ HasNoDigit self.now.style.symbols (unit_text self.now.outer category) }
    {
        let text = unit_text(&self.outer, category);
        has_no_digit(&self.style.symbols, text.as_str().as_bytes())
    }

    fn is_unit_read(&self, category: PluralCategory) -> bool
        ensures { IsTrue result ↔ IsUnitRead self.now category }
    {
        if !is_unsigned(&self.options) {
            return false;
        }
        if !self.holds_lone_number(category) {
            return false;
        }
        if !self.is_unit_without_digit(category) {
            return false;
        }
        are_units_apart(&self.outer)
    }

    fn has_number(&self, category: PluralCategory) -> bool
        ensures { result ≡ (outer_by self.now category).has_number }
    {
        self.outer_around(category).has_number
    }

    fn is_category_read(&self, category: PluralCategory) -> bool
        ensures { IsTrue result ↔ IsCategoryRead self.now category }
    {
        if self.has_number(category) {
            return true;
        }
        self.is_unit_read(category)
    }

    /// Returns a category whose text has no number and cannot be read without it, as `yesterday`.
    pub(crate) fn category_without_number(&self) -> Option<PluralCategory>
        ensures { MatchOption result (AreCategoriesRead self.now) (IsCategoryUnread self.now) }
    {
        for index in 0..6 {
            let category = category_at(index);
            if !self.is_category_read(category) {
                return Some(category);
            }
        }
        None
    }
}
