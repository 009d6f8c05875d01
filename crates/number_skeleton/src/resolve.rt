//! The options that the choices of a skeleton are, by ICU's defaults.
ghost use Rattle.std.specs.{Prelude.{◌≡◌, Ok, Err, MatchResult}, Option.option_map};
ghost use Rattle.locale_data.specs.{Codes.{code_of, system_name}, Rows.unpadded};
ghost use Rattle.locale_names.specs.Units.{index_of, indices_of};
ghost use Rattle.number_skeleton.specs.{Digits.is_compact, Units.{unit_at, index_named}, Meaning.{notation_of, width_of, unit_display, currency_display, has_pattern, has_style, or_unsupported, unit_or_none, divided, units_by, units_of, second_of, style_value, usage_of, currency_style, units_style, hundredths_style, percent_style, permille_style, is_percent, loses_second, per_display, chosen_units, base_style, style_by, style_of, scale_of, groups_of, system_by, system_of, no_usage, options_of, options_value}};

use crate::choices::{Choices, ChosenNotation, ChosenPerUnit, ChosenPrecision, ChosenUnit, Span};
use crate::error::SkeletonError;
use crate::units::{is_two, joined, unit_at, unit_named};
use decimal_format::GroupingStrategy;
use fixed_decimal::SignDisplay;
use locale_data::{CurrencyCode, CurrencySign, NumberingSystem, unpadded};
use locale_names::{Unit, UnitDisplay, UnitId};
use number_format::{
    CurrencyDisplay, CurrencyStyle, CurrencyUsage, DecimalSeparatorDisplay, ExponentOptions,
    GroupSizes, NumberNotation, NumberOptions, NumberStyle, PerDisplay, UnitStyle,
};

const STANDARD_SIGN: (SignDisplay, CurrencySign) = (SignDisplay::Auto, CurrencySign::Standard);

fn unit_display(width: Option<CurrencyDisplay>) -> UnitDisplay
    ensures { result ≡ unit_display width }
{
    match width {
        Some(CurrencyDisplay::Symbol) => UnitDisplay::Short,
        Some(CurrencyDisplay::Narrow) => UnitDisplay::Narrow,
        _ => UnitDisplay::Long,
    }
}

fn has_pattern(is_compact: bool, width: Option<CurrencyDisplay>) -> bool
    ensures { result ≡ has_pattern is_compact width }
{
    match (is_compact, width) {
        (true, _) | (false, Some(CurrencyDisplay::Name)) => false,
        _ => true,
    }
}

fn has_style(is_compact: bool, width: Option<CurrencyDisplay>, second: Option<(u8, Span)>) -> bool
    ensures { result ≡ has_style is_compact width second }
{
    match (is_compact, width, second) {
        (true, Some(CurrencyDisplay::Symbol), None) => true,
        _ => has_pattern(is_compact, width),
    }
}

fn unit_or_unsupported(stem: Span, index: u8) -> Result<UnitId, SkeletonError>
    ensures { MatchResult result (λ u. or_unsupported stem (unit_at index) ≡ Ok u.index)
        (λ e. or_unsupported stem (unit_at index) ≡ Err e) }
{
    match unit_at(index) {
        Some(unit) => Ok(unit),
        None => Err(stem.unsupported()),
    }
}

fn unit_or_none(stem: Span, index: Option<u8>) -> Result<Option<UnitId>, SkeletonError>
    ensures { MatchResult result (λ u. unit_or_none stem index ≡ Ok (option_map index_of u))
        (λ e. unit_or_none stem index ≡ Err e) }
{
    match index {
        None => Ok(None),
        Some(index) => Ok(Some(unit_or_unsupported(stem, index)?)),
    }
}

fn divided(stem: Span, unit: UnitId, second: UnitId) -> Result<Unit, SkeletonError>
    ensures { MatchResult result (λ u. divided stem unit.index second.index ≡ Ok (indices_of u))
        (λ e. divided stem unit.index second.index ≡ Err e) }
{
    if is_two(unit) || is_two(second) {
        return Err(stem.unsupported());
    }
    Ok(joined(unit, second))
}

fn units_by(
    stem: Span,
    units: (u8, Option<u8>),
    second: Option<(u8, Span)>,
    unit: UnitId,
) -> Result<Unit, SkeletonError>
    ensures { MatchResult result (λ u. units_by stem units second unit.index ≡ Ok (indices_of u))
        (λ e. units_by stem units second unit.index ≡ Err e) }
{
    match second {
        None => Ok(Unit {
            unit,
            per: unit_or_none(stem, units.1)?,
        }),
        Some((index, per_stem)) => divided(per_stem, unit, unit_or_unsupported(per_stem, index)?),
    }
}

#[tactic(auto, unfolding(crate::specs::Meaning::units_of))]
fn units_of(
    stem: Span,
    units: (u8, Option<u8>),
    second: Option<(u8, Span)>,
) -> Result<Unit, SkeletonError>
    ensures { MatchResult result (λ u. units_of stem units second ≡ Ok (indices_of u))
        (λ e. units_of stem units second ≡ Err e) }
{
    units_by(stem, units, second, unit_or_unsupported(stem, units.0)?)
}

fn units_style(
    display: UnitDisplay,
    per_display: PerDisplay,
    stem: Span,
    second: Option<(u8, Span)>,
    units: (u8, Option<u8>),
) -> Result<NumberStyle, SkeletonError>
    ensures { MatchResult result (λ s. units_style display per_display stem second units ≡ Ok (style_value s))
        (λ e. units_style display per_display stem second units ≡ Err e) }
{
    let unit = units_of(stem, units, second)?;
    Ok(NumberStyle::Unit(UnitStyle {
        unit,
        display,
        per_display,
    }))
}

fn hundredths_style(
    display: UnitDisplay,
    stem: Span,
    second: Option<(u8, Span)>,
    name: &str,
) -> Result<NumberStyle, SkeletonError>
    ensures { MatchResult result
        (λ s. hundredths_style display stem second (index_named name.now) ≡ Ok (style_value s))
        (λ e. hundredths_style display stem second (index_named name.now) ≡ Err e) }
{
    match unit_named(name) {
        Some(unit) => {
            let units = (unit.index(), None);
            units_style(display, PerDisplay::Auto, stem, second, units)
        }
        None => Err(stem.unsupported()),
    }
}

fn percent_style(
    is_compact: bool,
    width: Option<CurrencyDisplay>,
    stem: Span,
    second: Option<(u8, Span)>,
) -> Result<NumberStyle, SkeletonError>
    ensures { MatchResult result (λ s. percent_style is_compact width stem second ≡ Ok (style_value s))
        (λ e. percent_style is_compact width stem second ≡ Err e) }
{
    if has_style(is_compact, width, second) {
        return Ok(NumberStyle::Percent);
    }
    hundredths_style(unit_display(width), stem, second, "percent")
}

fn permille_style(
    is_compact: bool,
    width: Option<CurrencyDisplay>,
    stem: Span,
    second: Option<(u8, Span)>,
) -> Result<NumberStyle, SkeletonError>
    ensures { MatchResult result (λ s. permille_style is_compact width stem second ≡ Ok (style_value s))
        (λ e. permille_style is_compact width stem second ≡ Err e) }
{
    if has_pattern(is_compact, width) {
        return Ok(NumberStyle::Permille);
    }
    hundredths_style(unit_display(width), stem, second, "permille")
}

fn is_percent(index: u8) -> bool
    ensures { result ≡ is_percent index }
{
    match unit_named("percent") {
        Some(percent) => percent.index() == index,
        None => false,
    }
}

/// Returns whether the units are percent and another one, of which the formatter writes percent alone.
fn loses_second(is_compact: bool, display: UnitDisplay, units: (u8, Option<u8>)) -> bool
    ensures { result ≡ loses_second is_compact display units }
{
    match (is_compact, display, units.1) {
        (true, _, _) | (false, UnitDisplay::Long, _) | (false, _, None) => false,
        _ => is_percent(units.0),
    }
}

/// Returns that both units are written also if a formatter writes percent alone: `unit/percent-per-hour` is `1%/h`.
fn per_display(is_compact: bool, display: UnitDisplay, units: (u8, Option<u8>)) -> PerDisplay
    ensures { result ≡ per_display is_compact display units }
{
    if loses_second(is_compact, display, units) {
        return PerDisplay::Always;
    }
    PerDisplay::Auto
}

fn chosen_units(
    is_compact: bool,
    display: UnitDisplay,
    stem: Span,
    second: Option<(u8, Span)>,
    units: (u8, Option<u8>),
) -> Result<NumberStyle, SkeletonError>
    ensures { MatchResult result (λ s. chosen_units is_compact display stem second units ≡ Ok (style_value s))
        (λ e. chosen_units is_compact display stem second units ≡ Err e) }
{
    let per_display = per_display(is_compact, display, units);
    units_style(display, per_display, stem, second, units)
}

fn base_style(second: Option<(u8, Span)>) -> Result<NumberStyle, SkeletonError>
    ensures { MatchResult result (λ s. base_style second ≡ Ok (style_value s)) (λ e. base_style second ≡ Err e) }
{
    match second {
        None => Ok(NumberStyle::Decimal),
        Some((_, stem)) => Err(stem.unsupported()),
    }
}

fn system_by(name: [u8; 16], stem: Span) -> Result<Option<NumberingSystem>, SkeletonError>
    ensures { result ≡ system_by stem (system_name (unpadded name)) }
{
    match NumberingSystem::try_from_utf8(unpadded(&name)) {
        Ok(system) => Ok(Some(system)),
        Err(_) => Err(stem.unsupported()),
    }
}

impl Choices {
    fn number_notation(&self) -> Result<NumberNotation, SkeletonError>
        ensures { result ≡ notation_of self.now.notation }
    {
        match self.notation {
            Some((ChosenNotation::Exponent(exponent), stem)) => {
                if exponent.digits == 0 || exponent.digits > 65535 {
                    return Err(stem.unsupported());
                }
                let options = ExponentOptions {
                    digits: exponent.digits as u16,
                    sign: exponent.sign,
                };
                if exponent.is_engineering {
                    return Ok(NumberNotation::Engineering(options));
                }
                Ok(NumberNotation::Scientific(options))
            }
            Some((ChosenNotation::Compact(length), _)) => Ok(NumberNotation::Compact(length)),
            _ => Ok(NumberNotation::Standard),
        }
    }

    fn width(&self) -> Option<CurrencyDisplay>
        ensures { result ≡ width_of self.now.width }
    {
        match self.width {
            Some((width, _)) => width,
            None => Some(CurrencyDisplay::Symbol),
        }
    }

    fn currency_display(&self) -> Result<CurrencyDisplay, SkeletonError>
        ensures { result ≡ currency_display self.now.width }
    {
        match self.width {
            Some((Some(display), _)) => Ok(display),
            Some((None, stem)) => Err(stem.unsupported()),
            None => Ok(CurrencyDisplay::Symbol),
        }
    }

    fn second_unit(&self) -> Result<Option<(u8, Span)>, SkeletonError>
        ensures { result ≡ second_of self.now.per_unit }
    {
        match self.per_unit {
            Some((ChosenPerUnit::Unit(index), stem)) => Ok(Some((index, stem))),
            Some((ChosenPerUnit::Other, stem)) => Err(stem.unsupported()),
            Some((ChosenPerUnit::InUnit, _)) | None => Ok(None),
        }
    }

    fn currency_usage(&self) -> CurrencyUsage
        ensures { result ≡ usage_of self.now.precision }
    {
        match self.precision {
            Some((ChosenPrecision::Currency(usage), _)) => usage,
            _ => CurrencyUsage::Standard,
        }
    }

    fn currency_style(
        &self,
        code: [u8; 3],
        display: CurrencyDisplay,
        stem: Span,
    ) -> Result<NumberStyle, SkeletonError>
        ensures { MatchResult result (λ s. currency_style self.now display stem (code_of code) ≡ Ok (style_value s))
            (λ e. currency_style self.now display stem (code_of code) ≡ Err e) }
    {
        match CurrencyCode::try_from_utf8(&code) {
            Ok(code) => Ok(NumberStyle::Currency(CurrencyStyle {
                code,
                display,
                sign: self.sign.unwrap_or(STANDARD_SIGN).1,
                usage: self.currency_usage(),
            })),
            Err(_) => Err(stem.unsupported()),
        }
    }

    fn style_by(&self, second: Option<(u8, Span)>) -> Result<NumberStyle, SkeletonError>
        ensures { MatchResult result (λ s. style_by self.now.unit self.now second ≡ Ok (style_value s))
            (λ e. style_by self.now.unit self.now second ≡ Err e) }
    {
        let (is_compact, width) = (self.is_compact(), self.width());
        match self.unit {
            Some((ChosenUnit::Percent, stem)) => percent_style(is_compact, width, stem, second),
            Some((ChosenUnit::Permille, stem)) => permille_style(is_compact, width, stem, second),
            Some((ChosenUnit::Currency(code), stem)) => {
                self.currency_style(code, self.currency_display()?, stem)
            }
            Some((ChosenUnit::Units(units), stem)) => {
                chosen_units(is_compact, unit_display(width), stem, second, units)
            }
            Some((ChosenUnit::Other, stem)) => Err(stem.unsupported()),
            Some((ChosenUnit::Base, _)) | None => base_style(second),
        }
    }

    #[tactic(auto, unfolding(crate::specs::Meaning::style_of))]
    fn style(&self) -> Result<NumberStyle, SkeletonError>
        ensures { MatchResult result (λ s. style_of self.now ≡ Ok (style_value s)) (λ e. style_of self.now ≡ Err e) }
    {
        self.style_by(self.second_unit()?)
    }

    fn power_of_ten(&self) -> Result<i16, SkeletonError>
        ensures { result ≡ scale_of self.now.scale }
    {
        let Some((scale, stem)) = self.scale else {
            return Ok(0);
        };
        if scale.is_negative || scale.digits != 1 || scale.power < -32768 || scale.power > 32767 {
            return Err(stem.unsupported());
        }
        Ok(scale.power as i16)
    }

    fn groups(&self, notation: NumberNotation) -> (GroupingStrategy, GroupSizes)
        ensures { result ≡ groups_of notation self.now.grouping }
    {
        self.grouping
            .unwrap_or((notation.default_grouping(), GroupSizes::Locale))
    }

    fn numbering_system(&self) -> Result<Option<NumberingSystem>, SkeletonError>
        ensures { result ≡ system_of self.now.system }
    {
        match self.system {
            Some((Some(name), stem)) => system_by(name, stem),
            Some((None, stem)) => Err(stem.unsupported()),
            None => Ok(None),
        }
    }

    fn no_usage(&self) -> Result<(), SkeletonError>
        ensures { result ≡ no_usage self.now.usage }
    {
        match self.usage {
            Some(stem) => Err(stem.unsupported()),
            None => Ok(()),
        }
    }

    /// Returns the options, or the stem that this library has not.
    #[tactic(auto, unfolding(crate::specs::Meaning::options_of))]
    pub(crate) fn options(&self) -> Result<NumberOptions, SkeletonError>
        ensures { MatchResult result (λ o. options_of self.now ≡ Ok (options_value o))
            (λ e. options_of self.now ≡ Err e) }
    {
        self.no_usage()?;
        let style = self.style()?;
        let scale = self.power_of_ten()?;
        let notation = self.number_notation()?;
        let (grouping, group_sizes) = self.groups(notation);
        Ok(NumberOptions {
            style,
            scale,
            notation,
            digits: Some(self.digit_options()?),
            sign_display: self.sign.unwrap_or(STANDARD_SIGN).0,
            grouping,
            group_sizes,
            decimal_separator: self
                .decimal_separator
                .unwrap_or(DecimalSeparatorDisplay::Auto),
            numbering_system: self.numbering_system()?,
        })
    }
}
