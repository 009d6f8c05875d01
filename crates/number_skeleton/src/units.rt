//! Units in skeletons: by their identifiers, or by their types too.
ghost use Rattle.std.specs.{Prelude.{◌≡◌, Some}, Option.option_map};
ghost use Rattle.locale_names.specs.{Texts.text_or_nothing, Units.{index_of, indices_of}, declared.tables.units.TheConstants.UNITS};
ghost use Rattle.number_skeleton.specs.Units.{unit_at, index_named, is_two, name_at, type_at, of_type, is_person, without_person, bytes_named, two_units, units_named, hundredth, measured, measured_unit, is_joined, index_joined, joined};

use crate::choices::ChosenUnit;
use crate::counts::{after, before, byte_at, run};
use crate::words::is_name;
use locale_data::Name;
use locale_names::{Unit, UnitId, split_per};
use std::str;

/// The units of people's ages, which have the texts of the units of time.
pub(crate) static PERSON_UNITS: [Name; 4] = [
    *b"day-person      ",
    *b"week-person     ",
    *b"month-person    ",
    *b"year-person     ",
];

/// Returns bytes as a text, and no text where they are none.
pub(crate) fn text_of(bytes: &[u8]) -> &str
    ensures { result.now ≡ text_or_nothing bytes.now }
{
    match str::from_utf8(bytes) {
        Ok(text) => text,
        Err(_) => "",
    }
}

/// Returns the unit with an index.
#[tactic(auto, unfolding(crate::specs::Units::unit_at))]
pub(crate) fn unit_at(index: u8) -> Option<UnitId>
    ensures { option_map index_of result ≡ unit_at index }
{
    UnitId::from_index(index)
}

/// Returns the unit with an identifier.
#[tactic(auto, unfolding(crate::specs::Units::index_named))]
pub(crate) fn unit_named(name: &str) -> Option<UnitId>
    ensures { option_map index_of result ≡ index_named name.now }
{
    match UnitId::try_from_str(name) {
        Ok(unit) => Some(unit),
        Err(_) => None,
    }
}

/// Returns whether the identifier of a unit has `-per-`.
#[tactic(auto, unfolding(crate::specs::Units::is_two))]
pub(crate) fn is_two(unit: UnitId) -> bool
    ensures { result ≡ is_two unit.index }
{
    unit.is_compound()
}

/// Returns the identifier of a unit.
#[tactic(auto, unfolding(crate::specs::Units::name_at))]
pub(crate) fn name_at(unit: UnitId) -> &'static str
    ensures { result.now ≡ name_at unit.index }
{
    unit.name()
}

#[tactic(auto, unfolding(crate::specs::Units::type_at))]
fn type_at(unit: UnitId) -> &'static str
    ensures { result.now ≡ type_at unit.index }
{
    unit.unit_type()
}

#[tactic(auto, unfolding(crate::specs::Units::is_person))]
fn is_person(text: &[u8]) -> bool
    ensures { result ≡ is_person text.now }
{
    PERSON_UNITS.iter().any(|name| is_name(name, text))
}

/// Returns `day` of `day-person`.
#[tactic(auto, unfolding(crate::specs::Units::without_person))]
fn without_person(text: &[u8]) -> &[u8]
    ensures { result.now ≡ without_person text.now }
{
    if is_person(text) {
        before(text, text.len().saturating_sub(7))
    } else {
        text
    }
}

/// Returns the unit that bytes name: that of `day` for `day-person`.
#[tactic(auto, unfolding(crate::specs::Units::bytes_named))]
fn bytes_named(bytes: &[u8]) -> Option<UnitId>
    ensures { option_map index_of result ≡ bytes_named bytes.now }
{
    unit_named(text_of(without_person(bytes)))
}

/// Returns the indices of two units, of which the second is not two.
fn two_units(first: &[u8], second: &[u8]) -> Option<(u8, Option<u8>)>
    ensures { result ≡ two_units (bytes_named first.now) (bytes_named second.now) }
{
    let first = bytes_named(first)?;
    let second = bytes_named(second)?;
    if is_two(second) {
        return None;
    }
    Some((first.index(), Some(second.index())))
}

/// Returns the indices of the unit that bytes name, or of two units with `-per-` between them.
#[tactic(auto, unfolding(crate::specs::Units::units_named))]
pub(crate) fn units_named(bytes: &[u8]) -> Option<(u8, Option<u8>)>
    ensures { result ≡ units_named bytes.now }
{
    if let Some(unit) = bytes_named(bytes) {
        return Some((unit.index(), None));
    }
    let (first, second) = split_per(bytes)?;
    two_units(first, second)
}

/// Returns percent or permille, if a text is one of them.
#[tactic(auto, unfolding(crate::specs::Units::hundredth))]
pub(crate) fn hundredth(text: &[u8]) -> Option<ChosenUnit>
    ensures { result ≡ hundredth text.now }
{
    if is_name(b"percent         ", text) {
        return Some(ChosenUnit::Percent);
    }
    if is_name(b"permille        ", text) {
        return Some(ChosenUnit::Permille);
    }
    None
}

fn of_type(kind: &[u8], unit: UnitId) -> Option<UnitId>
    ensures { option_map index_of result ≡ of_type kind.now (Some unit.index) }
{
    if type_at(unit).as_bytes() == kind {
        Some(unit)
    } else {
        None
    }
}

/// Returns a unit by its type and its identifier: `length-meter`.
#[tactic(auto, unfolding(crate::specs::Units::measured))]
pub(crate) fn measured(text: &[u8]) -> Option<UnitId>
    ensures { option_map index_of result ≡ measured text.now }
{
    let kind = run(text, b'a', b'z');
    if byte_at(text, kind) != b'-' {
        return None;
    }
    match bytes_named(after(text, kind + 1)) {
        Some(unit) => of_type(before(text, kind), unit),
        None => None,
    }
}

/// Returns the choice of a unit by its type.
#[tactic(auto, unfolding(crate::specs::Units::measured_unit))]
pub(crate) fn measured_unit(unit: UnitId) -> ChosenUnit
    ensures { result ≡ measured_unit unit.index }
{
    match hundredth(name_at(unit).as_bytes()) {
        Some(hundredth) => hundredth,
        None => ChosenUnit::Units((unit.index(), None)),
    }
}

fn is_joined(first: &[u8], second: &[u8], name: &[u8]) -> bool
    ensures { result ≡ is_joined first.now second.now name.now }
{
    let rest = after(name, first.len());
    name.starts_with(first) && rest.starts_with(b"-per-") && after(rest, 5) == second
}

#[tactic(auto, unfolding(crate::specs::Units::index_joined))]
fn unit_joined(first: &[u8], second: &[u8]) -> Option<UnitId>
    ensures { option_map index_of result ≡ index_joined first.now second.now UNITS 0 }
{
    for index in 0..255 {
        let unit = UnitId::from_index(index)?;
        if is_joined(first, second, name_at(unit).as_bytes()) {
            return Some(unit);
        }
    }
    None
}

/// Returns two units, or the one whose identifier they are with `-per-` between them.
#[tactic(auto, unfolding(crate::specs::Units::joined))]
pub(crate) fn joined(unit: UnitId, per: UnitId) -> Unit
    ensures { indices_of result ≡ joined unit.index per.index }
{
    match unit_joined(name_at(unit).as_bytes(), name_at(per).as_bytes()) {
        Some(both) => Unit {
            unit: both,
            per: None,
        },
        None => Unit {
            unit,
            per: Some(per),
        },
    }
}
