//! Units by numbers, as C has them.
ghost use Rattle.std.specs.Prelude.{◌≡◌, Option, IfSome, IfNone};
ghost use Rattle.locale_names.specs.declared.unit_id.{Unit.Unit, UnitId.UnitId};
ghost use Rattle.fixed_decimal_c.specs.Units.{unit_number, per_number, HasNumbers, IsUnitNamed, WritesUnitName, fd_units};

use crate::error::FdError;
use crate::texts::deliver;
use locale_names::{Unit, UnitId};
use std::str;

/// The result of a function that finds a unit.
#[repr(C)]
#[derive(Clone, Copy)]
pub struct FdUnits {
    /// 0, or the number of the error.
    pub status: u32,
    /// The number of the unit, at least 1, or 0 with an error.
    pub unit: u8,
    /// The number of the unit after `per`, or 0 if there is none.
    pub per_unit: u8,
}

pub(crate) fn unit_number(unit: UnitId) -> u8
    ensures { result ≡ unit_number unit }
{
    unit.index() + 1
}

pub(crate) fn per_number(per: Option<UnitId>) -> u8
    ensures { result ≡ per_number per }
{
    match per {
        Some(unit) => unit_number(unit),
        None => 0,
    }
}

fn unit_at(number: u32) -> Option<UnitId>
    ensures some { IfSome result (λ id. number ≡ unit_number id) }
    ensures none { IfNone result ((id : UnitId) → number ≡ unit_number id → ⊥) }
{
    if number == 0 || number > 256 {
        return None;
    }
    UnitId::from_index((number - 1) as u8)
}

fn per_at(number: u8) -> Option<Option<UnitId>>
    ensures some { IfSome result (λ per. number ≡ per_number per) }
    ensures none { IfNone result ((per : Option UnitId) → number ≡ per_number per → ⊥) }
{
    if number == 0 {
        return Some(None);
    }
    match unit_at(number as u32) {
        Some(unit) => Some(Some(unit)),
        None => None,
    }
}

/// Returns the unit with these numbers.
pub(crate) fn unit_with(first: u8, second: u8) -> Option<Unit>
    ensures some { IfSome result (HasNumbers first second) }
    ensures none { IfNone result ((unit : Unit) → HasNumbers first second unit → ⊥) }
{
    let Some(unit) = unit_at(first as u32) else {
        return None;
    };
    match per_at(second) {
        Some(per) => Some(Unit { unit, per }),
        None => None,
    }
}

/// Returns the unit that a text names, if ECMA-402 has it.
pub(crate) fn unit_named(text: &[u8]) -> Result<Unit, FdError>
    ensures { IsUnitNamed result text.now }
{
    let Ok(name) = str::from_utf8(text) else {
        return Err(FdError::UnknownUnit);
    };
    let Ok(unit) = Unit::try_from_str(name) else {
        return Err(FdError::UnknownUnit);
    };
    if unit.is_sanctioned() {
        Ok(unit)
    } else {
        Err(FdError::UnknownUnit)
    }
}

/// Writes the name of the unit with a number.
pub(crate) fn write_name(number: u32, buffer: &mut [u8]) -> Result<usize, FdError>
    ensures { WritesUnitName result number buffer.old buffer.new }
{
    match unit_at(number) {
        Some(unit) => deliver(unit.name().as_bytes(), buffer),
        None => Err(FdError::UnknownOption),
    }
}

pub(crate) fn encode_units(answer: Result<Unit, FdError>) -> FdUnits
    ensures { result ≡ fd_units answer }
{
    match answer {
        Ok(unit) => FdUnits {
            status: 0,
            unit: unit_number(unit.unit),
            per_unit: per_number(unit.per),
        },
        Err(error) => FdUnits {
            status: error.status(),
            unit: 0,
            per_unit: 0,
        },
    }
}
