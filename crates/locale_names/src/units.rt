//! The identifiers of units.
ghost use Rattle.std.specs.{Cmp.Lexicographic.slice_cmp, Ordering.nat_cmp, Prelude.{◌≡◌, ◌+◌, ◌<◌, ◌≤◌, length, true, Some, None, MatchResult, IfErr, IsSomeAnd, IfSome}, Option.option_map, Result.result_map_both};
ghost use Rattle.locale_names.specs.{declared.{tables.units.TheConstants.UNITS, unit_id.UnitError.TheVariants.Unknown}, Units.{row_of, index_of, indices_of, has, are_sorted, index_in, unit_index, per_from, split_per, with_denominator, named, is_sanctioned, is_sanctioned_part}, Texts.{short_bytes, short_text}};

use crate::tables::rows::units::UnitRow;
use crate::tables::units::UNITS;
use crate::texts::{short_bytes, short_text};
use crate::unit_id::{Unit, UnitError, UnitId};
use locale_data::indexed_row;
use std::cmp::Ordering;

impl UnitId {
    fn row(self) -> &'static UnitRow
        ensures { row_of self ≡ Some result.now }
    {
        indexed_row(&UNITS, self.index as usize)
    }

    /// Returns the unit with an index from 0 to 229: units have the indices of their sorted identifiers.
    pub fn from_index(index: u8) -> Option<UnitId>
        ensures some { IfSome result (λ id. id.index ≡ index) }
        ensures none { result ≡ None → length UNITS ≤ index }
    {
        if (index as usize) < UNITS.len() {
            Some(UnitId { index })
        } else {
            None
        }
    }

    /// Returns the index of the unit.
    pub fn index(self) -> u8
        ensures { result ≡ self.index }
    {
        self.index
    }

    /// Returns the unit with an identifier. Letters have to be of the same case.
    ///
    /// # Errors
    ///
    /// `Unknown`: no unit of CLDR has this identifier.
    ///
    /// ```
    /// UnitId::try_from_str("kilometer-per-hour")?
    /// UnitId::try_from_str("Meter") // Unknown
    /// ```
    pub fn try_from_str(name: &str) -> Result<UnitId, UnitError>
        ensures value { MatchResult result (λ unit. unit_index name.now ≡ Some unit.index)
            (λ e. unit_index name.now ≡ None) }
        ensures err { IfErr result (λ e. e ≡ Unknown) }
    {
        match unit_named(name.as_bytes()) {
            Some(unit) => Ok(unit),
            None => Err(UnitError::Unknown),
        }
    }

    /// Returns the identifier.
    pub fn name(self) -> &'static str
        ensures { IsSomeAnd (row_of self) (λ row. result.now ≡ short_text row.name) }
    {
        short_text(self.row().name)
    }

    /// Returns the type of the unit, as ICU's stem `measure-unit/length-meter` names it: `length`.
    pub fn unit_type(self) -> &'static str
        ensures { IsSomeAnd (row_of self) (λ row. result.now ≡ short_text row.unit_type) }
    {
        short_text(self.row().unit_type)
    }

    /// Returns whether the identifier has `-per-`.
    pub fn is_compound(self) -> bool
        ensures { result ≡ has (λ row. row.is_compound) self }
    {
        self.row().is_compound
    }

    fn is_sanctioned_part(self) -> bool
        ensures { result ≡ has is_sanctioned_part self }
    {
        let row = self.row();
        row.is_sanctioned && !row.is_compound
    }
}

fn compared(unit: &UnitRow, name: &[u8]) -> Ordering
    ensures { result ≡ slice_cmp nat_cmp (short_bytes unit.now.name) name.now }
{
    short_bytes(unit.name).cmp(&name)
}

fn index_in(units: &[UnitRow], name: &[u8]) -> Option<usize>
    requires { are_sorted units.now ≡ true }
    ensures value { result ≡ index_in units.now name.now }
    ensures inside { IfSome result (λ index. index < length units.now) }
{
    match units.binary_search_by(|unit| compared(unit, name)) {
        Ok(index) => Some(index),
        Err(_) => None,
    }
}

fn unit_named(name: &[u8]) -> Option<UnitId>
    ensures { option_map index_of result ≡ unit_index name.now }
{
    match index_in(&UNITS, name) {
        Some(index) => Some(UnitId { index: index as u8 }),
        None => None,
    }
}

fn per_index(text: &[u8]) -> Option<usize>
    ensures value { result ≡ per_from 0 text.now }
    ensures inside { IfSome result (λ index. index + 5 ≤ length text.now) }
{
    for index in 0..text.len() {
        if text[index..].starts_with(b"-per-") {
            return Some(index);
        }
    }
    None
}

/// Returns what precedes the first `-per-` of a text, and what follows it.
///
/// ```
/// split_per(b"gram-per-second") // gram, second
/// split_per(b"gram") // None
/// ```
pub fn split_per(text: &[u8]) -> Option<(&[u8], &[u8])>
    ensures { option_map (λ parts. (parts.0.now, parts.1.now)) result ≡ split_per text.now }
{
    match per_index(text) {
        Some(index) => Some((&text[..index], &text[index + 5..])),
        None => None,
    }
}

fn with_denominator(unit: UnitId, per: Option<UnitId>) -> Result<Unit, UnitError>
    ensures { result_map_both indices_of (λ e. e) result
        ≡ with_denominator unit.index (option_map index_of per) }
{
    let Some(per) = per else {
        return Err(UnitError::Denominator);
    };
    if per.is_compound() {
        return Err(UnitError::Denominator);
    }
    Ok(Unit {
        unit,
        per: Some(per),
    })
}

impl Unit {
    /// Returns the unit that a text names: one, or two with `-per-` between them.
    ///
    /// # Errors
    ///
    /// Which part of the text is no unit of CLDR.
    ///
    /// ```
    /// Unit::try_from_str("meter-per-second") // Ok: one unit
    /// Unit::try_from_str("gram-per-second") // Ok: two units
    /// Unit::try_from_str("gram-per-meter-per-second") // Err(Denominator)
    /// ```
    pub fn try_from_str(text: &str) -> Result<Unit, UnitError>
        ensures { result_map_both indices_of (λ e. e) result ≡ named text.now }
    {
        let text = text.as_bytes();
        if let Some(unit) = unit_named(text) {
            return Ok(Unit { unit, per: None });
        }
        let Some((numerator, denominator)) = split_per(text) else {
            return Err(UnitError::Unknown);
        };
        let Some(unit) = unit_named(numerator) else {
            return Err(UnitError::Numerator);
        };
        with_denominator(unit, unit_named(denominator))
    }

    /// Returns whether ECMA-402 admits the unit: one of 45, or two of these with `-per-` between them.
    ///
    /// ECMA-402, abstract operation IsWellFormedUnitIdentifier.
    pub fn is_sanctioned(self) -> bool
        ensures { result ≡ is_sanctioned self }
    {
        match self.per {
            None => self.unit.row().is_sanctioned,
            Some(per) => self.unit.is_sanctioned_part() && per.is_sanctioned_part(),
        }
    }
}
