//! Units, and why a text names none.
ghost use Rattle.std.specs.Prelude.{◌<◌, length};
ghost use Rattle.locale_names.specs.declared.tables.units.TheConstants.{UNITS};

/// A unit of CLDR, such as `kilometer` or `mile-per-gallon`.
///
/// UTS 35 part 2, Unit Identifiers.
///
/// ```
/// let meter = UnitId::try_from_str("meter")?;
/// meter.unit_type() // length
/// ```
#[derive(Clone, Copy, Debug, PartialEq)]
pub struct UnitId {
    pub(crate) index: u8,
    pub ghost listed: { index < length UNITS },
}

/// A unit, or two of which the second follows `per`.
///
/// ```
/// let unit = Unit::try_from_str("gram-per-second")?;
/// unit.unit.name() // gram
/// unit.per?.name() // second
/// ```
#[derive(Clone, Copy, Debug, PartialEq)]
pub struct Unit {
    /// The unit, or the first of two.
    pub unit: UnitId,
    /// The second unit.
    pub per: Option<UnitId>,
}

/// Why a text is no unit.
///
/// ```
/// Unit::try_from_str("parsnip") // Unknown
/// Unit::try_from_str("parsnip-per-hour") // Numerator
/// Unit::try_from_str("meter-per-parsnip") // Denominator
/// ```
#[derive(Clone, Copy, Debug, PartialEq)]
pub enum UnitError {
    /// It is no unit of CLDR. Where two units may be named, it has no `-per-` either.
    Unknown,
    /// What precedes its first `-per-` is no unit of CLDR.
    Numerator,
    /// What follows its first `-per-` is no unit of CLDR, or has `-per-` too.
    Denominator,
}
