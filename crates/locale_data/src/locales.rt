//! The symbols and the numbering system of a tag.
ghost use Rattle.std.specs.{Prelude.{◌≡◌, ◌↔◌, ◌<◌, ◌⊎◌, length, None, IsNone, IfNone, IfSome, IsSomeAnd, Contains}, Option.option_copied};
ghost use Rattle.locale_data.specs.{Rows.{row_at, unpadded}, Locales.{system_named, system_of, own_rows, symbols_of, symbols_in, symbols_at, HasOneWidth, IsListed, IsLocale, IsLocaleIn, AreRowsOf, IsOwnIndex, IsUnknown, system_name_at}};
ghost use Rattle.decimal_format.specs.Readable.{IsReadable};

use crate::search::{Row, index_named, indexed_row, part, row_index, unpadded};
use crate::tables::rows::Name;
use crate::tables::rows::symbols::{DecimalSystem, LocaleSymbols, SymbolSet};
use crate::tables::symbols::{LOCALES, LOCALES_BY_SYSTEM, NUMBERING_SYSTEMS};
use crate::tag::requested_system;
use decimal_format::{Affixes, DecimalSymbols, GroupingSizes};
use std::str;

impl Row for DecimalSystem {
    ghost name = { λ system. system.name };

    fn name(&self) -> Name {
        self.name
    }
}

impl Row for LocaleSymbols {
    ghost name = { λ locale. locale.tag };

    fn name(&self) -> Name {
        self.tag
    }
}

// A function that names a table is checked with all of its rows, so what several functions read is lent by one.

pub(crate) fn locales() -> &'static [LocaleSymbols]
    ensures { result.now ≡ LOCALES }
{
    &LOCALES
}

fn numbering_systems() -> &'static [DecimalSystem]
    ensures { result.now ≡ NUMBERING_SYSTEMS }
{
    &NUMBERING_SYSTEMS
}

#[tactic(auto, unfolding(crate::specs::Locales::system_named))]
fn system_named(name: &[u8]) -> Option<usize>
    ensures value { row_at NUMBERING_SYSTEMS result ≡ system_named name.now }
    ensures inside { IfSome result (λ i. i < length NUMBERING_SYSTEMS) }
{
    index_named(numbering_systems(), name)
}

fn system_index(tag: &[u8], locale: &LocaleSymbols) -> Option<usize>
    requires { Contains LOCALES locale.now }
    ensures value { row_at NUMBERING_SYSTEMS result ≡ system_of tag.now locale.now }
    ensures inside { IfSome result (λ i. i < length NUMBERING_SYSTEMS) }
{
    match requested_system(tag) {
        Some(name) => system_named(name),
        None => Some(locale.system as usize),
    }
}

fn own_rows(system: &DecimalSystem) -> &'static [LocaleSymbols]
    ensures { result.now ≡ own_rows system.now }
{
    part(&LOCALES_BY_SYSTEM, system.rows)
}

#[inline(always)]
fn symbols_of(
    system: &DecimalSystem,
    set: SymbolSet,
    sizes: GroupingSizes,
) -> DecimalSymbols<'static>
    requires { HasOneWidth system.now.digits }
    ensures { result ≡ symbols_of system.now set sizes }
{
    let minus = Affixes {
        prefix: set.minus.text(),
        suffix: "",
    };
    let plus = Affixes {
        prefix: set.plus.text(),
        suffix: "",
    };
    let (decimal, grouping) = (set.decimal.text(), set.grouping.text());
    DecimalSymbols::of_valid(system.digits, decimal, grouping, minus, plus, sizes)
}

#[inline(always)]
fn symbols_in(
    system: &DecimalSystem,
    locale: &LocaleSymbols,
    own: Option<&LocaleSymbols>,
) -> DecimalSymbols<'static>
    requires { HasOneWidth system.now.digits }
    ensures { result ≡ symbols_in system.now locale.now (option_copied own.entry) }
{
    match own {
        Some(own) => symbols_of(system, own.symbols, own.sizes),
        None => symbols_of(
            system,
            system.symbols.unwrap_or(locale.symbols),
            locale.sizes,
        ),
    }
}

/// The indices of the rows of a tag in the tables of symbols. They are the same as long as the tables are.
///
/// ```
/// let id = locale_id("de-CH")?;
/// symbols_at(id)?.grouping_separator() // '
/// ```
#[derive(Clone, Copy)]
pub struct LocaleId {
    /// The row of the locale in `LOCALES`.
    pub locale: u16,
    /// The numbering system in `NUMBERING_SYSTEMS`.
    pub system: u16,
    /// The row of the symbols among those of the numbering system, if it has some for the locale.
    pub own: Option<u16>,
}

/// Returns the row of a tag in `LOCALES`, and its numbering system in `NUMBERING_SYSTEMS`.
fn rows_of(tag: &[u8]) -> Option<(usize, usize)>
    ensures found { IfSome result (λ found. AreRowsOf tag.now found.0 found.1) }
    ensures inside { IfSome result (λ found. (found.0 < length LOCALES) × (found.1 < length NUMBERING_SYSTEMS)) }
    ensures unknown { IsNone result ↔ IsUnknown tag.now }
{
    let rows = locales();
    let locale = row_index(rows, tag)?;
    let system = system_index(tag, indexed_row(rows, locale))?;
    Some((locale, system))
}

/// Returns the row of a tag among those of a numbering system, if it has some for the tag.
fn own_index(tag: &[u8], system: usize) -> Option<u16>
    requires { system < length NUMBERING_SYSTEMS }
    ensures { IsOwnIndex tag.now system result }
{
    match row_index(own_rows(indexed_row(numbering_systems(), system)), tag) {
        Some(index) => Some(index as u16),
        None => None,
    }
}

/// Returns the rows of a tag, from which [`symbols_at`] makes its symbols. Returns `None` where [`locale`] does.
///
/// ```
/// symbols_at(locale_id("de-CH")?) // 1'234'567.5
/// ```
pub fn locale_id(tag: &str) -> Option<LocaleId>
    ensures found { IfSome result (λ id. IsSomeAnd (symbols_at id) (IsLocale tag.now)) }
    ensures rows { IfSome result (λ id. AreRowsOf tag.now id.locale id.system) }
    ensures unknown { IsNone result ↔ IsUnknown tag.now }
{
    let tag = tag.as_bytes();
    let (locale, system) = rows_of(tag)?;
    Some(LocaleId {
        locale: locale as u16,
        system: system as u16,
        own: own_index(tag, system),
    })
}

/// Returns the rows of a tag in a numbering system, as `latn`, whichever the tag names.
///
/// They are those of [`locale_id`] for a tag that names this system. Returns `None` if no tag of the locale is listed,
/// or the numbering system is not.
///
/// ```
/// symbols_at(locale_id_in("ar-EG", "latn")?) // 1,234,567.5
/// ```
pub fn locale_id_in(tag: &str, system: &str) -> Option<LocaleId>
    ensures found { IfSome result (λ id. IsSomeAnd (symbols_at id) (IsLocaleIn tag.now system.now)) }
    ensures unknown { IfNone result (IsListed LOCALES tag.now None ⊎ (system_named system.now ≡ None)) }
{
    let tag = tag.as_bytes();
    let locale = row_index(locales(), tag)?;
    let system = system_named(system.as_bytes())?;
    Some(LocaleId {
        locale: locale as u16,
        system: system as u16,
        own: own_index(tag, system),
    })
}

/// Returns the symbols of a locale from its rows, and `None` if there are no such rows.
///
/// ```
/// symbols_at(locale_id("hi")?) // 12,34,567.5
/// ```
#[inline(always)]
pub fn symbols_at(id: LocaleId) -> Option<DecimalSymbols<'static>>
    ensures value { result ≡ symbols_at id }
    ensures readable { IfSome result (λ s. IsReadable s) }
{
    let locale = locales().get(id.locale as usize)?;
    let system = numbering_systems().get(id.system as usize)?;
    let Some(own) = id.own else {
        return Some(symbols_in(system, locale, None));
    };
    let own = own_rows(system).get(own as usize)?;
    Some(symbols_in(system, locale, Some(own)))
}

/// Returns the symbols of a locale.
///
/// `tag` is a tag of BCP 47, as `de-CH` or `hi-u-nu-deva`, or the name of a locale in a shell, as `de_CH.UTF-8`.
/// Letters may be of either case, and `_`, `.` and `@` are hyphens. The locale is the listed one with the longest tag
/// that is `tag` or has a hyphen after it there, so `de-DE` has the symbols of `de`. The numbering system is the one
/// that `nu` names, or the default one of the locale; what follows `-x-` is for private use, and names none.
///
/// The symbols are readable. Returns `None` if no tag of the locale is listed, or the numbering system is not.
///
/// ```
/// locale("de_CH.UTF-8") // 1'234'567.5
/// locale("ar-EG-u-nu-latn") // 1,234,567.5
/// locale("tlh") // None
/// ```
pub fn locale(tag: &str) -> Option<DecimalSymbols<'static>>
    ensures found { IfSome result (IsLocale tag.now) }
    ensures readable { IfSome result (λ s. IsReadable s) }
    ensures unknown { IsNone result ↔ IsUnknown tag.now }
{
    match locale_id(tag) {
        Some(id) => symbols_at(id),
        None => None,
    }
}

fn name_of(system: &'static DecimalSystem) -> &'static str
    requires { Contains NUMBERING_SYSTEMS system.now }
    ensures { result.now ≡ unpadded system.now.name }
{
    match str::from_utf8(unpadded(&system.name)) {
        Ok(name) => name,
        Err(_) => unreachable!(),
    }
}

/// Returns the name of the numbering system of a locale from its rows, as `latn`, and `None` if there is no such row.
///
/// ```
/// system_name_at(locale_id("hi-u-nu-deva")?) // deva
/// ```
pub fn system_name_at(id: LocaleId) -> Option<&'static str>
    ensures value { option_copied result ≡ system_name_at id }
    ensures none { IfNone result (symbols_at id ≡ None) }
{
    match numbering_systems().get(id.system as usize) {
        Some(system) => Some(name_of(system)),
        None => None,
    }
}
