//! Laws of the tables: the contract of each function states a law.
ghost use Rattle.std.specs.Prelude.{◌≡◌, ℕ, List};
ghost use Rattle.decimal_format.specs.Symbols.{Symbols};
ghost use Rattle.locale_data.specs.Locales.{IsLocale};

/// A tag has the symbols of at most one locale.
pub fn locale_is_unique()
    ensures { (tag : List ℕ) (s t : Symbols) → IsLocale tag s → IsLocale tag t → s ≡ t }
{}
