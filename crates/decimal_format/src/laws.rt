//! Laws of formatted texts: the contract of each function states a law.
ghost use Rattle.std.specs.Prelude.{◌≡◌, ℕ, List};
ghost use Rattle.decimal_unsigned.specs.Unsigned.{IsValue};
ghost use Rattle.fixed_decimal.specs.{Decimal.Decimal, DecimalText.decimal_text};
ghost use Rattle.decimal_format.specs.{Ascii.ascii_with, Formatted.formatted, Lenient.IsTyped, Readable.IsReadable, Symbols.{Symbols, without_grouping}, declared.grouping.{GroupingSizes.GroupingSizes, GroupingStrategy.{GroupingStrategy, TheVariants.Never}}};

/// With the ASCII symbols and `Never`, the text of a decimal is its own.
#[tactic(auto, using(crate::proofs::lemmas::formatter::FormattedLaws::ascii_is_plain))]
pub fn ascii_is_plain()
    ensures { (grouping : List ℕ) (sizes : GroupingSizes) (v : Decimal)
        → formatted (ascii_with grouping sizes) Never v ≡ decimal_text v }
{}

/// Groups only insert separators: if the grouping separator is empty, the text is that of `Never`.
#[tactic(auto, using(crate::proofs::lemmas::formatter::FormattedLaws::groups_insert_separators))]
pub fn groups_insert_separators()
    ensures { (s : Symbols) (strategy : GroupingStrategy) (v : Decimal)
        → formatted (without_grouping s) strategy v ≡ formatted s Never v }
{}

/// With readable symbols, two values have different texts, whatever strategies they are formatted by.
#[tactic(auto, using(crate::proofs::lemmas::reader::NumeralLaws::texts_are_unique))]
pub fn texts_are_unique()
    ensures { (s : Symbols) (g h : GroupingStrategy) (v w : Decimal) → IsReadable s → IsValue v.absolute
        → IsValue w.absolute → formatted s g v ≡ formatted s h w → v ≡ w }
{}

/// With readable symbols, a text as people type it is that of at most one value.
pub fn typed_texts_are_unique()
    ensures { (s : Symbols) (text : List ℕ) (v w : Decimal) → IsReadable s → IsValue v.absolute
        → IsValue w.absolute → IsTyped s v text → IsTyped s w text → v ≡ w }
{}
