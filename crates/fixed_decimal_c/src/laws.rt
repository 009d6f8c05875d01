//! Laws of words and of formatters that C keeps: the contract of each function states a law.
ghost use Rattle.std.specs.{Prelude.{◌≡◌, ℕ, ◌+◌, Bool, List, ◌++◌, length, slice_get, Some, Ok, Result}, Str.IsUtf8};
ghost use Rattle.conversions.specs.Calls.{Names};
ghost use Rattle.fixed_decimal.specs.declared.runs.Call.{Call};
ghost use Rattle.locale_names.specs.declared.{locale_units.UnitDisplay.UnitDisplay, unit_id.Unit.Unit};
ghost use Rattle.number_format.specs.declared.options.{NumberStyle.NumberStyle, PerDisplay.PerDisplay};
ghost use Rattle.fixed_decimal_c.specs.{Calls.{IsPart, IsCall}, Formats.{FormatsNumber, FormatsBySkeleton}, KeptFormatters.{FormatsKept, MakesByOptions, MakesBySkeleton, ReadsKept}, NumberOptions.IsOptionStyle, NumberReadings.{ReadsNumber, ReadsBySkeleton}, Styles.unit_displays, Units.{NamesUnit, fd_units}, Words.{IsReadWord, IsFormatWord, IsReadAnswer, IsFormatAnswer, IsCallAnswer, IsWord, moved_call}, declared.{calls.FdCall.FdCall, error.FdError.FdError, formatter.FdFormatter.FdFormatter, number_options.FdNumberOptions.FdNumberOptions, words.FdWord.FdWord}};

/// A part of a word is a part of words that are placed one after another: its start counts the bytes before the word.
#[tactic(auto, using(crate::proofs::lemmas::words::JoinedWords::part_of_joined))]
pub fn part_of_joined_words()
    ensures { (before word after : List ℕ) (start count : ℕ) (t : List ℕ) → IsPart word start count t
        → IsPart (before ++ (word ++ after)) (length before + start) count t }
{}

/// Over words that are placed one after another, the call of a word decodes to the same call.
#[tactic(auto, using(crate::proofs::lemmas::words::JoinedWords::call_of_joined))]
pub fn call_of_joined_words()
    ensures { (before word after : List ℕ) (c : FdCall) (call : Call) → IsCall c word call
        → IsCall (moved_call (length before) c) (before ++ (word ++ after)) call }
{}

/// A word that names a call is received as a call.
#[tactic(auto, using(crate::proofs::lemmas::words::KindsOfWords::call_is_received))]
pub fn calls_are_received()
    ensures { (word : List ℕ) (w : FdWord) (call : Call) → IsUtf8 word → Names word call → IsWord word w
        → IsCallAnswer word w }
{}

/// `read:..` is received as `read:..`.
#[tactic(auto, using(crate::proofs::lemmas::words::KindsOfWords::read_is_received))]
pub fn readers_are_received()
    ensures { (word : List ℕ) (w : FdWord) → IsUtf8 word → IsReadWord word → IsWord word w → IsReadAnswer word w }
{}

/// `format:..` is received as `format:..`.
#[tactic(auto, using(crate::proofs::lemmas::words::KindsOfWords::format_is_received))]
pub fn formats_are_received()
    ensures { (word : List ℕ) (w : FdWord) → IsUtf8 word → IsFormatWord word → IsWord word w → IsFormatAnswer word w }
{}

/// `fd_format` by the formatter of a tag and options writes what `fd_format_number` writes by them.
pub fn kept_options_format()
    ensures { (tag : List ℕ) (options : FdNumberOptions) (c : FdFormatter) (answer : Result ℕ FdError)
        (text old new : List ℕ) → MakesByOptions (Ok c) tag options → FormatsKept answer c text old new
        → FormatsNumber answer text tag options old new }
{}

/// `fd_format` by the formatter of a tag and a skeleton writes what `fd_format_by_skeleton` writes by them.
pub fn kept_skeletons_format()
    ensures { (tag skeleton : List ℕ) (c : FdFormatter) (answer : Result ℕ FdError) (text old new : List ℕ)
        → MakesBySkeleton (Ok c) tag skeleton → FormatsKept answer c text old new
        → FormatsBySkeleton answer text tag skeleton old new }
{}

/// `fd_read` by the formatter of a tag and options reads what `fd_read_number` reads by them.
pub fn kept_options_read()
    ensures { (tag : List ℕ) (options : FdNumberOptions) (c : FdFormatter) (answer : Result ℕ FdError) (text : List ℕ)
        (lenient : Bool) (old new : List ℕ) → MakesByOptions (Ok c) tag options
        → ReadsKept answer c text lenient old new → ReadsNumber answer text tag options lenient old new }
{}

/// `fd_read` by the formatter of a tag and a skeleton reads what `fd_read_by_skeleton` reads by them.
pub fn kept_skeletons_read()
    ensures { (tag skeleton : List ℕ) (c : FdFormatter) (answer : Result ℕ FdError) (text : List ℕ) (lenient : Bool)
        (old new : List ℕ) → MakesBySkeleton (Ok c) tag skeleton → ReadsKept answer c text lenient old new
        → ReadsBySkeleton answer text tag skeleton lenient old new }
{}

/// Options with the style 4, the numbers that `fd_unit` returns for a name, and a width have the unit of this name.
#[tactic(auto, using(crate::proofs::lemmas::styles::NamedStyles::named_style))]
pub fn named_units_are_options()
    ensures { (name : List ℕ) (unit : Unit) (c : FdNumberOptions) (display : UnitDisplay) → NamesUnit name unit
        → c.style ≡ 4 → c.unit ≡ (fd_units (Ok unit)).unit → c.per_unit ≡ (fd_units (Ok unit)).per_unit
        → slice_get unit_displays c.unit_display ≡ Some display
        → IsOptionStyle c
        (NumberStyle.Unit (record { unit = unit; display = display; per_display = PerDisplay.Auto })) }
{}
