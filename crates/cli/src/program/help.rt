//! The texts of `--help` and `--version`.
ghost use Rattle.std.specs.{Prelude.{◌≡◌, ◌++◌, OnOk}, Io.KnownBytes.Appends};
ghost use Rattle.cli.specs.Help.{name_of, usage_of, words_of, table_of, skeletons_of, version_of, help_of, answer_of};

use crate::program::locale_list::print_locales;
use fixed_decimal::{WriteError, write_whole};
use std::io::Write;

/// A program.
#[derive(Clone, Copy, Debug, PartialEq)]
pub enum Program {
    Fixdec,
    FixdecLines,
    Plural,
}

/// What `--help`, `--version` or `--locales` as the only word asks for, instead of the work of a program.
#[derive(Clone, Copy)]
pub enum Request {
    Help,
    Version,
    Locales,
}

/// The version of the programs, and that of their data.
const VERSION: &str = "0.7.3+4 (CLDR 48)";

const FIXDEC: &str = "usage: fixdec TEXT [CALL]..";

const FIXDEC_LINES: &str = "usage: fixdec_lines [OPTION].. [read:LOCALE] [CALL].. [format:LOCALE]";

const PLURAL: &str = "usage: plural RULES TEXT..";

/// What `fixdec` does, and all its words.
const TEXT: &str = "

All words: TEXT [read:LOCALE[:lenient][:SKELETON]] [CALL].. [format:LOCALE[:GROUPING|:SKELETON]]
   or: TEXT to:END [read:LOCALE[:lenient][:SKELETON]] [CALL].. format:LOCALE[:GROUPING|:SKELETON]
Reads TEXT as a decimal, makes the calls in order, and writes the result and a line feed. With to:END it reads
END in the same way, makes the same calls on it, and writes the range from TEXT to END.

fixdec 250 shift:-2                              2.50
fixdec 1.234,565 read:de round:-2:half-even:1    1234.56
fixdec '$7.50' read:en:currency/USD              7.50
fixdec 1234567.5 format:en-IN                    12,34,567.5
fixdec 1234567 format:en:K                       1.2M
fixdec 3 to:5 format:ko                          3~5

Status 0: the result is on standard output. 1: TEXT, END or a call is rejected. 2: a word is wrong. 3: out of
memory, or the output fails. Errors are lines of standard error; call 0 is the first call.
";

/// What `fixdec_lines` does, and its options.
const OPTIONS: &str = "
   or: fixdec_lines --locales
   or: fixdec_lines --version

Reads lines of standard input, makes the calls on each, and writes a line for each to standard output.

printf '250\\n7\\n' | fixdec_lines shift:-2
fixdec_lines header csv field:2 round:-2:half-even:1 < prices.csv
fixdec_lines header csv field:price shift:-2 field:3 format:en < prices.csv
fixdec_lines skip read:de:lenient format:en < amounts.txt

Status 0: each line has a result. 1: a line is rejected. 2: a word is wrong. 3: out of memory, or the input
or the output fails. Errors are lines of standard error; line 1 is the first line, call 0 the first call.

field:N, field:NAME     converts the Nth field of each line, or that with a NAME in the header, and copies the rest;
                        field:=2 is the name 2. Another field:M with its own words may follow, and so on
delimiter:C             C is between two fields: by default a tab, with csv a comma
csv                     fields may be in quotes, as in RFC 4180
records                 with csv, fields may have line feeds in quotes, in records of at most 1 MiB
header                  the first line is copied
skip                    reports a line that fails, and writes an empty line
keep                    reports a line that fails, and copies it
trim                    blanks and tabs around a text are no part of it
";

/// What `plural` does, and its words.
const RULES: &str = "
   or: plural LOCALE[:cardinal|:ordinal] TEXT..
   or: plural --version

Writes the plural category of each TEXT to standard output: zero, one, two, few, many or other.

plural ru 1 2 5                           one, few, many
plural ru 1..5                            many
plural en:ordinal 22                      two
plural 'one: i = 1 and v = 0' 1 1.0       one, other

Status 0: each TEXT has a category. 1: RULES or a TEXT is rejected. 2: a word is wrong. 3: out of memory, or
the output fails. Errors are lines of standard error; text 1 is the first TEXT.

LOCALE is a tag as pt-PT, or a name as pt_PT.UTF-8, and its rules are those of CLDR. After a LOCALE a TEXT may be
a range, as 1..5: its category is the one that the language has for the categories of its two ends. RULES are
rules between semicolons, as 'one: i = 1 and v = 0; many: e != 0..5', with the operands
";

const CALLS: &str = "
shift:D                 multiplies by 10^D
trim-start              removes leading zeros
trim-end                removes trailing zeros among the fraction digits
trim-end-if-integer     removes the fraction digits if all of them are 0
pad-start:P             shows leading zeros up to P integer digits, and no others; P is above 0
pad-end:P               shows trailing zeros down to the position P, and no others; P is not above 0
max:P                   shows exactly the digits below the position P, with leading zeros
round:P:MODE:INC        rounds to a multiple of INC times 10^P
sign:SIGN               sets the sign: none, minus or plus
display:DISPLAY         changes the sign: auto, never, always, except-zero or negative
concat:TEXT             adds a number without a sign whose first nonzero digit is below the last one

P is a position: 0 is at the decimal point, -2 two digits to the right of it, and 2 two digits to the left.
So round:-2:half-even:1 keeps two decimals, and round:2:half-even:1 rounds to hundreds.

D and P: from -32768 to 32767
MODE: ceil, floor, expand, trunc, half-ceil, half-floor, half-expand, half-trunc, half-even
INC: 1, 2, 5, 25

read:LOCALE[:lenient]     reads the text as the locale writes it, or as people type it
read:LOCALE[:lenient]:SKELETON
                          reads an amount or a percentage by a number skeleton of ICU
format:LOCALE[:GROUPING]  writes the result as the locale does, with all its digits
format:LOCALE:SKELETON    writes it as a number skeleton of ICU says

LOCALE: a tag as de-CH, or a name as de_CH.UTF-8
GROUPING: auto, never, always, min2
";

const SKELETONS: &str = "\
SKELETON: stems with spaces between them, in one word, as 'format:de:currency/EUR .00'

currency/EUR            an amount; with unit-width-narrow, unit-width-iso-code, unit-width-hidden or
                        unit-width-full-name
percent, %x100          12 is 12%, 0.12 is 12%
unit/kilometer-per-hour 5 is 5 km/h; with unit-width-narrow 5km/h, with unit-width-full-name 5 kilometers per hour
K, KK                   1.2K, 1.2 thousand
E0, EE0                 12000 is 1.2E4, or 12E3 with an exponent that is a multiple of 3; E+!00: 1.2E+04
.00 .0# .00* . .+       two fraction digits, one or two, two or more, none, all; .00/w: none if they are 0
@@ @@# @@*              two significant digits, two or three, two or more
precision-increment/0.05, precision-currency-cash
rounding-mode-half-up   also ceiling, floor, down, up, half-even, half-ceiling, half-floor, half-down
000                     three integer digits or more; integer-width/##00: two to four; integer-width/*: .5
,_ ,? ,!                groups: never, min2, always; group-thousands: of three digits in each locale
+! +_ +? +- ()          sign: always, never, except-zero, negative, accounting
scale/100               multiplies by a power of ten first
numbering-system/arab   digits
decimal-always          5 is 5.

Without stems rounding is half-even, to the digits of the currency or of compact notation, or else to six
fraction digits.

";

const OPERANDS: &str = "\
n     the absolute value
i     the integer digits
v, w  the number of fraction digits, with and without trailing zeros
f, t  the fraction digits as an integer, with and without trailing zeros
c, e  the exponent of a compact decimal, as 6 of 1.2c6

";

impl Program {
    /// Returns the name.
    #[tactic(auto, unfolding(crate::specs::Help::name_of))]
    pub fn name(self) -> &'static str
        ensures { result.now ≡ name_of self }
    {
        match self {
            Program::Fixdec => "fixdec",
            Program::FixdecLines => "fixdec_lines",
            Program::Plural => "plural",
        }
    }

    /// Returns the usage line.
    #[tactic(auto, unfolding(crate::specs::Help::usage_of))]
    pub fn usage(self) -> &'static str
        ensures { result.now ≡ usage_of self }
    {
        match self {
            Program::Fixdec => FIXDEC,
            Program::FixdecLines => FIXDEC_LINES,
            Program::Plural => PLURAL,
        }
    }

    /// Returns what follows the usage line: a text on the words, and a table.
    #[tactic(auto, unfolding(crate::specs::Help::words_of, crate::specs::Help::table_of))]
    fn words_and_table(self) -> (&'static str, &'static str)
        ensures words { result.0.now ≡ words_of self }
        ensures table { result.1.now ≡ table_of self }
    {
        match self {
            Program::Fixdec => (TEXT, CALLS),
            Program::FixdecLines => (OPTIONS, CALLS),
            Program::Plural => (RULES, OPERANDS),
        }
    }

    /// Returns the stems of skeletons, if the program has them.
    #[tactic(auto, unfolding(crate::specs::Help::skeletons_of))]
    fn skeletons(self) -> &'static str
        ensures { result.now ≡ skeletons_of self }
    {
        match self {
            Program::Fixdec | Program::FixdecLines => SKELETONS,
            Program::Plural => "",
        }
    }

    /// Writes the line of `--version`.
    pub fn print_version<W: Write>(self, out: &mut W) -> Result<(), WriteError<W>>
        ensures { OnOk result (Appends (W.contents out.old) (W.contents out.new) (version_of self)) }
    {
        write_whole(out, self.name().as_bytes())?;
        write_whole(out, b" ")?;
        write_whole(out, VERSION.as_bytes())?;
        write_whole(out, b"\n")
    }

    fn print_words<W: Write>(self, out: &mut W) -> Result<(), WriteError<W>>
        ensures { OnOk result (Appends (W.contents out.old) (W.contents out.new)
            (usage_of self ++ (words_of self ++ table_of self))) }
    {
        let (words, table) = self.words_and_table();
        write_whole(out, self.usage().as_bytes())?;
        write_whole(out, words.as_bytes())?;
        write_whole(out, table.as_bytes())
    }

    /// Writes the text of `--help`, which ends with the line of `--version`.
    pub fn print_help<W: Write>(self, out: &mut W) -> Result<(), WriteError<W>>
        ensures { OnOk result (Appends (W.contents out.old) (W.contents out.new) (help_of self)) }
    {
        self.print_words(out)?;
        write_whole(out, self.skeletons().as_bytes())?;
        self.print_version(out)
    }

    /// Writes what a request asks for.
    pub fn print<W: Write>(self, request: Request, out: &mut W) -> Result<(), WriteError<W>>
        ensures { OnOk result (Appends (W.contents out.old) (W.contents out.new) (answer_of self request)) }
    {
        match request {
            Request::Help => self.print_help(out),
            Request::Version => self.print_version(out),
            Request::Locales => print_locales(out),
        }
    }
}
