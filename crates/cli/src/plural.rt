//! `plural LOCALE[:TYPE] TEXT..` and `plural RULES TEXT..`: prints the plural category of each text on a line.
ghost use Rattle.std.specs.{Prelude.{◌≡◌, ◌≤◌, Bool, Result, IfOk, IfErr}, Process.exit_status, Option.option_copied};
ghost use Rattle.cli.specs.{declared.program.{error.ProgramError.ProgramError, help.Program.TheVariants.Plural}, Arguments.Ends, Diagnostics.ConcludesWith, Plural.{named_tag, HasRules, RulesFail, Categorizes}};

mod categories;
mod text_rules;

use crate::plural::categories::print_categories;
use crate::plural::text_rules::TextRules;
use crate::program::arguments::start;
use crate::program::diagnostics::{Diagnostics, Ended, ErrorLines, conclude_ended};
use crate::program::error::{ProgramError, WordsError};
use crate::program::help::Program;
use conversions::{locale_and_type, parse_rules};
use fixed_decimal::{BufferedOut, Closed};
use std::alloc::Global;
use std::env::Args;
use std::io::Write;
use std::process::ExitCode;
use std::{env, io};

/// Returns the tag of the locale that a word names, if it names one.
fn named_tag(word: &str) -> Option<&str>
    ensures { option_copied result ≡ named_tag word.now }
{
    match locale_and_type(word) {
        Some((tag, _)) => Some(tag),
        None => None,
    }
}

fn rules_and_texts(
    alloc: Global,
    words: &[String],
) -> Result<(TextRules<'_>, &[String]), ProgramError>
    ensures found { IfOk result (λ found. HasRules words.now (λ rules texts. (rules ≡ found.0)
        × (texts ≡ found.1.now))) }
    ensures error { IfErr result (RulesFail words.now) }
{
    let Some((first, texts)) = words.split_first() else {
        return Err(ProgramError::setup(Program::Plural, WordsError::NoText));
    };
    if texts.is_empty() {
        return Err(ProgramError::setup(Program::Plural, WordsError::NoText));
    }
    let word = first.as_str();
    let rules = parse_rules(alloc, word)?;
    Ok((TextRules::new(rules, named_tag(word)), texts))
}

/// Prints the categories of the texts after the rules through a block.
fn print<O: Write + Drop>(alloc: Global, words: &[String], out: O) -> Ended<O>
    ensures { Categorizes O.contents out words.now result.0 result.1 }
{
    let (rules, texts) = match rules_and_texts(alloc, words) {
        Ok(found) => found,
        Err(error) => return (Err(error), Some(Closed::new(out, None))),
    };
    let Ok(mut buffered) = BufferedOut::open(alloc, out) else {
        let no_memory = ProgramError::setup(Program::Plural, WordsError::Memory);
        return (Err(no_memory), None);
    };
    let printed = print_categories(alloc, &rules, texts, &mut buffered);
    let closed = buffered.close();
    if closed.has_failed() {
        return (Err(ProgramError::Output), Some(closed));
    }
    (printed.and(Ok(true)), Some(closed))
}

/// Runs the program on the arguments of the process, over any diagnostics, with a block before `out`, which is returned
/// after its last call.
///
/// The first word names rules, as [`parse_rules`] has it, and each other word is a text: a compact decimal where it has
/// a `c`, and else a decimal. The words `ru`, `1` and `2` print `one` and `few`; `one: i = 1 and v = 0`, `1` and `1.0`
/// print `one` and `other`. If the first word names a locale, a text with a `..` is a range between two such numbers:
/// `ru` and `1..5` print `many`. The only word `--help` or `-h` prints the help, and `--version` the version.
///
/// # Errors
///
/// The categories of the texts before the error are printed, and the error is reported, once, but for `output` to a
/// closed pipe:
///
/// - Status 1: the rules or a text are rejected, as `rules: syntax at 4` and `text 2: limit`. The start of a range is
///   read before its end.
/// - Status 2: no text, `unknown locale: xx`, or `plural: no such type: x`.
/// - Status 3: `memory`, or `output` where a write or the flush of `out` fails.
pub fn run_arguments<O: Write + Drop, D: Diagnostics<ProgramError>>(
    alloc: Global,
    arguments: io::Result<Args>,
    out: O,
    diagnostics: &mut D,
) -> (u8, Option<Closed<O>>)
    ensures at_most { result.0 ≤ 3 }
    ensures silent { result.0 ≡ 0 → diagnostics.new ≡ diagnostics.old }
    ensures ends { (done : Result Bool ProgramError)
        × Ends Plural O.contents arguments out (Categorizes O.contents out) done result.1
        × ConcludesWith D.reports done result.1 result.0 diagnostics.old diagnostics.new }
{
    match start(alloc, Program::Plural, arguments, out) {
        Ok((words, out)) => conclude_ended(print(alloc, words.as_slice(), out), diagnostics),
        Err(ended) => conclude_ended(ended, diagnostics),
    }
}

/// Runs the process: `run_arguments` on its arguments, standard output and standard error.
pub fn execute(rt: HostRuntime) -> ExitCode
    ensures at_most { exit_status result ≤ 3 }
{
    let mut err = rt.stderr();
    let mut diagnostics = ErrorLines::new(&mut err);
    let (status, _out) = run_arguments(rt.alloc(), env::args(&rt), rt.stdout(), &mut diagnostics);
    ExitCode::from(status)
}
