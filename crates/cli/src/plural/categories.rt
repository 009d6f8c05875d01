//! The plural categories of texts, printed one a line.
ghost use Rattle.std.specs.{Prelude.{◌≡◌, ◌≢◌, Err, IfErr, OnOk, OnErr, IsOkAnd, true}, Io.KnownBytes.Appends};
ghost use Rattle.decimal_digits.specs.AppendsPrefix.{AppendsPrefix};
ghost use Rattle.cli.specs.{TextCategory.read_category, Categories.{category_line, TextFails, PrintsAll, StopsAt}, declared.program.error.ProgramError.ProgramError};

use crate::plural::text_rules::{TextRules, category};
use crate::program::error::{ProgramError, WordsError};
use crate::program::help::Program;
use conversions::Reason;
use fixed_decimal::{ParseError, Sink, SinkFault};
use plural_rules::PluralCategory;
use std::alloc::Global;

fn write_category_line<W: Sink>(category: PluralCategory, sink: &mut W) -> Result<(), SinkFault>
    ensures ok { OnOk result (Appends (W.contents sink.old) (W.contents sink.new) (category_line category)) }
    ensures err { OnErr result (AppendsPrefix (W.contents sink.old) (W.contents sink.new) (category_line category)) }
    ensures failed { OnErr result (W.has_failed sink.new ≡ true) }
{
    sink.put_bytes(category.name().as_bytes())?;
    sink.put_byte(b'\n')
}

/// Prints the category of the text with this 1-based number.
fn print_category<W: Sink>(
    alloc: Global,
    rules: &TextRules<'_>,
    text: &str,
    number: usize,
    sink: &mut W,
) -> Result<(), ProgramError>
    ensures printed { OnOk result (IsOkAnd (read_category rules.now text.now)
        (λ category. Appends (W.contents sink.old) (W.contents sink.new) (category_line category))) }
    ensures error { IfErr result (TextFails rules.now text.now number) }
    ensures unchanged_on_error { IfErr result (λ error. error ≢ ProgramError.Output → sink.new ≡ sink.old) }
    ensures prefix { result ≡ Err ProgramError.Output → IsOkAnd (read_category rules.now text.now)
        (λ category. AppendsPrefix (W.contents sink.old) (W.contents sink.new) (category_line category)) }
    ensures failed { result ≡ Err ProgramError.Output → W.has_failed sink.new ≡ true }
{
    match category(alloc, rules, text) {
        Ok(category) => Ok(write_category_line(category, sink)?),
        Err(ParseError::Memory) => Err(ProgramError::setup(Program::Plural, WordsError::Memory)),
        Err(ParseError::Syntax) => Err(ProgramError::Text {
            number,
            reason: Reason::Syntax,
        }),
        Err(ParseError::Limit) => Err(ProgramError::Text {
            number,
            reason: Reason::Limit,
        }),
    }
}

/// Prints the categories of texts, one a line. Err: a text fails, and the categories of those before it were printed;
/// or the sink failed.
pub fn print_categories<W: Sink>(
    alloc: Global,
    rules: &TextRules<'_>,
    texts: &[String],
    sink: &mut W,
) -> Result<(), ProgramError>
    ensures printed { OnOk result (PrintsAll rules.now texts.now (W.contents sink.old) (W.contents sink.new)) }
    ensures stopped { IfErr result (StopsAt rules.now texts.now (W.contents sink.old) (W.contents sink.new)) }
    ensures failed { result ≡ Err ProgramError.Output → W.has_failed sink.new ≡ true }
{
    for (index, text) in texts.iter().enumerate() {
        print_category(alloc, rules, text.as_str(), index + 1, sink)?;
    }
    Ok(())
}
