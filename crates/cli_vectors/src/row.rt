//! A row: a program, its words and input, and what it writes.
use cli::Program;
use std::alloc::Global;
use std::env::Args;
use std::io;
use std::io::ErrorKind;
use test_support::{FailingWriter, WriteFailure, named};

/// What fails.
#[derive(Clone, Copy)]
pub enum Fault {
    Nothing,
    /// Each read after the input.
    Read(ErrorKind),
    /// The flush of standard output.
    Flush,
    /// Reading the arguments.
    Words(ErrorKind),
}

const FAULTS: &[(&str, Fault)] = &[
    ("", Fault::Nothing),
    ("read", Fault::Read(ErrorKind::BrokenPipe)),
    ("memory", Fault::Read(ErrorKind::OutOfMemory)),
    ("flush", Fault::Flush),
    ("no-words", Fault::Words(ErrorKind::OutOfMemory)),
    ("not-utf8", Fault::Words(ErrorKind::InvalidData)),
];

const PROGRAMS: &[(&str, Program)] = &[
    ("fixdec", Program::Fixdec),
    ("lines", Program::FixdecLines),
    ("plural", Program::Plural),
];

/// Splits the byte of an escape from what follows it.
fn escaped_byte(part: &str) -> Option<(u8, &str)> {
    match part.split_at_checked(1)? {
        ("n", rest) => Some((b'\n', rest)),
        ("r", rest) => Some((b'\r', rest)),
        ("t", rest) => Some((b'\t', rest)),
        ("x", rest) => {
            let (digits, rest) = rest.split_at_checked(2)?;
            Some((u8::from_str_radix(digits, 16).ok()?, rest))
        }
        _ => None,
    }
}

/// Returns the bytes of a text with escapes.
pub fn unescaped(alloc: Global, text: &str) -> Option<Vec<u8>> {
    let mut bytes = Vec::new(alloc);
    for (index, part) in text.split('\\').enumerate() {
        let mut rest = part;
        if index > 0 {
            let (byte, after) = escaped_byte(part)?;
            bytes.push(byte).ok()?;
            rest = after;
        }
        bytes.extend_from_slice(rest.as_bytes()).ok()?;
    }
    Some(bytes)
}

/// A text that is expected, and the number of its bytes for which there is room.
#[derive(Drop)]
pub struct Expected {
    text: Vec<u8>,
    room: usize,
}

impl Expected {
    /// Parses a field.
    pub fn parse(alloc: Global, field: &str) -> Option<Self> {
        let Some((taken, rest)) = field.split_once('|') else {
            return Some(Expected {
                text: unescaped(alloc, field)?,
                room: usize::MAX,
            });
        };
        let mut text = unescaped(alloc, taken)?;
        let room = text.len();
        text.extend_from_slice(unescaped(alloc, rest)?.as_slice())
            .ok()?;
        Some(Expected { text, room })
    }

    /// Makes a writer that expects the text.
    pub fn writer(&self, failure: WriteFailure) -> FailingWriter<'_> {
        FailingWriter::new(self.text.as_slice(), self.room, failure)
    }

    /// Whether a writer took the text, as far as there is room.
    pub fn is_in(&self, writer: &FailingWriter<'_>) -> bool {
        writer.has_taken(self.room.min(self.text.len()))
    }

    /// Whether a writer took the text in one write, and failed in the next one if there is no room for all.
    pub fn is_in_one_write(&self, writer: &FailingWriter<'_>) -> bool {
        let taken = usize::from(self.room > 0 && !self.text.is_empty());
        writer.writes() == taken + usize::from(self.room < self.text.len())
    }

    /// Whether a writer took each line in one write, if there is room for all.
    pub fn is_in_lines(&self, writer: &FailingWriter<'_>) -> bool {
        let lines = self.text.iter().filter(|byte| **byte == b'\n').count();
        self.room < self.text.len() || writer.writes() == lines
    }
}

/// A program, its words and input, and what it writes, with escapes.
#[derive(Clone, Copy)]
pub struct Row<'a> {
    pub program: Program,
    pub fault: Fault,
    words: &'a str,
    pub input: &'a str,
    pub status: u8,
    pub output: &'a str,
    pub errors: &'a str,
}

impl<'a> Row<'a> {
    /// Parses a line.
    pub fn parse(line: &'a str) -> Option<Self> {
        let (program, line) = line.split_once('\t')?;
        let (words, line) = line.split_once('\t')?;
        let (input, line) = line.split_once('\t')?;
        let (status, line) = line.split_once('\t').unwrap_or((line, ""));
        let (output, errors) = line.split_once('\t').unwrap_or((line, ""));
        let (program, fault) = program.split_once(' ').unwrap_or((program, ""));
        Some(Row {
            program: named(PROGRAMS, program)?,
            fault: named(FAULTS, fault)?,
            words,
            input,
            status: status.parse().ok()?,
            output,
            errors,
        })
    }

    /// Whether the row is of the arguments: they are not read, or ask for help.
    pub fn is_of_arguments(&self) -> bool {
        matches!(self.fault, Fault::Words(_)) || self.words == "--help" || self.words == "-h"
    }

    /// Returns the words.
    pub fn words(&self, alloc: Global) -> Option<Vec<String>> {
        let mut words = Vec::new(alloc);
        if !self.words.is_empty() {
            for word in self.words.split('|') {
                let bytes = unescaped(alloc, word)?;
                words.push(String::from_utf8(bytes).ok()?).ok()?;
            }
        }
        Some(words)
    }

    /// Returns the arguments: the name of the program, and the words.
    pub fn arguments(&self, alloc: Global) -> Option<io::Result<Args>> {
        if let Fault::Words(kind) = self.fault {
            return Some(Err(io::Error::from(kind)));
        }
        let mut arguments = Vec::new(alloc);
        arguments
            .push(String::from_str(alloc, "program").ok()?)
            .ok()?;
        for word in self.words(alloc)? {
            arguments.push(word).ok()?;
        }
        Some(Ok(arguments.into_iter()))
    }
}
