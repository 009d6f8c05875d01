//! Answers, as C receives them: structs by value.
ghost use Rattle.std.specs.Prelude.{◌≡◌};
ghost use Rattle.fixed_decimal_c.specs.Encodings.{fd_result, fd_number, fd_unsigned, fd_column};

use crate::error::FdError;

/// How far a column has come.
#[derive(Clone, Copy)]
pub struct Progress {
    /// The number of lines that were converted.
    pub lines: usize,
    /// The number of bytes of these lines, with their line feeds.
    pub read: usize,
    /// The number of bytes that were written.
    pub written: usize,
    /// The number of lines that have no text.
    pub failed: usize,
}

/// No line.
pub(crate) const NO_LINE: Progress = Progress {
    lines: 0,
    read: 0,
    written: 0,
    failed: 0,
};

/// The result of a function that writes a text to a buffer.
#[repr(C)]
#[derive(Clone, Copy)]
pub struct FdResult {
    /// 0, or the number of the error.
    pub status: u32,
    /// Where the error is.
    pub at: usize,
    /// The number of bytes of the text, also if they do not fit the buffer.
    pub count: usize,
}

/// The result of a function that returns a number.
#[repr(C)]
#[derive(Clone, Copy)]
pub struct FdNumber {
    /// 0, or the number of the error.
    pub status: u32,
    /// Where the error is.
    pub at: usize,
    /// The number, or 0 with an error.
    pub value: i64,
}

/// The result of a function that returns an unsigned number.
#[repr(C)]
#[derive(Clone, Copy)]
pub struct FdUnsigned {
    /// 0, or the number of the error.
    pub status: u32,
    /// Where the error is.
    pub at: usize,
    /// The number, or 0 with an error.
    pub value: u64,
}

/// The result of a function that writes a column to a buffer.
#[repr(C)]
#[derive(Clone, Copy)]
pub struct FdColumn {
    /// 0, or the number of the error of the next line.
    pub status: u32,
    /// Where the error is.
    pub at: usize,
    /// The number of lines that were converted.
    pub lines: usize,
    /// The number of bytes of these lines, with their line feeds.
    pub read: usize,
    /// The number of bytes that were written.
    pub written: usize,
    /// The number of lines that were skipped.
    pub failed: usize,
}

pub(crate) fn encode(answer: Result<usize, FdError>) -> FdResult
    ensures { result ≡ fd_result answer }
{
    match answer {
        Ok(count) => FdResult {
            status: 0,
            at: 0,
            count,
        },
        Err(error) => FdResult {
            status: error.status(),
            at: error.place(),
            count: error.needed(),
        },
    }
}

pub(crate) fn encode_number(answer: Result<i64, FdError>) -> FdNumber
    ensures { result ≡ fd_number answer }
{
    match answer {
        Ok(value) => FdNumber {
            status: 0,
            at: 0,
            value,
        },
        Err(error) => FdNumber {
            status: error.status(),
            at: error.place(),
            value: 0,
        },
    }
}

pub(crate) fn encode_unsigned(answer: Result<u64, FdError>) -> FdUnsigned
    ensures { result ≡ fd_unsigned answer }
{
    match answer {
        Ok(value) => FdUnsigned {
            status: 0,
            at: 0,
            value,
        },
        Err(error) => FdUnsigned {
            status: error.status(),
            at: error.place(),
            value: 0,
        },
    }
}

pub(crate) fn encode_column(done: Progress, answer: Result<(), FdError>) -> FdColumn
    ensures { result ≡ fd_column done answer }
{
    let (status, at) = match answer {
        Ok(()) => (0, 0),
        Err(error) => (error.status(), error.place()),
    };
    FdColumn {
        status,
        at,
        lines: done.lines,
        read: done.read,
        written: done.written,
        failed: done.failed,
    }
}
