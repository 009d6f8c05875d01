//! The words of the programs, as C receives them.
ghost use Rattle.std.specs.Prelude.{◌≡◌, [], IfOk, IfErr};
ghost use Rattle.fixed_decimal_c.specs.{Forms.reading_code, NumberOptions.grouping_code, Words.{no_word, form_word, call_word, IsSuffix, IsTagForm, IsSkeletonForm, HasNoTag, IsReadForm, ReadFormFails, IsFormatForm, FormatFormFails, IsWord}};

use crate::calls::{FdCall, NO_CALL, encode_call};
use crate::error::FdError;
use crate::forms::{FdForm, NO_FORM};
use conversions::parameters::{parameters, split_parameters};
use conversions::{call, parse_strategy, split_mode};
use decimal_format::GroupingStrategy;
use number_format::ParseMode;
use std::str;

/// A word of the programs.
#[repr(C)]
#[derive(Clone, Copy)]
pub struct FdWord {
    /// 0, or the number of the error.
    pub status: u32,
    /// 0 for `read:..`, 1 for a call, 2 for `format:..`.
    pub kind: u32,
    /// The call.
    pub call: FdCall,
    /// The form of `read:..` or `format:..`.
    pub form: FdForm,
}

fn no_word(error: FdError) -> FdWord
    ensures { result ≡ no_word error }
{
    FdWord {
        status: error.status(),
        kind: 0,
        call: NO_CALL,
        form: NO_FORM,
    }
}

fn call_word(call: FdCall) -> FdWord
    ensures { result ≡ call_word call }
{
    FdWord {
        status: 0,
        kind: 1,
        call,
        form: NO_FORM,
    }
}

fn form_word(kind: u32, form: Result<FdForm, FdError>) -> FdWord
    ensures { result ≡ form_word kind form }
{
    match form {
        Ok(form) => FdWord {
            status: 0,
            kind,
            call: NO_CALL,
            form,
        },
        Err(error) => no_word(error),
    }
}

fn reading_code(mode: ParseMode) -> u8
    ensures { result ≡ reading_code mode }
{
    match mode {
        ParseMode::Strict => 0,
        ParseMode::Lenient => 1,
    }
}

fn grouping_code(strategy: GroupingStrategy) -> u8
    ensures { result ≡ grouping_code strategy }
{
    match strategy {
        GroupingStrategy::Auto => 0,
        GroupingStrategy::Never => 1,
        GroupingStrategy::Always => 2,
        GroupingStrategy::Min2 => 3,
    }
}

/// Returns the form of the tag of a word.
fn tag_form(word: &str, option: u8) -> Result<FdForm, FdError>
    ensures ok { IfOk result (IsTagForm word.now option) }
    ensures err { IfErr result (λ error. (error ≡ FdError.UnknownLocale) × HasNoTag word.now) }
{
    let parameters = parameters(word);
    let (tag, _) = split_parameters(parameters);
    if tag.is_empty() {
        return Err(FdError::UnknownLocale);
    }
    Ok(FdForm {
        start: word.len() - parameters.len(),
        count: tag.len(),
        option,
        ..NO_FORM
    })
}

/// Returns the form of the tag and the skeleton of a word.
fn skeleton_form(word: &str, skeleton: &str, option: u8) -> Result<FdForm, FdError>
    requires { IsSuffix skeleton.now word.now }
    ensures ok { IfOk result (IsSkeletonForm word.now skeleton.now option) }
    ensures err { IfErr result (λ error. (error ≡ FdError.UnknownCall 0) × (skeleton.now ≡ [])) }
{
    if skeleton.is_empty() {
        return Err(FdError::UnknownCall { at: 0 });
    }
    let parameters = parameters(word);
    let (tag, _) = split_parameters(parameters);
    Ok(FdForm {
        start: word.len() - parameters.len(),
        count: tag.len(),
        skeleton_start: word.len() - skeleton.len(),
        skeleton_count: skeleton.len(),
        option,
        ..NO_FORM
    })
}

/// Returns the form of `read:..`.
fn read_form(word: &str) -> Result<FdForm, FdError>
    ensures ok { IfOk result (IsReadForm word.now) }
    ensures err { IfErr result (λ error. ReadFormFails error word.now) }
{
    let (_, option) = split_parameters(parameters(word));
    let (mode, skeleton) = split_mode(option);
    match skeleton {
        Some(skeleton) => skeleton_form(word, skeleton, reading_code(mode)),
        None => tag_form(word, reading_code(mode)),
    }
}

/// Returns the form of `format:..`.
fn format_form(word: &str) -> Result<FdForm, FdError>
    ensures ok { IfOk result (IsFormatForm word.now) }
    ensures err { IfErr result (λ error. FormatFormFails error word.now) }
{
    let (_, option) = split_parameters(parameters(word));
    if let Some(strategy) = parse_strategy(option) {
        return tag_form(word, grouping_code(strategy));
    }
    match option {
        Some(skeleton) => skeleton_form(word, skeleton, 0),
        None => Err(FdError::UnknownCall { at: 0 }),
    }
}

/// Reads a word of the programs.
pub(crate) fn parse_word(word: &[u8]) -> FdWord
    ensures { IsWord word.now result }
{
    let Ok(text) = str::from_utf8(word) else {
        return no_word(FdError::UnknownCall { at: 0 });
    };
    if text.starts_with("read:") {
        return form_word(0, read_form(text));
    }
    if text.starts_with("format:") {
        return form_word(2, format_form(text));
    }
    match call(text) {
        Some(call) => call_word(encode_call(call)),
        None => no_word(FdError::UnknownCall { at: 0 }),
    }
}
