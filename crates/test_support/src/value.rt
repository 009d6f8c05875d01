//! The types of values, as one trait, and how their texts are parsed and shown.
use crate::limited_sink::shows;
use decimal_digits::digits::DigitStore;
use decimal_digits::sink::Writeable;
use decimal_unsigned::ParseError;
use decimal_unsigned::decimal::UnsignedOver;
use fixed_decimal::{CompactDecimal, FixedInteger, ScientificDecimal, Signed};
use std::alloc::{AllocError, Global};

/// A type of values that are parsed, copied, compared and printed.
pub trait Value: Writeable + Drop {
    /// Parses a text.
    fn read(alloc: Global, text: &str) -> Result<Self, ParseError>;

    /// Parses a text by the call for bytes, if the type has one.
    fn read_bytes(alloc: Global, text: &str) -> Result<Self, ParseError> {
        Self::read(alloc, text)
    }

    /// Copies the value.
    fn copy(&self) -> Result<Self, AllocError>;

    /// Whether two values are equal.
    fn equals(&self, other: &Self) -> bool;
}

/// Returns the name of the result of parsing a text: `read`, or that of the error; `None` if out of memory.
pub fn parse_outcome<T: Drop>(answer: Result<T, ParseError>) -> Option<&'static str> {
    match answer {
        Ok(_) => Some("read"),
        Err(ParseError::Limit) => Some("limit"),
        Err(ParseError::Syntax) => Some("syntax"),
        Err(ParseError::Memory) => None,
    }
}

/// Whether a value has this text, and its length as the length hint.
pub fn has_text<T: Writeable>(value: &T, text: &str) -> bool {
    (value.writeable_length_hint() == text.len()) & shows(value, text.as_bytes())
}

impl<D: DigitStore> Value for UnsignedOver<D> {
    fn read(alloc: Global, text: &str) -> Result<Self, ParseError> {
        Self::try_from_str(alloc, text)
    }

    fn read_bytes(alloc: Global, text: &str) -> Result<Self, ParseError> {
        Self::try_from_utf8(alloc, text.as_bytes())
    }

    fn copy(&self) -> Result<Self, AllocError> {
        self.clone()
    }

    fn equals(&self, other: &Self) -> bool {
        self == other
    }
}

impl<D: DigitStore> Value for Signed<UnsignedOver<D>> {
    fn read(alloc: Global, text: &str) -> Result<Self, ParseError> {
        Self::try_from_str(alloc, text)
    }

    fn read_bytes(alloc: Global, text: &str) -> Result<Self, ParseError> {
        Self::try_from_utf8(alloc, text.as_bytes())
    }

    fn copy(&self) -> Result<Self, AllocError> {
        self.clone()
    }

    fn equals(&self, other: &Self) -> bool {
        self == other
    }
}

impl Value for FixedInteger {
    fn read(alloc: Global, text: &str) -> Result<Self, ParseError> {
        Self::try_from_str(alloc, text)
    }

    fn read_bytes(alloc: Global, text: &str) -> Result<Self, ParseError> {
        Self::try_from_utf8(alloc, text.as_bytes())
    }

    fn copy(&self) -> Result<Self, AllocError> {
        self.clone()
    }

    fn equals(&self, other: &Self) -> bool {
        self == other
    }
}

impl Value for ScientificDecimal {
    fn read(alloc: Global, text: &str) -> Result<Self, ParseError> {
        Self::try_from_str(alloc, text)
    }

    fn read_bytes(alloc: Global, text: &str) -> Result<Self, ParseError> {
        Self::try_from_utf8(alloc, text.as_bytes())
    }

    fn copy(&self) -> Result<Self, AllocError> {
        self.clone()
    }

    fn equals(&self, other: &Self) -> bool {
        self == other
    }
}

impl Value for CompactDecimal {
    fn read(alloc: Global, text: &str) -> Result<Self, ParseError> {
        Self::try_from_str(alloc, text)
    }

    fn copy(&self) -> Result<Self, AllocError> {
        self.clone()
    }

    fn equals(&self, other: &Self) -> bool {
        self == other
    }
}
