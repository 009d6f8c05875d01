//! The rounding calls of values with and without a sign.
use self::RoundingMethod::{
    ByIncrement, ByIncrementOnValue, ByMode, ByModeOnValue, ByName, ByNameOnValue, Counted,
};
use decimal_digits::digits::{DigitStore, Steps};
use decimal_digits::rounding::RoundingIncrement::MultiplesOf1;
use decimal_digits::rounding::UnsignedRoundingMode::{self, Expand, HalfEven, Trunc};
use decimal_digits::rounding::{RoundError, RoundingIncrement};
use decimal_unsigned::LimitError;
use decimal_unsigned::decimal::UnsignedOver;
use fixed_decimal::Signed;
use fixed_decimal::SignedRoundingMode::{self, Ceil, Floor, Unsigned};

/// A rounding call.
#[derive(Clone, Copy)]
pub enum RoundingMethod {
    Counted,
    ByIncrement,
    ByIncrementOnValue,
    ByMode,
    ByModeOnValue,
    ByName,
    ByNameOnValue,
}

/// The calls that take an increment.
const BY_INCREMENT: &[RoundingMethod] = &[Counted, ByIncrement, ByIncrementOnValue];

/// All calls.
const ALL: &[RoundingMethod] = &[
    Counted,
    ByIncrement,
    ByIncrementOnValue,
    ByMode,
    ByModeOnValue,
    ByName,
    ByNameOnValue,
];

/// Returns the calls that round by an increment.
pub fn rounding_methods(increment: RoundingIncrement) -> &'static [RoundingMethod] {
    if increment == MultiplesOf1 {
        ALL
    } else {
        BY_INCREMENT
    }
}

/// A position, a mode and an increment.
pub type Rounding<M> = (i16, M, RoundingIncrement);

/// The rounded value, or the error with the value that it leaves.
pub type RoundedResult<T> = Result<T, (T, RoundError)>;

/// A type of values that are rounded by modes of a type.
pub trait Rounds<M: Copy>: Drop {
    /// Rounds in place by the call `method`, or by increment for a call on values.
    fn round_by(&mut self, method: RoundingMethod, rounding: Rounding<M>) -> Result<(), RoundError>;

    /// Rounds the value by the call `method`, or by increment for a call in place.
    fn rounded_by(self, method: RoundingMethod, rounding: Rounding<M>) -> RoundedResult<Self>;
}

/// Returns the result of a call whose only error is the limit.
fn limited(answer: Result<(), LimitError>) -> Result<(), RoundError> {
    match answer {
        Ok(()) => Ok(()),
        Err(LimitError) => Err(RoundError::Limit),
    }
}

/// Returns the result of a call on a value whose only error is the limit.
fn limited_on_value<T: Drop>(answer: Result<T, T>) -> RoundedResult<T> {
    match answer {
        Ok(value) => Ok(value),
        Err(value) => Err((value, RoundError::Limit)),
    }
}

/// Rounds by the call with the name of the mode, if there is one.
fn round_by_name<D: DigitStore>(
    value: &mut UnsignedOver<D>,
    position: i16,
    mode: UnsignedRoundingMode,
) -> Result<(), LimitError> {
    match mode {
        Expand => value.expand(position),
        Trunc => {
            value.trunc(position);
            Ok(())
        }
        HalfEven => value.round(position),
        _ => value.round_with_mode(position, mode),
    }
}

/// Rounds a value by the call with the name of the mode, if there is one.
fn rounded_by_name<D: DigitStore>(
    value: UnsignedOver<D>,
    position: i16,
    mode: UnsignedRoundingMode,
) -> Result<UnsignedOver<D>, UnsignedOver<D>> {
    match mode {
        Expand => value.expanded(position),
        Trunc => Ok(value.trunced(position)),
        HalfEven => value.rounded(position),
        _ => value.rounded_with_mode(position, mode),
    }
}

/// Rounds a value with a sign by the call with the name of the mode, if there is one.
fn round_signed_by_name<D: DigitStore>(
    value: &mut Signed<UnsignedOver<D>>,
    position: i16,
    mode: SignedRoundingMode,
) -> Result<(), LimitError> {
    match mode {
        Ceil => value.ceil(position),
        Floor => value.floor(position),
        Unsigned(Expand) => value.expand(position),
        Unsigned(Trunc) => {
            value.trunc(position);
            Ok(())
        }
        Unsigned(HalfEven) => value.round(position),
        _ => value.round_with_mode(position, mode),
    }
}

/// The same, by value.
fn rounded_signed_by_name<D: DigitStore>(
    value: Signed<UnsignedOver<D>>,
    position: i16,
    mode: SignedRoundingMode,
) -> Result<Signed<UnsignedOver<D>>, Signed<UnsignedOver<D>>> {
    match mode {
        Ceil => value.ceiled(position),
        Floor => value.floored(position),
        Unsigned(Expand) => value.expanded(position),
        Unsigned(Trunc) => Ok(value.trunced(position)),
        Unsigned(HalfEven) => value.rounded(position),
        _ => value.rounded_with_mode(position, mode),
    }
}

impl<D: DigitStore> Rounds<UnsignedRoundingMode> for UnsignedOver<D> {
    fn round_by(
        &mut self,
        method: RoundingMethod,
        (position, mode, increment): Rounding<UnsignedRoundingMode>,
    ) -> Result<(), RoundError> {
        match method {
            Counted => self.round_counted(position, mode, increment, &mut Steps::new()),
            ByMode => limited(self.round_with_mode(position, mode)),
            ByName => limited(round_by_name(self, position, mode)),
            _ => self.round_with_mode_and_increment(position, mode, increment),
        }
    }

    fn rounded_by(
        self,
        method: RoundingMethod,
        (position, mode, increment): Rounding<UnsignedRoundingMode>,
    ) -> RoundedResult<Self> {
        match method {
            ByModeOnValue => limited_on_value(self.rounded_with_mode(position, mode)),
            ByNameOnValue => limited_on_value(rounded_by_name(self, position, mode)),
            _ => self.rounded_with_mode_and_increment(position, mode, increment),
        }
    }
}

impl<D: DigitStore> Rounds<SignedRoundingMode> for Signed<UnsignedOver<D>> {
    fn round_by(
        &mut self,
        method: RoundingMethod,
        (position, mode, increment): Rounding<SignedRoundingMode>,
    ) -> Result<(), RoundError> {
        match method {
            Counted => self.round_counted(position, mode, increment, &mut Steps::new()),
            ByMode => limited(self.round_with_mode(position, mode)),
            ByName => limited(round_signed_by_name(self, position, mode)),
            _ => self.round_with_mode_and_increment(position, mode, increment),
        }
    }

    fn rounded_by(
        self,
        method: RoundingMethod,
        (position, mode, increment): Rounding<SignedRoundingMode>,
    ) -> RoundedResult<Self> {
        match method {
            ByModeOnValue => limited_on_value(self.rounded_with_mode(position, mode)),
            ByNameOnValue => limited_on_value(rounded_signed_by_name(self, position, mode)),
            _ => self.rounded_with_mode_and_increment(position, mode, increment),
        }
    }
}

/// Rounds in place, and returns the value that this leaves.
fn left_in_place<M: Copy, T: Rounds<M>>(
    value: T,
    method: RoundingMethod,
    rounding: Rounding<M>,
) -> RoundedResult<T> {
    let mut value = value;
    match value.round_by(method, rounding) {
        Ok(()) => Ok(value),
        Err(error) => Err((value, error)),
    }
}

/// Rounds a value by the call `method`.
pub fn rounded<M: Copy, T: Rounds<M>>(
    value: T,
    method: RoundingMethod,
    rounding: Rounding<M>,
) -> RoundedResult<T> {
    match method {
        Counted | ByIncrement | ByMode | ByName => left_in_place(value, method, rounding),
        ByIncrementOnValue | ByModeOnValue | ByNameOnValue => value.rounded_by(method, rounding),
    }
}
