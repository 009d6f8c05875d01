//! Texts, written to the buffer of a caller.
ghost use Rattle.std.specs.Prelude.{◌≡◌, length};
ghost use Rattle.fixed_decimal_c.specs.Texts.{Writes};

use crate::error::FdError;
use crate::slice_sink::SliceSink;
use decimal_format::internal::{Block, put_to_block};
use fixed_decimal::Writeable;

/// Copies a text to the start of a buffer, if it fits.
pub(crate) fn deliver(text: &[u8], buffer: &mut [u8]) -> Result<usize, FdError>
    ensures { Writes result text.now buffer.old buffer.new }
{
    let needed = text.len();
    if buffer.len() < needed {
        return Err(FdError::BufferTooSmall { needed });
    }
    buffer[..needed].copy_from_slice(text);
    Ok(needed)
}

/// Writes the text of a value to a buffer of its length.
pub(crate) fn fill<T: Writeable>(value: &T, buffer: &mut [u8])
    requires { length buffer.old ≡ length (T.text value.now) }
    ensures { buffer.new ≡ T.text value.now }
{
    let mut sink = SliceSink::new(buffer);
    sink.fill(value);
}

/// Writes the text of a value to the start of a buffer, if it fits.
pub(crate) fn write_value<T: Writeable>(value: &T, buffer: &mut [u8]) -> Result<usize, FdError>
    ensures { Writes result (T.text value.now) buffer.old buffer.new }
{
    let needed = value.writeable_length_hint();
    if buffer.len() < needed {
        return Err(FdError::BufferTooSmall { needed });
    }
    fill(value, &mut buffer[..needed]);
    Ok(needed)
}

/// The same for a value whose length takes more time than its text: a short text is written to a block first.
pub(crate) fn write_by_block<T: Writeable>(value: &T, buffer: &mut [u8]) -> Result<usize, FdError>
    ensures { Writes result (T.text value.now) buffer.old buffer.new }
{
    let mut block = Block::new();
    match value.write_to(&mut block) {
        Ok(()) => deliver(block.as_bytes(), buffer),
        Err(_) => write_value(value, buffer),
    }
}
