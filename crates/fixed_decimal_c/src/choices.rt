//! Words by their numbers.
ghost use Rattle.std.specs.Prelude.{◌≡◌, slice_get};

/// Returns the choice with this number.
pub(crate) fn choice<T: Copy>(choices: &[T], code: u8) -> Option<T>
    ensures { result ≡ slice_get choices.now code }
{
    match choices.get(code as usize) {
        Some(choice) => Some(*choice),
        None => None,
    }
}
