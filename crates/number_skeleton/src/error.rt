//! Why a text names no options.

/// The reason for which a text is no skeleton, or none of this library.
#[derive(Clone, Copy, Debug, PartialEq)]
pub enum SkeletonError {
    /// The text is no skeleton: `at` is the offset in bytes of the first stem or option that is wrong, or of the slash
    /// that begins an option of a stem that takes none.
    Syntax { at: usize },
    /// The text is a skeleton of ICU, but this library has no such option: the bytes of its stem.
    Unsupported { start: usize, end: usize },
}
