//! Why an input is refused.

use desk_folder::File;
pub use file_rows::Cause;

/// The first line that is refused.
#[derive(Clone, Copy, PartialEq, Eq)]
pub struct Refusal {
    pub file: File,
    /// Counted from 1, or 0 for the file as a whole.
    pub line: u32,
    pub cause: Cause,
}
