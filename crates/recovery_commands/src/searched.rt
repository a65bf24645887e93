//! How taking the batches of a day and searching after them ended.

use desk_pool::Vote;

/// How it ended.
#[derive(Clone, Copy)]
pub(crate) enum Searched {
    /// All batches were taken, and at the last plan the workers agree on this.
    Voted(Vote),
    /// The journal took no batch more.
    Full,
}
