//! What a searcher keeps of its proposals.

/// An item of a trail: a proposal of a searcher that has an entry.
#[derive(Clone, Copy, Debug, PartialEq, Eq)]
pub struct Trail {
    /// The place of the entry in the journal, from 0.
    pub place: u32,
    /// How many entries the journal had when the searcher looked: the move was found at the state after these. It
    /// is at most `place`.
    pub saw: u32,
}
