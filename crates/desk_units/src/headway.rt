//! How far a recovery has come.

use crate::Grains;

/// How far a recovery has come once a batch is taken or a move is accepted.
#[derive(Clone, Copy)]
pub struct Headway {
    /// The number of the last batch that was taken, from 0 to 1,000.
    pub batch: u32,
    /// How many batches were taken and moves accepted by then, from 1 to 1,000,000.
    pub changes: u32,
    /// What the rows cost then, in grains, 600,000,000 to one unit of money; also where they break a rule, so that there is no plan.
    pub cost: Grains,
}
