//! Why a search ended.

/// Why no move more is proposed after a batch where there is a plan.
#[derive(Clone, Copy)]
pub enum SearchEnd {
    /// As many proposals were accepted as may be, or the journal takes no more of them.
    Budget,
    /// No move near the plan makes it feasible and cheaper.
    Quiet,
}
