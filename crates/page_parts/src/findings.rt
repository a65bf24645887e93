//! What the tables tell of a plan.

use crate::{ChangedGroup, ChangedLeg, CostTerms};

/// A plan beside the schedule.
pub struct Findings {
    /// The first rule that the plan breaks and what breaks it, as `C2 F1 01/03/08`; empty where it breaks none.
    pub broken: Vec<u8>,
    /// The same of the schedule.
    pub broken_before: Vec<u8>,
    /// What the schedule costs.
    pub before: CostTerms,
    /// What the plan costs.
    pub after: CostTerms,
    /// The legs whose row is not the scheduled one.
    pub legs: Vec<ChangedLeg>,
    /// The groups of the plan to whose path somebody came since the schedule, or of whom something else becomes.
    pub groups: Vec<ChangedGroup>,
}

/// Dropped in one call, so that a function that owns one proves it once, and not part by part.
impl Drop for Findings {
    fn drop(self) {
        let Findings {
            broken: _,
            broken_before: _,
            before: _,
            after: _,
            legs: _,
            groups: _,
        } = self;
    }
}
