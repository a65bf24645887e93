//! Why a row of dist.csv is refused.

ghost use Rattle.build_refusals.specs.Dist.{dist_cause};

use crate::first::{Check, Lined};
use build_tables::NameTables;
use file_rows::{Cause, DistRow, MOST_DISTANCES};

impl Lined for DistRow {
    ghost line_of = { λ row. row.line };

    fn line(&self) -> u32 {
        self.line
    }
}

impl Check<DistRow> for NameTables<'_> {
    ghost cause_of = { λ tables. dist_cause };

    #[tactic(auto, unfolding(crate::specs::Dist::dist_cause))]
    fn cause(&self, place: usize, _row: &DistRow) -> Option<Cause> {
        if place >= MOST_DISTANCES {
            Some(Cause::Limit)
        } else {
            None
        }
    }
}
