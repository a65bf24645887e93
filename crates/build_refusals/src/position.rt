//! Why a row of position.csv is refused: its limit is one of groups, over all rows.

ghost use Rattle.std.specs.Prelude.{◌≡◌, ◌+◌, ℕ, false, nat_le, nat_lt};
ghost use Rattle.std.specs.Option.{option_map_or};
ghost use Rattle.file_rows.specs.Limits.{most_groups};
ghost use Rattle.build_refusals.specs.Position.{groups_in, position_cause};

use crate::first::{Check, Lined};
use build_tables::NameTables;
use file_rows::{Cause, MOST_GROUPS, PositionRow};

/// The place of the row that holds the first group past the limit.
fn past_limit(rows: &[PositionRow]) -> Option<usize>
    ensures { (n : ℕ) → option_map_or (λ k. nat_le k n) result false ≡ nat_lt most_groups (groups_in (n + 1) rows.now) }
{
    let mut left = MOST_GROUPS;
    for (place, row) in rows.iter().enumerate() {
        let groups = row.groups.as_slice().len();
        if groups > left {
            return Some(place);
        }
        left -= groups;
    }
    None
}

/// What decides whether a row of position.csv is refused.
#[derive(Drop)]
pub(crate) struct Positions<'a> {
    tables: &'a NameTables<'a>,
    past: Option<usize>,
    ghost counted: { (n : ℕ) → option_map_or (λ k. nat_le k n) past false ≡ nat_lt most_groups (groups_in (n + 1) tables.now.files.now.position) },
}

impl<'a> Positions<'a> {
    /// What decides it for the rows of these tables, in one walk over them.
    pub(crate) fn of(tables: &'a NameTables<'a>) -> Positions<'a>
        ensures { result.tables.now ≡ tables.now }
    {
        let past = past_limit(tables.files.position.as_slice());
        Positions { tables, past }
    }

    /// Whether the groups of the rows up to this place, itself included, are too many.
    fn is_past_limit(&self, place: usize) -> bool
        ensures { result ≡ nat_lt most_groups (groups_in (place + 1) self.now.tables.now.files.now.position) }
    {
        self.past.is_some_and(|past| past <= place)
    }
}

impl Lined for PositionRow {
    ghost line_of = { λ row. row.line };

    fn line(&self) -> u32 {
        self.line
    }
}

impl Check<PositionRow> for Positions<'_> {
    ghost cause_of = { λ positions. position_cause positions.tables.now.files.now };

    #[tactic(auto, unfolding(crate::specs::Position::position_cause))]
    fn cause(&self, place: usize, row: &PositionRow) -> Option<Cause> {
        if self.is_past_limit(place) {
            Some(Cause::Limit)
        } else if self.tables.airport_place(&row.airport).is_none() {
            Some(Cause::Unknown)
        } else {
            None
        }
    }
}
