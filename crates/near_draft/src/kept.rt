//! The legs of aircraft that a draft keeps, once they were looked for.

ghost use Rattle.std.specs.Prelude.{◌≡◌, ℕ, true};
ghost use Rattle.std.specs.Option.{ForSome};
ghost use Rattle.desk_data.specs.Situation.{Situation};
ghost use Rattle.desk_data.specs.PlanRows.{PlanRows, row_at, with_row};
ghost use Rattle.desk_rules.specs.Maintenance.{is_flown_by};
ghost use Rattle.near_draft.specs.Kept.{AreKept};
ghost use Rattle.near_draft.specs.Legs.{AreLegsOf, numbers_of};

use desk_data::{Leg, Plane, Row};

/// An aircraft and the legs that it flies, in some order.
#[derive(Drop)]
pub(crate) struct PlaneLegs {
    pub plane: Plane,
    pub legs: Vec<Leg>,
}

/// The legs of an aircraft, where they are kept.
pub(crate) fn kept_legs(lists: &[PlaneLegs], plane: Plane) -> Option<&[Leg]>
    ensures { (I : Situation) (P : PlanRows) → AreKept I P lists.now → ForSome result (λ legs. AreLegsOf I P plane.0 (numbers_of legs.now)) }
{
    for list in lists {
        if list.plane.0 == plane.0 {
            return Some(list.legs.as_slice());
        }
    }
    None
}

/// Lets the lists go where a leg gets another row, unless one aircraft flies it with both rows.
pub(crate) fn let_go(lists: &mut Vec<PlaneLegs>, was: Row, row: Row)
    ensures { (I : Situation) (P : PlanRows) (x : ℕ) → was ≡ row_at P x → AreKept I P lists.old.items → AreKept I (with_row P x row) lists.new.items }
{
    if !have_one_plane(was, row) {
        lists.clear();
    }
}

/// Whether one aircraft flies a leg with either of two rows.
fn have_one_plane(row: Row, other: Row) -> bool
    ensures { result ≡ true → (p : ℕ) → is_flown_by p row ≡ is_flown_by p other }
{
    match (row, other) {
        (Row::Flown { plane, .. }, Row::Flown { plane: by, .. }) => plane.0 == by.0,
        _ => false,
    }
}
