//! Whether a plan is the same as another one.

ghost use Rattle.std.specs.Prelude.{◌≡◌, length, true};
ghost use Rattle.desk_data.specs.Valid.{IsPlanFor};

use desk_data::{Instance, Leg, Res};
use plan_pages::{Pages, are_same_groups};

/// Whether a plan is the same as another one of the day: one walk over the legs, and one over the reservations, up to the
/// first that is not.
pub(crate) fn is_same_plan(inst: &Instance, one: &Pages, other: &Pages) -> bool
    requires one { IsPlanFor inst.now one.now }
    requires other { IsPlanFor inst.now other.now }
    ensures yes { result ≡ true → one.now ≡ other.now }
    ensures no { one.now ≡ other.now → result ≡ true }
{
    has_same_rows(inst.legs(), one, other) && has_same_groups(inst.reservations(), one, other)
}

/// Whether two plans of so many legs have the same rows.
pub(crate) fn has_same_rows(legs: u32, one: &Pages, other: &Pages) -> bool
    requires one { length one.now.rows ≡ legs }
    requires other { length other.now.rows ≡ legs }
    ensures yes { result ≡ true → one.now.rows ≡ other.now.rows }
    ensures no { one.now.rows ≡ other.now.rows → result ≡ true }
{
    for x in 0..legs {
        if one.read_row(Leg(x)) != other.read_row(Leg(x)) {
            return false;
        }
    }
    true
}

/// Whether two plans of so many reservations have the same groups.
fn has_same_groups(reservations: u32, one: &Pages, other: &Pages) -> bool
    requires one { length one.now.groups ≡ reservations }
    requires other { length other.now.groups ≡ reservations }
    ensures yes { result ≡ true → one.now.groups ≡ other.now.groups }
    ensures no { one.now.groups ≡ other.now.groups → result ≡ true }
{
    for r in 0..reservations {
        if !are_same_groups(one.groups(Res(r)), other.groups(Res(r))) {
            return false;
        }
    }
    true
}
