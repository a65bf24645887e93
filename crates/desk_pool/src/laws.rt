//! What is left after rounds.

ghost use Rattle.std.specs.Prelude.{◌≡◌, []};
ghost use Rattle.desk_pool.specs.Rounds.{Knows};
ghost use Rattle.desk_pool.specs.Laps.{IsReturned};

/// Where nothing was out before rounds, nothing is out after them, and the pass has its name: so the turn can be closed.
pub fn passes_that_came_back_leave_nothing_out()
    ensures name { (v w : Knows) → IsReturned v w → w.tags.name ≡ v.tags.name }
    ensures out { (v w : Knows) → v.tags.out ≡ [] → IsReturned v w → w.tags.out ≡ [] }
{}
