//! What holds of every day: how far departures reach, which rows are due, what paths are bound to, which
//! orders decide, what a batch freezes, and what it leaves as it was.

ghost use Rattle.std.specs.Prelude.{◌≡◌, ◌↔◌, ℕ, ◌<◌, ◌≤◌, true, List, Some, is_some};
ghost use Rattle.day_orders.specs.declared.orders.Batch.{Batch as Orders};
ghost use Rattle.desk_units.specs.declared.numbers.Cabin.{Cabin};
ghost use Rattle.desk_units.specs.declared.numbers.Leg.{Leg};
ghost use Rattle.desk_data.specs.declared.parts.Parts.{Parts};
ghost use Rattle.desk_data.specs.declared.row.Group.{Group};
ghost use Rattle.desk_data.specs.declared.row.Row.{Row};
ghost use Rattle.desk_data.specs.Begun.{AreNoMoreCarried, KeepsToLeft};
ghost use Rattle.desk_data.specs.LaterOrders.{AddsOrders, IsAsOrdered, ObeysOfHour, ObeysOfLeg};
ghost use Rattle.desk_data.specs.Leaving.{FreezesRows, TalliesPassengers};
ghost use Rattle.desk_data.specs.PlanRows.{PlanRows};
ghost use Rattle.desk_data.specs.Progress.{with_batch};
ghost use Rattle.desk_data.specs.Situation.{Situation, first_progress, fresh_day, legs_of, planes_of, fixed, earliest, latest, due, bound};
ghost use Rattle.desk_data.specs.Valid.{AreParts, IsBatch, IsPlanFor, IsRowOf, IsValid};

/// The earliest departure of a leg of a valid day is at most minute 52,482,880, and its latest at most
/// 52,485,760.
pub fn departures_are_in_time()
    ensures earliest { (I : Situation) (x : ℕ) → IsValid I → earliest I x ≤ 52482880 }
    ensures latest { (I : Situation) (x : ℕ) → IsValid I → latest I x ≤ 52485760 }
{}

/// A leg has a row that is due just where it is fixed. Of a valid day that row is flown by one of its aircraft
/// and departs before minute 52,500,000, or it is cancelled.
pub fn fixed_legs_have_rows_due()
    ensures fixed { (I : Situation) (x : ℕ) → is_some (due I x) ≡ fixed I x }
    ensures ranges { (I : Situation) (x : ℕ) → IsValid I → x < legs_of I → (row : Row) → due I x ≡ Some row → IsRowOf (planes_of I) row }
{}

/// What a path of a reservation is bound to, beside the reservation's groups: it begins with the legs of the
/// booked path that have begun, in their cabins; some passengers have flown just those of its legs that have
/// left; and no more of the groups are carried so than have. So a path that is bound beside some groups is
/// bound beside any that carry no more.
pub fn paths_are_bound_to_what_has_left()
    ensures bound { (I : Situation) (r : ℕ) (groups : List Group) (path : List (Leg × Cabin)) → bound I r groups path ≡ true ↔ KeepsToLeft I r groups path }
    ensures fewer { (I : Situation) (r : ℕ) (fewer more : List Group) (path : List (Leg × Cabin)) → AreNoMoreCarried fewer more → bound I r more path ≡ true → bound I r fewer path ≡ true }
{}

/// Later orders decide. Of a leg the last flight order does: it takes the leg off, or delays it from
/// its scheduled departure. Of an hour of an airport the last order of the airport that has a minute
/// in the hour does, but for what has left in it. A batch leaves what the orders say of a leg of which it has
/// no flight order, and of an hour in which its orders have no minute; spans in which an aircraft is out of
/// service are added after those that the orders gave.
pub fn later_orders_decide()
    ensures leg { (I : Situation) (x : ℕ) → ObeysOfLeg I x }
    ensures hour { (I : Situation) (a h : ℕ) → ObeysOfHour I a h }
    ensures batch { (I : Situation) (P : PlanRows) (B : Orders) → AddsOrders I P B }
{}

/// What a batch freezes, and whom it tallies. What was frozen stays so. Where the batch tells a later moment
/// than the present one, any other leg is frozen with its row in the plan just where the row departs before
/// that moment, or where it is fixed and cancelled and its earliest departure is before it. Of a reservation
/// as many passengers have then flown just some legs as the plan carries so, and of those who had flown them
/// before the ones whom the plan did not carry so. A batch that tells no moment, or an earlier one, freezes
/// nothing.
pub fn batches_freeze_what_has_left()
    ensures rows { (I : Situation) (P : PlanRows) (B : Orders) → FreezesRows I P B }
    ensures passengers { (I : Situation) (P : PlanRows) (B : Orders) (r : ℕ) → TalliesPassengers I P B r }
{}

/// A valid day of which nothing has left is as its orders say: nothing of it depends on the present moment or
/// on what passengers have flown.
pub fn days_of_which_nothing_has_left_are_as_ordered()
    ensures { (I : Situation) → IsValid I → I.progress ≡ first_progress I.parts → IsAsOrdered I }
{}

/// The day of valid rows before any batch is valid, and so is a valid day with a batch whose orders are about
/// its legs, aircraft and airports and whose moment is in time. Its rows stay, and a plan for it stays one.
pub fn batches_keep_days_valid()
    ensures fresh { (parts : Parts) → AreParts parts → IsValid (fresh_day parts) }
    ensures valid { (I : Situation) (P : PlanRows) (B : Orders) → IsValid I → IsPlanFor I P → IsBatch I.parts B → IsValid (with_batch I P B) }
    ensures parts { (I : Situation) (P : PlanRows) (B : Orders) → (with_batch I P B).parts ≡ I.parts }
    ensures plan { (I : Situation) (P Q : PlanRows) (B : Orders) → IsPlanFor I Q → IsPlanFor (with_batch I P B) Q }
{}
