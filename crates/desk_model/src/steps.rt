//! What holds of the steps, kind by kind.

ghost use Rattle.std.specs.Prelude.{◌≡◌, ◌↔◌, ℕ, ◌<◌, ◌≤◌, ◌++◌, ◌∷◌, min, Bool, true, Option, None, Some, List as Items, length, fold, All, AllPairs, Contains};
ghost use Rattle.desk_units.specs.declared.numbers.Leg.{Leg};
ghost use Rattle.desk_units.specs.declared.numbers.Cabin.{Cabin};
ghost use Rattle.desk_data.specs.declared.row.Row.{Row};
ghost use Rattle.desk_data.specs.declared.row.Group.{Group};
ghost use Rattle.desk_data.specs.Begun.{AreNoMoreCarried};
ghost use Rattle.desk_data.specs.Situation.{Situation, bound, legs_of, planes_of, reservations_of};
ghost use Rattle.desk_data.specs.PlanRows.{PlanRows, groups_at, row_at};
ghost use Rattle.desk_data.specs.Valid.{IsPathOf, IsPlanFor, IsRowOf, IsValid};
ghost use Rattle.plan_moves.specs.Fits.{Fits};
ghost use Rattle.plan_moves.specs.declared.moves.Move.{Move};
ghost use Rattle.desk_rules.specs.Numbers.{numbers};
ghost use Rattle.desk_rules.specs.Words.{Flies, Precedes};
ghost use Rattle.desk_model.specs.Choices.{HoldsOfNone, IsFirstWithin, IsGreatestWithin, first_within, greatest_within};
ghost use Rattle.desk_model.specs.Push.{ArrivesBeside, DepartsBeside, IsPushed, PlacesLeg, after_push, arrives_beside, departs_beside, pushed_legs};
ghost use Rattle.desk_model.specs.Swap.{SwapsLeg, after_swap};
ghost use Rattle.desk_model.specs.Rebook.{RebooksPassengers, after_rebook, count_on};
ghost use Rattle.desk_model.specs.Tidy.{IsFit, TidiesReservation, after_tidy, is_fit_path};
ghost use Rattle.desk_model.specs.Refill.{HasSeatsFor, IsNotOverfilled, RefillsReservation, after_refill, after_refilling, has_seats_for};
ghost use Rattle.desk_model.specs.Steps.{SetsLeg, after_move, after_set};

/// Each step makes a valid plan of a valid plan, where its numbers are in range, its departures below
/// 52,500,000 and its paths of at most 8 legs, and so does each move that fits. A valid plan has all
/// passengers of each reservation, so that no step makes or loses one.
pub fn steps_make_valid_plans()
    ensures set { (I : Situation) (P : PlanRows) (x : ℕ) (was new : Row) → IsRowOf (planes_of I) new → IsPlanFor I P → IsPlanFor I (after_set P x was new) }
    ensures push { (I : Situation) (P : PlanRows) (p : ℕ) (after : Option Leg) → IsValid I → p < planes_of I → IsPlanFor I P → IsPlanFor I (after_push I P p after) }
    ensures swap { (I : Situation) (P : PlanRows) (p q at : ℕ) → p < planes_of I → q < planes_of I → IsPlanFor I P → IsPlanFor I (after_swap P p q at) }
    ensures rebook { (I : Situation) (P : PlanRows) (r : ℕ) (path to : Items (Leg × Cabin)) (count : ℕ) → length path ≤ 8 → length to ≤ 8 → IsPathOf (legs_of I) path → IsPathOf (legs_of I) to → IsPlanFor I P → IsPlanFor I (after_rebook P r path to count) }
    ensures tidy { (I : Situation) (P : PlanRows) → IsPlanFor I P → IsPlanFor I (after_tidy I P) }
    ensures refill { (I : Situation) (P : PlanRows) (x : ℕ) → IsValid I → IsPlanFor I P → IsPlanFor I (after_refill I P x) }
    ensures moves { (I : Situation) (P : PlanRows) (m : Move) → IsValid I → Fits I m → IsPlanFor I P → IsPlanFor I (after_move I P m) }
{}

/// What the steps choose by a test of numbers is the first number of a span that passes, if any does,
/// and the greatest up to a limit that passes, or 0; and there is no other.
pub fn choices_are_the_first_and_the_greatest()
    ensures first { (low high : ℕ) (test : ℕ → Bool) (t : ℕ) → first_within low high test ≡ Some t ↔ IsFirstWithin low high test t }
    ensures none { (low high : ℕ) (test : ℕ → Bool) → first_within low high test ≡ None ↔ HoldsOfNone low high test }
    ensures greatest { (n : ℕ) (test : ℕ → Bool) (k : ℕ) → greatest_within n test ≡ k ↔ IsGreatestWithin n test k }
{}

/// What the steps count and ask, in words: the legs that depart from an airport or arrive there in an
/// hour beside the leg that is placed, the seats that are left on a path's legs, and whether a path
/// meets C13, C14 and C15.
pub fn the_steps_count_and_judge_as_in_words()
    ensures departs { (I : Situation) (Q : PlanRows) (x a h y : ℕ) → departs_beside I Q x a h y ≡ true ↔ DepartsBeside I Q x a h y }
    ensures arrives { (I : Situation) (Q : PlanRows) (x a h y : ℕ) → arrives_beside I Q x a h y ≡ true ↔ ArrivesBeside I Q x a h y }
    ensures seats { (I : Situation) (P : PlanRows) (path : Items (Leg × Cabin)) (n : ℕ) → has_seats_for I P path n ≡ true ↔ HasSeatsFor I P path n }
    ensures fit { (I : Situation) (P : PlanRows) (r : ℕ) (path : Items (Leg × Cabin)) → is_fit_path I P r path ≡ true ↔ IsFit I P r path }
{}

/// A Set changes the row of its leg where it is the one that the step names, and nothing else.
pub fn a_set_changes_one_leg()
    ensures { (P : PlanRows) (x : ℕ) (was new : Row) → SetsLeg P (after_set P x was new) x was new }
{}

/// A Swap has two aircraft fly each other's legs from a moment on. No passenger goes anywhere. Taken
/// twice it is undone, and between an aircraft and itself it changes nothing.
pub fn a_swap_exchanges_legs()
    ensures leg { (P : PlanRows) (p q at x : ℕ) → SwapsLeg P (after_swap P p q at) p q at x }
    ensures groups { (P : PlanRows) (p q at : ℕ) → (after_swap P p q at).groups ≡ P.groups }
    ensures twice { (P : PlanRows) (p q at : ℕ) → after_swap (after_swap P p q at) p q at ≡ P }
    ensures same { (P : PlanRows) (p at : ℕ) → after_swap P p p at ≡ P }
{}

/// A Push places the movable legs of its aircraft that come after the leg that it names, or all of
/// them, in their order. All other rows stay, and all groups. Where the aircraft does not fly the leg
/// that is named, nothing changes.
pub fn a_push_places_legs_in_their_order()
    ensures legs { (I : Situation) (P : PlanRows) (p : ℕ) (after : Option Leg) → All (IsPushed I P p after) (pushed_legs I P p after) }
    ensures each { (I : Situation) (P : PlanRows) (p : ℕ) (after : Option Leg) (x : ℕ) → IsPushed I P p after x → Contains (pushed_legs I P p after) x }
    ensures order { (I : Situation) (P : PlanRows) (p : ℕ) (after : Option Leg) → AllPairs (Precedes P) (pushed_legs I P p after) }
    ensures others { (I : Situation) (P : PlanRows) (p : ℕ) (after : Option Leg) (y : ℕ) → (IsPushed I P p after y → ⊥) → row_at (after_push I P p after) y ≡ row_at P y }
    ensures groups { (I : Situation) (P : PlanRows) (p : ℕ) (after : Option Leg) → (after_push I P p after).groups ≡ P.groups }
    ensures nothing { (I : Situation) (P : PlanRows) (p : ℕ) (leg : Leg) → ((d : ℕ) → Flies P leg.0 p d → ⊥) → after_push I P p (Some leg) ≡ P }
{}

/// Each leg that a Push places departs at the first moment at which it may, in the plan as it stands
/// then: the legs placed before it where they stay, and all others where they were. A leg that may
/// depart at no moment keeps its row.
pub fn a_push_places_each_leg_first()
    ensures { (I : Situation) (P : PlanRows) (p : ℕ) (after : Option Leg) (done : Items ℕ) (x : ℕ) (rest : Items ℕ) → IsPlanFor I P → pushed_legs I P p after ≡ done ++ x ∷ rest → PlacesLeg I P (after_push I P p after) p done x }
{}

/// A Rebook has passengers of one reservation go from one path to another, as many as it names or all
/// that are on the path where they are fewer. Where the two paths are one, or nobody is on the first,
/// nothing changes.
pub fn a_rebook_moves_passengers_between_two_paths()
    ensures passengers { (I : Situation) (P : PlanRows) (r : ℕ) (path to : Items (Leg × Cabin)) (count : ℕ) → r < reservations_of I → IsPlanFor I P → RebooksPassengers P (after_rebook P r path to count) r path to (min count (count_on path (groups_at P r))) }
    ensures same { (I : Situation) (P : PlanRows) (r : ℕ) (path : Items (Leg × Cabin)) (count : ℕ) → IsPlanFor I P → after_rebook P r path path count ≡ P }
    ensures nobody { (I : Situation) (P : PlanRows) (r : ℕ) (path to : Items (Leg × Cabin)) (count : ℕ) → IsPlanFor I P → count_on path (groups_at P r) ≡ 0 → after_rebook P r path to count ≡ P }
{}

/// A Tidy leaves no passenger on a carried path that breaks C13, C14 or C15, and everyone on another
/// carried path there. No row changes. Taken twice it is taken once.
pub fn a_tidy_leaves_no_path_that_breaks_a_rule()
    ensures reservation { (I : Situation) (P : PlanRows) (r : ℕ) → r < reservations_of I → TidiesReservation I P (after_tidy I P) r }
    ensures rows { (I : Situation) (P : PlanRows) → (after_tidy I P).rows ≡ P.rows }
    ensures twice { (I : Situation) (P : PlanRows) → after_tidy I (after_tidy I P) ≡ after_tidy I P }
{}

/// A path that meets C15 beside some groups meets it where fewer passengers are carried. Tidy rests on
/// that: it judges each path on the groups as they were.
pub fn a_path_stays_bound_where_fewer_are_carried()
    ensures { (I : Situation) (r : ℕ) (fewer more : Items Group) (path : Items (Leg × Cabin)) → AreNoMoreCarried fewer more → bound I r more path ≡ true → bound I r fewer path ≡ true }
{}

/// A Refill has passengers who are not carried go to their scheduled path, for each reservation whose
/// scheduled path has the leg and meets C13, C14 and C15: until none is left, or one more would lack a
/// seat or break C15, which holds of the path then too. Those that stand earlier come first: each gets its
/// seats in the plan as those before it left it. All others keep their groups, and no row changes. No leg's
/// cabin gets more passengers than it has seats.
pub fn a_refill_fills_the_seats_that_are_left()
    ensures reservation { (I : Situation) (P : PlanRows) (x r : ℕ) → IsValid I → IsPlanFor I P → r < reservations_of I → RefillsReservation I P (after_refill I P x) x r }
    ensures turn { (I : Situation) (P : PlanRows) (x r : ℕ) → r < reservations_of I → groups_at (after_refill I P x) r ≡ groups_at (after_refilling I x (fold (after_refilling I x) P (numbers r)) r) r }
    ensures rows { (I : Situation) (P : PlanRows) (x : ℕ) → IsValid I → IsPlanFor I P → (after_refill I P x).rows ≡ P.rows }
    ensures seats { (I : Situation) (P : PlanRows) (x y : ℕ) (c : Cabin) → IsValid I → IsPlanFor I P → IsNotOverfilled I P (after_refill I P x) y c }
{}
