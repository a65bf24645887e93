//! What holds of a day and of what has left of it, of the stems of routes, and of a day of which nothing has left.

ghost use Rattle.std.specs.Prelude.{◌≡◌, ◌↔◌, ℕ, ◌+◌, ◌<◌, ◌≤◌, ◌∷◌, true, Some, List as Items, [], All, filter};
ghost use Rattle.std.specs.List.{AllPairs};
ghost use Rattle.desk_units.specs.declared.numbers.Cabin.{Cabin};
ghost use Rattle.desk_units.specs.declared.numbers.Leg.{Leg};
ghost use Rattle.day_orders.specs.declared.orders.Batch.{Batch as Orders};
ghost use Rattle.desk_data.specs.Booked.{booked_path};
ghost use Rattle.desk_data.specs.Hours.{arr_cap, dep_cap, frozen_arrivals, frozen_departures};
ghost use Rattle.desk_data.specs.LaterOrders.{IsOfLeg};
ghost use Rattle.desk_data.specs.PlanRows.{PlanRows, groups_at};
ghost use Rattle.desk_data.specs.Progress.{with_batch};
ghost use Rattle.desk_data.specs.Situation.{Situation, legs_of, reservations_of, earliest, first_progress, latest, ordered, ordered_spans, spans};
ghost use Rattle.desk_data.specs.Valid.{IsPlanFor, IsValid};
ghost use Rattle.desk_rules.specs.Slots.{arrivals, departures};
ghost use Rattle.desk_rules.specs.Words.{MeetsSpan};
ghost use Rattle.desk_model.specs.Choices.{greatest_within};
ghost use Rattle.desk_model.specs.Rebook.{count_on};
ghost use Rattle.desk_model.specs.Refill.{has_seats_for, refill_count};
ghost use Rattle.desk_model.specs.Tidy.{is_fit_path};
ghost use Rattle.near_moves.specs.RouteParts.{routes_by_stems};
ghost use Rattle.near_moves.specs.Routes.{begun_path, is_route, routes, stems, tried_after, without_repeats};
ghost use Rattle.near_moves.specs.LineWords.{ObeysLine};
ghost use Rattle.near_moves.specs.StemWords.{AreStemsInOrder, IsTriedFirst};
ghost use Rattle.near_moves.specs.WhatLeft.{HasFlown, HasLanded, IsInSpan, frozen_alone, has_minute};

use desk_data::{days_of_which_nothing_has_left_are_as_ordered, later_orders_decide};

/// The latest departure of a leg is two days after its departure by the orders, however far the day has gone on: a
/// batch that has no flight order of a leg leaves its latest departure as it was, whichever moment it tells.
pub fn latest_departures_are_counted_from_the_order()
    ensures order { (I : Situation) (x : ℕ) → latest I x ≡ ordered I x + 2880 }
    ensures batch { (I : Situation) (P : PlanRows) (B : Orders) (x : ℕ) → All (λ order. IsOfLeg x order → ⊥) B.orders → latest (with_batch I P B) x ≡ latest I x }
{
    later_orders_decide();
}

/// An aircraft is out of service in just the minutes of the spans that the orders gave it that come once it has
/// landed: no earlier than the arrival of any leg that it had flown by then. So none of these legs meets a span
/// that is left, and none breaks C7. Where it has flown none, its spans are those of the orders, without those that
/// have no minute.
pub fn spans_go_on_from_where_the_aircraft_has_landed()
    ensures minutes { (I : Situation) (p at : ℕ) → IsValid I → IsInSpan (spans I p) at ↔ (IsInSpan (ordered_spans I p) at × HasLanded I p at) }
    ensures meets { (I : Situation) (p x d : ℕ) → IsValid I → x < legs_of I → HasFlown I p x d → All (λ span. MeetsSpan I x d span.0 span.1 → ⊥) (spans I p) }
    ensures whole { (I : Situation) (p : ℕ) → IsValid I → ((x d : ℕ) → x < legs_of I → HasFlown I p x d → ⊥) → spans I p ≡ filter has_minute (ordered_spans I p) }
{}

/// The caps of an hour have room for what has left in it. What has left counts as C10 and C11 count: of the legs
/// that have left, those that depart from the airport in the hour, or arrive there then, by the aircraft that flew
/// them, unless that is surface transport. No cap is below that. Where no order of the airport has a minute in the
/// hour, the last group of the airport's line does decide that covers the hour of the day, and where there is none
/// the airport takes any number.
pub fn hours_have_room_for_what_has_left()
    ensures departing { (I : Situation) (a h : ℕ) → IsValid I → frozen_departures I a h ≡ departures I (frozen_alone I) a h }
    ensures arriving { (I : Situation) (a h : ℕ) → IsValid I → frozen_arrivals I a h ≡ arrivals I (frozen_alone I) a h }
    ensures departures_fit { (I : Situation) (a h cap : ℕ) → dep_cap I a h ≡ Some cap → frozen_departures I a h ≤ cap }
    ensures arrivals_fit { (I : Situation) (a h cap : ℕ) → arr_cap I a h ≡ Some cap → frozen_arrivals I a h ≤ cap }
    ensures line { (I : Situation) (a h : ℕ) → ObeysLine I a h }
{
    later_orders_decide();
}

/// The stems of a reservation stand in order: first what of its scheduled path has begun, and then each other list of
/// at least one leg that some of its passengers have flown, in the order of paths, each once. The routes are the
/// scheduled path, where it is one, and then those of each stem in turn that are not listed yet. After a stem shorter
/// paths are tried first, and those of one length in the order of paths.
pub fn stems_stand_in_order()
    ensures stems { (I : Situation) (r : ℕ) → IsValid I → r < reservations_of I → AreStemsInOrder I r }
    ensures routes { (I : Situation) (P : PlanRows) (r : ℕ) → routes I P r ≡ routes_by_stems I P r }
    ensures after { (I : Situation) (stem : Items (Leg × Cabin)) → AllPairs IsTriedFirst (tried_after I stem) }
{}

/// Where nothing has left, neither the present moment nor what passengers have flown decides how late a leg may
/// depart, on which routes passengers may go, or how many a Refill takes back: the latest departure is two days after
/// the earliest; the one stem is what has begun; and to a scheduled path that meets C13, C14 and C15 as many of those
/// who are not carried go as have seats on it.
pub fn where_nothing_has_left_moves_are_as_ordered()
    ensures latest { (I : Situation) (x : ℕ) → IsValid I → I.progress ≡ first_progress I.parts → latest I x ≡ earliest I x + 2880 }
    ensures stems { (I : Situation) (r : ℕ) → I.progress ≡ first_progress I.parts → r < reservations_of I → stems I r ≡ begun_path I r ∷ [] }
    ensures routes { (I : Situation) (P : PlanRows) (r : ℕ) → I.progress ≡ first_progress I.parts → r < reservations_of I → routes I P r ≡ without_repeats (filter (is_route I P r) (booked_path I r ∷ tried_after I (begun_path I r))) }
    ensures refill { (I : Situation) (P : PlanRows) (r : ℕ) → IsValid I → I.progress ≡ first_progress I.parts → IsPlanFor I P → r < reservations_of I → is_fit_path I P r (booked_path I r) ≡ true → refill_count I P r ≡ greatest_within (count_on [] (groups_at P r)) (has_seats_for I P (booked_path I r)) }
{
    days_of_which_nothing_has_left_are_as_ordered();
}
