//! What holds of the rules and of the cost.

ghost use Rattle.std.specs.Prelude.{◌≡◌, ◌↔◌, ℕ, ◌<◌, ◌^◌, true, Option, None, Some, List as Items, []};
ghost use Rattle.std.specs.Option.{option_or};
ghost use Rattle.std.specs.List.{AllPairs};
ghost use Rattle.desk_units.specs.declared.numbers.Leg.{Leg};
ghost use Rattle.desk_units.specs.declared.numbers.Cabin.{Cabin};
ghost use Rattle.desk_data.specs.declared.broken.Broken.{Broken as Item};
ghost use Rattle.desk_data.specs.Situation.{Situation};
ghost use Rattle.desk_data.specs.PlanRows.{PlanRows};
ghost use Rattle.desk_data.specs.Valid.{IsPlanFor, IsValid};
ghost use Rattle.desk_rules.specs.Cost.{cost};
ghost use Rattle.desk_rules.specs.Least.{all_hours, items, least, least_rot, least_slots, least_pax};
ghost use Rattle.desk_rules.specs.Maintenance.{departs_before};
ghost use Rattle.desk_rules.specs.Slots.{arrives_in, departs_in};
ghost use Rattle.desk_data.specs.Booked.{booked_path, haul_of, reference_of};
ghost use Rattle.desk_rules.specs.Passengers.{takes};
ghost use Rattle.desk_rules.specs.Words.{ArrivesIn, DepartsBefore, DepartsIn, HasLeg, IsFeasible, IsHighestCabin, IsHighestHaul, IsLeast};
ghost use Rattle.desk_rules.specs.Order.{ComesBefore};

/// A plan breaks no item exactly where it meets each rule, as the rules are written in words:
///
/// - C1: a fixed leg has the row that is due.
/// - C2: a movable leg that is flown is not called off, and departs in time.
/// - C3 and C4: a flown leg's aircraft is of the scheduled family, and the leg within its range.
/// - C5 and C6: a leg leaves where its aircraft is, and after its ground time.
/// - C7: a leg is flown while its aircraft is in service.
/// - C8 and C9: an aircraft makes its maintenance, and flies no more minutes before it than stated.
/// - C10 and C11: an airport has no more departures and arrivals in an hour than its caps.
/// - C12: a flown leg has a seat for each passenger of a cabin.
/// - C13: a carried path is flown, runs from origin to destination, connects and leaves no earlier
///   than booked.
/// - C14: a carried path arrives not too late.
/// - C15: a carried path begins with the legs that have begun, some passengers of its reservation have flown
///   just those of its legs that have left, and no more of them are carried so than have.
pub fn feasible_plans_meet_the_rules()
    ensures meets { (I : Situation) (P : PlanRows) → least I P ≡ None → IsFeasible I P }
    ensures only { (I : Situation) (P : PlanRows) → IsFeasible I P → least I P ≡ None }
{}

/// The item that is reported is broken, and each item before it in the order of rules, and in a rule
/// in the order of what it names, is not.
pub fn the_first_broken_item_is_reported()
    ensures { (I : Situation) (P : PlanRows) (item : Item) → least I P ≡ Some item → IsLeast I P item }
{}

/// The order in which items are reported: by rule, then by the number of the leg, aircraft, airport or
/// reservation that they name, then by hour or cabin. No item is listed twice.
pub fn the_items_are_in_order()
    ensures { (I : Situation) → AllPairs ComesBefore (items I) }
{}

/// What C9, C10 and C11 count, in words: an aircraft's legs that depart before a moment, and the
/// legs that leave or reach an airport from minute 60 times the hour up to the next hour. Legs of
/// surface transport are not counted by the hour.
pub fn the_rules_count_legs_as_in_words()
    ensures before { (P : PlanRows) (p at x : ℕ) → departs_before P p at x ≡ true ↔ DepartsBefore P p at x }
    ensures departs { (I : Situation) (P : PlanRows) (a h x : ℕ) → departs_in I P a h x ≡ true ↔ DepartsIn I P a h x }
    ensures arrives { (I : Situation) (P : PlanRows) (a h x : ℕ) → arrives_in I P a h x ≡ true ↔ ArrivesIn I P a h x }
{}

/// No leg of a plan leaves or reaches an airport in an hour that no item can name: C10 and C11 hold
/// of the hours after the last one too, since nothing departs or arrives then.
pub fn legs_are_within_the_hours()
    ensures departs { (I : Situation) (P : PlanRows) (a h x : ℕ) → IsValid I → IsPlanFor I P → DepartsIn I P a h x → h < all_hours }
    ensures arrives { (I : Situation) (P : PlanRows) (a h x : ℕ) → IsValid I → IsPlanFor I P → ArrivesIn I P a h x → h < all_hours }
{}

/// The item that is reported is the first that breaks C1 to C9, where there is none the first that breaks
/// C10 or C11, and where there is none either the first that breaks C12 to C15: so the three can be
/// looked for apart.
pub fn the_least_is_of_rotations_then_slots_then_passengers()
    ensures { (I : Situation) (P : PlanRows) → least I P ≡ option_or (least_rot I P) (option_or (least_slots I P) (least_pax I P)) }
{}

/// Where a reservation booked a leg, its haul is that of one of the booked legs, and none of them has
/// a higher one: domestic is below continental, and continental below intercontinental. So is its
/// reference cabin one of those booked, and none of them is higher.
pub fn the_haul_and_the_cabin_are_the_highest_booked()
    ensures haul { (I : Situation) (r : ℕ) → (booked_path I r ≡ [] → ⊥) → IsHighestHaul I (booked_path I r) (haul_of I r) }
    ensures cabin { (I : Situation) (r : ℕ) → (booked_path I r ≡ [] → ⊥) → IsHighestCabin (booked_path I r) (reference_of I r) }
{}

/// Whom C12 counts on a leg in a cabin, in words: the passengers whose path has the leg in the cabin.
pub fn passengers_are_aboard_where_their_path_has_the_leg()
    ensures { (path : Items (Leg × Cabin)) (x : ℕ) (c : Cabin) → takes x c path ≡ true ↔ HasLeg path x c }
{}

/// No cost of a plan reaches 10^38 grains, so that sums of costs fit into 128 bits.
pub fn costs_are_below_ten_to_the_38()
    ensures { (I : Situation) (P : PlanRows) → IsValid I → IsPlanFor I P → cost I P < 10 ^ 38 }
{}
