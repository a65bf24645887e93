//! What the rules of crews say.

ghost use Rattle.std.specs.Prelude.{◌≡◌, ◌≢◌, ◌↔◌, ℕ, true, List as Items};
ghost use Rattle.std.specs.List.{AllPairs};
ghost use Rattle.desk_data.specs.declared.parts.Parts.{Parts as Day};
ghost use Rattle.desk_data.specs.declared.row.Row.{Row as LegRow};
ghost use Rattle.crew_rules.specs.declared.crew.CrewInfo.{CrewInfo as Crew};
ghost use Rattle.crew_rules.specs.declared.crew.WorkedLeg.{WorkedLeg as Worked};
ghost use Rattle.crew_rules.specs.Crews.{worked, duties, keeps_k1, keeps_k2, keeps_k3, keeps_k4, crew_least};
ghost use Rattle.crew_rules.specs.Words.{AreWorked, AreDuties, MeetsK1, MeetsK2, MeetsK3, MeetsK4, IsFirstBroken};

/// A crew works those of its legs that are flown, in the order of their departures; of two that depart together the
/// lesser number comes first.
pub fn crews_work_their_flown_legs_in_order()
    ensures { (D : Day) (P : Items LegRow) (c : Crew) → AllPairs (λ x y. x.0 ≢ y.0) c.legs → AreWorked D P c (worked D P c) }
{}

/// Legs in their order fall into duties: within a duty each next leg departs less than the least rest after the one
/// before arrived, and between two duties there is the least rest.
pub fn a_rest_parts_duties()
    ensures { (rest : ℕ) (ws : Items Worked) → AreDuties rest ws (duties rest ws) }
{}

/// A crew keeps a rule, by its test, exactly where it meets the rule as it is written in words:
///
/// - K1: the first leg leaves home, and each later one leaves where the one before arrived.
/// - K2: each leg departs no earlier than the one before arrived.
/// - K3: in each duty the last arrival is at most the greatest duty after the first departure.
/// - K4: the last leg arrives at home.
///
/// A crew that works no leg meets them all.
pub fn crew_rules_are_as_in_words()
    ensures k1 { (D : Day) (P : Items LegRow) (c : Crew) → keeps_k1 D P c ≡ true ↔ MeetsK1 c (worked D P c) }
    ensures k2 { (D : Day) (P : Items LegRow) (c : Crew) → keeps_k2 D P c ≡ true ↔ MeetsK2 (worked D P c) }
    ensures k3 { (D : Day) (P : Items LegRow) (c : Crew) → keeps_k3 D P c ≡ true ↔ MeetsK3 c (duties c.rest (worked D P c)) }
    ensures k4 { (D : Day) (P : Items LegRow) (c : Crew) → keeps_k4 D P c ≡ true ↔ MeetsK4 c (worked D P c) }
{}

/// The item that is reported is broken, and each other that is broken comes after it: by rule, then by the number of
/// the crew. None is reported where none is broken.
pub fn the_first_broken_item_of_crews_is_reported()
    ensures { (D : Day) (cs : Items Crew) (P : Items LegRow) → IsFirstBroken D cs P (crew_least D cs P) }
{}
