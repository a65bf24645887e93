//! What holds of the leg before a leg, and of the last leg before a moment, in the words of the rules.

ghost use Rattle.std.specs.Prelude.{◌≡◌, ◌==◌, ℕ, true, None, Some, Option};
ghost use Rattle.desk_units.specs.declared.numbers.Leg.{Leg};
ghost use Rattle.desk_data.specs.Situation.{Situation, legs_of};
ghost use Rattle.desk_data.specs.PlanRows.{PlanRows};
ghost use Rattle.desk_rules.specs.Numbers.{none_below};
ghost use Rattle.desk_rules.specs.Rotations.{follows, is_first};
ghost use Rattle.desk_rules.specs.Maintenance.{departs_before, is_last_before, is_left_at};
ghost use Rattle.plan_reads.specs.Before.{IsLegBefore};
ghost use Rattle.plan_reads.specs.Last.{IsLastOf, stand};

/// A leg follows the leg before it; where it has none, it is the first of its aircraft.
pub fn the_leg_before_a_leg_is_followed_by_it()
    ensures next { (I : Situation) (P : PlanRows) (y : ℕ) (leg : Leg) → IsLegBefore P.rows (legs_of I) y (Some leg) → follows I P leg.0 y ≡ true }
    ensures first { (I : Situation) (P : PlanRows) (y : ℕ) → IsLegBefore P.rows (legs_of I) y None → is_first I P y ≡ true }
{}

/// The last leg of an aircraft before a moment is the one of which the rules speak; where there is
/// none, no leg of the aircraft departs before the moment. The aircraft is left where it stands
/// after that leg.
pub fn the_last_leg_is_the_last_that_departs_before_a_moment()
    ensures last { (I : Situation) (P : PlanRows) (p at : ℕ) (leg : Leg) → IsLastOf P p at (legs_of I) (Some leg) → is_last_before I P p at leg.0 ≡ true }
    ensures none { (I : Situation) (P : PlanRows) (p at : ℕ) → IsLastOf P p at (legs_of I) None → none_below (legs_of I) (departs_before P p at) ≡ true }
    ensures stands { (I : Situation) (P : PlanRows) (p at airport : ℕ) (last : Option Leg) → IsLastOf P p at (legs_of I) last → is_left_at I P p at airport ≡ ((stand I p last).0 == airport) }
{}
