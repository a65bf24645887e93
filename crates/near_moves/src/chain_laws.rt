//! What holds of the legs of an aircraft, whatever their order.

ghost use Rattle.std.specs.Prelude.{◌≡◌, ℕ, ◌+◌, ◌<◌, ◌∷◌, List as Items, All, true, false};
ghost use Rattle.std.specs.List.{list_all};
ghost use Rattle.desk_data.specs.declared.row.Row.TheVariants.{Cancelled};
ghost use Rattle.desk_data.specs.Situation.{Situation, legs_of, plane_at};
ghost use Rattle.desk_data.specs.PlanRows.{PlanRows};
ghost use Rattle.plan_moves.specs.declared.moves.Move.{Move};
ghost use Rattle.plan_moves.specs.declared.moves.Step.{Step};
ghost use Rattle.plan_moves.specs.declared.moves.Step.TheVariants.{Set, Swap};
ghost use Rattle.desk_rules.specs.Maintenance.{flies};
ghost use Rattle.desk_rules.specs.Words.{MeetsC5};
ghost use Rattle.desk_model.specs.Push.{rotation};
ghost use Rattle.desk_model.specs.Steps.{after_steps};
ghost use Rattle.near_moves.specs.Descent.{is_better};
ghost use Rattle.near_moves.specs.MoveParts.{flown_row, leg, minute, plane};
ghost use Rattle.near_moves.specs.Near.{unit_moves};
ghost use Rattle.near_moves.specs.Units.{handed};
ghost use Rattle.near_moves.specs.Chains.{IsHandedInVain, IsRestoredInVain, IsSwappedInVain, from_airport, is_same, keeps_aircraft, stand, tally, to_airport};

/// In a plan whose legs meet C5, an aircraft that is no surface transport leaves each airport as often as it reaches
/// it, but once more the one where it begins, and once less the one where it stands at the end.
pub fn aircraft_leave_airports_as_often_as_they_reach_them()
    ensures { (I : Situation) (P : PlanRows) (p a : ℕ) → ((x : ℕ) → x < legs_of I → MeetsC5 I P x) → (plane_at I p).surface ≡ false → tally (from_airport I) a (rotation I P p) + is_same (stand I P p) a ≡ tally (to_airport I) a (rotation I P p) + is_same (plane_at I p).origin.0 a }
{}

/// Steps among which there is no Set and no Swap leave each leg to the aircraft that flies it.
pub fn steps_but_set_and_swap_leave_legs_to_their_aircraft()
    ensures { (I : Situation) (P : PlanRows) (steps : Items Step) (p x : ℕ) → list_all keeps_aircraft steps ≡ true → flies (after_steps I P steps) p x ≡ flies P p x }
{}

/// In a feasible plan, and between two aircraft that are no surface transport, a run that does not end where it
/// begins is handed on in vain, unless its aircraft stands at the end where the run leads, and the other one where it
/// begins.
pub fn a_run_that_leads_elsewhere_is_handed_on_in_vain()
    ensures { (I : Situation) (P : PlanRows) (x k q : ℕ) → IsHandedInVain I P x k q → All (λ m. is_better I P m ≡ false) (unit_moves I P (handed x k q)) }
{}

/// In a feasible plan two aircraft that are no surface transport, and stand at different airports at a moment,
/// exchange their legs from then on in vain, unless each stands at the end where it stands then. So it is whatever
/// comes after the exchange, but for another Set or Swap.
pub fn aircraft_that_stand_apart_exchange_legs_in_vain()
    ensures { (I : Situation) (P : PlanRows) (m : Move) (p q at : ℕ) (others : Items Step) → m.steps ≡ Swap (plane p) (plane q) (minute at) ∷ others → list_all keeps_aircraft others ≡ true → IsSwappedInVain I P p q at → is_better I P m ≡ false }
{}

/// In a feasible plan a cancelled leg that does not end where it begins is flown again in vain by an aircraft that
/// is no surface transport and does not stand at the end where the leg leaves. So it is at whatever moment it is to
/// depart, and whatever comes after it, but for another Set or Swap.
pub fn a_leg_that_leaves_elsewhere_is_restored_in_vain()
    ensures { (I : Situation) (P : PlanRows) (m : Move) (x p at : ℕ) (others : Items Step) → m.steps ≡ Set (leg x) Cancelled (flown_row p at) ∷ others → list_all keeps_aircraft others ≡ true → IsRestoredInVain I P x p → is_better I P m ≡ false }
{}
