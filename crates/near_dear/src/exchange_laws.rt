//! What holds of a move that exchanges the legs of two aircraft.

ghost use Rattle.std.specs.Prelude.{◌≡◌, ℕ, ◌+◌, ◌<◌, ◌≤◌, ◌⊎◌, ◌++◌, ◌≢◌, List as Items, None, false, sum_by, true};
ghost use Rattle.desk_data.specs.Situation.{Situation, legs_of, planes_of};
ghost use Rattle.desk_data.specs.PlanRows.{PlanRows};
ghost use Rattle.desk_data.specs.Valid.{IsPlanFor, IsValid};
ghost use Rattle.plan_moves.specs.Fits.{Fits};
ghost use Rattle.plan_moves.specs.declared.moves.Move.{Move};
ghost use Rattle.plan_moves.specs.declared.moves.Step.{Step};
ghost use Rattle.desk_rules.specs.Cost.{cost, operating_cost, position_cost};
ghost use Rattle.desk_rules.specs.Least.{least};
ghost use Rattle.desk_rules.specs.Words.{MeetsC5};
ghost use Rattle.desk_model.specs.Push.{rotation};
ghost use Rattle.desk_model.specs.Steps.{after_move};
ghost use Rattle.near_moves.specs.Chains.{stand};
ghost use Rattle.near_priced.specs.Unpaid.{is_either};
ghost use Rattle.near_moves.specs.Descent.{is_better};
ghost use Rattle.near_moves.specs.LegMoves.{exchange};
ghost use Rattle.near_moves.specs.Units.{MoveUnit};
ghost use Rattle.near_moves.specs.Steps.{unit_planes};
ghost use Rattle.near_moves.specs.Out.{IsOut};
ghost use Rattle.near_moves.specs.Own.{BreaksOwn};
ghost use Rattle.near_priced.specs.Priced.{paid_booked, paid_on, refilled};
ghost use Rattle.near_dear.specs.Exchanged.{exchanged_cost, own_cost, positions_then, stand_then};
ghost use Rattle.near_dear.specs.Moves.{AreInTime, IsExchange, IsInTime, both_pushed, exchanged};
ghost use Rattle.near_dear.specs.Calm.{AreDoneInTime};
ghost use Rattle.near_dear.specs.Dear.{IsDearExchange};

/// Once two aircraft have exchanged legs and are pushed, flying costs what it did, but for the legs from the moment on:
/// each of the two pays for those of the other.
pub fn an_exchange_costs_what_each_pays_for_the_legs_of_the_other()
    ensures { (I : Situation) (P : PlanRows) (m : Move) (p q at : ℕ) (pushes others : Items Step) → IsExchange I m p q at pushes others → operating_cost I (exchanged I P p q at pushes) + own_cost I P p q at ≡ operating_cost I P + exchanged_cost I P p q at }
{}

/// In a feasible plan, and if the legs meet C5 once two aircraft have exchanged legs and are pushed, each of the two
/// stands at the end where the other did, if both stand at one airport at the moment, and else where it did itself.
pub fn exchanged_aircraft_end_where_their_legs_lead()
    ensures first { (I : Situation) (P : PlanRows) (m : Move) (p q at : ℕ) (pushes others : Items Step) → IsExchange I m p q at pushes others → least I P ≡ None → ((x : ℕ) → x < legs_of I → MeetsC5 I (exchanged I P p q at pushes) x) → stand I (exchanged I P p q at pushes) p ≡ stand_then I P p q at }
    ensures second { (I : Situation) (P : PlanRows) (m : Move) (p q at : ℕ) (pushes others : Items Step) → IsExchange I m p q at pushes others → least I P ≡ None → ((x : ℕ) → x < legs_of I → MeetsC5 I (exchanged I P p q at pushes) x) → stand I (exchanged I P p q at pushes) q ≡ stand_then I P q p at }
{}

/// A move that exchanges the legs of two aircraft of a feasible plan makes it no cheaper, or breaks a rule of a leg of the
/// two, where flying and the positions cost at least as much more then as those pay now who are on their legs, or
/// booked on legs that are refilled. All legs of the two depart before the window's end, before the move and then.
pub fn an_exchange_is_dear_that_costs_at_least_as_much_more_as_those_pay_on_its_legs()
    ensures { (I : Situation) (P : PlanRows) (m : Move) (p q at : ℕ) (pushes others : Items Step) → IsValid I → IsPlanFor I P → least I P ≡ None → Fits I m → IsExchange I m p q at pushes others → IsInTime I P p → IsInTime I P q → IsInTime I (exchanged I P p q at pushes) p → IsInTime I (exchanged I P p q at pushes) q → own_cost I P p q at + position_cost I P + sum_by (paid_on I P) (rotation I P p ++ rotation I P q) + sum_by (paid_booked I P) (refilled others) ≤ exchanged_cost I P p q at + positions_then I P p q at → (cost I P ≤ cost I (after_move I P m)) ⊎ BreaksOwn (is_either p q) I P m }
{}

/// Where hours are calm and two aircraft are done before the window ends, all their legs depart before that, also once
/// they have exchanged legs and all of them are pushed, first those of the first aircraft.
pub fn exchanged_legs_depart_in_time_where_hours_are_calm()
    ensures { (I : Situation) (P : PlanRows) (p q at c : ℕ) → IsValid I → IsPlanFor I P → least I P ≡ None → p < planes_of I → q < planes_of I → p ≢ q → AreDoneInTime I P p q c → AreInTime I P (exchanged I P p q at (both_pushed p q)) p q }
{}

/// Of a move of N2 that is a dear exchange it is known why it is not better: it makes the plan no cheaper, or it breaks a
/// rule of a leg of its aircraft. So it is out, of whichever unit of these aircraft it is.
pub fn a_dear_exchange_is_out()
    ensures known { (I : Situation) (P : PlanRows) (m : Move) (p q at : ℕ) → IsValid I → IsPlanFor I P → least I P ≡ None → Fits I m → m.steps ≡ exchange p q at → IsDearExchange I P p q at → (cost I P ≤ cost I (after_move I P m)) ⊎ BreaksOwn (is_either p q) I P m }
    ensures out { (I : Situation) (P : PlanRows) (m : Move) (u : MoveUnit) (p q at : ℕ) → IsValid I → IsPlanFor I P → least I P ≡ None → Fits I m → m.steps ≡ exchange p q at → IsDearExchange I P p q at → unit_planes P u p ≡ true → unit_planes P u q ≡ true → IsOut I P u m }
    ensures worse { (I : Situation) (P : PlanRows) (m : Move) (p q at : ℕ) → IsValid I → IsPlanFor I P → least I P ≡ None → Fits I m → m.steps ≡ exchange p q at → IsDearExchange I P p q at → is_better I P m ≡ false }
{}
