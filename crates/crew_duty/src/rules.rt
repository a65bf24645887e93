//! The rules of the legs that a crew works.

ghost use Rattle.std.specs.Prelude.{◌≡◌, ◌==◌, ◌<◌, ◌≤◌, All, IfSome, length};
ghost use Rattle.std.specs.List.{list_all};
ghost use Rattle.crew_rules.specs.Crews.{is_chain, is_in_turn, end_of, is_short, duties};
ghost use Rattle.crew_duty.specs.Faults.{ArrivesInTime, duty_with};

use crew_rules::{Airport, CrewInfo, WorkedLeg};

/// K1: whether the first leg leaves home, and each later one where the one before arrived.
#[tactic(auto, using(crate::proofs::LoopLaws::chain_goes_on, crate::proofs::LoopLaws::chain_breaks))]
pub(crate) fn is_chain(home: Airport, legs: &[WorkedLeg]) -> bool
    ensures { result ≡ is_chain home.0 legs.now }
{
    let mut at = home;
    for leg in legs {
        if leg.origin.0 != at.0 {
            return false;
        }
        at = leg.dest;
    }
    true
}

/// K2: whether each leg departs no earlier than the one before arrived.
#[tactic(auto, using(crate::proofs::LoopLaws::turn_goes_on, crate::proofs::LoopLaws::turn_breaks))]
pub(crate) fn is_in_turn(legs: &[WorkedLeg]) -> bool
    ensures { result ≡ is_in_turn 0 legs.now }
{
    let mut ready = 0;
    for leg in legs {
        if leg.dep.0 < ready {
            return false;
        }
        ready = leg.arr.0;
    }
    true
}

/// K3: whether no duty is longer than the greatest.
#[tactic(auto, using(crate::proofs::LoopLaws::none_short))]
pub(crate) fn are_short(crew: &CrewInfo, legs: &[WorkedLeg]) -> bool
    requires duty { crew.now.duty ≤ 10000 }
    requires rest { crew.now.rest ≤ 10000 }
    requires legs { All ArrivesInTime legs.now }
    ensures { result ≡ list_all (is_short crew.now.duty) (duties crew.now.rest legs.now) }
{
    if legs.is_empty() {
        return true;
    }
    have_short_duties(crew, legs)
}

/// When the duty began of which a leg is, where the duty so far began at one moment and its last leg arrived at another;
/// `None` where the leg comes after a rest and the duty before is longer than the greatest.
fn duty_with(crew: &CrewInfo, began: u32, arrived: u32, dep: u32) -> Option<u32>
    requires duty { crew.now.duty ≤ 10000 }
    requires rest { crew.now.rest ≤ 10000 }
    requires began { began < 52500000 }
    requires arrived { arrived < 52502880 }
    requires dep { dep < 52500000 }
    ensures exact { result ≡ duty_with crew.now.duty crew.now.rest began arrived dep }
    ensures soon { IfSome result (λ duty. duty < 52500000) }
{
    if dep < arrived + crew.rest {
        Some(began)
    } else if arrived <= began + crew.duty {
        Some(dep)
    } else {
        None
    }
}

/// The same of one leg or more.
#[tactic(auto, using(crate::proofs::LoopLaws::short_begins, crate::proofs::LoopLaws::short_goes_on, crate::proofs::LoopLaws::too_long, crate::proofs::LoopLaws::short_ends))]
fn have_short_duties(crew: &CrewInfo, legs: &[WorkedLeg]) -> bool
    requires duty { crew.now.duty ≤ 10000 }
    requires rest { crew.now.rest ≤ 10000 }
    requires some { 0 < length legs.now }
    requires legs { All ArrivesInTime legs.now }
    ensures { result ≡ list_all (is_short crew.now.duty) (duties crew.now.rest legs.now) }
{
    let mut began = legs[0].dep.0;
    let mut arrived = legs[0].arr.0;
    for k in 1..legs.len() {
        let Some(duty) = duty_with(crew, began, arrived, legs[k].dep.0) else {
            return false;
        };
        began = duty;
        arrived = legs[k].arr.0;
    }
    arrived <= began + crew.duty
}

/// K4: whether the last leg arrives at home.
#[tactic(auto, using(crate::proofs::LoopLaws::end_goes_on))]
pub(crate) fn ends_at_home(home: Airport, legs: &[WorkedLeg]) -> bool
    ensures { result ≡ (end_of home.0 legs.now == home.0) }
{
    let mut at = home;
    for leg in legs {
        at = leg.dest;
    }
    at.0 == home.0
}
