//! Which legs may follow a stem on a route.

ghost use Rattle.std.specs.Prelude.{◌≡◌, ◌<◌, ◌&&◌, ◌||◌, ◌==◌};
ghost use Rattle.desk_data.specs.Situation.{airports_of, legs_of, reservations_of};
ghost use Rattle.desk_data.specs.Valid.{IsPlanFor};
ghost use Rattle.near_pax.specs.Start.{IsStemPath};
ghost use Rattle.near_memory.specs.Untouched.{goes_between};
ghost use Rattle.near_notes.specs.Onward.{IsOutsetOf, is_linked, is_soon, may_follow};
ghost use Rattle.near_notes.specs.Links.{AreLinks};

use crate::links::Links;
use desk_data::{Airport, Cabin, Instance, Leg, Res};
use near_pax::{due_before, start_after};
use plan_pages::Pages;
use plan_reads::{arrival, departure, is_flown};

/// From where passengers go on after a stem, from when on, where they want to go, and before which minute they have to
/// be there.
#[derive(Clone, Copy)]
pub(crate) struct Outset {
    pub from: Airport,
    pub earliest: u32,
    pub to: Airport,
    pub until: u32,
}

impl Outset {
    /// That of a reservation after a stem.
    pub(crate) fn after(inst: &Instance, plan: &Pages, res: Res, stem: &[(Leg, Cabin)]) -> Outset
        requires plan { IsPlanFor inst.now plan.now }
        requires res { res.0 < reservations_of inst.now }
        requires stem { IsStemPath inst.now stem.now }
        ensures { IsOutsetOf inst.now plan.now res.0 stem.now result }
    {
        let _rows = inst.parts();
        let (from, earliest) = start_after(inst, plan, res, stem);
        Outset {
            from,
            earliest,
            to: inst.booked(res).dest,
            until: due_before(inst, res),
        }
    }

    /// Whether a leg may be the first or the second of the legs after the stem: it is flown in time, and its airports are
    /// linked to those of the passengers.
    pub(crate) fn may_use(&self, inst: &Instance, plan: &Pages, links: &Links, leg: Leg) -> bool
        requires plan { IsPlanFor inst.now plan.now }
        requires links { AreLinks inst.now links.now.known.items }
        requires leg { leg.0 < legs_of inst.now }
        requires from { self.now.from.0 < airports_of inst.now }
        requires to { self.now.to.0 < airports_of inst.now }
        ensures { result ≡ may_follow inst.now plan.now self.now leg.0 }
    {
        self.is_linked(inst, links, leg) && self.is_soon(inst, plan, leg)
    }

    /// Whether a leg leaves where they stand, and arrives where they want to go or where a leg goes on to there; or
    /// whether it arrives there, and leaves where a leg comes from where they stand.
    #[tactic(auto, unfolding(crate::specs::Onward::is_linked))]
    fn is_linked(&self, inst: &Instance, links: &Links, leg: Leg) -> bool
        requires links { AreLinks inst.now links.now.known.items }
        requires leg { leg.0 < legs_of inst.now }
        requires from { self.now.from.0 < airports_of inst.now }
        requires to { self.now.to.0 < airports_of inst.now }
        ensures { result ≡ is_linked inst.now self.now leg.0 }
    {
        let info = inst.leg(leg);
        self.may_begin(inst, links, info.origin, info.dest)
            || self.may_end(inst, links, info.origin, info.dest)
    }

    /// Whether a leg between two airports leaves where they stand, and arrives where they want to go or where a leg goes on
    /// to there.
    fn may_begin(&self, inst: &Instance, links: &Links, from: Airport, to: Airport) -> bool
        requires links { AreLinks inst.now links.now.known.items }
        requires own { self.now.to.0 < airports_of inst.now }
        requires to { to.0 < airports_of inst.now }
        ensures { result ≡ ((from.0 == self.now.from.0) && ((to.0 == self.now.to.0) || goes_between inst.now to.0 self.now.to.0)) }
    {
        from.0 == self.from.0 && (to.0 == self.to.0 || links.go_between(inst, to, self.to))
    }

    /// Whether a leg between two airports arrives where they want to go, and leaves where a leg comes from where they
    /// stand.
    fn may_end(&self, inst: &Instance, links: &Links, from: Airport, to: Airport) -> bool
        requires links { AreLinks inst.now links.now.known.items }
        requires own { self.now.from.0 < airports_of inst.now }
        requires from { from.0 < airports_of inst.now }
        ensures { result ≡ ((to.0 == self.now.to.0) && goes_between inst.now self.now.from.0 from.0) }
    {
        to.0 == self.to.0 && links.go_between(inst, self.from, from)
    }

    /// Whether a leg is flown, no earlier than they may go on, and arrives before they have to.
    #[tactic(auto, unfolding(crate::specs::Onward::is_soon))]
    fn is_soon(&self, inst: &Instance, plan: &Pages, leg: Leg) -> bool
        requires plan { IsPlanFor inst.now plan.now }
        requires leg { leg.0 < legs_of inst.now }
        ensures { result ≡ is_soon inst.now plan.now self.now leg.0 }
    {
        is_flown(plan.read_row(leg))
            && self.earliest <= departure(plan, leg)
            && arrival(inst, plan, leg) < self.until
    }
}
