//! What a row of crew.csv says: names become numbers.

ghost use Rattle.std.specs.Prelude.{◌≡◌, ◌==◌, ◌<◌, IfOk, All, List as Items, length, ok_or};
ghost use Rattle.std.specs.List.{list_any};
ghost use Rattle.file_readers.specs.declared.crew_row.CrewRow.{CrewRow as Named};
ghost use Rattle.file_readers.specs.CrewFacts.{IsCrewRow};
ghost use Rattle.crew_rules.specs.Valid.{IsCrew};
ghost use Rattle.file_joins.specs.CrewJoin.{are_apart, crew_named, crew_stated, has_name, home_of, leg_of, legs_of};
ghost use Rattle.desk_data.specs.Situation.{airports_of, legs_of as day_legs};
ghost use Rattle.desk_text.specs.Rows.{GivesRow};

use crate::DayNames;
use crew_rules::CrewInfo;
use desk_text::{Cause, RowFault};
use desk_units::{Airport, Leg, List, Name};
use file_readers::{CrewLeg, CrewRow};
use std::alloc::Global;

/// The most crews.
const MOST_CREWS: usize = 5_000;

/// The most legs of a crew.
const MOST_CREW_LEGS: usize = 64;

/// The airport of a name.
fn home_of(names: &DayNames<'_>, name: &Name) -> Result<Airport, Cause>
    ensures exact { result ≡ home_of names.now name.now }
    ensures within { IfOk result (λ home. home.0 < airports_of names.now) }
{
    names.airport(name.as_slice()).ok_or(Cause::Unknown)
}

/// The leg of a flight and a day.
fn leg_of(names: &DayNames<'_>, leg: &CrewLeg) -> Result<Leg, Cause>
    ensures exact { result ≡ leg_of names.now leg.now }
    ensures within { IfOk result (λ leg. leg.0 < day_legs names.now) }
{
    names
        .leg(leg.flight.as_slice(), leg.day)
        .ok_or(Cause::Unknown)
}

/// The legs of a row.
fn legs_of(alloc: Global, names: &DayNames<'_>, rows: &[CrewLeg]) -> Result<List<Leg>, RowFault>
    ensures exact { GivesRow result (legs_of names.now rows.now) }
    ensures within { IfOk result (All (λ leg. leg.0 < day_legs names.now)) }
{
    let mut legs = Vec::with_capacity(alloc, rows.len())?;
    for row in rows {
        legs.push(leg_of(names, row)?)?;
    }
    Ok(List(legs))
}

/// Whether a leg is one of these.
fn has_leg(legs: &[Leg], leg: Leg) -> bool
    ensures { result ≡ list_any (λ other. other.0 == leg.0) legs.now }
{
    legs.iter().any(|other| other.0 == leg.0)
}

/// Whether no leg stands twice.
#[tactic(auto, using(crate::proofs::LegLemmas::apart_goes_on, crate::proofs::LegLemmas::apart_breaks, crate::proofs::LegLemmas::apart_ends))]
fn are_apart(legs: &[Leg]) -> bool
    ensures { result ≡ are_apart legs.now }
{
    for k in 0..legs.len() {
        if has_leg(&legs[k + 1..], legs[k]) {
            return false;
        }
    }
    true
}

/// The crew of a row whose numbers and name are no reason to refuse it.
#[tactic(auto, unfolding(crate::specs::CrewJoin::crew_named), using(crate::proofs::LegLemmas::apart_holds))]
fn crew_named(alloc: Global, names: &DayNames<'_>, row: &CrewRow) -> Result<CrewInfo, RowFault>
    requires { IsCrewRow row.now }
    ensures exact { GivesRow result (crew_named names.now row.now) }
    ensures facts { IfOk result (IsCrew names.now.parts) }
{
    let home = home_of(names, &row.home)?;
    let legs = legs_of(alloc, names, row.legs.as_slice())?;
    if !are_apart(legs.as_slice()) {
        return Err(RowFault::Refused(Cause::Twice));
    }
    Ok(CrewInfo {
        name: row.name,
        home,
        duty: row.duty,
        rest: row.rest,
        legs,
    })
}

/// The crew of a row. So many rows stand before it, and one of them has its name, or none.
#[tactic(auto, unfolding(crate::specs::CrewJoin::crew_stated))]
pub(crate) fn crew_stated(
    alloc: Global,
    names: &DayNames<'_>,
    place: usize,
    again: bool,
    row: &CrewRow,
) -> Result<CrewInfo, RowFault>
    requires { IsCrewRow row.now }
    ensures exact { (before : Items Named) → length before ≡ place → has_name row.now.name before ≡ again → GivesRow result (crew_stated names.now before row.now) }
    ensures few { IfOk result (λ _. place < 5000) }
    ensures facts { IfOk result (IsCrew names.now.parts) }
{
    if place >= MOST_CREWS || row.legs.as_slice().len() > MOST_CREW_LEGS {
        return Err(RowFault::Refused(Cause::Limit));
    }
    if again {
        return Err(RowFault::Refused(Cause::Twice));
    }
    crew_named(alloc, names, row)
}
