//! How a recovered day stands, in a few words.

use crate::costs::{put_difference, sum_of};
use crate::findings::Findings;
use crate::{
    ChangedGroup, ChangedLeg, Fate, LegChange, Page, Part, Shift, clock, date, put_units,
    ten_thousandths,
};
use desk_data::{Instance, Minute, NoMem};

// How many legs changed in which way.
#[derive(Clone, Copy)]
struct LegCounts {
    cancelled: u64,
    swapped: u64,
    shifted: u64,
}

// How many passengers something became of.
#[derive(Clone, Copy)]
struct PassengerCounts {
    not_carried: u64,
    late: u64,
    below: u64,
    rebooked: u64,
}

// Adds one where something holds.
fn add_if(count: &mut u64, holds: bool, more: u64) {
    if holds {
        *count = count.saturating_add(more);
    }
}

// How the legs changed.
fn count_legs(legs: &[ChangedLeg]) -> LegCounts {
    let mut counts = LegCounts {
        cancelled: 0,
        swapped: 0,
        shifted: 0,
    };
    for leg in legs {
        match leg.change {
            LegChange::Cancelled => add_if(&mut counts.cancelled, true, 1),
            LegChange::Restored => {}
            LegChange::Moved { shift, swapped } => {
                add_if(&mut counts.swapped, swapped, 1);
                add_if(&mut counts.shifted, !swapped && shift != Shift::Same, 1);
            }
        }
    }
    counts
}

// How many passengers something became of.
fn count_passengers(groups: &[ChangedGroup]) -> PassengerCounts {
    let mut counts = PassengerCounts {
        not_carried: 0,
        late: 0,
        below: 0,
        rebooked: 0,
    };
    for group in groups {
        let count = u64::from(group.count);
        let is_carried = group.fate != Fate::NotCarried;
        let is_late = matches!(group.fate, Fate::Arrives(minutes) if minutes > 0);
        add_if(&mut counts.not_carried, !is_carried, count);
        add_if(&mut counts.late, is_late, count);
        add_if(&mut counts.below, group.below > 0, count);
        add_if(&mut counts.rebooked, is_carried, u64::from(group.moved));
    }
    counts
}

// How many passengers there are.
fn passengers_of(inst: &Instance) -> u64 {
    let mut all: u64 = 0;
    for r in inst.parts().res.as_slice() {
        all = all.saturating_add(u64::from(r.count));
    }
    all
}

// Puts a moment with its day.
fn put_moment(page: &mut Page, at: Minute) -> Result<(), NoMem> {
    page.put(&[
        Part::Given(&date(at)),
        Part::Own(" "),
        Part::Given(&clock(at)),
    ])
}

// Puts the name of the day and what it has.
fn put_heading(page: &mut Page, inst: &Instance) -> Result<(), NoMem> {
    let (from, to) = inst.window();
    page.put(&[
        Part::Own("<header><h1>Recovery of "),
        Part::Given(&date(from)),
        Part::Own("</h1><p>Window "),
    ])?;
    put_moment(page, from)?;
    page.put(&[Part::Own(" to ")])?;
    put_moment(page, to)?;
    page.put(&[
        Part::Own(" &#183; "),
        Part::Number(u64::from(inst.planes())),
        Part::Own(" aircraft, "),
        Part::Number(u64::from(inst.legs())),
        Part::Own(" legs, "),
        Part::Number(u64::from(inst.reservations())),
        Part::Own(" reservations, "),
        Part::Number(passengers_of(inst)),
        Part::Own(" passengers</p></header>\n"),
    ])
}

// Puts whether the plan meets the rules, and the first that it breaks.
fn put_verdict(page: &mut Page, findings: &Findings) -> Result<(), NoMem> {
    if findings.broken.is_empty() {
        return page.put(&[Part::Own(
            "<li><span>Plan</span><strong>Feasible</strong><span>First broken rule: none of C1 to C15</span></li>\n",
        )]);
    }
    page.put(&[
        Part::Own(
            "<li class=\"bad\"><span>Plan</span><strong>Broken</strong><span>First broken rule: <b>",
        ),
        Part::Given(findings.broken.as_slice()),
        Part::Own("</b></span></li>\n"),
    ])
}

// Puts what the plan costs, beside the schedule.
fn put_cost(page: &mut Page, findings: &Findings) -> Result<(), NoMem> {
    let was = ten_thousandths(sum_of(&findings.before));
    let is = ten_thousandths(sum_of(&findings.after));
    page.put(&[Part::Own("<li><span>Cost, in units</span><strong><i>")])?;
    put_units(page, was)?;
    page.put(&[Part::Own(" &#8594;</i> ")])?;
    put_units(page, is)?;
    page.put(&[Part::Own("</strong><span>")])?;
    put_difference(page, was, is)?;
    page.put(&[Part::Own(" on the schedule, which breaks ")])?;
    if findings.broken_before.is_empty() {
        page.put(&[Part::Own("no rule")])?;
    }
    page.put(&[
        Part::Given(findings.broken_before.as_slice()),
        Part::Own("</span></li>\n"),
    ])
}

// Puts how many legs changed.
fn put_leg_counts(page: &mut Page, inst: &Instance, legs: &[ChangedLeg]) -> Result<(), NoMem> {
    let counts = count_legs(legs);
    page.put(&[
        Part::Own("<li><span>Legs changed</span><strong>"),
        Part::Number(legs.len() as u64),
        Part::Own(" <small>of "),
        Part::Number(u64::from(inst.legs())),
        Part::Own("</small></strong><span>"),
        Part::Number(counts.cancelled),
        Part::Own(" cancelled &#183; "),
        Part::Number(counts.swapped),
        Part::Own(" by other aircraft &#183; "),
        Part::Number(counts.shifted),
        Part::Own(" at another time alone</span></li>\n"),
    ])
}

// Puts how many passengers something became of.
fn put_passenger_counts(
    page: &mut Page,
    inst: &Instance,
    groups: &[ChangedGroup],
) -> Result<(), NoMem> {
    let counts = count_passengers(groups);
    page.put(&[
        Part::Own("<li><span>Passengers not carried</span><strong>"),
        Part::Number(counts.not_carried),
        Part::Own(" <small>of "),
        Part::Number(passengers_of(inst)),
        Part::Own("</small></strong><span>"),
        Part::Number(counts.late),
        Part::Own(" late &#183; "),
        Part::Number(counts.below),
        Part::Own(" in a lower cabin &#183; "),
        Part::Number(counts.rebooked),
        Part::Own(" rebooked</span></li>\n"),
    ])
}

/// Puts the head of the page: the day, whether the plan meets the rules, what it costs, and how many legs and passengers
/// changed.
pub fn put_facts(page: &mut Page, inst: &Instance, findings: &Findings) -> Result<(), NoMem> {
    put_heading(page, inst)?;
    page.put(&[Part::Own("<ul class=\"facts\">\n")])?;
    put_verdict(page, findings)?;
    put_cost(page, findings)?;
    put_leg_counts(page, inst, findings.legs.as_slice())?;
    put_passenger_counts(page, inst, findings.groups.as_slice())?;
    page.put(&[Part::Own("</ul>\n")])
}
