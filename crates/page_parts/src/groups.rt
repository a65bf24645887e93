//! The passengers of whom something changed, worst first.

ghost use Rattle.std.specs.Prelude.{◌<◌};
ghost use Rattle.desk_data.specs.Valid.{IsPlanFor};

use crate::{ChangedGroup, Fate, Page, Part, leg_of, res_of};
use desk_data::{Cabin, Instance, Leg, LegInfo, NoMem, Plan, ResInfo};
use desk_text::{cabin_letter, direction_letter};
use std::alloc::Global;

// The most rows of the table.
const MOST_ROWS: usize = 400;

// How bad a change is: the least stands first. Those who do not arrive come before the others, then those who are late most,
// then those with most legs in a lower cabin, then the greater groups, then by the place in the list.
#[derive(Clone, Copy, PartialEq, Eq, PartialOrd, Ord)]
struct Rank {
    kind: u32,
    in_time: u32,
    as_booked: usize,
    fewer: u32,
    place: usize,
}

// The rank of a group at a place of the list.
fn rank_of(group: &ChangedGroup, place: usize) -> Rank {
    let (kind, late) = match group.fate {
        Fate::NotCarried => (0, 0),
        Fate::Stranded => (1, 0),
        Fate::Arrives(late) => (2, late),
    };
    Rank {
        kind,
        in_time: u32::MAX.saturating_sub(late),
        as_booked: usize::MAX.saturating_sub(group.below),
        fewer: u32::MAX.saturating_sub(group.count),
        place,
    }
}

// The groups by their places in the list, worst first.
fn in_order(alloc: Global, groups: &[ChangedGroup]) -> Result<Vec<Rank>, NoMem> {
    let mut ranks = Vec::with_capacity(alloc, groups.len())?;
    for place in 0..groups.len() {
        ranks.push(rank_of(&groups[place], place))?;
    }
    ranks.sort()?;
    Ok(ranks)
}

// Puts a flight.
fn put_flight(page: &mut Page, info: &LegInfo) -> Result<(), NoMem> {
    page.put(&[Part::Given(info.flight.as_slice()), Part::Own(" ")])
}

// Puts the letter of a cabin.
fn put_cabin(page: &mut Page, cabin: Cabin) -> Result<(), NoMem> {
    let letter = cabin_letter(cabin);
    page.put(&[Part::Given(&letter), Part::Own(" ")])
}

// Puts a path: each flight with its cabin.
fn put_path(page: &mut Page, inst: &Instance, path: &[(Leg, Cabin)]) -> Result<(), NoMem> {
    if path.is_empty() {
        return page.put(&[Part::Own("&#8211;")]);
    }
    for pair in path {
        if let Some(info) = leg_of(inst, pair.0) {
            put_flight(page, info)?;
            put_cabin(page, pair.1)?;
        }
    }
    Ok(())
}

// Puts what became of a group.
fn put_fate(page: &mut Page, group: &ChangedGroup) -> Result<(), NoMem> {
    match group.fate {
        Fate::NotCarried => page.put(&[Part::Own("<td></td><td class=\"bad\">not carried")])?,
        Fate::Stranded => page.put(&[Part::Own("<td></td><td class=\"bad\">a leg is cancelled")])?,
        Fate::Arrives(0) => page.put(&[Part::Own("<td></td><td>in time")])?,
        Fate::Arrives(late) => page.put(&[
            Part::Own("<td class=\"r\">+"),
            Part::Number(u64::from(late)),
            Part::Own("</td><td>late"),
        ])?,
    }
    if group.below > 0 {
        page.put(&[Part::Own(", in a lower cabin")])?;
    }
    if group.moved > 0 && group.fate != Fate::NotCarried {
        page.put(&[
            Part::Own(", "),
            Part::Number(u64::from(group.moved)),
            Part::Own(" rebooked"),
        ])?;
    }
    page.put(&[Part::Own("</td>")])
}

// Puts the name of a reservation, which begins its row.
fn put_name(page: &mut Page, info: &ResInfo) -> Result<(), NoMem> {
    page.put(&[
        Part::Own("<tr><th scope=\"row\">"),
        Part::Given(info.name.as_slice()),
        Part::Own(" "),
    ])
}

// Puts how many passengers a group has.
fn put_count(page: &mut Page, count: u32) -> Result<(), NoMem> {
    page.put(&[
        Part::Own("</th><td class=\"r\">"),
        Part::Number(u64::from(count)),
        Part::Own("</td><td class=\"was\">"),
    ])
}

// Puts a group.
fn put_group(
    page: &mut Page,
    inst: &Instance,
    plan: &Plan,
    group: &ChangedGroup,
) -> Result<(), NoMem>
    requires { IsPlanFor inst.now plan.now }
{
    let Some(info) = res_of(inst, group.res) else {
        return Ok(());
    };
    put_name(page, info)?;
    page.put(&[Part::Given(&direction_letter(info.inbound))])?;
    put_count(page, group.count)?;
    put_path(page, inst, info.path.as_slice())?;
    page.put(&[Part::Own("</td><td>")])?;
    if group.res.0 < inst.reservations() {
        if let Some(now) = plan.groups(group.res).get(group.place) {
            put_path(page, inst, now.path.as_slice())?;
        }
    }
    page.put(&[Part::Own("</td>")])?;
    put_fate(page, group)?;
    page.put(&[Part::Own("</tr>\n")])
}

// Puts the rows of the table.
fn put_rows(
    page: &mut Page,
    inst: &Instance,
    plan: &Plan,
    groups: &[ChangedGroup],
    ranks: &[Rank],
) -> Result<(), NoMem>
    requires { IsPlanFor inst.now plan.now }
{
    for (k, rank) in ranks.iter().enumerate() {
        if k < MOST_ROWS {
            if let Some(group) = groups.get(rank.place) {
                put_group(page, inst, plan, group)?;
            }
        }
    }
    Ok(())
}

/// Puts the groups of passengers to whose path somebody came since the schedule, or who arrive late or not at all: those who
/// are not carried, then those who are late most. Of more than 400 groups the first 400 have a row.
pub fn put_groups(
    page: &mut Page,
    alloc: Global,
    inst: &Instance,
    plan: &Plan,
    groups: &[ChangedGroup],
) -> Result<(), NoMem>
    requires { IsPlanFor inst.now plan.now }
{
    page.put(&[
        Part::Own("<section><h2>Passengers <small>"),
        Part::Number(groups.len() as u64),
        Part::Own(" groups with a change, worst first</small></h2>\n"),
    ])?;
    if groups.is_empty() {
        return page.put(&[Part::Own(
            "<p class=\"none\">All passengers travel as booked and arrive in time.</p></section>\n",
        )]);
    }
    page.put(&[Part::Own(
        "<table class=\"t\"><thead><tr><th scope=\"col\">Reservation</th><th scope=\"col\" class=\"r\">Count</th>\
<th scope=\"col\">Booked</th><th scope=\"col\">Recovered</th><th scope=\"col\" class=\"r\">Late</th>\
<th scope=\"col\">What</th></tr></thead>\n<tbody>\n",
    )])?;
    let ranks = in_order(alloc, groups)?;
    put_rows(page, inst, plan, groups, ranks.as_slice())?;
    page.put(&[Part::Own("</tbody></table>\n")])?;
    if groups.len() > MOST_ROWS {
        page.put(&[
            Part::Own("<p class=\"none\">and "),
            Part::Number((groups.len() - MOST_ROWS) as u64),
            Part::Own(" groups more, less late than these.</p>\n"),
        ])?;
    }
    page.put(&[Part::Own("</section>\n")])
}
