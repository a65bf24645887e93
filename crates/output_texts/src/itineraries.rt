//! The file of a plan's itineraries.

ghost use Rattle.std.specs.Prelude.{◌≡◌, ◌<◌, ◌++◌, All, IfOk, OnOk, codes, decimal};
ghost use Rattle.std.specs.List.{flat_map};
ghost use Rattle.desk_data.specs.Situation.{legs_of};
ghost use Rattle.desk_data.specs.Valid.{IsPlanFor, IsPathOf};
ghost use Rattle.output_texts.specs.Itineraries.{seat_text, group_line, group_lines, itineraries_text};
ghost use Rattle.desk_text.specs.Texts.{direction_text};

use crate::dates::SeatDates;
use desk_data::{Cabin, Group, Instance, Leg, NoMem, Res, ResInfo};
use desk_text::{push_all, push_number};
use plan_pages::Pages;
use std::alloc::Global;

/// The itineraries of a plan: one line for each reservation and path, by reservation and then in the
/// order of paths. The line is `RESERVATION TYPE COUNT` and then ` FLIGHT DATE CABIN` for each leg;
/// that of the passengers who are not carried has no legs. The only error is out of memory.
#[tactic(auto, unfolding(crate::specs::Itineraries::itineraries_text))]
pub fn itineraries_text(alloc: Global, inst: &Instance, plan: &Pages) -> Result<Vec<u8>, NoMem>
    requires { IsPlanFor inst.now plan.now }
    ensures { IfOk result (λ text. text.items ≡ itineraries_text inst.now plan.now) }
{
    let reservations = inst.parts().res.as_slice();
    let mut text = Vec::new(alloc);
    let mut dates = SeatDates::new();
    for (r, res) in reservations.iter().enumerate() {
        let groups = plan.groups(Res(r as u32));
        push_groups(&mut text, &mut dates, inst, res, groups)?;
    }
    Ok(text)
}

/// Adds the lines of a reservation, one for each of its groups.
#[tactic(auto, unfolding(crate::specs::Itineraries::group_lines))]
fn push_groups(
    text: &mut Vec<u8>,
    dates: &mut SeatDates,
    inst: &Instance,
    res: &ResInfo,
    groups: &[Group],
) -> Result<(), NoMem>
    requires { All (λ group. IsPathOf (legs_of inst.now) group.path) groups.now }
    ensures { OnOk result (text.new.items ≡ text.old.items ++ group_lines inst.now res.now groups.now) }
{
    for group in groups {
        push_group(text, dates, inst, res, group)?;
    }
    Ok(())
}

/// Adds the line of a group of passengers.
#[tactic(auto, unfolding(crate::specs::Itineraries::group_line))]
pub(crate) fn push_group(
    text: &mut Vec<u8>,
    dates: &mut SeatDates,
    inst: &Instance,
    res: &ResInfo,
    group: &Group,
) -> Result<(), NoMem>
    requires { IsPathOf (legs_of inst.now) group.now.path }
    ensures { OnOk result (text.new.items ≡ text.old.items ++ group_line inst.now res.now group.now) }
{
    push_reservation(text, res)?;
    push_number(text, u128::from(group.count))?;
    push_seats(text, dates, inst, group.path.as_slice())?;
    text.push(b'\n')?;
    Ok(())
}

/// Adds the name and the direction of a reservation, each followed by a space.
fn push_reservation(text: &mut Vec<u8>, res: &ResInfo) -> Result<(), NoMem>
    ensures { OnOk result (
        text.new.items ≡ text.old.items
        ++ (res.now.name ++ codes " " ++ direction_text res.now.inbound ++ codes " ")) }
{
    let direction = direction_in_spaces(res.inbound);
    push_all(text, &[res.name.as_slice(), &direction])
}

/// The letter of a direction between two spaces.
fn direction_in_spaces(inbound: bool) -> [u8; 3]
    ensures { result ≡ codes " " ++ direction_text inbound ++ codes " " }
{
    if inbound { *b" R " } else { *b" A " }
}

/// Adds the legs of a path with their cabins, each after a space.
fn push_seats(
    text: &mut Vec<u8>,
    dates: &mut SeatDates,
    inst: &Instance,
    legs: &[(Leg, Cabin)],
) -> Result<(), NoMem>
    requires { IsPathOf (legs_of inst.now) legs.now }
    ensures { OnOk result (
        text.new.items ≡ text.old.items ++ flat_map (seat_text inst.now) legs.now) }
{
    for (leg, cabin) in legs {
        push_seat(text, dates, inst, *leg, *cabin)?;
    }
    Ok(())
}

/// Adds a leg of a path with its cabin, after a space.
#[tactic(auto, unfolding(crate::specs::Itineraries::seat_text))]
fn push_seat(
    text: &mut Vec<u8>,
    dates: &mut SeatDates,
    inst: &Instance,
    leg: Leg,
    cabin: Cabin,
) -> Result<(), NoMem>
    requires { leg.0 < legs_of inst.now }
    ensures { OnOk result (text.new.items ≡ text.old.items ++ seat_text inst.now (leg, cabin)) }
{
    let info = inst.leg(leg);
    let end = dates.text(info.day, cabin);
    push_all(text, &[b" ", info.flight.as_slice(), &end])
}
