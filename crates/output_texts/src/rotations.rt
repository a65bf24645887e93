//! The file of a plan's rotations.

ghost use Rattle.std.specs.Prelude.{◌≡◌, ◌<◌, ◌++◌, IfOk, OnOk};
ghost use Rattle.desk_data.specs.Situation.{planes_of};
ghost use Rattle.desk_data.specs.Valid.{IsPlanFor, IsRowOf};
ghost use Rattle.output_texts.specs.Rotations.{rotation_line, rotations_text};

use crate::dates::SpacedDate;
use desk_data::{Instance, Leg, LegInfo, NoMem, Row};
use desk_text::{push_all, time_text};
use plan_pages::Pages;
use std::alloc::Global;

/// The rotations of a plan: one line for each leg, in the order of the legs. The line of a flown leg
/// is `FLIGHT DATE AIRCRAFT DATE TIME`, with its flight date, its aircraft and its departure, and
/// that of a cancelled leg `FLIGHT DATE cancelled`. The only error is out of memory.
#[tactic(auto, unfolding(crate::specs::Rotations::rotations_text))]
pub fn rotations_text(alloc: Global, inst: &Instance, plan: &Pages) -> Result<Vec<u8>, NoMem>
    requires { IsPlanFor inst.now plan.now }
    ensures { IfOk result (λ text. text.items ≡ rotations_text inst.now plan.now) }
{
    let legs = inst.parts().legs.as_slice();
    let mut text = Vec::new(alloc);
    let mut dates = SpacedDate::new();
    for (x, leg) in legs.iter().enumerate() {
        let row = plan.read_row(Leg(x as u32));
        push_line(&mut text, &mut dates, inst, leg, row)?;
    }
    Ok(text)
}

/// Adds the line of a leg.
#[tactic(auto, unfolding(crate::specs::Rotations::rotation_line))]
pub(crate) fn push_line(
    text: &mut Vec<u8>,
    dates: &mut SpacedDate,
    inst: &Instance,
    leg: &LegInfo,
    row: Row,
) -> Result<(), NoMem>
    requires day { leg.now.day < 36525 }
    requires row { IsRowOf (planes_of inst.now) row }
    ensures { OnOk result (text.new.items ≡ text.old.items ++ rotation_line inst.now leg.now row) }
{
    let flight = leg.flight.as_slice();
    let date = dates.text(leg.day);
    match row {
        Row::Flown { plane, dep } => {
            let plane = inst.plane(plane).name.as_slice();
            let departs = dates.text(dep.0 / 1_440);
            let time = time_text(dep.0 % 1_440);
            push_all(text, &[flight, &date, plane, &departs, &time, b"\n"])
        }
        Row::Cancelled => push_all(text, &[flight, &date, b"cancelled\n"]),
    }
}
