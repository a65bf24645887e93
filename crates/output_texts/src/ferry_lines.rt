//! The lines of an added leg.

ghost use Rattle.std.specs.Prelude.{◌≡◌, ◌<◌, ◌++◌, OnOk};
ghost use Rattle.desk_data.specs.Situation.{planes_of, airports_of};
ghost use Rattle.output_texts.specs.FerryText.{leg_text, line_from, reported_from};

use added_legs::Added;
use desk_data::{Airport, Grains, Instance, NoMem};
use desk_text::{moment_text, push_all, push_number};

/// Adds the fields of an added leg that leaves an airport: `AIRCRAFT ORIGIN DEST DATE TIME`, with its departure.
#[tactic(auto, unfolding(crate::specs::FerryText::leg_text))]
fn push_leg(text: &mut Vec<u8>, inst: &Instance, origin: Airport, leg: Added) -> Result<(), NoMem>
    requires plane { leg.plane.0 < planes_of inst.now }
    requires origin { origin.0 < airports_of inst.now }
    requires dest { leg.dest.0 < airports_of inst.now }
    requires departs { leg.dep.0 < 52596000 }
    ensures { OnOk result (text.new.items ≡ text.old.items ++ leg_text inst.now origin leg) }
{
    let plane = inst.plane(leg.plane).name.as_slice();
    let from = inst.airport(origin).name.as_slice();
    let to = inst.airport(leg.dest).name.as_slice();
    let departure = moment_text(leg.dep);
    push_all(text, &[plane, b" ", from, b" ", to, b" ", &departure])
}

/// Adds the line of an added leg in sol_added.csv, given where it leaves: `AIRCRAFT ORIGIN DEST DATE TIME`, with its
/// departure, which is below minute 52,596,000. The only error is out of memory.
pub fn push_added(
    text: &mut Vec<u8>,
    inst: &Instance,
    origin: Airport,
    leg: Added,
) -> Result<(), NoMem>
    requires plane { leg.plane.0 < planes_of inst.now }
    requires origin { origin.0 < airports_of inst.now }
    requires dest { leg.dest.0 < airports_of inst.now }
    requires departs { leg.dep.0 < 52596000 }
    ensures { OnOk result (text.new.items ≡ text.old.items ++ line_from inst.now origin leg) }
{
    push_leg(text, inst, origin, leg)?;
    text.push(b'\n')?;
    Ok(())
}

/// Adds its line in the report, given also what the plan costs with it and with those before it:
/// `added AIRCRAFT ORIGIN DEST DATE TIME COST`, in grains. The only error is out of memory.
pub fn push_reported(
    text: &mut Vec<u8>,
    inst: &Instance,
    origin: Airport,
    leg: Added,
    cost: Grains,
) -> Result<(), NoMem>
    requires plane { leg.plane.0 < planes_of inst.now }
    requires origin { origin.0 < airports_of inst.now }
    requires dest { leg.dest.0 < airports_of inst.now }
    requires departs { leg.dep.0 < 52596000 }
    ensures { OnOk result (text.new.items ≡ text.old.items ++ reported_from inst.now origin leg cost.0) }
{
    text.extend_from_slice(b"added ")?;
    push_leg(text, inst, origin, leg)?;
    text.push(b' ')?;
    push_number(text, cost.0)?;
    text.push(b'\n')?;
    Ok(())
}
