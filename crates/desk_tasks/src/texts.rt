//! What is written of the legs that are added to a plan.

ghost use Rattle.std.specs.Prelude.{◌≡◌, ◌-◌, ◌<◌, ◌≤◌, ◌++◌, All, IfOk, None, OnOk, codes, decimal, length, slice_index_or};
ghost use Rattle.std.specs.List.{flat_map};
ghost use Rattle.std.specs.Option.{ForSome};
ghost use Rattle.added_legs.specs.Flights.{AreLastLegs};
ghost use Rattle.added_legs.specs.Merged.{IsAdded, plane_end};
ghost use Rattle.desk_data.specs.Situation.{airports_of, legs_of, planes_of};
ghost use Rattle.desk_data.specs.Valid.{IsPlanFor};
ghost use Rattle.desk_rules.specs.Cost.{cost, grains};
ghost use Rattle.desk_rules.specs.Least.{least};
ghost use Rattle.desk_tasks.specs.Outcome.{line};
ghost use Rattle.desk_tasks.specs.Ferry.{ferried, ferried_report};
ghost use Rattle.ferry_legs.specs.declared.ferried.Ferried.{Ferried as Extra};
ghost use Rattle.plan_reads.specs.Last.{stand};
ghost use Rattle.desk_tasks.specs.Lines.{line_of, report_line_of};
ghost use Rattle.output_texts.specs.FerryText.{added_text};

use desk_data::{Airport, DEPARTURES_END, Grains, Instance, Leg, Minute, NoMem, Plan, Plane};
use ferry_legs::{Ferried, ferry};
use output_texts::{push_added, push_reported};
use plan_reads::{put_lasts, stand_of};
use std::alloc::Global;

// The last leg of each aircraft.
fn last_legs(alloc: Global, inst: &Instance, plan: &Plan) -> Result<Vec<Option<Leg>>, NoMem>
    requires { IsPlanFor inst.now plan.now }
    ensures { IfOk result (λ lasts. AreLastLegs inst.now plan.now lasts.items) }
{
    let mut lasts = vec![in alloc; None; inst.planes() as usize]?;
    put_lasts(&Minute(DEPARTURES_END), inst, plan, lasts.as_mut_slice());
    Ok(lasts)
}

// Where an aircraft stands after a leg, or at first.
fn end_after(inst: &Instance, plane: Plane, last: Option<Leg>) -> Airport
    requires plane { plane.0 < planes_of inst.now }
    requires last { ForSome last (λ leg. leg.0 < legs_of inst.now) }
    ensures stand { result ≡ stand inst.now plane.0 last }
    ensures limit { result.0 < airports_of inst.now }
{
    let _leg = match last {
        Some(leg) => inst.leg(leg).dest.0,
        None => inst.plane(plane).origin.0,
    };
    stand_of(inst, plane, last)
}

// Where an aircraft ends: where its last leg arrives, or where it stands at first if it flies none.
#[tactic(auto, unfolding(added_legs::specs::Merged::plane_end))]
fn plane_end(inst: &Instance, plan: &Plan, lasts: &[Option<Leg>], plane: Plane) -> Airport
    requires plane { plane.0 < planes_of inst.now }
    requires lasts { AreLastLegs inst.now plan.now lasts.now }
    ensures end { result ≡ plane_end inst.now plan.now plane.0 }
    ensures limit { result.0 < airports_of inst.now }
{
    end_after(inst, plane, lasts[plane.0 as usize])
}

// Adds the line of an added leg in the file.
fn push_line(
    text: &mut Vec<u8>,
    inst: &Instance,
    plan: &Plan,
    lasts: &[Option<Leg>],
    added: Ferried,
) -> Result<(), NoMem>
    requires lasts { AreLastLegs inst.now plan.now lasts.now }
    requires leg { IsAdded inst.now plan.now added.leg }
    ensures { OnOk result (text.new.items ≡ text.old.items ++ line_of inst.now plan.now added) }
{
    let origin = plane_end(inst, plan, lasts, added.leg.plane);
    push_added(text, inst, origin, added.leg)
}

// Adds its line in the report.
fn push_report_line(
    text: &mut Vec<u8>,
    inst: &Instance,
    plan: &Plan,
    lasts: &[Option<Leg>],
    added: Ferried,
) -> Result<(), NoMem>
    requires lasts { AreLastLegs inst.now plan.now lasts.now }
    requires leg { IsAdded inst.now plan.now added.leg }
    ensures { OnOk result (text.new.items ≡ text.old.items ++ report_line_of inst.now plan.now added) }
{
    let origin = plane_end(inst, plan, lasts, added.leg.plane);
    push_reported(text, inst, origin, added.leg, added.cost)
}

// Adds the lines of added legs in the file.
fn push_lines(
    text: &mut Vec<u8>,
    inst: &Instance,
    plan: &Plan,
    lasts: &[Option<Leg>],
    list: &[Ferried],
) -> Result<(), NoMem>
    requires lasts { AreLastLegs inst.now plan.now lasts.now }
    requires list { All (λ added. IsAdded inst.now plan.now added.leg) list.now }
    ensures { OnOk result (text.new.items ≡ text.old.items ++ flat_map (line_of inst.now plan.now) list.now) }
{
    for added in list {
        push_line(text, inst, plan, lasts, *added)?;
    }
    Ok(())
}

// And in the report.
fn push_report_lines(
    text: &mut Vec<u8>,
    inst: &Instance,
    plan: &Plan,
    lasts: &[Option<Leg>],
    list: &[Ferried],
) -> Result<(), NoMem>
    requires lasts { AreLastLegs inst.now plan.now lasts.now }
    requires list { All (λ added. IsAdded inst.now plan.now added.leg) list.now }
    ensures { OnOk result (text.new.items ≡ text.old.items ++ flat_map (report_line_of inst.now plan.now) list.now) }
{
    for added in list {
        push_report_line(text, inst, plan, lasts, *added)?;
    }
    Ok(())
}

// Adds the lines that end the report.
fn push_end(text: &mut Vec<u8>, cost: Grains) -> Result<(), NoMem>
    ensures { OnOk result (text.new.items ≡ text.old.items ++ (line (codes "ended quiet") ++ line (codes "cost " ++ decimal cost.0))) }
{
    let cost = cost.0;
    let end = format!(in *text.allocator(); "ended quiet\ncost {cost}\n")?;
    text.extend_from_slice(end.as_bytes())?;
    Ok(())
}

// What the plan costs with all of these legs; with none that is what it costs alone.
fn last_cost(list: &[Ferried], alone: Grains) -> Grains
    ensures none { length list.now ≡ 0 → result ≡ alone }
    ensures some { (f : Extra) → 1 ≤ length list.now → result ≡ (slice_index_or list.now (length list.now - 1) f).cost }
{
    if list.is_empty() {
        alone
    } else {
        list[list.len() - 1].cost
    }
}

/// The text of sol_added.csv, and the report, of a plan that breaks no rule, given what it costs. The only error is out of memory.
pub(crate) fn ferried_texts(
    alloc: Global,
    inst: &Instance,
    plan: &Plan,
    alone: Grains,
) -> Result<(Vec<u8>, Vec<u8>), NoMem>
    requires plan { IsPlanFor inst.now plan.now }
    requires feasible { least inst.now plan.now ≡ None }
    requires cost { alone ≡ grains (cost inst.now plan.now) }
    ensures file { IfOk result (λ made. made.0.items ≡ added_text inst.now plan.now (ferried inst.now plan.now)) }
    ensures report { IfOk result (λ made. made.1.items ≡ ferried_report inst.now plan.now (ferried inst.now plan.now)) }
{
    let _rows = inst.parts();
    let list = ferry(alloc, inst, plan)?;
    let lasts = last_legs(alloc, inst, plan)?;
    let legs = list.as_slice();
    let mut file = Vec::new(alloc);
    push_lines(&mut file, inst, plan, lasts.as_slice(), legs)?;
    let mut report = Vec::new(alloc);
    push_report_lines(&mut report, inst, plan, lasts.as_slice(), legs)?;
    push_end(&mut report, last_cost(legs, alone))?;
    Ok((file, report))
}
