//! Judging a plan, and writing what was found.

ghost use Rattle.std.specs.Prelude.{◌≡◌, ◌++◌, [], IfOk, IfSome, OnOk};
ghost use Rattle.desk_data.specs.Valid.{IsPlanFor};
ghost use Rattle.desk_rules.specs.Least.{least};
ghost use Rattle.desk_rules.specs.Cost.{cost, grains};
ghost use Rattle.output_texts.specs.Writable.{Names};
ghost use Rattle.crew_rules.specs.Valid.{AreCrews};
ghost use Rattle.desk_tasks.specs.Judge.{verdict_text, verdict_report, verdict_end, verdict};
ghost use Rattle.desk_tasks.specs.Crew.{crewed_report, crewed_end, crewed_verdict};
ghost use Rattle.desk_tasks.specs.Runs.{Between};
ghost use Rattle.desk_tasks.specs.Finishing.{Completes};

use crate::{Ending, OutputTexts, is_large, par_check, put_outputs};
use crew_duty::crew_least;
use crew_rules::{CrewBroken, CrewInfo};
use desk_data::{Broken, Grains, Instance, NoMem, Plan};
use desk_folder::{Folder, Sink};
use output_texts::{push_broken, push_crews};
use plan_checks::full_cost;
use std::alloc::Global;
use std::thread::{Threads, join};

/// What is found of a plan.
#[derive(Clone, Copy)]
pub struct Findings {
    /// What it breaks first, or `None`.
    pub broken: Option<Broken>,
    /// What it costs, in grains.
    pub cost: Grains,
}

// How a run ends that reported its verdict.
fn end_with(broken: Option<Broken>) -> Ending
    ensures { result ≡ verdict_end broken }
{
    match broken {
        None => Ending::Done,
        Some(_) => Ending::BrokenRule,
    }
}

// Adds what a plan breaks first, or that it breaks nothing.
fn push_verdict(text: &mut Vec<u8>, inst: &Instance, broken: Option<Broken>) -> Result<(), NoMem>
    requires { IfSome broken (Names inst.now) }
    ensures { OnOk result (text.new.items ≡ text.old.items ++ verdict_text inst.now broken) }
{
    match broken {
        None => {
            text.extend_from_slice(b"feasible")?;
            Ok(())
        }
        Some(item) => {
            text.extend_from_slice(b"broken ")?;
            push_broken(text, inst, &item)
        }
    }
}

/// The report of what a plan breaks first, and what it costs: `feasible` or `broken ITEM`, and `cost COST`. The only error is
/// out of memory.
#[tactic(auto, unfolding(crate::specs::Judge::verdict_report))]
pub fn verdict_report(
    alloc: Global,
    inst: &Instance,
    broken: Option<Broken>,
    cost: Grains,
) -> Result<Vec<u8>, NoMem>
    requires { IfSome broken (Names inst.now) }
    ensures { IfOk result (λ text. text.items ≡ verdict_report inst.now broken cost.0) }
{
    let mut text = Vec::new(alloc);
    push_verdict(&mut text, inst, broken)?;
    let cost = cost.0;
    let end = format!(in alloc; "\ncost {cost}\n")?;
    text.extend_from_slice(end.as_bytes())?;
    Ok(text)
}

/// What a plan breaks first, and what it costs: of a large day the cost is summed up while the rules are checked. It waits for
/// the threads that it starts alone, and starts none where the day is not large. The only error is out of memory.
pub fn judged<R: Threads + Sync>(
    rt: &R,
    alloc: Global,
    inst: &Instance,
    plan: &Plan,
) -> Result<Findings, NoMem>
    requires { IsPlanFor inst.now plan.now }
    ensures broken { IfOk result (λ found. found.broken ≡ least inst.now plan.now) }
    ensures cost { IfOk result (λ found. found.cost ≡ grains (cost inst.now plan.now)) }
{
    if !is_large(inst) {
        let broken = par_check(rt, alloc, inst, plan)?;
        let cost = full_cost(inst, plan);
        return Ok(Findings { broken, cost });
    }
    let (broken, cost) = join(
        rt,
        || -> Result<Option<Broken>, NoMem>
            requires { IsPlanFor inst.now plan.now }
            ensures { IfOk result (λ item. item ≡ least inst.entry.now plan.entry.now) }
        { par_check(rt, alloc, inst, plan) },
        || -> Grains
            requires { IsPlanFor inst.now plan.now }
            ensures { result ≡ grains (cost inst.entry.now plan.entry.now) }
        { full_cost(inst, plan) },
    );
    let broken = broken?;
    Ok(Findings { broken, cost })
}

/// Reports the first item that a plan breaks, and its cost in grains. It writes no file. It waits for the threads that it
/// starts alone, and starts none where the day is not large.
///
/// It ends with `Done` where the plan breaks nothing and with `BrokenRule` where it breaks a rule, when all
/// is reported. `ReportFault` says that the report could not be written, and `Memory` may come at any time: what
/// is written by then is a beginning of the report.
pub fn judge_plan<R: Threads + Sync, F: Folder, O: Sink>(
    rt: &R,
    alloc: Global,
    inst: &Instance,
    plan: &Plan,
    folder: &mut F,
    out: &mut O,
) -> Ending
    requires { IsPlanFor inst.now plan.now }
    ensures { Between F.outside O.report folder.old out.old folder.new out.new
        (λ before now. Completes [] before now (verdict inst.now plan.now) result) }
{
    let found = match judged(rt, alloc, inst, plan) {
        Ok(found) => found,
        Err(_) => return Ending::Memory,
    };
    let report = match verdict_report(alloc, inst, found.broken, found.cost) {
        Ok(report) => report,
        Err(_) => return Ending::Memory,
    };
    let texts = OutputTexts {
        files: Vec::new(alloc),
        report,
    };
    match put_outputs(alloc, folder, out, &texts) {
        Ok(()) => end_with(found.broken),
        Err(end) => end,
    }
}

// How a run ends that reported its verdict and that of the crews.
fn end_with_crews(broken: Option<Broken>, item: Option<CrewBroken>) -> Ending
    ensures { result ≡ crewed_end broken item }
{
    match (broken, item) {
        (None, None) => Ending::Done,
        _ => Ending::BrokenRule,
    }
}

// The text of what a plan breaks first, what it costs, and what its crews break first.
#[tactic(auto, unfolding(crate::specs::Crew::crewed_report))]
fn crewed_report(
    alloc: Global,
    inst: &Instance,
    found: Findings,
    crews: &[CrewInfo],
    item: Option<CrewBroken>,
) -> Result<Vec<u8>, NoMem>
    requires { IfSome found.broken (Names inst.now) }
    ensures { IfOk result (λ text. text.items ≡ crewed_report inst.now found.broken found.cost.0 crews.now item) }
{
    let mut text = verdict_report(alloc, inst, found.broken, found.cost)?;
    text.extend_from_slice(b"crew ")?;
    push_crews(&mut text, crews, item)?;
    text.push(b'\n')?;
    Ok(text)
}

/// Reports the same as `judge_plan`, and then `crew ok`, or `crew K3 NAME` with the first rule that the crews do not keep and
/// the name of the first crew that does not. It ends as that does; but with `BrokenRule` also where the crews do not keep a rule.
pub fn judge_crews<R: Threads + Sync, F: Folder, O: Sink>(
    rt: &R,
    alloc: Global,
    inst: &Instance,
    plan: &Plan,
    crews: &[CrewInfo],
    folder: &mut F,
    out: &mut O,
) -> Ending
    requires plan { IsPlanFor inst.now plan.now }
    requires crews { AreCrews inst.now.parts crews.now }
    ensures { Between F.outside O.report folder.old out.old folder.new out.new
        (λ before now. Completes [] before now (crewed_verdict inst.now plan.now crews.now) result) }
{
    let found = match judged(rt, alloc, inst, plan) {
        Ok(found) => found,
        Err(_) => return Ending::Memory,
    };
    let item = match crew_least(alloc, inst, crews, plan) {
        Ok(item) => item,
        Err(_) => return Ending::Memory,
    };
    let report = match crewed_report(alloc, inst, found, crews, item) {
        Ok(report) => report,
        Err(_) => return Ending::Memory,
    };
    let texts = OutputTexts {
        files: Vec::new(alloc),
        report,
    };
    match put_outputs(alloc, folder, out, &texts) {
        Ok(()) => end_with_crews(found.broken, item),
        Err(end) => end,
    }
}
