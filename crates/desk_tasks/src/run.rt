//! Adding legs to a plan, and writing which they are.

ghost use Rattle.std.specs.Prelude.{◌≡◌, [], ◌∷◌, IfOk};
ghost use Rattle.desk_data.specs.Valid.{IsPlanFor};
ghost use Rattle.desk_folder.specs.declared.files.File.TheVariants.{SolAdded};
ghost use Rattle.desk_rules.specs.Least.{least};
ghost use Rattle.desk_rules.specs.Cost.{cost, grains};
ghost use Rattle.desk_tasks.specs.Finishing.{Completes};
ghost use Rattle.desk_tasks.specs.Runs.{Between};
ghost use Rattle.desk_tasks.specs.Writing.{as_texts};
ghost use Rattle.desk_tasks.specs.Ferry.{ferry_file, ferry_report, ferry_outcome};
ghost use Rattle.desk_tasks.specs.Judge.{verdict_end};

use crate::texts::ferried_texts;
use crate::{Ending, Findings, OutputTexts, judged, put_outputs, verdict_report};
use desk_data::{Broken, Instance, NoMem, Plan};
use desk_folder::{File, Folder, Sink};
use std::alloc::Global;
use std::thread::Threads;

// How a run ends that wrote it, by what the plan breaks.
fn end_with(broken: Option<Broken>) -> Ending
    ensures { result ≡ verdict_end broken }
{
    match broken {
        None => Ending::Done,
        Some(_) => Ending::BrokenRule,
    }
}

// The text of sol_added.csv and the report, by what is found of the plan.
fn file_and_report(
    alloc: Global,
    inst: &Instance,
    plan: &Plan,
    found: Findings,
) -> Result<(Vec<u8>, Vec<u8>), NoMem>
    requires plan { IsPlanFor inst.now plan.now }
    requires broken { found.broken ≡ least inst.now plan.now }
    requires cost { found.cost ≡ grains (cost inst.now plan.now) }
    ensures file { IfOk result (λ made. made.0.items ≡ ferry_file inst.now plan.now (least inst.now plan.now)) }
    ensures report { IfOk result (λ made. made.1.items ≡ ferry_report inst.now plan.now (least inst.now plan.now)) }
{
    match found.broken {
        None => ferried_texts(alloc, inst, plan, found.cost),
        Some(item) => {
            let report = verdict_report(alloc, inst, Some(item), found.cost)?;
            Ok((Vec::new(alloc), report))
        }
    }
}

// What is written, by what is found of the plan.
fn outputs_of(
    alloc: Global,
    inst: &Instance,
    plan: &Plan,
    found: Findings,
) -> Result<OutputTexts, NoMem>
    requires plan { IsPlanFor inst.now plan.now }
    requires broken { found.broken ≡ least inst.now plan.now }
    requires cost { found.cost ≡ grains (cost inst.now plan.now) }
    ensures { IfOk result (λ texts. as_texts texts ≡ (ferry_outcome inst.now plan.now).texts) }
{
    let (file, report) = file_and_report(alloc, inst, plan, found)?;
    let mut files = Vec::new(alloc);
    files.push((File::SolAdded, file))?;
    Ok(OutputTexts { files, report })
}

/// Judges a plan as a check does. Where it breaks no rule, the legs that are added to it are written to sol_added.csv and
/// reported, with what the plan costs with them, in grains; else the report is that of a check, and no file is written. It waits
/// for the threads that it starts alone, and starts none where the day is not large.
///
/// It ends with `Done` where the plan breaks nothing and with `BrokenRule` where it breaks a rule, when all is written.
/// `WriteFault` says that the file could not be written, `ReportFault` that the report could not, and `Memory` may come at any
/// time: what is written by then is a beginning of the file, or all of it and a beginning of the report.
pub fn run_ferry<R: Threads + Sync, F: Folder, O: Sink>(
    rt: &R,
    alloc: Global,
    inst: &Instance,
    plan: &Plan,
    folder: &mut F,
    out: &mut O,
) -> Ending
    requires { IsPlanFor inst.now plan.now }
    ensures { Between F.outside O.report folder.old out.old folder.new out.new
        (λ before now. Completes (SolAdded ∷ []) before now (ferry_outcome inst.now plan.now) result) }
{
    let found = match judged(rt, alloc, inst, plan) {
        Ok(found) => found,
        Err(_) => return Ending::Memory,
    };
    let texts = match outputs_of(alloc, inst, plan, found) {
        Ok(texts) => texts,
        Err(_) => return Ending::Memory,
    };
    match put_outputs(alloc, folder, out, &texts) {
        Ok(()) => end_with(found.broken),
        Err(end) => end,
    }
}
