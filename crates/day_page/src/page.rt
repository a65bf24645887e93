//! A run: the input is read, and the page is made and put.

ghost use Rattle.std.specs.Prelude.{◌≡◌, ◌≢◌, ◌≤◌, false, IfSome, IfNone};
ghost use Rattle.desk_data.specs.Valid.{IsPlanFor};
ghost use Rattle.desk_words.specs.declared.asked.Command.TheVariants as command_is;
ghost use Rattle.desk_tasks.specs.Commands.{files_read};
ghost use Rattle.desk_tasks.specs.Inputs.{Inputs, Tells};
ghost use Rattle.desk_tasks.specs.Reading.{ReadsAmong};
ghost use Rattle.desk_tasks.specs.Facts.{CanBeDone, as_judged, as_task};
ghost use Rattle.desk_tasks.specs.Judge.{Judged, verdict_end};
ghost use Rattle.desk_tasks.specs.Tasks.{judge};
ghost use Rattle.day_page.specs.Runs.{IsVerdict, PutsPage, Shows};

use crate::made::made_page;
use desk_data::{Broken, Instance, Plan};
use desk_folder::{Folder, FolderFault, Sink, put_report};
use desk_tasks::{Ending, InputPlan, InputTask, read_task};
use desk_words::Command;
use std::alloc::Global;

// The day and the plan of a task that judges one.
fn judged_of(task: InputTask) -> Option<InputPlan>
    requires { CanBeDone task }
    ensures judged { IfSome result (λ p. as_task task ≡ judge (as_judged p)) }
    ensures plan { IfSome result (λ p. IsPlanFor p.inst p.plan) }
    ensures other { IfNone result ((j : Judged) → as_task task ≢ judge j) }
{
    match task {
        InputTask::Judge(judged) => Some(judged),
        InputTask::Play(_)
        | InputTask::PlayCrews(_)
        | InputTask::Recover(_)
        | InputTask::Team { .. }
        | InputTask::Try(_)
        | InputTask::JudgeCrews(_)
        | InputTask::Ferry(_)
        | InputTask::Generate { .. } => None,
    }
}

// How a page ends that was put whole.
fn verdict_of(broken: Option<Broken>) -> Ending
    ensures { result ≡ verdict_end broken }
{
    match broken {
        None => Ending::Done,
        Some(_) => Ending::BrokenRule,
    }
}

// Makes the page of a plan and puts it.
fn put_page<O: Sink>(alloc: Global, inst: &Instance, plan: &Plan, out: &mut O) -> Ending
    requires { IsPlanFor inst.now plan.now }
    ensures verdict { IsVerdict inst.now plan.now result }
    ensures page { PutsPage (O.report out.old) (O.report out.new) result }
    ensures kept { (O.report out.old).faults ≤ (O.report out.new).faults }
{
    let made = match made_page(alloc, inst, plan) {
        Ok(made) => made,
        Err(_) => return Ending::Memory,
    };
    match put_report(alloc, out, made.page.as_slice()) {
        Ok(()) => verdict_of(made.broken),
        Err(FolderFault::Failed) => Ending::ReportFault,
        Err(FolderFault::Memory) => Ending::Memory,
    }
}

/// Reads the day and the plan as a check does, and puts the page of it. No file of the folder is written.
///
/// It ends with `Done` where the plan breaks no rule and with `BrokenRule` where it breaks one, when the whole page is put;
/// with `Refused` and `ReadFault` just as a check does, and then nothing is put; with `ReportFault` where the page could not
/// be written; and with `Memory` at any time.
pub fn page_day<F: Folder, O: Sink>(alloc: Global, folder: &mut F, out: &mut O) -> Ending
    ensures reads { ReadsAmong (files_read (command_is.Check false)) (F.outside folder.old) (F.outside folder.new) }
    ensures shows { (x : Inputs) → Tells (files_read (command_is.Check false)) (F.outside folder.old) x → Shows x result }
    ensures page { PutsPage (O.report out.old) (O.report out.new) result }
    ensures kept { (O.report out.old).faults ≤ (O.report out.new).faults }
{
    let task = match read_task(alloc, &Command::Check { crew: false }, folder) {
        Ok(task) => task,
        Err(fault) => return Ending::from(fault),
    };
    let Some(judged) = judged_of(task) else {
        return Ending::Usage;
    };
    let InputPlan { inst, plan } = judged;
    put_page(alloc, &inst, &plan, out)
}
