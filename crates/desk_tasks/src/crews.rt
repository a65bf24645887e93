//! A story, or a plan, with the crews of its day.

ghost use Rattle.std.specs.Prelude.{[], IfOk, IfErr};
ghost use Rattle.crew_rules.specs.Valid.{AreCrews};
ghost use Rattle.file_joins.specs.CrewJoin.{crews_after};
ghost use Rattle.desk_folder.specs.declared.files.File.TheVariants as file;
ghost use Rattle.desk_tasks.specs.Story.{or_refused, in_file, crewed_of_rows, judged_crews_of_rows};
ghost use Rattle.desk_tasks.specs.StoryReading.{GivesRead, NeedsNoFault};
ghost use Rattle.desk_tasks.specs.Facts.{as_rows, AreInputRows, as_crewed, as_judged_crews, CanBeRunWithCrews, CanBeJudgedWithCrews};

use crate::fault::StoryFault;
use crate::plan::{InputPlan, with_batches};
use crate::rows::InputRows;
use crate::story::InputStory;
use crew_rules::CrewInfo;
use desk_build::{Built, build};
use desk_data::Instance;
use desk_folder::File;
use file_joins::{join_crew, join_journal, read_solution};
use std::alloc::Global;

/// A story, and the crews of its day.
#[derive(Drop)]
pub struct InputCrewedStory {
    pub story: InputStory,
    /// At most 5,000; a crew's number is its place among them, from 0.
    pub crews: Vec<CrewInfo>,
}

/// A plan that is to be judged, and the crews of its day.
#[derive(Drop)]
pub struct InputCrewedPlan {
    pub plan: InputPlan,
    /// The same.
    pub crews: Vec<CrewInfo>,
}

/// The crews of the rows, for the joined day.
fn joined_crews(
    alloc: Global,
    inst: &Instance,
    rows: &InputRows,
) -> Result<Vec<CrewInfo>, StoryFault>
    requires { AreInputRows rows.now }
    ensures exact { GivesRead (λ crews. crews.items) result (or_refused (in_file file.Crew) (crews_after inst.now [] rows.now.crews.items)) }
    ensures facts { IfOk result (λ crews. AreCrews inst.now.parts crews.items) }
    ensures cause { IfErr result NeedsNoFault }
{
    match join_crew(alloc, inst, rows.crews.as_slice()) {
        Ok(crews) => Ok(crews),
        Err(fault) => Err(StoryFault::of(File::Crew, fault)),
    }
}

/// Joins the rows, then the crews, and then the journal.
#[tactic(auto, unfolding(crate::specs::Story::crewed_of_rows))]
pub(crate) fn joined_crewed(alloc: Global, rows: &InputRows) -> Result<InputCrewedStory, StoryFault>
    requires { AreInputRows rows.now }
    ensures exact { GivesRead as_crewed result (crewed_of_rows (as_rows rows.now)) }
    ensures runs { IfOk result CanBeRunWithCrews }
    ensures cause { IfErr result NeedsNoFault }
{
    let built = build(alloc, &rows.files)?;
    let crews = joined_crews(alloc, &built.inst, rows)?;
    let events = join_journal(alloc, &built, rows.journal.as_slice())?;
    let Built { inst, .. } = built;
    let story = InputStory { inst, events };
    Ok(InputCrewedStory { story, crews })
}

/// Joins the rows, then the crews, and then those of the plan, by which the batches are added.
#[tactic(auto, unfolding(crate::specs::Story::judged_crews_of_rows))]
pub(crate) fn joined_plan_crews(
    alloc: Global,
    rows: &InputRows,
) -> Result<InputCrewedPlan, StoryFault>
    requires { AreInputRows rows.now }
    ensures exact { GivesRead as_judged_crews result (judged_crews_of_rows (as_rows rows.now)) }
    ensures plan { IfOk result CanBeJudgedWithCrews }
    ensures cause { IfErr result NeedsNoFault }
{
    let built = build(alloc, &rows.files)?;
    let crews = joined_crews(alloc, &built.inst, rows)?;
    let rotations = rows.plan_rotations.as_slice();
    let itineraries = rows.plan_itineraries.as_slice();
    let plan = read_solution(alloc, &built.inst, rotations, itineraries)?;
    let Built { inst, batches } = built;
    match with_batches(alloc, inst, &plan, batches.0.as_slice()) {
        Ok(inst) => {
            let plan = InputPlan { inst, plan };
            Ok(InputCrewedPlan { plan, crews })
        }
        Err(_) => Err(StoryFault::Memory),
    }
}
