//! The plan of the two files.

ghost use Rattle.std.specs.Prelude.{◌≡◌, All, IfOk, map};
ghost use Rattle.desk_data.specs.Valid.{IsPlanFor};
ghost use Rattle.file_readers.specs.SolFacts.{IsPlannedGroup};
ghost use Rattle.file_joins.specs.Both.{both};
ghost use Rattle.file_joins.specs.Solution.{SolutionGives, fault_in, plan_stated, solution_of};

use crate::DayNames;
use crate::groups::{all_groups, groups_of, passengers_stated};
use crate::legs::{all_rows, rows_stated};
use desk_build::BuildFault;
use desk_data::{Group, Instance, Plan, Row};
use desk_folder::File;
use desk_text::ReadFault;
use file_readers::{PlannedGroup, PlannedLeg, read_planned_groups, read_planned_legs};
use std::alloc::Global;

/// A fault in this file.
fn in_file(file: File, fault: ReadFault) -> BuildFault
    ensures { result ≡ fault_in file fault }
{
    match fault {
        ReadFault::Refused { line, cause } => BuildFault::Refused { file, line, cause },
        ReadFault::Memory => BuildFault::Memory,
    }
}

/// What both files give once all their lines are read, or a fault: the first file's comes first.
fn both(
    rows: Result<Vec<Row>, ReadFault>,
    groups: Result<Vec<Vec<Group>>, ReadFault>,
) -> Result<(Vec<Row>, Vec<Vec<Group>>), BuildFault>
    ensures { result ≡ both rows groups }
{
    match rows {
        Ok(rows) => match groups {
            Ok(groups) => Ok((rows, groups)),
            Err(fault) => Err(in_file(File::SolItineraries, fault)),
        },
        Err(fault) => Err(in_file(File::SolRotations, fault)),
    }
}

/// The rows and the groups that the lines give, by the names of the day, or the first refusal.
fn stated_by(
    alloc: Global,
    inst: &Instance,
    names: &DayNames<'_>,
    legs: &[PlannedLeg],
    groups: &[PlannedGroup],
) -> Result<(Vec<Row>, Vec<Vec<Group>>), BuildFault>
    requires { names.now ≡ inst.now }
    ensures { SolutionGives (λ stated. record { rows = stated.0.items; groups = map (λ of. of.items) stated.1.items }) result (plan_stated inst.now legs.now groups.now) }
{
    let rows = match rows_stated(alloc, names, inst.legs(), legs) {
        Ok(rows) => rows,
        Err(fault) => return Err(in_file(File::SolRotations, fault)),
    };
    let parties = match passengers_stated(alloc, names, inst.reservations(), groups) {
        Ok(parties) => parties,
        Err(fault) => return Err(in_file(File::SolItineraries, fault)),
    };
    let each_leg = all_rows(alloc, rows.as_slice());
    let each_party = all_groups(inst, groups_of(alloc, parties.as_slice())?);
    both(each_leg, each_party)
}

/// The rows and the groups that the lines give, or the first refusal.
fn plan_stated(
    alloc: Global,
    inst: &Instance,
    legs: &[PlannedLeg],
    groups: &[PlannedGroup],
) -> Result<(Vec<Row>, Vec<Vec<Group>>), BuildFault>
    ensures { SolutionGives (λ stated. record { rows = stated.0.items; groups = map (λ of. of.items) stated.1.items }) result (plan_stated inst.now legs.now groups.now) }
{
    let names = DayNames::of(alloc, inst)?;
    stated_by(alloc, inst, &names, legs, groups)
}

/// The plan that the lines give, or the first refusal.
fn plan_of(
    alloc: Global,
    inst: &Instance,
    legs: &[PlannedLeg],
    groups: &[PlannedGroup],
) -> Result<Plan, BuildFault>
    requires { All IsPlannedGroup groups.now }
    ensures exact { SolutionGives (λ plan. plan) result (plan_stated inst.now legs.now groups.now) }
    ensures plan { IfOk result (λ plan. IsPlanFor inst.now plan) }
{
    let (rows, groups) = plan_stated(alloc, inst, legs, groups)?;
    Ok(Plan::of(rows, groups))
}

/// The plan that the bytes of sol_rotations.csv and of sol_itineraries.csv give for a day. Lines may
/// come in any order.
///
/// # Errors
///
/// `Refused` for the first refusal: in sol_rotations.csv by its grammar, then in sol_itineraries.csv
/// by its own; then, line by line, the first file before the second, `Unknown` for a leg, an aircraft
/// or a reservation that the day does not have, `Limit` for a departure at minute 52,500,000 or later
/// or more than 8 legs, `Twice` for a leg, or a reservation and a path, that a line before it has;
/// then `Missing` at line 0 of the first where no line is about a leg, and `Count` at line 0 of the
/// second where the lines of a reservation have not all its passengers. `Memory` at any time.
#[tactic(auto, unfolding(crate::specs::Solution::solution_of))]
pub fn read_solution(
    alloc: Global,
    inst: &Instance,
    rotations: &[u8],
    itineraries: &[u8],
) -> Result<Plan, BuildFault>
    ensures exact { SolutionGives (λ plan. plan) result (solution_of inst.now rotations.now itineraries.now) }
    ensures plan { IfOk result (λ plan. IsPlanFor inst.now plan) }
{
    let legs = match read_planned_legs(alloc, rotations) {
        Ok(legs) => legs,
        Err(fault) => return Err(in_file(File::SolRotations, fault)),
    };
    let groups = match read_planned_groups(alloc, itineraries) {
        Ok(groups) => groups,
        Err(fault) => return Err(in_file(File::SolItineraries, fault)),
    };
    plan_of(alloc, inst, legs.as_slice(), groups.as_slice())
}
