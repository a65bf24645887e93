//! The crews of the rows of crew.csv.

ghost use Rattle.std.specs.Prelude.{◌≡◌, [], All, IfOk};
ghost use Rattle.desk_text.specs.Rows.{Gives};
ghost use Rattle.file_readers.specs.CrewFacts.{IsCrewRow};
ghost use Rattle.crew_rules.specs.Valid.{AreCrews};
ghost use Rattle.file_joins.specs.CrewJoin.{crews_after};

use crate::DayNames;
use crate::crew::crew_stated;
use crew_rules::CrewInfo;
use desk_data::Instance;
use desk_text::ReadFault;
use file_readers::CrewRow;
use std::alloc::Global;
use std::collections::HashSet;

/// The crews of the rows, by the names of the day.
fn crews_of(
    alloc: Global,
    names: &DayNames<'_>,
    rows: &[CrewRow],
) -> Result<Vec<CrewInfo>, ReadFault>
    requires { All IsCrewRow rows.now }
    ensures exact { Gives (λ crews. crews.items) result (crews_after names.now [] rows.now) }
    ensures facts { IfOk result (λ crews. AreCrews names.now.parts crews.items) }
{
    let mut crews = Vec::with_capacity(alloc, rows.len())?;
    let mut seen = HashSet::new(alloc);
    for row in rows {
        let is_new = seen.insert(row.name.as_slice())?;
        match crew_stated(alloc, names, crews.len(), !is_new, row) {
            Ok(crew) => crews.push(crew)?,
            Err(fault) => return Err(fault.at(row.line)),
        }
    }
    Ok(crews)
}

/// The crews of the rows of crew.csv for a day, in their order; a crew's number is its place among them, from 0.
///
/// # Errors
///
/// `Refused` for the first row that is refused, with its line. The causes are tried in this order: `Limit` past the 5,000th
/// row or for more than 64 legs, `Twice` for the name of a crew before it, `Unknown` for a home that is no airport of the
/// day or a leg that the day does not have, and `Twice` for a leg that stands twice in the row. `Memory` at any time.
pub fn join_crew(
    alloc: Global,
    inst: &Instance,
    rows: &[CrewRow],
) -> Result<Vec<CrewInfo>, ReadFault>
    requires { All IsCrewRow rows.now }
    ensures exact { Gives (λ crews. crews.items) result (crews_after inst.now [] rows.now) }
    ensures facts { IfOk result (λ crews. AreCrews inst.now.parts crews.items) }
{
    let names = DayNames::of(alloc, inst)?;
    crews_of(alloc, &names, rows)
}
