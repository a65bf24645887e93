//! The join.

ghost use Rattle.std.specs.Prelude.{◌≡◌, ◌+◌, ◌≤◌, length, All, IfOk};
ghost use Rattle.desk_data.specs.Situation.{fresh_day};
ghost use Rattle.desk_data.specs.Valid.{IsBatch};
ghost use Rattle.file_rows.specs.Limits.{most_batches};
ghost use Rattle.build_tables.specs.Facts.{AreFileRows};
ghost use Rattle.desk_build.specs.Join.{built_of, JoinGives};

use crate::fault::BuildFault;
use crate::{batches_of, day_of};
use build_refusals::first_refusal;
use build_tables::{Files, NameTables};
use desk_data::{Batch, Instance};
use desk_units::List;
use std::alloc::Global;

/// What the rows of the input files make.
#[derive(Drop)]
pub struct Built {
    /// The joined day, before any batch.
    pub inst: Instance,
    /// Batch 0, which has the orders of the alt files, and those of the feed, each at its number: at most 1,001. Their
    /// orders are about legs, aircraft and airports of the day, and their moments are those that the feed tells.
    pub batches: List<Batch>,
}

/// The day and the batches of the rows of these tables, or the first refusal.
fn join(alloc: Global, tables: &NameTables<'_>) -> Result<Built, BuildFault>
    requires { AreFileRows tables.now.files.now }
    ensures exact { JoinGives result (built_of tables.now.files.now) }
    ensures fresh { IfOk result (λ built. built.inst ≡ fresh_day built.inst.parts) }
    ensures few { IfOk result (λ built. length built.batches ≤ most_batches + 1) }
    ensures batches { IfOk result (λ built. All (IsBatch built.inst.parts) built.batches) }
{
    if let Some((file, line, cause)) = first_refusal(tables) {
        return Err(BuildFault::Refused { file, line, cause });
    }
    let inst = day_of(alloc, tables)?;
    let batches = batches_of(alloc, tables)?;
    Ok(Built {
        inst,
        batches: List(batches),
    })
}

/// The day of the rows, before any batch, and the batches of the alt files and the feed, or the first
/// refusal in the order of the files, then of their lines, then of the causes. `BuildFault::Memory` may
/// come at any time.
pub fn build(alloc: Global, files: &Files) -> Result<Built, BuildFault>
    requires { AreFileRows files.now }
    ensures exact { JoinGives result (built_of files.now) }
    ensures fresh { IfOk result (λ built. built.inst ≡ fresh_day built.inst.parts) }
    ensures few { IfOk result (λ built. length built.batches ≤ most_batches + 1) }
    ensures batches { IfOk result (λ built. All (IsBatch built.inst.parts) built.batches) }
{
    let tables = NameTables::of(alloc, files)?;
    join(alloc, &tables)
}
