//! Whether a file of a plan is in its form.

ghost use Rattle.file_readers.specs.Grammar.{IsSolution, Tries, refusal_in};

use crate::sol_groups::read_planned_groups;
use crate::sol_legs::read_planned_legs;
use desk_folder::File;
use desk_text::ReadFault;
use std::alloc::Global;

/// Tries the lines of a file of a plan, which is one of the two.
///
/// # Errors
///
/// The first line that is refused, and why, as `read_planned_legs` and `read_planned_groups` have it;
/// `ReadFault::Memory` at any time.
#[tactic(auto, unfolding(crate::specs::Grammar::refusal_in))]
pub fn solution_grammar(alloc: Global, file: File, bytes: &[u8]) -> Result<(), ReadFault>
    requires { IsSolution file }
    ensures { Tries result (refusal_in file bytes.now) }
{
    match file {
        File::SolRotations => {
            read_planned_legs(alloc, bytes)?;
        }
        _ => {
            read_planned_groups(alloc, bytes)?;
        }
    }
    Ok(())
}
