//! The files of a day.

ghost use Rattle.std.specs.Prelude.{◌≡◌, IfOk};
ghost use Rattle.desk_folder.specs.Entries.{named_texts};
ghost use Rattle.output_texts.specs.Generated.{IsSize, generated};

use crate::texts::text_of;
use desk_folder::{DAY_FILES, File};
use desk_units::NoMem;
use std::alloc::Global;

/// The files of a day of this seed and size, 1 to 40, in file order from config.csv to feed.csv, each
/// with its text. The only error is out of memory.
#[tactic(auto, unfolding(crate::specs::Generated::generated))]
pub fn generate(alloc: Global, seed: u32, size: u32) -> Result<Vec<(File, Vec<u8>)>, NoMem>
    requires { IsSize size }
    ensures exact { IfOk result (λ texts. named_texts texts.items ≡ generated seed size) }
{
    let mut texts = Vec::new(alloc);
    for file in &DAY_FILES {
        let text = text_of(alloc, seed, size, *file)?;
        texts.push((*file, text))?;
    }
    Ok(texts)
}
