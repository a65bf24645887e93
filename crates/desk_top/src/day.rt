//! Making the input files of a day.

ghost use Rattle.desk_folder.specs.Files.{day_files};
ghost use Rattle.output_texts.specs.Generated.{IsSize};
ghost use Rattle.desk_tasks.specs.Generate.{generation};
ghost use Rattle.desk_tasks.specs.Runs.{Between};
ghost use Rattle.desk_tasks.specs.Finishing.{Completes};

use desk_folder::{Folder, Sink};
use desk_tasks::{Ending, OutputTexts, put_outputs};
use output_texts::generate;
use std::alloc::Global;

/// Writes the input files of a day of this seed and this size, and reports how many they are.
///
/// It ends with `Done` when all is written. A write that fails ends it with that fault, and `Memory` may
/// come at any time: what is written by then is a beginning of the texts, in their order.
pub(crate) fn write_day<F: Folder, O: Sink>(
    alloc: Global,
    seed: u32,
    size: u32,
    folder: &mut F,
    out: &mut O,
) -> Ending
    requires { IsSize size }
    ensures { Between F.outside O.report folder.old out.old folder.new out.new
        (λ before now. Completes day_files before now (generation seed size) result) }
{
    let files = match generate(alloc, seed, size) {
        Ok(files) => files,
        Err(_) => return Ending::Memory,
    };
    let report = match Vec::from_slice(alloc, b"written 13\n") {
        Ok(report) => report,
        Err(_) => return Ending::Memory,
    };
    let texts = OutputTexts { files, report };
    match put_outputs(alloc, folder, out, &texts) {
        Ok(()) => Ending::Done,
        Err(end) => end,
    }
}
