//! Writing what came of a run.

ghost use Rattle.std.specs.Prelude.{◌≡◌, IsTrue};
ghost use Rattle.desk_folder.specs.Outputs.{are_different, files_of};
ghost use Rattle.desk_tasks.specs.Runs.{Between};
ghost use Rattle.desk_tasks.specs.Writing.{as_texts, PutsOutputs};

use crate::ending::Ending;
use desk_folder::{File, Folder, FolderFault, Sink, put_report, put_texts};
use std::alloc::Global;

/// What a run writes.
#[derive(Drop)]
pub struct OutputTexts {
    /// Files, in the order in which they are written, each with its text.
    pub files: Vec<(File, Vec<u8>)>,
    /// What is reported when all files are written.
    pub report: Vec<u8>,
}

/// Writes the texts of the files one after another, and then the report. An empty text is not written.
///
/// # Errors
/// `WriteFault` names the file that could not be written, `ReportFault` that the report could not be,
/// and `Memory` may come at any time. What is written by then is a beginning of the texts, in their
/// order.
pub fn put_outputs<F: Folder, O: Sink>(
    alloc: Global,
    folder: &mut F,
    out: &mut O,
    texts: &OutputTexts,
) -> Result<(), Ending>
    requires { IsTrue (are_different (files_of (as_texts texts.now).files)) }
    ensures { Between F.outside O.report folder.old out.old folder.new out.new
        (λ before now. PutsOutputs before now (as_texts texts.now) result) }
{
    match put_texts(alloc, folder, texts.files.as_slice()) {
        Ok(()) => {}
        Err(fault) => return Err(Ending::from(fault)),
    }
    match put_report(alloc, out, texts.report.as_slice()) {
        Ok(()) => Ok(()),
        Err(FolderFault::Failed) => Err(Ending::ReportFault),
        Err(FolderFault::Memory) => Err(Ending::Memory),
    }
}
