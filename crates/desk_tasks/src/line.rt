//! The line that says why a run was not done.

ghost use Rattle.std.specs.Prelude.{◌≡◌, ◌++◌, decimal, IfOk};
ghost use Rattle.std.specs.String.{string_bytes};
ghost use Rattle.desk_tasks.specs.Outcome.{line, refusal_text, disk_text, fault_text};
ghost use Rattle.desk_folder.specs.Files.{file_name};

use crate::ending::{DiskEnd, Ending};
use crate::refusal::Refusal;
use desk_folder::File;
use desk_units::NoMem;
use std::alloc::Global;

// The line of a refusal.
fn refusal_text(alloc: Global, refusal: &Refusal) -> Result<String, NoMem>
    ensures { IfOk result (λ text. string_bytes text ≡ refusal_text refusal.now) }
{
    let file = refusal.file.name();
    let line = refusal.line;
    let cause = refusal.cause.name();
    Ok(format!(in alloc; "refused {file} {line} {cause}\n")?)
}

// A line of these words and the name of a file.
fn file_line(alloc: Global, words: &str, file: File) -> Result<String, NoMem>
    ensures { IfOk result (λ text. string_bytes text ≡ line (words.now ++ file_name file)) }
{
    let name = file.name();
    Ok(format!(in alloc; "{words}{name}\n")?)
}

// A line of these words, a number, and more words.
fn number_line(alloc: Global, words: &str, number: u64, more: &str) -> Result<String, NoMem>
    ensures { IfOk result (λ text. string_bytes text ≡ line (words.now ++ decimal number ++ more.now)) }
{
    Ok(format!(in alloc; "{words}{number}{more}\n")?)
}

// The line of a run that the journal on the disk ended.
fn disk_text(alloc: Global, end: DiskEnd) -> Result<String, NoMem>
    ensures { IfOk result (λ text. string_bytes text ≡ disk_text end) }
{
    match end {
        DiskEnd::Fault => Ok(format!(in alloc; "disk fault\n")?),
        DiskEnd::Damaged => Ok(format!(in alloc; "refused journal.bin 0 Damaged\n")?),
        DiskEnd::Other { line } => number_line(alloc, "refused journal.csv ", line, " Other"),
    }
}

/// The line that says why a run was not done; empty where it was. The only error is out of memory.
#[tactic(auto, unfolding(crate::specs::Outcome::fault_text))]
pub fn fault_text(alloc: Global, ending: &Ending) -> Result<String, NoMem>
    ensures { IfOk result (λ text. string_bytes text ≡ fault_text ending.now) }
{
    match ending {
        Ending::Done | Ending::NoPlan | Ending::BrokenRule => Ok(String::new(alloc)),
        Ending::Usage => Ok(format!(in alloc; "usage\n")?),
        Ending::Refused(refusal) => refusal_text(alloc, refusal),
        Ending::PlaceFault => Ok(format!(in alloc; "place fault\n")?),
        Ending::ReadFault(file) => file_line(alloc, "read fault ", *file),
        Ending::WriteFault(file) => file_line(alloc, "write fault ", *file),
        Ending::ReportFault => Ok(format!(in alloc; "write fault report\n")?),
        Ending::Memory => Ok(format!(in alloc; "memory\n")?),
        Ending::OnDisk(end) => disk_text(alloc, *end),
    }
}
