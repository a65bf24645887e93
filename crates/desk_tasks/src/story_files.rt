//! Reading the input files, one after another.

ghost use Rattle.std.specs.Prelude.{◌≡◌, ℕ, true, List, [], ◌∷◌, ◌≤◌, length, Some, MatchOption, Err, IfOk, OnOk, IfErr, IsTrue};
ghost use Rattle.desk_folder.specs.declared.files.File.{File as AnyFile};
ghost use Rattle.desk_folder.specs.Outside.{ReadsOnly};
ghost use Rattle.desk_folder.specs.Outputs.{is_among};
ghost use Rattle.desk_tasks.specs.Inputs.{Inputs, Tells};
ghost use Rattle.file_rows.specs.declared.cause.Cause.TheVariants as cause;
ghost use Rattle.desk_tasks.specs.declared.fault.StoryFault.TheVariants as fault;
ghost use Rattle.desk_tasks.specs.Story.{refusal, read_as, read_all};
ghost use Rattle.desk_tasks.specs.declared.refusal.Refusal.{Refusal as Refused};
ghost use Rattle.desk_tasks.specs.Reading.{byte_limit, HasFewTurns, IsRead, ReadsAmong, StopsAt};
ghost use Rattle.desk_tasks.specs.StoryReading.{are_in_order, StopsAtFault, GivesRead, HasReadCause, NeedsNoFault};
ghost use Rattle.desk_tasks.specs.Facts.{as_rows, AreInputRows};

use crate::fault::StoryFault;
use crate::rows::InputRows;
use crate::{Cause, Refusal};
use desk_folder::{File, Folder, ReadEnd, read_file};
use file_rows::{MOST_BYTES, MOST_JOURNAL_BYTES};
use std::alloc::Global;

// The most bytes of a file.
fn byte_limit(file: File) -> u32
    ensures { result ≡ byte_limit file }
{
    match file {
        File::Journal => MOST_JOURNAL_BYTES as u32,
        _ => MOST_BYTES as u32,
    }
}

// The refusal of a file of too many bytes.
fn too_large(file: File) -> StoryFault
    ensures { result ≡ fault.Refused (refusal file cause.Size 0) }
{
    StoryFault::Refused(Refusal {
        file,
        line: 0,
        cause: Cause::Size,
    })
}

// The rows with those of the bytes of one file more, which are not too many.
#[tactic(auto, unfolding(crate::specs::Story::read_as))]
fn taken(
    alloc: Global,
    mut rows: InputRows,
    file: File,
    mut bytes: Vec<u8>,
) -> Result<InputRows, StoryFault>
    requires facts { AreInputRows rows }
    requires small { length bytes.items ≤ byte_limit file }
    ensures exact { GivesRead as_rows result (read_as file bytes.items (as_rows rows)) }
    ensures cause { IfErr result NeedsNoFault }
    ensures facts { IfOk result AreInputRows }
{
    match rows.take(alloc, file, &mut bytes) {
        Ok(()) => Ok(rows),
        Err(fault) => Err(StoryFault::of(file, fault)),
    }
}

/// The rows with those of a text, the whole of its file. One of too many bytes is refused.
#[tactic(auto, unfolding(crate::specs::Story::read_as))]
pub(crate) fn take_text(
    alloc: Global,
    rows: InputRows,
    file: File,
    text: &[u8],
) -> Result<InputRows, StoryFault>
    requires facts { AreInputRows rows }
    ensures exact { GivesRead as_rows result (read_as file text.now (as_rows rows)) }
    ensures cause { IfErr result NeedsNoFault }
    ensures facts { IfOk result AreInputRows }
{
    if text.len() > byte_limit(file) as usize {
        return Err(too_large(file));
    }
    match Vec::from_slice(alloc, text) {
        Ok(bytes) => taken(alloc, rows, file, bytes),
        Err(_) => Err(StoryFault::Memory),
    }
}

// The rows with those of one file more, which is read to its end.
#[tactic(auto, unfolding(crate::specs::Story::read_as))]
fn read_one<F: Folder>(
    alloc: Global,
    folder: &mut F,
    file: File,
    rows: InputRows,
) -> Result<InputRows, StoryFault>
    requires facts { AreInputRows rows }
    ensures exact { (bytes : List ℕ) → (F.outside folder.old).left file ≡ Some bytes →
        GivesRead as_rows result (read_as file bytes (as_rows rows)) }
    ensures read { OnOk result (IsRead (F.outside folder.old) (F.outside folder.new) file) }
    ensures cause { IfErr result (HasReadCause (file ∷ []) (F.outside folder.old) (F.outside folder.new)) }
    ensures only { ReadsOnly file (F.outside folder.old) (F.outside folder.new) }
    ensures kept { (F.outside folder.old).next_faults file ≤ (F.outside folder.new).next_faults file }
    ensures few { HasFewTurns (F.outside folder.old) (F.outside folder.new) file }
    ensures facts { IfOk result AreInputRows }
{
    let bytes = match read_file(alloc, folder, file, byte_limit(file)) {
        Ok(bytes) => bytes,
        Err(ReadEnd::Failed) => return Err(StoryFault::ReadFault(file)),
        Err(ReadEnd::Memory) => return Err(StoryFault::Memory),
        Err(ReadEnd::Size) => return Err(too_large(file)),
    };
    taken(alloc, rows, file, bytes)
}

// The first file and the others, where there is one.
fn first_and_others(files: &[File]) -> Option<(File, &[File])>
    ensures { MatchOption result (files.now ≡ []) (λ p. files.now ≡ p.0 ∷ p.1.now) }
{
    match files {
        [] => None,
        [file, others @ ..] => Some((*file, others)),
    }
}

/// The rows with those of these files, which are read one after another. The first that is refused
/// ends the reading.
#[tactic(auto, unfolding(crate::specs::Story::read_all))]
pub(crate) fn read_files<F: Folder>(
    alloc: Global,
    folder: &mut F,
    files: &[File],
    rows: InputRows,
) -> Result<InputRows, StoryFault>
    requires order { IsTrue (are_in_order files.now) }
    requires facts { AreInputRows rows }
    ensures exact { (x : Inputs) → Tells files.now (F.outside folder.old) x →
        GivesRead as_rows result (read_all files.now x (as_rows rows)) }
    ensures read { OnOk result ((f : AnyFile) → is_among f files.now ≡ true → IsRead (F.outside folder.old) (F.outside folder.new) f) }
    ensures cause { IfErr result (HasReadCause files.now (F.outside folder.old) (F.outside folder.new)) }
    ensures only { ReadsAmong files.now (F.outside folder.old) (F.outside folder.new) }
    ensures in_order { (x : Inputs) → Tells files.now (F.outside folder.old) x → (r : Refused) →
        read_all files.now x (as_rows rows) ≡ Err r → StopsAt r.file (F.outside folder.old) (F.outside folder.new) }
    ensures stops { IfErr result (StopsAtFault (F.outside folder.old) (F.outside folder.new)) }
    ensures facts { IfOk result AreInputRows }
{
    let Some((file, others)) = first_and_others(files) else {
        return Ok(rows);
    };
    let rows = match read_one(alloc, folder, file, rows) {
        Ok(rows) => rows,
        Err(fault) => return Err(fault),
    };
    read_files(alloc, folder, others, rows)
}
