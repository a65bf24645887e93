//! The host's own folder and standard output. They show no bytes: what the host does with a call is
//! trusted, and the contracts speak of the directories and of counts alone.
ghost use Rattle.std.specs.Prelude.{◌≡◌, ◌≢◌, length, slice_index, if◌then◌else◌};
ghost use Rattle.desk_folder.specs.Calls.{Counts, CountsFailure};
ghost use Rattle.desk_folder.specs.Files.{file_number, is_solution};
ghost use Rattle.desk_folder.specs.declared.files.File.{File};

use crate::entries::raise;
use crate::host_files::{FileId, empty, end_beside, id_of, id_of_opened, read_some, write_some};
use crate::{ALL_FILES, FILES, File, Folder, FolderFault, Sink};
use std::alloc::Global;
use std::io::Print;
use std::marker::Model;
use std::rt::Files;

/// Two directories of the host. Each file is opened at the first call that reads or writes it, and stays
/// open. A missing `feed.csv` or `journal.csv` reads as empty. The first `put` into a file makes the
/// output directory where it is missing.
///
/// What an earlier run left in the outputs of this one (`with_files`) goes, so that nobody takes it for
/// what this run wrote: the first `put` into a file, before it writes, and `settle` at the end empty each
/// output that this run has not begun and that is none of its inputs. All other files stay as they are. Where
/// an output can't be emptied, no `put` into another file fails for that, and `settle` reports it.
///
/// Whether an output is an input is asked of the host, by the device and the number of both files: so it doesn't matter by
/// which words or links the two directories, or a file of them, are named. Such an output is written to a new file beside
/// it, `NAME.new`, which takes its place in `settle` once it is whole: until then the input has the bytes that it had.
pub struct HostFolder<R: Files + Drop> {
    rt: R,
    input: String,
    output: String,
    is_input: [bool; FILES],
    is_output: [bool; FILES],
    is_beside: [bool; FILES],
    sources: [Option<R::File>; FILES],
    targets: [Option<R::File>; FILES],
    turns: [u64; FILES],
    next_faults: [u64; FILES],
    put_faults: [u64; FILES],
}

/// Dropped in one call, so that a function that owns one proves it once, and not part by part.
impl<R: Files + Drop> Drop for HostFolder<R> {
    fn drop(self) {
        let HostFolder {
            rt: _,
            input: _,
            output: _,
            is_input: _,
            is_output: _,
            is_beside: _,
            sources: _,
            targets: _,
            turns: _,
            next_faults: _,
            put_faults: _,
        } = self;
    }
}

impl<R: Files + Drop> Model for HostFolder<R> {
    ghost use Rattle.std.specs.String.{string_bytes};
    ghost use Rattle.desk_folder.specs.Host.{HostSide};

    ghost Value = { HostSide };

    ghost view = { λ h. record {
      directories = record { input = string_bytes h.input; output = string_bytes h.output };
      turns = h.turns;
      next = h.next_faults;
      put = h.put_faults;
    } };
}

impl<R: Files + Drop> HostFolder<R> {
    ghost use Rattle.std.specs.Prelude.{◌≡◌};
    ghost use Rattle.desk_folder.specs.Host.{TellsNoBytes, host_outside};

    /// A folder over the host's files, with no directory named, no inputs and no outputs.
    pub fn new(rt: R, alloc: Global) -> HostFolder<R>
        ensures { TellsNoBytes (⟦<HostFolder<R> as Folder>⟧.outside result) }
    {
        HostFolder {
            rt,
            input: String::new(alloc),
            output: String::new(alloc),
            is_input: [false; FILES],
            is_output: [false; FILES],
            is_beside: [false; FILES],
            sources: closed(),
            targets: closed(),
            turns: [0; FILES],
            next_faults: [0; FILES],
            put_faults: [0; FILES],
        }
    }

    /// The folder with these inputs and outputs: the files that the run reads, and those that it may write.
    pub fn with_files(mut self, inputs: &[File], outputs: &[File]) -> HostFolder<R>
        ensures { result ≡ self }
    {
        self.is_input = marked(inputs);
        self.is_output = marked(outputs);
        self
    }

    /// For the end of a run that was not refused, with whether memory lasted: has a text that was put whole beside an
    /// input take its place, or takes it away where it isn't whole; and empties what an earlier run left in a file, if that
    /// is an output that this run has not begun, and no input. It answers whether all of that was done. It makes no file and
    /// no directory. The directories and counts that the folder shows stay as they were.
    pub fn settle(&mut self, alloc: Global, file: File, lasted: bool) -> bool
        ensures stays { host_outside self.new ≡ host_outside self.old }
    {
        let number = file.number();
        if !self.is_beside[number] {
            return self.empty_output(alloc, file);
        }
        self.is_beside[number] = false;
        let is_whole = lasted && self.put_faults[number] == 0;
        end_beside(&self.rt, alloc, self.output.as_str(), file, is_whole)
    }

    // The file that the host has for an input, if it has one: the one that was opened, or the one that would be.
    fn input_id(&self, alloc: Global, file: File) -> Option<FileId> {
        match &self.sources[file.number()] {
            Some(opened) => id_of_opened(opened),
            None => {
                let directory = source_directory(self.input.as_str(), self.output.as_str(), file);
                id_of(&self.rt, alloc, directory, file)
            }
        }
    }

    // Whether a file of the output directory is one that the run reads, by whatever name.
    fn is_read(&self, alloc: Global, file: File) -> bool {
        let Some(id) = id_of(&self.rt, alloc, self.output.as_str(), file) else {
            return false;
        };
        for input in ALL_FILES {
            if self.is_input[input.number()] && self.input_id(alloc, input) == Some(id) {
                return true;
            }
        }
        false
    }

    // Whether an earlier run may have left bytes in a file that are to go: it is an output that this run has not begun, and
    // none that it reads.
    fn is_left_over(&self, alloc: Global, file: File) -> bool {
        let is_begun = self.targets[file.number()].is_some();
        let is_output = !self.output.is_empty() && self.is_output[file.number()];
        is_output && !is_begun && !self.is_read(alloc, file)
    }

    // Empties an output that an earlier run left, and answers whether nothing is left of it.
    fn empty_output(&self, alloc: Global, file: File) -> bool {
        !self.is_left_over(alloc, file) || empty(&self.rt, alloc, self.output.as_str(), file)
    }

    // Whether a file is to be written beside one that the run reads. Before the first write it empties all other outputs that
    // an earlier run left.
    fn begins_beside(&self, alloc: Global, file: File) -> bool {
        if self.targets[file.number()].is_some() {
            return self.is_beside[file.number()];
        }
        self.empty_others(alloc, file);
        self.is_read(alloc, file)
    }

    // Empties all outputs that an earlier run left but one. Where one can't be emptied, `settle` reports it.
    fn empty_others(&self, alloc: Global, file: File) {
        for other in ALL_FILES {
            if other != file {
                self.empty_output(alloc, other);
            }
        }
    }
}

// Whether each file, by its number, stands in a list.
fn marked(files: &[File]) -> [bool; FILES] {
    let mut marks = [false; FILES];
    for file in files {
        marks[file.number()] = true;
    }
    marks
}

// No file is open.
fn closed<F: Drop>() -> [Option<F>; FILES] {
    [
        None, None, None, None, None, None, None, None, None, None, None, None, None, None, None,
        None, None, None,
    ]
}

// Hands an answer on, and counts it where it is a failure.
fn counted(
    counts: &mut [u64],
    file: File,
    answer: Result<usize, FolderFault>,
) -> Result<usize, FolderFault>
    requires { length counts.old ≡ FILES }
    ensures same { result ≡ answer }
    ensures counts { Counts (slice_index counts.old (file_number file)) (slice_index counts.new (file_number file)) answer }
    ensures exact { CountsFailure (slice_index counts.old (file_number file)) (slice_index counts.new (file_number file)) answer }
    ensures others { (f : File) → f ≢ file → slice_index counts.new (file_number f) ≡ slice_index counts.old (file_number f) }
{
    if answer == Err(FolderFault::Failed) {
        raise(counts, file);
    }
    answer
}

// The directory that a file is read from.
fn source_directory<'a>(input: &'a str, output: &'a str, file: File) -> &'a str
    ensures { result.now ≡ (if is_solution file then output.now else input.now) }
{
    if file.is_solution() { output } else { input }
}

impl<R: Files + Drop> Folder for HostFolder<R> {
    ghost use Rattle.std.specs.Prelude.{◌<◌, length, IsOkUnless};
    ghost use Rattle.desk_folder.specs.declared.faults.FolderFault.TheVariants.{Memory};
    ghost use Rattle.desk_folder.specs.Calls.{CountsFailure, Places, Takes, Puts};
    ghost use Rattle.desk_folder.specs.Host.{host_outside};

    ghost outside = { host_outside };

    fn place(&mut self, alloc: Global, input: &str, output: &str) -> Result<(), FolderFault>
        ensures places { Places (host_outside self.old) (host_outside self.new) input.now output.now result }
        ensures never_fails { IsOkUnless result Memory }
    {
        let input = String::from_str(alloc, input)?;
        let Ok(output) = String::from_str(alloc, output) else {
            return Err(FolderFault::Memory);
        };
        self.input = input;
        self.output = output;
        self.sources = closed();
        self.targets = closed();
        Ok(())
    }

    fn next(&mut self, alloc: Global, file: File, into: &mut [u8]) -> Result<usize, FolderFault>
        requires { 0 < length into.old }
        ensures takes { Takes (host_outside self.old) (host_outside self.new) file into.new result }
        ensures counted { CountsFailure ((host_outside self.old).next_faults file) ((host_outside self.new).next_faults file) result }
    {
        raise(&mut self.turns, file);
        let source = &mut self.sources[file.number()];
        let (input, output) = (self.input.as_str(), self.output.as_str());
        let directory = source_directory(input, output, file);
        let answer = read_some(&self.rt, alloc, source, directory, file, into);
        counted(&mut self.next_faults, file, answer)
    }

    fn put(&mut self, alloc: Global, file: File, piece: &[u8]) -> Result<usize, FolderFault>
        requires { 0 < length piece.now }
        ensures puts { Puts (host_outside self.old) (host_outside self.new) file piece.now result }
        ensures counted { CountsFailure ((host_outside self.old).put_faults file) ((host_outside self.new).put_faults file) result }
    {
        let is_beside = self.begins_beside(alloc, file);
        self.is_beside[file.number()] = is_beside;
        let target = &mut self.targets[file.number()];
        let directory = self.output.as_str();
        let answer = write_some(&self.rt, alloc, target, directory, file, is_beside, piece);
        counted(&mut self.put_faults, file, answer)
    }
}

/// The host's standard output.
#[derive(Drop)]
pub struct HostSink<P: Print + Drop> {
    rt: P,
    faults: u64,
}

impl<P: Print + Drop> Model for HostSink<P> {
    ghost use Rattle.std.specs.Prelude.{ℕ};

    ghost Value = { ℕ };

    ghost view = { λ s. s.faults };
}

impl<P: Print + Drop> HostSink<P> {
    ghost use Rattle.std.specs.Prelude.{◌≡◌, None};

    /// A sink that prints.
    pub fn new(rt: P) -> HostSink<P>
        ensures { ⟦<HostSink<P> as Sink>⟧.report result ≡ record { written = None; faults = 0 } }
    {
        HostSink { rt, faults: 0 }
    }
}

impl<P: Print + Drop> Sink for HostSink<P> {
    ghost use Rattle.std.specs.Prelude.{◌<◌, length};
    ghost use Rattle.desk_folder.specs.Calls.{CountsFailure, PutsToSink};
    ghost use Rattle.desk_folder.specs.Host.{faults_alone};

    ghost report = { faults_alone };

    fn put(&mut self, _alloc: Global, piece: &[u8]) -> Result<usize, FolderFault>
        requires { 0 < length piece.now }
        ensures puts { PutsToSink (faults_alone self.old) (faults_alone self.new) piece.now result }
        ensures counted { CountsFailure self.old self.new result }
    {
        match self.rt.write_some(piece) {
            Ok(count) if count > 0 => Ok(count),
            _ => {
                self.faults = self.faults.saturating_add(1);
                Err(FolderFault::Failed)
            }
        }
    }
}
