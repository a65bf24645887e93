//! The outside as the desk sees it, as traits.
ghost use Rattle.std.specs.Prelude.{◌<◌, length};
ghost use Rattle.desk_folder.specs.Outside.{Outside, SinkSide};
ghost use Rattle.desk_folder.specs.Calls.{Places, Takes, Puts, PutsToSink};

use crate::{File, FolderFault};
use std::alloc::Global;

/// Two directories: one with the input files, and one that the output files are written to. The two
/// solution files are read from the output directory, all others from the input directory, and all
/// writes go to the output directory. Each call answers `Failed` only where its count of faults rose.
pub trait Folder {
    // What the folder shows of itself, and its counts of faults.
    ghost outside: { Self → Outside };

    /// Names the two directories. Whatever it answers, it changes no bytes.
    fn place(&mut self, alloc: Global, input: &str, output: &str) -> Result<(), FolderFault>
        ensures { Places (outside self.old) (outside self.new) input.now output.now result };

    /// Takes the next bytes of a file into the front of `into`, and answers how many: 0 only at the
    /// file's end. After an error it has taken nothing. Whatever it answers, the file's count of turns rises by one.
    fn next(&mut self, alloc: Global, file: File, into: &mut [u8]) -> Result<usize, FolderFault>
        requires { 0 < length into.old }
        ensures { Takes (outside self.old) (outside self.new) file into.new result };

    /// Writes a prefix of `piece` of at least one byte at the end of a file, and answers its length.
    /// After `Failed` a prefix is written, perhaps none, and after `Memory` nothing.
    fn put(&mut self, alloc: Global, file: File, piece: &[u8]) -> Result<usize, FolderFault>
        requires { 0 < length piece.now }
        ensures { Puts (outside self.old) (outside self.new) file piece.now result };
}

/// Where the report is written.
pub trait Sink {
    // What the sink shows of itself, and its count of faults.
    ghost report: { Self → SinkSide };

    /// Writes a prefix of `piece` of at least one byte, and answers its length. After `Failed` a
    /// prefix is written, perhaps none, and after `Memory` nothing.
    fn put(&mut self, alloc: Global, piece: &[u8]) -> Result<usize, FolderFault>
        requires { 0 < length piece.now }
        ensures { PutsToSink (report self.old) (report self.new) piece.now result };
}

/// What each worker enters in each of its rounds, once it has looked and before it searches, and the desk before each batch
/// that it takes live. It answers nothing, and may wait.
pub trait Gate: Sync {
    /// Worker `worker`, by its number from 1 on, enters with how many rounds it has made before. The live desk enters as
    /// worker 0, with the number of a batch from 1 on.
    fn enter(&self, worker: u32, round: u32);
}

/// A gate that is always open: entering returns at once.
#[derive(Clone, Copy)]
pub struct FreeGate;

impl Gate for FreeGate {
    fn enter(&self, _worker: u32, _round: u32) {}
}
