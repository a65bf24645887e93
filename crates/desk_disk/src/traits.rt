//! A disk with one file, as a trait.
ghost use Rattle.std.specs.Prelude.{ℕ, ◌≡◌, ◌+◌, ◌≤◌, List, Option, IfOk, IfSome, length as list_length, take, drop};
ghost use Rattle.desk_disk.specs.FileStates.{DiskSide};
ghost use Rattle.desk_disk.specs.Calls.{Counts, Names, Stays, Syncs, Writes};

use crate::DiskFault;
use std::alloc::Global;

/// One file in a directory. Each call answers `Failed` only where the count of faults rose, and after
/// `Memory` the disk is as before.
pub trait Disk {
    // The file and its past, where they are shown.
    ghost shown: { Self → Option DiskSide };

    // The directory last named, where it is shown.
    ghost directory: { Self → Option (List ℕ) };

    // How many calls failed.
    ghost faults: { Self → ℕ };

    /// Names the directory of the file. Whatever it answers, it changes no bytes.
    fn place(&mut self, alloc: Global, output: &str) -> Result<(), DiskFault>
        ensures stays { Stays (shown self.old) (shown self.new) result }
        ensures names { Names (directory self.old) (directory self.new) output.now result }
        ensures counts { Counts (faults self.old) (faults self.new) result };

    /// The length of the file in bytes.
    fn length(&mut self, alloc: Global) -> Result<u64, DiskFault>
        ensures shows { IfOk result (λ n. IfSome (shown self.old) (λ was. n ≡ list_length was.file.bytes)) }
        ensures stays { Stays (shown self.old) (shown self.new) result }
        ensures directory { directory self.new ≡ directory self.old }
        ensures counts { Counts (faults self.old) (faults self.new) result };

    /// Reads the bytes from `at` on, as many as `into` has. After an error nothing is said of `into`.
    fn read_at(&mut self, alloc: Global, at: u64, into: &mut [u8]) -> Result<(), DiskFault>
        requires { IfSome (shown self.old) (λ was. at + list_length into.old ≤ list_length was.file.bytes) }
        ensures reads { IfOk result (λ _. IfSome (shown self.old) (λ was. into.new ≡ take (list_length into.old) (drop at was.file.bytes))) }
        ensures stays { Stays (shown self.old) (shown self.new) result }
        ensures directory { directory self.new ≡ directory self.old }
        ensures counts { Counts (faults self.old) (faults self.new) result };

    /// Writes over what stands from `at` on, and past the end. After `Failed` a beginning of the bytes is
    /// written, perhaps nothing, and the range is pending all the same.
    fn write_at(&mut self, alloc: Global, at: u64, bytes: &[u8]) -> Result<(), DiskFault>
        requires { IfSome (shown self.old) (λ was. at ≤ list_length was.file.bytes) }
        ensures writes { Writes (shown self.old) (shown self.new) at bytes.now result }
        ensures directory { directory self.new ≡ directory self.old }
        ensures counts { Counts (faults self.old) (faults self.new) result };

    /// Sees to it that nothing is pending any more. After `Failed` what was pending still is.
    fn sync(&mut self, alloc: Global) -> Result<(), DiskFault>
        ensures syncs { Syncs (shown self.old) (shown self.new) result }
        ensures directory { directory self.new ≡ directory self.old }
        ensures counts { Counts (faults self.old) (faults self.new) result };
}
