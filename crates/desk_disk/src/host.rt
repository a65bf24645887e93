//! The host's own disk. It shows nothing of its file: what the host does with a call is trusted, and the
//! contracts speak of its count of faults alone.
ghost use Rattle.std.specs.Prelude.{◌≡◌};
ghost use Rattle.desk_disk.specs.Calls.{Counts};

use crate::host_file::HostFile;
use crate::{Disk, DiskFault};
use std::alloc::Global;
use std::fs::File;
use std::marker::Model;
use std::rt::Files;

/// The file `journal.bin` in a directory of the host. It is opened at the first call that needs it, made
/// where it is missing, and stays open; directories on the way to it are made too. At that call it is locked, until this
/// disk is dropped: where another run has it, the call fails, and nothing is changed (`is_held`). Then what an
/// earlier run left of it, its name and the names of the directories that were made are brought to the
/// device: where it has bytes, these go to a new file, `journal.bin.new`, which takes its place once it is on the device,
/// since a sync that failed may have left bytes that the host takes for written. A later `sync` brings the bytes and the
/// length of the file there (`fdatasync`).
///
/// That a crash then leaves what a read gave rests on the host: that its calls to sync answer only once the
/// device has the bytes of the file, unless such a call failed before for that very file; that a file is renamed as a whole or not
/// at all; that the device keeps what it has acknowledged when the power goes; that the directories that were there already are on
/// the device; and that no other program writes to the file meanwhile.
pub struct HostDisk<R: Files<File = File> + Drop> {
    rt: R,
    directory: String,
    file: HostFile,
    faults: u64,
}

/// Dropped in one call, so that a function that owns one proves it once, and not part by part.
impl<R: Files<File = File> + Drop> Drop for HostDisk<R> {
    fn drop(self) {
        let HostDisk {
            rt: _,
            directory: _,
            file: _,
            faults: _,
        } = self;
    }
}

impl<R: Files<File = File> + Drop> Model for HostDisk<R> {
    ghost use Rattle.std.specs.String.{string_bytes};
    ghost use Rattle.desk_disk.specs.Host.{HostDiskSide};

    ghost Value = { HostDiskSide };

    ghost view = { λ h. record { directory = string_bytes h.directory; faults = h.faults } };
}

impl<R: Files<File = File> + Drop> HostDisk<R> {
    ghost use Rattle.std.specs.Prelude.{◌≡◌, []};

    /// The disk, with no directory named.
    pub fn new(rt: R, alloc: Global) -> HostDisk<R>
        ensures { result ≡ record { directory = []; faults = 0 } }
    {
        HostDisk {
            rt,
            directory: String::new(alloc),
            file: HostFile::closed(),
            faults: 0,
        }
    }

    /// Whether the last call that was to open the file failed since another run had it.
    pub fn is_held(&self) -> bool {
        self.file.is_held()
    }
}

// Hands an answer on, and counts it where it is a failure.
fn counted<T>(faults: &mut u64, answer: Result<T, DiskFault>) -> Result<T, DiskFault>
    ensures same { result ≡ answer }
    ensures counts { Counts faults.old faults.new result }
{
    if matches!(answer, Err(DiskFault::Failed)) {
        *faults = faults.saturating_add(1);
    }
    answer
}

impl<R: Files<File = File> + Drop> Disk for HostDisk<R> {
    ghost use Rattle.std.specs.Prelude.{None};

    ghost shown = { λ _. None };

    ghost directory = { λ _. None };

    ghost faults = { λ h. h.faults };

    fn place(&mut self, alloc: Global, output: &str) -> Result<(), DiskFault> {
        let directory = String::from_str(alloc, output)?;
        self.directory = directory;
        self.file = HostFile::closed();
        Ok(())
    }

    fn length(&mut self, alloc: Global) -> Result<u64, DiskFault> {
        let answer = self.file.length(&self.rt, alloc, self.directory.as_str());
        counted(&mut self.faults, answer)
    }

    fn read_at(&mut self, alloc: Global, at: u64, into: &mut [u8]) -> Result<(), DiskFault> {
        let directory = self.directory.as_str();
        let answer = self.file.read(&self.rt, alloc, directory, at, into);
        counted(&mut self.faults, answer)
    }

    fn write_at(&mut self, alloc: Global, at: u64, bytes: &[u8]) -> Result<(), DiskFault> {
        let directory = self.directory.as_str();
        let answer = self.file.write(&self.rt, alloc, directory, at, bytes);
        counted(&mut self.faults, answer)
    }

    fn sync(&mut self, alloc: Global) -> Result<(), DiskFault> {
        let answer = self.file.sync(&self.rt, alloc, self.directory.as_str());
        counted(&mut self.faults, answer)
    }
}
