//! A disk in memory, for tests: it shows all, and fails the calls that it is told to.
ghost use Rattle.std.specs.Prelude.{◌≡◌, ◌+◌, ◌≤◌, Ok, Err, if◌then◌else◌, length, take, drop, min};
ghost use Rattle.desk_disk.specs.declared.faults.DiskFault.TheVariants.{Failed};
ghost use Rattle.desk_disk.specs.declared.changes.Change.TheVariants.{Nothing, Synced};
ghost use Rattle.desk_disk.specs.Calls.{Counts};
ghost use Rattle.desk_disk.specs.Memory.{standing};

use crate::changes::{Change, is_to_fail, note, write};
use crate::{Disk, DiskFault};
use std::alloc::Global;
use std::marker::Model;

/// A disk in memory. It shows its file, its past and its directory, and fails the calls with the numbers
/// that it was given, counted from 1 over all calls. Of a write that fails nothing stands, or as many bytes
/// as `tear` says, and all of its range is pending. It keeps the bytes of the beginning, those of now and
/// what each call did, and no other state of the file.
pub struct MemDisk {
    begun: Vec<u8>,
    // The bytes of now, from the first write on.
    written: Option<Vec<u8>>,
    changes: Vec<Change>,
    directory: String,
    faults: u64,
    calls: u64,
    fail: Vec<u64>,
    torn: usize,
}

/// Dropped in one call, so that a function that owns one proves it once, and not part by part.
impl Drop for MemDisk {
    fn drop(self) {
        let MemDisk {
            begun: _,
            written: _,
            changes: _,
            directory: _,
            faults: _,
            calls: _,
            fail: _,
            torn: _,
        } = self;
    }
}

impl Model for MemDisk {
    ghost use Rattle.std.specs.Prelude.{◌≡◌};
    ghost use Rattle.std.specs.String.{string_bytes};
    ghost use Rattle.desk_disk.specs.Memory.{MemoryDisk, side_after, standing, state_after, unwritten};

    ghost Value = { MemoryDisk };

    ghost view = { λ m. record {
      side = side_after (unwritten m.begun.items) m.changes.items;
      directory = string_bytes m.directory;
      faults = m.faults;
      calls = m.calls;
      fail = m.fail.items;
      torn = m.torn;
    } };

    // The bytes that stand are those that the calls made of the bytes of the beginning.
    ghost invariant = { λ m. standing m.begun.items m.written ≡ (state_after (unwritten m.begun.items) m.changes.items).bytes };
}

impl MemDisk {
    ghost use Rattle.std.specs.Prelude.{◌≡◌, []};
    ghost use Rattle.desk_disk.specs.Memory.{unwritten};

    /// A disk with a file of these bytes, of which nothing is pending. The calls with the listed numbers
    /// will fail, and nothing of a write that fails will stand.
    pub fn new(bytes: Vec<u8>, fail: Vec<u64>) -> MemDisk
        ensures { result ≡ record { side = record { file = unwritten bytes.items; past = [] }; directory = []; faults = 0; calls = 0; fail = fail.items; torn = 0 } }
    {
        let alloc = *bytes.allocator();
        MemDisk {
            begun: bytes,
            written: None,
            changes: Vec::new(alloc),
            directory: String::new(alloc),
            faults: 0,
            calls: 0,
            fail,
            torn: 0,
        }
    }

    /// From now on so many bytes stand of a write that fails, or all where it has fewer.
    pub fn tear(&mut self, bytes: usize)
        ensures { self.new ≡ record self.old { torn = bytes } }
    {
        self.torn = bytes;
    }

    /// What a read gives.
    pub fn bytes(&self) -> &[u8]
        ensures { result.now ≡ self.now.side.file.bytes }
    {
        bytes_of(self.begun.as_slice(), &self.written)
    }
}

// The bytes that stand.
fn bytes_of<'a>(begun: &'a [u8], written: &'a Option<Vec<u8>>) -> &'a [u8]
    ensures { result.now ≡ standing begun.now written.now }
{
    match written {
        Some(bytes) => bytes.as_slice(),
        None => begun,
    }
}

// The answer of a call that fails or doesn't, which is counted.
fn answer(fails: bool, faults: &mut u64) -> Result<(), DiskFault>
    ensures result { result ≡ (if fails then Err Failed else Ok tt) }
    ensures counts { Counts faults.old faults.new result }
{
    if fails {
        *faults = faults.saturating_add(1);
        return Err(DiskFault::Failed);
    }
    Ok(())
}

impl Disk for MemDisk {
    ghost use Rattle.std.specs.Prelude.{◌≡◌, ◌≤◌, ◌+◌, Some, IsErr, IsOkUnless, IfOk, length as list_length, take, drop};
    ghost use Rattle.std.specs.Bool.{MatchBool};
    ghost use Rattle.desk_disk.specs.declared.faults.DiskFault.TheVariants.{Memory};
    ghost use Rattle.desk_disk.specs.Calls.{Names, Stays, Syncs, Writes};
    ghost use Rattle.desk_disk.specs.Memory.{disk_call, disk_fails};

    ghost shown = { λ m. Some m.side };

    ghost directory = { λ m. Some m.directory };

    ghost faults = { λ m. m.faults };

    fn place(&mut self, alloc: Global, output: &str) -> Result<(), DiskFault>
        ensures stays { Stays (Some self.old.side) (Some self.new.side) result }
        ensures names { Names (Some self.old.directory) (Some self.new.directory) output.now result }
        ensures counts { Counts self.old.faults self.new.faults result }
        ensures calls { self.new.calls ≡ disk_call self.old }
        ensures fails { MatchBool (disk_fails self.old) (IsErr result) (IsOkUnless result Memory) }
    {
        let fails = is_to_fail(&mut self.calls, self.fail.as_slice());
        let directory = String::from_str(alloc, output)?;
        note(&mut self.changes, Change::Nothing)?;
        if !fails {
            self.directory = directory;
        }
        answer(fails, &mut self.faults)
    }

    fn length(&mut self, _alloc: Global) -> Result<u64, DiskFault>
        ensures shows { IfOk result (λ n. n ≡ list_length self.old.side.file.bytes) }
        ensures stays { Stays (Some self.old.side) (Some self.new.side) result }
        ensures directory { self.new.directory ≡ self.old.directory }
        ensures counts { Counts self.old.faults self.new.faults result }
        ensures calls { self.new.calls ≡ disk_call self.old }
        ensures fails { MatchBool (disk_fails self.old) (IsErr result) (IsOkUnless result Memory) }
    {
        let fails = is_to_fail(&mut self.calls, self.fail.as_slice());
        note(&mut self.changes, Change::Nothing)?;
        answer(fails, &mut self.faults)?;
        Ok(bytes_of(self.begun.as_slice(), &self.written).len() as u64)
    }

    fn read_at(&mut self, _alloc: Global, at: u64, into: &mut [u8]) -> Result<(), DiskFault>
        requires { at + list_length into.old ≤ list_length self.old.side.file.bytes }
        ensures reads { IfOk result (λ _. into.new ≡ take (list_length into.old) (drop at self.old.side.file.bytes)) }
        ensures stays { Stays (Some self.old.side) (Some self.new.side) result }
        ensures directory { self.new.directory ≡ self.old.directory }
        ensures counts { Counts self.old.faults self.new.faults result }
        ensures calls { self.new.calls ≡ disk_call self.old }
        ensures fails { MatchBool (disk_fails self.old) (IsErr result) (IsOkUnless result Memory) }
    {
        let fails = is_to_fail(&mut self.calls, self.fail.as_slice());
        note(&mut self.changes, Change::Nothing)?;
        answer(fails, &mut self.faults)?;
        fill(
            bytes_of(self.begun.as_slice(), &self.written),
            at as usize,
            into,
        );
        Ok(())
    }

    fn write_at(&mut self, alloc: Global, at: u64, bytes: &[u8]) -> Result<(), DiskFault>
        requires { at ≤ list_length self.old.side.file.bytes }
        ensures writes { Writes (Some self.old.side) (Some self.new.side) at bytes.now result }
        ensures directory { self.new.directory ≡ self.old.directory }
        ensures counts { Counts self.old.faults self.new.faults result }
        ensures calls { self.new.calls ≡ disk_call self.old }
        ensures fails { MatchBool (disk_fails self.old) (IsErr result) (IsOkUnless result Memory) }
    {
        let fails = is_to_fail(&mut self.calls, self.fail.as_slice());
        let front = front_of(bytes, fails, self.torn);
        let begun = self.begun.as_slice();
        write(
            alloc,
            begun,
            &mut self.written,
            &mut self.changes,
            at,
            bytes.len(),
            front,
        )?;
        answer(fails, &mut self.faults)
    }

    fn sync(&mut self, _alloc: Global) -> Result<(), DiskFault>
        ensures syncs { Syncs (Some self.old.side) (Some self.new.side) result }
        ensures directory { self.new.directory ≡ self.old.directory }
        ensures counts { Counts self.old.faults self.new.faults result }
        ensures calls { self.new.calls ≡ disk_call self.old }
        ensures fails { MatchBool (disk_fails self.old) (IsErr result) (IsOkUnless result Memory) }
    {
        let fails = is_to_fail(&mut self.calls, self.fail.as_slice());
        note(&mut self.changes, sync_unless(fails))?;
        answer(fails, &mut self.faults)
    }
}

// A sync, or nothing where it fails.
fn sync_unless(fails: bool) -> Change
    ensures { result ≡ (if fails then Nothing else Synced) }
{
    if fails {
        Change::Nothing
    } else {
        Change::Synced
    }
}

// The bytes from a place on, as many as fit.
fn fill(bytes: &[u8], at: usize, into: &mut [u8])
    requires { at + length into.old ≤ length bytes.now }
    ensures { into.new ≡ take (length into.old) (drop at bytes.now) }
{
    let (_, rest) = bytes.split_at(at);
    let (front, _) = rest.split_at(into.len());
    into.copy_from_slice(front);
}

// All of a piece, or so many of its first bytes where the write fails.
fn front_of(bytes: &[u8], fails: bool, torn: usize) -> &[u8]
    ensures { result.now ≡ (if fails then take torn bytes.now else bytes.now) }
{
    if !fails {
        return bytes;
    }
    let (front, _) = bytes.split_at(torn.min(bytes.len()));
    front
}
