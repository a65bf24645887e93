//! A sink in memory, for tests: it shows all, and fails the calls that it is asked to.
use crate::{FolderFault, Sink};
use std::alloc::Global;
use std::marker::Model;

/// A sink in memory. It shows what is written, takes each piece whole, and fails the calls of `put` with
/// the numbers that it was given, counted from 1. A call that fails writes nothing.
pub struct MemSink {
    bytes: Vec<u8>,
    calls: u64,
    fail_put: Vec<u64>,
    faults: u64,
}

/// Dropped in one call, so that a function that owns one proves it once, and not part by part.
impl Drop for MemSink {
    fn drop(self) {
        let MemSink {
            bytes: _,
            calls: _,
            fail_put: _,
            faults: _,
        } = self;
    }
}

impl Model for MemSink {
    ghost use Rattle.desk_folder.specs.MemorySink.{MemorySink};

    ghost Value = { MemorySink };

    ghost view = { λ s. record { written = s.bytes.items; faults = s.faults; calls = s.calls; fail_put = s.fail_put.items } };
}

impl MemSink {
    ghost use Rattle.std.specs.Prelude.{◌≡◌, []};

    /// An empty sink, of which the calls of `put` with the listed numbers will fail.
    pub fn new(fail_put: Vec<u64>) -> MemSink
        ensures { result ≡ record { written = []; faults = 0; calls = 0; fail_put = fail_put.items } }
    {
        MemSink {
            bytes: Vec::new(*fail_put.allocator()),
            calls: 0,
            fail_put,
            faults: 0,
        }
    }

    /// The bytes written so far.
    pub fn written(&self) -> &[u8]
        ensures { result.now ≡ self.now.written }
    {
        self.bytes.as_slice()
    }
}

impl Sink for MemSink {
    ghost use Rattle.std.specs.Prelude.{◌≡◌, ◌<◌, length, IsOkUnless, OnErr, Err};
    ghost use Rattle.std.specs.Bool.{MatchBool};
    ghost use Rattle.desk_folder.specs.declared.faults.FolderFault.TheVariants.{Failed, Memory};
    ghost use Rattle.desk_folder.specs.Calls.{CountsFailure, PutsToSink};
    ghost use Rattle.desk_folder.specs.MemorySink.{sink_call, sink_fails, sink_side};

    ghost report = { sink_side };

    fn put(&mut self, _alloc: Global, piece: &[u8]) -> Result<usize, FolderFault>
        requires { 0 < length piece.now }
        ensures puts { PutsToSink (sink_side self.old) (sink_side self.new) piece.now result }
        ensures calls { self.new.calls ≡ sink_call self.old }
        ensures fail_put { self.new.fail_put ≡ self.old.fail_put }
        ensures fails { MatchBool (sink_fails self.old) (result ≡ Err Failed) (IsOkUnless result Memory) }
        ensures nothing { OnErr result (self.new.written ≡ self.old.written) }
        ensures counted { CountsFailure self.old.faults self.new.faults result }
    {
        self.calls = self.calls.saturating_add(1);
        if self.fail_put.contains(&self.calls) {
            self.faults = self.faults.saturating_add(1);
            return Err(FolderFault::Failed);
        }
        self.bytes.extend_from_slice(piece)?;
        Ok(piece.len())
    }
}
