//! A folder in memory, for tests: it shows all, and fails the calls that it is asked to.
use crate::entries::{append, entry, hand_out, raise, text};
use crate::{FILES, File, Folder, FolderFault};
use std::alloc::Global;
use std::marker::Model;

/// A folder in memory. It shows its directories, what is left and what is written, gives as many bytes as
/// are left and fit, takes each piece whole, and fails the calls of `next` and `put` with the numbers that
/// it was given, counted from 1 over all files, and the call of `place` after each `fail_place`. After `cut`
/// each call gives and takes at most so many bytes. A call that fails names, takes and writes nothing.
pub struct MemFolder {
    inputs: Vec<(File, Vec<u8>)>,
    taken: [usize; FILES],
    outputs: [Vec<u8>; FILES],
    turns: [u64; FILES],
    input: String,
    output: String,
    place_fails: bool,
    next_calls: u64,
    put_calls: u64,
    fail_next: Vec<u64>,
    fail_put: Vec<u64>,
    most_bytes: usize,
    place_faults: u64,
    next_faults: [u64; FILES],
    put_faults: [u64; FILES],
}

/// Dropped in one call, so that a function that owns one proves it once, and not part by part.
impl Drop for MemFolder {
    fn drop(self) {
        let MemFolder {
            inputs: _,
            taken: _,
            outputs: _,
            turns: _,
            input: _,
            output: _,
            place_fails: _,
            next_calls: _,
            put_calls: _,
            fail_next: _,
            fail_put: _,
            most_bytes: _,
            place_faults: _,
            next_faults: _,
            put_faults: _,
        } = self;
    }
}

impl Model for MemFolder {
    ghost use Rattle.std.specs.Prelude.{◌<◌};
    ghost use Rattle.std.specs.String.{string_bytes};
    ghost use Rattle.desk_folder.specs.Entries.{named_texts, texts_of};
    ghost use Rattle.desk_folder.specs.Memory.{MemoryFolder};

    ghost Value = { MemoryFolder };

    ghost view = { λ m. record {
      directories = record { input = string_bytes m.input; output = string_bytes m.output };
      inputs = named_texts m.inputs.items;
      taken = m.taken;
      written = texts_of m.outputs;
      turns = m.turns;
      place_faults = m.place_faults;
      next_faults = m.next_faults;
      put_faults = m.put_faults;
      calls = record { place_fails = m.place_fails; next_calls = m.next_calls; put_calls = m.put_calls; fail_next = m.fail_next.items; fail_put = m.fail_put.items; most_bytes = m.most_bytes };
    } };

    // a call lets at least one byte through
    ghost invariant = { λ m. 0 < m.most_bytes };
}

impl MemFolder {
    ghost use Rattle.std.specs.Prelude.{◌≡◌, ◌<◌, ◌-◌, ◌^◌, Some, true, false};
    ghost use Rattle.desk_folder.specs.Entries.{named_texts};
    ghost use Rattle.desk_folder.specs.Memory.{IsNew, memory_outside};

    /// A folder with these input files, of which the first of a name counts; a file that isn't listed is
    /// empty. The calls of `next` and of `put` with the listed numbers will fail.
    pub fn new(inputs: Vec<(File, Vec<u8>)>, fail_next: Vec<u64>, fail_put: Vec<u64>) -> MemFolder
        ensures outside { IsNew (named_texts inputs.items) (memory_outside result) }
        ensures calls { result.calls ≡ record { place_fails = false; next_calls = 0; put_calls = 0; fail_next = fail_next.items; fail_put = fail_put.items; most_bytes = 2 ^ 64 - 1 } }
    {
        let alloc = *inputs.allocator();
        MemFolder {
            inputs,
            taken: [0; FILES],
            outputs: [
                Vec::new(alloc),
                Vec::new(alloc),
                Vec::new(alloc),
                Vec::new(alloc),
                Vec::new(alloc),
                Vec::new(alloc),
                Vec::new(alloc),
                Vec::new(alloc),
                Vec::new(alloc),
                Vec::new(alloc),
                Vec::new(alloc),
                Vec::new(alloc),
                Vec::new(alloc),
                Vec::new(alloc),
                Vec::new(alloc),
                Vec::new(alloc),
                Vec::new(alloc),
                Vec::new(alloc),
            ],
            turns: [0; FILES],
            input: String::new(alloc),
            output: String::new(alloc),
            place_fails: false,
            next_calls: 0,
            put_calls: 0,
            fail_next,
            fail_put,
            most_bytes: usize::MAX,
            place_faults: 0,
            next_faults: [0; FILES],
            put_faults: [0; FILES],
        }
    }

    /// Makes the next call of `place` fail.
    pub fn fail_place(&mut self)
        ensures { self.new ≡ record self.old { calls = record self.old.calls { place_fails = true } } }
    {
        self.place_fails = true;
    }

    /// Has each later call of `next` give at most so many bytes, and each later call of `put` take at most so
    /// many: at least 1.
    pub fn cut(&mut self, bytes: u32)
        requires { 0 < bytes }
        ensures { self.new ≡ record self.old { calls = record self.old.calls { most_bytes = bytes } } }
    {
        self.most_bytes = bytes as usize;
    }

    /// The bytes written to a file so far.
    pub fn written(&self, file: File) -> &[u8]
        ensures { Some result.now ≡ (memory_outside self.now).written file }
    {
        text(&self.outputs, file.number())
    }
}

impl Folder for MemFolder {
    ghost use Rattle.std.specs.Prelude.{◌≡◌, ◌<◌, length, min, false, IfOk, IsOk, IsOkUnless, OnErr};
    ghost use Rattle.std.specs.Bool.{MatchBool};
    ghost use Rattle.desk_folder.specs.declared.faults.FolderFault.TheVariants.{Failed, Memory};
    ghost use Rattle.desk_folder.specs.Calls.{CountsFailure, Places, Takes, Puts};
    ghost use Rattle.desk_folder.specs.Memory.{memory_outside, bytes_given, next_call, next_fails, put_call, put_fails};

    ghost outside = { memory_outside };

    fn place(&mut self, alloc: Global, input: &str, output: &str) -> Result<(), FolderFault>
        ensures places { Places (memory_outside self.old) (memory_outside self.new) input.now output.now result }
        ensures calls { self.new.calls ≡ record self.old.calls { place_fails = false } }
        ensures fails { MatchBool self.old.calls.place_fails (result ≡ Err Failed) (IsOkUnless result Memory) }
        ensures counted { CountsFailure (memory_outside self.old).place_faults (memory_outside self.new).place_faults result }
    {
        if self.place_fails {
            self.place_fails = false;
            self.place_faults = self.place_faults.saturating_add(1);
            return Err(FolderFault::Failed);
        }
        let input = String::from_str(alloc, input)?;
        let output = String::from_str(alloc, output)?;
        self.input = input;
        self.output = output;
        Ok(())
    }

    #[tactic(auto, using(crate::proofs::FileLemmas::numbers_differ))]
    fn next(&mut self, _alloc: Global, file: File, into: &mut [u8]) -> Result<usize, FolderFault>
        requires { 0 < length into.old }
        ensures takes { Takes (memory_outside self.old) (memory_outside self.new) file into.new result }
        ensures calls { self.new.calls ≡ record self.old.calls { next_calls = next_call self.old.calls } }
        ensures fails { MatchBool (next_fails self.old.calls) (result ≡ Err Failed) (IsOk result) }
        ensures given { IfOk result (λ n. n ≡ bytes_given self.old file (length into.new)) }
        ensures counted { CountsFailure ((memory_outside self.old).next_faults file) ((memory_outside self.new).next_faults file) result }
    {
        self.next_calls = self.next_calls.saturating_add(1);
        raise(&mut self.turns, file);
        if self.fail_next.contains(&self.next_calls) {
            raise(&mut self.next_faults, file);
            return Err(FolderFault::Failed);
        }
        let from = self.taken[file.number()];
        let count = hand_out(entry(&self.inputs, file), from, self.most_bytes, into);
        self.taken[file.number()] = from + count;
        Ok(count)
    }

    #[tactic(auto, using(crate::proofs::FileLemmas::numbers_differ))]
    fn put(&mut self, _alloc: Global, file: File, piece: &[u8]) -> Result<usize, FolderFault>
        requires { 0 < length piece.now }
        ensures puts { Puts (memory_outside self.old) (memory_outside self.new) file piece.now result }
        ensures calls { self.new.calls ≡ record self.old.calls { put_calls = put_call self.old.calls } }
        ensures fails { MatchBool (put_fails self.old.calls) (result ≡ Err Failed) (IsOkUnless result Memory) }
        ensures taken { IfOk result (λ n. n ≡ min self.old.calls.most_bytes (length piece.now)) }
        ensures nothing { OnErr result ((memory_outside self.new).written file ≡ (memory_outside self.old).written file) }
        ensures counted { CountsFailure ((memory_outside self.old).put_faults file) ((memory_outside self.new).put_faults file) result }
    {
        self.put_calls = self.put_calls.saturating_add(1);
        if self.fail_put.contains(&self.put_calls) {
            raise(&mut self.put_faults, file);
            return Err(FolderFault::Failed);
        }
        let (front, _) = piece.split_at(self.most_bytes.min(piece.len()));
        append(&mut self.outputs, file.number(), front)?;
        Ok(front.len())
    }
}
