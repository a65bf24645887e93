//! Tests of records on a disk: a run that is stopped, and a file that something else has changed.

ghost use Rattle.std.specs.Prelude.{◌<◌, ◌^◌, IfSome, Some, length, map};
ghost use Rattle.desk_disk.specs.FileStates.{HasNothingPending};
ghost use Rattle.desk_disk.specs.Files.{IsReady};

use desk_disk::{MemDisk, OpenFault, PayloadReader, Tail, append, open};
use std::alloc::{AllocError, Global};
use std::test::Fail;

/// Takes any payloads.
#[derive(Drop)]
struct AnyReader {
    payloads: Vec<Vec<u8>>,
}

impl PayloadReader for AnyReader {
    type Rules = u8;

    ghost rules = { λ _. 0 };

    ghost taken = { λ r. map (λ p. p.items) r.payloads.items };

    ghost accepts = { λ _ _ _. Unit {0} };

    fn take(&mut self, alloc: Global, payload: &[u8]) -> Result<bool, AllocError> {
        self.payloads.push(Vec::from_slice(alloc, payload)?)?;
        Ok(true)
    }
}

// ---- a run that is stopped

/// A batch of the desk, and two moves by other callers, each of which gives two passengers another path.
const BATCH: [u8; 9] = [0, 0, 0, 0, 0, 0, 0, 0, 0];

const FIRST: [u8; 22] = [
    0, 0, 0, 1, 1, 1, 3, 0, 0, 0, 3, 0, 0, 0, 2, 0, 1, 0, 0, 0, 2, 2,
];

const SECOND: [u8; 22] = [
    0, 0, 0, 2, 1, 1, 3, 0, 0, 0, 4, 0, 0, 0, 2, 0, 1, 0, 0, 0, 2, 2,
];

/// The file with a record of each.
const FILE: [u8; 69] = [
    1, 0, 0, 0, 9, 0, 0, 0, 0, 0, 0, 0, 0, 0, 1, 0, 0, 0, 22, 0, 0, 0, 1, 1, 1, 3, 0, 0, 0, 3, 0,
    0, 0, 2, 0, 1, 0, 0, 0, 2, 2, 1, 0, 0, 0, 22, 0, 0, 0, 2, 1, 1, 3, 0, 0, 0, 4, 0, 0, 0, 2, 0,
    1, 0, 0, 0, 2, 2, 0,
];

/// Adds an event unless the file holds it.
fn add(alloc: Global, disk: &mut MemDisk, tail: Tail, event: &[u8], is_held: bool) -> Option<Tail>
    requires short { length event.now < 2 ^ 32 }
    requires ready { IsReady (Some disk.old.side) tail }
    ensures { IfSome result (λ next. IsReady (Some disk.new.side) next) }
{
    if is_held {
        return Some(tail);
    }
    match append(alloc, disk, tail, event) {
        Ok(next) => Some(next),
        Err(_) => None,
    }
}

/// Opens a file, and adds the events that it lacks. It answers how many it had, and `None` where it failed.
fn run(alloc: Global, disk: &mut MemDisk) -> Option<usize>
    requires { HasNothingPending disk.old.side.file }
{
    let mut reader = AnyReader {
        payloads: Vec::new(alloc),
    };
    let Ok(tail) = open(alloc, disk, &mut reader) else {
        return None;
    };
    let held = reader.payloads.len();
    let tail = add(alloc, disk, tail, &BATCH, held > 0)?;
    let tail = add(alloc, disk, tail, &FIRST, held > 1)?;
    let _tail = add(alloc, disk, tail, &SECOND, held > 2)?;
    Some(held)
}

#[test]
fn each_record_is_written_once(rt: HostRuntime) -> Result<(), Fail> {
    let alloc = rt.alloc();
    let mut disk = MemDisk::new(Vec::new(alloc), Vec::new(alloc));
    assert_eq!(rt; run(alloc, &mut disk), Some(0));
    assert_eq!(rt; disk.bytes(), FILE.as_slice());
    let mut again = MemDisk::new(Vec::from_slice(alloc, disk.bytes())?, Vec::new(alloc));
    assert_eq!(rt; run(alloc, &mut again), Some(3));
    assert_eq!(rt; again.bytes(), FILE.as_slice());
    Ok(())
}

/// How many records a file holds for certain once a call has failed: opening takes four calls where the file
/// is empty, and each record four more.
fn held_after(call: u64) -> usize {
    match call {
        0..=8 => 0,
        9..=12 => 1,
        _ => 2,
    }
}

#[test]
fn a_run_that_is_stopped_at_any_byte_goes_on(rt: HostRuntime) -> Result<(), Fail> {
    let alloc = rt.alloc();
    for call in 1..17 {
        for torn in 0..28 {
            let mut fail = Vec::new(alloc);
            fail.push(call)?;
            let mut disk = MemDisk::new(Vec::new(alloc), fail);
            disk.tear(torn);
            assert_eq!(rt; run(alloc, &mut disk), None);
            let mut again = MemDisk::new(Vec::from_slice(alloc, disk.bytes())?, Vec::new(alloc));
            let held = run(alloc, &mut again);
            assert!(rt;
                held.is_some_and(|n| n >= held_after(call)),
                "call {call}, {torn} bytes"
            );
            assert_eq!(rt; again.bytes(), FILE.as_slice());
        }
    }
    Ok(())
}

// ---- a file that something else has changed

/// Two records, each of seven bytes.
const TWO: [u8; 25] = [
    1, 0, 0, 0, 7, 0, 0, 0, 1, 1, 1, 4, 1, 0, 0, 0, 7, 0, 0, 0, 1, 1, 1, 4, 0,
];

/// What opening a file finds where any payload may stand: how many records, or where it is damaged.
fn found_in(alloc: Global, bytes: &[u8]) -> Result<Result<usize, OpenFault>, AllocError> {
    let mut disk = MemDisk::new(Vec::from_slice(alloc, bytes)?, Vec::new(alloc));
    let mut reader = AnyReader {
        payloads: Vec::new(alloc),
    };
    match open(alloc, &mut disk, &mut reader) {
        Ok(_) => Ok(Ok(reader.payloads.len())),
        Err(fault) => Ok(Err(fault)),
    }
}

/// What it finds where so many bytes of the two records are left.
fn found_of_front(size: usize) -> Result<usize, OpenFault> {
    match size {
        0 | 1 => Ok(0),
        2..=12 => Err(OpenFault::Damaged { at: 0 }),
        13..=24 => Err(OpenFault::Damaged { at: 12 }),
        _ => Ok(2),
    }
}

/// What it finds where the byte at this place is another: a mark, where the records end before it; the length of a payload, which
/// then ends behind the file; or a byte of a payload or the end mark, where nothing is missed.
fn found_of_turned(at: usize) -> Result<usize, OpenFault> {
    match at {
        0 => Ok(0),
        1..=4 => Err(OpenFault::Damaged { at: 0 }),
        12 => Ok(1),
        13..=16 => Err(OpenFault::Damaged { at: 12 }),
        _ => Ok(2),
    }
}

#[test]
fn a_file_that_is_cut_or_turned_is_damaged_at_its_record(rt: HostRuntime) -> Result<(), Fail> {
    let alloc = rt.alloc();
    for size in 0..26 {
        let (front, _) = TWO.split_at(size);
        assert_eq!(rt;
            found_in(alloc, front)?,
            found_of_front(size),
            "{size} bytes"
        );
    }
    for at in 0..25 {
        let mut turned = TWO;
        turned[at] ^= 255;
        assert_eq!(rt; found_in(alloc, &turned)?, found_of_turned(at), "byte {at}");
    }
    Ok(())
}
