//! A disk with one file, and that file as a list of records.
//!
//! # The disk
//!
//! The disk is asked as a journal asks it: to read, to write over a range or past the end, and to sync.
//!
//! `Disk` names a directory (`place`), tells the length of its file (`length`), reads and writes (`read_at`,
//! `write_at`), and syncs (`sync`). A contract sees a disk as what it shows: its file with what of it is
//! pending, each state that it had before a call, the directory last named, and how many calls failed. What
//! a crash may leave is made of the state that the disk had: any bytes in the ranges that are pending, and
//! any length from that at the last sync on. An answer `Failed` comes only where the count rose.
//!
//!     let mut disk = MemDisk::new(bytes, fail);    // shows all, and fails the calls that it is told to
//!     let mut disk = HostDisk::new(rt, alloc);     // the host's, shows nothing: the trusted edge
//!
//! What the host's disk does is taken on trust.
//!
//! # The records
//!
//! A file as a list of records, on a disk that may crash at any moment.
//!
//! A record is a byte 1, its payload's length in four bytes and the payload. Behind the last record stands a
//! byte that isn't 1. What a payload spells is the reader's (`PayloadReader`): it takes payloads one behind another,
//! and says of each whether it is one that may stand there.
//!
//!     let mut tail = open(alloc, &mut disk, &mut reader)?;          // the reader has taken all records
//!     tail = append(alloc, &mut disk, tail, payload.as_slice())?;   // the record is on the disk
//!
//! Proved: whatever moment the disk crashes at, in a call or between two, the file opens as the records that
//! it had before the call, or with the one more that the call writes; and once `append` has answered Ok,
//! each crash leaves a file with that record. `open` may itself crash at any moment.
#![tactic(auto)]

mod appending;
mod changes;
mod end_mark;
mod faults;
mod host;
mod host_file;
mod laws;
mod memory;
mod opening;
mod reader;
mod record_faults;
mod through;
mod traits;
mod walk;

pub use appending::{Tail, append};
pub use faults::DiskFault;
pub use host::HostDisk;
pub use laws::{
    a_file_opens_in_one_way, a_stopped_append_keeps_what_was_acknowledged,
    a_stopped_append_leaves_no_damage, a_whole_file_opens, opened_files_are_not_damaged,
    stopped_runs_leave_a_beginning,
};
pub use memory::MemDisk;
pub use opening::open;
pub use reader::PayloadReader;
pub use record_faults::{AppendFault, OpenFault};
pub use through::{read_whole, write_through};
pub use traits::Disk;
