//! The files of a run: a folder, a sink, and the loops over both.
//!
//! # Folders and sinks
//!
//! What the desk asks of the outside: a folder of input and output files, a sink for the report,
//! and a gate that each worker passes.
//!
//! `Folder` names two directories (`place`), reads the next bytes of a file (`next`) and writes to one
//! (`put`); `Sink` takes the report. `File` has the 18 files in their order. A contract sees a folder as
//! what it shows: the directories, the bytes left and written of each file, how often each file was asked for
//! its next bytes, and how often each kind of call has failed. An answer `Failed` comes only where that count rose in the call.
//!
//!     let mut folder = MemFolder::new(inputs, fail_next, fail_put);   // shows all its bytes
//!     let mut folder = HostFolder::new(rt, alloc).with_files(..);      // the host's, shows none
//!
//! `MemFolder` and `MemSink` stand in for the outside in tests, and fail the calls that they are asked to fail.
//! `HostFolder` and `HostSink` are the trusted edge: their contracts speak of the directories and count
//! faults, and what a disk does is taken on trust. It depends on no crate of the desk.
//!
//! # Reading and writing whole files
//!
//! The loops over a folder and a sink: a file read to its end, a text put line by line, and several
//! texts put one after another.
//!
//!     let bytes = read_file(alloc, &mut folder, File::Flights, limit)?;
//!     put_texts(alloc, &mut folder, texts)?;                 // each into a file of its own
//!     put_report(alloc, &mut out, b"changes 1\n")?;
//!
//! A call of the folder gives or takes as many bytes as it likes, one at least; these go on until all
//! is read, or one byte more than the limit, and until all is put. Each line is put by itself. Proved:
//! what was read are the bytes of the file, and what was written is the text; after an error, a
//! beginning of it, and the error says which call failed. `ArePut` says of a list of texts how far they
//! are put.
#![tactic(auto)]

mod entries;
mod faults;
mod files;
mod host;
mod host_files;
mod memory;
mod memory_sink;
mod outputs;
mod puts;
mod reads;
mod traits;

pub use faults::FolderFault;
pub use files::{
    ALL_FILES, DAY_AND_JOURNAL, DAY_AND_PLAN, DAY_FILES, FILES, File, day_files_are_as_defined,
};
pub use host::{HostFolder, HostSink};
pub use memory::MemFolder;
pub use memory_sink::MemSink;
pub use outputs::{WriteFault, put_texts};
pub use puts::{put_report, put_text};
pub use reads::{ReadEnd, read_file};
pub use traits::{Folder, FreeGate, Gate, Sink};
