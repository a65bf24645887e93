//! How a run of the desk ends.

ghost use Rattle.std.specs.Prelude.{◌≡◌};
ghost use Rattle.desk_tasks.specs.Outcome.{disk_status, status_of};
ghost use Rattle.desk_tasks.specs.Writing.{write_end};

use crate::refusal::Refusal;
use desk_folder::{File, WriteFault};

/// How a run ends by the journal that it keeps on a disk.
#[derive(Clone, Copy, PartialEq, Eq)]
pub enum DiskEnd {
    /// The disk failed.
    Fault,
    /// The journal on the disk is damaged.
    Damaged,
    /// The journal on the disk is of other events than these.
    Other {
        /// The record of journal.csv that is the first other one, counted from 1; 0 where the disk holds more events than
        /// there are.
        line: u64,
    },
}

impl DiskEnd {
    // The status of a run that ends so.
    fn status(self) -> u8
        ensures { result ≡ disk_status self }
    {
        match self {
            DiskEnd::Damaged | DiskEnd::Other { .. } => 3,
            DiskEnd::Fault => 8,
        }
    }
}

/// How a run ends.
#[derive(Clone, Copy, PartialEq, Eq)]
pub enum Ending {
    /// All was done: of a replay or a recovery with a plan at its end, of a check or a run that adds legs with a plan that
    /// breaks no rule.
    Done,
    /// A replay or a recovery was done, and there is no plan at its end.
    NoPlan,
    /// A check was done, or legs were to be added, and the plan breaks a rule.
    BrokenRule,
    /// The words are no command.
    Usage,
    /// The input is refused.
    Refused(Refusal),
    /// The directories could not be named.
    PlaceFault,
    /// A file could not be read.
    ReadFault(File),
    /// A file could not be written.
    WriteFault(File),
    /// The report could not be written.
    ReportFault,
    /// Memory ran out.
    Memory,
    /// The journal on the disk ended it. Only a run that keeps one ends so.
    OnDisk(DiskEnd),
}

impl Ending {
    /// The status that the program ends with.
    pub fn status(self) -> u8
        ensures { result ≡ status_of self }
    {
        match self {
            Ending::Done => 0,
            Ending::NoPlan => 1,
            Ending::Usage => 2,
            Ending::Refused(_) => 3,
            Ending::PlaceFault | Ending::ReadFault(_) => 4,
            Ending::WriteFault(_) | Ending::ReportFault => 5,
            Ending::Memory => 6,
            Ending::BrokenRule => 7,
            Ending::OnDisk(end) => end.status(),
        }
    }
}

impl From<WriteFault> for Ending {
    ghost from_gives = { λ fault e. e ≡ write_end fault };

    fn from(fault: WriteFault) -> Ending {
        match fault {
            WriteFault::Failed(file) => Ending::WriteFault(file),
            WriteFault::Memory => Ending::Memory,
        }
    }
}
