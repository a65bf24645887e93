//! Why the input sets no task: the one way from a reader's fault to the ending of a run.

ghost use Rattle.std.specs.Prelude.{◌≡◌};
ghost use Rattle.desk_tasks.specs.declared.fault.StoryFault.TheVariants as fault;
ghost use Rattle.desk_tasks.specs.Faults.{read_fault, build_fault, story_end};

use crate::{Ending, Refusal};
use desk_build::BuildFault;
use desk_folder::File;
use desk_text::ReadFault;

/// Why the input sets no task.
#[derive(Clone, Copy)]
pub enum StoryFault {
    /// The input is refused.
    Refused(Refusal),
    /// A file could not be read: its count of failed reads rose.
    ReadFault(File),
    /// No memory could be had.
    Memory,
}

impl StoryFault {
    /// The fault of the reader of this file.
    pub(crate) fn of(file: File, fault: ReadFault) -> StoryFault
        ensures { result ≡ read_fault file fault }
    {
        match fault {
            ReadFault::Refused { line, cause } => {
                StoryFault::Refused(Refusal { file, line, cause })
            }
            ReadFault::Memory => StoryFault::Memory,
        }
    }
}

impl From<BuildFault> for StoryFault {
    ghost from_gives = { λ fault e. e ≡ build_fault fault };

    fn from(fault: BuildFault) -> StoryFault {
        match fault {
            BuildFault::Refused { file, line, cause } => {
                StoryFault::Refused(Refusal { file, line, cause })
            }
            BuildFault::Memory => StoryFault::Memory,
        }
    }
}

impl From<StoryFault> for Ending {
    ghost from_gives = { λ fault e. e ≡ story_end fault };

    fn from(fault: StoryFault) -> Ending {
        match fault {
            StoryFault::Refused(refusal) => Ending::Refused(refusal),
            StoryFault::ReadFault(file) => Ending::ReadFault(file),
            StoryFault::Memory => Ending::Memory,
        }
    }
}
