//! Why rows are not joined.

ghost use Rattle.std.specs.Prelude.{◌≡◌, Some};
ghost use Rattle.desk_build.specs.FaultText.{fault_text};
ghost use Rattle.desk_build.specs.declared.fault.BuildFault.TheVariants.{Memory};

use desk_folder::File;
use desk_units::NoMem;
use file_rows::Cause;
use std::alloc::{AllocError, AllocFailed};
use std::error::Error;
use std::fmt;

/// Why rows were not joined.
#[derive(Clone, Copy, Debug, PartialEq, Eq)]
pub enum BuildFault {
    /// This line of this file is the first that is refused: in the order of the files, then of their
    /// lines, which count from 1, then of the causes.
    Refused { file: File, line: u32, cause: Cause },
    /// No memory could be had.
    Memory,
}

impl fmt::Display for BuildFault {
    ghost output = { λ fault. Some (fault_text fault) };

    fn fmt<W: fmt::Write>(&self, f: &mut fmt::Formatter<W>) -> fmt::Result {
        match self {
            BuildFault::Refused { file, line, cause } => {
                let name = file.name();
                write!(f, "line {line} of {name} is refused: {cause}")
            }
            BuildFault::Memory => f.write_str("out of memory"),
        }
    }
}

impl Error for BuildFault {}

impl From<NoMem> for BuildFault {
    ghost from_gives = { λ _ e. e ≡ Memory };

    fn from(_error: NoMem) -> BuildFault {
        BuildFault::Memory
    }
}

impl From<AllocError> for BuildFault {
    ghost from_gives = { λ _ e. e ≡ Memory };

    fn from(_error: AllocError) -> BuildFault {
        BuildFault::Memory
    }
}

impl<T: Drop> From<AllocFailed<T>> for BuildFault {
    ghost from_gives = { λ _ e. e ≡ Memory };

    fn from(_error: AllocFailed<T>) -> BuildFault {
        BuildFault::Memory
    }
}
