//! Why a text file is refused.

ghost use Rattle.std.specs.Prelude.{◌≡◌, Some};
ghost use Rattle.desk_text.specs.FaultText.{fault_text};
ghost use Rattle.desk_text.specs.Rows.{fault_at};
ghost use Rattle.desk_text.specs.declared.fault.ReadFault.TheVariants as read_fault;
ghost use Rattle.desk_text.specs.declared.fault.RowFault.TheVariants as row_fault;

use desk_units::NoMem;
use file_rows::Cause;
use std::alloc::{AllocError, AllocFailed};
use std::error::Error;
use std::fmt;

/// Why the rows of a file were not read.
#[derive(Clone, Copy, Debug)]
pub enum ReadFault {
    /// This line is the first that is refused. Lines count from 1; line 0 stands for the whole file.
    Refused { line: u32, cause: Cause },
    /// No memory could be had.
    Memory,
}

impl ReadFault {
    /// This line is refused with this cause.
    pub fn at(line: u32, cause: Cause) -> ReadFault
        ensures { result ≡ read_fault.Refused line cause }
    {
        ReadFault::Refused { line, cause }
    }
}

impl fmt::Display for ReadFault {
    ghost output = { λ fault. Some (fault_text fault) };

    fn fmt<W: fmt::Write>(&self, f: &mut fmt::Formatter<W>) -> fmt::Result {
        match self {
            ReadFault::Refused { line, cause } => write!(f, "line {line} is refused: {cause}"),
            ReadFault::Memory => f.write_str("out of memory"),
        }
    }
}

impl Error for ReadFault {}

impl From<NoMem> for ReadFault {
    ghost from_gives = { λ _ e. e ≡ read_fault.Memory };

    fn from(_error: NoMem) -> ReadFault {
        ReadFault::Memory
    }
}

impl From<AllocError> for ReadFault {
    ghost from_gives = { λ _ e. e ≡ read_fault.Memory };

    fn from(_error: AllocError) -> ReadFault {
        ReadFault::Memory
    }
}

impl<T: Drop> From<AllocFailed<T>> for ReadFault {
    ghost from_gives = { λ _ e. e ≡ read_fault.Memory };

    fn from(_error: AllocFailed<T>) -> ReadFault {
        ReadFault::Memory
    }
}

/// Why a line gave no row.
#[derive(Clone, Copy)]
pub enum RowFault {
    /// The line is refused.
    Refused(Cause),
    /// No memory could be had.
    Memory,
}

impl RowFault {
    /// The fault of a file whose first line without a row is this one.
    pub fn at(self, line: u32) -> ReadFault
        ensures { result ≡ fault_at line self }
    {
        match self {
            RowFault::Refused(cause) => ReadFault::at(line, cause),
            RowFault::Memory => ReadFault::Memory,
        }
    }
}

impl From<Cause> for RowFault {
    ghost from_gives = { λ cause e. e ≡ row_fault.Refused cause };

    fn from(cause: Cause) -> RowFault {
        RowFault::Refused(cause)
    }
}

impl From<NoMem> for RowFault {
    ghost from_gives = { λ _ e. e ≡ row_fault.Memory };

    fn from(_error: NoMem) -> RowFault {
        RowFault::Memory
    }
}

impl From<AllocError> for RowFault {
    ghost from_gives = { λ _ e. e ≡ row_fault.Memory };

    fn from(_error: AllocError) -> RowFault {
        RowFault::Memory
    }
}

impl<T: Drop> From<AllocFailed<T>> for RowFault {
    ghost from_gives = { λ _ e. e ≡ row_fault.Memory };

    fn from(_error: AllocFailed<T>) -> RowFault {
        RowFault::Memory
    }
}
