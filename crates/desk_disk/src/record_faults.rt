//! Why a file was not opened, or a record not added.
ghost use Rattle.std.specs.Prelude.{◌≡◌};
ghost use Rattle.desk_disk.specs.declared.record_faults.OpenFault.TheVariants as opening;
ghost use Rattle.desk_disk.specs.declared.record_faults.AppendFault.TheVariants as appending;
ghost use Rattle.desk_disk.specs.Faults.{open_fault, append_fault};

use crate::DiskFault;
use std::alloc::AllocError;

/// Why a file was not opened.
#[derive(Clone, Copy, Debug, PartialEq, Eq)]
pub enum OpenFault {
    /// The disk failed: its count of faults rose.
    Disk,
    /// From this place on, in bytes from the file's start, stands no record that may stand there.
    Damaged { at: u64 },
    /// There was no memory left, or the file would have more than 2^62 bytes.
    Memory,
}

/// Why a record was not added.
#[derive(Clone, Copy)]
pub enum AppendFault {
    /// The disk failed: its count of faults rose.
    Disk,
    /// There was no memory left, or the file would have more than 2^62 bytes.
    Memory,
}

impl From<DiskFault> for OpenFault {
    ghost from_gives = { λ fault e. e ≡ open_fault fault };

    fn from(fault: DiskFault) -> OpenFault {
        match fault {
            DiskFault::Failed => OpenFault::Disk,
            DiskFault::Memory => OpenFault::Memory,
        }
    }
}

impl From<AllocError> for OpenFault {
    ghost from_gives = { λ _ e. e ≡ opening.Memory };

    fn from(_error: AllocError) -> OpenFault {
        OpenFault::Memory
    }
}

impl From<DiskFault> for AppendFault {
    ghost from_gives = { λ fault e. e ≡ append_fault fault };

    fn from(fault: DiskFault) -> AppendFault {
        match fault {
            DiskFault::Failed => AppendFault::Disk,
            DiskFault::Memory => AppendFault::Memory,
        }
    }
}

impl From<AllocError> for AppendFault {
    ghost from_gives = { λ _ e. e ≡ appending.Memory };

    fn from(_error: AllocError) -> AppendFault {
        AppendFault::Memory
    }
}
