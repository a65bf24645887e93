//! What a call of a folder or a sink may answer in place of its result.
ghost use Rattle.std.specs.Prelude.{◌≡◌};
ghost use Rattle.desk_folder.specs.declared.faults.FolderFault.TheVariants.{Memory};

use std::alloc::{AllocError, AllocFailed};
use thiserror::Error;

/// Why a call of a folder or a sink did nothing, or only a part.
#[derive(Clone, Copy, Debug, PartialEq, Eq, Error)]
pub enum FolderFault {
    /// The outside failed: the call's count of faults rose.
    #[error("the folder or the sink failed")]
    Failed,
    /// There was no memory left.
    #[error("out of memory")]
    Memory,
}

impl From<AllocError> for FolderFault {
    ghost from_gives = { λ _ e. e ≡ Memory };

    fn from(_error: AllocError) -> FolderFault {
        FolderFault::Memory
    }
}

impl<T: Drop> From<AllocFailed<T>> for FolderFault {
    ghost from_gives = { λ _ e. e ≡ Memory };

    fn from(_error: AllocFailed<T>) -> FolderFault {
        FolderFault::Memory
    }
}
