//! A file of a folder, read to its end.
ghost use Rattle.std.specs.Prelude.{◌≡◌, IfOk, vec_len};
ghost use Rattle.desk_folder.specs.declared.reads.ReadEnd.TheVariants as end;
ghost use Rattle.desk_folder.specs.Ends.{read_end};
ghost use Rattle.desk_folder.specs.Texts.{ReadsFile};

use crate::{File, Folder, FolderFault};
use std::alloc::{AllocError, Global};

/// Why a file wasn't read to its end.
#[derive(Clone, Copy, PartialEq, Eq)]
pub enum ReadEnd {
    /// The file has more bytes than the limit.
    Size,
    /// A read failed: the folder's count of failed reads of this file rose.
    Failed,
    /// There was no memory left.
    Memory,
}

impl From<FolderFault> for ReadEnd {
    ghost from_gives = { λ fault e. e ≡ read_end fault };

    fn from(fault: FolderFault) -> ReadEnd {
        match fault {
            FolderFault::Failed => ReadEnd::Failed,
            FolderFault::Memory => ReadEnd::Memory,
        }
    }
}

impl From<AllocError> for ReadEnd {
    ghost from_gives = { λ _ e. e ≡ end.Memory };

    fn from(_error: AllocError) -> ReadEnd {
        ReadEnd::Memory
    }
}

/// The bytes that are read at once.
const BUFFER: usize = 65_536;

// A buffer of this many bytes.
fn buffer(alloc: Global, size: usize) -> Result<Vec<u8>, AllocError>
    ensures { IfOk result (λ bytes. vec_len bytes ≡ size) }
{
    vec![in alloc; 0u8; size]
}

/// Reads what is left of a file, if that is at most `limit` bytes. It gives up with `Size` as soon as
/// more have come, with `Failed` only where the folder's count of failed reads of this file rose. It asks
/// for the next bytes no more than `limit + 1` times, since each answer but the last gives a byte.
pub fn read_file<F: Folder>(
    alloc: Global,
    folder: &mut F,
    file: File,
    limit: u32,
) -> Result<Vec<u8>, ReadEnd>
    ensures { ReadsFile (F.outside folder.old) (F.outside folder.new) file limit result }
{
    let mut bytes = Vec::new(alloc);
    let mut piece = buffer(alloc, BUFFER)?;
    loop {
        let taken = folder.next(alloc, file, &mut piece)?;
        if taken == 0 {
            return Ok(bytes);
        }
        let (front, _) = piece.split_at(taken);
        if bytes.extend_from_slice(front).is_err() {
            return Err(ReadEnd::Memory);
        }
        if bytes.len() > limit as usize {
            return Err(ReadEnd::Size);
        }
    }
}
