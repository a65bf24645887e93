//! Single reads and writes of the host's files.
ghost use Rattle.std.specs.Prelude.{◌<◌, ◌≤◌, IfOk, length};
ghost use Rattle.std.specs.Io.{ReadsAtMost};

use crate::{File, FolderFault};
use std::alloc::{AllocError, Global};
use std::fs;
use std::fs::{Metadata, OpenFile, OpenOptions};
use std::io::{ErrorKind, Read, Write};
use std::os::unix::fs::MetadataExt;
use std::rt::Files;

// The path of a file in a directory.
fn path_of(alloc: Global, directory: &str, file: File) -> Result<String, AllocError> {
    let mut path = String::from_str(alloc, directory)?;
    if !directory.is_empty() {
        path.push('/')?;
    }
    path.push_str(file.name())?;
    Ok(path)
}

// The path of the new file beside it.
fn beside_of(alloc: Global, directory: &str, file: File) -> Result<String, AllocError> {
    let mut path = path_of(alloc, directory, file)?;
    path.push_str(".new")?;
    Ok(path)
}

/// A file as the host tells it from all others, whatever its names are: by its device, and its number there.
#[derive(Clone, Copy, PartialEq, Eq)]
pub(crate) struct FileId {
    device: u64,
    number: u64,
}

// The file of which the host says this.
fn id_in(found: &Metadata) -> FileId {
    FileId {
        device: found.dev(),
        number: found.ino(),
    }
}

/// The file that a name in a directory leads to, links followed; none where the host knows of none.
pub(crate) fn id_of<R: Files>(
    rt: &R,
    alloc: Global,
    directory: &str,
    file: File,
) -> Option<FileId> {
    let Ok(path) = path_of(alloc, directory, file) else {
        return None;
    };
    match fs::metadata(rt, path.as_str()) {
        Ok(found) => Some(id_in(&found)),
        Err(_) => None,
    }
}

/// A file that is open.
pub(crate) fn id_of_opened<F: OpenFile>(opened: &F) -> Option<FileId> {
    match opened.metadata() {
        Ok(found) => Some(id_in(&found)),
        Err(_) => None,
    }
}

/// Reads some bytes of a file in a directory, and opens it before where it isn't open yet.
pub(crate) fn read_some<R: Files>(
    rt: &R,
    alloc: Global,
    source: &mut Option<R::File>,
    directory: &str,
    file: File,
    into: &mut [u8],
) -> Result<usize, FolderFault>
    ensures { ReadsAtMost result into.new }
{
    if source.is_none() {
        let path = path_of(alloc, directory, file)?;
        match fs::open(rt, path.as_str()) {
            Ok(opened) => *source = Some(opened),
            Err(error) if error.kind() == ErrorKind::NotFound && file.may_be_missing() => {
                return Ok(0);
            }
            Err(_) => return Err(FolderFault::Failed),
        }
    }
    match source {
        Some(opened) => opened.read(into).map_err(|_| FolderFault::Failed),
        None => Err(FolderFault::Failed),
    }
}

/// Empties a file of a directory, where it is there and has bytes, and answers whether it is empty now.
pub(crate) fn empty<R: Files>(rt: &R, alloc: Global, directory: &str, file: File) -> bool {
    let Ok(path) = path_of(alloc, directory, file) else {
        return false;
    };
    match fs::metadata(rt, path.as_str()) {
        Ok(found) if found.is_file() && found.len() == 0 => true,
        Ok(_) => {
            let mut options = OpenOptions::new();
            options.write(true).truncate(true);
            options.open(rt, path.as_str()).is_ok()
        }
        Err(error) => matches!(error.kind(), ErrorKind::NotFound | ErrorKind::NotADirectory),
    }
}

// Creates an empty file in a directory, and makes the directory before where it is missing.
fn create<R: Files>(
    rt: &R,
    alloc: Global,
    directory: &str,
    file: File,
) -> Result<R::File, FolderFault> {
    let path = path_of(alloc, directory, file)?;
    if !directory.is_empty() && fs::create_dir_all(rt, directory).is_err() {
        return Err(FolderFault::Failed);
    }
    fs::create(rt, path.as_str()).map_err(|_| FolderFault::Failed)
}

// Creates a new file beside one of a directory; what a run that was stopped left there goes, and if that is a link, the
// link alone.
fn create_beside<R: Files>(
    rt: &R,
    alloc: Global,
    directory: &str,
    file: File,
) -> Result<R::File, FolderFault> {
    let path = beside_of(alloc, directory, file)?;
    let _ = fs::remove_file(rt, path.as_str());
    let mut options = OpenOptions::new();
    options.write(true).create_new(true);
    options
        .open(rt, path.as_str())
        .map_err(|_| FolderFault::Failed)
}

/// Has the new file beside one of a directory take its place where it is whole, and takes it away where it isn't. It
/// answers whether that was done.
pub(crate) fn end_beside<R: Files>(
    rt: &R,
    alloc: Global,
    directory: &str,
    file: File,
    is_whole: bool,
) -> bool {
    let (Ok(path), Ok(beside)) = (
        path_of(alloc, directory, file),
        beside_of(alloc, directory, file),
    ) else {
        return false;
    };
    if is_whole {
        fs::rename(rt, beside.as_str(), path.as_str()).is_ok()
    } else {
        fs::remove_file(rt, beside.as_str()).is_ok()
    }
}

/// Writes at least one byte of a piece at the end of a file in a directory, or of the new file beside it, and creates
/// that before where this is the first write.
pub(crate) fn write_some<R: Files>(
    rt: &R,
    alloc: Global,
    target: &mut Option<R::File>,
    directory: &str,
    file: File,
    is_beside: bool,
    piece: &[u8],
) -> Result<usize, FolderFault>
    ensures { IfOk result (λ n. (0 < n) × (n ≤ length piece.now)) }
{
    if target.is_none() {
        let created = if is_beside {
            create_beside(rt, alloc, directory, file)?
        } else {
            create(rt, alloc, directory, file)?
        };
        *target = Some(created);
    }
    let Some(created) = target else {
        return Err(FolderFault::Failed);
    };
    match created.write(piece) {
        Ok(count) if count > 0 => Ok(count),
        _ => Err(FolderFault::Failed),
    }
}
