//! The path of a file that could not be read or written.

ghost use Rattle.std.specs.Prelude.{◌≡◌, ◌++◌, codes, IfOk};
ghost use Rattle.std.specs.String.{string_bytes};
ghost use Rattle.desk_folder.specs.Files.{file_name};

use crate::report::{Fault, fault_of};
use crate::{Directories, command};
use desk_folder::File;
use desk_units::NoMem;
use std::alloc::Global;

// The path of a file in a directory.
fn path_in(alloc: Global, directory: &str, file: File) -> Result<String, NoMem>
    ensures { IfOk result (λ path. string_bytes path ≡ directory.now ++ codes "/" ++ file_name file) }
{
    let name = file.name();
    Ok(format!(in alloc; "{directory}/{name}")?)
}

// The directory that a file is read from.
fn source<'a>(directories: &Directories<'a>, file: File) -> &'a str {
    if file.is_solution() {
        directories.output
    } else {
        directories.input
    }
}

/// The path of the file that a run of these words could not read or write, by its report: the directory as the words
/// name it, `/` and the file's name. None where the report names no such file. The only error is out of memory.
pub fn faulty_path(
    alloc: Global,
    words: &[String],
    report: &[u8],
) -> Result<Option<String>, NoMem> {
    let Some(asked) = command(words) else {
        return Ok(None);
    };
    let Some(directories) = asked.directories else {
        return Ok(None);
    };
    let path = match fault_of(report) {
        Some(Fault::Read(file)) => path_in(alloc, source(&directories, file), file)?,
        Some(Fault::Write(file)) => path_in(alloc, directories.output, file)?,
        _ => return Ok(None),
    };
    Ok(Some(path))
}
