//! The cases: folders with a transcript, and with the files that differ from those of the usual day.

use crate::lines::file_of;
use crate::play::play;
use crate::texts::Texts;
use std::io::ErrorKind;
use std::sync::Wait;
use std::thread::Threads;
use std::{fs, io};

// The names of the folders in a folder, or of the files, in order.
fn names_in(rt: &HostRuntime, folder: &str, of_folders: bool) -> io::Result<Vec<String>> {
    let alloc = rt.alloc();
    let mut names = Vec::new(alloc);
    for entry in fs::read_dir(rt, folder)? {
        let entry = entry?;
        if entry.file_type()?.is_dir() == of_folders {
            names.push(String::from_str(alloc, entry.file_name())?)?;
        }
    }
    names.sort()?;
    Ok(names)
}

/// The names of the cases, in order.
pub(crate) fn case_names(rt: &HostRuntime) -> io::Result<Vec<String>> {
    let mut names = names_in(rt, ".", true)?;
    names.retain(|name| name.as_str() != "usual");
    Ok(names)
}

// Adds the texts of the files of a folder. Its transcript is left out; another file is an error.
fn add_folder(rt: &HostRuntime, texts: &mut Texts, folder: &str) -> io::Result<()> {
    for name in &names_in(rt, folder, false)? {
        if name.as_str() != "transcript" {
            let file = file_of(name.as_str()).ok_or(io::Error::from(ErrorKind::InvalidFilename))?;
            texts.push((file, bytes_in(rt, folder, name.as_str())?))?;
        }
    }
    Ok(())
}

// The bytes of a file of a folder.
fn bytes_in(rt: &HostRuntime, folder: &str, name: &str) -> io::Result<Vec<u8>> {
    let path = format!(in rt.alloc(); "{folder}/{name}")?;
    fs::read(rt, path.as_str())
}

// The texts with which the runs of a case begin.
fn day_of(rt: &HostRuntime, name: &str) -> io::Result<Texts> {
    let mut day = Vec::new(rt.alloc());
    add_folder(rt, &mut day, name)?;
    add_folder(rt, &mut day, "usual")?;
    Ok(day)
}

fn transcript_of(rt: &HostRuntime, name: &str) -> io::Result<String> {
    let path = format!(in rt.alloc(); "{name}/transcript")?;
    fs::read_to_string(rt, path.as_str())
}

/// Plays a case, with these threads for its runs: none where it gives what its transcript says, and else the transcript as it came.
pub(crate) fn play_case<R: Threads + Wait + Sync>(
    rt: &HostRuntime,
    threads: &R,
    name: &str,
) -> io::Result<Option<String>> {
    let alloc = rt.alloc();
    let transcript = transcript_of(rt, name)?;
    let played = play(threads, alloc, day_of(rt, name)?, transcript.as_str())?;
    if played.as_slice() == transcript.as_bytes() {
        return Ok(None);
    }
    Ok(Some(String::from_utf8_lossy(alloc, played.as_slice())?))
}
