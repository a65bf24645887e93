//! The host's file for the page.

ghost use Rattle.std.specs.Prelude.{◌≡◌, ◌<◌, ◌≤◌, IfOk, length};

use desk_folder::{FolderFault, Sink};
use desk_units::NoMem;
use std::alloc::Global;
use std::fs;
use std::io::Write;
use std::marker::Model;
use std::rt::Files;

/// The file `day.html` of a directory, which the first `put` makes, or makes empty.
pub struct PageFile<R: Files + Drop> {
    rt: R,
    path: String,
    target: Option<R::File>,
    faults: u64,
}

/// Dropped in one call, so that a function that owns one proves it once, and not part by part.
impl<R: Files + Drop> Drop for PageFile<R> {
    fn drop(self) {
        let PageFile {
            rt: _,
            path: _,
            target: _,
            faults: _,
        } = self;
    }
}

impl<R: Files + Drop> Model for PageFile<R> {
    ghost use Rattle.std.specs.Prelude.{ℕ};

    ghost Value = { ℕ };

    ghost view = { λ s. s.faults };
}

// Writes some bytes of a piece, one at least.
fn write_some<R: Files>(
    rt: &R,
    path: &str,
    target: &mut Option<R::File>,
    piece: &[u8],
) -> Result<usize, FolderFault>
    ensures { IfOk result (λ n. (0 < n) × (n ≤ length piece.now)) }
{
    if target.is_none() {
        match fs::create(rt, path) {
            Ok(created) => *target = Some(created),
            Err(_) => return Err(FolderFault::Failed),
        }
    }
    let Some(created) = target else {
        return Err(FolderFault::Failed);
    };
    match created.write(piece) {
        Ok(count) if count > 0 => Ok(count),
        _ => Err(FolderFault::Failed),
    }
}

impl<R: Files + Drop> PageFile<R> {
    ghost use Rattle.std.specs.Prelude.{IfOk, None};

    /// The page's file in a directory. No file is made before there is something to write. The only error is out of memory.
    pub fn of(rt: R, alloc: Global, directory: &str) -> Result<PageFile<R>, NoMem>
        ensures { IfOk result (λ made. ⟦<PageFile<R> as Sink>⟧.report made ≡ record { written = None; faults = 0 }) }
    {
        let mut path = String::from_str(alloc, directory)?;
        path.push_str("/day.html")?;
        Ok(PageFile {
            rt,
            path,
            target: None,
            faults: 0,
        })
    }
}

impl<R: Files + Drop> Sink for PageFile<R> {
    ghost use Rattle.std.specs.Prelude.{◌<◌, length};
    ghost use Rattle.desk_folder.specs.Calls.{PutsToSink};
    ghost use Rattle.desk_folder.specs.Host.{faults_alone};

    ghost report = { faults_alone };

    fn put(&mut self, _alloc: Global, piece: &[u8]) -> Result<usize, FolderFault>
        requires { 0 < length piece.now }
        ensures { PutsToSink (faults_alone self.old) (faults_alone self.new) piece.now result }
    {
        match write_some(&self.rt, self.path.as_str(), &mut self.target, piece) {
            Ok(count) => Ok(count),
            Err(_) => {
                self.faults = self.faults.saturating_add(1);
                Err(FolderFault::Failed)
            }
        }
    }
}
