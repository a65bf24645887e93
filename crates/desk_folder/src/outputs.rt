//! Several texts, each put into a file of its own.

ghost use Rattle.std.specs.Prelude.{◌≡◌, [], ◌∷◌, IsTrue, MatchOption};
ghost use Rattle.desk_folder.specs.Entries.{named_texts};
ghost use Rattle.desk_folder.specs.Outputs.{are_different, files_of, PutsTexts};

use crate::puts::put_text;
use crate::{File, Folder, FolderFault};
use std::alloc::Global;

/// Why texts weren't put to their end.
#[derive(Clone, Copy, PartialEq, Eq)]
pub enum WriteFault {
    /// A write of this file failed: the folder's count of its failed writes rose.
    Failed(File),
    /// No memory could be had.
    Memory,
}

// The first text and the others, where there is one.
fn first_and_others(texts: &[(File, Vec<u8>)]) -> Option<(&(File, Vec<u8>), &[(File, Vec<u8>)])>
    ensures { MatchOption result (texts.now ≡ []) (λ p. texts.now ≡ p.0.now ∷ p.1.now) }
{
    match texts {
        [] => None,
        [text, others @ ..] => Some((text, others)),
    }
}

/// Puts these texts one after another, each at the end of its file. An empty text calls no `put`.
///
/// After an error the texts are whole up to one, of that one a beginning is put, and nothing of those
/// after it. `Failed` names the file of that one.
pub fn put_texts<F: Folder>(
    alloc: Global,
    folder: &mut F,
    texts: &[(File, Vec<u8>)],
) -> Result<(), WriteFault>
    requires { IsTrue (are_different (files_of (named_texts texts.now))) }
    ensures { PutsTexts (F.outside folder.old) (F.outside folder.new) (named_texts texts.now) result }
{
    let Some((text, others)) = first_and_others(texts) else {
        return Ok(());
    };
    match put_text(alloc, folder, text.0, text.1.as_slice()) {
        Ok(()) => {}
        Err(FolderFault::Failed) => return Err(WriteFault::Failed(text.0)),
        Err(FolderFault::Memory) => return Err(WriteFault::Memory),
    }
    put_texts(alloc, folder, others)
}
