//! A sink that passes everything on and keeps a copy of it.

ghost use Rattle.std.specs.Prelude.{◌≡◌, ◌≤◌, ◌++◌, Some, None, option_map, length};
ghost use Rattle.desk_words.specs.Kept.{Copies};

use desk_folder::{FolderFault, Sink};
use std::alloc::Global;
use std::marker::Model;

/// How many bytes of a report are kept at most: more than the longest report has.
pub const MOST_KEPT: usize = 262_144;

/// A sink that passes each piece on to another, and keeps a copy up to `MOST_KEPT` bytes: of what the other one took, and
/// of all of a piece that it refused, so that a report can be explained that nobody could read. Where there is more, or no
/// memory for it, it gives the copy up; what it passes on stays the same.
#[derive(Drop)]
pub struct CopyingSink<S: Sink + Drop> {
    sink: S,
    copy: Option<Vec<u8>>,
}

impl<S: Sink + Drop> Model for CopyingSink<S> {
    ghost use Rattle.std.specs.Prelude.{option_map};
    ghost use Rattle.desk_words.specs.Kept.{CopySide};

    ghost Value = { CopySide };

    ghost view = { λ s. record { side = S.report s.sink; copy = option_map (λ bytes. bytes.items) s.copy } };
}

// A copy with more bytes; none where there are too many, or no memory for them.
fn with_more(copy: Option<Vec<u8>>, taken: &[u8]) -> Option<Vec<u8>>
    ensures { Copies (option_map (λ bytes. bytes.items) copy) (option_map (λ bytes. bytes.items) result) taken.now }
{
    let mut bytes = copy?;
    if taken.len() > MOST_KEPT - bytes.len().min(MOST_KEPT) {
        return None;
    }
    match bytes.extend_from_slice(taken) {
        Ok(()) => Some(bytes),
        Err(_) => None,
    }
}

impl<S: Sink + Drop> CopyingSink<S> {
    ghost use Rattle.std.specs.Prelude.{◌≡◌, [], Some, option_map};

    /// A sink that passes on to this one, with a copy of nothing yet.
    pub fn new(alloc: Global, sink: S) -> CopyingSink<S>
        ensures { result ≡ record { side = S.report sink; copy = Some [] } }
    {
        CopyingSink {
            sink,
            copy: Some(Vec::new(alloc)),
        }
    }

    /// The copy of all that was taken or refused; none where it was given up.
    pub fn copy(&self) -> Option<&[u8]>
        ensures { option_map (λ bytes. bytes.now) result ≡ self.now.copy }
    {
        self.copy.as_ref().map(|bytes| bytes.as_slice())
    }
}

impl<S: Sink + Drop> Sink for CopyingSink<S> {
    ghost use Rattle.std.specs.Prelude.{◌≡◌, ◌<◌, length, take, IfOk, OnErr};
    ghost use Rattle.desk_folder.specs.Calls.{PutsToSink};
    ghost use Rattle.desk_words.specs.Kept.{Copies};

    ghost report = { λ s. s.side };

    fn put(&mut self, alloc: Global, piece: &[u8]) -> Result<usize, FolderFault>
        requires { 0 < length piece.now }
        ensures puts { PutsToSink self.old.side self.new.side piece.now result }
        ensures copies { IfOk result (λ n. Copies self.old.copy self.new.copy (take n piece.now)) }
        ensures refused { OnErr result (Copies self.old.copy self.new.copy piece.now) }
    {
        let answer = self.sink.put(alloc, piece);
        let copied = match answer {
            Ok(count) => &piece[..count],
            Err(_) => piece,
        };
        self.copy = with_more(self.copy.take(), copied);
        answer
    }
}
