//! The plain work of a folder in memory, over lists.
ghost use Rattle.std.specs.Prelude.{◌≡◌, ◌≢◌, ℕ, ◌+◌, ◌-◌, ◌^◌, ◌<◌, ◌≤◌, [], ◌++◌, OnOk, OnErr, length, take, drop, min, slice_index};
ghost use Rattle.desk_folder.specs.Entries.{entry_of, named_texts, text_at, texts_of};
ghost use Rattle.desk_folder.specs.Files.{file_number};
ghost use Rattle.desk_folder.specs.declared.files.File.{File};

use crate::{FILES, File};
use std::alloc::AllocError;

/// The bytes of the first entry of a file, or none.
pub(crate) fn entry(entries: &[(File, Vec<u8>)], file: File) -> &[u8]
    ensures { result.now ≡ entry_of file (named_texts entries.now) }
{
    for (name, bytes) in entries {
        if name.number() == file.number() {
            return bytes.as_slice();
        }
    }
    &[]
}

/// Copies the bytes from `from` on into the front of a buffer, as many as fit, but no more than `most`, and answers how
/// many.
pub(crate) fn hand_out(bytes: &[u8], from: usize, most: usize, into: &mut [u8]) -> usize
    requires { 0 < most }
    ensures count { result ≡ min most (min (length into.new) (length (drop from bytes.now))) }
    ensures fits { result ≤ length into.new }
    ensures ends { from + result < 2 ^ 64 }
    ensures handed { drop from bytes.now ≡ take result into.new ++ drop (from + result) bytes.now }
    ensures end { result ≡ 0 → 0 < length into.new → drop from bytes.now ≡ [] }
{
    let (_, rest) = bytes.split_at(from.min(bytes.len()));
    let count = most.min(into.len().min(rest.len()));
    let (front, _) = rest.split_at(count);
    let (room, _) = into.split_at_mut(count);
    room.copy_from_slice(front);
    count
}

/// One of several texts.
pub(crate) fn text(texts: &[Vec<u8>], at: usize) -> &[u8]
    requires { at < length texts.now }
    ensures { result.now ≡ text_at (texts_of texts.now) at }
{
    texts[at].as_slice()
}

/// Appends a piece to one of several texts, and leaves the others. An error appends nothing.
pub(crate) fn append(texts: &mut [Vec<u8>], at: usize, piece: &[u8]) -> Result<(), AllocError>
    requires { at < length texts.old }
    ensures ok { OnOk result (text_at (texts_of texts.new) at ≡ text_at (texts_of texts.old) at ++ piece.now) }
    ensures err { OnErr result (text_at (texts_of texts.new) at ≡ text_at (texts_of texts.old) at) }
    ensures others { (k : ℕ) → k ≢ at → text_at (texts_of texts.new) k ≡ text_at (texts_of texts.old) k }
{
    let text = &mut texts[at];
    text.extend_from_slice(piece)
}

/// Raises a file's count, of turns or of faults, by one; at its last value it stands still.
#[tactic(auto, using(crate::proofs::FileLemmas::numbers_differ))]
pub(crate) fn raise(counts: &mut [u64], file: File)
    requires { length counts.old ≡ FILES }
    ensures raised { slice_index counts.new (file_number file) ≡ min (slice_index counts.old (file_number file) + 1) (2 ^ 64 - 1) }
    ensures kept { slice_index counts.old (file_number file) ≤ slice_index counts.new (file_number file) }
    ensures others { (f : File) → f ≢ file → slice_index counts.new (file_number f) ≡ slice_index counts.old (file_number f) }
{
    let at = file.number();
    counts[at] = counts[at].saturating_add(1);
}
