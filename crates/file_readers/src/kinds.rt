//! The kinds of rows.

ghost use Rattle.std.specs.Prelude.{◌≡◌};
ghost use Rattle.file_readers.specs.Rows.{kind_of};

use desk_text::Cause;

/// What a row is about.
#[derive(Clone, Copy)]
pub(crate) enum TariffKind {
    Surface,
    Weight,
    Delay,
    Cancel,
    Downgrade,
    Care,
    Compensation,
    Position,
}

/// The kind of a row, by its first word, else `Word`.
pub(crate) fn kind_named(word: &[u8]) -> Result<TariffKind, Cause>
    ensures { result ≡ kind_of word.now }
{
    if word == b"surface".as_slice() {
        Ok(TariffKind::Surface)
    } else if word == b"weight".as_slice() {
        Ok(TariffKind::Weight)
    } else if word == b"delay".as_slice() {
        Ok(TariffKind::Delay)
    } else if word == b"cancel".as_slice() {
        Ok(TariffKind::Cancel)
    } else if word == b"downgrade".as_slice() {
        Ok(TariffKind::Downgrade)
    } else if word == b"care".as_slice() {
        Ok(TariffKind::Care)
    } else if word == b"compensation".as_slice() {
        Ok(TariffKind::Compensation)
    } else if word == b"position".as_slice() {
        Ok(TariffKind::Position)
    } else {
        Err(Cause::Word)
    }
}
