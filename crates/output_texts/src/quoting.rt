//! Fields as comma files have them.

ghost use Rattle.std.specs.Prelude.{◌≡◌, ◌++◌, OnOk};
ghost use Rattle.std.specs.List.{list_any};
ghost use Rattle.output_texts.specs.Quoting.{doubled, is_mark, quoted};

use desk_data::NoMem;
use desk_text::push_all;

/// What stands before and after a field that is quoted.
const QUOTE_MARK: u8 = b'"';

/// Adds a field: as it stands, or, where it has a comma, a quote mark, CR or LF, between quote marks,
/// each quote mark in it twice.
#[tactic(auto, unfolding(crate::specs::Quoting::quoted))]
pub(crate) fn push_quoted(text: &mut Vec<u8>, field: &[u8]) -> Result<(), NoMem>
    ensures { OnOk result (text.new.items ≡ text.old.items ++ quoted field.now) }
{
    if has_mark(field) {
        push_all(text, &[b"\""])?;
        push_doubled(text, field)?;
        push_all(text, &[b"\""])
    } else {
        push_all(text, &[field])
    }
}

/// Whether a byte calls for quotes.
fn is_mark(byte: u8) -> bool
    ensures { result ≡ is_mark byte }
{
    byte == b',' || byte == QUOTE_MARK || byte == b'\r' || byte == b'\n'
}

/// Whether a field has a byte that calls for quotes.
fn has_mark(field: &[u8]) -> bool
    ensures { result ≡ list_any is_mark field.now }
{
    field.iter().any(|byte| is_mark(*byte))
}

/// Adds bytes, each quote mark twice.
#[tactic(auto, unfolding(crate::specs::Quoting::doubled_byte))]
fn push_doubled(text: &mut Vec<u8>, field: &[u8]) -> Result<(), NoMem>
    ensures { OnOk result (text.new.items ≡ text.old.items ++ doubled field.now) }
{
    for byte in field {
        if *byte == QUOTE_MARK {
            text.push(QUOTE_MARK)?;
        }
        text.push(*byte)?;
    }
    Ok(())
}
