//! Bytes as they stand on a page.

ghost use Rattle.std.specs.Prelude.{◌≡◌, ◌++◌, OnOk};
ghost use Rattle.page_parts.specs.Escaped.{entity, escaped};

use desk_units::NoMem;

// Adds a byte as it stands on a page. Where memory runs out, nothing is added.
fn push_byte(out: &mut Vec<u8>, byte: u8) -> Result<(), NoMem>
    ensures { OnOk result (out.new.items ≡ out.old.items ++ entity byte) }
{
    match byte {
        b'<' => out.extend_from_slice(b"&lt;")?,
        b'>' => out.extend_from_slice(b"&gt;")?,
        b'&' => out.extend_from_slice(b"&amp;")?,
        b'"' => out.extend_from_slice(b"&quot;")?,
        b'\'' => out.extend_from_slice(b"&#39;")?,
        b' '..=b'~' => out.push(byte)?,
        _ => out.push(b'?')?,
    }
    Ok(())
}

/// Adds bytes as they stand on a page: each of `<`, `>`, `&`, `"` and `'` as its entity, and a question mark for what can't
/// be printed. Where memory runs out, a part of them may be added.
pub(crate) fn push_escaped(out: &mut Vec<u8>, bytes: &[u8]) -> Result<(), NoMem>
    ensures { OnOk result (out.new.items ≡ out.old.items ++ escaped bytes.now) }
{
    for byte in bytes {
        push_byte(out, *byte)?;
    }
    Ok(())
}
