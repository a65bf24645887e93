//! A page, made from its top to its end.

ghost use Rattle.std.specs.Prelude.{◌≡◌, ◌++◌, [], OnOk, decimal};
ghost use Rattle.std.specs.List.{flat_map};
ghost use Rattle.page_parts.specs.Parts.{part_bytes};

use crate::escape::push_escaped;
use desk_units::NoMem;
use itoa::Buffer;
use std::alloc::Global;
use std::marker::Model;

/// What is put on a page.
#[derive(Clone, Copy)]
pub enum Part<'a> {
    /// Markup of the program's own, as it stands in its source.
    Own(&'static str),
    /// A number, in decimal.
    Number(u64),
    /// Bytes of any kind, which are escaped.
    Given(&'a [u8]),
}

/// A page of HTML. Contracts see it as its bytes.
#[derive(Drop)]
pub struct Page {
    bytes: Vec<u8>,
}

impl Model for Page {
    ghost use Rattle.std.specs.Prelude.{ℕ, List};

    ghost Value = { List ℕ };

    ghost view = { λ p. p.bytes.items };
}

// Adds a number in decimal.
fn push_number(out: &mut Vec<u8>, number: u64) -> Result<(), NoMem>
    ensures { OnOk result (out.new.items ≡ out.old.items ++ decimal number) }
{
    let mut buffer = Buffer::new();
    out.extend_from_slice(buffer.format(number).as_bytes())?;
    Ok(())
}

// Adds a part.
fn push_part(out: &mut Vec<u8>, part: &Part<'_>) -> Result<(), NoMem>
    ensures { OnOk result (out.new.items ≡ out.old.items ++ part_bytes part.now) }
{
    match part {
        Part::Own(text) => {
            out.extend_from_slice(text.as_bytes())?;
            Ok(())
        }
        Part::Number(number) => push_number(out, *number),
        Part::Given(bytes) => push_escaped(out, bytes),
    }
}

// Adds parts, one after another.
fn push_parts(out: &mut Vec<u8>, parts: &[Part<'_>]) -> Result<(), NoMem>
    ensures { OnOk result (out.new.items ≡ out.old.items ++ flat_map part_bytes parts.now) }
{
    for part in parts {
        push_part(out, part)?;
    }
    Ok(())
}

impl Page {
    /// An empty page.
    pub fn new(alloc: Global) -> Page
        ensures { result ≡ [] }
    {
        Page {
            bytes: Vec::new(alloc),
        }
    }

    /// Adds parts at the end, one after another. Where memory runs out, some of them may be added.
    pub fn put(&mut self, parts: &[Part<'_>]) -> Result<(), NoMem>
        ensures { OnOk result (self.new ≡ self.old ++ flat_map part_bytes parts.now) }
    {
        push_parts(&mut self.bytes, parts)
    }

    /// The bytes of the page so far.
    pub fn as_slice(&self) -> &[u8]
        ensures { result.now ≡ self.now }
    {
        self.bytes.as_slice()
    }
}
