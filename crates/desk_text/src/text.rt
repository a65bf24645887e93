//! A text as its lines.

ghost use Rattle.std.specs.Prelude.{◌≡◌, ◌<◌, ◌≤◌, ◌^◌, length};
ghost use Rattle.desk_text.specs.Lines.{text_lines};

use crate::reading::Lines;

/// The lines of a text that have fields, counted from 1.
pub fn lines(bytes: &[u8]) -> Lines<'_>
    requires { length bytes.now < 2 ^ 32 }
    ensures exact { result ≡ text_lines bytes.now }
    ensures few { length result ≤ length bytes.now }
{
    Lines::of(bytes)
}
