//! Text for a terminal: what a file or a word of the command line has in it can do nothing there but be read.

ghost use Rattle.std.specs.Prelude.{◌≡◌, ◌<◌, ◌≤◌, ◌++◌, [], ◌∷◌, OnOk, All};
ghost use Rattle.std.specs.List.{flat_map};
ghost use Rattle.std.specs.String.{string_bytes};
ghost use Rattle.desk_words.specs.Shown.{IsShown, is_plain, hex_digit, shown_byte, shown, shown_line, line_feed};

use desk_units::NoMem;
use std::alloc::{AllocError, Global};
use std::marker::Model;

/// Text that a terminal shows: each byte is a line feed or one from the space to `~`.
#[derive(Drop)]
pub struct ShownText {
    text: String,
}

impl Model for ShownText {
    ghost use Rattle.std.specs.Prelude.{ℕ, List, All};
    ghost use Rattle.std.specs.String.{string_bytes};
    ghost use Rattle.desk_words.specs.Shown.{IsShown};

    ghost Value = { List ℕ };

    ghost view = { λ t. string_bytes t.text };

    ghost invariant = { λ t. All IsShown (string_bytes t.text) };
}

// Whether a byte stands for itself.
fn is_plain(byte: u8) -> bool
    ensures { result ≡ is_plain byte }
{
    (32 <= byte && byte <= 126) && byte != b'\\'
}

// A digit of a number below 16.
fn hex_digit(number: u8) -> char
    requires { number < 16 }
    ensures digit { result ≡ hex_digit number }
    ensures printed { (32 ≤ result) × (result ≤ 126) }
{
    if number < 10 {
        (b'0' + number) as char
    } else {
        (b'a' + (number - 10)) as char
    }
}

// Adds a character from the space to `~`.
fn push_printed(text: &mut String, ch: char) -> Result<(), AllocError>
    requires { (32 ≤ ch) × (ch ≤ 126) }
    ensures ok { OnOk result (string_bytes text.new ≡ string_bytes text.old ++ ch ∷ []) }
    ensures shown { All IsShown (string_bytes text.old) → All IsShown (string_bytes text.new) }
{
    text.push(ch)
}

// Adds a byte as it is shown. Where memory runs out, a part of that may be added.
fn push_byte(text: &mut String, byte: u8) -> Result<(), AllocError>
    ensures ok { OnOk result (string_bytes text.new ≡ string_bytes text.old ++ shown_byte byte) }
    ensures shown { All IsShown (string_bytes text.old) → All IsShown (string_bytes text.new) }
{
    if is_plain(byte) {
        return push_printed(text, byte as char);
    }
    push_printed(text, '\\')?;
    push_printed(text, 'x')?;
    push_printed(text, hex_digit(byte / 16))?;
    push_printed(text, hex_digit(byte % 16))
}

// Adds bytes as they are shown. Where memory runs out, a part of them may be added.
fn push_bytes(text: &mut String, bytes: &[u8]) -> Result<(), AllocError>
    ensures ok { OnOk result (string_bytes text.new ≡ string_bytes text.old ++ shown bytes.now) }
    ensures shown { All IsShown (string_bytes text.old) → All IsShown (string_bytes text.new) }
{
    for byte in bytes {
        push_byte(text, *byte)?;
    }
    Ok(())
}

// Ends a line.
fn end_line(text: &mut String) -> Result<(), AllocError>
    ensures ok { OnOk result (string_bytes text.new ≡ string_bytes text.old ++ line_feed ∷ []) }
    ensures shown { All IsShown (string_bytes text.old) → All IsShown (string_bytes text.new) }
{
    text.push('\n')
}

// Adds bytes as a line.
fn push_line(text: &mut String, bytes: &[u8]) -> Result<(), AllocError>
    ensures ok { OnOk result (string_bytes text.new ≡ string_bytes text.old ++ shown_line bytes.now) }
    ensures shown { All IsShown (string_bytes text.old) → All IsShown (string_bytes text.new) }
{
    push_bytes(text, bytes)?;
    end_line(text)
}

// Adds several lines.
fn push_lines(text: &mut String, lines: &[&str]) -> Result<(), AllocError>
    ensures ok { OnOk result (string_bytes text.new ≡ string_bytes text.old ++ flat_map (λ line. shown_line line.now) lines.now) }
    ensures shown { All IsShown (string_bytes text.old) → All IsShown (string_bytes text.new) }
{
    for line in lines {
        push_line(text, line.as_bytes())?;
    }
    Ok(())
}

impl ShownText {
    /// No text.
    pub fn new(alloc: Global) -> ShownText
        ensures { result ≡ [] }
    {
        ShownText {
            text: String::new(alloc),
        }
    }

    /// Adds bytes: those from the space to `~` but the backslash as they are, all others as `\x` and two
    /// hexadecimal digits. The only error is out of memory; a part of them may be added then.
    pub fn say(&mut self, bytes: &[u8]) -> Result<(), NoMem>
        ensures { OnOk result (self.new ≡ self.old ++ shown bytes.now) }
    {
        push_bytes(&mut self.text, bytes)?;
        Ok(())
    }

    /// Adds bytes as a line: as they are shown, and a line feed.
    pub fn say_line(&mut self, bytes: &[u8]) -> Result<(), NoMem>
        ensures { OnOk result (self.new ≡ self.old ++ shown_line bytes.now) }
    {
        push_line(&mut self.text, bytes)?;
        Ok(())
    }

    /// Adds several lines.
    pub fn say_lines(&mut self, lines: &[&str]) -> Result<(), NoMem>
        ensures { OnOk result (self.new ≡ self.old ++ flat_map (λ line. shown_line line.now) lines.now) }
    {
        push_lines(&mut self.text, lines)?;
        Ok(())
    }

    /// The text.
    pub fn as_str(&self) -> &str
        ensures text { result.now ≡ self.now }
        ensures shown { All IsShown result.now }
    {
        self.text.as_str()
    }
}
