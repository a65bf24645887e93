//! The file of the window.

ghost use Rattle.std.specs.Prelude.{◌≡◌, ◌≢◌, IfOk};
ghost use Rattle.desk_text.specs.Rows.{line_row, Gives};
ghost use Rattle.file_readers.specs.Config.{window_row, config_of};
ghost use Rattle.file_rows.specs.Facts.{IsWindow};

use desk_text::{Cause, Fields, MOST_BYTES, ReadFault, are_text, lines, moment};
use file_rows::Window;

/// The window of the fields of a line.
#[tactic(auto, unfolding(crate::specs::Config::window_row))]
fn window(line: u32, mut fields: Fields<'_>) -> Result<Window, Cause>
    ensures exact { result ≡ window_row line fields.entry }
    ensures facts { IfOk result (λ window. IsWindow window) }
{
    let first_day = fields.take()?;
    let first_time = fields.take()?;
    let last_day = fields.take()?;
    let last_time = fields.take()?;
    let from = moment(first_day, first_time)?;
    let to = moment(last_day, last_time)?;
    Ok(Window { from, to, line })
}

/// The window of a line whose bytes are tried first.
fn window_of_line(line: u32, text: &[u8]) -> Result<Window, Cause>
    ensures exact { result ≡ line_row window_row line text.now }
    ensures facts { IfOk result (λ window. IsWindow window) }
{
    if !are_text(text) {
        return Err(Cause::Byte);
    }
    window(line, Fields::of(text))
}

/// The window, from the first line that has fields: `DATE TIME DATE TIME`. What follows that line is
/// passed over unread.
///
/// A file of more than 67,108,864 bytes is refused at line 0 with `Size`, and one that has no line
/// with fields at line 0 with `Fields`. That line is refused with `Byte`, `Fields`, `Date` or
/// `Time`, whichever comes first. It is never out of memory.
pub fn read_config(bytes: &[u8]) -> Result<Window, ReadFault>
    ensures exact { Gives (λ window. window) result (config_of bytes.now) }
    ensures no_memory { result ≢ Err ReadFault.Memory }
    ensures facts { IfOk result (λ window. IsWindow window) }
{
    if bytes.len() > MOST_BYTES {
        return Err(ReadFault::at(0, Cause::Size));
    }
    let mut lines = lines(bytes);
    let Some((line, text)) = lines.next() else {
        return Err(ReadFault::at(0, Cause::Fields));
    };
    match window_of_line(line, text) {
        Ok(window) => Ok(window),
        Err(cause) => Err(ReadFault::at(line, cause)),
    }
}
