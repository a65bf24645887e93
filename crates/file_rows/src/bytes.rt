//! The bytes that have a meaning in the text files.

ghost use Rattle.std.specs.Prelude.{◌≡◌};
ghost use Rattle.file_rows.specs.Bytes.{space, tab, line_feed, carriage_return, comma, hash, point, slash, colon, dash, plus, first_visible, last_visible};

/// It stands between fields.
pub const SPACE: u8 = b' ';

/// It stands between fields too.
pub const TAB: u8 = b'\t';

/// It ends a line.
pub const LINE_FEED: u8 = b'\n';

/// It may stand before the end of a line.
pub const CARRIAGE_RETURN: u8 = b'\r';

/// It stands between the fields of a comma file.
pub const COMMA: u8 = b',';

/// It begins a line from which on a text is not read.
pub const HASH: u8 = b'#';

/// It stands before the decimals of a number.
pub const POINT: u8 = b'.';

/// It stands between the parts of a date, and between seats.
pub const SLASH: u8 = b'/';

/// It stands between hours and minutes.
pub const COLON: u8 = b':';

/// It stands between the parts of a maintenance.
pub const DASH: u8 = b'-';

/// It stands before the days that a time adds.
pub const PLUS: u8 = b'+';

/// The first of the bytes that can be seen.
pub const FIRST_VISIBLE: u8 = b'!';

/// The last of the bytes that can be seen.
pub const LAST_VISIBLE: u8 = b'~';

/// The special bytes of the code are those of the definitions.
pub fn special_bytes_are_as_defined()
    ensures space { SPACE ≡ space }
    ensures tab { TAB ≡ tab }
    ensures line_feed { LINE_FEED ≡ line_feed }
    ensures carriage_return { CARRIAGE_RETURN ≡ carriage_return }
    ensures comma { COMMA ≡ comma }
    ensures hash { HASH ≡ hash }
    ensures point { POINT ≡ point }
    ensures slash { SLASH ≡ slash }
    ensures colon { COLON ≡ colon }
    ensures dash { DASH ≡ dash }
    ensures plus { PLUS ≡ plus }
    ensures first_visible { FIRST_VISIBLE ≡ first_visible }
    ensures last_visible { LAST_VISIBLE ≡ last_visible }
{}
