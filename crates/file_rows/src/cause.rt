//! Why a row is refused.

ghost use Rattle.std.specs.Prelude.{◌≡◌, Some};
ghost use Rattle.file_rows.specs.Causes.{cause_name};

use std::fmt;

/// Why a line of a file, or a file as a whole, is refused.
#[derive(Clone, Copy, Debug, PartialEq, Eq)]
pub enum Cause {
    /// A name that is not 1 to 32 bytes, or a file that has more bytes than its limit.
    Size,
    /// A byte that no line may have.
    Byte,
    /// Fields are missing, or the last group of fields is not whole.
    Fields,
    /// A number, a price, a weight or seats that are not in their form or their range.
    Number,
    /// A date that is not in its form, or a day that does not exist.
    Date,
    /// A time that is not in its form, or that is not between its bounds.
    Time,
    /// A word that is none of the listed ones.
    Word,
    /// A name that stands nowhere.
    Unknown,
    /// A row that repeats what a row before has.
    Twice,
    /// No distance between two airports.
    NoDistance,
    /// A row or a number past its limit.
    Limit,
    /// A previous flight that is none, or that ends elsewhere.
    BadPrev,
    /// A window that does not end after its start, or a moment before that of the batch before.
    BadWindow,
    /// A batch that is not the next one, or whose moment is told after another row of it.
    Batch,
    /// A move that is not of 1 to 16 steps, or that departs too late.
    Move,
    /// Counts that do not sum to the count of their reservation.
    Count,
    /// A leg that no line is about.
    Missing,
}

impl Cause {
    /// Its name, as it is printed.
    pub fn name(self) -> &'static str
        ensures { result.now ≡ cause_name self }
    {
        match self {
            Cause::Size => "Size",
            Cause::Byte => "Byte",
            Cause::Fields => "Fields",
            Cause::Number => "Number",
            Cause::Date => "Date",
            Cause::Time => "Time",
            Cause::Word => "Word",
            Cause::Unknown => "Unknown",
            Cause::Twice => "Twice",
            Cause::NoDistance => "NoDistance",
            Cause::Limit => "Limit",
            Cause::BadPrev => "BadPrev",
            Cause::BadWindow => "BadWindow",
            Cause::Batch => "Batch",
            Cause::Move => "Move",
            Cause::Count => "Count",
            Cause::Missing => "Missing",
        }
    }
}

impl fmt::Display for Cause {
    ghost output = { λ cause. Some (cause_name cause) };

    fn fmt<W: fmt::Write>(&self, f: &mut fmt::Formatter<W>) -> fmt::Result {
        f.write_str(self.name())
    }
}
