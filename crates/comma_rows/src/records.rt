//! The records of a comma file.

ghost use Rattle.std.specs.Prelude.{◌≡◌, true, IfOk};
ghost use Rattle.csv.specs.Reading.{error_kind, stops_reader};
ghost use Rattle.csv.specs.Records.{fields_of};
ghost use Rattle.comma_rows.specs.Records.{text_records};
ghost use Rattle.comma_rows.specs.Readers.{IsReading, NextRecord, records_left};

use csv::{ByteRecord, Error, Reader, ReaderBuilder};
use desk_units::NoMem;
use std::alloc::Global;

/// A reader of the records of these bytes: no header row, and records of any length.
pub(crate) fn records_of(alloc: Global, bytes: &[u8]) -> Reader<&[u8]>
    ensures reading { IsReading result }
    ensures exact { records_left result ≡ text_records bytes.now }
{
    ReaderBuilder::new()
        .has_headers(false)
        .flexible(true)
        .from_reader(alloc, bytes)
}

/// What an error is reported as that stops a reader: out of memory. The only other one is an error of
/// the bytes' source, which bytes in memory do not have.
fn stopped(error: &Error) -> NoMem
    requires { stops_reader (error_kind error.now) ≡ true }
{
    NoMem
}

/// Reads the next record, and says whether there was one. It fails only out of memory.
pub(crate) fn read_next(reader: &mut Reader<&[u8]>, into: &mut ByteRecord) -> Result<bool, NoMem>
    requires { IsReading reader.old }
    ensures reading { IfOk result (λ found. found ≡ true → IsReading reader.new) }
    ensures exact { IfOk result (λ found. NextRecord found (records_left reader.old) (fields_of into.new) (records_left reader.new)) }
{
    match reader.read_byte_record(into) {
        Ok(found) => Ok(found),
        Err(error) => Err(stopped(&error)),
    }
}
