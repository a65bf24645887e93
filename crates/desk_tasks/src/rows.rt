//! The rows of the input files, taken file by file.

ghost use Rattle.std.specs.Prelude.{◌≡◌, ◌<◌, ◌^◌, length, OnOk};
ghost use Rattle.desk_tasks.specs.Story.{no_rows, with_rows};
ghost use Rattle.desk_tasks.specs.Facts.{as_rows, AreInputRows};
ghost use Rattle.desk_tasks.specs.Faults.{GivesRows, IsPut};

use desk_build::Files;
use desk_folder::File;
use desk_journal::{JournalRow, read_journal};
use desk_text::ReadFault;
use desk_units::{List, Minute, Tariff};
use file_readers::{
    CrewRow, Window, read_aircraft, read_airports, read_alt_aircraft, read_alt_airports,
    read_alt_flights, read_config, read_crew, read_dist, read_feed, read_flights, read_itineraries,
    read_position, read_rotations, read_tariff, solution_grammar,
};
use std::alloc::Global;

/// The rows of the input files that were read so far.
pub(crate) struct InputRows {
    pub files: Files,
    /// The rows of crew.csv.
    pub crews: Vec<CrewRow>,
    /// The rows of journal.csv.
    pub journal: Vec<JournalRow>,
    /// The bytes of sol_rotations.csv and sol_itineraries.csv, whose lines are in their form.
    pub plan_rotations: Vec<u8>,
    pub plan_itineraries: Vec<u8>,
}

/// Dropped in one call, so that a function that owns one proves it once, and not part by part.
impl Drop for InputRows {
    fn drop(self) {
        let InputRows {
            files: _,
            crews: _,
            journal: _,
            plan_rotations: _,
            plan_itineraries: _,
        } = self;
    }
}

impl InputRows {
    /// Before any file is read: no rows, and a window of no length.
    pub(crate) fn new(alloc: Global) -> InputRows
        ensures rows { as_rows result ≡ no_rows }
        ensures facts { AreInputRows result }
    {
        let config = Window {
            from: Minute(0),
            to: Minute(0),
            line: 0,
        };
        InputRows {
            files: Files {
                config,
                flights: List(Vec::new(alloc)),
                rotations: List(Vec::new(alloc)),
                aircraft: List(Vec::new(alloc)),
                airports: List(Vec::new(alloc)),
                dist: List(Vec::new(alloc)),
                itineraries: List(Vec::new(alloc)),
                position: List(Vec::new(alloc)),
                alt_flights: List(Vec::new(alloc)),
                alt_aircraft: List(Vec::new(alloc)),
                alt_airports: List(Vec::new(alloc)),
                tariff: Tariff {
                    rows: List(Vec::new(alloc)),
                },
                feed: List(Vec::new(alloc)),
            },
            crews: Vec::new(alloc),
            journal: Vec::new(alloc),
            plan_rotations: Vec::new(alloc),
            plan_itineraries: Vec::new(alloc),
        }
    }

    /// Takes the rows of a file from its bytes, by its grammar, or gives the first line that it
    /// refuses. Of the two files that give a plan the bytes are kept, which `read_solution` reads again on
    /// the joined day, and those that were kept before are left in their place. After an error the rows are
    /// given up.
    pub(crate) fn take(
        &mut self,
        alloc: Global,
        file: File,
        kept: &mut Vec<u8>,
    ) -> Result<(), ReadFault>
        requires facts { AreInputRows self.old }
        requires small { length kept.old.items < 2 ^ 32 }
        ensures exact { GivesRows result (with_rows file kept.old.items (as_rows self.old)) (as_rows self.new) }
        ensures facts { OnOk result (AreInputRows self.new) }
    {
        let files = &mut self.files;
        let bytes = kept.as_slice();
        match file {
            File::Config => put(&mut files.config, read_config(bytes)),
            File::Flights => put_rows(&mut files.flights, read_flights(alloc, bytes)),
            File::Rotations => put_rows(&mut files.rotations, read_rotations(alloc, bytes)),
            File::Aircraft => put_rows(&mut files.aircraft, read_aircraft(alloc, bytes)),
            File::Airports => put_rows(&mut files.airports, read_airports(alloc, bytes)),
            File::Dist => put_rows(&mut files.dist, read_dist(alloc, bytes)),
            File::Itineraries => put_rows(&mut files.itineraries, read_itineraries(alloc, bytes)),
            File::Position => put_rows(&mut files.position, read_position(alloc, bytes)),
            File::AltFlights => put_rows(&mut files.alt_flights, read_alt_flights(alloc, bytes)),
            File::AltAircraft => put_rows(&mut files.alt_aircraft, read_alt_aircraft(alloc, bytes)),
            File::AltAirports => put_rows(&mut files.alt_airports, read_alt_airports(alloc, bytes)),
            File::Tariff => put(&mut files.tariff, read_tariff(alloc, bytes)),
            File::Feed => put_rows(&mut files.feed, read_feed(alloc, bytes)),
            File::Crew => put(&mut self.crews, read_crew(alloc, bytes)),
            File::Journal => put(&mut self.journal, read_journal(alloc, bytes)),
            File::SolRotations => keep(
                &mut self.plan_rotations,
                solution_grammar(alloc, file, bytes),
                kept,
            ),
            File::SolItineraries => keep(
                &mut self.plan_itineraries,
                solution_grammar(alloc, file, bytes),
                kept,
            ),
            // it is written, and never read
            File::SolAdded => Ok(()),
        }
    }
}

// Puts what was read in its place, or gives why it was not read.
fn put<T: Drop>(place: &mut T, read: Result<T, ReadFault>) -> Result<(), ReadFault>
    ensures { IsPut (λ rows. rows) result read place.new }
{
    *place = read?;
    Ok(())
}

// The same for the rows of a file.
fn put_rows<T: Drop>(place: &mut List<T>, read: Result<Vec<T>, ReadFault>) -> Result<(), ReadFault>
    ensures { IsPut (λ rows. rows.items) result read place.new }
{
    *place = List(read?);
    Ok(())
}

// Keeps the bytes of a file whose lines are in their form, or gives why they are not.
fn keep(
    place: &mut Vec<u8>,
    tried: Result<(), ReadFault>,
    bytes: &mut Vec<u8>,
) -> Result<(), ReadFault>
    ensures same { result ≡ tried }
    ensures kept { OnOk result (place.new.items ≡ bytes.old.items) }
{
    tried?;
    std::mem::swap(place, bytes);
    Ok(())
}
