//! The files of the desk's folder.
ghost use Rattle.std.specs.Prelude.{◌≡◌, ◌<◌, [], ◌∷◌, ◌++◌};
ghost use Rattle.desk_folder.specs.declared.files.File.TheVariants as file;
ghost use Rattle.desk_folder.specs.Files.{file_name, file_number, is_solution, may_be_missing, day_files, plan_files};

use std::fmt;

/// The files of a folder, in file order: the order in which they are read and then written.
#[derive(Clone, Copy, Debug, PartialEq, Eq)]
pub enum File {
    /// the recovery window
    Config,
    /// the flights of the schedule
    Flights,
    /// which aircraft flies which flight
    Rotations,
    /// the aircraft
    Aircraft,
    /// the airports and their hourly caps
    Airports,
    /// the distances between airports
    Dist,
    /// the passengers' itineraries
    Itineraries,
    /// where aircraft have to stand at the window's end
    Position,
    /// the flights' delays and cancellations known at the start
    AltFlights,
    /// the aircraft out of service at the start
    AltAircraft,
    /// the airports' reduced caps at the start
    AltAirports,
    /// the prices of the recovery
    Tariff,
    /// the batches of orders that become known later
    Feed,
    /// the crews, with the legs that each works
    Crew,
    /// the events of the desk, read and written
    Journal,
    /// the aircraft's rotations in a plan
    SolRotations,
    /// the passengers' paths in a plan
    SolItineraries,
    /// the legs that a plan adds to bring its aircraft home
    SolAdded,
}

/// How many files there are.
pub const FILES: usize = 18;

// The files that give a day and its disruptions, in file order, and these after them.
macro_rules! day_files_and {
    ($($more:expr),*) => {
        [
            File::Config,
            File::Flights,
            File::Rotations,
            File::Aircraft,
            File::Airports,
            File::Dist,
            File::Itineraries,
            File::Position,
            File::AltFlights,
            File::AltAircraft,
            File::AltAirports,
            File::Tariff,
            File::Feed,
            $($more),*
        ]
    };
}

/// The files that give a day and its disruptions, in file order.
pub const DAY_FILES: [File; 13] = day_files_and!();

/// These and the journal.
pub const DAY_AND_JOURNAL: [File; 14] = day_files_and!(File::Journal);

/// The files of the day and those of a plan.
pub const DAY_AND_PLAN: [File; 15] = day_files_and!(File::SolRotations, File::SolItineraries);

/// All files, in file order.
pub const ALL_FILES: [File; FILES] = day_files_and!(
    File::Crew,
    File::Journal,
    File::SolRotations,
    File::SolItineraries,
    File::SolAdded
);

/// The lists of the code are those of the definitions.
pub fn day_files_are_as_defined()
    ensures day { DAY_FILES ≡ day_files }
    ensures with_journal { DAY_AND_JOURNAL ≡ day_files ++ file.Journal ∷ [] }
    ensures with_plan { DAY_AND_PLAN ≡ day_files ++ plan_files }
    ensures all { ALL_FILES ≡ day_files ++ file.Crew ∷ file.Journal ∷ plan_files ++ file.SolAdded ∷ [] }
{}

impl File {
    /// The file's name in its directory.
    pub fn name(self) -> &'static str
        ensures { result.now ≡ file_name self }
    {
        match self {
            File::Config => "config.csv",
            File::Flights => "flights.csv",
            File::Rotations => "rotations.csv",
            File::Aircraft => "aircraft.csv",
            File::Airports => "airports.csv",
            File::Dist => "dist.csv",
            File::Itineraries => "itineraries.csv",
            File::Position => "position.csv",
            File::AltFlights => "alt_flights.csv",
            File::AltAircraft => "alt_aircraft.csv",
            File::AltAirports => "alt_airports.csv",
            File::Tariff => "tariff.csv",
            File::Feed => "feed.csv",
            File::Crew => "crew.csv",
            File::Journal => "journal.csv",
            File::SolRotations => "sol_rotations.csv",
            File::SolItineraries => "sol_itineraries.csv",
            File::SolAdded => "sol_added.csv",
        }
    }

    /// The file's place in file order, counted from 0.
    pub fn number(self) -> usize
        ensures place { result ≡ file_number self }
        ensures within { result < FILES }
    {
        match self {
            File::Config => 0,
            File::Flights => 1,
            File::Rotations => 2,
            File::Aircraft => 3,
            File::Airports => 4,
            File::Dist => 5,
            File::Itineraries => 6,
            File::Position => 7,
            File::AltFlights => 8,
            File::AltAircraft => 9,
            File::AltAirports => 10,
            File::Tariff => 11,
            File::Feed => 12,
            File::Crew => 13,
            File::Journal => 14,
            File::SolRotations => 15,
            File::SolItineraries => 16,
            File::SolAdded => 17,
        }
    }

    /// Whether the file is one of the two that hold a plan, which are read from the output directory.
    pub fn is_solution(self) -> bool
        ensures { result ≡ is_solution self }
    {
        matches!(self, File::SolRotations | File::SolItineraries)
    }

    /// Whether a missing file reads as empty.
    pub fn may_be_missing(self) -> bool
        ensures { result ≡ may_be_missing self }
    {
        matches!(self, File::Feed | File::Journal)
    }
}

impl fmt::Display for File {
    ghost use Rattle.std.specs.Prelude.{Some};
    ghost use Rattle.desk_folder.specs.Files.{file_name};

    ghost output = { λ file. Some (file_name file) };

    fn fmt<W: fmt::Write>(&self, f: &mut fmt::Formatter<W>) -> fmt::Result {
        f.write_str(self.name())
    }
}
