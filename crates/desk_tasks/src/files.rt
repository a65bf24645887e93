//! The files that each command reads and writes.

ghost use Rattle.std.specs.Prelude.{◌≡◌};
ghost use Rattle.desk_tasks.specs.Commands.{files_read, files_written};

use desk_folder::{DAY_AND_JOURNAL, DAY_AND_PLAN, DAY_FILES, File};
use desk_words::Command;

// The files that say what a history came to.
const HISTORY_FILES: [File; 3] = [File::SolRotations, File::SolItineraries, File::Journal];

// The files of the day and its crews, and the journal.
const DAY_CREWS_AND_JOURNAL: [File; 15] = [
    File::Config,
    File::Flights,
    File::Rotations,
    File::Aircraft,
    File::Airports,
    File::Dist,
    File::Itineraries,
    File::Position,
    File::AltFlights,
    File::AltAircraft,
    File::AltAirports,
    File::Tariff,
    File::Feed,
    File::Crew,
    File::Journal,
];

// The files of the day and its crews, and those of a plan.
const DAY_CREWS_AND_PLAN: [File; 16] = [
    File::Config,
    File::Flights,
    File::Rotations,
    File::Aircraft,
    File::Airports,
    File::Dist,
    File::Itineraries,
    File::Position,
    File::AltFlights,
    File::AltAircraft,
    File::AltAirports,
    File::Tariff,
    File::Feed,
    File::Crew,
    File::SolRotations,
    File::SolItineraries,
];

/// The files that a command reads, in file order.
pub fn files_read(command: &Command) -> &'static [File]
    ensures { result.now ≡ files_read command.now }
{
    match command {
        Command::Replay { crew: true } => &DAY_CREWS_AND_JOURNAL,
        Command::Replay { crew: false } | Command::Store => &DAY_AND_JOURNAL,
        Command::Recover { .. } => &DAY_FILES,
        Command::Check { crew: true } => &DAY_CREWS_AND_PLAN,
        Command::Check { crew: false } | Command::Ferry => &DAY_AND_PLAN,
        Command::Gen { .. } | Command::Trial { .. } => &[],
    }
}

/// The files that a command may write, in the order in which it writes them.
pub fn files_written(command: &Command) -> &'static [File]
    ensures { result.now ≡ files_written command.now }
{
    match command {
        Command::Replay { .. } | Command::Store | Command::Recover { .. } => &HISTORY_FILES,
        Command::Check { .. } | Command::Trial { .. } => &[],
        Command::Ferry => &[File::SolAdded],
        Command::Gen { .. } => &DAY_FILES,
    }
}
