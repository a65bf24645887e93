//! The command of the words.

ghost use Rattle.std.specs.Prelude.{◌≡◌, map};
ghost use Rattle.std.specs.String.{string_bytes};
ghost use Rattle.std.specs.Option.{option_map};
ghost use Rattle.desk_words.specs.declared.choice.NumberOption.TheVariants as choice;
ghost use Rattle.desk_words.specs.Commands.{Asking, command, default_of};
ghost use Rattle.desk_words.specs.Asked.{asking};
ghost use Rattle.desk_words.specs.Read.{kept_of, no_day_set, no_search_set, plain_kept, searching_kept, recovering_kept, generating_kept, trying_kept, has_crew, uncrewed_kept, asked_kept};

use crate::asked::{Asked, Command, Directories};
use crate::read::{DirectoryWords, Expected, Read, Values, first_word, nothing, read_words};

/// How many moves a recovery accepts at most after each batch, where the words don't say it.
pub const USUAL_MOVES: u32 = 1_000;

/// It is that of the definitions.
pub fn usual_moves_are_as_defined()
    ensures { USUAL_MOVES ≡ default_of choice.Moves }
{}

/// The command of these words, the program's name left out, with its directories; or `None` where they
/// are no command.
pub fn command(words: &[String]) -> Option<Asked<'_>>
    ensures { option_map asking result ≡ command (map string_bytes words.now) }
{
    match first_word(words) {
        None => None,
        Some((word, others)) => match read_words(Expected::Any, nothing(), others) {
            None => None,
            Some(read) => asked(word, read),
        },
    }
}

// What a command's word makes of the words after it.
fn asked<'a>(word: &str, read: Read<'a>) -> Option<Asked<'a>>
    ensures { option_map asking result ≡ asked_kept word.now (kept_of read.entry) }
{
    let crew = has_crew(read.values);
    match word {
        "replay" => plain(Command::Replay { crew }, read),
        "check" => plain(Command::Check { crew }, read),
        _ => uncrewed(word, read),
    }
}

// Whether the crews are to be checked.
fn has_crew(values: Values) -> bool
    ensures { result ≡ has_crew values }
{
    values.crew.unwrap_or(0) > 0
}

// What the word of a command that checks no crews makes of the words after it.
#[tactic(auto, unfolding(crate::specs::Read::uncrewed_kept))]
fn uncrewed<'a>(word: &str, read: Read<'a>) -> Option<Asked<'a>>
    ensures { option_map asking result ≡ uncrewed_kept word.now (kept_of read.entry) }
{
    if read.values.crew.is_some() {
        return None;
    }
    match word {
        "store" => plain(Command::Store, read),
        "recover" => recovering(read),
        "ferry" => plain(Command::Ferry, read),
        "gen" => generating(read),
        "trial" => trying(read),
        _ => None,
    }
}

// Whether the options of a day that is made up are not set.
fn no_day_options(values: Values) -> bool
    ensures { result ≡ no_day_set values }
{
    values.seed.is_none() && values.size.is_none()
}

// Whether those of a search are not set.
fn no_search_options(values: Values) -> bool
    ensures { result ≡ no_search_set values }
{
    values.workers.is_none()
        && values.moves.is_none()
        && values.live.is_none()
        && values.watch.is_none()
}

// A command that takes an input and an output directory, and no options of a day or of a search.
#[tactic(auto, unfolding(crate::specs::Read::plain_kept))]
fn plain<'a>(command: Command, read: Read<'a>) -> Option<Asked<'a>>
    ensures { option_map asking result ≡ plain_kept command (kept_of read.entry) }
{
    if !no_day_options(read.values) || !no_search_options(read.values) {
        return None;
    }
    match read.places {
        DirectoryWords::Two(input, output) => Some(Asked {
            command,
            directories: Some(Directories { input, output }),
        }),
        _ => None,
    }
}

// The command `recover` with these numbers, which takes no live batches and has no viewer without a worker.
fn searching(values: Values) -> Option<Command>
    ensures { result ≡ searching_kept values }
{
    let workers = values.workers.unwrap_or(0);
    let moves = values.moves.unwrap_or(USUAL_MOVES);
    let live = values.live.unwrap_or(0);
    let watch = values.watch.unwrap_or(0);
    if live > workers {
        return None;
    }
    if watch > workers {
        return None;
    }
    Some(Command::Recover {
        workers,
        moves,
        live: live > 0,
        watch: watch > 0,
    })
}

// The command `recover`.
#[tactic(auto, unfolding(crate::specs::Read::recovering_kept))]
fn recovering<'a>(read: Read<'a>) -> Option<Asked<'a>>
    ensures { option_map asking result ≡ recovering_kept (kept_of read.entry) }
{
    if !no_day_options(read.values) {
        return None;
    }
    let command = searching(read.values)?;
    match read.places {
        DirectoryWords::Two(input, output) => Some(Asked {
            command,
            directories: Some(Directories { input, output }),
        }),
        _ => None,
    }
}

// The command `gen`.
#[tactic(auto, unfolding(crate::specs::Read::generating_kept))]
fn generating<'a>(read: Read<'a>) -> Option<Asked<'a>>
    ensures { option_map asking result ≡ generating_kept (kept_of read.entry) }
{
    if !no_search_options(read.values) {
        return None;
    }
    match read.places {
        DirectoryWords::One(output) => Some(Asked {
            command: Command::Gen {
                seed: read.values.seed.unwrap_or(1),
                size: read.values.size.unwrap_or(1),
            },
            directories: Some(Directories { input: "", output }),
        }),
        _ => None,
    }
}

// The command `trial`.
#[tactic(auto, unfolding(crate::specs::Read::trying_kept))]
fn trying<'a>(read: Read<'a>) -> Option<Asked<'a>>
    ensures { option_map asking result ≡ trying_kept (kept_of read.entry) }
{
    if !no_search_options(read.values) {
        return None;
    }
    match read.places {
        DirectoryWords::Nothing => Some(Asked {
            command: Command::Trial {
                seed: read.values.seed.unwrap_or(1),
                size: read.values.size.unwrap_or(1),
            },
            directories: None,
        }),
        _ => None,
    }
}
