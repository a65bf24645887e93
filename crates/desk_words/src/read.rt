//! Reading the words after a command.

ghost use Rattle.std.specs.Prelude.{◌≡◌, [], ◌∷◌, map, MatchOption};
ghost use Rattle.std.specs.String.{string_bytes};
ghost use Rattle.std.specs.Option.{option_map};
ghost use Rattle.desk_words.specs.Arguments.{is_directory};
ghost use Rattle.desk_words.specs.Read.{kept_of, nothing, with_place, value, with_value, first_value, with_setting, kept_after, arguments_by, after, of_any, of_word};

use crate::choice::{NumberOption, choice_of, flag_of, setting_of};
use desk_text::number;

/// The directories that were read.
#[derive(Clone, Copy)]
pub enum DirectoryWords<'a> {
    Nothing,
    One(&'a str),
    Two(&'a str, &'a str),
}

/// What is kept of the words that were read.
#[derive(Clone, Copy)]
pub struct Read<'a> {
    pub places: DirectoryWords<'a>,
    pub values: Values,
}

/// The numbers of the options that are set.
#[derive(Clone, Copy)]
pub struct Values {
    pub seed: Option<u32>,
    pub size: Option<u32>,
    pub workers: Option<u32>,
    pub moves: Option<u32>,
    pub live: Option<u32>,
    pub watch: Option<u32>,
    pub crew: Option<u32>,
}

// The number of an option, where it is set.
fn value(values: Values, choice: NumberOption) -> Option<u32>
    ensures { result ≡ value values choice }
{
    match choice {
        NumberOption::Seed => values.seed,
        NumberOption::Size => values.size,
        NumberOption::Workers => values.workers,
        NumberOption::Moves => values.moves,
        NumberOption::Live => values.live,
        NumberOption::Watch => values.watch,
        NumberOption::Crew => values.crew,
    }
}

// The numbers with that of one option more.
fn with_value(values: Values, choice: NumberOption, number: u32) -> Values
    ensures { result ≡ with_value values choice number }
{
    let number = Some(number);
    match choice {
        NumberOption::Seed => Values {
            seed: number,
            ..values
        },
        NumberOption::Size => Values {
            size: number,
            ..values
        },
        NumberOption::Workers => Values {
            workers: number,
            ..values
        },
        NumberOption::Moves => Values {
            moves: number,
            ..values
        },
        NumberOption::Live => Values {
            live: number,
            ..values
        },
        NumberOption::Watch => Values {
            watch: number,
            ..values
        },
        NumberOption::Crew => Values {
            crew: number,
            ..values
        },
    }
}

// Whether a word names a directory: it isn't empty and doesn't begin with `-`.
fn is_directory(word: &str) -> bool
    ensures { result ≡ is_directory word.now }
{
    match word.as_bytes() {
        [] => false,
        [byte, ..] => *byte != b'-',
    }
}

/// Of the first reading, of no word.
pub(crate) fn nothing<'a>() -> Read<'a>
    ensures { kept_of result ≡ nothing }
{
    Read {
        places: DirectoryWords::Nothing,
        values: Values {
            seed: None,
            size: None,
            workers: None,
            moves: None,
            live: None,
            watch: None,
            crew: None,
        },
    }
}

// One directory more, where there are not yet two.
#[tactic(auto, unfolding(crate::specs::Read::with_place))]
fn with_place<'a>(read: Read<'a>, word: &'a str) -> Option<Read<'a>>
    ensures { option_map kept_of result ≡ with_place (kept_of read.entry) word.now }
{
    let places = match read.places {
        DirectoryWords::Nothing => DirectoryWords::One(word),
        DirectoryWords::One(first) => DirectoryWords::Two(first, word),
        DirectoryWords::Two(..) => return None,
    };
    Some(Read { places, ..read })
}

// The number of an option that has none yet.
fn first_value(choice: NumberOption, value: Option<u32>, text: &[u8]) -> Option<u32>
    ensures { result ≡ first_value choice value text.now }
{
    match value {
        Some(_) => None,
        None => match choice {
            NumberOption::Seed => number(text, 0, 999_999_999).ok(),
            NumberOption::Size => number(text, 1, 40).ok(),
            NumberOption::Workers => number(text, 0, 64).ok(),
            NumberOption::Moves => number(text, 1, 100_000).ok(),
            NumberOption::Live | NumberOption::Watch | NumberOption::Crew => {
                number(text, 0, 1).ok()
            }
        },
    }
}

// An option that is set.
#[tactic(auto, unfolding(crate::specs::Read::with_setting))]
fn with_setting<'a>(read: Read<'a>, choice: NumberOption, text: &[u8]) -> Option<Read<'a>>
    ensures { option_map kept_of result ≡ with_setting (kept_of read.entry) choice text.now }
{
    let number = first_value(choice, value(read.values, choice), text)?;
    let values = with_value(read.values, choice, number);
    Some(Read { values, ..read })
}

/// What the next word may be.
#[derive(Clone, Copy)]
pub enum Expected {
    /// a directory, an option or `--`
    Any,
    /// the value of this option
    Value(NumberOption),
    /// a directory
    Place,
}

// Reads a word that may be anything but a value.
#[tactic(auto, unfolding(crate::specs::Read::of_any))]
fn read_any<'a>(read: Read<'a>, word: &'a str) -> Option<(Expected, Read<'a>)>
    ensures { option_map after result ≡ of_any (kept_of read.entry) word.now }
{
    if is_directory(word) {
        let more = with_place(read, word)?;
        return Some((Expected::Any, more));
    }
    if word == "--" {
        return Some((Expected::Place, read));
    }
    if let Some(flag) = flag_of(word.as_bytes()) {
        let more = with_setting(read, flag, b"1")?;
        return Some((Expected::Any, more));
    }
    if let Some(choice) = choice_of(word.as_bytes()) {
        return Some((Expected::Value(choice), read));
    }
    let (choice, text) = setting_of(word.as_bytes())?;
    let more = with_setting(read, choice, text)?;
    Some((Expected::Any, more))
}

// Reads a word, and says what the next one may be.
#[tactic(auto, unfolding(crate::specs::Read::of_word))]
fn read_word<'a>(expected: Expected, read: Read<'a>, word: &'a str) -> Option<(Expected, Read<'a>)>
    ensures { option_map after result ≡ of_word expected (kept_of read.entry) word.now }
{
    match expected {
        Expected::Any => read_any(read, word),
        Expected::Value(choice) => {
            let more = with_setting(read, choice, word.as_bytes())?;
            Some((Expected::Any, more))
        }
        Expected::Place => {
            if !is_directory(word) {
                return None;
            }
            let more = with_place(read, word)?;
            Some((Expected::Place, more))
        }
    }
}

// What was read, where no word is left.
#[tactic(auto, unfolding(crate::specs::Arguments::arguments_after, crate::specs::Arguments::only_places, crate::specs::Read::with_all))]
fn at_end<'a>(expected: Expected, read: Read<'a>) -> Option<Read<'a>>
    ensures { option_map kept_of result ≡ kept_after (kept_of read.entry) (arguments_by expected []) }
{
    match expected {
        Expected::Any | Expected::Place => Some(read),
        Expected::Value(_) => None,
    }
}

/// The first word and the others.
pub(crate) fn first_word(words: &[String]) -> Option<(&str, &[String])>
    ensures { MatchOption result
        (map string_bytes words.now ≡ [])
        (λ parts. map string_bytes words.now ≡ parts.0.now ∷ map string_bytes parts.1.now) }
{
    match words {
        [] => None,
        [word, others @ ..] => Some((word.as_str(), others)),
    }
}

/// Reads words, of which the first may be what is expected.
pub(crate) fn read_words<'a>(
    expected: Expected,
    read: Read<'a>,
    words: &'a [String],
) -> Option<Read<'a>>
    ensures { option_map kept_of result
        ≡ kept_after (kept_of read.entry) (arguments_by expected (map string_bytes words.now)) }
{
    match first_word(words) {
        None => at_end(expected, read),
        Some((word, others)) => match read_word(expected, read, word) {
            None => None,
            Some((next, more)) => read_words(next, more, others),
        },
    }
}
