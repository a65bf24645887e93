//! The options of the commands.

ghost use Rattle.std.specs.Prelude.{◌≡◌, ◌==◌, ◌<◌, IfSome, length, position};
ghost use Rattle.std.specs.Option.{option_map};
ghost use Rattle.desk_words.specs.Arguments.{choice_of, flag_of, setting_of};

/// An option, by the number that it sets.
#[derive(Clone, Copy, PartialEq, Eq)]
pub enum NumberOption {
    Seed,
    Size,
    Workers,
    Moves,
    /// The number is 1 where it stands: its word has no value.
    Live,
    /// The same.
    Watch,
    /// The same.
    Crew,
}

/// The option that a word names, whose value is the next word.
pub(crate) fn choice_of(word: &[u8]) -> Option<NumberOption>
    ensures { result ≡ choice_of word.now }
{
    if word == b"--seed".as_slice() {
        Some(NumberOption::Seed)
    } else if word == b"--size".as_slice() {
        Some(NumberOption::Size)
    } else if word == b"--workers".as_slice() {
        Some(NumberOption::Workers)
    } else if word == b"--moves".as_slice() {
        Some(NumberOption::Moves)
    } else {
        None
    }
}

/// The option of a word that takes no value.
pub(crate) fn flag_of(word: &[u8]) -> Option<NumberOption>
    ensures { result ≡ flag_of word.now }
{
    if word == b"--live".as_slice() {
        Some(NumberOption::Live)
    } else if word == b"--watch".as_slice() {
        Some(NumberOption::Watch)
    } else if word == b"--crew".as_slice() {
        Some(NumberOption::Crew)
    } else {
        None
    }
}

// The place of the first `=`.
fn first_equals(word: &[u8]) -> Option<usize>
    ensures first { result ≡ position (λ byte. byte == 61) word.now }
    ensures within { IfSome result (λ at. at < length word.now) }
{
    word.iter().position(|byte| *byte == b'=')
}

/// The option that a word sets, with the text of its value after `=`.
#[tactic(auto, unfolding(crate::specs::Arguments::setting_of))]
pub(crate) fn setting_of(word: &[u8]) -> Option<(NumberOption, &[u8])>
    ensures { option_map (λ set. (set.0, set.1.now)) result ≡ setting_of word.now }
{
    let at = first_equals(word)?;
    let (name, _) = word.split_at(at);
    let (_, text) = word.split_at(at + 1);
    let choice = choice_of(name)?;
    Some((choice, text))
}
