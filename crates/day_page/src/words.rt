//! The words of the program.

ghost use Rattle.std.specs.Prelude.{◌≡◌, map};
ghost use Rattle.std.specs.String.{string_bytes};
ghost use Rattle.std.specs.Option.{option_map};
ghost use Rattle.day_page.specs.Words.{directories, is_directory};

use desk_words::Directories;

// Whether a word names a directory.
fn is_directory(word: &str) -> bool
    ensures { result ≡ is_directory word.now }
{
    match word.as_bytes() {
        [] => false,
        [first, ..] => *first != b'-',
    }
}

/// The directories of the day and of its plan, where the words are just these two: neither is empty or begins with `-`.
pub fn directories(words: &[String]) -> Option<Directories<'_>>
    ensures { option_map (λ d. record { input = d.input.now; output = d.output.now }) result ≡ directories (map string_bytes words.now) }
{
    match words {
        [input, output] if is_directory(input.as_str()) && is_directory(output.as_str()) => {
            Some(Directories {
                input: input.as_str(),
                output: output.as_str(),
            })
        }
        _ => None,
    }
}
