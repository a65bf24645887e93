//! The tokens of a move's steps.

ghost use Rattle.desk_journal.specs.Journal.{full_tokens};

use crate::TokenForm;
use desk_text::{Cause, date, minute, name};
use desk_units::Name;

/// The form of the tokens: a name is 1 to 32 bytes, a date and a time are as in the text files, and no
/// time adds days.
pub(crate) struct FullTokens;

impl TokenForm for FullTokens {
    ghost readers = { λ _. full_tokens };

    fn name(&self, token: &[u8]) -> Result<Name, Cause> {
        name(token)
    }

    fn date(&self, token: &[u8]) -> Result<u32, Cause> {
        date(token)
    }

    fn time(&self, token: &[u8]) -> Result<u32, Cause> {
        minute(token)
    }
}
