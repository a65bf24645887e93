//! Dates as they stand in the lines: after a space, and with what follows. Those of the last day are kept,
//! since a file mostly names one day many times in a row.

ghost use Rattle.std.specs.Prelude.{◌≡◌, ◌<◌, ◌++◌, codes};
ghost use Rattle.desk_text.specs.Texts.{date_text, cabin_text};

use desk_data::Cabin;
use desk_text::date_text;

/// A date between two spaces.
#[tactic(auto, unfolding(desk_text::specs::Texts::date_text))]
fn date_in_spaces(day: u32) -> [u8; 10]
    requires { day < 36525 }
    ensures { result ≡ codes " " ++ date_text day ++ codes " " }
{
    let mut text = [b' '; 10];
    text[1..9].copy_from_slice(&date_text(day));
    text
}

/// A date between two spaces, with cabin F after it.
#[tactic(auto, unfolding(desk_text::specs::Texts::date_text))]
fn date_first(day: u32) -> [u8; 11]
    requires { day < 36525 }
    ensures { result ≡ codes " " ++ date_text day ++ codes " F" }
{
    let mut text = *b"          F";
    text[1..9].copy_from_slice(&date_text(day));
    text
}

/// A date between two spaces, with cabin B after it.
#[tactic(auto, unfolding(desk_text::specs::Texts::date_text))]
fn date_business(day: u32) -> [u8; 11]
    requires { day < 36525 }
    ensures { result ≡ codes " " ++ date_text day ++ codes " B" }
{
    let mut text = *b"          B";
    text[1..9].copy_from_slice(&date_text(day));
    text
}

/// A date between two spaces, with cabin E after it.
#[tactic(auto, unfolding(desk_text::specs::Texts::date_text))]
fn date_economy(day: u32) -> [u8; 11]
    requires { day < 36525 }
    ensures { result ≡ codes " " ++ date_text day ++ codes " E" }
{
    let mut text = *b"          E";
    text[1..9].copy_from_slice(&date_text(day));
    text
}

/// A day and its date between two spaces, kept from one call to the next.
#[derive(Clone, Copy)]
pub(crate) struct SpacedDate {
    day: u32,
    text: [u8; 10],
    ghost is: { text ≡ codes " " ++ date_text day ++ codes " " },
}

impl SpacedDate {
    /// That of 2000-01-01.
    pub(crate) fn new() -> SpacedDate {
        let text = date_in_spaces(0);
        SpacedDate { day: 0, text }
    }

    /// The date of a day between two spaces. That of the last day is kept.
    pub(crate) fn text(&mut self, day: u32) -> [u8; 10]
        requires { day < 36525 }
        ensures { result ≡ codes " " ++ date_text day ++ codes " " }
    {
        if self.day != day {
            let text = date_in_spaces(day);
            *self = SpacedDate { day, text };
        }
        self.text
    }
}

/// A day and its date between two spaces with each cabin after it, kept from one call to the next.
#[derive(Clone, Copy)]
pub(crate) struct SeatDates {
    day: u32,
    first: [u8; 11],
    business: [u8; 11],
    economy: [u8; 11],
    ghost first_is: { first ≡ codes " " ++ date_text day ++ codes " F" },
    ghost business_is: { business ≡ codes " " ++ date_text day ++ codes " B" },
    ghost economy_is: { economy ≡ codes " " ++ date_text day ++ codes " E" },
}

impl SeatDates {
    /// Those of a day.
    fn of(day: u32) -> SeatDates
        requires { day < 36525 }
        ensures { result.day ≡ day }
    {
        let first = date_first(day);
        let business = date_business(day);
        let economy = date_economy(day);
        SeatDates {
            day,
            first,
            business,
            economy,
        }
    }

    /// Those of 2000-01-01.
    pub(crate) fn new() -> SeatDates {
        SeatDates::of(0)
    }

    /// The date of a day and a cabin, each after a space. Those of the last day are kept.
    pub(crate) fn text(&mut self, day: u32, cabin: Cabin) -> [u8; 11]
        requires { day < 36525 }
        ensures { result ≡ codes " " ++ date_text day ++ codes " " ++ cabin_text cabin }
    {
        if self.day != day {
            *self = SeatDates::of(day);
        }
        match cabin {
            Cabin::F => self.first,
            Cabin::B => self.business,
            Cabin::E => self.economy,
        }
    }
}
