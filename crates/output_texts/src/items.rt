//! The texts of legs, rows and broken items.

ghost use Rattle.std.specs.Prelude.{◌≡◌, ◌<◌, ◌++◌, OnOk, OnErr, codes};
ghost use Rattle.desk_data.specs.Situation.{legs_of, planes_of, airports_of, reservations_of, plane_at};
ghost use Rattle.desk_data.specs.Valid.{IsRowOf};
ghost use Rattle.output_texts.specs.Items.{leg_text, row_text, hour_text, reservation_text, broken_text};
ghost use Rattle.desk_text.specs.Texts.{cabin_text};
ghost use Rattle.output_texts.specs.Writable.{Names};

use desk_data::{Airport, Broken, Cabin, Instance, Leg, NoMem, Plane, Res, Row};
use desk_text::{cabin_letter, date_text, direction_letter, moment_text, push_all, two_digits};

/// Adds the rule that is broken and what breaks it, as `C2 FLIGHT DATE`, `C9 AIRCRAFT`,
/// `C10 AIRPORT DATE HH`, `C12 FLIGHT DATE CABIN` or `C13 RESERVATION TYPE`. The hour has two
/// digits, and the type is A for outbound and R for inbound. Where memory runs out, the text
/// is as before.
#[tactic(auto, unfolding(crate::specs::Items::broken_text))]
pub fn push_broken(text: &mut Vec<u8>, inst: &Instance, item: &Broken) -> Result<(), NoMem>
    requires { Names inst.now item.now }
    ensures ok { OnOk result (text.new.items ≡ text.old.items ++ broken_text inst.now item.now) }
    ensures err { OnErr result (text.new.items ≡ text.old.items) }
{
    match *item {
        Broken::C1(leg) => push_leg(text, b"C1 ", inst, leg),
        Broken::C2(leg) => push_leg(text, b"C2 ", inst, leg),
        Broken::C3(leg) => push_leg(text, b"C3 ", inst, leg),
        Broken::C4(leg) => push_leg(text, b"C4 ", inst, leg),
        Broken::C5(leg) => push_leg(text, b"C5 ", inst, leg),
        Broken::C6(leg) => push_leg(text, b"C6 ", inst, leg),
        Broken::C7(leg) => push_leg(text, b"C7 ", inst, leg),
        Broken::C8(plane) => push_plane(text, b"C8 ", inst, plane),
        Broken::C9(plane) => push_plane(text, b"C9 ", inst, plane),
        Broken::C10(airport, hour) => push_hour(text, b"C10 ", inst, airport, hour),
        Broken::C11(airport, hour) => push_hour(text, b"C11 ", inst, airport, hour),
        Broken::C12(leg, cabin) => push_cabin(text, b"C12 ", inst, leg, cabin),
        Broken::C13(res) => push_reservation(text, b"C13 ", inst, res),
        Broken::C14(res) => push_reservation(text, b"C14 ", inst, res),
        Broken::C15(res) => push_reservation(text, b"C15 ", inst, res),
    }
}

/// Adds a word and a leg.
#[tactic(auto, unfolding(crate::specs::Items::leg_text))]
pub(crate) fn push_leg(
    text: &mut Vec<u8>,
    word: &[u8],
    inst: &Instance,
    leg: Leg,
) -> Result<(), NoMem>
    requires { leg.0 < legs_of inst.now }
    ensures ok { OnOk result (
        text.new.items ≡ text.old.items ++ (word.now ++ leg_text inst.now leg.0)) }
    ensures err { OnErr result (text.new.items ≡ text.old.items) }
{
    let info = inst.leg(leg);
    let date = date_text(info.day);
    push_all(text, &[word, info.flight.as_slice(), b" ", &date])
}

/// Adds a word, a leg and a cabin.
#[tactic(auto, unfolding(crate::specs::Items::leg_text))]
pub(crate) fn push_cabin(
    text: &mut Vec<u8>,
    word: &[u8],
    inst: &Instance,
    leg: Leg,
    cabin: Cabin,
) -> Result<(), NoMem>
    requires { leg.0 < legs_of inst.now }
    ensures ok { OnOk result (
        text.new.items ≡ text.old.items
        ++ (word.now ++ leg_text inst.now leg.0 ++ codes " " ++ cabin_text cabin)) }
    ensures err { OnErr result (text.new.items ≡ text.old.items) }
{
    let info = inst.leg(leg);
    let date = date_text(info.day);
    push_all(
        text,
        &[
            word,
            info.flight.as_slice(),
            b" ",
            &date,
            b" ",
            &cabin_letter(cabin),
        ],
    )
}

/// Adds a word and an aircraft.
pub(crate) fn push_plane(
    text: &mut Vec<u8>,
    word: &[u8],
    inst: &Instance,
    plane: Plane,
) -> Result<(), NoMem>
    requires { plane.0 < planes_of inst.now }
    ensures ok { OnOk result (
        text.new.items ≡ text.old.items ++ (word.now ++ (plane_at inst.now plane.0).name)) }
    ensures err { OnErr result (text.new.items ≡ text.old.items) }
{
    push_all(text, &[word, inst.plane(plane).name.as_slice()])
}

/// Adds a word, an airport and an hour, counted from the start of day 0.
#[tactic(auto, unfolding(crate::specs::Items::hour_text))]
fn push_hour(
    text: &mut Vec<u8>,
    word: &[u8],
    inst: &Instance,
    airport: Airport,
    hour: u32,
) -> Result<(), NoMem>
    requires airport { airport.0 < airports_of inst.now }
    requires hour { hour < 876600 }
    ensures ok { OnOk result (
        text.new.items ≡ text.old.items ++ (word.now ++ hour_text inst.now airport.0 hour)) }
    ensures err { OnErr result (text.new.items ≡ text.old.items) }
{
    let name = inst.airport(airport).name.as_slice();
    let date = date_text(hour / 24);
    let hour_of_day = two_digits(hour % 24);
    push_all(text, &[word, name, b" ", &date, b" ", &hour_of_day])
}

/// Adds a word and a reservation.
#[tactic(auto, unfolding(crate::specs::Items::reservation_text))]
pub(crate) fn push_reservation(
    text: &mut Vec<u8>,
    word: &[u8],
    inst: &Instance,
    res: Res,
) -> Result<(), NoMem>
    requires { res.0 < reservations_of inst.now }
    ensures ok { OnOk result (
        text.new.items ≡ text.old.items ++ (word.now ++ reservation_text inst.now res.0)) }
    ensures err { OnErr result (text.new.items ≡ text.old.items) }
{
    let info = inst.res(res);
    push_all(
        text,
        &[
            word,
            info.name.as_slice(),
            b" ",
            &direction_letter(info.inbound),
        ],
    )
}

/// Adds the row of a leg.
#[tactic(auto, unfolding(crate::specs::Items::row_text))]
pub(crate) fn push_row(text: &mut Vec<u8>, inst: &Instance, row: Row) -> Result<(), NoMem>
    requires { IsRowOf (planes_of inst.now) row }
    ensures ok { OnOk result (text.new.items ≡ text.old.items ++ row_text inst.now row) }
    ensures err { OnErr result (text.new.items ≡ text.old.items) }
{
    match row {
        Row::Flown { plane, dep } => {
            let departure = moment_text(dep);
            push_all(
                text,
                &[b"+ ", inst.plane(plane).name.as_slice(), b" ", &departure],
            )
        }
        Row::Cancelled => push_all(text, &[b"-"]),
    }
}
