//! The rules in a sentence each, as docs/RULES-AND-COST.md has them; `bench/help.py` compares the two.

ghost use Rattle.std.specs.Prelude.{◌≡◌, bytes_eq, find, option_map};

/// What an item of a rule names.
#[derive(Clone, Copy, PartialEq, Eq)]
pub enum ItemKind {
    /// a flight and a date
    Leg,
    /// an aircraft
    Aircraft,
    /// an airport, a date and an hour
    Hour,
    /// a flight, a date and a cabin
    Cabin,
    /// a reservation and its type
    Reservation,
    /// a crew
    Crew,
}

impl ItemKind {
    /// What stands before each name of an item.
    pub fn words(self) -> &'static [&'static str] {
        match self {
            ItemKind::Leg => &["leg ", " of "],
            ItemKind::Aircraft => &["aircraft "],
            ItemKind::Hour => &["airport ", " on ", " in hour "],
            ItemKind::Cabin => &["leg ", " of ", " in cabin "],
            ItemKind::Reservation => &["reservation ", " of type "],
            ItemKind::Crew => &["crew "],
        }
    }
}

/// A rule.
#[derive(Clone, Copy)]
pub struct Rule {
    /// its number, as `C2`
    pub number: &'static str,
    /// the word by which docs and code call it
    pub word: &'static str,
    pub item: ItemKind,
    /// what it asks for
    pub text: &'static str,
}

/// All rules of a plan, in their order, and then those of crews.
pub const RULES: &[Rule] = &[
    Rule {
        number: "C1",
        word: "due",
        item: ItemKind::Leg,
        text: "A fixed leg has the row that is due: the one with which it is frozen, if it has left; else cancelled if it is called off, and else flown by its scheduled aircraft at its earliest departure.",
    },
    Rule {
        number: "C2",
        word: "in time",
        item: ItemKind::Leg,
        text: "A leg that can be moved and is flown is not called off, and departs from its earliest to its latest departure, both included.",
    },
    Rule {
        number: "C3",
        word: "family",
        item: ItemKind::Leg,
        text: "A flown leg's aircraft is of the family of its scheduled aircraft.",
    },
    Rule {
        number: "C4",
        word: "range",
        item: ItemKind::Leg,
        text: "A flown leg's distance is at most its aircraft's range.",
    },
    Rule {
        number: "C5",
        word: "location",
        item: ItemKind::Leg,
        text: "The first leg of an aircraft leaves the airport where the aircraft stands at first, and each other leg leaves where the leg before it arrived.",
    },
    Rule {
        number: "C6",
        word: "ground time",
        item: ItemKind::Leg,
        text: "A leg departs no earlier than the leg before it on its aircraft arrived and the ground time is over.",
    },
    Rule {
        number: "C7",
        word: "service",
        item: ItemKind::Leg,
        text: "No leg meets a span in which its aircraft is out of service.",
    },
    Rule {
        number: "C8",
        word: "maintenance",
        item: ItemKind::Aircraft,
        text: "An aircraft that departs at or after the start of its maintenance has no leg that meets it, and its last leg that departs before the start arrives at the maintenance's airport; where there is no such leg, the aircraft stands there at first.",
    },
    Rule {
        number: "C9",
        word: "minutes",
        item: ItemKind::Aircraft,
        text: "The block minutes of an aircraft's legs that depart before the start of its maintenance are at most the stated minutes.",
    },
    Rule {
        number: "C10",
        word: "departures",
        item: ItemKind::Hour,
        text: "The legs that depart from an airport in an hour are at most its cap of departures.",
    },
    Rule {
        number: "C11",
        word: "arrivals",
        item: ItemKind::Hour,
        text: "The legs that arrive at an airport in an hour are at most its cap of arrivals.",
    },
    Rule {
        number: "C12",
        word: "seats",
        item: ItemKind::Cabin,
        text: "The passengers in a cabin of a flown leg are at most the seats that its aircraft has there.",
    },
    Rule {
        number: "C13",
        word: "connection",
        item: ItemKind::Reservation,
        text: "A carried path takes its passengers there: all its legs are flown, it runs from the reservation's origin to its destination, each leg goes on from the one before, and the first leaves no earlier than booked.",
    },
    Rule {
        number: "C14",
        word: "arrival",
        item: ItemKind::Reservation,
        text: "A carried path whose legs are all flown arrives at most 1,080 minutes after the booked arrival; 2,160 where the reservation's haul is intercontinental.",
    },
    Rule {
        number: "C15",
        word: "begun",
        item: ItemKind::Reservation,
        text: "A carried path begins with the legs of the scheduled path that have begun, in their cabins; some passengers have flown just those of its legs that have left, and no more are carried so than have.",
    },
    Rule {
        number: "K1",
        word: "chain",
        item: ItemKind::Crew,
        text: "The first leg leaves home, and each later one leaves where the one before arrived.",
    },
    Rule {
        number: "K2",
        word: "turn",
        item: ItemKind::Crew,
        text: "Each leg departs no earlier than the one before arrived.",
    },
    Rule {
        number: "K3",
        word: "duty",
        item: ItemKind::Crew,
        text: "In each duty the last arrival is at most the greatest duty after the first departure.",
    },
    Rule {
        number: "K4",
        word: "home",
        item: ItemKind::Crew,
        text: "The last leg arrives at home.",
    },
];

// Whether a rule has this number.
fn is_named(rule: &Rule, number: &[u8]) -> bool
    ensures { result ≡ bytes_eq rule.now.number.now number.now }
{
    rule.number.as_bytes() == number
}

/// The first of some rules that has this number, as `C2`; none where none has it.
pub fn rule_of<'a>(rules: &'a [Rule], number: &[u8]) -> Option<&'a Rule>
    ensures { option_map (λ rule. rule.now) result ≡ find (λ rule. bytes_eq rule.number.now number.now) rules.now }
{
    rules.iter().find(|rule| is_named(rule, number))
}
