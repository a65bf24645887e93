//! The texts of files: those that the desk writes, and those of a day that is made up.
//!
//! # sol_rotations.csv and sol_itineraries.csv: a plan
//!
//! Lines end with LF, and fields are separated by one space. sol_rotations.csv has a line for each leg, in
//! the order of rotations.csv: `F1 01/03/08 P1 01/03/08 08:00` or `F3 01/03/08 cancelled`.
//! sol_itineraries.csv has a line for each reservation and path, as `R1 A 8 F1 01/03/08 E` or, for
//! passengers who are not carried, `R1 A 2`. The bytes of names are from 0x21 to 0x7e, so no name has a
//! space, and names stand as they are.
//!
//! `rotations_text(alloc, &inst, &plan)` and `itineraries_text(alloc, &inst, &plan)` give the bytes of the
//! whole file. Proved: they are those of the definitions in `specs/`, leg by leg and group by group.
//!
//! # The lines of a journal
//!
//! A line is `CALLER,EVENT,DETAIL,REPLY`, ended by LF: a record of a comma file. The bytes of names are
//! from 0x21 to 0x7e, a comma and a quote mark among them: a field that has one of these stands between
//! quote marks, and each quote mark in it is written twice.
//!
//!     0,batch,0,keep 192000000000
//!     1,move,push P1 after F1 01/03/08 tidy,breaks C5 F2 01/03/08
//!
//! `journal_line` gives the line of one entry, `journal_text` the bytes of a whole journal, and
//! `push_broken` adds a broken item as replies and the report give it, as `C5 F2 01/03/08`. Proved: they are
//! those of the definition in `specs/`; and by the law `legal_entries_can_be_written`, that each entry of a
//! legal history has a line.
//!
//! # Crews
//!
//! What is said of crews in a report: that they keep their rules, or the first one that is broken.
//!
//!     push_crews(&mut text, crews, None)?;                        // "ok"
//!     push_crews(&mut text, crews, Some(CrewBroken::K3(0)))?;     // "K3 NAME", the name of crew 0
//!
//! Proved: the text is that of the definition in `specs/`.
//!
//! # Added legs
//!
//! What is written of legs that are added to a plan: the lines of sol_added.csv, and those of the report.
//!
//!     push_added(&mut text, &inst, origin, leg)?;             // "P1 AAA BBB 01/03/08 11:00", and a line end
//!     push_reported(&mut text, &inst, origin, leg, cost)?;    // "added P1 AAA BBB 01/03/08 11:00 252000000000", and a line end
//!
//! Lines end with LF, and fields are separated by one space. The origin is where the leg's aircraft ends in the plan
//! (`plane_end` of added_legs), which the caller has at hand. Names have no blanks, so they stand as they are.
//!
//! Proved: the text is that of the definitions in `specs/`.
//!
//! # Days that are made up
//!
//! `generate(alloc, seed, size)` gives the thirteen input files of a day from config.csv to feed.csv, in file order, each
//! with its bytes. A day of size 1 has 6 aircraft, one of them a bus, 24 legs between a hub and three
//! outstations, and up to 40 reservations; one of size 40 has forty times as many. A delay, a breakdown
//! and a closure are known at first, and one flight is cancelled later. What differs from seed to seed is
//! drawn from the words of `Xoshiro256PlusPlus` of `rand_xoshiro`, in one order: three for each aircraft,
//! then five for each reservation.
//!
//! Proved: the texts are those of the definition in `specs/`, text by text.
#![tactic(auto)]

mod answers;
mod bookings;
mod crew_lines;
mod dates;
mod demand;
mod draws;
mod ferry_lines;
mod files;
mod fleet;
mod items;
mod itineraries;
mod lines;
mod paths;
mod quoting;
mod rotations;
mod schedule;
mod seats;
mod steps;
mod texts;

pub use added_legs::Added;
pub use answers::push_answer;
pub use crew_lines::push_crews;
pub use crew_rules::{CrewBroken, CrewInfo};
pub use desk_data::{Broken, Instance, NoMem};
pub use desk_folder::File;
pub use desk_model::{Answer, Entry, Event};
pub use ferry_lines::{push_added, push_reported};
pub use files::generate;
pub use items::push_broken;
pub use itineraries::itineraries_text;
pub use lines::{journal_line, journal_text, legal_entries_can_be_written};
pub use plan_pages::Pages;
pub use rotations::rotations_text;
