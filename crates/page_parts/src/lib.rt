//! What the page of a recovered day is made of: text and sums on it, what changed, the terms of the cost, and its tables.
//!
//! # Parts
//!
//! What stands on the page, and what it is made from.
//!
//! ## Text
//!
//! Text on a page: what stands on a page of HTML, and how names from files come there.
//!
//! A `Page` is made from its top to its end, by lists of parts (`Part`), and nothing else reaches it. A part is markup of the
//! program's own, which has to stand in its source (`&'static str`), so none that was read; a number; or bytes of any kind,
//! which are escaped.
//!
//!     let mut page = Page::new(alloc);
//!     page.put(&[Part::Own("<b title=\""), Part::Given(name), Part::Own("\">"), Part::Number(7), Part::Own("</b>")])?;
//!     // where the name is R&D "7": <b title="R&amp;D &quot;7&quot;">7</b>
//!
//! Proved: `put` adds the bytes of its parts, one after another (`part_bytes`); and by the law
//! `escaped_text_marks_nothing_up`, none of the five bytes `<`, `>`, `&`, `"` and `'` is in escaped text but as a part of an
//! entity.
//!
//! ## Moments, names and money
//!
//! Moments, names and sums of money as they are read on a page.
//!
//!     clock(&at)                   // 08:30
//!     date(&at)                    // 01/03/08
//!     put_units(&mut page, 7_305_000)?;    // 730.5000
//!     ten_thousandths(grains)      // 600,000,000 grains are 10,000
//!
//! A moment that is past the year 2099 reads as its last day. `plane_name` and the like give the name of a number of the day,
//! and no name for a number that it has not. Proved: what sums are rounded to.
//!
//! ## What changed
//!
//! What changed between two plans for a day: legs and passengers.
//!
//! `changed_legs(alloc, &inst, &before, &now)` lists each leg whose row is another one: cancelled, restored, or moved, by how
//! many minutes and whether another aircraft flies it. `changed_groups` lists each group of passengers of the second plan to
//! whose path somebody came, or of whom something else becomes: they are not carried, a leg of theirs is cancelled, or they
//! arrive more or less late. It says how many came to that path, and how many of their legs are in a lower cabin.
//!
//! Proved: both lists are those of the definitions in `specs/`, in the order of legs and of reservations; and by the law
//! `legs_are_told_where_rows_differ`, that a leg is told of just where its row is another one.
//!
//! ## The terms of a cost
//!
//! The six terms of a plan's cost, each by itself.
//!
//! `cost_terms(&inst, &plan)` gives them in grains, 600,000,000 to one unit of money: operating, delay, cancellation,
//! downgrade, legal and position. docs/RULES-AND-COST.md says what each counts. It is for whoever looks at a plan: `full_cost`
//! has their sum in one walk, and this takes about six.
//!
//! Proved: each is its term of the definition of the cost, and their sum is the cost. It takes no memory. What a group costs
//! in all, and a plan, is asked of `plan_checks`; legal and position are what is left of these.
//!
//! # Tables
//!
//! The tables of a recovered day: how it stands in a few words, what it costs term by term, which legs changed and which
//! passengers.
//!
//! `Findings` is what the tables tell: the plan beside the schedule. `put_facts`, `put_costs`, `put_legs` and `put_groups` each
//! put one part on a page; the legs and the passengers stand worst first. docs/PAGE.md has each column.
//!
//! Nothing is proved of how the tables are laid out but that the calls are safe and return: what they tell is proved where it
//! is found, in `cost_terms`, `changed_legs`, `changed_groups` and `full_check`, and all text goes through `Page`.
#![tactic(auto)]

mod amounts;
mod change_laws;
mod costs;
mod escape;
mod facts;
mod findings;
mod group_changes;
mod groups;
mod laws;
mod leg_changes;
mod legs;
mod money;
mod names;
mod page;
mod passenger_terms;
mod style;
mod terms;
mod times;

pub use change_laws::legs_are_told_where_rows_differ;
pub use costs::put_costs;
pub use facts::put_facts;
pub use findings::Findings;
pub use group_changes::{ChangedGroup, Fate, changed_groups};
pub use groups::put_groups;
pub use laws::escaped_text_marks_nothing_up;
pub use leg_changes::{ChangedLeg, LegChange, Shift, changed_legs};
pub use legs::put_legs;
pub use money::{put_units, shown_term, ten_thousandths};
pub use names::{airport_name, leg_of, plane_name, plane_of, res_of};
pub use page::{Page, Part};
pub use style::{TABLE_STYLE, put_footer};
pub use terms::{CostTerms, cost_terms};
pub use times::{clock, date, put_time};
