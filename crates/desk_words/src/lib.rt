//! The words of the program, and what it says to who asks for help.
//!
//! # Words
//!
//! The words of the program.
//!
//! A command stands first, then its directories and options in any order. An option's value is the
//! next word or follows `=`; `--live`, `--watch` and `--crew` have none, and the first two need at least 1 worker. After a
//! word `--` all words are directories. An option stands at most once; a directory isn't empty and doesn't begin with `-`.
//! All else is a usage refusal, a call for help among it.
//!
//!     replay IN OUT [--crew]
//!     store IN OUT
//!     recover IN OUT [--workers 0 to 64] [--moves 1 to 100000] [--live] [--watch]    // 0 and 1000 if it isn't there
//!     check IN OUT [--crew]
//!     ferry IN OUT
//!     gen OUT [--seed 0 to 999999999] [--size 1 to 40]      // each 1 if it isn't there
//!     trial [--seed 0 to 999999999] [--size 1 to 40]
//!
//! `command(words)` gives the command and its directories, or `None`. Proved: it is that of the
//! definition in `specs/`, by the bytes of the words. It takes no memory.
//!
//! # Help
//!
//! What the end of a run means, for whoever reads it: the explanations on standard error.
//!
//! `explain` makes them of the words, the status and the report, and `CopyingSink` keeps a copy of the report for it while it
//! is printed. The tables are data: `USAGE`, the causes of each file (`causes_of_lines`, `causes_of_the_whole`) and `RULES`.
//! docs/REFUSALS.md and docs/RULES-AND-COST.md show the last two, and `bench/help.py` compares them; the stored run of
//! desk_rows has an explanation for each cause.
//!
//!     explain(alloc, &words, 3, b"refused config.csv 1 Date\n")
//!     // config.csv, line 1: a DATE is not dd/mm/yy or dd/mm/yyyy, or there is no such day from 01/01/2000 to 31/12/2099.
//!     // See "config.csv" in docs/FORMATS.md.
//!
//! Proved: no byte but line feeds and those from the space to `~` is in an explanation (`ShownText`); what `text_of` finds for
//! a cause is the first row with it; a copy is what the sink took, or there is none. Which table is asked, and which words
//! stand between the parts, is tested alone. The
//! explanations parse no input: what they read of the report is what this program wrote.
#![tactic(auto)]

mod asked;
mod causes;
mod choice;
mod crew_causes;
mod day_causes;
mod explanation;
mod kept;
mod order_causes;
mod path;
mod plan_causes;
mod read;
mod report;
mod rules;
mod shown;
mod usage;
mod words;

pub use asked::{Asked, Command, Directories};
pub use causes::{CauseRow, causes_of_lines, causes_of_the_whole, section_of, text_of};
pub use explanation::explain;
pub use kept::{CopyingSink, MOST_KEPT};
pub use path::faulty_path;
pub use rules::{ItemKind, RULES, Rule, rule_of};
pub use shown::ShownText;
pub use usage::USAGE;
pub use words::{USUAL_MOVES, command, usual_moves_are_as_defined};
