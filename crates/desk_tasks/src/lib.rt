//! What each command is to do: what its input asks for, what that comes to, and the commands that judge a plan.
//!
//! # Runs
//!
//! What a run of the desk is, for any command: the files that it reads and writes, its endings and the line
//! that names them, and the writing of what came of it.
//!
//! `files_read` and `files_written` are the files of a command, `Ending` is how a run ends, with its status,
//! `fault_text` the line that names it, and `put_outputs` writes texts, each into its file, and the report
//! after them. `Refusal` is the first refusal of the input: file, line and cause.
//!
//! The definitions say what a run has read and written by its ending (`Runs`), over what its inputs mean
//! (`Meaning`): the task that they set a command, and the `Outcome` of that task, with a status, texts of
//! files and a report. The laws in `proofs/` make of that what `desk_main` promises, once for all commands. They
//! hold of any meaning, so they speak neither of readers nor of what judges. A command more is a line in each list of files.
//!
//! # Tasks
//!
//! What the commands of the desk are to do, and what that comes to.
//!
//! A task is what the input of a command asks for, once it is accepted: to play a story, to recover a day, by the
//! desk alone or by a team, or to try that, to judge a plan, to add legs to one, or to generate a day. The definitions give the outcome
//! of each: its status, the texts of files, in the order in which they are written, and the report. Another command
//! is a task more, or a use of one of these. What a team comes to depends on the history that it makes, its `Work`;
//! each other task has one outcome.
//!
//! The code of `laws.rt` is the headline of the desk as laws, public functions with
//! empty bodies: a story that was played, and all of whose texts are written, has written the journal of a
//! legal history of its events, in which each published plan meets the rules, and the last plan of it; and a
//! day that was recovered has written the same of the history in which a descent follows each batch. Of legs that are added to
//! a plan they say which these are: each lowers the cost and breaks no rule, and nothing scheduled is touched.
//!
//! # Plans that are handed in
//!
//! They are checked, judged, and given further legs.
//!
//! ## A check in four threads
//!
//! The check of a plan against the rules C1 to C15, of a large day in four threads, each with a part of it.
//!
//!     match par_check(rt, alloc, &inst, &plan)? {
//!         None => ..,                 // the plan breaks no rule
//!         Some(item) => ..,           // the first item that it breaks, as C5 of a leg
//!     }
//!
//! It answers what `full_check` answers, whatever the number of threads. Four threads share the work: one asks the rules of rotations, one
//! counts the departures in each hour of an airport, one the arrivals and one the seats, and each asks a piece of the reservations for the
//! rules of paths, so long that each has a quarter of all. On one processor, and of a day that `is_large` does not call large, it
//! is `full_check` itself.
//!
//! Proved: the answer is `least` of desk_rules, the first broken item of all in the order of rules and of what they name. That the
//! work runs side by side no clause says.
//!
//! ## Judging
//!
//! Judging a plan: what it breaks first, and what it costs.
//!
//! `judge_plan` checks a plan against the rules, of a large day in four threads, sums up its cost, and writes the report of both: `feasible`
//! or `broken ITEM`, and `cost COST`. `judge_crews` reports what the crews break first besides. They write no file. `judged` and
//! `verdict_report` are their steps, for whoever goes on with a plan that breaks no rule.
//!
//! Proved: what is written is the `verdict` of that day and plan, or the `crewed_verdict` with its crews, or a beginning of it, with
//! the call that failed.
//!
//! ## Adding legs
//!
//! Adding legs to a plan: what it breaks first, the legs that are added where it breaks nothing, and what it costs with them.
//!
//! `run_ferry` judges a plan as a check does. Where it breaks no rule, it asks `ferry` of ferry_legs which legs are added, writes
//! them to sol_added.csv, and reports them with the cost; else it writes the report of a check, and no file.
//!
//! Proved: what is written is the `ferry_outcome` of that day and plan, or a beginning of it, with the call that
//! failed.
//!
//! # The input
//!
//! The files of a command are read in file order, each by its own grammar, and their rows
//! become what the command is to do, or the first refusal.
//!
//! `read_task(alloc, &command, &mut folder)` goes through the files of the command: each is read to its
//! end, and its reader makes rows of its bytes or refuses it, before the next one is opened. Then `build` of
//! desk_build makes numbers of names and gives the batches of a recovery, and the journal becomes a story, by
//! `join_journal` of file_joins, or the files of a plan become a plan, by `read_solution` of file_joins; before these the crews become those of the day, by `join_crew` of file_joins. The
//! texts of a day that is made up to be tried are read in the same way, without a folder. A file more is a line
//! in the command's list and a reader; the reading itself is proved once for any list.
//!
//! Proved: the task is that of the definition `task_of` over the bytes of the files, or its first refusal
//! is reported; no file is read after one that is refused, and no file that is not on the list is touched.
#![tactic(auto)]

mod crews;
mod ending;
mod fault;
mod files;
mod judge;
mod keep;
mod laws;
mod least;
mod line;
mod paths;
mod pieces;
mod plan;
mod recovery;
mod refusal;
mod rows;
mod run;
mod story;
mod story_files;
mod task;
mod texts;
mod write;

pub use crews::{InputCrewedPlan, InputCrewedStory};
pub use ending::{DiskEnd, Ending};
pub use fault::StoryFault;
pub use files::{files_read, files_written};
pub use judge::{Findings, judge_crews, judge_plan, judged, verdict_report};
pub use keep::{InputKept, read_kept};
pub use laws::{
    kept_stories_carry_the_headline, plans_with_added_legs_carry_the_headline,
    played_stories_carry_the_headline, recoveries_by_teams_carry_the_headline,
    recoveries_carry_the_headline, tasks_come_to_one_outcome, the_legs_that_are_added_are_ferried,
};
pub use least::{is_large, par_check};
pub use line::fault_text;
pub use near_moves::SearchEnd;
pub use plan::InputPlan;
pub use recovery::InputRecovery;
pub use refusal::{Cause, Refusal};
pub use run::run_ferry;
pub use story::InputStory;
pub use task::{InputTask, read_task};
pub use write::{OutputTexts, put_outputs};
