//! The vote of searchers.

ghost use Rattle.std.specs.Prelude.{◌≡◌, ◌≤◌, ℕ, Some, None, IfSome, []};
ghost use Rattle.desk_teams.specs.declared.report.Vote.TheVariants as vote;
ghost use Rattle.desk_teams.specs.Votes.{MostChanges, HasVote, HasNoVote};

use crate::report::{End, Report, Vote};

/// The most changes that a report has; of no reports 0.
fn last_changes(reports: &[Report]) -> u32
    ensures most { MostChanges reports.now result }
    ensures least { (n : ℕ) → MostChanges reports.now n → result ≤ n }
{
    let mut last = 0;
    for report in reports {
        if report.changes > last {
            last = report.changes;
        }
    }
    last
}

/// What searchers agree on at the last plan that one of them saw, if they do: that of the most changes. One that reports of it
/// that there is no plan, or that the history is spent, speaks for all. It is quiet where all report of it that their shard is.
/// `None` where none of this holds. Where there is no report, it is quiet after 0 changes.
pub fn vote_on(reports: &[Report]) -> Option<Vote>
    ensures agreed { IfSome result (HasVote reports.now) }
    ensures none { result ≡ None → HasNoVote reports.now }
    ensures empty { reports.now ≡ [] → result ≡ Some (vote.Quiet 0) }
{
    let last = last_changes(reports);
    let mut are_quiet = true;
    for report in reports {
        if report.changes != last {
            are_quiet = false;
        } else {
            match report.end {
                End::NoPlan(item) => return Some(Vote::NoPlan(item)),
                End::Spent => return Some(Vote::Spent),
                End::Quiet => {}
                End::Answered => are_quiet = false,
            }
        }
    }
    if are_quiet {
        Some(Vote::Quiet { changes: last })
    } else {
        None
    }
}
