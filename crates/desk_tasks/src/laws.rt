//! The headline, as laws.

ghost use Rattle.desk_tasks.specs.Runs.{World, IsWritten};
ghost use Rattle.desk_tasks.specs.Play.{Story, played};
ghost use Rattle.desk_tasks.specs.Keep.{kept};
ghost use Rattle.desk_tasks.specs.Crew.{CrewedStory, played_crews};
ghost use Rattle.desk_tasks.specs.Recover.{Recovery, recovered, tried};
ghost use Rattle.std.specs.Prelude.{◌≡◌, ℕ};
ghost use Rattle.desk_tasks.specs.Team.{TeamRecovery, Work, IsTeamWork, recovered_by_team};
ghost use Rattle.desk_tasks.specs.Tasks.{Task, team_size, IsWorkOf, outcome, outcome_at, IsRunnable, IsRecoverable, IsSound};
ghost use Rattle.desk_tasks.specs.Headline.{HasHeadline, HasKept, HasCrewed, HasRecovered, HasTried, HasTeamRecovered, HasFerried};
ghost use Rattle.desk_data.specs.Situation.{Situation};
ghost use Rattle.desk_data.specs.PlanRows.{PlanRows};
ghost use Rattle.desk_data.specs.Valid.{IsPlanFor};
ghost use Rattle.added_legs.specs.Ferried.{IsFerried};
ghost use Rattle.desk_tasks.specs.Judge.{Judged};
ghost use Rattle.desk_tasks.specs.Ferry.{ferried, ferried_plan};

/// Whoever has written all that a story comes to, whose events can be asked on its day, keeps the
/// promise of the desk.
pub fn played_stories_carry_the_headline()
    ensures { (before : World) → (now : World) → (story : Story) → IsRunnable story →
        IsWritten before now (played story).texts → HasHeadline before now story }
{}

/// So does whoever has written all that a story comes to that is kept on a disk: the journal is that of the same
/// history, and the report begins with how many entries the disk held.
pub fn kept_stories_carry_the_headline()
    ensures { (before : World) → (now : World) → (story : Story) → (held : ℕ) → IsRunnable story →
        IsWritten before now (kept held story).texts → HasKept before now story held }
{}

/// So does whoever has written all that a story comes to that is played beside its crews: the journal is that of the same
/// history, and the report has a line for the crews of each plan that a change left.
pub fn crewed_stories_carry_the_headline()
    ensures { (before : World) → (now : World) → (story : CrewedStory) → IsRunnable story.story →
        IsWritten before now (played_crews story).texts → HasCrewed before now story }
{}

/// So does whoever has written all that a recovery comes to, whose batches can be taken on its day: after
/// each batch stands exactly the descent, and the report says why the last one ended. Of a trial the
/// report says the same, and nothing else is written.
pub fn recoveries_carry_the_headline()
    ensures recovered { (before : World) → (now : World) → (r : Recovery) → IsRecoverable r →
        IsWritten before now (recovered r).texts → HasRecovered before now r }
    ensures tried { (before : World) → (now : World) → (r : Recovery) → IsRecoverable r →
        IsWritten before now (tried r).texts → HasTried before now r }
{}

/// Where a team made a history of a day, and whoever writes has written all that it comes to, the history keeps
/// all that is promised of a team: it is legal, its batches are those of the day, each proposal is the first better
/// move of its worker's shard, and its last plan and why its search ended are written.
pub fn recoveries_by_teams_carry_the_headline()
    ensures { (before : World) → (now : World) → (t : TeamRecovery) → (work : Work) → IsTeamWork t work →
        IsWritten before now (recovered_by_team t work).texts → HasTeamRecovered before now t work }
{}

/// There always is a list of legs that `ferry` adds, and it is `ferried`: each leg is the first candidate that lowers the cost,
/// after those before it, and after the last one no candidate lowers it further.
pub fn the_legs_that_are_added_are_ferried()
    ensures { (I : Situation) → (P : PlanRows) → IsFerried I P (ferried I P) }
{}

/// Whoever has written all that adding legs to a plan comes to has written these legs, in their order, where the plan breaks no
/// rule: each of them lowered the cost, and with it no rule is broken; and nothing that is scheduled was touched. Where the plan
/// breaks a rule, the report of a check was written, and nothing of sol_added.csv.
pub fn plans_with_added_legs_carry_the_headline()
    ensures { (before : World) → (now : World) → (judged : Judged) → IsPlanFor judged.day judged.plan →
        IsWritten before now (ferried_plan judged).texts → HasFerried before now judged }
{}

/// A run of a task that asks for no worker has one work, and at it the task comes to its outcome and to nothing else.
pub fn tasks_come_to_one_outcome()
    ensures work { (task : Task) → (work : Work) → (other : Work) → IsSound task → team_size task ≡ 0 →
        IsWorkOf task work → IsWorkOf task other → work ≡ other }
    ensures outcome { (task : Task) → (work : Work) → IsSound task → team_size task ≡ 0 →
        IsWorkOf task work → outcome_at work task ≡ outcome task }
{}
