//! Whether a move takes one Tidy, and then Refills alone.

ghost use Rattle.std.specs.Prelude.{◌≡◌, ◌∷◌, List as Items, true};
ghost use Rattle.std.specs.Option.{ForSome};
ghost use Rattle.plan_moves.specs.declared.moves.Step.{Step};
ghost use Rattle.near_priced.specs.Saved.{goes_on, tidies_once};

use plan_moves::Step;

/// Whether some steps are Sets, Pushes and Swaps, then one Tidy, and Refills after it.
pub(crate) fn tidies_once(steps: &[Step]) -> bool
    ensures { result ≡ true → tidies_once steps.now ≡ true }
{
    let mut tidied = false;
    for step in steps {
        match after_step(tidied, step) {
            Some(next) => tidied = next,
            None => return false,
        }
    }
    tidied
}

/// Whether the Tidy was taken once a step more was, if the step may stand there.
fn after_step(tidied: bool, step: &Step) -> Option<bool>
    ensures { ForSome result (λ next. (steps : Items Step) → goes_on tidied (step.now ∷ steps) ≡ goes_on next steps) }
{
    match step {
        Step::Set { .. } | Step::Push { .. } | Step::Swap { .. } => {
            if tidied { None } else { Some(false) }
        }
        Step::Tidy => { if tidied { None } else { Some(true) } }
        Step::Refill { .. } => { if tidied { Some(true) } else { None } }
        Step::Rebook { .. } => None,
    }
}
