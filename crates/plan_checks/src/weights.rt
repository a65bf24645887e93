//! The weights of the terms that passengers cost.

ghost use Rattle.std.specs.Prelude.{◌≡◌};
ghost use Rattle.plan_checks.specs.Weighed.{IsWeight, AreWeights};

use desk_data::{Instance, Term, Weight};

/// The weights of the terms that passengers cost.
#[derive(Clone, Copy)]
pub(crate) struct Weights {
    pub delay: Weight,
    pub cancellation: Weight,
    pub downgrade: Weight,
    pub legal: Weight,
}

/// The weight of a term.
pub(crate) fn weight_of(inst: &Instance, term: Term) -> Weight
    ensures { IsWeight inst.now term result }
{
    inst.prices().weight(term)
}

/// The weights of the terms that passengers cost, each looked up once.
pub(crate) fn weights_of(inst: &Instance) -> Weights
    ensures { AreWeights inst.now result }
{
    Weights {
        delay: weight_of(inst, Term::Delay),
        cancellation: weight_of(inst, Term::Cancellation),
        downgrade: weight_of(inst, Term::Downgrade),
        legal: weight_of(inst, Term::Legal),
    }
}
