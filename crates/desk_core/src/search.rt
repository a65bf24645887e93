//! A search on the evaluator of a book.

ghost use Rattle.std.specs.Prelude.{◌≡◌, [], Option, IfOk};
ghost use Rattle.plan_moves.specs.declared.moves.Move.{Move as Asked};
ghost use Rattle.desk_data.specs.PlanRows.{PlanRows};
ghost use Rattle.desk_data.specs.Situation.{Situation};

use desk_data::NoMem;
use desk_eval::Evaluator;
use plan_moves::Move;
use std::alloc::Global;

/// A search for a move that is worth proposing. It may try moves on an evaluator, and takes them back.
pub trait Search {
    /// What it finds at a plan of an instance.
    ghost finds: { Situation → PlanRows → Option Asked → Type 0 };

    /// Of which instances it may search the plans: what it keeps between its calls is true of them.
    ghost serves: { Self → Situation → Type 0 };

    /// What is found at the plan of an evaluator whose past is empty, and whose instance the search serves. The evaluator
    /// stands where it stood, and is served still, after an error too, which is out of memory.
    fn search(&mut self, alloc: Global, eval: &mut Evaluator) -> Result<Option<Move>, NoMem>
        requires past { eval.old.past ≡ [] }
        requires day { serves self.old eval.old.inst }
        ensures found { IfOk result (λ found. finds eval.old.inst eval.old.rows found) }
        ensures day { serves self.new eval.old.inst }
        ensures eval { eval.new ≡ eval.old };
}
