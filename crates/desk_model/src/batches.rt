//! What holds of batches: what is answered.

ghost use Rattle.day_orders.specs.declared.orders.Batch.{Batch as Orders};
ghost use Rattle.desk_data.specs.Progress.{with_batch};
ghost use Rattle.desk_model.specs.declared.answer.Event.TheVariants as event;
ghost use Rattle.desk_model.specs.States.{State, answer};
ghost use Rattle.desk_model.specs.Batches.{AnswersBatch};

/// A batch is answered with `Keep` exactly where the rows as they stand are feasible under the new
/// orders, with `Shift` exactly where they are not and a Shift is, and with `Ground` exactly where
/// neither is and Ground is, each with what it costs under the new orders. Exactly where none of the
/// three is feasible the answer is that there is no plan, with the first item that the rows of Ground
/// break.
pub fn a_batch_is_answered_by_the_first_that_is_feasible()
    ensures { (S : State) (B : Orders) → AnswersBatch (with_batch S.inst S.plan B) S.plan (answer S (event.Batch B)) }
{}
