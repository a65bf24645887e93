//! What a board has told by some moment, and by a later one.

ghost use Rattle.std.specs.Prelude.{◌≡◌, ◌≢◌, None, List as Items};
ghost use mathlib.Core.List.{IsPrefix};
ghost use Rattle.live_board.specs.declared.told.Told.{Told};
ghost use Rattle.live_board.specs.Histories.{history, origin};

/// A beginning of what a board has told has a beginning of the history, and is of the same book.
pub fn a_beginning_of_what_was_told_has_a_beginning_of_the_history<B, I>()
    ensures history { (log later : Items (Told B I)) → IsPrefix log later → IsPrefix (history log) (history later) }
    ensures origin { (log later : Items (Told B I)) → origin log ≢ None → IsPrefix log later → origin later ≡ origin log }
{}
