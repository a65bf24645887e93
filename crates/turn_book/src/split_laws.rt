//! Passes that were split from one and joined again.

ghost use Rattle.std.specs.Prelude.{◌≡◌, ℕ, ◌<◌, true, length, List as Items};
ghost use Rattle.turn_book.specs.declared.view.View.{View as Known};
ghost use Rattle.turn_book.specs.Names.{Name, knows};
ghost use Rattle.turn_book.specs.SplitPasses.{AreJoined};

/// Once all passes that were split from one are joined into it again, only those are out that were out before.
pub fn passes_that_are_all_joined_again_leave_nothing_out<O, I>()
    ensures { (n : ℕ) (v w : Known O I) (taken : Items (Known O I)) → 0 < n → length taken ≡ n → AreJoined n v w taken
        → (m : Name) → knows m w.tags.out ≡ true → knows m v.tags.out ≡ true }
{}
