//! What payloads spell.
ghost use Rattle.std.specs.Prelude.{◌≡◌, ◌++◌, ◌∷◌, [], ℕ, List, IfOk};
ghost use Rattle.std.specs.Bool.{MatchBool};

use std::alloc::{AllocError, Global};

/// Takes payloads, one behind another.
pub trait PayloadReader {
    /// What decides on payloads. No call changes it.
    type Rules;

    ghost rules: { Self → Self.Rules };

    /// The payloads taken so far.
    ghost taken: { Self → List (List ℕ) };

    /// Whether this payload may stand behind those.
    ghost accepts: { Self.Rules → List (List ℕ) → List ℕ → Type 0 };

    /// Takes a payload if it may stand behind those taken, and answers whether it did. The only error is
    /// that there is no memory left, after which nothing is said of what was taken.
    fn take(&mut self, alloc: Global, payload: &[u8]) -> Result<bool, AllocError>
        ensures rules { rules self.new ≡ rules self.old }
        ensures takes { IfOk result (λ is. MatchBool is
            (accepts (rules self.old) (taken self.old) payload.now × (taken self.new ≡ taken self.old ++ payload.now ∷ []))
            ((accepts (rules self.old) (taken self.old) payload.now → ⊥) × (taken self.new ≡ taken self.old))) };
}
