//! What is known of a move.

ghost use Rattle.std.specs.Prelude.{◌≡◌, false, true};

/// What is known of a move at a plan.
#[derive(Clone, Copy)]
pub(crate) struct Verdict {
    /// Whether it is better.
    pub(crate) better: bool,
    /// Whether it is known that it is not, and why, so that its unit may be noted: a rule that it breaks is no reason here.
    pub(crate) out: bool,
    /// Whether rows alone say why.
    pub(crate) by_rows: bool,
}

impl Verdict {
    /// It is not better, and it is known why.
    pub(crate) fn out() -> Verdict
        ensures better { result.better ≡ false }
        ensures out { result.out ≡ true }
        ensures by_rows { result.by_rows ≡ false }
    {
        Verdict {
            better: false,
            out: true,
            by_rows: false,
        }
    }

    /// Rows alone say that it is not better.
    pub(crate) fn out_by_rows() -> Verdict
        ensures better { result.better ≡ false }
        ensures out { result.out ≡ true }
        ensures by_rows { result.by_rows ≡ true }
    {
        Verdict {
            better: false,
            out: true,
            by_rows: true,
        }
    }
}
