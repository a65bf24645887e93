//! The six kinds of steps.

/// What a step does, by its first word.
#[derive(Clone, Copy, PartialEq, Eq)]
pub(crate) enum StepKind {
    Set,
    Push,
    Swap,
    Rebook,
    Tidy,
    Refill,
}
