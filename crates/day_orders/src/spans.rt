//! What is left of spans after a moment.

ghost use Rattle.std.specs.Prelude.{◌≡◌, IfOk};
ghost use Rattle.std.specs.List.{filter_map};
ghost use Rattle.day_orders.specs.LastOrders.{span_after};

use desk_units::{Minute, NoMem};
use std::alloc::Global;

/// What is left of some spans after a moment, in their order: each begins no earlier than that, and is left
/// out where no minute of it is left. The only error is out of memory.
pub fn spans_after(
    alloc: Global,
    at: Minute,
    spans: &[(Minute, Minute)],
) -> Result<Vec<(Minute, Minute)>, NoMem>
    ensures { IfOk result (λ left. left.items ≡ filter_map (span_after at.0) spans.now) }
{
    let left = spans
        .iter()
        .filter_map(|span| span_after(at, *span))
        .collect(alloc)?;
    Ok(left)
}

/// What is left of one span, if a minute is.
fn span_after(at: Minute, span: (Minute, Minute)) -> Option<(Minute, Minute)>
    ensures { result ≡ span_after at.0 span }
{
    let (from, to) = span;
    let begin = from.max(at);
    if begin < to { Some((begin, to)) } else { None }
}
