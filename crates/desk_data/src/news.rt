//! The orders taken so far, and what is kept of them.

ghost use Rattle.std.specs.Prelude.{◌≡◌, ◌<◌, ◌≤◌, ℕ, [], ◌++◌, length, map, replicate, slice_index_or, All, IfOk};
ghost use Rattle.std.specs.List.{filter_map};
ghost use Rattle.day_orders.specs.KeptLists.{kept_spans};
ghost use Rattle.day_orders.specs.LastOrders.{span_after};
ghost use Rattle.desk_data.specs.Insides.{KeepsNews};
ghost use Rattle.desk_data.specs.Keeps.{Keeps};
ghost use Rattle.desk_data.specs.Situation.{fresh_day, planes_of, ordered_spans};
ghost use Rattle.desk_data.specs.Valid.{AreParts, IsOrder};

use crate::instance::Instance;
use crate::parts::Parts;
use day_orders::{Order, OrderTables, spans_after};
use desk_units::{Minute, NoMem, Plane};
use std::alloc::Global;

/// The orders taken so far, and what is kept of them.
pub struct News {
    pub orders: Vec<Order>,
    /// What the orders say.
    pub kept: OrderTables,
    /// By aircraft, the spans in which it is out of service, as they are left after its frozen rows.
    pub spans: Vec<Vec<(Minute, Minute)>>,
}

/// Dropped in one call, so that a function that owns one proves it once, and not part by part.
impl Drop for News {
    fn drop(self) {
        let News {
            orders: _,
            kept: _,
            spans: _,
        } = self;
    }
}

impl News {
    /// Of no orders.
    pub fn of(alloc: Global, parts: &Parts) -> Result<News, NoMem>
        requires { AreParts parts.now }
        ensures orders { IfOk result (λ news. news.orders.items ≡ []) }
        ensures kept { IfOk result (λ news. KeepsNews (fresh_day parts.now) news) }
    {
        let planes = parts.planes.as_slice().len();
        let kept = OrderTables::nothing(
            alloc,
            parts.legs.as_slice().len(),
            planes,
            parts.airports.as_slice().len(),
        )?;
        let spans = no_spans(alloc, planes)?;
        Ok(News {
            orders: Vec::new(alloc),
            kept,
            spans,
        })
    }
}

impl Instance {
    /// The orders with some more after them, and what is kept of all, where each aircraft has landed from its
    /// frozen rows by then. The only error is out of memory.
    pub(crate) fn news_with(
        &self,
        alloc: Global,
        orders: &[Order],
        landings: &[Minute],
    ) -> Result<News, NoMem>
        requires orders { All (IsOrder self.now.parts) orders.now }
        requires landings { length landings.now ≡ planes_of self.now }
        ensures orders { IfOk result (λ news. news.orders.items ≡ self.now.orders ++ orders.now) }
        ensures kept { IfOk result (λ news. Keeps (record self.now { orders = self.now.orders ++ orders.now }) news.kept) }
        ensures all_planes { IfOk result (λ news. length news.spans.items ≡ planes_of self.now) }
        ensures spans { IfOk result (λ news. (p : ℕ) → p < planes_of self.now → slice_index_or (map (λ of_one. of_one.items) news.spans.items) p [] ≡ filter_map (span_after (slice_index_or landings.now p (record { 0 = 0 })).0) (ordered_spans (record self.now { orders = self.now.orders ++ orders.now }) p)) }
    {
        let news = self.news();
        let kept = news.kept.with(alloc, orders)?;
        let spans = spans_left(alloc, &kept, landings)?;
        let mut taken = Vec::from_slice(alloc, news.orders.as_slice())?;
        taken.extend_from_slice(orders)?;
        Ok(News {
            orders: taken,
            kept,
            spans,
        })
    }
}

fn no_spans(alloc: Global, planes: usize) -> Result<Vec<Vec<(Minute, Minute)>>, NoMem>
    ensures { IfOk result (λ spans. map (λ of_one. of_one.items) spans.items ≡ replicate planes []) }
{
    let mut spans = Vec::with_capacity(alloc, planes)?;
    for _ in 0..planes {
        spans.push(Vec::new(alloc))?;
    }
    Ok(spans)
}

/// Of each aircraft the spans that the orders give, as they are left after it has landed.
fn spans_left(
    alloc: Global,
    kept: &OrderTables,
    landings: &[Minute],
) -> Result<Vec<Vec<(Minute, Minute)>>, NoMem>
    requires all { length landings.now ≡ length kept.now.spans }
    requires few { length landings.now ≤ 1000 }
    ensures all { IfOk result (λ left. length left.items ≡ length landings.now) }
    ensures spans { IfOk result (λ left. (p : ℕ) → p < length landings.now → slice_index_or (map (λ of_one. of_one.items) left.items) p [] ≡ filter_map (span_after (slice_index_or landings.now p (record { 0 = 0 })).0) (kept_spans kept.now p)) }
{
    let mut left = Vec::with_capacity(alloc, landings.len())?;
    for (p, landed) in landings.iter().enumerate() {
        left.push(spans_after(alloc, *landed, kept.spans(Plane(p as u32)))?)?;
    }
    Ok(left)
}
