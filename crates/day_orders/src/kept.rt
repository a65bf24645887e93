//! What the orders say, kept by leg, aircraft and airport, so that no look-up walks over the orders.

ghost use Rattle.std.specs.Prelude.{◌≡◌, ◌<◌, ℕ, Some, None, [], ◌∷◌, ◌++◌, length, map, replicate, slice_set, All, IfOk};
ghost use Rattle.day_orders.specs.KeptLists.{AreInOrder, kept_leg, kept_spans, kept_hours, HasPlace, Adds, nothing_kept};

use crate::hours::{CapChange, HourCap, hours_of, with_cap};
use crate::orders::Order;
use desk_units::{Airport, Leg, Minute, NoMem, Plane};
use std::alloc::Global;
use std::marker::Model;

/// What is kept of the orders.
pub struct OrderTables {
    /// By leg, what its last order says: a delay in minutes, or `None` inside where it is off.
    legs: Vec<Option<Option<u32>>>,
    /// By aircraft, when it is out of service, in the order of its orders.
    spans: Vec<Vec<(Minute, Minute)>>,
    /// By airport, the changes of what orders say of its hours, in the order of the hours.
    hours: Vec<Vec<CapChange>>,
}

/// Dropped in one call, so that a function that owns one proves it once, and not part by part.
impl Drop for OrderTables {
    fn drop(self) {
        let OrderTables {
            legs: _,
            spans: _,
            hours: _,
        } = self;
    }
}

impl Model for OrderTables {
    ghost use Rattle.std.specs.Prelude.{map};
    ghost use Rattle.day_orders.specs.KeptLists.{KeptLists};

    ghost Value = { KeptLists };

    ghost view = { λ k. record { legs = k.legs.items; spans = map (λ s. s.items) k.spans.items; hours = map (λ c. c.items) k.hours.items } };
}

impl OrderTables {
    /// Of no orders, by how many legs, aircraft and airports there are. The only error is out of memory.
    pub fn nothing(
        alloc: Global,
        legs: usize,
        planes: usize,
        airports: usize,
    ) -> Result<OrderTables, NoMem>
        ensures { IfOk result (λ kept. kept ≡ nothing_kept legs planes airports) }
    {
        let legs = no_words(alloc, legs)?;
        let spans = no_rows(alloc, planes)?;
        let hours = no_rows(alloc, airports)?;
        Ok(OrderTables { legs, spans, hours })
    }

    /// An equal one. The only error is out of memory.
    pub fn copy(&self, alloc: Global) -> Result<OrderTables, NoMem>
        ensures { IfOk result (λ copy. copy ≡ self.now) }
    {
        let legs = Vec::from_slice(alloc, self.legs.as_slice())?;
        let spans = copied_lists(alloc, self.spans.as_slice())?;
        let hours = copied_lists(alloc, self.hours.as_slice())?;
        Ok(OrderTables { legs, spans, hours })
    }

    /// What the last order of a leg says.
    pub fn leg(&self, leg: Leg) -> Option<Option<u32>>
        requires { leg.0 < length self.now.legs }
        ensures { result ≡ kept_leg self.now leg.0 }
    {
        self.legs[leg.0 as usize]
    }

    /// When an aircraft is out of service.
    pub fn spans(&self, plane: Plane) -> &[(Minute, Minute)]
        requires { plane.0 < length self.now.spans }
        ensures { result.now ≡ kept_spans self.now plane.0 }
    {
        self.spans[plane.0 as usize].as_slice()
    }

    /// The changes of what orders say of an airport's hours.
    pub fn hours(&self, airport: Airport) -> &[CapChange]
        requires { airport.0 < length self.now.hours }
        ensures { result.now ≡ kept_hours self.now airport.0 }
    {
        self.hours[airport.0 as usize].as_slice()
    }
}

fn no_words(alloc: Global, count: usize) -> Result<Vec<Option<Option<u32>>>, NoMem>
    ensures { IfOk result (λ words. words.items ≡ replicate count None) }
{
    let mut words = Vec::with_capacity(alloc, count)?;
    for _ in 0..count {
        words.push(None)?;
    }
    Ok(words)
}

fn no_rows<T: Copy + Drop>(alloc: Global, count: usize) -> Result<Vec<Vec<T>>, NoMem>
    ensures { IfOk result (λ lists. map (λ l. l.items) lists.items ≡ replicate count []) }
{
    let mut lists = Vec::with_capacity(alloc, count)?;
    for _ in 0..count {
        lists.push(Vec::new(alloc))?;
    }
    Ok(lists)
}

fn copied_lists<T: Copy + Drop>(alloc: Global, lists: &[Vec<T>]) -> Result<Vec<Vec<T>>, NoMem>
    ensures { IfOk result (λ copy. map (λ l. l.items) copy.items ≡ map (λ l. l.items) lists.now) }
{
    let mut copy = Vec::with_capacity(alloc, lists.len())?;
    for list in lists {
        copy.push(Vec::from_slice(alloc, list.as_slice())?)?;
    }
    Ok(copy)
}

impl OrderTables {
    /// What is kept with these orders too. The only error is out of memory.
    pub fn with(&self, alloc: Global, orders: &[Order]) -> Result<OrderTables, NoMem>
        requires place { All (HasPlace self.now) orders.now }
        requires order { All AreInOrder self.now.hours }
        ensures { IfOk result (λ kept. Adds orders.now self.now kept) }
    {
        let mut kept = self.copy(alloc)?;
        for order in orders {
            kept.take(alloc, order)?;
        }
        Ok(kept)
    }

    /// Keeps what an order says.
    fn take(&mut self, alloc: Global, order: &Order) -> Result<(), NoMem>
        requires place { HasPlace self.old order.now }
        requires order { All AreInOrder self.old.hours }
        ensures { IfOk result (λ _. Adds (order.now ∷ []) self.old self.new) }
    {
        match order {
            Order::Flight { leg, delay } => {
                self.put_leg(*leg, *delay);
                Ok(())
            }
            Order::Aircraft { plane, from, to } => self.push_span(*plane, *from, *to),
            Order::Field {
                airport,
                from,
                to,
                deps,
                arrs,
            } => {
                let cap = HourCap {
                    deps: *deps,
                    arrs: *arrs,
                };
                self.limit(alloc, *airport, *from, *to, cap)
            }
        }
    }

    /// Keeps what a flight order says of a leg.
    fn put_leg(&mut self, leg: Leg, said: Option<u32>)
        requires { leg.0 < length self.old.legs }
        ensures { self.new ≡ record self.old { legs = slice_set self.old.legs leg.0 (Some said) } }
    {
        self.legs[leg.0 as usize] = Some(said);
    }

    /// Adds a span of an aircraft order.
    fn push_span(&mut self, plane: Plane, from: Minute, to: Minute) -> Result<(), NoMem>
        requires { plane.0 < length self.old.spans }
        ensures { IfOk result (λ _. self.new ≡ record self.old { spans = slice_set self.old.spans plane.0 (kept_spans self.old plane.0 ++ (from, to) ∷ []) }) }
    {
        self.spans[plane.0 as usize].push((from, to))?;
        Ok(())
    }

    /// Gives an airport other changes.
    fn put_hours(&mut self, airport: Airport, changes: Vec<CapChange>)
        requires { airport.0 < length self.old.hours }
        ensures { self.new ≡ record self.old { hours = slice_set self.old.hours airport.0 changes.items } }
    {
        self.hours[airport.0 as usize] = changes;
    }
    /// Keeps what an airport order says of the hours that its span touches.
    fn limit(
        &mut self,
        alloc: Global,
        airport: Airport,
        from: Minute,
        to: Minute,
        cap: HourCap,
    ) -> Result<(), NoMem>
        requires place { airport.0 < length self.old.hours }
        requires order { All AreInOrder self.old.hours }
        ensures { IfOk result (λ _. Adds (Order.Field airport from to cap.deps cap.arrs ∷ []) self.old self.new) }
    {
        match hours_of(from, to) {
            Some((first, after_last)) => {
                let changes = with_cap(alloc, self.hours(airport), first, after_last, cap)?;
                self.put_hours(airport, changes);
                Ok(())
            }
            None => Ok(()),
        }
    }
}
