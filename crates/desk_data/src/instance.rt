//! The instance: the joined rows, shared, the disruption orders taken so far, and how far the day has gone on.

ghost use Rattle.std.specs.Prelude.{◌≡◌, ◌<◌, ◌≤◌, length, map, IfOk, OnOk, OnErr, IfSome, nat_lt};
ghost use Rattle.day_orders.specs.LastOrders.{last_order_on_leg};
ghost use Rattle.desk_data.specs.Booked.{IsBooked};
ghost use Rattle.desk_data.specs.Hours.{hour_cap, dep_cap, arr_cap};
ghost use Rattle.desk_data.specs.Keeps.{Keeps};
ghost use Rattle.desk_data.specs.Progress.{with_batch};
ghost use Rattle.desk_data.specs.Situation.{fresh_day, legs_of, planes_of, airports_of, reservations_of, leg_at, plane_at, res_at, airport_at, distance, now_of, frozen_at, tally_at, ordered, earliest, latest, called_off, fixed, due, spans, begun, bound, delay_of, scheduled_row, groups_of, schedule};
ghost use Rattle.desk_data.specs.Valid.{AreParts, IsValid, IsLeg, IsPlane, IsReservation, IsAirport, IsDistance, AreTallied, IsBatch, IsRowOf, IsPlanFor};

use crate::booked::{Booked, bookings_of};
use crate::hours::cap_of_line;
use crate::info::{AirportInfo, LegInfo, PlaneInfo, PositionInfo, ResInfo};
use crate::left::Left;
use crate::limits::MOST_DELAY;
use crate::news::News;
use crate::parts::Parts;
use crate::path::Path;
use crate::plan::Plan;
use crate::row::{Group, Row};
use day_orders::{Batch, HourCap, cap_at};
use desk_units::{Airport, Leg, List, Minute, NoMem, Plane, Res, Tariff};
use std::alloc::Global;
use std::marker::Model;
use std::sync::Arc;
use tariff_prices::Prices;

/// A day with the orders taken so far, and with what has left by the moment up to which it has gone on.
/// Contracts see it as its rows, its list of orders and its progress. Copies share all that they hold.
pub struct Instance {
    parts: Arc<Parts>,
    prices: Arc<Prices>,
    /// What each reservation booked.
    bookings: Arc<List<Booked>>,
    /// The orders, and what is kept of them.
    news: Arc<News>,
    /// How far the day has gone on, and what is kept of it.
    left: Arc<Left>,
}

/// Dropped in one call, so that a function that owns one proves it once, and not part by part.
impl Drop for Instance {
    fn drop(self) {
        let Instance {
            parts: _,
            prices: _,
            bookings: _,
            news: _,
            left: _,
        } = self;
    }
}

impl Model for Instance {
    ghost use Rattle.desk_data.specs.Insides.{IsWhole, day_of};
    ghost use Rattle.desk_data.specs.Situation.{Situation};
    ghost use Rattle.std.specs.Arc.{arc_value};

    ghost Value = { Situation };

    ghost view = { λ i. day_of (arc_value i.parts) (arc_value i.news) (arc_value i.left) };

    ghost invariant = { λ i. IsWhole (day_of (arc_value i.parts) (arc_value i.news) (arc_value i.left)) (arc_value i.news) (arc_value i.left) (arc_value i.prices) (arc_value i.bookings) };
}

impl Instance {
    /// The day of these rows before any batch. `are_parts` of day_checks tests its condition. The only
    /// error is out of memory.
    pub fn of(alloc: Global, parts: Parts) -> Result<Instance, NoMem>
        requires { AreParts parts }
        ensures { IfOk result (λ inst. inst ≡ fresh_day parts) }
    {
        let prices = Arc::new(alloc, Prices::of(alloc, &parts.tariff)?)?;
        let bookings = Arc::new(alloc, bookings_of(alloc, &parts)?)?;
        let news = Arc::new(alloc, News::of(alloc, &parts)?)?;
        let left = Arc::new(alloc, Left::of(alloc, &parts)?)?;
        let parts = Arc::new(alloc, parts)?;
        Ok(Instance {
            parts,
            prices,
            bookings,
            news,
            left,
        })
    }

    /// The joined rows.
    pub fn parts(&self) -> &Parts
        ensures parts { result.now ≡ self.now.parts }
        ensures valid { IsValid self.now }
    {
        &self.parts
    }

    /// How many legs there are, at most 20,000.
    pub fn legs(&self) -> u32
        ensures count { result ≡ legs_of self.now }
        ensures limit { result ≤ 20000 }
    {
        self.parts.legs.as_slice().len() as u32
    }

    /// How many aircraft there are, at most 1,000.
    pub fn planes(&self) -> u32
        ensures count { result ≡ planes_of self.now }
        ensures limit { result ≤ 1000 }
    {
        self.parts.planes.as_slice().len() as u32
    }

    /// How many airports there are, at most 500.
    pub fn airports(&self) -> u32
        ensures count { result ≡ airports_of self.now }
        ensures limit { result ≤ 500 }
    {
        self.parts.airports.as_slice().len() as u32
    }

    /// How many reservations there are, at most 100,000.
    pub fn reservations(&self) -> u32
        ensures count { result ≡ reservations_of self.now }
        ensures limit { result ≤ 100000 }
    {
        self.parts.res.as_slice().len() as u32
    }

    /// A leg.
    pub fn leg(&self, leg: Leg) -> &LegInfo
        requires { leg.0 < legs_of self.now }
        ensures row { result.now ≡ leg_at self.now leg.0 }
        ensures ranges { IsLeg (airports_of self.now) (planes_of self.now) (legs_of self.now) result.now }
    {
        &self.parts.legs.as_slice()[leg.0 as usize]
    }

    /// An aircraft.
    pub fn plane(&self, plane: Plane) -> &PlaneInfo
        requires { plane.0 < planes_of self.now }
        ensures row { result.now ≡ plane_at self.now plane.0 }
        ensures ranges { IsPlane (airports_of self.now) result.now }
    {
        &self.parts.planes.as_slice()[plane.0 as usize]
    }

    /// A reservation.
    pub fn res(&self, res: Res) -> &ResInfo
        requires { res.0 < reservations_of self.now }
        ensures row { result.now ≡ res_at self.now res.0 }
        ensures ranges { IsReservation (legs_of self.now) result.now }
    {
        &self.parts.res.as_slice()[res.0 as usize]
    }

    /// An airport.
    pub fn airport(&self, airport: Airport) -> &AirportInfo
        requires { airport.0 < airports_of self.now }
        ensures row { result.now ≡ airport_at self.now airport.0 }
        ensures ranges { IsAirport result.now }
    {
        &self.parts.airports.as_slice()[airport.0 as usize]
    }
}

impl Instance {
    /// Up to which moment the day has gone on: the latest moment that a batch has told, and the window's start
    /// before any batch that tells one. It is before minute 52,596,000, as the window's start is.
    pub fn now(&self) -> Minute
        ensures { result.0 ≡ now_of self.now }
    {
        self.left.now
    }

    /// The row with which a leg is frozen: it left, or was given up, before the present moment. `None` for a
    /// leg that is not frozen.
    pub fn frozen(&self, leg: Leg) -> Option<Row>
        requires { leg.0 < legs_of self.now }
        ensures row { result ≡ frozen_at self.now leg.0 }
        ensures ranges { IfSome result (IsRowOf (planes_of self.now)) }
    {
        self.left.frozen[leg.0 as usize]
    }

    /// The rows with which legs are frozen, by leg.
    pub(crate) fn frozen_rows(&self) -> &[Option<Row>]
        ensures { result.now ≡ self.now.progress.frozen }
    {
        self.left.frozen.as_slice()
    }

    /// How many passengers of a reservation have flown which frozen legs: lists of at most 8 legs, each with 1
    /// to 1,000 passengers, in the order of paths, no list twice. The empty list is of those who have flown
    /// nothing yet; whoever is not carried keeps the list that he flew. The counts may sum to more passengers
    /// than the reservation has, where a batch was added by a plan that breaks C15.
    pub fn tally(&self, res: Res) -> &[(Path, u32)]
        requires { res.0 < reservations_of self.now }
        ensures entries { result.now ≡ tally_at self.now res.0 }
        ensures ranges { AreTallied self.now.progress.frozen result.now }
    {
        self.left.tally[res.0 as usize].as_slice()
    }

    /// The departure of a leg by the orders: its scheduled departure, and the delay of its last flight order
    /// where that is a delay.
    #[tactic(auto, unfolding(crate::specs::Situation::ordered, crate::specs::Situation::delay_of))]
    pub fn ordered(&self, leg: Leg) -> Minute
        requires { leg.0 < legs_of self.now }
        ensures ordered { result.0 ≡ ordered self.now leg.0 }
        ensures limit { result.0 ≤ 52482880 }
    {
        let delay = self.last_order_on_leg(leg).flatten().unwrap_or(0);
        Minute(self.leg(leg).sched.0 + delay)
    }

    /// The earliest departure of a leg: the ordered one, and for a leg that may move not before the present
    /// moment.
    #[tactic(auto, unfolding(crate::specs::Situation::earliest))]
    pub fn earliest(&self, leg: Leg) -> Minute
        requires { leg.0 < legs_of self.now }
        ensures earliest { result.0 ≡ earliest self.now leg.0 }
        ensures limit { result.0 ≤ 52482880 }
    {
        let ordered = self.ordered(leg);
        if self.fixed(leg) {
            return ordered;
        }
        ordered.max(self.left.now)
    }

    /// The latest departure of a leg: 2,880 minutes after the ordered one, whatever the present moment is. So
    /// it may be before the earliest.
    #[tactic(auto, unfolding(crate::specs::Situation::latest))]
    pub fn latest(&self, leg: Leg) -> Minute
        requires { leg.0 < legs_of self.now }
        ensures latest { result.0 ≡ latest self.now leg.0 }
        ensures limit { result.0 ≤ 52485760 }
    {
        Minute(self.ordered(leg).0 + MOST_DELAY)
    }

    /// Whether the last flight order of a leg takes it out of the plan.
    #[tactic(auto, unfolding(crate::specs::Situation::called_off, crate::specs::Situation::is_off))]
    pub fn called_off(&self, leg: Leg) -> bool
        requires { leg.0 < legs_of self.now }
        ensures { result ≡ called_off self.now leg.0 }
    {
        self.last_order_on_leg(leg) == Some(None)
    }

    /// Whether nothing moves the leg: its scheduled aircraft is surface transport, it is scheduled before the
    /// window, or it is frozen.
    #[tactic(auto, unfolding(crate::specs::Situation::fixed))]
    pub fn fixed(&self, leg: Leg) -> bool
        requires { leg.0 < legs_of self.now }
        ensures { result ≡ fixed self.now leg.0 }
    {
        let info = self.leg(leg);
        self.plane(info.plane).surface
            || info.sched.0 < self.parts.from.0
            || self.frozen(leg).is_some()
    }

    /// The row that a fixed leg should have: the one with which it is frozen, if it is; else cancelled if it
    /// is called off, and else flown by its scheduled aircraft at its earliest departure. `None` for a leg
    /// that may move.
    #[tactic(auto, unfolding(crate::specs::Situation::due))]
    pub fn due(&self, leg: Leg) -> Option<Row>
        requires { leg.0 < legs_of self.now }
        ensures due { result ≡ due self.now leg.0 }
        ensures ranges { IfSome result (IsRowOf (planes_of self.now)) }
    {
        if !self.fixed(leg) {
            return None;
        }
        let ordered = if self.called_off(leg) {
            Row::Cancelled
        } else {
            Row::Flown {
                plane: self.leg(leg).plane,
                dep: self.earliest(leg),
            }
        };
        Some(self.frozen(leg).unwrap_or(ordered))
    }

    /// When an aircraft is out of service: spans from one moment up to but not including another,
    /// in the order of its orders. Of each order what is left after the aircraft's frozen rows have landed,
    /// and nothing where that is empty.
    pub fn spans(&self, plane: Plane) -> &[(Minute, Minute)]
        requires { plane.0 < planes_of self.now }
        ensures { result.now ≡ spans self.now plane.0 }
    {
        self.news.spans[plane.0 as usize].as_slice()
    }

    /// How many departures an airport takes in an hour, which is counted from 2000-01-01 00:00: as
    /// the last airport order says that has a minute in the hour, else as the last group of the
    /// airport's line says that covers the hour of the day, and never fewer than frozen rows depart there
    /// then. `None` where it takes any number.
    #[tactic(auto, unfolding(crate::specs::Hours::dep_cap))]
    pub fn dep_cap(&self, airport: Airport, hour: u32) -> Option<u32>
        requires { airport.0 < airports_of self.now }
        ensures { result ≡ dep_cap self.now airport.0 hour }
    {
        let cap = self.hour_cap(airport, hour)?;
        let frozen = self.left.departures.count(airport, hour);
        Some(cap.deps.max(frozen))
    }

    /// How many arrivals an airport takes in an hour, found as the departures are.
    #[tactic(auto, unfolding(crate::specs::Hours::arr_cap))]
    pub fn arr_cap(&self, airport: Airport, hour: u32) -> Option<u32>
        requires { airport.0 < airports_of self.now }
        ensures { result ≡ arr_cap self.now airport.0 hour }
    {
        let cap = self.hour_cap(airport, hour)?;
        let frozen = self.left.arrivals.count(airport, hour);
        Some(cap.arrs.max(frozen))
    }

    /// What a reservation booked, which no order changes.
    pub fn booked(&self, res: Res) -> &Booked
        requires { res.0 < reservations_of self.now }
        ensures { IsBooked self.now res.0 result.now }
    {
        &self.bookings.as_slice()[res.0 as usize]
    }

    /// How many legs at the start of a reservation's scheduled path are all scheduled to depart
    /// before the window.
    pub fn begun(&self, res: Res) -> u32
        requires { res.0 < reservations_of self.now }
        ensures begun { result ≡ begun self.now res.0 }
        ensures limit { result ≤ length (res_at self.now res.0).path }
    {
        let path = self.res(res).path.as_slice();
        for (place, pair) in path.iter().enumerate() {
            if !self.has_begun(pair.0) {
                return place as u32;
            }
        }
        path.len() as u32
    }

    /// Whether a path of a reservation keeps to what has left, beside the reservation's groups: it begins with
    /// the legs of the scheduled path that have begun, some passengers have flown just those of its legs that
    /// have left, and no more of these groups are carried so than have.
    #[tactic(auto, unfolding(crate::specs::Situation::bound))]
    pub fn bound(&self, res: Res, groups: &[Group], path: &Path) -> bool
        requires { res.0 < reservations_of self.now }
        ensures { result ≡ bound self.now res.0 groups.now path.now }
    {
        let begun = self.begun(res) as usize;
        let scheduled = self.res(res).path.as_slice();
        path.as_slice().starts_with(&scheduled[..begun]) && self.has_room_behind(res, groups, path)
    }

    /// The window in which the desk may move legs: its start, and its end, which is not in it.
    pub fn window(&self) -> (Minute, Minute)
        ensures { result ≡ (self.now.parts.from, self.now.parts.to) }
    {
        (self.parts.from, self.parts.to)
    }

    /// The minutes from the one airport to the other, at most 100,000; none where the day has no distance
    /// between them.
    pub fn distance(&self, from: Airport, to: Airport) -> Option<u32>
        ensures value { result ≡ distance self.now from.0 to.0 }
        ensures limit { IsDistance result }
    {
        let row = self.parts.dist.as_slice().get(from.0 as usize)?;
        match row.as_slice().get(to.0 as usize) {
            Some(distance) => *distance,
            None => None,
        }
    }

    /// The aircraft that should stand at airports at the day's end.
    pub fn positions(&self) -> &[PositionInfo]
        ensures { result.now ≡ self.now.parts.positions }
    {
        self.parts.positions.as_slice()
    }

    /// The rows of the tariff, in the order of the file.
    pub fn tariff(&self) -> &Tariff
        ensures { result.now ≡ self.now.parts.tariff }
    {
        &self.parts.tariff
    }

    /// The prices and weights of the cost terms, found by what they are for.
    pub fn prices(&self) -> &Prices
        ensures { result.now ≡ self.now.parts.tariff.rows }
    {
        &self.prices
    }

    /// An equal instance, which shares all that this one holds. The only error is out of memory.
    pub fn copy(&self) -> Result<Instance, NoMem>
        ensures { IfOk result (λ copy. copy ≡ self.now) }
    {
        let parts = self.parts.clone()?;
        let prices = self.prices.clone()?;
        let bookings = self.bookings.clone()?;
        let news = self.news.clone()?;
        let left = self.left.clone()?;
        Ok(Instance {
            parts,
            prices,
            bookings,
            news,
            left,
        })
    }

    /// The plan as scheduled: each leg by its scheduled aircraft at its scheduled departure, and
    /// the passengers of each reservation on its scheduled path. The only error is out of memory.
    pub fn schedule(&self, alloc: Global) -> Result<Plan, NoMem>
        ensures plan { IfOk result (λ plan. plan ≡ schedule self.now) }
        ensures valid { IfOk result (λ plan. IsPlanFor self.now plan) }
    {
        let parts = self.parts();
        let rows = scheduled_rows(alloc, parts.legs.as_slice())?;
        let groups = scheduled_groups(alloc, parts.res.as_slice())?;
        Ok(Plan::of(rows, groups))
    }

    /// Takes a batch. Where it tells a later moment than the present one, the day goes on to it: what leaves
    /// before it by the plan, which is the one that stands when the batch arrives, is frozen, with the fixed
    /// legs that it cancels and whose earliest departure is before it; and then passengers are tallied. Then
    /// its orders come after those taken before. After an error the instance is as before. `can_add` of
    /// day_checks tests the condition of the batch.
    pub fn add(&mut self, alloc: Global, plan: &Plan, batch: &Batch) -> Result<(), NoMem>
        requires batch { IsBatch self.old.parts batch.now }
        requires plan { IsPlanFor self.old plan.now }
        ensures ok { OnOk result (self.new ≡ with_batch self.old plan.now batch.now) }
        ensures err { OnErr result (self.new ≡ self.old) }
    {
        let orders = batch.orders.as_slice();
        match batch.at {
            Some(at) if self.left.now.0 < at.0 => {
                let left = Left::at(alloc, self, plan, at)?;
                let news = self.news_with(alloc, orders, left.landings.as_slice())?;
                let news = Arc::new(alloc, news)?;
                self.left = Arc::new(alloc, left)?;
                self.news = news;
            }
            _ => {
                let news = self.news_with(alloc, orders, self.left.landings.as_slice())?;
                self.news = Arc::new(alloc, news)?;
            }
        }
        Ok(())
    }

    /// The orders taken so far, and what is kept of them.
    pub(crate) fn news(&self) -> &News
        ensures orders { result.now.orders.items ≡ self.now.orders }
        ensures kept { Keeps self.now result.now.kept }
        ensures valid { IsValid self.now }
    {
        &self.news
    }

    /// What an airport takes in an hour.
    #[tactic(auto, unfolding(crate::specs::Hours::hour_cap))]
    fn hour_cap(&self, airport: Airport, hour: u32) -> Option<HourCap>
        requires { airport.0 < airports_of self.now }
        ensures { result ≡ hour_cap self.now airport.0 hour }
    {
        let ordered = cap_at(self.news.kept.hours(airport), hour);
        if ordered.is_some() {
            return ordered;
        }
        cap_of_line(self.airport(airport).caps.as_slice(), 60 * (hour % 24))
    }

    /// Whether a leg is scheduled to depart before the window.
    fn has_begun(&self, leg: Leg) -> bool
        requires { leg.0 < legs_of self.now }
        ensures { result ≡ nat_lt (leg_at self.now leg.0).sched.0 self.now.parts.from.0 }
    {
        self.leg(leg).sched.0 < self.parts.from.0
    }

    /// What the last flight order of a leg says: a delay in minutes, or `None` inside where it is
    /// off.
    fn last_order_on_leg(&self, leg: Leg) -> Option<Option<u32>>
        requires { leg.0 < legs_of self.now }
        ensures said { result ≡ last_order_on_leg leg.0 self.now.orders }
        ensures limit { delay_of result ≤ 2880 }
    {
        self.news.kept.leg(leg)
    }
}

fn scheduled_rows(alloc: Global, legs: &[LegInfo]) -> Result<Vec<Row>, NoMem>
    ensures { IfOk result (λ rows. rows.items ≡ map scheduled_row legs.now) }
{
    let rows = legs
        .iter()
        .map(|leg| Row::Flown {
            plane: leg.plane,
            dep: leg.sched,
        })
        .collect(alloc)?;
    Ok(rows)
}

fn scheduled_groups(alloc: Global, reservations: &[ResInfo]) -> Result<Vec<Vec<Group>>, NoMem>
    ensures { IfOk result (λ groups. map (λ g. g.items) groups.items ≡ map groups_of reservations.now) }
{
    let mut groups = Vec::with_capacity(alloc, reservations.len())?;
    for res in reservations {
        let group = Group {
            count: res.count,
            path: res.path.copy(alloc)?,
        };
        groups.push(vec![in alloc; group]?)?;
    }
    Ok(groups)
}
