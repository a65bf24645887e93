//! Airports that take no flights for some hours.

ghost use Rattle.std.specs.Prelude.{◌<◌};
ghost use Rattle.desk_data.specs.Situation.{airports_of};

use crate::axis::Span;
use crate::shades::put_shade;
use desk_data::{Airport, Instance, NoMem};
use page_parts::{Page, Part, airport_name};
use std::alloc::Global;

/// What an airport does not take.
#[derive(Clone, Copy, PartialEq, Eq)]
pub(crate) enum Limit {
    Closed,
    NoDepartures,
    NoArrivals,
}

impl Limit {
    // How it is drawn, and what is written in it.
    fn texts(self) -> (&'static str, &'static str) {
        match self {
            Limit::Closed => ("shut", "closed"),
            Limit::NoDepartures => ("thin", "no departures"),
            Limit::NoArrivals => ("thin", "no arrivals"),
        }
    }
}

/// Some hours in which an airport does not take all flights.
#[derive(Clone, Copy)]
pub(crate) struct Closure {
    /// The airport, by its number.
    pub airport: u32,
    pub from: u32,
    pub to: u32,
    pub limit: Limit,
}

// What an airport does not take in an hour.
fn limit_in(inst: &Instance, airport: Airport, hour: u32) -> Option<Limit>
    requires { airport.0 < airports_of inst.now }
{
    let leaves = inst.dep_cap(airport, hour) == Some(0);
    let arrives = inst.arr_cap(airport, hour) == Some(0);
    match (leaves, arrives) {
        (true, true) => Some(Limit::Closed),
        (true, false) => Some(Limit::NoDepartures),
        (false, true) => Some(Limit::NoArrivals),
        (false, false) => None,
    }
}

// Adds the closures of an airport in a piece of time, each as long as the limit stays the same.
fn push_closures(
    out: &mut Vec<Closure>,
    inst: &Instance,
    airport: Airport,
    span: Span,
) -> Result<(), NoMem>
    requires { airport.0 < airports_of inst.now }
{
    let mut last: Option<Closure> = None;
    let first = span.from / 60;
    for k in 0..span.minutes.saturating_add(59) / 60 {
        let hour = first.saturating_add(k);
        let limit = limit_in(inst, airport, hour);
        let from = hour.saturating_mul(60);
        let to = from.saturating_add(60);
        last = match (last, limit) {
            (Some(open), Some(limit)) if open.limit == limit => Some(Closure { to, ..open }),
            (open, limit) => {
                if let Some(closure) = open {
                    out.push(closure)?;
                }
                limit.map(|limit| Closure {
                    airport: airport.0,
                    from,
                    to,
                    limit,
                })
            }
        };
    }
    if let Some(closure) = last {
        out.push(closure)?;
    }
    Ok(())
}

/// The closures of all airports in a piece of time.
pub(crate) fn closures_in(
    alloc: Global,
    inst: &Instance,
    span: Span,
) -> Result<Vec<Closure>, NoMem> {
    let mut out = Vec::new(alloc);
    for a in 0..inst.airports() {
        push_closures(&mut out, inst, Airport(a), span)?;
    }
    Ok(out)
}

// Puts the row of an airport, if it is closed at some time.
fn put_airport(
    page: &mut Page,
    inst: &Instance,
    closures: &[Closure],
    span: Span,
    number: u32,
    airport: u32,
) -> Result<(), NoMem> {
    if !closures.iter().any(|closure| closure.airport == airport) {
        return Ok(());
    }
    page.put(&[
        Part::Own("<tr><th scope=\"row\"><b>"),
        Part::Given(airport_name(inst, Airport(airport))),
        Part::Own("</b></th><td><svg viewBox=\"0 0 1440 18\" role=\"img\"><use href=\"#g"),
        Part::Number(u64::from(number)),
        Part::Own("\"/>"),
    ])?;
    for closure in closures {
        if closure.airport == airport {
            let (class, word) = closure.limit.texts();
            put_shade(page, span, closure.from, closure.to, class, word, 2, 14)?;
        }
    }
    page.put(&[Part::Own("</svg></td></tr>\n")])
}

/// Puts a row for each airport that is closed at some time.
pub(crate) fn put_airports(
    page: &mut Page,
    inst: &Instance,
    closures: &[Closure],
    span: Span,
    number: u32,
) -> Result<(), NoMem> {
    if closures.is_empty() {
        return Ok(());
    }
    page.put(&[Part::Own(
        "<tr class=\"f\"><th scope=\"rowgroup\">Airports</th><td>that take no flights for some hours</td></tr>\n",
    )])?;
    for a in 0..inst.airports() {
        put_airport(page, inst, closures, span, number, a)?;
    }
    Ok(())
}
