//! A bar and its words.

use crate::axis::Span;
use crate::bars::{Bar, Look};
use desk_data::{Instance, Leg, LegInfo, Minute, NoMem, Plane};
use page_parts::{Page, Part, Shift, airport_name, clock, leg_of, plane_name, put_time};

/// The height of a bar.
pub(crate) const BAR: u32 = 28;

/// The height of an outline below the bars.
pub(crate) const OUTLINE: u32 = 12;

/// Where a bar stands in its row.
#[derive(Clone, Copy)]
pub(crate) struct Place {
    pub x: u32,
    pub y: u32,
    pub width: u32,
}

// How a bar is drawn, by what it shows.
fn class_of(look: Look) -> &'static str {
    match look {
        Look::Cancelled => "cut",
        Look::Left { .. } => "left",
        Look::Flown { swapped: true, .. } => "other",
        Look::Flown {
            shift: Shift::Same,
            ..
        } => "same",
        Look::Flown { .. } => "moved",
    }
}

// Puts the outline of a bar: a rectangle, with a pointed end at the right where it is later and at the left where it is
// earlier, and with a cross at its end where it is cancelled.
fn put_shape(page: &mut Page, look: Look, at: Place) -> Result<(), NoMem> {
    let Place { x, y, width } = at;
    let end = x.saturating_add(width);
    let tip = if width < 12 { width / 2 } else { 6 };
    let (left, right) = match look {
        Look::Flown {
            shift: Shift::Earlier(_),
            ..
        } => (tip, 0),
        Look::Flown {
            shift: Shift::Later(_),
            ..
        } => (0, tip),
        Look::Flown { .. } | Look::Left { .. } | Look::Cancelled => (0, 0),
    };
    let height = if matches!(look, Look::Flown { .. }) {
        BAR
    } else {
        OUTLINE
    };
    let half = u64::from(height / 2);
    let low = u64::from(height) - 2 * half;
    page.put(&[
        Part::Own("<path d=\"M"),
        Part::Number(u64::from(x.saturating_add(left))),
        Part::Own(" "),
        Part::Number(u64::from(y)),
        Part::Own("H"),
        Part::Number(u64::from(end.saturating_sub(right))),
        Part::Own("l"),
        Part::Number(u64::from(right)),
        Part::Own(" "),
        Part::Number(half),
        Part::Own("v"),
        Part::Number(low),
        Part::Own("l-"),
        Part::Number(u64::from(right)),
        Part::Own(" "),
        Part::Number(half),
        Part::Own("H"),
        Part::Number(u64::from(x.saturating_add(left))),
        Part::Own("l-"),
        Part::Number(u64::from(left)),
        Part::Own(" -"),
        Part::Number(half),
        Part::Own("v-"),
        Part::Number(low),
        Part::Own("z\"/>"),
    ])
}

// Puts the cross of a cancelled leg, where there is room.
fn put_cross(page: &mut Page, at: Place) -> Result<(), NoMem> {
    if at.width < 14 {
        return Ok(());
    }
    let x = at.x.saturating_add(at.width).saturating_sub(11);
    page.put(&[
        Part::Own("<path class=\"x\" d=\"M"),
        Part::Number(u64::from(x)),
        Part::Own(" "),
        Part::Number(u64::from(at.y.saturating_add(2))),
        Part::Own("l7 7m0 -7l-7 7\"/>"),
    ])
}

// Whether a text of so many bytes fits into a width, each byte of at most so many units.
fn fits(bytes: usize, each: u32, width: u32) -> bool {
    bytes < 100 && (bytes as u32).saturating_mul(each).saturating_add(6) <= width
}

// Puts the words of a flown leg: its flight, and where there is room its route and passengers, and its times below.
fn put_words(
    page: &mut Page,
    inst: &Instance,
    info: &LegInfo,
    bar: &Bar,
    aboard: u32,
    at: Place,
) -> Result<(), NoMem> {
    let flight = info.flight.as_slice();
    if !fits(flight.len(), 8, at.width) {
        return Ok(());
    }
    let x = u64::from(at.x.saturating_add(4));
    page.put(&[
        Part::Own("<text x=\""),
        Part::Number(x),
        Part::Own("\" y=\""),
        Part::Number(u64::from(at.y.saturating_add(12))),
        Part::Own("\"><tspan class=\"b\">"),
        Part::Given(flight),
        Part::Own("</tspan>"),
    ])?;
    put_route(page, inst, info, at)?;
    page.put(&[Part::Own("</text>")])?;
    put_times(page, bar, aboard, x, at)
}

// Puts the route of a flown leg behind its flight, where there is room.
fn put_route(page: &mut Page, inst: &Instance, info: &LegInfo, at: Place) -> Result<(), NoMem> {
    let origin = airport_name(inst, info.origin);
    let dest = airport_name(inst, info.dest);
    let flight = info.flight.as_slice().len();
    let route = flight
        .saturating_add(origin.len())
        .saturating_add(dest.len());
    if !fits(route.saturating_add(2), 7, at.width) {
        return Ok(());
    }
    page.put(&[
        Part::Own(" "),
        Part::Given(origin),
        Part::Own("-"),
        Part::Given(dest),
    ])
}

// Puts the times of a flown leg, and its passengers after them where there is room.
fn put_times(page: &mut Page, bar: &Bar, aboard: u32, x: u64, at: Place) -> Result<(), NoMem> {
    if at.width < 74 {
        return Ok(());
    }
    page.put(&[
        Part::Own("<text class=\"t\" x=\""),
        Part::Number(x),
        Part::Own("\" y=\""),
        Part::Number(u64::from(at.y.saturating_add(24))),
        Part::Own("\">"),
        Part::Given(&clock(Minute(bar.from))),
        Part::Own("-"),
        Part::Given(&clock(Minute(bar.to))),
    ])?;
    if at.width >= 130 {
        page.put(&[
            Part::Own(" &#183; "),
            Part::Number(u64::from(aboard)),
            Part::Own(" pax"),
        ])?;
    }
    page.put(&[Part::Own("</text>")])
}

// Puts the words of a scheduled place: its flight, and where the leg went.
fn put_left(
    page: &mut Page,
    inst: &Instance,
    info: &LegInfo,
    look: Look,
    at: Place,
) -> Result<(), NoMem> {
    let flight = info.flight.as_slice();
    if !fits(flight.len(), 6, at.width) {
        return Ok(());
    }
    page.put(&[
        Part::Own("<text class=\"s\" x=\""),
        Part::Number(u64::from(at.x.saturating_add(4))),
        Part::Own("\" y=\""),
        Part::Number(u64::from(at.y.saturating_add(10))),
        Part::Own("\">"),
        Part::Given(flight),
    ])?;
    match look {
        Look::Left { now } if now != info.plane.0 => {
            let name = plane_name(inst, Plane(now));
            if fits(
                flight.len().saturating_add(name.len()).saturating_add(4),
                6,
                at.width,
            ) {
                page.put(&[Part::Own(" &#8594; "), Part::Given(name)])?;
            }
        }
        Look::Cancelled if fits(flight.len().saturating_add(12), 6, at.width) => {
            page.put(&[Part::Own(" cancelled")])?;
        }
        Look::Left { .. } | Look::Cancelled | Look::Flown { .. } => {}
    }
    page.put(&[Part::Own("</text>")])
}

// Puts all that there is to say of a leg, which is shown where a reader points at it.
fn put_title<'a>(
    page: &mut Page,
    inst: &'a Instance,
    info: &'a LegInfo,
    bar: &Bar,
    aboard: u32,
) -> Result<(), NoMem> {
    page.put(&[
        Part::Own("<title>"),
        Part::Given(info.flight.as_slice()),
        Part::Own(" "),
        Part::Given(airport_name(inst, info.origin)),
        Part::Own("-"),
        Part::Given(airport_name(inst, info.dest)),
        Part::Own(", scheduled "),
    ])?;
    put_time(page, info.sched, info.day)?;
    page.put(&[Part::Own(" by "), Part::Given(plane_name(inst, info.plane))])?;
    put_state(page, inst, info, bar, aboard)?;
    page.put(&[Part::Own("</title>")])
}

// Puts what became of a leg.
fn put_state(
    page: &mut Page,
    inst: &Instance,
    info: &LegInfo,
    bar: &Bar,
    aboard: u32,
) -> Result<(), NoMem> {
    match bar.look {
        Look::Cancelled => page.put(&[Part::Own(", cancelled")]),
        Look::Left { now } => page.put(&[
            Part::Own(", flown by "),
            Part::Given(plane_name(inst, Plane(now))),
        ]),
        Look::Flown { .. } => put_departure(page, info, bar, aboard),
    }
}

// Puts when a leg departs, and with how many passengers.
fn put_departure(page: &mut Page, info: &LegInfo, bar: &Bar, aboard: u32) -> Result<(), NoMem> {
    page.put(&[Part::Own(", departs ")])?;
    put_time(page, Minute(bar.from), info.day)?;
    page.put(&[
        Part::Own(" with "),
        Part::Number(u64::from(aboard)),
        Part::Own(" passengers"),
    ])
}

/// Puts a bar. The first piece of time in which a flown or cancelled leg stands has the mark `#legN`, to which the table of
/// legs points.
pub(crate) fn put_bar(
    page: &mut Page,
    inst: &Instance,
    span: Span,
    bar: &Bar,
    aboard: u32,
    y: u32,
) -> Result<(), NoMem> {
    let Some(info) = leg_of(inst, Leg(bar.leg)) else {
        return Ok(());
    };
    let x = span.place(bar.from);
    let width = span.place(bar.to).saturating_sub(x).max(2);
    let at = Place { x, y, width };
    put_start(page, span, bar)?;
    put_title(page, inst, info, bar, aboard)?;
    put_shape(page, bar.look, at)?;
    put_inside(page, inst, info, bar, aboard, at)?;
    page.put(&[Part::Own("</g>")])
}

// Puts the start of a bar, with its mark.
fn put_start(page: &mut Page, span: Span, bar: &Bar) -> Result<(), NoMem> {
    page.put(&[Part::Own("<g class=\""), Part::Own(class_of(bar.look))])?;
    if span.from <= bar.from && !matches!(bar.look, Look::Left { .. }) {
        page.put(&[Part::Own("\" id=\"leg"), Part::Number(u64::from(bar.leg))])?;
    }
    page.put(&[Part::Own("\">")])
}

// Puts what stands in the outline of a bar.
fn put_inside(
    page: &mut Page,
    inst: &Instance,
    info: &LegInfo,
    bar: &Bar,
    aboard: u32,
    at: Place,
) -> Result<(), NoMem> {
    match bar.look {
        Look::Flown { .. } => put_words(page, inst, info, bar, aboard, at),
        Look::Left { .. } => put_left(page, inst, info, bar.look, at),
        Look::Cancelled => {
            put_cross(page, at)?;
            put_left(page, inst, info, bar.look, at)
        }
    }
}
