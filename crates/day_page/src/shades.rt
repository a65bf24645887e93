//! What is shaded in a row: times out of service, maintenance, closed airports and what lies outside the window.

use crate::airports::{Closure, Limit};
use crate::axis::{Span, WIDTH};
use crate::bars::Bar;
use desk_data::{Instance, Leg, Maint, NoMem, Plane};
use page_parts::{Page, Part, airport_name, leg_of, plane_of};

/// Puts a shaded piece, with a word in it where there is room.
pub(crate) fn put_shade(
    page: &mut Page,
    span: Span,
    from: u32,
    to: u32,
    class: &'static str,
    word: &'static str,
    y: u32,
    height: u32,
) -> Result<(), NoMem> {
    let x = span.place(from);
    let end = span.place(to);
    if end <= x {
        return Ok(());
    }
    page.put(&[
        Part::Own("<rect class=\""),
        Part::Own(class),
        Part::Own("\" x=\""),
        Part::Number(u64::from(x)),
        Part::Own("\" y=\""),
        Part::Number(u64::from(y)),
        Part::Own("\" width=\""),
        Part::Number(u64::from(end - x)),
        Part::Own("\" height=\""),
        Part::Number(u64::from(height)),
        Part::Own("\"/>"),
    ])?;
    if word.is_empty() || end - x < 90 {
        return Ok(());
    }
    put_word(page, x.saturating_add(4), y.saturating_add(2), word)
}

// Puts a word on a plate of its own, so that it can be read on a pattern.
fn put_word(page: &mut Page, x: u32, y: u32, word: &'static str) -> Result<(), NoMem> {
    page.put(&[
        Part::Own("<rect class=\"plate\" x=\""),
        Part::Number(u64::from(x)),
        Part::Own("\" y=\""),
        Part::Number(u64::from(y)),
        Part::Own("\" width=\""),
        Part::Number((word.len() as u64).saturating_mul(5).saturating_add(6)),
        Part::Own("\" height=\"11\"/><text class=\"w\" x=\""),
        Part::Number(u64::from(x.saturating_add(2))),
        Part::Own("\" y=\""),
        Part::Number(u64::from(y.saturating_add(9))),
        Part::Own("\">"),
        Part::Own(word),
        Part::Own("</text>"),
    ])
}

/// Puts what is shaded behind the bars of an aircraft: the hours in which an airport of its legs is closed, and what lies
/// outside the window.
pub(crate) fn put_background(
    page: &mut Page,
    inst: &Instance,
    closures: &[Closure],
    bars: &[Bar],
    span: Span,
    height: u32,
) -> Result<(), NoMem> {
    let (from, to) = inst.window();
    put_shade(page, span, span.from, from.0, "out", "", 0, height)?;
    put_shade(page, span, to.0, span.end(), "out", "", 0, height)?;
    put_closed(page, inst, closures, bars, span, height)?;
    put_edge(page, span, from.0, height)?;
    put_edge(page, span, to.0, height)
}

// Puts the hours in which an airport of some legs is closed.
fn put_closed(
    page: &mut Page,
    inst: &Instance,
    closures: &[Closure],
    bars: &[Bar],
    span: Span,
    height: u32,
) -> Result<(), NoMem> {
    for closure in closures {
        if closure.limit == Limit::Closed && is_used(inst, bars, closure) {
            put_shade(page, span, closure.from, closure.to, "near", "", 0, height)?;
        }
    }
    Ok(())
}

// Puts the line of the window's start or end.
fn put_edge(page: &mut Page, span: Span, at: u32, height: u32) -> Result<(), NoMem> {
    if at < span.from || span.end() < at {
        return Ok(());
    }
    let x = span.place(at).max(1).min(WIDTH - 1);
    page.put(&[
        Part::Own("<path class=\"win\" d=\"M"),
        Part::Number(u64::from(x)),
        Part::Own(" 0V"),
        Part::Number(u64::from(height)),
        Part::Own("\"/>"),
    ])
}

// Whether a leg leaves an airport or arrives there.
fn touches(inst: &Instance, bar: &Bar, airport: u32) -> bool {
    match leg_of(inst, Leg(bar.leg)) {
        Some(info) => info.origin.0 == airport || info.dest.0 == airport,
        None => false,
    }
}

// Whether one of some legs leaves the airport of a closure or arrives there.
fn is_used(inst: &Instance, bars: &[Bar], closure: &Closure) -> bool {
    bars.iter().any(|bar| touches(inst, bar, closure.airport))
}

/// Puts the times in which an aircraft is out of service, and its maintenance.
pub(crate) fn put_services(
    page: &mut Page,
    inst: &Instance,
    span: Span,
    plane: u32,
    height: u32,
) -> Result<(), NoMem> {
    if plane >= inst.planes() {
        return Ok(());
    }
    for (from, to) in inst.spans(Plane(plane)) {
        put_shade(page, span, from.0, to.0, "oos", "out of service", 2, height)?;
    }
    put_maintenance(page, span, inst.plane(Plane(plane)).maint, height)
}

// Puts the maintenance of an aircraft, if it has any.
fn put_maintenance(
    page: &mut Page,
    span: Span,
    maint: Option<Maint>,
    height: u32,
) -> Result<(), NoMem> {
    match maint {
        None => Ok(()),
        Some(maint) => put_shade(
            page,
            span,
            maint.from.0,
            maint.to.0,
            "mnt",
            "maintenance",
            2,
            height,
        ),
    }
}

/// Puts the label of an aircraft: its name, model and seats.
pub(crate) fn put_label(page: &mut Page, inst: &Instance, plane: u32) -> Result<(), NoMem> {
    let Some(info) = plane_of(inst, Plane(plane)) else {
        return Ok(());
    };
    page.put(&[
        Part::Own("<b>"),
        Part::Given(info.name.as_slice()),
        Part::Own("</b> <small>"),
        Part::Given(info.model.as_slice()),
        Part::Own(" "),
        Part::Number(u64::from(info.seats.f)),
        Part::Own("/"),
        Part::Number(u64::from(info.seats.b)),
        Part::Own("/"),
        Part::Number(u64::from(info.seats.e)),
        Part::Own("</small>"),
    ])?;
    if let Some(maint) = info.maint {
        page.put(&[
            Part::Own(" <small>maintenance at "),
            Part::Given(airport_name(inst, maint.airport)),
            Part::Own("</small>"),
        ])?;
    }
    Ok(())
}
