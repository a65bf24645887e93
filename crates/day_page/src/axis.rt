//! The time axis: the days that are drawn, and where a moment stands.

use desk_data::{Minute, NoMem};
use page_parts::{Page, Part, clock, date};
use std::alloc::Global;

/// How wide a drawing is.
pub(crate) const WIDTH: u32 = 1_440;

// A day of so many minutes is drawn in one piece.
const LONGEST: u32 = 1_800;

// How many days are drawn at most.
const MOST_DAYS: u32 = 60;

/// A piece of time that is drawn: so many minutes from a moment on.
#[derive(Clone, Copy)]
pub(crate) struct Span {
    /// In minutes since 01/01/2000 00:00.
    pub from: u32,
    pub minutes: u32,
}

impl Span {
    /// Where a moment stands, from the left edge.
    pub(crate) fn place(self, at: u32) -> u32 {
        if self.minutes == 0 || at <= self.from {
            return 0;
        }
        let after = at - self.from;
        if after >= self.minutes {
            return WIDTH;
        }
        let place = u64::from(after) * u64::from(WIDTH) / u64::from(self.minutes);
        if place < 1_440 { place as u32 } else { WIDTH }
    }

    /// The moment after its last minute.
    pub(crate) fn end(self) -> u32 {
        self.from.saturating_add(self.minutes)
    }

    /// Whether something that lasts from one moment to another is in it.
    pub(crate) fn has(self, from: u32, to: u32) -> bool {
        from < self.end() && self.from < to
    }
}

/// The pieces of a time from one hour to another: the whole of it where it is short, and else its days.
pub(crate) fn spans_of(alloc: Global, first: u32, last: u32) -> Result<Vec<Span>, NoMem> {
    let mut spans = Vec::new(alloc);
    let from = first / 60 * 60;
    let minutes = last.saturating_sub(from);
    if minutes <= LONGEST {
        spans.push(Span {
            from,
            minutes: minutes.saturating_add(59).max(240) / 60 * 60,
        })?;
        return Ok(spans);
    }
    for k in 0..MOST_DAYS {
        let from = (first / 1_440).saturating_add(k).saturating_mul(1_440);
        if from < last {
            spans.push(Span {
                from,
                minutes: 1_440,
            })?;
        }
    }
    Ok(spans)
}

/// Puts the lines of a piece's hours, once for all of its rows: `#gN` names them.
pub(crate) fn put_grid(page: &mut Page, span: Span, number: u32) -> Result<(), NoMem> {
    page.put(&[
        Part::Own(
            "<svg class=\"defs\" width=\"0\" height=\"0\" aria-hidden=\"true\"><defs><g id=\"g",
        ),
        Part::Number(u64::from(number)),
        Part::Own("\">"),
    ])?;
    for hour in 1..span.minutes / 60 {
        let at = span.from.saturating_add(hour.saturating_mul(60));
        let class = if at % 1_440 == 0 { "mid" } else { "hr" };
        page.put(&[
            Part::Own("<path class=\""),
            Part::Own(class),
            Part::Own("\" d=\"M"),
            Part::Number(u64::from(span.place(at))),
            Part::Own(" 0V400\"/>"),
        ])?;
    }
    page.put(&[Part::Own("</g></defs></svg>\n")])
}

/// Puts the hours above the rows.
pub(crate) fn put_hours(page: &mut Page, span: Span) -> Result<(), NoMem> {
    page.put(&[
        Part::Own("<thead><tr><th scope=\"col\">"),
        Part::Given(&date(Minute(span.from))),
        Part::Own("</th><td><svg viewBox=\"0 0 1440 18\" role=\"img\" aria-label=\"hours\">"),
    ])?;
    for hour in 0..span.minutes / 60 {
        let at = Minute(span.from.saturating_add(hour.saturating_mul(60)));
        page.put(&[
            Part::Own("<text class=\"h\" x=\""),
            Part::Number(u64::from(span.place(at.0).saturating_add(2))),
            Part::Own("\" y=\"13\">"),
            Part::Given(&clock(at)),
            Part::Own("</text>"),
        ])?;
    }
    page.put(&[Part::Own("</svg></td></tr></thead>\n")])
}
