//! The whole picture.

ghost use Rattle.desk_data.specs.Valid.{IsPlanFor};

use crate::airports::{closures_in, put_airports};
use crate::axis::{Span, put_grid, put_hours, spans_of};
use crate::bars::{Bar, aboard_of, bars_of};
use crate::rows::{Sheet, put_planes};
use desk_data::{Instance, Minute, NoMem, Plan};
use page_parts::{Page, Part, date};
use std::alloc::Global;

// More aircraft than these are drawn thin where nothing changed.
const FULL_ROWS: u32 = 60;

/// What is drawn of a plan.
pub struct Picture {
    bars: Vec<Bar>,
    aboard: Vec<u32>,
    spans: Vec<Span>,
}

/// Dropped in one call, so that a function that owns one proves it once, and not part by part.
impl Drop for Picture {
    fn drop(self) {
        let Picture {
            bars: _,
            aboard: _,
            spans: _,
        } = self;
    }
}

// From the first moment at which something stands to the last; of a day without legs the start of its window.
fn ends_of(inst: &Instance, bars: &[Bar]) -> (u32, u32) {
    let start = inst.window().0.0;
    let mut first = start;
    let mut last = start;
    for (k, bar) in bars.iter().enumerate() {
        if k == 0 || bar.from < first {
            first = bar.from;
        }
        if last < bar.to {
            last = bar.to;
        }
    }
    (first, last)
}

impl Picture {
    /// The picture of a plan beside the schedule. The only error is out of memory.
    pub fn of(alloc: Global, inst: &Instance, plan: &Plan) -> Result<Picture, NoMem>
        requires { IsPlanFor inst.now plan.now }
    {
        let bars = bars_of(alloc, inst, plan)?;
        let aboard = aboard_of(alloc, inst, plan)?;
        let (first, last) = ends_of(inst, bars.as_slice());
        let spans = spans_of(alloc, first, last)?;
        Ok(Picture {
            bars,
            aboard,
            spans,
        })
    }

    /// How many passengers are aboard each leg, by its number.
    pub fn aboard(&self) -> &[u32] {
        self.aboard.as_slice()
    }

    /// Whether it has more than one piece of time.
    pub fn is_long(&self) -> bool {
        self.spans.len() > 1
    }
}

// Puts a piece of time, if something stands in it.
fn put_span(
    page: &mut Page,
    alloc: Global,
    inst: &Instance,
    picture: &Picture,
    span: Span,
    number: u32,
) -> Result<(), NoMem> {
    let bars = picture.bars.as_slice();
    if picture.is_long() && !bars.iter().any(|bar| span.has(bar.from, bar.to)) {
        return Ok(());
    }
    let closures = closures_in(alloc, inst, span)?;
    let sheet = Sheet {
        inst,
        bars,
        aboard: picture.aboard.as_slice(),
        closures: closures.as_slice(),
        span,
        number,
        is_dense: inst.planes() > FULL_ROWS,
    };
    put_table(page, alloc, &sheet)
}

// Puts the table of a piece of time, below the lines of its hours.
fn put_table(page: &mut Page, alloc: Global, sheet: &Sheet<'_>) -> Result<(), NoMem> {
    put_head(page, sheet.span, sheet.number)?;
    put_airports(page, sheet.inst, sheet.closures, sheet.span, sheet.number)?;
    put_planes(page, alloc, sheet)?;
    page.put(&[Part::Own("</tbody></table>\n")])
}

// Puts the lines of a piece's hours, the caption of its table, and the hours above the rows.
fn put_head(page: &mut Page, span: Span, number: u32) -> Result<(), NoMem> {
    put_grid(page, span, number)?;
    page.put(&[
        Part::Own("<table class=\"gantt\"><caption>Aircraft on "),
        Part::Given(&date(Minute(span.from))),
        Part::Own("</caption>\n"),
    ])?;
    put_hours(page, span)?;
    page.put(&[Part::Own("<tbody>\n")])
}

/// Puts the picture on a page, a table for each day. The only error is out of memory.
pub fn put_picture(
    page: &mut Page,
    alloc: Global,
    inst: &Instance,
    picture: &Picture,
) -> Result<(), NoMem> {
    if picture.bars.is_empty() {
        page.put(&[Part::Own("<p class=\"none\">This day has no legs.</p>\n")])?;
    }
    let mut number = 0;
    for span in picture.spans.iter() {
        put_span(page, alloc, inst, picture, *span, number)?;
        number = u32::saturating_add(number, 1);
    }
    Ok(())
}
