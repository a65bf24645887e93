//! The rows of the aircraft.

use crate::airports::Closure;
use crate::axis::Span;
use crate::bars::{Bar, bars_in, lane_of};
use crate::draw::{BAR, OUTLINE, put_bar};
use crate::shades::{put_background, put_label, put_services};
use desk_data::{Instance, NoMem, Plane};
use page_parts::{Page, Part, plane_of};
use std::alloc::Global;

/// What all rows of a piece of time need.
#[derive(Clone, Copy)]
pub(crate) struct Sheet<'a> {
    pub inst: &'a Instance,
    pub bars: &'a [Bar],
    pub aboard: &'a [u32],
    pub closures: &'a [Closure],
    pub span: Span,
    /// The number of the piece, from 0.
    pub number: u32,
    /// Whether rows without a change are drawn thin.
    pub is_dense: bool,
}

// The passengers aboard a leg.
fn aboard_of(sheet: &Sheet<'_>, leg: u32) -> u32 {
    match sheet.aboard.get(leg as usize) {
        Some(count) => *count,
        None => 0,
    }
}

// How many lanes some bars take: of those that are flown, and of those that are not.
fn lanes_of(bars: &[Bar], is_flown: bool) -> u32 {
    let mut lanes = 0;
    for bar in bars {
        if bar.is_flown() == is_flown {
            lanes = lanes.max(lane_of(bars, bar).saturating_add(1));
        }
    }
    lanes
}

// Puts a row without a change as thin marks.
fn put_thin(page: &mut Page, sheet: &Sheet<'_>, bars: &[Bar], plane: u32) -> Result<(), NoMem> {
    page.put(&[
        Part::Own("<svg viewBox=\"0 0 1440 9\" role=\"img\"><use href=\"#g"),
        Part::Number(u64::from(sheet.number)),
        Part::Own("\"/>"),
    ])?;
    put_services(page, sheet.inst, sheet.span, plane, 5)?;
    page.put(&[Part::Own("<path class=\"thin-bar\" d=\"")])?;
    put_marks(page, sheet.span, bars)?;
    page.put(&[Part::Own("\"/></svg>")])
}

// Puts a thin mark for each bar.
fn put_marks(page: &mut Page, span: Span, bars: &[Bar]) -> Result<(), NoMem> {
    for bar in bars {
        let x = span.place(bar.from);
        page.put(&[
            Part::Own("M"),
            Part::Number(u64::from(x)),
            Part::Own(" 4.5H"),
            Part::Number(u64::from(span.place(bar.to).saturating_sub(2).max(x))),
        ])?;
    }
    Ok(())
}

// Puts a row with its bars, the flown ones in lanes above and the outlines below.
fn put_full(page: &mut Page, sheet: &Sheet<'_>, bars: &[Bar], plane: u32) -> Result<(), NoMem> {
    let above = lanes_of(bars, true)
        .max(1)
        .saturating_mul(BAR + 2)
        .saturating_add(2);
    let below = lanes_of(bars, false).saturating_mul(OUTLINE + 1);
    let height = above.saturating_add(below).saturating_add(2);
    put_behind(page, sheet, bars, plane, height)?;
    put_bars(page, sheet, bars, above)?;
    page.put(&[Part::Own("</svg>")])
}

// Puts what stands behind the bars of a row.
fn put_behind(
    page: &mut Page,
    sheet: &Sheet<'_>,
    bars: &[Bar],
    plane: u32,
    height: u32,
) -> Result<(), NoMem> {
    page.put(&[
        Part::Own("<svg viewBox=\"0 0 1440 "),
        Part::Number(u64::from(height)),
        Part::Own("\" role=\"img\">"),
    ])?;
    put_background(page, sheet.inst, sheet.closures, bars, sheet.span, height)?;
    page.put(&[
        Part::Own("<use href=\"#g"),
        Part::Number(u64::from(sheet.number)),
        Part::Own("\"/>"),
    ])?;
    put_services(page, sheet.inst, sheet.span, plane, BAR)
}

// Puts the bars of a row, and the outlines below so many units.
fn put_bars(page: &mut Page, sheet: &Sheet<'_>, bars: &[Bar], above: u32) -> Result<(), NoMem> {
    for bar in bars {
        let lane = lane_of(bars, bar);
        let y = if bar.is_flown() {
            lane.saturating_mul(BAR + 2).saturating_add(2)
        } else {
            lane.saturating_mul(OUTLINE + 1).saturating_add(above)
        };
        put_bar(
            page,
            sheet.inst,
            sheet.span,
            bar,
            aboard_of(sheet, bar.leg),
            y,
        )?;
    }
    Ok(())
}

// Puts the row of an aircraft.
fn put_row(page: &mut Page, alloc: Global, sheet: &Sheet<'_>, plane: u32) -> Result<(), NoMem> {
    let span = sheet.span;
    let bars = bars_in(alloc, sheet.bars, plane, span.from, span.end())?;
    put_row_of(page, sheet, bars.as_slice(), plane)
}

// Puts the row of an aircraft with these bars.
fn put_row_of(page: &mut Page, sheet: &Sheet<'_>, bars: &[Bar], plane: u32) -> Result<(), NoMem> {
    let is_thin = sheet.is_dense && !bars.iter().any(|bar| bar.is_change());
    let class = if is_thin { "thin-row" } else { "row" };
    put_row_start(page, sheet.inst, class, plane)?;
    if is_thin {
        put_thin(page, sheet, bars, plane)?;
    } else {
        put_full(page, sheet, bars, plane)?;
    }
    page.put(&[Part::Own("</td></tr>\n")])
}

// Puts the start of the row of an aircraft, up to its drawing.
fn put_row_start(
    page: &mut Page,
    inst: &Instance,
    class: &'static str,
    plane: u32,
) -> Result<(), NoMem> {
    page.put(&[
        Part::Own("<tr class=\""),
        Part::Own(class),
        Part::Own("\"><th scope=\"row\">"),
    ])?;
    put_label(page, inst, plane)?;
    page.put(&[Part::Own("</th><td>")])
}

// Whether two aircraft are of one family.
fn same_family(inst: &Instance, plane: u32, other: u32) -> bool {
    match (plane_of(inst, Plane(plane)), plane_of(inst, Plane(other))) {
        (Some(a), Some(b)) => a.family.as_slice() == b.family.as_slice(),
        _ => false,
    }
}

// Whether no aircraft before this one is of its family.
fn is_first(inst: &Instance, plane: u32) -> bool {
    for other in 0..plane {
        if same_family(inst, plane, other) {
            return false;
        }
    }
    true
}

// Puts the name of the family of an aircraft.
fn put_family_name(page: &mut Page, inst: &Instance, first: u32) -> Result<(), NoMem> {
    let Some(info) = plane_of(inst, Plane(first)) else {
        return Ok(());
    };
    page.put(&[
        Part::Own("<tr class=\"f\"><th scope=\"rowgroup\">"),
        Part::Given(info.family.as_slice()),
        Part::Own("</th><td>"),
        Part::Own(if info.surface {
            "surface transport"
        } else {
            ""
        }),
        Part::Own("</td></tr>\n"),
    ])
}

// Puts the aircraft of a family, in their order, below its name.
fn put_family(page: &mut Page, alloc: Global, sheet: &Sheet<'_>, first: u32) -> Result<(), NoMem> {
    let inst = sheet.inst;
    put_family_name(page, inst, first)?;
    for plane in first..inst.planes() {
        if same_family(inst, first, plane) {
            put_row(page, alloc, sheet, plane)?;
        }
    }
    Ok(())
}

/// Puts the rows of all aircraft, family by family.
pub(crate) fn put_planes(page: &mut Page, alloc: Global, sheet: &Sheet<'_>) -> Result<(), NoMem> {
    for plane in 0..sheet.inst.planes() {
        if is_first(sheet.inst, plane) {
            put_family(page, alloc, sheet, plane)?;
        }
    }
    Ok(())
}
