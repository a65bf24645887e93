//! What the schedule and the plan cost, term by term.

use crate::{CostTerms, Page, Part, put_units, shown_term, ten_thousandths};
use desk_data::{Grains, NoMem};

// A row of the table: a term, what it counts, and what the schedule and the plan cost in it, in ten-thousandths of a unit.
#[derive(Clone, Copy)]
struct TermRow {
    name: &'static str,
    counts: &'static str,
    before: u128,
    after: u128,
}

// How wide the bars are.
const WIDTH: u128 = 160;

// The sum of two sums.
fn plus(a: Grains, b: Grains) -> Grains {
    Grains(a.0.saturating_add(b.0))
}

/// The sum of all terms.
pub(crate) fn sum_of(terms: &CostTerms) -> Grains {
    let flown = plus(terms.operating, terms.delay);
    let carried = plus(plus(flown, terms.cancellation), terms.downgrade);
    plus(plus(carried, terms.legal), terms.position)
}

// The terms in their order, each with what was summed up before it.
fn shown_terms(terms: &CostTerms) -> [u128; 6] {
    let a = terms.operating;
    let b = plus(a, terms.delay);
    let c = plus(b, terms.cancellation);
    let d = plus(c, terms.downgrade);
    let e = plus(d, terms.legal);
    [
        ten_thousandths(a),
        shown_term(a, terms.delay),
        shown_term(b, terms.cancellation),
        shown_term(c, terms.downgrade),
        shown_term(d, terms.legal),
        shown_term(e, terms.position),
    ]
}

// A row of the table.
fn row(name: &'static str, counts: &'static str, before: u128, after: u128) -> TermRow {
    TermRow {
        name,
        counts,
        before,
        after,
    }
}

// The rows of the table.
fn rows_of(before: &CostTerms, after: &CostTerms) -> [TermRow; 6] {
    let was = shown_terms(before);
    let is = shown_terms(after);
    [
        row("Operating", "the hours that aircraft fly", was[0], is[0]),
        row(
            "Delay",
            "the hours by which passengers arrive late",
            was[1],
            is[1],
        ),
        row(
            "Cancellation",
            "passengers who are not carried",
            was[2],
            is[2],
        ),
        row(
            "Downgrade",
            "legs in a lower cabin than booked",
            was[3],
            is[3],
        ),
        row("Legal", "care, compensation and refunds", was[4], is[4]),
        row(
            "Position",
            "aircraft missing where the window ends",
            was[5],
            is[5],
        ),
    ]
}

/// Puts how much more or less something costs.
pub(crate) fn put_difference(page: &mut Page, before: u128, after: u128) -> Result<(), NoMem> {
    if after < before {
        page.put(&[Part::Own("&#8722;")])?;
        return put_units(page, before - after);
    }
    if before < after {
        page.put(&[Part::Own("+")])?;
    }
    put_units(page, after - before)
}

// How wide the bar of a sum is, where the greatest has the whole width.
fn width_of(sum: u128, most: u128) -> u64 {
    if most == 0 || sum >= most {
        return if sum == 0 { 0 } else { 160 };
    }
    let width = sum.min(u128::MAX / WIDTH) * WIDTH / most;
    if width < 160 { width as u64 } else { 160 }
}

// Puts the bars of a term: an outline for the schedule, a solid bar for the plan.
fn put_bars(page: &mut Page, before: u128, after: u128, most: u128) -> Result<(), NoMem> {
    page.put(&[
        Part::Own(
            "<svg class=\"two\" viewBox=\"0 0 162 12\" role=\"img\"><rect class=\"was\" x=\"1\" y=\"1\" height=\"10\" width=\"",
        ),
        Part::Number(width_of(before, most)),
        Part::Own("\"/><rect class=\"is\" x=\"1\" y=\"4\" height=\"4\" width=\""),
        Part::Number(width_of(after, most)),
        Part::Own("\"/></svg>"),
    ])
}

// Puts a row of the table.
fn put_row(page: &mut Page, row: TermRow, most: u128) -> Result<(), NoMem> {
    page.put(&[
        Part::Own("<tr><th scope=\"row\">"),
        Part::Own(row.name),
        Part::Own("</th><td class=\"r was\">"),
    ])?;
    put_units(page, row.before)?;
    page.put(&[Part::Own("</td><td class=\"r\">")])?;
    put_units(page, row.after)?;
    page.put(&[Part::Own("</td><td class=\"r\">")])?;
    put_difference(page, row.before, row.after)?;
    page.put(&[Part::Own("</td><td>")])?;
    put_bars(page, row.before, row.after, most)?;
    page.put(&[
        Part::Own("</td><td class=\"note\">"),
        Part::Own(row.counts),
        Part::Own("</td></tr>\n"),
    ])
}

// The greatest of the sums in a table.
fn most_of(rows: &[TermRow]) -> u128 {
    let mut most = 0;
    for row in rows {
        most = u128::max(most, row.before.max(row.after));
    }
    most
}

/// Puts what the schedule and the plan cost, in units with four decimals: the terms add up to the sums, and these to the exact
/// cost in grains below them.
pub fn put_costs(page: &mut Page, before: &CostTerms, after: &CostTerms) -> Result<(), NoMem> {
    let rows = rows_of(before, after);
    let most = most_of(&rows);
    page.put(&[Part::Own(
        "<section><h2>Cost by term <small>in units of money</small></h2>\n<table class=\"t\"><thead><tr>\
<th scope=\"col\">Term</th><th scope=\"col\" class=\"r\">Schedule</th><th scope=\"col\" class=\"r\">Recovered</th>\
<th scope=\"col\" class=\"r\">Difference</th><th scope=\"col\">Outline schedule, solid recovered</th>\
<th scope=\"col\">For</th></tr></thead>\n<tbody>\n",
    )])?;
    for row in rows.iter() {
        put_row(page, *row, most)?;
    }
    page.put(&[Part::Own("</tbody><tfoot><tr><th scope=\"row\">Sum</th><td class=\"r was\">")])?;
    let was = ten_thousandths(sum_of(before));
    let is = ten_thousandths(sum_of(after));
    put_units(page, was)?;
    page.put(&[Part::Own("</td><td class=\"r\">")])?;
    put_units(page, is)?;
    page.put(&[Part::Own("</td><td class=\"r\">")])?;
    put_difference(page, was, is)?;
    page.put(&[Part::Own(
        "</td><td colspan=\"2\" class=\"note\">each term is rounded so that a column adds up</td></tr></tfoot></table></section>\n",
    )])
}
