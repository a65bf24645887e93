//! The batches of the alt files and of the feed.

ghost use Rattle.std.specs.Prelude.{◌≡◌, ◌+◌, ◌≤◌, ◌++◌, [], ◌∷◌, ◌==◌, None, if◌then◌else◌, length, All, IfOk, OnOk};
ghost use Rattle.file_rows.specs.Limits.{most_batches};
ghost use Rattle.desk_data.specs.Valid.{IsBatch};
ghost use Rattle.build_tables.specs.Facts.{AreFileRows};
ghost use Rattle.build_tables.specs.Fitting.{AreFew, FitTogether};
ghost use Rattle.desk_build.specs.Day.{parts_of};
ghost use Rattle.desk_build.specs.Batches.{order_of, orders_of, opening_orders, batch_with, with_row, batches_of};

use crate::legs::{airport_of, leg_at, plane_of};
use build_tables::NameTables;
use desk_data::{Batch, Order};
use desk_units::{List, NoMem};
use file_rows::AltRow;
use std::alloc::Global;

/// The order of a row, where it has one.
fn order_of(tables: &NameTables<'_>, row: &AltRow) -> Option<Order>
    requires { AreFew tables.now.files.now }
    ensures { result ≡ order_of tables.now.files.now row.now }
{
    match row {
        AltRow::Flight {
            flight,
            day,
            delay,
            ..
        } => Some(Order::Flight {
            leg: leg_at(tables, flight, *day),
            delay: *delay,
        }),
        AltRow::Aircraft {
            aircraft,
            from,
            to,
            ..
        } => Some(Order::Aircraft {
            plane: plane_of(tables, aircraft),
            from: *from,
            to: *to,
        }),
        AltRow::Field {
            airport,
            from,
            to,
            deps,
            arrs,
            ..
        } => Some(Order::Field {
            airport: airport_of(tables, airport),
            from: *from,
            to: *to,
            deps: *deps,
            arrs: *arrs,
        }),
        AltRow::Nothing { .. } => None,
        AltRow::At { .. } => None,
    }
}

/// Adds the order of a row, where it has one.
fn push_order(tables: &NameTables<'_>, orders: &mut Vec<Order>, row: &AltRow) -> Result<(), NoMem>
    requires { AreFew tables.now.files.now }
    ensures { OnOk result (orders.new.items ≡ orders.old.items ++ orders_of tables.now.files.now (row.now ∷ [])) }
{
    if let Some(order) = order_of(tables, row) {
        orders.push(order)?;
    }
    Ok(())
}

/// Adds the orders of rows.
fn push_orders(
    tables: &NameTables<'_>,
    orders: &mut Vec<Order>,
    rows: &[AltRow],
) -> Result<(), NoMem>
    requires { AreFew tables.now.files.now }
    ensures { OnOk result (orders.new.items ≡ orders.old.items ++ orders_of tables.now.files.now rows.now) }
{
    for row in rows {
        push_order(tables, orders, row)?;
    }
    Ok(())
}

/// The orders of the alt files, in file order.
fn opening_orders(alloc: Global, tables: &NameTables<'_>) -> Result<Vec<Order>, NoMem>
    requires { AreFew tables.now.files.now }
    ensures { IfOk result (λ orders. orders.items ≡ opening_orders tables.now.files.now) }
{
    let files = tables.files;
    let mut orders = Vec::new(alloc);
    push_orders(tables, &mut orders, files.alt_flights.as_slice())?;
    push_orders(tables, &mut orders, files.alt_aircraft.as_slice())?;
    push_orders(tables, &mut orders, files.alt_airports.as_slice())?;
    Ok(orders)
}

/// A batch, with what one more row of it says: its order, or the moment of the batch.
fn with_row(tables: &NameTables<'_>, batch: Batch, row: &AltRow) -> Result<Batch, NoMem>
    requires { AreFew tables.now.files.now }
    ensures { IfOk result (λ taken. taken ≡ with_row tables.now.files.now batch row.now) }
{
    let Batch { at, orders } = batch;
    let mut orders = orders.0;
    push_order(tables, &mut orders, row)?;
    Ok(Batch {
        at: row.moment().or(at),
        orders: List(orders),
    })
}

/// What the batch that a row of the feed is of has so far, with what the row says. Where it is not the batch
/// of the rows before it, their batch is done.
fn take_row(
    alloc: Global,
    tables: &NameTables<'_>,
    done: &mut Vec<Batch>,
    batch: Batch,
    number: u32,
    fed: &(u32, AltRow),
) -> Result<Batch, NoMem>
    requires { AreFew tables.now.files.now }
    ensures done { OnOk result (done.new.items ≡ (if fed.now.0 == number then done.old.items else done.old.items ++ batch ∷ [])) }
    ensures taken { IfOk result (λ taken. taken ≡ with_row tables.now.files.now (if fed.now.0 == number then batch else batch_with None []) fed.now.1) }
{
    if fed.0 == number {
        return with_row(tables, batch, &fed.1);
    }
    done.push(batch)?;
    let next = Batch {
        at: None,
        orders: List(Vec::new(alloc)),
    };
    with_row(tables, next, &fed.1)
}

/// Batch 0 and the batches of the feed: each row is looked at once.
fn filled(alloc: Global, tables: &NameTables<'_>) -> Result<Vec<Batch>, NoMem>
    requires rows { AreFileRows tables.now.files.now }
    requires fit { FitTogether tables.now.files.now }
    ensures { IfOk result (λ batches. batches.items ≡ batches_of tables.now.files.now) }
{
    let rows = tables.files.feed.as_slice();
    let opening = opening_orders(alloc, tables)?;
    let mut batch = Batch {
        at: None,
        orders: List(opening),
    };
    let mut done = Vec::new(alloc);
    let mut number = 0;
    for fed in rows {
        batch = take_row(alloc, tables, &mut done, batch, number, fed)?;
        number = fed.0;
    }
    done.push(batch)?;
    Ok(done)
}

/// The batches: batch 0 has the orders of alt_flights.csv, alt_aircraft.csv and alt_airports.csv in this
/// order and tells no moment, and batch k, from 1 to the last number, has the orders of the rows of the feed
/// with the number k, and the moment that one of them tells, if one does. A batch may be empty. The only
/// error is out of memory.
pub fn batches_of(alloc: Global, tables: &NameTables<'_>) -> Result<Vec<Batch>, NoMem>
    requires rows { AreFileRows tables.now.files.now }
    requires fit { FitTogether tables.now.files.now }
    ensures exact { IfOk result (λ batches. batches.items ≡ batches_of tables.now.files.now) }
    ensures few { IfOk result (λ batches. length batches.items ≤ most_batches + 1) }
    ensures batches { IfOk result (λ batches. All (IsBatch (parts_of tables.now.files.now)) batches.items) }
{
    let batches = filled(alloc, tables)?;
    Ok(batches)
}
