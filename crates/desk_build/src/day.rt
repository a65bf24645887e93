//! The day of the rows.

ghost use Rattle.std.specs.Prelude.{◌≡◌, ◌≢◌, map, IfOk};
ghost use Rattle.std.specs.List.{AllPairs};
ghost use Rattle.build_tables.specs.Facts.{AreFileRows};
ghost use Rattle.build_tables.specs.Fitting.{AreFew, FitTogether};
ghost use Rattle.desk_build.specs.Legs.{leg_of, HasKnownFlights};
ghost use Rattle.desk_build.specs.Day.{parts_of, day_of};

use crate::airports::airports;
use crate::distances::distances;
use crate::legs::leg_of;
use crate::planes::planes;
use crate::positions::positions;
use crate::reservations::reservations;
use build_tables::NameTables;
use desk_data::{Instance, LegInfo, Parts};
use desk_units::{List, NoMem, Tariff};
use std::alloc::Global;

/// The legs, in the order of the lines of their rotations.
fn legs(alloc: Global, tables: &NameTables<'_>) -> Result<Vec<LegInfo>, NoMem>
    requires rows { AreFileRows tables.now.files.now }
    requires few { AreFew tables.now.files.now }
    requires known { HasKnownFlights tables.now.files.now }
    ensures { IfOk result (λ legs. legs.items ≡ map (leg_of tables.now.files.now) tables.now.files.now.rotations) }
{
    let rows = tables.files.rotations.as_slice();
    let mut legs = Vec::with_capacity(alloc, rows.len())?;
    for row in rows {
        legs.push(leg_of(tables, row))?;
    }
    Ok(legs)
}

/// The rows of the day.
#[tactic(auto, unfolding(crate::specs::Day::parts_of))]
fn parts(alloc: Global, tables: &NameTables<'_>) -> Result<Parts, NoMem>
    requires rows { AreFileRows tables.now.files.now }
    requires few { AreFew tables.now.files.now }
    requires apart { AllPairs (λ a b. a.airport ≢ b.airport) tables.now.files.now.airports }
    requires known { HasKnownFlights tables.now.files.now }
    ensures { IfOk result (λ parts. parts ≡ parts_of tables.now.files.now) }
{
    let airports = airports(alloc, tables.files.airports.as_slice())?;
    let planes = planes(alloc, tables)?;
    let legs = legs(alloc, tables)?;
    let res = reservations(alloc, tables)?;
    let positions = positions(alloc, tables)?;
    let dist = distances(alloc, tables)?;
    let tariff = Vec::from_slice(alloc, tables.files.tariff.rows.as_slice())?;
    Ok(Parts {
        airports: List(airports),
        planes: List(planes),
        legs: List(legs),
        res: List(res),
        from: tables.files.config.from,
        to: tables.files.config.to,
        positions: List(positions),
        dist: List(dist),
        tariff: Tariff { rows: List(tariff) },
    })
}

/// The day of the rows, before any batch. The only error is out of memory.
pub fn day_of(alloc: Global, tables: &NameTables<'_>) -> Result<Instance, NoMem>
    requires rows { AreFileRows tables.now.files.now }
    requires fit { FitTogether tables.now.files.now }
    ensures { IfOk result (λ day. day ≡ day_of tables.now.files.now) }
{
    let parts = parts(alloc, tables)?;
    let day = Instance::of(alloc, parts)?;
    Ok(day)
}
