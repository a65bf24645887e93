//! Which rows make a day, and which batches it takes.

use super::days::day_of;
use super::texts::VIEWED;
use day_checks::{are_parts, can_add};
use desk_data::{Batch, Instance, List, Minute, Parts, Price, Tariff, TariffRow};
use std::alloc::Global;
use std::test::Fail;

/// Whether rows that each give the price of a missing aircraft make a day, beside no other rows.
fn make_a_day(alloc: Global, prices: &[u64]) -> Result<bool, Fail> {
    let mut rows = Vec::new(alloc);
    for price in prices {
        rows.push(TariffRow::Position {
            price: Price(*price),
        })?;
    }
    let parts = Parts {
        airports: List(Vec::new(alloc)),
        planes: List(Vec::new(alloc)),
        legs: List(Vec::new(alloc)),
        res: List(Vec::new(alloc)),
        from: Minute(0),
        to: Minute(52_500_000),
        positions: List(Vec::new(alloc)),
        dist: List(Vec::new(alloc)),
        tariff: Tariff { rows: List(rows) },
    };
    Ok(are_parts(alloc, &parts)?)
}

/// Prices, and whether they make a day: each is there once, and has 13 digits at most.
const DAYS: [(&[u64], bool); 4] = [
    (&[], true),
    (&[9_999_999_999_999], true),
    (&[10_000_000_000_000], false),
    (&[500, 500], false),
];

#[test]
fn rows_make_a_day_or_not(rt: HostRuntime) -> Result<(), Fail> {
    for (prices, expected) in &DAYS {
        assert_eq!(rt; make_a_day(rt.alloc(), prices)?, *expected, "{prices:?}");
    }
    Ok(())
}

/// Whether the rows of a day make one, and whether it takes a batch of this moment.
fn takes(alloc: Global, inst: &Instance, at: u32) -> Result<(bool, bool), Fail> {
    let batch = Batch {
        at: Some(Minute(at)),
        orders: List(Vec::new(alloc)),
    };
    Ok((are_parts(alloc, inst.parts())?, can_add(inst, &batch)))
}

/// The same of the day of the views.
fn day_takes(alloc: Global, at: u32) -> Result<(bool, bool), Fail> {
    let inst = day_of(alloc, &[], VIEWED)?;
    takes(alloc, &inst, at)
}

#[test]
fn a_day_takes_batches_up_to_its_last_moment(rt: HostRuntime) -> Result<(), Fail> {
    assert!(rt; day_takes(rt.alloc(), 52_480_000)? == (true, true));
    assert!(rt; day_takes(rt.alloc(), 52_480_001)? == (true, false));
    Ok(())
}
