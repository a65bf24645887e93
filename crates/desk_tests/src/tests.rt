//! The tests, by what they ask. The walks of boards, by board, are here.

mod boards;
mod changes;
mod checks;
mod days;
mod draws;
mod evaluator;
mod lent;
mod limits;
mod pages;
mod texts;
mod usual;
mod views;
mod walk;

use board_kit::SlotBoard;
use board_rot::RotBoard;
use board_seats::SeatBoard;
use days::Orders;
use lent::LentCostBoard;
use std::alloc::Global;
use std::test::Fail;
use walk::{STEPS, Walkable, walked};

/// Walks of rotations and of hours: the day, the seed of the draws, and how many of 12 changes are of rows and not of passengers.
const OF_ROWS: [(Orders, u64, u32); 6] = [
    (Orders::None, 1, 11),
    (Orders::None, 2, 12),
    (Orders::Told, 3, 11),
    (Orders::Told, 4, 12),
    (Orders::ToldLater, 5, 11),
    (Orders::ToldLater, 6, 12),
];

/// The same of passengers and of the cost.
const OF_BOTH: [(Orders, u64, u32); 8] = [
    (Orders::None, 1, 0),
    (Orders::None, 2, 4),
    (Orders::None, 3, 8),
    (Orders::Told, 12, 2),
    (Orders::Told, 5, 6),
    (Orders::ToldLater, 33, 0),
    (Orders::ToldLater, 11, 4),
    (Orders::ToldLater, 8, 12),
];

/// The seed of the first of these walks after a step of which a board says something else than is said from scratch, if there is one.
fn first_to_fail<B: Walkable>(
    alloc: Global,
    walks: &[(Orders, u64, u32)],
) -> Result<Option<u64>, Fail> {
    for (orders, seed, rows) in walks {
        if walked::<B>(alloc, *orders, *seed, *rows)? != STEPS {
            return Ok(Some(*seed));
        }
    }
    Ok(None)
}

#[test]
fn after_any_changes_each_board_says_what_is_said_from_scratch(
    rt: HostRuntime,
) -> Result<(), Fail> {
    let rotations = first_to_fail::<RotBoard>(rt.alloc(), &OF_ROWS)?;
    assert_eq!(rt; rotations, None, "C1 to C9");
    let slots = first_to_fail::<SlotBoard>(rt.alloc(), &OF_ROWS)?;
    assert_eq!(rt; slots, None, "C10 and C11");
    let seats = first_to_fail::<SeatBoard>(rt.alloc(), &OF_BOTH)?;
    assert_eq!(rt; seats, None, "C12 to C15");
    let cost = first_to_fail::<LentCostBoard>(rt.alloc(), &OF_BOTH)?;
    assert_eq!(rt; cost, None, "the cost");
    Ok(())
}
