//! Two boards beside one another.

ghost use Rattle.std.specs.Prelude.{◌≡◌};
ghost use Rattle.live_board.specs.Words.{board_of};

use crate::live::most::{Most, Posted};
use live_board::{Naming, Opened, Teller, Viewer};
use std::alloc::Global;
use std::sync::Wait;

/// Opens two boards, has a viewer of the first learn what that one published, and gives what it then sees. Of the second board
/// it can learn nothing.
pub fn learn_of_own<J: Naming, K: Naming, R: Wait>(
    rt: &R,
    alloc: Global,
    ours: Opened<Most>,
    theirs: Opened<Most>,
) -> Option<Most>
    requires ours { board_of ours ≡ J.book }
    requires theirs { board_of theirs ≡ K.book }
{
    let mut first = ours.open::<Posted, J, &R>(rt, alloc, 1);
    let second = theirs.open::<Posted, K, &R>(rt, alloc, 1);
    match (&mut first, &second) {
        (Ok(ends), Ok(others)) => see_own(ends, &others.0),
        _ => None,
    }
}

// Has the last viewer of the first board learn what that one published, and gives what it then sees.
fn see_own<J: Naming, K: Naming, R: Wait + Drop>(
    ends: &mut (Teller<Most, Posted, J, R>, Vec<Viewer<Most, Posted, J>>),
    other: &Teller<Most, Posted, K, R>,
) -> Option<Most> {
    let mut viewer = ends.1.pop()?;
    let _other = other.note();
    viewer.learn(ends.0.note());
    Some(viewer.see())
}
