//! The texts of paths.

ghost use Rattle.std.specs.Prelude.{◌≡◌, ◌++◌, OnOk, codes};
ghost use Rattle.std.specs.List.{flat_map};
ghost use Rattle.desk_data.specs.Situation.{legs_of};
ghost use Rattle.desk_data.specs.Valid.{IsPathOf};
ghost use Rattle.output_texts.specs.Items.{path_text, seat_text};

use crate::items::push_cabin;
use desk_data::{Cabin, Instance, Leg, NoMem, Path};
use desk_text::push_number;

/// Adds a path: its number of legs, then ` FLIGHT DATE CABIN` for each.
#[tactic(auto, unfolding(crate::specs::Items::path_text))]
pub(crate) fn push_path(text: &mut Vec<u8>, inst: &Instance, path: &Path) -> Result<(), NoMem>
    requires { IsPathOf (legs_of inst.now) path.now }
    ensures { OnOk result (text.new.items ≡ text.old.items ++ path_text inst.now path.now) }
{
    let legs = path.as_slice();
    push_number(text, legs.len() as u128)?;
    push_seats(text, inst, legs)
}

/// Adds the legs of a path with their cabins, each after a space.
#[tactic(auto, unfolding(crate::specs::Items::seat_text))]
fn push_seats(text: &mut Vec<u8>, inst: &Instance, legs: &[(Leg, Cabin)]) -> Result<(), NoMem>
    requires { IsPathOf (legs_of inst.now) legs.now }
    ensures { OnOk result (
        text.new.items ≡ text.old.items
        ++ flat_map (λ pair. codes " " ++ seat_text inst.now pair) legs.now) }
{
    for (leg, cabin) in legs {
        push_cabin(text, b" ", inst, *leg, *cabin)?;
    }
    Ok(())
}
