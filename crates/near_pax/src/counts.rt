//! How many passengers may go at once.

ghost use Rattle.std.specs.Prelude.{◌≡◌, ◌∷◌, [], IfOk, filter, nat_lt};
ghost use Rattle.near_moves.specs.PassengerMoves.{portions};

use desk_data::NoMem;
use std::alloc::Global;

/// The powers of two up to half the passengers of the largest reservation, in descending order.
const POWERS: [u32; 10] = [512, 256, 128, 64, 32, 16, 8, 4, 2, 1];

/// All of some passengers, and each power of two below that, the greatest first.
pub(crate) fn portions(alloc: Global, count: u32) -> Result<Vec<u32>, NoMem>
    ensures { IfOk result (λ counts. counts.items ≡ portions count) }
{
    let below = powers_below(alloc, count)?;
    let mut counts = Vec::with_capacity(alloc, 11)?;
    counts.push(count)?;
    counts.extend_from_slice(below.as_slice())?;
    Ok(counts)
}

/// The powers of two below a number.
fn powers_below(alloc: Global, count: u32) -> Result<Vec<u32>, NoMem>
    ensures { IfOk result (λ below. below.items ≡ filter (λ k. nat_lt k count) (512 ∷ 256 ∷ 128 ∷ 64 ∷ 32 ∷ 16 ∷ 8 ∷ 4 ∷ 2 ∷ 1 ∷ [])) }
{
    let powers = POWERS;
    let below = powers
        .iter()
        .copied()
        .filter(|power| *power < count)
        .collect(alloc)?;
    Ok(below)
}
