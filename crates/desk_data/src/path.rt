//! Paths of passengers, and their order.

ghost use Rattle.std.specs.Prelude.{◌≡◌, IfOk};
ghost use Rattle.desk_data.specs.PlanRows.{pair_cmp, path_cmp, same_path};

use desk_units::{Cabin, Leg, List, NoMem};
use std::alloc::Global;
use std::cmp::Ordering;
use std::marker::Model;

/// The legs that passengers take, each with the cabin they sit in. The empty path means that they
/// are not carried. Contracts see it as its list of pairs.
#[derive(Drop)]
pub struct Path {
    pub legs: List<(Leg, Cabin)>,
}

impl Model for Path {
    ghost use Rattle.std.specs.Prelude.{List};
    ghost use Rattle.desk_units.specs.declared.numbers.Leg.{Leg};
    ghost use Rattle.desk_units.specs.declared.numbers.Cabin.{Cabin};

    ghost Value = { List (Leg × Cabin) };

    ghost view = { λ p. p.legs };
}

impl Path {
    /// Its pairs of leg and cabin, in order.
    pub fn as_slice(&self) -> &[(Leg, Cabin)]
        ensures { result.now ≡ self.now }
    {
        self.legs.as_slice()
    }

    /// An equal path. The only error is out of memory.
    pub fn copy(&self, alloc: Global) -> Result<Path, NoMem>
        ensures { IfOk result (λ copy. copy ≡ self.now) }
    {
        let legs = Vec::from_slice(alloc, self.as_slice())?;
        Ok(Path { legs: List(legs) })
    }
}

/// Whether two paths are one.
pub fn same_path(a: &[(Leg, Cabin)], b: &[(Leg, Cabin)]) -> bool
    ensures { result ≡ same_path a.now b.now }
{
    path_order(a, b).is_eq()
}

/// How two paths stand: as lists of pairs, a proper prefix first.
pub fn path_order(a: &[(Leg, Cabin)], b: &[(Leg, Cabin)]) -> Ordering
    ensures { result ≡ path_cmp a.now b.now }
{
    match a {
        [] if b.is_empty() => Ordering::Equal,
        [] => Ordering::Less,
        [x, xs @ ..] => match b {
            [] => Ordering::Greater,
            [y, ys @ ..] => match pair_order(*x, *y) {
                Ordering::Equal => path_order(xs, ys),
                other => other,
            },
        },
    }
}

/// How two pairs stand: by leg, then by cabin.
fn pair_order(a: (Leg, Cabin), b: (Leg, Cabin)) -> Ordering
    ensures { result ≡ pair_cmp a b }
{
    a.0.0.cmp(&b.0.0).then(a.1.rank().cmp(&b.1.rank()))
}
