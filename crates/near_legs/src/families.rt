//! The aircraft of each aircraft's family.

ghost use Rattle.std.specs.Prelude.{◌≡◌, ◌+◌, ◌<◌, [], true, All, IfOk, OnOk, bytes_eq, length, map, slice_index_or};
ghost use Rattle.std.specs.Option.{ForSome};
ghost use Rattle.desk_data.specs.Situation.{plane_at, planes_of};
ghost use Rattle.desk_rules.specs.Numbers.{numbers};
ghost use Rattle.near_moves.specs.MoveParts.{family_of};
ghost use Rattle.near_legs.specs.LegTables.{AreFamilies};

use desk_data::{Instance, NoMem, Plane};
use std::alloc::Global;

/// Of each aircraft those of its family, in ascending order. An aircraft is compared with the first one of each
/// family before it, and where it is the first of its own, with all. The only error is out of memory.
pub(crate) fn families(alloc: Global, inst: &Instance) -> Result<Vec<Vec<Plane>>, NoMem>
    ensures { IfOk result (λ families. AreFamilies inst.now (map (λ f. f.items) families.items)) }
{
    let mut all = Vec::new(alloc);
    let mut firsts = Vec::new(alloc);
    for p in 0..inst.planes() {
        let family = next_family(alloc, inst, Plane(p), all.as_slice(), &mut firsts)?;
        all.push(family)?;
    }
    Ok(all)
}

/// The aircraft of an aircraft's family. Of each aircraft before it those of its family are given, and the first
/// ones of their families, to which it is added where no family before it is its own.
fn next_family(
    alloc: Global,
    inst: &Instance,
    plane: Plane,
    before: &[Vec<Plane>],
    firsts: &mut Vec<Plane>,
) -> Result<Vec<Plane>, NoMem>
    requires plane { plane.0 < planes_of inst.now }
    requires before { map (λ f. map (λ p. p.0) f.items) before.now ≡ map (family_of inst.now) (numbers plane.0) }
    requires firsts { All (λ first. first.0 < plane.0) firsts.old.items }
    ensures family { IfOk result (λ family. map (λ p. p.0) family.items ≡ family_of inst.now plane.0) }
    ensures firsts { OnOk result (All (λ first. first.0 < plane.0 + 1) firsts.new.items) }
{
    match one_of_family(inst, firsts.as_slice(), plane) {
        Some(first) => copy(alloc, before, first),
        None => {
            firsts.push(plane)?;
            family_of(alloc, inst, plane)
        }
    }
}

/// The first of some aircraft before an aircraft that is of its family, if one is.
fn one_of_family(inst: &Instance, some: &[Plane], plane: Plane) -> Option<Plane>
    requires plane { plane.0 < planes_of inst.now }
    requires before { All (λ p. p.0 < plane.0) some.now }
    ensures before { ForSome result (λ first. first.0 < plane.0) }
    ensures family { ForSome result (λ first. bytes_eq (plane_at inst.now first.0).family (plane_at inst.now plane.0).family ≡ true) }
{
    for other in some {
        if are_of_one_family(inst, *other, plane) {
            return Some(*other);
        }
    }
    None
}

/// The aircraft that are given for an aircraft.
fn copy(alloc: Global, families: &[Vec<Plane>], plane: Plane) -> Result<Vec<Plane>, NoMem>
    requires { plane.0 < length families.now }
    ensures { IfOk result (λ family. family.items ≡ slice_index_or (map (λ f. f.items) families.now) plane.0 []) }
{
    let family = families[plane.0 as usize].as_slice();
    let mut copied = Vec::with_capacity(alloc, family.len())?;
    copied.extend_from_slice(family)?;
    Ok(copied)
}

/// The aircraft of an aircraft's family, each of which is compared with it.
fn family_of(alloc: Global, inst: &Instance, plane: Plane) -> Result<Vec<Plane>, NoMem>
    requires { plane.0 < planes_of inst.now }
    ensures { IfOk result (λ family. map (λ p. p.0) family.items ≡ family_of inst.now plane.0) }
{
    let mut family = Vec::new(alloc);
    for q in 0..inst.planes() {
        if are_of_one_family(inst, Plane(q), plane) {
            family.push(Plane(q))?;
        }
    }
    Ok(family)
}

/// Whether two aircraft are of one family.
fn are_of_one_family(inst: &Instance, first: Plane, second: Plane) -> bool
    requires first { first.0 < planes_of inst.now }
    requires second { second.0 < planes_of inst.now }
    ensures { result ≡ bytes_eq (plane_at inst.now first.0).family (plane_at inst.now second.0).family }
{
    inst.plane(first).family.as_slice() == inst.plane(second).family.as_slice()
}
