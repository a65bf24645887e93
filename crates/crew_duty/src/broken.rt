//! The items that crews break, kept in their order: by rule, then by crew.

ghost use Rattle.std.specs.Prelude.{◌≡◌, ℕ, ◌+◌, ◌<◌, ◌≤◌, ◌&&◌, ◌*◌, nat_lt, IfOk, OnOk, OnErr, All, List as Items, length, map};
ghost use Rattle.desk_data.specs.PlanRows.{IsRow};
ghost use Rattle.desk_data.specs.Situation.{legs_of};
ghost use Rattle.desk_data.specs.declared.parts.Parts.{Parts as Day};
ghost use Rattle.desk_data.specs.declared.row.Row.{Row as LegRow};
ghost use Rattle.kept_set.specs.Kept.{AreSet};
ghost use Rattle.crew_rules.specs.declared.crew.CrewInfo.{CrewInfo as Crew};
ghost use Rattle.crew_rules.specs.Broken.{crew_at, crew_of};
ghost use Rattle.crew_rules.specs.Crews.{crew_least};
ghost use Rattle.crew_rules.specs.Valid.{AreCrews};
ghost use Rattle.crew_duty.specs.declared.faults.CrewFaults.{CrewFaults as Faults};
ghost use Rattle.crew_duty.specs.Faults.{AreJudged, among, by_faults, faults_of, is_of};
ghost use Rattle.crew_duty.specs.Board.{AreBroken};

use crate::faults::{CrewFaults, CrewRule, faults_among};
use crew_rules::{CrewBroken, CrewInfo};
use desk_data::{Instance, NoMem, Row};
use kept_set::KeptSet;
use std::alloc::Global;

/// From now on an item is among the items, or is not. There is room for one more. It takes no memory.
fn set_item(broken: &mut KeptSet<CrewBroken>, item: CrewBroken, is_in: bool)
    requires { length broken.old.items < broken.old.room }
    ensures set { AreSet broken.old.items broken.new.items item is_in }
    ensures length { length broken.new.items ≤ length broken.old.items + 1 }
    ensures room { broken.old.room ≤ broken.new.room }
{
    if is_in {
        broken.put(item);
    } else {
        broken.take(item);
    }
}

/// Judges the items of one rule and of crews of these numbers by what was found of each. It takes no memory.
fn judge_rule(
    broken: &mut KeptSet<CrewBroken>,
    rule: CrewRule,
    numbers: &[u32],
    found: &[CrewFaults],
)
    requires same { length found.now ≡ length numbers.now }
    requires room { length broken.old.items + length numbers.now ≤ broken.old.room }
    ensures judged { (f : ℕ → Faults) → found.now ≡ map f numbers.now → AreJudged (by_faults f) (λ item. is_of rule item && among numbers.now (crew_of item)) broken.old.items broken.new.items }
    ensures length { length broken.new.items ≤ length broken.old.items + length numbers.now }
    ensures room { broken.old.room ≤ broken.new.room }
{
    for i in 0..numbers.len() {
        let item = rule.item(numbers[i]);
        let is_in = found[i].has(rule);
        set_item(broken, item, is_in);
    }
}

/// Judges the items of crews of these numbers by what was found of each: rule by rule, since that is their order. It takes no memory.
fn judge_all(broken: &mut KeptSet<CrewBroken>, numbers: &[u32], found: &[CrewFaults])
    requires same { length found.now ≡ length numbers.now }
    requires room { length broken.old.items + 4 * length numbers.now ≤ broken.old.room }
    ensures { (f : ℕ → Faults) → found.now ≡ map f numbers.now → AreJudged (by_faults f) (λ item. among numbers.now (crew_of item)) broken.old.items broken.new.items }
{
    judge_rule(broken, CrewRule::Chain, numbers, found);
    judge_rule(broken, CrewRule::Turn, numbers, found);
    judge_rule(broken, CrewRule::Duty, numbers, found);
    judge_rule(broken, CrewRule::Home, numbers, found);
}

/// Judges crews of these numbers by the rows of a plan. After an error, which is out of memory, the items are as before.
pub(crate) fn judge_crews(
    alloc: Global,
    inst: &Instance,
    rows: &[Row],
    crews: &[CrewInfo],
    numbers: &[u32],
    broken: &mut KeptSet<CrewBroken>,
) -> Result<(), NoMem>
    requires crews { AreCrews inst.now.parts crews.now }
    requires count { length rows.now ≡ legs_of inst.now }
    requires rows { All IsRow rows.now }
    requires numbers { All (λ k. k < length crews.now) numbers.now }
    ensures ok { OnOk result (AreJudged (by_faults (λ k. faults_of inst.now.parts rows.now (crew_at crews.now k))) (λ item. among numbers.now (crew_of item)) broken.old.items broken.new.items) }
    ensures err { OnErr result (broken.new.items ≡ broken.old.items) }
{
    let found = faults_among(alloc, inst, rows, crews, numbers)?;
    broken.reserve(4 * numbers.len())?;
    let found = found.as_slice();
    judge_all(broken, numbers, found);
    Ok(())
}

/// The items that crews break by the rows of a plan. The only error is out of memory.
pub(crate) fn broken_items(
    alloc: Global,
    inst: &Instance,
    rows: &[Row],
    crews: &[CrewInfo],
) -> Result<KeptSet<CrewBroken>, NoMem>
    requires crews { AreCrews inst.now.parts crews.now }
    requires count { length rows.now ≡ legs_of inst.now }
    requires rows { All IsRow rows.now }
    ensures { IfOk result (λ broken. AreBroken inst.now.parts crews.now rows.now broken.items) }
{
    let all = numbers_below(alloc, crews.len() as u32)?;
    let numbers = all.as_slice();
    let mut broken = KeptSet::new(alloc);
    judge_crews(alloc, inst, rows, crews, numbers, &mut broken)?;
    Ok(broken)
}

/// The numbers below a number, ascending.
fn numbers_below(alloc: Global, count: u32) -> Result<Vec<u32>, NoMem>
    ensures { IfOk result (λ numbers. (k : ℕ) → among numbers.items k ≡ nat_lt k count) }
{
    let mut numbers = Vec::with_capacity(alloc, count as usize)?;
    for k in 0..count {
        numbers.push(k)?;
    }
    Ok(numbers)
}

/// The first of the items: by rule, then by crew. It takes no memory.
pub(crate) fn first_broken(broken: &KeptSet<CrewBroken>) -> Option<CrewBroken>
    ensures { (D : Day) (cs : Items Crew) (P : Items LegRow) → AreBroken D cs P broken.now.items → result ≡ crew_least D cs P }
{
    broken.first()
}
