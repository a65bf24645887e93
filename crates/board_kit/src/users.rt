//! The reservations of each leg.

ghost use Rattle.std.specs.Prelude.{◌≡◌, ℕ, ◌<◌, nat_lt, ◌&&◌, ◌||◌, not, ◌==◌, length, IfOk, OnOk, OnErr, All, replicate, []};
ghost use Rattle.std.specs.List.{AllPairs, list_any};
ghost use Rattle.desk_data.specs.PlanRows.{PlanRows};
ghost use Rattle.desk_data.specs.Situation.{legs_of, reservations_of};
ghost use Rattle.desk_data.specs.Valid.{IsPathOf, IsPlanFor};
ghost use Rattle.board_kit.specs.Users.{HasUsers, has_leg, has_user, is_booked_on, users_at, uses, with_user, without_user};

use desk_data::{Cabin, Group, Instance, Leg, NoMem, Res};
use kept_set::KeptSet;
use plan_reads::ReadPlan;
use std::alloc::Global;
use std::marker::Model;

/// For each leg the reservations of which some group may have it in its path. Contracts see them as a
/// list for each leg.
#[derive(Drop)]
pub struct LegUsers {
    legs: Vec<KeptSet<Res>>,
}

impl Model for LegUsers {
    ghost use Rattle.std.specs.Prelude.{List, map};
    ghost use Rattle.desk_units.specs.declared.numbers.Res.{Res};

    ghost Value = { List (List Res) };

    ghost view = { λ u. map (λ kept. kept.items) u.legs.items };
}

impl LegUsers {
    /// The reservations that use each leg of a plan, and no others. The plan is one for the instance.
    /// The time is that of a walk over the paths of all groups, but for look-ups. The only error is out
    /// of memory.
    pub fn open<P: ReadPlan>(alloc: Global, inst: &Instance, plan: &P) -> Result<LegUsers, NoMem>
        requires { IsPlanFor inst.now (P.plan_of plan.now) }
        ensures legs { IfOk result (λ made. length made ≡ legs_of inst.now) }
        ensures users { IfOk result (λ made. HasUsers (P.plan_of plan.now) (has_user made)) }
        ensures exact { IfOk result (λ made. (x r : ℕ) → has_user made x r ≡ uses (P.plan_of plan.now) x r) }
    {
        let counts = counts_of_groups(alloc, inst, plan)?;
        let mut users = LegUsers::with_room(alloc, counts.as_slice())?;
        for r in 0..inst.reservations() {
            users.keep_groups(Res(r), plan.groups(Res(r)))?;
        }
        Ok(users)
    }

    /// The reservations whose scheduled path has each leg, and no others. The time is that of a walk over
    /// the scheduled paths, but for look-ups. The only error is out of memory.
    pub fn booked(alloc: Global, inst: &Instance) -> Result<LegUsers, NoMem>
        ensures legs { IfOk result (λ made. length made ≡ legs_of inst.now) }
        ensures exact { IfOk result (λ made. (x r : ℕ) → has_user made x r ≡ (nat_lt r (reservations_of inst.now) && is_booked_on inst.now x r)) }
    {
        let counts = counts_of_booked(alloc, inst)?;
        let mut users = LegUsers::with_room(alloc, counts.as_slice())?;
        for r in 0..inst.reservations() {
            users.keep_path(Res(r), inst.res(Res(r)).path.as_slice())?;
        }
        Ok(users)
    }

    /// The same reservations for each leg. None is looked for in a path. The only error is out of memory.
    pub fn copy(&self, alloc: Global) -> Result<LegUsers, NoMem>
        ensures { IfOk result (λ copy. copy ≡ self.now) }
    {
        let mut legs = Vec::with_capacity(alloc, self.legs.len())?;
        for kept in &self.legs {
            legs.push(kept.copy(alloc)?)?;
        }
        Ok(LegUsers { legs })
    }

    /// The reservations that are kept for a leg, ascending by number, each once. Those that use it in
    /// the plan are among them.
    pub fn users(&self, leg: Leg) -> &[Res]
        requires { leg.0 < length self.now }
        ensures users { result.now ≡ users_at self.now leg.0 }
        ensures ascending { AllPairs (λ a b. a.0 < b.0) result.now }
        ensures within { (P : PlanRows) → HasUsers P (has_user self.now) → All (λ res. res.0 < length P.groups) result.now }
    {
        self.legs[leg.0 as usize].items()
    }

    /// Keeps a reservation for a leg, too, and gives whether it was not kept before. After an error,
    /// which is out of memory, nothing has changed.
    pub fn add(&mut self, leg: Leg, res: Res) -> Result<bool, NoMem>
        requires { leg.0 < length self.old }
        ensures legs { length self.new ≡ length self.old }
        ensures ok { OnOk result (has_user self.new ≡ with_user leg.0 res.0 (has_user self.old)) }
        ensures added { IfOk result (λ added. added ≡ not (has_user self.old leg.0 res.0)) }
        ensures err { OnErr result (self.new ≡ self.old) }
    {
        if self.legs[leg.0 as usize].has(res) {
            return Ok(false);
        }
        self.keep(leg, res)?;
        Ok(true)
    }

    /// Keeps a reservation for a leg, too, which may be kept for it already. After an error, which is
    /// out of memory, nothing has changed.
    fn keep(&mut self, leg: Leg, res: Res) -> Result<(), NoMem>
        requires { leg.0 < length self.old }
        ensures legs { length self.new ≡ length self.old }
        ensures ok { OnOk result (has_user self.new ≡ with_user leg.0 res.0 (has_user self.old)) }
        ensures err { OnErr result (self.new ≡ self.old) }
    {
        let kept = &mut self.legs[leg.0 as usize];
        kept.reserve(1)?;
        kept.put(res);
        Ok(())
    }

    /// Keeps a reservation for a leg no more. It takes no memory.
    pub fn take(&mut self, leg: Leg, res: Res)
        requires { leg.0 < length self.old }
        ensures legs { length self.new ≡ length self.old }
        ensures taken { has_user self.new ≡ without_user leg.0 res.0 (has_user self.old) }
    {
        self.legs[leg.0 as usize].take(res);
    }

    /// No reservations for each leg, with room for so many.
    fn with_room(alloc: Global, counts: &[u32]) -> Result<LegUsers, NoMem>
        ensures { IfOk result (λ made. made ≡ replicate (length counts.now) []) }
    {
        let mut lists = Vec::with_capacity(alloc, counts.len())?;
        for count in counts {
            let mut kept = KeptSet::new(alloc);
            kept.reserve(*count as usize)?;
            lists.push(kept)?;
        }
        Ok(LegUsers { legs: lists })
    }

    /// Keeps a reservation for each leg of the paths of some groups.
    fn keep_groups(&mut self, res: Res, groups: &[Group]) -> Result<(), NoMem>
        requires { All (λ group. IsPathOf (length self.old) group.path) groups.now }
        ensures legs { length self.new ≡ length self.old }
        ensures ok { OnOk result ((x r : ℕ) → has_user self.new x r ≡ has_user self.old x r || ((r == res.0) && list_any (has_leg x) groups.now)) }
    {
        for group in groups {
            self.keep_path(res, group.path.as_slice())?;
        }
        Ok(())
    }

    /// Keeps a reservation for each leg of a path.
    fn keep_path(&mut self, res: Res, path: &[(Leg, Cabin)]) -> Result<(), NoMem>
        requires { IsPathOf (length self.old) path.now }
        ensures legs { length self.new ≡ length self.old }
        ensures ok { OnOk result ((x r : ℕ) → has_user self.new x r ≡ has_user self.old x r || ((r == res.0) && list_any (λ pair. pair.0.0 == x) path.now)) }
    {
        for pair in path {
            self.keep(pair.0, res)?;
        }
        Ok(())
    }
}

/// How many reservations may use each leg: how often it stands in the paths of the groups.
fn counts_of_groups<P: ReadPlan>(
    alloc: Global,
    inst: &Instance,
    plan: &P,
) -> Result<Vec<u32>, NoMem>
    requires { IsPlanFor inst.now (P.plan_of plan.now) }
    ensures { IfOk result (λ counts. length counts.items ≡ legs_of inst.now) }
{
    let mut counts = vec![in alloc; 0; inst.legs() as usize]?;
    for r in 0..inst.reservations() {
        count_groups(&mut counts, plan.groups(Res(r)));
    }
    Ok(counts)
}

/// How many reservations may be booked on each leg: how often it stands in the scheduled paths.
fn counts_of_booked(alloc: Global, inst: &Instance) -> Result<Vec<u32>, NoMem>
    ensures { IfOk result (λ counts. length counts.items ≡ legs_of inst.now) }
{
    let mut counts = vec![in alloc; 0; inst.legs() as usize]?;
    for r in 0..inst.reservations() {
        count_path(&mut counts, inst.res(Res(r)).path.as_slice());
    }
    Ok(counts)
}

/// Counts each leg of the paths of some groups.
fn count_groups(counts: &mut Vec<u32>, groups: &[Group])
    requires { All (λ group. IsPathOf (length counts.old.items) group.path) groups.now }
    ensures { length counts.new.items ≡ length counts.old.items }
{
    for group in groups {
        count_path(counts, group.path.as_slice());
    }
}

/// Counts each leg of a path, up to the greatest number.
fn count_path(counts: &mut Vec<u32>, path: &[(Leg, Cabin)])
    requires { IsPathOf (length counts.old.items) path.now }
    ensures { length counts.new.items ≡ length counts.old.items }
{
    for pair in path {
        let leg = pair.0.0 as usize;
        counts[leg] = counts[leg].saturating_add(1);
    }
}
