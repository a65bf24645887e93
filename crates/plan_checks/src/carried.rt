//! C13, C14 and C15, which are asked of the paths on which passengers are carried.

ghost use Rattle.std.specs.Prelude.{◌≡◌, find, if◌then◌else◌};
ghost use Rattle.std.specs.Option.{option_or};
ghost use Rattle.desk_data.specs.Valid.{IsPlanFor};
ghost use Rattle.desk_data.specs.declared.broken.Broken.TheVariants as broken;
ghost use Rattle.desk_rules.specs.Least.{breaks, each_res};

use crate::c13_connection::keeps_c13;
use crate::c14_arrival::keeps_c14;
use crate::c15_begun::keeps_c15;
use desk_data::{Broken, Instance, Plan, Res};

/// The first reservation that breaks C13, or else the first that breaks C14, or else the first that
/// breaks C15. One pass over the reservations serves the three rules.
pub(crate) fn first_c13_to_c15(inst: &Instance, plan: &Plan) -> Option<Broken>
    requires { IsPlanFor inst.now plan.now }
    ensures { result ≡ option_or (option_or (find (breaks inst.now plan.now) (each_res inst.now broken.C13)) (find (breaks inst.now plan.now) (each_res inst.now broken.C14))) (find (breaks inst.now plan.now) (each_res inst.now broken.C15)) }
{
    let mut c13 = None;
    let mut c14 = None;
    let mut c15 = None;
    for r in 0..inst.reservations() {
        let res = Res(r);
        let groups = plan.groups(res);
        let connects = keeps_c13(inst, plan, res, groups);
        let in_time = keeps_c14(inst, plan, res, groups);
        let as_begun = keeps_c15(inst, plan, res, groups);
        c13 = c13.or(unless(connects, Broken::C13(res)));
        c14 = c14.or(unless(in_time, Broken::C14(res)));
        c15 = c15.or(unless(as_begun, Broken::C15(res)));
    }
    c13.or(c14).or(c15)
}

/// An item, unless its rule is kept.
fn unless(is_kept: bool, item: Broken) -> Option<Broken>
    ensures { result ≡ (if is_kept then None else Some item) }
{
    if is_kept { None } else { Some(item) }
}
