//! What is written is read again.

ghost use Rattle.std.specs.Prelude.{◌≡◌, ℕ, ◌<◌, ◌≤◌, List as Items, Ok, Some, decimal, length};
ghost use Rattle.file_joins.specs.Names.{leg_named, plane_named, res_named};
ghost use Rattle.desk_data.specs.Situation.{Situation, leg_at, legs_of, plane_at, planes_of, res_at, reservations_of};
ghost use Rattle.desk_data.specs.Valid.{AreDistinct};
ghost use Rattle.desk_text.specs.Fields.{name_of, number_of, date_of};
ghost use Rattle.desk_text.specs.Moments.{minute_of};
ghost use Rattle.desk_text.specs.Texts.{date_text, time_text};
ghost use Rattle.desk_units.specs.Padded.{IsNameLength};
ghost use Rattle.desk_units.specs.declared.numbers.Leg.{Leg};
ghost use Rattle.desk_units.specs.declared.numbers.Plane.{Plane};
ghost use Rattle.desk_units.specs.declared.numbers.Res.{Res};

/// A number, a date, a time and a name that are written are those that are read.
pub fn tokens_read_back()
    ensures number { (low high n : ℕ) → low ≤ n → n ≤ high → high < 1000000000 → number_of low high (decimal n) ≡ Ok n }
    ensures date { (day : ℕ) → day < 36525 → date_of (date_text day) ≡ Ok day }
    ensures time { (minute : ℕ) → minute < 1440 → minute_of (time_text minute) ≡ Ok minute }
    ensures name { (name : Items ℕ) → IsNameLength (length name) → name_of name ≡ Ok name }
{}

/// The name of a leg, an aircraft or a reservation leads back to it, where no two are named alike.
pub fn names_lead_back()
    ensures leg { (I : Situation) (leg : Leg) → AreDistinct I.parts → leg.0 < legs_of I → leg_named I (leg_at I leg.0).flight (leg_at I leg.0).day ≡ Some leg }
    ensures plane { (I : Situation) (plane : Plane) → AreDistinct I.parts → plane.0 < planes_of I → plane_named I (plane_at I plane.0).name ≡ Some plane }
    ensures reservation { (I : Situation) (res : Res) → AreDistinct I.parts → res.0 < reservations_of I → res_named I (res_at I res.0).name (res_at I res.0).inbound ≡ Some res }
{}
