//! A written plan reads back.

ghost use Rattle.std.specs.Prelude.{◌≡◌, ◌≤◌, length, Ok};
ghost use Rattle.file_rows.specs.Limits.{most_bytes};
ghost use Rattle.desk_data.specs.PlanRows.{PlanRows};
ghost use Rattle.desk_data.specs.Situation.{Situation};
ghost use Rattle.desk_data.specs.Valid.{IsPlanFor, IsValid};
ghost use Rattle.output_texts.specs.Rotations.{rotations_text};
ghost use Rattle.output_texts.specs.Itineraries.{itineraries_text};
ghost use Rattle.file_joins.specs.Solution.{solution_of};
ghost use Rattle.desk_top.specs.Plain.{ArePlain};
ghost use Rattle.desk_top.specs.Lengths.{HasNames};

/// A written plan of a valid day whose names have 1 to 32 bytes reads back: where names are plain, and
/// each of the two files of a plan for the day has at most 67,108,864 bytes, reading them gives that plan.
/// Without plain names nothing is promised, since a line that begins with `#` ends the file.
pub fn written_plans_read_back()
    ensures { (I : Situation) (P : PlanRows) → IsValid I → HasNames I → ArePlain I → IsPlanFor I P
        → length (rotations_text I P) ≤ most_bytes → length (itineraries_text I P) ≤ most_bytes
        → solution_of I (rotations_text I P) (itineraries_text I P) ≡ Ok P }
{}
