//! What the list of changed legs tells.

ghost use Rattle.std.specs.Prelude.{◌≡◌, true};
ghost use Rattle.desk_data.specs.declared.row.Row.{Row};
ghost use Rattle.page_parts.specs.Legs.{same_row};

/// A leg is left out of the list just where its row is the same: a row is the same as itself, and two rows that are the same
/// are one.
pub fn legs_are_told_where_rows_differ()
    ensures itself { (row : Row) → same_row row row ≡ true }
    ensures one { (row other : Row) → same_row row other ≡ true → row ≡ other }
{}
