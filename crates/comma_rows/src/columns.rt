//! The fields of a record.

ghost use Rattle.std.specs.Prelude.{◌≡◌, [], ◌∷◌, ℕ, List, length, MatchOption, MatchResult};
ghost use Rattle.std.specs.List.{list_all};
ghost use Rattle.csv.specs.Records.{fields_of};
ghost use Rattle.file_rows.specs.declared.cause.Cause.TheVariants as causes;
ghost use Rattle.comma_rows.specs.Records.{is_printed, are_printed};

use csv::ByteRecord;
use desk_text::Cause;
use std::marker::Model;

/// The fields of a record that are left, from the left. Contracts see them as a list.
#[derive(Drop)]
pub struct Columns<'r> {
    fields: &'r ByteRecord,
    place: usize,
}

impl<'r> Model for Columns<'r> {
    ghost use Rattle.std.specs.Prelude.{ℕ, List, drop};
    ghost use Rattle.csv.specs.Records.{fields_of};

    ghost Value = { List (List ℕ) };

    ghost view = { λ c. drop c.place (fields_of c.fields.now) };
}

impl<'r> Columns<'r> {
    /// All fields of this record.
    pub(crate) fn of(fields: &'r ByteRecord) -> Columns<'r>
        ensures { result ≡ fields_of fields.now }
    {
        Columns { fields, place: 0 }
    }

    /// The next field, or `None` exactly where there are no more.
    pub fn next(&mut self) -> Option<&'r [u8]>
        ensures { MatchOption result ((self.old ≡ []) × (self.new ≡ [])) (λ field. self.old ≡ field.now ∷ self.new) }
    {
        let field = self.fields.get(self.place)?;
        self.place += 1;
        Some(field)
    }

    /// The next field, or `Fields` where there is none.
    pub fn take(&mut self) -> Result<&'r [u8], Cause>
        ensures { MatchResult result (λ field. self.old ≡ field.now ∷ self.new) (λ cause. (self.old ≡ []) × (cause ≡ causes.Fields)) }
    {
        self.next().ok_or(Cause::Fields)
    }

    /// The same fields once more.
    fn copy(&self) -> Columns<'r>
        ensures { result ≡ self.now }
    {
        Columns {
            fields: self.fields,
            place: self.place,
        }
    }

    /// How many fields are left.
    pub fn count(&self) -> usize
        ensures { result ≡ length self.now }
    {
        self.fields.len().saturating_sub(self.place)
    }

    /// Whether each byte of each field that is left is from 0x20 to 0x7e.
    pub fn are_printed(&self) -> bool
        ensures { result ≡ are_printed self.now }
    {
        let mut rest = self.copy();
        while let Some(field) = rest.next() {
            if !is_field(field) {
                return false;
            }
        }
        true
    }
}

/// Whether a byte is from 0x20 to 0x7e.
fn is_printed(byte: u8) -> bool
    ensures { result ≡ is_printed byte }
{
    32 <= byte && byte <= 126
}

/// Whether each byte of a field is from 0x20 to 0x7e.
pub fn is_field(field: &[u8]) -> bool
    ensures { result ≡ list_all is_printed field.now }
{
    field.iter().all(|byte| is_printed(*byte))
}
