//! Names of flights, aircraft, models, families, airports and reservations.

ghost use Rattle.std.specs.Prelude.{◌≡◌, length};
ghost use Rattle.std.specs.Option.{SomeIff};
ghost use Rattle.desk_units.specs.Padded.{IsNameLength};

use std::marker::Model;

/// A name of 1 to 32 bytes. It takes no memory of its own, and contracts see it as its bytes.
#[derive(Clone, Copy)]
pub struct Name {
    bytes: [u8; 32],
    len: usize,
}

impl Model for Name {
    ghost use Rattle.std.specs.Prelude.{List, ℕ, take};

    ghost Value = { List ℕ };

    ghost use Rattle.desk_units.specs.NameFields.{fields_of, IsPadded, fields_of-take};

    ghost view = { λ n. take n.len n.bytes };

    ghost invariant = { IsPadded };

    ghost inverse = { fields_of };

    ghost inverse_ok = { fields_of-take };
}

impl Name {
    /// The name of these bytes, or `None` where they are not 1 to 32 bytes.
    pub fn of(bytes: &[u8]) -> Option<Name>
        ensures { SomeIff result (IsNameLength (length bytes.now)) bytes.now }
    {
        let len = bytes.len();
        if len == 0 || len > 32 {
            return None;
        }
        let mut padded = [0; 32];
        padded[..len].copy_from_slice(bytes);
        Some(Name { bytes: padded, len })
    }

    /// Its bytes, 1 to 32.
    pub fn as_slice(&self) -> &[u8]
        ensures bytes { result.now ≡ self.now }
        ensures length { IsNameLength (length self.now) }
    {
        &self.bytes[..self.len]
    }
}
