//! Lists inside public types.

ghost use Rattle.std.specs.Prelude.{◌≡◌, List as Items};

use std::marker::Model;

/// A list that is a field of a public type. Contracts see it as the list of its items, whatever
/// room the vector inside it keeps.
#[derive(Drop)]
pub struct List<T>(pub Vec<T>);

impl<T> Model for List<T> {
    ghost use Rattle.std.specs.Prelude.{List as Items};

    ghost Value = { Items T };

    ghost view = { λ l. l.0.items };
}

impl<T> List<T> {
    /// The items, in order.
    pub fn as_slice(&self) -> &[T]
        ensures { result.now ≡ self.now }
    {
        self.0.as_slice()
    }
}

impl<T> From<Vec<T>> for List<T> {
    ghost from_gives = { λ items list. list ≡ items.items };

    fn from(items: Vec<T>) -> List<T> {
        List(items)
    }
}
