//! Items that several lists have, each kept once.

ghost use Rattle.std.specs.Prelude.{◌≡◌, IfOk};

use std::alloc::{AllocError, Global};
use std::marker::Model;
use std::sync::Arc;

/// What can stand on a page: its items can be copied.
pub trait CopyItems: Sized + Drop {
    ghost use Rattle.std.specs.Prelude.{◌≡◌, IfOk};

    /// Equal items, which may share what they hold. The only error is out of memory; that too many share one already is
    /// told as that.
    fn copies(alloc: Global, items: &[Self]) -> Result<Vec<Self>, AllocError>
        ensures { IfOk result (λ copies. copies.items ≡ items.now) };
}

/// Items behind a pointer that can be shared, and that nobody writes on. Contracts see them as a list.
#[derive(Drop)]
pub struct SharedItems<T> {
    items: Arc<Vec<T>>,
}

impl<T> Model for SharedItems<T> {
    ghost use Rattle.std.specs.Prelude.{List as Items};
    ghost use Rattle.std.specs.Arc.{arc_value};

    ghost Value = { Items T };

    ghost view = { λ s. (arc_value s.items).items };
}

impl<T: Drop> SharedItems<T> {
    /// These items, which can be shared from now on. The only error is out of memory.
    pub fn of(alloc: Global, items: Vec<T>) -> Result<SharedItems<T>, AllocError>
        ensures { IfOk result (λ shared. shared ≡ items.items) }
    {
        let items = Arc::new(alloc, items)?;
        Ok(SharedItems { items })
    }

    /// The same items in memory. The only error is that too many share them already, told as out of memory.
    pub fn share(&self) -> Result<SharedItems<T>, AllocError>
        ensures { IfOk result (λ shared. shared ≡ self.now) }
    {
        let items = self.items.clone()?;
        Ok(SharedItems { items })
    }

    /// The items, in order.
    pub fn as_slice(&self) -> &[T]
        ensures { result.now ≡ self.now }
    {
        self.items.as_slice()
    }
}

impl<T: Drop> CopyItems for SharedItems<T> {
    /// The same items in memory, for each. The only error is out of memory, told where too many share one, too.
    fn copies(alloc: Global, items: &[SharedItems<T>]) -> Result<Vec<SharedItems<T>>, AllocError> {
        let mut copies = Vec::with_capacity(alloc, items.len())?;
        for one in items {
            copies.push(one.share()?)?;
        }
        Ok(copies)
    }
}

/// Plain items stand on a page one after the other.
impl<T: Copy + Drop> CopyItems for T {
    /// The same items.
    fn copies(alloc: Global, items: &[T]) -> Result<Vec<T>, AllocError> {
        Vec::from_slice(alloc, items)
    }
}
