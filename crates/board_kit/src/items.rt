//! Broken items in their order.

ghost use Rattle.std.specs.Prelude.{◌≡◌, ◌+◌, ◌<◌, ◌≤◌, Bool, List as Items, [], find, length, IfOk, OnOk, IsTrue, ◌↔◌};
ghost use Rattle.std.specs.List.{AllPairs, Contains, HoldsAt};
ghost use Rattle.desk_data.specs.declared.broken.Broken.{Broken as Item};
ghost use Rattle.desk_rules.specs.Order.{ComesBefore};
ghost use Rattle.kept_set.specs.Kept.{AreSet};
ghost use Rattle.board_kit.specs.Items.{AreThose};

use crate::key::{ItemKey, item_of, key_of};
use desk_data::{Broken, NoMem};
use kept_set::KeptSet;
use std::alloc::Global;
use std::marker::Model;

/// Items in the order in which they are reported, none twice. Contracts see them, and how many there is
/// room for.
#[derive(Drop)]
pub struct BrokenItems {
    keys: KeptSet<ItemKey>,
}

impl Model for BrokenItems {
    ghost use Rattle.std.specs.Prelude.{map};
    ghost use Rattle.desk_data.specs.declared.broken.Broken.{Broken};
    ghost use Rattle.kept_set.specs.Kept.{OrderedItems};
    ghost use Rattle.board_kit.specs.Items.{AreKeys, item_of};

    ghost Value = { OrderedItems Broken };

    ghost view = { λ i. record { items = map item_of i.keys.items; room = i.keys.room } };

    ghost invariant = { λ i. AreKeys i.keys.items };
}

impl BrokenItems {
    /// No items, and no room.
    pub fn new(alloc: Global) -> BrokenItems
        ensures { result.items ≡ [] }
    {
        BrokenItems {
            keys: KeptSet::new(alloc),
        }
    }

    /// The same items, with room for these. The only error is out of memory.
    pub fn copy(&self, alloc: Global) -> Result<BrokenItems, NoMem>
        ensures items { IfOk result (λ copy. copy.items ≡ self.now.items) }
        ensures room { IfOk result (λ copy. length copy.items ≤ copy.room) }
    {
        let keys = self.keys.copy(alloc)?;
        Ok(BrokenItems { keys })
    }

    /// Makes room for so many items more than there are. The only error is out of memory; the items
    /// stay, and no room is lost.
    pub fn reserve(&mut self, more: usize) -> Result<(), NoMem>
        ensures items { self.new.items ≡ self.old.items }
        ensures room { self.old.room ≤ self.new.room }
        ensures ok { OnOk result (length self.new.items + more ≤ self.new.room) }
    {
        self.keys.reserve(more)?;
        Ok(())
    }

    /// The first item in the order in which they are reported. Where the items are those of a list in this
    /// order that pass a test, it is the first of the list that does.
    pub fn first(&self) -> Option<Broken>
        ensures { (test : Item → Bool) (all : Items Item) → AllPairs ComesBefore all → AreThose test all self.now.items → result ≡ find test all }
    {
        match self.keys.first() {
            Some(key) => Some(item_of(key)),
            None => None,
        }
    }

    /// How many items there are.
    pub fn count(&self) -> usize
        ensures { result ≡ length self.now.items }
    {
        self.keys.items().len()
    }

    /// The item at a place, in the order in which they are reported.
    pub fn at(&self, place: usize) -> Broken
        requires { place < length self.now.items }
        ensures { HoldsAt (λ item. item ≡ result) self.now.items place }
    {
        item_of(self.keys.items()[place])
    }

    /// Whether an item is among the items.
    pub fn has(&self, item: Broken) -> bool
        ensures { IsTrue result ↔ Contains self.now.items item }
    {
        self.keys.has(key_of(item))
    }

    /// From now on an item is among the items, or is not. There is room for one more. It takes no
    /// memory.
    pub fn set(&mut self, item: Broken, is_in: bool)
        requires { length self.old.items < self.old.room }
        ensures set { AreSet self.old.items self.new.items item is_in }
        ensures length { length self.new.items ≤ length self.old.items + 1 }
        ensures room { self.old.room ≤ self.new.room }
    {
        if is_in {
            self.keys.put(key_of(item));
        } else {
            self.keys.take(key_of(item));
        }
    }
}
