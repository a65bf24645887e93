//! The set.

ghost use Rattle.std.specs.Prelude.{◌≡◌, ◌≢◌, ◌+◌, ◌-◌, ◌<◌, ◌≤◌, [], length, OnOk, IfOk, IfErr, IfSome, IsNone, is_some, IsTrue, ◌↔◌, true, false, Some};
ghost use Rattle.std.specs.List.{AllWithin, Contains, HoldsAt};
ghost use Rattle.std.specs.declared.cmp.Ordering.TheVariants.{Less, Equal};
ghost use Rattle.kept_set.specs.Kept.{AreReplaced, AreSet, AreRising, IsBetween, IsExact, IsFirstAfter, IsGap, IsItemAt, IsItemBefore, IsLastBefore, IsToggled, KeepsPlace, first};

use std::alloc::{AllocError, Global};
use std::marker::Model;

/// Items in their order, none twice. Contracts see them, and how many there is room for.
#[derive(Drop)]
pub struct KeptSet<K: Ord> {
    items: Vec<K>,
}

/// The item after a place in the order, if there is one.
#[derive(Clone, Copy)]
pub struct NextItem<K> {
    pub item: Option<K>,
}

impl<K: Ord> Model for KeptSet<K> {
    ghost use Rattle.std.specs.Vec.{vec_capacity};
    ghost use Rattle.kept_set.specs.Kept.{OrderedItems, AreRising};

    ghost Value = { OrderedItems K };

    ghost view = { λ i. record { items = i.items.items; room = vec_capacity i.items } };

    ghost invariant = { λ i. AreRising K.cmp i.items.items };
}

impl<K: Ord + Copy> KeptSet<K> {
    /// No items, and no room.
    pub fn new(alloc: Global) -> KeptSet<K>
        ensures { result.items ≡ [] }
    {
        KeptSet {
            items: Vec::new(alloc),
        }
    }

    /// The same items, with room for these. None is looked up or compared: they are copied as they stand. The
    /// only error is out of memory.
    pub fn copy(&self, alloc: Global) -> Result<KeptSet<K>, AllocError>
        ensures items { IfOk result (λ copy. copy.items ≡ self.now.items) }
        ensures room { IfOk result (λ copy. length copy.items ≤ copy.room) }
    {
        let items = Vec::from_slice(alloc, self.items.as_slice())?;
        Ok(KeptSet { items })
    }

    /// The items, in their order.
    pub fn items(&self) -> &[K]
        ensures items { result.now ≡ self.now.items }
        ensures rising { AreRising K.cmp self.now.items }
    {
        self.items.as_slice()
    }

    /// The least item, if there is one.
    pub fn first(&self) -> Option<K>
        ensures first { result ≡ first self.now.items }
        ensures rising { AreRising K.cmp self.now.items }
    {
        self.items.as_slice().first().copied()
    }

    /// Makes room for so many items more than there are. The only error is out of memory; the items
    /// stay, and no room is lost.
    pub fn reserve(&mut self, more: usize) -> Result<(), AllocError>
        ensures items { self.new.items ≡ self.old.items }
        ensures room { self.old.room ≤ self.new.room }
        ensures ok { OnOk result (length self.new.items + more ≤ self.new.room) }
    {
        self.items.reserve(more)
    }

    /// From now on the item is among the items, and the others stay, where items that compare alike are
    /// one. There is room for one more. It takes no memory.
    pub fn put(&mut self, item: K)
        requires { length self.old.items < self.old.room }
        ensures set { IsExact K.cmp → AreSet self.old.items self.new.items item true }
        ensures length { length self.new.items ≤ length self.old.items + 1 }
        ensures room { self.old.room ≤ self.new.room }
    {
        if let Err(at) = self.find(item) {
            // there is room, so it is not refused
            let _inserted = self.items.insert(at, item);
        }
    }

    /// From now on the item is not among the items, and the others stay, where items that compare alike
    /// are one. Its room stays. It takes no memory.
    pub fn take(&mut self, item: K)
        ensures set { IsExact K.cmp → AreSet self.old.items self.new.items item false }
        ensures length { length self.new.items ≤ length self.old.items }
        ensures room { self.old.room ≤ self.new.room }
    {
        if let Ok(at) = self.find(item) {
            self.items.remove(at);
        }
    }

    /// From now on the item is among the items where it was not, and else is not; the others stay, where
    /// items that compare alike are one. There is room for one more. It takes no memory.
    pub fn toggle(&mut self, item: K)
        requires { length self.old.items < self.old.room }
        ensures set { IsExact K.cmp → IsToggled self.old.items self.new.items item }
        ensures length { length self.new.items ≤ length self.old.items + 1 }
        ensures room { self.old.room ≤ self.new.room }
    {
        match self.find(item) {
            Ok(place) => {
                self.items.remove(place);
            }
            Err(place) => {
                // there is room, so it is not refused
                let _inserted = self.items.insert(place, item);
            }
        }
    }

    /// Puts an item in the place of another, where it stays between its neighbours, and gives the item after
    /// it. `None` where the other is not among the items, or where it would not stay: then nothing changes.
    /// It takes no memory.
    pub fn replace(&mut self, from: K, to: K) -> Option<NextItem<K>>
        ensures when { IsExact K.cmp → IsTrue (is_some result) ↔ (Contains self.old.items from × KeepsPlace K.cmp self.old.items from to) }
        ensures none { IsNone result → self.new ≡ self.old }
        ensures set { IfSome result (λ next. IsExact K.cmp → AreReplaced self.old.items self.new.items from to) }
        ensures after { IfSome result (λ next. IsFirstAfter K.cmp self.new.items to next.item) }
        ensures was { IfSome result (λ next. IsFirstAfter K.cmp self.old.items from next.item) }
        ensures length { length self.new.items ≡ length self.old.items }
        ensures room { self.new.room ≡ self.old.room }
    {
        let Ok(at) = self.find(from) else {
            return None;
        };
        let before = self.item_before(at);
        let after = self.item_at(at + 1);
        let stays = is_between(before, to, after);
        if stays {
            self.items[at] = to;
            Some(NextItem { item: after })
        } else {
            None
        }
    }

    /// The item at a place.
    fn item_at(&self, at: usize) -> Option<K>
        ensures { IsItemAt self.now.items at result }
    {
        if at < self.items.len() {
            Some(self.items.as_slice()[at])
        } else {
            None
        }
    }

    /// The item before a place.
    fn item_before(&self, at: usize) -> Option<K>
        requires { at ≤ length self.now.items }
        ensures { IsItemBefore self.now.items at result }
    {
        if at == 0 {
            return None;
        }
        Some(self.items.as_slice()[at - 1])
    }

    /// Whether an item is among the items, where items that compare alike are one.
    pub fn has(&self, item: K) -> bool
        ensures { IsExact K.cmp → IsTrue result ↔ Contains self.now.items item }
    {
        match self.find(item) {
            Ok(_at) => true,
            Err(_at) => false,
        }
    }

    /// At which place an item stands, or else at which it would: those before it are below it, and
    /// those from there on above.
    pub fn find(&self, item: K) -> Result<usize, usize>
        ensures bound { IfOk result (λ at. at < length self.now.items) }
        ensures found { IfOk result (HoldsAt (λ y. K.cmp y item ≡ Equal) self.now.items) }
        ensures missing { IfErr result (IsGap K.cmp self.now.items item) }
    {
        self.items.as_slice().binary_search(&item)
    }

    /// The greatest item below an item, which need not be among the items.
    pub fn before(&self, item: K) -> Option<K>
        ensures { IsLastBefore K.cmp self.now.items item result }
    {
        let at = self.count_below(item);
        if at == 0 {
            return None;
        }
        Some(self.items.as_slice()[at - 1])
    }

    /// The least item above an item, which need not be among the items.
    pub fn after(&self, item: K) -> Option<K>
        ensures { IsFirstAfter K.cmp self.now.items item result }
    {
        let at = self.count_not_above(item);
        if at == self.items.len() {
            return None;
        }
        Some(self.items.as_slice()[at])
    }

    /// How many items are below an item.
    fn count_below(&self, item: K) -> usize
        ensures bound { result ≤ length self.now.items }
        ensures before { AllWithin (λ y. K.cmp y item ≡ Less) self.now.items 0 result }
        ensures rest { AllWithin (λ y. K.cmp y item ≢ Less) self.now.items result (length self.now.items) }
    {
        // by this the proof knows that the items ascend
        let _ = &self.items;
        match self.find(item) {
            Ok(at) => at,
            Err(at) => at,
        }
    }

    /// How many items are not above an item.
    fn count_not_above(&self, item: K) -> usize
        ensures bound { result ≤ length self.now.items }
        ensures before { AllWithin (λ y. K.cmp item y ≢ Less) self.now.items 0 result }
        ensures rest { AllWithin (λ y. K.cmp item y ≡ Less) self.now.items result (length self.now.items) }
    {
        // by this the proof knows that a place and one more is a number
        let _ = self.items.len();
        match self.find(item) {
            Ok(at) => at + 1,
            Err(at) => at,
        }
    }
}

/// Whether an item is above another, if there is one, and below a third, if there is one.
fn is_between<K: Ord + Copy>(before: Option<K>, item: K, after: Option<K>) -> bool
    ensures { IsTrue result ↔ IsBetween K.cmp before item after }
{
    is_above(item, before) && is_below(item, after)
}

/// Whether an item is above another, if there is one.
fn is_above<K: Ord + Copy>(item: K, before: Option<K>) -> bool
    ensures { IsTrue result ↔ IfSome before (λ y. K.cmp y item ≡ Less) }
{
    match before {
        Some(other) => other.cmp(&item).is_lt(),
        None => true,
    }
}

/// Whether an item is below another, if there is one.
fn is_below<K: Ord + Copy>(item: K, after: Option<K>) -> bool
    ensures { IsTrue result ↔ IfSome after (λ y. K.cmp item y ≡ Less) }
{
    match after {
        Some(other) => item.cmp(&other).is_lt(),
        None => true,
    }
}
