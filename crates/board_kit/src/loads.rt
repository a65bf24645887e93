//! How many legs take each slot.

ghost use Rattle.std.specs.Prelude.{◌≡◌, ◌+◌, ◌<◌, ◌≤◌, [], length, IfOk, OnOk, IsSome};
ghost use Rattle.desk_data.specs.Situation.{Situation};
ghost use Rattle.desk_data.specs.PlanRows.{PlanRows};
ghost use Rattle.desk_rules.specs.Least.{least_slots};
ghost use Rattle.board_kit.specs.Slots.{AreCounted, AreKnown, AreSlots, Enters, IsMoved, IsReady, IsWritten, KeepsKnown, Learns, Leaves, count_of, load_at, taken};
ghost use Rattle.board_kit.specs.declared.slot.By.TheVariants as by;

use crate::BrokenItems;
use crate::slot::{SlotLoad, SlotUse, is_over, moved};
use desk_data::{Broken, Instance, NoMem};
use hour_counts::Slot;
use std::alloc::Global;
use std::collections::HashMap;
use std::marker::Model;

/// How many legs take each slot that is known, and which slots are overfull. What is known stays so,
/// and a load that is known is changed without memory.
#[derive(Drop)]
pub(crate) struct Loads {
    loads: HashMap<Slot, SlotLoad>,
    over: BrokenItems,
}

impl Model for Loads {
    ghost use Rattle.board_kit.specs.Slots.{LoadRows, AreOver};

    ghost Value = { LoadRows };

    ghost view = { λ l. record { loads = l.loads.entries; over = l.over } };

    ghost invariant = { λ l. AreOver l.loads.entries l.over.items };
}

impl Loads {
    /// No slot is known.
    pub(crate) fn new(alloc: Global) -> Loads
        ensures { result.loads ≡ [] }
    {
        Loads {
            loads: HashMap::new(alloc),
            over: BrokenItems::new(alloc),
        }
    }

    /// The same loads, with room for the slots that are overfull. The only error is out of memory.
    pub(crate) fn copy(&self, alloc: Global) -> Result<Loads, NoMem>
        ensures loads { IfOk result (λ copy. copy.loads ≡ self.now.loads) }
        ensures over { IfOk result (λ copy. copy.over.items ≡ self.now.over.items) }
        ensures room { IfOk result (λ copy. length copy.over.items ≤ copy.over.room) }
    {
        let loads = self.loads.clone()?;
        let over = self.over.copy(alloc)?;
        Ok(Loads { loads, over })
    }

    /// What is known of a slot.
    fn at(&self, slot: Slot) -> Option<SlotLoad>
        ensures { result ≡ load_at self.now.loads slot }
    {
        self.loads.get(&slot).copied()
    }

    /// How many legs take a slot by their scheduled aircraft.
    pub(crate) fn scheduled_at(&self, slot: Slot) -> u32
        ensures { result ≡ count_of by.Schedule (load_at self.now.loads slot) }
    {
        match self.at(slot) {
            Some(load) => load.by_schedule,
            None => 0,
        }
    }

    /// The first item of an overfull slot.
    pub(crate) fn first(&self) -> Option<Broken>
        ensures { (I : Situation) (P : PlanRows) → AreCounted I (taken I P) self.now.loads → result ≡ least_slots I P }
    {
        self.over.first()
    }

    /// Writes another load of a slot that is known.
    fn write(&mut self, slot: Slot, load: SlotLoad)
        requires known { IsSome (load_at self.old.loads slot) }
        requires room { length self.old.over.items < self.old.over.room }
        ensures written { IsWritten self.old.loads self.new.loads slot load }
        ensures length { length self.new.over.items ≤ length self.old.over.items + 1 }
        ensures room { self.old.over.room ≤ self.new.over.room }
    {
        // the slot is known, so it is not refused
        let _before = self.loads.insert(slot, load);
        self.over.set(slot.item(), is_over(load));
    }

    /// A leg comes to a slot, or goes.
    fn step(&mut self, slot: Slot, taken: SlotUse, more: bool)
        requires room { length self.old.over.items < self.old.over.room }
        ensures moved { IsMoved self.old.loads self.new.loads slot taken more }
        ensures known { KeepsKnown self.old.loads self.new.loads }
        ensures length { length self.new.over.items ≤ length self.old.over.items + 1 }
        ensures room { self.old.over.room ≤ self.new.over.room }
    {
        if let Some(load) = self.at(slot) {
            self.write(slot, moved(load, taken, more));
        }
    }

    /// A leg comes: it takes the slots of its row, which are known. It takes no memory.
    pub(crate) fn enter(&mut self, come: Option<SlotUse>)
        requires room { length self.old.over.items + 2 ≤ self.old.over.room }
        ensures entered { Enters self.old.loads self.new.loads come }
        ensures known { KeepsKnown self.old.loads self.new.loads }
        ensures length { length self.new.over.items ≤ length self.old.over.items + 2 }
        ensures room { self.old.over.room ≤ self.new.over.room }
    {
        if let Some(taken) = come {
            self.step(taken.from, taken, true);
            self.step(taken.to, taken, true);
        }
    }

    /// A leg goes: it leaves the slots of its row, which are known. It takes no memory.
    pub(crate) fn leave(&mut self, gone: Option<SlotUse>)
        requires room { length self.old.over.items + 2 ≤ self.old.over.room }
        ensures left { Leaves self.old.loads self.new.loads gone }
        ensures known { KeepsKnown self.old.loads self.new.loads }
        ensures length { length self.new.over.items ≤ length self.old.over.items + 2 }
        ensures room { self.old.over.room ≤ self.new.over.room }
    {
        if let Some(taken) = gone {
            self.step(taken.from, taken, false);
            self.step(taken.to, taken, false);
        }
    }

    /// Makes a slot known, with its cap.
    fn know(&mut self, slot: Slot, cap: Option<u32>) -> Result<(), NoMem>
        ensures known { OnOk result (IsSome (load_at self.new.loads slot)) }
        ensures learns { Learns self.old.loads self.new.loads slot cap }
        ensures over { self.new.over ≡ self.old.over }
    {
        if self.at(slot).is_none() {
            let load = SlotLoad {
                by_flyer: 0,
                by_schedule: 0,
                cap,
            };
            self.loads.insert(slot, load)?;
        }
        Ok(())
    }

    /// Makes the slots of a row known.
    fn know_slots(&mut self, inst: &Instance, taken: Option<SlotUse>) -> Result<(), NoMem>
        requires slots { AreSlots inst.now taken }
        ensures ready { IsReady inst.now self.old self.new }
        ensures slots { OnOk result (AreKnown self.new.loads taken) }
        ensures over { self.new.over ≡ self.old.over }
    {
        if let Some(taken) = taken {
            self.know(taken.from, taken.from.cap(inst))?;
            self.know(taken.to, taken.to.cap(inst))?;
        }
        Ok(())
    }

    /// Makes room for so many overfull slots more than there are.
    pub(crate) fn reserve(&mut self, more: usize) -> Result<(), NoMem>
        ensures loads { self.new.loads ≡ self.old.loads }
        ensures items { self.new.over.items ≡ self.old.over.items }
        ensures room { self.old.over.room ≤ self.new.over.room }
        ensures ok { OnOk result (length self.new.over.items + more ≤ self.new.over.room) }
    {
        self.over.reserve(more)
    }

    /// Makes ready for a change, so that a leg can leave some slots and take others without memory:
    /// they are known, and there is room for so many overfull slots more. The only error is out of
    /// memory; no count changes, and what is known stays so.
    pub(crate) fn make_ready(
        &mut self,
        inst: &Instance,
        gone: Option<SlotUse>,
        come: Option<SlotUse>,
        more: usize,
    ) -> Result<(), NoMem>
        requires gone { AreSlots inst.now gone }
        requires come { AreSlots inst.now come }
        ensures ready { IsReady inst.now self.old self.new }
        ensures gone { OnOk result (AreKnown self.new.loads gone) }
        ensures come { OnOk result (AreKnown self.new.loads come) }
        ensures items { self.new.over.items ≡ self.old.over.items }
        ensures room { self.old.over.room ≤ self.new.over.room }
        ensures ok { OnOk result (length self.new.over.items + more ≤ self.new.over.room) }
    {
        self.reserve(more)?;
        self.know_slots(inst, gone)?;
        self.know_slots(inst, come)
    }
}
