//! Slots one behind the other, in which the number of a slot is found without a walk through all.
ghost use Rattle.std.specs.Prelude.{◌≡◌, ◌++◌, ◌∷◌, [], length, is_some, IfOk, OnOk, OnErr, Some, if◌then◌else◌};
ghost use Rattle.std.specs.HashMap.{get};
ghost use Rattle.pst_terms.specs.Slots.{slot_number};
ghost use Rattle.pst_numbering.specs.Kept.{view_all, view_kept};
ghost use Rattle.pst_numbering.specs.Tabled.{same_key};

use crate::reading::KeptSlot;
use crate::slots::number_of;
use pst_base::NoMemory;
use std::alloc::Global;
use std::collections::HashMap;
use std::marker::Model;

// So many of the last slots are gone through where one is looked up.
const FEW: usize = 16;

/// Slots one behind the other, with the numbers of the first of them by the slots themselves.
///
/// Contracts see the list of the slots. A look-up goes through a few of them at most.
#[derive(Drop)]
pub struct SlotTable {
    slots: Vec<KeptSlot>,
    numbers: HashMap<KeptSlot, usize>,
    // How many of the slots are looked up by the map.
    mapped: usize,
}

impl Model for SlotTable {
    ghost use Rattle.std.specs.Prelude.{List};
    ghost use Rattle.pst_numbering.specs.declared.reading.KeptSlot.{KeptSlot as Kept};
    ghost use Rattle.pst_numbering.specs.Tabled.{IsSlotTable};

    ghost Value = { List Kept };

    ghost view = { λ t. t.slots.items };

    ghost invariant = { IsSlotTable };
}

// Keeps the number of a slot that has none.
fn keep(
    numbers: &mut HashMap<KeptSlot, usize>,
    slot: KeptSlot,
    number: usize,
) -> Result<(), NoMemory>
    ensures ok { OnOk result ((q : KeptSlot) → get same_key numbers.new q ≡ (if is_some (get same_key numbers.old slot) then get same_key numbers.old q else (if same_key slot q then Some number else get same_key numbers.old q))) }
    ensures err { OnErr result ((q : KeptSlot) → get same_key numbers.new q ≡ get same_key numbers.old q) }
{
    if !numbers.contains_key(&slot) {
        numbers.insert(slot, number)?;
    }
    Ok(())
}

impl SlotTable {
    /// A table of slots.
    pub fn new(alloc: Global, slots: Vec<KeptSlot>) -> Result<SlotTable, NoMemory>
        ensures { IfOk result (λ table. table ≡ slots.items) }
    {
        let mut table = SlotTable {
            slots,
            numbers: HashMap::new(alloc),
            mapped: 0,
        };
        table.map_all()?;
        Ok(table)
    }

    // Takes the next slot into the map.
    fn map_next(&mut self) -> Result<(), NoMemory>
        ensures { self.new ≡ self.old }
    {
        let Some(slot) = self.slots.as_slice().get(self.mapped) else {
            return Ok(());
        };
        let slot = *slot;
        keep(&mut self.numbers, slot, self.mapped)?;
        self.mapped += 1;
        Ok(())
    }

    // Takes all slots but the few last into the map.
    fn map_all(&mut self) -> Result<(), NoMemory>
        ensures { self.new ≡ self.old }
    {
        let left = self.slots.len().saturating_sub(self.mapped);
        'slots: for _ in FEW..left {
            self.map_next()?;
        }
        Ok(())
    }

    /// How many slots there are.
    pub fn len(&self) -> usize
        ensures { result ≡ length self.now }
    {
        self.slots.len()
    }

    /// How many slots stand before one; all, where it isn't there.
    pub fn number_of(&self, slot: KeptSlot) -> usize
        ensures { result ≡ slot_number (view_all self.now) (view_kept slot) }
    {
        match self.numbers.get(&slot) {
            Some(number) => *number,
            None => self.mapped + number_of(&self.slots.as_slice()[self.mapped..], slot),
        }
    }

    /// Adds a slot behind the others.
    pub fn push(&mut self, slot: KeptSlot) -> Result<(), NoMemory>
        ensures { OnOk result (self.new ≡ self.old ++ slot ∷ []) }
    {
        self.slots.push(slot)?;
        self.map_all()
    }

    /// The slots.
    pub fn into_slots(self) -> Vec<KeptSlot>
        ensures { result.items ≡ self }
    {
        self.slots
    }
}
