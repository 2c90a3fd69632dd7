//! The slots of an expression while it is made.
ghost use Rattle.std.specs.Prelude.{◌≡◌, ℕ, map, OnOk, IfOk, ◌≤◌, length};
ghost use Rattle.pst_model.specs.ConstraintTree.{view_slot};
ghost use Rattle.pst_terms.specs.Slots.{first_number, slot_number, with_slot, with_slots};
ghost use Rattle.pst_numbering.specs.Kept.{elements_of, view_all, view_kept, view_own, through};

use crate::reading::{KeptSlot, OwnSlot};
use crate::same::same_kept;
use crate::table::SlotTable;
use pst_base::NoMemory;
use pst_model::Slot;
use std::alloc::Global;

/// How many slots stand before one; all, where it isn't there.
pub fn number_of(slots: &[KeptSlot], slot: KeptSlot) -> usize
    ensures { result ≡ slot_number (view_all slots.now) (view_kept slot) }
{
    for (number, other) in slots.iter().enumerate() {
        if same_kept(slot, *other) {
            return number;
        }
    }
    slots.len()
}

// A number of a slot.
fn narrow(number: usize) -> Result<u32, NoMemory>
    ensures { IfOk result (λ n. n ≡ number) }
{
    match u32::try_from(number) {
        Ok(number) => Ok(number),
        Err(_) => Err(NoMemory),
    }
}

/// The number of a slot, which goes last where it isn't there.
#[tactic(auto, using(crate::proofs::Found::new_slots, crate::proofs::Found::new_number, crate::proofs::Found::kept_slots))]
pub fn add_slot(slots: &mut SlotTable, slot: KeptSlot) -> Result<u32, NoMemory>
    ensures slots { OnOk result (view_all slots.new ≡ with_slot (view_all slots.old) (view_kept slot)) }
    ensures number { IfOk result (λ n. n ≡ slot_number (view_all slots.new) (view_kept slot)) }
{
    let number = slots.number_of(slot);
    if number == slots.len() {
        slots.push(slot)?;
    }
    narrow(number)
}

/// The number of the first element of an array, whose elements go last as far as they aren't there.
pub fn add_elements(slots: &mut SlotTable, first: KeptSlot, count: u32) -> Result<u32, NoMemory>
    ensures slots { OnOk result (view_all slots.new ≡ with_slots (view_all slots.old) (elements_of first count)) }
    ensures number { IfOk result (λ n. n ≡ first_number (view_all slots.new) (elements_of first count)) }
{
    let from = first.field();
    let Some(end) = from.checked_add(count) else {
        return Err(NoMemory);
    };
    for field in from..end {
        add_slot(slots, first.with_field(field))?;
    }
    if count == 0 {
        return Ok(0);
    }
    narrow(slots.number_of(first.with_field(from)))
}

// A slot of a model without a handle.
fn own_slot(own: OwnSlot) -> Slot
    ensures { view_slot result ≡ view_own own }
{
    match own {
        OwnSlot::Own { field } => Slot::Own { field },
        OwnSlot::Object { reference, field } => Slot::Object { reference, field },
        OwnSlot::First { reference } => Slot::First { reference },
        OwnSlot::ClaimId { claim } => Slot::ClaimId { claim },
        OwnSlot::ClaimField { claim, field } => Slot::ClaimField { claim, field },
        OwnSlot::Prev { field } => Slot::Prev { field },
        OwnSlot::IsFirst => Slot::IsFirst,
        OwnSlot::Id => Slot::Id,
        OwnSlot::Index { level } => Slot::Index { level },
        OwnSlot::Local { local } => Slot::Local { local },
    }
}

// A slot of a model behind a handle, where there is one.
fn slot_behind(alloc: Global, handle: Option<u32>, own: OwnSlot) -> Result<Slot, NoMemory>
    ensures { IfOk result (λ s. view_slot s ≡ through handle (view_own own)) }
{
    let slot = own_slot(own);
    match handle {
        None => Ok(slot),
        Some(handle) => Ok(Slot::Through {
            handle,
            slot: Box::new(alloc, slot)?,
        }),
    }
}

// A slot of a model.
fn slot_of(alloc: Global, kept: KeptSlot) -> Result<Slot, NoMemory>
    ensures { IfOk result (λ s. view_slot s ≡ view_kept kept) }
{
    let slot = slot_behind(alloc, kept.handle, kept.own)?;
    if !kept.outer {
        return Ok(slot);
    }
    Ok(Slot::Outer {
        slot: Box::new(alloc, slot)?,
    })
}

/// The slots of a model.
pub fn slots_of(alloc: Global, kept: &[KeptSlot]) -> Result<Vec<Slot>, NoMemory>
    ensures { IfOk result (λ slots. map view_slot slots.items ≡ view_all kept.now) }
{
    let mut slots = Vec::new(alloc);
    for slot in kept {
        slots.push(slot_of(alloc, *slot)?)?;
    }
    Ok(slots)
}
