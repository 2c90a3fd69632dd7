//! Constants in order of place.
ghost use Rattle.std.specs.Prelude.{◌++◌, ◌∷◌, [], IfOk, OnOk, IsTrue};
ghost use Rattle.std.specs.List.Sorted.{IsPermutation};
ghost use Rattle.pst_type_rules.specs.Typed.{AreInOrder};
ghost use Rattle.pst_typed_uses.specs.InOrder.{AreSorted, HasOneMore, HaveSame};

use pst_base::NoMemory;
use pst_type_rules::ConstantValue;
use std::alloc::Global;

// Sorts constants by their places.
fn sort_by_place(constants: &mut Vec<ConstantValue>)
    ensures same { IsPermutation constants.old.items constants.new.items }
    ensures sorted { AreSorted constants.new.items }
{
    constants.sort_unstable_by_key(|m| (m.at.file, m.at.line, m.at.column));
}

// Whether a constant stands at a later place than those of a list in order.
fn is_behind(found: &[ConstantValue], constant: ConstantValue) -> bool
    ensures { IsTrue result → AreInOrder found.now → AreInOrder (found.now ++ constant ∷ []) }
{
    match found.last() {
        None => true,
        Some(last) => last.at.is_before(constant.at),
    }
}

// Adds a constant behind those of earlier places. One that stands there last already isn't added
// again; where another stands at its place or behind it, there is no order of place.
fn add(found: &mut Vec<ConstantValue>, constant: ConstantValue) -> Result<(), NoMemory>
    ensures order { OnOk result (AreInOrder found.old.items → AreInOrder found.new.items) }
    ensures each { OnOk result (HasOneMore found.old.items constant found.new.items) }
{
    if found.last().copied() == Some(constant) {
        return Ok(());
    }
    if !is_behind(found.as_slice(), constant) {
        return Err(NoMemory);
    }
    found.push(constant)?;
    Ok(())
}

// Constants that are sorted by place, each once.
fn each_once(alloc: Global, sorted: &[ConstantValue]) -> Result<Vec<ConstantValue>, NoMemory>
    ensures order { IfOk result (λ found. AreInOrder found.items) }
    ensures each { IfOk result (λ found. HaveSame found.items sorted.now) }
{
    let mut found = Vec::new(alloc);
    for constant in sorted {
        add(&mut found, *constant)?;
    }
    Ok(found)
}

/// The same constants in order of place, each once. Where two different ones stand at one place there
/// is no such order: that is answered as want of memory.
pub fn in_order(
    alloc: Global,
    mut constants: Vec<ConstantValue>,
) -> Result<Vec<ConstantValue>, NoMemory>
    ensures order { IfOk result (λ found. AreInOrder found.items) }
    ensures each { IfOk result (λ found. HaveSame found.items constants.items) }
{
    sort_by_place(&mut constants);
    each_once(alloc, constants.as_slice())
}
