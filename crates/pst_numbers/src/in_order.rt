//! Meanings in order of place.
ghost use Rattle.std.specs.Prelude.{◌++◌, ◌∷◌, [], IfOk, OnOk, IsTrue};
ghost use Rattle.std.specs.List.Sorted.{IsPermutation};
ghost use Rattle.pst_ast.specs.Scopes.{AreInOrder};
ghost use Rattle.pst_numbers.specs.Meanings.{AreSorted, HasOneMore, HaveSame};

use pst_ast::NameMeaning;
use pst_base::NoMemory;
use std::alloc::Global;

// Sorts meanings by their places.
fn sort_by_place(meanings: &mut Vec<NameMeaning>)
    ensures same { IsPermutation meanings.old.items meanings.new.items }
    ensures sorted { AreSorted meanings.new.items }
{
    meanings.sort_unstable_by_key(|m| (m.at.file, m.at.line, m.at.column));
}

// Whether a meaning stands at a later place than those of a list in order.
fn is_behind(found: &[NameMeaning], meaning: NameMeaning) -> bool
    ensures { IsTrue result → AreInOrder found.now → AreInOrder (found.now ++ meaning ∷ []) }
{
    match found.last() {
        None => true,
        Some(last) => last.at.is_before(meaning.at),
    }
}

// Adds a meaning behind those of earlier places. One that stands there last already isn't added
// again; where another stands at its place or behind it, there is no order of place.
fn add(found: &mut Vec<NameMeaning>, meaning: NameMeaning) -> Result<(), NoMemory>
    ensures order { OnOk result (AreInOrder found.old.items → AreInOrder found.new.items) }
    ensures each { OnOk result (HasOneMore found.old.items meaning found.new.items) }
{
    if found.last().copied() == Some(meaning) {
        return Ok(());
    }
    if !is_behind(found.as_slice(), meaning) {
        return Err(NoMemory);
    }
    found.push(meaning)?;
    Ok(())
}

// Meanings that are sorted by place, each once.
fn each_once(alloc: Global, sorted: &[NameMeaning]) -> Result<Vec<NameMeaning>, NoMemory>
    ensures order { IfOk result (λ found. AreInOrder found.items) }
    ensures each { IfOk result (λ found. HaveSame found.items sorted.now) }
{
    let mut found = Vec::new(alloc);
    for meaning in sorted {
        add(&mut found, *meaning)?;
    }
    Ok(found)
}

/// The same meanings in order of place, each once. Where two different ones stand at one place there
/// is no such order: that is answered as want of memory.
pub fn in_order(alloc: Global, mut meanings: Vec<NameMeaning>) -> Result<Vec<NameMeaning>, NoMemory>
    ensures order { IfOk result (λ found. AreInOrder found.items) }
    ensures each { IfOk result (λ found. HaveSame found.items meanings.items) }
{
    sort_by_place(&mut meanings);
    each_once(alloc, meanings.as_slice())
}
