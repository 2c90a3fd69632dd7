//! The first declaration of each key.
ghost use Rattle.std.specs.Prelude.{◌≡◌, ◌&&◌, IfOk, OnOk};
ghost use Rattle.std.specs.List.{find};
ghost use Rattle.std.specs.HashMap.{get};
ghost use Rattle.pst_index.specs.Found.{has_key, same_key, or_first, is_beside, is_other_item};

use crate::key::{By, Key, key_of};
use pst_ast::Declaration;
use pst_base::NoMemory;
use std::alloc::Global;
use std::collections::HashMap;

// Keeps a declaration at its key, where nothing is there yet.
fn keep(
    found: &mut HashMap<Key, Declaration>,
    key: Key,
    declaration: Declaration,
) -> Result<(), NoMemory>
    ensures { OnOk result ((q : Key) → get same_key found.new q ≡ or_first (get same_key found.old q) (same_key q key) declaration) }
{
    if !found.contains_key(&key) {
        found.insert(key, declaration)?;
    }
    Ok(())
}

/// For each key the first declaration that is found by it.
pub fn first_by(
    alloc: Global,
    by: By,
    declarations: &[Declaration],
) -> Result<HashMap<Key, Declaration>, NoMemory>
    ensures { IfOk result (λ m. (q : Key) → get same_key m q ≡ find (has_key by q) declarations.now) }
{
    let mut found = HashMap::new(alloc);
    for declaration in declarations {
        if let Some(key) = key_of(by, declaration) {
            keep(&mut found, key, *declaration)?;
        }
    }
    Ok(found)
}

// Whether a declaration stands in another scope than the first of its key.
fn is_other(items: &HashMap<Key, Declaration>, key: &Key, declaration: &Declaration) -> bool
    ensures { result ≡ is_beside (get same_key items.now key.now) declaration.now }
{
    match items.get(key) {
        None => false,
        Some(first) => first.scope != declaration.scope,
    }
}

// Keeps a declaration at its key, where it stands in another scope than the first of that key and
// nothing is there yet.
fn keep_other(
    found: &mut HashMap<Key, Declaration>,
    items: &HashMap<Key, Declaration>,
    key: Key,
    declaration: Declaration,
) -> Result<(), NoMemory>
    ensures { OnOk result ((q : Key) → get same_key found.new q ≡ or_first (get same_key found.old q) (same_key q key && is_beside (get same_key items.now q) declaration) declaration) }
{
    if is_other(items, &key, &declaration) {
        keep(found, key, declaration)?;
    }
    Ok(())
}

/// For each key of items the first that stands in another enum than the first item of that key.
pub fn other_items(
    alloc: Global,
    items: &HashMap<Key, Declaration>,
    declarations: &[Declaration],
) -> Result<HashMap<Key, Declaration>, NoMemory>
    ensures { IfOk result (λ m. (q : Key) → get same_key m q ≡ find (is_other_item (get same_key items.now q) q) declarations.now) }
{
    let mut found = HashMap::new(alloc);
    for declaration in declarations {
        if let Some(key) = key_of(By::Item, declaration) {
            keep_other(&mut found, items, key, *declaration)?;
        }
    }
    Ok(found)
}
