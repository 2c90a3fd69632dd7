//! What action types have and do with their bases, found at once.
ghost use Rattle.std.specs.Prelude.{◌≡◌, ◌++◌, ◌∷◌, [], IfOk, IfSome, OnOk};
ghost use Rattle.pst_tree.specs.declared.rows.Member.TheVariants as member;
ghost use Rattle.pst_tree.specs.Kept.{AreRows};
ghost use Rattle.pst_action_needs.specs.Inheriting.{AreInherited, AreNeeds, IsInherited};

use crate::rows::{Inherited, derived, walked};
use pst_ast::Declaration;
use pst_base::NoMemory;
use pst_index::Index;
use pst_members::is_same_action;
use pst_tree::{PlaceKey, Rows, Sites, place_key};
use std::alloc::Global;
use std::collections::HashMap;

/// What action types have and do with their bases, each found at once.
#[derive(Drop)]
pub struct NeedTable {
    pub(crate) rows: Vec<Inherited>,
    numbers: HashMap<PlaceKey, usize>,
}

impl NeedTable {
    /// A table of no action types.
    pub fn new(alloc: Global) -> NeedTable
        ensures { result.rows.items ≡ [] }
    {
        NeedTable {
            rows: Vec::new(alloc),
            numbers: HashMap::new(alloc),
        }
    }

    // What is kept of an action type.
    fn find(&self, _index: &Index, _sites: &Sites, action: &Declaration) -> Option<&Inherited>
        requires { AreInherited _sites.now _index.now self.now.rows.items }
        ensures action { IfSome result (λ row. row.now.action ≡ action.now) }
        ensures inherited { IfSome result (λ row. IsInherited _sites.now _index.now row.now) }
    {
        let number = *self.numbers.get(&place_key(action.name.place))?;
        let row = self.rows.as_slice().get(number)?;
        if is_same_action(&row.action, action) {
            return Some(row);
        }
        None
    }

    // Keeps what an action type has and does.
    fn keep(&mut self, row: Inherited) -> Result<(), NoMemory>
        ensures { OnOk result (self.new.rows.items ≡ self.old.rows.items ++ row ∷ []) }
    {
        self.numbers
            .insert(place_key(row.action.name.place), self.rows.len())?;
        self.rows.push(row)?;
        Ok(())
    }
}

// What an action type has and does with its bases, by that of its base where this is kept.
fn inherited(
    alloc: Global,
    index: &Index,
    members: &Rows,
    sites: &Sites,
    table: &NeedTable,
    action: &Declaration,
) -> Result<Inherited, NoMemory>
    requires rows { AreRows member.Need index.now members.now }
    requires inherited { AreInherited sites.now index.now table.now.rows.items }
    ensures action { IfOk result (λ row. row.action ≡ action.now) }
    ensures inherited { IfOk result (IsInherited sites.now index.now) }
{
    let Some(base) = index.base_of(action) else {
        return walked(alloc, index, members, sites, action);
    };
    let Some(row) = table.find(index, sites, &base) else {
        return walked(alloc, index, members, sites, action);
    };
    let declared = index.as_slice().len();
    if row.count < declared {
        return derived(alloc, index, declared, members, sites, row, action);
    }
    walked(alloc, index, members, sites, action)
}

// Keeps what an action type has and does with its bases.
fn settle(
    alloc: Global,
    index: &Index,
    members: &Rows,
    sites: &Sites,
    table: &mut NeedTable,
    action: &Declaration,
) -> Result<(), NoMemory>
    requires rows { AreRows member.Need index.now members.now }
    requires inherited { AreInherited sites.now index.now table.old.rows.items }
    ensures { OnOk result (AreInherited sites.now index.now table.new.rows.items) }
{
    let row = inherited(alloc, index, members, sites, table, action)?;
    table.keep(row)
}

// An action type and its bases up to the first that is kept, the nearest first.
fn not_kept(
    alloc: Global,
    index: &Index,
    sites: &Sites,
    table: &NeedTable,
    action: &Declaration,
) -> Result<Vec<Declaration>, NoMemory>
    requires { AreInherited sites.now index.now table.now.rows.items }
{
    let mut waiting = Vec::new(alloc);
    let mut at = *action;
    for _ in index.as_slice() {
        if table.find(index, sites, &at).is_some() {
            return Ok(waiting);
        }
        waiting.push(at)?;
        match index.base_of(&at) {
            None => return Ok(waiting),
            Some(base) => at = base,
        }
    }
    Ok(waiting)
}

// Keeps what action types have and do with their bases, the last first.
fn settle_all(
    alloc: Global,
    index: &Index,
    members: &Rows,
    sites: &Sites,
    table: &mut NeedTable,
    waiting: &[Declaration],
) -> Result<(), NoMemory>
    requires rows { AreRows member.Need index.now members.now }
    requires inherited { AreInherited sites.now index.now table.old.rows.items }
    ensures { OnOk result (AreInherited sites.now index.now table.new.rows.items) }
{
    for action in waiting.iter().rev() {
        settle(alloc, index, members, sites, table, action)?;
    }
    Ok(())
}

// The references and then the claims of an action type, where it is atomic.
fn needs_in(
    alloc: Global,
    _index: &Index,
    _sites: &Sites,
    row: &Inherited,
) -> Result<Option<Vec<Declaration>>, NoMemory>
    requires { IsInherited _sites.now _index.now row.now }
    ensures { IfOk result (AreNeeds _sites.now _index.now row.now.action) }
{
    if row.compound {
        return Ok(None);
    }
    let mut needs = Vec::new(alloc);
    for reference in row.references.as_slice() {
        needs.push(*reference)?;
    }
    for claim in row.claims.as_slice() {
        needs.push(*claim)?;
    }
    Ok(Some(needs))
}

/// The references and then the claims of an action type with its bases, the base's first, where it
/// is atomic; none where it is compound. Given are what the types declare as references and claims,
/// and what is known so far, to which the action type and its bases are added.
pub fn needs_at(
    alloc: Global,
    index: &Index,
    members: &Rows,
    sites: &Sites,
    table: &mut NeedTable,
    action: &Declaration,
) -> Result<Option<Vec<Declaration>>, NoMemory>
    requires rows { AreRows member.Need index.now members.now }
    requires inherited { AreInherited sites.now index.now table.old.rows.items }
    ensures needs { IfOk result (AreNeeds sites.now index.now action.now) }
    ensures inherited { OnOk result (AreInherited sites.now index.now table.new.rows.items) }
{
    let waiting = not_kept(alloc, index, sites, table, action)?;
    settle_all(alloc, index, members, sites, table, waiting.as_slice())?;
    match table.find(index, sites, action) {
        Some(row) => needs_in(alloc, index, sites, row),
        None => {
            let row = walked(alloc, index, members, sites, action)?;
            needs_in(alloc, index, sites, &row)
        }
    }
}
