//! What types lead to: the nearest of their bases that is marked.
ghost use Rattle.std.specs.Prelude.{◌≡◌, ◌≤◌, ◌++◌, ◌∷◌, [], Some, None, false, reverse, IfOk, IfSome, OnOk};
ghost use Rattle.std.specs.List.{filter};
ghost use Rattle.pst_ast.specs.Lookups.{base_of};
ghost use Rattle.pst_marked_bases.specs.Leads.{AreLeads, IsLead};
ghost use Rattle.pst_marked_bases.specs.Marked.{is_marked as marked_in, marked_within};

use pst_ast::{Declaration, Sort};
use pst_base::NoMemory;
use pst_index::Index;
use pst_members::is_same_action;
use pst_places::PlaceList;
use pst_tree::{PlaceKey, place_key};
use std::alloc::Global;
use std::collections::HashMap;

/// What a type leads to.
#[derive(Clone, Copy)]
pub struct Lead {
    /// The type.
    pub owner: Declaration,
    /// How many steps up it stands.
    pub steps: usize,
    /// The type itself or one of its bases; none where none of them is marked.
    pub base: Option<Declaration>,
}

/// What types lead to, each found at once.
#[derive(Drop)]
pub struct LeadTable {
    pub(crate) rows: Vec<Lead>,
    numbers: HashMap<PlaceKey, usize>,
}

/// Whether a type is marked.
pub(crate) fn is_marked(marks: &PlaceList, type_: &Declaration) -> bool
    ensures { result ≡ marked_in marks.now type_.now }
{
    marks.number(type_.name.place).is_some()
}

// A type leads to itself, by no step.
fn itself(_marks: &PlaceList, _index: &Index, owner: &Declaration) -> Lead
    ensures owner { result.owner ≡ owner.now }
    ensures lead { IsLead _marks.now _index.now result }
{
    Lead {
        owner: *owner,
        steps: 0,
        base: Some(*owner),
    }
}

// A type that isn't marked and has no base leads to none.
fn top(_marks: &PlaceList, _index: &Index, owner: &Declaration) -> Lead
    requires unmarked { marked_in _marks.now owner.now ≡ false }
    requires top { base_of _index.now owner.now ≡ None }
    ensures owner { result.owner ≡ owner.now }
    ensures lead { IsLead _marks.now _index.now result }
{
    Lead {
        owner: *owner,
        steps: 0,
        base: None,
    }
}

// A type that isn't marked leads to what its base leads to.
fn behind(_marks: &PlaceList, _index: &Index, owner: &Declaration, base: &Lead) -> Lead
    requires unmarked { marked_in _marks.now owner.now ≡ false }
    requires base { base_of _index.now owner.now ≡ Some base.now.owner }
    requires lead { IsLead _marks.now _index.now base.now }
    ensures owner { result.owner ≡ owner.now }
    ensures lead { IsLead _marks.now _index.now result }
{
    match base.steps.checked_add(1) {
        None => itself(_marks, _index, owner),
        Some(steps) => Lead {
            owner: *owner,
            steps,
            base: base.base,
        },
    }
}

impl LeadTable {
    /// A table of no types.
    pub(crate) fn new(alloc: Global) -> LeadTable
        ensures { result.rows.items ≡ [] }
    {
        LeadTable {
            rows: Vec::new(alloc),
            numbers: HashMap::new(alloc),
        }
    }

    // What is kept of a type.
    fn find(&self, _marks: &PlaceList, _index: &Index, owner: &Declaration) -> Option<&Lead>
        requires { AreLeads _marks.now _index.now self.now.rows.items }
        ensures owner { IfSome result (λ row. row.now.owner ≡ owner.now) }
        ensures lead { IfSome result (λ row. IsLead _marks.now _index.now row.now) }
    {
        let number = *self.numbers.get(&place_key(owner.name.place))?;
        let row = self.rows.as_slice().get(number)?;
        if is_same_action(&row.owner, owner) {
            return Some(row);
        }
        None
    }

    // What a type leads to; to itself where nothing is kept of it.
    fn lead_of(&self, marks: &PlaceList, index: &Index, owner: &Declaration) -> Lead
        requires { AreLeads marks.now index.now self.now.rows.items }
        ensures owner { result.owner ≡ owner.now }
        ensures lead { IsLead marks.now index.now result }
    {
        match self.find(marks, index, owner) {
            Some(row) => *row,
            None => itself(marks, index, owner),
        }
    }

    // Keeps what a type leads to.
    fn keep(&mut self, row: Lead) -> Result<(), NoMemory>
        ensures { OnOk result (self.new.rows.items ≡ self.old.rows.items ++ row ∷ []) }
    {
        self.numbers
            .insert(place_key(row.owner.name.place), self.rows.len())?;
        self.rows.push(row)?;
        Ok(())
    }
}

// What a type leads to, by what its base does.
fn led(marks: &PlaceList, index: &Index, table: &LeadTable, owner: &Declaration) -> Lead
    requires { AreLeads marks.now index.now table.now.rows.items }
    ensures owner { result.owner ≡ owner.now }
    ensures lead { IsLead marks.now index.now result }
{
    if is_marked(marks, owner) {
        return itself(marks, index, owner);
    }
    match index.base_of(owner) {
        None => top(marks, index, owner),
        Some(base) => behind(marks, index, owner, &table.lead_of(marks, index, &base)),
    }
}

// Keeps what a type leads to, by what its base does.
fn settle(
    marks: &PlaceList,
    index: &Index,
    table: &mut LeadTable,
    owner: &Declaration,
) -> Result<(), NoMemory>
    requires { AreLeads marks.now index.now table.old.rows.items }
    ensures { OnOk result (AreLeads marks.now index.now table.new.rows.items) }
{
    let row = led(marks, index, table, owner);
    table.keep(row)
}

// A type and its bases up to the first that is kept, the nearest first.
fn not_kept(
    alloc: Global,
    marks: &PlaceList,
    index: &Index,
    table: &LeadTable,
    owner: &Declaration,
) -> Result<Vec<Declaration>, NoMemory>
    requires { AreLeads marks.now index.now table.now.rows.items }
{
    let mut waiting = Vec::new(alloc);
    let mut at = *owner;
    for _ in index.as_slice() {
        if table.find(marks, index, &at).is_some() {
            return Ok(waiting);
        }
        waiting.push(at)?;
        match index.base_of(&at) {
            None => return Ok(waiting),
            Some(base) => at = base,
        }
    }
    Ok(waiting)
}

// Keeps what types lead to, the last first.
fn settle_all(
    marks: &PlaceList,
    index: &Index,
    table: &mut LeadTable,
    waiting: &[Declaration],
) -> Result<(), NoMemory>
    requires { AreLeads marks.now index.now table.old.rows.items }
    ensures { OnOk result (AreLeads marks.now index.now table.new.rows.items) }
{
    for owner in waiting.iter().rev() {
        settle(marks, index, table, owner)?;
    }
    Ok(())
}

/// Keeps what a type and its bases lead to.
pub(crate) fn add(
    alloc: Global,
    marks: &PlaceList,
    index: &Index,
    table: &mut LeadTable,
    declaration: &Declaration,
) -> Result<(), NoMemory>
    requires { AreLeads marks.now index.now table.old.rows.items }
    ensures { OnOk result (AreLeads marks.now index.now table.new.rows.items) }
{
    let waiting = not_kept(alloc, marks, index, table, declaration)?;
    settle_all(marks, index, table, waiting.as_slice())
}

/// Keeps what action types and their bases lead to.
pub(crate) fn add_all(
    alloc: Global,
    marks: &PlaceList,
    index: &Index,
    table: &mut LeadTable,
    declarations: &[Declaration],
) -> Result<(), NoMemory>
    requires { AreLeads marks.now index.now table.old.rows.items }
    ensures { OnOk result (AreLeads marks.now index.now table.new.rows.items) }
{
    for declaration in declarations {
        if matches!(declaration.sort, Sort::Action { .. }) {
            add(alloc, marks, index, table, declaration)?;
        }
    }
    Ok(())
}

/// What is reached from a type, and how many types may still follow.
#[derive(Clone, Copy)]
pub struct Reached {
    /// The type that is reached, if one is.
    pub base: Option<Declaration>,
    /// How many types may still follow, it included.
    pub left: usize,
}

/// Goes from a type to the one that it leads to, where so many types may still follow.
pub(crate) fn follow(
    marks: &PlaceList,
    index: &Index,
    table: &LeadTable,
    here: &Declaration,
    left: usize,
) -> Reached
    requires { AreLeads marks.now index.now table.now.rows.items }
    ensures same { marked_within marks.now index.now result.left result.base ≡ marked_within marks.now index.now left (Some here.now) }
    ensures fewer { result.left ≤ left }
{
    let row = table.lead_of(marks, index, here);
    if row.steps <= left {
        return Reached {
            base: row.base,
            left: left - row.steps,
        };
    }
    Reached {
        base: Some(*here),
        left,
    }
}

/// Adds a type where it is marked.
pub(crate) fn add_marked(
    marks: &PlaceList,
    chain: &mut Vec<Declaration>,
    type_: &Declaration,
) -> Result<(), NoMemory>
    ensures { OnOk result (reverse chain.new.items ≡ filter (marked_in marks.now) (type_.now ∷ []) ++ reverse chain.old.items) }
{
    if !is_marked(marks, type_) {
        return Ok(());
    }
    chain.push(*type_)?;
    Ok(())
}
