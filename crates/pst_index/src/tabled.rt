//! Tables of the members of actions, each made after that of its base.
ghost use Rattle.std.specs.Prelude.{◌≡◌, IfOk, IsTrue, Some};
ghost use Rattle.pst_ast.specs.Lookups.{base_of};
ghost use Rattle.pst_members.specs.Kept.{AreLinked, AreTables};
ghost use Rattle.pst_members.specs.Rounds.{IsRound};

use crate::Index;
use crate::key::{Key, place_key};
use pst_ast::{Declaration, Sort};
use pst_base::NoMemory;
use pst_members::{Linked, Tables, is_same_action};
use std::alloc::Global;
use std::collections::HashSet;

// Whether it is an action with a base.
fn has_base(declaration: &Declaration) -> bool {
    matches!(declaration.sort, Sort::Action { base: Some(_) })
}

// An action, its base, the base's base and so on, up to the first that was met before.
fn chain_of(
    alloc: Global,
    index: &Index,
    met: &mut HashSet<Key>,
    action: &Declaration,
) -> Result<Vec<Declaration>, NoMemory> {
    let mut chain = Vec::new(alloc);
    let mut at = Some(*action);
    for _ in 0..index.as_slice().len() {
        let Some(here) = at else {
            break;
        };
        if !met.insert(place_key(here.name.place))? {
            break;
        }
        chain.push(here)?;
        at = index.base_of(&here);
    }
    Ok(chain)
}

// Keeps the tables of actions, from the last on.
fn keep_each(
    index: &Index,
    linked: &Linked,
    tables: &mut Tables,
    mut chain: Vec<Declaration>,
) -> Result<(), NoMemory>
    requires linked { AreLinked index.now linked.now }
    requires tables { AreTables index.now tables.old }
    ensures { AreTables index.now tables.new }
{
    while let Some(action) = chain.pop() {
        tables.keep(index.as_slice(), linked, &action, index.base_of(&action))?;
    }
    Ok(())
}

// Whether an action's base is that one.
fn leads_to(index: &Index, action: &Declaration, base: &Declaration) -> bool
    ensures { IsTrue result → base_of index.now action.now ≡ Some base.now }
{
    match index.base_of(action) {
        Some(found) => is_same_action(&found, base),
        None => false,
    }
}

// Whether each action is the base of the next, and the last that of the first.
fn is_round(index: &Index, round: &[Declaration]) -> bool
    ensures { IsTrue result → IsRound index.now round.now }
{
    if round.is_empty() {
        return false;
    }
    for at in 1..round.len() {
        if !leads_to(index, &round[at], &round[at - 1]) {
            return false;
        }
    }
    leads_to(index, &round[0], &round[round.len() - 1])
}

// The actions of a chain from its last on, up to one, where that is among them.
fn round_of(
    alloc: Global,
    chain: &[Declaration],
    end: &Declaration,
) -> Result<Option<Vec<Declaration>>, NoMemory> {
    let mut round = Vec::new(alloc);
    for action in chain.iter().rev() {
        round.push(*action)?;
        if is_same_action(action, end) {
            return Ok(Some(round));
        }
    }
    Ok(None)
}

// Where the bases of a chain's last action lead back into the chain, keeps the tables of the actions
// that they go round, and takes these off the chain.
fn keep_loop(
    alloc: Global,
    index: &Index,
    linked: &Linked,
    tables: &mut Tables,
    chain: &mut Vec<Declaration>,
) -> Result<(), NoMemory>
    requires linked { AreLinked index.now linked.now }
    requires tables { AreTables index.now tables.old }
    ensures { AreTables index.now tables.new }
{
    let Some(last) = chain.last().copied() else {
        return Ok(());
    };
    let Some(base) = index.base_of(&last) else {
        return Ok(());
    };
    let Some(round) = round_of(alloc, chain.as_slice(), &base)? else {
        return Ok(());
    };
    if is_round(index, round.as_slice()) {
        tables.keep_round(index.as_slice(), linked, round.as_slice())?;
        chain.truncate(chain.len().saturating_sub(round.len()));
    }
    Ok(())
}

// Keeps the tables of the actions of a chain.
fn keep_chain(
    alloc: Global,
    index: &Index,
    linked: &Linked,
    tables: &mut Tables,
    mut chain: Vec<Declaration>,
) -> Result<(), NoMemory>
    requires linked { AreLinked index.now linked.now }
    requires tables { AreTables index.now tables.old }
    ensures { AreTables index.now tables.new }
{
    keep_loop(alloc, index, linked, tables, &mut chain)?;
    keep_each(index, linked, tables, chain)
}

/// The tables of actions.
pub fn tables_of(alloc: Global, index: &Index) -> Result<Tables, NoMemory>
    ensures { IfOk result (AreTables index.now) }
{
    let linked = Linked::new(alloc, index.as_slice())?;
    let mut tables = Tables::new(alloc)?;
    let mut met = HashSet::new(alloc);
    for action in index.as_slice() {
        if has_base(action) {
            let chain = chain_of(alloc, index, &mut met, action)?;
            keep_chain(alloc, index, &linked, &mut tables, chain)?;
        }
    }
    Ok(tables)
}
