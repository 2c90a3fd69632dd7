//! The list of the writes of state pools by a scenario's actions.
ghost use Rattle.std.specs.Prelude.{◌≡◌, ◌<◌, ◌+◌, ℕ, length, IfOk};
ghost use Rattle.pst_scen.specs.declared.act.Flow.TheVariants.{StateOut};
ghost use Rattle.pst_graph.specs.Uses.{Listed, Lengthens};
ghost use Rattle.pst_graph.specs.Writes.{IsWrite, IsWriteBy, HasWrites, ListsWrites};

use crate::cause::act_at;
use crate::links::is_flow;
use pst_base::NoMemory;
use pst_scen::{Filled, Flow, Link, Scenario};
use std::alloc::Global;

/// A write of a state pool: the pool, the writer of the object that it replaces, and the action.
#[derive(Clone, Copy, Debug)]
pub(crate) struct Write {
    /// The pool.
    pub(crate) pool: u32,
    /// What the reference is linked to: the previous writer.
    pub(crate) replaced: Link,
    /// The action.
    pub(crate) act: u32,
}

/// Appends the write that the reference is, where it is one.
fn push_write(writes: &mut Vec<Write>, filled: &Filled, a: u32) -> Result<(), NoMemory>
    ensures { IfOk result (λ u. Lengthens writes.old.items writes.new.items (IsWriteBy a) × (filled.now.flow ≡ StateOut → Listed writes.new.items (IsWrite filled.now a))) }
{
    if !is_flow(filled.flow, Flow::StateOut) {
        return Ok(());
    }
    writes.push(Write {
        pool: filled.pool,
        replaced: filled.link,
        act: a,
    })?;
    Ok(())
}

/// Appends the writes that the references are.
fn push_writes(writes: &mut Vec<Write>, references: &[Filled], a: u32) -> Result<(), NoMemory>
    ensures { IfOk result (λ u. Lengthens writes.old.items writes.new.items (IsWriteBy a) × HasWrites writes.new.items references.now a (length references.now)) }
{
    for i in 0..references.len() {
        push_write(writes, &references[i], a)?;
    }
    Ok(())
}

/// Appends the writes of the action.
fn push_writes_of(writes: &mut Vec<Write>, scenario: &Scenario, a: u32) -> Result<(), NoMemory>
    requires a_in { a < length scenario.now.actions }
    requires before { ListsWrites scenario.now writes.old.items a }
    ensures { IfOk result (λ u. ListsWrites scenario.now writes.new.items (a + 1)) }
{
    let act = act_at(scenario, a);
    push_writes(writes, act.references.as_slice(), a)?;
    Ok(())
}

/// The writes of all actions.
pub(crate) fn writes_of(
    alloc: Global,
    scenario: &Scenario,
    count: u32,
) -> Result<Vec<Write>, NoMemory>
    requires { count ≡ length scenario.now.actions }
    ensures { IfOk result (λ writes. ListsWrites scenario.now writes.items count) }
{
    let mut writes = Vec::new(alloc);
    for a in 0..count {
        push_writes_of(&mut writes, scenario, a)?;
    }
    Ok(writes)
}
