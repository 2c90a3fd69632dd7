//! References that want a source.
ghost use Rattle.std.specs.Prelude.{◌≡◌, ◌++◌, IfOk, OnOk, map};
ghost use Rattle.pst_legal.specs.Supplied.{is_need, linkings};
ghost use Rattle.pst_supply.specs.Needs.{needs_in, need_of};

use pst_base::NoMemory;
use pst_model::Model;
use pst_scen::{Act, Filled, Flow, Scenario};
use std::alloc::Global;

/// A reference that wants a source: an input its supplier, a state output its previous writer, and a
/// stream output its consumer.
#[derive(Clone, Copy, Debug, PartialEq, Eq)]
pub struct Need {
    /// The number of the action.
    pub act: u32,
    /// The number of the reference.
    pub reference: u32,
}

// Whether a reference of this kind wants a source.
fn wants_source(flow: Flow) -> bool
    ensures { result ≡ is_need flow }
{
    match flow {
        Flow::BufferOut => false,
        _ => true,
    }
}

// The number, where it fits 32 bits.
fn narrow(number: usize) -> Result<u32, NoMemory>
    ensures { IfOk result (λ n. n ≡ number) }
{
    match u32::try_from(number) {
        Ok(number) => Ok(number),
        Err(_) => Err(NoMemory),
    }
}

// Adds the needs of an action.
fn add_needs(found: &mut Vec<Need>, act: u32, references: &[Filled]) -> Result<(), NoMemory>
    ensures { OnOk result (found.new.items ≡ found.old.items ++ needs_in act references.now) }
{
    let mut number = 0;
    for filled in references {
        if wants_source(filled.flow) {
            let reference = narrow(number)?;
            found.push(Need { act, reference })?;
        }
        number += 1;
    }
    Ok(())
}

// The needs of actions, by action and reference.
fn needs_of(alloc: Global, acts: &[Act]) -> Result<Vec<Need>, NoMemory>
    ensures { IfOk result (λ found. found.items ≡ map need_of (linkings acts.now)) }
{
    let mut found = Vec::new(alloc);
    let mut number = 0;
    for act in acts {
        add_needs(&mut found, narrow(number)?, act.references.as_slice())?;
        number += 1;
    }
    Ok(found)
}

/// The needs of a scenario, by action and reference.
pub fn needs(alloc: Global, _model: &Model, scenario: &Scenario) -> Result<Vec<Need>, NoMemory>
    ensures { IfOk result (λ found. found.items ≡ map need_of (linkings scenario.now.actions)) }
{
    needs_of(alloc, scenario.actions.as_slice())
}
