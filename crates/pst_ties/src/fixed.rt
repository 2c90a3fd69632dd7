//! Looking up what a bind fixes.
ghost use Rattle.std.specs.Prelude.{◌≡◌, IfOk, OnOk};
ghost use Rattle.std.specs.HashMap.{get};
ghost use Rattle.std.specs.List.{find};
ghost use Rattle.std.specs.Option.{option_map};
ghost use Rattle.pst_model.specs.ModelView.{view_model};
ghost use Rattle.pst_legal.specs.Binds.{bounds_of, fixed_source, is_to, is_from, from_of, to_of};
ghost use Rattle.pst_ties.specs.Tieds.{fixed_of, same_end, or_end, output_to, input_from};

use crate::found::all_ties;
use crate::tied::{End, Tied};
use pst_base::NoMemory;
use pst_model::Model;
use pst_scen::{Flow, Node};
use std::alloc::Global;
use std::collections::HashMap;

/// The references that the binds of the activities join. Contracts see it as their list, by node and
/// by the text of the activity. A look-up takes expected constant time.
#[derive(Drop)]
pub struct Ties {
    found: Vec<Tied>,
    outputs: HashMap<End, End>,
    inputs: HashMap<End, End>,
}

impl std::marker::Model for Ties {
    ghost use Rattle.std.specs.Prelude.{List, map};
    ghost use Rattle.pst_legal.specs.Binds.{Bound};
    ghost use Rattle.pst_ties.specs.Tieds.{bound_of};
    ghost use Rattle.pst_ties.specs.Kept.{IsTies};

    ghost Value = { List Bound };

    ghost view = { λ t. map bound_of t.found.items };

    ghost invariant = { IsTies };
}

// Keeps the other end at its key, where nothing is there yet.
fn keep(ends: &mut HashMap<End, End>, key: End, other: End) -> Result<(), NoMemory>
    ensures { OnOk result ((q : End) → get same_end ends.new q ≡ or_end (get same_end ends.old q) (same_end q key) other) }
{
    if !ends.contains_key(&key) {
        ends.insert(key, other)?;
    }
    Ok(())
}

// For each input the output of the first bind that names it.
fn all_outputs(alloc: Global, found: &[Tied]) -> Result<HashMap<End, End>, NoMemory>
    ensures { IfOk result (λ ends. (q : End) → get same_end ends q ≡ output_to found.now q) }
{
    let mut ends = HashMap::new(alloc);
    for tied in found {
        keep(&mut ends, tied.to, tied.from)?;
    }
    Ok(ends)
}

// For each output the input of the first bind that names it.
fn all_inputs(alloc: Global, found: &[Tied]) -> Result<HashMap<End, End>, NoMemory>
    ensures { IfOk result (λ ends. (q : End) → get same_end ends q ≡ input_from found.now q) }
{
    let mut ends = HashMap::new(alloc);
    for tied in found {
        keep(&mut ends, tied.from, tied.to)?;
    }
    Ok(ends)
}

// The other end that is kept for a reference.
fn other_end(ends: &HashMap<End, End>, act: usize, reference: usize) -> Option<End>
    ensures { result ≡ get same_end ends.now (record { act = act; reference = reference }) }
{
    let key = End { act, reference };
    match ends.get(&key) {
        Some(other) => Some(*other),
        None => None,
    }
}

impl Ties {
    /// The binds of the activities of a model, as they join references of a filled-in activity.
    pub fn new(alloc: Global, model: &Model, nodes: &[Node]) -> Result<Ties, NoMemory>
        ensures { IfOk result (λ ties. ties ≡ bounds_of (view_model model.now) nodes.now) }
    {
        let found = all_ties(alloc, model, nodes)?;
        let outputs = all_outputs(alloc, found.as_slice())?;
        let inputs = all_inputs(alloc, found.as_slice())?;
        Ok(Ties {
            found,
            outputs,
            inputs,
        })
    }

    // The output that is bound to an input.
    fn output_of(&self, act: usize, reference: usize) -> Option<End>
        ensures { fixed_of result ≡ option_map from_of (find (is_to act reference) self.now) }
    {
        other_end(&self.outputs, act, reference)
    }

    // The input to which an output is bound.
    fn input_of(&self, act: usize, reference: usize) -> Option<End>
        ensures { fixed_of result ≡ option_map to_of (find (is_from act reference) self.now) }
    {
        other_end(&self.inputs, act, reference)
    }

    /// The reference that a bind fixes as the source of a need: that of an input, or of a stream
    /// output. Takes no memory.
    pub fn fixed(&self, act: usize, reference: usize, flow: Flow) -> Option<End>
        ensures { fixed_of result ≡ fixed_source self.now act reference flow }
    {
        match flow {
            Flow::BufferOut => None,
            Flow::StateOut => None,
            Flow::StreamOut => self.input_of(act, reference),
            _ => self.output_of(act, reference),
        }
    }
}
