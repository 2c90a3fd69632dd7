//! Join forms.
ghost use Rattle.std.specs.Prelude.{◌≡◌, ◌++◌, not, IfOk, OnOk, map};
ghost use Rattle.std.specs.List.{filter, list_any};
ghost use Rattle.pst_ast.specs.ActivityView.{view_join};
ghost use Rattle.pst_ast.specs.SharedView.{view_names};
ghost use Rattle.pst_elab_rules.specs.Steps as tree;
ghost use Rattle.pst_ast.specs.Declarations;
ghost use Rattle.pst_ast.specs.Sorts.{same_name};
ghost use Rattle.pst_sources.specs.Shown.{sources_of};
ghost use Rattle.pst_walk_parts.specs.Shown.{view_statements};
ghost use Rattle.pst_step_parts.specs.Joined as flag;

use crate::labels::branch_labels;
use pst_ast::{JoinNode, NamesNode, NextName, StatementNode};
use pst_base::{NameId, NoMemory};
use pst_model::Join;
use pst_sources::Known;
use std::alloc::Global;

// Adds the names behind the first of a list.
fn add_rest(found: &mut Vec<NameId>, rest: &[NextName]) -> Result<(), NoMemory>
    ensures { OnOk result (found.new.items ≡ found.old.items ++ map (λ n. n.name.id) rest.now) }
{
    for next in rest {
        found.push(next.name.id)?;
    }
    Ok(())
}

// The names of a list.
#[tactic(auto, using(crate::proofs::Joining::names_are))]
fn names_of(alloc: Global, names: &NamesNode) -> Result<Vec<NameId>, NoMemory>
    ensures { IfOk result (λ ids. ids.items ≡ map (λ n. n.id) (Declarations.names_of (view_names names.now))) }
{
    let mut found = Vec::new(alloc);
    found.push(names.first.id)?;
    add_rest(&mut found, names.rest.as_slice())?;
    Ok(found)
}

// Whether a name is among some.
fn is_among(label: NameId, names: &[NameId]) -> bool
    ensures { result ≡ list_any (same_name label) names.now }
{
    for name in names {
        if label == *name {
            return true;
        }
    }
    false
}

// The names but for one.
fn without(alloc: Global, label: NameId, names: &[NameId]) -> Result<Vec<NameId>, NoMemory>
    ensures { IfOk result (λ left. left.items ≡ filter (λ n. not (same_name label n)) names.now) }
{
    let mut left = Vec::new(alloc);
    for name in names {
        if label != *name {
            left.push(*name)?;
        }
    }
    Ok(left)
}

// Whether a branch with that label is joined.
fn is_joined(label: Option<NameId>, names: &[NameId]) -> bool
    ensures { result ≡ flag.is_joined names.now label }
{
    match label {
        None => false,
        Some(label) => is_among(label, names),
    }
}

// The names behind a branch with that label.
fn left_behind(
    alloc: Global,
    label: Option<NameId>,
    names: Vec<NameId>,
) -> Result<Vec<NameId>, NoMemory>
    ensures { IfOk result (λ left. left.items ≡ flag.left_behind names.items label) }
{
    match label {
        None => Ok(names),
        Some(label) => without(alloc, label, names.as_slice()),
    }
}

// Which branches are joined: of several with a label that is named, the first.
fn joined_flags(
    alloc: Global,
    names: Vec<NameId>,
    labels: &[Option<NameId>],
) -> Result<Vec<bool>, NoMemory>
    ensures { IfOk result (λ flags. flags.items ≡ flag.flags_of names.items labels.now) }
{
    let mut named = names;
    let mut flags = Vec::new(alloc);
    for label in labels {
        flags.push(is_joined(*label, named.as_slice()))?;
        named = left_behind(alloc, *label, named)?;
    }
    Ok(flags)
}

// One more flag, as the lowest bit.
fn with_bit(bit: bool, bits: u64) -> Result<u64, NoMemory>
    ensures { IfOk result (λ b. b ≡ flag.bit_before bit bits) }
{
    let Some(twice) = bits.checked_mul(2) else {
        return Err(NoMemory);
    };
    match twice.checked_add(u64::from(bit)) {
        Some(bits) => Ok(bits),
        None => Err(NoMemory),
    }
}

// The number whose bits are these flags, the lowest first.
fn bits(flags: &[bool]) -> Result<u64, NoMemory>
    ensures { IfOk result (λ b. b ≡ flag.bits_of flags.now) }
{
    let mut bits: u64 = 0;
    let mut left = flags;
    while let Some((last, before)) = left.split_last() {
        bits = with_bit(*last, bits)?;
        left = before;
    }
    Ok(bits)
}

// Which branches of a block are waited for, by their labels.
#[tactic(auto, using(crate::proofs::Joining::joined_is, crate::proofs::Joining::labels_are))]
fn joined(alloc: Global, names: &NamesNode, statements: &[StatementNode]) -> Result<u64, NoMemory>
    ensures { IfOk result (λ bits. bits ≡ tree.joined_bits (map (λ n. n.id) (Declarations.names_of (view_names names.now))) (tree.branch_labels (view_statements statements.now))) }
{
    let names = names_of(alloc, names)?;
    let labels = branch_labels(alloc, statements)?;
    let flags = joined_flags(alloc, names, labels.as_slice())?;
    bits(flags.as_slice())
}

/// Which branches of a block with these statements are waited for.
pub fn join_of(
    known: &Known<'_>,
    statements: &[StatementNode],
    join: &JoinNode,
) -> Result<Join, NoMemory>
    ensures { IfOk result (λ j. j ≡ tree.join_of (sources_of known.now) (view_statements statements.now) (view_join join.now)) }
{
    match join {
        JoinNode::Branch { names, .. } => {
            let joined = joined(known.alloc(), names, statements)?;
            Ok(Join::Fixed { joined })
        }
        JoinNode::Nothing(_) => Ok(Join::Fixed { joined: 0 }),
        JoinNode::Select { count, .. } => match u32::try_from(known.amount_of(count)) {
            Ok(count) => Ok(Join::Choose { count }),
            Err(_) => Err(NoMemory),
        },
    }
}
