//! Binds and their ends.
ghost use Rattle.std.specs.Prelude.{◌≡◌, ◌++◌, IfOk, OnOk, map};
ghost use Rattle.pst_ast.specs.ActivityView.{view_bind};
ghost use Rattle.pst_elab_rules.specs.Ties as tree;
ghost use Rattle.pst_path_readings.specs.Set.{view_setting};
ghost use Rattle.pst_sources.specs.Shown.{sources_of};
ghost use Rattle.pst_activity_ties.specs.Tied.{end_in};

use pst_ast::{BindNode, Declaration, EndNode, NextEnd, OtherEnds};
use pst_base::NoMemory;
use pst_model::Tie;
use pst_path_readings::Setting;
use pst_sources::Sources;
use pst_step_parts::{handle_named, handle_of};
use pst_type_members::MemberSort;

// The number of an end's handle.
fn end_handle(sources: &Sources<'_>, setting: &Setting<'_>, end: &EndNode) -> Result<u32, NoMemory>
    ensures { IfOk result (λ n. n ≡ tree.end_handle (sources_of sources.now) (view_setting setting.now) end.now) }
{
    match handle_of(sources, setting, end.handle)? {
        None => Ok(0),
        Some(number) => Ok(number),
    }
}

// The number of an end's reference among those of its handle's action.
fn end_reference(
    sources: &Sources<'_>,
    end: &EndNode,
    action: &Declaration,
) -> Result<u32, NoMemory>
    ensures { IfOk result (λ n. n ≡ tree.end_reference (sources_of sources.now) end.now action.now) }
{
    let known = sources.known();
    match known.index().member_of(action, end.name.id) {
        None => Ok(0),
        Some(reference) => {
            known
                .members()
                .number(known.alloc(), MemberSort::Reference, action, &reference)
        }
    }
}

// The number of an end's reference.
fn end_number(sources: &Sources<'_>, setting: &Setting<'_>, end: &EndNode) -> Result<u32, NoMemory>
    ensures { IfOk result (λ n. n ≡ tree.end_number (sources_of sources.now) (view_setting setting.now) end.now) }
{
    let Some(handle) = handle_named(sources, setting, end.handle) else {
        return Ok(0);
    };
    match sources.known().index().type_of(&handle) {
        None => Ok(0),
        Some(action) => end_reference(sources, end, &action),
    }
}

// The bind of one end to another.
fn tie_of(
    sources: &Sources<'_>,
    setting: &Setting<'_>,
    from: &EndNode,
    to: &EndNode,
) -> Result<Tie, NoMemory>
    ensures { IfOk result (λ t. t ≡ tree.tie_of (sources_of sources.now) (view_setting setting.now) from.now to.now) }
{
    let from_handle = end_handle(sources, setting, from)?;
    let from_reference = end_number(sources, setting, from)?;
    let to_handle = end_handle(sources, setting, to)?;
    let to_reference = end_number(sources, setting, to)?;
    Ok(Tie {
        from_handle,
        from_reference,
        to_handle,
        to_reference,
    })
}

// Adds the binds of an end to others.
fn add_each(
    sources: &Sources<'_>,
    setting: &Setting<'_>,
    found: &mut Vec<Tie>,
    from: &EndNode,
    ends: &[NextEnd],
) -> Result<(), NoMemory>
    ensures { OnOk result (found.new.items ≡ found.old.items ++ map (tree.tie_of (sources_of sources.now) (view_setting setting.now) from.now) (map end_in ends.now)) }
{
    for next in ends {
        found.push(tie_of(sources, setting, from, &next.end)?)?;
    }
    Ok(())
}

/// Adds the binds of the first end of a `bind` to each of the others.
pub fn add_ties(
    sources: &Sources<'_>,
    setting: &Setting<'_>,
    found: &mut Vec<Tie>,
    bind: &BindNode,
) -> Result<(), NoMemory>
    ensures { OnOk result (found.new.items ≡ found.old.items ++ tree.ties_of (sources_of sources.now) (view_setting setting.now) (view_bind bind.now)) }
{
    match &bind.others {
        OtherEnds::One(end) => {
            found.push(tie_of(sources, setting, &bind.first, end)?)?;
            Ok(())
        }
        OtherEnds::Several { first, rest, .. } => {
            found.push(tie_of(sources, setting, &bind.first, first)?)?;
            add_each(sources, setting, found, &bind.first, rest.as_slice())
        }
    }
}
