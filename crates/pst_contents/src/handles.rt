//! The action types of an action's handles.
ghost use Rattle.std.specs.Prelude.{◌≡◌, ◌++◌, IfOk, OnOk, map};
ghost use Rattle.pst_elab_rules.specs.Types as tree;
ghost use Rattle.pst_sources.specs.Shown.{sources_of};
ghost use Rattle.pst_terms.specs.Sources.{declared_in};
ghost use Rattle.pst_contents.specs.Found.{handle_type};

use pst_ast::Declaration;
use pst_base::NoMemory;
use pst_type_members::MemberSort;
use pst_type_numbers::Numbered;

// The number of the action type of a handle.
fn type_of_handle(numbered: &Numbered<'_>, handle: &Declaration) -> Result<u32, NoMemory>
    ensures { IfOk result (λ n. n ≡ handle_type (declared_in (sources_of numbered.now)) handle.now) }
{
    match numbered.sources().known().index().type_of(handle) {
        None => Ok(0),
        Some(action) => numbered.action_number(&action),
    }
}

// Adds the numbers of the action types of handles.
fn add_handles(
    numbered: &Numbered<'_>,
    found: &mut Vec<u32>,
    handles: &[Declaration],
) -> Result<(), NoMemory>
    ensures { OnOk result (found.new.items ≡ found.old.items ++ map (handle_type (declared_in (sources_of numbered.now))) handles.now) }
{
    for handle in handles {
        found.push(type_of_handle(numbered, handle)?)?;
    }
    Ok(())
}

/// The number of the action type of each handle of an action, its base's first.
pub fn handle_types(numbered: &Numbered<'_>, action: &Declaration) -> Result<Vec<u32>, NoMemory>
    ensures { IfOk result (λ hs. hs.items ≡ tree.handle_types (declared_in (sources_of numbered.now)) action.now) }
{
    let known = numbered.sources().known();
    let handles = known
        .members()
        .those(known.alloc(), MemberSort::Handle, action)?;
    let mut found = Vec::new(known.alloc());
    add_handles(numbered, &mut found, handles.as_slice())?;
    Ok(found)
}
