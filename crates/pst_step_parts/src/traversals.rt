//! Traversals.
ghost use Rattle.std.specs.Prelude.{◌≡◌, None, IfOk, OnOk, map};
ghost use Rattle.pst_ast.specs.ActivityView.{view_with};
ghost use Rattle.pst_elab_rules.specs.Steps as tree;
ghost use Rattle.pst_model.specs.ActivityTree.{Traverse};
ghost use Rattle.pst_model.specs.ConstraintTree.{view_constraint};
ghost use Rattle.pst_model.specs.ModelView.{view_step};
ghost use Rattle.pst_constraints.specs.PassedOn.{view_setting};
ghost use Rattle.pst_ast.specs.Sorts;
ghost use Rattle.pst_ast.specs.Uses;
ghost use Rattle.pst_ast.specs.declared.referent.Traversal.TheVariants as by;
ghost use Rattle.pst_sources.specs.Shown.{sources_of};

use pst_ast::{
    Declaration, Environment, Name, Owner, Referent, Sort, Traversal, TypeName, WithNode,
};
use pst_base::NoMemory;
use pst_constraints::{Setting, add_inline};
use pst_index::{traversed, value_named};
use pst_model::{Constraint, Step};
use pst_sources::Sources;
use pst_type_members::MemberSort;
use pst_type_numbers::Numbered;

// The number of the action type that is traversed.
fn traversed_number(
    numbered: &Numbered<'_>,
    setting: &Setting<'_>,
    traversal: &Traversal,
) -> Result<u32, NoMemory>
    ensures { IfOk result (λ n. n ≡ tree.traversed_number (sources_of numbered.now) (view_setting setting.now) traversal.now) }
{
    let known = numbered.sources().known();
    match traversed(known.index(), known.names(), &setting.at, traversal) {
        None => Ok(0),
        Some(action) => numbered.action_number(&action),
    }
}

// Whether it is a handle.
fn is_handle(sort: Sort) -> bool
    ensures { result ≡ Sorts.is_handle sort }
{
    matches!(sort, Sort::Handle { .. })
}

// The handle that something is.
fn handle_in(referent: &Option<Referent>) -> Option<Declaration>
    ensures { result ≡ tree.handle_in referent.now }
{
    match referent {
        Some(Referent::Declared(declared)) => {
            if is_handle(declared.sort) {
                Some(*declared)
            } else {
                None
            }
        }
        _ => None,
    }
}

/// The handle that a name stands for.
pub fn handle_named(sources: &Sources<'_>, setting: &Setting<'_>, name: Name) -> Option<Declaration>
    ensures { result ≡ tree.handle_named (sources_of sources.now) (view_setting setting.now) name }
{
    let known = sources.known();
    handle_in(&value_named(known.index(), known.names(), &setting.at, name.id))
}

// The number of a handle of the action in whose text it is named.
fn handle_number_in(
    sources: &Sources<'_>,
    owner: &Owner,
    handle: &Declaration,
) -> Result<u32, NoMemory>
    ensures { IfOk result (λ n. n ≡ tree.handle_number_in (sources_of sources.now) owner.now handle.now) }
{
    let known = sources.known();
    match owner {
        Owner::OfAction(action) => {
            known
                .members()
                .number(known.alloc(), MemberSort::Handle, action, handle)
        }
        _ => Ok(0),
    }
}

/// The number of the handle that a name stands for, where it stands for one.
pub fn handle_of(
    sources: &Sources<'_>,
    setting: &Setting<'_>,
    name: Name,
) -> Result<Option<u32>, NoMemory>
    ensures { IfOk result (λ h. h ≡ tree.handle_of (sources_of sources.now) (view_setting setting.now) name) }
{
    match handle_named(sources, setting, name) {
        None => Ok(None),
        Some(handle) => Ok(Some(handle_number_in(sources, &setting.at.owner, &handle)?)),
    }
}

// The inline constraints of a traversal.
fn inline_of(
    sources: &Sources<'_>,
    setting: &mut Setting<'_>,
    traversal: Traversal,
    with: &WithNode,
) -> Result<Vec<Constraint>, NoMemory>
    ensures inline { IfOk result (λ cs. map view_constraint cs.items ≡ tree.inline_of (sources_of sources.now) (view_setting setting.old) traversal (view_with with.now)) }
    ensures kept { OnOk result (view_setting setting.new ≡ view_setting setting.old) }
{
    let mut found = Vec::new(sources.known().alloc());
    match with {
        WithNode::Nothing(_) => Ok(found),
        WithNode::Set { set, .. } => {
            let outer = setting.at.traversal;
            setting.at.traversal = Some(traversal);
            add_inline(sources, setting, &mut found, set)?;
            setting.at.traversal = outer;
            Ok(found)
        }
    }
}

/// A traversal of an action by its type.
pub fn traverse_type(
    numbered: &Numbered<'_>,
    setting: &mut Setting<'_>,
    name: TypeName,
    with: &WithNode,
) -> Result<Step, NoMemory>
    ensures step { IfOk result (λ step. view_step step ≡ Traverse (tree.traversed_number (sources_of numbered.now) (view_setting setting.old) (by.ByType name)) None (tree.inline_of (sources_of numbered.now) (view_setting setting.old) (by.ByType name) (view_with with.now))) }
    ensures kept { OnOk result (view_setting setting.new ≡ view_setting setting.old) }
{
    let traversal = Traversal::ByType(name);
    let action = traversed_number(numbered, setting, &traversal)?;
    let inline = inline_of(numbered.sources(), setting, traversal, with)?;
    Ok(Step::Traverse {
        action,
        handle: None,
        inline,
    })
}

// The traversal of a handle, where it stands.
fn by_handle(at: &Environment, name: Name) -> Traversal
    ensures { result ≡ Uses.by_handle at.now name }
{
    Traversal::ByHandle {
        hidden_by: at.inner.find(name.id),
        name,
    }
}

/// A traversal of an action by a handle.
pub fn traverse_handle(
    numbered: &Numbered<'_>,
    setting: &mut Setting<'_>,
    name: Name,
    with: &WithNode,
) -> Result<Step, NoMemory>
    ensures step { IfOk result (λ step. view_step step ≡ tree.by_name (sources_of numbered.now) (view_setting setting.old) name (view_with with.now)) }
    ensures kept { OnOk result (view_setting setting.new ≡ view_setting setting.old) }
{
    let traversal = by_handle(&setting.at, name);
    let action = traversed_number(numbered, setting, &traversal)?;
    let handle = handle_of(numbered.sources(), setting, name)?;
    let inline = inline_of(numbered.sources(), setting, traversal, with)?;
    Ok(Step::Traverse {
        action,
        handle,
        inline,
    })
}
