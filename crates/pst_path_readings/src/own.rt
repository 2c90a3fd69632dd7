//! Paths in constraints of actions and objects.
ghost use Rattle.std.specs.Prelude.{◌≡◌, None, IfOk, is_some, not, ◌&&◌};
ghost use Rattle.pst_numbering.specs.Kept.{view_reading};
ghost use Rattle.pst_ast.specs.Lookups;
ghost use Rattle.pst_terms.specs.Readings as tree;
ghost use Rattle.pst_terms.specs.Sources.{declared_in};
ghost use Rattle.pst_path_readings.specs.Set.{view_setting};
ghost use Rattle.pst_path_readings.specs.Wrapped.{wrapped};
ghost use Rattle.pst_sources.specs.Shown.{sources_of};

use crate::behind::behind_reading;
use crate::named::name_reading;
use crate::setting::Setting;
use crate::wrap::{Wrap, nothing};
use pst_ast::{Checked, Declaration, Name, Owner, PathReferent, Referent, Sort};
use pst_base::NoMemory;
use pst_index::{stands_for, traversed, traversed_member};
use pst_numbering::PathReading;
use pst_sources::Sources;

// A path in the text of an action or object.
fn own_reading(
    sources: &Sources<'_>,
    outer: bool,
    setting: &Setting<'_>,
    owner: &Declaration,
    path: &PathReferent,
) -> Result<PathReading, NoMemory>
    ensures { IfOk result (λ r. view_reading r ≡ tree.map_reading (wrapped (record { outer = outer; handle = None })) (tree.own_reading (sources_of sources.now) (view_setting setting.now) owner.now path.now.before path.now.last)) }
{
    match path.before.as_slice().split_first() {
        None => {
            let wrap = Wrap {
                outer,
                handle: None,
            };
            name_reading(sources, wrap, setting, owner, &path.last)
        }
        Some((head, between)) => {
            behind_reading(sources, outer, owner, head, between, &path.last)
        }
    }
}

// A path in the text of the action or object in which an expression stands.
fn owner_reading(
    sources: &Sources<'_>,
    outer: bool,
    setting: &Setting<'_>,
    path: &PathReferent,
) -> Result<PathReading, NoMemory>
    ensures { IfOk result (λ r. view_reading r ≡ tree.map_reading (wrapped (record { outer = outer; handle = None })) (tree.owner_reading (sources_of sources.now) (view_setting setting.now) setting.now.at.owner path.now)) }
{
    match &setting.at.owner {
        Owner::Nobody => Ok(nothing()),
        Owner::OfAction(action) => own_reading(sources, outer, setting, action, path),
        Owner::OfObject(object) => own_reading(sources, outer, setting, object, path),
    }
}

// Whether a name stands for an index or a local.
fn is_inner(referent: &Option<Referent>) -> bool
    ensures { result ≡ tree.is_inner referent.now }
{
    match referent {
        Some(Referent::Declared(declared)) => matches!(declared.sort, Sort::Index | Sort::Local),
        _ => false,
    }
}

// The traversed action of an inline constraint, where a name is one of its members.
fn traversed_with(sources: &Sources<'_>, setting: &Setting<'_>, name: Name) -> Option<Declaration>
    ensures { result ≡ tree.traversed_with (sources_of sources.now) setting.now.at name }
{
    let known = sources.known();
    if traversed_member(known.index(), known.names(), &setting.at, name.id).is_none() {
        return None;
    }
    match &setting.at.traversal {
        None => None,
        Some(traversal) => traversed(known.index(), known.names(), &setting.at, traversal),
    }
}

// Whether a name is one of the action round an inline constraint, where it is no member of the
// traversed one.
fn is_outer(sources: &Sources<'_>, setting: &Setting<'_>, name: Name) -> bool
    ensures { result ≡ (is_some setting.now.at.traversal && not (tree.is_inner (Lookups.stands_for (declared_in (sources_of sources.now)) (sources_of sources.now).names setting.now.at name.id))) }
{
    let known = sources.known();
    setting.at.traversal.is_some()
        && !is_inner(&stands_for(known.index(), known.names(), &setting.at, name.id))
}

// A path by what it stands for.
#[tactic(auto, using(crate::proofs::Wrapping::alone, crate::proofs::Wrapping::outer_is))]
fn path_reading(
    sources: &Sources<'_>,
    setting: &Setting<'_>,
    name: Name,
    path: &PathReferent,
) -> Result<PathReading, NoMemory>
    ensures { IfOk result (λ r. view_reading r ≡ tree.path_reading (sources_of sources.now) (view_setting setting.now) name (tree.traversed_with (sources_of sources.now) setting.now.at name) path.now) }
{
    match traversed_with(sources, setting, name) {
        Some(action) => own_reading(sources, false, setting, &action, path),
        None => owner_reading(sources, is_outer(sources, setting, name), setting, path),
    }
}

/// A path by what it stands for, where it stands for something.
pub fn checked_reading(
    sources: &Sources<'_>,
    setting: &Setting<'_>,
    name: Name,
    checked: &Checked<PathReferent>,
) -> Result<PathReading, NoMemory>
    ensures { IfOk result (λ r. view_reading r ≡ tree.checked_reading (sources_of sources.now) (view_setting setting.now) name checked.now) }
{
    match checked {
        Checked::Is(path) => path_reading(sources, setting, name, path),
        Checked::Breaks { .. } => Ok(nothing()),
    }
}
