//! The scopes of indices.
ghost use Rattle.std.specs.Prelude.{◌≡◌, IfOk, OnOk, map};
ghost use Rattle.pst_elab_rules.specs.Constraints as tree;
ghost use Rattle.pst_path_readings.specs.Set.{view_setting, view_turn};
ghost use Rattle.pst_terms.specs.Readings as reading;
ghost use Rattle.pst_constraints.specs.Turned.{without_turn};
ghost use Rattle.pst_sources.specs.Shown.{sources_of};

use pst_ast::{Checked, DotName, Name, PathPart, PathReferent, Referent};
use pst_base::NoMemory;
use pst_index::{PathFor, read_path};
use pst_path_readings::{Setting, Turn};
use pst_sources::Sources;
use pst_walk_parts::path_parts::plain_parts;

/// Enters the scope of an index.
#[tactic(auto, using(crate::proofs::Turning::turns_pushed))]
pub fn push_turn(setting: &mut Setting<'_>, name: Name, turn: Turn) -> Result<(), NoMemory>
    ensures { OnOk result (view_setting setting.new ≡ tree.with_turn (view_setting setting.old) name (view_turn turn)) }
{
    setting.at.inner.push(name)?;
    setting.turns.push((name.place, turn))?;
    Ok(())
}

/// Leaves the scope of the innermost index.
pub fn pop_turn(setting: &mut Setting<'_>)
    ensures { view_setting setting.new ≡ without_turn (view_setting setting.old) }
{
    setting.at.inner.pop();
    setting.turns.pop();
}

// How many elements an array has.
fn array_count(sources: &Sources<'_>, array: &Referent) -> u64
    ensures { result ≡ reading.array_count (sources_of sources.now) array.now }
{
    match array {
        Referent::Declared(array) => sources.known().count_of(array),
        _ => 0,
    }
}

// How many elements the array has that a path stands for.
fn elements_of(sources: &Sources<'_>, path: &Checked<PathReferent>) -> u64
    ensures { result ≡ reading.elements_of (sources_of sources.now) path.now }
{
    match path {
        Checked::Is(path) => array_count(sources, &path.last),
        Checked::Breaks { .. } => 0,
    }
}

/// How many elements the array of a `foreach` has.
pub fn turns_of(
    sources: &Sources<'_>,
    setting: &Setting<'_>,
    first: Name,
    rest: &[DotName],
) -> Result<u32, NoMemory>
    ensures { IfOk result (λ n. n ≡ tree.turns_of (sources_of sources.now) (view_setting setting.now) first rest.now) }
{
    let known = sources.known();
    let alloc = known.alloc();
    let first = PathPart {
        name: first,
        index: false,
    };
    let parts = plain_parts(alloc, rest)?;
    let path = read_path(
        alloc,
        known.index(),
        known.names(),
        &setting.at,
        PathFor::Array,
        first,
        parts.as_slice(),
    )?;
    match u32::try_from(elements_of(sources, &path)) {
        Ok(count) => Ok(count),
        Err(_) => Err(NoMemory),
    }
}
