//! What is answered on the names, types, instances and pools of sources.
use crate::naming::{declared, meanings};
use crate::placing::{instance_rows, pool_rows};
use crate::reading::read_units;
use pst_ast::{Scopes, Unit};
use pst_base::Names;
use pst_bind::{PoolMap, pools};
use pst_cases::write_mark;
use pst_names::{RuleEnd, resolve};
use pst_tree::{Tree, TreeEnd, instances};
use pst_type_rules::Typed;
use pst_types::check;
use std::alloc::{AllocError, Global};

// What is found in sources that break no rule, as far as a call asks.
#[derive(Drop)]
enum Found {
    Scopes(Scopes),
    Typed(Typed),
    Many(u32),
    Pooled(Tree, PoolMap),
}

// What is found by the calls in turn, up to the one that is asked for.
fn judged(alloc: Global, units: &[Unit], names: &Names, call: &str) -> Result<Found, RuleEnd> {
    let scopes = resolve(alloc, units, names)?;
    if matches!(call, "names" | "declared" | "meanings") {
        return Ok(Found::Scopes(scopes));
    }
    let typed = check(alloc, units, names, &scopes)?;
    if matches!(call, "types" | "values") {
        return Ok(Found::Typed(typed));
    }
    let tree = match instances(alloc, units, names, &scopes) {
        Ok(tree) => tree,
        Err(TreeEnd::Many { count }) => return Ok(Found::Many(count)),
        Err(TreeEnd::NoMemory) => return Err(RuleEnd::NoMemory),
    };
    let map = pools(alloc, units, names, &scopes, &tree)?;
    Ok(Found::Pooled(tree, map))
}

// The values of constants, each with its place.
fn values(alloc: Global, typed: &Typed) -> Result<String, AllocError> {
    let mut answer = String::from_str(alloc, "values")?;
    for constant in typed.constants.as_slice() {
        let label = format!(in alloc; "{}", constant.value)?;
        write_mark(&mut answer, label.as_str(), constant.at)?;
    }
    Ok(answer)
}

// What was found, as a text.
fn told(alloc: Global, names: &Names, found: &Found, call: &str) -> Result<String, AllocError> {
    match (found, call) {
        (Found::Scopes(scopes), "declared") => declared(alloc, scopes),
        (Found::Scopes(scopes), "meanings") => meanings(alloc, scopes),
        (Found::Typed(typed), "values") => values(alloc, typed),
        (Found::Many(count), _) => format!(in alloc; "{count} are too many"),
        (Found::Pooled(tree, _), "instances") => instance_rows(alloc, names, tree),
        (Found::Pooled(tree, _), "number") => {
            let number = tree.instances.as_slice().len();
            format!(in alloc; "{number}")
        }
        (Found::Pooled(_, map), "map") => pool_rows(alloc, names, map),
        _ => String::from_str(alloc, "keeps"),
    }
}

// The rule that is broken, and its place.
fn broken(alloc: Global, end: RuleEnd) -> Result<String, AllocError> {
    match end {
        RuleEnd::NoMemory => String::from_str(alloc, "no memory"),
        RuleEnd::Broken { place, rule } => {
            let mut answer = format!(in alloc; "{rule}")?;
            write_mark(&mut answer, "", place)?;
            Ok(answer)
        }
    }
}

/// Answers these calls on some files, each of which begins with the ones before it:
///
/// - `names`, `types`, `pools`: the number of the least rule that is broken, with its place, or
///   `keeps`.
/// - `declared`: the types and functions, with their places. A label is the letter of a sort and the
///   number of the component in which the type stands, as a digit, or `-`.
/// - `meanings`: the places of the names that are used. A label is the number of a type, `.`, and
///   that of a name in its text, or 0.
/// - `values`: the places of the constant expressions. A label is a value.
/// - `instances`: each with its name, component, parent and the last in its subtree.
/// - `number`: how many instances there are, or that they are too many.
/// - `map`: the pools, each with the number of its instance and its name; `;`, and what they serve,
///   each with the numbers of an action, an instance, a reference and a pool.
pub fn answer(alloc: Global, files: &[Vec<u8>], call: &str) -> Result<String, AllocError> {
    let Some(sources) = read_units(alloc, files) else {
        return String::from_str(alloc, "unread");
    };
    match judged(alloc, sources.units.as_slice(), &sources.names, call) {
        Ok(found) => told(alloc, &sources.names, &found, call),
        Err(end) => broken(alloc, end),
    }
}
