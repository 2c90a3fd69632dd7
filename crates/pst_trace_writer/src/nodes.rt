//! Lines of first objects and of nodes.
ghost use Rattle.std.specs.Prelude.{◌≡◌, ◌++◌, ◌<◌, [], Some, nat_eq, map, string_bytes, slice_get, OnOk};
ghost use Rattle.std.specs.Int.{bit_at};
ghost use Rattle.pst_model.specs.ModelView.{view_model, view_action};
ghost use Rattle.pst_trace_texts.specs.Lines.{each_from};
ghost use Rattle.pst_trace_texts.specs.Named.{paths as all_paths, type_text, pool_text};
ghost use Rattle.pst_trace_texts.specs.Header.{first_line, used_text, compound_line, compound_text, branch_text, branches_text, join_text};

use crate::lookups::{fields_of, name_of, pool_at, pool_fields};
use crate::paths::path_at;
use crate::values::write_values;
use pst_base::{Names, NoMemory};
use pst_model::{ActionType, Model, Pool};
use pst_scen::{Fill, First, Node};

/// Adds the name of a component and that of an action type of it.
fn write_type(text: &mut String, names: &Names, found: &ActionType) -> Result<(), NoMemory>
    ensures { OnOk result (string_bytes text.new ≡ string_bytes text.old ++ type_text names.now (Some (view_action found.now))) }
{
    let component = name_of(names, found.component);
    let name = name_of(names, found.name);
    Ok(write!(text, "{component}::{name}")?)
}

/// Adds the names of the action type of that number.
fn write_type_at(
    text: &mut String,
    names: &Names,
    model: &Model,
    action: u32,
) -> Result<(), NoMemory>
    ensures { OnOk result (string_bytes text.new ≡ string_bytes text.old ++ type_text names.now (slice_get (view_model model.now).actions action)) }
{
    match model.actions.get(action as usize) {
        Some(found) => write_type(text, names, found),
        None => Ok(()),
    }
}

/// Adds an instance and an action type that is used in it.
pub(crate) fn write_used(
    text: &mut String,
    names: &Names,
    model: &Model,
    paths: &[String],
    instance: u32,
    action: u32,
) -> Result<(), NoMemory>
    requires { map string_bytes paths.now ≡ all_paths names.now (view_model model.now) }
    ensures { OnOk result (string_bytes text.new ≡ string_bytes text.old ++ used_text names.now (view_model model.now) instance action) }
{
    let path = path_at(paths, instance);
    write!(text, "{path} ")?;
    write_type_at(text, names, model, action)
}

/// Adds an instance and the name of a pool in it.
fn write_pool(
    text: &mut String,
    names: &Names,
    model: &Model,
    paths: &[String],
    pool: Option<Pool>,
) -> Result<(), NoMemory>
    requires { map string_bytes paths.now ≡ all_paths names.now (view_model model.now) }
    ensures { OnOk result (string_bytes text.new ≡ string_bytes text.old ++ pool_text names.now (view_model model.now) pool) }
{
    match pool {
        Some(found) => {
            let path = path_at(paths, found.instance);
            let name = name_of(names, found.name);
            Ok(write!(text, "{path}.{name}")?)
        }
        None => Ok(()),
    }
}

/// Adds the line of a first object.
fn write_first(
    text: &mut String,
    names: &Names,
    model: &Model,
    paths: &[String],
    first: &First,
) -> Result<(), NoMemory>
    requires { map string_bytes paths.now ≡ all_paths names.now (view_model model.now) }
    ensures { OnOk result (string_bytes text.new ≡ string_bytes text.old ++ first_line names.now (view_model model.now) first.now) }
{
    let pool = pool_at(model, first.pool);
    text.push_str("initial ")?;
    write_pool(text, names, model, paths, pool)?;
    write_values(
        text,
        names,
        "",
        "",
        pool_fields(model, pool),
        first.values.as_slice(),
    )?;
    Ok(text.push_str("\n")?)
}

/// Adds a line for each first object.
pub(crate) fn write_firsts(
    text: &mut String,
    names: &Names,
    model: &Model,
    paths: &[String],
    firsts: &[First],
) -> Result<(), NoMemory>
    requires { map string_bytes paths.now ≡ all_paths names.now (view_model model.now) }
    ensures { OnOk result (string_bytes text.new ≡ string_bytes text.old ++ each_from (λ number first. first_line names.now (view_model model.now) first) 0 firsts.now) }
{
    for first in firsts {
        write_first(text, names, model, paths, first)?;
    }
    Ok(())
}

/// Adds the line of a compound action.
fn write_compound(
    text: &mut String,
    names: &Names,
    model: &Model,
    paths: &[String],
    action: u32,
    instance: u32,
    fields: &[i64],
) -> Result<(), NoMemory>
    requires { map string_bytes paths.now ≡ all_paths names.now (view_model model.now) }
    ensures { OnOk result (string_bytes text.new ≡ string_bytes text.old ++ compound_line names.now (view_model model.now) action instance fields.now) }
{
    text.push_str("compound ")?;
    write_used(text, names, model, paths, instance, action)?;
    write_values(text, names, "", "", fields_of(model, action), fields)?;
    Ok(text.push_str("\n")?)
}

/// Adds the line of a compound action; nothing for another node.
fn write_node(
    text: &mut String,
    names: &Names,
    model: &Model,
    paths: &[String],
    fill: &Fill,
) -> Result<(), NoMemory>
    requires { map string_bytes paths.now ≡ all_paths names.now (view_model model.now) }
    ensures { OnOk result (string_bytes text.new ≡ string_bytes text.old ++ compound_text names.now (view_model model.now) fill.now) }
{
    match fill {
        Fill::Compound {
            action,
            instance,
            fields,
        } => write_compound(
            text,
            names,
            model,
            paths,
            *action,
            *instance,
            fields.as_slice(),
        ),
        _ => Ok(()),
    }
}

/// Adds a line for each compound action.
pub(crate) fn write_nodes(
    text: &mut String,
    names: &Names,
    model: &Model,
    paths: &[String],
    nodes: &[Node],
) -> Result<(), NoMemory>
    requires { map string_bytes paths.now ≡ all_paths names.now (view_model model.now) }
    ensures { OnOk result (string_bytes text.new ≡ string_bytes text.old ++ each_from (λ number node. compound_text names.now (view_model model.now) node.fill) 0 nodes.now) }
{
    for node in nodes {
        write_node(text, names, model, paths, &node.fill)?;
    }
    Ok(())
}

/// Whether a branch is joined.
fn is_joined(joined: u64, branch: u32) -> bool
    requires { branch < 64 }
    ensures { result ≡ nat_eq (bit_at joined branch) 1 }
{
    (joined >> branch) & 1 == 1
}

/// Adds a branch, if it is joined.
fn write_branch(text: &mut String, joined: u64, branch: u32) -> Result<(), NoMemory>
    requires { branch < 64 }
    ensures { OnOk result (string_bytes text.new ≡ string_bytes text.old ++ branch_text joined branch) }
{
    if is_joined(joined, branch) {
        write!(text, " {branch}")?;
    }
    Ok(())
}

/// Adds each joined branch.
fn write_branches(text: &mut String, joined: u64) -> Result<(), NoMemory>
    ensures { OnOk result (string_bytes text.new ≡ string_bytes text.old ++ branches_text joined 0 64) }
{
    for branch in 0..64 {
        write_branch(text, joined, branch)?;
    }
    Ok(())
}

/// Adds the line of a block with a join form; nothing for another node.
fn write_join(text: &mut String, number: usize, fill: &Fill) -> Result<(), NoMemory>
    ensures { OnOk result (string_bytes text.new ≡ string_bytes text.old ++ join_text number fill.now) }
{
    match fill {
        Fill::Joined { joined, .. } => {
            write!(text, "join {number}")?;
            write_branches(text, *joined)?;
            Ok(text.push_str("\n")?)
        }
        _ => Ok(()),
    }
}

/// Adds a line for each block with a join form.
pub(crate) fn write_joins(text: &mut String, nodes: &[Node]) -> Result<(), NoMemory>
    ensures { OnOk result (string_bytes text.new ≡ string_bytes text.old ++ each_from (λ number node. join_text number node.fill) 0 nodes.now) }
{
    for (number, node) in nodes.iter().enumerate() {
        write_join(text, number, &node.fill)?;
    }
    Ok(())
}
