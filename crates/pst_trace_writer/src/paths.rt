//! Paths of component instances.
ghost use Rattle.std.specs.Prelude.{◌≡◌, ◌++◌, [], get_or, map, string_bytes, IfOk, OnOk};
ghost use Rattle.pst_model.specs.ModelView.{view_model};
ghost use Rattle.pst_trace_texts.specs.Named.{parent_path, path_of as path_text, paths as all_paths};

use crate::lookups::name_of;
use pst_base::{Names, NoMemory};
use pst_model::{Model, Part};
use std::alloc::Global;

/// The path of an instance; empty where there is none of that number.
pub(crate) fn path_at(paths: &[String], instance: u32) -> &str
    ensures { result.now ≡ get_or (map string_bytes paths.now) instance [] }
{
    match paths.get(instance as usize) {
        Some(path) => path.as_str(),
        None => "",
    }
}

/// Adds the path of the instance round another one, and a dot.
fn write_parent(text: &mut String, known: &[String], parent: Option<u32>) -> Result<(), NoMemory>
    ensures { OnOk result (string_bytes text.new ≡ string_bytes text.old ++ parent_path (map string_bytes known.now) parent) }
{
    match parent {
        Some(instance) => {
            let path = path_at(known, instance);
            Ok(write!(text, "{path}.")?)
        }
        None => Ok(()),
    }
}

/// The path of an instance, where those of the instances before it are known.
fn path_of(alloc: Global, names: &Names, known: &[String], part: &Part) -> Result<String, NoMemory>
    ensures { IfOk result (λ path. string_bytes path ≡ path_text names.now (map string_bytes known.now) part.now) }
{
    let mut path = String::new(alloc);
    write_parent(&mut path, known, part.parent)?;
    path.push_str(name_of(names, part.name))?;
    Ok(path)
}

/// The paths of all instances.
pub(crate) fn paths_of(alloc: Global, names: &Names, model: &Model) -> Result<Vec<String>, NoMemory>
    ensures { IfOk result (λ paths. map string_bytes paths.items ≡ all_paths names.now (view_model model.now)) }
{
    let mut paths = Vec::new(alloc);
    for part in &model.instances {
        let path = path_of(alloc, names, &paths, part)?;
        paths.push(path)?;
    }
    Ok(paths)
}
