//! The last instances of subtrees.
ghost use Rattle.std.specs.Prelude.{◌≡◌, ◌≤◌, length, IfOk};
ghost use Rattle.pst_tree.specs.Lasts;
ghost use Rattle.pst_tree.specs.Lasts.{lasts_from};

use pst_ast::Instance;
use pst_base::NoMemory;
use std::alloc::Global;

// Whether a parent has that number or a greater one.
fn is_from(number: usize, parent: Option<u32>) -> bool
    ensures { result ≡ Lasts.is_from number parent }
{
    match parent {
        Some(parent) => parent as usize >= number,
        None => false,
    }
}

// How many, one after another, stand in the instance of a number or in one behind it.
fn run_from(number: usize, behind: &[Instance]) -> usize
    ensures run { result ≡ Lasts.run_from number behind.now }
    ensures within { result ≤ length behind.now }
{
    let mut count = 0;
    for instance in behind {
        if !is_from(number, instance.parent) {
            return count;
        }
        count += 1;
    }
    count
}

/// Instances in preorder, each with the last in its subtree.
pub fn with_lasts(alloc: Global, instances: &[Instance]) -> Result<Vec<Instance>, NoMemory>
    requires { length instances.now ≤ 256 }
    ensures { IfOk result (λ found. found.items ≡ lasts_from 0 instances.now) }
{
    let mut found = Vec::new(alloc);
    let mut left = instances;
    while let Some((instance, behind)) = left.split_first() {
        let number = found.len();
        let last = number + run_from(number, behind);
        found.push(Instance {
            name: instance.name,
            component: instance.component,
            parent: instance.parent,
            last: last as u32,
        })?;
        left = behind;
    }
    Ok(found)
}
