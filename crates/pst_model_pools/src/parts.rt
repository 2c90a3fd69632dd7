//! Component instances, and what pools serve.
ghost use Rattle.std.specs.Prelude.{◌≡◌, IfOk, map};
ghost use Rattle.pst_elab_rules.specs.Model.{serve_of};
ghost use Rattle.pst_tree.specs.Instances.{parts_of};

use pst_ast::Instance;
use pst_base::NoMemory;
use pst_bind::Served;
use pst_model::{Part, Serve};
use std::alloc::Global;

/// The component instances of a model.
pub fn model_parts(alloc: Global, instances: &[Instance]) -> Result<Vec<Part>, NoMemory>
    ensures { IfOk result (λ parts. parts.items ≡ parts_of instances.now) }
{
    let mut parts = Vec::new(alloc);
    for instance in instances {
        parts.push(Part {
            name: instance.name,
            component: instance.component,
            parent: instance.parent,
            last: instance.last,
        })?;
    }
    Ok(parts)
}

/// What the pools of a model serve.
pub fn model_serves(alloc: Global, served: &[Served]) -> Result<Vec<Serve>, NoMemory>
    ensures { IfOk result (λ serves. serves.items ≡ map serve_of served.now) }
{
    let mut serves = Vec::new(alloc);
    for one in served {
        serves.push(Serve {
            action: one.action,
            instance: one.instance,
            reference: one.reference,
            pool: one.pool,
        })?;
    }
    Ok(serves)
}
