//! Judging pool binds and their targets.
ghost use Rattle.std.specs.Prelude.{◌≡◌, ◌++◌, OnOk, IfOk};
ghost use Rattle.pst_ast.specs.DeclarationView.{view_target};
ghost use Rattle.pst_ast.specs.Scopes.{along_meant, target_meant};
ghost use Rattle.pst_ast.specs.Uses.{Binds, Targets, target_use};
ghost use Rattle.pst_names.specs.Judged.{judged};

use crate::judge::Judge;
use pst_ast::{Checked, Declaration, Name, TargetNode};
use pst_base::{NoMemory, Place};
use pst_name_rules::{binds_finding, instance_within, pool_in, target_of, targets_finding};
use std::alloc::Global;

/// A target, read from its end.
#[derive(Drop)]
pub struct TargetRead {
    /// The instances along which it goes.
    pub instances: Vec<Name>,
    /// The action type.
    pub action: Name,
    /// The reference or claim.
    pub reference: Name,
}

/// Reads a target from its end: a reference or claim, an action type, and instances.
pub fn read_target(alloc: Global, target: &TargetNode) -> Result<TargetRead, NoMemory>
    ensures { IfOk result (λ read. (component : Place) (pool : Name) → target_use component pool (view_target target.now) ≡ Targets component pool read.instances.items read.action read.reference) }
{
    let mut instances = Vec::new(alloc);
    let mut action = target.first;
    let mut reference = target.second.name;
    for next in target.rest.as_slice() {
        instances.push(action)?;
        action = reference;
        reference = next.name;
    }
    Ok(TargetRead {
        instances,
        action,
        reference,
    })
}

impl<'a> Judge<'a> {
    /// Judges the pool of a bind.
    pub fn judge_bind(&mut self, component: Place, pool: Name) -> Result<(), NoMemory>
        ensures { OnOk result (self.new ≡ judged self.old (Binds component pool)) }
    {
        let finding = binds_finding(self.index, component, pool);
        self.note(finding);
        let found = pool_in(self.index, component, pool);
        self.mean_declared(pool, found)
    }

    // Keeps what the instances of a target stand for.
    fn mean_along(
        &mut self,
        component: Option<Declaration>,
        instances: &[Name],
    ) -> Result<(), NoMemory>
        ensures { OnOk result (self.new ≡ record self.old { meant = self.old.meant ++ along_meant self.old.ds component instances.now }) }
    {
        let mut reached = component;
        for name in instances {
            let found = instance_within(self.index, &reached, *name);
            self.mean_declared(*name, found)?;
            reached = match found {
                Some(instance) => self.index.type_of(&instance),
                None => None,
            };
        }
        Ok(())
    }

    /// Judges a target that a pool is bound to.
    pub fn judge_target(
        &mut self,
        component: Place,
        pool: Name,
        target: &TargetNode,
    ) -> Result<(), NoMemory>
        ensures { OnOk result (self.new ≡ judged self.old (target_use component pool (view_target target.now))) }
    {
        let read = read_target(self.alloc, target)?;
        self.judge_read(
            component,
            read.instances.as_slice(),
            read.action,
            pool,
            read.reference,
        )
    }

    // Judges a target that has been read from its end.
    fn judge_read(
        &mut self,
        component: Place,
        instances: &[Name],
        action: Name,
        pool: Name,
        reference: Name,
    ) -> Result<(), NoMemory>
        ensures { OnOk result (self.new ≡ judged self.old (Targets component pool instances.now action reference)) }
    {
        let finding = targets_finding(self.index, component, instances, action, reference);
        self.note(finding);
        let outer = self.index.declared_at(component);
        self.mean_along(outer, instances)?;
        match target_of(self.index, component, instances, action, reference) {
            Checked::Breaks { .. } => Ok(()),
            Checked::Is(found) => {
                self.mean_declared(action, Some(found.action))?;
                self.mean_declared(reference, Some(found.need))
            }
        }
    }
}
