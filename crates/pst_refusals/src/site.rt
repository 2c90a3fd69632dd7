//! Where a constraint stands.
ghost use Rattle.std.specs.Prelude.{◌≡◌, IfOk};
ghost use Rattle.pst_model.specs.ConstraintTree.{view_slot};
ghost use Rattle.pst_model.specs.Sound.{IsSound};
ghost use Rattle.pst_model.specs.ModelView.{view_model};
ghost use Rattle.pst_legal.specs.Slots.{act_slot as act_standing};
ghost use Rattle.pst_known.specs.Known.{known_of, seen};

use pst_base::NoMemory;
use pst_known::{
    Known, Scene, act_slot, first_object_slot, inline_slot, node_slot, output_slot, resource_slot,
};
use pst_model::Slot;
use pst_scen::{Act, Filled};
use std::alloc::Global;

/// Where a constraint stands, and so what its slots stand for.
pub(crate) trait Site {
    ghost use Rattle.pst_model.specs.ConstraintTree.{SlotTree};
    ghost use Rattle.pst_model.specs.ModelTree.{ModelTree};
    ghost use Rattle.pst_legal.specs.Standing.{Standing};

    /// The model.
    ghost of: { Self → ModelTree };

    /// What its slots stand for.
    ghost standing: { Self → SlotTree → Standing };

    /// What is known of a slot.
    fn known(&self, alloc: Global, slot: &Slot) -> Result<Known, NoMemory>
        requires { IsSound (of self.now) }
        ensures { IfOk result (λ k. k ≡ known_of (standing self.now (view_slot slot.now))) };
}

/// A constraint of an atomic action.
#[derive(Clone, Copy)]
pub(crate) struct ActSite<'a> {
    pub(crate) scene: &'a Scene<'a>,
    pub(crate) number: usize,
    pub(crate) act: &'a Act,
}

impl Site for ActSite<'_> {
    ghost use Rattle.pst_model.specs.ModelView.{view_model};
    ghost use Rattle.pst_legal.specs.Slots.{act_slot as act_standing};
    ghost use Rattle.pst_known.specs.Known.{seen};

    ghost of = { λ x. view_model x.scene.now.model.now };

    ghost standing = { λ x. act_standing (view_model x.scene.now.model.now) (seen x.scene.now) x.number x.act.now };

    fn known(&self, alloc: Global, slot: &Slot) -> Result<Known, NoMemory> {
        let _ = alloc;
        Ok(act_slot(self.scene, self.act, slot))
    }
}

/// A constraint of the object that an output writes.
#[derive(Clone, Copy)]
pub(crate) struct OutputSite<'a> {
    pub(crate) scene: &'a Scene<'a>,
    pub(crate) act: usize,
    pub(crate) reference: usize,
    pub(crate) filled: &'a Filled,
}

impl Site for OutputSite<'_> {
    ghost use Rattle.pst_model.specs.ModelView.{view_model};
    ghost use Rattle.pst_legal.specs.Slots.{output_slot as output_standing};
    ghost use Rattle.pst_known.specs.Known.{seen};

    ghost of = { λ x. view_model x.scene.now.model.now };

    ghost standing = { λ x. output_standing (view_model x.scene.now.model.now) (seen x.scene.now) x.act x.reference x.filled.now };

    fn known(&self, alloc: Global, slot: &Slot) -> Result<Known, NoMemory> {
        let _ = alloc;
        Ok(output_slot(self.scene, self.filled, slot))
    }
}

/// A constraint of the resource that an action claims.
#[derive(Clone, Copy)]
pub(crate) struct ResourceSite<'a> {
    pub(crate) scene: &'a Scene<'a>,
    pub(crate) number: usize,
    pub(crate) act: &'a Act,
    pub(crate) claim: u32,
}

impl Site for ResourceSite<'_> {
    ghost use Rattle.pst_model.specs.ModelView.{view_model};
    ghost use Rattle.pst_legal.specs.Slots.{resource_slot as resource_standing};

    ghost of = { λ x. view_model x.scene.now.model.now };

    ghost standing = { λ x. resource_standing (view_model x.scene.now.model.now) x.number x.act.now x.claim };

    fn known(&self, alloc: Global, slot: &Slot) -> Result<Known, NoMemory> {
        let _ = alloc;
        Ok(resource_slot(self.scene.model, self.act, self.claim, slot))
    }
}

/// A constraint of the first object of a pool.
#[derive(Clone, Copy)]
pub(crate) struct FirstSite<'a> {
    pub(crate) scene: &'a Scene<'a>,
    pub(crate) pool: u32,
}

impl Site for FirstSite<'_> {
    ghost use Rattle.pst_model.specs.ModelView.{view_model};
    ghost use Rattle.pst_legal.specs.Slots.{first_object_slot as first_standing};
    ghost use Rattle.pst_known.specs.Known.{seen};

    ghost of = { λ x. view_model x.scene.now.model.now };

    ghost standing = { λ x. first_standing (view_model x.scene.now.model.now) (seen x.scene.now) x.pool };

    fn known(&self, alloc: Global, slot: &Slot) -> Result<Known, NoMemory> {
        let _ = alloc;
        Ok(first_object_slot(self.scene, self.pool, slot))
    }
}

/// A constraint of a compound action.
#[derive(Clone, Copy)]
pub(crate) struct NodeSite<'a> {
    pub(crate) scene: &'a Scene<'a>,
    pub(crate) node: usize,
}

impl Site for NodeSite<'_> {
    ghost use Rattle.pst_model.specs.ModelView.{view_model};
    ghost use Rattle.pst_legal.specs.Slots.{node_slot as node_standing};
    ghost use Rattle.pst_known.specs.Known.{seen};

    ghost of = { λ x. view_model x.scene.now.model.now };

    ghost standing = { λ x. node_standing (view_model x.scene.now.model.now) (seen x.scene.now) x.node };

    fn known(&self, alloc: Global, slot: &Slot) -> Result<Known, NoMemory> {
        node_slot(alloc, self.scene, self.node, slot)
    }
}

/// A constraint at a traversal in the activity of the compound action of node `top`, in turns of these
/// numbers.
#[derive(Clone, Copy)]
pub(crate) struct InlineSite<'a> {
    pub(crate) scene: &'a Scene<'a>,
    pub(crate) node: usize,
    pub(crate) top: usize,
    pub(crate) indices: &'a [u32],
}

impl Site for InlineSite<'_> {
    ghost use Rattle.pst_model.specs.ModelView.{view_model};
    ghost use Rattle.pst_legal.specs.Slots.{inline_slot as inline_standing};
    ghost use Rattle.pst_known.specs.Known.{seen};

    ghost of = { λ x. view_model x.scene.now.model.now };

    ghost standing = { λ x. inline_standing (view_model x.scene.now.model.now) (seen x.scene.now) x.node x.top x.indices.now };

    fn known(&self, alloc: Global, slot: &Slot) -> Result<Known, NoMemory> {
        inline_slot(alloc, self.scene, self.node, self.top, self.indices, slot)
    }
}

// What belongs to an action that is looked at by itself.
fn own_slot(scene: &Scene<'_>, act: &Act, slot: &Slot) -> Known
    requires { IsSound (view_model scene.now.model.now) }
    ensures { result ≡ known_of (act_standing (view_model scene.now.model.now) (seen scene.now) 0 act.now (view_slot slot.now)) }
{
    act_slot(scene, act, slot)
}

/// A constraint at the traversal of an action that is looked at by itself, in the activity of the
/// compound action of node `top`, in turns of these numbers.
#[derive(Clone, Copy)]
pub(crate) struct MadeSite<'a> {
    pub(crate) scene: &'a Scene<'a>,
    pub(crate) act: &'a Act,
    pub(crate) top: usize,
    pub(crate) indices: &'a [u32],
}

impl Site for MadeSite<'_> {
    ghost use Rattle.pst_model.specs.ModelView.{view_model};
    ghost use Rattle.pst_known.specs.Known.{seen};
    ghost use Rattle.pst_refusals.specs.Made.{made_slot as made_standing};

    ghost of = { λ x. view_model x.scene.now.model.now };

    ghost standing = { λ x. made_standing (view_model x.scene.now.model.now) (seen x.scene.now) x.act.now x.top x.indices.now };

    fn known(&self, alloc: Global, slot: &Slot) -> Result<Known, NoMemory> {
        match slot {
            Slot::Outer { .. } => inline_slot(alloc, self.scene, 0, self.top, self.indices, slot),
            Slot::Index { .. } => inline_slot(alloc, self.scene, 0, self.top, self.indices, slot),
            _ => Ok(own_slot(self.scene, self.act, slot)),
        }
    }
}
