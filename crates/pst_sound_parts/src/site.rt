// Where an expression stands, and so which slots its variables may stand for.
ghost use Rattle.std.specs.Prelude.{◌≡◌, IsTrue, ◌↔◌, All, map};
ghost use Rattle.pst_model.specs.ConstraintTree.{view_slot, view_constraint};
ghost use Rattle.pst_model.specs.SoundConstraint.{IsSoundConstraint};

use crate::expression::is_below;
use crate::repeats::Repeats;
use crate::slots::{
    is_body_slot, is_condition_slot, is_constraint_slot, is_inline_slot, is_object_slot,
};
use pst_model::{ActionType, Constraint, Model, ObjectType, Slot};

/// Where an expression stands.
pub trait Site {
    ghost use Rattle.pst_model.specs.ConstraintTree.{SlotTree};

    /// The slots that have a meaning there.
    ghost means: { Self → SlotTree → Type 0 };

    /// Whether a slot has a meaning there.
    fn has(&self, slot: &Slot) -> bool
        ensures { IsTrue result ↔ means self.now (view_slot slot.now) };
}

/// A constraint of an object.
#[derive(Clone, Copy)]
pub struct ObjectSite<'a> {
    /// The object type.
    pub object: &'a ObjectType,
}

impl Site for ObjectSite<'_> {
    ghost use Rattle.pst_model.specs.ModelView.{view_object};
    ghost use Rattle.pst_model.specs.SoundSlots.{IsObjectSlot};

    ghost means = { λ s. IsObjectSlot (view_object s.object.now) };

    fn has(&self, slot: &Slot) -> bool {
        is_object_slot(self.object, slot)
    }
}

/// A condition, guard, count or matched value of an action's activity, with repetitions round it.
#[derive(Clone, Copy)]
pub struct ConditionSite<'a> {
    /// The action.
    pub action: &'a ActionType,
    /// The repetitions.
    pub repeats: &'a Repeats<'a>,
}

impl Site for ConditionSite<'_> {
    ghost use Rattle.pst_model.specs.ModelView.{view_action};
    ghost use Rattle.pst_sound_parts.specs.Depth.{depth};
    ghost use Rattle.pst_model.specs.SoundSlots.{IsConditionSlot};

    ghost means = { λ s. IsConditionSlot (view_action s.action.now) (depth s.repeats.now) };

    fn has(&self, slot: &Slot) -> bool {
        is_condition_slot(self.action, self.repeats, slot)
    }
}

// An expression of an action's body that has that many locals, with repetitions round it.
#[derive(Clone, Copy)]
pub struct BodySite<'a> {
    pub objects: &'a [ObjectType],
    pub action: &'a ActionType,
    pub locals: u32,
    pub repeats: &'a Repeats<'a>,
}

impl Site for BodySite<'_> {
    ghost use Rattle.std.specs.Prelude.{map};
    ghost use Rattle.pst_model.specs.ModelView.{view_action, view_object};
    ghost use Rattle.pst_sound_parts.specs.Depth.{depth};
    ghost use Rattle.pst_model.specs.SoundSlots.{IsBodySlot};

    ghost means = { λ s. IsBodySlot (map view_object s.objects.now) (view_action s.action.now) s.locals (depth s.repeats.now) };

    fn has(&self, slot: &Slot) -> bool {
        is_body_slot(self.objects, self.action, self.locals, self.repeats, slot)
    }
}

/// A constraint of an action.
#[derive(Clone, Copy)]
pub struct ActionSite<'a> {
    /// The model.
    pub model: &'a Model,
    /// The action.
    pub action: &'a ActionType,
}

impl Site for ActionSite<'_> {
    ghost use Rattle.pst_model.specs.ModelView.{view_action, view_model};
    ghost use Rattle.pst_model.specs.SoundSlots.{IsConstraintSlot};

    ghost means = { λ s. IsConstraintSlot (view_model s.model.now) (view_action s.action.now) };

    fn has(&self, slot: &Slot) -> bool {
        is_constraint_slot(self.model, self.action, slot)
    }
}

/// An inline constraint on an action that another one traverses, with repetitions round it.
#[derive(Clone, Copy)]
pub struct InlineSite<'a> {
    /// The model.
    pub model: &'a Model,
    /// The action.
    pub action: &'a ActionType,
    /// The traversed action.
    pub traversed: &'a ActionType,
    /// The repetitions.
    pub repeats: &'a Repeats<'a>,
}

impl Site for InlineSite<'_> {
    ghost use Rattle.pst_model.specs.ModelView.{view_action, view_model};
    ghost use Rattle.pst_sound_parts.specs.Depth.{depth};
    ghost use Rattle.pst_model.specs.SoundSlots.{IsInlineSlot};

    ghost means = { λ s. IsInlineSlot (view_model s.model.now) (view_action s.action.now) (view_action s.traversed.now) (depth s.repeats.now) };

    fn has(&self, slot: &Slot) -> bool {
        is_inline_slot(self.model, self.action, self.traversed, self.repeats, slot)
    }
}

// Whether each slot has a meaning there.
fn are_slots<S: Site>(site: &S, slots: &[Slot]) -> bool
    ensures { IsTrue result ↔ All (S.means site.now) (map view_slot slots.now) }
{
    slots.iter().all(|slot| site.has(slot))
}

/// Whether an expression is sound there.
pub fn is_sound_there<S: Site>(site: &S, constraint: &Constraint) -> bool
    ensures { IsTrue result ↔ IsSoundConstraint (S.means site.now) (view_constraint constraint.now) }
{
    is_below(constraint.slots.len(), &constraint.expr)
        && are_slots(site, constraint.slots.as_slice())
}

/// Whether each expression is sound there.
pub fn are_sound_there<S: Site>(site: &S, constraints: &[Constraint]) -> bool
    ensures { IsTrue result ↔ All (IsSoundConstraint (S.means site.now)) (map view_constraint constraints.now) }
{
    constraints
        .iter()
        .all(|constraint| is_sound_there(site, constraint))
}
