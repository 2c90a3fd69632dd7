//! What conditions of an activity may name.
ghost use Rattle.std.specs.Prelude.{◌≡◌, IfOk, map};
ghost use Rattle.pst_model.specs.ConstraintTree.{view_slot, view_constraint};
ghost use Rattle.pst_legal.specs.Pieces.{slot_in, value_in, in_turn};
ghost use Rattle.pst_shape_parts.specs.Contexts.{context_of};

use pst_base::NoMemory;
use pst_expr::{Env, eval};
use pst_model::{Constraint, Slot};
use std::alloc::Global;

/// The component instance of a compound action, the values of its fields, and the numbers of the
/// turns round a statement of its activity, the outermost first.
#[derive(Drop)]
pub struct Frame {
    pub instance: u32,
    pub fields: Vec<i64>,
    pub indices: Vec<u32>,
}

impl Frame {
    // The value of what a variable stands for.
    fn slot(&self, slot: &Slot) -> Option<i64>
        ensures { result ≡ slot_in (context_of self.now) (view_slot slot.now) }
    {
        match slot {
            Slot::Own { field } => self.fields.get(*field as usize).copied(),
            Slot::Index { level } => match self.indices.get(*level as usize) {
                Some(index) => Some(i64::from(*index)),
                None => None,
            },
            _ => None,
        }
    }

    // The values of what variables stand for.
    fn slots(&self, alloc: Global, slots: &[Slot]) -> Result<Vec<Option<i64>>, NoMemory>
        ensures { IfOk result (λ values. values.items ≡ map (slot_in (context_of self.now)) (map view_slot slots.now)) }
    {
        let mut values = Vec::new(alloc);
        for slot in slots {
            values.push(self.slot(slot))?;
        }
        Ok(values)
    }

    /// The value of a condition, a count, a guard or a matched value.
    pub fn value(&self, alloc: Global, constraint: &Constraint) -> Result<Option<i64>, NoMemory>
        ensures { IfOk result (λ v. v ≡ value_in (context_of self.now) (view_constraint constraint.now)) }
    {
        let values = self.slots(alloc, constraint.slots.as_slice())?;
        let env = Env::new(values);
        Ok(eval(&constraint.expr, &env))
    }

    /// The same within one more turn.
    pub fn in_turn(&self, alloc: Global, index: u32) -> Result<Frame, NoMemory>
        ensures { IfOk result (λ frame. context_of frame ≡ in_turn (context_of self.now) index) }
    {
        let mut indices = Vec::from_slice(alloc, self.indices.as_slice())?;
        indices.push(index)?;
        Ok(Frame {
            instance: self.instance,
            fields: Vec::from_slice(alloc, self.fields.as_slice())?,
            indices,
        })
    }
}
