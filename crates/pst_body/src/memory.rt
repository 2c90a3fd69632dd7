//! What a body keeps while it runs. All of its memory is taken at the body's start.
ghost use Rattle.std.specs.Prelude.{◌≡◌, ◌+◌, ◌<◌, ◌≤◌, ◌++◌, ◌∷◌, ◌^◌, [], ℕ, pos, length, map, replicate, slice_set, vec_capacity, IfOk, MatchResult};
ghost use Rattle.pst_expr.specs.Value.{variable_value};
ghost use Rattle.pst_model.specs.Limits.{most_parameters};
ghost use Rattle.pst_model.specs.ConstraintTree.{view_slot, view_constraint};
ghost use Rattle.pst_legal.specs.Body.{slot_value as slot_value_of, value_now, most_counts};
ghost use Rattle.pst_body.specs.Sites.{place_of};
ghost use Rattle.pst_body.specs.Stores.{state_of};
ghost use Rattle.pst_body.specs.Ready.{CanEvaluate};

use crate::ending::BodyEnd;
use crate::site::Site;
use crate::slot::slot_value;
use crate::turns::Turns;
use pst_base::NoMemory;
use pst_expr::{Env, eval};
use pst_model::{Constraint, Slot};
use std::alloc::Global;
use std::marker::Model;

/// How many statements and turns of a body may begin.
const MOST_COUNTS: u32 = 1000;

/// The most parameters of a function.
const MOST_PARAMETERS: usize = 64;

/// As many slots as variables can name.
const MOST_ROOM: usize = 0x1_0000_0000;

/// What a body keeps while it runs.
#[derive(Drop)]
pub(crate) struct Memory {
    /// The values of the locals.
    locals: Vec<i64>,
    /// The values of the slots of an expression, with room for the most slots of an expression of the body.
    values: Env,
    /// The arguments of the next call.
    arguments: Vec<i64>,
    /// How many statements and turns have begun.
    count: u32,
    /// How many calls were answered.
    calls: u32,
}

impl Model for Memory {
    ghost use Rattle.pst_body.specs.Stores.{Store};

    ghost Value = { Store };

    ghost use Rattle.pst_body.specs.Kept.{store_of, IsKept};

    ghost view = { store_of };

    ghost invariant = { IsKept };
}

/// Writes the values of the slots to the variables of the same numbers.
fn write_values(
    values: &mut Env,
    site: &Site<'_>,
    turns: &Turns<'_>,
    locals: &[i64],
    slots: &[Slot],
)
    requires fits { length slots.now ≤ length values.old }
    requires small { length values.old ≤ 2 ^ 32 }
    ensures room { length values.new ≡ length values.old }
    ensures written { (i : ℕ) → i < length slots.now → variable_value values.new i ≡ variable_value (map (slot_value_of (place_of site.now turns.now) locals.now) (map view_slot slots.now)) i }
{
    for i in 0..slots.len() {
        values.set(i as u32, slot_value(site, turns, locals, &slots[i]));
    }
}

/// Writes an argument, for which there is room.
fn write_argument(arguments: &mut Vec<i64>, value: i64)
    requires { length arguments.old.items < vec_capacity arguments.old }
    ensures items { arguments.new.items ≡ arguments.old.items ++ value ∷ [] }
    ensures capacity { vec_capacity arguments.old ≤ vec_capacity arguments.new }
{
    let _pushed = arguments.push(value);
}

impl Memory {
    /// The memory of a body with so many locals, which are 0, whose expressions have so many slots at most. More than 2^32
    /// slots, which variables couldn't name, are too many for it.
    pub(crate) fn new(alloc: Global, locals: usize, room: usize) -> Result<Memory, NoMemory>
        ensures { IfOk result (λ m. m ≡ record { locals = replicate locals (pos 0); room = room; arguments = []; count = 0; calls = 0 }) }
    {
        if room > MOST_ROOM {
            return Err(NoMemory);
        }
        let locals = Vec::from_elem(alloc, 0, locals)?;
        let values = Env::new(Vec::from_elem(alloc, None, room)?);
        let arguments = Vec::with_capacity(alloc, MOST_PARAMETERS)?;
        Ok(Memory {
            locals,
            values,
            arguments,
            count: 0,
            calls: 0,
        })
    }

    /// The value of an expression.
    pub(crate) fn value(
        &mut self,
        site: &Site<'_>,
        turns: &Turns<'_>,
        constraint: &Constraint,
    ) -> Option<i64>
        requires { CanEvaluate self.old.room (view_constraint constraint.now) }
        ensures value { result ≡ value_now (place_of site.now turns.now) (state_of self.old []) (view_constraint constraint.now) }
        ensures same { self.new ≡ self.old }
    {
        write_values(
            &mut self.values,
            site,
            turns,
            self.locals.as_slice(),
            constraint.slots.as_slice(),
        );
        eval(&constraint.expr, &self.values)
    }

    /// Gives a local another value.
    pub(crate) fn set_local(&mut self, local: u32, value: i64)
        ensures { self.new ≡ record self.old { locals = slice_set self.old.locals local value } }
    {
        if let Some(place) = self.locals.get_mut(local as usize) {
            *place = value;
        }
    }

    /// Counts a statement or a turn as it begins.
    pub(crate) fn tick(&mut self) -> Result<(), BodyEnd>
        ensures { MatchResult result
            (λ _. (self.old.count < most_counts) × (self.new ≡ record self.old { count = self.old.count + 1 }) × (self.new.calls < self.new.count))
            (λ end. (end ≡ BodyEnd.Trap 3) × (most_counts ≤ self.old.count) × (self.new ≡ self.old)) }
    {
        if self.count >= MOST_COUNTS {
            return Err(BodyEnd::Trap { kind: 3 });
        }
        self.count += 1;
        Ok(())
    }

    /// How many calls were answered.
    pub(crate) fn calls(&self) -> u32
        ensures value { result ≡ self.now.calls }
        ensures few { self.now.calls ≤ self.now.count }
        ensures limit { self.now.count ≤ most_counts }
    {
        self.calls
    }

    /// Counts a call that was answered.
    pub(crate) fn count_call(&mut self)
        requires { self.old.calls < self.old.count }
        ensures { self.new ≡ record self.old { calls = self.old.calls + 1 } }
    {
        self.calls += 1;
    }

    /// The arguments of the next call.
    pub(crate) fn arguments(&self) -> &[i64]
        ensures { result.now ≡ self.now.arguments }
    {
        self.arguments.as_slice()
    }

    /// Forgets the arguments.
    pub(crate) fn clear_arguments(&mut self)
        ensures { self.new ≡ record self.old { arguments = [] } }
    {
        self.arguments.clear();
    }

    /// Adds an argument.
    pub(crate) fn add_argument(&mut self, value: i64)
        requires { length self.old.arguments < most_parameters }
        ensures { self.new ≡ record self.old { arguments = self.old.arguments ++ value ∷ [] } }
    {
        write_argument(&mut self.arguments, value);
    }
}
