//! Walks through the choices that fill an activity.
ghost use Rattle.std.specs.Prelude.{◌≡◌, ℕ, IfOk, IfSome, OnOk, OnErr, ◌<◌, length, map, reverse, []};
ghost use Rattle.pst_model.specs.ModelView.{view_model};
ghost use Rattle.pst_scen.specs.declared.scenario.Scenario.{Scenario};
ghost use Rattle.pst_field_places.specs.Places.{IsFieldPlace};
ghost use Rattle.pst_shape_parts.specs.Trees.{bare};
ghost use Rattle.pst_shape_steps.specs.Pending.{shown_at, valued};
ghost use Rattle.pst_shape.specs.Choices.{at_after, node_count, leaf_count, growth_after};
ghost use Rattle.pst_shape.specs.Fields.{IsFieldAt};
ghost use Rattle.pst_shape.specs.Walks.{Kept, with_choice, answer, next_of, IfRead, HasDigit, IsGrowth};

use crate::pick::{choice, first};
use pst_base::NoMemory;
use pst_field_places::FieldPlace;
use pst_model::Model;
use pst_scen::{Act, Next, Node};
use pst_shape_parts::Grown;
use pst_shape_steps::{At, options};
use std::alloc::Global;

/// A choice, where reading stands after it, the numbers of nodes and leaves then, and the node to
/// whose action it gave a value.
#[derive(Drop)]
struct Made<'a> {
    digit: u64,
    at: At<'a>,
    nodes: usize,
    leaves: usize,
    value: Option<u32>,
}

/// What a choice added to a filled-in activity: the nodes and leaves behind so many, and a value of the
/// action of a node.
#[derive(Clone, Copy, Debug, PartialEq, Eq)]
pub struct Growth {
    /// How many nodes there were before.
    pub nodes: usize,
    /// How many leaves there were before.
    pub leaves: usize,
    /// The compound action's node that got a value, as the last of its action's values.
    pub value: Option<u32>,
}

// Where reading stands after the last of these choices.
fn at_of<'a, 'b>(made: &'b [Made<'a>], start: &'b At<'a>) -> &'b At<'a>
    ensures { result.now ≡ at_after start.now (reverse made.now) }
{
    if made.is_empty() {
        return start;
    }
    &made[made.len() - 1].at
}

// How many nodes and leaves there are after the last of these choices.
fn sizes_of(made: &[Made<'_>]) -> (usize, usize)
    ensures nodes { result.0 ≡ node_count (reverse made.now) }
    ensures leaves { result.1 ≡ leaf_count (reverse made.now) }
{
    match made.last() {
        Some(made) => (made.nodes, made.leaves),
        None => (0, 0),
    }
}

// What the last of these choices added.
fn growth_of(made: &[Made<'_>]) -> Option<Growth>
    ensures { result ≡ growth_after (reverse made.now) }
{
    match made.split_last() {
        None => None,
        Some((last, before)) => {
            let (nodes, leaves) = sizes_of(before);
            Some(Growth {
                nodes,
                leaves,
                value: last.value,
            })
        }
    }
}

// What the walk stands at there.
fn next_at(at: &At<'_>) -> Next
    ensures { (s : Scenario) → result ≡ next_of (shown_at at.now s) }
{
    match at {
        At::Place { .. } => Next::Options(options(at)),
        At::Value { .. } => Next::Options(options(at)),
        At::Whole => Next::Whole,
        _ => Next::Dead,
    }
}

// The node to whose action a choice there gives a value.
fn value_at(at: &At<'_>) -> Option<u32>
    ensures { result ≡ valued at.now }
{
    match at {
        At::Value { fields, .. } => Some(fields.node),
        _ => None,
    }
}

// The place there, where a field of a compound action is given its value.
fn field_at<'a>(at: &At<'a>) -> Option<FieldPlace<'a>>
    ensures { IfSome result (λ place. IsFieldAt at.now place) }
{
    match at {
        At::Value { fields, .. } => Some(FieldPlace {
            node: fields.node,
            fields: fields.fields,
        }),
        _ => None,
    }
}

/// A walk through the lists of choices that fill an activity. Contracts see its model, its root, its
/// seed and its choices.
#[derive(Drop)]
pub struct Walk<'a> {
    alloc: Global,
    model: &'a Model,
    root: u32,
    seed: u64,
    start: At<'a>,
    made: Vec<Made<'a>>,
    grown: Grown,
}

impl<'a> std::marker::Model for Walk<'a> {
    ghost use Rattle.pst_shape.specs.Walks.{Kept};
    ghost use Rattle.pst_shape.specs.Made.{kept_by, IsKept};
    ghost use Rattle.std.specs.Coded.{codes};
    ghost use Rattle.pst_model.specs.contracts.activity.Step as the_step;
    ghost use Rattle.pst_model.specs.contracts.body.BodyStep as the_body_step;
    ghost use Rattle.pst_model.specs.contracts.constraint.Slot as the_slot;
    ghost use Rattle.pst_expr.specs.contracts.tree.Expr as the_expr;

    ghost Value = { Kept };

    ghost coded = { Prim.hlevel (codes, the_step.the_row.coded, the_body_step.the_row.coded, the_slot.the_row.coded, the_expr.the_row.coded) };

    ghost view = { kept_by };

    ghost invariant = { IsKept };
}

impl<'a> Walk<'a> {
    /// The walk without a choice. The root is the number of an action type.
    pub fn new(alloc: Global, model: &'a Model, root: u32, seed: u64) -> Result<Walk<'a>, NoMemory>
        ensures { IfOk result (λ w. w ≡ record { model = model.now; root = root; seed = seed; choices = [] }) }
    {
        let start = first(alloc, model, root)?;
        Ok(Walk {
            alloc,
            model,
            root,
            seed,
            start,
            made: Vec::new(alloc),
            grown: Grown::new(alloc),
        })
    }

    /// What the walk stands at: a place with so many options, the end, or a dead end.
    pub fn next(&self) -> Next
        ensures { (level : ℕ) → result ≡ next_of (answer self.now level) }
    {
        next_at(at_of(&self.made, &self.start))
    }

    /// The nodes so far, in preorder.
    pub fn nodes(&self) -> &[Node]
        ensures { (level : ℕ) → IfRead (answer self.now level) (λ s. result.now ≡ s.nodes) }
    {
        &self.grown.nodes
    }

    /// The leaves so far, with their types, instances and nodes. All their lists are empty.
    pub fn leaves(&self) -> &[Act]
        ensures { (level : ℕ) → IfRead (answer self.now level) (λ s. result.now ≡ map bare s.actions) }
    {
        &self.grown.leaves
    }

    /// The place at hand, where a field of a compound action is given its value there.
    pub fn field(&self) -> Option<FieldPlace<'a>>
        ensures { IfSome result (λ place. (level : ℕ) → IsFieldPlace (view_model self.now.model) self.now.root self.now.seed level self.now.choices place) }
    {
        field_at(at_of(&self.made, &self.start))
    }

    /// What the last choice added, and nothing where there is no choice. All else stands as it stood.
    pub fn growth(&self) -> Option<Growth>
        ensures { IsGrowth self.now result }
    {
        growth_of(&self.made)
    }

    /// Makes a choice at the place where the walk stands.
    pub fn choose(&mut self, digit: u64) -> Result<(), NoMemory>
        requires { HasDigit (answer self.old 0) digit }
        ensures ok { OnOk result (self.new ≡ with_choice self.old digit) }
        ensures err { OnErr result (self.new ≡ self.old) }
    {
        self.made.reserve(1)?;
        let at = at_of(&self.made, &self.start);
        let value = value_at(at);
        let place = self.made.len() as u64;
        let at = choice(
            self.alloc,
            self.model,
            &mut self.grown,
            at,
            self.seed,
            place,
            digit,
        )?;
        let made = Made {
            digit,
            at,
            nodes: self.grown.nodes.len(),
            leaves: self.grown.leaves.len(),
            value,
        };
        match self.made.push(made) {
            Ok(()) => Ok(()),
            Err(_) => unreachable!(),
        }
    }

    /// Takes the last choice back.
    pub fn back(&mut self)
        requires { 0 < length self.old.choices }
        ensures { (digit : ℕ) × (self.old ≡ with_choice self.new digit) }
    {
        if let Some(last) = self.made.pop() {
            let (nodes, leaves) = sizes_of(&self.made);
            self.grown.cut(nodes, leaves);
            if let Some(node) = last.value {
                self.grown.take_back(self.alloc, node as usize);
            }
        }
    }
}
