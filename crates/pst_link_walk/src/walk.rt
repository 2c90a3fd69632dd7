//! Walks through the choices of an activity and of its sources.
ghost use Rattle.std.specs.Prelude.{◌≡◌, ℕ, ◌+◌, ◌++◌, ◌<◌, true, IfOk, IfSome, OnOk, OnErr, length, drop, map, slice_get, [], IsTrue};
ghost use Rattle.pst_model.specs.ModelView.{view_model};
ghost use Rattle.pst_model.specs.Served.{IsInOrder};
ghost use Rattle.pst_legal.specs.ValueReading.{answer_of};
ghost use Rattle.pst_field_places.specs.Places.{IsFieldPlace};
ghost use Rattle.pst_open_ends.specs.Changes.{opened};
ghost use Rattle.pst_shape.specs.Walks.{next_of, IfRead, HasDigit};
ghost use Rattle.pst_shape.specs.Walks.{answer as shape_answer};
ghost use Rattle.pst_link_walk.specs.Walks.{with_choice, tree_reading, reading, answer, IsUsed, AtEnd, HasTree};
ghost use Rattle.pst_link_walk.specs.Made.{shape_of, IsInside, Begins, Goes};
ghost use Rattle.pst_link_walk.specs.Opened.{IsOptions};
ghost use Rattle.pst_link_walk.specs.News.{IsSize, IsNews, OpensFrom, AreChanged, act_of, far_act};

use pst_base::NoMemory;
use pst_copies::{copy_act, copy_acts};
use pst_field_places::FieldPlace;
use pst_model::Model;
use pst_open_ends::{Change, Relinked, open_leaves, serves_in_order};
use pst_scen::{Act, Next, Node};
use pst_shape::Walk;
use pst_supply::SupplyWalk;
use std::alloc::Global;
use std::mem;

// The walk over the sources, where the activity is read through. `in_order`: the entries for what serves
// references stand in order.
fn begin<'a>(
    alloc: Global,
    model: &'a Model,
    in_order: bool,
    shape: &Walk<'a>,
    root: u32,
    seed: u64,
    place: u64,
    level: u32,
) -> Result<Option<SupplyWalk<'a>>, NoMemory>
    requires order { IsTrue in_order → IsInOrder (view_model model.now).served }
    requires shape { shape.now ≡ shape_of model.now root seed shape.now.choices }
    requires place { place ≡ length shape.now.choices }
    requires used { IsUsed (tree_reading model.now root seed level shape.now.choices) }
    ensures { IfOk result (λ supply. Begins model.now root seed level shape.now.choices supply) }
{
    match shape.next() {
        Next::Whole => {
            let supply = SupplyWalk::with_order(
                alloc,
                model,
                in_order,
                shape.nodes(),
                shape.leaves(),
                seed,
                place,
                level,
            )?;
            Ok(Some(supply))
        }
        _ => Ok(None),
    }
}

// So many, and so many more.
fn sum(count: u64, more: u64) -> Result<u64, NoMemory>
    ensures { IfOk result (λ n. n ≡ count + more) }
{
    match count.checked_add(more) {
        None => Err(NoMemory),
        Some(all) => Ok(all),
    }
}

// Makes a choice of the activity, and goes on to the sources where that reads it through.
fn choose_shape<'a>(
    alloc: Global,
    model: &'a Model,
    in_order: bool,
    shape: &mut Walk<'a>,
    root: u32,
    seed: u64,
    made: u64,
    level: u32,
    digit: u64,
) -> Result<Option<SupplyWalk<'a>>, NoMemory>
    requires order { IsTrue in_order → IsInOrder (view_model model.now).served }
    requires shape { shape.old ≡ shape_of model.now root seed shape.old.choices }
    requires made { made ≡ length shape.old.choices + 1 }
    requires inside { IsInside (tree_reading model.now root seed level shape.old.choices) }
    requires digit { HasDigit (answer_of (tree_reading model.now root seed level shape.old.choices)) digit }
    ensures ok { IfOk result (λ supply. Goes model.now root seed level shape.old.choices digit shape.new supply) }
    ensures err { OnErr result (shape.new ≡ shape.old) }
{
    let _stands = shape.next();
    shape.choose(digit)?;
    match begin(alloc, model, in_order, shape, root, seed, made, level) {
        Ok(supply) => Ok(supply),
        Err(error) => {
            shape.back();
            Err(error)
        }
    }
}

// The leaves from a number on, with open references.
fn growth(
    alloc: Global,
    model: &Model,
    in_order: bool,
    leaves: &[Act],
    size: Option<usize>,
) -> Result<Option<Vec<Act>>, NoMemory>
    requires { IsTrue in_order → IsInOrder (view_model model.now).served }
    ensures { IfOk result (λ acts. OpensFrom (view_model model.now) leaves.now size acts) }
{
    let Some(size) = size else {
        return Ok(None);
    };
    if size > leaves.len() {
        return Ok(None);
    }
    let acts = open_leaves(alloc, model, in_order, &leaves[size..])?;
    Ok(Some(acts))
}

// Adds a copy of the action of that number.
fn add_act(alloc: Global, found: &mut Vec<Act>, acts: &[Act], number: usize) -> Result<(), NoMemory>
    ensures { OnOk result (found.new.items ≡ found.old.items ++ act_of (slice_get acts.now number)) }
{
    match acts.get(number) {
        None => Ok(()),
        Some(act) => {
            found.push(copy_act(alloc, act)?)?;
            Ok(())
        }
    }
}

// Adds a copy of the action at the other end of a stream.
fn add_far(
    alloc: Global,
    found: &mut Vec<Act>,
    acts: &[Act],
    far: Option<Relinked>,
) -> Result<(), NoMemory>
    ensures { OnOk result (found.new.items ≡ found.old.items ++ far_act acts.now far) }
{
    match far {
        None => Ok(()),
        Some(far) => add_act(alloc, found, acts, far.act),
    }
}

// Copies of all actions that a change made or linked.
fn changed(alloc: Global, acts: &[Act], change: &Change) -> Result<Option<Vec<Act>>, NoMemory>
    ensures { IfOk result (λ found. AreChanged change.now acts.now found) }
{
    if change.count > acts.len() {
        return Ok(None);
    }
    let mut found = copy_acts(alloc, &acts[change.count..])?;
    add_act(alloc, &mut found, acts, change.ends.need.act)?;
    add_far(alloc, &mut found, acts, change.ends.far)?;
    Ok(Some(found))
}

// Whether the activity has a next place.
fn is_at_place(shape: &Walk<'_>) -> bool
    ensures { (level : ℕ) → result ≡ true → IsOptions (shape_answer shape.now level) }
{
    match shape.next() {
        Next::Options(_) => true,
        _ => false,
    }
}

// These actions, and then those.
fn joined(kept: Vec<Act>, more: Vec<Act>) -> Result<Vec<Act>, NoMemory>
    ensures { IfOk result (λ acts. acts.items ≡ kept.items ++ more.items) }
{
    let mut acts = kept;
    let mut more = more;
    acts.append(&mut more)?;
    Ok(acts)
}

// The leaves with open references, of which the first are kept.
fn opened_on(
    alloc: Global,
    model: &Model,
    in_order: bool,
    leaves: &[Act],
    kept: Vec<Act>,
) -> Result<Vec<Act>, NoMemory>
    requires { IsTrue in_order → IsInOrder (view_model model.now).served }
    ensures { IfOk result (λ acts. acts.items ≡ kept.items ++ drop (length kept.items) (map (opened (view_model model.now)) leaves.now)) }
{
    let count = kept.len();
    if count > leaves.len() {
        return Ok(kept);
    }
    let more = open_leaves(alloc, model, in_order, &leaves[count..])?;
    let acts = joined(kept, more)?;
    Ok(acts)
}

/// A walk through the lists of choices that fill an activity and give its needs their sources. Contracts
/// see its model, its root, its seed, its level and its choices.
#[derive(Drop)]
pub struct LinkWalk<'a> {
    alloc: Global,
    model: &'a Model,
    in_order: bool,
    root: u32,
    seed: u64,
    level: u32,
    shape: Walk<'a>,
    made: u64,
    supply: Option<SupplyWalk<'a>>,
    linked: u64,
    opened: Vec<Act>,
}

impl<'a> std::marker::Model for LinkWalk<'a> {
    ghost use Rattle.pst_link_walk.specs.Walks.{Kept};
    ghost use Rattle.pst_link_walk.specs.Made.{kept_by, IsKept};
    ghost use Rattle.std.specs.Coded.{codes};
    ghost use Rattle.pst_model.specs.contracts.activity.Step as the_step;
    ghost use Rattle.pst_model.specs.contracts.body.BodyStep as the_body_step;
    ghost use Rattle.pst_model.specs.contracts.constraint.Slot as the_slot;
    ghost use Rattle.pst_expr.specs.contracts.tree.Expr as the_expr;

    ghost Value = { Kept };

    ghost coded = { Prim.hlevel (codes, the_step.the_row.coded, the_body_step.the_row.coded, the_slot.the_row.coded, the_expr.the_row.coded) };

    ghost view = { kept_by };

    ghost invariant = { IsKept };
}

impl<'a> LinkWalk<'a> {
    /// The walk without a choice. The root is the number of an action type.
    pub fn new(
        alloc: Global,
        model: &'a Model,
        root: u32,
        seed: u64,
        level: u32,
    ) -> Result<LinkWalk<'a>, NoMemory>
        ensures { IfOk result (λ w. w ≡ record { model = model.now; root = root; seed = seed; level = level; choices = [] }) }
    {
        let in_order = serves_in_order(model);
        let shape = Walk::new(alloc, model, root, seed)?;
        let supply = begin(alloc, model, in_order, &shape, root, seed, 0, level)?;
        let opened = Vec::new(alloc);
        Ok(LinkWalk {
            alloc,
            model,
            in_order,
            root,
            seed,
            level,
            shape,
            made: 0,
            supply,
            linked: 0,
            opened,
        })
    }

    /// What is read is of the level and has no first objects. At the end no choice is left behind the last
    /// place, whose number counts the choices.
    pub fn ends(&self)
        ensures { AtEnd self.now (reading self.now) }
    {
        let _ = &self.made;
    }

    /// What the walk stands at: a place with so many options, the end, or a dead end.
    pub fn next(&self) -> Next
        ensures { result ≡ next_of (answer self.now) }
    {
        match &self.supply {
            None => self.shape.next(),
            Some(supply) => supply.next(),
        }
    }

    /// How many choices there are.
    pub fn count(&self) -> Result<u64, NoMemory>
        ensures { IfOk result (λ n. n ≡ length self.now.choices) }
    {
        let count = sum(self.made, self.linked)?;
        Ok(count)
    }

    /// Whether the activity is read through, so that sources are being chosen or have been.
    pub fn is_behind(&self) -> bool
        ensures { result ≡ true → HasTree self.now }
    {
        match &self.supply {
            None => false,
            Some(_supply) => true,
        }
    }

    /// How many sources are chosen.
    pub fn sources(&self) -> u64 {
        self.linked
    }

    /// The nodes so far, in preorder.
    pub fn nodes(&self) -> &[Node]
        ensures { IfRead (answer self.now) (λ s. result.now ≡ s.nodes) }
    {
        self.shape.nodes()
    }

    /// The place at hand, where a field of a compound action is given its value there.
    pub fn field(&self) -> Option<FieldPlace<'a>>
        ensures { IfSome result (λ place. IsFieldPlace (view_model self.now.model) self.now.root self.now.seed self.now.level self.now.choices place) }
    {
        match &self.supply {
            None => self.shape.field(),
            Some(_) => None,
        }
    }

    /// The actions so far with their links, in a copy. What isn't read yet is empty.
    pub fn acts(&self) -> Result<Vec<Act>, NoMemory>
        ensures { IfOk result (λ acts. IfRead (answer self.now) (λ s. acts.items ≡ s.actions)) }
    {
        match &self.supply {
            None => {
                let acts = open_leaves(self.alloc, self.model, self.in_order, self.shape.leaves())?;
                Ok(acts)
            }
            Some(supply) => {
                let acts = copy_acts(self.alloc, supply.actions())?;
                Ok(acts)
            }
        }
    }

    /// Opens the references of the actions so far, while the activity is being read, so that `opened` has
    /// them. Those that were opened before, and stand as they stood, are kept.
    pub fn open(&mut self) -> Result<(), NoMemory>
        ensures { self.new ≡ self.old }
    {
        if !is_at_place(&self.shape) {
            return Ok(());
        }
        let kept = mem::replace(&mut self.opened, Vec::new(self.alloc));
        self.opened = opened_on(
            self.alloc,
            self.model,
            self.in_order,
            self.shape.leaves(),
            kept,
        )?;
        Ok(())
    }

    /// The actions so far with their links, where they are kept.
    pub fn opened(&self) -> Option<&[Act]>
        ensures { IfSome result (λ acts. IfRead (answer self.now) (λ s. acts.now ≡ s.actions)) }
    {
        match &self.supply {
            None => {
                if self.opened.len() != self.shape.leaves().len() {
                    return None;
                }
                Some(&self.opened)
            }
            Some(supply) => Some(supply.actions()),
        }
    }

    /// How many actions there are so far, while the activity is being read.
    pub fn size(&self) -> Option<usize>
        ensures { IsSize self.now result }
    {
        match &self.supply {
            None => Some(self.shape.leaves().len()),
            Some(_) => None,
        }
    }

    /// The actions that the last choice made or linked, in a copy; `size` is how many there were before,
    /// while the activity was being read. Nothing where they aren't known.
    pub fn news(&self, size: Option<usize>) -> Result<Option<Vec<Act>>, NoMemory>
        ensures { IfOk result (λ acts. IsNews self.now size acts) }
    {
        match &self.supply {
            None => {
                let acts = growth(
                    self.alloc,
                    self.model,
                    self.in_order,
                    self.shape.leaves(),
                    size,
                )?;
                Ok(acts)
            }
            Some(supply) => match supply.change() {
                None => {
                    let acts = growth(
                        self.alloc,
                        self.model,
                        self.in_order,
                        self.shape.leaves(),
                        size,
                    )?;
                    Ok(acts)
                }
                Some(change) => {
                    let acts = changed(self.alloc, supply.actions(), &change)?;
                    Ok(acts)
                }
            },
        }
    }

    /// Makes a choice at the place where the walk stands.
    pub fn choose(&mut self, digit: u64) -> Result<(), NoMemory>
        requires { HasDigit (answer self.old) digit }
        ensures ok { OnOk result (self.new ≡ with_choice self.old digit) }
        ensures err { OnErr result (self.new ≡ self.old) }
    {
        match &mut self.supply {
            Some(supply) => {
                let linked = sum(self.linked, 1)?;
                supply.choose(digit)?;
                self.linked = linked;
                Ok(())
            }
            None => {
                let made = sum(self.made, 1)?;
                let leaves = self.shape.leaves().len();
                let supply = choose_shape(
                    self.alloc,
                    self.model,
                    self.in_order,
                    &mut self.shape,
                    self.root,
                    self.seed,
                    made,
                    self.level,
                    digit,
                )?;
                self.opened.truncate(leaves);
                self.supply = supply;
                self.made = made;
                Ok(())
            }
        }
    }

    /// Takes the last choice back.
    pub fn back(&mut self)
        requires { 0 < length self.old.choices }
        ensures { (digit : ℕ) × (self.old ≡ with_choice self.new digit) }
    {
        if self.linked > 0 {
            let Some(supply) = &mut self.supply else {
                unreachable!();
            };
            supply.back();
            self.linked -= 1;
            return;
        }
        self.shape.back();
        self.made -= 1;
        self.supply = None;
    }
}
