//! Walks through whole lists of choices.
ghost use Rattle.std.specs.Prelude.{◌≡◌, ℕ, ◌+◌, ◌<◌, ◌≤◌, true, false, IfOk, IfSome, OnOk, OnErr, length, []};
ghost use Rattle.pst_rng.specs.Words.{start_of};
ghost use Rattle.pst_model.specs.ModelView.{view_model};
ghost use Rattle.pst_model.specs.Sound.{IsSound};
ghost use Rattle.pst_field_places.specs.Places.{IsFieldPlace};
ghost use Rattle.pst_shape.specs.Walks.{next_of, IfRead, HasDigit};
ghost use Rattle.pst_link_walk.specs.Walks.{Kept, with_choice};
ghost use Rattle.pst_link_walk.specs.Walks.{answer as link_answer};
ghost use Rattle.pst_plan_so_far.specs.Laws.{ReadsSources};
ghost use Rattle.pst_order_ahead.specs.LaidOut.{ReadsTree};
ghost use Rattle.pst_refusals.specs.Answers.{StandEarlier, TellsRefusals};
ghost use Rattle.pst_refusals.specs.Inlines.{has_inlines};
ghost use Rattle.pst_legal.specs.First.{NoneRefused};
ghost use Rattle.pst_new_refusals.specs.Far.{AreFarOf};
ghost use Rattle.pst_new_refusals.specs.Newly.{AreGiven, StaysFree};
ghost use Rattle.pst_list_walk.specs.Walks.{answer, IsRead, HasFront, HasValue, HasDomain};
ghost use Rattle.pst_list_walk.specs.Made.{kept_at, linked_of, Begins, Goes};
ghost use Rattle.pst_list_walk.specs.Free.{IfPlace, IsFreed, Frees};

use pst_base::{Items, NoMemory};
use pst_blanks::Blank;
use pst_copies::copy_nodes;
use pst_expr::Domain;
use pst_field_places::FieldPlace;
use pst_known::Scene;
use pst_link_walk::LinkWalk;
use pst_model::Model;
use pst_new_refusals::{FarTypes, far_types, some_newly_refused};
use pst_read_domains::nodes_stand_for_pieces;
use pst_refusals::{has_inlines, some_refused};
use pst_rng::start;
use pst_scen::{Act, First, Next, Node, Scenario};
use pst_value_walk::ValueWalk;
use std::alloc::Global;

// How many nodes are so few that the order is judged at each link.
const FEW_NODES: usize = 512;

// How many nodes are so many that it is judged behind the sources alone.
const MANY_NODES: usize = 4096;

// How many links are so few that the order of more nodes isn't judged yet.
const FEW_LINKS: u64 = 32;

// Whether the order is to be judged at so many nodes and links: at each link where there are few nodes, and where there
// are more, as often as there are twice as many links.
fn is_to_be_judged(nodes: usize, links: u64) -> bool {
    if nodes <= FEW_NODES {
        return true;
    }
    nodes <= MANY_NODES && links >= FEW_LINKS && links & (links - 1) == 0
}

// What the sources came to, in a copy.
fn copy_linked(alloc: Global, links: &LinkWalk<'_>, level: u32) -> Result<Scenario, NoMemory>
    ensures { IfOk result (λ s. IfRead (link_answer links.now) (λ t. s ≡ linked_of level t)) }
{
    let acts = links.acts()?;
    let nodes = copy_nodes(alloc, links.nodes())?;
    Ok(Scenario {
        level,
        nodes: Items::from_vec(nodes),
        actions: Items::from_vec(acts),
        firsts: Items::empty(alloc),
    })
}

// The walk over claims and values, where the sources are read through.
fn begin<'a>(
    alloc: Global,
    model: &'a Model,
    links: &LinkWalk<'a>,
    root: u32,
    seed: u64,
    level: u32,
) -> Result<Option<ValueWalk<'a>>, NoMemory>
    requires { links.now ≡ kept_at model.now root seed level links.now.choices }
    ensures { IfOk result (λ values. Begins model.now root seed level links.now.choices values) }
{
    links.ends();
    match links.next() {
        Next::Whole => {
            let linked = copy_linked(alloc, links, level)?;
            let place = links.count()?;
            let values = ValueWalk::new(alloc, model, linked, seed, place)?;
            Ok(Some(values))
        }
        _ => Ok(None),
    }
}

// Whether a constraint of a scenario is refused at what is known of it.
fn refused_in(
    alloc: Global,
    model: &Model,
    level: u32,
    nodes: &[Node],
    actions: &[Act],
    firsts: &[First],
) -> Result<bool, NoMemory>
    requires sound { IsSound (view_model model.now) }
    requires earlier { StandEarlier nodes.now }
    ensures { IfOk result (λ r. TellsRefusals (view_model model.now) (record { level = level; nodes = nodes.now; actions = actions.now; firsts = firsts.now }) r) }
{
    let scene = Scene {
        model,
        level,
        nodes,
        actions,
        firsts,
    };
    some_refused(alloc, &scene)
}

// Whether a constraint of the scenario is refused.
fn refused_of(alloc: Global, model: &Model, scenario: &Scenario) -> Result<bool, NoMemory>
    requires sound { IsSound (view_model model.now) }
    requires earlier { StandEarlier scenario.now.nodes }
    ensures { IfOk result (λ r. TellsRefusals (view_model model.now) scenario.now r) }
{
    let nodes = scenario.nodes.as_slice();
    let actions = scenario.actions.as_slice();
    let firsts = scenario.firsts.as_slice();
    let refused = refused_in(alloc, model, scenario.level, nodes, actions, firsts)?;
    Ok(refused)
}

// So many, and so many more.
fn sum(count: u64, more: u64) -> Result<u64, NoMemory>
    ensures { IfOk result (λ n. n ≡ count + more) }
{
    match count.checked_add(more) {
        None => Err(NoMemory),
        Some(all) => Ok(all),
    }
}

// So many, as a number of places in memory.
fn in_memory(count: u64) -> Result<usize, NoMemory>
    ensures { IfOk result (λ n. n ≡ count) }
{
    match usize::try_from(count) {
        Ok(count) => Ok(count),
        Err(_) => Err(NoMemory),
    }
}

// Makes a choice of the activity or of a source, and goes on to the values behind the last source.
fn choose_link<'a>(
    alloc: Global,
    model: &'a Model,
    links: &mut LinkWalk<'a>,
    root: u32,
    seed: u64,
    level: u32,
    digit: u64,
) -> Result<Option<ValueWalk<'a>>, NoMemory>
    requires links { links.old ≡ kept_at model.now root seed level links.old.choices }
    requires digit { HasDigit (link_answer links.old) digit }
    ensures ok { IfOk result (λ values. Goes model.now root seed level links.old.choices digit links.new values) }
    ensures err { OnErr result (links.new ≡ links.old) }
{
    links.choose(digit)?;
    match begin(alloc, model, links, root, seed, level) {
        Ok(values) => Ok(values),
        Err(error) => {
            links.back();
            Err(error)
        }
    }
}

// Whether nothing is read yet, so that no constraint is refused.
fn is_nothing(links: &LinkWalk<'_>) -> bool
    ensures { result ≡ true → IfPlace (link_answer links.now) (NoneRefused (view_model links.now.model)) }
{
    let Some(size) = links.size() else {
        return false;
    };
    if size > 0 {
        return false;
    }
    let nodes = links.nodes().len();
    if nodes > 0 {
        return false;
    }
    true
}

// How many beginnings of the list without a choice are known to refuse no constraint.
fn first_free(links: &LinkWalk<'_>) -> u64
    ensures few { result ≤ 1 }
    ensures free { 0 < result → IfPlace (link_answer links.now) (NoneRefused (view_model links.now.model)) }
{
    if is_nothing(links) { 1 } else { 0 }
}

// Whether nothing new is refused, as far as there is memory to tell.
fn is_unrefused(
    alloc: Global,
    model: &Model,
    far: &FarTypes,
    inlines: bool,
    nodes: &[Node],
    actions: &[Act],
    from: usize,
    fresh: &[Act],
) -> bool
    requires sound { IsSound (view_model model.now) }
    requires far { AreFarOf (view_model model.now) far.now }
    requires inlines { inlines ≡ false → has_inlines (view_model model.now) ≡ false }
    requires earlier { StandEarlier nodes.now }
    ensures { result ≡ true → StaysFree (view_model model.now) far.now.some nodes.now actions.now from fresh.now }
{
    match some_newly_refused(alloc, model, far, inlines, nodes, actions, from, fresh) {
        Ok(refused) => !refused,
        Err(_) => false,
    }
}

// Keeps the actions so far with open references, where some constraint looks behind a handle.
fn keep_acts(links: &mut LinkWalk<'_>, far: bool)
    ensures { links.new ≡ links.old }
{
    if far {
        // where memory is short they aren't kept
        let _ = links.open();
    }
}

// The actions so far, where some constraint looks behind a handle.
fn given_acts<'a>(links: &'a LinkWalk<'_>, far: bool) -> Option<&'a [Act]>
    ensures { IfSome result (λ acts. IfRead (link_answer links.now) (AreGiven far acts.now)) }
{
    if !far {
        return Some(&[]);
    }
    match links.opened() {
        None => None,
        Some(acts) => Some(acts),
    }
}

// Whether the list is known to refuse no constraint, where it is known that the one without the last
// choice refused none, of so many choices, and so many nodes and actions. Only what is new is looked at,
// and what stands above it; nothing at a dead end and behind the last source.
fn is_freed(
    alloc: Global,
    model: &Model,
    links: &LinkWalk<'_>,
    far: &FarTypes,
    inlines: bool,
    free: u64,
    count: u64,
    size: Option<usize>,
    nodes: usize,
) -> bool
    requires sound { IsSound (view_model model.now) }
    requires far { AreFarOf (view_model model.now) far.now }
    requires inlines { inlines ≡ false → has_inlines (view_model model.now) ≡ false }
    ensures { result ≡ true → (root seed level digit : ℕ) → IsFreed model.now root seed level digit size nodes links.now }
{
    nodes_stand_for_pieces();
    if free <= count {
        return false;
    }
    let Next::Options(_count) = links.next() else {
        return false;
    };
    let Ok(news) = links.news(size) else {
        return false;
    };
    let Some(fresh) = news else {
        return false;
    };
    let Some(acts) = given_acts(links, far.some) else {
        return false;
    };
    let from = nodes.saturating_sub(1);
    is_unrefused(
        alloc,
        model,
        far,
        inlines,
        links.nodes(),
        acts,
        from,
        &fresh,
    )
}

// How many beginnings are known to refuse no constraint behind one choice more than `count`.
fn free_behind(free: u64, count: u64, is_freed: bool) -> u64
    ensures { Frees free count is_freed result }
{
    if !is_freed {
        return free;
    }
    if free <= count {
        return free;
    }
    match count.checked_add(2) {
        Some(more) => more,
        None => free,
    }
}

// The lesser of two numbers.
fn least(a: u64, b: u64) -> u64
    ensures first { result ≤ a }
    ensures second { result ≤ b }
{
    if a < b { a } else { b }
}

// Whether the blank is the instance of a claim.
fn is_instance(blank: Option<Blank>) -> bool {
    match blank {
        Some(Blank::Instance { .. }) => true,
        _ => false,
    }
}

/// A walk through whole lists of choices. Contracts see its model, its root, its seed, its level and its
/// choices.
#[derive(Drop)]
pub struct ListWalk<'a> {
    alloc: Global,
    model: &'a Model,
    root: u32,
    seed: u64,
    level: u32,
    links: LinkWalk<'a>,
    linked: u64,
    values: Option<ValueWalk<'a>>,
    valued: u64,
    far: FarTypes,
    inlines: bool,
    free: u64,
}

impl<'a> std::marker::Model for ListWalk<'a> {
    ghost use Rattle.pst_link_walk.specs.Walks.{Kept};
    ghost use Rattle.pst_list_walk.specs.Made.{kept_by, IsKept};
    ghost use Rattle.std.specs.Coded.{codes};
    ghost use Rattle.pst_model.specs.contracts.activity.Step as the_step;
    ghost use Rattle.pst_model.specs.contracts.body.BodyStep as the_body_step;
    ghost use Rattle.pst_model.specs.contracts.constraint.Slot as the_slot;
    ghost use Rattle.pst_expr.specs.contracts.tree.Expr as the_expr;

    ghost Value = { Kept };

    ghost coded = { Prim.hlevel (codes, the_step.the_row.coded, the_body_step.the_row.coded, the_slot.the_row.coded, the_expr.the_row.coded) };

    ghost view = { kept_by };

    ghost invariant = { IsKept };
}

impl<'a> ListWalk<'a> {
    /// The walk without a choice. The root is the number of an action type.
    pub fn new(
        alloc: Global,
        model: &'a Model,
        root: u32,
        seed: u64,
        level: u32,
    ) -> Result<ListWalk<'a>, NoMemory>
        requires { IsSound (view_model model.now) }
        ensures { IfOk result (λ w. w ≡ kept_at model.now root seed level []) }
    {
        let far = far_types(alloc, model)?;
        let inlines = has_inlines(model);
        let links = LinkWalk::new(alloc, model, root, seed, level)?;
        let values = begin(alloc, model, &links, root, seed, level)?;
        let free = first_free(&links);
        Ok(ListWalk {
            alloc,
            model,
            root,
            seed,
            level,
            links,
            linked: 0,
            values,
            valued: 0,
            far,
            inlines,
            free,
        })
    }

    /// The model.
    pub fn model(&self) -> &'a Model
        ensures { result.now ≡ self.now.model }
    {
        self.model
    }

    /// Goes to the walk without a choice of another level.
    pub fn restart(&mut self, level: u32) -> Result<(), NoMemory>
        ensures ok { OnOk result (self.new ≡ kept_at self.old.model self.old.root self.old.seed level []) }
        ensures err { OnErr result (self.new ≡ self.old) }
    {
        let walk = ListWalk::new(self.alloc, self.model, self.root, self.seed, level)?;
        *self = walk;
        Ok(())
    }

    /// What the walk stands at: a place with so many options, the end, or a dead end.
    pub fn next(&self) -> Next
        ensures { result ≡ next_of (answer self.now) }
    {
        match &self.values {
            None => self.links.next(),
            Some(values) => values.next(),
        }
    }

    /// How many choices there are.
    pub fn count(&self) -> Result<usize, NoMemory>
        ensures { IfOk result (λ n. n ≡ length self.now.choices) }
    {
        let links = self.links.count()?;
        let count = sum(links, self.valued)?;
        let places = in_memory(count)?;
        Ok(places)
    }

    /// How many choices read the activity and the sources, where these are read through.
    pub fn front(&self) -> Result<Option<usize>, NoMemory>
        ensures { IfOk result (λ o. IfSome o (λ n. HasFront self.now n)) }
    {
        self.links.ends();
        match &self.values {
            None => Ok(None),
            Some(_values) => {
                let links = self.links.count()?;
                let count = in_memory(links)?;
                Ok(Some(count))
            }
        }
    }

    /// Behind the sources, the value of the option that a digit names of the blank at hand: of a claim the number of
    /// the instance. Nothing before, and where that is no value.
    pub fn value(&self, digit: u64) -> Option<i64>
        requires { HasDigit (answer self.now) digit }
        ensures { IfSome result (λ v. HasValue self.now digit v) }
    {
        self.links.ends();
        match &self.values {
            None => None,
            Some(values) => values.value(digit),
        }
    }

    /// Behind the sources, the values that the blank at hand may have, in ascending order. Nothing before, for the
    /// instance of a claim, and at the end.
    pub fn domain(&self) -> Option<&'a Domain>
        ensures { IfSome result (λ domain. HasDomain self.now domain.now) }
    {
        self.links.ends();
        match &self.values {
            None => None,
            Some(values) => values.domain(),
        }
    }

    /// The model is sound.
    pub fn model_is_sound(&self)
        ensures { IsSound (view_model self.now.model) }
    {
        let _ = &self.model;
    }

    /// The place at hand, where a field of a compound action is given its value there.
    pub fn field(&self) -> Option<FieldPlace<'a>>
        ensures { IfSome result (λ place. IsFieldPlace (view_model self.now.model) self.now.root self.now.seed self.now.level self.now.choices place) }
    {
        match &self.values {
            None => self.links.field(),
            Some(_) => None,
        }
    }

    /// Where the seed begins among so many options of the place at hand.
    pub fn start(&self, count: u64) -> Result<u64, NoMemory>
        requires { 0 < count }
        ensures { IfOk result (λ s. s ≡ start_of self.now.seed (length self.now.choices) count) }
    {
        let place = self.count()?;
        Ok(start(self.seed, place as u64, count))
    }

    /// Makes a choice at the place where the walk stands.
    pub fn choose(&mut self, digit: u64) -> Result<(), NoMemory>
        requires { HasDigit (answer self.old) digit }
        ensures ok { OnOk result (self.new ≡ with_choice self.old digit) }
        ensures err { OnErr result (self.new ≡ self.old) }
    {
        match &mut self.values {
            Some(values) => {
                let valued = sum(self.valued, 1)?;
                values.choose(digit)?;
                self.valued = valued;
                Ok(())
            }
            None => {
                let linked = sum(self.linked, 1)?;
                let size = self.links.size();
                let nodes = self.links.nodes().len();
                let values = choose_link(
                    self.alloc,
                    self.model,
                    &mut self.links,
                    self.root,
                    self.seed,
                    self.level,
                    digit,
                )?;
                self.values = values;
                keep_acts(&mut self.links, self.far.some);
                let is_freed = is_freed(
                    self.alloc,
                    self.model,
                    &self.links,
                    &self.far,
                    self.inlines,
                    self.free,
                    self.linked,
                    size,
                    nodes,
                );
                self.free = free_behind(self.free, self.linked, is_freed);
                self.linked = linked;
                Ok(())
            }
        }
    }

    /// Takes the last choice back.
    pub fn back(&mut self)
        requires { 0 < length self.old.choices }
        ensures { (digit : ℕ) × (self.old ≡ with_choice self.new digit) }
    {
        if self.valued > 0 {
            let Some(values) = &mut self.values else {
                unreachable!();
            };
            values.back();
            self.valued -= 1;
            return;
        }
        self.links.back();
        self.values = None;
        self.free = least(self.free, self.linked);
        self.linked = self.linked.saturating_sub(1);
    }

    /// Whether the claims have just been read through: the last choice is the instance of one, and the blank at hand is one
    /// for a value.
    pub fn is_just_behind_claims(&self) -> bool {
        match &self.values {
            None => false,
            Some(values) => is_instance(values.filled()) && values.domain().is_some(),
        }
    }

    /// The scenario so far, where the sources are read through.
    pub fn scenario(&self) -> Option<&Scenario>
        ensures read { IfSome result (λ t. IfRead (answer self.now) (λ s. t.now ≡ s)) }
        ensures sources { IfSome result (λ t. ReadsSources (view_model self.now.model) self.now.root self.now.seed self.now.level self.now.choices) }
    {
        match &self.values {
            None => None,
            Some(values) => Some(values.scenario()),
        }
    }

    /// The scenario so far, in a copy, where its activity is read through and its sources are being linked. It is given
    /// where its order is to be judged: at each link where there are few nodes, and where there are more, as often as
    /// there are twice as many links.
    pub fn linking(&self) -> Result<Option<Scenario>, NoMemory>
        ensures read { IfOk result (λ o. IfSome o (λ t. IfRead (answer self.now) (λ s. t ≡ s))) }
        ensures tree { IfOk result (λ o. IfSome o (λ t. ReadsTree (view_model self.now.model) self.now.root self.now.seed self.now.level self.now.choices)) }
    {
        match &self.values {
            Some(_) => Ok(None),
            None => {
                if !self.links.is_behind() {
                    return Ok(None);
                }
                if !is_to_be_judged(self.links.nodes().len(), self.links.sources()) {
                    return Ok(None);
                }
                self.links.ends();
                let linked = copy_linked(self.alloc, &self.links, self.level)?;
                Ok(Some(linked))
            }
        }
    }

    /// The scenario so far, in a copy, where the sources aren't read through.
    pub fn so_far(&self) -> Result<Option<Scenario>, NoMemory>
        ensures { IfOk result (λ o. IfSome o (λ t. IfRead (answer self.now) (λ s. t ≡ s))) }
    {
        match &self.values {
            Some(_) => Ok(None),
            None => {
                self.links.ends();
                let linked = copy_linked(self.alloc, &self.links, self.level)?;
                Ok(Some(linked))
            }
        }
    }

    /// Whether a constraint of what the list has read is refused at what is known.
    pub fn some_refused(&self) -> Result<bool, NoMemory>
        requires sound { IsSound (view_model self.now.model) }
        requires read { IsRead (answer self.now) }
        ensures { IfOk result (λ r. IfRead (answer self.now) (λ s. TellsRefusals (view_model self.now.model) s r)) }
    {
        nodes_stand_for_pieces();
        match &self.values {
            None => {
                if self.linked < self.free {
                    return Ok(false);
                }
                self.links.ends();
                let acts = self.links.acts()?;
                let nodes = self.links.nodes();
                let refused = refused_in(self.alloc, self.model, self.level, nodes, &acts, &[])?;
                Ok(refused)
            }
            Some(values) => {
                let refused = refused_of(self.alloc, self.model, values.scenario())?;
                Ok(refused)
            }
        }
    }
}
