//! Walks through the choices of sources.
ghost use Rattle.std.specs.Prelude.{◌≡◌, ℕ, ◌+◌, ◌<◌, ◌≤◌, IfOk, OnOk, OnErr, length, take, reverse, slice_get, Some, [], is_some, IsTrue};
ghost use Rattle.pst_rng.specs.Words.{start_of};
ghost use Rattle.std.specs.Option.{option_map};
ghost use Rattle.std.specs.List.{find};
ghost use Rattle.pst_model.specs.ModelView.{view_model};
ghost use Rattle.pst_model.specs.Served.{IsInOrder};
ghost use Rattle.pst_legal.specs.SupplyReading.{next_need, same_link, spots};
ghost use Rattle.pst_legal.specs.Reading.{option_at};
ghost use Rattle.pst_pool_sources.specs.Offers.{AreSources, room_at};
ghost use Rattle.pst_open_ends.specs.Spots.{read_spot, kept_spot, given_source, given_sources};
ghost use Rattle.pst_open_ends.specs.Options.{new_sources_if};
ghost use Rattle.pst_open_ends.specs.Beyond.{AreNew};
ghost use Rattle.pst_open_ends.specs.Changes.{ends_undone, undone};
ghost use Rattle.pst_free_ends.specs.Steps.{IsTurn, NoneAhead, Follows, HasRoom, IsStep};
ghost use Rattle.pst_scen.specs.declared.act.Flow.{Flow as the_flow};
ghost use Rattle.pst_scen.specs.declared.act.Link.TheVariants as link;
ghost use Rattle.pst_open_ends.specs.Turns.{turns, AreDone, IsDoneBefore, AreNexts};
ghost use Rattle.pst_supply.specs.Walks.{with_choice, answer, next_of, IfRead, HasDigit, IsChange};
ghost use Rattle.pst_supply.specs.Stops.{options_at, IsStop, stop_after, may_infer, shown_at};
ghost use Rattle.pst_supply.specs.Choices.{NamesSource, Advances, Begins, change_after};

use pst_base::NoMemory;
use pst_copies::{copy_acts, copy_nodes};
use pst_free_ends::{Taken, follow, leave};
use pst_model::Model;
use pst_open_ends::{
    Change, NewSources, Source, Spot, leaf_count, next_need, next_wanting, open_leaves,
    serves_in_order, sources, supply, take_back,
};
use pst_pool_sources::PoolSources;
use pst_rng::start;
use pst_scen::{Act, Flow, Link, Next, Node};
use pst_ties::Ties;
use std::alloc::Global;

const MOST_ACTS: usize = 16384;

/// Where reading stands: the need whose turn it is, and how many sources it may have.
#[derive(Clone, Copy, Debug, PartialEq, Eq)]
struct Stop {
    need: Option<Spot>,
    count: u64,
}

/// A choice, what it changed, and where reading stands after it.
#[derive(Clone, Copy, Debug, PartialEq, Eq)]
struct Made {
    digit: u64,
    change: Change,
    taken: Taken,
    stop: Stop,
}

// What a source changed, and where reading stands then.
#[derive(Clone, Copy, Debug, PartialEq, Eq)]
struct Went {
    change: Change,
    taken: Taken,
    stop: Stop,
}

// Whether one more action may be inferred.
fn may_infer(count: usize, leaves: usize, level: u32) -> bool
    ensures { result ≡ may_infer count leaves level }
{
    count.saturating_sub(leaves) < level as usize && count < MOST_ACTS
}

// The sources of a need among new actions, where there are so many actions.
fn new_options<'s>(
    beyond: &'s NewSources<'_>,
    count: usize,
    leaves: usize,
    need: &Spot,
) -> &'s [Source]
    requires { AreNew beyond.now }
    ensures { given_sources result.now ≡ new_sources_if (view_model beyond.now.model.now) (may_infer count leaves beyond.now.level) (read_spot need.now).filled }
{
    if may_infer(count, leaves, beyond.level) {
        return beyond.of_need(need.flow, need.pool);
    }
    &[]
}

// The sources of a need.
fn options(
    alloc: Global,
    beyond: &NewSources<'_>,
    ties: &Ties,
    acts: &[Act],
    among: &PoolSources,
    leaves: usize,
    need: &Spot,
) -> Result<Vec<Source>, NoMemory>
    requires beyond { AreNew beyond.now }
    requires among { AreSources among.now acts.now }
    ensures { IfOk result (λ found. given_sources found.items ≡ options_at (view_model beyond.now.model.now) ties.now acts.now leaves beyond.now.level need.now) }
{
    let new = new_options(beyond, acts.len(), leaves, need);
    let fixed = ties.fixed(need.act, need.reference, need.flow);
    let free = among.ends(need.flow, need.pool);
    let writers = among.ends(Flow::StateIn, need.pool);
    let begun = among.is_begun(need.pool);
    sources(alloc, acts, free, writers, begun, new, need, fixed)
}

// Where reading stands, where that need has the turn. Only where one has it the sources among new actions
// are looked at.
fn stop_at(
    alloc: Global,
    beyond: &NewSources<'_>,
    ties: &Ties,
    acts: &[Act],
    among: &PoolSources,
    leaves: usize,
    need: Option<Spot>,
) -> Result<Stop, NoMemory>
    requires next { need ≡ option_map kept_spot (find (turns ties.now) (spots acts.now)) }
    requires done { IsDoneBefore ties.now acts.now need }
    requires beyond { IsTrue (is_some need) → AreNew beyond.now }
    requires among { AreSources among.now acts.now }
    ensures stop { IfOk result (λ stop. IsStop (view_model beyond.now.model.now) ties.now acts.now leaves beyond.now.level stop) }
    ensures need { IfOk result (λ stop. stop.need ≡ need) }
{
    match need {
        None => Ok(Stop {
            need: None,
            count: 0,
        }),
        Some(need) => {
            let found = options(alloc, beyond, ties, acts, among, leaves, &need)?;
            Ok(Stop {
                need: Some(need),
                count: found.len() as u64,
            })
        }
    }
}

// Looks where reading stands, where no action below `from` has a turn.
fn look(
    alloc: Global,
    beyond: &NewSources<'_>,
    ties: &Ties,
    acts: &[Act],
    among: &PoolSources,
    leaves: usize,
    nexts: &[usize],
    from: usize,
) -> Result<Stop, NoMemory>
    requires nexts { AreNexts nexts.now acts.now }
    requires done { AreDone ties.now acts.now from }
    requires beyond { AreNew beyond.now }
    requires among { AreSources among.now acts.now }
    ensures { IfOk result (λ stop. IsStop (view_model beyond.now.model.now) ties.now acts.now leaves beyond.now.level stop) }
{
    let need = next_need(ties, acts, nexts, from);
    stop_at(alloc, beyond, ties, acts, among, leaves, need)
}

// The option that a digit names at a place with so many options.
fn option_from(start: u64, count: u64, digit: u64) -> u64
    requires { 0 < count }
    ensures option { result ≡ option_at start count digit }
    ensures in_range { result < count }
{
    ((u128::from(start) + u128::from(digit)) % u128::from(count)) as u64
}

// The number of the place behind so many choices.
fn place_after(place: u64, made: usize) -> Result<u64, NoMemory>
    ensures { IfOk result (λ p. p ≡ place + made) }
{
    match place.checked_add(made as u64) {
        Some(place) => Ok(place),
        None => Err(NoMemory),
    }
}

// The source that a digit names.
fn named(found: &[Source], seed: u64, place: u64, digit: u64) -> Source
    requires { digit < length found.now }
    ensures { slice_get found.now (option_at (start_of seed place (length found.now)) (length found.now) digit) ≡ Some result }
{
    let count = found.len() as u64;
    found[option_from(start(seed, place, count), count, digit) as usize]
}

// Where reading stands after the last of these choices.
fn stop_of(made: &[Made], first: Stop) -> Stop
    ensures { result ≡ stop_after first (reverse made.now) }
{
    match made.last() {
        Some(made) => made.stop,
        None => first,
    }
}

// What the last of these choices changed.
fn change_of(made: &[Made]) -> Option<Change>
    ensures { result ≡ change_after (reverse made.now) }
{
    match made.last() {
        Some(made) => Some(made.change),
        None => None,
    }
}

// What the walk stands at there.
fn next_at(stop: Stop, count: usize, leaves: usize, level: u32) -> Next
    ensures { result ≡ shown_at stop count leaves level }
{
    match stop.need {
        None => {
            if count.saturating_sub(leaves) == level as usize {
                return Next::Whole;
            }
            Next::Dead
        }
        Some(_) => {
            if stop.count == 0 {
                return Next::Dead;
            }
            Next::Options(stop.count)
        }
    }
}

// The source that a digit names behind so many choices.
fn pick(
    alloc: Global,
    beyond: &NewSources<'_>,
    ties: &Ties,
    acts: &[Act],
    among: &PoolSources,
    leaves: usize,
    need: &Spot,
    seed: u64,
    place: u64,
    made: usize,
    digit: u64,
) -> Result<Source, NoMemory>
    requires beyond { AreNew beyond.now }
    requires among { AreSources among.now acts.now }
    requires digit { digit < length (options_at (view_model beyond.now.model.now) ties.now acts.now leaves beyond.now.level need.now) }
    ensures { IfOk result (λ source. NamesSource seed (place + made) (options_at (view_model beyond.now.model.now) ties.now acts.now leaves beyond.now.level need.now) digit (given_source source)) }
{
    let found = options(alloc, beyond, ties, acts, among, leaves, need)?;
    let place = place_after(place, made)?;
    Ok(named(found.as_slice(), seed, place, digit))
}

// Whether nothing is linked.
fn is_nothing(to: Link) -> bool
    ensures { result ≡ same_link to link.Nothing }
{
    match to {
        Link::Nothing => true,
        _ => false,
    }
}

// Takes what a source took from the references that may be sources, and looks where reading stands then.
// Without memory they are those of the actions before.
fn look_behind(
    alloc: Global,
    beyond: &NewSources<'_>,
    ties: &Ties,
    acts: &[Act],
    among: &mut PoolSources,
    leaves: usize,
    nexts: &[usize],
    need: &Spot,
    source: Source,
    change: &Change,
) -> Result<(Taken, Stop), NoMemory>
    requires nexts { AreNexts nexts.now acts.now }
    requires done { AreDone ties.now acts.now change.now.lowest }
    requires step { IsStep need.now (given_source source) change.now acts.now }
    requires beyond { AreNew beyond.now }
    requires known { AreSources among.old (undone change.now acts.now) }
    ensures stop { IfOk result (λ went. IsStop (view_model beyond.now.model.now) ties.now acts.now leaves beyond.now.level went.1) }
    ensures ok { IfOk result (λ went. AreSources among.new acts.now) }
    ensures follows { IfOk result (λ went. Follows went.0 change.now acts.now) }
    ensures ahead { IfOk result (λ went. NoneAhead acts.now) }
    ensures has_room { IfOk result (λ went. HasRoom among.new (ends_undone change.now.ends acts.now)) }
    ensures err { OnErr result (AreSources among.new (undone change.now acts.now)) }
    ensures room { (n : the_flow) (p : ℕ) → room_at n p among.old ≤ room_at n p among.new }
{
    let taken = follow(among, acts, need, source, change)?;
    match look(
        alloc,
        beyond,
        ties,
        acts,
        among,
        leaves,
        nexts,
        change.lowest,
    ) {
        Ok(stop) => Ok((taken, stop)),
        Err(error) => {
            leave(among, acts, &taken, change);
            Err(error)
        }
    }
}

// Links a need to a source, and looks where reading stands then.
fn go_on(
    alloc: Global,
    beyond: &NewSources<'_>,
    ties: &Ties,
    acts: &mut Vec<Act>,
    among: &mut PoolSources,
    leaves: usize,
    nexts: &[usize],
    need: &Spot,
    source: Source,
) -> Result<Went, NoMemory>
    requires nexts { AreNexts nexts.now acts.old.items }
    requires done { AreDone ties.now acts.old.items need.now.act }
    requires beyond { AreNew beyond.now }
    requires among { AreSources among.old acts.old.items }
    requires ahead { NoneAhead acts.old.items }
    requires turn { IsTurn need.now acts.old.items }
    ensures gone { IfOk result (λ went. Advances (view_model beyond.now.model.now) ties.now leaves beyond.now.level (read_spot need.now) (given_source source) went acts.old.items acts.new.items) }
    ensures follows { IfOk result (λ went. Follows went.taken went.change acts.new.items) }
    ensures has_room { IfOk result (λ went. HasRoom among.new (ends_undone went.change.ends acts.new.items)) }
    ensures ahead { NoneAhead acts.new.items }
    ensures among { AreSources among.new acts.new.items }
    ensures err { OnErr result (acts.new.items ≡ acts.old.items) }
    ensures room { (n : the_flow) (p : ℕ) → room_at n p among.old ≤ room_at n p among.new }
{
    let change = supply(alloc, beyond, acts, need, source)?;
    match look_behind(
        alloc, beyond, ties, acts, among, leaves, nexts, need, source, &change,
    ) {
        Ok((taken, stop)) => Ok(Went {
            change,
            taken,
            stop,
        }),
        Err(error) => {
            take_back(alloc, acts, &change);
            Err(error)
        }
    }
}

// Takes a source back, with what it made and took.
fn go_back(
    alloc: Global,
    acts: &mut Vec<Act>,
    among: &mut PoolSources,
    taken: &Taken,
    change: &Change,
)
    requires known { AreSources among.old acts.old.items }
    requires follows { Follows taken.now change.now acts.old.items }
    requires has_room { HasRoom among.old (ends_undone change.now.ends acts.old.items) }
    ensures undone { acts.new.items ≡ undone change.now acts.old.items }
    ensures among { AreSources among.new acts.new.items }
    ensures room { (n : the_flow) (p : ℕ) → room_at n p among.old ≤ room_at n p among.new }
{
    leave(among, acts, taken, change);
    take_back(alloc, acts, change);
}

// What a walk knows before its first choice.
#[derive(Drop)]
struct Begun<'a> {
    beyond: NewSources<'a>,
    acts: Vec<Act>,
    among: PoolSources,
    nexts: Vec<usize>,
    first: Stop,
}

// Opens the leaves, so many, and looks where reading stands then. The references of new actions are found
// where some leaf has a need.
fn begin<'a>(
    alloc: Global,
    model: &'a Model,
    in_order: bool,
    ties: &Ties,
    leaves: &[Act],
    count: usize,
    level: u32,
) -> Result<Begun<'a>, NoMemory>
    requires { IsTrue in_order → IsInOrder (view_model model.now).served }
    ensures { IfOk result (λ begun. Begins model.now ties.now leaves.now count level begun) }
{
    let acts = open_leaves(alloc, model, in_order, leaves)?;
    let nexts = next_wanting(alloc, &acts)?;
    let need = next_need(ties, &acts, &nexts, 0);
    let beyond = NewSources::new(alloc, model, in_order, level, need.is_some())?;
    let among = PoolSources::new(alloc, model.pools.len(), &acts)?;
    let first = stop_at(alloc, &beyond, ties, &acts, &among, count, need)?;
    Ok(Begun {
        beyond,
        acts,
        among,
        nexts,
        first,
    })
}

/// A walk through the lists of choices that give the needs their sources, behind a list that fills
/// the activity. Contracts see its model, the nodes and leaves of the filled-in activity, its seed,
/// the number of its first place, its level and its choices.
#[derive(Drop)]
pub struct SupplyWalk<'a> {
    alloc: Global,
    beyond: NewSources<'a>,
    nodes: Vec<Node>,
    leaves: Vec<Act>,
    seed: u64,
    place: u64,
    count: usize,
    ties: Ties,
    nexts: Vec<usize>,
    first: Stop,
    made: Vec<Made>,
    acts: Vec<Act>,
    among: PoolSources,
}

impl<'a> std::marker::Model for SupplyWalk<'a> {
    ghost use Rattle.pst_supply.specs.Walks.{Kept};
    ghost use Rattle.pst_supply.specs.Made.{kept_by, IsKept};
    ghost use Rattle.std.specs.Coded.{codes};
    ghost use Rattle.pst_model.specs.contracts.activity.Step as the_step;
    ghost use Rattle.pst_model.specs.contracts.body.BodyStep as the_body_step;
    ghost use Rattle.pst_model.specs.contracts.constraint.Slot as the_slot;
    ghost use Rattle.pst_expr.specs.contracts.tree.Expr as the_expr;

    ghost Value = { Kept };

    ghost coded = { Prim.hlevel (codes, the_step.the_row.coded, the_body_step.the_row.coded, the_slot.the_row.coded, the_expr.the_row.coded) };

    ghost view = { kept_by };

    ghost invariant = { IsKept };
}

impl<'a> SupplyWalk<'a> {
    /// The walk without a choice. The nodes and leaves are those of a list of choices that fills the
    /// activity, whose length is `place`; `level` is how many actions are to be inferred. The walk keeps
    /// a copy of both, so that the walk that gave them may go on.
    pub fn new(
        alloc: Global,
        model: &'a Model,
        nodes: &[Node],
        leaves: &[Act],
        seed: u64,
        place: u64,
        level: u32,
    ) -> Result<SupplyWalk<'a>, NoMemory>
        ensures { IfOk result (λ w. w ≡ record { model = model.now; nodes = nodes.now; leaves = leaves.now; seed = seed; place = place; level = level; choices = [] }) }
    {
        let in_order = serves_in_order(model);
        SupplyWalk::with_order(alloc, model, in_order, nodes, leaves, seed, place, level)
    }

    /// The same, where it is known whether the entries for what serves references stand in order.
    pub fn with_order(
        alloc: Global,
        model: &'a Model,
        in_order: bool,
        nodes: &[Node],
        leaves: &[Act],
        seed: u64,
        place: u64,
        level: u32,
    ) -> Result<SupplyWalk<'a>, NoMemory>
        requires { IsTrue in_order → IsInOrder (view_model model.now).served }
        ensures { IfOk result (λ w. w ≡ record { model = model.now; nodes = nodes.now; leaves = leaves.now; seed = seed; place = place; level = level; choices = [] }) }
    {
        let count = leaf_count(nodes);
        let ties = Ties::new(alloc, model, nodes)?;
        let begun = begin(alloc, model, in_order, &ties, leaves, count, level)?;
        let nodes = copy_nodes(alloc, nodes)?;
        let leaves = copy_acts(alloc, leaves)?;
        Ok(SupplyWalk {
            alloc,
            beyond: begun.beyond,
            nodes,
            leaves,
            seed,
            place,
            count,
            ties,
            nexts: begun.nexts,
            first: begun.first,
            made: Vec::new(alloc),
            acts: begun.acts,
            among: begun.among,
        })
    }

    /// What the walk stands at: a place with so many options, the end, or a dead end.
    pub fn next(&self) -> Next
        ensures { result ≡ next_of (answer self.now) }
    {
        next_at(
            stop_of(&self.made, self.first),
            self.acts.len(),
            self.count,
            self.beyond.level,
        )
    }

    /// The need whose turn it is, and nothing at the end.
    pub fn need(&self) -> Option<Spot>
        ensures { IfRead (answer self.now) (λ s. result ≡ option_map kept_spot (next_need (view_model self.now.model) s)) }
    {
        stop_of(&self.made, self.first).need
    }

    /// The actions so far, the leaves first, with their links. What isn't read yet is empty.
    pub fn actions(&self) -> &[Act]
        ensures { IfRead (answer self.now) (λ s. result.now ≡ s.actions) }
    {
        &self.acts
    }

    /// What the last choice changed, and nothing where there is no choice: the ends that were linked,
    /// and how many actions there were before.
    pub fn change(&self) -> Option<Change>
        ensures { IsChange self.now result }
    {
        change_of(&self.made)
    }

    /// Makes a choice at the place where the walk stands.
    pub fn choose(&mut self, digit: u64) -> Result<(), NoMemory>
        requires { HasDigit (answer self.old) digit }
        ensures ok { OnOk result (self.new ≡ with_choice self.old digit) }
        ensures err { OnErr result (self.new ≡ self.old) }
    {
        self.made.reserve(1)?;
        let Some(need) = stop_of(&self.made, self.first).need else {
            return Err(NoMemory);
        };
        if !is_nothing(need.link) {
            return Err(NoMemory);
        }
        let source = pick(
            self.alloc,
            &self.beyond,
            &self.ties,
            &self.acts,
            &self.among,
            self.count,
            &need,
            self.seed,
            self.place,
            self.made.len(),
            digit,
        )?;
        let went = go_on(
            self.alloc,
            &self.beyond,
            &self.ties,
            &mut self.acts,
            &mut self.among,
            self.count,
            &self.nexts,
            &need,
            source,
        )?;
        match self.made.push(Made {
            digit,
            change: went.change,
            taken: went.taken,
            stop: went.stop,
        }) {
            Ok(()) => Ok(()),
            Err(_) => unreachable!(),
        }
    }

    /// Takes the last choice back.
    pub fn back(&mut self)
        requires { 0 < length self.old.choices }
        ensures { (digit : ℕ) × (self.old ≡ with_choice self.new digit) }
    {
        if let Some(last) = self.made.pop() {
            go_back(
                self.alloc,
                &mut self.acts,
                &mut self.among,
                &last.taken,
                &last.change,
            );
        }
    }
}
