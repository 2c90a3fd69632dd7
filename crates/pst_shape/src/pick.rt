//! What an option leads to.
ghost use Rattle.std.specs.Prelude.{◌≡◌, ℕ, List, [], ◌∷◌, ◌++◌, ◌+◌, ◌%◌, ◌<◌, IfOk, OnOk, OnErr, Some, length, map, drop, slice_get};
ghost use Rattle.pst_model.specs.ModelTree.{Compound as Compound_content};
ghost use Rattle.pst_model.specs.ModelView.{view_model, view_action, view_content, view_activity};
ghost use Rattle.pst_legal.specs.Growing.{nothing_yet};
ghost use Rattle.pst_legal.specs.Menus.{content_menu};
ghost use Rattle.pst_legal.specs.Reading.{option_at, read_tree};
ghost use Rattle.pst_rng.specs.Words.{start_of};
ghost use Rattle.pst_scen.specs.declared.scenario.Scenario.{Scenario};
ghost use Rattle.pst_shape_parts.specs.Trees.{Tree, tree_of, scenario_of, values_at, fields_in, put, IsGrown, Extends};
ghost use Rattle.pst_shape_steps.specs.Pending.{chosen_menu, looked_menu, spot_menu, menu_after, start_in, options_of, first_size, first_value, Goes, GoesOnFields, Takes, IsCompound, IsOpen, IsReady, IsDigit, ValueRead, Grows, valued, read_on};

use pst_base::{Items, NoMemory};
use pst_model::{ActionType, Activity, Content, Model};
use pst_rng::{start, weighted_start};
use pst_scen::Fill;
use pst_shape_parts::{Frame, Grown};
use pst_shape_steps::{
    At, Chosen, Fields, Parts, Spot, Stack, chosen_options, enter_action, enter_chosen, go_below,
    is_closed, options, settle, spot_options,
};
use std::alloc::Global;
use std::rc::Rc;
use std::slice;

const LEVELS: u32 = 64;

/// Where reading stands with no choice yet.
pub(crate) fn first<'a>(alloc: Global, model: &'a Model, root: u32) -> Result<At<'a>, NoMemory>
    ensures reads { IfOk result (λ at. (seed level : ℕ) (left : List ℕ) → read_tree (view_model model.now) seed root (nothing_yet level) 0 left ≡ read_on (view_model model.now) seed at (nothing_yet level) 0 left) }
    ensures ready { IfOk result IsReady }
    ensures opens { IfOk result (λ at. (t : Tree) → IsOpen at t) }
{
    let below = Rc::new(alloc, Stack::Empty)?;
    let at = enter_action(alloc, model, root, None, LEVELS, None, below)?;
    if is_closed(&at) {
        return Ok(At::Dead);
    }
    Ok(at)
}

// Goes on with the fields of a compound action that are left, of which those before have these
// values, or with its activity where none is left.
fn with_fields<'a>(
    alloc: Global,
    fields: Fields<'a>,
    values: Vec<i64>,
    levels: u32,
    below: Rc<Stack<'a>>,
) -> Result<At<'a>, NoMemory>
    ensures reads { IfOk result (λ at. (m : _) (s : Scenario) → values_at (slice_get s.nodes fields.entry.node) ≡ values.items → GoesOnFields m levels fields.entry fields.entry.fields.now values.items below.entry.value at s) }
    ensures opens { IfOk result (λ at. (t : Tree) → IsCompound (slice_get t.nodes fields.entry.node) → IsOpen at t) }
{
    if !fields.fields.is_empty() {
        return Ok(At::Value {
            fields,
            levels,
            below,
        });
    }
    let frame = Frame {
        instance: fields.instance,
        fields: values,
        indices: Vec::new(alloc),
    };
    Ok(At::Going(Rc::new(
        alloc,
        Stack::Over {
            levels,
            parent: fields.node,
            frame: Rc::new(alloc, frame)?,
            parts: Parts::Steps(fields.steps),
            below,
        },
    )?))
}

// Goes on with a compound action.
fn pick_compound<'a>(
    alloc: Global,
    grown: &mut Grown,
    kind: &'a ActionType,
    activity: &'a Activity,
    action: u32,
    instance: u32,
    levels: u32,
    parent: Option<u32>,
    below: Rc<Stack<'a>>,
) -> Result<At<'a>, NoMemory>
    requires { IsGrown (tree_of grown.old) }
    ensures reads { IfOk result (λ at. (m : _) → Goes m (content_menu (view_action kind.now) (Compound_content (view_activity activity.now)) action instance) levels parent below.entry.value (tree_of grown.old) at (tree_of grown.new)) }
    ensures opens { IfOk result (λ at. IsOpen at (tree_of grown.new)) }
    ensures grows { Extends (tree_of grown.old) (tree_of grown.new) }
    ensures grown { IsGrown (tree_of grown.new) }
{
    if levels == 0 {
        return Ok(At::Dead);
    }
    let node = grown.nodes.len() as u32;
    let fill = Fill::Compound {
        action,
        instance,
        fields: Items::empty(alloc),
    };
    if !grown.add(parent, fill)? {
        return Ok(At::Dead);
    }
    let fields = Fields {
        node,
        instance,
        fields: kind.fields.as_slice(),
        steps: activity.steps.as_slice(),
    };
    with_fields(alloc, fields, Vec::new(alloc), levels - 1, below)
}

// Goes on with an instance of an action.
fn pick_instance<'a>(
    alloc: Global,
    grown: &mut Grown,
    kind: &'a ActionType,
    action: u32,
    instance: u32,
    levels: u32,
    parent: Option<u32>,
    below: Rc<Stack<'a>>,
) -> Result<At<'a>, NoMemory>
    requires { IsGrown (tree_of grown.old) }
    ensures reads { IfOk result (λ at. (m : _) → Goes m (content_menu (view_action kind.now) (view_content kind.now.content) action instance) levels parent below.entry.value (tree_of grown.old) at (tree_of grown.new)) }
    ensures opens { IfOk result (λ at. IsOpen at (tree_of grown.new)) }
    ensures grows { Extends (tree_of grown.old) (tree_of grown.new) }
    ensures grown { IsGrown (tree_of grown.new) }
{
    match &kind.content {
        Content::Atomic(_) => {
            if levels == 0 || !grown.add_leaf(alloc, parent, action, instance)? {
                return Ok(At::Dead);
            }
            Ok(At::Going(below))
        }
        Content::Compound(activity) => pick_compound(
            alloc, grown, kind, activity, action, instance, levels, parent, below,
        ),
    }
}

// Goes on with whether the next branch of a block is waited for.
fn pick_join<'a>(
    alloc: Global,
    grown: &mut Grown,
    chosen: &Chosen<'a>,
    levels: u32,
    parent: Option<u32>,
    below: Rc<Stack<'a>>,
    option: u64,
) -> Result<At<'a>, NoMemory>
    requires grown { IsGrown (tree_of grown.old) }
    requires option { option < options_of (chosen_menu chosen.now) }
    ensures reads { IfOk result (λ at. (m : _) → Goes m (menu_after (chosen_menu chosen.now) option) levels parent below.entry.value (tree_of grown.old) at (tree_of grown.new)) }
    ensures opens { IfOk result (λ at. IsOpen at (tree_of grown.new)) }
    ensures grows { Extends (tree_of grown.old) (tree_of grown.new) }
    ensures grown { IsGrown (tree_of grown.new) }
{
    let next = next_chosen(alloc, chosen, option)?;
    enter_chosen(alloc, grown, next, levels, parent, below)
}

// The block with one more branch looked at, which is waited for or not, and so many more to come.
fn looked_at<'a>(
    alloc: Global,
    chosen: &Chosen<'a>,
    is_joined: bool,
    more: u32,
) -> Result<Chosen<'a>, NoMemory>
    requires { 0 < chosen.now.left }
    ensures { IfOk result (λ next. chosen_menu next ≡ looked_menu chosen.now is_joined more) }
{
    let mut joined = Vec::from_slice(alloc, chosen.joined.as_slice())?;
    joined.push(is_joined)?;
    Ok(Chosen {
        parallel: chosen.parallel,
        frame: chosen.frame.clone()?,
        steps: chosen.steps,
        more,
        left: chosen.left - 1,
        joined,
    })
}

// The block with one more branch looked at, as an option says.
fn next_chosen<'a>(alloc: Global, chosen: &Chosen<'a>, option: u64) -> Result<Chosen<'a>, NoMemory>
    requires { option < options_of (chosen_menu chosen.now) }
    ensures { IfOk result (λ next. chosen_menu next ≡ menu_after (chosen_menu chosen.now) option) }
{
    if chosen.more == 0 {
        return looked_at(alloc, chosen, false, 0);
    }
    if chosen.more < chosen.left && option > 0 {
        return looked_at(alloc, chosen, false, chosen.more);
    }
    looked_at(alloc, chosen, true, chosen.more - 1)
}

// Goes on from a place with one of its options.
fn pick<'a>(
    alloc: Global,
    grown: &mut Grown,
    spot: &Spot<'a>,
    levels: u32,
    parent: Option<u32>,
    below: Rc<Stack<'a>>,
    option: u64,
) -> Result<At<'a>, NoMemory>
    requires grown { IsGrown (tree_of grown.old) }
    requires option { option < options_of (spot_menu spot.now) }
    ensures reads { IfOk result (λ at. (m : _) → Goes m (menu_after (spot_menu spot.now) option) levels parent below.entry.value (tree_of grown.old) at (tree_of grown.new)) }
    ensures opens { IfOk result (λ at. IsOpen at (tree_of grown.new)) }
    ensures grows { Extends (tree_of grown.old) (tree_of grown.new) }
    ensures grown { IsGrown (tree_of grown.new) }
{
    match spot {
        Spot::Instance {
            action,
            kind,
            options,
        } => {
            let instance = options[option as usize];
            pick_instance(
                alloc, grown, *kind, *action, instance, levels, parent, below,
            )
        }
        Spot::Branch { frame, branches } => {
            let taken = branches.branches[option as usize];
            let fill = Fill::Select {
                branch: taken.number,
            };
            let parts = Parts::Steps(slice::from_ref(&taken.branch.step));
            let frame = frame.clone()?;
            go_below(alloc, grown, levels, parent, fill, frame, parts, below)
        }
        Spot::Join(chosen) => pick_join(alloc, grown, chosen, levels, parent, below, option),
    }
}

// The option that a digit names among so many, of which the first stands at the start.
fn option_from(start: u64, digit: u64, count: u64) -> u64
    requires { 0 < count }
    ensures option { result ≡ option_at start count digit }
    ensures within { result < count }
{
    ((u128::from(start) + u128::from(digit)) % u128::from(count)) as u64
}

// Where the seed begins at a place.
fn spot_start(spot: &Spot<'_>, seed: u64, place: u64) -> u64
    requires { 0 < options_of (spot_menu spot.now) }
    ensures { result ≡ start_in seed place (spot_menu spot.now) }
{
    match spot {
        Spot::Instance { options, .. } => start(seed, place, options.len() as u64),
        Spot::Branch { branches, .. } => {
            weighted_start(seed, place, branches.weights.as_slice()) as u64
        }
        Spot::Join(chosen) => start(seed, place, chosen_options(chosen)),
    }
}

// The option that a digit names at a place.
fn spot_option(spot: &Spot<'_>, seed: u64, place: u64, digit: u64) -> u64
    requires { 0 < options_of (spot_menu spot.now) }
    ensures option { result ≡ option_at (start_in seed place (spot_menu spot.now)) (options_of (spot_menu spot.now)) digit }
    ensures within { result < options_of (spot_menu spot.now) }
{
    option_from(spot_start(spot, seed, place), digit, spot_options(spot))
}

// Goes on from a place with one of its options, up to the next place or an end.
fn pick_and_settle<'a>(
    alloc: Global,
    model: &'a Model,
    grown: &mut Grown,
    spot: &Spot<'a>,
    levels: u32,
    parent: Option<u32>,
    below: &Rc<Stack<'a>>,
    option: u64,
) -> Result<At<'a>, NoMemory>
    requires grown { IsGrown (tree_of grown.old) }
    requires option { option < options_of (spot_menu spot.now) }
    ensures reads { IfOk result (λ at. Goes (view_model model.now) (menu_after (spot_menu spot.now) option) levels parent below.now.value (tree_of grown.old) at (tree_of grown.new)) }
    ensures ready { IfOk result IsReady }
    ensures opens { IfOk result (λ at. IsOpen at (tree_of grown.new)) }
    ensures grows { Extends (tree_of grown.old) (tree_of grown.new) }
    ensures grown { IsGrown (tree_of grown.new) }
{
    let at = pick(alloc, grown, spot, levels, parent, below.clone()?, option)?;
    settle(alloc, model, grown, at)
}

// Goes on from a place with a digit. Without memory the activity is as it was.
fn choice_at_place<'a>(
    alloc: Global,
    model: &'a Model,
    grown: &mut Grown,
    spot: &Spot<'a>,
    levels: u32,
    parent: Option<u32>,
    below: &Rc<Stack<'a>>,
    option: u64,
) -> Result<At<'a>, NoMemory>
    requires grown { IsGrown (tree_of grown.old) }
    requires option { option < options_of (spot_menu spot.now) }
    ensures reads { IfOk result (λ at. Goes (view_model model.now) (menu_after (spot_menu spot.now) option) levels parent below.now.value (tree_of grown.old) at (tree_of grown.new)) }
    ensures ready { IfOk result IsReady }
    ensures opens { IfOk result (λ at. IsOpen at (tree_of grown.new)) }
    ensures grows { OnOk result (Extends (tree_of grown.old) (tree_of grown.new)) }
    ensures grown { IsGrown (tree_of grown.new) }
    ensures err { OnErr result (tree_of grown.new ≡ tree_of grown.old) }
{
    let nodes = grown.nodes.len();
    let leaves = grown.leaves.len();
    match pick_and_settle(alloc, model, grown, spot, levels, parent, below, option) {
        Ok(at) => Ok(at),
        Err(error) => {
            grown.cut(nodes, leaves);
            Err(error)
        }
    }
}

// Gives the first of some fields one of its values. Without memory the activity is as it was.
fn pick_value<'a>(
    alloc: Global,
    grown: &mut Grown,
    fields: Fields<'a>,
    levels: u32,
    below: Rc<Stack<'a>>,
    option: u64,
) -> Result<At<'a>, NoMemory>
    requires compound { IsCompound (slice_get (tree_of grown.old).nodes fields.node) }
    requires option { option < first_size fields.fields.now }
    ensures reads { IfOk result (λ at. (m : _) (level : ℕ) → GoesOnFields m levels fields.entry (drop 1 fields.entry.fields.now) (fields_in (tree_of grown.old) fields.entry.node ++ first_value fields.entry.fields.now option ∷ []) below.entry.value at (scenario_of m level (tree_of grown.new))) }
    ensures opens { IfOk result (λ at. IsOpen at (tree_of grown.new)) }
    ensures put { OnOk result (tree_of grown.new ≡ put (tree_of grown.old) fields.entry.node (first_value fields.entry.fields.now option)) }
    ensures err { OnErr result (tree_of grown.new ≡ tree_of grown.old) }
{
    let Some((field, rest)) = fields.fields.split_first() else {
        return Ok(At::Dead);
    };
    let value = field.domain.at(option);
    let mut values = grown.fields(alloc, fields.node as usize)?;
    values.push(value)?;
    let left = Fields {
        node: fields.node,
        instance: fields.instance,
        fields: rest,
        steps: fields.steps,
    };
    let at = with_fields(alloc, left, values, levels, below)?;
    grown.put(alloc, fields.node as usize, value)?;
    Ok(at)
}

// Gives the first of some fields the value that a digit names, and goes on up to the next place or
// an end. Without memory the activity is as it was.
fn choice_of_value<'a>(
    alloc: Global,
    model: &'a Model,
    grown: &mut Grown,
    fields: Fields<'a>,
    levels: u32,
    below: &Rc<Stack<'a>>,
    option: u64,
) -> Result<At<'a>, NoMemory>
    requires grown { IsGrown (tree_of grown.old) }
    requires compound { IsCompound (slice_get (tree_of grown.old).nodes fields.node) }
    requires option { option < first_size fields.fields.now }
    ensures reads { IfOk result (λ at. ValueRead (view_model model.now) levels fields.entry option below.now.value (tree_of grown.old) at (tree_of grown.new)) }
    ensures ready { IfOk result IsReady }
    ensures opens { IfOk result (λ at. IsOpen at (tree_of grown.new)) }
    ensures grows { OnOk result (Extends (put (tree_of grown.old) fields.entry.node (first_value fields.entry.fields.now option)) (tree_of grown.new)) }
    ensures grown { IsGrown (tree_of grown.new) }
    ensures err { OnErr result (tree_of grown.new ≡ tree_of grown.old) }
{
    let nodes = grown.nodes.len();
    let leaves = grown.leaves.len();
    let at = pick_value(alloc, grown, fields, levels, below.clone()?, option)?;
    match settle(alloc, model, grown, at) {
        Ok(at) => Ok(at),
        Err(error) => {
            grown.cut(nodes, leaves);
            grown.take_back(alloc, fields.node as usize);
            Err(error)
        }
    }
}

/// Goes on with a digit. Without memory the activity is as it was.
pub(crate) fn choice<'a>(
    alloc: Global,
    model: &'a Model,
    grown: &mut Grown,
    at: &At<'a>,
    seed: u64,
    place: u64,
    digit: u64,
) -> Result<At<'a>, NoMemory>
    requires grown { IsGrown (tree_of grown.old) }
    requires opens { IsOpen at.now (tree_of grown.old) }
    requires digit { IsDigit at.now digit }
    ensures reads { IfOk result (λ to. Takes (view_model model.now) seed place digit at.now (tree_of grown.old) to (tree_of grown.new)) }
    ensures ready { IfOk result IsReady }
    ensures opens { IfOk result (λ to. IsOpen to (tree_of grown.new)) }
    ensures grows { OnOk result (Grows (valued at.now) (tree_of grown.old) (tree_of grown.new)) }
    ensures grown { IsGrown (tree_of grown.new) }
    ensures err { OnErr result (tree_of grown.new ≡ tree_of grown.old) }
{
    match at {
        At::Place {
            spot,
            levels,
            parent,
            below,
        } => {
            let option = spot_option(spot, seed, place, digit);
            choice_at_place(alloc, model, grown, spot, *levels, *parent, below, option)
        }
        At::Value {
            fields,
            levels,
            below,
        } => {
            let count = options(at);
            let option = option_from(start(seed, place, count), digit, count);
            choice_of_value(alloc, model, grown, *fields, *levels, below, option)
        }
        _ => Ok(At::Dead),
    }
}
