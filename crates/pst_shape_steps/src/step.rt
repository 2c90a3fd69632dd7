//! One step of reading.
ghost use Rattle.std.specs.Prelude.{◌≡◌, ◌<◌, ◌+◌, ◌-◌, ◌*◌, ℕ, List, [], ◌∷◌, IfOk, Some, length, map, true, false};
ghost use Rattle.pst_model.specs.ModelView.{view_model, view_step, view_branch, view_arm, maybe_step};
ghost use Rattle.pst_model.specs.ActivityTree.{step_of};
ghost use Rattle.pst_model.specs.ConstraintTree.{view_constraint};
ghost use Rattle.pst_legal.specs.Types.{type_of};
ghost use Rattle.pst_legal.specs.Pieces.{Statement, Turning, optional, statements};
ghost use Rattle.pst_legal.specs.Reading.{then_read, read_pieces, read_piece};
ghost use Rattle.pst_legal.specs.Menus.{plain, menu, action_menu, block_menu, branches_menu, available, repeat_menu, if_menu, match_menu, other_menu};
ghost use Rattle.pst_shape_parts.specs.Contexts.{context_of};
ghost use Rattle.pst_shape_parts.specs.Trees.{Tree, tree_of, scenario_of, IsGrown, Extends};
ghost use Rattle.pst_shape_steps.specs.Pending.{pieces_of, chosen_menu, spot_menu, options_of, options_at, Falls, Goes, GoesOn, SameReading, IsOpen, IsReady, IsGoing, IsPlaced, IsClosed, read_stack, read_on, height, weight};

use crate::pending::{At, Chosen, Parts, Spot, Stack, Turns};
use pst_base::NoMemory;
use pst_model::{Arm, Branch, Join, Model, Step};
use pst_scen::Fill;
use pst_shape_parts::{Branches, Frame, Grown, arm_with, instances, mask_of};
use std::alloc::Global;
use std::rc::Rc;
use std::slice;

/// Adds a node and goes on with what stands below it, or comes to a dead end.
pub fn go_below<'a>(
    alloc: Global,
    grown: &mut Grown,
    levels: u32,
    parent: Option<u32>,
    fill: Fill,
    frame: Rc<Frame>,
    parts: Parts<'a>,
    below: Rc<Stack<'a>>,
) -> Result<At<'a>, NoMemory>
    requires { IsGrown (tree_of grown.old) }
    ensures reads { IfOk result (λ at. (m : _) → Goes m (plain fill (pieces_of (context_of frame.value) parts.entry)) levels parent below.entry.value (tree_of grown.old) at (tree_of grown.new)) }
    ensures falls { IfOk result (λ at. Falls (tree_of grown.old) below.entry.value at (tree_of grown.new)) }
    ensures opens { IfOk result (λ at. IsOpen at (tree_of grown.new)) }
    ensures grows { Extends (tree_of grown.old) (tree_of grown.new) }
    ensures grown { IsGrown (tree_of grown.new) }
{
    if levels == 0 {
        return Ok(At::Dead);
    }
    let node = grown.nodes.len() as u32;
    if !grown.add(parent, fill)? {
        return Ok(At::Dead);
    }
    Ok(At::Going(Rc::new(
        alloc,
        Stack::Over {
            levels: levels - 1,
            parent: node,
            frame,
            parts,
            below,
        },
    )?))
}

/// The place of an action's instance.
pub fn enter_action<'a>(
    alloc: Global,
    model: &'a Model,
    action: u32,
    top: Option<u32>,
    levels: u32,
    parent: Option<u32>,
    below: Rc<Stack<'a>>,
) -> Result<At<'a>, NoMemory>
    ensures reads { IfOk result (λ at. (t : Tree) → Goes (view_model model.now) (action_menu (view_model model.now) action top (type_of (view_model model.now) action)) levels parent below.entry.value t at t) }
    ensures falls { IfOk result (λ at. (t : Tree) → Falls t below.entry.value at t) }
    ensures still { IfOk result (λ at. IsGoing at → ⊥) }
    ensures opens { IfOk result (λ at. (t : Tree) → IsOpen at t) }
{
    match model.actions.get(action as usize) {
        None => Ok(At::Dead),
        Some(kind) => {
            let options = instances(alloc, model, kind.component, top)?;
            let spot = Spot::Instance {
                action,
                kind,
                options,
            };
            Ok(At::Place {
                spot,
                levels,
                parent,
                below,
            })
        }
    }
}

/// Goes on with a block of which branches are chosen.
pub fn enter_chosen<'a>(
    alloc: Global,
    grown: &mut Grown,
    chosen: Chosen<'a>,
    levels: u32,
    parent: Option<u32>,
    below: Rc<Stack<'a>>,
) -> Result<At<'a>, NoMemory>
    requires { IsGrown (tree_of grown.old) }
    ensures reads { IfOk result (λ at. (m : _) → Goes m (chosen_menu chosen.entry) levels parent below.entry.value (tree_of grown.old) at (tree_of grown.new)) }
    ensures falls { IfOk result (λ at. Falls (tree_of grown.old) below.entry.value at (tree_of grown.new)) }
    ensures opens { IfOk result (λ at. IsOpen at (tree_of grown.new)) }
    ensures grows { Extends (tree_of grown.old) (tree_of grown.new) }
    ensures grown { IsGrown (tree_of grown.new) }
{
    if chosen.left > 0 {
        return Ok(At::Place {
            spot: Spot::Join(chosen),
            levels,
            parent,
            below,
        });
    }
    if chosen.joined.len() > 64 {
        return Err(NoMemory);
    }
    let fill = Fill::Joined {
        parallel: chosen.parallel,
        joined: mask_of(chosen.joined.as_slice()),
    };
    let parts = Parts::Steps(chosen.steps);
    go_below(
        alloc,
        grown,
        levels,
        parent,
        fill,
        chosen.frame,
        parts,
        below,
    )
}

// Reads a block with a join form.
fn enter_block<'a>(
    alloc: Global,
    grown: &mut Grown,
    levels: u32,
    parent: Option<u32>,
    frame: Rc<Frame>,
    parallel: bool,
    join: Join,
    steps: &'a [Step],
    below: Rc<Stack<'a>>,
) -> Result<At<'a>, NoMemory>
    requires { IsGrown (tree_of grown.old) }
    ensures reads { IfOk result (λ at. (m : _) → Goes m (block_menu (context_of frame.value) parallel join (map view_step steps.now)) levels parent below.entry.value (tree_of grown.old) at (tree_of grown.new)) }
    ensures falls { IfOk result (λ at. Falls (tree_of grown.old) below.entry.value at (tree_of grown.new)) }
    ensures opens { IfOk result (λ at. IsOpen at (tree_of grown.new)) }
    ensures grows { Extends (tree_of grown.old) (tree_of grown.new) }
    ensures grown { IsGrown (tree_of grown.new) }
{
    match join {
        Join::Fixed { joined } => {
            let fill = Fill::Joined { parallel, joined };
            let parts = Parts::Steps(steps);
            go_below(alloc, grown, levels, parent, fill, frame, parts, below)
        }
        Join::Choose { count } => {
            let Ok(left) = u32::try_from(steps.len()) else {
                return Err(NoMemory);
            };
            if count > left {
                return Ok(At::Dead);
            }
            let chosen = Chosen {
                parallel,
                frame,
                steps,
                more: count,
                left,
                joined: Vec::new(alloc),
            };
            enter_chosen(alloc, grown, chosen, levels, parent, below)
        }
    }
}

// Reads a repetition.
fn enter_repeat<'a>(
    alloc: Global,
    grown: &mut Grown,
    levels: u32,
    parent: Option<u32>,
    frame: Rc<Frame>,
    count: Option<i64>,
    body: &'a Step,
    below: Rc<Stack<'a>>,
) -> Result<At<'a>, NoMemory>
    requires { IsGrown (tree_of grown.old) }
    ensures reads { IfOk result (λ at. (m : _) → Goes m (repeat_menu (context_of frame.value) (view_step body.now) count) levels parent below.entry.value (tree_of grown.old) at (tree_of grown.new)) }
    ensures falls { IfOk result (λ at. Falls (tree_of grown.old) below.entry.value at (tree_of grown.new)) }
    ensures opens { IfOk result (λ at. IsOpen at (tree_of grown.new)) }
    ensures grows { Extends (tree_of grown.old) (tree_of grown.new) }
    ensures grown { IsGrown (tree_of grown.new) }
{
    let Some(count) = count else {
        return Ok(At::Dead);
    };
    if count < 0 {
        return Ok(At::Dead);
    }
    let turns = Turns {
        body,
        index: 0,
        count: count as u64,
    };
    let parts = Parts::Turns(turns);
    go_below(
        alloc,
        grown,
        levels,
        parent,
        Fill::Repeat,
        frame,
        parts,
        below,
    )
}

// Reads a conditional statement.
fn enter_if<'a>(
    alloc: Global,
    grown: &mut Grown,
    levels: u32,
    parent: Option<u32>,
    frame: Rc<Frame>,
    condition: Option<i64>,
    holds: &'a Step,
    fails: &'a Option<Box<Step>>,
    below: Rc<Stack<'a>>,
) -> Result<At<'a>, NoMemory>
    requires { IsGrown (tree_of grown.old) }
    ensures reads { IfOk result (λ at. (m : _) → Goes m (if_menu (context_of frame.value) (view_step holds.now) (step_of (maybe_step fails.now)) condition) levels parent below.entry.value (tree_of grown.old) at (tree_of grown.new)) }
    ensures falls { IfOk result (λ at. Falls (tree_of grown.old) below.entry.value at (tree_of grown.new)) }
    ensures opens { IfOk result (λ at. IsOpen at (tree_of grown.new)) }
    ensures grows { Extends (tree_of grown.old) (tree_of grown.new) }
    ensures grown { IsGrown (tree_of grown.new) }
{
    let Some(value) = condition else {
        return Ok(At::Dead);
    };
    if value != 0 {
        let fill = Fill::If { yes: true };
        let parts = Parts::Steps(slice::from_ref(holds));
        return go_below(alloc, grown, levels, parent, fill, frame, parts, below);
    }
    let fill = Fill::If { yes: false };
    let parts = other_parts(fails);
    go_below(alloc, grown, levels, parent, fill, frame, parts, below)
}

// The statement, if there is one.
fn other_parts(other: &Option<Box<Step>>) -> Parts<'_>
    ensures { (c : _) → pieces_of c result ≡ optional c (step_of (maybe_step other.now)) }
{
    match other {
        None => Parts::Steps(&[]),
        Some(step) => Parts::Steps(slice::from_ref(&**step)),
    }
}

// Reads a choice by value.
fn enter_match<'a>(
    alloc: Global,
    grown: &mut Grown,
    levels: u32,
    parent: Option<u32>,
    frame: Rc<Frame>,
    matched: Option<i64>,
    arms: &'a [Arm],
    other: &'a Option<Box<Step>>,
    below: Rc<Stack<'a>>,
) -> Result<At<'a>, NoMemory>
    requires { IsGrown (tree_of grown.old) }
    ensures reads { IfOk result (λ at. (m : _) → Goes m (match_menu (context_of frame.value) (map view_arm arms.now) (step_of (maybe_step other.now)) matched) levels parent below.entry.value (tree_of grown.old) at (tree_of grown.new)) }
    ensures falls { IfOk result (λ at. Falls (tree_of grown.old) below.entry.value at (tree_of grown.new)) }
    ensures opens { IfOk result (λ at. IsOpen at (tree_of grown.new)) }
    ensures grows { Extends (tree_of grown.old) (tree_of grown.new) }
    ensures grown { IsGrown (tree_of grown.new) }
{
    let Some(value) = matched else {
        return Ok(At::Dead);
    };
    match arm_with(value, arms) {
        None => enter_other(alloc, grown, levels, parent, frame, other, below),
        Some((number, arm)) => {
            let Ok(number) = u32::try_from(number) else {
                return Err(NoMemory);
            };
            let fill = Fill::Match { arm: Some(number) };
            let parts = Parts::Steps(slice::from_ref(&arm.step));
            go_below(alloc, grown, levels, parent, fill, frame, parts, below)
        }
    }
}

// Reads a choice by value of which no arm has the value.
fn enter_other<'a>(
    alloc: Global,
    grown: &mut Grown,
    levels: u32,
    parent: Option<u32>,
    frame: Rc<Frame>,
    other: &'a Option<Box<Step>>,
    below: Rc<Stack<'a>>,
) -> Result<At<'a>, NoMemory>
    requires { IsGrown (tree_of grown.old) }
    ensures reads { IfOk result (λ at. (m : _) → Goes m (other_menu (context_of frame.value) (step_of (maybe_step other.now))) levels parent below.entry.value (tree_of grown.old) at (tree_of grown.new)) }
    ensures falls { IfOk result (λ at. Falls (tree_of grown.old) below.entry.value at (tree_of grown.new)) }
    ensures opens { IfOk result (λ at. IsOpen at (tree_of grown.new)) }
    ensures grows { Extends (tree_of grown.old) (tree_of grown.new) }
    ensures grown { IsGrown (tree_of grown.new) }
{
    match other {
        None => Ok(At::Dead),
        Some(step) => {
            let fill = Fill::Match { arm: None };
            let parts = Parts::Steps(slice::from_ref(&**step));
            go_below(alloc, grown, levels, parent, fill, frame, parts, below)
        }
    }
}

// Reads a block of statements.
fn enter_steps<'a>(
    alloc: Global,
    grown: &mut Grown,
    levels: u32,
    parent: Option<u32>,
    fill: Fill,
    frame: Rc<Frame>,
    steps: &'a Vec<Step>,
    below: Rc<Stack<'a>>,
) -> Result<At<'a>, NoMemory>
    requires { IsGrown (tree_of grown.old) }
    ensures reads { IfOk result (λ at. (m : _) → Goes m (plain fill (statements (context_of frame.value) (map view_step steps.now.items))) levels parent below.entry.value (tree_of grown.old) at (tree_of grown.new)) }
    ensures falls { IfOk result (λ at. Falls (tree_of grown.old) below.entry.value at (tree_of grown.new)) }
    ensures opens { IfOk result (λ at. IsOpen at (tree_of grown.new)) }
    ensures grows { Extends (tree_of grown.old) (tree_of grown.new) }
    ensures grown { IsGrown (tree_of grown.new) }
{
    let parts = Parts::Steps(steps.as_slice());
    go_below(alloc, grown, levels, parent, fill, frame, parts, below)
}

// Reads a `select`.
fn enter_select<'a>(
    alloc: Global,
    levels: u32,
    parent: Option<u32>,
    frame: Rc<Frame>,
    branches: &'a [Branch],
    below: Rc<Stack<'a>>,
) -> Result<At<'a>, NoMemory>
    ensures reads { IfOk result (λ at. (m : _) (t : Tree) → Goes m (branches_menu (context_of frame.value) (available (context_of frame.value) (map view_branch branches.now))) levels parent below.entry.value t at t) }
    ensures falls { IfOk result (λ at. (t : Tree) → Falls t below.entry.value at t) }
    ensures opens { IfOk result (λ at. (t : Tree) → IsOpen at t) }
{
    let branches = Branches::new(alloc, &frame, branches)?;
    Ok(At::Place {
        spot: Spot::Branch { frame, branches },
        levels,
        parent,
        below,
    })
}

// Reads one statement. An action and a `select` begin with a place.
fn enter<'a>(
    alloc: Global,
    model: &'a Model,
    grown: &mut Grown,
    levels: u32,
    parent: u32,
    frame: Rc<Frame>,
    step: &'a Step,
    below: Rc<Stack<'a>>,
) -> Result<At<'a>, NoMemory>
    requires { IsGrown (tree_of grown.old) }
    ensures reads { IfOk result (λ at. Goes (view_model model.now) (menu (view_model model.now) (Statement (context_of frame.value) (view_step step.now))) levels (Some parent) below.entry.value (tree_of grown.old) at (tree_of grown.new)) }
    ensures falls { IfOk result (λ at. Falls (tree_of grown.old) below.entry.value at (tree_of grown.new)) }
    ensures opens { IfOk result (λ at. IsOpen at (tree_of grown.new)) }
    ensures grows { Extends (tree_of grown.old) (tree_of grown.new) }
    ensures grown { IsGrown (tree_of grown.new) }
{
    let parent = Some(parent);
    match step {
        Step::Traverse { action, .. } => {
            let top = Some(frame.instance);
            enter_action(alloc, model, *action, top, levels, parent, below)
        }
        Step::Sequence(steps) => {
            let fill = Fill::Sequence;
            enter_steps(alloc, grown, levels, parent, fill, frame, steps, below)
        }
        Step::Parallel(steps) => {
            let fill = Fill::Parallel;
            enter_steps(alloc, grown, levels, parent, fill, frame, steps, below)
        }
        Step::Schedule(steps) => {
            let fill = Fill::Schedule;
            enter_steps(alloc, grown, levels, parent, fill, frame, steps, below)
        }
        Step::Joined {
            parallel,
            join,
            steps,
        } => {
            let steps = steps.as_slice();
            enter_block(
                alloc, grown, levels, parent, frame, *parallel, *join, steps, below,
            )
        }
        Step::Select(branches) => {
            enter_select(alloc, levels, parent, frame, branches.as_slice(), below)
        }
        Step::Repeat { count, body } => {
            let count = frame.value(alloc, count)?;
            enter_repeat(alloc, grown, levels, parent, frame, count, &**body, below)
        }
        Step::If { condition, yes, no } => {
            let condition = frame.value(alloc, condition)?;
            enter_if(
                alloc, grown, levels, parent, frame, condition, &**yes, no, below,
            )
        }
        Step::Match { value, arms, other } => {
            let matched = frame.value(alloc, value)?;
            let arms = arms.as_slice();
            enter_match(
                alloc, grown, levels, parent, frame, matched, arms, other, below,
            )
        }
    }
}

// Reads one turn of a repetition.
fn enter_turn<'a>(
    alloc: Global,
    grown: &mut Grown,
    levels: u32,
    parent: u32,
    frame: &Frame,
    turns: Turns<'a>,
    below: Rc<Stack<'a>>,
) -> Result<At<'a>, NoMemory>
    requires { IsGrown (tree_of grown.old) }
    ensures reads { IfOk result (λ at. (m : _) → Goes m (menu m (Turning (context_of frame.now) turns.entry.index (view_step turns.entry.body.now))) levels (Some parent) below.entry.value (tree_of grown.old) at (tree_of grown.new)) }
    ensures falls { IfOk result (λ at. Falls (tree_of grown.old) below.entry.value at (tree_of grown.new)) }
    ensures opens { IfOk result (λ at. IsOpen at (tree_of grown.new)) }
    ensures grows { Extends (tree_of grown.old) (tree_of grown.new) }
    ensures grown { IsGrown (tree_of grown.new) }
{
    let Ok(index) = u32::try_from(turns.index) else {
        return Err(NoMemory);
    };
    let frame = Rc::new(alloc, frame.in_turn(alloc, index)?)?;
    let parts = Parts::Steps(slice::from_ref(turns.body));
    let fill = Fill::Turn { index };
    go_below(
        alloc,
        grown,
        levels,
        Some(parent),
        fill,
        frame,
        parts,
        below,
    )
}

// The stack of what is left of some parts.
fn rest<'a>(
    alloc: Global,
    levels: u32,
    parent: u32,
    frame: &Rc<Frame>,
    parts: Parts<'a>,
    below: &Rc<Stack<'a>>,
) -> Result<Rc<Stack<'a>>, NoMemory>
    ensures reads { IfOk result (λ stack. (m : _) (seed : ℕ) → read_stack m seed stack.value ≡ (λ s place left. then_read (read_pieces (read_piece m seed levels) (pieces_of (context_of frame.now.value) parts.entry) parent s place left) (read_stack m seed below.now.value))) }
    ensures height { IfOk result (λ stack. height stack.value ≡ height below.now.value + 1) }
{
    Ok(Rc::new(
        alloc,
        Stack::Over {
            levels,
            parent,
            frame: frame.clone()?,
            parts,
            below: below.clone()?,
        },
    )?)
}

// Goes on with the first of some parts, or with what is below them where none is left.
fn go_on_parts<'a>(
    alloc: Global,
    model: &'a Model,
    grown: &mut Grown,
    levels: u32,
    parent: u32,
    frame: &Rc<Frame>,
    parts: Parts<'a>,
    below: &Rc<Stack<'a>>,
) -> Result<At<'a>, NoMemory>
    requires { IsGrown (tree_of grown.old) }
    ensures reads { IfOk result (λ at. GoesOn (view_model model.now) levels parent (pieces_of (context_of frame.now.value) parts.entry) below.now.value (tree_of grown.old) at (tree_of grown.new)) }
    ensures falls { IfOk result (λ at. weight at (length (tree_of grown.new).nodes) < 3 * (65536 - length (tree_of grown.old).nodes) + height below.now.value + 2) }
    ensures opens { IfOk result (λ at. IsOpen at (tree_of grown.new)) }
    ensures grows { Extends (tree_of grown.old) (tree_of grown.new) }
    ensures grown { IsGrown (tree_of grown.new) }
{
    match parts {
        Parts::Steps(steps) => match steps.split_first() {
            None => Ok(At::Going(below.clone()?)),
            Some((step, steps)) => {
                let rest = rest(alloc, levels, parent, frame, Parts::Steps(steps), below)?;
                let frame = frame.clone()?;
                enter(alloc, model, grown, levels, parent, frame, step, rest)
            }
        },
        Parts::Turns(turns) => {
            if turns.count == 0 {
                return Ok(At::Going(below.clone()?));
            }
            let left = Parts::Turns(Turns {
                body: turns.body,
                index: turns.index + 1,
                count: turns.count - 1,
            });
            let rest = rest(alloc, levels, parent, frame, left, below)?;
            enter_turn(alloc, grown, levels, parent, &**frame, turns, rest)
        }
    }
}

// Reads the next part of a stack.
fn go_on<'a>(
    alloc: Global,
    model: &'a Model,
    grown: &mut Grown,
    stack: &Stack<'a>,
) -> Result<At<'a>, NoMemory>
    requires { IsGrown (tree_of grown.old) }
    ensures reads { IfOk result (λ at. (seed level place : ℕ) (left : List ℕ) → read_stack (view_model model.now) seed stack.now (scenario_of (view_model model.now) level (tree_of grown.old)) place left ≡ read_on (view_model model.now) seed at (scenario_of (view_model model.now) level (tree_of grown.new)) place left) }
    ensures falls { IfOk result (λ at. Falls (tree_of grown.old) stack.now at (tree_of grown.new)) }
    ensures opens { IfOk result (λ at. IsOpen at (tree_of grown.new)) }
    ensures grows { Extends (tree_of grown.old) (tree_of grown.new) }
    ensures grown { IsGrown (tree_of grown.new) }
{
    match stack {
        Stack::Empty => Ok(At::Whole),
        Stack::Over {
            levels,
            parent,
            frame,
            parts,
            below,
        } => go_on_parts(alloc, model, grown, *levels, *parent, frame, *parts, below),
    }
}

/// How many options there are where reading stands.
pub fn options(at: &At<'_>) -> u64
    ensures { result ≡ options_at at.now }
{
    match at {
        At::Place { spot, .. } => spot_options(spot),
        At::Value { fields, .. } => match fields.fields.first() {
            Some(field) => field.domain.size(),
            None => 0,
        },
        _ => 0,
    }
}

/// How many options there are at a place.
pub fn spot_options(spot: &Spot<'_>) -> u64
    ensures { result ≡ options_of (spot_menu spot.now) }
{
    match spot {
        Spot::Instance { options, .. } => options.len() as u64,
        Spot::Branch { branches, .. } => branches.weights.len() as u64,
        Spot::Join(chosen) => chosen_options(chosen),
    }
}

/// How many options there are for the next branch of a block.
pub fn chosen_options(chosen: &Chosen<'_>) -> u64
    ensures { result ≡ options_of (chosen_menu chosen.now) }
{
    if chosen.left == 0 {
        return 0;
    }
    if chosen.more > 0 && chosen.more < chosen.left {
        return 2;
    }
    1
}

/// Goes on to the next place, or to an end.
pub fn settle<'a>(
    alloc: Global,
    model: &'a Model,
    grown: &mut Grown,
    at: At<'a>,
) -> Result<At<'a>, NoMemory>
    requires grown { IsGrown (tree_of grown.old) }
    requires opens { IsOpen at (tree_of grown.old) }
    ensures reads { IfOk result (λ to. SameReading (view_model model.now) at.entry (tree_of grown.old) to (tree_of grown.new)) }
    ensures ready { IfOk result IsReady }
    ensures opens { IfOk result (λ to. IsOpen to (tree_of grown.new)) }
    ensures grows { Extends (tree_of grown.old) (tree_of grown.new) }
    ensures grown { IsGrown (tree_of grown.new) }
{
    let mut at = at;
    while let At::Going(stack) = &at {
        let next = go_on(alloc, model, grown, stack)?;
        at = next;
    }
    if is_closed(&at) {
        return Ok(At::Dead);
    }
    Ok(at)
}

/// Whether it is a place without an option.
pub fn is_closed(at: &At<'_>) -> bool
    requires { IsPlaced at.now }
    ensures closed { result ≡ true → IsClosed at.now }
    ensures ready { result ≡ false → (IsGoing at.now → ⊥) → IsReady at.now }
{
    match at {
        At::Place { spot, .. } => spot_options(spot) == 0,
        At::Value { .. } => options(at) == 0,
        _ => false,
    }
}
