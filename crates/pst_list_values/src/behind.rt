//! The values that choices behind the sources have given.
ghost use Rattle.std.specs.Prelude.{◌≡◌, ℕ, ◌<◌, ◌≤◌, ◌++◌, length, true, false, None, IfOk, IfSome, OnOk};
ghost use Rattle.pst_model.specs.ModelView.{view_model};
ghost use Rattle.pst_model.specs.Sound.{IsSound};
ghost use Rattle.pst_legal.specs.First.{NoneRefused};
ghost use Rattle.pst_shape.specs.Walks.{HasDigit, IfRead};
ghost use Rattle.pst_link_walk.specs.Walks.{with_choice};
ghost use Rattle.pst_order.specs.Built.{IsBuilt};
ghost use Rattle.pst_built.specs.SoFar.{HasRead};
ghost use Rattle.pst_plan_so_far.specs.Laws.{ReadsSources};
ghost use Rattle.pst_list_walk.specs.Walks.{answer, IsRead, HasFront};
ghost use Rattle.pst_refusals.specs.Answers.{StandEarlier};
ghost use Rattle.pst_written_constraints.specs.PassedOn.{LinksJoin};
ghost use Rattle.pst_search_loop.specs.Kept.{IsConflict};
ghost use Rattle.pst_list_values.specs.Walked.{kept_of};
ghost use Rattle.pst_list_values.specs.Tied.{IsTied, IsOf, IsWithValue, IsFurther, IsShorter, HasGiven, IsRefusal, IsOpenAt, IsSameWalk, IsBegunOf};

use crate::copies::copy_scenario;
use pst_base::NoMemory;
use pst_domain::Bounds;
use pst_expr::Expr;
use pst_list_walk::ListWalk;
use pst_model::Model;
use pst_plan_so_far::sources_are_built;
use pst_read_domains::{links_join_pools, nodes_stand_for_pieces};
use pst_rival_blanks::rival_constraints;
use pst_scen::{Next, Scenario};
use pst_search_loop::Conflict;
use pst_search_places::{few_places_conflict, of_places};
use pst_value_search::{Valued, refusals_hold_nothing};
use pst_written_constraints::{Written, write_constraints};
use std::alloc::Global;

/// How many choices read the activity and the sources, whether each constraint of the scenario was written over its
/// blanks, and the values that choices behind the sources have given: none are kept where no values keep the
/// constraints.
#[derive(Drop)]
pub struct Behind {
    /// How many choices read the activity and the sources.
    pub front: usize,
    /// Whether each constraint of the scenario was written.
    pub whole: bool,
    /// The values given.
    pub valued: Option<Valued>,
}

// The value, where it is known.
fn number_of(value: Option<i64>) -> i64
    ensures { IfSome value (λ v. result ≡ v) }
{
    match value {
        Some(value) => value,
        None => 0,
    }
}

impl Behind {
    // One value more.
    fn with_value(self, value: i64) -> Result<Behind, NoMemory>
        ensures { IfOk result (λ b. IsWithValue self value b) }
    {
        let Behind {
            front,
            whole,
            valued,
        } = self;
        let Some(mut given) = valued else {
            return Ok(Behind {
                front,
                whole,
                valued: None,
            });
        };
        given.give(value)?;
        Ok(Behind {
            front,
            whole,
            valued: Some(given),
        })
    }

    // One value more. Nothing is kept any more where it isn't known.
    fn further(self, value: Option<i64>) -> Result<Option<Behind>, NoMemory>
        ensures { IfOk result (λ b. IsFurther self value b) }
    {
        let Some(_known) = value else {
            return Ok(None);
        };
        let number = number_of(value);
        let further = self.with_value(number)?;
        Ok(Some(further))
    }

    // One value less.
    fn shorter(self) -> Behind
        requires { HasGiven self.valued }
        ensures { IsShorter self result }
    {
        let Behind {
            front,
            whole,
            valued,
        } = self;
        match valued {
            None => Behind {
                front,
                whole,
                valued: None,
            },
            Some(mut given) => {
                given.take_back();
                Behind {
                    front,
                    whole,
                    valued: Some(given),
                }
            }
        }
    }

    // Why the values can't be, if that is known.
    fn refusal(&self) -> Option<&[u32]>
        ensures why { IfSome result (λ places. IsRefusal self.now.valued places.now) }
        ensures none { result ≡ None → IsOpenAt self.now.valued }
    {
        match &self.valued {
            None => Some(&[]),
            Some(valued) => valued.refusal(),
        }
    }
}

// Whether the list has come to a dead end.
fn is_dead(lists: &ListWalk<'_>) -> bool
    ensures { result ≡ false → IsRead (answer lists.now) }
{
    match lists.next() {
        Next::Dead => true,
        _ => false,
    }
}

// What the list has read, in a copy, where it has read the sources and has come to no dead end.
fn copy_read(alloc: Global, lists: &ListWalk<'_>) -> Result<Option<Scenario>, NoMemory>
    ensures read { IfOk result (λ o. IfSome o (λ s. HasRead (answer lists.now) s)) }
    ensures sources { IfOk result (λ o. IfSome o (λ s. ReadsSources (view_model lists.now.model) lists.now.root lists.now.seed lists.now.level lists.now.choices)) }
{
    let dead = is_dead(lists);
    if dead {
        return Ok(None);
    }
    let Some(scenario) = lists.scenario() else {
        return Ok(None);
    };
    let copy = copy_scenario(alloc, scenario)?;
    Ok(Some(copy))
}

// These constraints, and then those.
fn with_more(constraints: Vec<Expr>, more: Vec<Expr>) -> Result<Vec<Expr>, NoMemory>
    ensures { IfOk result (λ all. all.items ≡ constraints.items ++ more.items) }
{
    let mut all = constraints;
    let mut more = more;
    all.append(&mut more)?;
    Ok(all)
}

// No value of a scenario's blanks is given yet, behind so many choices. Claims that a plan keeps apart have different
// values.
fn begin_values(
    alloc: Global,
    model: &Model,
    linked: Scenario,
    front: usize,
) -> Result<Behind, NoMemory>
    requires sound { IsSound (view_model model.now) }
    requires joins { LinksJoin linked.actions }
    requires earlier { StandEarlier linked.nodes }
    requires built { IsBuilt linked }
    ensures front { IfOk result (λ b. b.front ≡ front) }
    ensures begun { IfOk result (λ b. IsBegunOf (view_model model.now) linked b.whole b.valued) }
{
    let rivals = rival_constraints(alloc, model, &linked)?;
    let written = write_constraints(alloc, model, linked)?;
    let Written {
        constraints,
        spans,
        whole,
    } = written;
    let all = with_more(constraints, rivals)?;
    let bounds = Bounds::new(spans);
    let valued = Valued::new(alloc, all, bounds)?;
    Ok(Behind {
        front,
        whole,
        valued,
    })
}

// The values behind the sources, of which none is given yet, where all choices read the sources.
fn begin_linked(
    alloc: Global,
    lists: &ListWalk<'_>,
    front: usize,
) -> Result<Option<Behind>, NoMemory>
    requires sound { IsSound (view_model lists.now.model) }
    requires front { HasFront lists.now front }
    requires all { front ≡ length lists.now.choices }
    ensures { IfOk result (λ b. IsTied lists.now b) }
{
    links_join_pools();
    nodes_stand_for_pieces();
    sources_are_built();
    let Some(linked) = copy_read(alloc, lists)? else {
        return Ok(None);
    };
    let begun = begin_values(alloc, lists.model(), linked, front)?;
    Ok(Some(begun))
}

// Where the sources have just been read through, the values behind them, of which none is given yet.
fn begin(alloc: Global, lists: &ListWalk<'_>) -> Result<Option<Behind>, NoMemory>
    requires { IsSound (view_model lists.now.model) }
    ensures { IfOk result (λ b. IsTied lists.now b) }
{
    let Some(front) = lists.front()? else {
        return Ok(None);
    };
    let count = lists.count()?;
    if front != count {
        return Ok(None);
    }
    begin_linked(alloc, lists, front)
}

// Makes a choice where nothing is kept.
fn choose_first(
    alloc: Global,
    lists: &mut ListWalk<'_>,
    digit: u64,
) -> Result<Option<Behind>, NoMemory>
    requires sound { IsSound (view_model lists.old.model) }
    requires digit { HasDigit (answer lists.old) digit }
    ensures chosen { OnOk result (lists.new ≡ with_choice lists.old digit) }
    ensures tied { IfOk result (λ b. IsTied lists.new b) }
    ensures same { IsSameWalk lists.old lists.new }
{
    lists.choose(digit)?;
    let begun = begin(alloc, lists)?;
    Ok(begun)
}

// Makes a choice behind the sources, and gives its value.
fn choose_next(
    lists: &mut ListWalk<'_>,
    behind: Behind,
    digit: u64,
) -> Result<Option<Behind>, NoMemory>
    requires given { IsOf lists.old behind }
    requires digit { HasDigit (answer lists.old) digit }
    ensures chosen { OnOk result (lists.new ≡ with_choice lists.old digit) }
    ensures tied { IfOk result (λ b. IsTied lists.new b) }
    ensures same { IsSameWalk lists.old lists.new }
{
    let value = lists.value(digit);
    lists.choose(digit)?;
    let further = behind.further(value)?;
    Ok(further)
}

/// Makes a choice, and gives its value where it is one behind the sources.
pub fn choose_at(
    alloc: Global,
    lists: &mut ListWalk<'_>,
    behind: Option<Behind>,
    digit: u64,
) -> Result<Option<Behind>, NoMemory>
    requires sound { IsSound (view_model lists.old.model) }
    requires tied { IsTied lists.old behind }
    requires digit { HasDigit (answer lists.old) digit }
    ensures chosen { OnOk result (lists.new ≡ with_choice lists.old digit) }
    ensures tied { IfOk result (λ b. IsTied lists.new b) }
    ensures same { IsSameWalk lists.old lists.new }
{
    match behind {
        None => choose_first(alloc, lists, digit),
        Some(behind) => choose_next(lists, behind, digit),
    }
}

// Whether fewer choices are left than read the sources, or it isn't known how many are.
fn is_before(lists: &ListWalk<'_>, front: usize) -> bool
    ensures { result ≡ false → front ≤ length lists.now.choices }
{
    match lists.count() {
        Ok(count) => count < front,
        Err(_) => true,
    }
}

/// Takes the last choice back, and its value.
pub fn back_at(lists: &mut ListWalk<'_>, behind: Option<Behind>) -> Option<Behind>
    requires tied { IsTied lists.old behind }
    requires some { 0 < length lists.old.choices }
    ensures back { (digit : ℕ) × (lists.old ≡ with_choice lists.new digit) }
    ensures tied { IsTied lists.new result }
{
    lists.back();
    let Some(behind) = behind else {
        return None;
    };
    let before = is_before(lists, behind.front);
    if before {
        return None;
    }
    Some(behind.shorter())
}

/// Why the values behind the sources can't be: a conflict of few places, where it is known. Where it isn't and each
/// constraint was written, the list refuses none.
pub fn refusal_at(
    alloc: Global,
    lists: &ListWalk<'_>,
    behind: &Behind,
) -> Result<Option<Conflict>, NoMemory>
    requires { IsOf lists.now behind.now }
    ensures conflict { IfOk result (λ found. IfSome found (λ c. IsConflict (kept_of lists.now) c)) }
    ensures open { IfOk result (λ found. found ≡ None → behind.now.whole ≡ true → IfRead (answer lists.now) (NoneRefused (view_model lists.now.model))) }
{
    few_places_conflict();
    refusals_hold_nothing();
    let Some(places) = behind.refusal() else {
        return Ok(None);
    };
    let conflict = of_places(alloc, behind.front, places)?;
    Ok(Some(conflict))
}
