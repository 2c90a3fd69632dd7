//! Uses in order, and the pairs that those of one resource instance or one state pool keep apart.
ghost use Rattle.std.specs.Prelude.{◌≡◌, ◌⊎◌, ◌≤◌, ◌<◌, ◌+◌, ◌/◌, ◌↔◌, ℕ, Bool, true, false, length, slice_get, Some, IsTrue, IfOk};
ghost use Rattle.pst_graph.specs.declared.uses.Use.{Use};
ghost use Rattle.pst_scen.specs.declared.rows.Rows.{Rows};
ghost use Rattle.pst_scen.specs.Rows.{row_words};
ghost use Rattle.pst_square.specs.Squares.{Adds, IsOneOf};
ghost use Rattle.pst_graph.specs.Uses.{IsApartAt, AreApartIn};
ghost use Rattle.pst_graph.specs.Runs.{use_at, AreTogether, Precedes, Ascend, IsRun, AreBefore, MarksRun};

use crate::apart::add_all_apart;
use crate::uses::Use;
use pst_base::NoMemory;
use pst_square::{Square, mark, no_marks};
use std::alloc::Global;

/// Whether both are of one resource instance or one state pool.
fn are_together(u: Use, v: Use) -> bool
    ensures { IsTrue result ↔ AreTogether u v }
{
    if u.pool != v.pool || u.instance != v.instance {
        return false;
    }
    u.state == v.state
}

/// Whether the first use stands before the second in the order of pools, instances, and claims
/// before states.
fn precedes(u: Use, v: Use) -> bool
    ensures { IsTrue result → Precedes u v }
{
    if u.pool != v.pool {
        return u.pool < v.pool;
    }
    if u.instance != v.instance {
        return u.instance < v.instance;
    }
    !u.state && v.state
}

/// Whether the second use may stand next to the first.
fn may_follow(u: Use, v: Use) -> bool
    ensures { IsTrue result → AreTogether u v ⊎ Precedes u v }
{
    if are_together(u, v) {
        return true;
    }
    precedes(u, v)
}

/// Whether each use may stand next to the one before.
fn ascend(uses: &[Use]) -> bool
    ensures { IsTrue result → Ascend uses.now }
{
    for i in 0..uses.len() {
        if i + 1 < uses.len() {
            if !may_follow(uses[i], uses[i + 1]) {
                return false;
            }
        }
    }
    true
}

/// Where the uses of that one's instance or state pool end.
fn end_of_run(uses: &[Use], from: usize) -> usize
    requires within { from < length uses.now }
    requires ascend { Ascend uses.now }
    requires before { AreBefore uses.now from }
    ensures more { from < result }
    ensures run { IsRun uses.now from result }
    ensures before { AreBefore uses.now result }
{
    let mut to = from + 1;
    'rest: while to < uses.len() {
        if !are_together(uses[from], uses[to]) {
            return to;
        }
        to += 1;
    }
    to
}

/// Whether a use that excludes every other, or each, is asked for.
fn counts(u: Use, lone: bool) -> bool
    ensures { IsTrue result ↔ (lone ≡ false) ⊎ (u.alone ≡ true) }
{
    !lone || u.alone
}

/// Adds the action of the use, where it counts.
fn mark_use(marks: &mut [u64], uses: &[Use], from: usize, i: usize, lone: bool)
    requires i_in { i < length uses.now }
    requires low { from ≤ i }
    requires act_in { (use_at uses.now i).act / 64 < length marks.old }
    requires before { MarksRun marks.old uses.now from i lone }
    ensures many { length marks.new ≡ length marks.old }
    ensures marked { MarksRun marks.new uses.now from (i + 1) lone }
{
    let one = uses[i];
    if counts(one, lone) {
        mark(marks, one.act);
    }
}

/// The actions of the run's uses, or only of those that exclude every other.
fn marks_of(
    alloc: Global,
    uses: &[Use],
    from: usize,
    to: usize,
    count: u32,
    lone: bool,
) -> Result<Vec<u64>, NoMemory>
    requires inside { (i : ℕ) (v : Use) → slice_get uses.now i ≡ Some v → v.act < count }
    requires to_in { to ≤ length uses.now }
    requires order { from < to }
    ensures { IfOk result (λ marks. (length marks.items ≡ row_words count) × MarksRun marks.items uses.now from to lone) }
{
    let mut marks = no_marks(alloc, count)?;
    for i in from..to {
        mark_use(&mut marks, uses, from, i, lone);
    }
    Ok(marks)
}

/// Adds the pairs of the use's action with those from which one of the uses keeps it apart.
fn add_use(
    square: &mut Square,
    uses: &[Use],
    from: usize,
    to: usize,
    i: usize,
    all: &[u64],
    lone: &[u64],
)
    requires inside { (j : ℕ) (v : Use) → slice_get uses.now j ≡ Some v → v.act < square.old.size }
    requires run { IsRun uses.now from to }
    requires low { from ≤ i }
    requires high { i < to }
    requires all_many { length all.now ≡ row_words square.old.size }
    requires lone_many { length lone.now ≡ row_words square.old.size }
    requires all { MarksRun all.now uses.now from to false }
    requires lone { MarksRun lone.now uses.now from to true }
    ensures { Adds square.old square.new (IsApartAt uses.now i) }
{
    let one = uses[i];
    if one.alone {
        square.add_marked(one.act, all);
    } else {
        square.add_marked(one.act, lone);
    }
}

/// Adds the pairs of the run's actions with those from which one of the uses keeps them apart.
fn add_run(
    alloc: Global,
    square: &mut Square,
    uses: &[Use],
    from: usize,
    to: usize,
    count: u32,
) -> Result<(), NoMemory>
    requires inside { (j : ℕ) (v : Use) → slice_get uses.now j ≡ Some v → v.act < square.old.size }
    requires count { square.old.size ≡ count }
    requires run { IsRun uses.now from to }
    requires order { from < to }
    ensures added { IfOk result (λ u. (first : Rows) → Adds first square.old (IsOneOf (IsApartAt uses.now) from) → Adds first square.new (IsOneOf (IsApartAt uses.now) to)) }
    ensures sized { square.new.size ≡ square.old.size }
{
    let all = marks_of(alloc, uses, from, to, count, false)?;
    let lone = marks_of(alloc, uses, from, to, count, true)?;
    for i in from..to {
        add_use(square, uses, from, to, i, &all, &lone);
    }
    Ok(())
}

/// Adds the pairs of actions that two of the uses keep apart, a run at a time.
fn add_runs(alloc: Global, square: &mut Square, uses: &[Use], count: u32) -> Result<(), NoMemory>
    requires inside { (j : ℕ) (v : Use) → slice_get uses.now j ≡ Some v → v.act < square.old.size }
    requires count { square.old.size ≡ count }
    requires ascend { Ascend uses.now }
    ensures { IfOk result (λ u. Adds square.old square.new (AreApartIn uses.now)) }
{
    let mut from = 0;
    'runs: while from < uses.len() {
        let to = end_of_run(uses, from);
        add_run(alloc, square, uses, from, to, count)?;
        from = to;
    }
    Ok(())
}

/// Adds the pairs of actions that two of the uses keep apart, in an order of its own.
pub(crate) fn add_conflicts(
    alloc: Global,
    square: &mut Square,
    mut uses: Vec<Use>,
    count: u32,
) -> Result<(), NoMemory>
    requires inside { (j : ℕ) (v : Use) → slice_get uses.items j ≡ Some v → v.act < square.old.size }
    requires count { square.old.size ≡ count }
    ensures { IfOk result (λ u. Adds square.old square.new (AreApartIn uses.items)) }
{
    uses.sort()?;
    if ascend(&uses) {
        return add_runs(alloc, square, &uses, count);
    }
    add_all_apart(square, &uses);
    Ok(())
}
