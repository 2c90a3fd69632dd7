//! The pairs that references name: what is linked comes before the action whose reference it is.
ghost use Rattle.std.specs.Prelude.{◌≡◌, ◌≤◌, ◌<◌, ◌↔◌, ℕ, length, slice_get, Some, IsTrue, MatchOption};
ghost use Rattle.pst_scen.specs.Flows.{IsAct, LeadsTo};
ghost use Rattle.pst_scen.specs.declared.act.Filled.{Filled};
ghost use Rattle.pst_order.specs.Facts.{IsLinked};
ghost use Rattle.pst_square.specs.Squares.{Adds, IsPair};
ghost use Rattle.pst_graph.specs.Named.{NamesEarlier, IsNaming, IsNamingIn, IsNamedBy, IsNamed};

use crate::cause::act_at;
use pst_scen::{Filled, Flow, Link, Scenario};
use pst_square::Square;

/// Whether what a reference of this kind is linked to comes before its action.
fn names_earlier(flow: Flow) -> bool
    ensures { IsTrue result ↔ NamesEarlier flow }
{
    match flow {
        Flow::BufferIn => true,
        Flow::StateIn => true,
        Flow::StateOut => true,
        _ => false,
    }
}

/// The action to which the link leads.
fn act_of(link: Link) -> Option<u32>
    ensures { MatchOption result ((a : ℕ) → LeadsTo link a → ⊥) (LeadsTo link) }
{
    match link {
        Link::Act { act, .. } => Some(act),
        _ => None,
    }
}

/// Adds the pair of the action that the reference names with the reference's own.
fn add_naming(square: &mut Square, filled: &Filled, x: u32)
    requires inside { (a : ℕ) → LeadsTo filled.now.link a → a < square.old.size }
    requires x_in { x < square.old.size }
    ensures { Adds square.old square.new (IsNaming filled.now x) }
{
    if !names_earlier(filled.flow) {
        return;
    }
    let Some(a) = act_of(filled.link) else {
        return;
    };
    square.add(a, x);
}

/// Adds the pairs of the actions that the references name with their own.
fn add_namings(square: &mut Square, references: &[Filled], x: u32)
    requires inside { (i a : ℕ) (filled : Filled) → slice_get references.now i ≡ Some filled → LeadsTo filled.link a → a < square.old.size }
    requires x_in { x < square.old.size }
    ensures { Adds square.old square.new (IsNamingIn references.now x) }
{
    for i in 0..references.len() {
        add_naming(square, &references[i], x);
    }
}

/// Adds the pairs of the actions that the action's references name with itself.
fn add_named_by(square: &mut Square, scenario: &Scenario, x: u32)
    requires linked { IsLinked scenario.now }
    requires size { square.old.size ≡ length scenario.now.actions }
    requires x_in { x < length scenario.now.actions }
    ensures { Adds square.old square.new (IsNamedBy scenario.now x) }
{
    let act = act_at(scenario, x);
    add_namings(square, act.references.as_slice(), x);
}

/// Adds the pairs of which a reference of the second action names the first as what comes before.
pub(crate) fn add_named(square: &mut Square, scenario: &Scenario, count: u32)
    requires linked { IsLinked scenario.now }
    requires size { square.old.size ≡ length scenario.now.actions }
    requires count { count ≡ length scenario.now.actions }
    ensures { Adds square.old square.new (IsNamed scenario.now) }
{
    for x in 0..count {
        add_named_by(square, scenario, x);
    }
}
