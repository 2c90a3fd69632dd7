//! The uses in binds of activities.
ghost use Rattle.std.specs.Prelude.{◌≡◌, OnOk, map};
ghost use Rattle.std.specs.List.{fold};
ghost use Rattle.pst_ast.specs.ActivityView.{view_bind, view_other_ends};
ghost use Rattle.pst_ast.specs.Uses.{bind_uses, end_use, other_ends};

use pst_ast::{BindNode, EndNode, Environment, NextEnd, OtherEnds};
use pst_base::NoMemory;
use pst_walk_parts::Visitor;

// Shows a bind and its ends.
#[tactic(auto, using(crate::proofs::Folds::fold_append))]
pub fn show_bind<V: Visitor>(
    visitor: &mut V,
    at: &Environment,
    bind: &BindNode,
) -> Result<(), NoMemory>
    ensures { OnOk result (visitor.new ≡ fold V.step visitor.old (bind_uses at.now (view_bind bind.now))) }
{
    visitor.ties(at, bind.first, &bind.others)?;
    show_end(visitor, at, bind.first)?;
    show_other_ends(visitor, at, &bind.others)
}

// Shows an end of a bind.
fn show_end<V: Visitor>(visitor: &mut V, at: &Environment, end: EndNode) -> Result<(), NoMemory>
    ensures { OnOk result (visitor.new ≡ V.step visitor.old (end_use at.now end)) }
{
    visitor.ends(at, end.handle, end.name)
}

// Shows the ends behind the first.
#[tactic(auto, using(crate::proofs::Folds::fold_append))]
fn show_other_ends<V: Visitor>(
    visitor: &mut V,
    at: &Environment,
    others: &OtherEnds,
) -> Result<(), NoMemory>
    ensures { OnOk result (visitor.new ≡ fold V.step visitor.old (map (end_use at.now) (other_ends (view_other_ends others.now)))) }
{
    match others {
        OtherEnds::One(end) => show_end(visitor, at, *end),
        OtherEnds::Several { first, rest, .. } => {
            show_end(visitor, at, *first)?;
            show_next_ends(visitor, at, rest.as_slice())
        }
    }
}

// Shows the ends behind the first in braces.
#[tactic(auto, using(crate::proofs::Folds::fold_append))]
fn show_next_ends<V: Visitor>(
    visitor: &mut V,
    at: &Environment,
    ends: &[NextEnd],
) -> Result<(), NoMemory>
    ensures { OnOk result (visitor.new ≡ fold V.step visitor.old (map (end_use at.now) (map (λ next. next.end) ends.now))) }
{
    for next in ends {
        show_end(visitor, at, next.end)?;
    }
    Ok(())
}
