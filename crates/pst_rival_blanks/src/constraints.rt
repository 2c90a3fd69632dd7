//! Constraints that keep rivals apart.
ghost use Rattle.std.specs.Prelude.{◌≡◌, IfOk, map};
ghost use Rattle.pst_expr.specs.Tree.{view};
ghost use Rattle.pst_model.specs.ModelView.{view_model};
ghost use Rattle.pst_model.specs.Sound.{IsSound};
ghost use Rattle.pst_order.specs.Built.{IsBuilt};
ghost use Rattle.pst_rival_blanks.specs.Pairs.{differing, AreMetWherePlanned};

use crate::pairs::{Rival, rivals};
use pst_base::NoMemory;
use pst_expr::{BinaryOp, Expr};
use pst_model::Model;
use pst_scen::Scenario;
use std::alloc::Global;

// That the values of the two blanks aren't equal.
fn differ(alloc: Global, rival: &Rival) -> Result<Expr, NoMemory>
    ensures { IfOk result (λ e. view e ≡ differing rival.now) }
{
    let earlier = Box::new(alloc, Expr::Variable(rival.earlier))?;
    let later = Box::new(alloc, Expr::Variable(rival.later))?;
    Ok(Expr::Binary(BinaryOp::NotEqual, earlier, later))
}

/// For each pair of blanks that their values aren't equal, where variable i is the value of blank i.
pub fn differing(alloc: Global, rivals: &[Rival]) -> Result<Vec<Expr>, NoMemory>
    ensures { IfOk result (λ es. map view es.items ≡ map differing rivals.now) }
{
    let mut constraints = Vec::new(alloc);
    for rival in rivals {
        constraints.push(differ(alloc, rival)?)?;
    }
    Ok(constraints)
}

/// The constraints over the blanks that keep claims apart, of a scenario whose activity and sources are read, and of
/// which no claim and no value is read: variable i is the value of blank i, and no two rivals (`rivals`) have one.
/// They hold of all options with which a plan doesn't refuse the scenario.
pub fn rival_constraints(
    alloc: Global,
    model: &Model,
    scenario: &Scenario,
) -> Result<Vec<Expr>, NoMemory>
    requires sound { IsSound (view_model model.now) }
    requires built { IsBuilt scenario.now }
    ensures { IfOk result (λ es. AreMetWherePlanned (view_model model.now) scenario.now (map view es.items)) }
{
    let pairs = rivals(alloc, model, scenario)?;
    differing(alloc, &pairs)
}
