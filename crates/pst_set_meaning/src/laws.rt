//! Laws of the definitions: each function here does nothing but call other laws, and its contract
//! is a law.
ghost use Rattle.pst_set_meaning.specs.Laws.{DeclarationsMean, PoolRulesComeFirst, RangesMean, SetsMean};
ghost use Rattle.pst_set_meaning.specs.Tried.{OrdersAreTried};

/// A set of constraints becomes constraints that hold together exactly where the set holds.
pub fn sets_mean()
    ensures { SetsMean }
{
    pst_elab_rules::rewritings_mean();
    pst_terms::rewriting_keeps_values();
}

/// A declared constraint becomes constraints that hold together exactly where it holds.
pub fn declarations_mean()
    ensures { DeclarationsMean }
{
    pst_elab_rules::rewritings_mean();
    pst_terms::rewriting_keeps_values();
}

/// What stands before an `in` is in one of its ranges exactly where the whole has a value other
/// than 0.
pub fn ranges_mean()
    ensures { RangesMean }
{
    pst_elab_rules::rewritings_mean();
    pst_terms::rewriting_keeps_values();
}

/// Where a rule of pools is broken, that comes before the breach of a root that there isn't.
pub fn pool_rules_come_first()
    ensures { PoolRulesComeFirst }
{}

/// In the models of small sources the constraints of a base stand before those of the action derived
/// from it, each index of nested repetitions is of its own level, and the first end of a bind is tied to
/// each other one.
pub fn orders_are_tried()
    ensures { OrdersAreTried }
{}
