//! Laws of the definitions: each function here does nothing, and its contract is a law.
ghost use Rattle.pst_use_rules.specs.Laws.{AssignmentsAreJudged, BindsAreJudged, CallsAreJudged, CountsAreJudged, ExpressionsAreJudged};

/// What is found of an expression is the least of what it breaks, where the values of items are
/// known.
pub fn expressions_are_judged()
    ensures { ExpressionsAreJudged }
{
    pst_evaluate::constants_are_found();
    pst_base::places_are_ordered();
}

/// What is found of the items of a `unique`, and of the branches of a block, is the least of what
/// they break.
pub fn counts_are_judged()
    ensures { CountsAreJudged }
{}

/// What is found of a bind of an activity, and of a target of a pool's bind, is the least of what
/// they break.
pub fn binds_are_judged()
    ensures { BindsAreJudged }
{
    pst_base::places_are_ordered();
}

/// What is found of an assignment is the least of what it breaks.
pub fn assignments_are_judged()
    ensures { AssignmentsAreJudged }
{}

/// What is found of a traversal, and of a call, is the least of what it breaks.
pub fn calls_are_judged()
    ensures { CallsAreJudged }
{}
