//! The law of budgets, the contract of a function that does nothing.
ghost use Rattle.pst_live_lists.specs.Laws.{FoundWithinBudget, DoneWithinBudget};

/// Where fewer live lists than the budget stand up to a list that reads a legal scenario, and including
/// it, the budget isn't spent. Where fewer stand in all levels that are searched, it isn't either.
pub fn few_lists_spend_no_budget()
    ensures found { FoundWithinBudget }
    ensures done { DoneWithinBudget }
{}
