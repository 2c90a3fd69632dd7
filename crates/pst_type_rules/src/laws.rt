//! Laws of the definitions: each function here does nothing, and its contract is a law.
ghost use Rattle.pst_type_rules.specs.Laws.{TypeBreachesHaveOneLeast, ConstantsAreOne};
ghost use Rattle.pst_type_rules.specs.Tried.{SourcesAreTried};
ghost use Rattle.pst_type_rules.specs.TriedRules.{RulesAreTried};
ghost use Rattle.pst_type_rules.specs.TriedMore.{MoreAreTried};
ghost use Rattle.pst_type_rules.specs.TriedParts.{PartsAreTried};
ghost use Rattle.pst_type_rules.specs.TriedRight.{RightIsTried};

/// Of the breaches of the rules of types at most one is the least.
pub fn type_breaches_have_one_least()
    ensures { TypeBreachesHaveOneLeast }
{
    pst_base::places_are_ordered();
}

/// Sources have at most one list of constants.
pub fn constants_are_one()
    ensures { ConstantsAreOne }
{
    pst_base::places_are_ordered();
}

/// Which rules small sources break, and where.
pub fn sources_are_tried()
    ensures { SourcesAreTried }
{}

/// The same of a source that breaks many rules.
pub fn rules_are_tried()
    ensures { RulesAreTried }
{}

/// The same with counts, binds and derived actions.
pub fn more_are_tried()
    ensures { MoreAreTried }
{}

/// Uses that break no rule, among them values at their limits.
pub fn right_is_tried()
    ensures { RightIsTried }
{}

/// The same where activities are inherited, and where a body assigns to a handle.
pub fn parts_are_tried()
    ensures { PartsAreTried }
{}
