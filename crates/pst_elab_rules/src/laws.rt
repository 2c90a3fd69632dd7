//! Laws of the definitions: each function here does nothing, and its contract is a law.
ghost use Rattle.pst_elab_rules.specs.Laws.{AnswersAreApart, FirstBreachesAreOne, ModelsAreInOrder, ModelsAreOne};
ghost use Rattle.pst_elab_rules.specs.Meaning.{RewritingsMean};
ghost use Rattle.pst_elab_rules.specs.TriedRows.{RowsAreTried};
ghost use Rattle.pst_elab_rules.specs.TriedStatements.{StatementsAreTried};

/// Sources have at most one model.
pub fn models_are_one()
    ensures { ModelsAreOne }
{
    pst_type_rules::constants_are_one();
    pst_type_rules::types_have_one_domain();
    pst_tree::instances_are_one();
}

/// In a model of sources the instances stand in preorder, and what pools serve by action, instance
/// and reference.
pub fn models_are_in_order()
    ensures { ModelsAreInOrder }
{
    pst_tree::instances_are_in_preorder();
}

/// At most one breach is the first.
pub fn first_breaches_are_one()
    ensures { FirstBreachesAreOne }
{
    pst_base::places_are_ordered();
    pst_tree::instances_are_one();
}

/// Sources that are elaborated break no rule and no limit, and have one model and one root.
pub fn answers_are_apart()
    ensures { AnswersAreApart }
{
    models_are_one();
    pst_tree::instances_are_one();
}

/// What `in`, `unique`, implications, `if` and `foreach` mean after their rewriting.
pub fn rewritings_mean()
    ensures { RewritingsMean }
{}

/// The models of small sources.
pub fn rows_are_tried()
    ensures { RowsAreTried }
{}

/// The same with states, bodies, join forms and derived actions.
pub fn statements_are_tried()
    ensures { StatementsAreTried }
{}
