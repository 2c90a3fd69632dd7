//! Laws of the definitions: each function here does nothing, and its contract is a law.
ghost use Rattle.pst_ast.specs.PathAnswers.{PathsHaveOneAnswer};
ghost use Rattle.pst_ast.specs.ScopeLaws.{NameBreachesHaveOneLeast, ScopesAreOne};
ghost use Rattle.pst_ast.specs.Tried.{NamesAreTried};
ghost use Rattle.pst_ast.specs.TriedMembers.{MembersAreTried};
ghost use Rattle.pst_ast.specs.TriedPaths.{PathsAreTried};

/// Of the breaches of the rules of names at most one is the least.
pub fn name_breaches_have_one_least()
    ensures { NameBreachesHaveOneLeast }
{
    pst_base::places_are_ordered();
}

/// Sources have at most one list of types and one list of meanings.
pub fn scopes_are_one()
    ensures { ScopesAreOne }
{
    pst_base::places_are_ordered();
}

/// What names stand for, and which rules they break, in a small source.
pub fn names_are_tried()
    ensures { NamesAreTried }
{}

/// The same with handles, locals, instances, pool binds and loops.
pub fn members_are_tried()
    ensures { MembersAreTried }
{}

/// Each path has one answer: what its names stand for, or its first wrong name and the rule that it
/// breaks.
pub fn paths_have_one_answer()
    ensures { PathsHaveOneAnswer }
{}

/// The answers on paths with names behind dots, in the same source with more members.
pub fn paths_are_tried()
    ensures { PathsAreTried }
{}
