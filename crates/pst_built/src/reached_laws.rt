//! Laws of what lists of choices lead to.
ghost use Rattle.pst_built.specs.ReachedLaws.{ActivitiesAreRead, SourcesAreRead, ValuesAreRead, SuppliedScenariosAreRead, LegalScenariosAreRead};

/// Each fill of the root's activity is read by some choices.
pub fn activities_are_read()
    ensures { ActivitiesAreRead }
{}

/// From its leaves on, the links of a scenario whose needs have their sources are read by some
/// choices, and with them the actions that it infers.
pub fn sources_are_read()
    ensures { SourcesAreRead }
{}

/// From its links on, the values of a scenario are read by some choices: the instances that it
/// claims, its first objects, and the fields of its actions, of what they write and of what they
/// claim.
pub fn values_are_read()
    ensures { ValuesAreRead }
{}

/// Each scenario of a sound model that fills the root and whose needs have their sources is read
/// whole by some list of choices of its level, whatever the seed is. So is each legal scenario.
pub fn legal_scenarios_are_read()
    ensures supplied { SuppliedScenariosAreRead }
    ensures legal { LegalScenariosAreRead }
{}
