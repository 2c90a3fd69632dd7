//! The names of runs.
use std::marker::Brand;

/// Of which run a desk is: its scenario, plan, number of lanes and table of mailboxes.
///
/// No value of it is made: contracts and proofs alone see its members.
pub trait Name {
    ghost use Rattle.std.specs.Prelude.{ℕ};
    ghost use Rattle.atomic_table.specs.Seated.{TableId};
    ghost use Rattle.pst_scen.specs.declared.scenario.Scenario.{Scenario as AnyScenario};
    ghost use Rattle.pst_scen.specs.Plan.{Entries};

    ghost scenario: { AnyScenario };

    ghost plan: { Entries };

    ghost lanes: { ℕ };

    ghost table: { TableId };
}

impl Name for Brand {
    ghost use Rattle.pst_desk.specs.Names.{no_scenario, no_plan, no_table};

    ghost scenario = { no_scenario };

    ghost plan = { no_plan };

    ghost lanes = { 0 };

    ghost table = { no_table };
}
