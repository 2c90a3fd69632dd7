//! What a whole list says of a plan.
use pst_scen::Plan;
use pst_search_loop::Conflict;

/// What a whole list says of a plan.
#[derive(Drop)]
pub(crate) enum Planned {
    /// A plan of its scenario.
    There(Plan),
    /// Its scenario has none, nor is any other legal that agrees with these choices.
    Refused(Conflict),
}
