// Whether a scenario links anything.
use pst_scen::{Act, Link, Scenario};

// Whether some reference of an action is linked.
fn is_linked(act: &Act) -> bool {
    for filled in act.references.as_slice() {
        if filled.link != Link::Nothing {
            return true;
        }
    }
    false
}

/// Whether some reference is linked.
pub(crate) fn is_some_linked(scenario: &Scenario) -> bool {
    for act in scenario.actions.as_slice() {
        if is_linked(act) {
            return true;
        }
    }
    false
}
